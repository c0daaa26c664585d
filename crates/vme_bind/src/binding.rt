//! A binding, and how its text is read.

ghost use Rattle.std.specs.Prelude.{◌≡◌, ◌++◌, ◌∷◌, [], MatchOption, IfSome, OnOk, Ok, Err, codes, replicate};
ghost use Rattle.vme_trace.specs.LineNumbers.{line_count};
ghost use Rattle.vme_trace.specs.declared.level.Level.TheVariants.{Unknown};
ghost use Rattle.vme_bind.specs.declared.fault.BindFaultKind.TheVariants.{BadLine, SlotsFirst};
ghost use Rattle.vme_bind.specs.Answers.{BindGives, at_line};
ghost use Rattle.vme_bind.specs.Binding.{binding_of};
ghost use Rattle.vme_bind.specs.Sources.{source_of};

use crate::assignment::Assignment;
use crate::fault::{BindFault, BindFaultKind};
use crate::group::Group;
use crate::source::LevelSource;
use crate::statements::{Statement, Statements};
use std::alloc::{AllocError, Global};
use std::marker::Model;
use vme_trace::{LINE_COUNT, Level, Line, Lines, MOST_SLOTS};

/// What each line of a backplane is bound to.
#[derive(Drop)]
pub struct Binding {
    /// The backplane, with all lines unknown.
    lines: Lines,
    /// In the order of the text.
    assignments: Vec<Assignment>,
}

impl Model for Binding {
    ghost use Rattle.std.specs.Prelude.{◌≡◌, replicate};
    ghost use Rattle.vme_trace.specs.LineNumbers.{line_count};
    ghost use Rattle.vme_trace.specs.declared.level.Level.TheVariants.{Unknown};
    ghost use Rattle.vme_bind.specs.Binding.{BoundLines};

    ghost Value = { BoundLines };

    ghost view = { λ b. record { slots = b.lines.slots; assignments = b.assignments.items } };

    ghost invariant = { λ b. b.lines.levels ≡ replicate line_count Unknown };
}

impl Binding {
    ghost use Rattle.vme_bind.specs.Reading.{as_text, rest_statements, last_line};
    ghost use Rattle.vme_bind.specs.Binding.{slot_count, slots_stated, name_and_source, is_taken, is_bound, bound};
    ghost use Rattle.vme_bind.specs.Binding.{bound_all, least_unbound, no_assignments, with_high, with_left_out};

    /// The number of slots that `word` says: 1 to 21, without a leading zero.
    fn slot_count(word: &[u8]) -> Option<u8>
        ensures { result ≡ slot_count word.now }
    {
        match word {
            [digit @ b'1'..=b'9'] => Some(*digit - b'0'),
            [ten @ b'1'..=b'9', digit @ b'0'..=b'9'] => {
                let count = (*ten - b'0') * 10 + (*digit - b'0');
                if count <= MOST_SLOTS {
                    Some(count)
                } else {
                    None
                }
            }
            _ => None,
        }
    }

    /// The backplane of the statement `slots N`, with all lines unknown; `None` for any other statement.
    fn lines_of(statement: Statement<'_>) -> Option<Lines>
        ensures slots { MatchOption result
            (slots_stated (as_text statement.entry).first (as_text statement.entry).others ≡ Err SlotsFirst)
            (λ lines. slots_stated (as_text statement.entry).first (as_text statement.entry).others ≡ Ok lines.slots) }
        ensures unknown { IfSome result (λ lines. lines.levels ≡ replicate line_count Unknown) }
    {
        let Statement {
            first,
            mut others,
            ..
        } = statement;
        let count = others.next()?;
        if others.next().is_some() || first != b"slots".as_slice() {
            return None;
        }
        Lines::new(Binding::slot_count(count)?)
    }

    /// The name and the source that a statement has, if it is an assignment.
    fn name_and_source<'a>(statement: Statement<'a>) -> Option<(&'a [u8], &'a [u8])>
        ensures { MatchOption result
            (name_and_source (as_text statement.entry).first (as_text statement.entry).others ≡ Err BadLine)
            (λ parts. name_and_source (as_text statement.entry).first (as_text statement.entry).others
            ≡ Ok (parts.0.now, parts.1.now)) }
    {
        let Statement {
            first,
            mut others,
            ..
        } = statement;
        let equals = others.next()?;
        let source = others.next()?;
        if others.next().is_some() || equals != b"=".as_slice() {
            return None;
        }
        Some((first, source))
    }

    /// The binding of the backplane `lines` that has no assignment.
    fn new(alloc: Global, lines: Lines) -> Binding
        requires { lines.levels ≡ replicate line_count Unknown }
        ensures { result ≡ no_assignments lines.slots }
    {
        Binding {
            lines,
            assignments: Vec::new(alloc),
        }
    }

    /// The backplane, with all lines unknown.
    pub fn lines(&self) -> &Lines
        ensures slots { result.now.slots ≡ self.now.slots }
        ensures unknown { result.now.levels ≡ replicate line_count Unknown }
    {
        &self.lines
    }

    /// The assignments, in the order of the text.
    pub(crate) fn assignments(&self) -> &[Assignment]
        ensures { result.now ≡ self.now.assignments }
    {
        &self.assignments
    }

    /// Whether a line of the group is bound.
    fn is_taken(&self, group: Group) -> bool
        ensures { result ≡ is_taken self.now.assignments group }
    {
        self.assignments.iter().any(|a| a.group.shares(group))
    }

    /// Whether a line is bound.
    fn is_bound(&self, line: Line) -> bool
        ensures { result ≡ is_bound self.now.assignments line }
    {
        self.assignments.iter().any(|a| a.group.holds(line))
    }

    /// The assignment that `statement` says, or its fault.
    fn assignment(&self, alloc: Global, statement: Statement<'_>) -> Result<Assignment, BindFault>
        ensures { BindGives (λ a. record self.entry.now { assignments = self.entry.now.assignments ++ a ∷ [] }) result
            (at_line statement.entry.line (bound self.entry.now (as_text statement.entry))) }
    {
        let line = statement.line;
        let Some((name, word)) = Binding::name_and_source(statement) else {
            return Err(BindFault {
                line,
                kind: BindFaultKind::BadLine,
            });
        };
        let Some(group) = Group::named(&self.lines, name) else {
            return Err(BindFault {
                line,
                kind: BindFaultKind::UnknownName,
            });
        };
        if self.is_taken(group) {
            return Err(BindFault {
                line,
                kind: BindFaultKind::NamedTwice,
            });
        }
        Ok(Assignment {
            line,
            group,
            source: LevelSource::of(alloc, word)?,
        })
    }

    /// Binds what a statement says.
    fn bind(&mut self, alloc: Global, statement: Statement<'_>) -> Result<(), BindFault>
        ensures { BindGives (λ _. self.new) result (at_line statement.entry.line
            (bound self.old (as_text statement.entry))) }
    {
        let assignment = self.assignment(alloc, statement)?;
        self.assignments.push(assignment)?;
        Ok(())
    }

    /// Binds what the rest of a text says.
    fn bind_all(&mut self, alloc: Global, statements: &mut Statements<'_>) -> Result<(), BindFault>
        ensures bound { BindGives (λ _. self.new) result (bound_all self.old (rest_statements statements.old)) }
        ensures end { OnOk result (statements.new.line ≡ last_line statements.old) }
    {
        while let Some(statement) = statements.next() {
            // The fault is taken apart, since the checker can't carry it out of a loop whole.
            if let Err(BindFault { line, kind }) = self.bind(alloc, statement) {
                return Err(BindFault { line, kind });
            }
        }
        Ok(())
    }

    /// The assignment of `group` to a constant High, at the line `line` of the text.
    fn high(line: u64, group: Group) -> Assignment
        ensures { result ≡ record { line = line; group = group; source = source_of (codes "1") } }
    {
        let source = LevelSource::Constant(Level::High);
        Assignment {
            line,
            group,
            source,
        }
    }

    /// Binds `group` to a constant High, unless a line of it is bound. `line` is the last line of the text.
    fn bind_high(&mut self, line: u64, group: &Group) -> Result<(), AllocError>
        ensures { OnOk result (self.new ≡ with_high line group.now self.old) }
    {
        if !self.is_taken(*group) {
            self.assignments.push(Binding::high(line, *group))?;
        }
        Ok(())
    }

    /// Binds the data lines and the system reset, where the text leaves them out. `line` is the last line of the text.
    fn bind_left_out(&mut self, line: u64) -> Result<(), AllocError>
        ensures { OnOk result (self.new ≡ with_left_out line self.old) }
    {
        self.bind_high(line, &Group::data())?;
        self.bind_high(line, &Group::reset())
    }

    /// The line of the backplane with the least number that isn't bound.
    #[tactic(auto, using(vme_trace::proofs::Ranges::searches))]
    fn least_unbound(&self) -> Option<Line>
        ensures { result ≡ least_unbound self.now }
    {
        for number in 0..LINE_COUNT {
            if let Some(line) = Line::from_number(number) {
                if self.lines.has(line) && !self.is_bound(line) {
                    return Some(line);
                }
            }
        }
        None
    }
}

/// Reads the text of a binding: a line `slots N`, and after it lines `NAME = SOURCE` that bind each line of the
/// backplane once. The data lines may all be left out, and so may SYSRESET*: what is left out is high for good.
///
/// The text is read from the top, and an error names the first fault met and its line. A line that isn't bound is
/// met at the end of the text. Where memory runs out, that is the fault, at line 0.
pub fn read_binding(alloc: Global, text: &[u8]) -> Result<Binding, BindFault>
    ensures { BindGives (λ binding. binding) result (binding_of text.now) }
{
    let mut statements = Statements::new(text);
    let Some(first) = statements.next() else {
        return Err(BindFault {
            line: statements.line(),
            kind: BindFaultKind::SlotsFirst,
        });
    };
    let line = first.line;
    let Some(lines) = Binding::lines_of(first) else {
        return Err(BindFault {
            line,
            kind: BindFaultKind::SlotsFirst,
        });
    };
    let mut binding = Binding::new(alloc, lines);
    binding.bind_all(alloc, &mut statements)?;
    binding.bind_left_out(statements.line())?;
    match binding.least_unbound() {
        Some(unbound) => Err(BindFault {
            line: statements.line(),
            kind: BindFaultKind::Unbound(unbound),
        }),
        None => Ok(binding),
    }
}

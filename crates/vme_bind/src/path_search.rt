//! The search for the variable that an assignment names.

ghost use Rattle.std.specs.Prelude.{◌≡◌, ◌<◌, ◌+◌, ◌^◌, drop, length};
ghost use Rattle.vcd_read.specs.Header.{variable_in};
ghost use Rattle.vcd_read.specs.Scopes.{path_in};
ghost use Rattle.vme_bind.specs.Answers.{BindGives};

use crate::assignment::Assignment;
use crate::bound_groups::{BitRange, BoundGroup, GroupSource};
use crate::fault::{BindFault, BindFaultKind};
use crate::source::LevelSource;
use vcd_read::{Declaration, Scopes};

/// The candidates so far. Candidates for the same bits count once.
#[derive(Clone, Copy)]
pub(crate) enum PathMatch {
    /// There is no candidate.
    Nothing,
    /// All candidates are these bits.
    Only(BitRange),
    /// Two candidates are different bits.
    Several,
}

/// An assignment, and what is found of its variable so far.
#[derive(Drop)]
pub(crate) struct PathSearch<'b> {
    /// The assignment.
    pub assignment: &'b Assignment,
    /// How many of the open scopes, from the outermost, its path matches.
    pub matched_scopes: usize,
    /// What is found of its variable.
    pub found: PathMatch,
}

impl PathMatch {
    ghost use Rattle.vme_bind.specs.PathSearch.{with_bits};

    /// Adds the candidate `bits`, if there is one.
    fn with(self, bits: Option<BitRange>) -> PathMatch
        ensures { result ≡ with_bits self bits }
    {
        let Some(next) = bits else {
            return self;
        };
        match self {
            PathMatch::Nothing => PathMatch::Only(next),
            PathMatch::Only(bits) if bits.is_same(next) => self,
            PathMatch::Only(_) => PathMatch::Several,
            PathMatch::Several => PathMatch::Several,
        }
    }
}

/// The rest of a text from the offset `start` on.
pub(crate) fn rest_of(text: &[u8], start: usize) -> &[u8]
    ensures { result.now ≡ drop start text.now }
{
    if start < text.len() {
        &text[start..]
    } else {
        &[]
    }
}

impl<'b> PathSearch<'b> {
    ghost use Rattle.vme_bind.specs.PathSearch.{closed, opened, found_in, none_found, scopes_matched, path_to_find};
    ghost use Rattle.vme_bind.specs.PathSearch.{with_candidate};
    ghost use Rattle.vme_bind.specs.PathSearch.{bound_group_of};

    /// Nothing is found yet, and no scope is open.
    pub fn new(assignment: &'b Assignment) -> PathSearch<'b>
        ensures seen { found_in result ≡ none_found assignment.now }
        ensures matched_scopes { result.matched_scopes ≡ 0 }
    {
        PathSearch {
            assignment,
            matched_scopes: 0,
            found: PathMatch::Nothing,
        }
    }

    /// The path to find; empty for a constant.
    fn path(&self) -> &'b [u8]
        ensures { result.now ≡ path_to_find self.now.assignment.now.source }
    {
        match &self.assignment.source {
            LevelSource::Constant(_) => &[],
            LevelSource::Variable(named) => named.path.as_bytes(),
        }
    }

    /// Enters a scope, with `depth` scopes open around it. `part` is what it adds to the path, from the offset `start`
    /// on.
    pub fn open(&mut self, depth: usize, start: usize, part: &[u8])
        requires { depth + 1 < 2 ^ 64 }
        ensures { self.new ≡ opened depth start part.now self.old }
    {
        if self.matched_scopes == depth && rest_of(self.path(), start).starts_with(part) {
            self.matched_scopes = depth + 1;
        }
    }

    /// Closes the innermost scope, which leaves `depth` scopes open.
    pub fn close(&mut self, depth: usize)
        ensures { self.new ≡ closed depth self.old }
    {
        self.matched_scopes = self.matched_scopes.min(depth);
    }

    /// Looks at a variable that is declared in `scopes`.
    pub fn visit(&mut self, scopes: &Scopes, variable: Declaration<'_>)
        requires matched_scopes { self.old.matched_scopes ≡ scopes_matched (path_to_find self.old.assignment.now.source)
            scopes.now }
        requires name { 0 < length variable.name.now }
        ensures matched_scopes { self.new.matched_scopes ≡ self.old.matched_scopes }
        ensures assignment { self.new.assignment ≡ self.old.assignment }
        ensures seen { found_in self.new ≡ with_candidate (variable_in scopes.now variable.entry.net variable.entry.size
            (record { name = variable.entry.name.now; index = variable.entry.index })) (found_in self.old) }
    {
        if self.matched_scopes != scopes.depth() {
            return;
        }
        if let LevelSource::Variable(named) = &self.assignment.source {
            if rest_of(named.path.as_bytes(), scopes.path().len()) == variable.name {
                let bits = BitRange::meant(
                    named.selection,
                    variable.net,
                    variable.size,
                    variable.index,
                );
                self.found = self.found.with(bits);
            }
        }
    }

    /// The bus lines of this assignment with the bits that give their levels, or why there are none.
    pub fn bound_group(&self) -> Result<BoundGroup, BindFault>
        ensures { BindGives (λ bound_group. bound_group) result (bound_group_of (found_in self.now)) }
    {
        let assignment = self.assignment;
        let kind = match (&assignment.source, self.found) {
            (LevelSource::Constant(level), _) => {
                return Ok(BoundGroup {
                    group: assignment.group,
                    source: GroupSource::Fixed(*level),
                });
            }
            (LevelSource::Variable(_), PathMatch::Only(bits)) => return BoundGroup::of_bits(
                assignment, bits,
            ),
            (LevelSource::Variable(_), PathMatch::Nothing) => BindFaultKind::NoSuchPath,
            (LevelSource::Variable(_), PathMatch::Several) => BindFaultKind::AmbiguousPath,
        };
        Err(BindFault {
            line: assignment.line,
            kind,
        })
    }
}

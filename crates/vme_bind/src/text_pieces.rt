//! The recording of a dump that is read piece by piece.

ghost use Rattle.std.specs.Prelude.{◌≡◌, ◌↔◌, ◌++◌, ◌-◌, ℕ, IsTrue, List, [], IfOk, None, Some, drop, length, map};
ghost use Rattle.std.specs.Prelude.{replicate};
ghost use Rattle.std.specs.List.{fold};
ghost use Rattle.std.specs.Option.{ForSome};
ghost use Rattle.vme_trace.specs.LineNumbers.{line_count};
ghost use Rattle.vme_trace.specs.WellFormed.{malformed_step};
ghost use Rattle.vme_trace.specs.declared.level.Level.TheVariants.{Unknown};
ghost use Rattle.vcd_read.specs.Body.{ready};
ghost use Rattle.vcd_read.specs.Reading.{line_behind};
ghost use Rattle.vcd_read.specs.Tokens.{Token, tokens_from};
ghost use Rattle.vcd_read.specs.declared.dump.Variable.{Variable};
ghost use Rattle.vcd_read.specs.Fronts.{going_on};
ghost use Rattle.vcd_read.specs.Sections.{defined};
ghost use Rattle.vme_bind.specs.PathSearch.{found_in, none_found, with_variable};
ghost use Rattle.vme_bind.specs.TextCapture.{GivesBy, IsOfBinding, recording_after};
ghost use Rattle.vme_bind.specs.TextPieces.{TextBeginsAs, TextContinuesAs, body_outcome, outcome_ahead, text_reached};
ghost use Rattle.vme_bind.specs.TextPieces.{BeginsAs, outcome_from};
ghost use Rattle.vme_bind.specs.TextReading.{ReadingContinuesAs, ReadingEndsAs, body_reading, or_fault, reading_ahead};
ghost use Rattle.vme_bind.specs.TextReading.{reading_after, reading_from, reading_of_text};

use crate::binding::Binding;
use crate::bound_groups::BoundGroup;
use crate::capture_builder::CaptureBuilder;
use crate::fault::{BindFault, BindFaultKind, CaptureFault};
use crate::search::Search;
use crate::text_capture::{builder_of, want_of_memory};
use crate::text_reader::TextReader;
use std::alloc::Global;
use vcd_read::{Front, Stopped, read_front};
use vme_trace::{Lines, StepVisitor};

/// Begins the recording of the body after the definitions of `front`, by `bound_groups` or with a fault of the binding.
/// The bytes in the result are what the prefix that was read has of the body.
fn begin_bound_groups<'a, F: StepVisitor>(
    alloc: Global,
    lines: &Lines,
    bound_groups: &[BoundGroup],
    fault: Option<BindFault>,
    front: Front<'a>,
    visitor: F,
) -> Result<(TextReader<F>, &'a [u8]), CaptureFault>
    requires lines { lines.now.levels ≡ replicate line_count Unknown }
    requires own { ForSome fault IsOfBinding }
    ensures line { IfOk result (λ begun. line_behind (text_reached begun.0).body.line begun.1.now ≡ front.entry.line) }
    ensures left { IfOk result (λ begun. begun.1.now ≡ front.entry.left) }
    ensures none { IfOk result (λ begun. (text_reached begun.0).body.progress.accumulator.recorded.steps ≡ []) }
    ensures formed { IfOk result (λ begun. (ts more : List Token)
        → malformed_step (reading_ahead (text_reached begun.0) ts more).recorded ≡ None) }
    ensures rest { TextContinuesAs (λ begun. outcome_from begun.0 begun.1.now) result
        (λ more. body_outcome fault lines.now.slots bound_groups.now (going_on front.entry.head more)) }
    ensures reading { TextContinuesAs (λ begun. reading_from begun.0 begun.1.now) result
        (λ more. or_fault fault (body_reading lines.now.slots bound_groups.now (going_on front.entry.head more))) }
{
    match builder_of(alloc, lines, bound_groups, visitor) {
        Ok(made) => {
            let (body_reader, rest) = front.before_body(made);
            Ok((TextReader { body_reader, fault }, rest))
        }
        Err(_) => Err(CaptureFault::Binding(want_of_memory())),
    }
}

/// `stopped`, with the builder's visitor in place of the builder: the fault and the time are the same.
fn visitor_of<F: StepVisitor>(stopped: Stopped<CaptureBuilder<F>>) -> Stopped<F>
    ensures fault { result.fault ≡ stopped.fault }
    ensures visitor { F.recorded result.visitor ≡ stopped.visitor.recorded }
    ensures time { result.time ≡ stopped.time }
{
    let Stopped {
        fault,
        visitor,
        time,
    } = stopped;
    Stopped {
        fault,
        visitor: visitor.into_visitor(),
        time,
    }
}

impl Binding {
    /// Begins the recording of a dump with `front`, a prefix of its text that ends after a space. Where the definitions
    /// don't end in `front`, `visitor` is handed back. It fails if a fault of the dump is met, or if memory runs out.
    pub fn begin_text<F: StepVisitor>(
        &self,
        alloc: Global,
        front: &[u8],
        visitor: F,
    ) -> Result<Result<TextReader<F>, F>, CaptureFault>
        ensures line { IfOk result (λ begun. IfOk begun (λ text. (text_reached text).body.line
            ≡ line_behind 1 front.now)) }
        ensures begins { TextBeginsAs (λ text. outcome_ahead (text_reached text) []) self.now front.now result }
    {
        match self.begin_before_body(alloc, front, visitor) {
            Ok(Ok((text, rest))) => match text.read(alloc, rest) {
                Ok(text) => Ok(Ok(text)),
                Err(fault) => Err(fault),
            },
            Ok(Err(visitor)) => Ok(Err(visitor)),
            Err(fault) => Err(fault),
        }
    }

    /// As `begin_text`, but reads nothing of the body. The bytes in the result are what `front` has of the body, and
    /// are the first piece. So a fault of the definitions is met here, and one of the body is met in a piece.
    pub fn begin_before_body<'a, F: StepVisitor>(
        &self,
        alloc: Global,
        front: &'a [u8],
        visitor: F,
    ) -> Result<Result<(TextReader<F>, &'a [u8]), F>, CaptureFault>
        ensures line { IfOk result (λ found. IfOk found (λ begun.
            line_behind (text_reached begun.0).body.line begun.1.now ≡ line_behind 1 front.now)) }
        ensures left { IfOk result (λ found. IfOk found (λ begun.
            begun.1.now ≡ drop (length front.now - length begun.1.now) front.now)) }
        ensures none { IfOk result (λ found. IfOk found (λ begun.
            (text_reached begun.0).body.progress.accumulator.recorded.steps ≡ [])) }
        ensures formed { IfOk result (λ found. IfOk found (λ begun. (ts more : List Token)
            → malformed_step (reading_ahead (text_reached begun.0) ts more).recorded ≡ None)) }
        ensures begins { TextBeginsAs (λ begun. outcome_from begun.0 begun.1.now) self.now front.now result }
        ensures reading { BeginsAs (reading_of_text self.now) (λ begun. reading_from begun.0 begun.1.now) front.now
            result }
    {
        let search = match Search::new(alloc, self.assignments()) {
            Ok(search) => search,
            Err(_) => return Err(CaptureFault::Binding(want_of_memory())),
        };
        match read_front(alloc, front, search) {
            Ok(Some((front, search))) => {
                match self.begin_body(alloc, front, &search, visitor) {
                    Ok(begun) => Ok(Ok(begun)),
                    Err(fault) => Err(fault),
                }
            }
            Ok(None) => Ok(Err(visitor)),
            Err(fault) => Err(CaptureFault::Dump(fault)),
        }
    }

    /// Begins the recording of the body after the definitions of `front`. `search` has what was found of their
    /// variables.
    fn begin_body<'a, F: StepVisitor>(
        &self,
        alloc: Global,
        front: Front<'a>,
        search: &Search<'_>,
        visitor: F,
    ) -> Result<(TextReader<F>, &'a [u8]), CaptureFault>
        ensures line { IfOk result (λ begun.
            line_behind (text_reached begun.0).body.line begun.1.now ≡ front.entry.line) }
        ensures left { IfOk result (λ begun. begun.1.now ≡ front.entry.left) }
        ensures none { IfOk result (λ begun. (text_reached begun.0).body.progress.accumulator.recorded.steps ≡ []) }
        ensures formed { IfOk result (λ begun. (ts more : List Token)
            → malformed_step (reading_ahead (text_reached begun.0) ts more).recorded ≡ None) }
        ensures rest { (variables : List Variable)
            → map found_in search.now.searches.items
            ≡ fold with_variable (map none_found self.now.assignments) variables
            → TextContinuesAs (λ begun. outcome_from begun.0 begun.1.now) result
            (λ more. recording_after self.now (defined (going_on front.entry.head more) variables)) }
        ensures reading { (variables : List Variable)
            → map found_in search.now.searches.items
            ≡ fold with_variable (map none_found self.now.assignments) variables
            → TextContinuesAs (λ begun. reading_from begun.0 begun.1.now) result
            (λ more. reading_after self.now (defined (going_on front.entry.head more) variables)) }
    {
        match search.bound_groups(alloc) {
            Ok(bound_groups) => begin_bound_groups(
                alloc,
                self.lines(),
                &bound_groups,
                None,
                front,
                visitor,
            ),
            Err(fault) => match fault.kind {
                BindFaultKind::Memory => Err(CaptureFault::Binding(fault)),
                _ => begin_bound_groups(alloc, self.lines(), &[], Some(fault), front, visitor),
            },
        }
    }
}

impl<F: StepVisitor> TextReader<F> {
    /// Why the binding makes no recording of the dump, if it makes none.
    pub fn binding_fault(&self) -> Option<BindFault>
        ensures { result ≡ (text_reached self.now).fault }
    {
        self.fault
    }

    /// Takes the next piece of the text, which ends after a space, or where the text does. With the first fault comes
    /// the visitor, which has the steps of the instants that a later time follows before the fault.
    pub fn read_until_fault(self, alloc: Global, piece: &[u8]) -> Result<TextReader<F>, Stopped<F>>
        ensures fault { IfOk result (λ text. (text_reached text).fault ≡ (text_reached self).fault) }
        ensures line { IfOk result (λ text. (text_reached text).body.line
            ≡ line_behind (text_reached self).body.line piece.now) }
        ensures rest { ReadingContinuesAs (λ text. reading_ahead (text_reached text) []) (λ f. F.recorded f) result
            (reading_ahead (text_reached self) (tokens_from (text_reached self).body.line piece.now)) }
    {
        let TextReader { body_reader, fault } = self;
        match body_reader.read_until_fault(alloc, piece) {
            Ok(body_reader) => Ok(TextReader { body_reader, fault }),
            Err(stopped) => Err(visitor_of(stopped)),
        }
    }

    /// Takes the next piece of the text, which ends after a space, or where the text does. It fails if a fault of the
    /// dump is met, or if memory runs out.
    pub fn read(self, alloc: Global, piece: &[u8]) -> Result<TextReader<F>, CaptureFault>
        ensures line { IfOk result (λ text. (text_reached text).body.line
            ≡ line_behind (text_reached self).body.line piece.now) }
        ensures rest { TextContinuesAs (λ text. outcome_ahead (text_reached text) []) result
            (outcome_ahead (text_reached self) (tokens_from (text_reached self).body.line piece.now)) }
    {
        let TextReader { body_reader, fault } = self;
        match body_reader.read(alloc, piece) {
            Ok(body_reader) => Ok(TextReader { body_reader, fault }),
            Err(fault) => Err(CaptureFault::Dump(fault)),
        }
    }

    /// Whether what is read so far ends between two items, and outside of dump sections. Elsewhere no piece that is
    /// read ahead may be joined.
    pub fn is_between_items(&self) -> bool
        ensures { IsTrue result ↔ ((text_reached self.now).body.place ≡ ready)
            × ((text_reached self.now).body.dump_section ≡ None) }
    {
        self.body_reader.is_between_items()
    }

    /// Ends the text. The result is the visitor that took the recording, whether or not the binding has a fault. With a
    /// fault of the dump, i.e. an item or a dump section that isn't ended, comes the visitor, which has the steps of
    /// the instants that a later time follows.
    pub fn finish_or_stop(self, alloc: Global) -> Result<F, Stopped<F>>
        ensures { ReadingEndsAs (λ f. F.recorded f) (text_reached self).body.progress.time result
            (reading_ahead (text_reached self) [] []) }
    {
        match self.body_reader.finish_or_stop(alloc) {
            Ok(made) => Ok(made.into_visitor()),
            Err(stopped) => Err(visitor_of(stopped)),
        }
    }

    /// Ends the text. The result is the visitor that took the recording. A fault of the dump takes precedence over one
    /// of the binding.
    pub fn finish(self, alloc: Global) -> Result<F, CaptureFault>
        ensures { GivesBy (λ f. F.recorded f) result (outcome_ahead (text_reached self) [] []) }
    {
        let TextReader { body_reader, fault } = self;
        match body_reader.finish(alloc) {
            Ok(made) => match fault {
                None => Ok(made.into_visitor()),
                Some(fault) => Err(CaptureFault::Binding(fault)),
            },
            Err(fault) => Err(CaptureFault::Dump(fault)),
        }
    }
}

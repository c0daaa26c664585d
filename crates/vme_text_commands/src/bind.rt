//! A binding for a dump.

ghost use Rattle.std.specs.Prelude.{◌≡◌, ℕ, List, Option, Result};
ghost use Rattle.vcd_read.specs.Meaning.{dump_of};
ghost use Rattle.vme_stream.specs.Answers.{dump_read, or_bad_dump};
ghost use Rattle.vme_stream.specs.Ends.{Ends};
ghost use Rattle.vme_stream.specs.Texts.{line_of};
ghost use Rattle.vme_stream.specs.Inputs.{IsReading};
ghost use Rattle.vme_stream.specs.Outputs.{TriesToWrite};
ghost use Rattle.vme_text_commands.specs.TextAnswers.{HasPageOfMissing, IsBindingFor, IsPageOfMissing, TellsBinding};
ghost use Rattle.vme_text_commands.specs.TextAnswers.{binding_answer, found_answer, missing_status, missing_text};
ghost use Rattle.vme_text_commands.specs.TextAnswers.{no_scope_text};
ghost use Rattle.vme_stream.specs.Refusals.{dump_refusal};
ghost use Rattle.vme_declarations.specs.SurveyStages.{survey_ahead};
ghost use Rattle.vme_declarations.specs.Surveys.{IsSurveyOf, survey_of};
ghost use Rattle.vme_text_commands.specs.declared.bind.NoBinding.TheVariants.{Refused};
ghost use Rattle.vme_find.specs.Recordings.{AreSlots};

use crate::fault_context::FaultContext;
use crate::refused::{complain_with, show_fault_context};
use crate::surveyed_input::SurveyedInput;
use std::alloc::Global;
use vcd_read::VcdFault;
use vme_declarations::{SurveyedDump, surveys_are_of_dumps};
use vme_find::{FindFault, FoundBinding, write_binding};
use vme_stream::{Input, Message, Refusal, cannot_write_line, complain, read_by, say, write_all};
use vme_text::Text;
use vme_trace::{Sink, Source};

/// How many bytes of a dump are surveyed at once.
const PIECE: usize = 262_144;

/// Why there is no binding for a dump.
#[derive(Clone, Copy, Debug, PartialEq, Eq)]
pub enum NoBinding {
    /// The dump is refused, or memory ran out.
    Refused(Refusal),
    /// No variable of the dump is in the scope that is asked for, or in one within it.
    NoSuchScope,
}

/// The line that says that a dump lacks the scope that is asked for.
fn no_scope_line() -> Message
    ensures { result ≡ line_of no_scope_text }
{
    Message::new()
        .with(b"vmecheck: no variable of the dump stands in that scope: ")
        .with(b"`vmecheck variables` lists their paths")
        .with_line_feed()
}

/// Writes a binding for the dump to `out`, and to `err` one line that says what was bound. The binding has `slots`
/// slots, 1 to 21, or as many as the daisy chains show. It binds the lines in the scope with the path `scope`, or in
/// the best one. If the dump can't be read, writes to `err` why, as `check` does, and then what the dump, named `name`,
/// has there and what the refusal means. If the dump lacks the scope, writes that to `err`. Returns the exit status: 0;
/// 7 where AS, both strobes or DTACK are bound to constants, or AS never moves, so that a check by the binding would
/// judge no cycle, no transfer or no answer, and the line says why; 3 where the dump is refused or lacks the scope, 4
/// for want of memory, 5 where the binding can't be written.
///
/// What it writes is a binding by the format, and it makes a recording of the dump without a fault. A failure of `err`
/// is ignored.
pub fn bind<D: Source, O: Sink, E: Sink>(
    alloc: Global,
    dump: &mut D,
    name: &[u8],
    slots: Option<u8>,
    scope: Option<&[u8]>,
    out: &mut O,
    err: &mut E,
) -> u8
    requires { AreSlots slots }
    ensures { TellsBinding slots scope.entry (D.reading dump.old, D.reading dump.new)
        (O.writing out.old, O.writing out.new) (E.writing err.old, E.writing err.new) result }
{
    let mut shown = Text::new(alloc);
    let made = binding_for(alloc, dump, name, slots, scope, &mut shown);
    tell_binding(alloc, &made, &shown, out, err)
}

/// Writes a binding to `out` and the line about it to `err`, or to `err` why there is none, with the excerpt `shown`.
fn tell_binding<O: Sink, E: Sink>(
    alloc: Global,
    made: &Result<FoundBinding, NoBinding>,
    shown: &Text,
    out: &mut O,
    err: &mut E,
) -> u8
    ensures { (more : List ℕ) × HasPageOfMissing made.now more × Ends (binding_answer more made.now)
        (O.writing out.old, O.writing out.new) (E.writing err.old, E.writing err.new) result }
{
    match made {
        Ok(found) => tell_found(found, out, err),
        Err(missing) => tell_missing(alloc, missing, shown, err),
    }
}

/// Writes to `err` why there is no binding, with the excerpt `shown` of the dump. Returns the exit status.
fn tell_missing<E: Sink>(alloc: Global, missing: &NoBinding, shown: &Text, err: &mut E) -> u8
    ensures { (more : List ℕ) × IsPageOfMissing missing.now more
        × TriesToWrite (E.writing err.old) (E.writing err.new) (missing_text more missing.now)
        × (result ≡ missing_status missing.now) }
{
    match missing {
        NoBinding::Refused(refusal) => {
            complain_with(alloc, err, refusal, shown);
            refusal.status()
        }
        NoBinding::NoSuchScope => {
            complain(err, no_scope_line());
            3
        }
    }
}

/// Writes a binding to `out`, and the line about it to `err`.
fn tell_found<O: Sink, E: Sink>(found: &FoundBinding, out: &mut O, err: &mut E) -> u8
    ensures { Ends (found_answer found.now)
        (O.writing out.old, O.writing out.new) (E.writing err.old, E.writing err.new) result }
{
    match write_all(out, found.text.as_bytes()) {
        Ok(()) => {
            say(err, found.report.as_bytes());
            if found.is_bus { 0 } else { 7 }
        }
        Err(_) => {
            complain(err, cannot_write_line());
            5
        }
    }
}

/// A binding for a dump, which is read piece by piece: no more of it is kept than its definitions.
fn binding_for<D: Source>(
    alloc: Global,
    dump: &mut D,
    name: &[u8],
    slots: Option<u8>,
    scope: Option<&[u8]>,
    shown: &mut Text,
) -> Result<FoundBinding, NoBinding>
    requires { AreSlots slots }
    ensures { (bytes : Option (List ℕ))
        × IsReading (D.reading dump.old) (D.reading dump.new) bytes
        × IsBindingFor (dump_read bytes) slots scope.entry result }
{
    match read_by(
        alloc,
        dump,
        SurveyedInput::new(alloc),
        PIECE,
        &|input: SurveyedInput, bytes: &[u8]| input.take(alloc, bytes),
    ) {
        Ok((input, rest)) => binding_of_input(
            alloc,
            input,
            rest.as_slice(),
            name,
            slots,
            scope,
            shown,
        ),
        Err(fault) => Err(NoBinding::Refused(Refusal::of_input(Input::Dump, fault))),
    }
}

/// A binding for a dump that was read up to its last bytes, `rest`.
fn binding_of_input(
    alloc: Global,
    input: SurveyedInput,
    rest: &[u8],
    name: &[u8],
    slots: Option<u8>,
    scope: Option<&[u8]>,
    shown: &mut Text,
) -> Result<FoundBinding, NoBinding>
    requires { AreSlots slots }
    ensures { (bytes : List ℕ) → survey_of bytes ≡ survey_ahead input.survey rest.now
        → IsBindingFor (or_bad_dump (dump_of bytes)) slots scope.entry result }
{
    surveys_are_of_dumps();
    let SurveyedInput { survey, context } = input;
    match survey.finish(alloc, rest) {
        Ok(surveyed) => binding_by(alloc, &surveyed, slots, scope),
        Err(fault) => Err(refused(alloc, fault, context, rest, name, shown)),
    }
}

/// Why there is no binding for a dump with this fault.
fn refused(
    alloc: Global,
    fault: VcdFault,
    context: FaultContext,
    rest: &[u8],
    name: &[u8],
    shown: &mut Text,
) -> NoBinding
    ensures { result ≡ Refused (dump_refusal fault) }
{
    let refusal = Refusal::of_dump(fault);
    let mut context = context;
    if let Ok(()) = context.record_fault(fault, rest) {
        show_fault_context(shown, alloc, &refusal, name, &context);
    }
    NoBinding::Refused(refusal)
}

/// A binding from the survey of a dump.
fn binding_by(
    alloc: Global,
    surveyed: &SurveyedDump,
    slots: Option<u8>,
    scope: Option<&[u8]>,
) -> Result<FoundBinding, NoBinding>
    requires { AreSlots slots }
    ensures { (bytes : List ℕ) → IsSurveyOf surveyed.now bytes
        → IsBindingFor (or_bad_dump (dump_of bytes)) slots scope.entry result }
{
    match write_binding(alloc, surveyed, slots, scope) {
        Ok(found) => Ok(found),
        Err(FindFault::NoSuchScope) => Err(NoBinding::NoSuchScope),
        Err(FindFault::Memory) => Err(NoBinding::Refused(Refusal::Memory)),
    }
}

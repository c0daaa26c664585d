//! The definitions of a dump. Only the places of the backplane's lines are kept of them.

ghost use Rattle.std.specs.Prelude.{◌≡◌, ◌≢◌, [], Result, Err, IfErr};
ghost use Rattle.vme_bind.specs.TextCapture.{CaptureFailsBy};
ghost use Rattle.vme_bind.specs.TextReading.{TextReading};
ghost use Rattle.vme_bind.specs.declared.fault.CaptureFault.{CaptureFault};
ghost use Rattle.vme_audit_command.specs.Definitions.{BeginsBody, BeginsLast, NotBegun, ReadsDefinitions, unread};
ghost use Rattle.vme_audit_command.specs.DumpReads.{CountsUnread};
ghost use Rattle.vme_audit_command.specs.declared.written_lines.NoOutcome.TheVariants.{CannotRead};

use crate::dump_input::{DumpInput, ReadFault};
use crate::written_lines::{NoOutcome, WriteFault};
use std::alloc::Global;
use vcd_read::whole_tokens;
use vme_bind::{Binding, CaptureFault};
use vme_dump_input::DefinitionsEnd;
use vme_step_reader::{StepReader, begin_last_steps, begin_steps};
use vme_stream::Refusal;
use vme_trace::Source;

/// Why an audit has no outcome if its dump's definitions, or the binding, have this fault.
fn no_outcome(fault: CaptureFault) -> NoOutcome
    ensures begins { (reading : Result TextReading CaptureFault) → CaptureFailsBy fault reading
        → NotBegun reading result }
    ensures other { result ≢ CannotRead }
{
    match Refusal::of_capture(fault) {
        Refusal::Memory => NoOutcome::NotWritten(WriteFault::Memory),
        refusal => NoOutcome::Refused(refusal),
    }
}

/// Why an audit has no outcome if a read fails.
pub(crate) fn not_read(fault: ReadFault) -> NoOutcome
    ensures { result ≡ unread fault }
{
    match fault {
        ReadFault::Failed => NoOutcome::CannotRead,
        ReadFault::Memory => NoOutcome::NotWritten(WriteFault::Memory),
    }
}

/// Starts reading the body, if the definitions end in the held bytes.
fn begin(
    alloc: Global,
    binding: &Binding,
    input: &mut DumpInput,
) -> Result<Option<StepReader>, NoOutcome>
    ensures begins { BeginsBody binding.now input.old input.new result }
    ensures other { IfErr result (λ why. why ≢ CannotRead) }
{
    match begin_steps(alloc, binding, input.bytes()) {
        Ok(Some((reader, count))) => {
            input.drop_first(count);
            Ok(Some(reader))
        }
        Ok(None) => Ok(None),
        Err(fault) => Err(no_outcome(fault)),
    }
}

/// Starts reading the body at the end of the dump.
fn begin_last(
    alloc: Global,
    binding: &Binding,
    input: &mut DumpInput,
) -> Result<StepReader, NoOutcome>
    ensures begins { BeginsLast binding.now input.old input.new result }
    ensures other { IfErr result (λ why. why ≢ CannotRead) }
{
    match begin_last_steps(alloc, binding, input.bytes()) {
        Ok((reader, count)) => {
            input.drop_first(count);
            Ok(reader)
        }
        Err(fault) => Err(no_outcome(fault)),
    }
}

/// Reads the definitions of a dump. Returns the reader of its body, and whether more of the body may follow than is
/// held.
pub(crate) fn read_definitions<D: Source>(
    alloc: Global,
    binding: &Binding,
    dump: &mut D,
    input: &mut DumpInput,
) -> Result<(StepReader, bool), NoOutcome>
    requires { input.old ≡ [] }
    ensures reads { ReadsDefinitions binding.now (D.reading dump.old) (D.reading dump.new) input.new result }
    ensures unread { CountsUnread (D.reading dump.old) (D.reading dump.new) result }
{
    let mut search = DefinitionsEnd::new();
    for _ in 0..u64::MAX {
        match input.read(dump) {
            Ok(true) => {}
            Ok(false) => {
                return match begin_last(alloc, binding, input) {
                    Ok(reader) => Ok((reader, false)),
                    Err(why) => Err(why),
                };
            }
            Err(fault) => return Err(not_read(fault)),
        }
        let held = input.bytes();
        if search.may_end(&held[..whole_tokens(held)]) {
            match begin(alloc, binding, input) {
                Ok(Some(reader)) => return Ok((reader, true)),
                Ok(None) => {}
                Err(why) => return Err(why),
            }
        }
    }
    Err(NoOutcome::CannotRead)
}

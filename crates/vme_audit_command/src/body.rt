//! The body of a dump, audited as it is read. Each function audits some of it by `auditor`, after the steps are settled
//! by `settler` if there is a skew. It writes a line for each break to `out`, which begins with `head`, the name of the
//! dump, and keeps the break in `case` for the JUnit file. After an error some of the breaks may be audited and
//! written.

ghost use Rattle.std.specs.Prelude.{◌≡◌, ◌≢◌, ◌≤◌, ℕ, List, false, true, None, Option, IfErr, IfNone, IfOk, IfSome};
ghost use Rattle.std.specs.Prelude.{OnOk, length};
ghost use Rattle.vme_stream.specs.declared.refusal.Refusal.TheVariants.{BadDump};
ghost use Rattle.vme_step_auditor.specs.ReadBy.{has_stopped};
ghost use Rattle.vme_audit_command.specs.declared.written_lines.NoOutcome.TheVariants.{CannotRead, Refused};
ghost use Rattle.vme_trace.specs.Followed.{with_steps};
ghost use Rattle.vme_trace.specs.Trace.{Trace};
ghost use Rattle.vme_trace.specs.WellFormed.{malformed_step};
ghost use Rattle.vme_audit_command.specs.Bodies.{AuditsBody, HasGiven, IsLater, TakesPiece, WritesRest};
ghost use Rattle.vme_audit_command.specs.DumpReads.{CountsUnread};
ghost use Rattle.vme_audit_command.specs.DumpAudits.{AuditGoesTo, given_recording, lines_of};
ghost use Rattle.vme_dump_input.specs.SettledReadings.{settled_by, settled_so_far, settled_whole};
ghost use Rattle.vme_dump_input.specs.SettledSteps.{ComesOut, GoOnFrom, GoOnTo};
ghost use Rattle.vme_step_reader.specs.StepReading.{StepReading, whole_reading};
ghost use Rattle.vme_step_reader.specs.Stops.{StopsBehind};

use crate::definitions::not_read;
use crate::dump_input::DumpInput;
use crate::junit::TestCase;
use crate::written_lines::{NoOutcome, WriteFault, audit_steps, or_not_written};
use std::alloc::Global;
use vcd_read::{FaultKind, VcdFault};
use vme_dump_input::{last_steps, settled_steps};
use vme_skew::StepSettler;
use vme_step_auditor::{StepAuditor, reading_goes_on, stop_is_final};
use vme_step_reader::{StepReader, StoppedSteps, given_is_a_prefix, times_go_on};
use vme_stream::Refusal;
use vme_trace::{Sink, Source, Step};

/// Audits the steps that are settled once `steps` come and the dump has reached `time`, in its time units.
fn audit_settled<O: Sink>(
    alloc: Global,
    auditor: &mut StepAuditor<'_>,
    settler: &mut Option<StepSettler>,
    steps: Vec<Step>,
    time: u64,
    head: &[u8],
    case: &mut TestCase,
    out: &mut O,
) -> Result<(), WriteFault>
    ensures comes { (skew : Option ℕ) (given : Trace) (from : ℕ)
        → ComesOut skew settler.old given from auditor.old.recording → GoOnTo given from steps.items time
        → OnOk result (ComesOut skew settler.new (with_steps given steps.items) time auditor.new.recording) }
    ensures given { (skew : Option ℕ) (given : Trace) (from : ℕ)
        → ComesOut skew settler.old given from auditor.old.recording → GoOnTo given from steps.items time
        → OnOk result (auditor.new
        ≡ given_recording auditor.old (settled_so_far skew time (with_steps given steps.items))) }
    ensures writes { (skew : Option ℕ) (given : Trace) (from : ℕ)
        → ComesOut skew settler.old given from auditor.old.recording → GoOnTo given from steps.items time
        → AuditGoesTo head.now auditor.old (settled_so_far skew time (with_steps given steps.items))
        (O.writing out.old) (O.writing out.new) result }
{
    reading_goes_on();
    match settled_steps(alloc, settler, steps, time) {
        Ok(steps) => audit_steps(alloc, auditor, steps.as_slice(), head, case, out),
        Err(_) => Err(WriteFault::Memory),
    }
}

/// What the audit of a dump comes to at a fault of the dump: it is refused, unless it has stopped before the fault.
fn outcome_at_fault(auditor: &StepAuditor<'_>, fault: VcdFault) -> Result<(), NoOutcome>
    ensures stopped { malformed_step auditor.now.recording ≡ None
        → OnOk result (has_stopped auditor.now ≡ true) }
    ensures refused { malformed_step auditor.now.recording ≡ None
        → IfErr result (λ why. (why ≡ Refused (BadDump fault)) × (has_stopped auditor.now ≡ false)) }
    ensures other { IfErr result (λ why. why ≢ CannotRead) }
{
    if auditor.is_stopped() {
        Ok(())
    } else {
        Err(NoOutcome::Refused(Refusal::BadDump(fault)))
    }
}

/// Audits the steps before a fault of the dump, or reports lack of memory. If the audit stops before the fault, the
/// fault isn't reported.
fn audit_stopped<O: Sink>(
    alloc: Global,
    auditor: &mut StepAuditor<'_>,
    settler: &mut Option<StepSettler>,
    stopped: StoppedSteps,
    head: &[u8],
    case: &mut TestCase,
    out: &mut O,
) -> Result<(), NoOutcome>
    ensures kept { (skew : Option ℕ) (r : StepReading) (rest : List ℕ) → HasGiven skew settler.old auditor.old r
        → StopsBehind r.given stopped (whole_reading r rest) → OnOk result (IsLater auditor.old auditor.new) }
    ensures ends { (skew : Option ℕ) (r : StepReading) (rest : List ℕ) → HasGiven skew settler.old auditor.old r
        → StopsBehind r.given stopped (whole_reading r rest)
        → WritesRest head.now auditor.old (lines_of head.now auditor.old) (settled_by skew (whole_reading r rest))
        auditor.new.recording (O.writing out.old) (O.writing out.new) result }
    ensures other { IfErr result (λ why. why ≢ CannotRead) }
{
    reading_goes_on();
    given_is_a_prefix();
    times_go_on();
    match stopped.fault.kind {
        FaultKind::Memory => Err(NoOutcome::NotWritten(WriteFault::Memory)),
        _ => {
            let StoppedSteps { steps, fault, time } = stopped;
            match audit_settled(alloc, auditor, settler, steps, time, head, case, out) {
                Ok(()) => outcome_at_fault(auditor, fault),
                Err(fault) => Err(NoOutcome::NotWritten(fault)),
            }
        }
    }
}

/// The reader and the count with which reading continues, unless the audit has stopped.
fn next_reader(
    auditor: &StepAuditor<'_>,
    reader: StepReader,
    count: usize,
) -> Option<(StepReader, usize)>
    ensures goes { IfSome result (λ next. (next.0 ≡ reader) × (next.1 ≡ count)) }
    ensures stopped { malformed_step auditor.now.recording ≡ None
        → IfNone result (has_stopped auditor.now ≡ true) }
{
    if auditor.is_stopped() {
        None
    } else {
        Some((reader, count))
    }
}

/// Audits the whole tokens at the start of `bytes`. Returns the next reader and the number of bytes taken, or `None` if
/// no more of the dump is audited.
fn audit_piece<O: Sink>(
    alloc: Global,
    reader: StepReader,
    bytes: &[u8],
    auditor: &mut StepAuditor<'_>,
    settler: &mut Option<StepSettler>,
    head: &[u8],
    case: &mut TestCase,
    out: &mut O,
) -> Result<Option<(StepReader, usize)>, NoOutcome>
    ensures within { IfOk result (λ going. IfSome going (λ next. next.1 ≤ length bytes.now)) }
    ensures kept { (skew : Option ℕ) → HasGiven skew settler.old auditor.old reader
        → IfOk result (λ going. IfNone going (IsLater auditor.old auditor.new)) }
    ensures takes { (skew : Option ℕ) → HasGiven skew settler.old auditor.old reader
        → TakesPiece skew head.now auditor.old auditor.new settler.new reader bytes.now (O.writing out.old)
        (O.writing out.new) result }
    ensures other { IfErr result (λ why. why ≢ CannotRead) }
{
    reading_goes_on();
    given_is_a_prefix();
    times_go_on();
    stop_is_final();
    match reader.take(alloc, bytes) {
        Ok((reader, steps, count)) => {
            let time = reader.time();
            match audit_settled(alloc, auditor, settler, steps, time, head, case, out) {
                Ok(()) => Ok(next_reader(auditor, reader, count)),
                Err(fault) => Err(NoOutcome::NotWritten(fault)),
            }
        }
        Err(stopped) => {
            match audit_stopped(alloc, auditor, settler, stopped, head, case, out) {
                Ok(()) => Ok(None),
                Err(why) => Err(why),
            }
        }
    }
}

/// Audits the last bytes of a body, up to its end.
pub(crate) fn audit_last<O: Sink>(
    alloc: Global,
    reader: StepReader,
    bytes: &[u8],
    auditor: &mut StepAuditor<'_>,
    settler: &mut Option<StepSettler>,
    head: &[u8],
    case: &mut TestCase,
    out: &mut O,
) -> Result<(), NoOutcome>
    ensures kept { (skew : Option ℕ) → HasGiven skew settler.old auditor.old reader
        → OnOk result (IsLater auditor.old auditor.new) }
    ensures ends { (skew : Option ℕ) → HasGiven skew settler.old auditor.old reader
        → WritesRest head.now auditor.old (lines_of head.now auditor.old)
        (settled_by skew (whole_reading reader bytes.now)) auditor.new.recording (O.writing out.old)
        (O.writing out.new) result }
    ensures other { IfErr result (λ why. why ≢ CannotRead) }
{
    reading_goes_on();
    given_is_a_prefix();
    times_go_on();
    match reader.finish(alloc, bytes) {
        Ok(steps) => or_not_written(audit_ended(alloc, auditor, settler, steps, head, case, out)),
        Err(stopped) => audit_stopped(alloc, auditor, settler, stopped, head, case, out),
    }
}

/// Audits the last steps of a dump, and what wasn't settled before.
fn audit_ended<O: Sink>(
    alloc: Global,
    auditor: &mut StepAuditor<'_>,
    settler: &mut Option<StepSettler>,
    steps: Vec<Step>,
    head: &[u8],
    case: &mut TestCase,
    out: &mut O,
) -> Result<(), WriteFault>
    ensures given { (skew : Option ℕ) (given : Trace) (from : ℕ)
        → ComesOut skew settler.old given from auditor.old.recording → GoOnFrom given from steps.items
        → OnOk result (auditor.new ≡ given_recording auditor.old (settled_whole skew (with_steps given steps.items))) }
    ensures writes { (skew : Option ℕ) (given : Trace) (from : ℕ)
        → ComesOut skew settler.old given from auditor.old.recording → GoOnFrom given from steps.items
        → AuditGoesTo head.now auditor.old (settled_whole skew (with_steps given steps.items)) (O.writing out.old)
        (O.writing out.new) result }
{
    reading_goes_on();
    match last_steps(alloc, settler, steps) {
        Ok(steps) => audit_steps(alloc, auditor, steps.as_slice(), head, case, out),
        Err(_) => Err(WriteFault::Memory),
    }
}

/// Audits a body to its end, or until the audit stops: first the held bytes, and then what is read.
pub(crate) fn audit_body<D: Source, O: Sink>(
    alloc: Global,
    dump: &mut D,
    input: &mut DumpInput,
    reader: StepReader,
    auditor: &mut StepAuditor<'_>,
    settler: &mut Option<StepSettler>,
    head: &[u8],
    case: &mut TestCase,
    out: &mut O,
) -> Result<(), NoOutcome>
    ensures kept { (skew : Option ℕ) → HasGiven skew settler.old auditor.old reader
        → OnOk result (IsLater auditor.old auditor.new) }
    ensures audits { (skew : Option ℕ) → HasGiven skew settler.old auditor.old reader
        → AuditsBody skew head.now auditor.old auditor.new reader input.old (D.reading dump.old) (O.writing out.old)
        (O.writing out.new) result }
    ensures unread { CountsUnread (D.reading dump.old) (D.reading dump.new) result }
{
    reading_goes_on();
    given_is_a_prefix();
    times_go_on();
    let mut reader = reader;
    for _ in 0..u64::MAX {
        let held = input.bytes();
        let count = match audit_piece(alloc, reader, held, auditor, settler, head, case, out) {
            Ok(Some((next, count))) => {
                reader = next;
                count
            }
            Ok(None) => return Ok(()),
            Err(why) => return Err(why),
        };
        input.drop_first(count);
        match input.read(dump) {
            Ok(true) => {}
            Ok(false) => {
                let held = input.bytes();
                return audit_last(alloc, reader, held, auditor, settler, head, case, out);
            }
            Err(fault) => return Err(not_read(fault)),
        }
    }
    Err(NoOutcome::CannotRead)
}

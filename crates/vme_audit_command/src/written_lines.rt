//! The lines about a dump, written one by one.

ghost use Rattle.std.specs.Prelude.{◌≡◌, ◌≤◌, ◌++◌, ◌∷◌, [], None, OnOk};
ghost use Rattle.vme_auditor.specs.Breaks.{as_break};
ghost use Rattle.vme_audit_lines.specs.AuditLines.{audit_break_text};
ghost use Rattle.vme_stream.specs.Texts.{line_of};
ghost use Rattle.vme_trace.specs.Followed.{with_steps};
ghost use Rattle.vme_trace.specs.WellFormed.{malformed_step};
ghost use Rattle.vme_audit_command.specs.DumpAudits.{AuditGoesOn, WritesText, given_more, or_not_written};

use crate::junit::TestCase;
use std::alloc::{AllocError, Global};
use vme_audit_lines::break_line;
use vme_step_auditor::{CategorizedBreak, StepAuditor, reading_goes_on};
use vme_stream::{Refusal, write_all};
use vme_trace::{Sink, Step};

/// Why not all of a text is written.
#[derive(Clone, Copy, Debug)]
pub(crate) enum WriteFault {
    /// Memory ran out.
    Memory,
    /// A write failed.
    CannotWrite,
}

impl From<AllocError> for WriteFault {
    ghost use Rattle.vme_audit_command.specs.declared.written_lines.WriteFault.TheVariants.{Memory};

    ghost from_gives = { λ _ e. e ≡ Memory };

    fn from(_e: AllocError) -> WriteFault {
        WriteFault::Memory
    }
}

/// Why the audit of a dump has no outcome.
#[derive(Clone, Copy, Debug)]
pub(crate) enum NoOutcome {
    /// The dump is refused, e.g. for a fault.
    Refused(Refusal),
    /// A read of the dump failed, or too many reads gave bytes.
    CannotRead,
    /// Not all lines are written.
    NotWritten(WriteFault),
}

/// The result of auditing, by that of writing what was audited.
pub(crate) fn or_not_written<T>(written: Result<T, WriteFault>) -> Result<T, NoOutcome>
    ensures { result ≡ or_not_written written }
{
    match written {
        Ok(value) => Ok(value),
        Err(fault) => Err(NoOutcome::NotWritten(fault)),
    }
}

/// Writes `bytes` to `out`. After an error a prefix of them is written.
pub(crate) fn write_text<O: Sink>(out: &mut O, bytes: &[u8]) -> Result<(), WriteFault>
    ensures { WritesText (O.writing out.old) (O.writing out.new) result bytes.now }
{
    match write_all(out, bytes) {
        Ok(()) => Ok(()),
        Err(_) => Err(WriteFault::CannotWrite),
    }
}

/// Writes the line of a break, which begins with `head`, and keeps the break in the test case.
fn write_break<O: Sink>(
    alloc: Global,
    found: &CategorizedBreak,
    head: &[u8],
    case: &mut TestCase,
    out: &mut O,
) -> Result<(), WriteFault>
    ensures { WritesText (O.writing out.old) (O.writing out.new) result
        (head.now ++ line_of (audit_break_text found.now.category (as_break found.now.found))) }
{
    let line = break_line(alloc, head, found.category, &found.found)?;
    write_text(out, line.as_bytes())?;
    case.take(alloc, found.category, &found.found)?;
    Ok(())
}

/// Audits the next step, and writes the line of the break that it makes, if any.
fn audit_step<O: Sink>(
    alloc: Global,
    auditor: &mut StepAuditor<'_>,
    step: &Step,
    head: &[u8],
    case: &mut TestCase,
    out: &mut O,
) -> Result<(), WriteFault>
    ensures given { OnOk result (auditor.new ≡ given_more auditor.old (step.now ∷ [])) }
    ensures writes { malformed_step (with_steps auditor.old.recording (step.now ∷ [])) ≡ None
        → auditor.old.recording.opening.slots ≤ 21
        → AuditGoesOn head.now auditor.old (step.now ∷ []) (O.writing out.old) (O.writing out.new) result }
{
    reading_goes_on();
    match auditor.take(step) {
        Ok(Some(found)) => write_break(alloc, &found, head, case, out),
        Ok(None) => Ok(()),
        Err(_) => Err(WriteFault::Memory),
    }
}

/// Audits the next steps, and writes the lines of the breaks that they make.
pub(crate) fn audit_steps<O: Sink>(
    alloc: Global,
    auditor: &mut StepAuditor<'_>,
    steps: &[Step],
    head: &[u8],
    case: &mut TestCase,
    out: &mut O,
) -> Result<(), WriteFault>
    ensures given { OnOk result (auditor.new ≡ given_more auditor.old steps.now) }
    ensures writes { malformed_step (with_steps auditor.old.recording steps.now) ≡ None
        → auditor.old.recording.opening.slots ≤ 21
        → AuditGoesOn head.now auditor.old steps.now (O.writing out.old) (O.writing out.new) result }
{
    reading_goes_on();
    for step in steps {
        match audit_step(alloc, auditor, step, head, case, out) {
            Ok(()) => {}
            Err(fault) => return Err(fault),
        }
    }
    Ok(())
}

//! The audit of one dump.

ghost use Rattle.std.specs.Prelude.{◌≡◌, ◌≤◌, ◌++◌, ℕ, [], IfErr, IfOk, None, OnOk, Option, length};
ghost use Rattle.vme_trace.specs.LineNumbers.{line_count};
ghost use Rattle.vme_trace.specs.WellFormed.{malformed_step};
ghost use Rattle.vme_audit.specs.Covered.{outcome as outcome_of};
ghost use Rattle.vme_audit.specs.Parts.{breaks};
ghost use Rattle.vme_audit_lines.specs.AuditLines.{head_of, outcome_status};
ghost use Rattle.vme_step_auditor.specs.ReadBy.{read_of};
ghost use Rattle.vme_audit_command.specs.Bodies.{AuditsRest, HasGiven, IsLater};
ghost use Rattle.vme_audit_command.specs.Definitions.{IsBodyBegun};
ghost use Rattle.vme_audit_command.specs.DumpAnswers.{AnswersBody, AuditsDump, given_options};
ghost use Rattle.vme_audit_command.specs.DumpAudits.{WritesText};
ghost use Rattle.vme_audit_command.specs.DumpReads.{CountsUnread};
ghost use Rattle.vme_audit_command.specs.LastLines.{WritesOutcome, counts_unless, outcome_line_of};
ghost use Rattle.vme_audit_command.specs.declared.written_lines.WriteFault.TheVariants.{Memory as NoMemory};

use crate::body::{audit_body, audit_last};
use crate::command::AuditOptions;
use crate::definitions::read_definitions;
use crate::dump_input::DumpInput;
use crate::junit::TestCase;
use crate::written_lines::{NoOutcome, WriteFault, or_not_written, write_text};
use std::alloc::Global;
use vme_audit::Outcome;
use vme_audit_lines::{
    count_lines, dump_head, outcome_line, outcome_status, unasked_is_never_asked,
};
use vme_bind::Binding;
use vme_dump_input::settler_for;
use vme_skew::StepSettler;
use vme_step_auditor::{AuditRules, StepAuditor};
use vme_step_reader::StepReader;
use vme_trace::{Sink, Source};

/// Writes the counts of a recording, unless `is_quiet`.
fn write_counts<O: Sink>(
    alloc: Global,
    auditor: &StepAuditor<'_>,
    is_quiet: bool,
    head: &[u8],
    out: &mut O,
) -> Result<(), WriteFault>
    ensures { malformed_step auditor.now.recording ≡ None
        → WritesText (O.writing out.old) (O.writing out.new) result
        (counts_unless is_quiet auditor.now.allowances head.now (read_of auditor.now)) }
{
    unasked_is_never_asked();
    if is_quiet {
        return Ok(());
    }
    match count_lines(alloc, head, auditor.break_counts(), &auditor.audited()) {
        Ok(lines) => write_text(out, lines.as_bytes()),
        Err(_) => Err(WriteFault::Memory),
    }
}

/// Writes the line of the outcome.
fn write_outcome_line<O: Sink>(
    alloc: Global,
    outcome: &Outcome,
    head: &[u8],
    out: &mut O,
) -> Result<(), WriteFault>
    ensures { WritesText (O.writing out.old) (O.writing out.new) result (outcome_line_of head.now outcome.now) }
{
    match outcome_line(alloc, head, outcome) {
        Ok(line) => write_text(out, line.as_bytes()),
        Err(_) => Err(WriteFault::Memory),
    }
}

/// Keeps the counts and the outcome in the test case, and returns the exit status of the outcome.
fn end_case(
    alloc: Global,
    auditor: &StepAuditor<'_>,
    outcome: &Outcome,
    case: &mut TestCase,
) -> Result<u8, WriteFault>
    ensures ok { IfOk result (λ status. status ≡ outcome_status outcome.now) }
    ensures err { IfErr result (λ fault. fault ≡ NoMemory) }
{
    match case.end(alloc, auditor.break_counts(), &auditor.audited(), outcome) {
        Ok(()) => Ok(outcome_status(outcome)),
        Err(_) => Err(WriteFault::Memory),
    }
}

/// Writes the outcome of the audit, and returns its exit status.
fn write_outcome<O: Sink>(
    alloc: Global,
    auditor: &StepAuditor<'_>,
    transfers: u64,
    head: &[u8],
    case: &mut TestCase,
    out: &mut O,
) -> Result<u8, WriteFault>
    ensures { malformed_step auditor.now.recording ≡ None
        → WritesOutcome (outcome_line_of head.now (outcome_of auditor.now.allowances transfers (read_of auditor.now)))
        (outcome_of auditor.now.allowances transfers (read_of auditor.now))
        (O.writing out.old) (O.writing out.new) result }
{
    let outcome = auditor.outcome(transfers);
    write_outcome_line(alloc, &outcome, head, out)?;
    end_case(alloc, auditor, &outcome, case)
}

/// Writes the counts of a recording and the outcome of its audit, and returns the exit status.
fn write_counts_and_outcome<O: Sink>(
    alloc: Global,
    auditor: &StepAuditor<'_>,
    options: AuditOptions<'_>,
    head: &[u8],
    case: &mut TestCase,
    out: &mut O,
) -> Result<u8, WriteFault>
    ensures { malformed_step auditor.now.recording ≡ None
        → WritesOutcome (counts_unless options.entry.is_quiet auditor.now.allowances head.now (read_of auditor.now)
        ++ outcome_line_of head.now
        (outcome_of auditor.now.allowances options.entry.transfers (read_of auditor.now)))
        (outcome_of auditor.now.allowances options.entry.transfers (read_of auditor.now))
        (O.writing out.old) (O.writing out.new) result }
{
    write_counts(alloc, auditor, options.is_quiet, head, out)?;
    write_outcome(alloc, auditor, options.transfers, head, case, out)
}

/// The audit of a body before its first step.
fn first_audit<'a>(reader: &StepReader, rules: AuditRules<'a>) -> StepAuditor<'a>
    ensures few { reader.now.given.opening.slots ≤ 21 }
    ensures whole { length reader.now.given.opening.levels ≡ line_count }
    ensures given { reader.now.given.steps ≡ [] → result.recording ≡ reader.now.given }
    ensures allowances { result.allowances ≡ rules.entry.allowances.now }
    ensures stop { result.stop ≡ rules.entry.stop }
    ensures nothing { breaks (read_of result) ≡ [] }
{
    prove!(reader.opening().slots() <= 21);
    StepAuditor::new(reader.opening(), rules)
}

/// Audits the body of a dump. `is_more` is whether more of it may follow than is held.
fn audit_rest<D: Source, O: Sink>(
    alloc: Global,
    dump: &mut D,
    input: &mut DumpInput,
    reader: StepReader,
    is_more: bool,
    auditor: &mut StepAuditor<'_>,
    settler: &mut Option<StepSettler>,
    head: &[u8],
    case: &mut TestCase,
    out: &mut O,
) -> Result<(), NoOutcome>
    ensures kept { (skew : Option ℕ) → HasGiven skew settler.old auditor.old reader
        → OnOk result (IsLater auditor.old auditor.new) }
    ensures audits { (skew : Option ℕ) → HasGiven skew settler.old auditor.old reader
        → AuditsRest skew head.now auditor.old auditor.new reader input.old is_more (D.reading dump.old)
        (O.writing out.old) (O.writing out.new) result }
    ensures unread { CountsUnread (D.reading dump.old) (D.reading dump.new) result }
{
    if is_more {
        audit_body(
            alloc, dump, input, reader, auditor, settler, head, case, out,
        )
    } else {
        audit_last(
            alloc,
            reader,
            input.bytes(),
            auditor,
            settler,
            head,
            case,
            out,
        )
    }
}

/// Audits the body of a dump, after its definitions, and writes all its lines.
fn audit_after_definitions<D: Source, O: Sink>(
    alloc: Global,
    dump: &mut D,
    input: &mut DumpInput,
    reader: StepReader,
    is_more: bool,
    options: AuditOptions<'_>,
    head: &[u8],
    case: &mut TestCase,
    out: &mut O,
) -> Result<u8, NoOutcome>
    ensures answers { IsBodyBegun reader → AnswersBody (given_options options.entry)
        head.now reader input.old is_more (D.reading dump.old) (O.writing out.old) (O.writing out.new) result }
    ensures unread { CountsUnread (D.reading dump.old) (D.reading dump.new) result }
{
    let rules = AuditRules {
        allowances: options.allowances,
        stop: options.stop,
    };
    let mut auditor = first_audit(&reader, rules);
    let mut settler = settler_for(alloc, reader.opening(), options.skew);
    match audit_rest(
        alloc,
        dump,
        input,
        reader,
        is_more,
        &mut auditor,
        &mut settler,
        head,
        case,
        out,
    ) {
        Ok(()) => or_not_written(write_counts_and_outcome(
            alloc, &auditor, options, head, case, out,
        )),
        Err(why) => Err(why),
    }
}

/// Audits a dump by a binding, and writes its lines to `out`. Returns the exit status of its outcome.
pub(crate) fn audit_dump<D: Source, O: Sink>(
    alloc: Global,
    binding: &Binding,
    dump: &mut D,
    name: &[u8],
    options: AuditOptions<'_>,
    case: &mut TestCase,
    out: &mut O,
) -> Result<u8, NoOutcome>
    ensures audits { AuditsDump (given_options options.entry)
        (head_of name.now) binding.now (D.reading dump.old) (O.writing out.old) (O.writing out.new) result }
    ensures unread { CountsUnread (D.reading dump.old) (D.reading dump.new) result }
{
    let (Ok(head), Ok(mut input)) = (dump_head(alloc, name), DumpInput::new(alloc)) else {
        return Err(NoOutcome::NotWritten(WriteFault::Memory));
    };
    match read_definitions(alloc, binding, dump, &mut input) {
        Ok((reader, is_more)) => audit_after_definitions(
            alloc,
            dump,
            &mut input,
            reader,
            is_more,
            options,
            head.as_bytes(),
            case,
            out,
        ),
        Err(why) => Err(why),
    }
}

//! The audit of several dumps by one binding.

ghost use Rattle.std.specs.Prelude.{◌≡◌, false, true, [], ◌∷◌, map, IfOk};
ghost use Rattle.vme_audit_command.specs.Audits.{RefusesBinding};
ghost use Rattle.vme_audit_command.specs.DumpAnswers.{given_options};
ghost use Rattle.vme_audit_command.specs.DumpEnds.{AuditsNamed, EndsWithReason, EndsWithStatus, WritesEnd};
ghost use Rattle.vme_audit_command.specs.DumpEnds.{WritesReason};
ghost use Rattle.vme_audit_command.specs.SeveralDumps.{AuditsByBinding, AuditsDumps, audit_status, refusal_line_of};

use crate::dump_audit::audit_dump;
use crate::junit::{TestCase, TestSuite};
use crate::written_lines::{NoOutcome, WriteFault};
use std::alloc::{AllocError, Global};
use vme_audit::Allowance;
use vme_audit_lines::{dump_head, refusal_text};
use vme_bind::Binding;
use vme_stream::{Input, Refusal, binding_from, cannot_write_line, complain, say, tell_refusal};
use vme_text::Text;
use vme_trace::{Sink, Source};

/// How recordings are audited.
#[derive(Clone, Copy, Debug)]
pub struct AuditOptions<'a> {
    /// The allowed deviations.
    pub allowances: &'a [Allowance],
    /// The number of transfers that must be answered for a recording to be covered.
    pub transfers: u64,
    /// The number of breaks that aren't allowed after which the rest of a dump isn't read, or `None` to read all of it.
    pub stop: Option<u64>,
    /// The greatest difference between the times at which probes record one moment of the bus, in time units of the
    /// dump.
    pub skew: u64,
    /// Whether the counts are left out.
    pub is_quiet: bool,
}

/// A dump, with its name.
#[derive(Drop)]
pub struct NamedDump<'a, D> {
    /// Its name in the lines about it, and in the JUnit file, which is well formed only if the name is UTF-8.
    pub name: &'a [u8],
    /// Its bytes, which are read from the start.
    pub dump: D,
}

/// The status of two that takes precedence.
fn worse(one: u8, other: u8) -> u8
    ensures { result ≡ audit_status (one ∷ other ∷ []) }
{
    if one == 5 || other == 5 {
        5
    } else if one == 4 || other == 4 {
        4
    } else if one == 3 || other == 3 {
        3
    } else if one == 1 || other == 1 {
        1
    } else if one == 2 || other == 2 {
        2
    } else if one == 6 || other == 6 {
        6
    } else {
        0
    }
}

/// Audits dumps by a binding, one after the other. Writes their breaks and outcomes to `out`, and to `err` why a dump
/// has no outcome. Returns whether anything was audited, and the exit status. That is the first of these that occurred
/// for any dump: 5 if `out` can't be written, 4 for want of memory, 3 if an input is refused, 1 if a rule is broken, 2
/// if a line is unknown, 6 if a recording isn't covered, or else 0.
pub fn audit<B: Source, D: Source, O: Sink, E: Sink>(
    alloc: Global,
    binding: &mut B,
    dumps: &mut [NamedDump<'_, D>],
    options: AuditOptions<'_>,
    suite: &mut TestSuite,
    out: &mut O,
    err: &mut E,
) -> (bool, u8)
    ensures refused { result.0 ≡ false → RefusesBinding (B.reading binding.old, B.reading binding.new)
        (O.writing out.old, O.writing out.new) (E.writing err.old, E.writing err.new) result.1 }
    ensures audited { result.0 ≡ true → AuditsByBinding (given_options options.entry)
        (B.reading binding.old, B.reading binding.new)
        (map (λ d. record { name = d.name.now; dump = D.reading d.dump }) dumps.old)
        (map (λ d. D.reading d.dump) dumps.new)
        (O.writing out.old, O.writing out.new) (E.writing err.old, E.writing err.new) result.1 }
{
    match binding_from(alloc, binding) {
        Ok(bound) => (
            true,
            audit_all(alloc, &bound, dumps, options, suite, out, err),
        ),
        Err(refusal) => (false, tell_refusal(&refusal, err)),
    }
}

/// Audits the dumps by a binding that was read. Returns the exit status.
fn audit_all<D: Source, O: Sink, E: Sink>(
    alloc: Global,
    bound: &Binding,
    dumps: &mut [NamedDump<'_, D>],
    options: AuditOptions<'_>,
    suite: &mut TestSuite,
    out: &mut O,
    err: &mut E,
) -> u8
    ensures { AuditsDumps (given_options options.entry)
        bound.now (map (λ d. record { name = d.name.now; dump = D.reading d.dump }) dumps.old)
        (map (λ d. D.reading d.dump) dumps.new)
        (O.writing out.old, O.writing out.new) (E.writing err.old, E.writing err.new) result }
{
    let mut status = 0;
    for named in dumps.iter_mut() {
        let ended = audit_named(alloc, bound, named, options, suite, out, err);
        if ended == 5 {
            return 5;
        }
        status = worse(status, ended);
    }
    status
}

/// Audits one of the dumps. Returns its exit status.
fn audit_named<D: Source, O: Sink, E: Sink>(
    alloc: Global,
    bound: &Binding,
    named: &mut NamedDump<'_, D>,
    options: AuditOptions<'_>,
    suite: &mut TestSuite,
    out: &mut O,
    err: &mut E,
) -> u8
    ensures { AuditsNamed (given_options options.entry)
        bound.now (record { name = named.old.name.now; dump = D.reading named.old.dump })
        (D.reading named.new.dump)
        (O.writing out.old, O.writing out.new) (E.writing err.old, E.writing err.new) result }
{
    let mut case = suite.case(alloc);
    let name = named.name;
    let ended = audit_dump(alloc, bound, &mut named.dump, name, options, &mut case, out);
    write_end(alloc, name, &case, ended, suite, err)
}

/// Writes why a dump has no outcome, if it has none, and keeps its test case. Returns its exit status.
fn write_end<E: Sink>(
    alloc: Global,
    name: &[u8],
    case: &TestCase,
    ended: Result<u8, NoOutcome>,
    suite: &mut TestSuite,
    err: &mut E,
) -> u8
    ensures { WritesEnd name.now ended (E.writing err.old) (E.writing err.new) result }
{
    match ended {
        Ok(status) => keep(alloc, name, case, None, status, suite, err),
        Err(NoOutcome::Refused(refusal)) => refuse(alloc, name, case, refusal, suite, err),
        Err(NoOutcome::CannotRead) => {
            let refusal = Refusal::CannotRead(Input::Dump);
            refuse(alloc, name, case, refusal, suite, err)
        }
        Err(NoOutcome::NotWritten(WriteFault::Memory)) => {
            refuse(alloc, name, case, Refusal::Memory, suite, err)
        }
        Err(NoOutcome::NotWritten(WriteFault::CannotWrite)) => {
            complain(err, cannot_write_line());
            5
        }
    }
}

/// Writes why a dump has no outcome, and keeps its test case. Returns its exit status.
fn refuse<E: Sink>(
    alloc: Global,
    name: &[u8],
    case: &TestCase,
    refusal: Refusal,
    suite: &mut TestSuite,
    err: &mut E,
) -> u8
    ensures { EndsWithReason name.now refusal (E.writing err.old) (E.writing err.new) result }
{
    let status = write_refusal(alloc, name, &refusal, err);
    keep(alloc, name, case, Some(&refusal), status, suite, err)
}

/// Keeps the test case of a dump of exit status `status`. Returns `status`, or 4 if there is no memory for the test
/// case.
fn keep<E: Sink>(
    alloc: Global,
    name: &[u8],
    case: &TestCase,
    refusal: Option<&Refusal>,
    status: u8,
    suite: &mut TestSuite,
    err: &mut E,
) -> u8
    ensures { EndsWithStatus status (E.writing err.old) (E.writing err.new) result }
{
    match suite.take(alloc, name, case, refusal) {
        Ok(()) => status,
        Err(_) => tell_refusal(&Refusal::Memory, err),
    }
}

/// Writes why a dump has no outcome. Returns the exit status.
fn write_refusal<E: Sink>(alloc: Global, name: &[u8], refusal: &Refusal, err: &mut E) -> u8
    ensures { WritesReason name.now refusal.now (E.writing err.old) (E.writing err.new) result }
{
    match refusal_of(alloc, name, refusal) {
        Ok(text) => {
            say(err, text.as_bytes());
            refusal.status()
        }
        Err(_) => tell_refusal(&Refusal::Memory, err),
    }
}

/// The line that says why a dump has no outcome.
fn refusal_of(alloc: Global, name: &[u8], refusal: &Refusal) -> Result<Text, AllocError>
    ensures { IfOk result (λ text. text ≡ refusal_line_of name.now refusal.now) }
{
    let head = dump_head(alloc, name)?;
    let reason = refusal_text(alloc, refusal)?;
    let mut text = Text::new(alloc);
    text.push(b"vmecheck: ")?;
    text.push(head.as_bytes())?;
    text.push(reason.as_bytes())?;
    Ok(text)
}

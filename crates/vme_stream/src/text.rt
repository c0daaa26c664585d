//! The lines that the program writes.

ghost use Rattle.std.specs.Prelude.{◌≡◌, ◌+◌, ◌≤◌, ◌∷◌, ◌++◌, [], length};
ghost use Rattle.vme_stream.specs.Texts.{break_text, verdict_text, verdict_status, dump_fault_text, binding_fault_text};
ghost use Rattle.vme_stream.specs.Texts.{listing_fault_text, cannot_write_text, input_name, line_of, refusal_text};

use crate::message::Message;
use crate::refusal::{Input, Refusal};
use vcd_read::FaultKind;
use vme_bind::BindFaultKind;
use vme_listing::ListFault;
use vme_trace::{Break, Verdict};

/// The line of a verdict.
pub fn verdict_line(verdict: &Verdict) -> Message
    ensures { result ≡ line_of (verdict_text verdict.now) }
{
    verdict_message(verdict).with_line_feed()
}

/// The exit status: 0 conforming, 1 broken, 2 unreadable or never idle.
pub fn verdict_status(verdict: &Verdict) -> u8
    ensures { result ≡ verdict_status verdict.now }
{
    match verdict {
        Verdict::Conforming => 0,
        Verdict::Broken(_) => 1,
        Verdict::Unreadable(_) | Verdict::NeverIdle => 2,
    }
}

/// The line that says why there is no verdict.
pub fn refusal_line(refusal: &Refusal) -> Message
    ensures { result ≡ line_of (refusal_text refusal.now) }
{
    refusal_message(refusal).with_line_feed()
}

/// The line that says that the verdict can't be written.
pub fn cannot_write_line() -> Message
    ensures { result ≡ line_of cannot_write_text }
{
    Message::new()
        .with(b"vmecheck: cannot write")
        .with_line_feed()
}

/// The text of a verdict.
fn verdict_message(verdict: &Verdict) -> Message
    ensures text { result ≡ verdict_text verdict.now }
    ensures short { length result ≤ 120 }
{
    match verdict {
        Verdict::Conforming => Message::new().with(b"conforming"),
        Verdict::Broken(found) => break_message(b"broken ", found),
        Verdict::Unreadable(found) => break_message(b"unreadable ", found),
        Verdict::NeverIdle => Message::new().with(b"never idle"),
    }
}

/// The text of a break, after `head`.
fn break_message(head: &[u8], found: &Break) -> Message
    requires { length head.now ≤ 16 }
    ensures text { result ≡ break_text head.now found.now }
    ensures short { length result ≤ 120 }
{
    let rule = found.rule.name();
    let line = found.line.name();
    Message::new()
        .with(head)
        .with(rule.as_bytes())
        .with(b" at instant ")
        .with_decimal(u64::from(found.instant))
        .with(b" time ")
        .with_decimal(found.time)
        .with(b" line ")
        .with(line.as_bytes())
}

/// The text of a refusal.
fn refusal_message(refusal: &Refusal) -> Message
    ensures text { result ≡ refusal_text refusal.now }
    ensures short { length result ≤ 120 }
{
    match refusal {
        Refusal::CannotOpen(input) => Message::new()
            .with(b"vmecheck: cannot open ")
            .with(input_name(*input)),
        Refusal::CannotRead(input) => Message::new()
            .with(b"vmecheck: cannot read ")
            .with(input_name(*input)),
        Refusal::TooLong(input) => Message::new()
            .with(b"vmecheck: ")
            .with(input_name(*input))
            .with(b" too long"),
        Refusal::BadBinding(fault) => binding_fault_message(fault.line, fault.kind),
        Refusal::BadDump(fault) => dump_fault_message(fault.line, fault.kind),
        Refusal::BadListing(fault) => listing_fault_message(*fault),
        Refusal::TooManyBlocks => Message::new().with(b"vmecheck: too many blocks"),
        Refusal::Memory => Message::new().with(b"vmecheck: out of memory"),
    }
}

/// The name of an input in messages.
fn input_name(input: Input) -> &'static [u8]
    ensures name { result.now ≡ input_name input }
    ensures short { length result.now ≤ 7 }
{
    match input {
        Input::Binding => b"binding",
        Input::Dump => b"dump",
        Input::Listing => b"listing",
    }
}

/// The text of a fault of a dump on this line.
fn dump_fault_message(line: u64, kind: FaultKind) -> Message
    ensures text { result ≡ dump_fault_text line kind }
    ensures short { length result ≤ 120 }
{
    let head = Message::new()
        .with(b"vmecheck: dump line ")
        .with_decimal(line)
        .with(b": ");
    match kind {
        FaultKind::BadToken => head.with(b"BadToken"),
        FaultKind::UnfinishedSection => head.with(b"UnfinishedSection"),
        FaultKind::BadVar => head.with(b"BadVar"),
        FaultKind::ScopeUnderflow => head.with(b"ScopeUnderflow"),
        FaultKind::NoEndDefinitions => head.with(b"NoEndDefinitions"),
        FaultKind::UndeclaredCode => head.with(b"UndeclaredCode"),
        FaultKind::TooWide => head.with(b"TooWide"),
        FaultKind::SizeConflict => head.with(b"SizeConflict"),
        FaultKind::TimeBackwards => head.with(b"TimeBackwards"),
        FaultKind::NumberTooLarge => head.with(b"NumberTooLarge"),
        FaultKind::Memory => head.with(b"Memory"),
    }
}

/// The text of a fault of a listing.
fn listing_fault_message(fault: ListFault) -> Message
    ensures text { result ≡ listing_fault_text fault }
    ensures short { length result ≤ 120 }
{
    match fault {
        ListFault::BadHeader => Message::new().with(b"vmecheck: listing header"),
        ListFault::BadRow { row } => Message::new()
            .with(b"vmecheck: listing row ")
            .with_decimal(row as u64)
            .with(b": BadRow"),
        ListFault::Unsorted { row } => Message::new()
            .with(b"vmecheck: listing row ")
            .with_decimal(row as u64)
            .with(b": Unsorted"),
        ListFault::Memory => Message::new().with(b"vmecheck: out of memory"),
    }
}

/// The text of a fault of a binding on this line.
fn binding_fault_message(line: u64, kind: BindFaultKind) -> Message
    ensures text { result ≡ binding_fault_text line kind }
    ensures short { length result ≤ 120 }
{
    let head = Message::new()
        .with(b"vmecheck: binding line ")
        .with_decimal(line)
        .with(b": ");
    match kind {
        BindFaultKind::BadLine => head.with(b"BadLine"),
        BindFaultKind::SlotsFirst => head.with(b"SlotsFirst"),
        BindFaultKind::UnknownName => head.with(b"UnknownName"),
        BindFaultKind::NamedTwice => head.with(b"NamedTwice"),
        BindFaultKind::Unbound(unbound) => head.with(b"Unbound ").with(unbound.name().as_bytes()),
        BindFaultKind::Memory => head.with(b"Memory"),
        BindFaultKind::NoSuchPath => head.with(b"NoSuchPath"),
        BindFaultKind::AmbiguousPath => head.with(b"AmbiguousPath"),
        BindFaultKind::WrongWidth => head.with(b"WrongWidth"),
        BindFaultKind::TooManySteps => head.with(b"TooManySteps"),
    }
}

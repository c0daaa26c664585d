//! The lines that are written about parts.

ghost use Rattle.std.specs.Prelude.{◌≡◌, ◌≤◌, length};
ghost use Rattle.vme_stream.specs.Texts.{break_text, line_of, verdict_status as status_of, verdict_text};
ghost use Rattle.vme_part_tables.specs.Runs.{break_of};
ghost use Rattle.vme_parts.specs.Telling.{verdict_of};
ghost use Rattle.vme_part_command.specs.Lines.{byte_text, fault_text, kind_text, part_text, refusing_text, told_text};

use vme_part_format::{PartFault, PartFaultKind, WideBreak};
use vme_parts::{RecordingAnswer, WideVerdict};
use vme_stream::Message;

/// The line of a verdict.
pub(crate) fn verdict_line(verdict: &WideVerdict) -> Message
    ensures { result ≡ line_of (verdict_text (verdict_of verdict.now)) }
{
    verdict_message(verdict).with_line_feed()
}

/// The text of a verdict.
fn verdict_message(verdict: &WideVerdict) -> Message
    ensures text { result ≡ verdict_text (verdict_of verdict.now) }
    ensures short { length result ≤ 120 }
{
    match verdict {
        WideVerdict::Conforming => Message::new().with(b"conforming"),
        WideVerdict::Broken(found) => break_message(b"broken ", found),
        WideVerdict::Unreadable(found) => break_message(b"unreadable ", found),
        WideVerdict::NeverIdle => Message::new().with(b"never idle"),
    }
}

/// The text of a break, after `head`.
fn break_message(head: &[u8], found: &WideBreak) -> Message
    requires { length head.now ≤ 16 }
    ensures text { result ≡ break_text head.now (break_of found.now) }
    ensures short { length result ≤ 120 }
{
    let rule = found.rule.name();
    let line = found.line.name();
    Message::new()
        .with(head)
        .with(rule.as_bytes())
        .with(b" at instant ")
        .with_decimal(found.instant)
        .with(b" time ")
        .with_decimal(found.time)
        .with(b" line ")
        .with(line.as_bytes())
}

/// The exit status of a verdict: 0 conforming, 1 broken, 2 unreadable or never idle.
pub(crate) fn verdict_status(verdict: &WideVerdict) -> u8
    ensures { result ≡ status_of (verdict_of verdict.now) }
{
    match verdict {
        WideVerdict::Conforming => 0,
        WideVerdict::Broken(_) => 1,
        WideVerdict::Unreadable(_) | WideVerdict::NeverIdle => 2,
    }
}

/// The line that says `what` of the file `number`.
pub(crate) fn part_line(number: u64, what: &[u8]) -> Message
    requires { length what.now ≤ 64 }
    ensures { result ≡ line_of (part_text number what.now) }
{
    Message::new()
        .with(b"vmecheck: part ")
        .with_decimal(number)
        .with(what)
        .with_line_feed()
}

/// The line of a refusal, for the reason `what`.
pub(crate) fn refusing_line(what: &[u8]) -> Message
    requires { length what.now ≤ 64 }
    ensures { result ≡ line_of (refusing_text what.now) }
{
    Message::new()
        .with(b"vmecheck: ")
        .with(what)
        .with_line_feed()
}

/// The line of an answer about the whole recording.
pub(crate) fn told_line(told: &RecordingAnswer) -> Message
    ensures { result ≡ line_of (told_text told.now) }
{
    match told {
        RecordingAnswer::Beyond(number) => part_line(*number, b" beyond the files"),
        RecordingAnswer::Missing(number) => part_line(*number, b" missing"),
        RecordingAnswer::Torn(number) => part_line(*number, b" torn"),
        RecordingAnswer::TooManySteps => refusing_line(b"too many steps"),
        RecordingAnswer::Verdict(verdict) => verdict_line(verdict),
    }
}

/// The name of a kind of fault, after the index of the byte.
fn byte_message(place: usize, kind: &[u8]) -> Message
    requires { length kind.now ≤ 64 }
    ensures { result ≡ byte_text place kind.now }
{
    Message::new()
        .with(b"byte ")
        .with_decimal(place as u64)
        .with(b": ")
        .with(kind)
}

/// The text of a fault of this kind at the byte of index `place`.
fn kind_message(kind: PartFaultKind, place: usize) -> Message
    ensures { result ≡ kind_text kind place }
{
    match kind {
        PartFaultKind::NotAPart => Message::new().with(b"no part"),
        PartFaultKind::OtherVersion => Message::new().with(b"a part of another version"),
        PartFaultKind::Damaged => Message::new().with(b"damaged"),
        PartFaultKind::CutShort => byte_message(place, b"CutShort"),
        PartFaultKind::BadFlag => byte_message(place, b"BadFlag"),
        PartFaultKind::BadNumber => byte_message(place, b"BadNumber"),
        PartFaultKind::BadLevels => byte_message(place, b"BadLevels"),
        PartFaultKind::BadSteps => byte_message(place, b"BadSteps"),
        PartFaultKind::BadBreak => byte_message(place, b"BadBreak"),
        PartFaultKind::BadWay => byte_message(place, b"BadWay"),
        PartFaultKind::BadMark => byte_message(place, b"BadMark"),
        PartFaultKind::Trailing => byte_message(place, b"Trailing"),
    }
}

/// The text of a fault of a part, which comes after the name of its file.
pub(crate) fn fault_message(fault: &PartFault) -> Message
    ensures { result ≡ fault_text fault.now }
{
    kind_message(fault.kind, fault.place)
}

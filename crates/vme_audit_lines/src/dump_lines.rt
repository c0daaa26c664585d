//! The lines about a dump: their beginning, its breaks, and why there is no outcome.

ghost use Rattle.std.specs.Prelude.{◌≡◌, ◌++◌, IfOk, OnOk};
ghost use Rattle.vme_stream.specs.Texts.{line_of};
ghost use Rattle.vme_auditor.specs.Breaks.{as_break};
ghost use Rattle.vme_audit_lines.specs.AuditLines.{audit_break_text, cannot_text, head_of, refusal_after_name};
ghost use Rattle.vme_audit_lines.specs.AuditLines.{shown as shown_byte, category_name as name_of};

use crate::category::BreakCategory;
use std::alloc::{AllocError, Global};
use vme_auditor::AuditBreak;
use vme_stream::{Input, Refusal, refusal_line};
use vme_text::Text;

/// A byte of a name as it is shown: `?` for one that a line of text can't have.
fn shown(byte: u8) -> u8
    ensures { result ≡ shown_byte byte }
{
    if byte < b' ' || byte == 0x7F {
        b'?'
    } else {
        byte
    }
}

/// The beginning of each line about a dump of this name. Bytes below 20 and 7F, in hexadecimal, are written as `?`. It
/// fails if memory runs out.
pub fn dump_head(alloc: Global, name: &[u8]) -> Result<Text, AllocError>
    ensures { IfOk result (λ text. text ≡ head_of name.now) }
{
    let mut text = Text::new(alloc);
    for byte in name {
        text.push(&[shown(*byte)])?;
    }
    text.push(b": ")?;
    Ok(text)
}

/// The word for how a break counts, and a space after it.
fn category_name(category: BreakCategory) -> &'static [u8]
    ensures { result.now ≡ name_of category }
{
    match category {
        BreakCategory::Broken => b"broken ",
        BreakCategory::Unreadable => b"unreadable ",
        BreakCategory::Allowed => b"allowed ",
    }
}

/// The line of a break, after `head`. It fails if memory runs out.
pub fn break_line(
    alloc: Global,
    head: &[u8],
    category: BreakCategory,
    found: &AuditBreak,
) -> Result<Text, AllocError>
    ensures { IfOk result (λ text. text ≡ head.now ++ line_of (audit_break_text category (as_break found.now))) }
{
    let rule = found.rule.name();
    let line = found.line.name();
    let mut text = Text::new(alloc);
    text.push(head)?;
    text.push(category_name(category))?;
    text.push(rule.as_bytes())?;
    text.push(b" at instant ")?;
    text.push_decimal(alloc, found.instant)?;
    text.push(b" time ")?;
    text.push_decimal(alloc, found.time)?;
    text.push(b" line ")?;
    text.push(line.as_bytes())?;
    text.push(b"\n")?;
    Ok(text)
}

/// Appends what can't be done with an input. If memory runs out, only a part is appended.
fn push_cannot(text: &mut Text, reason: &[u8], input: Input) -> Result<(), AllocError>
    ensures { OnOk result (text.new ≡ text.old ++ line_of (cannot_text reason.now input)) }
{
    text.push(reason)?;
    match input {
        Input::Binding => text.push(b" binding\n"),
        Input::Dump => text.push(b"\n"),
        Input::Listing => text.push(b" listing\n"),
    }
}

/// Appends why there is no outcome of a dump. If memory runs out, only a part is appended.
fn push_refusal(text: &mut Text, refusal: &Refusal) -> Result<(), AllocError>
    ensures { OnOk result (text.new ≡ text.old ++ line_of (refusal_after_name refusal.now)) }
{
    match refusal {
        Refusal::CannotOpen(input) => push_cannot(text, b"cannot open", *input),
        Refusal::CannotRead(input) => push_cannot(text, b"cannot read", *input),
        _ => {
            let line = refusal_line(refusal);
            text.push(&line.as_bytes()[b"vmecheck: ".len()..])
        }
    }
}

/// Why there is no outcome of a dump, as the text after the dump's name: the text that [`refusal_line`] has after the
/// program's name. If the dump can't be opened or read, the word `dump` is left out.
pub fn refusal_text(alloc: Global, refusal: &Refusal) -> Result<Text, AllocError>
    ensures { IfOk result (λ text. text ≡ line_of (refusal_after_name refusal.now)) }
{
    let mut text = Text::new(alloc);
    push_refusal(&mut text, refusal)?;
    Ok(text)
}

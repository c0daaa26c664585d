use crate::tests::is_text;
use std::alloc::{AllocError, Global};
use vme_text::{Text, escaped_text, push_escaped};

/// Adds bytes, spaces and a number.
fn push_all(alloc: Global, text: &mut Text) -> Result<(), AllocError> {
    text.push(b"at")?;
    text.push_spaces(2)?;
    text.push_decimal(alloc, 120)
}

/// Whether bytes, spaces and a number make a text.
fn is_grown(alloc: Global) -> bool {
    let mut text = Text::new(alloc);
    push_all(alloc, &mut text).is_ok() && text.as_bytes() == b"at  120".as_slice()
}

#[test]
fn a_text_grows(rt: HostRuntime) {
    assert!(rt; is_grown(rt.alloc()));
}

/// Bytes at the bounds of what is visible, a control sequence of a terminal, a line feed, a tab, a backslash, which
/// isn't doubled, and the mark that turns the direction of a line.
const BYTES: &[u8] = b"\x1F ~\x7F\x80\xFF\x00\x1B[31m\n\t\\\xE2\x80\xAE";

/// Whether `BYTES`, appended to a text, are shown as `shown`.
fn are_shown(alloc: Global, shown: &[u8]) -> bool {
    let mut text = Text::new(alloc);
    text.push(b"as ").is_ok()
        && push_escaped(&mut text, alloc, BYTES).is_ok()
        && text.as_bytes() == shown
}

#[test]
fn names_are_shown_by_visible_characters(rt: HostRuntime) {
    let shown = b"as \\x1F ~\\x7F\\x80\\xFF\\x00\\x1B[31m\\x0A\\x09\\\\xE2\\x80\\xAE";
    assert!(rt; are_shown(rt.alloc(), shown));
}

#[test]
fn texts_keep_their_lines(rt: HostRuntime) {
    let shown = b"\\x1F ~\\x7F\\x80\\xFF\\x00\\x1B[31m\n\\x09\\\\xE2\\x80\\xAE";
    assert!(rt; is_text(escaped_text(rt.alloc(), BYTES), shown));
    assert!(rt; is_text(escaped_text(rt.alloc(), b""), b""));
}

/// Whether a text has what is shown of a tab, or is as it was.
fn is_shown_or_as_before(alloc: Global) -> bool {
    let mut text = Text::new(alloc);
    match push_escaped(&mut text, alloc, b"a\t") {
        Ok(()) => text.as_bytes() == b"a\\x09".as_slice(),
        Err(_) => text.as_bytes().is_empty(),
    }
}

/// Whether a line is shown with its line feed, or memory is refused.
fn are_lines_shown_or_refused(alloc: Global) -> bool {
    match escaped_text(alloc, b"a\n") {
        Ok(lines) => lines.as_bytes() == b"a\n".as_slice(),
        Err(_) => true,
    }
}

/// A text has what is shown appended. Run with each allocation refused in turn, this shows that it is then as it was.
#[test]
fn each_growth_fails_once(rt: HostRuntime) {
    assert!(rt; is_shown_or_as_before(rt.alloc()));
    assert!(rt; are_lines_shown_or_refused(rt.alloc()));
}

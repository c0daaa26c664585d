//! Escaping of bytes in text for people: no byte steers a terminal or turns the direction of a line.

ghost use Rattle.std.specs.Prelude.{◌≡◌, ◌<◌, ◌++◌, true, IfOk, OnErr, OnOk, flat_map};
ghost use Rattle.std.specs.Fmt.{digit_glyph};
ghost use Rattle.vme_text.specs.Escaping.{IsVisible, hex_escaped_byte, hex_escaped_in_text};

use crate::text::Text;
use std::alloc::{AllocError, Global};

/// Appends some bytes, escaped: each that isn't a printable character of ASCII, 20 to 7E, is written as `\xHH`. Without
/// memory the text is as before.
pub fn push_escaped(text: &mut Text, alloc: Global, bytes: &[u8]) -> Result<(), AllocError>
    ensures ok { OnOk result (text.new ≡ text.old ++ flat_map hex_escaped_byte bytes.now) }
    ensures err { OnErr result (text.new ≡ text.old) }
{
    let escaped = escaped(alloc, bytes)?;
    text.push(&escaped)
}

/// A text of several lines, escaped: its line feeds stay, and each other byte that isn't a printable character of
/// ASCII is written as `\xHH`. The only error is want of memory.
#[tactic(auto, using(crate::proofs::EscapingLemmas::text_is_visible))]
pub fn escaped_text(alloc: Global, bytes: &[u8]) -> Result<Text, AllocError>
    ensures items { IfOk result (λ text. text ≡ flat_map hex_escaped_in_text bytes.now) }
    ensures visible { IfOk result (λ text. IsVisible text) }
{
    let escaped = escaped_lines(alloc, bytes)?;
    Ok(Text::from_bytes(escaped))
}

/// Some bytes, escaped.
fn escaped(alloc: Global, bytes: &[u8]) -> Result<Vec<u8>, AllocError>
    ensures { IfOk result (λ all. all.items ≡ flat_map hex_escaped_byte bytes.now) }
{
    let mut all = Vec::with_capacity(alloc, bytes.len())?;
    for byte in bytes {
        push_escaped_byte(&mut all, *byte)?;
    }
    Ok(all)
}

/// The bytes of several lines, escaped: line feeds stay.
fn escaped_lines(alloc: Global, bytes: &[u8]) -> Result<Vec<u8>, AllocError>
    ensures { IfOk result (λ all. all.items ≡ flat_map hex_escaped_in_text bytes.now) }
{
    let mut all = Vec::with_capacity(alloc, bytes.len())?;
    for byte in bytes {
        push_byte_of_lines(&mut all, *byte)?;
    }
    Ok(all)
}

/// Appends a byte as it is shown in a text of several lines: a line feed as itself.
fn push_byte_of_lines(all: &mut Vec<u8>, byte: u8) -> Result<(), AllocError>
    ensures { OnOk result (all.new.items ≡ all.old.items ++ hex_escaped_in_text byte) }
{
    if byte == b'\n' {
        all.extend_from_slice(&[byte])
    } else {
        push_escaped_byte(all, byte)
    }
}

/// Appends a byte as it is shown: `\x` and two hexadecimal digits if it isn't a space or a visible character of ASCII.
fn push_escaped_byte(all: &mut Vec<u8>, byte: u8) -> Result<(), AllocError>
    ensures { OnOk result (all.new.items ≡ all.old.items ++ hex_escaped_byte byte) }
{
    if 0x20 <= byte && byte <= 0x7E {
        all.extend_from_slice(&[byte])
    } else {
        all.extend_from_slice(&[
            b'\\',
            b'x',
            hexadecimal_digit(byte / 16 % 16),
            hexadecimal_digit(byte % 16),
        ])
    }
}

/// The hexadecimal digit of a number below 16.
fn hexadecimal_digit(number: u8) -> u8
    requires { number < 16 }
    ensures { result ≡ digit_glyph true number }
{
    if number < 10 {
        b'0' + number
    } else {
        b'A' + (number - 10)
    }
}

//! The end of a section, and of the definitions.

ghost use Rattle.std.specs.Prelude.{◌≡◌, ◌<◌, ◌≤◌, false, true, None, IfNone, IfSome, length};
ghost use Rattle.std.specs.List.{list_any};
ghost use Rattle.vcd_read.specs.Body.{body_from, ready};
ghost use Rattle.vcd_read.specs.Reading.{tokens_after};
ghost use Rattle.vcd_places.specs.Places.{ends_definitions_at, IsAtTime, times_of_body, body_in};
ghost use Rattle.vcd_places.specs.NextTokens.{IsTakenToEnd, ends_section};
ghost use Rattle.vcd_places.specs.Times.{times_left};

use crate::times::TimePlaces;
use crate::token_reader::TokenReader;
use vcd_read::{is_end, opens_section};

/// Where the section that ends the definitions of a text is.
#[derive(Clone, Copy, Debug, PartialEq, Eq)]
pub struct EndSection {
    /// Where its `$enddefinitions` begins.
    pub start: usize,
    /// The place after its `$end`.
    pub end: usize,
}

/// Takes the tokens up to and including the next `$end`, or all that are left. Answers whether there is an `$end`.
pub(crate) fn skip_past_end(reader: &mut TokenReader<'_>) -> bool
    ensures text { reader.new.text.now ≡ reader.old.text.now }
    ensures end { result ≡ true → IsTakenToEnd reader.old.text.now reader.old.at reader.new.at }
    ensures none { result ≡ false → list_any ends_section (tokens_after 1 reader.old.text.now reader.old.at) ≡ false }
{
    while let Some(token) = reader.next() {
        if is_end(token.bytes) {
            return true;
        }
    }
    false
}

/// The section that ends the definitions of `text`, and the times of the body after it. `None` if the definitions don't
/// end in `text`.
pub fn definitions_end(text: &[u8]) -> Option<(EndSection, TimePlaces<'_>)>
    ensures none { IfNone result (body_in text.now ≡ None) }
    ensures start { IfSome result (λ found. ends_definitions_at text.now found.0.start ≡ true) }
    ensures end { IfSome result (λ found. IsAtTime text.now 0 found.0.end) }
    ensures order { IfSome result (λ found. (found.0.start < found.0.end) × (found.0.end ≤ length text.now)) }
    ensures text { IfSome result (λ found. found.1 ≡ record { text = text.now; at = found.0.end }) }
    ensures times { IfSome result (λ found. times_left found.1 ≡ times_of_body text.now) }
{
    let mut reader = TokenReader::new(text, 0);
    while let Some(first) = reader.next() {
        if !opens_section(first.bytes) {
            continue;
        }
        if !skip_past_end(&mut reader) {
            return None;
        }
        if first.bytes == b"$enddefinitions".as_slice() {
            let section = EndSection {
                start: first.start,
                end: reader.at,
            };
            return Some((section, TimePlaces::new(text, reader.at)));
        }
    }
    None
}

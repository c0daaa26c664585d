//! Where the time stamps of a body are.

ghost use Rattle.std.specs.Prelude.{◌≡◌, ◌∷◌, ◌<◌, ◌≤◌, [], true, IfNone, IfSome};
ghost use Rattle.vcd_read.specs.Body.{shape_of};
ghost use Rattle.vcd_places.specs.Items.{begun_kind, kind_of};
ghost use Rattle.vcd_places.specs.Places.{IsAtTime};
ghost use Rattle.vcd_places.specs.Times.{IsBetweenItems, times_left};

use crate::section::skip_past_end;
use crate::token_reader::TokenReader;
use std::marker::Model;
use vcd_read::{are_bits, time_of};

/// A time stamp of a body.
#[derive(Clone, Copy, Debug, PartialEq, Eq)]
pub struct TimePlace {
    /// The time that it denotes, in the unit of the dump's `$timescale`.
    pub time: u64,
    /// Where its token ends, in bytes from the start of the text.
    pub end: usize,
}

/// The body of a text, whose time stamps are taken in their order.
#[derive(Drop)]
pub struct TimePlaces<'a> {
    text: &'a [u8],
    at: usize,
}

impl<'a> Model for TimePlaces<'a> {
    ghost use Rattle.vcd_places.specs.Times.{IsBetweenItems, TimesLeft};

    ghost Value = { TimesLeft };

    ghost view = { λ p. record { text = p.text.now; at = p.at } };

    ghost invariant = { λ p. IsBetweenItems p.text.now p.at };
}

/// The item that a token of a body begins, by how the item ends.
#[derive(Clone, Copy)]
pub(crate) enum BegunItem<'a> {
    /// A time stamp, by the digits after its `#`.
    Time(&'a [u8]),
    /// An item whose code is the next token.
    Code,
    /// A comment, up to its `$end`.
    Comment,
    /// An item of one token.
    Whole,
}

/// What a token of a body begins.
fn what_begins(token: &[u8]) -> BegunItem<'_>
    ensures { begun_kind result ≡ kind_of (shape_of token.now) }
{
    if token.is_empty() {
        return BegunItem::Whole;
    }
    let rest = &token[1..];
    match token[0] {
        b'#' => BegunItem::Time(rest),
        b'b' | b'B' => {
            if are_bits(rest) {
                BegunItem::Code
            } else {
                BegunItem::Whole
            }
        }
        b'r' | b'R' | b's' => BegunItem::Code,
        b'$' => {
            if token == b"$comment".as_slice() {
                BegunItem::Comment
            } else {
                BegunItem::Whole
            }
        }
        _ => BegunItem::Whole,
    }
}

impl<'a> TimePlaces<'a> {
    /// The time stamps of `text` from the place `at` on.
    pub(crate) fn new(text: &'a [u8], at: usize) -> TimePlaces<'a>
        requires { IsBetweenItems text.now at }
        ensures { result ≡ record { text = text.now; at = at } }
    {
        TimePlaces { text, at }
    }

    /// Takes the next time stamp below 2^64, if there is one. All other items are passed over.
    pub fn next(&mut self) -> Option<TimePlace>
        ensures text { self.new.text ≡ self.old.text }
        ensures time { IfSome result (λ found. times_left self.old ≡ found.time ∷ times_left self.new) }
        ensures none { IfNone result (times_left self.old ≡ []) }
        ensures place { IfSome result (λ found. IsAtTime self.old.text found.time found.end) }
        ensures order { IfSome result (λ found. (self.old.at < found.end) × (found.end ≡ self.new.at)) }
    {
        let mut reader = TokenReader::new(self.text, self.at);
        while let Some(token) = reader.next() {
            match what_begins(token.bytes) {
                BegunItem::Time(digits) => match time_of(digits) {
                    Ok(time) => {
                        self.at = reader.at;
                        return Some(TimePlace {
                            time,
                            end: reader.at,
                        });
                    }
                    Err(_) => {}
                },
                BegunItem::Code => {
                    reader.next()?;
                }
                BegunItem::Comment => {
                    if !skip_past_end(&mut reader) {
                        return None;
                    }
                }
                BegunItem::Whole => {}
            }
        }
        None
    }
}

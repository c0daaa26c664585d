//! A line of text that is made without taking memory.

ghost use Rattle.std.specs.Prelude.{◌≡◌, ◌+◌, ◌<◌, ◌≤◌, ◌∷◌, ◌++◌, [], length, decimal};

use std::marker::Model;
use vme_listing::decimal_digits;

/// A text of at most 128 bytes.
#[derive(Debug, Drop)]
pub struct Message {
    bytes: [u8; 128],
    len: usize,
}

impl Model for Message {
    ghost use Rattle.std.specs.Prelude.{ℕ, ◌≤◌, List, take};

    ghost Value = { List ℕ };

    ghost view = { λ a. take a.len a.bytes };

    ghost invariant = { λ a. a.len ≤ 128 };
}

impl Message {
    /// The empty text.
    pub fn new() -> Message
        ensures { result ≡ [] }
    {
        Message {
            bytes: [0; 128],
            len: 0,
        }
    }

    /// The bytes of the text.
    pub fn as_bytes(&self) -> &[u8]
        ensures { result.now ≡ self.now }
    {
        &self.bytes[..self.len]
    }

    /// Appends some bytes.
    fn push(&mut self, text: &[u8])
        requires { length self.old + length text.now ≤ 128 }
        ensures text { self.new ≡ self.old ++ text.now }
        ensures length { length self.new ≡ length self.old + length text.now }
    {
        let end = self.len + text.len();
        self.bytes[self.len..end].copy_from_slice(text);
        self.len = end;
    }

    /// The text with some bytes more.
    pub fn with(mut self, text: &[u8]) -> Message
        requires { length self + length text.now ≤ 128 }
        ensures text { result ≡ self ++ text.now }
        ensures long { length result ≡ length self + length text.now }
    {
        self.push(text);
        self
    }

    /// The text with a number more, in decimal, at most 20 digits.
    pub fn with_decimal(self, number: u64) -> Message
        requires { length self + 20 ≤ 128 }
        ensures text { result ≡ self ++ decimal number }
        ensures short { length result ≤ length self + 20 }
    {
        let (digits, start) = decimal_digits(number);
        self.with(&digits[start..])
    }

    /// The text with a line feed after it.
    pub fn with_line_feed(self) -> Message
        requires { length self < 128 }
        ensures { result ≡ self ++ 10 ∷ [] }
    {
        self.with(b"\n")
    }
}

//! A short text that is made without taking memory.

ghost use Rattle.std.specs.Prelude.{◌≡◌, ◌+◌, ◌≤◌, ◌++◌, [], length, decimal};
ghost use Rattle.vme_listing.specs.RowText.{hexadecimal};

use std::marker::Model;
use vme_listing::{decimal_digits, hexadecimal_digits};

/// The most bytes of a short text.
pub(crate) const MOST: usize = 256;

/// A text of at most 256 bytes.
#[derive(Drop)]
pub(crate) struct ShortText {
    bytes: [u8; 256],
    len: usize,
}

impl Model for ShortText {
    ghost use Rattle.std.specs.Prelude.{ℕ, ◌≤◌, List, take};

    ghost Value = { List ℕ };

    ghost view = { λ a. take a.len a.bytes };

    ghost invariant = { λ a. a.len ≤ 256 };
}

impl ShortText {
    /// The empty text.
    pub fn new() -> ShortText
        ensures { result ≡ [] }
    {
        ShortText {
            bytes: [0; 256],
            len: 0,
        }
    }

    /// The bytes of the text.
    pub fn as_bytes(&self) -> &[u8]
        ensures { result.now ≡ self.now }
    {
        &self.bytes[..self.len]
    }

    /// Appends some bytes.
    pub fn push(&mut self, text: &[u8])
        requires { length self.old + length text.now ≤ MOST }
        ensures text { self.new ≡ self.old ++ text.now }
        ensures length { length self.new ≡ length self.old + length text.now }
    {
        let end = self.len + text.len();
        self.bytes[self.len..end].copy_from_slice(text);
        self.len = end;
    }

    /// Appends a number in decimal.
    pub fn push_decimal(&mut self, number: u64)
        requires { length self.old + 20 ≤ MOST }
        ensures text { self.new ≡ self.old ++ decimal number }
        ensures length { length self.new ≤ length self.old + 20 }
    {
        let (digits, start) = decimal_digits(number);
        self.push(&digits[start..]);
    }

    /// Appends the last `digits` digits of `number` in base 16, in upper case.
    pub fn push_hexadecimal(&mut self, digits: usize, number: u32)
        requires room { length self.old + digits ≤ MOST }
        requires digits { digits ≤ 8 }
        ensures text { self.new ≡ self.old ++ hexadecimal digits number }
        ensures length { length self.new ≡ length self.old + digits }
    {
        let first = 8 - digits;
        let glyphs = hexadecimal_digits(number);
        self.push(&glyphs[first..]);
    }
}

//! The names of lines and rules.

ghost use Rattle.std.specs.Prelude.{◌≡◌, ◌+◌, ◌<◌, ◌≤◌, ◌∷◌, ◌++◌, [], length, decimal};
ghost use Rattle.vme_trace.specs.Names.{two_digits};

use std::marker::Model;

/// The name of a line or of a rule: at most 8 bytes of ASCII.
#[derive(Debug, Drop)]
pub struct Name {
    bytes: [u8; 8],
    len: usize,
}

impl Model for Name {
    ghost use Rattle.std.specs.Prelude.{ℕ, ◌≤◌, List, take};

    ghost Value = { List ℕ };

    ghost view = { λ a. take a.len a.bytes };

    ghost invariant = { λ a. a.len ≤ 8 };
}

impl Name {
    /// The bytes of the name.
    pub fn as_bytes(&self) -> &[u8]
        ensures bytes { result.now ≡ self.now }
        ensures short { length result.now ≤ 8 }
    {
        &self.bytes[..self.len]
    }

    /// A name of these bytes.
    pub(crate) fn of(text: &[u8]) -> Name
        requires { length text.now ≤ 8 }
        ensures { result ≡ text.now }
    {
        let mut name = Name {
            bytes: [0; 8],
            len: 0,
        };
        for byte in text {
            name.push(*byte);
        }
        name
    }

    /// Appends `byte`.
    fn push(&mut self, byte: u8)
        requires { length self.old < 8 }
        ensures { self.new ≡ self.old ++ byte ∷ [] }
    {
        self.bytes[self.len] = byte;
        self.len += 1;
    }

    /// The name with `byte` appended.
    pub(crate) fn with(mut self, byte: u8) -> Name
        requires { length self < 8 }
        ensures { result ≡ self ++ byte ∷ [] }
    {
        self.push(byte);
        self
    }

    /// The name with `number` appended, in two digits.
    pub(crate) fn with_two_digits(self, number: u8) -> Name
        requires short { length self < 7 }
        requires below { number < 100 }
        ensures { result ≡ self ++ two_digits number }
    {
        self.with(b'0' + number / 10).with(b'0' + number % 10)
    }

    /// The name with `number` appended, in decimal.
    pub(crate) fn with_decimal(self, number: u8) -> Name
        requires short { length self < 7 }
        requires below { number < 100 }
        ensures name { result ≡ self ++ decimal number }
        ensures short { length result ≤ length self + 2 }
    {
        if number < 10 {
            self.with(b'0' + number)
        } else {
            self.with_two_digits(number)
        }
    }
}

//! A text that grows at its end.

ghost use Rattle.std.specs.Prelude.{◌≡◌, ◌-◌, ◌++◌, [], OnOk, OnErr, decimal, length, replicate};

use std::alloc::{AllocError, Global};
use std::marker::Model;

/// Bytes that grow at the end.
#[derive(Debug, Drop)]
pub struct Text {
    bytes: Vec<u8>,
}

impl Model for Text {
    ghost use Rattle.std.specs.Prelude.{ℕ, List};

    ghost Value = { List ℕ };

    ghost view = { λ t. t.bytes.items };
}

impl Text {
    /// No bytes.
    pub fn new(alloc: Global) -> Text
        ensures { result ≡ [] }
    {
        Text {
            bytes: Vec::new(alloc),
        }
    }

    /// The text of some bytes.
    pub(crate) fn from_bytes(bytes: Vec<u8>) -> Text
        ensures { result ≡ bytes.items }
    {
        Text { bytes }
    }

    /// The bytes.
    pub fn as_bytes(&self) -> &[u8]
        ensures { result.now ≡ self.now }
    {
        &self.bytes
    }

    /// Appends some bytes. Without memory the text is as before.
    pub fn push(&mut self, bytes: &[u8]) -> Result<(), AllocError>
        ensures ok { OnOk result (self.new ≡ self.old ++ bytes.now) }
        ensures err { OnErr result (self.new ≡ self.old) }
    {
        self.bytes.extend_from_slice(bytes)
    }

    /// Appends a number in decimal. Without memory the text is as before.
    pub fn push_decimal(&mut self, alloc: Global, number: u64) -> Result<(), AllocError>
        ensures ok { OnOk result (self.new ≡ self.old ++ decimal number) }
        ensures err { OnErr result (self.new ≡ self.old) }
    {
        let digits = number.to_string(alloc)?;
        self.bytes.extend_from_slice(digits.as_bytes())
    }

    /// Appends `count` spaces. Without memory the text is as before.
    pub fn push_spaces(&mut self, count: usize) -> Result<(), AllocError>
        ensures ok { OnOk result (self.new ≡ self.old ++ replicate count 32) }
        ensures err { OnErr result (self.new ≡ self.old) }
    {
        let end = self.bytes.len().checked_add(count).ok_or(AllocError)?;
        self.bytes.resize(end, b' ')
    }
}

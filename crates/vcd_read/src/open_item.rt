//! Where a piece of a body ends.

ghost use Rattle.std.specs.Prelude.{◌≡◌, ◌<◌, length, IfOk};

use std::alloc::{AllocError, Global};

/// The digits of a vector whose code wasn't read yet.
#[derive(Drop)]
pub(crate) struct Digits {
    /// The number of the vector's line, from 1.
    pub line: u64,
    /// The digits, at least one.
    pub bytes: Vec<u8>,
    ghost some: { 0 < length bytes.items },
}

impl Digits {
    /// A copy of `bytes`, the digits of a vector on `line`. It fails if memory runs out.
    pub fn new(alloc: Global, line: u64, bytes: &[u8]) -> Result<Digits, AllocError>
        requires { 0 < length bytes.now }
        ensures line { IfOk result (λ digits. digits.line ≡ line) }
        ensures bytes { IfOk result (λ digits. digits.bytes.items ≡ bytes.now) }
    {
        Ok(Digits {
            line,
            bytes: Vec::from_slice(alloc, bytes)?,
        })
    }
}

/// Where a piece of a body ends. The number is the line of the item that it ends in, from 1.
#[derive(Drop)]
pub(crate) enum OpenItem {
    /// Between two items.
    Ready,
    /// After the digits of a vector.
    Vector(Digits),
    /// After a real number or a string, before its code.
    Foreign(u64),
    /// In a comment.
    Comment(u64),
}

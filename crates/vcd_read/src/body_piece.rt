//! A piece of a text.

ghost use Rattle.std.specs.Prelude.{◌+◌, ◌^◌, ◌<◌, length};

/// A piece of a text.
#[derive(Clone, Copy)]
pub(crate) struct BodyPiece<'a> {
    /// Its bytes.
    pub bytes: &'a [u8],
    /// The number of the line that its first byte is on, from 1.
    pub line: u64,
    ghost countable: { line + length bytes.now < 2 ^ 64 },
}

/// Where something starts.
#[derive(Clone, Copy)]
pub(crate) enum Start {
    /// In the piece that is read, after this number of bytes.
    Here(usize),
    /// Before that piece, on the line of this number.
    Before(u64),
}

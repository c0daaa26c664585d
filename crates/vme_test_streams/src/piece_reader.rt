//! A reader that gives a few bytes a read.

use std::io::{self, Error, ErrorKind, Read};

/// A reader that gives a text, at most `piece` bytes a read. It is interrupted before each read. After the last byte it
/// ends, or fails if it is torn.
#[derive(Drop)]
pub struct PieceReader<'a> {
    /// What it still has to give, before `rest`.
    pub left: &'a [u8],
    rest: &'a [u8],
    piece: usize,
    is_torn: bool,
    interrupted: bool,
    /// The least room that a read had.
    pub least_room: usize,
}

impl<'a> PieceReader<'a> {
    /// A reader that ends after `text`.
    pub fn new(text: &'a [u8], piece: usize) -> PieceReader<'a> {
        PieceReader {
            left: text,
            rest: &[],
            piece,
            is_torn: false,
            interrupted: false,
            least_room: usize::MAX,
        }
    }

    /// A reader that fails after `text`.
    pub fn torn(text: &'a [u8], piece: usize) -> PieceReader<'a> {
        PieceReader {
            left: text,
            rest: &[],
            piece,
            is_torn: true,
            interrupted: false,
            least_room: usize::MAX,
        }
    }

    /// The reader that gives `rest` too, after its text.
    pub fn then(mut self, rest: &'a [u8]) -> PieceReader<'a> {
        self.rest = rest;
        self
    }
}

impl Read for PieceReader<'_> {
    fn read(&mut self, buffer: &mut [u8]) -> io::Result<usize> {
        self.least_room = self.least_room.min(buffer.len());
        self.interrupted = !self.interrupted;
        if self.interrupted {
            return Err(Error::from(ErrorKind::Interrupted));
        }
        if self.left.is_empty() {
            self.left = self.rest;
            self.rest = &[];
        }
        if self.is_torn && self.left.is_empty() {
            return Err(Error::from(ErrorKind::Other));
        }
        let count = self.left.len().min(buffer.len()).min(self.piece);
        buffer[..count].copy_from_slice(&self.left[..count]);
        self.left = &self.left[count..];
        Ok(count)
    }
}

//! A writer that takes a few bytes a write.

use std::alloc::Global;
use std::io::{self, Error, ErrorKind, Write};

/// A writer that keeps what is written, at most `piece` bytes a write. It is interrupted before each write, and fails
/// once it has no room.
#[derive(Drop)]
pub struct PieceWriter {
    /// What was written.
    pub bytes: Vec<u8>,
    room: usize,
    piece: usize,
    interrupted: bool,
}

impl PieceWriter {
    /// A writer with room for `room` bytes.
    pub fn new(alloc: Global, room: usize, piece: usize) -> PieceWriter {
        PieceWriter {
            bytes: Vec::new(alloc),
            room,
            piece,
            interrupted: false,
        }
    }
}

impl Write for PieceWriter {
    fn write(&mut self, bytes: &[u8]) -> io::Result<usize> {
        self.interrupted = !self.interrupted;
        if self.interrupted {
            return Err(Error::from(ErrorKind::Interrupted));
        }
        let count = bytes.len().min(self.room).min(self.piece);
        if count > 0 && self.bytes.extend_from_slice(&bytes[..count]).is_ok() {
            self.room -= count;
            return Ok(count);
        }
        Err(Error::from(ErrorKind::Other))
    }

    fn flush(&mut self) -> io::Result<()> {
        Ok(())
    }
}

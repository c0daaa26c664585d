//! A buffer of bytes before they are written.

ghost use Rattle.std.specs.Prelude.{◌≡◌, ◌+◌, ◌≤◌, ◌++◌, ℕ, [], List, MatchResult, false, length};
ghost use Rattle.vme_stream.specs.Outputs.{FailsToWrite, Writes};
ghost use Rattle.vme_trace.specs.Streams.{Writing};
ghost use Rattle.vme_annotate.specs.Outputs.{HasPut, nothing_held};

use std::marker::Model;
use vme_stream::write_all;
use vme_trace::{Failed, Sink};

/// The most bytes that are held.
const MOST: usize = 4096;

/// The bytes to write next. After a write has failed nothing more is written.
#[derive(Drop)]
pub(crate) struct OutputBuffer {
    bytes: [u8; 4096],
    len: usize,
    has_failed: bool,
}

impl Model for OutputBuffer {
    ghost use Rattle.std.specs.Prelude.{◌≤◌, take};
    ghost use Rattle.vme_annotate.specs.Outputs.{Held};

    ghost Value = { Held };

    ghost view = { λ b. record { bytes = take b.len b.bytes; failed = b.has_failed } };

    ghost invariant = { λ b. b.len ≤ 4096 };
}

impl OutputBuffer {
    /// No bytes, and no failure.
    pub fn new() -> OutputBuffer
        ensures { result ≡ nothing_held }
    {
        OutputBuffer {
            bytes: [0; 4096],
            len: 0,
            has_failed: false,
        }
    }

    /// Writes `bytes`, unless a write has failed.
    fn write<W: Sink>(&mut self, sink: &mut W, bytes: &[u8])
        requires { self.old.bytes ≡ [] }
        ensures empty { self.new.bytes ≡ [] }
        ensures put { (start : Writing) (made : List ℕ) → HasPut start (W.writing sink.old) self.old made
            → HasPut start (W.writing sink.new) self.new (made ++ bytes.now) }
    {
        if self.has_failed {
            return;
        }
        self.has_failed = write_all(sink, bytes).is_err();
    }

    /// Writes what is held.
    fn flush<W: Sink>(&mut self, sink: &mut W)
        ensures empty { self.new.bytes ≡ [] }
        ensures put { (start : Writing) (made : List ℕ) → HasPut start (W.writing sink.old) self.old made
            → HasPut start (W.writing sink.new) self.new made }
    {
        if self.has_failed {
            self.len = 0;
            return;
        }
        self.has_failed = write_all(sink, &self.bytes[..self.len]).is_err();
        self.len = 0;
    }

    /// Appends `bytes`. Where there is no room for them, what is held is written first. Bytes for
    /// which even the empty buffer has no room are written at once.
    pub fn put<W: Sink>(&mut self, sink: &mut W, bytes: &[u8])
        ensures { (start : Writing) (made : List ℕ) → HasPut start (W.writing sink.old) self.old made
            → HasPut start (W.writing sink.new) self.new (made ++ bytes.now) }
    {
        if bytes.len() > MOST - self.len {
            self.flush(sink);
        }
        if bytes.len() > MOST - self.len {
            return self.write(sink, bytes);
        }
        self.hold(bytes);
    }

    /// Appends `bytes`, for which there is room.
    fn hold(&mut self, bytes: &[u8])
        requires { length self.old.bytes + length bytes.now ≤ MOST }
        ensures bytes { self.new.bytes ≡ self.old.bytes ++ bytes.now }
        ensures failed { self.new.failed ≡ self.old.failed }
    {
        let end = self.len + bytes.len();
        self.bytes[self.len..end].copy_from_slice(bytes);
        self.len = end;
    }

    /// Writes what is held, and returns whether all was written. It fails if a write fails, this one or one before.
    pub fn finish<W: Sink>(mut self, sink: &mut W) -> Result<(), Failed>
        ensures { (start : Writing) (made : List ℕ) → HasPut start (W.writing sink.old) self made
            → MatchResult result (λ _. Writes start (W.writing sink.new) made)
            (λ _. FailsToWrite start (W.writing sink.new) made) }
    {
        self.flush(sink);
        if self.has_failed { Err(Failed) } else { Ok(()) }
    }
}

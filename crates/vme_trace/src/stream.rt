//! Where bytes come from, and where bytes go.

ghost use Rattle.std.specs.Prelude.{◌<◌, length, IfOk};
ghost use Rattle.std.specs.Io.{ReadsAtMost, WritesAtMost};
ghost use Rattle.std.specs.Io.KnownBytes.{ReadConsumes, WriteAppends};
ghost use Rattle.vme_trace.specs.Streams.{CountsFailure, CountsRead, CountsShortRead, Reading, Writing};

/// A read or a write failed.
#[derive(Clone, Copy, Debug, PartialEq, Eq)]
pub struct Failed;

/// What bytes are read from.
pub trait Source {
    /// The bytes that reads give from here on, how many reads gave bytes, how many of these gave fewer than they had
    /// room for, and how many failed.
    ghost reading: { Self → Reading };

    /// Reads some of the next bytes into the start of `buffer`, and returns how many: 0 only at the end, or where
    /// `buffer` is empty. A read that fails gives no byte, and the next read continues at the same byte.
    fn read(&mut self, buffer: &mut [u8]) -> Result<usize, Failed>
        ensures bound { ReadsAtMost result buffer.new }
        ensures bytes { ReadConsumes (reading self.old).left (reading self.new).left result buffer.new }
        ensures reads { CountsRead (reading self.old).reads (reading self.new).reads result }
        ensures short_reads { CountsShortRead (length buffer.new)
            (reading self.old).short_reads (reading self.new).short_reads result }
        ensures failures { CountsFailure (reading self.old).failures (reading self.new).failures result };
}

/// What bytes are written to.
pub trait Sink {
    /// The bytes that were taken so far, and how many writes failed.
    ghost writing: { Self → Writing };

    /// Takes a prefix of `bytes`, and returns its length: at least 1, unless `bytes` is empty. A write that fails takes
    /// no byte.
    fn write(&mut self, bytes: &[u8]) -> Result<usize, Failed>
        ensures bound { WritesAtMost result bytes.now }
        ensures some { 0 < length bytes.now → IfOk result (λ n. 0 < n) }
        ensures bytes { WriteAppends (writing self.old).taken (writing self.new).taken result bytes.now }
        ensures failures { CountsFailure (writing self.old).failures (writing self.new).failures result };
}

//! Sources and sinks: std's readers and writers, and the bytes of a slice.

ghost use Rattle.std.specs.Prelude.{◌≡◌, ◌<◌, length, take, Some, IfOk, OnErr};
ghost use Rattle.std.specs.Io.{ReadsAtMost, WritesAtMost};
ghost use Rattle.std.specs.Io.KnownBytes.{Appends, Consumes, IsAtEnd, Keeps};

use crate::count::{GhostCount, ReadCounts};
use std::io::{ErrorKind, Read, Write};
use vme_trace::{Failed, Sink, Source};

/// How often a read or a write that signals interrupt is tried at most.
const MOST_TRIES: u32 = 1_000_000;

/// A reader or a writer of std's. It also counts, for contracts alone, how many of its reads gave bytes, how many of
/// these gave fewer than they had room for, and how many of its calls failed.
///
/// Its bytes, in contracts, are those of the reader or the writer.
#[derive(Drop)]
pub struct Io<T> {
    inner: T,
    counts: ReadCounts,
    failures: GhostCount,
}

impl<T> Io<T> {
    /// Wraps a reader or a writer. All counts are 0.
    pub fn new(inner: T) -> Io<T>
        ensures inner { result.inner ≡ inner }
        ensures reads { result.counts.reads.number ≡ 0 }
        ensures short_reads { result.counts.short_reads.number ≡ 0 }
        ensures failures { result.failures.number ≡ 0 }
    {
        Io {
            inner,
            counts: ReadCounts::new(),
            failures: GhostCount::new(),
        }
    }
}

impl<T: Read> Io<T> {
    /// The reader that is wrapped.
    pub fn reader(&self) -> &T
        ensures { (⟦<Io<T> as Source>⟧.reading self.now).left ≡ T.remaining result.now }
    {
        &self.inner
    }
}

impl<T: Read> Source for Io<T> {
    ghost reading = { λ io. record {
      left = T.remaining io.inner;
      reads = io.counts.reads.number;
      short_reads = io.counts.short_reads.number;
      failures = io.failures.number;
    } };

    fn read(&mut self, buffer: &mut [u8]) -> Result<usize, Failed> {
        match read_retrying(&mut self.inner, buffer) {
            Ok(count) => {
                self.counts.add(count, buffer.len());
                Ok(count)
            }
            Err(failed) => {
                self.failures = self.failures.next();
                Err(failed)
            }
        }
    }
}

impl<T: Write> Sink for Io<T> {
    ghost writing = { λ io. record { taken = T.contents io.inner; failures = io.failures.number } };

    fn write(&mut self, bytes: &[u8]) -> Result<usize, Failed> {
        match write_retrying(&mut self.inner, bytes) {
            Ok(count) => Ok(count),
            Err(failed) => {
                self.failures = self.failures.next();
                Err(failed)
            }
        }
    }
}

/// One read, tried again where a signal interrupts it. If it fails, no byte was read.
fn read_retrying<R: Read>(reader: &mut R, buffer: &mut [u8]) -> Result<usize, Failed>
    ensures bound { ReadsAtMost result buffer.new }
    ensures ok { IfOk result (λ n. Consumes (R.remaining reader.old) (R.remaining reader.new) (take n buffer.new)) }
    ensures end { IfOk result (λ n. n ≡ 0 → 0 < length buffer.new → IsAtEnd (R.remaining reader.new)) }
    ensures err { OnErr result (Keeps (R.remaining reader.old) (R.remaining reader.new)) }
{
    for _ in 0..MOST_TRIES {
        match reader.read(buffer) {
            Ok(count) => return Ok(count),
            Err(error) => {
                if error.kind() != ErrorKind::Interrupted {
                    return Err(Failed);
                }
            }
        }
    }
    Err(Failed)
}

/// One write, tried again where a signal interrupts it. A write that takes none of some bytes has failed. If it fails,
/// no byte was written.
fn write_retrying<W: Write>(writer: &mut W, bytes: &[u8]) -> Result<usize, Failed>
    ensures bound { WritesAtMost result bytes.now }
    ensures some { 0 < length bytes.now → IfOk result (λ n. 0 < n) }
    ensures ok { IfOk result (λ n. Appends (W.contents writer.old) (W.contents writer.new) (take n bytes.now)) }
    ensures err { OnErr result (Keeps (W.contents writer.old) (W.contents writer.new)) }
{
    for _ in 0..MOST_TRIES {
        match writer.write(bytes) {
            Ok(count) if count > 0 || bytes.is_empty() => return Ok(count),
            Ok(_) => return Err(Failed),
            Err(error) => {
                if error.kind() != ErrorKind::Interrupted {
                    return Err(Failed);
                }
            }
        }
    }
    Err(Failed)
}

/// A source of the bytes of a slice.
#[derive(Drop)]
pub struct Bytes<'a> {
    left: &'a [u8],
    counts: ReadCounts,
}

impl<'a> Bytes<'a> {
    /// A source of all bytes of the slice.
    pub fn new(bytes: &'a [u8]) -> Bytes<'a>
        ensures left { result.left.now ≡ bytes.entry.now }
        ensures reads { result.counts.reads.number ≡ 0 }
        ensures short_reads { result.counts.short_reads.number ≡ 0 }
    {
        Bytes {
            left: bytes,
            counts: ReadCounts::new(),
        }
    }
}

impl Source for Bytes<'_> {
    ghost reading = { λ s. record {
      left = Some s.left.now;
      reads = s.counts.reads.number;
      short_reads = s.counts.short_reads.number;
      failures = 0;
    } };

    fn read(&mut self, buffer: &mut [u8]) -> Result<usize, Failed> {
        let count = self.left.len().min(buffer.len());
        buffer[..count].copy_from_slice(&self.left[..count]);
        self.left = &self.left[count..];
        self.counts.add(count, buffer.len());
        Ok(count)
    }
}

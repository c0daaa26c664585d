//! The bytes of an input as they come, as far as they are read and not taken.

ghost use Rattle.std.specs.Prelude.{◌≡◌, ◌+◌, ◌^◌, ◌≤◌, ◌<◌, ◌++◌, ℕ, List, length, drop, true, false};
ghost use Rattle.std.specs.Prelude.{IfErr, IfOk, OnErr, OnOk, vec_len};
ghost use Rattle.std.specs.Io.KnownBytes.{Consumes, IsAtEnd};
ghost use Rattle.vme_stream.specs.InFaults.{InputFailsBy};
ghost use Rattle.vme_trace.specs.Streams.{CountsRead, CountsShortRead, Reading};
ghost use Rattle.vme_listing.specs.Reading.{IsFollowedBy};
ghost use Rattle.vme_stream.specs.declared.input.InFault.{InFault};
ghost use Rattle.vme_dump_input.specs.BufferedInputs.{FailsAs, IsAllOf, IsGrown, IsReadTo, IsRoomFor, not_read};
ghost use Rattle.vme_dump_input.specs.BufferedInputs.{reads_left};

use std::alloc::{AllocError, Global};
use std::marker::Model;
use vme_stream::InFault;
use vme_trace::Source;

/// After how many reads that gave bytes, and didn't reach the end, reading is given up.
const MOST_READS: u32 = 16_777_216;

/// An input as it is read: the bytes that were read and not taken, and how much was read.
#[derive(Drop)]
pub struct BufferedInput {
    held: Vec<u8>,
    /// How many of these were taken.
    start: usize,
    /// Where the next bytes are read to.
    room: Vec<u8>,
    /// How many bytes the input has at most.
    limit: u64,
    /// How many bytes were read, and how many reads gave some.
    read: u64,
    reads: u32,
    /// The end was reached: there are no more bytes.
    is_whole: bool,
}

impl Model for BufferedInput {
    ghost use Rattle.std.specs.Prelude.{◌+◌, ◌≤◌, ◌<◌, ◌^◌, drop, vec_len};
    ghost use Rattle.vme_stream.specs.Inputs.{most_reads};
    ghost use Rattle.vme_dump_input.specs.BufferedInputs.{InputSoFar, IsRoomFor};

    ghost Value = { InputSoFar };

    ghost view = { λ a. record {
      held = drop a.start a.held.items;
      limit = a.limit;
      room = vec_len a.room;
      read = a.read;
      reads = a.reads;
      is_whole = a.is_whole;
    } };

    ghost invariant = { λ a. (a.start ≤ vec_len a.held) × IsRoomFor a.limit (vec_len a.room)
        × (a.read ≤ a.limit + vec_len a.room) × (a.reads ≤ most_reads) };
}

/// Removes the first `count` bytes.
fn forget_first(held: &mut Vec<u8>, count: usize)
    requires { count ≤ vec_len held.old }
    ensures { held.new.items ≡ drop count held.old.items }
{
    if count == 0 {
        // the copy would take as long as what is held
        return;
    }
    let len = held.len();
    held.as_mut_slice().copy_within(count..len, 0);
    held.truncate(len - count);
}

/// Reads the next bytes after those that are held, and returns how many: 0 only at the end.
fn read_after<R: Source>(
    source: &mut R,
    held: &mut Vec<u8>,
    room: &mut Vec<u8>,
) -> Result<usize, InFault>
    requires { 0 < vec_len room.old }
    ensures bytes { IfOk result (λ n. (more : List ℕ) × (length more ≡ n)
        × (held.new.items ≡ held.old.items ++ more)
        × Consumes (R.reading source.old).left (R.reading source.new).left more) }
    ensures few { IfOk result (λ n. n ≤ vec_len room.old) }
    ensures end { IfOk result (λ n. n ≡ 0 → IsAtEnd (R.reading source.new).left) }
    ensures reads { CountsRead (R.reading source.old).reads (R.reading source.new).reads result }
    ensures short_reads { CountsShortRead (vec_len room.old)
        (R.reading source.old).short_reads (R.reading source.new).short_reads result }
    ensures ok { OnOk result ((R.reading source.new).failures ≡ (R.reading source.old).failures) }
    ensures err { IfErr result (InputFailsBy (R.reading source.old) (R.reading source.new)) }
    ensures held { OnErr result (held.new.items ≡ held.old.items) }
    ensures room { vec_len room.new ≡ vec_len room.old }
{
    held.reserve(room.len())?;
    let Ok(count) = source.read(room.as_mut_slice()) else {
        return Err(InFault::Read);
    };
    held.extend_from_slice(&room[..count])?;
    Ok(count)
}

impl BufferedInput {
    /// The input before the first read. Each read has room for `room` bytes. It fails if memory runs out.
    pub fn new(alloc: Global, limit: u64, room: usize) -> Result<BufferedInput, AllocError>
        requires { IsRoomFor limit room }
        ensures { IfOk result (λ input. input ≡ not_read limit room) }
    {
        let room = Vec::from_elem(alloc, 0, room)?;
        Ok(BufferedInput {
            held: Vec::new(alloc),
            start: 0,
            room,
            limit,
            read: 0,
            reads: 0,
            is_whole: false,
        })
    }

    /// What was read and not taken.
    pub fn bytes(&self) -> &[u8]
        ensures held { result.now ≡ self.now.held }
        ensures within { self.now.read ≤ self.now.limit + self.now.room }
    {
        &self.held[self.start..]
    }

    /// Whether no bytes follow those that are held.
    pub fn is_whole(&self) -> bool
        ensures { result ≡ self.now.is_whole }
    {
        self.is_whole
    }

    /// Takes the first `count` of the held bytes.
    pub fn take_first(&mut self, count: usize)
        requires { count ≤ length self.old.held }
        ensures { self.new ≡ record self.old { held = drop count self.old.held } }
    {
        self.start += count;
    }

    /// Reads more bytes. At the end there are none, and the input is whole. It fails if a read fails, if the input has
    /// more bytes than its limit, or if memory runs out.
    pub fn read<R: Source>(&mut self, source: &mut R) -> Result<(), InFault>
        requires { self.old.is_whole ≡ false }
        ensures read { (old : Reading) (done : List ℕ) → IsReadTo old (R.reading source.old) done self.old
            → OnOk result (IsReadTo old (R.reading source.new) done self.new) }
        ensures grown { OnOk result (IsGrown self.old self.new) }
        ensures on { OnOk result (reads_left self.new < reads_left self.old) }
        ensures limit { self.new.limit ≡ self.old.limit }
        ensures room { self.new.room ≡ self.old.room }
        ensures counted { self.new.read + length self.old.held ≡ self.old.read + length self.new.held }
        ensures small { self.new.read < 2 ^ 62 }
        ensures fails { (old : Reading) (done : List ℕ) → IsReadTo old (R.reading source.old) done self.old
            → IfErr result (FailsAs self.old.limit old (R.reading source.new)) }
    {
        if self.reads == MOST_READS {
            return Err(InFault::Read);
        }
        if self.read > self.limit {
            return Err(InFault::TooLong);
        }
        forget_first(&mut self.held, self.start);
        self.start = 0;
        let count = match read_after(source, &mut self.held, &mut self.room) {
            Ok(count) => count,
            Err(fault) => return Err(fault),
        };
        if count == 0 {
            self.is_whole = true;
            return Ok(());
        }
        self.read += count as u64;
        self.reads += 1;
        Ok(())
    }

    /// Reads to the end, and holds nothing of it. It fails if a read fails, if the input has more bytes than its limit,
    /// or if memory runs out.
    pub fn read_rest<R: Source>(&mut self, source: &mut R) -> Result<(), InFault>
        ensures limit { self.new.limit ≡ self.old.limit }
        ensures whole { (old : Reading) (done : List ℕ) → IsReadTo old (R.reading source.old) done self.old
            → OnOk result ((more : List ℕ) × IsFollowedBy self.old.is_whole more
            × IsAllOf old (R.reading source.new) (done ++ (self.old.held ++ more)) self.old.limit) }
        ensures fails { (old : Reading) (done : List ℕ) → IsReadTo old (R.reading source.old) done self.old
            → IfErr result (FailsAs self.old.limit old (R.reading source.new)) }
    {
        while !self.is_whole {
            let held = self.bytes().len();
            self.take_first(held);
            if let Err(fault) = self.read(source) {
                return Err(fault);
            }
        }
        Ok(())
    }
}

//! Reading a source to its end.

ghost use Rattle.std.specs.Prelude.{◌≡◌, ◌≢◌, ℕ, ◌+◌, ◌*◌, ◌≤◌, ◌<◌, List, length, take, drop, Some, None, Err};
ghost use Rattle.std.specs.Prelude.{IfOk, IfErr, OnOk, vec_len};
ghost use Rattle.std.specs.Io.KnownBytes.{Consumes, IsAtEnd};
ghost use Rattle.vme_stream.specs.declared.input.InFault.TheVariants.{Memory};
ghost use Rattle.vme_stream.specs.Inputs.{HasFewFullReads, IsInTime, IsReading, least_room, longest_input, most_reads};
ghost use Rattle.vme_stream.specs.InFaults.{InputFailsBy};
ghost use Rattle.vme_trace.specs.Streams.{CountsFailure, CountsRead, CountsShortRead};

use std::alloc::{AllocError, Global};
use thiserror::Error;
use vme_trace::{Failed, Source};

/// Why the bytes of a source can't be had.
#[derive(Clone, Copy, Debug, Error, PartialEq, Eq)]
pub enum InFault {
    /// A read failed, or 16,777,216 reads gave bytes and didn't reach the end.
    #[error("Read")]
    Read,
    /// There are over 268,435,456 bytes.
    #[error("TooLong")]
    TooLong,
    /// Memory ran out.
    #[error("Memory")]
    Memory,
}

impl From<AllocError> for InFault {
    ghost from_gives = { λ _ e. e ≡ Memory };

    fn from(_e: AllocError) -> InFault {
        InFault::Memory
    }
}

/// How many bytes an input has at most.
pub(crate) const LONGEST: usize = 268_435_456;

/// After how many reads that gave bytes, and didn't reach the end, reading is given up.
pub(crate) const MOST_READS: u32 = 16_777_216;

/// For how many bytes each read has room, at least.
pub(crate) const LEAST_ROOM: usize = 4_096;

/// How many bytes of room are made where there are fewer than `LEAST_ROOM`.
const CHUNK: usize = 131_072;

/// Reads a source to its end. At most 16,777,216 reads are made, each with room for 4,096 bytes at least.
///
/// The error is Read exactly where a read failed, or 16,777,216 reads gave bytes. Else it is TooLong where there are
/// more than 268,435,456 bytes, unless memory ran out. All but at most 65,537 of the reads that gave bytes gave
/// fewer than they had room for.
pub fn read_all<R: Source>(alloc: Global, source: &mut R) -> Result<Vec<u8>, InFault>
    ensures bytes { IfOk result (λ v. IsReading (R.reading source.old) (R.reading source.new) (Some v.items)) }
    ensures short { IfOk result (λ v. vec_len v ≤ longest_input) }
    ensures read { result ≡ Err InFault.Read → IsReading (R.reading source.old) (R.reading source.new) None }
    ensures too_long { result ≡ Err InFault.TooLong
        → (bytes : List ℕ) × (longest_input < length bytes)
        × IsReading (R.reading source.old) (R.reading source.new) (Some bytes) }
    ensures memory { result ≡ Err InFault.Memory → IsInTime (R.reading source.old) (R.reading source.new) }
    ensures bound { (R.reading source.new).reads ≤ (R.reading source.old).reads + most_reads }
    ensures full_reads { HasFewFullReads (R.reading source.old) (R.reading source.new) }
{
    let mut bytes = Vec::new(alloc);
    let mut filled = 0;
    for _ in 0..MOST_READS {
        if filled > LONGEST {
            return Err(InFault::TooLong);
        }
        let count = match read_chunk(source, &mut bytes, filled) {
            Ok(count) => count,
            Err(fault) => return Err(fault),
        };
        if count == 0 {
            bytes.truncate(filled);
            return Ok(bytes);
        }
        filled += count;
    }
    Err(InFault::Read)
}

/// Makes room, reads the next bytes after the first `filled` ones, and returns how many: 0 only at the source's end.
fn read_chunk<R: Source>(
    source: &mut R,
    bytes: &mut Vec<u8>,
    filled: usize,
) -> Result<usize, InFault>
    requires within { filled ≤ vec_len bytes.old }
    requires short { filled ≤ longest_input }
    ensures front { take filled bytes.new.items ≡ take filled bytes.old.items }
    ensures fits { IfOk result (λ n. filled + n ≤ vec_len bytes.new) }
    ensures bytes { IfOk result (λ n.
        Consumes (R.reading source.old).left (R.reading source.new).left (take n (drop filled bytes.new.items))) }
    ensures end { IfOk result (λ n. n ≡ 0 → IsAtEnd (R.reading source.new).left) }
    ensures reads { CountsRead (R.reading source.old).reads (R.reading source.new).reads result }
    ensures room { OnOk result (filled + least_room ≤ vec_len bytes.new) }
    ensures short_reads { CountsShortRead (length (drop filled bytes.new.items))
        (R.reading source.old).short_reads (R.reading source.new).short_reads result }
    ensures ok { OnOk result ((R.reading source.new).failures ≡ (R.reading source.old).failures) }
    ensures err { IfErr result (InputFailsBy (R.reading source.old) (R.reading source.new)) }
{
    lengthen(bytes, filled, CHUNK)?;
    read_after(source, bytes, filled)
}

/// Reads the next bytes over those after the first `filled` ones, and returns how many: 0 only at the source's end.
pub(crate) fn read_after<R: Source>(
    source: &mut R,
    bytes: &mut Vec<u8>,
    filled: usize,
) -> Result<usize, InFault>
    requires { filled + least_room ≤ vec_len bytes.old }
    ensures front { take filled bytes.new.items ≡ take filled bytes.old.items }
    ensures fits { IfOk result (λ n. filled + n ≤ vec_len bytes.new) }
    ensures bytes { IfOk result (λ n.
        Consumes (R.reading source.old).left (R.reading source.new).left (take n (drop filled bytes.new.items))) }
    ensures end { IfOk result (λ n. n ≡ 0 → IsAtEnd (R.reading source.new).left) }
    ensures reads { CountsRead (R.reading source.old).reads (R.reading source.new).reads result }
    ensures room { OnOk result (filled + least_room ≤ vec_len bytes.new) }
    ensures short_reads { CountsShortRead (length (drop filled bytes.new.items))
        (R.reading source.old).short_reads (R.reading source.new).short_reads result }
    ensures ok { OnOk result ((R.reading source.new).failures ≡ (R.reading source.old).failures) }
    ensures err { IfErr result (InputFailsBy (R.reading source.old) (R.reading source.new)) }
{
    read_at(source, bytes.as_mut_slice(), filled).map_err(|_| InFault::Read)
}

/// Makes sure of room for at least 4,096 bytes after the first `filled` ones. Where there is less, room for `room`
/// bytes is made, with zeros.
pub(crate) fn lengthen(bytes: &mut Vec<u8>, filled: usize, room: usize) -> Result<(), AllocError>
    requires within { filled ≤ vec_len bytes.old }
    requires short { filled ≤ longest_input }
    requires room { (least_room ≤ room) × (room ≤ 3 * longest_input) }
    ensures front { take filled bytes.new.items ≡ take filled bytes.old.items }
    ensures room { OnOk result (filled + least_room ≤ vec_len bytes.new) }
{
    if bytes.len() < filled + LEAST_ROOM {
        bytes.resize(filled + room, 0)?;
    }
    Ok(())
}

/// Reads once into `buffer` from the index `at` on, and returns how many bytes were read.
fn read_at<R: Source>(source: &mut R, buffer: &mut [u8], at: usize) -> Result<usize, Failed>
    requires { at < length buffer.old }
    ensures front { take at buffer.new ≡ take at buffer.old }
    ensures fits { IfOk result (λ n. at + n ≤ length buffer.new) }
    ensures ok { IfOk result (λ n.
        Consumes (R.reading source.old).left (R.reading source.new).left (take n (drop at buffer.new))) }
    ensures end { IfOk result (λ n. n ≡ 0 → IsAtEnd (R.reading source.new).left) }
    ensures reads { CountsRead (R.reading source.old).reads (R.reading source.new).reads result }
    ensures short_reads { CountsShortRead (length (drop at buffer.new))
        (R.reading source.old).short_reads (R.reading source.new).short_reads result }
    ensures failures { CountsFailure (R.reading source.old).failures (R.reading source.new).failures result }
{
    source.read(&mut buffer[at..])
}

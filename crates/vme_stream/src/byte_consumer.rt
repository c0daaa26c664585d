//! Reading a source to its end, by a consumer that takes its bytes as they come.

ghost use Rattle.std.specs.Prelude.{◌≡◌, ℕ, ◌+◌, ◌*◌, ◌-◌, ◌≤◌, ◌<◌, List, length, take, drop, Some, None, Ok, Err};
ghost use Rattle.std.specs.Prelude.{IfOk, vec_len};
ghost use Rattle.vme_stream.specs.Inputs.{HasFewFullReads, IsInTime, IsReading, least_room, longest_input, most_reads};
ghost use Rattle.vcd_read.specs.ByteConsumers.{ContinuesAs};

use crate::input::{InFault, LEAST_ROOM, LONGEST, MOST_READS, lengthen, read_after};
use std::alloc::{AllocError, Global};
use vcd_read::ByteConsumer;
use vme_trace::Source;

/// Reads `source` to its end, and gives its bytes to `consumer` as they come. `taker` is given `piece` bytes at once.
/// It takes a prefix of them, and returns the next consumer and the prefix's length. The other bytes are given again,
/// with more after them, and in longer pieces if it takes too few. The result is the last consumer, and the bytes at
/// the end that weren't taken. Each read has room for at least 4,096 bytes.
///
/// The error is Read exactly where a read failed, or 16,777,216 reads gave bytes. Else it is TooLong where there are
/// more than 268,435,456 bytes, unless memory ran out. All but at most 65,537 of the reads that gave bytes gave
/// fewer than they had room for.
pub fn read_by<R: Source, T: ByteConsumer, M: Fn(T, &[u8]) -> Result<(T, usize), AllocError>>(
    alloc: Global,
    source: &mut R,
    consumer: T,
    piece: usize,
    taker: &M,
) -> Result<(T, Vec<u8>), InFault>
    requires piece { (1 ≤ piece) × (piece ≤ longest_input) }
    requires callable { M.IsAlwaysCallable taker.now }
    requires takes { (t : T) (bytes : _) (made : _) → M.post taker.now t bytes (Ok made)
        → (made.1 ≤ length bytes.now) × ContinuesAs (T.ahead t) (T.ahead made.0) (take made.1 bytes.now) }
    ensures bytes { IfOk result (λ made. (bytes : List ℕ) × (length bytes ≤ longest_input)
        × IsReading (R.reading source.old) (R.reading source.new) (Some bytes)
        × (T.ahead consumer bytes ≡ T.ahead made.0 made.1.items)) }
    ensures read { result ≡ Err InFault.Read → IsReading (R.reading source.old) (R.reading source.new) None }
    ensures too_long { result ≡ Err InFault.TooLong
        → (bytes : List ℕ) × (longest_input < length bytes)
        × IsReading (R.reading source.old) (R.reading source.new) (Some bytes) }
    ensures memory { result ≡ Err InFault.Memory → IsInTime (R.reading source.old) (R.reading source.new) }
    ensures bound { (R.reading source.new).reads ≤ (R.reading source.old).reads + most_reads }
    ensures full_reads { HasFewFullReads (R.reading source.old) (R.reading source.new) }
{
    let mut bytes = Vec::from_elem(alloc, 0, piece + LEAST_ROOM)?;
    let mut consumer = consumer;
    // How many bytes were taken, and how many are held after them.
    let mut taken = 0;
    let mut filled = 0;
    for _ in 0..MOST_READS {
        if taken + filled > LONGEST {
            return Err(InFault::TooLong);
        }
        let (next, count) = make_room(consumer, &mut bytes, filled, taker)?;
        consumer = next;
        taken += count;
        filled -= count;
        let count = match read_after(source, &mut bytes, filled) {
            Ok(count) => count,
            Err(fault) => return Err(fault),
        };
        if count == 0 {
            bytes.truncate(filled);
            return Ok((consumer, bytes));
        }
        filled += count;
    }
    Err(InFault::Read)
}

/// Makes room for at least 4,096 bytes after the first `filled` ones. If there is less, `taker` takes some of a piece,
/// which is the buffer without its last 4,096 bytes. If that is too little, the buffer is made longer, for a piece of
/// twice the length. Returns the next consumer and how many bytes were taken: the bytes after these are then at the
/// front.
fn make_room<T: ByteConsumer, M: Fn(T, &[u8]) -> Result<(T, usize), AllocError>>(
    consumer: T,
    bytes: &mut Vec<u8>,
    filled: usize,
    taker: &M,
) -> Result<(T, usize), AllocError>
    requires callable { M.IsAlwaysCallable taker.now }
    requires takes { (t : T) (bytes : _) (made : _) → M.post taker.now t bytes (Ok made)
        → (made.1 ≤ length bytes.now) × ContinuesAs (T.ahead t) (T.ahead made.0) (take made.1 bytes.now) }
    requires within { filled ≤ vec_len bytes.old }
    requires short { filled ≤ longest_input }
    ensures within { IfOk result (λ made. made.1 ≤ filled) }
    ensures room { IfOk result (λ made. (filled - made.1) + least_room ≤ vec_len bytes.new) }
    ensures left { IfOk result (λ made.
        take (filled - made.1) bytes.new.items ≡ drop made.1 (take filled bytes.old.items)) }
    ensures taken { IfOk result (λ made. ContinuesAs (T.ahead consumer) (T.ahead made.0)
        (take made.1 bytes.old.items)) }
{
    if filled + LEAST_ROOM <= bytes.len() {
        return Ok((consumer, 0));
    }
    let piece = bytes.len().saturating_sub(LEAST_ROOM);
    let (next, count) = take_first(consumer, bytes.as_slice(), piece, taker)?;
    move_to_front(bytes, count);
    let held = filled - count;
    lengthen(bytes, held, (2 * piece).saturating_sub(held) + LEAST_ROOM)?;
    Ok((next, count))
}

/// Gives the first `piece` bytes to `taker`, and returns how many it took.
fn take_first<T: ByteConsumer, M: Fn(T, &[u8]) -> Result<(T, usize), AllocError>>(
    consumer: T,
    bytes: &[u8],
    piece: usize,
    taker: &M,
) -> Result<(T, usize), AllocError>
    requires callable { M.IsAlwaysCallable taker.now }
    requires takes { (t : T) (bytes : _) (made : _) → M.post taker.now t bytes (Ok made)
        → (made.1 ≤ length bytes.now) × ContinuesAs (T.ahead t) (T.ahead made.0) (take made.1 bytes.now) }
    requires within { piece ≤ length bytes.now }
    ensures within { IfOk result (λ made. made.1 ≤ piece) }
    ensures taken { IfOk result (λ made. ContinuesAs (T.ahead consumer) (T.ahead made.0)
        (take made.1 (take piece bytes.now))) }
{
    let (next, count) = taker(consumer, &bytes[..piece])?;
    Ok((next, count))
}

/// Moves the bytes from index `from` on to the front. What comes after them then isn't specified.
fn move_to_front(bytes: &mut Vec<u8>, from: usize)
    requires { from ≤ vec_len bytes.old }
    ensures left { take (vec_len bytes.old - from) bytes.new.items ≡ drop from bytes.old.items }
    ensures len { vec_len bytes.new ≡ vec_len bytes.old }
{
    let count = bytes.len();
    bytes.as_mut_slice().copy_within(from..count, 0);
}

//! The first time of a dump that is a file of a recording.

ghost use Rattle.std.specs.Prelude.{◌≡◌, ◌++◌, ℕ, List, [], IfOk, OnOk};
ghost use Rattle.vcd_start.specs.FirstTimes.{DeterminesFirstTime};
ghost use Rattle.vme_trace.specs.Streams.{Reading};
ghost use Rattle.vme_stream.specs.Inputs.{longest_input};
ghost use Rattle.vme_dump_input.specs.BufferedInputs.{IsReadOn, IsReadTo};
ghost use Rattle.vme_part_command.specs.FileReadings.{ReadsFirstTime};

use std::alloc::{AllocError, Global};
use vcd_start::{FirstTime, first_time_in, first_time_of_text};
use vme_dump_input::{BufferedInput, unread};
use vme_stream::Refusal;
use vme_trace::Source;

/// The first time of a dump that begins with `front`, if `front` determines it. If `front` has fewer than `least` bytes
/// it isn't read; else `least` becomes twice the number of its bytes. So all calls together take time in proportion to
/// the bytes of the dump.
fn first_time_if_doubled(
    alloc: Global,
    front: &[u8],
    least: &mut usize,
) -> Result<FirstTime, AllocError>
    ensures { IfOk result (λ first_time. (rest : List ℕ) → DeterminesFirstTime (front.now ++ rest) first_time) }
{
    if front.len() < *least {
        return Ok(FirstTime::Undetermined);
    }
    *least = front.len().saturating_mul(2);
    first_time_in(alloc, front)
}

/// The first time of the dump of the file `number`, if it has one, in the time units of the dump. For number 0 it isn't
/// needed, and nothing is read. Else the dump is read into `input` until its first time is determined, and all bytes
/// that are read stay there. The error is why the dump is refused: memory ran out, or `dump` can't be read or is too
/// long.
pub(crate) fn read_first_time<D: Source>(
    alloc: Global,
    dump: &mut D,
    input: &mut BufferedInput,
    number: u32,
) -> Result<Option<u64>, Refusal>
    ensures told { (old : Reading) → IsReadTo old (D.reading dump.old) [] input.old → input.old.limit ≡ longest_input
        → ReadsFirstTime number old (D.reading dump.new) input.new result }
    ensures on { OnOk result (IsReadOn input.old input.new) }
    ensures limit { input.new.limit ≡ input.old.limit }
{
    if number == 0 {
        return Ok(None);
    }
    let mut least = 0;
    'reading: while !input.is_whole() {
        let held = input.bytes();
        match first_time_if_doubled(alloc, held, &mut least) {
            Ok(FirstTime::Determined(first_time)) => return Ok(first_time),
            Ok(FirstTime::Undetermined) => {}
            Err(_) => return Err(Refusal::Memory),
        }
        if let Err(fault) = input.read(dump) {
            return Err(unread(fault));
        }
    }
    let text = input.bytes();
    match first_time_of_text(alloc, text) {
        Ok(first_time) => Ok(first_time),
        Err(_) => Err(Refusal::Memory),
    }
}

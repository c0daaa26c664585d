//! The blocks of recordings, which are written in the notation of vme_test_recordings. A function answers None if
//! memory runs out.

use smallvec::SmallVec;
use std::alloc::Global;
use vme_test_recordings::{GRANTED, READ, capture_of, push_steps};
use vme_trace::{Block, Capture, Changes, Lines};

/// A standard address.
const ADDRESSED: &str = "AM1=0 AM2=0 A05=0";

/// A read at this address, of five steps.
const CYCLE: &str = "AS=0;DS0=0 DS1=0;DTACK=0;AS=1 DS0=1 DS1=1;DTACK=1";

/// An answer that no strobe asks for.
const UNASKED_ANSWER: &str = "AS=0;DTACK=0;AS=1;DTACK=1";

/// The listing of the read that a reset ends.
pub(super) const RESET_ROWS: &str =
    "vmecheck listing 3\nstart 1\ntenure 5 level 3 slot 2 end -\ncycle 9 S 39 FFFFDE end -\n\
        transfer 10 read pending\nreset 11\nstart 13\nverdict conforming\n";

pub(super) fn no_changes(alloc: Global) -> Changes {
    Changes::new(SmallVec::new(alloc))
}

/// The recording that begins as `GRANTED` and continues with `more`, in blocks of `size` steps.
fn blocks_of(alloc: Global, more: &str, size: u32) -> Option<Vec<Block>> {
    capture_of(alloc, GRANTED, more)?.cut(alloc, size).ok()
}

/// A read, after which the bus is given back: 14 steps.
pub(super) fn read_blocks(alloc: Global, size: u32) -> Option<Vec<Block>> {
    blocks_of(alloc, READ, size)
}

/// The block with the number `number`.
pub(super) fn block_of(blocks: Vec<Block>, number: u32) -> Option<Block> {
    for block in blocks {
        if block.number == number {
            return Some(block);
        }
    }
    None
}

/// The read in blocks of five steps, and then its second block again, with a fall of DS0 alone as its last step.
pub(super) fn read_by_fives(alloc: Global) -> Option<Vec<Block>> {
    let mut blocks = read_blocks(alloc, 5)?;
    let other = blocks_of(alloc, "AM1=0 AM2=0 A05=0;AS=0;DS0=0", 5)?;
    blocks.push(block_of(other, 1)?).ok()?;
    Some(blocks)
}

/// A read that a reset leaves without an answer, in 13 blocks of one step.
pub(super) fn reset_blocks(alloc: Global) -> Option<Vec<Block>> {
    let reset = "AM1=0 AM2=0 A05=0;AS=0;DS0=0 DS1=0;SYSRESET=0;AS=1 DS0=1 DS1=1 BBSY=1;SYSRESET=1";
    blocks_of(alloc, reset, 1)
}

/// The halves of a recording of 22 steps with an answer and no strobe at instant 10, and again at instant 14.
pub(super) fn broken_twice(alloc: Global) -> Option<Vec<Block>> {
    let more = "AM1=0 AM2=0 A05=0;AS=0;DTACK=0;AS=1;DTACK=1;AS=0;DTACK=0;AS=1;DTACK=1;\
        AS=0;DS0=0 DS1=0;DTACK=0;AS=1 DS0=1 DS1=1;DTACK=1;BBSY=1";
    blocks_of(alloc, more, 11)
}

/// A recording of 200 steps: 18 reads, an answer without a strobe at instant 100, and 19 more reads and a part of one.
pub(super) fn broken_blocks(alloc: Global, size: u32) -> Option<Vec<Block>> {
    let start = GRANTED;
    let mut texts = [CYCLE; 41];
    texts[0] = start.steps;
    texts[1] = ADDRESSED;
    texts[20] = UNASKED_ANSWER;
    texts[40] = "AS=0;DS0=0 DS1=0;DTACK=0";
    let opening = Lines::new(start.slots)?;
    let mut steps = Vec::new(alloc);
    for text in &texts {
        push_steps(alloc, &mut steps, &opening, text)?;
    }
    Capture::new(opening, steps).ok()?.cut(alloc, size).ok()
}

/// The listing of the recording of `broken_blocks`.
pub(super) fn broken_rows(alloc: Global) -> Option<String> {
    let start = "vmecheck listing 3\nstart 1\ntenure 5 level 3 slot 2 end -\n";
    let mut rows = String::from_str(alloc, start).ok()?;
    for read in 0..18u32 {
        let first = 9 + 5 * read;
        let row = format!(in alloc;
            "cycle {first} S 39 FFFFDE end {}\ntransfer {} of {first} read DTACK {} close {}\n",
            first + 3,
            first + 1,
            first + 2,
            first + 3
        );
        rows.push_str(row.ok()?.as_str()).ok()?;
    }
    rows.push_str("cycle 99 S 39 FFFFDE end -\nverdict broken H4 100 DTACK\n")
        .ok()?;
    Some(rows)
}

/// The orders of three blocks.
pub(super) static ORDERS: [&[usize]; 6] = [
    &[0, 1, 2],
    &[0, 2, 1],
    &[1, 0, 2],
    &[1, 2, 0],
    &[2, 0, 1],
    &[2, 1, 0],
];

/// Copies of the blocks with the indices `places`.
pub(super) fn picked(alloc: Global, blocks: &[Block], places: &[usize]) -> Option<Vec<Block>> {
    let mut picked = Vec::with_capacity(alloc, places.len()).ok()?;
    for place in places {
        let copy = blocks.get(*place)?.copy(alloc).ok()?;
        picked.push(copy).ok()?;
    }
    Some(picked)
}

/// The blocks of the read with the indices `places`, where it is cut into blocks of `size` steps.
pub(super) fn picked_of(alloc: Global, size: u32, places: &[usize]) -> Option<Vec<Block>> {
    let blocks = read_blocks(alloc, size)?;
    picked(alloc, &blocks, places)
}

/// Each of at most 200 blocks twice, in an order that depends on the seed. The stride is a prime above 200.
pub(super) fn shuffled(alloc: Global, blocks: &[Block], seed: u32) -> Option<Vec<Block>> {
    let mut all = Vec::new(alloc);
    for i in 0..blocks.len().saturating_mul(2) {
        let place = i.saturating_mul(7919).saturating_add(seed as usize) % blocks.len().max(1);
        let copy = blocks.get(place)?.copy(alloc).ok()?;
        all.push(copy).ok()?;
    }
    Some(all)
}

//! Invalid deliveries and a doubled one, by four workers at once.

use super::recordings::{block_of, no_changes, picked, read_blocks, read_by_fives};
use super::{CONFORMING, Outcome, assert_told, told_of};
use std::alloc::Global;
use std::test::Fail;
use vme_floor::Answer;
use vme_test_recordings::GRANTED_READ_LISTING;
use vme_trace::{Block, Steps};

/// How often each run is made.
const TIMES: u32 = 50;

/// The first block of the read by fives, with a number that isn't below the total.
fn stranger(alloc: Global) -> Option<Block> {
    let block = block_of(read_blocks(alloc, 5)?, 0)?;
    Some(Block {
        number: 7,
        opening: block.opening,
        steps: block.steps,
    })
}

/// The second block of the read by fives, with no change in its first step.
fn malformed(alloc: Global) -> Option<Block> {
    let block = block_of(read_blocks(alloc, 5)?, 1)?;
    let mut steps = block.steps.into_inner();
    if let Some(first) = steps.first_mut() {
        first.changes = no_changes(alloc);
    }
    Some(Block {
        number: 1,
        opening: block.opening,
        steps: Steps::new(steps),
    })
}

/// A stranger, the first block, a malformed one, the second, and the last twice.
fn hostile(alloc: Global) -> Option<Vec<Block>> {
    let mut blocks = read_by_fives(alloc)?;
    blocks.push(stranger(alloc)?).ok()?;
    blocks.push(malformed(alloc)?).ok()?;
    picked(alloc, &blocks, &[4, 0, 5, 1, 2, 2])
}

/// Whether the answers are those to the deliveries of `hostile`.
fn are_as_due(answers: &[Answer]) -> bool {
    let [first, second, third, fourth, fifth, sixth] = answers else {
        return false;
    };
    let last_two = (*fifth, *sixth);
    (*first, *second) == (Answer::Stranger, Answer::Filed)
        && (*third, *fourth) == (Answer::Malformed { step: 0 }, Answer::Filed)
        && (last_two == (Answer::Filed, Answer::Doubled)
            || last_two == (Answer::Doubled, Answer::Filed))
}

#[test]
fn a_stranger_a_malformed_and_a_doubled_block(rt: HostRuntime) -> Result<(), Fail> {
    let deliveries = hostile(rt.alloc()).ok_or("no blocks")?;
    for _ in 0..TIMES {
        let told = told_of(&rt, rt.alloc(), &deliveries, 3, 4).ok_or("not told")?;
        assert!(rt; told.outcome == CONFORMING && are_as_due(&told.answers));
        assert!(rt; told.listing.as_slice() == GRANTED_READ_LISTING.as_bytes());
    }
    Ok(())
}

/// No delivery at all, two without the first block, and three whose second block doesn't join.
#[test]
fn missing_and_torn_blocks(rt: HostRuntime) -> Result<(), Fail> {
    let alloc = rt.alloc();
    let blocks = read_by_fives(alloc).ok_or("no blocks")?;
    let filed = [Answer::Filed; 3];
    for (places, outcome, answers) in [
        ([].as_slice(), Outcome::Missing(0), [].as_slice()),
        (
            &[2, 1],
            Outcome::Missing(0),
            &[Answer::Filed, Answer::Filed],
        ),
        (&[0, 3, 2], Outcome::Torn(2), &filed),
    ] {
        let deliveries = picked(alloc, &blocks, places).ok_or("no blocks")?;
        for _ in 0..TIMES {
            assert_told(&rt, alloc, &deliveries, 3, 4, &outcome, answers);
        }
    }
    Ok(())
}

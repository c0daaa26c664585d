//! Runs where memory is refused once.

use super::recordings::{ORDERS, picked_of};
use super::{CONFORMING, Outcome, RunOutcome, told_of};
use std::process::Abort;
use std::test::Fail;
use vme_floor::Answer;
use vme_test_recordings::GRANTED_READ_LISTING;
use vme_trace::Block;

/// Whether a delivery of the number `number` was refused for want of memory.
fn is_short(deliveries: &[Block], answers: &[Answer], number: u32) -> bool {
    deliveries.len() == answers.len()
        && deliveries.iter().zip(answers).any(|(block, answer)| {
            block.number == number && *answer == Answer::Memory
        })
}

/// Asserts that a run of three workers has the result that it has with enough memory, or that memory ran out: never
/// another verdict, or that blocks are torn or stray.
fn assert_run(rt: &impl Abort, deliveries: &[Block], told: &RunOutcome) {
    match told.outcome {
        Outcome::Judged(_) => {
            assert!(rt; told.outcome == CONFORMING && told.steps == 14);
            assert!(rt; told.listing.as_slice() == GRANTED_READ_LISTING.as_bytes());
        }
        Outcome::Missing(number) => {
            assert!(rt; is_short(deliveries, told.answers.as_slice(), number));
        }
        Outcome::Memory | Outcome::NoWorker => {}
        _ => panic!(rt; "refused for another reason"),
    }
}

/// `tests/memory/run` refuses each of its allocations in turn. If the deliveries can't be made, they are made again.
#[test]
fn each_growth_fails_once(rt: HostRuntime) -> Result<(), Fail> {
    for order in ORDERS.iter() {
        let deliveries = match picked_of(rt.alloc(), 5, order) {
            Some(deliveries) => deliveries,
            None => picked_of(rt.alloc(), 5, order).ok_or("no blocks")?,
        };
        let told = told_of(&rt, rt.alloc(), &deliveries, 3, 3).ok_or("not told")?;
        assert_run(&rt, &deliveries, &told);
    }
    Ok(())
}

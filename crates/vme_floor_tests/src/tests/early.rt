//! Blocks that the calling thread takes before the threads are joined.

use super::gates::Listens;
use super::recordings::{picked_of, read_blocks};
use super::{CONFORMING, Outcome, assert_told, told_of, told_through};
use std::test::Fail;
use vme_floor::Answer;

/// One worker takes every block as soon as it is filed, in any order of the deliveries.
#[test]
fn one_worker_takes_all(rt: HostRuntime) -> Result<(), Fail> {
    for order in [
        [0, 1, 2, 3, 4, 5, 6, 7, 8, 9, 10, 11, 12, 13],
        [13, 12, 11, 10, 9, 8, 7, 6, 5, 4, 3, 2, 1, 0],
    ] {
        let deliveries = picked_of(rt.alloc(), 1, &order).ok_or("no blocks")?;
        let told = told_of(&rt, rt.alloc(), &deliveries, 14, 1).ok_or("not told")?;
        assert!(rt; told.early == 14 && told.outcome == CONFORMING);
    }
    Ok(())
}

/// The calling thread takes no block if it delivers none: 64 workers share one delivery, in runs that are repeated
/// until another worker gets it.
#[test]
fn without_a_delivery_nothing_is_taken(rt: HostRuntime) -> Result<(), Fail> {
    let blocks = read_blocks(rt.alloc(), 14).ok_or("no blocks")?;
    for _ in rt.forever() {
        let gate = Listens::new();
        let told = told_through(&rt, rt.alloc(), &blocks, 1, 64, &gate).ok_or("not told")?;
        let is_own = gate.heard_in_order(1);
        assert!(rt; told.early == u32::from(is_own) && told.outcome == CONFORMING);
        if !is_own {
            break;
        }
    }
    Ok(())
}

/// A number that nobody delivers is missing, even if blocks after it were taken.
#[test]
fn missing_behind_a_gap(rt: HostRuntime) -> Result<(), Fail> {
    let deliveries = picked_of(rt.alloc(), 5, &[2, 0]).ok_or("no blocks")?;
    let filed = [Answer::Filed, Answer::Filed];
    for workers in [1, 2] {
        let outcome = Outcome::Missing(1);
        assert_told(&rt, rt.alloc(), &deliveries, 3, workers, &outcome, &filed);
    }
    Ok(())
}

//! How many marks a summary stores: no more than its steps show, each step once from each memory that those before it
//! leave.

use crate::grant_tests::TENURE;
use crate::recordings::{capture_of, summary_of};
use std::alloc::{AllocError, Global};
use vme_chains::grant::Grant;
use vme_dtb::handshake::Dtb;
use vme_monitor::finite::Finite;
use vme_monitor::monitor::Monitor;
use vme_trace::Capture;

/// The places of all memories.
fn every_place<M: Finite>(alloc: Global) -> Result<Vec<bool>, AllocError> {
    let places = vec![in alloc; true; M::COUNT]?;
    Ok(places)
}

/// How many marks the summary of a step shows from the memories at the places `entering`.
fn shown_by<M: Finite>(
    alloc: Global,
    step: &M::Summary,
    entering: &[bool],
) -> Result<u64, AllocError> {
    let mut shown = 0u64;
    for (place, is_entering) in entering.iter().enumerate() {
        if *is_entering && place < M::COUNT {
            let marks = M::marks(alloc, step, M::nth(place))?;
            shown = shown.saturating_add(marks.len() as u64);
        }
    }
    Ok(shown)
}

/// The places of the memories that the summary of a step leaves, from those at the places `entering`.
fn left_by<M: Finite>(
    alloc: Global,
    step: &M::Summary,
    entering: &[bool],
) -> Result<Vec<bool>, AllocError> {
    let mut left = vec![in alloc; false; M::COUNT]?;
    for (place, is_entering) in entering.iter().enumerate() {
        if *is_entering && place < M::COUNT {
            let leaving = M::place(M::leaving(step, M::nth(place)));
            if leaving < left.len() {
                left[leaving] = true;
            }
        }
    }
    Ok(left)
}

/// How many marks the steps of a recording show, each step once from each memory that those before it leave, whatever
/// memory enters. It takes summaries of one step alone.
fn shown_in_steps<M: Finite>(alloc: Global, capture: &Capture) -> Option<u64> {
    let mut entering = every_place::<M>(alloc).ok()?;
    let mut shown = 0u64;
    for block in capture.cut(alloc, 1).ok()? {
        let step = summary_of::<M>(alloc, &block)?;
        let more = shown_by::<M>(alloc, &step, entering.as_slice()).ok()?;
        shown = shown.saturating_add(more);
        entering = left_by::<M>(alloc, &step, entering.as_slice()).ok()?;
    }
    Some(shown)
}

/// How many marks the summary of a recording of at most 1,000 steps stores.
fn stored_in<M: Finite>(alloc: Global, capture: &Capture) -> Option<u64> {
    let mut blocks = capture.cut(alloc, 1000).ok()?;
    let block = blocks.pop()?;
    let whole = summary_of::<M>(alloc, &block)?;
    Some(M::stored(&whole))
}

/// Whether the summary of a tenure stores marks, and no more than its steps show.
fn stores_what_steps_show<M: Finite>(alloc: Global) -> bool {
    let Some(capture) = capture_of(alloc, &TENURE) else {
        return false;
    };
    match (
        stored_in::<M>(alloc, &capture),
        shown_in_steps::<M>(alloc, &capture),
    ) {
        (Some(stored), Some(shown)) => 0 < stored && stored <= shown,
        _ => false,
    }
}

#[test]
fn the_handshake_stores_what_steps_show(rt: HostRuntime) {
    assert!(rt; stores_what_steps_show::<Dtb>(rt.alloc()));
}

#[test]
fn grants_store_what_steps_show(rt: HostRuntime) {
    assert!(rt; stores_what_steps_show::<Grant>(rt.alloc()));
}

//! The verdict on a capture that is cut into blocks, and its listing, without a copy of a block.

ghost use Rattle.std.specs.Prelude.{◌≡◌, ◌<◌, ◌≤◌, ◌↔◌, IfOk, OnOk, Err, None, true};
ghost use Rattle.vme_trace.specs.Verdict.{rules_in_force, verdict_by};
ghost use Rattle.vme_trace.specs.WellFormed.{malformed_step};
ghost use Rattle.vme_listing.specs.Places.{is_well_placed};
ghost use Rattle.vme_listing.specs.Recorded.{listing_of};
ghost use Rattle.vme_summary.specs.CutFaults.{HasTooManyBlocks, IsBadSize};

use crate::chunk_judge::ChunkJudge;
use crate::listing_state::ListingState;
use crate::verdict_state::VerdictState;
use std::alloc::Global;
use vme_listing::Listing;
use vme_trace::{Capture, CutFault, Verdict};

/// How many steps a block of a cut has at most.
const LONGEST: u32 = 65536;

/// How many blocks a capture is cut into at most.
const MOST_BLOCKS: usize = 4096;

/// Checks that `Capture::cut` takes `size`, and the number of blocks of `size` steps that `capture` fills.
fn check_size(capture: &Capture, size: u32) -> Result<(), CutFault>
    ensures bad_size { (result ≡ Err CutFault.BadSize) ↔ IsBadSize size }
    ensures too_many { (result ≡ Err CutFault.TooManyBlocks) ↔ HasTooManyBlocks size capture.now }
{
    if size == 0 || size > LONGEST {
        return Err(CutFault::BadSize);
    }
    if capture.steps().len().div_ceil(size as usize).max(1) > MOST_BLOCKS {
        return Err(CutFault::TooManyBlocks);
    }
    Ok(())
}

/// The judge that has judged all steps of `capture`, block by block.
fn judged_by_blocks<J: ChunkJudge>(
    alloc: Global,
    capture: &Capture,
    size: u32,
) -> Result<J, CutFault>
    ensures bad_size { (result ≡ Err CutFault.BadSize) ↔ IsBadSize size }
    ensures too_many { (result ≡ Err CutFault.TooManyBlocks) ↔ HasTooManyBlocks size capture.now }
    ensures past { IfOk result (λ judging. J.is_past judging capture.now.opening capture.now.steps) }
    ensures sound { OnOk result (malformed_step capture.now ≡ None) }
{
    check_size(capture, size)?;
    let mut judging = J::at(capture.opening());
    let steps = capture.steps();
    for block in steps.chunks(size as usize) {
        let Ok(()) = judging.go_on(alloc, block) else {
            return Err(CutFault::Memory);
        };
    }
    Ok(judging)
}

/// The verdict on a capture by the rules in force. The capture is cut into blocks of `size` steps, 1 to 65,536, at most
/// 4,096 of them, which are judged in order. No marks (events of the bus) are made, and nothing is kept of a block.
/// `Memory` says that an allocation failed.
pub fn verdict_by_blocks(alloc: Global, capture: &Capture, size: u32) -> Result<Verdict, CutFault>
    ensures bad_size { (result ≡ Err CutFault.BadSize) ↔ IsBadSize size }
    ensures too_many { (result ≡ Err CutFault.TooManyBlocks) ↔ HasTooManyBlocks size capture.now }
    ensures verdict { IfOk result (λ verdict. verdict ≡ verdict_by rules_in_force capture.now) }
{
    prove!(capture.opening().slots() <= 21);
    match judged_by_blocks::<VerdictState>(alloc, capture, size) {
        Ok(judging) => Ok(judging.verdict()),
        Err(fault) => Err(fault),
    }
}

/// The listing of a capture by the rules in force: its tenures, cycles and transfers before the least break, and the
/// verdict. The capture is cut as by `verdict_by_blocks`, with the same faults. The marks of the blocks are kept.
pub fn listing_by_blocks(alloc: Global, capture: &Capture, size: u32) -> Result<Listing, CutFault>
    ensures bad_size { (result ≡ Err CutFault.BadSize) ↔ IsBadSize size }
    ensures too_many { (result ≡ Err CutFault.TooManyBlocks) ↔ HasTooManyBlocks size capture.now }
    ensures listing { IfOk result (λ listing. listing ≡ listing_of capture.now) }
    ensures placed { IfOk result (λ listing. is_well_placed listing ≡ true) }
{
    let opening = capture.opening();
    prove!(opening.slots() <= 21);
    match judged_by_blocks::<ListingState>(alloc, capture, size) {
        Ok(marking) => match marking.listing(alloc, opening) {
            Ok(listing) => Ok(listing),
            Err(_) => Err(CutFault::Memory),
        },
        Err(fault) => Err(fault),
    }
}

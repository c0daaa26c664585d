//! Recordings whose blocks are judged by themselves, each as a chunk, and passed in order to a judge.

ghost use Rattle.std.specs.Prelude.{◌≡◌};

use crate::listing_tests::has_rows;
use crate::tests::{CYCLES, RESETS, Worked, is_verdict, verdict_of};
use std::alloc::Global;
use std::process::Abort;
use vme_listing::Listing;
use vme_summary::chunk_judge::ChunkJudge;
use vme_summary::stream_judge::StreamJudge;
use vme_summary::{Judge, JudgedChunk, Lister};
use vme_test_recordings::capture_of;
use vme_trace::{Block, Capture, Lines, StepVisitor, Verdict};

/// Which blocks of a cut are taken step by step.
#[derive(Clone, Copy)]
enum ByStep {
    None,
    EveryEven,
    EveryOdd,
}

/// A value that may go to another thread.
fn sent<T: Send>(value: T) -> T
    ensures { result ≡ value }
{
    value
}

/// The lines that a block leaves.
fn left_by(block: &Block) -> Lines {
    let mut left = block.opening;
    for step in block.steps.as_slice() {
        left.apply(step.changes.as_slice());
    }
    left
}

/// Judges a block by itself, and passes it as a chunk to `stream_judge`. `None` if the steps that it took leave other
/// lines than the block opens with, if the chunk leaves other lines than the block, or if memory runs out.
fn pass_block<J: ChunkJudge + Send>(
    alloc: Global,
    stream_judge: &mut StreamJudge<J>,
    block: &Block,
) -> Option<()> {
    let Ok(judged) = JudgedChunk::<J>::of(alloc, &block.opening, block.steps.as_slice()) else {
        return None;
    };
    let chunk = sent(judged);
    let Ok(follows) = stream_judge.leaves(alloc, &block.opening) else {
        return None;
    };
    if !follows {
        return None;
    }
    if *chunk.left() != left_by(block) {
        return None;
    }
    stream_judge.pass(alloc, chunk).ok()
}

/// Passes a block to `stream_judge` as a chunk, or gives it the steps one after the other, as `by_step` says.
fn take_block<J: ChunkJudge + Send>(
    alloc: Global,
    stream_judge: &mut StreamJudge<J>,
    block: &Block,
    by_step: ByStep,
) -> Option<()> {
    let stepwise = match by_step {
        ByStep::None => false,
        ByStep::EveryEven => block.number % 2 == 0,
        ByStep::EveryOdd => block.number % 2 == 1,
    };
    if !stepwise {
        return pass_block(alloc, stream_judge, block);
    }
    for step in block.steps.as_slice() {
        stream_judge.step(alloc, step.copy(alloc).ok()?).ok()?;
    }
    Some(())
}

/// A judge that took the steps of all blocks. It is made with other lines, and then opened with these.
fn taken_in_blocks<J: ChunkJudge + Send + Drop>(
    alloc: Global,
    opening: &Lines,
    blocks: &[Block],
    by_step: ByStep,
) -> Option<StreamJudge<J>> {
    let mut stream_judge = StreamJudge::new(alloc, &Lines::new(1)?);
    stream_judge.open(opening);
    for block in blocks {
        take_block(alloc, &mut stream_judge, block, by_step)?;
    }
    Some(stream_judge)
}

/// The verdict on the steps of the blocks, within the limit of 4,096 blocks of three steps.
fn verdict_taken(
    alloc: Global,
    opening: &Lines,
    blocks: &[Block],
    by_step: ByStep,
) -> Option<Verdict> {
    let judge: Judge = taken_in_blocks(alloc, opening, blocks, by_step)?;
    judge.verdict(alloc, 3).ok()
}

/// The listing of the steps of the blocks, within the limit of 4,096 blocks of three steps.
fn listing_taken(
    alloc: Global,
    opening: &Lines,
    blocks: &[Block],
    by_step: ByStep,
) -> Option<Listing> {
    let lister: Lister = taken_in_blocks(alloc, opening, blocks, by_step)?;
    lister.listing(alloc, 3).ok()
}

/// Whether the steps of the blocks have the verdict `verdict` and the listing `rows`.
fn is_taken(
    alloc: Global,
    opening: &Lines,
    blocks: &[Block],
    by_step: ByStep,
    verdict: &Verdict,
    rows: &str,
) -> bool {
    if !is_verdict(verdict_taken(alloc, opening, blocks, by_step), verdict) {
        return false;
    }
    match listing_taken(alloc, opening, blocks, by_step) {
        Some(listing) => has_rows(alloc, &listing, rows),
        None => false,
    }
}

/// Whether a recording has its verdict and its listing, if it is cut into blocks of `size` steps.
fn is_taken_in(alloc: Global, capture: &Capture, size: u32, verdict: &Verdict, rows: &str) -> bool {
    match capture.cut(alloc, size) {
        Ok(blocks) => {
            let opening = capture.opening();
            is_taken(alloc, opening, &blocks, ByStep::None, verdict, rows)
                && is_taken(alloc, opening, &blocks, ByStep::EveryEven, verdict, rows)
                && is_taken(alloc, opening, &blocks, ByStep::EveryOdd, verdict, rows)
        }
        Err(_) => false,
    }
}

/// Whether a recording has its verdict and its listing, wherever it is cut.
fn is_taken_by_each_size(alloc: Global, capture: &Capture, verdict: &Verdict, rows: &str) -> bool {
    let mut same = true;
    for size in 1..=14 {
        same &= is_taken_in(alloc, capture, size, verdict, rows);
    }
    same
}

/// Whether a worked recording has its verdict and its listing, cut into blocks of each size from 1 to 14.
fn passes_in_chunks(alloc: Global, recording: &Worked) -> bool {
    let (start, text, expected, rows) = recording;
    let Some(verdict) = verdict_of(*expected) else {
        return false;
    };
    match capture_of(alloc, *start, text) {
        Some(capture) => is_taken_by_each_size(alloc, &capture, &verdict, rows),
        None => false,
    }
}

#[test]
fn chunks_of_a_read(rt: HostRuntime) {
    assert!(rt; passes_in_chunks(rt.alloc(), &CYCLES[0]));
}

#[test]
fn chunks_of_a_read_with_resets(rt: HostRuntime) {
    assert!(rt; passes_in_chunks(rt.alloc(), &RESETS[0]));
    assert!(rt; passes_in_chunks(rt.alloc(), &RESETS[1]));
    assert!(rt; passes_in_chunks(rt.alloc(), &RESETS[2]));
}

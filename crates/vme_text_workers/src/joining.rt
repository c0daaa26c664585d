//! Pieces that were read ahead, joined in order as far as they fit.

ghost use Rattle.std.specs.Prelude.{◌≡◌, ◌≤◌, ◌⊎◌, drop, length, IfOk, IfSome, Some};
ghost use Rattle.std.specs.Option.{option_to_list};
ghost use Rattle.std.specs.Vec.Iter.{into_iter_items};
ghost use Rattle.vme_trace.specs.Followed.{with_steps};
ghost use Rattle.vme_bind.specs.SpeculativeReading.{MayFollowLevels, with_recording};
ghost use Rattle.vme_text_workers.specs.SpeculativeChunks.{AreAhead, AreTaken, IsNextOf};

use crate::chunks::JudgedChunks;
use crate::cut::DumpPiece;
use std::alloc::{AllocError, Global};
use std::vec::IntoIter;
use vme_bind::{SpeculativeChunk, SpeculativeReader};
use vme_summary::chunk_judge::ChunkJudge;
use vme_summary::stream_judge::StreamJudge;
use vme_trace::{Step, StepVisitor};

/// The result of joining the first `count` of some pieces.
#[derive(Drop)]
pub(crate) struct JoinedPieces<J: ChunkJudge> {
    /// The reader after those pieces.
    pub speculative: SpeculativeReader,
    /// The judge of the steps up to there.
    pub stream_judge: StreamJudge<J>,
    /// How many pieces were joined.
    pub count: usize,
}

/// `ahead`, if the piece was read and fits `speculative`.
fn if_fits<J: ChunkJudge>(
    speculative: &SpeculativeReader,
    ahead: Option<(SpeculativeChunk, JudgedChunks<J>)>,
) -> Option<(SpeculativeChunk, JudgedChunks<J>)>
    ensures same { IfSome result (λ a. ahead ≡ Some a) }
    ensures fits { IfSome result (λ a. MayFollowLevels speculative.now a.0) }
{
    let (ahead, chunks) = ahead?;
    if speculative.may_join(&ahead) {
        Some((ahead, chunks))
    } else {
        None
    }
}

/// The piece as it was read ahead, if it fits so, else as it was read again, if it fits so.
fn fitting<J: ChunkJudge>(
    speculative: &SpeculativeReader,
    ahead: Option<(SpeculativeChunk, JudgedChunks<J>)>,
    again: Option<(SpeculativeChunk, JudgedChunks<J>)>,
) -> Option<(SpeculativeChunk, JudgedChunks<J>)>
    ensures same { IfSome result (λ a. (ahead ≡ Some a) ⊎ (again ≡ Some a)) }
    ensures fits { IfSome result (λ a. MayFollowLevels speculative.now a.0) }
{
    if let Some(fit) = if_fits(speculative, ahead) {
        return Some(fit);
    }
    if_fits(speculative, again)
}

/// Gives `step` to the judge, if there is one. The only error is want of memory.
fn past_step<J: ChunkJudge>(
    alloc: Global,
    stream_judge: StreamJudge<J>,
    step: Option<Step>,
) -> Result<StreamJudge<J>, AllocError>
    ensures { IfOk result (λ passed. passed ≡ with_steps stream_judge (option_to_list step)) }
{
    let mut stream_judge = stream_judge;
    if let Some(step) = step {
        stream_judge.step(alloc, step)?;
    }
    Ok(stream_judge)
}

/// The next piece of these, if there is one and it was read.
fn next_of<X: Drop>(pieces: &mut IntoIter<Option<X>>) -> Option<X>
    ensures { IsNextOf (into_iter_items pieces.old) (into_iter_items pieces.new) result }
{
    match pieces.next() {
        Some(next) => next,
        None => None,
    }
}

/// Joins the pieces in order, up to the first that doesn't fit, and passes their steps to the judge. `all` are the
/// pieces as they were read ahead, `again` those that were read again. The only error is want of memory. It is a
/// function of its own, so that the threads are started where the stack has no room for it yet.
#[inline(never)]
pub(crate) fn join_in_order<J: ChunkJudge>(
    alloc: Global,
    speculative: SpeculativeReader,
    stream_judge: StreamJudge<J>,
    pieces: &[DumpPiece<'_>],
    all: Vec<Option<(SpeculativeChunk, JudgedChunks<J>)>>,
    again: Vec<Option<(SpeculativeChunk, JudgedChunks<J>)>>,
) -> Result<JoinedPieces<J>, AllocError>
    requires all { AreAhead speculative.body.nets speculative.line_bits pieces.now all.items }
    requires again { AreAhead speculative.body.nets speculative.line_bits pieces.now again.items }
    ensures count { IfOk result (λ joined. joined.count ≤ length pieces.now) }
    ensures taken { IfOk result (λ joined. AreTaken pieces.now (with_recording stream_judge speculative)
        (with_recording joined.stream_judge joined.speculative) (drop joined.count pieces.now)) }
{
    let mut speculative = speculative;
    let mut stream_judge = stream_judge;
    let mut count = 0;
    let mut again = again.into_iter();
    for ahead in all {
        if count >= pieces.len() || !stream_judge.leaves(alloc, speculative.shown())? {
            break;
        }
        let anew = next_of(&mut again);
        let Some((ahead, chunks)) = fitting(&speculative, ahead, anew) else {
            break;
        };
        let (behind, step) = speculative.join(alloc, ahead)?;
        speculative = behind;
        stream_judge = past_step(alloc, stream_judge, step)?;
        stream_judge = chunks.pass(alloc, stream_judge)?;
        count += 1;
    }
    Ok(JoinedPieces {
        speculative,
        stream_judge,
        count,
    })
}

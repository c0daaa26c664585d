//! A chunk: steps of a recording that were judged by themselves.

ghost use Rattle.std.specs.Prelude.{◌≡◌, IfOk};
ghost use Rattle.vme_trace.specs.Trace.{levels_after};

use crate::chunk_judge::{ChunkJudge, MOST_STEPS};
use crate::chunk_summary::ChunkSummary;
use crate::ghost_steps::GhostSteps;
use std::alloc::{AllocError, Global};
use std::marker::{Model, PhantomData};
use vme_trace::{Lines, Step};

/// Steps that were judged by themselves: of what is before them only the lines that it leaves are known. Contracts see
/// these lines and the steps as a recording. Of the steps themselves nothing is kept.
#[derive(Drop)]
pub struct JudgedChunk<J: ChunkJudge> {
    /// How many steps there are, at most `MOST_STEPS + 1`.
    pub(crate) count: u32,
    opening: Lines,
    /// The lines that the steps leave.
    left: Lines,
    pub(crate) chunk_summary: ChunkSummary,
    pub(crate) taken: GhostSteps,
    by: PhantomData<J>,
}

impl<J: ChunkJudge> Model for JudgedChunk<J> {
    ghost use Rattle.vme_trace.specs.Trace.{Trace};
    ghost use Rattle.vme_summary.specs.JudgedSoFar.{IsChunk};

    ghost Value = { Trace };

    ghost view = { λ p. record { opening = p.opening; steps = p.taken.items } };

    ghost invariant = { λ p. IsChunk J.is_made_of p.chunk_summary p.count p.opening p.taken.items p.left };
}

/// The lines that some steps leave.
fn left_by(lines: &Lines, steps: &[Step]) -> Lines
    ensures { result ≡ levels_after lines.now steps.now }
{
    let mut left = *lines;
    for step in steps {
        left.apply(step.changes.as_slice());
    }
    left
}

impl<J: ChunkJudge> JudgedChunk<J> {
    /// Judges `steps` by themselves, which follow the lines `opening`. Only the first 268,435,456, the most that a
    /// recording has, are judged. The only error is that an allocation fails.
    pub fn of(alloc: Global, opening: &Lines, steps: &[Step]) -> Result<JudgedChunk<J>, AllocError>
        ensures { IfOk result (λ chunk. chunk ≡ record { opening = opening.now; steps = steps.now }) }
    {
        let (first, rest) = steps.split_at(steps.len().min(MOST_STEPS as usize));
        let chunk_summary = J::judge(alloc, opening, first)?;
        Ok(JudgedChunk {
            count: steps.len().min(MOST_STEPS as usize + 1) as u32,
            opening: *opening,
            left: left_by(&chunk_summary.left, rest),
            chunk_summary,
            taken: GhostSteps::of(steps),
            by: PhantomData,
        })
    }

    /// The lines that the steps leave.
    pub fn left(&self) -> &Lines
        ensures { result.now ≡ levels_after self.now.opening self.now.steps }
    {
        &self.left
    }
}

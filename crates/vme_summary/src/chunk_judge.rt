//! Judging a recording in order, some steps at a time.

ghost use Rattle.std.specs.Prelude.{◌≡◌, ◌+◌, ◌≤◌, List, [], ◌++◌, length, IfOk, OnErr, OnOk};
ghost use Rattle.vme_trace.specs.Levels.{Levels};
ghost use Rattle.vme_trace.specs.Trace.{levels_after};
ghost use Rattle.vme_trace.specs.declared.step.Step.{Step};
ghost use Rattle.vme_summary.specs.declared.chunk_summary.ChunkSummary.{ChunkSummary};

use crate::chunk_summary::ChunkSummary;
use std::alloc::{AllocError, Global};
use vme_trace::{Lines, Step};

/// How many steps a recording has at most.
pub(crate) const MOST_STEPS: u32 = 268435456;

/// Judges a recording from its opening on, some steps at a time. `go_on` judges the next steps from the state after
/// those before. `judge` judges steps by themselves, whatever is before them, and `pass` takes its result where they
/// are the next.
pub trait ChunkJudge: Drop {
    /// These steps after that opening have been judged.
    ghost is_past: { Self → Levels → List Step → Type 0 };

    /// The summary is that of these steps after that opening, judged by themselves.
    ghost is_made_of: { ChunkSummary → Levels → List Step → Type 0 };

    /// A judge that has judged no steps.
    fn at(opening: &Lines) -> Self
        ensures { is_past result opening.now [] };

    /// The lines that the steps so far leave.
    fn left(&self) -> &Lines
        ensures { (o : Levels) (x : List Step) → is_past self.now o x → result.now ≡ levels_after o x };

    /// Judges steps by themselves: of what is before them only the lines that it leaves, `opening`, are known.
    fn judge(alloc: Global, opening: &Lines, steps: &[Step]) -> Result<ChunkSummary, AllocError>
        requires { length steps.now ≤ 268435456 }
        ensures made { IfOk result (λ chunk_summary. is_made_of chunk_summary opening.now steps.now) }
        ensures left { IfOk result (λ chunk_summary. chunk_summary.left ≡ levels_after opening.now steps.now) };

    /// Takes the next steps, which were judged by themselves. There are at most 268,435,456 steps in all. If an
    /// allocation fails, the same steps as before have been judged.
    fn pass(&mut self, alloc: Global, chunk_summary: ChunkSummary) -> Result<(), AllocError>
        requires { (o : Levels) × (x : List Step) × (y : List Step) × is_past self.old o x
            × is_made_of chunk_summary (levels_after o x) y × (length x + length y ≤ 268435456) }
        ensures past { OnOk result ((o : Levels) (x y : List Step)
            → is_past self.old o x → is_made_of chunk_summary (levels_after o x) y → is_past self.new o (x ++ y)) }
        ensures stays { OnErr result ((o : Levels) (x : List Step) → is_past self.old o x → is_past self.new o x) };

    /// Judges the next steps from the state after those before. There are at most 268,435,456 steps in all. If an
    /// allocation fails, the same steps as before have been judged.
    fn go_on(&mut self, alloc: Global, steps: &[Step]) -> Result<(), AllocError>
        requires { (o : Levels) × (x : List Step) × is_past self.old o x
            × (length x + length steps.now ≤ 268435456) }
        ensures past { OnOk result ((o : Levels) (x : List Step)
            → is_past self.old o x → is_past self.new o (x ++ steps.now)) }
        ensures stays { OnErr result ((o : Levels) (x : List Step) → is_past self.old o x → is_past self.new o x) };
}

//! A recording that is judged as its steps come.

ghost use Rattle.std.specs.Prelude.{◌≡◌, ◌≤◌, None};
ghost use Rattle.vme_trace.specs.Trace.{Trace};
ghost use Rattle.vme_trace.specs.Verdict.{rules_in_force, verdict_by};
ghost use Rattle.vme_trace.specs.WellFormed.{malformed_step};
ghost use Rattle.vme_summary.specs.Progressed.{HasJudged};

use crate::chunk_judge::ChunkJudge;
use crate::chunk_summary::ChunkSummary;
use crate::monitor_states::MonitorStates;
use crate::summary::MonitorSummaries;
use std::alloc::{AllocError, Global};
use vme_trace::{Lines, Step, Verdict};

/// The state of judging a recording: the lines that the steps so far leave, their number, and what the monitors found.
/// Of the steps nothing is kept.
#[derive(Drop)]
pub struct VerdictState {
    left: Lines,
    steps: u32,
    found: MonitorStates,
}

impl ChunkJudge for VerdictState {
    ghost use Rattle.vme_summary.specs.Progressed.{HasJudged, IsFoundOf};

    ghost is_past = { HasJudged };

    ghost is_made_of = { IsFoundOf };

    fn at(opening: &Lines) -> VerdictState {
        VerdictState {
            left: *opening,
            steps: 0,
            found: MonitorStates::at(opening),
        }
    }

    fn left(&self) -> &Lines {
        &self.left
    }

    fn judge(alloc: Global, opening: &Lines, steps: &[Step]) -> Result<ChunkSummary, AllocError> {
        let (summary, left) = MonitorSummaries::without_marks(alloc, opening, steps)?;
        Ok(ChunkSummary { summary, left })
    }

    fn pass(&mut self, alloc: Global, chunk_summary: ChunkSummary) -> Result<(), AllocError> {
        let _ = alloc;
        self.found = chunk_summary.summary.found_after(&self.found, self.steps);
        self.steps += chunk_summary.summary.steps();
        self.left = chunk_summary.left;
        Ok(())
    }

    fn go_on(&mut self, alloc: Global, steps: &[Step]) -> Result<(), AllocError> {
        let _ = alloc;
        let opening = self.left;
        self.left = self.found.advance_along(&opening, self.steps, steps);
        self.steps += steps.len() as u32;
        Ok(())
    }
}

impl VerdictState {
    /// The verdict, by the rules in force, on a recording all of whose steps were judged.
    pub(crate) fn verdict(&self) -> Verdict
        ensures { (t : Trace) → malformed_step t ≡ None → t.opening.slots ≤ 21
            → HasJudged self.now t.opening t.steps → verdict_by rules_in_force t ≡ result }
    {
        self.found.verdict()
    }
}

//! A recording whose marks are kept as its steps come.

ghost use Rattle.std.specs.Prelude.{◌≡◌, ◌+◌, ◌≤◌, List, ◌++◌, length, true, IfOk, OnErr, OnOk, None};
ghost use Rattle.vme_trace.specs.Levels.{Levels};
ghost use Rattle.vme_trace.specs.Trace.{Trace, levels_after};
ghost use Rattle.vme_trace.specs.declared.step.Step.{Step};
ghost use Rattle.vme_trace.specs.WellFormed.{malformed_step};
ghost use Rattle.vme_listing.specs.Places.{is_well_placed};
ghost use Rattle.vme_listing.specs.Recorded.{listing_of};
ghost use Rattle.vme_summary.specs.Progressed.{HasMarked, StandsSoFar};
ghost use Rattle.vme_summary.specs.Summaries.{SummaryStandsFor, summary_steps};

use crate::chunk_judge::ChunkJudge;
use crate::chunk_summary::ChunkSummary;
use crate::summary::MonitorSummaries;
use std::alloc::{AllocError, Global};
use vme_listing::Listing;
use vme_trace::{Lines, Step};

/// The state of judging a recording with its marks (events of the bus with their instants): the lines that the steps so
/// far leave, and one summary of all of them. Of the steps nothing else is kept.
#[derive(Drop)]
pub struct ListingState {
    left: Lines,
    /// None before the first steps.
    summary: Option<MonitorSummaries>,
}

impl ChunkJudge for ListingState {
    ghost use Rattle.vme_summary.specs.Progressed.{HasMarked, IsMarkedOf};

    ghost is_past = { HasMarked };

    ghost is_made_of = { IsMarkedOf };

    fn at(opening: &Lines) -> ListingState {
        ListingState {
            left: *opening,
            summary: None,
        }
    }

    fn left(&self) -> &Lines {
        &self.left
    }

    fn judge(alloc: Global, opening: &Lines, steps: &[Step]) -> Result<ChunkSummary, AllocError> {
        let (summary, left) = MonitorSummaries::of_steps(alloc, opening, steps)?;
        Ok(ChunkSummary { summary, left })
    }

    fn pass(&mut self, alloc: Global, chunk_summary: ChunkSummary) -> Result<(), AllocError> {
        self.append(alloc, chunk_summary.summary)?;
        self.left = chunk_summary.left;
        Ok(())
    }

    fn go_on(&mut self, alloc: Global, steps: &[Step]) -> Result<(), AllocError> {
        let (summary, left) = MonitorSummaries::of_steps(alloc, &self.left, steps)?;
        self.append(alloc, summary)?;
        self.left = left;
        Ok(())
    }
}

impl ListingState {
    /// Appends the summary of the next steps. If an allocation fails, the summary stands for the same steps as before.
    fn append(&mut self, alloc: Global, next: MonitorSummaries) -> Result<(), AllocError>
        requires { (o : Levels) × (x : List Step) × StandsSoFar self.old.summary o x
            × (length x + summary_steps next ≤ 268435456) }
        ensures left { self.new.left ≡ self.old.left }
        ensures both { OnOk result ((o : Levels) (x y : List Step) → StandsSoFar self.old.summary o x
            → SummaryStandsFor next (levels_after o x) y → StandsSoFar self.new.summary o (x ++ y)) }
        ensures stays { OnErr result ((o : Levels) (x : List Step)
            → StandsSoFar self.old.summary o x → StandsSoFar self.new.summary o x) }
    {
        let Some(mut summary) = self.summary.take() else {
            self.summary = Some(next);
            return Ok(());
        };
        match summary.make_room(alloc, &next) {
            Ok(room) => {
                self.summary = Some(summary.append_in(room, next));
                Ok(())
            }
            Err(fault) => {
                self.summary = Some(summary);
                Err(fault)
            }
        }
    }

    /// The listing, by the rules in force, of a recording all of whose steps were judged, which begins with the lines
    /// `opening`.
    pub(crate) fn listing(self, alloc: Global, opening: &Lines) -> Result<Listing, AllocError>
        ensures listing { IfOk result (λ listing. (t : Trace) → malformed_step t ≡ None → t.opening.slots ≤ 21
            → opening.now ≡ t.opening → HasMarked self t.opening t.steps → listing ≡ listing_of t) }
        ensures placed { IfOk result (λ listing. (t : Trace) → malformed_step t ≡ None → t.opening.slots ≤ 21
            → opening.now ≡ t.opening → HasMarked self t.opening t.steps → is_well_placed listing ≡ true) }
    {
        match self.summary {
            Some(summary) => summary.into_listing(alloc, opening),
            None => {
                let (summary, _) = MonitorSummaries::of_steps(alloc, opening, &[])?;
                summary.into_listing(alloc, opening)
            }
        }
    }
}

//! The summary of blocks that join.

ghost use Rattle.std.specs.Prelude.{List};
ghost use Rattle.vme_trace.specs.declared.block.Block.{Block};
ghost use Rattle.vme_summary.specs.Standing.{StandForBlocks};

use crate::extent::Extent;
use crate::summary::MonitorSummaries;
use std::alloc::{AllocError, Global};
use vme_listing::Listing;
use vme_trace::Verdict;

/// The summary of blocks that join, by all monitors and whatever came before: the extent of the blocks, and one summary
/// of their steps. A span stands for each list of blocks that has this extent and this summary (`SpanStandsFor`), and
/// there is such a list.
#[derive(Drop)]
pub struct Span {
    pub(crate) extent: Extent,
    pub(crate) summary: MonitorSummaries,
    pub ghost stands: { ∥ StandForBlocks extent summary ∥₁ },
}

impl Span {
    ghost use Rattle.std.specs.Prelude.{◌≡◌, length, IfOk, Some, true};
    ghost use Rattle.vme_trace.specs.Blocks.{joined_steps};
    ghost use Rattle.vme_listing.specs.Places.{is_well_placed};
    ghost use Rattle.vme_summary.specs.Joins.{first_block_number, last_block_number};
    ghost use Rattle.vme_summary.specs.Splitting.{SplitsItsRecording};
    ghost use Rattle.vme_summary.specs.Stands.{IsListingOf, IsVerdictOf, SpanStandsFor, first_number, step_count};

    /// The number of the first block.
    pub fn first(&self) -> u32
        ensures value { result ≡ first_number self.now }
        ensures blocks { (bs : List Block) → SpanStandsFor self.now bs → first_block_number bs ≡ Some result }
    {
        self.extent.first
    }

    /// The number of the last block.
    pub fn last(&self) -> u32
        ensures { (bs : List Block) → SpanStandsFor self.now bs → last_block_number bs ≡ Some result }
    {
        self.extent.last
    }

    /// How many steps the blocks have.
    pub fn steps(&self) -> u32
        ensures value { result ≡ step_count self.now }
        ensures blocks { (bs : List Block) → SpanStandsFor self.now bs → result ≡ length (joined_steps bs) }
    {
        self.summary.steps()
    }

    /// The verdict, by the rules in force, of the recording that the blocks make. The first of them has to be the
    /// recording's first. Allocates nothing.
    pub fn verdict(&self) -> Verdict
        requires { first_number self.now ≡ 0 }
        ensures { IsVerdictOf self.now result }
    {
        let opening = &self.extent.opening;
        prove!(opening.slots() <= 21);
        self.summary.found_from(opening).verdict()
    }

    /// The listing, by the rules in force, of the recording that the blocks make. The first of them has to be the
    /// recording's first. The listing is well placed, so that `read_listing` accepts its text. It takes time
    /// proportional to the count of marks. It fails if memory runs out.
    pub fn listing(&self, alloc: Global) -> Result<Listing, AllocError>
        requires { first_number self.now ≡ 0 }
        ensures listing { IfOk result (IsListingOf self.now) }

        // The judged edges of that recording split into exactly what the listing lists.
        ensures split { IfOk result (SplitsItsRecording self.now) }
        ensures placed { IfOk result (λ rows. is_well_placed rows ≡ true) }
    {
        let opening = &self.extent.opening;
        prove!(opening.slots() <= 21);
        self.summary.listing(alloc, opening)
    }
}

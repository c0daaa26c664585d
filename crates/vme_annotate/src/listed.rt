//! The listing of a recording, with the times of its steps.

ghost use Rattle.std.specs.Prelude.{◌≡◌, ◌+◌, ◌-◌, ◌≤◌, ℕ, None, get_or, max, slice_get};
ghost use Rattle.vcd_read.specs.Meaning.{dump_of};
ghost use Rattle.vme_bind.specs.Capture.{limited};
ghost use Rattle.vme_trace.specs.WellFormed.{malformed_step};
ghost use Rattle.vme_stream.specs.Answers.{or_bad_binding, or_bad_dump};
ghost use Rattle.vme_stream.specs.ListingStatus.{listing_status};
ghost use Rattle.vme_annotate.specs.TimedListings.{GivesTimedListing, recording_to_list, settled_in_blocks};

use crate::step_times::StepTimes;
use std::alloc::Global;
use std::marker::{Brand, Model};
use vme_bind::Binding;
use vme_listing::{Listing, Row};
use vme_skew::{GhostSkew, SettlingVisitor};
use vme_stream::{Refusal, listing_status};
use vme_summary::{Lister, NoVerdict};

/// The listing of a recording, and the times of its steps.
#[derive(Drop)]
pub(crate) struct TimedListing {
    listing: Listing,
    times: Vec<u64>,
}

impl Model for TimedListing {
    ghost use Rattle.vme_annotate.specs.TimedListings.{TimedListingValue};

    ghost Value = { TimedListingValue };

    ghost view = { λ l. record { listing = l.listing; times = l.times.items } };
}

impl TimedListing {
    /// The rows, in their order.
    pub fn rows(&self) -> &[Row]
        ensures { result.now ≡ self.now.listing.rows }
    {
        self.listing.rows()
    }

    /// The time of an instant. The opening, instant 0, has none.
    pub fn time_of(&self, instant: u32) -> Option<u64>
        ensures opening { instant ≡ 0 → result ≡ None }
        ensures step { (i : ℕ) → instant ≡ i + 1 → result ≡ slice_get self.now.times i }
    {
        if instant == 0 {
            return None;
        }
        self.times.get(instant as usize - 1).copied()
    }

    /// The time at which an instant is shown: the opening at the time of the first step. It is 0 if there is no such
    /// step.
    pub fn shown_time(&self, instant: u32) -> u64
        ensures { result ≡ get_or self.now.times (max instant 1 - 1) 0 }
    {
        match self.time_of(instant.max(1)) {
            Some(time) => time,
            None => 0,
        }
    }

    /// The exit status: that of the verdict, the last row.
    pub fn status(&self) -> u8
        ensures { result ≡ listing_status self.now.listing }
    {
        listing_status(&self.listing)
    }
}

/// The listing of the recording that `binding` makes of a dump's text, settled, i.e. deskewed, by `skew`,
/// with the times of its steps; or why there is none. The text is read once.
pub(crate) fn listed_in(
    alloc: Global,
    binding: &Binding,
    text: &[u8],
    skew: u64,
    block: u32,
) -> Result<TimedListing, Refusal>
    requires { (1 ≤ block) × (block ≤ 65536) }
    ensures { GivesTimedListing result (recording_to_list skew binding.now (or_bad_dump (dump_of text.now)) block) }
{
    listed_by_skew::<Brand>(alloc, binding, text, skew, block)
}

/// `listed_in`, where the type `K` stands for `skew`.
fn listed_by_skew<K: GhostSkew>(
    alloc: Global,
    binding: &Binding,
    text: &[u8],
    skew: u64,
    block: u32,
) -> Result<TimedListing, Refusal>
    requires block { (1 ≤ block) × (block ≤ 65536) }
    requires skew { skew ≡ K.skew }
    ensures { GivesTimedListing result (recording_to_list K.skew binding.now (or_bad_dump (dump_of text.now)) block) }
{
    let lines = binding.lines();
    let timed = StepTimes::new(alloc, lines, Lister::new(alloc, lines));
    let settling: SettlingVisitor<K, StepTimes<Lister>> = SettlingVisitor::new(
        alloc, lines, skew, timed,
    );
    match binding.record_text(alloc, text, settling) {
        Ok(settling) => settled_listing(alloc, settling, block),
        Err(fault) => Err(Refusal::of_capture(fault)),
    }
}

/// The listing of a deskewed recording, whose last group of steps ends here. The limit on steps counts those before
/// deskewing.
fn settled_listing<K: GhostSkew>(
    alloc: Global,
    settling: SettlingVisitor<K, StepTimes<Lister>>,
    block: u32,
) -> Result<TimedListing, Refusal>
    requires { (1 ≤ block) × (block ≤ 65536) }
    ensures { malformed_step settling ≡ None → GivesTimedListing result
        (settled_in_blocks K.skew block (or_bad_binding (limited settling))) }
{
    if settling.is_too_long() {
        return Err(Refusal::of_judging(NoVerdict::TooManySteps));
    }
    let Ok(timed) = settling.finish(alloc) else {
        return Err(Refusal::Memory);
    };
    let Some((lister, times)) = timed.into_parts() else {
        return Err(Refusal::Memory);
    };
    match lister.listing(alloc, block) {
        Ok(listing) => Ok(TimedListing { listing, times }),
        Err(why) => Err(Refusal::of_judging(why)),
    }
}

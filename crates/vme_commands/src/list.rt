//! The listing of one recording.

ghost use Rattle.std.specs.Prelude.{◌≡◌, ◌≤◌, ◌↔◌, ℕ, suc, List, Option, None, Some, Ok};
ghost use Rattle.vme_listing.specs.Recorded.{listing_of};
ghost use Rattle.vme_trace.specs.Trace.{Trace};
ghost use Rattle.vme_trace.specs.WellFormed.{malformed_step};
ghost use Rattle.vme_stream.specs.Ends.{Ends, WritesAnswerExactly};
ghost use Rattle.vme_stream.specs.Inputs.{IsReading};
ghost use Rattle.vme_commands.specs.Judged.{limited_in_blocks};
ghost use Rattle.vme_commands.specs.Listings.{GivesListing, WritesListing, listing_answer_by, listing_answer_of};
ghost use Rattle.vme_commands.specs.Listings.{WritesSplitExactly};
ghost use Rattle.vme_commands.specs.Settled.{settled_recording};

use crate::judged_recording::judged_recording;
use crate::workers::Workers;
use std::alloc::Global;
use std::thread::Threads;
use vme_listing::{Listing, write_listing};
use vme_stream::{Refusal, cannot_write_line, complain, listing_status, tell_refusal};
use vme_summary::Lister;
use vme_trace::{Sink, Source};

/// Writes to `out` the listing of the recording that the binding makes of the dump, settled, i.e. deskewed, by `skew`,
/// or to `err` why there is none. Returns the exit status: that of the listing's verdict, 0 conforming, 1 broken, 2
/// unreadable or never idle; 3 where an input is refused, 4 for want of memory, 5 where the listing can't be written.
///
/// The binding is read, and then the dump, piece by piece. Neither the dump nor the recording is kept: the steps are
/// deskewed and judged as they are made, by one worker if `skew` is over 0. Their marks, i.e. events of the bus with
/// their instants, are kept. A recording that fills more than 4,096 blocks of `block` steps is refused, and the listing
/// is otherwise the same for each size. It is written in pieces of up to 4,096 bytes. A failure of `err` is ignored.
pub fn list<R: Threads + Sync, B: Source, D: Source, O: Sink, E: Sink>(
    rt: &R,
    alloc: Global,
    binding: &mut B,
    dump: &mut D,
    block: u32,
    workers: u32,
    skew: u64,
    out: &mut O,
    err: &mut E,
) -> u8
    requires block { (1 ≤ block) × (block ≤ 65536) }
    requires workers { (1 ≤ workers) × (workers ≤ 64) }
    ensures answer { WritesListing skew
        (B.reading binding.old, B.reading binding.new) (D.reading dump.old, D.reading dump.new) block
        (O.writing out.old, O.writing out.new) (E.writing err.old, E.writing err.new) result }
    ensures unwritten { (result ≡ 5) ↔ ((O.writing out.new).failures ≡ suc (O.writing out.old).failures) }

    // If both inputs are read whole, no write to `out` fails and memory suffices, the answer is exactly as defined.
    ensures exact { WritesAnswerExactly (λ b d. listing_answer_of skew (Some b) (Some d) block)
        (B.reading binding.old, B.reading binding.new) (D.reading dump.old, D.reading dump.new)
        (O.writing out.old, O.writing out.new) (E.writing err.old, E.writing err.new) result }

    // Under the same conditions the rows whose text is written split the judged edges of the deskewed recording: each
    // edge belongs to one row.
    ensures split { WritesSplitExactly skew
        (B.reading binding.old, B.reading binding.new) (D.reading dump.old, D.reading dump.new) block
        (O.writing out.old, O.writing out.new) result }
{
    list_by(
        alloc,
        &Workers::new(rt, workers),
        binding,
        dump,
        block,
        skew,
        out,
        err,
    )
}

/// `list` by these workers, whose pieces may have any size. The answer doesn't depend on it.
pub fn list_by<R: Threads + Sync, B: Source, D: Source, O: Sink, E: Sink>(
    alloc: Global,
    workers: &Workers<'_, R>,
    binding: &mut B,
    dump: &mut D,
    block: u32,
    skew: u64,
    out: &mut O,
    err: &mut E,
) -> u8
    requires { (1 ≤ block) × (block ≤ 65536) }
    ensures { WritesListing skew
        (B.reading binding.old, B.reading binding.new) (D.reading dump.old, D.reading dump.new) block
        (O.writing out.old, O.writing out.new) (E.writing err.old, E.writing err.new) result }
{
    match listing(alloc, workers, binding, dump, block, skew) {
        Ok(listing) => tell(&listing, out, err),
        Err(refusal) => tell_refusal(&refusal, err),
    }
}

/// Writes a listing, or to `err` that it can't be written. Returns the exit status.
#[inline(never)]
fn tell<O: Sink, E: Sink>(listing: &Listing, out: &mut O, err: &mut E) -> u8
    ensures { (t : Trace) → listing.now ≡ listing_of t → Ends (listing_answer_by (Ok t))
        (O.writing out.old, O.writing out.new) (E.writing err.old, E.writing err.new) result }
{
    match write_listing(listing, out) {
        Ok(()) => listing_status(listing),
        Err(_) => {
            complain(err, cannot_write_line());
            5
        }
    }
}

/// The listing of the recording that the binding makes of the dump, deskewed by `skew`, or the first reason that there
/// is none.
#[inline(never)]
fn listing<R: Threads + Sync, B: Source, D: Source>(
    alloc: Global,
    workers: &Workers<'_, R>,
    binding: &mut B,
    dump: &mut D,
    block: u32,
    skew: u64,
) -> Result<Listing, Refusal>
    requires { (1 ≤ block) × (block ≤ 65536) }
    ensures { (binding_bytes dump_bytes : Option (List ℕ))
        × IsReading (B.reading binding.old) (B.reading binding.new) binding_bytes
        × IsReading (D.reading dump.old) (D.reading dump.new) dump_bytes
        × GivesListing result (settled_recording skew binding_bytes dump_bytes block) }
{
    let lister = judged_recording(alloc, workers, binding, dump, skew)?;
    listing_of_steps(alloc, lister, block)
}

/// The listing of a recording whose steps were judged.
#[inline(never)]
fn listing_of_steps(alloc: Global, lister: Lister, block: u32) -> Result<Listing, Refusal>
    requires { (1 ≤ block) × (block ≤ 65536) }
    ensures { malformed_step lister ≡ None → GivesListing result (limited_in_blocks block lister) }
{
    match lister.listing(alloc, block) {
        Ok(listing) => Ok(listing),
        Err(why) => Err(Refusal::of_judging(why)),
    }
}

//! The listing of a recording, with the times of its instants.

ghost use Rattle.std.specs.Prelude.{◌≡◌, ◌≤◌, ◌↔◌, ℕ, suc, List, MatchResult, Ok, Option, Some};
ghost use Rattle.vme_stream.specs.Ends.{Ends, WritesAnswerExactly};
ghost use Rattle.vme_stream.specs.Inputs.{IsReading};
ghost use Rattle.vme_stream.specs.Outputs.{FailsToWrite, Writes};
ghost use Rattle.vme_commands.specs.Settled.{settled_recording};
ghost use Rattle.vme_trace.specs.Trace.{Trace};
ghost use Rattle.vme_annotate.specs.Answers.{WritesTimes, timed_answer_by, timed_answer_of};
ghost use Rattle.vme_annotate.specs.TimedListings.{GivesTimedListing, IsTimedListingOf, timed_rows_text};

use crate::listed::{TimedListing, listed_in};
use crate::output_buffer::OutputBuffer;
use crate::timed_rows::timed_line;
use std::alloc::Global;
use vme_stream::{
    Input, Refusal, binding_from, cannot_write_line, complain, read_all, tell_refusal,
};
use vme_trace::{Failed, Sink, Source};

/// Writes to `out` the listing, with the times of its instants, of the recording that the binding makes of the dump,
/// deskewed by `skew`; or to `err` why there is none. Returns the exit status, that of `list`.
///
/// The binding is read, and then the dump, which is kept as it is, with the times of its steps and the rows. A failure
/// of `err` is ignored.
pub fn list_times<B: Source, D: Source, O: Sink, E: Sink>(
    alloc: Global,
    binding: &mut B,
    dump: &mut D,
    block: u32,
    skew: u64,
    out: &mut O,
    err: &mut E,
) -> u8
    requires { (1 ≤ block) × (block ≤ 65536) }
    ensures answer { WritesTimes skew
        (B.reading binding.old, B.reading binding.new) (D.reading dump.old, D.reading dump.new) block
        (O.writing out.old, O.writing out.new) (E.writing err.old, E.writing err.new) result }
    ensures unwritten { (result ≡ 5) ↔ ((O.writing out.new).failures ≡ suc (O.writing out.old).failures) }

    // If both inputs are read whole, no write to `out` fails and memory suffices, the answer is exactly as defined.
    ensures exact { WritesAnswerExactly (λ b d. timed_answer_of skew (Some b) (Some d) block)
        (B.reading binding.old, B.reading binding.new) (D.reading dump.old, D.reading dump.new)
        (O.writing out.old, O.writing out.new) (E.writing err.old, E.writing err.new) result }
{
    read_and_write(alloc, binding, dump, block, skew, out, err)
}

/// `list_times`, with the contract `answer` alone.
fn read_and_write<B: Source, D: Source, O: Sink, E: Sink>(
    alloc: Global,
    binding: &mut B,
    dump: &mut D,
    block: u32,
    skew: u64,
    out: &mut O,
    err: &mut E,
) -> u8
    requires { (1 ≤ block) × (block ≤ 65536) }
    ensures { WritesTimes skew
        (B.reading binding.old, B.reading binding.new) (D.reading dump.old, D.reading dump.new) block
        (O.writing out.old, O.writing out.new) (E.writing err.old, E.writing err.new) result }
{
    match listing_from(alloc, binding, dump, block, skew) {
        Ok(listing) => write_or_complain(&listing, out, err),
        Err(refusal) => tell_refusal(&refusal, err),
    }
}

/// Writes the lines of a listing, in pieces of up to 4,096 bytes. It takes no memory.
fn write_times<W: Sink>(listing: &TimedListing, sink: &mut W) -> Result<(), Failed>
    ensures { MatchResult result
        (λ _. Writes (W.writing sink.old) (W.writing sink.new)
        (timed_rows_text listing.now.times listing.now.listing.rows))
        (λ _. FailsToWrite (W.writing sink.old) (W.writing sink.new)
        (timed_rows_text listing.now.times listing.now.listing.rows)) }
{
    let mut buffer = OutputBuffer::new();
    buffer.put(sink, b"vmecheck listing 3 times\n");
    for row in listing.rows() {
        let line = timed_line(listing, row);
        buffer.put(sink, line.as_bytes());
    }
    buffer.finish(sink)
}

/// Writes a listing, or to `err` that it can't be written. Returns the exit status.
fn write_or_complain<O: Sink, E: Sink>(listing: &TimedListing, out: &mut O, err: &mut E) -> u8
    ensures { (t : Trace) → IsTimedListingOf t listing.now → Ends (timed_answer_by (Ok t))
        (O.writing out.old, O.writing out.new) (E.writing err.old, E.writing err.new) result }
{
    match write_times(listing, out) {
        Ok(()) => listing.status(),
        Err(_) => {
            complain(err, cannot_write_line());
            5
        }
    }
}

/// The listing, with times, of the recording that the binding makes of the dump, or the first reason that there is
/// none.
fn listing_from<B: Source, D: Source>(
    alloc: Global,
    binding: &mut B,
    dump: &mut D,
    block: u32,
    skew: u64,
) -> Result<TimedListing, Refusal>
    requires { (1 ≤ block) × (block ≤ 65536) }
    ensures { (binding_bytes dump_bytes : Option (List ℕ))
        × IsReading (B.reading binding.old) (B.reading binding.new) binding_bytes
        × IsReading (D.reading dump.old) (D.reading dump.new) dump_bytes
        × GivesTimedListing result (settled_recording skew binding_bytes dump_bytes block) }
{
    let bound = binding_from(alloc, binding)?;
    match read_all(alloc, dump) {
        Ok(text) => listed_in(alloc, &bound, &text, skew, block),
        Err(fault) => Err(Refusal::of_input(Input::Dump, fault)),
    }
}

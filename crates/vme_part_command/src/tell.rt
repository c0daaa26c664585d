//! The verdict and the listing of the whole recording.

ghost use Rattle.std.specs.Prelude.{map};
ghost use Rattle.vme_stream.specs.Ends.{Ends};
ghost use Rattle.vme_part_format.specs.Bounds.{FitsPart};
ghost use Rattle.vme_part_format.specs.Tables.{part_value};
ghost use Rattle.vme_part_command.specs.PartAnswers.{ListsPart};
ghost use Rattle.vme_part_command.specs.PartAnswers.{ListsRecording, TellsRecording};
ghost use Rattle.vme_part_command.specs.PartAnswers.{listed_answer, told_answer};
ghost use Rattle.vme_part_listing.specs.declared.answers.ListingAnswer.TheVariants as listed;
ghost use Rattle.vme_parts.specs.declared.answers.RecordingAnswer.TheVariants as told;

use crate::complaints::{no_memory, refuse};
use crate::inputs::{NamedPart, joined, refuse_joined};
use crate::lines::{refusing_line, told_line, verdict_line, verdict_status};
use std::alloc::Global;
use vme_listing::{Listing, write_listing};
use vme_part_format::Part;
use vme_part_listing::{ListingAnswer, tell_listing};
use vme_parts::{RecordingAnswer, WideVerdict, tell_verdict};
use vme_stream::{cannot_write_line, complain, listing_status, write_answer};
use vme_trace::{Sink, Source};

/// Writes a verdict. The answer is the exit status.
fn put_verdict<O: Sink, E: Sink>(verdict: &WideVerdict, out: &mut O, err: &mut E) -> u8
    ensures { Ends (told_answer (told.Verdict verdict.now))
        (O.writing out.old, O.writing out.new) (E.writing err.old, E.writing err.new) result }
{
    let line = verdict_line(verdict);
    write_answer(line.as_bytes(), verdict_status(verdict), out, err)
}

/// Writes the verdict, or why there is none. The answer is the exit status.
fn tell<O: Sink, E: Sink>(told: RecordingAnswer, out: &mut O, err: &mut E) -> u8
    ensures { Ends (told_answer told)
        (O.writing out.old, O.writing out.new) (E.writing err.old, E.writing err.new) result }
{
    match told {
        RecordingAnswer::Verdict(verdict) => put_verdict(&verdict, out, err),
        _ => refuse(told_line(&told), err),
    }
}

/// Writes to `out` the verdict of the whole recording, which has `files` files, from the parts in the inputs, or to
/// `err` why there is none. If `files` is `None`, the recording ends with the last file that is covered. The answer is
/// the exit status: that of `check` by the verdict; 3 where an input is refused, a file is missing, torn or beyond the
/// files, or there are too many steps; 4 for want of memory; 5 where the verdict can't be written.
pub fn tell_whole<P: Source, O: Sink, E: Sink>(
    alloc: Global,
    inputs: &mut [NamedPart<'_, P>],
    files: Option<u64>,
    out: &mut O,
    err: &mut E,
) -> u8
    ensures answer { TellsRecording (map (λ i. i.name.now) inputs.old)
        (map (λ i. P.reading i.part) inputs.old, map (λ i. P.reading i.part) inputs.new) files
        (O.writing out.old, O.writing out.new) (E.writing err.old, E.writing err.new) result }
{
    match joined(alloc, inputs) {
        Ok(part) => tell(tell_verdict(&part, files), out, err),
        Err(why) => refuse_joined(alloc, inputs, why, err),
    }
}

/// Writes a listing. The answer is the exit status.
fn put_listing<O: Sink, E: Sink>(listing: &Listing, out: &mut O, err: &mut E) -> u8
    ensures { Ends (listed_answer (listed.Listing listing.now))
        (O.writing out.old, O.writing out.new) (E.writing err.old, E.writing err.new) result }
{
    match write_listing(listing, out) {
        Ok(()) => listing_status(listing),
        Err(_) => {
            complain(err, cannot_write_line());
            5
        }
    }
}

/// Writes the listing, or why there is none. The answer is the exit status.
fn put_listed<O: Sink, E: Sink>(what: ListingAnswer, out: &mut O, err: &mut E) -> u8
    ensures { Ends (listed_answer what)
        (O.writing out.old, O.writing out.new) (E.writing err.old, E.writing err.new) result }
{
    match what {
        ListingAnswer::Listing(listing) => put_listing(&listing, out, err),
        ListingAnswer::Refused(told) => refuse(told_line(&told), err),
        ListingAnswer::Unmarked => refuse(refusing_line(b"parts without marks"), err),
        ListingAnswer::TooLong => refuse(refusing_line(b"too many steps"), err),
    }
}

/// Writes the listing from a part, or why there is none. The answer is the exit status.
fn list_part<O: Sink, E: Sink>(
    alloc: Global,
    part: &Part,
    files: Option<u64>,
    out: &mut O,
    err: &mut E,
) -> u8
    requires { FitsPart (part_value part.now) }
    ensures { ListsPart (part_value part.now) files
        (O.writing out.old, O.writing out.new) (E.writing err.old, E.writing err.new) result }
{
    match tell_listing(alloc, part, files) {
        Ok(what) => put_listed(what, out, err),
        Err(_) => no_memory(err),
    }
}

/// Writes to `out` the listing of the whole recording, which has `files` files, from the parts in the inputs, or to
/// `err` why there is none. If `files` is `None`, the recording ends with the last file that is covered. The answer is
/// the exit status: that of `list` by the listing's verdict; 3 for parts without marks; else as `tell_whole` answers.
pub fn list_whole<P: Source, O: Sink, E: Sink>(
    alloc: Global,
    inputs: &mut [NamedPart<'_, P>],
    files: Option<u64>,
    out: &mut O,
    err: &mut E,
) -> u8
    ensures answer { ListsRecording (map (λ i. i.name.now) inputs.old)
        (map (λ i. P.reading i.part) inputs.old, map (λ i. P.reading i.part) inputs.new) files
        (O.writing out.old, O.writing out.new) (E.writing err.old, E.writing err.new) result }
{
    match joined(alloc, inputs) {
        Ok(part) => list_part(alloc, &part, files, out, err),
        Err(why) => refuse_joined(alloc, inputs, why, err),
    }
}

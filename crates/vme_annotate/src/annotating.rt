//! A dump that is written again, annotated with the listing of its recording.

ghost use Rattle.std.specs.Prelude.{◌≡◌, ◌↔◌, ℕ, suc, List, Ok, Option, Some};
ghost use Rattle.vme_stream.specs.Ends.{Ends};
ghost use Rattle.vme_commands.specs.Settled.{settled_recording};
ghost use Rattle.vme_commands.specs.declared.built_in.TheConstants.{BLOCK};
ghost use Rattle.vme_stream.specs.Inputs.{IsReading};
ghost use Rattle.vme_trace.specs.Trace.{Trace};
ghost use Rattle.vme_annotation.specs.Annotated.{IsAnnotated};
ghost use Rattle.vme_annotate.specs.Answers.{Annotates, AnnotatesExactly, annotation_answer_by};
ghost use Rattle.vme_annotate.specs.Prepared.{GivesPrepared, IsPrepared, recording_in};

use crate::added::{AddedVariables, added_to};
use crate::changes::{PlannedChange, changes_of};
use crate::inserting::{Annotation, write_annotated};
use crate::listed::{TimedListing, listed_in};
use std::alloc::Global;
use vme_bind::Binding;
use vme_commands::BLOCK;
use vme_stream::{
    Input, Refusal, binding_from, cannot_write_line, complain, read_all, tell_refusal,
};
use vme_trace::{Sink, Source};

/// A dump, and all that is inserted into it.
#[derive(Drop)]
struct AnnotatedDump {
    text: Vec<u8>,
    listing: TimedListing,
    changes: Vec<PlannedChange>,
    added: AddedVariables,
}

/// Writes to `out` the dump, byte for byte, with added variables that show the tenures, cycles and transfers of its
/// recording and, from a break (a violation of a rule) on, its verdict. The recording is what the binding makes of the
/// dump, settled, i.e. deskewed, by `skew`. If there is none, the reason is written to `err`. Returns the exit status,
/// that of `list`.
///
/// The binding is read, and then the dump, which is kept as it is, with the times of its steps and the rows of its
/// listing: that is all that takes memory, and no more is taken once something is written. A failure of `err` is
/// ignored.
pub fn annotate<B: Source, D: Source, O: Sink, E: Sink>(
    alloc: Global,
    binding: &mut B,
    dump: &mut D,
    skew: u64,
    out: &mut O,
    err: &mut E,
) -> u8
    ensures answer { Annotates skew
        (B.reading binding.old, B.reading binding.new) (D.reading dump.old, D.reading dump.new)
        (O.writing out.old, O.writing out.new) (E.writing err.old, E.writing err.new) result }
    ensures unwritten { (result ≡ 5) ↔ ((O.writing out.new).failures ≡ suc (O.writing out.old).failures) }

    // If both inputs are read whole, no write to `out` fails and memory suffices, the output is exactly the annotated
    // dump, or the first fault.
    ensures exact { AnnotatesExactly skew
        (B.reading binding.old, B.reading binding.new) (D.reading dump.old, D.reading dump.new)
        (O.writing out.old, O.writing out.new) (E.writing err.old, E.writing err.new) result }
{
    read_and_write(alloc, binding, dump, skew, out, err)
}

/// `annotate`, with the contract `answer` alone.
fn read_and_write<B: Source, D: Source, O: Sink, E: Sink>(
    alloc: Global,
    binding: &mut B,
    dump: &mut D,
    skew: u64,
    out: &mut O,
    err: &mut E,
) -> u8
    ensures { Annotates skew
        (B.reading binding.old, B.reading binding.new) (D.reading dump.old, D.reading dump.new)
        (O.writing out.old, O.writing out.new) (E.writing err.old, E.writing err.new) result }
{
    match annotated_from(alloc, binding, dump, skew) {
        Ok(annotated) => write_or_complain(&annotated, out, err),
        Err(refusal) => tell_refusal(&refusal, err),
    }
}

/// Writes an annotated dump, or to `err` that it can't be written. Returns the exit status.
fn write_or_complain<O: Sink, E: Sink>(annotated: &AnnotatedDump, out: &mut O, err: &mut E) -> u8
    ensures { (t : Trace) → IsPrepared t annotated.now → (text : List ℕ)
        × IsAnnotated annotated.now.text.items t text
        × Ends (annotation_answer_by text (Ok t))
        (O.writing out.old, O.writing out.new) (E.writing err.old, E.writing err.new) result }
{
    let annotation = Annotation {
        dump: annotated.text.as_slice(),
        listing: &annotated.listing,
        changes: annotated.changes.as_slice(),
        added: &annotated.added,
    };
    match write_annotated(out, &annotation) {
        Ok(()) => annotated.listing.status(),
        Err(_) => {
            complain(err, cannot_write_line());
            5
        }
    }
}

/// The dump, with what is inserted into it, or the first reason that there is no recording of it. The binding is read
/// first.
fn annotated_from<B: Source, D: Source>(
    alloc: Global,
    binding: &mut B,
    dump: &mut D,
    skew: u64,
) -> Result<AnnotatedDump, Refusal>
    ensures { (binding_bytes dump_bytes : Option (List ℕ))
        × IsReading (B.reading binding.old) (B.reading binding.new) binding_bytes
        × IsReading (D.reading dump.old) (D.reading dump.new) dump_bytes
        × GivesPrepared dump_bytes result (settled_recording skew binding_bytes dump_bytes BLOCK) }
{
    let bound = binding_from(alloc, binding)?;
    match read_all(alloc, dump) {
        Ok(text) => annotated_in(alloc, &bound, text, skew),
        Err(fault) => Err(Refusal::of_input(Input::Dump, fault)),
    }
}

/// The dump with this text, with what is inserted into it, or the reason that there is no recording of it.
fn annotated_in(
    alloc: Global,
    bound: &Binding,
    text: Vec<u8>,
    skew: u64,
) -> Result<AnnotatedDump, Refusal>
    ensures { GivesPrepared (Some text.items) result (recording_in skew bound.now text.items) }
{
    let listing = match listed_in(alloc, bound, &text, skew, BLOCK) {
        Ok(listing) => listing,
        Err(refusal) => return Err(refusal),
    };
    let added = match added_to(alloc, &text) {
        Ok(added) => added,
        Err(refusal) => return Err(refusal),
    };
    match changes_of(alloc, listing.rows()) {
        Ok(changes) => Ok(AnnotatedDump {
            text,
            listing,
            changes,
            added,
        }),
        Err(_) => Err(Refusal::Memory),
    }
}

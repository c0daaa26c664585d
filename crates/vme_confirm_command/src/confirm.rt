//! Whether a listing is that of a recording.

ghost use Rattle.std.specs.Prelude.{◌≡◌, ◌↔◌, ℕ, suc, List, Option, Ok, Err, Result};
ghost use Rattle.vme_listing.specs.Listed.{Listed};
ghost use Rattle.vme_stream.specs.Answers.{binding_read, dump_read};
ghost use Rattle.vme_confirm_command.specs.Confirmations.{Confirms, ConfirmsExactly, GivesConfirmation, GivesRows};
ghost use Rattle.vme_confirm_command.specs.Confirmations.{compared, compared_settled, confirmation_answer_by};
ghost use Rattle.vme_confirm_command.specs.Confirmations.{confirmation_status, confirmation_text, listing_text};
ghost use Rattle.vme_stream.specs.Ends.{Ends};
ghost use Rattle.vme_stream.specs.Texts.{line_of};
ghost use Rattle.vme_stream.specs.Inputs.{IsReading, longest_input};
ghost use Rattle.vme_trace.specs.Streams.{Reading};
ghost use Rattle.vme_bind.specs.Binding.{BoundLines};
ghost use Rattle.vme_bind.specs.declared.fault.BindFault.{BindFault};
ghost use Rattle.vme_listing.specs.declared.row.Row.{Row};
ghost use Rattle.vme_listing.specs.declared.row.Version.{Version};
ghost use Rattle.vme_dump_input.specs.DumpBeginnings.{BeginsDump, HoldsDefinitions, MayBeRead};
ghost use Rattle.vme_confirm_command.specs.FoundRows.{IsAnswerByRows, IsAnswerToListing};
ghost use Rattle.vme_confirm_command.specs.RowsOfListing.{ListingGaveRows, IsOver};
ghost use Rattle.vme_stream.specs.declared.refusal.Refusal.{Refusal};

use crate::body::compare_with_rows;
use crate::listing_rows::{ListingRows, listing_input};
use std::alloc::Global;
use vme_bind::{BindFault, Binding};
use vme_cert::Answer;
use vme_dump_input::{BufferedInput, DumpAfterDefinitions, dump_input, read_definitions};
use vme_stream::{Message, Refusal, binding_from, tell_refusal, write_answer};
use vme_trace::{Sink, Source};

/// Says whether the listing is that of the recording that the binding makes of the dump, settled, i.e. deskewed, by
/// `skew`, in the listing's version. Writes the answer to `out`, or to `err` why there is none. Returns the exit
/// status, and the source that the listing was read from. The status is 0 if confirmed, 1 if not, 3 where an input is
/// refused, 4 for want of memory, 5 where the answer can't be written.
///
/// The binding is read, then the dump, and beside it the listing, each row as the recording comes to it. The answer is
/// written once both are read. That the binding can't be used on the dump is reported only if neither has a fault. The
/// listing is compared by the definitions alone, and not by the monitors, the automata that judge a recording. A
/// failure of `err` is ignored.
pub fn confirm_with<B: Source, D: Source, L: Source + Drop, O: Sink, E: Sink>(
    alloc: Global,
    binding: &mut B,
    dump: &mut D,
    listing: L,
    skew: u64,
    out: &mut O,
    err: &mut E,
) -> (u8, L)
    ensures answer { Confirms skew
        (B.reading binding.old, B.reading binding.new) (D.reading dump.old, D.reading dump.new)
        (L.reading listing, L.reading result.1)
        (O.writing out.old, O.writing out.new) (E.writing err.old, E.writing err.new) result.0 }
    ensures unwritten { (result.0 ≡ 5) ↔ ((O.writing out.new).failures ≡ suc (O.writing out.old).failures) }

    // If the inputs are read whole, no write to `out` fails and memory suffices, the answer is exactly the defined one.
    ensures exact { ConfirmsExactly skew
        (B.reading binding.old, B.reading binding.new) (D.reading dump.old, D.reading dump.new)
        (L.reading listing, L.reading result.1)
        (O.writing out.old, O.writing out.new) (E.writing err.old, E.writing err.new) result.0 }
{
    answer(alloc, binding, dump, listing, skew, out, err)
}

/// Deskewed by 0, the recording that a binding makes of a dump is compared as it is. This is a law, and a call does
/// nothing.
pub fn unsettled_comparison()
    ensures { (b d : Option (List ℕ)) (given : Result Listed Refusal)
        → compared_settled 0 (binding_read b) (dump_read d) given ≡ compared (binding_read b) (dump_read d) given }
{}

/// Compares the listing, tells the result or why there is none, and returns the status of the process and the listing.
fn answer<B: Source, D: Source, L: Source + Drop, O: Sink, E: Sink>(
    alloc: Global,
    binding: &mut B,
    dump: &mut D,
    listing: L,
    skew: u64,
    out: &mut O,
    err: &mut E,
) -> (u8, L)
    ensures { Confirms skew
        (B.reading binding.old, B.reading binding.new) (D.reading dump.old, D.reading dump.new)
        (L.reading listing, L.reading result.1)
        (O.writing out.old, O.writing out.new) (E.writing err.old, E.writing err.new) result.0 }
{
    let (found, listing) = comparison(alloc, binding, dump, listing, skew);
    (tell(found, out, err), listing)
}

/// Writes an answer, or why there is none. Returns the exit status.
fn tell<O: Sink, E: Sink>(found: Result<Answer, Refusal>, out: &mut O, err: &mut E) -> u8
    ensures { Ends (confirmation_answer_by found)
        (O.writing out.old, O.writing out.new) (E.writing err.old, E.writing err.new) result }
{
    match found {
        Ok(found) => {
            let line = confirmation_line(found);
            write_answer(line.as_bytes(), confirmation_status(found), out, err)
        }
        Err(refusal) => tell_refusal(&refusal, err),
    }
}

/// Compares a listing with that of the recording that the binding makes of the dump, deskewed by `skew`.
fn comparison<B: Source, D: Source, L: Source + Drop>(
    alloc: Global,
    binding: &mut B,
    dump: &mut D,
    listing: L,
    skew: u64,
) -> (Result<Answer, Refusal>, L)
    ensures { (binding_bytes dump_bytes listing_bytes : Option (List ℕ)) × (given : Result Listed Refusal)
        × IsReading (B.reading binding.old) (B.reading binding.new) binding_bytes
        × IsReading (D.reading dump.old) (D.reading dump.new) dump_bytes
        × IsReading (L.reading listing) (L.reading result.1) listing_bytes
        × GivesRows (listing_text listing_bytes) given
        × GivesConfirmation result.0
        (compared_settled skew (binding_read binding_bytes) (dump_read dump_bytes) given) }
{
    match binding_from(alloc, binding) {
        Ok(bound) => comparison_bound(alloc, &bound, dump, listing, skew),
        Err(refusal) => (Err(refusal), listing),
    }
}

/// Compares the listing by a binding, and returns the result and the listing.
fn comparison_bound<D: Source, L: Source + Drop>(
    alloc: Global,
    bound: &Binding,
    dump: &mut D,
    listing: L,
    skew: u64,
) -> (Result<Answer, Refusal>, L)
    ensures { (dump_bytes listing_bytes : Option (List ℕ)) × (given : Result Listed Refusal)
        × IsReading (D.reading dump.old) (D.reading dump.new) dump_bytes
        × IsReading (L.reading listing) (L.reading result.1) listing_bytes
        × GivesRows (listing_text listing_bytes) given
        × GivesConfirmation result.0 (compared_settled skew (Ok bound.now) (dump_read dump_bytes) given) }
{
    let Ok(mut input) = dump_input(alloc) else {
        return (Err(Refusal::Memory), listing);
    };
    match read_definitions(alloc, bound, dump, &mut input) {
        Ok(begun) => compare_with_listing(alloc, dump, &mut input, begun, listing, skew),
        Err(refusal) => (Err(refusal), listing),
    }
}

/// Compares a listing with that of the recording that the binding makes of the dump, whose definitions were read.
fn compare_with_listing<D: Source, L: Source + Drop>(
    alloc: Global,
    dump: &mut D,
    input: &mut BufferedInput,
    begun: DumpAfterDefinitions,
    listing: L,
    skew: u64,
) -> (Result<Answer, Refusal>, L)
    requires begun { MayBeRead begun }
    requires held { HoldsDefinitions input.old begun }
    ensures { (bound : BoundLines) (old : Reading)
        → BeginsDump bound old (D.reading dump.old) input.old (Ok begun) → input.old.limit ≡ longest_input
        → (dump_bytes listing_bytes : Option (List ℕ)) × (given : Result Listed Refusal)
        × IsReading old (D.reading dump.new) dump_bytes
        × IsReading (L.reading listing) (L.reading result.1) listing_bytes
        × GivesRows (listing_text listing_bytes) given
        × GivesConfirmation result.0 (compared_settled skew (Ok bound) (dump_read dump_bytes) given) }
{
    let Ok(text) = listing_input(alloc) else {
        return (Err(Refusal::Memory), listing);
    };
    let rows = ListingRows::begin(listing, text);
    let version = rows.version();
    let (found, rows) = compare_with_rows(alloc, dump, input, begun, skew, version, rows);
    match found {
        Ok(found) => comparison_found(found, rows),
        Err(refusal) => (Err(refusal), rows.into_source()),
    }
}

/// The answer `found` by the rows of a listing, if the listing, once read to its end, has no fault; else that fault.
fn comparison_found<L: Source + Drop>(
    found: Result<Answer, BindFault>,
    rows: ListingRows<L>,
) -> (Result<Answer, Refusal>, L)
    ensures { (old : Reading) (version : Version) (given : List Row) (expected_rows : Result (List Row) BindFault)
        → ListingGaveRows old version (L.reading rows.source) rows.input rows.reader rows.fault given
        → IsAnswerByRows version expected_rows found given (IsOver rows.reader rows.fault)
        → IsAnswerToListing old version (L.reading result.1) expected_rows result.0 }
{
    let (ended, listing) = rows.finish();
    match ended {
        Ok(()) => match found {
            Ok(answer) => (Ok(answer), listing),
            Err(fault) => (Err(Refusal::BadBinding(fault)), listing),
        },
        Err(fault) => (Err(fault.refusal()), listing),
    }
}

/// The line that says whether a listing is confirmed.
fn confirmation_line(found: Answer) -> Message
    ensures { result ≡ line_of (confirmation_text found) }
{
    match found {
        Answer::Yes => Message::new().with(b"confirmed").with_line_feed(),
        Answer::No { row } => Message::new()
            .with(b"not confirmed at row ")
            .with_decimal(row as u64)
            .with_line_feed(),
    }
}

/// The exit status: 0 confirmed, 1 not.
fn confirmation_status(found: Answer) -> u8
    ensures { result ≡ confirmation_status found }
{
    match found {
        Answer::Yes => 0,
        Answer::No { .. } => 1,
    }
}

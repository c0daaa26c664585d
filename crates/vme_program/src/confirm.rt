//! The confirmation of a listing of the files that an order names.

ghost use Rattle.vme_program.specs.Recordings.{ConfirmsFiles, ConfirmsListing};

use crate::environment::Environment;
use crate::opening::{open_recording, refuse_input};
use std::alloc::Global;
use vme_confirm_command::confirm::confirm_with;
use vme_stream::Input;
use vme_trace::{Sink, Source};
use vme_words::ConfirmOrder;

/// Compares a listing with that of a recording, by the files that an order names: the binding is opened, then the dump,
/// and then the listing. The answer is the exit status.
#[inline(never)]
pub fn confirm_files<S: Environment, O: Sink, E: Sink>(
    alloc: Global,
    environment: &S,
    order: &ConfirmOrder,
    out: &mut O,
    err: &mut E,
) -> u8
    ensures { ConfirmsFiles (S.opens environment.now) order.now
        (O.writing out.old, O.writing out.new) (E.writing err.old, E.writing err.new) result }
{
    match open_recording(environment, &order.recording) {
        Ok((mut binding, mut dump)) => confirm_listing(
            alloc,
            environment,
            order,
            &mut binding,
            &mut dump,
            out,
            err,
        ),
        Err(input) => refuse_input(input, err),
    }
}

/// Opens the listing that an order names, and compares it, by a binding and a dump that are open.
#[inline(never)]
fn confirm_listing<S: Environment, B: Source, D: Source, O: Sink, E: Sink>(
    alloc: Global,
    environment: &S,
    order: &ConfirmOrder,
    binding: &mut B,
    dump: &mut D,
    out: &mut O,
    err: &mut E,
) -> u8
    ensures { ConfirmsListing (S.opens environment.now) order.now
        (B.reading binding.old, B.reading binding.new) (D.reading dump.old, D.reading dump.new)
        (O.writing out.old, O.writing out.new) (E.writing err.old, E.writing err.new) result }
{
    match environment.open_file(order.listing.as_str()) {
        Some(listing) => {
            let (status, _listing) = confirm_with(
                alloc, binding, dump, listing, order.skew, out, err,
            );
            status
        }
        None => refuse_input(Input::Listing, err),
    }
}

//! The annotated dump of the files that an order names.

ghost use Rattle.vme_program.specs.Recordings.{AnnotatesFiles};

use crate::environment::Environment;
use crate::opening::{open_recording, refuse_input};
use std::alloc::Global;
use vme_annotate::annotate;
use vme_trace::Sink;
use vme_words::AnnotateOrder;

/// Writes the dump of the files that an order (the parsed arguments) names, annotated with the listing of its
/// recording: the binding is opened, and then the dump. The answer is the exit status.
#[inline(never)]
pub fn annotate_files<S: Environment, O: Sink, E: Sink>(
    alloc: Global,
    environment: &S,
    order: &AnnotateOrder,
    out: &mut O,
    err: &mut E,
) -> u8
    ensures { AnnotatesFiles (S.opens environment.now) order.now
        (O.writing out.old, O.writing out.new) (E.writing err.old, E.writing err.new) result }
{
    match open_recording(environment, &order.recording) {
        Ok((mut binding, mut dump)) => {
            annotate(alloc, &mut binding, &mut dump, order.skew, out, err)
        }
        Err(input) => refuse_input(input, err),
    }
}

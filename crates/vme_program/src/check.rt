//! The check of the files that an order names.

ghost use Rattle.vme_program.specs.Recordings.{ChecksFiles};

use crate::environment::Environment;
use crate::opening::{open_recording, refuse_input};
use std::alloc::Global;
use std::thread::Threads;
use vme_commands::check::check;
use vme_trace::Sink;
use vme_words::CheckOrder;

/// Judges the recording of the files that an order names: the binding is opened, and then the dump. The
/// answer is the exit status.
#[inline(never)]
pub fn check_files<R: Threads + Sync, S: Environment, O: Sink, E: Sink>(
    rt: &R,
    alloc: Global,
    environment: &S,
    order: &CheckOrder,
    out: &mut O,
    err: &mut E,
) -> u8
    ensures { ChecksFiles (S.opens environment.now) order.now
        (O.writing out.old, O.writing out.new) (E.writing err.old, E.writing err.new) result }
{
    match open_recording(environment, &order.recording) {
        Ok((mut binding, mut dump)) => check(
            rt,
            alloc,
            &mut binding,
            &mut dump,
            order.options.block,
            order.options.workers,
            order.options.skew,
            out,
            err,
        ),
        Err(input) => refuse_input(input, err),
    }
}

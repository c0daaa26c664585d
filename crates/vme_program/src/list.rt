//! The listing of the files that an order names.

ghost use Rattle.vme_annotate.specs.Answers.{WritesTimes};
ghost use Rattle.vme_program.specs.Recordings.{ListsFiles, WritesRows};

use crate::environment::Environment;
use crate::opening::{open_recording, refuse_input};
use std::alloc::Global;
use std::thread::Threads;
use vme_annotate::list_times;
use vme_commands::list::list;
use vme_trace::{Sink, Source};
use vme_words::{JudgeOptions, ListOrder};

/// Lists the recording of the files that an order names: the binding is opened, and then the dump. The
/// answer is the exit status.
#[inline(never)]
pub fn list_files<R: Threads + Sync, S: Environment, O: Sink, E: Sink>(
    rt: &R,
    alloc: Global,
    environment: &S,
    order: &ListOrder,
    out: &mut O,
    err: &mut E,
) -> u8
    ensures { ListsFiles (S.opens environment.now) order.now
        (O.writing out.old, O.writing out.new) (E.writing err.old, E.writing err.new) result }
{
    match open_recording(environment, &order.recording) {
        Ok((mut binding, mut dump)) => {
            write_rows(rt, alloc, order, &mut binding, &mut dump, out, err)
        }
        Err(input) => refuse_input(input, err),
    }
}

/// Lists the recording of files that are open, with the times of the instants. Its stack is used only where times are
/// asked for.
#[inline(never)]
fn write_timed_rows<B: Source, D: Source, O: Sink, E: Sink>(
    alloc: Global,
    options: &JudgeOptions,
    binding: &mut B,
    dump: &mut D,
    out: &mut O,
    err: &mut E,
) -> u8
    ensures { WritesTimes options.now.skew
        (B.reading binding.old, B.reading binding.new) (D.reading dump.old, D.reading dump.new) options.now.block
        (O.writing out.old, O.writing out.new) (E.writing err.old, E.writing err.new) result }
{
    list_times(alloc, binding, dump, options.block, options.skew, out, err)
}

/// Lists the recording of files that are open, with the times of the instants if the order asks for them.
#[inline(never)]
fn write_rows<R: Threads + Sync, B: Source, D: Source, O: Sink, E: Sink>(
    rt: &R,
    alloc: Global,
    order: &ListOrder,
    binding: &mut B,
    dump: &mut D,
    out: &mut O,
    err: &mut E,
) -> u8
    ensures { WritesRows order.now.has_times order.now.options.skew
        (B.reading binding.old, B.reading binding.new) (D.reading dump.old, D.reading dump.new)
        order.now.options.block
        (O.writing out.old, O.writing out.new) (E.writing err.old, E.writing err.new) result }
{
    let options = &order.options;
    if order.has_times {
        return write_timed_rows(alloc, options, binding, dump, out, err);
    }
    list(
        rt,
        alloc,
        binding,
        dump,
        options.block,
        options.workers,
        options.skew,
        out,
        err,
    )
}

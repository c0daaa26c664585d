//! The check of a dump on standard input.

ghost use Rattle.vme_program.specs.Inputs.{ChecksInput, SaysFirst};

use crate::environment::Environment;
use std::alloc::Global;
use std::thread::Threads;
use vme_commands::check::check;
use vme_commands::{BLOCK, BUILT_IN, READS_TERMINAL};
use vme_stream::{Bytes, say};
use vme_trace::Sink;

/// Judges the dump on standard input by the built-in binding. Where standard input is a terminal, it says first that it
/// reads there. The answer is the exit status.
#[inline(never)]
pub fn check_input<R: Threads + Sync, S: Environment, O: Sink, E: Sink>(
    rt: &R,
    alloc: Global,
    environment: &S,
    out: &mut O,
    err: &mut E,
) -> u8
    ensures { ChecksInput (S.gives_input environment.now) (S.on_terminal environment.now)
        (O.writing out.old, O.writing out.new) (E.writing err.old, E.writing err.new) result }
{
    say_first(environment.is_terminal(), err);
    let mut input = environment.input();
    check(
        rt,
        alloc,
        &mut Bytes::new(BUILT_IN),
        &mut input,
        BLOCK,
        1,
        0,
        out,
        err,
    )
}

/// Says that a dump is read from standard input, where that is a terminal.
fn say_first<E: Sink>(is_terminal: bool, err: &mut E)
    ensures { SaysFirst is_terminal (E.writing err.old) (E.writing err.new) }
{
    if is_terminal {
        say(err, READS_TERMINAL);
    }
}

//! The variables of the dump that an order names.

ghost use Rattle.vme_program.specs.Texts.{TellsFile};

use crate::environment::Environment;
use crate::opening::refuse_input;
use std::alloc::Global;
use vme_stream::Input;
use vme_text_commands::tell_variables;
use vme_trace::Sink;
use vme_words::VariablesOrder;

/// Writes the variables of the dump that an order names. The answer is the exit status.
#[inline(never)]
pub fn variables_file<S: Environment, O: Sink, E: Sink>(
    alloc: Global,
    environment: &S,
    order: &VariablesOrder,
    out: &mut O,
    err: &mut E,
) -> u8
    ensures { TellsFile (S.opens environment.now) order.now
        (O.writing out.old, O.writing out.new) (E.writing err.old, E.writing err.new) result }
{
    match environment.open_file(order.dump.as_str()) {
        Some(mut dump) => tell_variables(alloc, &mut dump, order.dump.as_bytes(), out, err),
        None => refuse_input(Input::Dump, err),
    }
}

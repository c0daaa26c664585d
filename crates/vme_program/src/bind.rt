//! A binding for the dump that an order names.

ghost use Rattle.vme_program.specs.Bindings.{BindsFile, IsScopeOf};

use crate::environment::Environment;
use crate::opening::refuse_input;
use std::alloc::Global;
use vme_stream::Input;
use vme_text_commands::bind::bind;
use vme_trace::Sink;
use vme_words::BindOrder;

/// Writes a binding for the dump that an order names, with the slots and the scope that it gives. Returns the exit
/// status.
#[inline(never)]
pub fn bind_file<S: Environment, O: Sink, E: Sink>(
    alloc: Global,
    environment: &S,
    order: &BindOrder,
    out: &mut O,
    err: &mut E,
) -> u8
    ensures { BindsFile (S.opens environment.now) order.now
        (O.writing out.old, O.writing out.new) (E.writing err.old, E.writing err.new) result }
{
    match environment.open_file(order.dump.as_str()) {
        Some(mut dump) => {
            let name = order.dump.as_bytes();
            bind(
                alloc,
                &mut dump,
                name,
                order.slots,
                scope_of(order),
                out,
                err,
            )
        }
        None => refuse_input(Input::Dump, err),
    }
}

/// The scope that an order names, if it names one.
fn scope_of(order: &BindOrder) -> Option<&[u8]>
    ensures { IsScopeOf order.now result }
{
    match &order.scope {
        Some(path) => Some(path.as_bytes()),
        None => None,
    }
}

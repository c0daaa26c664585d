//! The kind of refusal that an order names, or each of them.

ghost use Rattle.std.specs.Prelude.{◌≡◌, IfErr, IfOk, IsErr, OnErr};
ghost use Rattle.clap.specs.declared.error.kind.ErrorKind.TheVariants.{InvalidSubcommand};
ghost use Rattle.vme_program.specs.Texts.{IsKindOf, NamesNoKind, TellsFaults};
ghost use Rattle.vme_words.specs.OrderFaults.{HasUsageKind, IsOfWords};

use std::alloc::Global;
use vme_faults::RefusalKind;
use vme_text_commands::tell_faults;
use vme_trace::Sink;
use vme_words::{FaultsOrder, OrderFault, Task, task_fault};

/// Says what the kind of refusal that an order names means, or each kind, if it names none. Returns the exit status, or
/// that there is no such kind.
#[inline(never)]
pub fn faults_named<O: Sink, E: Sink>(
    alloc: Global,
    order: &FaultsOrder,
    out: &mut O,
    err: &mut E,
) -> Result<u8, OrderFault>
    ensures told { IfOk result (λ status. TellsFaults order.now
        (O.writing out.old, O.writing out.new) (E.writing err.old, E.writing err.new) status) }
    ensures faulty { OnErr result (NamesNoKind order.now) }
    ensures refused { NamesNoKind order.now → IsErr result }
    ensures of_words { IfErr result IsOfWords }
    ensures usage { IfErr result (HasUsageKind InvalidSubcommand) }
    ensures out_stays { OnErr result (O.writing out.new ≡ O.writing out.old) }
    ensures err_stays { OnErr result (E.writing err.new ≡ E.writing err.old) }
{
    match kind_of(alloc, order) {
        Ok(only) => Ok(tell_faults(alloc, only, out, err)),
        Err(fault) => Err(fault),
    }
}

/// The kind of refusal that an order names, if it names one.
fn kind_of(alloc: Global, order: &FaultsOrder) -> Result<Option<RefusalKind>, OrderFault>
    ensures kind { IfOk result (IsKindOf order.now) }
    ensures faulty { OnErr result (NamesNoKind order.now) }
    ensures of_words { IfErr result IsOfWords }
    ensures usage { IfErr result (HasUsageKind InvalidSubcommand) }
{
    let Some(name) = &order.kind else {
        return Ok(None);
    };
    match RefusalKind::from_name(name.as_bytes()) {
        Some(kind) => Ok(Some(kind)),
        None => Err(task_fault(alloc, Task::Faults, "there is no such refusal")),
    }
}

//! A fault of a dump, or of the binding for it, that isn't want of memory.

ghost use Rattle.std.specs.Prelude.{◌≡◌, false};
ghost use Rattle.vme_bind.specs.Wants.{is_memory_fault};

use crate::fault::{BindFaultKind, CaptureFault};
use vcd_read::FaultKind;

/// Why a dump has no recording. It isn't want of memory.
#[derive(Drop)]
pub struct InputFault {
    /// The fault.
    pub fault: CaptureFault,
    ghost not_want: { is_memory_fault fault ≡ false },
}

/// Whether `fault` is want of memory.
pub(crate) fn is_memory_fault(fault: &CaptureFault) -> bool
    ensures { result ≡ is_memory_fault fault.now }
{
    match fault {
        CaptureFault::Dump(fault) => matches!(fault.kind, FaultKind::Memory),
        CaptureFault::Binding(fault) => matches!(fault.kind, BindFaultKind::Memory),
    }
}

//! Where reading a body stops.

ghost use Rattle.std.specs.Prelude.{◌≡◌};
ghost use Rattle.vcd_read.specs.declared.fault.FaultKind.TheVariants.{Memory};

use crate::fault::{FaultKind, VcdFault};

/// Where reading a body stopped.
#[derive(Drop)]
pub struct Stopped<T> {
    /// The first fault of the body.
    pub fault: VcdFault,
    /// The visitor, which took what is before the fault. If memory ran out, nothing is said of it.
    pub visitor: T,
    /// The last time before the fault, in the unit of the dump's `$timescale`, or 0 if there is none. If memory ran
    /// out, nothing is said of it.
    pub time: u64,
}

impl<T> Stopped<T> {
    /// Memory ran out.
    pub(crate) fn out_of_memory(visitor: T, time: u64) -> Stopped<T>
        ensures { result.fault ≡ record { line = 0; kind = Memory } }
    {
        Stopped {
            fault: VcdFault {
                line: 0,
                kind: FaultKind::Memory,
            },
            visitor,
            time,
        }
    }
}

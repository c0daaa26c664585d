//! The memory of the handshake, i.e. the state of its automaton between two steps.

ghost use Rattle.std.specs.Prelude.{◌≡◌, ◌<◌};
ghost use Rattle.vme_dtb.specs.MemoryNumbers.{bit};

use crate::cycle::CyclePhase;
use vme_monitor::machine::{Enumerable, Small};
use vme_monitor::tracking::TransferPhase;

/// What the levels before a step don't show of the handshake.
#[derive(Clone, Copy, PartialEq, Eq, Debug)]
pub struct HandshakeMemory {
    /// The phase of the transfer.
    pub transfer: TransferPhase,
    /// The cycle that started last.
    pub cycle: CyclePhase,
    /// Whether DTACK* is low, and a strobe has risen since it fell.
    pub dtack_may_rise: bool,
    /// Whether BERR* is low, and a strobe has risen since it fell.
    pub berr_may_rise: bool,
}

/// 1 for `true`, else 0.
fn bit_of(truth: bool) -> usize
    ensures bit { result ≡ bit truth }
    ensures below { result < 2 }
{
    if truth { 1 } else { 0 }
}

impl Enumerable for HandshakeMemory {
    ghost use Rattle.vme_dtb.specs.MemoryNumbers.{memory_found, memory_nth, memory_place, memory_placed};

    ghost COUNT = { 144 };

    ghost place_of = { memory_place };

    ghost nth_of = { memory_nth };

    ghost placed = { memory_placed };

    ghost found = { memory_found };

    const COUNT: usize = 144;

    fn place(self) -> usize {
        36 * self.transfer.place()
            + 4 * self.cycle.place()
            + 2 * bit_of(self.dtack_may_rise)
            + bit_of(self.berr_may_rise)
    }

    fn nth(k: usize) -> HandshakeMemory {
        HandshakeMemory {
            transfer: TransferPhase::nth(k / 36),
            cycle: CyclePhase::nth(k / 4 % 9),
            dtack_may_rise: k / 2 % 2 == 1,
            berr_may_rise: k % 2 == 1,
        }
    }
}

impl Small for HandshakeMemory {
    ghost use Rattle.vme_dtb.specs.MemoryNumbers.{memories_few};

    ghost small = { memories_few };
}

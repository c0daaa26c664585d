//! A visitor of the changes of a body as they are read.

ghost use Rattle.std.specs.Prelude.{◌≡◌, ℕ, ◌<◌, ◌≤◌, List, length, OnOk};
ghost use Rattle.vcd_read.specs.declared.dump.Bit.{Bit};
ghost use Rattle.vcd_read.specs.Numbers.{extended};

use std::alloc::{AllocError, Global};

/// A visitor that takes the changes of a body and the ends of its instants, in the order of the text.
pub trait ChangeVisitor: Drop {
    /// What a visitor can make of changes and instants.
    ghost Taken: { Type 0 };

    /// What it made of those so far.
    ghost taken: { Self → Self.Taken };

    /// What it makes of one more change at the current instant: a net, and its bits.
    ghost with_change: { Self.Taken → ℕ → List Bit → Self.Taken };

    /// What it makes of the end of the current instant, by its time.
    ghost with_instant: { Self.Taken → ℕ → Self.Taken };

    /// Takes a change: a net, how many bits it has, and the digits of its value, which may be fewer. It fails if memory
    /// runs out; what the visitor made by then isn't said.
    fn change(
        &mut self,
        alloc: Global,
        net: u32,
        size: u32,
        digits: &[u8],
    ) -> Result<(), AllocError>
        requires some { 0 < length digits.now }
        requires fits { length digits.now ≤ size }
        ensures { OnOk result (Self.taken self.new
            ≡ Self.with_change (Self.taken self.old) net (extended size digits.now)) };

    /// Ends the current instant, which is at `time`, in the time units of the dump. It fails if memory runs out; what
    /// the visitor made by then isn't said.
    fn end_instant(&mut self, alloc: Global, time: u64) -> Result<(), AllocError>
        ensures { OnOk result (Self.taken self.new ≡ Self.with_instant (Self.taken self.old) time) };
}

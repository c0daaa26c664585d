//! The current time of a body, and the visitor of its changes.

ghost use Rattle.std.specs.Prelude.{◌≡◌, ◌<◌, ◌≤◌, length, false, OnOk, IfOk, IfErr};
ghost use Rattle.vcd_read.specs.Numbers.{extended};
ghost use Rattle.vcd_read.specs.declared.fault.FaultKind.TheVariants.{Memory};

use crate::change_visitor::ChangeVisitor;
use crate::stopped::Stopped;
use std::alloc::{AllocError, Global};

/// The current time.
#[derive(Clone, Copy)]
pub(crate) struct Clock {
    /// In the unit of the dump's `$timescale`.
    pub time: u64,
    /// Whether there is an instant at this time.
    pub has_instant: bool,
}

/// The current time, and the visitor of the changes.
#[derive(Drop)]
pub(crate) struct TimedVisitor<T: ChangeVisitor> {
    /// The visitor of the changes.
    pub visitor: T,
    /// The current time.
    pub clock: Clock,
}

impl<T: ChangeVisitor> TimedVisitor<T> {
    ghost use Rattle.vcd_read.specs.BodyFold.{advanced, changed, ended, progress_of};

    /// Time 0, at which there is no instant yet.
    pub fn new(visitor: T) -> TimedVisitor<T>
        ensures visitor { T.taken result.visitor ≡ T.taken visitor }
        ensures clock { result.clock ≡ record { time = 0; has_instant = false } }
    {
        TimedVisitor {
            visitor,
            clock: Clock {
                time: 0,
                has_instant: false,
            },
        }
    }

    /// Advances to `time`. If it isn't the current time, an instant at the current time is ended. It fails if memory
    /// runs out, and then nothing is said of the visitor and the time.
    #[inline(always)]
    pub fn advance(&mut self, alloc: Global, time: u64) -> Result<(), AllocError>
        ensures { OnOk result (progress_of T.taken self.new
            ≡ advanced T.with_instant (progress_of T.taken self.old) time) }
    {
        if self.clock.has_instant && time != self.clock.time {
            self.visitor.end_instant(alloc, self.clock.time)?;
        }
        self.clock.time = time;
        self.clock.has_instant = true;
        Ok(())
    }

    /// Takes a change at the current time. It fails if memory runs out, and then nothing is said of the visitor.
    #[inline(always)]
    pub fn change(
        &mut self,
        alloc: Global,
        net: u32,
        size: u32,
        digits: &[u8],
    ) -> Result<(), AllocError>
        requires some { 0 < length digits.now }
        requires fits { length digits.now ≤ size }
        ensures { OnOk result (progress_of T.taken self.new
            ≡ changed T.with_change (progress_of T.taken self.old) net (extended size digits.now)) }
    {
        self.visitor.change(alloc, net, size, digits)?;
        self.clock.has_instant = true;
        Ok(())
    }

    /// Ends the instant at the current time, if there is one, and returns the visitor. It fails if memory runs out.
    pub fn finish(mut self, alloc: Global) -> Result<T, Stopped<T>>
        ensures visitor { IfOk result (λ visitor. T.taken visitor ≡ ended T.with_instant (progress_of T.taken self)) }
        ensures memory { IfErr result (λ stopped. stopped.fault ≡ record { line = 0; kind = Memory }) }
    {
        if !self.clock.has_instant {
            return Ok(self.visitor);
        }
        match self.visitor.end_instant(alloc, self.clock.time) {
            Ok(()) => Ok(self.visitor),
            Err(_) => Err(Stopped::out_of_memory(self.visitor, self.clock.time)),
        }
    }
}

//! The times of a recording's steps, kept as it is made.

ghost use Rattle.std.specs.Prelude.{◌≡◌, [], IfSome};
ghost use Rattle.vme_annotate.specs.TimedListings.{times_of};

use std::alloc::{AllocError, Global};
use std::marker::Model;
use vme_trace::{Lines, Step, StepVisitor};

/// Keeps the times of the steps of a recording, and passes the recording on to `taker`.
#[derive(Drop)]
pub(crate) struct StepTimes<F: StepVisitor> {
    times: Vec<u64>,
    /// The visitor that the recording is passed on to.
    taker: F,
    /// Whether there was memory for all.
    is_whole: bool,
}

impl<F: StepVisitor> Model for StepTimes<F> {
    ghost use Rattle.std.specs.Prelude.{◌≡◌, true};
    ghost use Rattle.vme_trace.specs.Trace.{Trace};
    ghost use Rattle.vme_annotate.specs.TimedListings.{times_of};

    ghost Value = { Trace };

    ghost view = { λ v. F.recorded v.taker };

    ghost invariant = { λ v. v.is_whole ≡ true → v.times.items ≡ times_of (F.recorded v.taker).steps };
}

impl<F: StepVisitor> StepTimes<F> {
    /// Begins before the first step, and passes the opening on to `taker`.
    pub fn new(alloc: Global, opening: &Lines, taker: F) -> StepTimes<F>
        ensures { result ≡ record { opening = opening.now; steps = [] } }
    {
        let mut taker = taker;
        taker.open(opening);
        StepTimes {
            times: Vec::new(alloc),
            taker,
            is_whole: true,
        }
    }

    /// The visitor that the recording was passed on to, and the times of its steps, if there was
    /// memory for all.
    pub fn into_parts(self) -> Option<(F, Vec<u64>)>
        ensures taker { IfSome result (λ parts. F.recorded parts.0 ≡ self) }
        ensures times { IfSome result (λ parts. parts.1.items ≡ times_of self.steps) }
    {
        let StepTimes {
            times,
            taker,
            is_whole,
        } = self;
        if is_whole { Some((taker, times)) } else { None }
    }
}

impl<F: StepVisitor> StepVisitor for StepTimes<F> {
    ghost recorded = { λ v. v };

    fn open(&mut self, opening: &Lines) {
        self.times.clear();
        self.taker.open(opening);
        self.is_whole = true;
    }

    fn step(&mut self, alloc: Global, step: Step) -> Result<(), AllocError> {
        let was_whole = self.is_whole;
        let time = step.time;
        self.is_whole = false;
        self.times.reserve(1)?;
        self.taker.step(alloc, step)?;
        self.times.push_reserved(time);
        self.is_whole = was_whole;
        Ok(())
    }
}

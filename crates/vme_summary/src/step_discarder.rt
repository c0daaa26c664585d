//! A visitor that takes a recording and keeps none of its steps.

ghost use Rattle.std.specs.Prelude.{◌≡◌, []};

use crate::ghost_steps::GhostSteps;
use std::alloc::{AllocError, Global};
use std::marker::Model;
use vme_trace::{Lines, Step, StepVisitor};

/// Takes a recording and keeps none of its steps: for a caller that needs only what reading it leaves, such as the last
/// levels.
#[derive(Drop)]
pub struct StepDiscarder {
    opening: Lines,
    taken: GhostSteps,
}

impl Model for StepDiscarder {
    ghost use Rattle.vme_trace.specs.Trace.{Trace};

    ghost Value = { Trace };

    ghost view = { λ u. record { opening = u.opening; steps = u.taken.items } };
}

impl StepDiscarder {
    /// A visitor that no steps have come to.
    pub fn new(opening: &Lines) -> StepDiscarder
        ensures { result ≡ record { opening = opening.now; steps = [] } }
    {
        StepDiscarder {
            opening: *opening,
            taken: GhostSteps::new(),
        }
    }
}

impl StepVisitor for StepDiscarder {
    ghost recorded = { λ trace. trace };

    fn open(&mut self, opening: &Lines) {
        self.opening = *opening;
        self.taken = GhostSteps::new();
    }

    #[inline(always)]
    fn step(&mut self, alloc: Global, step: Step) -> Result<(), AllocError> {
        let _ = alloc;
        self.taken = self.taken.and(&step);
        Ok(())
    }
}

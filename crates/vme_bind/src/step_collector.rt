//! A recording that is kept as it is made.

ghost use Rattle.std.specs.Prelude.{◌≡◌, []};

use std::alloc::{AllocError, Global};
use vme_trace::{Lines, Step, StepVisitor};

/// A visitor that keeps the opening and the steps of a recording.
#[derive(Drop)]
pub struct StepCollector {
    /// The levels before the first step.
    pub opening: Lines,
    /// The steps so far, in their order.
    pub steps: Vec<Step>,
}

impl StepCollector {
    /// A collector that has no step.
    pub fn new(alloc: Global, opening: &Lines) -> StepCollector
        ensures opening { result.opening ≡ opening.now }
        ensures none { result.steps.items ≡ [] }
    {
        StepCollector {
            opening: *opening,
            steps: Vec::new(alloc),
        }
    }
}

impl StepVisitor for StepCollector {
    ghost recorded = { λ kept. record { opening = kept.opening; steps = kept.steps.items } };

    fn open(&mut self, opening: &Lines) {
        self.opening = *opening;
        self.steps.clear();
    }

    fn step(&mut self, alloc: Global, step: Step) -> Result<(), AllocError> {
        let _ = alloc;
        self.steps.push(step)?;
        Ok(())
    }
}

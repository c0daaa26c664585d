//! What takes a recording as it is made.

ghost use Rattle.std.specs.Prelude.{◌≡◌, [], ◌∷◌, OnOk};
ghost use Rattle.vme_trace.specs.Followed.{with_steps};
ghost use Rattle.vme_trace.specs.Trace.{Trace};

use crate::lines::Lines;
use crate::step::Step;
use std::alloc::{AllocError, Global};

/// What takes a recording as it is made: its opening, and then one step after the other.
pub trait StepVisitor: Drop {
    /// The recording so far.
    ghost recorded: { Self → Trace };

    /// Takes the levels before the first step.
    fn open(&mut self, opening: &Lines)
        ensures { recorded self.new ≡ record { opening = opening.now; steps = [] } };

    /// Takes the step that follows. It fails if memory runs out; what is recorded then isn't said.
    fn step(&mut self, alloc: Global, step: Step) -> Result<(), AllocError>
        ensures { OnOk result (recorded self.new ≡ with_steps (recorded self.old) (step ∷ [])) };
}

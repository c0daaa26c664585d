//! The steps that were taken, which proofs alone read.

ghost use Rattle.std.specs.Prelude.{◌≡◌, List, [], ◌∷◌, ◌++◌};
ghost use Rattle.std.specs.Borrow.{ftrue};
ghost use Rattle.vme_trace.specs.declared.step.Step.{Step};

use std::marker::Model;
use vme_trace::Step;

/// Steps, one after the other. Only clauses read them; the program holds nothing of them.
#[derive(Drop)]
pub struct GhostSteps {
    pub ghost items: { List Step },
}

impl Model for GhostSteps {
    ghost also_owns = { λ _. ftrue };
}

// It owns nothing, and so it may go to another thread.
unsafe impl Send for GhostSteps {}

impl GhostSteps {
    /// No steps.
    pub fn new() -> GhostSteps
        ensures { result.items ≡ [] }
    {
        GhostSteps {}
    }

    /// The steps so far, and then `step`.
    pub fn and(&self, step: &Step) -> GhostSteps
        ensures { result.items ≡ self.now.items ++ step.now ∷ [] }
    {
        GhostSteps {}
    }

    /// The steps of a slice.
    pub fn of(steps: &[Step]) -> GhostSteps
        ensures { result.items ≡ steps.now }
    {
        let mut taken = GhostSteps::new();
        for step in steps {
            taken = taken.and(step);
        }
        taken
    }

    /// The steps so far, and then those of `more`.
    pub fn and_all(&self, more: &GhostSteps) -> GhostSteps
        ensures { result.items ≡ self.now.items ++ more.now.items }
    {
        GhostSteps {}
    }
}

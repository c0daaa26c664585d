//! The steps of a recording that are kept: the last ones, up to its end or up to some instant.

ghost use Rattle.std.specs.Prelude.{◌≡◌, ◌+◌, ◌-◌, ◌∷◌, ◌++◌, ◌<◌, ◌≤◌, [], IfOk, List, OnOk, length};
ghost use Rattle.vme_trace.specs.Levels.{Levels};
ghost use Rattle.vme_trace.specs.Trace.{Trace, time_at};
ghost use Rattle.vme_trace.specs.declared.step.Step.{Step as StepOf};
ghost use Rattle.vme_account.specs.StoredSteps.{AreStored};
ghost use Rattle.vme_account.specs.RecentSteps.{levels_of};

use crate::recent_steps::RecentSteps;
use std::alloc::{AllocError, Global};
use vme_trace::{Lines, Step};

/// The last steps up to some instant.
#[derive(Drop)]
pub(crate) struct StoredSteps {
    recent: RecentSteps,
    /// The instant up to which they are kept.
    end: u32,
    /// The number of steps so far.
    steps: u32,
}

impl StoredSteps {
    /// The state before the first step.
    pub fn new(alloc: Global, opening: &Lines) -> StoredSteps
        ensures { AreStored opening.now [] result }
    {
        StoredSteps {
            recent: RecentSteps::new(alloc, opening),
            end: 0,
            steps: 0,
        }
    }

    /// The number of steps so far.
    pub fn steps(&self) -> u32
        ensures { result ≡ self.now.steps }
    {
        self.steps
    }

    /// Takes the next step, and keeps it if `is_wanted` and all steps before it were kept. The only error is want of
    /// memory.
    pub fn take(&mut self, step: Step, is_wanted: bool) -> Result<(), AllocError>
        requires { (o : Levels) × (x : List StepOf) × AreStored o x self.old × (length x < 67108864) }
        ensures { OnOk result ((o : Levels) (x : List StepOf) → AreStored o x self.old
            → AreStored o (x ++ step ∷ []) self.new) }
    {
        if is_wanted && self.end == self.steps {
            self.keep(step)
        } else {
            self.steps += 1;
            Ok(())
        }
    }

    /// Keeps the next step, where all steps before it were kept.
    fn keep(&mut self, step: Step) -> Result<(), AllocError>
        requires kept { (o : Levels) × (x : List StepOf) × AreStored o x self.old × (length x < 67108864) }
        requires all { self.old.end ≡ self.old.steps }
        ensures { OnOk result ((o : Levels) (x : List StepOf) → AreStored o x self.old
            → AreStored o (x ++ step ∷ []) self.new) }
    {
        self.recent.push(step)?;
        self.steps += 1;
        self.end = self.steps;
        Ok(())
    }

    /// The first instant whose levels are known.
    pub fn first(&self) -> u32
        ensures { result ≡ self.now.recent.first }
    {
        self.recent.first()
    }

    /// The last instant whose levels are known.
    pub fn end(&self) -> u32
        ensures { result ≡ self.now.end }
    {
        self.end
    }

    /// The levels at the instants from `first` to `last`, both included. It fails if memory runs out.
    pub fn levels_from(
        &self,
        alloc: Global,
        first: u32,
        last: u32,
    ) -> Result<Vec<Lines>, AllocError>
        requires { first ≤ last }
        ensures { (t : Trace) → AreStored t.opening t.steps self.now → self.now.recent.first ≤ first
            → last ≤ self.now.end
            → IfOk result (λ levels. levels.items ≡ levels_of t first (last - first + 1)) }
    {
        if self.recent.first() <= first {
            self.recent.levels_from(alloc, first, last)
        } else {
            Ok(Vec::new(alloc))
        }
    }

    /// The time of an instant.
    pub fn time_at(&self, instant: u32) -> u64
        requires { self.now.recent.first ≤ instant }
        ensures { (t : Trace) → AreStored t.opening t.steps self.now → instant ≤ self.now.end
            → result ≡ time_at t instant }
    {
        self.recent.time_at(instant)
    }
}

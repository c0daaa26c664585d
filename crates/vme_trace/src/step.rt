//! The steps of a recording, and the changes of a step.

ghost use Rattle.std.specs.Prelude.{◌≡◌, IfOk};

use crate::level::Level;
use crate::line::Line;
use smallvec::SmallVec;
use std::alloc::{AllocError, Global};
use std::marker::Model;

/// The level that a line gets.
#[derive(Clone, Copy, Debug, Default, PartialEq, Eq)]
pub struct Change {
    /// The line that changes.
    pub line: Line,
    /// The level that it has from then on.
    pub level: Level,
}

/// The changes of one step, as a list: up to eight of them take no memory of their own.
#[derive(Drop)]
pub struct Changes {
    changes: SmallVec<Change, 8>,
}

impl Model for Changes {
    ghost use Rattle.std.specs.Prelude.{List};
    ghost use Rattle.vme_trace.specs.declared.step.Change.{Change};

    ghost Value = { List Change };

    ghost view = { λ a. a.changes.items };
}

impl Changes {
    /// The changes in a small vector.
    pub fn new(changes: SmallVec<Change, 8>) -> Changes
        ensures { result ≡ changes.items }
    {
        Changes { changes }
    }

    /// The changes, in their order.
    pub fn as_slice(&self) -> &[Change]
        ensures { result.now ≡ self.now }
    {
        self.changes.as_slice()
    }

    /// The small vector of the changes.
    pub fn into_inner(self) -> SmallVec<Change, 8>
        ensures { result.items ≡ self }
    {
        let Changes { changes } = self;
        changes
    }

    /// The same changes again. The only error is want of memory.
    pub fn copy(&self, alloc: Global) -> Result<Changes, AllocError>
        ensures { IfOk result (λ changes. changes ≡ self.now) }
    {
        Ok(Changes::new(SmallVec::from_slice(alloc, self.as_slice())?))
    }
}

/// The changes of lines at one time.
#[derive(Drop)]
pub struct Step {
    /// When: the time, in the unit of the recording.
    pub time: u64,
    /// Which lines change, in the order of their numbers, and to which levels.
    pub changes: Changes,
}

impl Step {
    /// The same step again. The only error is want of memory.
    pub fn copy(&self, alloc: Global) -> Result<Step, AllocError>
        ensures { IfOk result (λ step. step ≡ self.now) }
    {
        Ok(Step {
            time: self.time,
            changes: self.changes.copy(alloc)?,
        })
    }
}

/// A list of steps.
#[derive(Drop)]
pub struct Steps {
    steps: Vec<Step>,
}

impl Model for Steps {
    ghost use Rattle.std.specs.Prelude.{List};
    ghost use Rattle.vme_trace.specs.declared.step.Step.{Step};

    ghost Value = { List Step };

    ghost view = { λ a. a.steps.items };
}

impl Steps {
    /// The steps in a vector.
    pub fn new(steps: Vec<Step>) -> Steps
        ensures { result ≡ steps.items }
    {
        Steps { steps }
    }

    /// The steps, in their order.
    pub fn as_slice(&self) -> &[Step]
        ensures { result.now ≡ self.now }
    {
        self.steps.as_slice()
    }

    /// The vector of the steps.
    pub fn into_inner(self) -> Vec<Step>
        ensures { result.items ≡ self }
    {
        let Steps { steps } = self;
        steps
    }
}

//! The numbered blocks of a recording.

ghost use Rattle.std.specs.Prelude.{◌≡◌, ℕ, Option, MatchResult, IfOk, OnOk};
ghost use Rattle.vme_trace.specs.Trace.{Trace, levels_after};
ghost use Rattle.vme_trace.specs.WellFormed.{malformed_step, are_changes, may_follow};

use crate::lines::Lines;
use crate::step::{Change, Step, Steps};
use std::alloc::{AllocError, Global};

/// The first step that may not be where it is, counted from 0.
#[derive(Clone, Copy, Debug, PartialEq, Eq)]
pub struct Malformed {
    /// The number of the step, from 0.
    pub step: usize,
}

/// A numbered part of a recording.
#[derive(Drop)]
pub struct Block {
    /// Its place among the blocks of a recording, from 0.
    pub number: u32,
    /// The levels before its first step.
    pub opening: Lines,
    /// Its steps.
    pub steps: Steps,
}

/// Whether the changes name lines that exist, in the order of their numbers, and each gives its line another level than
/// it has in `lines`.
#[tactic(auto, unfolding(crate::specs::WellFormed::are_changes))]
fn are_changes_of(lines: &Lines, changes: &[Change]) -> bool
    ensures { result ≡ are_changes lines.now 0 changes.now }
{
    let mut lowest: u8 = 0;
    for change in changes {
        let line = change.line;
        if line.number() < lowest || !lines.has(line) || lines.level(line).is_same(change.level) {
            return false;
        }
        lowest = line.number() + 1;
    }
    true
}

/// Whether `step` may follow `n` other steps, which left the levels `lines` and the time `time`.
fn may_stand(lines: &Lines, n: usize, time: u64, step: &Step) -> bool
    ensures { result ≡ may_follow lines.now n time step.now }
{
    let changes = step.changes.as_slice();
    (n == 0 || time < step.time) && !changes.is_empty() && are_changes_of(lines, changes)
}

impl Block {
    ghost use Rattle.vme_trace.specs.Block.{trace_of};

    /// Whether the steps follow the opening: the times ascend, and each step changes the level of some lines
    /// that exist, named in their order. If not, the first step for which that fails.
    pub fn check(&self) -> Result<(), Malformed>
        ensures { MatchResult result (λ _. malformed_step (trace_of self.now) ≡ None)
            (λ e. malformed_step (trace_of self.now) ≡ Some e.step) }
    {
        check_steps(&self.opening, self.steps.as_slice())
    }

    /// The same block again. The only error is want of memory.
    pub fn copy(&self, alloc: Global) -> Result<Block, AllocError>
        ensures { IfOk result (λ block. block ≡ self.now) }
    {
        let mut opening = self.opening;
        Block::copied(alloc, self.number, &mut opening, self.steps.as_slice())
    }

    /// A block of copies of `steps`, whose opening is `lines`. Then `lines` becomes the levels after `steps`.
    pub(crate) fn copied(
        alloc: Global,
        number: u32,
        lines: &mut Lines,
        steps: &[Step],
    ) -> Result<Block, AllocError>
        ensures block { IfOk result (λ block. block
            ≡ record { number = number; opening = lines.old; steps = steps.now }) }
        ensures lines { OnOk result (lines.new ≡ levels_after lines.old steps.now) }
    {
        let opening = *lines;
        let mut list = Vec::with_capacity(alloc, steps.len())?;
        for step in steps {
            list.push(step.copy(alloc)?)?;
            lines.apply(step.changes.as_slice());
        }
        Ok(Block {
            number,
            opening,
            steps: Steps::new(list),
        })
    }
}

/// Checks that `steps` may follow `opening`. The error has the index of the first step that may not be where it is.
pub(crate) fn check_steps(opening: &Lines, steps: &[Step]) -> Result<(), Malformed>
    ensures { MatchResult result (λ _. malformed_step (record { opening = opening.now; steps = steps.now }) ≡ None)
        (λ e. malformed_step (record { opening = opening.now; steps = steps.now }) ≡ Some e.step) }
{
    let mut lines = *opening;
    let mut time = 0;
    for (n, step) in steps.iter().enumerate() {
        if !may_stand(&lines, n, time, step) {
            return Err(Malformed { step: n });
        }
        lines.apply(step.changes.as_slice());
        time = step.time;
    }
    Ok(())
}

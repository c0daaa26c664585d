//! The last steps of a recording, and the levels before them.

ghost use Rattle.std.specs.Prelude.{◌≡◌, ◌+◌, ◌-◌, ◌<◌, ◌≤◌, ◌++◌, [], IfOk, MatchOption, None, OnOk, Some, length};
ghost use Rattle.std.specs.Prelude.{slice_get};
ghost use Rattle.vme_trace.specs.Trace.{Trace, levels_at, time_at};
ghost use Rattle.vme_account.specs.RecentSteps.{AreRecent, levels_of, with_step};

use std::alloc::{AllocError, Global};
use std::mem::swap;
use vme_trace::{Lines, Step};

/// At least this many steps are kept, once that many came, and at most twice as many.
const KEPT: usize = 12;

/// The last steps of a recording, and the levels and the time before them.
#[derive(Drop)]
pub struct RecentSteps {
    /// The instant before the steps that are kept.
    first: u32,
    before: Lines,
    time: u64,
    older: Vec<Step>,
    newer: Vec<Step>,
}

/// The step at index `place` of the older steps and the newer ones after them.
fn step_among<'a>(older: &'a [Step], newer: &'a [Step], place: usize) -> Option<&'a Step>
    ensures { MatchOption result (slice_get (older.now ++ newer.now) place ≡ None)
        (λ step. slice_get (older.now ++ newer.now) place ≡ Some step.now) }
{
    if place < older.len() {
        older.get(place)
    } else {
        newer.get(place - older.len())
    }
}

impl RecentSteps {
    /// The state before the first step.
    pub fn new(alloc: Global, opening: &Lines) -> RecentSteps
        ensures { AreRecent result (record { opening = opening.now; steps = [] }) }
    {
        RecentSteps {
            first: 0,
            before: *opening,
            time: 0,
            older: Vec::new(alloc),
            newer: Vec::new(alloc),
        }
    }

    /// Keeps one more step. The only error is want of memory.
    pub fn push(&mut self, step: Step) -> Result<(), AllocError>
        requires { (t : Trace) × AreRecent self.old t × (length t.steps < 268435456) }
        ensures { OnOk result ((t : Trace) → AreRecent self.old t → AreRecent self.new (with_step t step)) }
    {
        self.make_room();
        self.newer.push(step)?;
        Ok(())
    }

    /// Forgets the older steps, if there are enough newer ones.
    fn make_room(&mut self)
        requires { (t : Trace) × AreRecent self.old t × (length t.steps < 268435456) }
        ensures { (t : Trace) → AreRecent self.old t → AreRecent self.new t }
    {
        if self.newer.len() >= KEPT {
            self.forget()
        }
    }

    /// Forgets the older steps.
    fn forget(&mut self)
        requires { (t : Trace) × AreRecent self.old t × (length t.steps < 268435456) }
        ensures { (t : Trace) → AreRecent self.old t → AreRecent self.new t }
    {
        let instant = self.first + self.older.len() as u32;
        let time = self.time_at(instant);
        let before = self.levels_at(instant);
        self.first = instant;
        self.before = before;
        self.time = time;
        self.older.clear();
        swap(&mut self.older, &mut self.newer);
    }

    /// The first instant whose levels are known.
    pub fn first(&self) -> u32
        ensures { result ≡ self.now.first }
    {
        self.first
    }

    /// The levels at the instants from `first` to `last`, both included. After the last instant of the recording the
    /// levels stay. It fails if memory runs out.
    pub fn levels_from(
        &self,
        alloc: Global,
        first: u32,
        last: u32,
    ) -> Result<Vec<Lines>, AllocError>
        requires known { self.now.first ≤ first }
        requires order { first ≤ last }
        ensures { (t : Trace) → AreRecent self.now t
            → IfOk result (λ levels. levels.items ≡ levels_of t first (last - first + 1)) }
    {
        let mut lines = self.levels_at(first);
        let mut levels = Vec::new(alloc);
        levels.push(lines)?;
        for instant in first..last {
            self.advance(&mut lines, instant);
            levels.push(lines)?;
        }
        Ok(levels)
    }

    /// The levels at an instant.
    fn levels_at(&self, instant: u32) -> Lines
        requires { self.now.first ≤ instant }
        ensures { (t : Trace) → AreRecent self.now t → result ≡ levels_at t instant }
    {
        let mut lines = self.before;
        for before in self.first..instant {
            self.advance(&mut lines, before);
        }
        lines
    }

    /// Advances `lines` from the levels at `instant` to those at the next one.
    fn advance(&self, lines: &mut Lines, instant: u32)
        requires { self.now.first ≤ instant }
        ensures { (t : Trace) → AreRecent self.now t → lines.old ≡ levels_at t instant
            → lines.new ≡ levels_at t (instant + 1) }
    {
        let place = (instant - self.first) as usize;
        match step_among(&self.older, &self.newer, place) {
            Some(step) => lines.apply(step.changes.as_slice()),
            None => {}
        }
    }

    /// The time of an instant. The opening has none, and counts as 0.
    pub fn time_at(&self, instant: u32) -> u64
        requires { self.now.first ≤ instant }
        ensures { (t : Trace) → AreRecent self.now t → result ≡ time_at t instant }
    {
        if instant == self.first {
            return self.time;
        }
        let place = (instant - self.first) as usize - 1;
        match step_among(&self.older, &self.newer, place) {
            Some(step) => step.time,
            None => 0,
        }
    }
}

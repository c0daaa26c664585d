//! A recording that is judged as its steps come, up to its first break.

ghost use Rattle.std.specs.Prelude.{◌≡◌, ◌+◌, ◌∷◌, ◌++◌, [], List, OnOk, None, length};
ghost use Rattle.vme_monitor.specs.OverStretches.{has_started};
ghost use Rattle.vme_trace.specs.Levels.{Levels};
ghost use Rattle.vme_trace.specs.declared.step.Step.{Step as StepOf};
ghost use Rattle.vme_account.specs.FollowedSteps.{FollowsSteps};

use crate::line_notes::LineNotes;
use crate::step_notes::StepNotes;
use std::alloc::AllocError;
use vme_auditor::Memories;
use vme_monitor::view::StepView;
use vme_trace::{Lines, Step};

/// The monitors of all rules, run from step to step up to the first break, and what is noted of the steps.
#[derive(Clone, Copy, Debug)]
pub(crate) struct FollowedSteps {
    /// The levels after the steps so far, on both sides.
    view: StepView,
    /// The memories of the monitors.
    memories: Memories,
    /// What is noted of the steps up to the first break.
    pub notes: StepNotes,
    /// What is noted of each line.
    pub lines: LineNotes,
}

impl FollowedSteps {
    /// The state before the first step.
    pub fn at_opening(opening: &Lines) -> FollowedSteps
        ensures { FollowsSteps opening.now [] result }
    {
        FollowedSteps {
            view: StepView::new(opening),
            memories: Memories::at(opening),
            notes: StepNotes::at_opening(opening),
            lines: LineNotes::at_opening(opening),
        }
    }

    /// Takes the next step, at `instant`. After a break nothing is judged. The only error is want of memory.
    pub fn take(&mut self, step: &Step, instant: u32) -> Result<(), AllocError>
        requires { (o : Levels) × (x : List StepOf) × FollowsSteps o x self.old }
        ensures { (o : Levels) (x : List StepOf) → FollowsSteps o x self.old → instant ≡ length x + 1
            → OnOk result (FollowsSteps o (x ++ step.now ∷ []) self.new) }
    {
        match self.notes.found {
            Some(_) => Ok(()),
            None => self.judge(step, instant),
        }
    }

    /// Judges the step. No break has been found before it.
    fn judge(&mut self, step: &Step, instant: u32) -> Result<(), AllocError>
        requires follows { (o : Levels) × (x : List StepOf) × FollowsSteps o x self.old }
        requires quiet { self.old.notes.found ≡ None }
        ensures { (o : Levels) (x : List StepOf) → FollowsSteps o x self.old → instant ≡ length x + 1
            → OnOk result (FollowsSteps o (x ++ step.now ∷ []) self.new) }
    {
        let changes = step.changes.as_slice();
        self.lines
            .note_lines(self.notes.stretches.first_start.is_some(), changes);
        self.view.go_to(changes);
        let shown = self.memories.go_on(&self.view, changes);
        let outcome = self.notes.take(&self.view, step, instant, &shown);
        self.view.go_past(changes);
        outcome
    }

    /// Whether judging started.
    pub fn have_started(&self) -> bool
        ensures { result ≡ has_started self.now.memories.known }
    {
        self.memories.have_started()
    }

    /// The levels after the steps so far, up to the break.
    pub fn levels(&self) -> &Lines
        ensures { result.now ≡ self.now.view.after }
    {
        &self.view.after
    }
}

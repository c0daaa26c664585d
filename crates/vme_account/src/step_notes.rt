//! What is noted of the steps of a recording up to its first break.

ghost use Rattle.std.specs.Prelude.{◌≡◌, OnOk, None};
ghost use Rattle.vme_monitor.specs.StepRuns.{seen_in};
ghost use Rattle.vme_account.specs.FollowedSteps.{AreNotesAtOpening, AreNotesOfStep};

use crate::known_times::{KnownTimes, TimedInstant};
use crate::marked::Marked;
use crate::stretch_events::StretchEvents;
use crate::stretches::Stretches;
use std::alloc::AllocError;
use vme_auditor::AllShown;
use vme_monitor::mark::break_of;
use vme_monitor::view::StepView;
use vme_trace::{Break, Lines, Step};

/// What is noted of the steps so far, up to the first break.
#[derive(Clone, Copy, Debug, PartialEq, Eq)]
pub(crate) struct StepNotes {
    /// The first break, if there is one.
    pub found: Option<Break>,
    /// What is kept of the marks before the break.
    pub marked: Marked,
    /// When each event last happened, up to the break and including it.
    pub events: StretchEvents,
    /// The times of the instants that an explanation reports.
    pub times: KnownTimes,
    /// Where judging starts and ends, and the last tenure.
    pub stretches: Stretches,
}

impl StepNotes {
    /// The notes before the first step.
    pub fn at_opening(opening: &Lines) -> StepNotes
        ensures { AreNotesAtOpening opening.now result }
    {
        let has_started = opening.is_idle();
        StepNotes {
            found: None,
            marked: Marked::at_opening(opening),
            events: StretchEvents::none(),
            times: KnownTimes::at_opening(has_started),
            stretches: Stretches::at_opening(has_started),
        }
    }

    /// Notes a step's marks, or the break that it makes. The only error is want of memory.
    pub fn take(
        &mut self,
        view: &StepView,
        step: &Step,
        instant: u32,
        shown: &AllShown,
    ) -> Result<(), AllocError>
        requires { view.now ≡ seen_in view.now.before step.now.changes }
        ensures { self.old.found ≡ None → OnOk result
            (AreNotesOfStep view.now.before view.now.after instant step.now.time shown.now self.old self.new) }
    {
        match shown.fault {
            Some(fault) => {
                self.found = Some(break_of(fault, instant, step.time));
                self.events
                    .take_break(view, step.changes.as_slice(), instant, step.time);
                Ok(())
            }
            None => self.note(view, step, instant, shown),
        }
    }

    /// Notes the marks of a step that breaks no rule.
    fn note(
        &mut self,
        view: &StepView,
        step: &Step,
        instant: u32,
        shown: &AllShown,
    ) -> Result<(), AllocError>
        requires seen { view.now ≡ seen_in view.now.before step.now.changes }
        requires quiet { shown.now.fault ≡ None }
        ensures { self.old.found ≡ None → OnOk result
            (AreNotesOfStep view.now.before view.now.after instant step.now.time shown.now self.old self.new) }
    {
        self.marked.take_shown(instant, &shown.stretch)?;
        self.marked.take_shown(instant, &shown.tenure)?;
        self.marked.take_shown(instant, &shown.transfer)?;
        let now = TimedInstant {
            instant,
            time: step.time,
        };
        self.times.note_times(now, shown);
        self.stretches
            .note_stretch(instant, &shown.stretch, &shown.tenure);
        self.events
            .take_step(view, step.changes.as_slice(), instant, step.time);
        self.events.begin_if(shown.stretch.start);
        Ok(())
    }
}

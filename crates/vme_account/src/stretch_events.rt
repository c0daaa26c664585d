//! When each event last happened in the last judged stretch, up to its break and before it.

ghost use Rattle.std.specs.Prelude.{◌≡◌, ◌+◌, None, true, is_some};
ghost use Rattle.vme_trace.specs.Trace.{Trace, changed, levels_at, time_at};
ghost use Rattle.vme_account.specs.LastEvents.{moment};
ghost use Rattle.vme_account.specs.RelatedEvents.{instant_of};
ghost use Rattle.vme_account.specs.StretchEvents.{AreEvents, is_kept, is_now, moment_before};

use crate::last_events::{LastEvents, Moment};
use crate::related_event::{Occurrence, RelatedEvent, StepEvent};
use vme_monitor::view::StepView;
use vme_trace::{Change, Line};

/// When each event last happened in a stretch, and before its last instant too, if that has a break.
#[derive(Clone, Copy, Debug, PartialEq, Eq)]
pub(crate) struct StretchEvents {
    /// The instant from which on the stretch is judged.
    start: u32,
    /// The last instant so far.
    seen: u32,
    /// When each event last happened, up to that instant.
    last: LastEvents,
    /// When each event last happened up to the instant before, if the last one has a break.
    before: Option<LastEvents>,
}

impl StretchEvents {
    /// The state before the first step.
    pub fn none() -> StretchEvents
        ensures events { (t : Trace) → AreEvents t result }
        ensures seen { result.seen ≡ 0 }
    {
        StretchEvents {
            start: 0,
            seen: 0,
            last: LastEvents::none(),
            before: None,
        }
    }

    /// Takes the step to `instant`, between the levels of `view`.
    pub fn take_step(&mut self, view: &StepView, changes: &[Change], instant: u32, time: u64)
        requires { view.now.after ≡ changed view.now.before changes.now }
        ensures events { (t : Trace) → AreEvents t self.old → instant ≡ self.old.seen + 1
            → view.now.before ≡ levels_at t self.old.seen → view.now.after ≡ levels_at t (self.old.seen + 1)
            → time ≡ time_at t (self.old.seen + 1) → AreEvents t self.new }
        ensures seen { self.new.seen ≡ instant }
    {
        self.last
            .take(&view.before, &view.after, changes, instant, time);
        self.seen = instant;
        self.forget_before();
    }

    /// Drops `before`. It is mostly `None` already, and then nothing is written.
    #[inline(always)]
    fn forget_before(&mut self)
        ensures { self.new ≡ record self.old { before = None } }
    {
        match self.before {
            Some(_) => self.before = None,
            None => {}
        }
    }

    /// Takes a step that breaks a rule, and keeps the events up to the instant before it.
    pub fn take_break(&mut self, view: &StepView, changes: &[Change], instant: u32, time: u64)
        requires { view.now.after ≡ changed view.now.before changes.now }
        ensures events { (t : Trace) → AreEvents t self.old → instant ≡ self.old.seen + 1
            → view.now.before ≡ levels_at t self.old.seen → view.now.after ≡ levels_at t (self.old.seen + 1)
            → time ≡ time_at t (self.old.seen + 1) → AreEvents t self.new }
        ensures seen { self.new.seen ≡ instant }
        ensures before { is_some self.new.before ≡ true }
    {
        let last = self.last;
        self.last
            .take(&view.before, &view.after, changes, instant, time);
        self.seen = instant;
        self.before = Some(last);
    }

    /// Judging starts at the last instant, if `starts`.
    pub fn begin_if(&mut self, starts: bool)
        ensures events { (t : Trace) → AreEvents t self.old → AreEvents t self.new }
        ensures seen { self.new.seen ≡ self.old.seen }
    {
        if starts {
            self.begin();
        }
    }

    /// Judging starts at the last instant.
    fn begin(&mut self)
        ensures events { (t : Trace) → AreEvents t self.new }
        ensures seen { self.new.seen ≡ self.old.seen }
    {
        self.start = self.seen;
        self.last = LastEvents::none();
        self.before = None;
    }

    /// When the event happened that a break at the last instant refers to, if it happened in the stretch.
    pub fn moment_of(&self, other: &RelatedEvent) -> Option<Moment>
        ensures { (t : Trace) → AreEvents t self.now → is_some self.now.before ≡ true → is_kept other.now ≡ true
            → result ≡ moment t (instant_of t other.now self.now.start self.now.seen) }
    {
        match &self.before {
            Some(before) => self.moment_before(before, other),
            None => None,
        }
    }

    /// When the event happened, by the events up to the instant before (`before`) and up to the last one.
    fn moment_before(&self, before: &LastEvents, other: &RelatedEvent) -> Option<Moment>
        ensures { result ≡ moment_before self.now.last self.now.seen before.now other.now.occurrence other.now.event }
    {
        match other.occurrence {
            Occurrence::Last => before.last_of(&other.event),
            Occurrence::LastOrNow => self.last.last_of(&other.event),
            Occurrence::FirstInTransfer => {
                if self.is_now(&StepEvent::TransferStarts) {
                    None
                } else {
                    before.first_in_transfer()
                }
            }
            Occurrence::FirstInCycle => {
                if self.is_now(&StepEvent::Falls(Line::AS)) {
                    None
                } else {
                    before.first_in_cycle(&other.event)
                }
            }
        }
    }

    /// Whether `event` last happened at the last instant.
    fn is_now(&self, event: &StepEvent) -> bool
        ensures { result ≡ is_now self.now.last self.now.seen event.now }
    {
        match self.last.last_of(event) {
            Some(moment) => moment.instant == self.seen,
            None => false,
        }
    }
}

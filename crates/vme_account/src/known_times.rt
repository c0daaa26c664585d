//! The times of the instants that an explanation reports, as the steps come.

ghost use Rattle.std.specs.Prelude.{◌≡◌, IfSome};
ghost use Rattle.vme_trace.specs.Trace.{Trace, time_at};
ghost use Rattle.vme_account.specs.KnownTimes.{AreTimes, IsTime};

use vme_auditor::AllShown;
use vme_monitor::mark::StepMarks;

/// An instant, and its time in the unit of the recording.
#[derive(Clone, Copy, Debug, PartialEq, Eq)]
pub(crate) struct TimedInstant {
    pub instant: u32,
    pub time: u64,
}

/// The times of some instants. An instant is the opening as long as its event hasn't happened.
#[derive(Clone, Copy, Debug, PartialEq, Eq)]
pub(crate) struct KnownTimes {
    /// The first step.
    first: TimedInstant,
    /// Where judging starts first.
    start: TimedInstant,
    /// The last reset.
    reset: TimedInstant,
    /// The start of the last tenure.
    tenure: TimedInstant,
    /// The start of the last cycle.
    cycle: TimedInstant,
    /// The start of the transfer that waits for its answer, or waited last.
    waiting: TimedInstant,
    /// The start of the last transfer that stays without an answer.
    unanswered: TimedInstant,
    /// The start of the last transfer that is answered.
    answered: TimedInstant,
    /// The answer of that transfer.
    answer: TimedInstant,
    /// Whether a transfer waits for its answer.
    is_waiting: bool,
    /// Whether judging has started.
    has_started: bool,
    /// Whether a cycle has started since the last reset.
    has_cycle: bool,
}

/// The opening, for an event that hasn't happened.
const OPENING: TimedInstant = TimedInstant {
    instant: 0,
    time: 0,
};

impl KnownTimes {
    /// The times before the first step. `has_started` is whether judging starts at the opening.
    pub fn at_opening(has_started: bool) -> KnownTimes
        ensures { (t : Trace) → AreTimes t result }
    {
        KnownTimes {
            first: OPENING,
            start: OPENING,
            reset: OPENING,
            tenure: OPENING,
            cycle: OPENING,
            waiting: OPENING,
            unanswered: OPENING,
            answered: OPENING,
            answer: OPENING,
            is_waiting: false,
            has_started,
            has_cycle: false,
        }
    }

    /// Notes `now` for the events that a step shows.
    #[inline(always)]
    pub fn note_times(&mut self, now: TimedInstant, shown: &AllShown)
        ensures { (t : Trace) → AreTimes t self.old → IsTime t now → AreTimes t self.new }
    {
        self.note_stretch_and_tenure(now, &shown.stretch, &shown.tenure);
        self.note_transfer(now, &shown.transfer);
    }

    /// Notes the first step, and a step's marks of stretches and tenures, if there are any.
    #[inline(always)]
    fn note_stretch_and_tenure(
        &mut self,
        now: TimedInstant,
        stretch: &StepMarks,
        tenure: &StepMarks,
    )
        ensures { (t : Trace) → AreTimes t self.old → IsTime t now → AreTimes t self.new }
    {
        if now.instant == 1 || !stretch.is_nothing() || !tenure.is_nothing() {
            self.take_stretch_and_tenure(now, stretch, tenure);
        }
    }

    /// Notes a step's marks of cycles and transfers, if there are any.
    #[inline(always)]
    fn note_transfer(&mut self, now: TimedInstant, transfer: &StepMarks)
        ensures { (t : Trace) → AreTimes t self.old → IsTime t now → AreTimes t self.new }
    {
        if !transfer.is_nothing() {
            self.take_transfer(now, transfer);
        }
    }

    /// Notes the first step, and a step's marks of stretches and tenures.
    fn take_stretch_and_tenure(
        &mut self,
        now: TimedInstant,
        stretch: &StepMarks,
        tenure: &StepMarks,
    )
        ensures { (t : Trace) → AreTimes t self.old → IsTime t now → AreTimes t self.new }
    {
        let first = now_if(now.instant == 1, now, self.first);
        let reset = now_if(stretch.reset, now, self.reset);
        let start = now_if(stretch.start && !self.has_started, now, self.start);
        let tenure = now_if(tenure.opened || tenure.tenure.is_some(), now, self.tenure);
        let has_started = self.has_started || stretch.start;
        let is_waiting = self.is_waiting && !stretch.reset;
        let has_cycle = self.has_cycle && !stretch.reset;
        self.first = first;
        self.reset = reset;
        self.start = start;
        self.tenure = tenure;
        self.has_started = has_started;
        self.is_waiting = is_waiting;
        self.has_cycle = has_cycle;
    }

    /// Notes a step's marks of cycles and transfers. A waiting transfer stays without an answer if another starts, or
    /// if it is answered before any cycle starts.
    fn take_transfer(&mut self, now: TimedInstant, transfer: &StepMarks)
        ensures { (t : Trace) → AreTimes t self.old → IsTime t now → AreTimes t self.new }
    {
        let starts = transfer.transfer.is_some();
        let has_cycle = self.has_cycle || transfer.cycle.is_some();
        let was_waiting = self.is_waiting;
        let ends = transfer.answer.is_some() && (was_waiting || starts);
        let is_answered = ends && has_cycle;
        let cycle = now_if(transfer.cycle.is_some(), now, self.cycle);
        let left = now_if(starts && was_waiting, self.waiting, self.unanswered);
        let waiting = now_if(starts, now, self.waiting);
        let unanswered = now_if(ends && !has_cycle, waiting, left);
        let answered = now_if(is_answered, waiting, self.answered);
        let answer = now_if(is_answered, now, self.answer);
        self.cycle = cycle;
        self.waiting = waiting;
        self.unanswered = unanswered;
        self.answered = answered;
        self.answer = answer;
        self.has_cycle = has_cycle;
        self.is_waiting = (was_waiting || starts) && !ends;
    }

    /// The time of an instant, if it is one of those whose times are kept.
    pub fn of(&self, instant: u32) -> Option<u64>
        ensures { (t : Trace) → AreTimes t self.now → IfSome result (λ time. time ≡ time_at t instant) }
    {
        let first = time_or(&self.first, instant, None);
        let start = time_or(&self.start, instant, first);
        let reset = time_or(&self.reset, instant, start);
        let tenure = time_or(&self.tenure, instant, reset);
        let cycle = time_or(&self.cycle, instant, tenure);
        let waiting = time_or(&self.waiting, instant, cycle);
        let unanswered = time_or(&self.unanswered, instant, waiting);
        let answered = time_or(&self.answered, instant, unanswered);
        time_or(&self.answer, instant, answered)
    }
}

/// `now` if `is_now`, or else `before`.
fn now_if(is_now: bool, now: TimedInstant, before: TimedInstant) -> TimedInstant
    ensures { (t : Trace) → IsTime t now → IsTime t before → IsTime t result }
{
    if is_now { now } else { before }
}

/// The time of `timed` if it is of `instant`, or else `other`.
fn time_or(timed: &TimedInstant, instant: u32, other: Option<u64>) -> Option<u64>
    ensures { (t : Trace) → IsTime t timed.now → IfSome other (λ time. time ≡ time_at t instant)
        → IfSome result (λ time. time ≡ time_at t instant) }
{
    if timed.instant == instant {
        Some(timed.time)
    } else {
        other
    }
}

//! When each event last happened on the bus, as the steps of a stretch come.

ghost use Rattle.std.specs.Prelude.{◌≡◌, ◌<◌, ℕ, None, slice_index_or};
ghost use Rattle.vme_trace.specs.Trace.{Trace, changed};
ghost use Rattle.vme_chains.specs.GrantLevels.{falls_between, rises_between};
ghost use Rattle.vme_account.specs.LastEvents.{AreLast, AreLastNext, first_in_cycle, first_or, handshake_after};
ghost use Rattle.vme_account.specs.LastEvents.{last_after, last_of, later, moment_at, no_events, noted, now_or, unless};

use crate::related_event::StepEvent;
use vme_chains::grant_levels::{falls, rises};
use vme_trace::edges::{answer_falls, starts_transfer};
use vme_trace::{Change, LINE_COUNT, Line, Lines};

/// An instant, its time, and whether an answer line falls there.
#[derive(Clone, Copy, Debug, PartialEq, Eq)]
pub struct Moment {
    /// The instant.
    pub instant: u32,
    /// Its time, in the unit of the recording.
    pub time: u64,
    /// Whether DTACK falls.
    pub dtack_falls: bool,
    /// Whether BERR falls.
    pub berr_falls: bool,
}

/// The moments at which each event last happened, since judging started.
#[derive(Clone, Copy, Debug, PartialEq, Eq)]
pub struct LastEvents {
    /// The last fall of each line, by the number of the line.
    falls: [Option<Moment>; LINE_COUNT as usize],
    /// The last rise of each line, by the number of the line.
    rises: [Option<Moment>; LINE_COUNT as usize],
    /// The last start of a transfer.
    transfer: Option<Moment>,
    /// The first answer since the last transfer started, or since judging started.
    answer_in_transfer: Option<Moment>,
    /// The first answer since the last cycle started, or since judging started.
    answer_in_cycle: Option<Moment>,
    /// The first fall of DTACK since the last cycle started, or since judging started.
    dtack_in_cycle: Option<Moment>,
}

impl LastEvents {
    /// No events: nothing happened since judging started.
    pub fn none() -> LastEvents
        ensures value { result ≡ no_events }
        ensures last { (t : Trace) (s : ℕ) → AreLast t s s result }
    {
        LastEvents {
            falls: [None; LINE_COUNT as usize],
            rises: [None; LINE_COUNT as usize],
            transfer: None,
            answer_in_transfer: None,
            answer_in_cycle: None,
            dtack_in_cycle: None,
        }
    }

    /// Takes the step to `instant`, from the levels `before` to `after` by `changes`.
    pub fn take(
        &mut self,
        before: &Lines,
        after: &Lines,
        changes: &[Change],
        instant: u32,
        time: u64,
    )
        requires { after.now ≡ changed before.now changes.now }
        ensures { AreLastNext self.old self.new before.now after.now instant time }
    {
        let moment = Moment {
            instant,
            time,
            dtack_falls: falls(before, after, Line::DTACK),
            berr_falls: falls(before, after, Line::BERR),
        };
        self.note(before, after, changes, moment);
    }

    /// Notes what happens in a step.
    fn note(&mut self, before: &Lines, after: &Lines, changes: &[Change], moment: Moment)
        ensures { self.new ≡ last_after before.now after.now changes.now moment self.old }
    {
        self.note_falls(before, after, changes, moment);
        self.note_rises(before, after, changes, moment);
        let starts = starts_transfer(before, after);
        let answers = answer_falls(before, after);
        let begins = falls(before, after, Line::AS);
        let answers_by_dtack = falls(before, after, Line::DTACK);
        self.note_handshake(starts, answers, begins, answers_by_dtack, moment);
    }

    /// Notes a transfer that starts, an answer, a cycle that begins, and an answer by DTACK. Most steps have none of
    /// these.
    #[inline(always)]
    fn note_handshake(
        &mut self,
        starts: bool,
        answers: bool,
        begins: bool,
        answers_by_dtack: bool,
        moment: Moment,
    )
        ensures { self.new ≡ handshake_after starts answers begins answers_by_dtack moment self.old }
    {
        if starts || answers || begins || answers_by_dtack {
            self.take_handshake(starts, answers, begins, answers_by_dtack, moment);
        }
    }

    /// Notes the start of a transfer, an answer, the start of a cycle and an answer by DTACK, each if it happens at
    /// `moment`.
    fn take_handshake(
        &mut self,
        starts: bool,
        answers: bool,
        begins: bool,
        answers_by_dtack: bool,
        moment: Moment,
    )
        ensures { self.new ≡ handshake_after starts answers begins answers_by_dtack moment self.old }
    {
        self.transfer = now_or(starts, moment, self.transfer);
        self.answer_in_transfer = first_or(
            answers,
            moment,
            unless(starts, self.answer_in_transfer),
        );
        self.answer_in_cycle = first_or(answers, moment, unless(begins, self.answer_in_cycle));
        self.dtack_in_cycle = first_or(
            answers_by_dtack,
            moment,
            unless(begins, self.dtack_in_cycle),
        );
    }

    /// When `event` last happened. For an answer the result is `None`.
    pub(crate) fn last_of(&self, event: &StepEvent) -> Option<Moment>
        ensures { result ≡ last_of self.now event.now }
    {
        match event {
            StepEvent::Falls(line) => self.fall(*line),
            StepEvent::Rises(line) => self.rise(*line),
            StepEvent::StrobeRises => later(self.rise(Line::DS0), self.rise(Line::DS1)),
            StepEvent::TransferStarts => self.transfer,
            StepEvent::AnswerFalls => None,
            StepEvent::GrantFalls => later(
                later(
                    later(self.fall(Line::grant(0, 0)), self.fall(Line::grant(1, 0))),
                    self.fall(Line::grant(2, 0)),
                ),
                self.fall(Line::grant(3, 0)),
            ),
        }
    }

    /// The last fall of a line.
    fn fall(&self, line: Line) -> Option<Moment>
        ensures { result ≡ slice_index_or self.now.falls line None }
    {
        self.falls[usize::from(line.number())]
    }

    /// The last rise of a line.
    fn rise(&self, line: Line) -> Option<Moment>
        ensures { result ≡ slice_index_or self.now.rises line None }
    {
        self.rises[usize::from(line.number())]
    }

    /// When the transfer was answered first.
    pub(crate) fn first_in_transfer(&self) -> Option<Moment>
        ensures { result ≡ self.now.answer_in_transfer }
    {
        self.answer_in_transfer
    }

    /// When an answer first fell in the cycle, if `event` is an answer, or else when DTACK first fell there.
    pub(crate) fn first_in_cycle(&self, event: &StepEvent) -> Option<Moment>
        ensures { result ≡ first_in_cycle self.now event.now }
    {
        match event {
            StepEvent::AnswerFalls => self.answer_in_cycle,
            _ => self.dtack_in_cycle,
        }
    }

    /// Notes the lines that fall.
    fn note_falls(&mut self, before: &Lines, after: &Lines, changes: &[Change], moment: Moment)
        ensures { self.new ≡ record self.old {
          falls = noted (falls_between before.now after.now) moment self.old.falls changes.now;
        } }
    {
        for change in changes {
            if falls(before, after, change.line) {
                self.falls[usize::from(change.line.number())] = Some(moment);
            }
        }
    }

    /// Notes the lines that rise.
    fn note_rises(&mut self, before: &Lines, after: &Lines, changes: &[Change], moment: Moment)
        ensures { self.new ≡ record self.old {
          rises = noted (rises_between before.now after.now) moment self.old.rises changes.now;
        } }
    {
        for change in changes {
            if rises(before, after, change.line) {
                self.rises[usize::from(change.line.number())] = Some(moment);
            }
        }
    }
}

/// The later of two moments, or the only one, if there is one.
fn later(one: Option<Moment>, other: Option<Moment>) -> Option<Moment>
    ensures { result ≡ later one other }
{
    match one {
        None => other,
        Some(first) => match other {
            None => Some(first),
            Some(second) => {
                if first.instant <= second.instant {
                    Some(second)
                } else {
                    Some(first)
                }
            }
        },
    }
}

/// `moment` if the event happens now, else when it happened before.
#[inline(always)]
fn now_or(is_now: bool, moment: Moment, before: Option<Moment>) -> Option<Moment>
    ensures { result ≡ now_or is_now moment before }
{
    if is_now { Some(moment) } else { before }
}

/// `before`, or `None` if what it belongs to is over.
#[inline(always)]
fn unless(is_over: bool, before: Option<Moment>) -> Option<Moment>
    ensures { result ≡ unless is_over before }
{
    if is_over { None } else { before }
}

/// When the event happened first: before, or now.
#[inline(always)]
fn first_or(is_now: bool, moment: Moment, before: Option<Moment>) -> Option<Moment>
    ensures { result ≡ first_or is_now moment before }
{
    match before {
        Some(first) => Some(first),
        None if is_now => Some(moment),
        None => None,
    }
}

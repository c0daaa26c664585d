//! Which rows are open after some marks, as the marks come.

ghost use Rattle.std.specs.Prelude.{◌≡◌};
ghost use Rattle.std.specs.Option.{option_or};
ghost use Rattle.vme_account.specs.UnendedRows.{after_answer, answered_in, closed, nothing_open, open_in, open_next};
ghost use Rattle.vme_account.specs.UnendedRows.{pending, unless_left};

use crate::row_kind::Part;
use vme_listing::{Direction, Row};
use vme_monitor::mark::{Mark, MarkKind, TransferAnswer};
use vme_summary::{answered_row, cycle_row, direction_of};

/// A transfer that waits for its answer.
#[derive(Clone, Copy, Debug, PartialEq, Eq)]
pub struct Waiting {
    /// Its start.
    pub start: u32,
    /// Its direction.
    pub direction: Direction,
    /// The instant at which the strobes are High again, if they are.
    pub close: Option<u32>,
}

/// The last open row of each part.
#[derive(Clone, Copy, Debug, PartialEq, Eq)]
pub struct UnendedRows {
    tenure: Option<Row>,
    cycle: Option<Row>,
    /// The last transfer that stays without an answer.
    unanswered: Option<Row>,
    /// The last transfer after `unanswered` that is answered and not closed.
    answered: Option<Row>,
    /// The transfer after both of them that waits for its answer.
    waiting: Option<Waiting>,
    /// The start of the last cycle since a reset.
    latest: Option<u32>,
}

/// The row of the waiting transfer, if there is one.
fn pending(waiting: &Option<Waiting>) -> Option<Row>
    ensures { result ≡ pending waiting.now }
{
    match waiting {
        Some(w) => Some(Row::PendingTransfer {
            start: w.start,
            direction: w.direction,
        }),
        None => None,
    }
}

/// `other`, or `None` if a transfer waits.
fn unless_left(waiting: &Option<Waiting>, other: Option<Row>) -> Option<Row>
    ensures { result ≡ unless_left waiting.now other }
{
    match waiting {
        Some(_) => None,
        None => other,
    }
}

impl UnendedRows {
    /// No open row, before any mark.
    pub fn none() -> UnendedRows
        ensures { result ≡ nothing_open }
    {
        UnendedRows {
            tenure: None,
            cycle: None,
            unanswered: None,
            answered: None,
            waiting: None,
            latest: None,
        }
    }

    /// Takes a mark.
    pub fn take(&mut self, mark: &Mark)
        ensures { self.new ≡ open_next self.old mark.now }
    {
        let i = mark.instant;
        match mark.kind {
            MarkKind::Reset => *self = UnendedRows::none(),
            MarkKind::Start => {}
            MarkKind::Open => {
                self.tenure = Some(Row::OpenTenure {
                    start: i,
                    end: None,
                });
            }
            MarkKind::Tenure { level, slot } => {
                self.tenure = Some(Row::Tenure {
                    start: i,
                    level,
                    slot,
                    end: None,
                });
            }
            MarkKind::TenureEnd => self.tenure = None,
            MarkKind::Cycle { class, am, address } => {
                self.cycle = Some(cycle_row(i, class, am, address, None));
                self.latest = Some(i);
            }
            MarkKind::CycleEnd => self.cycle = None,
            MarkKind::Transfer { write } => {
                self.unanswered = pending(&self.waiting).or(self.unanswered);
                self.answered = unless_left(&self.waiting, self.answered);
                self.waiting = Some(Waiting {
                    start: i,
                    direction: direction_of(write),
                    close: None,
                });
            }
            MarkKind::Answer { line } => self.answer(i, TransferAnswer { line, lanes: None }),
            MarkKind::WriteAnswer {
                line,
                moved,
                unknown,
                value,
            } => self.answer(i, TransferAnswer::of_write(line, moved, unknown, value)),
            MarkKind::Close => {
                self.answered = None;
                self.waiting = closed(i, self.waiting);
            }
        }
    }

    /// The waiting transfer is answered.
    fn answer(&mut self, instant: u32, answer: TransferAnswer)
        ensures { self.new ≡ after_answer instant answer self.old }
    {
        if let Some(w) = self.waiting {
            match self.latest {
                None => {
                    self.unanswered = pending(&self.waiting);
                    self.answered = None;
                }
                Some(cycle) => {
                    self.answered = answered_in(instant, answer, cycle, w, self.answered);
                }
            }
            self.waiting = None;
        }
    }

    /// The waiting transfer.
    pub(crate) fn waiting(&self) -> Option<Waiting>
        ensures { result ≡ self.now.waiting }
    {
        self.waiting
    }

    /// The start of the last cycle since a reset.
    pub(crate) fn latest(&self) -> Option<u32>
        ensures { result ≡ self.now.latest }
    {
        self.latest
    }

    /// The row of the last open transfer, if there is one.
    fn transfer(&self) -> Option<Row>
        ensures { result ≡ open_in self.now Part.Transfer }
    {
        match pending(&self.waiting) {
            Some(row) => Some(row),
            None => self.settled(),
        }
    }

    /// The last open transfer that doesn't wait any more.
    fn settled(&self) -> Option<Row>
        ensures { result ≡ option_or self.now.answered self.now.unanswered }
    {
        match self.answered {
            Some(row) => Some(row),
            None => self.unanswered,
        }
    }

    /// The last open row of `part`, if there is one.
    pub fn of(&self, part: Part) -> Option<Row>
        ensures { result ≡ open_in self.now part }
    {
        match part {
            Part::Tenure => self.tenure,
            Part::Cycle => self.cycle,
            Part::Transfer => self.transfer(),
        }
    }
}

/// The row of a transfer that is answered in `cycle`, if it isn't closed, or else `other`.
fn answered_in(
    instant: u32,
    answer: TransferAnswer,
    cycle: u32,
    waiting: Waiting,
    other: Option<Row>,
) -> Option<Row>
    ensures { result ≡ answered_in instant answer cycle waiting waiting.close other }
{
    match waiting.close {
        Some(_) => other,
        None => Some(answered_row(
            waiting.start,
            waiting.direction,
            None,
            instant,
            Some(cycle),
            answer,
        )),
    }
}

/// The waiting transfer, closed at `instant` unless it was closed before.
fn closed(instant: u32, waiting: Option<Waiting>) -> Option<Waiting>
    ensures { result ≡ closed instant waiting }
{
    let mut waiting = waiting?;
    if waiting.close.is_none() {
        waiting.close = Some(instant);
    }
    Some(waiting)
}

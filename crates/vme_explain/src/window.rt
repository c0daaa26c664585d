//! What an excerpt shows: the levels of some lines around a break, and the values of buses.

ghost use Rattle.std.specs.Prelude.{◌≤◌};

use crate::page::Subject;
use crate::shown::lines_shown;
use crate::values::{ValueRow, value_rows};
use std::alloc::{AllocError, Global};
use vme_account::Account;
use vme_trace::{Break, Line, Lines, Verdict};

/// How many instants an excerpt shows before the break.
const BEFORE: u32 = 8;

/// How many instants an excerpt shows after the break.
const AFTER: u32 = 3;

/// What an excerpt shows.
#[derive(Drop)]
pub struct Excerpt {
    /// The first instant.
    pub first: u32,
    /// The last instant.
    pub last: u32,
    /// The levels from the first to the last instant.
    pub levels: Vec<Lines>,
    /// The lines that are shown each by itself.
    pub lines: Vec<Line>,
    /// The lines that are shown together, as values.
    pub values: Vec<ValueRow>,
}

/// The break that a verdict names, if it names one.
pub fn break_of(verdict: &Verdict) -> Option<&Break> {
    match verdict {
        Verdict::Broken(found) | Verdict::Unreadable(found) => Some(found),
        _ => None,
    }
}

/// The first and the last instant that are shown around the instant `around`, limited to those that are kept.
fn window(account: &Account, around: u32) -> (u32, u32)
    ensures { result.0 ≤ result.1 }
{
    let last = around.saturating_add(AFTER).min(account.end());
    let first = around.saturating_sub(BEFORE).max(account.first());
    (first.min(last), last)
}

/// What is shown around the break, or at the end of the recording if there is no break. Of the instants that the
/// account keeps these are the break's own, at most 8 before it and at most 3 after it, or the last 12 at most. It
/// fails if memory runs out.
pub fn excerpt_of(alloc: Global, subject: &Subject<'_>) -> Result<Excerpt, AllocError> {
    let account = subject.account;
    let found = break_of(subject.verdict);
    let around = match found {
        Some(found) => found.instant,
        None => account.end().saturating_sub(AFTER),
    };
    let (first, last) = window(account, around);
    let levels = account.levels_from(alloc, first, last)?;
    let slots = account.opening().slots();
    let lines = lines_shown(alloc, found, slots, levels.as_slice())?;
    let values = value_rows(alloc, subject.binding, levels.as_slice(), lines.as_slice())?;
    Ok(Excerpt {
        first,
        last,
        levels,
        lines,
        values,
    })
}

//! What an explanation reports of a recording, kept without the recording.

ghost use Rattle.std.specs.Prelude.{◌≡◌, ◌+◌, ◌-◌, ◌≤◌, IfOk, IfSome, Some, count_by, if◌then◌else◌, true};
ghost use Rattle.vme_trace.specs.Trace.{Trace, time_at};
ghost use Rattle.vme_trace.specs.Verdict.{verdict, verdict_on};
ghost use Rattle.vme_trace.specs.declared.verdict.Break.{Break as BreakOf};
ghost use Rattle.vme_trace.specs.declared.verdict.Verdict.TheVariants.{Conforming, NeverIdle};
ghost use Rattle.vme_listing.specs.Recorded.{recorded_rows};
ghost use Rattle.vme_account.specs.Accounts.{IsAccountOf, first_kept, first_start, found_break, has_moved, judged_from};
ghost use Rattle.vme_account.specs.Accounts.{last_judged, last_kept, last_levels, last_reset, last_tenure};
ghost use Rattle.vme_account.specs.Accounts.{was_idle_level};
ghost use Rattle.vme_account.specs.Idle.{has_idle_level};
ghost use Rattle.vme_account.specs.LastEvents.{moment};
ghost use Rattle.vme_account.specs.UnendedRows.{open_row};
ghost use Rattle.vme_account.specs.RecentSteps.{levels_of};
ghost use Rattle.vme_account.specs.RelatedEvents.{instant_of};
ghost use Rattle.vme_account.specs.RowCounts.{is_counted};
ghost use Rattle.vme_account.specs.RowKinds.{is_of};
ghost use Rattle.vme_account.specs.StretchEvents.{is_kept};

use crate::last_events::Moment;
use crate::line_notes::has_idle_level;
use crate::related_event::RelatedEvent;
use crate::row_counts::RowCounts;
use crate::row_kind::{Part, RowKind};
use crate::running_account::RunningAccount;
use crate::stretches::StartedTenure;
use crate::unended_rows::UnendedRows;
use std::alloc::{AllocError, Global};
use vme_listing::Row;
use vme_trace::{Break, Line, Lines, Verdict};

/// What an explanation reports of a recording: its verdict, the counts of its rows, the rows that are open at its end
/// or at its break, when the events happened that a break refers to, and the levels at its last instants.
#[derive(Drop)]
pub struct Account {
    pub(crate) opening: Lines,
    pub(crate) running: Box<RunningAccount>,
    pub(crate) counts: RowCounts,
    pub(crate) unended: UnendedRows,
}

impl Account {
    /// The levels before the first step.
    pub fn opening(&self) -> &Lines
        ensures { (t : Trace) → IsAccountOf self.now t → result.now ≡ t.opening }
    {
        &self.opening
    }

    /// The verdict on the recording.
    pub fn verdict(&self) -> Verdict
        ensures { (t : Trace) → IsAccountOf self.now t → result ≡ verdict t }
    {
        match self.running.judged.notes.found {
            Some(found) => verdict_of(found),
            None => unbroken_verdict(self.running.judged.have_started()),
        }
    }

    /// The number of rows of `kind` in the listing. Tenures of a level above 3 or a slot above 21 aren't counted.
    pub fn count_of(&self, kind: RowKind) -> u64
        ensures { (t : Trace) → IsAccountOf self.now t → is_counted kind ≡ true
            → result ≡ count_by (is_of kind) (recorded_rows t) }
    {
        self.counts.of(kind)
    }

    /// The last row of the listing that is a `part` and is open where the listing ends. A reset of the bus closes what
    /// was open before it.
    pub fn open_row(&self, part: Part) -> Option<Row>
        ensures { (t : Trace) → IsAccountOf self.now t → result ≡ open_row part (recorded_rows t) }
    {
        self.unended.of(part)
    }

    /// When the event happened that the break refers to, within the judged stretch, or `None` if it didn't happen
    /// there.
    pub fn moment_of(&self, other: &RelatedEvent) -> Option<Moment>
        ensures { (t : Trace) (found : BreakOf) → IsAccountOf self.now t → found_break self.now ≡ Some found
            → is_kept other.now ≡ true
            → result ≡ moment t (instant_of t other.now (judged_from self.now) found.instant) }
    {
        self.running.judged.notes.events.moment_of(other)
    }

    /// The time of an instant, if it is kept. The opening has none, and counts as 0. The times of the last instants are
    /// kept, and those of the first step, of the open rows, of the first start and of the last reset.
    pub fn time_at(&self, instant: u32) -> Option<u64>
        ensures { (t : Trace) → IsAccountOf self.now t → IfSome result (λ time. time ≡ time_at t instant) }
    {
        if self.running.kept.first() <= instant && instant <= self.running.kept.end() {
            Some(self.running.kept.time_at(instant))
        } else {
            self.running.judged.notes.times.of(instant)
        }
    }

    /// The first instant whose levels are kept.
    pub fn first(&self) -> u32
        ensures { result ≡ first_kept self.now }
    {
        self.running.kept.first()
    }

    /// The last instant whose levels are kept: that of the last step, but at most three instants after the break.
    pub fn end(&self) -> u32
        ensures { result ≡ last_kept self.now }
    {
        self.running.kept.end()
    }

    /// The levels at the instants from `first` to `last`, both included, which must be kept. It fails if memory runs
    /// out.
    pub fn levels_from(
        &self,
        alloc: Global,
        first: u32,
        last: u32,
    ) -> Result<Vec<Lines>, AllocError>
        requires { first ≤ last }
        ensures { (t : Trace) → IsAccountOf self.now t → first_kept self.now ≤ first → last ≤ last_kept self.now
            → IfOk result (λ levels. levels.items ≡ levels_of t first (last - first + 1)) }
    {
        self.running.kept.levels_from(alloc, first, last)
    }

    /// The instant at which judging starts first, if it starts.
    pub fn first_start(&self) -> Option<u32>
        ensures { result ≡ first_start self.now }
    {
        self.running.judged.notes.stretches.first_start
    }

    /// The instant of the last reset that ended judging, if there is one.
    pub fn last_reset(&self) -> Option<u32>
        ensures { result ≡ last_reset self.now }
    {
        self.running.judged.notes.stretches.last_reset
    }

    /// The last judged instant: that of the last reset, if judging doesn't start again after it, or else `end`.
    pub fn last_judged(&self) -> u32
        ensures { result ≡ last_judged self.now }
    {
        self.running
            .judged
            .notes
            .stretches
            .ended
            .unwrap_or(self.running.kept.end())
    }

    /// The last tenure that a grant began, if there is one.
    pub fn last_tenure(&self) -> Option<StartedTenure>
        ensures { result ≡ last_tenure self.now }
    {
        self.running.judged.notes.stretches.tenure
    }

    /// Whether a line moved since judging started first.
    pub fn has_moved(&self, line: Line) -> bool
        ensures { result ≡ has_moved self.now line }
    {
        self.running.judged.lines.moved.has(line)
    }

    /// Whether a line was as an idle bus has it at some instant, before judging started.
    pub fn was_idle_level(&self, line: Line) -> bool
        ensures { result ≡ was_idle_level self.now line }
    {
        self.running.judged.lines.idle_levels.has(line)
    }

    /// Whether the line is as an idle bus has it at the end of a recording without a break.
    pub fn is_idle_level(&self, line: Line) -> bool
        ensures { result ≡ has_idle_level (last_levels self.now) line }
    {
        has_idle_level(self.running.judged.levels(), line)
    }
}

/// The verdict on a recording with break `found`.
fn verdict_of(found: Break) -> Verdict
    ensures { result ≡ verdict_on (Some found) }
{
    if found.rule.is_unreadable() {
        Verdict::Unreadable(found)
    } else {
        Verdict::Broken(found)
    }
}

/// The verdict on a recording without a break, by whether anything is judged.
fn unbroken_verdict(has_started: bool) -> Verdict
    ensures { result ≡ (if has_started then Conforming else NeverIdle) }
{
    if has_started {
        Verdict::Conforming
    } else {
        Verdict::NeverIdle
    }
}

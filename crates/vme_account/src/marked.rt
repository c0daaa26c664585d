//! What is kept of the marks of a recording.

ghost use Rattle.std.specs.Prelude.{◌≡◌, ◌∷◌, ◌&&◌, [], if◌then◌else◌, IfOk, List, None, OnOk, count_by, map};
ghost use Rattle.std.specs.Prelude.{true};
ghost use Rattle.std.specs.List.{fold};
ghost use Rattle.std.specs.Option.{option_to_list};
ghost use Rattle.vme_monitor.specs.Run.{kinds_of, mark_at};
ghost use Rattle.vme_monitor.specs.declared.mark.Mark.{Mark as MarkOf};
ghost use Rattle.vme_monitor.specs.declared.mark.MarkKind.TheVariants.{Open, Start};
ghost use Rattle.vme_summary.specs.MarkedRows.{opening_marks, rows_of};
ghost use Rattle.vme_account.specs.Marked.{counts_in, marked, marked_next, nothing_marked};
ghost use Rattle.vme_account.specs.UnendedRows.{open_in, open_row};
ghost use Rattle.vme_account.specs.RowCounts.{count_in, is_counted};
ghost use Rattle.vme_account.specs.RowKinds.{is_of};
ghost use Rattle.vme_account.specs.declared.row_kind.Part.{Part as PartOf};
ghost use Rattle.vme_account.specs.declared.row_kind.RowKind.{RowKind as KindOf};

use crate::row_counts::RowCounts;
use crate::unended_rows::UnendedRows;
use std::alloc::AllocError;
use vme_monitor::mark::{
    Mark, MarkKind, StepMarks, answered_kind, cycle_kind, tenure_kind, transfer_kind, when,
};
use vme_trace::{Line, Lines};

/// The open rows, and the number of rows of each kind.
#[derive(Clone, Copy, Debug, PartialEq, Eq)]
pub struct Marked {
    unended: UnendedRows,
    /// The counts without the waiting transfer.
    counts: RowCounts,
}

impl Marked {
    /// The state before any mark.
    pub fn none() -> Marked
        ensures { result ≡ nothing_marked }
    {
        Marked {
            unended: UnendedRows::none(),
            counts: RowCounts::none(),
        }
    }

    /// The state after the opening: judging starts there if it is idle, and then a tenure is open if BBSY* is Low.
    pub fn at_opening(opening: &Lines) -> Marked
        ensures { result ≡ marked (opening_marks opening.now) }
    {
        Marked::opened_by(opening.is_idle(), opening.level(Line::BBSY).is_low())
    }

    /// The state after the opening, by whether it is idle, and whether BBSY* is Low.
    fn opened_by(is_idle: bool, is_busy: bool) -> Marked
        ensures { result ≡ (if is_idle && is_busy then marked (mark_at 0 Start ∷ mark_at 0 Open ∷ []) else
            nothing_marked) }
    {
        if is_idle && is_busy {
            Marked::busy()
        } else {
            Marked::none()
        }
    }

    /// Judging starts at the opening, where a tenure is open.
    fn busy() -> Marked
        ensures { result ≡ marked (mark_at 0 Start ∷ mark_at 0 Open ∷ []) }
    {
        let mut unended = UnendedRows::none();
        unended.take(&Mark {
            instant: 0,
            kind: MarkKind::Open,
        });
        Marked {
            unended,
            counts: RowCounts::with_open_tenure(),
        }
    }

    /// Takes the marks that one monitor shows at a step. The only error is want of memory.
    #[inline(always)]
    pub fn take_shown(&mut self, instant: u32, shown: &StepMarks) -> Result<(), AllocError>
        ensures { OnOk result (self.new
            ≡ fold marked_next self.old (map (mark_at instant) (kinds_of shown.now))) }
    {
        if shown.is_nothing() {
            return Ok(());
        }
        self.take_kinds(instant, shown)
    }

    /// Takes the marks of a step. The only error is want of memory.
    #[inline(never)]
    fn take_kinds(&mut self, instant: u32, shown: &StepMarks) -> Result<(), AllocError>
        ensures { OnOk result (self.new
            ≡ fold marked_next self.old (map (mark_at instant) (kinds_of shown.now))) }
    {
        self.take_kind(instant, when(shown.reset, MarkKind::Reset))?;
        self.take_kind(instant, when(shown.start, MarkKind::Start))?;
        self.take_kind(instant, when(shown.opened, MarkKind::Open))?;
        self.take_kind(instant, tenure_kind(shown.tenure))?;
        self.take_kind(instant, when(shown.tenure_end, MarkKind::TenureEnd))?;
        self.take_kind(instant, cycle_kind(shown.cycle))?;
        self.take_kind(instant, when(shown.cycle_end, MarkKind::CycleEnd))?;
        self.take_kind(instant, transfer_kind(shown.transfer))?;
        self.take_kind(instant, answered_kind(shown.answer))?;
        self.take_kind(instant, when(shown.close, MarkKind::Close))
    }

    /// Takes a mark of this kind, if there is one. The only error is want of memory.
    #[inline(always)]
    fn take_kind(&mut self, instant: u32, kind: Option<MarkKind>) -> Result<(), AllocError>
        ensures { OnOk result (self.new
            ≡ fold marked_next self.old (map (mark_at instant) (option_to_list kind))) }
    {
        match kind {
            Some(kind) => self.take(&Mark { instant, kind }),
            None => Ok(()),
        }
    }

    /// Takes a mark. The only error is want of memory.
    pub fn take(&mut self, mark: &Mark) -> Result<(), AllocError>
        ensures { OnOk result (self.new ≡ marked_next self.old mark.now) }
    {
        self.counts.take(mark, &self.unended)?;
        self.unended.take(mark);
        Ok(())
    }

    /// The last open rows: after the marks of a recording, those of its listing.
    pub fn unended(&self) -> UnendedRows
        ensures value { result ≡ self.now.unended }
        ensures listed { (ms : List MarkOf) (p : PartOf) → self.now ≡ marked ms
            → open_in result p ≡ open_row p (rows_of None ms) }
    {
        self.unended
    }

    /// The number of rows of each kind, if no mark follows: after the marks of a recording, those of its listing. It
    /// fails if memory runs out.
    pub fn counts(&self) -> Result<RowCounts, AllocError>
        ensures value { IfOk result (λ c. c ≡ counts_in self.now) }
        ensures listed { (ms : List MarkOf) (k : KindOf) → self.now ≡ marked ms → is_counted k ≡ true
            → IfOk result (λ c. count_in c k ≡ count_by (is_of k) (rows_of None ms)) }
    {
        let mut counts = self.counts;
        counts.leave(&self.unended)?;
        Ok(counts)
    }
}

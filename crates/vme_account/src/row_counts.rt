//! How many rows of each kind there are, as the rows come.

ghost use Rattle.std.specs.Prelude.{◌≡◌, ◌+◌, IfOk, OnOk};
ghost use Rattle.std.specs.List.{fold};
ghost use Rattle.vme_account.specs.KnownRows.{answered_rows, known_at, pending_rows};
ghost use Rattle.vme_account.specs.RowCounts.{count_in, no_rows, one_if, tenures_of, with_row, with_tenure};

use crate::row_kind::{RowKind, is_of};
use crate::unended_rows::UnendedRows;
use std::alloc::AllocError;
use vme_listing::Row;
use vme_monitor::mark::{Mark, MarkKind, TransferAnswer};
use vme_summary::{answered_row, cycle_row};

/// The number of counts of tenures: for each of 4 levels, one for each slot from 0 to 21.
const TENURE_COUNTS: usize = 88;

/// The number of rows of each kind, by the names of the kinds in `RowKind`.
#[derive(Clone, Copy, Debug, PartialEq, Eq)]
pub struct RowCounts {
    open_tenures: u64,
    single_cycles: u64,
    block_cycles: u64,
    free_cycles: u64,
    interrupt_cycles: u64,
    answered_reads: u64,
    answered_writes: u64,
    answered_by_dtack: u64,
    answered_by_berr: u64,
    pending_transfers: u64,
    resets: u64,
    /// The tenures by level and slot, at index `22 * level + slot`.
    tenures: [u64; TENURE_COUNTS],
}

/// `count`, and one more if `is_one`. A count beyond 64 bits is reported as `AllocError`.
#[inline(always)]
fn counted(count: u64, is_one: bool) -> Result<u64, AllocError>
    ensures { IfOk result (λ more. more ≡ count + one_if is_one) }
{
    if is_one {
        match count.checked_add(1) {
            Some(more) => Ok(more),
            None => Err(AllocError),
        }
    } else {
        Ok(count)
    }
}

impl RowCounts {
    /// No rows.
    pub fn none() -> RowCounts
        ensures { result ≡ no_rows }
    {
        RowCounts {
            open_tenures: 0,
            single_cycles: 0,
            block_cycles: 0,
            free_cycles: 0,
            interrupt_cycles: 0,
            answered_reads: 0,
            answered_writes: 0,
            answered_by_dtack: 0,
            answered_by_berr: 0,
            pending_transfers: 0,
            resets: 0,
            tenures: [0; TENURE_COUNTS],
        }
    }

    /// One tenure that was open at the start.
    pub(crate) fn with_open_tenure() -> RowCounts
        ensures { result ≡ record no_rows { open_tenures = 1 } }
    {
        let mut counts = RowCounts::none();
        counts.open_tenures = 1;
        counts
    }

    /// Counts the rows whose kind is known at `mark`, where `unended` are the open rows before it. It fails if a count
    /// doesn't fit in 64 bits; some counts may then have the row.
    pub fn take(&mut self, mark: &Mark, unended: &UnendedRows) -> Result<(), AllocError>
        ensures { OnOk result
            (self.new ≡ fold with_row self.old (known_at mark.now.instant mark.now.kind unended.now)) }
    {
        let i = mark.instant;
        match mark.kind {
            MarkKind::Reset => {
                self.leave(unended)?;
                self.count(&Row::Reset { instant: i })
            }
            MarkKind::Start => self.count(&Row::Start { instant: i }),
            MarkKind::Open => self.count(&Row::OpenTenure {
                start: i,
                end: None,
            }),
            MarkKind::Tenure { level, slot } => self.count(&Row::Tenure {
                start: i,
                level,
                slot,
                end: None,
            }),
            MarkKind::Cycle { class, am, address } => {
                self.count(&cycle_row(i, class, am, address, None))
            }
            MarkKind::Transfer { .. } => self.leave(unended),
            MarkKind::Answer { line } => self.answer(
                i,
                TransferAnswer { line, lanes: None },
                unended,
            ),
            MarkKind::WriteAnswer {
                line,
                moved,
                unknown,
                value,
            } => self.answer(
                i,
                TransferAnswer::of_write(line, moved, unknown, value),
                unended,
            ),
            MarkKind::TenureEnd | MarkKind::CycleEnd | MarkKind::Close => Ok(()),
        }
    }

    /// Counts the waiting transfer as one without an answer, as where no mark follows. It fails if memory runs out, and
    /// then nothing is said of the counts.
    pub fn leave(&mut self, unended: &UnendedRows) -> Result<(), AllocError>
        ensures { OnOk result (self.new ≡ fold with_row self.old (pending_rows unended.now.waiting)) }
    {
        match unended.waiting() {
            Some(waiting) => self.count(&Row::PendingTransfer {
                start: waiting.start,
                direction: waiting.direction,
            }),
            None => Ok(()),
        }
    }

    /// The waiting transfer is answered.
    fn answer(
        &mut self,
        instant: u32,
        answer: TransferAnswer,
        unended: &UnendedRows,
    ) -> Result<(), AllocError>
        ensures { OnOk result (self.new ≡ fold with_row self.old (answered_rows instant answer unended.now)) }
    {
        match unended.waiting() {
            Some(waiting) => self.count(&answered_row(
                waiting.start,
                waiting.direction,
                None,
                instant,
                unended.latest(),
                answer,
            )),
            None => Ok(()),
        }
    }

    /// Counts a row.
    fn count(&mut self, row: &Row) -> Result<(), AllocError>
        ensures { OnOk result (self.new ≡ with_row self.old row.now) }
    {
        self.take_tenure(row)?;
        self.open_tenures = counted(self.open_tenures, is_of(RowKind::OpenTenures, row))?;
        self.single_cycles = counted(self.single_cycles, is_of(RowKind::SingleCycles, row))?;
        self.block_cycles = counted(self.block_cycles, is_of(RowKind::BlockCycles, row))?;
        self.free_cycles = counted(self.free_cycles, is_of(RowKind::FreeCycles, row))?;
        self.interrupt_cycles = counted(
            self.interrupt_cycles,
            is_of(RowKind::InterruptCycles, row),
        )?;
        self.answered_reads = counted(self.answered_reads, is_of(RowKind::AnsweredReads, row))?;
        self.answered_writes = counted(self.answered_writes, is_of(RowKind::AnsweredWrites, row))?;
        self.answered_by_dtack = counted(
            self.answered_by_dtack,
            is_of(RowKind::AnsweredByDtack, row),
        )?;
        self.answered_by_berr = counted(
            self.answered_by_berr,
            is_of(RowKind::AnsweredByBerr, row),
        )?;
        self.pending_transfers = counted(
            self.pending_transfers,
            is_of(RowKind::PendingTransfers, row),
        )?;
        self.resets = counted(self.resets, is_of(RowKind::Resets, row))?;
        Ok(())
    }

    /// Counts a tenure by its level and slot.
    fn take_tenure(&mut self, row: &Row) -> Result<(), AllocError>
        ensures { OnOk result (self.new ≡ record self.old { tenures = with_tenure self.old.tenures row.now }) }
    {
        match row {
            Row::Tenure { level, slot, .. } if *level < 4 && *slot < 22 => {
                let place = usize::from(*level) * 22 + usize::from(*slot);
                self.tenures[place] = counted(self.tenures[place], true)?;
                Ok(())
            }
            _ => Ok(()),
        }
    }

    /// The number of tenures of a level in a slot; 0 for a level above 3 or a slot above 21.
    fn tenures_of(&self, level: u8, slot: u8) -> u64
        ensures { result ≡ tenures_of self.now.tenures level slot }
    {
        if level < 4 && slot < 22 {
            self.tenures[usize::from(level) * 22 + usize::from(slot)]
        } else {
            0
        }
    }

    /// The number of rows of `kind`. Tenures of a level above 3 or a slot above 21 aren't counted.
    pub fn of(&self, kind: RowKind) -> u64
        ensures { result ≡ count_in self.now kind }
    {
        match kind {
            RowKind::OpenTenures => self.open_tenures,
            RowKind::Tenures { level, slot } => self.tenures_of(level, slot),
            RowKind::SingleCycles => self.single_cycles,
            RowKind::BlockCycles => self.block_cycles,
            RowKind::FreeCycles => self.free_cycles,
            RowKind::InterruptCycles => self.interrupt_cycles,
            RowKind::AnsweredReads => self.answered_reads,
            RowKind::AnsweredWrites => self.answered_writes,
            RowKind::AnsweredByDtack => self.answered_by_dtack,
            RowKind::AnsweredByBerr => self.answered_by_berr,
            RowKind::PendingTransfers => self.pending_transfers,
            RowKind::Resets => self.resets,
        }
    }
}

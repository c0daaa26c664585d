//! The kinds of rows, and the parts that may be open where a listing ends.

ghost use Rattle.std.specs.Prelude.{◌≡◌};
ghost use Rattle.vme_listing.specs.Places.{is_reset};
ghost use Rattle.vme_account.specs.RowKinds.{is_answered_by, is_cycle_of, is_of, is_tenure_of};
ghost use Rattle.vme_account.specs.RowKinds.{is_transfer_in};

use vme_listing::{AnswerLine, Direction, Row};
use vme_trace::Class;

/// A kind of rows that are counted.
#[derive(Clone, Copy, Debug, PartialEq, Eq)]
pub enum RowKind {
    /// A tenure of the bus that was open at the start.
    OpenTenures,
    /// A tenure by the grant of a level, 0 to 3, in a slot, 1 to 21.
    Tenures {
        /// The level.
        level: u8,
        /// The slot.
        slot: u8,
    },
    /// A cycle of single transfers.
    SingleCycles,
    /// A cycle of a block transfer.
    BlockCycles,
    /// A cycle that acknowledges no interrupt, and whose address modifier code is user-defined or reserved, or has an
    /// unknown bit.
    FreeCycles,
    /// A cycle that acknowledges an interrupt.
    InterruptCycles,
    /// An answered read. One without an answer is of the kind `PendingTransfers` alone; `Counts::reads` of vme_audit
    /// has both.
    AnsweredReads,
    /// An answered write. One without an answer is of the kind `PendingTransfers` alone; `Counts::writes` of vme_audit
    /// has both.
    AnsweredWrites,
    /// A transfer that DTACK answered.
    AnsweredByDtack,
    /// A transfer that BERR answered.
    AnsweredByBerr,
    /// A transfer without an answer.
    PendingTransfers,
    /// A reset of the bus that ended what was judged.
    Resets,
}

/// What can be open where a listing ends.
#[derive(Clone, Copy, Debug, PartialEq, Eq)]
pub enum Part {
    /// A tenure of the bus.
    Tenure,
    /// A cycle.
    Cycle,
    /// A transfer: not answered, or not closed.
    Transfer,
}

/// Whether a row is of a kind.
#[inline(always)]
pub(crate) fn is_of(kind: RowKind, row: &Row) -> bool
    ensures { result ≡ is_of kind row.now }
{
    match kind {
        RowKind::OpenTenures => matches!(row, Row::OpenTenure { .. }),
        RowKind::Tenures { level, slot } => is_tenure_of(row, level, slot),
        RowKind::SingleCycles => is_cycle_of(row, Class::S),
        RowKind::BlockCycles => is_cycle_of(row, Class::K),
        RowKind::FreeCycles => matches!(row, Row::FreeCycle { .. }),
        RowKind::InterruptCycles => matches!(row, Row::InterruptCycle { .. }),
        RowKind::AnsweredReads => is_transfer_in(row, Direction::Read),
        RowKind::AnsweredWrites => is_transfer_in(row, Direction::Write),
        RowKind::AnsweredByDtack => is_answered_by(row, AnswerLine::Dtack),
        RowKind::AnsweredByBerr => is_answered_by(row, AnswerLine::Berr),
        RowKind::PendingTransfers => matches!(row, Row::PendingTransfer { .. }),
        RowKind::Resets => is_reset(row),
    }
}

/// Whether a row is a reset.
fn is_reset(row: &Row) -> bool
    ensures { result ≡ is_reset row.now }
{
    matches!(row, Row::Reset { .. })
}

/// Whether a row is a tenure by the grant of this level in this slot.
fn is_tenure_of(row: &Row, level: u8, slot: u8) -> bool
    ensures { result ≡ is_tenure_of level slot row.now }
{
    match row {
        Row::Tenure {
            level: granted,
            slot: taken,
            ..
        } => *granted == level && *taken == slot,
        _ => false,
    }
}

/// Whether a row is a cycle with an address, of this class.
fn is_cycle_of(row: &Row, class: Class) -> bool
    ensures { result ≡ is_cycle_of class row.now }
{
    match row {
        Row::AddressedCycle { class: own, .. } => *own == class,
        _ => false,
    }
}

/// Whether a row is an answered transfer in this direction.
fn is_transfer_in(row: &Row, direction: Direction) -> bool
    ensures { result ≡ is_transfer_in direction row.now }
{
    match row {
        Row::Transfer { direction: own, .. } => *own == direction,
        _ => false,
    }
}

/// Whether a row is a transfer that this line answered.
fn is_answered_by(row: &Row, line: AnswerLine) -> bool
    ensures { result ≡ is_answered_by line row.now }
{
    match row {
        Row::Transfer { line: own, .. } => *own == line,
        _ => false,
    }
}

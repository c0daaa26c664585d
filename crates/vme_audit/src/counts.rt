//! How many resets, tenures, cycles and transfers a recording has.

/// How many of each a recording has: resets of the bus that ended a judged stretch, tenures, cycles by their class, and
/// transfers by their direction and by their answer.
#[derive(Clone, Copy, Debug, PartialEq, Eq)]
pub struct Counts {
    /// Resets of the bus that ended a judged stretch.
    pub resets: u64,
    /// Tenures that a fall of BBSY* began.
    pub tenures: u64,
    /// Cycles of single transfers.
    pub single: u64,
    /// Cycles of block transfers.
    pub block: u64,
    /// Cycles that acknowledge no interrupt, and whose address modifier code is user-defined or reserved, or has an
    /// unknown bit.
    pub free: u64,
    /// Cycles that acknowledge an interrupt: IACK* is low as AS* falls.
    pub acknowledge: u64,
    /// Reads: data go from the slave to the master. Those that are pending count too; vme_account counts answered reads
    /// alone as `RowKind::AnsweredReads`.
    pub reads: u64,
    /// Writes: data go from the master to the slave. Those that are pending count too.
    pub writes: u64,
    /// Transfers that DTACK* answered.
    pub by_dtack: u64,
    /// Transfers that BERR* answered.
    pub by_berr: u64,
    /// Transfers that weren't answered before a break, a reset or the end. Each is a read or a write too.
    pub pending: u64,
}

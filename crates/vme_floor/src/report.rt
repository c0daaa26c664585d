//! The result of a run.

use crate::answer::Answers;
use vme_summary::Span;
use vme_trace::{Capture, Verdict};

/// The result of a run with a verdict.
#[derive(Drop)]
pub struct Report {
    /// The verdict on the recording.
    pub verdict: Verdict,
    /// The summary of its blocks for all monitors; `Span::listing` gives the listing of the recording.
    pub span: Span,
    /// The recording: the blocks that were filed, joined in the order of their numbers.
    pub capture: Capture,
    /// One answer for each delivery, in their order.
    pub answers: Answers,
    /// How many blocks were taken off the board and put into the book before the threads were joined, 0 to the total.
    pub early: u32,
}

/// Why a run gives no report, in the order in which the reasons are checked. Memory may also run out at the end, for
/// the joined recording.
#[derive(Drop)]
pub enum RunFault {
    /// The total isn't 1 to 4,096.
    BadTotal,
    /// There are more than 65,536 deliveries.
    BadDraws,
    /// The number of workers isn't 1 to 64.
    BadWorkers,
    /// Memory ran out.
    Memory,
    /// A thread couldn't be started.
    NoWorker,
    /// The benches of the workers don't account for what the board holds. This is never returned: the bench of all
    /// workers has the whole share, and so has done all that was done on the board.
    Stray,
    /// No delivery of a number was filed.
    Missing {
        /// The least such number.
        number: u32,
        /// One answer for each delivery, in their order.
        answers: Answers,
    },
    /// A block doesn't join those before it.
    Torn {
        /// The least number of such a block.
        number: u32,
        /// One answer for each delivery, in their order.
        answers: Answers,
    },
}

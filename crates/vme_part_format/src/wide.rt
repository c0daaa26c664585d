//! Breaks and marks whose numbers have 64 bits.

use vme_monitor::mark::MarkKind;
use vme_trace::{Line, Rule};

/// A violation of a rule: when, and on which line.
#[derive(Clone, Copy, Debug, PartialEq, Eq)]
pub struct WideBreak {
    /// At which instant: 1 is the first step.
    pub instant: u64,
    /// The time of that instant, in the unit of the recording.
    pub time: u64,
    /// The rule that is broken.
    pub rule: Rule,
    /// The line whose edge or level breaks it.
    pub line: Line,
}

/// An event of the bus, and when it happens.
#[derive(Debug, PartialEq, Eq, Drop)]
pub struct WideMark {
    /// At which instant: 1 is the first step.
    pub instant: u64,
    /// What happens.
    pub kind: MarkKind,
}

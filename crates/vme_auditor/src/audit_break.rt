//! A break of a recording of any length.

use vme_trace::{Line, Rule};

/// A rule that is broken: at which instant, and on which line.
#[derive(Clone, Copy, Debug, PartialEq, Eq)]
pub struct AuditBreak {
    /// The instant: 0 is the opening, and `i` is the `i`-th step.
    pub instant: u64,
    /// The time of that instant, in the unit of the recording.
    pub time: u64,
    /// The rule that is broken.
    pub rule: Rule,
    /// The line whose edge or level breaks it.
    pub line: Line,
}

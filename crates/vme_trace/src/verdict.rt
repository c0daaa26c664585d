//! The verdict on a recording, and the break of a rule.

use crate::line::Line;
use crate::rule::Rule;

/// A rule that is broken: when, and on which line.
#[derive(Clone, Copy, Debug, PartialEq, Eq)]
pub struct Break {
    /// The instant of the break: 0 is the opening, and i the i-th step.
    pub instant: u32,
    /// The time of that instant, in the unit of the recording.
    pub time: u64,
    /// The rule that is broken.
    pub rule: Rule,
    /// The line whose edge or level breaks it.
    pub line: Line,
}

/// The verdict of the rules on a recording.
#[derive(Clone, Copy, Debug, PartialEq, Eq)]
pub enum Verdict {
    /// No rule is broken.
    Conforming,
    /// This is the first break, and the recording is wrong there.
    Broken(Break),
    /// This is the first break, and the recording can't be read on there.
    Unreadable(Break),
    /// The bus is idle at no instant, so nothing was judged.
    NeverIdle,
}

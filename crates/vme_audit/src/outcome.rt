//! The outcome of an audit, and why a recording isn't covered.

/// Why a recording without breaks, but for allowed ones, isn't covered.
#[derive(Clone, Copy, Debug, PartialEq, Eq)]
pub enum CoverageGap {
    /// The bus is idle at no instant, so nothing was judged.
    NeverIdle,
    /// The bus is idle at no instant from the last break on, which is at this instant.
    NeverIdleBehind { instant: u64 },
    /// Only `answered` transfers were answered, fewer than the `wanted` ones that are required.
    FewAnswers { answered: u64, wanted: u64 },
    /// A transfer that starts at this instant and time, in the unit of the recording, is still without an answer at the
    /// end.
    Hang { instant: u64, time: u64 },
}

/// The outcome of an audit.
#[derive(Clone, Copy, Debug, PartialEq, Eq)]
pub enum Outcome {
    /// There are no breaks but `allowed` ones that are allowed, and the recording is covered.
    Conforming { allowed: u64 },
    /// There are no breaks but allowed ones, and the recording isn't covered.
    NotCovered { gap: CoverageGap },
    /// A rule is broken by what the bus did, and that isn't allowed.
    Broken,
    /// There are breaks that aren't allowed, all of them by a line that is unknown.
    Unreadable,
}

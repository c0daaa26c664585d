//! The answers about the whole recording.

use vme_part_format::WideBreak;

/// The verdict on a recording. Its numbers have 64 bits.
#[derive(Clone, Copy, Debug, PartialEq, Eq)]
pub enum WideVerdict {
    /// No rule is broken.
    Conforming,
    /// This is the first break, and the recording is wrong there.
    Broken(WideBreak),
    /// This is the first break, and the recording can't be read on there.
    Unreadable(WideBreak),
    /// The bus is idle at no instant, so nothing was judged.
    NeverIdle,
}

/// The answer of a part about the whole recording.
#[derive(Clone, Copy, Debug, PartialEq, Eq)]
pub enum RecordingAnswer {
    /// This is the last file that is covered, and the recording has only files before it.
    Beyond(u64),
    /// This file isn't covered, and it is the least such.
    Missing(u64),
    /// This file doesn't follow those before it, and it is the least such.
    Torn(u64),
    /// Files that follow one another have more steps than 64 bits count.
    TooManySteps,
    /// The verdict of the recording.
    Verdict(WideVerdict),
}

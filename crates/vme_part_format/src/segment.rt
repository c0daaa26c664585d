//! Files that follow one another, judged as one.

ghost use Rattle.std.specs.Prelude.{◌≡◌, ◌^◌, ◌<◌};
ghost use Rattle.vme_part_format.specs.Tables.{last_of};

use crate::table::OutcomeTable;
use vme_trace::Lines;

/// When the steps of a segment are.
#[derive(Clone, Copy, Debug, PartialEq, Eq)]
pub struct SegmentTimes {
    /// The number of the first file that has a step.
    pub number: u64,
    /// The time of the first step.
    pub first: u64,
    /// The time of the last step.
    pub last: u64,
}

/// What judging 2^`order` consecutive files gives, for each memory in which each monitor may begin. The first file has
/// the number `first`, a multiple of 2^`order`.
#[derive(Debug, Drop)]
pub struct Segment {
    /// The number of the first file.
    pub first: u64,
    /// The segment has 2^`order` files.
    pub order: u8,
    /// How many steps the files have.
    pub steps: u64,
    /// The levels before the first step.
    pub opening: Lines,
    /// The levels after the last file.
    pub left: Lines,
    /// When the steps are, if there are any.
    pub times: Option<SegmentTimes>,
    /// Where judging begins and ends, and rule U1.
    pub known: OutcomeTable,
    /// The handshake.
    pub handshake: OutcomeTable,
    /// Held lines.
    pub stability: OutcomeTable,
    /// Grants.
    pub grant: OutcomeTable,
    /// Interrupt acknowledge.
    pub acknowledge: OutcomeTable,
}

/// How many memories (states) each monitor has, in the order of a segment's tables.
pub const MEMORY_COUNTS: [u32; 5] = [4, 147, 13, 35, 11];

/// How many files a segment of order `order` covers.
pub(crate) fn file_count(order: u8) -> u64
    requires { order < 63 }
    ensures { result ≡ 2 ^ order }
{
    1u64 << order
}

/// The number of the last file of a segment.
pub(crate) fn last_file(first: u64, order: u8) -> u64
    requires order { order < 63 }
    requires first { first < 2 ^ 63 }
    ensures { result ≡ last_of first order }
{
    first + (file_count(order) - 1)
}

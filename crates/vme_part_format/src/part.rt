//! A part: what judging some files of a recording gives.

use crate::segment::Segment;

/// What judging some files of a recording gives, for each state in which they may begin.
#[derive(Debug, Drop)]
pub struct Part {
    /// The sum of the backplane: a checksum of its slots and of each line's level before any change.
    pub backplane: u64,
    /// Whether there are marks for a listing.
    pub listing: bool,
    /// The segments, in ascending order. No two have a file in common.
    pub segments: Vec<Segment>,
}

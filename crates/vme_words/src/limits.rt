//! The limits of the numbers in a command line.

/// The most steps that a block has.
pub const MOST_STEPS: u32 = 65_536;

/// The most workers that read and judge a dump.
pub const MOST_WORKERS: u32 = 64;

/// The most slots that a backplane has.
pub const MOST_SLOTS: u32 = 21;

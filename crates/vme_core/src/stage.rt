//! The stages of a number of a board.

/// How far a number of a board has come. A number never goes back.
#[derive(Clone, Copy, Debug, PartialEq, Eq)]
pub enum Stage {
    /// No bench has claimed it.
    Free,
    /// A bench has claimed it, and not filed it yet.
    Claimed,
    /// Its block was filed.
    Filed,
    /// Its block was filed, and taken.
    Taken,
}

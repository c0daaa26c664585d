//! The faults of a text that isn't a listing.

/// Why a text isn't a listing: its first fault from the top. Rows are counted from 1, after the header.
#[derive(Clone, Copy, Debug, PartialEq, Eq)]
pub enum ListFault {
    /// The text doesn't begin with the header of a version and its line feed.
    BadHeader,
    /// The line isn't the text of a row that may be there by its form, or the row is missing.
    BadRow {
        /// The number of the row.
        row: usize,
    },
    /// The row may follow the one before it by its form, but not by its instant and kind.
    Unsorted {
        /// The number of the row.
        row: usize,
    },
    /// Memory ran out.
    Memory,
}

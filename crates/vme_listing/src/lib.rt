//! The listing of a recording of a VMEbus: its tenures, cycles and transfers, one row each, and the
//! verdict. As values, as text, and what the listing of a recording is.
//!
//! # Parts
//!
//! - `row`, `listing`: the rows and versions; a listing.
//! - `place`: which rows there are, and which may follow which.
//! - `text`, `write`: the text of rows; a listing written in pieces ([`write_listing`]).
//! - `words`, `read`, `fault`: the row that a line may be; a listing from its text
//!   ([`read_listing`]); the first fault of a text.
//! - `listing_reader`: the rows of a text that comes in pieces, one by one ([`ListingReader`]);
//!   `row_reader`: those of a whole text ([`RowReader`]).
//!
//! # What is proved
//!
//! - [`write_listing`] writes exactly the text of the listing (`whole`), and up to a failure a
//!   prefix of it (`front`).
//! - [`read_listing`] gives a well placed listing exactly where the bytes are its text
//!   (`listing`, `only`), and else names the first fault (`first`, `none`).
//! - [`listings_are_well_placed`]: the listing of every recording is, so what is written of it is
//!   read back as it was.
//! - [`RowReader::next`] gives the rows of a text one by one, and by the same reading the first
//!   fault. [`ListingReader::next`] does so from the next bytes of a text: no line has more than
//!   [`LONGEST_LINE`] bytes, so the row at their start doesn't depend on the bytes after them.
//!
//! # What isn't proved
//!
//! That memory suffices for reading; writing takes none. That the rows of a recording say what
//! happens on the bus: vme_split proves it.
//!
//! # Limits
//!
//! There are versions 1 to 3: from 2 on a write has its data, and 3 has resets. The decimal numbers
//! of a text are below 2^32. A line has at most 96 bytes. A listing is written in pieces of at most
//! 4,096 bytes.
//!
//! # In which order to read
//!
//! docs/FORMATS.md; `specs/Recorded` (what the listing of a recording is), `specs/RowText`,
//! `specs/Places`, `specs/Reading`; then `write` and `read`.
#![tactic(auto)]

pub mod fault;
mod line;
pub mod listing;
pub mod listing_reader;
mod place;
pub mod read;
pub mod row;
pub mod row_reader;
pub mod text;
mod words;
pub mod write;

pub use fault::ListFault;
pub use listing::{Listing, listings_are_well_placed};
pub use listing_reader::ListingReader;
pub use read::read_listing;
pub use row::{AnswerLine, Direction, ListedVerdict, Row, Version};
pub use row_reader::RowReader;
pub use text::{
    LONGEST_LINE, address_digits, answer_text, class_text, data_digits, decimal_digits,
    direction_text, hexadecimal_digits,
};
pub use write::{Write, write_listing};

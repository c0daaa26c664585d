//! The byte format of parts. A part is a partial result: what judging files of a recording gives,
//! for each state in which they may begin.
//!
//! # Parts of this crate
//!
//! - `part`, `segment`, `table`, `wide`: the contents of a part. A [`Part`] has segments, i.e. files
//!   that follow one another and are judged as one. A [`Segment`] has five tables, one for each
//!   monitor. A monitor's memory is the state of its automaton. An [`OutcomeTable`] has an entry for
//!   each memory in which the segment may begin, and nodes that several runs share. A break is a
//!   violation of a rule, and a mark an event of the bus with its instant. Their numbers have 64
//!   bits.
//! - `write`: [`write_part`] writes the bytes of a part.
//! - `read`, `fields`, `levels`, `marks`, `tables`: [`read_part`] reads them. The bytes come from
//!   elsewhere and are not trusted.
//! - `numbers`: numbers as bytes.
//! - `sum`: [`sum_of_bytes`], the checksum that a part ends with.
//! - `fault`: why bytes are no part.
//!
//! # What is proved
//!
//! - For a part within the bounds (`specs/Bounds`), [`write_part`] writes its encoding, `part_bytes`
//!   (`specs/PartText`). Without marks it has at most 4,034 bytes a segment, and 29 more.
//! - [`read_part`] inverts `part_bytes`: it accepts only encodings of parts (`found`), and accepts
//!   each, unless allocation fails (`only`). Else it answers the first fault with its place
//!   (`exact`, by `part_at` of `specs/Reading`). An encoding with one byte changed is refused
//!   (`changed`).
//! - [`sum_of_bytes`] is FNV-1a. It differs for byte strings of equal length that differ in one byte.
//!
//! # What isn't proved
//!
//! That memory suffices. That a part that is read was made from real files: anyone can write a
//! well-formed one.
//!
//! # Limits
//!
//! Numbers of files are below 2^63. `specs/Bounds` has the others. docs/PARTS.md has the format in
//! words.
#![tactic(auto)]

mod fault;
mod fields;
mod levels;
mod marks;
mod numbers;
mod part;
mod read;
mod segment;
mod sum;
mod table;
mod tables;
mod wide;
mod write;

pub use fault::{FieldError, FieldFault, PartFault, PartFaultKind, ReadError};
pub use part::Part;
pub use read::read_part;
pub use segment::{MEMORY_COUNTS, Segment, SegmentTimes};
pub use sum::sum_of_bytes;
pub use table::{OutcomeTable, STAYS, TableEntry, TableNode};
pub use wide::{WideBreak, WideMark};
pub use write::write_part;

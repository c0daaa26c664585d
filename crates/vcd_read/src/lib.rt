//! A reader of four-state value change dumps (IEEE Std 1364-2005, clause 18), read whole, piece by
//! piece, or in pieces that are read separately and joined.
//!
//! # Parts
//!
//! - `read`, `dump`, `fault`: the whole dump of a text ([`read_vcd`]); its variables and their
//!   values at its instants; the first fault, with its line.
//! - `token`, `runs`, `shape`, `number`, `bits`: the tokens of a text; where runs of bytes end;
//!   what a token of the body is; decimal numbers; digits as the bits of a value.
//! - `header`, `reference`, `scopes`, `variables`, `codes`, `code_index`, `one_byte_codes`,
//!   `declaration_visitor`: the definitions, and the visitors that take them.
//! - `body`, `body_state`, `body_piece`, `open_item`, `change_visitor`, `timed_visitor`,
//!   `instant_collector`: the changes, and the visitors that take them.
//! - `stopped`: the first fault of a body, with the visitor that took what precedes it.
//! - `head`, `pieces`, `detached_piece`: a text whose definitions are read; a body that comes in
//!   pieces; pieces that are read before the ones that precede them.
//! - `lines`: how many line feeds a text has.
//! - `byte_consumer`: a consumer of the bytes of an input as they are read, and the outcome of the
//!   input ([`ByteConsumer`]); `read_by` of vme_stream gives the bytes to it.
//!
//! # What is proved
//!
//! - [`read_vcd`] answers exactly the value that the grammar gives the text, or its first fault
//!   with the fault's line (`dump_of`), or lack of memory. [`read_definitions`] and
//!   [`Head::read_body`] give the same value, part by part, to a visitor.
//! - What [`read_front`] and [`BodyReader`] answer of a part of a text, a fault included, is the same
//!   whatever follows (`HeaderContinuesAs`, `BodyContinuesTo`). A fault of the body comes with the
//!   visitor that took all that precedes it, and with the last time there ([`Stopped`],
//!   `ContinuesOrStops`).
//! - A piece that is read separately is read as in its place, where it fits, and `may_join` says
//!   yes exactly there (`IsReadDetached`, `MayFollow`).
//! - [`whole_tokens`] cuts a text between two tokens (`apart`).
//! - [`is_space`], [`word_end`], [`is_end`], [`opens_section`], [`are_bits`] and [`time_of`] answer
//!   what the grammar says of a byte, of the end of a word, of a token and of digits.
//! - [`bracketed`] finds the brackets that a reference ends with, and [`index_between`] answers the
//!   numbers between them.
//!
//! # What isn't proved
//!
//! That memory suffices, how much of it is taken, and how long reading takes (docs/GROWTH.md
//! measures both); the texts of `Debug` and `Display`.
//!
//! # Limits
//!
//! A variable has at most 65,536 bits, and a time is below 2^64; beyond that the fault is
//! `NumberTooLarge`. There are at most 2^32 - 1 codes; beyond that the fault is `Memory`.
//! Changes of reals (`r`) and strings (`s`) are read and skipped. Extended dumps (`$dumpports`)
//! aren't read.
//!
//! # In which order to read
//!
//! `specs/Tokens`, `specs/Header`, `specs/Body` and `specs/Meaning` are the grammar,
//! docs/FORMATS.md says it in words, and `specs/WorkedDumps` computes examples. Then `read`,
//! `pieces` and `detached_piece`.
#![tactic(auto)]

mod bits;
mod body;
mod body_piece;
mod body_state;
mod byte_consumer;
mod change_visitor;
mod code_index;
mod codes;
mod declaration_visitor;
mod detached_piece;
mod dump;
mod fault;
mod head;
mod header;
mod instant_collector;
mod lines;
mod number;
mod one_byte_codes;
mod open_item;
mod pieces;
mod read;
mod reference;
mod runs;
mod scopes;
mod shape;
mod stopped;
mod timed_visitor;
mod token;
mod variables;

pub use bits::bit_at;
pub use byte_consumer::ByteConsumer;
pub use change_visitor::ChangeVisitor;
pub use declaration_visitor::{Declaration, DeclarationVisitor};
pub use detached_piece::DetachedPiece;
pub use dump::{Bit, Bits, Dump, Instant, Path, Value, Values, Variable};
pub use fault::{FaultKind, VcdFault};
pub use head::{Head, read_definitions};
pub use header::opens_section;
pub use lines::line_feeds;
pub use number::time_of;
pub use pieces::{BodyReader, Front, read_front};
pub use read::read_vcd;
pub use reference::{bracketed, index_between};
pub use scopes::Scopes;
pub use shape::{are_bits, is_end};
pub use stopped::Stopped;
pub use token::{is_space, whole_tokens, word_end};
pub use variables::Variables;

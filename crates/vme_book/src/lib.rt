//! A book, i.e. a reorder buffer: it collects judged blocks of a recording, which arrive in any
//! order, by number, and joins them.
//!
//! # Parts
//!
//! - `book`: [`Book::insert`] takes a judged block at its number, [`Book::so_far`] gives the
//!   verdict of the blocks from number 0 on that are inserted and join, and [`Book::close`] gives
//!   the span and the recording of all of them.
//! - `places`: the blocks and their spans, at their numbers.
//! - `joined`: the first blocks, joined to one span.
//! - `recording`: the recording of the joined blocks.
//!
//! Contracts see a book as a list: at each number the block that was inserted there, if there is
//! one. What a book keeps is `Keeps` in `specs/BookState`: the blocks and spans at their numbers,
//! how far judging has come from block 0 on, and the joined first blocks.
//!
//! # What is proved
//!
//! - [`Book::insert`] puts a block at its number (`inserted`). Otherwise it names the fault
//!   (`why`), hands the block back and leaves the book as it was (`handed_back`, `unchanged`), also
//!   where memory is short.
//! - [`Book::so_far`] is the verdict of the longest list of blocks from number 0 on that are
//!   inserted and join. It takes no memory.
//! - [`Book::close`] gives the span and the recording of all blocks (`whole`), or the least number
//!   that is missing, or else the least block that doesn't join those before it (`why`), and then
//!   hands the book back as it was.
//!
//! # What isn't proved
//!
//! That memory suffices, and how long a call takes.
//!
//! # Limits
//!
//! A book has 1 to 4,096 numbers. Start reading at `specs/Inserted` and `book`.
#![tactic(auto)]

mod book;
mod joined;
mod places;
mod recording;

pub use book::{Book, BookFault, CloseFault, InsertFault, Whole};

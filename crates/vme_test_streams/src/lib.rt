//! A sink, a writer and a reader that tests give to what they try, the words of a command line, and
//! what a command is to answer. Crates of tests use it, and no others.
//!
//! # Parts
//!
//! - `limited_sink`: [`LimitedSink`], a sink that keeps what is written, as far as it has room.
//! - `piece_writer`: [`PieceWriter`], a writer of std's that does so a few bytes a write.
//! - `piece_reader`: [`PieceReader`], a reader of std's that gives a text a few bytes a read, and
//!   then ends or fails.
//! - `words`: [`words_of`], the words in a line.
//! - `answer`: [`has_answered`], whether a command answered a [`WantedAnswer`].
//!
//! # What is proved
//!
//! That each call returns, and that the sink, the writer and the reader are what their traits ask.
//!
//! # What isn't proved
//!
//! Which bytes they give and keep, and which words a line has: no call has a contract. The crates
//! of tests know what comes of them, and a test of one of these refuses each edit of `must-fail`.
//!
//! # Limits
//!
//! A write for which there is no memory fails.
#![tactic(auto)]

mod answer;
mod limited_sink;
mod piece_reader;
mod piece_writer;
mod words;

pub use answer::{WantedAnswer, has_answered};
pub use limited_sink::LimitedSink;
pub use piece_reader::PieceReader;
pub use piece_writer::PieceWriter;
pub use words::words_of;

//! A dump's text that is read and judged by several workers, a piece of it at a time.
//!
//! # Parts
//!
//! - `by_workers`: [`read_by_workers`] does with a piece what `TextReader::read` of vme_bind does.
//!   What precedes its first time and follows its last is read in order.
//! - `cut`: the rest is cut where times begin.
//! - `speculative`, `chunks`: each part is read ahead of those before it, from the levels that
//!   likely hold there, and judged as it is read.
//! - `speculation`: whether the assumed levels were wrong. If so, a first pass over the parts reads
//!   what they do to the lines.
//! - `detached`: calls that are made in parallel, by one thread for each worker, where it can be
//!   made. There are four parts for each worker, the longest first, and a thread that is done with
//!   one takes the next.
//! - `joining`: the parts joined in order. A part that was read from wrong levels is read again,
//!   from the right ones.
//! - `in_order`: the first part that doesn't fit, and all parts after it, are read in order.
//!
//! # What is proved
//!
//! [`read_by_workers`]: for every number of workers, and whatever levels were assumed, the result
//! is that of reading the piece in order (`line`, `rest`), or that memory ran out. A thread that
//! can't be started changes no answer.
//!
//! # What isn't proved
//!
//! That workers overlap, how fast they are, that each part is taken by one of them, how often an
//! assumption is right, and that memory suffices. `tests/workers/run` compares what the program
//! answers by 1, 2, 3, 4 and 64 workers; this crate has no tests of its own.
//!
//! # Limits
//!
//! The levels before a part are guessed from the 16,384 bytes before it. Steps are judged 16,384 at
//! a time. Start reading at `by_workers`; docs/ARCHITECTURE.md has the picture.
#![tactic(auto)]

mod by_workers;
mod chunks;
mod cut;
mod detached;
mod in_order;
mod joining;
mod speculation;
mod speculative;

pub use by_workers::read_by_workers;
pub use speculation::Speculation;

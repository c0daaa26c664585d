//! Tests of vme_summary: worked recordings judged in blocks of every size, their listings, spans
//! that move between threads, and chunks that are judged by themselves.
//!
//! - `tests`: verdicts, and spans of single steps that are joined from the left, from the right and
//!   by halves, against values that are written with the recordings. `each_growth_fails_once` is made
//!   for `tests/memory/run`, which refuses each of its allocations in turn.
//! - `listing_tests`: the rows of listings, as texts that are written and read back.
//! - `moving_tests`: judged blocks in a list, in a table of atomic_table and through a thread.
//! - `chunk_tests`: chunks that are judged separately and passed in order, wherever the recording is
//!   cut.
//!
//! Not tried here: a break of each of the rules. vme_eval has one of each, and
//! `tests/recordings/run` tries the program on them.
#![tactic(auto)]

#[cfg(test)]
mod chunk_tests;
#[cfg(test)]
mod listing_tests;
#[cfg(test)]
mod moving_tests;
#[cfg(test)]
mod tests;

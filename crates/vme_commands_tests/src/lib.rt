//! Tests of vme_commands and vme_text_commands: what the commands write and return for inputs,
//! compared with expected answers.
//!
//! - `tests`: verdicts, listings, faults of each input, bindings, explanations, what an audit
//!   allows. `want_of_memory_is_told` is made for `tests/memory/run`, which refuses each of its
//!   allocations in turn.
//! - `stream_tests`: readers that fail or never end, and writers that fail, at each place; inputs
//!   that are too long.
//! - `piece_tests`: dumps that are cut anywhere and read by several workers.
//! - `skew_tests`: commands with a skew.
//!
//! Not tried here: files, pipes and terminals, on which `./test` runs the program, and dumps of
//! many megabytes that are hard to cut (`tests/workers/run`).
#![tactic(auto)]

#[cfg(test)]
mod piece_tests;
#[cfg(test)]
mod skew_tests;
#[cfg(test)]
mod stream_tests;
#[cfg(test)]
mod tests;

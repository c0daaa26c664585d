//! Tests of vme_confirm_command: listings that are confirmed, and that aren't, and faults of each
//! input.
//!
//! - `tests`: the answer to whole texts, the order of faults, a skew, a reset.
//!   `want_of_memory_is_told` is made for `tests/memory/run`, which refuses each of its allocations
//!   in turn.
//! - `piece_tests`: dumps and listings that come in pieces of any length, readers that fail at each
//!   place, outputs that are full, and a listing that is longer than a dump may be.
//!
//! Not tried here: files, pipes and terminals, on which `./test` runs the program, and long
//! recordings (`tests/growth`).
#![tactic(auto)]

#[cfg(test)]
mod piece_tests;
#[cfg(test)]
mod tests;

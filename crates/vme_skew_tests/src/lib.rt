//! Tests of vme_skew: what worked recordings settle to, and memory that is refused.
//!
//! The steps that come out of a `StepSettler`, and those that a `SettlingVisitor` passes on, are
//! compared with those that are given beside the recordings. Settled steps that are more than the
//! skew apart stay as they are.
//! `want_of_memory_is_the_error` is made for `tests/memory/run`, which refuses each of its
//! allocations in turn. Commands by a skew are tried in vme_commands_tests.
#![tactic(auto)]

#[cfg(test)]
mod tests;

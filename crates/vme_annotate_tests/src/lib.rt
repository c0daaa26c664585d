//! Tests of vme_annotate: annotated dumps and listings with times, compared with expected texts.
//!
//! What is written for each body and each head was made by a program in Python that shares nothing
//! with the crate. The listing of each annotated dump is compared with that of the dump itself.
//! `want_of_memory_is_told` is made for `tests/memory/run`, which refuses each of its allocations
//! in turn.
#![tactic(auto)]

#[cfg(test)]
mod tests;

//! Tests of vme_step_reader: the steps of texts that come in pieces of many sizes.
//!
//! The expected steps, faults and times are given beside the texts. Tried are pieces from one byte
//! on, faults of bodies, with the steps and the time before them, faults of definitions and of a
//! binding, definitions that don't end, and definitions that end as the text does.
//! `want_of_memory_is_the_fault` is made for `tests/memory/run`, which refuses each of its allocations
//! in turn.
#![tactic(auto)]

#[cfg(test)]
mod tests;

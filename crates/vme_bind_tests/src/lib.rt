//! Tests of vme_bind: binding texts and their faults, and the recordings that bindings make of
//! dumps.
//!
//! The expected steps, levels and faults are beside the texts. Recordings are made of texts, some
//! also of a dump that was read before and of pieces that are read ahead. Tried are paths,
//! selections, vectors, openings, data lines that are left out, faults of bindings with their
//! lines, what a dump lacks, every prefix of a binding, and which of several faults comes first.
//! The two tests of lack of memory are made for `tests/memory/run`, which refuses each of their
//! allocations in turn.
//!
//! Not tried: `TooManySteps`, which takes over 268,435,456 steps.
#![tactic(auto)]

#[cfg(test)]
mod tests;

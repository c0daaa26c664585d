//! Tests of vcd_read: dumps and what they say, faults and their lines, and memory that is refused.
//!
//! The expected values and faults are given beside the texts; those of joined pieces are the ones
//! of reading the same text in order. Texts are read whole, in pieces of several sizes, and in
//! pieces that are read separately and joined. Vectors and codes of each length are tried at each
//! place before and after spaces, since they are read some bytes at a time; every prefix of a
//! recording is a dump or has a fault at one of its lines. `want_of_memory_is_the_fault` is made
//! for `tests/memory/run`, which refuses each of its allocations in turn.
//!
//! Not tried here: files, and texts of many megabytes, on which `tests/cuts/run`,
//! `tests/workers/run` and `tests/mutation/mutate.py` run the program.
#![tactic(auto)]

#[cfg(test)]
mod tests;

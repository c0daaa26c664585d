//! Tests of vme_trace: what a recording is, cuts and blocks, steps that are malformed, and memory
//! that is refused.
//!
//! They compare the results of the public calls with values that are given beside them: names and
//! numbers of lines, names of rules, the lines of a backplane, idle buses, the class and the address
//! lines of modifier codes, moved data lines, the first malformed step by a block and by a capture,
//! the blocks of a read, and cuts at the bounds of their sizes and numbers. `refused_memory` is made
//! for `tests/memory/run`, which refuses each of its allocations in turn.
//!
//! Not tried here: the definitions themselves. The laws of vme_rules_eval and of the crates below it
//! compute what they say of worked recordings.
#![tactic(auto)]

#[cfg(test)]
mod tests;

//! Tests of vme_audit_command: what an audit writes and returns, with the expected results beside
//! the inputs.
//!
//! - `tests`: outcomes, breaks, allowances, stops, skews, faults, several dumps; the JUnit file; a
//!   dump that is read in portions of any length; readers and writers that fail, at each place.
//!   `want_of_memory_is_told` is for a run that refuses each of its allocations in turn.
//!
//! Not tested here: files, pipes and terminals, on which `./test` runs the program.
#![tactic(auto)]

#[cfg(test)]
mod tests;

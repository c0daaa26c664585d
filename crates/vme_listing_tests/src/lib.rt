//! Tests of vme_listing: listings written, read back, and refused.
//!
//! The texts are given beside the rows: reads in each space, writes with each pattern of moved bytes,
//! resets, verdicts, and each version. Faults are compared by kind and row: bad headers and lines,
//! rows in a wrong place or order, data that a version has or lacks, and every prefix of a listing.
//! Sinks fail at some place; `fronts` is made for `tests/memory/run`, which refuses each of its
//! allocations in turn. `tests/definitions/try_forms` edits the code that says which rows there may
//! be, and a test has to refuse each edit.
//!
//! Not tried here: listings of recordings, which vme_summary_tests and vme_cert_tests have.
#![tactic(auto)]

#[cfg(test)]
mod tests;

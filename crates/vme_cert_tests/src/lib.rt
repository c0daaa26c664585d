//! Tests of vme_cert: listings that are confirmed, and rows that are not.
//!
//! The rows are given beside the recordings. Of each listing every row is left out, changed or
//! added, and the first row that differs has to be named. Data lines, resets, listings of older
//! versions and texts with a fault are tried too. `listings` is made for `tests/memory/run`, which
//! refuses each of its allocations in turn.
//!
//! Not tried here: long recordings (`tests/growth`), and the examples, which `./test` confirms by
//! the program.
#![tactic(auto)]

#[cfg(test)]
mod tests;

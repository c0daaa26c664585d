//! Tests of vme_rules and vme_text.
//!
//! - `tests`: the page on one rule, compared with the text that is given beside it, and the count of
//!   lines of all rules. `tests/texts` compares each of the others with docs/PROTOCOL.md.
//! - `text_tests`: bytes, spaces and a number, compared with the text that they make, and what is
//!   shown of a byte of each kind. `each_growth_fails_once` is made for `tests/memory/run`, which
//!   refuses each of its allocations in turn.
#![tactic(auto)]

#[cfg(test)]
mod tests;
#[cfg(test)]
mod text_tests;

//! Tests of vme_find, vme_declarations, vme_line_names, vme_proposal and vme_variables: bindings
//! found for a dump, and its variables.
//!
//! The lines of the bindings and of the texts are beside the dumps: names of several styles,
//! escaped names, ambiguous paths, data lines, SYSRESET found and left out, dumps without a bus,
//! what is bound where a line wasn't found, and names that control a terminal.
//! `each_growth_fails_once` is made for `tests/memory/run`, which refuses each of its allocations in
//! turn.
//!
//! Not tried here: the names of 32 styles, which `tests/bindings/run` has, and whether what is
//! found is judged right.
#![tactic(auto)]

#[cfg(test)]
mod tests;

//! Tests of vme_faults: the page of one kind, compared with an expected text, the count of lines of
//! all pages, and the kinds of files by their first bytes, as the descriptions of their formats give
//! them; and the variables that are nearest to a path, counted by hand. `tests/texts` compares each page
//! with docs/RECORDING.md. `kept_lines_tests`: the lines that are kept of dumps, cut at each place.
#![tactic(auto)]

#[cfg(test)]
mod kept_lines_tests;
#[cfg(test)]
mod tests;

//! Tests of vme_part_command and of vme_part_listing: a recording of three files. Their parts are
//! made and joined, and the verdict and the listing of the whole are written.
//!
//! - `tests`: the verdict and the listing of the whole, and the message where a file is missing,
//!   torn, differs, is damaged or can't be read. `want_of_memory_is_told` is for `tests/memory/run`,
//!   which refuses each of its allocations in turn.
//!
//! Not tested here: files and processes, on which `tests/parts/run` runs the program.
#![tactic(auto)]

#[cfg(test)]
mod tests;

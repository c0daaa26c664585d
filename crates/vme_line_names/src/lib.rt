//! Which variables of a dump are the lines of a backplane, by their names.
//!
//! # Parts
//!
//! - `names`, `affix`: what the name of a variable means, and what is before and after the name of
//!   a line in it.
//! - `vote`: by which style of names most lines are found in a scope.
//! - `finding`: [`find_lines`], which bits of variables the lines are.
//!
//! # What is proved
//!
//! That each call returns, on any names and levels, unless memory runs out. The result says whether
//! a scope was asked for (`is_asked`), and names at most 10 other scopes (`others`).
//!
//! # What isn't proved
//!
//! Which variables are found, and what counts as a bus. `tests/bindings/run` tries the names of many
//! styles.
//!
//! # Limits
//!
//! Of a variable the leftmost 64 bits are looked at, and in a vote none of a variable that has
//! more. At most 10 other scopes are named.
//!
//! # In which order to read
//!
//! `names`, `affix`, `vote`, `finding`.
#![tactic(auto)]

mod affix;
mod finding;
mod names;
mod vote;

pub use finding::find_lines;

//! The part of one file of a recording, whose steps are given some at a time.
//!
//! # Parts
//!
//! - `file_so_far`: [`FileSoFar`] judges the steps of a dump that is a file, some at a time, and
//!   makes the part of the file in the end.
//! - `segments`: the composition of the tables of steps that follow one another.
//!
//! # What is proved
//!
//! The segment so far stands for the file that the steps make so far (`IsFileSoFar`), and the part
//! is one of the whole file (`into_part`). Except for number 0, the levels after the dump's first
//! time are the opening of the file (`file_of`). Without marks a file is refused only for lack of
//! memory (`refused`). With marks it may be refused for too many nodes too, as more steps are given.
//! How many nodes its tables have then, at most, is known by how many steps were given each time
//! (`nodes`): so it is refused only if there may be too many (`many`).
//!
//! # What isn't proved
//!
//! That memory suffices. The steps aren't kept: without marks a [`FileSoFar`] has the same size
//! however many steps it is given.
//!
//! Start reading at `specs/FileOf`, then `specs/Growing`.
#![tactic(auto)]

mod file_so_far;
mod segments;

pub use file_so_far::FileSoFar;

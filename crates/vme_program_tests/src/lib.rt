//! Tests of vme_program: what the arguments of the command line lead to, over files that are texts.
//!
//! Each command is run once on its happy path, by names that lead to these texts; each input is
//! once one that can't be opened, or another's; and the viewer's file and the file of test cases
//! are put where they are wanted, and nowhere else. Not tried here: the files, links and streams of
//! a system, on which `./test` runs the program.
#![tactic(auto)]

#[cfg(test)]
mod tests;

//! Tests of vme_account, vme_explain and vme_picture.
//!
//! - `account_tests`: the accounts of a few small recordings, and the other events that a rule refers
//!   to. The listings of the recordings are those of the second judge (the independent
//!   reference/vmecheck.py).
//! - `explain_tests`: the times and bits of a save file, the heading of times, the drivers of nets,
//!   and the files that aren't written over.
//! - `tests`: markup with what is escaped in it, and the picture of a small break.
//!
//! The expected results are beside the recordings, and are written by hand. Not tested here: the
//! whole text of an explanation, which `tests/texts` compares for each example, GTKWave itself, and
//! how pictures look: `tests/texts` compares those of some examples with kept ones, and reads all
//! by an XML reader.
#![tactic(auto)]

#[cfg(test)]
mod account_tests;
#[cfg(test)]
mod explain_tests;
#[cfg(test)]
mod tests;

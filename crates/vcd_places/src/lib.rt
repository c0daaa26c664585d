//! Places at which text can be inserted into a value change dump, and what is read of the dump with
//! it.
//!
//! # Parts
//!
//! - `section`: the section that ends the definitions of a text ([`definitions_end`]).
//! - `times`: the time stamps of a body, and where they are ([`TimePlaces`]).
//! - `codes`: codes that no variable has ([`unused_codes`]).
//! - `token_reader`: the tokens of a text.
//!
//! # What is proved
//!
//! - [`definitions_end`] finds the section that ends the definitions, if and only if the text has
//!   one.
//! - [`TimePlaces`] gives all time stamps of a body below 2^64, in their order, each with a place
//!   between two items at which it is the current time (`IsAtTime`).
//! - [`unused_codes`] gives codes that are no tokens of a text, in the order of their numbers.
//! - Text that is inserted at such places is read as if it were alone (`proofs/InsertionLemmas`). A
//!   string whose code is declared changes nothing of what a dump says (`proofs/StringStepLemmas`).
//!   Neither does one more net, a code with its size, if no variable has the code and the body has
//!   no fault (`proofs/AddedNetLemmas`).
//!
//! # What isn't proved
//!
//! How long it takes: each token is looked at once, by [`unused_codes`] once more for each code
//! that it gives.
//!
//! `specs/Places` says what the places are. Start reading there.
#![tactic(auto)]

mod codes;
mod section;
mod times;
mod token_reader;

pub use codes::unused_codes;
pub use section::{EndSection, definitions_end};
pub use times::{TimePlace, TimePlaces};

//! A binding for a dump, found by the names of its variables.
//!
//! # Parts
//!
//! - `writing`: [`write_binding`]. What vme_proposal proposes for the lines that vme_line_names finds
//!   is read as a binding, and has to make a recording of the dump that was surveyed: all that it names
//!   is among the variables of the dump, whose body needn't be read again.
//! - `constants`: a binding of all lines to constants, in the place of one that doesn't.
//!
//! # What is proved
//!
//! - [`write_binding`] writes a binding by the format, so each line is bound once, and it makes a
//!   recording of the dump without a fault (`MakesRecording`), of the slots that were given
//!   (`HasSlots`). A scope is reported missing exactly where the dump lacks it (`scope`, `err`). So
//!   any other dump without a fault has a binding.
//! - The report of a binding has visible characters, spaces and line feeds alone (`visible`).
//!
//! # What isn't proved
//!
//! Which variables are found, what is said of them, and what counts as a bus. `tests/bindings/run`
//! tries the names of many styles.
//!
//! # In which order to read
//!
//! `specs/Recordings`, `writing`, `constants`.
#![tactic(auto)]

mod constants;
mod writing;

pub use writing::{FindFault, FoundBinding, write_binding};

//! The variables of a dump as text, and its time scale.
//!
//! # Parts
//!
//! - `changes`: how many value changes each net has, and the last time.
//! - `timescale`: the text of the time scale; [`time_unit`], the number of units in it.
//! - `variables`: [`variables_text`], the variables as text.
//!
//! # What is proved
//!
//! - [`variables_text`] gives a text only for a dump without a fault (`ok`), and else the first
//!   fault (`err`). The text has visible characters, spaces and line feeds alone (`visible`),
//!   whatever the names are.
//! - [`time_scale`] is the tokens of the first `$timescale` section, joined; [`time_unit`] is at least
//!   1.
//!
//! # What isn't proved
//!
//! The counts of changes, and what else the text says of the variables.
//!
//! # In which order to read
//!
//! `variables`, `changes`, `timescale`.
#![tactic(auto)]

mod changes;
mod timescale;
mod variables;

pub use timescale::{time_scale, time_unit};
pub use variables::variables_text;

//! A binding for the lines that were found among the variables of a dump, and a report of it.
//!
//! # Parts
//!
//! - `fitting`: the constants for the lines that weren't found, which fit those that were.
//! - `paths`: how a binding can name bits of the variables of a scope.
//! - `proposal`: the text of the binding.
//! - `report`: the report of what was found, as one line for people; [`constants_report`], the
//!   report where that makes no recording.
//! - `proposing`: [`propose_binding`], the text with its report.
//!
//! # What is proved
//!
//! A report has visible characters, spaces and line feeds alone (`visible`), whatever the names
//! are. Each call returns, unless memory runs out.
//!
//! # What isn't proved
//!
//! What a report says of the lines. That the text is a binding: vme_find reads it to see that.
//!
//! # In which order to read
//!
//! `fitting`, `paths`, `proposal`, `report`.
#![tactic(auto)]

mod fitting;
mod paths;
mod proposal;
mod proposing;
mod report;

pub use proposing::{ProposedBinding, propose_binding};
pub use report::constants_report;

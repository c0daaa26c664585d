//! What the program's commands do that write texts for people, over any sources and sinks.
//!
//! # Parts
//!
//! - `explain`: [`explain::explain`] says why a recording is judged so; `explained_input`: a dump that
//!   it reads piece by piece, and what is kept of it.
//! - `bind`: [`bind::bind`] writes a binding for a dump; `surveyed_input`: a dump that it surveys as
//!   it is read.
//! - `variables`, `rules`, `faults`: [`tell_variables`] writes the variables of a dump,
//!   [`tell_rules`] what the rules require, and [`tell_faults`] what the refusals of inputs mean.
//! - `refused`, `suggestions`: what follows the line of a refusal: the input's line, its kind by its
//!   first bytes, and the paths and widths that the dump has instead; `fault_context`: what is kept
//!   of a dump for that.
//! - `telling`: how texts are written.
//!
//! # What is proved
//!
//! - `explain` begins with the line that `check` writes, and has its status (`Explains`). After this
//!   line it has visible characters, spaces and line feeds alone (`IsVisible`). It returns the files
//!   of its explanation, and none after a refusal (`ExplainsWith`); what it draws is a picture
//!   (`drawn`).
//! - `bind` writes only a binding that makes a recording of that dump (`IsBindingFor`).
//! - `faults` writes exactly the page of a kind, or the pages of all (`ArePages`); `rules` exactly the
//!   guide of a rule, or the guides of all (`AreGuides`).
//! - After the line of a refusal `explain`, `bind` and `variables` write exactly the page of its
//!   kind, below an excerpt of the input, unless memory runs out (`IsRefusalPage`).
//!
//! # What isn't proved
//!
//! The texts of `explain` and `variables`, what is shown of a refused input, and which lines `bind`
//! finds (vme_explain, vme_variables, vme_line_names); that memory suffices (status 4).
//!
//! # Limits
//!
//! `explain` takes a recording in at most 4,096 blocks of 16,384 steps. An input has at most
//! 268,435,456 bytes.
//!
//! # In which order to read
//!
//! `telling`, `rules`, `refused`; then `explain`, `bind`.
#![tactic(auto)]

pub mod bind;
pub mod explain;
mod explained_input;
mod fault_context;
mod faults;
mod refused;
mod rules;
mod suggestions;
mod surveyed_input;
mod telling;
mod variables;

pub use faults::tell_faults;
pub use rules::tell_rules;
pub use variables::tell_variables;

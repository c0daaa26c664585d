//! The first time of a value change dump, by the first bytes of its text.
//!
//! # Parts
//!
//! - `first_time`: [`first_time_in`] gives the first time of each dump that begins with the bytes
//!   `front`, once its first instant has ended in them; [`first_time_of_text`] gives that of a
//!   whole text.
//! - `first_time_visitor`: a visitor of a body that takes the time of its first instant alone.
//! - `no_variables`: a visitor of a header that takes no variable.
//!
//! # What is proved
//!
//! If a text is a dump, the answer is the time of its first instant, if it has one
//! (`HasFirstTime`): 0 if a change precedes every time stamp, or else the first time stamp. The
//! answer for a prefix of a text holds whatever follows (`DeterminesFirstTime`).
//!
//! # What isn't proved
//!
//! That memory suffices, and that the time is given as soon as it is determined.
//!
//! Start reading at `specs/FirstTimes`.
#![tactic(auto)]

mod first_time;
mod first_time_visitor;
mod no_variables;

pub use first_time::{FirstTime, first_time_in, first_time_of_text};

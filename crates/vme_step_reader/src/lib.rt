//! The steps of a dump, as its text comes piece by piece: a command does its own work on each step,
//! between the pieces.
//!
//! # Parts
//!
//! - `begin`: [`begin_steps`] begins with the definitions of a text, and [`begin_last_steps`] where
//!   no more bytes follow.
//! - `step_reader`: [`StepReader`] takes one piece of the body after the other, and returns the
//!   steps that became complete.
//! - `pieces`: a piece is read for its steps alone, whatever was recorded before it.
//! - `laws`: what was returned is a prefix of what is recorded, and later times follow.
//! - `stopped_steps`: the first fault of a body, with the steps before it and the last time.
//!
//! # What is proved
//!
//! - The steps that are returned, piece after piece, are those of the text (`reading_of_text` of
//!   vme_bind): each piece leaves the outcome of the whole text as it was (`taken`, `given`), and
//!   so does the end (`recorded`, `whole`).
//! - With the first fault of the body come the last steps that are complete before it, and the last
//!   time before it (`stopped`). A fault of the definitions, or of the binding, is met before any
//!   step.
//! - What was returned at any time is a well-formed recording (`formed`). The steps that are still
//!   to come are no earlier than the last time that was read ([`times_go_on`]).
//!
//! # What isn't proved
//!
//! That memory suffices, and how much is taken: that of the definitions, and that of a piece and
//! its steps. No step is kept.
//!
//! # In which order to read
//!
//! `specs/StepReading`, then `step_reader` and `begin`.
#![tactic(auto)]

mod begin;
mod laws;
mod pieces;
mod step_reader;
mod stopped_steps;

pub use begin::{begin_last_steps, begin_steps};
pub use laws::{given_is_a_prefix, times_go_on};
pub use step_reader::StepReader;
pub use stopped_steps::StoppedSteps;

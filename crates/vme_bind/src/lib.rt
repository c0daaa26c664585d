//! Bindings of the lines of a VMEbus backplane to the variables of a dump, and the recordings that
//! they make of dumps.
//!
//! # Parts
//!
//! - `binding`, `statements`, `words`, `group`, `assignment`, `source`: a binding
//!   ([`read_binding`]), and the lines of its text.
//! - `fault`: why a text is no binding, or makes no recording of a dump.
//! - `path_search`, `search`, `bound_groups`, `net_lines`: which variable a path means, and which
//!   bits of a net the lines have their levels from.
//! - `recorder`, `capture_builder`, `step_collector`: the levels while a dump is read, and the
//!   steps at which they change.
//! - `capture`, `text_capture`: the recording of a dump that was read, and of a text that is read
//!   once and isn't kept.
//! - `text_pieces`, `text_reader`: the recording of a text that comes piece by piece.
//! - `dump_reader`, `input_fault`: a dump that is read as its text comes, its definitions first; its
//!   fault, if one is met.
//! - `laws`: the recording before a place of a text is a prefix of the recording of the text.
//! - `speculative_reader`, `assigned_lines`: pieces that are read before the ones that precede
//!   them, from assumed levels.
//!
//! # What is proved
//!
//! - [`read_binding`] answers exactly the binding that the text says, or its first fault with its
//!   line (`binding_of`).
//! - `Binding::capture` answers exactly the recording that binding and dump give, or the first
//!   faulty line of the binding (`capture_of`). `Binding::capture_text` answers the same of the
//!   dump's text; the dump's first fault takes precedence over one of the binding.
//! - `Binding::record_text` and [`TextReader`] give that recording step by step to a `StepVisitor`,
//!   and keep none of it (`gives`, `formed`, `TextContinuesAs`). With a fault of the dump comes the
//!   visitor, which has the steps of the instants that are complete before the fault, and the last
//!   time before it (`ReadingContinuesAs`). A fault of the binding is known before the body is read
//!   (`binding_fault`).
//! - [`DumpReader`] gives the visitor exactly the recording that the binding makes of the dump, or
//!   answers exactly the first fault, wherever the text is cut into pieces.
//! - What follows a place of a text doesn't depend on what was recorded before it
//!   ([`recorded_before_is_a_prefix`]).
//! - A piece that [`SpeculativeReader`] reads ahead may be joined exactly where it fits the place
//!   that is reached, and the levels there are those that it was read from (`MayFollowLevels`). Its
//!   steps are then those of reading it in its place (`IsJoined`). `levels_at_end` gives exactly
//!   the levels after the piece for any levels before it.
//!
//! # What isn't proved
//!
//! That memory suffices; the texts of `Debug` and `Display`. That a variable carries the line that
//! is bound to it can't be known here: the binding says it.
//!
//! # Limits
//!
//! A backplane has 1 to 21 slots. The numbers of a selection have one to nine digits. A recording
//! that is kept has at most 268,435,456 steps, else the fault is `TooManySteps`; one that is given
//! to a visitor step by step may be longer. A bit z is High on a bused line and Unknown on a net of
//! a daisy chain.
//!
//! # In which order to read
//!
//! docs/FORMATS.md, `specs/Binding`, `specs/Capture` and `specs/TextCapture`; then `binding`,
//! `capture`, `text_pieces` and `dump_reader`; `speculative_reader` last.
#![tactic(auto)]

mod assigned_lines;
mod assignment;
mod binding;
mod bound_groups;
mod capture;
mod capture_builder;
mod dump_reader;
mod fault;
mod group;
mod input_fault;
mod laws;
mod net_lines;
mod path_search;
mod recorder;
mod search;
mod source;
mod speculative_reader;
mod statements;
mod step_collector;
mod text_capture;
mod text_pieces;
mod text_reader;
mod words;

pub use binding::{Binding, read_binding};
pub use dump_reader::DumpReader;
pub use fault::{BindFault, BindFaultKind, CaptureFault};
pub use input_fault::InputFault;
pub use laws::recorded_before_is_a_prefix;
pub use speculative_reader::{SpeculativeChunk, SpeculativeReader};
pub use step_collector::StepCollector;
pub use text_reader::TextReader;

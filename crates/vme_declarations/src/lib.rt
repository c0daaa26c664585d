//! What a dump declares, and which bits of it the lines of a backplane are.
//!
//! # Parts
//!
//! - `declared`, `hash`: the scopes and the variables without whole paths ([`DeclaredNames`]); a
//!   hash of names.
//! - `levels_seen`, `moving`, `reading`: which bits move, i.e. were seen both low and high
//!   ([`LevelsSeen`]); the names and the levels of a whole text.
//! - `survey`, `non_memory_fault`: a dump that comes piece by piece ([`DumpSurvey`]), of whose text
//!   only a prefix with the definitions is kept; the survey at its end ([`SurveyedDump`]).
//! - `scope_paths`, `scope_search`: the scopes that a path leads through; [`has_scope`], whether a
//!   dump has the scope of a path.
//! - `groups`, `found_lines`: the groups of lines; which bits were found for the lines
//!   ([`FoundLines`]).
//!
//! # What is proved
//!
//! - A [`DumpSurvey`] that takes a dump in any pieces gives a [`SurveyedDump`] exactly where the
//!   dump has no fault, and else the first fault, unless memory runs out (`survey_ahead`,
//!   [`surveys_are_of_dumps`]). The prefix that is kept declares the variables of the dump, and the
//!   number of instants is that of the dump (`IsSurveyOf`).
//! - [`has_scope`] says whether the variables of the dump have a scope.
//! - [`dotted_path`] is the path and a dot, or nothing for the empty path.
//! - The answers of [`DeclaredNames`], [`DeclaredVariable`], [`LevelsSeen`] and [`FoundLines`] are
//!   defined over what these keep, in `specs/Names`, `specs/Levels` and `specs/Found`: a name, a
//!   path, the number of a bit, whether one moves, the bit of a line, the groups and the slots that
//!   were found. [`offsets_after_scopes`] and [`scopes_have_path`] are those of `specs/Paths`.
//! - [`group_of`], [`count`], [`has_cycle`] and [`has_handshake`] by `specs/Groups`; [`hash_of`] by
//!   `specs/Hashes`.
//!
//! # What isn't proved
//!
//! That names, indices and levels are kept as the dump has them, and that memory suffices.
//!
//! # Limits
//!
//! A variable whose name has over 64 bytes is left out. Only the rightmost 64 bits of a net are
//! checked for whether they move. A dump with over 268,435,456 instants is refused as want of
//! memory.
//!
//! # In which order to read
//!
//! `specs/Surveys`, `survey`, `declared`, `scope_search`; then `groups` and `found_lines`.
#![tactic(auto)]

mod declared;
mod found_lines;
mod groups;
mod hash;
mod levels_seen;
mod moving;
mod non_memory_fault;
mod reading;
mod scope_paths;
mod scope_search;
mod survey;

pub use declared::{DeclaredNames, DeclaredVariable, NOWHERE, Scope};
pub use found_lines::{FoundLines, VariableBit};
pub use groups::{BUS_GROUPS, Groups, count, group_of, has_cycle, has_handshake};
pub use hash::{EMPTY_HASH, hash_of};
pub use levels_seen::{LevelsSeen, MOST_BITS};
pub use scope_paths::{dotted_path, offsets_after_scopes, scopes_have_path};
pub use scope_search::has_scope;
pub use survey::{DumpSurvey, SurveyedDump, surveys_are_of_dumps};

//! Parts of a recording: how a file is judged by itself, how parts are joined, and which verdict
//! they give of the whole.
//!
//! # Parts of this crate
//!
//! - `file`: [`steps_of_file`] gives the steps of a dump that are those of the file, and the levels
//!   with which it opens. `made`: [`part_of_steps`] judges them, from each memory (the state of a
//!   monitor's automaton) in which the file may begin; [`segment_of_steps`] makes the segment of
//!   the part, and [`part_with`] the part of a segment. `pieces` does so with marks. `fits`:
//!   [`can_write`] says whether the part can be written.
//! - `join`: [`join_parts`] makes one part from any parts, in any order. `same`: whether segments of
//!   the same files agree. `gather` collects segments and joins buddies, i.e. the two halves of a
//!   segment (`buddies`). `compact`: whether tables have few nodes. `meets`: whether files follow
//!   one another, which one doesn't, and the times of both ([`joined_times`]).
//! - `tell`: [`tell_verdict`] gives the verdict of the whole recording from a part: it looks at
//!   which files are covered (`cover`), and runs the monitors through the segments
//!   (`judged_segments`, `state`). `answers` has its answers.
//!
//! # What is proved
//!
//! - The part of a file has one segment. Its tables agree with the runs of the five monitors over
//!   the file's steps, from each memory in which it may begin (`SegmentStandsFor`,
//!   [`part_of_steps`]). Without marks they have no nodes (`HaveNodes`). With marks each has at most
//!   n / 1024 + 2 nodes for each of its memories, for n steps (`HaveNodesAtMost`). So a file is
//!   refused only for lack of memory (`IsLackOfMemory`).
//! - If parts are of the files of a recording, [`join_parts`] answers a part of the same files. It
//!   covers exactly the files that any of them covers (`JoinsParts`), and it can be written. The
//!   joined parts are of one backplane, all have marks or none has, and no two of their segments of
//!   the same files differ (`MakeOne`). Where it refuses parts for one of these reasons, it is true;
//!   where it does so for too many steps, some of the files follow one another and have more steps
//!   than 64 bits count; where it does so for too many nodes, the tables of one monitor have more
//!   than two for each of its memories, in all segments of the parts together; and where it does so
//!   for too many segments, more than 32 bits count were gathered from those of the parts
//!   (`AreRefused`).
//! - If a part is of the files of a recording, [`tell_verdict`] answers the verdict of that
//!   recording, or the least number that isn't covered, or the least file that doesn't follow those
//!   before it, or that some first files, which follow one another, have more steps than 64 bits
//!   count (`DeterminesRecordingAnswer`).
//!
//! # What isn't proved
//!
//! That memory suffices. That [`join_parts`] refuses no parts of files with marks for too many
//! nodes. That [`can_write`] refuses no part of a file.
//!
//! # In which order to read
//!
//! `specs/Stands`, `specs/Files` and `specs/Telling`; then `made`, `join` and `tell`.
#![tactic(auto)]

mod answers;
mod buddies;
mod compact;
mod cover;
mod file;
mod fits;
mod gather;
mod join;
mod join_refusal;
mod judged_segments;
mod made;
mod meets;
mod part_refusal;
mod pieces;
mod same;
mod state;
mod tell;

pub use answers::{RecordingAnswer, WideVerdict};
pub use buddies::nodes_are_few;
pub use file::steps_of_file;
pub use fits::can_write;
pub use join::join_parts;
pub use join_refusal::JoinRefusal;
pub use judged_segments::{JudgedSegments, JudgingFault};
pub use made::{part_of_steps, part_with, segment_of_steps};
pub use meets::joined_times;
pub use part_refusal::PartRefusal;
pub use state::{State, States};
pub use tell::{judged, tell_verdict};

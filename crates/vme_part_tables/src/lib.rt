//! Tables of a part: what a table says of each memory (the state of a monitor's automaton) in which
//! its segment may begin, and how tables are made from others.
//!
//! # Parts of this crate
//!
//! - `ways`: runs through a table. A *way* is where a run continues: the number of a memory, in
//!   which it ends, or of a node. [`follow`] gives the memory in which a run ends and its first
//!   break, and [`put_marks_of_run`] adds its marks.
//! - `compose`: [`composed`] makes one table from two. `shorten`: a node is merged with the one that
//!   it continues with, if no other way leads there. `prune`: nodes that no run reaches are dropped.
//! - `marked`: [`marked_table`] makes a table with marks from a monitor's summary. `left`:
//!   [`left_memories`] gives the memories in which a table ends, i.e. those whose marks are needed
//!   in the table after it.
//!
//! # What is proved
//!
//! A table means its outcome for each memory in which the segment may begin (`outcome_in`,
//! `specs/Ways`). [`follow`] and [`put_marks_of_run`] give exactly this outcome. The outcome of
//! [`composed`] for a memory is that of the first table for it, followed by that of the second for
//! the memory in which the first ends, with its instants `steps` later (`followed_by`). If both
//! tables can be written in a part, so can the result (`IsComposition`). [`marked_table`] gives for
//! each memory what the summary does: the memory in which the run ends, the first break and, where
//! they are needed, the marks (`AgreesWithRuns`). They are needed for each memory in which the
//! table before ends (`AreNeeded`). It has at most one node for each memory.
//!
//! # What isn't proved
//!
//! That memory suffices. That each node that no run reaches is dropped, and that each node that a
//! single way leads to is merged.
#![tactic(auto)]

mod compose;
mod left;
mod marked;
mod prune;
mod shorten;
mod ways;

pub use compose::{are_few_together, composed};
pub use left::left_memories;
pub use marked::{marked_table, widened};
pub use ways::{follow, later_break, put_marks_of_run};

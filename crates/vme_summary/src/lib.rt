//! Summaries of blocks of a recording by all rules in force, and the verdict and the listing that
//! they give.
//!
//! # Parts
//!
//! - `judged`, `span`, `extent`, `summary`: [`judge_block`] gives for a block a [`Judged`]: the
//!   block, and a [`Span`] that stands for it, whatever came before.
//! - `joining`: [`join`] joins two spans whose blocks follow one another; [`append`] does so with
//!   spans that it consumes.
//! - `monitors`: the only place that knows which monitors there are; `MonitorSummaries` has a table
//!   for each. `each_monitor`: [`each_monitor::summarise_monitors`] advances five of them in one
//!   pass over the steps. `monitor_states`: their states after steps from the opening on.
//! - `rows`: the rows of a listing, made from marks (events of the bus with their instants): all of
//!   them ([`listing_by`]), or one ([`cycle_row`], [`answered_row`]).
//! - `chunk_judge`, `chunk_summary`, `verdict_state`, `listing_state`: judging a recording in
//!   order, some steps at a time, without marks for a verdict and with them for a listing.
//! - `stream_judge`, `judged_chunk`, `step_discarder`: [`Judge`] and [`Lister`] take the steps as
//!   they are made, and parts that were judged separately ([`JudgedChunk`]), on any thread;
//!   [`StepDiscarder`] takes steps and judges none.
//! - `cut`: [`verdict_by_blocks`] and [`listing_by_blocks`] take a capture, and copy none of its
//!   blocks.
//! - `running_verdict`: [`RunningVerdict`] takes the spans of further blocks without joining them,
//!   and allocates nothing.
//! - `ghost_steps`: the steps that were taken, which proofs alone read.
//!
//! # What is proved
//!
//! - Each [`Span`] stands for some blocks ([`spans_stand_for_blocks`]), so that a statement about
//!   all blocks for which a span stands is about some blocks.
//! - However the blocks of a recording were joined, [`Span::verdict`] is its verdict by the
//!   definitions, and [`Span::listing`] its listing (`listing`), which is well placed (`placed`)
//!   and splits the judged edges (`split`).
//! - [`join`] and [`append`] give the error `Torn` exactly if the blocks of the two spans don't
//!   join (`torn`). [`judge_block`] and [`append`] hand back what they were given where they fail.
//! - [`verdict_by_blocks`] and [`listing_by_blocks`] give the verdict and the listing of the
//!   recording for every size of block. So do [`Judge`] and [`Lister`] of the steps that came, or
//!   they answer that these are too many, or fill too many blocks (`too_many_steps`,
//!   `too_many_blocks`).
//! - [`joined_blocks_are_sound`]: blocks that join, each well formed, make a well-formed recording.
//!
//! # What isn't proved
//!
//! That memory suffices, and how long judging takes.
//!
//! # Limits
//!
//! A block has at most 65,536 steps. Spans that are joined have at most 268,435,456 steps together.
//! A cut has at most 4,096 blocks.
//!
//! # In which order to read
//!
//! Contracts about blocks use one definition: `SpanStandsFor span blocks` (`specs/Stands`). Start
//! there and with `span`. `Span` and `Judged` are plain types, so they go into tables, lists and
//! threads. Then `monitors`, and `stream_judge`.
#![tactic(auto)]

pub mod chunk_judge;
mod chunk_summary;
mod cut;
pub mod each_monitor;
mod extent;
mod ghost_steps;
mod joining;
pub mod judged;
mod judged_chunk;
mod listing_state;
mod monitor_states;
mod monitors;
mod rows;
pub mod running_verdict;
pub mod span;
mod step_discarder;
pub mod stream_judge;
mod summary;
mod verdict_state;

pub use cut::{listing_by_blocks, verdict_by_blocks};
pub use ghost_steps::GhostSteps;
pub use joining::{JoinFault, append, join, joined_blocks_are_sound, spans_stand_for_blocks};
pub use judged::{Judged, judge_block};
pub use judged_chunk::JudgedChunk;
pub use rows::{answered_row, cycle_row, direction_of, listing_by};
pub use running_verdict::RunningVerdict;
pub use span::Span;
pub use step_discarder::StepDiscarder;
pub use stream_judge::{Judge, Lister, NoVerdict};

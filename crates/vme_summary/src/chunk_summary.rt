//! The summary of steps that were judged by themselves.

use crate::summary::MonitorSummaries;
use vme_trace::Lines;

/// The summary of some steps for all entering memories (states of the monitors' automata).
#[derive(Drop)]
pub struct ChunkSummary {
    pub(crate) summary: MonitorSummaries,
    /// The levels after the steps.
    pub left: Lines,
}

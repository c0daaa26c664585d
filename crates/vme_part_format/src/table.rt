//! What a monitor finds in a segment, for each memory in which it may begin.

use crate::wide::{WideBreak, WideMark};

/// The run of a monitor that begins in one memory.
#[derive(Debug, PartialEq, Eq, Drop)]
pub struct TableEntry {
    /// If it is below the number of memories, the number of the memory in which the run ends. Else the run continues
    /// with the node of this number less the number of memories, counted from 0.
    pub next: u32,
    /// The first break before `next`, if there is one.
    pub first_break: Option<WideBreak>,
}

/// What several runs may share.
#[derive(Debug, Drop)]
pub struct TableNode {
    /// As in an entry, but nodes are counted from the one after this.
    pub next: u32,
    /// The first break up to `next`, if there is one.
    pub first_break: Option<WideBreak>,
    /// The marks up to `next`, in their order.
    pub marks: Vec<WideMark>,
}

/// What a monitor finds in a segment.
#[derive(Debug, Drop)]
pub struct OutcomeTable {
    /// An entry for each memory in which it may begin, by the number of the memory.
    pub entries: Vec<TableEntry>,
    /// The nodes that runs share.
    pub nodes: Vec<TableNode>,
}

/// The entry of memory 2, in which judging has ended: the run stays in it, and has no break and no mark.
pub const STAYS: TableEntry = TableEntry {
    next: 2,
    first_break: None,
};

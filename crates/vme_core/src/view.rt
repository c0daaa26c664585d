//! What a bench has done and seen.

use vme_trace::Block;

/// What a bench has done and seen. No value of it is made: it is only in contracts, where each array is a list of any
/// length.
pub struct View {
    /// What it filed: each number with its block, the last first.
    pub list: [(u32, Block); 0],
    /// What it took: each number with its block, the last first.
    pub takes: [(u32, Block); 0],
    /// The draws that it won, the last first.
    pub draws: [u32; 0],
    /// The draws that it has seen won, by itself or another bench.
    pub found: [u32; 0],
    /// The numbers that it has seen at the stage Claimed or a later one.
    pub claimed: [u32; 0],
    /// The numbers that it has seen at the stage Filed or Taken.
    pub filed: [u32; 0],
    /// The numbers that it has seen at the stage Taken.
    pub taken: [u32; 0],
    /// The number that it claimed and has not filed yet, if there is one.
    pub pending: [u32; 0],
    /// Its share of the board: the list of the exponents e of its parts, each of 2^-e. A bench without a share has
    /// filed, taken and drawn nothing.
    pub share: [u32; 0],
}

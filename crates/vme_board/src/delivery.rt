//! How a delivery of a block to a board ends.

use vme_trace::Block;

/// Why a delivery is refused.
#[derive(Clone, Copy, Debug, PartialEq, Eq)]
pub enum DeliveryRefusal {
    /// The block's number isn't below the board's total.
    Stranger,
    /// The block has more than 65,536 steps.
    TooLong,
    /// A step of the block may not be where it is.
    Malformed {
        /// The index of the first such step, from 0.
        step: usize,
    },
    /// The block's number was claimed before.
    Doubled,
    /// Memory to judge the block was refused.
    Memory,
}

/// A delivery that was refused. Nothing was claimed for it.
#[derive(Drop)]
pub struct Refused {
    /// Why.
    pub why: DeliveryRefusal,
    /// The block, as it was handed in.
    pub block: Block,
}

/// A delivery that was filed.
#[derive(Clone, Copy, Debug, PartialEq, Eq)]
pub struct Filed {
    /// The block's number.
    pub number: u32,
}

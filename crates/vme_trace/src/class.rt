//! The classes of cycles.

/// The kind of a cycle, by its interrupt acknowledge line and its address modifier code as AS* falls.
#[derive(Clone, Copy, Debug, PartialEq, Eq)]
pub enum Class {
    /// Single transfers: at most a read and then a write.
    S,
    /// A block transfer: any number of transfers in one direction.
    K,
    /// An interrupt acknowledge: IACK* is low, and there is one transfer, a read.
    I,
    /// A free code, user-defined or reserved, or one with an unknown bit.
    F,
}

//! Why bytes are no part, i.e. not the bytes that `write_part` writes for some part.

ghost use Rattle.std.specs.Prelude.{◌≡◌};

use std::alloc::{AllocError, AllocFailed};

/// What is wrong with the bytes.
#[derive(Clone, Copy, Debug, PartialEq, Eq)]
pub enum PartFaultKind {
    /// They don't begin as a part does.
    NotAPart,
    /// They are a part of another version.
    OtherVersion,
    /// They are fewer than 16, or the sum at their end isn't that of the bytes before it.
    Damaged,
    /// A field extends past the end of the bytes.
    CutShort,
    /// A flag is neither 0 nor 1.
    BadFlag,
    /// The order of a segment is over 62. Or the number of its first file is 2^63 or more, isn't a multiple of 2^order,
    /// or isn't greater than the last of the segment before.
    BadNumber,
    /// A number of slots isn't from 1 to 21, a code of a level is 3, or a line that the backplane doesn't have isn't
    /// Unknown.
    BadLevels,
    /// A segment has steps without times, or times without steps. Or the file that is said to have its first step isn't
    /// one of its files, or its last time is before its first.
    BadSteps,
    /// A break has a rule or a line that isn't there, or an instant that is 0 or over the number of steps.
    BadBreak,
    /// A way, i.e. the number of the memory or of the node with which a run continues, is too large. Or a table has
    /// 2^32 memories and nodes or more.
    BadWay,
    /// A mark has a kind that isn't there or a value out of its range, its instant is out of the segment, or its
    /// distance from the mark before isn't written in as few bytes as possible. Or a node has no marks.
    BadMark,
    /// There are bytes between the last segment and the sum.
    Trailing,
}

/// A field that no part has there.
#[derive(Clone, Copy, Debug, PartialEq, Eq)]
pub struct FieldFault {
    /// What is wrong with it.
    pub kind: PartFaultKind,
    /// The number of bytes from its start to the end of the last field, which the sum follows.
    pub left: usize,
}

/// Why a field isn't read.
#[derive(Clone, Copy, Debug, PartialEq, Eq)]
pub enum FieldError {
    /// Memory runs out.
    Memory,
    /// The field has this fault.
    Fault(FieldFault),
}

impl From<AllocError> for FieldError {
    ghost use Rattle.vme_part_format.specs.declared.fault.FieldError.TheVariants.{Memory};

    ghost from_gives = { λ _ e. e ≡ Memory };

    fn from(_e: AllocError) -> FieldError {
        FieldError::Memory
    }
}

impl<T: Drop> From<AllocFailed<T>> for FieldError {
    ghost use Rattle.vme_part_format.specs.declared.fault.FieldError.TheVariants.{Memory};

    ghost from_gives = { λ _ e. e ≡ Memory };

    fn from(_e: AllocFailed<T>) -> FieldError {
        FieldError::Memory
    }
}

/// The first fault of the bytes of a part.
#[derive(Clone, Copy, Debug, PartialEq, Eq)]
pub struct PartFault {
    /// What is wrong.
    pub kind: PartFaultKind,
    /// The index of the byte at which the field with the fault begins.
    pub place: usize,
}

/// Why no part is read.
#[derive(Clone, Copy, Debug, PartialEq, Eq)]
pub enum ReadError {
    /// Memory runs out.
    Memory,
    /// The bytes have this fault.
    Fault(PartFault),
}

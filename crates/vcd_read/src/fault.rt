//! Why a text is no dump.

ghost use Rattle.std.specs.Prelude.{◌≡◌};
ghost use Rattle.vcd_read.specs.declared.fault.FaultKind.TheVariants.{Memory};

use std::alloc::{AllocError, AllocFailed};
use thiserror::Error;

/// What is wrong with a text.
#[derive(Clone, Copy, Debug, Error, PartialEq, Eq)]
pub enum FaultKind {
    /// A token that may not be where it is.
    #[error("BadToken")]
    BadToken,
    /// A section, a change or a dump section that the text ends in.
    #[error("UnfinishedSection")]
    UnfinishedSection,
    /// A `$var` section with fewer than four words, a size that is no number, or an invalid code.
    #[error("BadVar")]
    BadVar,
    /// An `$upscope` where no scope is open.
    #[error("ScopeUnderflow")]
    ScopeUnderflow,
    /// The text ends before its `$enddefinitions`.
    #[error("NoEndDefinitions")]
    NoEndDefinitions,
    /// A change of a code that no variable has.
    #[error("UndeclaredCode")]
    UndeclaredCode,
    /// A change of more digits than its variable has bits.
    #[error("TooWide")]
    TooWide,
    /// A code that was declared with another size.
    #[error("SizeConflict")]
    SizeConflict,
    /// A time before the current one.
    #[error("TimeBackwards")]
    TimeBackwards,
    /// A time past 18,446,744,073,709,551,615, or a size past 65,536.
    #[error("NumberTooLarge")]
    NumberTooLarge,
    /// Memory ran out; the line is then 0.
    #[error("Memory")]
    Memory,
}

/// The first fault of a text.
#[derive(Clone, Copy, Debug, Error, PartialEq, Eq)]
#[error("dump line {line}: {kind}")]
pub struct VcdFault {
    /// The line of the token that the fault is at, or of the first token of its section or change, from 1.
    pub line: u64,
    /// What is wrong there.
    pub kind: FaultKind,
}

impl From<AllocError> for VcdFault {
    ghost from_gives = { λ _ e. e ≡ record { line = 0; kind = Memory } };

    fn from(_e: AllocError) -> VcdFault {
        VcdFault {
            line: 0,
            kind: FaultKind::Memory,
        }
    }
}

impl<T: Drop> From<AllocFailed<T>> for VcdFault {
    ghost from_gives = { λ _ e. e ≡ record { line = 0; kind = Memory } };

    fn from(_e: AllocFailed<T>) -> VcdFault {
        VcdFault {
            line: 0,
            kind: FaultKind::Memory,
        }
    }
}

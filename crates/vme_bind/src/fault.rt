//! Why a text is no binding, or a binding makes no recording of a dump.

ghost use Rattle.std.specs.Prelude.{◌≡◌, Some, encode_utf8};
ghost use Rattle.std.specs.List.{flat_map};
ghost use Rattle.vme_trace.specs.Names.{line_name};
ghost use Rattle.vme_bind.specs.declared.fault.BindFaultKind.TheVariants.{Memory};

use std::alloc::{AllocError, AllocFailed};
use std::fmt::{self, Display, Formatter, Write};
use thiserror::Error;
use vcd_read::VcdFault;
use vme_trace::Line;

/// A line, shown by its name.
#[derive(Clone, Copy)]
struct LineName(Line);

impl Display for LineName {
    ghost output = { λ shown. Some (flat_map encode_utf8 (line_name shown.0)) };

    fn fmt<W: Write>(&self, f: &mut Formatter<W>) -> fmt::Result {
        for byte in self.0.name().as_bytes() {
            f.write_char(char::from(*byte))?;
        }
        Ok(())
    }
}

/// What is wrong with a binding.
#[derive(Clone, Copy, Debug, Error, PartialEq, Eq)]
pub enum BindFaultKind {
    /// A line of the text isn't `NAME = SOURCE`.
    #[error("BadLine")]
    BadLine,
    /// The first line that is neither blank nor a comment isn't `slots N`, N from 1 to 21, or there is no such line.
    #[error("SlotsFirst")]
    SlotsFirst,
    /// The name is neither one of a line of the backplane nor one of a group.
    #[error("UnknownName")]
    UnknownName,
    /// A line of the backplane is bound a second time.
    #[error("NamedTwice")]
    NamedTwice,
    /// The line of the backplane with the least number that isn't bound.
    #[error("Unbound {}", LineName(*.0))]
    Unbound(Line),
    /// Memory ran out; the line is then 0.
    #[error("Memory")]
    Memory,
    /// The dump has no such variable, or none with such bits.
    #[error("NoSuchPath")]
    NoSuchPath,
    /// The dump has several such variables, and they aren't the same bits.
    #[error("AmbiguousPath")]
    AmbiguousPath,
    /// The count of bits isn't that of the lines.
    #[error("WrongWidth")]
    WrongWidth,
    /// The recording has over 268,435,456 steps; the line is then 0.
    #[error("TooManySteps")]
    TooManySteps,
}

/// The first fault of a binding.
#[derive(Clone, Copy, Debug, Error, PartialEq, Eq)]
#[error("binding line {line}: {kind}")]
pub struct BindFault {
    /// The line of the binding text that the fault is at, from 1.
    pub line: u64,
    /// What is wrong there.
    pub kind: BindFaultKind,
}

/// Why a binding makes no recording of the text of a dump.
#[derive(Clone, Copy, Debug, PartialEq, Eq)]
pub enum CaptureFault {
    /// The text is no dump.
    Dump(VcdFault),
    /// The binding doesn't fit the dump.
    Binding(BindFault),
}

impl From<AllocError> for BindFault {
    ghost from_gives = { λ _ e. e ≡ record { line = 0; kind = Memory } };

    fn from(_e: AllocError) -> BindFault {
        BindFault {
            line: 0,
            kind: BindFaultKind::Memory,
        }
    }
}

impl<T: Drop> From<AllocFailed<T>> for BindFault {
    ghost from_gives = { λ _ e. e ≡ record { line = 0; kind = Memory } };

    fn from(_e: AllocFailed<T>) -> BindFault {
        BindFault {
            line: 0,
            kind: BindFaultKind::Memory,
        }
    }
}

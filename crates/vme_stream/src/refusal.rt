//! Refusals, by what they are for: a fault of an input, too many blocks or want of memory.

ghost use Rattle.std.specs.Prelude.{◌≡◌};
ghost use Rattle.vme_stream.specs.Refusals.{input_refusal, dump_refusal, binding_refusal, capture_refusal};
ghost use Rattle.vme_stream.specs.Refusals.{judging_refusal, listing_refusal};
ghost use Rattle.vme_stream.specs.Texts.{refusal_status};

use crate::input::InFault;
use vcd_read::{FaultKind, VcdFault};
use vme_bind::{BindFault, BindFaultKind, CaptureFault};
use vme_listing::ListFault;
use vme_summary::NoVerdict;

/// What the program reads.
#[derive(Clone, Copy, Debug, PartialEq, Eq)]
pub enum Input {
    /// What the lines of the backplane are bound to.
    Binding,
    /// The recording.
    Dump,
    /// The listing that is to be confirmed.
    Listing,
}

/// Why a recording isn't judged, or why a listing isn't compared with it.
#[derive(Clone, Copy, Debug, PartialEq, Eq)]
pub enum Refusal {
    /// A file can't be opened.
    CannotOpen(Input),
    /// Reading failed, or didn't reach the end.
    CannotRead(Input),
    /// An input has over 268,435,456 bytes, or a listing over 137,438,953,472.
    TooLong(Input),
    /// The binding has a fault, or can't be used on the dump.
    BadBinding(BindFault),
    /// The dump has a fault.
    BadDump(VcdFault),
    /// The listing has a fault.
    BadListing(ListFault),
    /// There would be over 4,096 blocks.
    TooManyBlocks,
    /// Memory ran out.
    Memory,
}

impl Refusal {
    /// The refusal for a fault in reading an input.
    pub fn of_input(input: Input, fault: InFault) -> Refusal
        ensures { result ≡ input_refusal input fault }
    {
        match fault {
            InFault::Read => Refusal::CannotRead(input),
            InFault::TooLong => Refusal::TooLong(input),
            InFault::Memory => Refusal::Memory,
        }
    }

    /// The refusal for a fault of the dump.
    pub fn of_dump(fault: VcdFault) -> Refusal
        ensures { result ≡ dump_refusal fault }
    {
        match fault.kind {
            FaultKind::Memory => Refusal::Memory,
            _ => Refusal::BadDump(fault),
        }
    }

    /// The refusal for a fault of the binding.
    pub fn of_binding(fault: BindFault) -> Refusal
        ensures { result ≡ binding_refusal fault }
    {
        match fault.kind {
            BindFaultKind::Memory => Refusal::Memory,
            _ => Refusal::BadBinding(fault),
        }
    }

    /// The refusal for a fault of a dump or of a binding.
    pub fn of_capture(fault: CaptureFault) -> Refusal
        ensures { result ≡ capture_refusal fault }
    {
        match fault {
            CaptureFault::Dump(fault) => Refusal::of_dump(fault),
            CaptureFault::Binding(fault) => Refusal::of_binding(fault),
        }
    }

    /// The refusal for a recording that isn't judged. Too many steps are a fault of the binding, with line 0: a step is
    /// an instant at which a line of the backplane changes that it binds.
    pub fn of_judging(why: NoVerdict) -> Refusal
        ensures { result ≡ judging_refusal why }
    {
        match why {
            NoVerdict::TooManySteps => Refusal::BadBinding(BindFault {
                line: 0,
                kind: BindFaultKind::TooManySteps,
            }),
            NoVerdict::TooManyBlocks => Refusal::TooManyBlocks,
            NoVerdict::Memory => Refusal::Memory,
        }
    }

    /// The refusal for a fault of the listing.
    pub fn of_listing(fault: ListFault) -> Refusal
        ensures { result ≡ listing_refusal fault }
    {
        match fault {
            ListFault::Memory => Refusal::Memory,
            _ => Refusal::BadListing(fault),
        }
    }

    /// The exit status: 4 for want of memory, else 3.
    pub fn status(&self) -> u8
        ensures { result ≡ refusal_status self.now }
    {
        match self {
            Refusal::Memory => 4,
            _ => 3,
        }
    }
}

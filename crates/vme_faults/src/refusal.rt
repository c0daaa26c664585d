//! The kind of a refusal.

ghost use Rattle.std.specs.Prelude.{◌≡◌};
ghost use Rattle.vme_faults.specs.Refusals.{binding_kind, dump_kind, kind_of, listing_kind};

use crate::refusal_kind::RefusalKind;
use vcd_read::FaultKind;
use vme_bind::BindFaultKind;
use vme_listing::ListFault;
use vme_stream::Refusal;

impl RefusalKind {
    /// The kind of a refusal.
    pub fn of(refusal: &Refusal) -> RefusalKind
        ensures { result ≡ kind_of refusal.now }
    {
        match refusal {
            Refusal::CannotOpen(_) => RefusalKind::CannotOpen,
            Refusal::CannotRead(_) => RefusalKind::CannotRead,
            Refusal::TooLong(_) => RefusalKind::TooLong,
            Refusal::BadBinding(fault) => binding_kind(fault.kind),
            Refusal::BadDump(fault) => dump_kind(fault.kind),
            Refusal::BadListing(fault) => listing_kind(*fault),
            Refusal::TooManyBlocks => RefusalKind::TooManyBlocks,
            Refusal::Memory => RefusalKind::OutOfMemory,
        }
    }
}

/// The kind of a fault of a dump.
fn dump_kind(kind: FaultKind) -> RefusalKind
    ensures { result ≡ dump_kind kind }
{
    match kind {
        FaultKind::BadToken => RefusalKind::BadToken,
        FaultKind::UnfinishedSection => RefusalKind::UnfinishedSection,
        FaultKind::BadVar => RefusalKind::BadVar,
        FaultKind::ScopeUnderflow => RefusalKind::ScopeUnderflow,
        FaultKind::NoEndDefinitions => RefusalKind::NoEndDefinitions,
        FaultKind::UndeclaredCode => RefusalKind::UndeclaredCode,
        FaultKind::TooWide => RefusalKind::TooWide,
        FaultKind::SizeConflict => RefusalKind::SizeConflict,
        FaultKind::TimeBackwards => RefusalKind::TimeBackwards,
        FaultKind::NumberTooLarge => RefusalKind::NumberTooLarge,
        FaultKind::Memory => RefusalKind::OutOfMemory,
    }
}

/// The kind of a fault of a binding.
fn binding_kind(kind: BindFaultKind) -> RefusalKind
    ensures { result ≡ binding_kind kind }
{
    match kind {
        BindFaultKind::BadLine => RefusalKind::BadLine,
        BindFaultKind::SlotsFirst => RefusalKind::SlotsFirst,
        BindFaultKind::UnknownName => RefusalKind::UnknownName,
        BindFaultKind::NamedTwice => RefusalKind::NamedTwice,
        BindFaultKind::Unbound(_) => RefusalKind::Unbound,
        BindFaultKind::Memory => RefusalKind::OutOfMemory,
        BindFaultKind::NoSuchPath => RefusalKind::NoSuchPath,
        BindFaultKind::AmbiguousPath => RefusalKind::AmbiguousPath,
        BindFaultKind::WrongWidth => RefusalKind::WrongWidth,
        BindFaultKind::TooManySteps => RefusalKind::TooManySteps,
    }
}

/// The kind of a fault of a listing.
fn listing_kind(fault: ListFault) -> RefusalKind
    ensures { result ≡ listing_kind fault }
{
    match fault {
        ListFault::BadHeader => RefusalKind::BadHeader,
        ListFault::BadRow { .. } => RefusalKind::BadRow,
        ListFault::Unsorted { .. } => RefusalKind::Unsorted,
        ListFault::Memory => RefusalKind::OutOfMemory,
    }
}

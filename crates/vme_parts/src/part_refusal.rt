//! Why no part is made.

ghost use Rattle.std.specs.Prelude.{◌≡◌};

use std::alloc::{AllocError, AllocFailed};

/// Why no part is made.
#[derive(Clone, Copy, Debug, PartialEq, Eq)]
pub enum PartRefusal {
    /// Memory ran out.
    Memory,
    /// A table with marks has too many nodes: 32 bits can't number its memories and nodes.
    TooManyNodes,
}

impl From<AllocError> for PartRefusal {
    ghost use Rattle.vme_parts.specs.declared.part_refusal.PartRefusal.TheVariants.{Memory};

    ghost from_gives = { λ _ e. e ≡ Memory };

    fn from(_e: AllocError) -> PartRefusal {
        PartRefusal::Memory
    }
}

impl<T: Drop> From<AllocFailed<T>> for PartRefusal {
    ghost use Rattle.vme_parts.specs.declared.part_refusal.PartRefusal.TheVariants.{Memory};

    ghost from_gives = { λ _ e. e ≡ Memory };

    fn from(_e: AllocFailed<T>) -> PartRefusal {
        PartRefusal::Memory
    }
}

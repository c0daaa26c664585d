//! Why parts can't be joined.

ghost use Rattle.std.specs.Prelude.{◌≡◌};

use std::alloc::{AllocError, AllocFailed};

/// Why parts can't be joined.
#[derive(Clone, Copy, Debug, PartialEq, Eq)]
pub enum JoinRefusal {
    /// Memory ran out.
    Memory,
    /// The part with this index is of another backplane than the first.
    Backplane(usize),
    /// The part with this index has marks and the first has none, or the other way round.
    Marks(usize),
    /// Two segments of the same files differ. The first of these files has this number.
    Differs(u64),
    /// Files that follow one another have more steps than 64 bits count.
    TooManySteps,
    /// A table has too many nodes: 32 bits can't number its memories and nodes, or it has more than two for each
    /// memory.
    TooManyNodes,
    /// There are more segments, after joining, than 32 bits count.
    TooManySegments,
}

impl From<AllocError> for JoinRefusal {
    ghost use Rattle.vme_parts.specs.declared.join_refusal.JoinRefusal.TheVariants.{Memory};

    ghost from_gives = { λ _ e. e ≡ Memory };

    fn from(_e: AllocError) -> JoinRefusal {
        JoinRefusal::Memory
    }
}

impl<T: Drop> From<AllocFailed<T>> for JoinRefusal {
    ghost use Rattle.vme_parts.specs.declared.join_refusal.JoinRefusal.TheVariants.{Memory};

    ghost from_gives = { λ _ e. e ≡ Memory };

    fn from(_e: AllocFailed<T>) -> JoinRefusal {
        JoinRefusal::Memory
    }
}

//! Why a command line is no order.

ghost use Rattle.std.specs.Prelude.{◌≡◌};
ghost use Rattle.vme_words.specs.declared.order_fault.OrderFault.TheVariants.{Memory};
ghost use Rattle.vme_words.specs.OrderFaults.{ComesOf};

use clap::error::ErrorKind;
use std::alloc::AllocError;

/// Why the words, i.e. the arguments, are no order.
#[derive(Debug, Drop)]
pub enum OrderFault {
    /// The command line is wrong, or asks for help: the text says which.
    Usage(clap::Error),
    /// Memory ran out.
    Memory,
}

impl From<AllocError> for OrderFault {
    ghost from_gives = { λ _ fault. fault ≡ Memory };

    fn from(_e: AllocError) -> OrderFault {
        OrderFault::Memory
    }
}

impl From<clap::Error> for OrderFault {
    ghost from_gives = { λ error fault. ComesOf error fault };

    fn from(error: clap::Error) -> OrderFault {
        match error.kind() {
            ErrorKind::OutOfMemory => OrderFault::Memory,
            _ => OrderFault::Usage(error),
        }
    }
}

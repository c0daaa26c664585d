//! Why a listing gives no more rows.

ghost use Rattle.std.specs.Prelude.{◌≡◌};

use vme_listing::ListFault;
use vme_stream::{InFault, Input, Refusal};

/// Why a listing gives no more rows.
#[derive(Clone, Copy)]
pub(crate) enum RowsFault {
    /// It can't be read, or is too long.
    Input(InFault),
    /// Its text has a fault.
    Text(ListFault),
}

impl RowsFault {
    ghost use Rattle.vme_confirm_command.specs.RowsOfListing.{rows_refusal};

    /// The refusal that the answer has for this fault.
    pub fn refusal(self) -> Refusal
        ensures { result ≡ rows_refusal self }
    {
        match self {
            RowsFault::Input(fault) => Refusal::of_input(Input::Listing, fault),
            RowsFault::Text(fault) => Refusal::of_listing(fault),
        }
    }
}

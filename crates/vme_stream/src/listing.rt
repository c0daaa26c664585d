//! The exit status of a listing.

ghost use Rattle.std.specs.Prelude.{◌≡◌};
ghost use Rattle.vme_stream.specs.ListingStatus.{listing_status, row_status, verdict_row_status};

use vme_listing::{ListedVerdict, Listing, Row};

/// The exit status of a listing, by its last row: 0 conforming, 1 broken, 2 unreadable or never idle. It is 2, too, if
/// the last row isn't a verdict.
pub fn listing_status(listing: &Listing) -> u8
    ensures status { result ≡ listing_status listing.now }
{
    match listing.rows().last() {
        Some(row) => row_status(row),
        None => 2,
    }
}

/// The exit status of a listing, by its last row.
fn row_status(row: &Row) -> u8
    ensures { result ≡ row_status row.now }
{
    match row {
        Row::Verdict(outcome) => verdict_row_status(*outcome),
        _ => 2,
    }
}

/// The exit status of a listing, by its verdict.
fn verdict_row_status(outcome: ListedVerdict) -> u8
    ensures { result ≡ verdict_row_status outcome }
{
    match outcome {
        ListedVerdict::Conforming => 0,
        ListedVerdict::Broken(..) => 1,
        ListedVerdict::Unreadable(..) | ListedVerdict::NeverIdle => 2,
    }
}

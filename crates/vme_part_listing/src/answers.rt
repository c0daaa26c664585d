//! The answers to listing the whole recording.

use vme_listing::Listing;
use vme_parts::RecordingAnswer;

/// The listing of the whole recording, or why there is none.
#[derive(Drop)]
pub enum ListingAnswer {
    /// The listing.
    Listing(Listing),
    /// There is no verdict, for this reason.
    Refused(RecordingAnswer),
    /// The part has no marks.
    Unmarked,
    /// The first break or a mark is at an instant over 4,294,967,295.
    TooLong,
}

//! The listing of a recording, from a part of it.
//!
//! # Parts of this crate
//!
//! - `listing`: [`tell_listing`] lists the whole recording from a part with marks: the marks of the
//!   monitors' runs through the segments, i.e. events of the bus with their instants, in order.
//!   `answers` has its answers.
//!
//! # What is proved
//!
//! If a part is of the files of a recording, the listing is that of this recording, and an answer in
//! its place is true (`DeterminesListingAnswer`). A recording is too long for a listing only if its
//! first break or one of its marks comes after instant 4,294,967,295 (`IsTooLongToList`).
//!
//! # What isn't proved
//!
//! That memory suffices.
#![tactic(auto)]

mod answers;
mod listing;

pub use answers::ListingAnswer;
pub use listing::tell_listing;

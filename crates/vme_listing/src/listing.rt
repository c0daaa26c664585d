//! A listing: its version and its rows.

ghost use Rattle.std.specs.Prelude.{◌≡◌, ◌≤◌, ◌<◌, ◌^◌, length, true};
ghost use Rattle.vme_trace.specs.Trace.{Trace};
ghost use Rattle.vme_listing.specs.declared.row.Version.{Version};
ghost use Rattle.vme_listing.specs.Places.{can_include, is_well_placed};
ghost use Rattle.vme_listing.specs.Recorded.{listing_of, recorded_rows, rows_in};

use crate::row::{Row, Version};
use std::marker::Model;

/// A listing: its version, and its rows as a list.
#[derive(Drop)]
pub struct Listing {
    version: Version,
    rows: Vec<Row>,
}

impl Model for Listing {
    ghost use Rattle.vme_listing.specs.Listed.{Listed};

    ghost Value = { Listed };

    ghost view = { λ a. record { version = a.version; rows = a.rows.items } };
}

impl Listing {
    /// A listing of the rows in a vector.
    pub fn new(version: Version, rows: Vec<Row>) -> Listing
        ensures { result ≡ record { version = version; rows = rows.items } }
    {
        Listing { version, rows }
    }

    /// The version.
    pub fn version(&self) -> Version
        ensures { result ≡ self.now.version }
    {
        self.version
    }

    /// The rows, in their order.
    pub fn rows(&self) -> &[Row]
        ensures { result.now ≡ self.now.rows }
    {
        self.rows.as_slice()
    }

    /// The vector of the rows.
    pub fn into_rows(self) -> Vec<Row>
        ensures { result.items ≡ self.rows }
    {
        let Listing { version: _, rows } = self;
        rows
    }
}

/// The listing of every recording, in each version that can have its rows, is well placed, so that
/// [`read_listing`](crate::read_listing) accepts its text: of every recording of at most 21 slots and fewer than 2^32
/// steps, well formed or not.
pub fn listings_are_well_placed()
    ensures recorded { (t : Trace) → t.opening.slots ≤ 21 → length t.steps < 2 ^ 32
        → is_well_placed (listing_of t) ≡ true }
    ensures versions { (v : Version) (t : Trace) → t.opening.slots ≤ 21 → length t.steps < 2 ^ 32
        → can_include v (recorded_rows t) ≡ true
        → is_well_placed (record { version = v; rows = rows_in v (recorded_rows t) }) ≡ true }
{}

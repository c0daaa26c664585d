//! The rows of a listing, read one by one up to its first fault.

ghost use Rattle.std.specs.Prelude.{◌≡◌, ◌<◌, ◌∷◌, ◌++◌, List, [], Option, None, Some, IfOk, IfSome, MatchOption};
ghost use Rattle.vme_listing.specs.Reading.{RowsSoFar};
ghost use Rattle.vme_trace.specs.Streams.{Reading};
ghost use Rattle.vme_listing.specs.declared.row.Row.{Row};
ghost use Rattle.vme_listing.specs.declared.row.Version.{Version};
ghost use Rattle.vme_dump_input.specs.BufferedInputs.{not_read};
ghost use Rattle.vme_confirm_command.specs.RowsOfListing.{AreCounted, ListingGaveAllRows, ListingGaveRows};
ghost use Rattle.vme_confirm_command.specs.RowsOfListing.{IsListingRead, IsOver};
ghost use Rattle.vme_confirm_command.specs.RowsOfListing.{IsSomeReading, bytes_left};

use crate::row_reading::{begin_rows, next_row};
use crate::rows_fault::RowsFault;
use std::alloc::{AllocError, Global};
use vme_cert::RowSource;
use vme_dump_input::BufferedInput;
use vme_listing::{ListingReader, Row, Version};
use vme_trace::Source;

/// How many bytes a listing has at most: 512 for each step that a recording may have, more than the rows of an instant
/// have.
pub(crate) const LONGEST_LISTING: u64 = 137_438_953_472;

/// How many bytes each read of a listing has room for.
pub(crate) const LISTING_ROOM: usize = 2_097_152;

/// The rows of a listing that are still to be read.
#[derive(Drop)]
pub(crate) struct ListingRows<L: Source + Drop> {
    source: L,
    input: BufferedInput,
    /// How far the rows are read, unless there is a fault.
    reader: Option<ListingReader>,
    fault: Option<RowsFault>,
    ghost counted: { AreCounted reader fault input },
}

/// The buffer that a listing is read into.
pub(crate) fn listing_input(alloc: Global) -> Result<BufferedInput, AllocError>
    ensures { IfOk result (λ input. input ≡ not_read LONGEST_LISTING LISTING_ROOM) }
{
    BufferedInput::new(alloc, LONGEST_LISTING, LISTING_ROOM)
}

impl<L: Source + Drop> ListingRows<L> {
    /// Begins after the header, if there is one.
    pub fn begin(source: L, input: BufferedInput) -> ListingRows<L>
        requires { input ≡ not_read LONGEST_LISTING LISTING_ROOM }
        ensures gave { (version : Version) → IfSome result.reader (λ so_far. so_far.version ≡ version)
            → ListingGaveRows (L.reading source) version (L.reading result.source) result.input result.reader
            result.fault [] }
    {
        let mut source = source;
        let mut input = input;
        let reader = match begin_rows(&mut source, &mut input) {
            Ok(reader) => reader,
            Err(fault) => {
                return ListingRows {
                    source,
                    input,
                    reader: None,
                    fault: Some(fault),
                };
            }
        };
        ListingRows {
            source,
            input,
            reader: Some(reader),
            fault: None,
        }
    }

    /// The version in the header. Without a header it is any.
    pub fn version(&self) -> Version
        ensures { IfSome self.now.reader (λ so_far. so_far.version ≡ result) }
    {
        match &self.reader {
            Some(reader) => reader.version(),
            None => Version::Three,
        }
    }

    /// The next row, if there is one.
    fn give(&mut self) -> Option<Row>
        ensures gave { (old : Reading) (version : Version) (rows : List Row)
            → ListingGaveRows old version (L.reading self.old.source) self.old.input self.old.reader self.old.fault rows
            → MatchOption result (ListingGaveAllRows old version (L.reading self.new.source) self.new.input
            self.new.reader
            self.new.fault rows) (λ row. ListingGaveRows old version (L.reading self.new.source) self.new.input
            self.new.reader self.new.fault (rows ++ row ∷ [])) }
        ensures over { result ≡ None → IsOver self.new.reader self.new.fault }
        ensures stays { IsOver self.old.reader self.old.fault → result ≡ None }
        ensures shorter { IfSome result (λ row. bytes_left self.new.input < bytes_left self.old.input) }
    {
        let Some(mut reader) = self.reader.take() else {
            return None;
        };
        match next_row(&mut self.source, &mut self.input, &mut reader) {
            Ok(row) => {
                self.reader = Some(reader);
                row
            }
            Err(fault) => {
                self.fault = Some(fault);
                None
            }
        }
    }

    /// Reads the rest. Returns the first fault of the listing, if it has one, and the source of the listing.
    pub fn finish(self) -> (Result<(), RowsFault>, L)
        ensures { (old : Reading) (version : Version) (rows : List Row)
            → ListingGaveRows old version (L.reading self.source) self.input self.reader self.fault rows
            → IsListingRead old version (L.reading result.1) rows (IsOver self.reader self.fault) result.0 }
    {
        let mut rows = self;
        while rows.give().is_some() {}
        let ListingRows {
            source,
            input,
            reader: _,
            fault,
        } = rows;
        match fault {
            None => (Ok(()), source),
            Some(fault) => read_to_end(source, input, fault),
        }
    }

    /// The source of the listing.
    pub fn into_source(self) -> L
        ensures { (old : Reading) (version : Version) (rows : List Row)
            → ListingGaveRows old version (L.reading self.source) self.input self.reader self.fault rows
            → IsSomeReading old (L.reading result) }
    {
        let ListingRows {
            source,
            input: _,
            reader: _,
            fault: _,
        } = self;
        source
    }
}

/// Reads the listing to its end after `fault`. That it can't be read, or is too long, comes before a fault of its text.
fn read_to_end<L: Source + Drop>(
    source: L,
    input: BufferedInput,
    fault: RowsFault,
) -> (Result<(), RowsFault>, L)
    ensures { (old : Reading) (version : Version) (rows : List Row) (reader : Option RowsSoFar)
        → ListingGaveRows old version (L.reading source) input reader (Some fault) rows
        → IsListingRead old version (L.reading result.1) rows (Unit {0}) result.0 }
{
    let mut source = source;
    let mut input = input;
    match fault {
        RowsFault::Input(fault) => (Err(RowsFault::Input(fault)), source),
        RowsFault::Text(fault) => match input.read_rest(&mut source) {
            Ok(()) => (Err(RowsFault::Text(fault)), source),
            Err(fault) => (Err(RowsFault::Input(fault)), source),
        },
    }
}

impl<L: Source + Drop> RowSource for ListingRows<L> {
    ghost use Rattle.std.specs.Prelude.{List};
    ghost use Rattle.vme_trace.specs.Streams.{Reading};
    ghost use Rattle.vme_listing.specs.declared.row.Version.{Version};
    ghost use Rattle.vme_confirm_command.specs.RowsOfListing.{ListingGaveRows, IsOver};

    ghost Whole = { Reading × Version };

    ghost gave = { λ whole s rows. ListingGaveRows whole.0 whole.1 (L.reading s.source) s.input s.reader s.fault rows };

    ghost is_over = { λ s. IsOver s.reader s.fault };

    fn next(&mut self) -> Option<Row> {
        self.give()
    }
}

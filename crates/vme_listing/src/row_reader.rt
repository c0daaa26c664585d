//! The rows of a text, read from its top one by one up to the first fault.

ghost use Rattle.std.specs.Prelude.{◌≡◌, ◌<◌, ℕ, List, [], ◌∷◌, ◌++◌, length, true, IfOk, IfErr, IfSome};
ghost use Rattle.vme_listing.specs.Places.{ends_listing};
ghost use Rattle.vme_listing.specs.Reading.{HasRead, HasNoListing, IsFaultOfText, IsFirstFault, IsTextOfListing};
ghost use Rattle.vme_listing.specs.Reading.{listed};
ghost use Rattle.vme_listing.specs.declared.fault.ListFault.TheVariants.{BadHeader};
ghost use Rattle.vme_listing.specs.declared.row.Row.{Row};

use crate::fault::ListFault;
use crate::listing_reader::ListingReader;
use crate::row::{Row, Version};
use std::marker::Model;

/// The text of a listing after its header and the rows that have been read.
#[derive(Drop)]
pub struct RowReader<'a> {
    reader: ListingReader,
    rest: &'a [u8],
}

impl<'a> Model for RowReader<'a> {
    ghost use Rattle.vme_listing.specs.Reading.{Unread, behind_rows};

    ghost Value = { Unread };

    ghost use Rattle.std.specs.Prelude.{◌+◌, ◌^◌, ◌<◌, length};

    ghost view = { λ a. behind_rows a.reader a.rest.now };

    ghost invariant = { λ a. a.reader.count + length a.rest.now < 2 ^ 63 };
}

impl<'a> RowReader<'a> {
    /// A reader at the first row after the header of the text, if the text has a header.
    pub fn of(text: &'a [u8]) -> Option<RowReader<'a>>
        ensures read { IfSome result (λ reader. HasRead text.now [] reader) }
        ensures fault { result ≡ None → IsFirstFault text.now BadHeader }
        ensures none { result ≡ None → HasNoListing text.now }
    {
        let (reader, count) = ListingReader::begin(text, true)?;
        Some(RowReader {
            reader,
            rest: &text[count..],
        })
    }

    /// The version of the header.
    pub fn version(&self) -> Version
        ensures { result ≡ self.now.version }
    {
        self.reader.version()
    }

    /// The next row, or `None` where the listing is whole; or the first fault of the text, and the reader is left as it
    /// was.
    pub fn next(&mut self) -> Result<Option<Row>, ListFault>
        ensures row { (text : List ℕ) (rows : List Row) → HasRead text rows self.old
            → IfOk result (λ row. IfSome row (λ row. HasRead text (rows ++ row ∷ []) self.new)) }
        ensures whole { (text : List ℕ) (rows : List Row) → HasRead text rows self.old → result ≡ Ok None
            → IsTextOfListing text (listed self.old.version rows) }
        ensures fault { (text : List ℕ) (rows : List Row) → HasRead text rows self.old
            → IfErr result (IsFaultOfText text) }
        ensures version { self.new.version ≡ self.old.version }
        ensures shorter { IfOk result (λ row. IfSome row (λ row. length self.new.rest < length self.old.rest)) }
        ensures over { result ≡ Ok None → ends_listing self.old.last ≡ true }
        ensures stays { ends_listing self.old.last ≡ true → (result ≡ Ok None) × (self.new ≡ self.old) }
        ensures left { IfErr result (λ fault. self.new ≡ self.old) }
    {
        match self.reader.next(self.rest, true) {
            Ok(Some((row, count))) => {
                self.rest = &self.rest[count..];
                Ok(Some(row))
            }
            Ok(None) => Ok(None),
            Err(fault) => Err(fault),
        }
    }
}

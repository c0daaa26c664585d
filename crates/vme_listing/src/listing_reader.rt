//! The rows of a text that comes in pieces, read from its top one by one up to the first fault.

ghost use Rattle.std.specs.Prelude.{◌≡◌, ◌+◌, ◌^◌, ◌<◌, ◌≤◌, ℕ, List, [], ◌∷◌, ◌++◌, drop, length, true, false, IfOk};
ghost use Rattle.std.specs.Prelude.{IfErr, IfSome};
ghost use Rattle.vme_listing.specs.Places.{ends_listing};
ghost use Rattle.vme_listing.specs.Reading.{HasRead, HasNoListing, HoldsOfRead, IsFaultOfText, IsFirstFault};
ghost use Rattle.vme_listing.specs.Reading.{IsFollowedBy, IsTextOfListing, behind_rows, listed};
ghost use Rattle.vme_listing.specs.declared.fault.ListFault.TheVariants.{BadHeader};
ghost use Rattle.vme_listing.specs.declared.row.Row.{Row};

use crate::fault::ListFault;
use crate::read::{front_header, front_row};
use crate::row::{Row, Version};
use crate::text::LONGEST_LINE;
use std::marker::Model;

/// How far the text of a listing has been read, where the text comes in pieces. Of the text only the last row that was
/// read is kept.
///
/// Each call is passed the next bytes of the text, and whether they are its rest. If they aren't, they are more than
/// [`LONGEST_LINE`](crate::LONGEST_LINE) bytes: then the row at their start doesn't depend on the bytes after them.
#[derive(Drop)]
pub struct ListingReader {
    version: Version,
    /// The last row that was read, and how many were.
    last: Option<Row>,
    count: usize,
}

/// Whether there is a row and it is the last of a listing, i.e. a verdict.
fn is_last(row: Option<Row>) -> bool
    ensures { result ≡ ends_listing row }
{
    match row {
        Some(row) => row.is_verdict(),
        None => false,
    }
}

impl Model for ListingReader {
    ghost use Rattle.vme_listing.specs.Reading.{RowsSoFar};

    ghost Value = { RowsSoFar };

    ghost view = { λ a. record { version = a.version; last = a.last; count = a.count } };
}

impl ListingReader {
    /// Begins after the header of a text, if the text has one. `bytes` are the first bytes of the text. Also returns
    /// how many of them the header has.
    pub fn begin(bytes: &[u8], is_rest: bool) -> Option<(ListingReader, usize)>
        requires { is_rest ≡ false → LONGEST_LINE < length bytes.now }
        ensures read { (future : List ℕ) → IfSome result (λ begun. HasRead (bytes.now ++ future) []
            (behind_rows begun.0 (drop begun.1 bytes.now ++ future))) }
        ensures fault { (future : List ℕ) → IsFollowedBy is_rest future → result ≡ None
            → IsFirstFault (bytes.now ++ future) BadHeader }
        ensures none { (future : List ℕ) → IsFollowedBy is_rest future → result ≡ None
            → HasNoListing (bytes.now ++ future) }
        ensures within { IfSome result (λ begun. begun.1 ≤ length bytes.now) }
        ensures first { IfSome result (λ begun. begun.0.count ≡ 0) }
    {
        let (version, rest) = front_header(bytes)?;
        let reader = ListingReader {
            version,
            last: None,
            count: 0,
        };
        Some((reader, bytes.len() - rest.len()))
    }

    /// The version of the header.
    pub fn version(&self) -> Version
        ensures { result ≡ self.now.version }
    {
        self.version
    }

    /// The row at the start of `bytes`, and how many of them its line has, or `None` where the listing is whole; or the
    /// first fault of the text, and `self` is left as it was.
    pub fn next(&mut self, bytes: &[u8], is_rest: bool) -> Result<Option<(Row, usize)>, ListFault>
        requires enough { is_rest ≡ false → LONGEST_LINE < length bytes.now }
        requires countable { self.old.count < 2 ^ 63 }
        ensures row { HoldsOfRead self.old bytes.now is_rest (λ text future rows.
            IfOk result (λ found. IfSome found (λ next. HasRead text (rows ++ next.0 ∷ [])
            (behind_rows self.new (drop next.1 bytes.now ++ future))))) }
        ensures whole { HoldsOfRead self.old bytes.now is_rest (λ text future rows.
            result ≡ Ok None → IsTextOfListing text (listed self.old.version rows)) }
        ensures fault { HoldsOfRead self.old bytes.now is_rest (λ text future rows.
            IfErr result (IsFaultOfText text)) }
        ensures version { self.new.version ≡ self.old.version }
        ensures within { IfOk result (λ found. IfSome found (λ next. (0 < next.1) × (next.1 ≤ length bytes.now))) }
        ensures counted { IfOk result (λ found. IfSome found (λ next. self.new.count ≡ self.old.count + 1)) }
        ensures over { result ≡ Ok None → ends_listing self.old.last ≡ true }
        ensures stays { ends_listing self.old.last ≡ true → (result ≡ Ok None) × (self.new ≡ self.old) }
        ensures left { IfErr result (λ fault. self.new ≡ self.old) }
    {
        if is_last(self.last) {
            return Ok(None);
        }
        let number = self.count + 1;
        let Some((row, more)) = front_row(self.version, bytes) else {
            return Err(ListFault::BadRow { row: number });
        };
        if !row.may_follow(self.last) {
            return Err(ListFault::BadRow { row: number });
        }
        if !row.ascends(self.version, self.last) {
            return Err(ListFault::Unsorted { row: number });
        }
        let count = bytes.len() - more.len();
        self.last = Some(row);
        self.count = number;
        Ok(Some((row, count)))
    }
}

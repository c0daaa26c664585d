//! A listing from its text.

ghost use Rattle.std.specs.Prelude.{◌≡◌, ◌≢◌, ℕ, true, None, List, ◌++◌};
ghost use Rattle.std.specs.Prelude.{IfSome, IsSomeAnd, IfOk, IfErr};
ghost use Rattle.vme_listing.specs.Places.{is_row, is_well_placed};
ghost use Rattle.vme_listing.specs.Reading.{IsFront, IsFirstFault, IsNoListing, IsOnlyListing};
ghost use Rattle.vme_listing.specs.RowText.{header, text_of};
ghost use Rattle.vme_listing.specs.declared.row.Row.{Row};
ghost use Rattle.vme_listing.specs.declared.row.Version.{Version};

use crate::fault::ListFault;
use crate::line::read_row;
use crate::listing::Listing;
use crate::row::{Row, Version};
use crate::row_reader::RowReader;
use memchr::memchr;
use std::alloc::Global;

/// The version whose header is at the start of the text, and the bytes after the header.
pub(crate) fn front_header(text: &[u8]) -> Option<(Version, &[u8])>
    ensures named { IfSome result (λ front. text.now ≡ header front.0 ++ front.1.now) }
    ensures none { result ≡ None → (version : Version) (rest : List ℕ) → text.now ≢ header version ++ rest }
{
    if let Some(rest) = text.strip_prefix(Version::One.header()) {
        return Some((Version::One, rest));
    }
    if let Some(rest) = text.strip_prefix(Version::Two.header()) {
        return Some((Version::Two, rest));
    }
    let rest = text.strip_prefix(Version::Three.header())?;
    Some((Version::Three, rest))
}

/// The row of the version whose line is at the start of the text, and the bytes after the line. Nothing may follow a
/// verdict.
pub(crate) fn front_row(version: Version, text: &[u8]) -> Option<(Row, &[u8])>
    ensures named { IfSome result (λ front. (is_row version front.0 ≡ true) × IsFront text.now front.0 front.1.now) }
    ensures found { (row : Row) (more : List ℕ) → is_row version row ≡ true → IsFront text.now row more
        → IsSomeAnd result (λ front. (front.0 ≡ row) × (front.1.now ≡ more)) }
{
    let end = memchr(b'\n', text)?;
    let row = read_row(version, &text[..end])?;
    let more = &text[end + 1..];
    if row.is_verdict() && !more.is_empty() {
        return None;
    }
    Some((row, more))
}

/// Reads the text of a listing, of the version in its header. The text is read from the top, and the first fault is
/// named: the header; a line that isn't a row, a row that may not be there, or a missing row; a row out of order; or
/// want of memory.
pub fn read_listing(alloc: Global, text: &[u8]) -> Result<Listing, ListFault>
    ensures listing { IfOk result (λ l. (is_well_placed l ≡ true) × (text_of l ≡ text.now)) }
    ensures only { IfOk result (λ l. IsOnlyListing text.now l) }
    ensures first { IfErr result (λ fault. IsFirstFault text.now fault) }
    ensures none { IfErr result (λ fault. IsNoListing text.now fault) }
{
    let Some(mut reader) = RowReader::of(text) else {
        return Err(ListFault::BadHeader);
    };
    let mut rows: Vec<Row> = Vec::new(alloc);
    while let Some(row) = reader.next()? {
        if rows.push(row).is_err() {
            return Err(ListFault::Memory);
        }
    }
    Ok(Listing::new(reader.version(), rows))
}

//! Whether a listing is that of a recording: as its rows, or as its text.

ghost use Rattle.std.specs.Prelude.{[], List, IfOk, IfErr};
ghost use Rattle.vme_listing.specs.Reading.{IsFirstFault, IsNoListing};
ghost use Rattle.vme_listing.specs.Recorded.{recorded_rows, rows_in};
ghost use Rattle.vme_listing.specs.declared.row.Row.{Row};
ghost use Rattle.vme_cert.specs.Agreement.{DecidesListing, DecidesText};
ghost use Rattle.vme_cert.specs.Comparing.{Decides};

use crate::checker::Checker;
use crate::source::{ListedRows, RowSource, TextRows};
use std::alloc::{AllocError, Global};
use vme_listing::{ListFault, Listing, RowReader, Version};
use vme_trace::Capture;

/// What a check of a listing says.
#[derive(Clone, Copy, Debug, PartialEq, Eq)]
pub enum Answer {
    /// It is the listing of the recording.
    Yes,
    /// It isn't.
    No {
        /// The first row that differs, counted from 1. If one of the two lists is a prefix of the other, its length
        /// plus 1.
        row: usize,
    },
}

/// Whether the rows that `source` gives are those of the listing of `capture` in `version`; and the source.
fn check<S: RowSource>(capture: &Capture, version: Version, source: S) -> (Answer, S)
    ensures { (whole : S.Whole) → S.gave whole source [] → (more : List Row) × S.gave whole result.1 more
        × Decides S.is_over more (rows_in version (recorded_rows capture.now)) result.1 result.0 }
{
    let mut checker = Checker::new(capture.opening(), version, source);
    for step in capture.steps() {
        checker.take(step);
    }
    checker.finish()
}

/// Whether `listing` is that of `capture` in the listing's version, by the definitions alone. If not, the first row
/// that differs. The only error of the type is want of memory, and nothing takes memory.
pub fn confirm(alloc: Global, capture: &Capture, listing: &Listing) -> Result<Answer, AllocError>
    ensures { IfOk result (λ answer. DecidesListing listing.now.rows
        (rows_in listing.now.version (recorded_rows capture.now)) answer) }
{
    let _ = alloc;
    let rows = ListedRows {
        rest: listing.rows(),
    };
    let (answer, _source) = check(capture, listing.version(), rows);
    Ok(answer)
}

/// Whether `text` is that of the listing of `capture` in the text's version. If not, the first row that differs. The
/// error is the first fault of the text, wherever it is. The text is read row by row.
pub fn confirm_text(alloc: Global, capture: &Capture, text: &[u8]) -> Result<Answer, ListFault>
    ensures answer { IfOk result (λ answer. DecidesText text.now capture.now answer) }
    ensures first { IfErr result (λ fault. IsFirstFault text.now fault) }
    ensures none { IfErr result (λ fault. IsNoListing text.now fault) }
{
    let _ = alloc;
    let Some(reader) = RowReader::of(text) else {
        return Err(ListFault::BadHeader);
    };
    let version = reader.version();
    let rows = TextRows {
        reader,
        fault: None,
    };
    let (answer, source) = check(capture, version, rows);
    match source.fault() {
        Some(fault) => Err(fault),
        None => Ok(answer),
    }
}

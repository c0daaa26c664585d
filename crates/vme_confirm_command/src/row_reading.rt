//! Reads the next row of a listing. Before that more bytes are held than a line has at most, unless
//! the listing's input ends.

ghost use Rattle.std.specs.Prelude.{◌≡◌, ◌+◌, ◌^◌, ◌<◌, ◌≤◌, ℕ, List, [], true, false, Option, Some, None, Ok, IfErr};
ghost use Rattle.std.specs.Prelude.{IfOk, IfSome, OnOk, length};
ghost use Rattle.vme_trace.specs.Streams.{Reading};
ghost use Rattle.vme_listing.specs.Places.{ends_listing};
ghost use Rattle.vme_listing.specs.declared.row.Row.{Row};
ghost use Rattle.vme_confirm_command.specs.Confirmations.{longest_listing};
ghost use Rattle.vme_dump_input.specs.BufferedInputs.{FailsAs, IsReadTo};
ghost use Rattle.vme_confirm_command.specs.RowsOfListing.{AreRead, HoldsMore, IsCounted, ReadsRow, bytes_left};

use crate::rows_fault::RowsFault;
use vme_dump_input::BufferedInput;
use vme_listing::{LONGEST_LINE, ListFault, ListingReader, Row};
use vme_stream::InFault;
use vme_trace::Source;

/// Reads until more bytes are held than a line has at most, or the input ends.
fn fill<L: Source>(source: &mut L, input: &mut BufferedInput) -> Result<(), InFault>
    ensures read { (old : Reading) (done : List ℕ) → IsReadTo old (L.reading source.old) done input.old
        → OnOk result (IsReadTo old (L.reading source.new) done input.new) }
    ensures filled { OnOk result (HoldsMore input.old input.new) }
    ensures enough { OnOk result (input.new.is_whole ≡ false → LONGEST_LINE < length input.new.held) }
    ensures fails { (old : Reading) (done : List ℕ) → IsReadTo old (L.reading source.old) done input.old
        → IfErr result (FailsAs input.old.limit old (L.reading source.new)) }
    ensures counted { input.new.read + length input.old.held ≡ input.old.read + length input.new.held }
    ensures small { input.old.read < 2 ^ 62 → input.new.read < 2 ^ 62 }
    ensures limit { (input.new.limit ≡ input.old.limit) × (input.new.room ≡ input.old.room) }
{
    while !input.is_whole() && input.bytes().len() <= LONGEST_LINE {
        if let Err(fault) = input.read(source) {
            return Err(fault);
        }
    }
    Ok(())
}

/// Takes the header of a listing of which nothing is read yet. The result gives its rows.
pub(crate) fn begin_rows<L: Source>(
    source: &mut L,
    input: &mut BufferedInput,
) -> Result<ListingReader, RowsFault>
    requires small { input.old.read < 2 ^ 62 }
    requires held { length input.old.held ≤ input.old.read }
    ensures begun { (old : Reading) → IsReadTo old (L.reading source.old) [] input.old
        → input.old.limit ≡ longest_listing → AreRead old (L.reading source.new) input.new result [] }
    ensures counted { IfOk result (λ so_far. IsCounted so_far input.new) }
    ensures limit { input.new.limit ≡ input.old.limit }
{
    if let Err(fault) = fill(source, input) {
        return Err(RowsFault::Input(fault));
    }
    match ListingReader::begin(input.bytes(), input.is_whole()) {
        Some((reader, count)) => {
            input.take_first(count);
            Ok(reader)
        }
        None => Err(RowsFault::Text(ListFault::BadHeader)),
    }
}

/// The next row, or none where the listing has ended.
pub(crate) fn next_row<L: Source>(
    source: &mut L,
    input: &mut BufferedInput,
    reader: &mut ListingReader,
) -> Result<Option<Row>, RowsFault>
    requires counted { IsCounted reader.old input.old }
    ensures row { (old : Reading) (rows : List Row) → AreRead old (L.reading source.old) input.old (Ok reader.old) rows
        → input.old.limit ≡ longest_listing
        → ReadsRow old (L.reading source.new) input.new reader.new rows result }
    ensures counted { OnOk result (IsCounted reader.new input.new) }
    ensures version { reader.new.version ≡ reader.old.version }
    ensures limit { input.new.limit ≡ input.old.limit }
    ensures over { result ≡ Ok None → ends_listing reader.new.last ≡ true }
    ensures shorter { IfOk result (λ row. IfSome row (λ _. bytes_left input.new < bytes_left input.old)) }
    ensures stays { ends_listing reader.old.last ≡ true → IfOk result (λ row. row ≡ None) }
{
    if let Err(fault) = fill(source, input) {
        return Err(RowsFault::Input(fault));
    }
    match reader.next(input.bytes(), input.is_whole()) {
        Ok(Some((row, count))) => {
            input.take_first(count);
            Ok(Some(row))
        }
        Ok(None) => Ok(None),
        Err(fault) => Err(RowsFault::Text(fault)),
    }
}

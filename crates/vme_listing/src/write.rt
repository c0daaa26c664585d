//! A listing as text, written in pieces.

ghost use Rattle.std.specs.Prelude.{◌≡◌, ◌+◌, ◌<◌, OnOk, OnErr, length};
ghost use Rattle.std.specs.Io.KnownBytes.{Appends};
ghost use Rattle.vme_trace.specs.Streams.{CountsFailure};
ghost use Rattle.vme_listing.specs.RowText.{text_of};
ghost use Rattle.vme_listing.specs.Written.{AppendsFront, Moves};

use crate::listing::Listing;
use crate::text::{LONGEST_LINE, MOST, RowBuffer};
use vme_trace::Sink;

/// A write failed.
#[derive(Clone, Copy, Debug, PartialEq, Eq)]
pub struct Write;

/// Writes all of `bytes`, or a prefix of them up to a write that fails.
fn put<W: Sink>(sink: &mut W, bytes: &[u8]) -> Result<(), Write>
    ensures whole { OnOk result (Appends (W.writing sink.old).taken (W.writing sink.new).taken bytes.now) }
    ensures front { OnErr result (AppendsFront (W.writing sink.old).taken (W.writing sink.new).taken bytes.now) }
    ensures failures { CountsFailure (W.writing sink.old).failures (W.writing sink.new).failures result }
{
    let mut rest = bytes;
    while !rest.is_empty() {
        match sink.write(rest) {
            Ok(taken) => rest = &rest[taken..],
            Err(_) => return Err(Write),
        }
    }
    Ok(())
}

/// Makes room for one more line in `held`: if there is none, what `held` has is written.
fn make_room<W: Sink>(sink: &mut W, held: &mut RowBuffer) -> Result<(), Write>
    ensures room { OnOk result (length held.new + LONGEST_LINE < MOST) }
    ensures moves { OnOk result (Moves (W.writing sink.old).taken (W.writing sink.new).taken held.old held.new) }
    ensures front { OnErr result (AppendsFront (W.writing sink.old).taken (W.writing sink.new).taken held.old) }
    ensures failures { CountsFailure (W.writing sink.old).failures (W.writing sink.new).failures result }
{
    if !held.has_room() {
        put(sink, held.as_bytes())?;
        held.clear();
    }
    Ok(())
}

/// Writes the text of a listing: a header, by its version, and a line for each row. It is written in pieces of up to
/// 4,096 bytes, and takes no memory. After an error a prefix of the text is written.
pub fn write_listing<W: Sink>(listing: &Listing, sink: &mut W) -> Result<(), Write>
    ensures whole { OnOk result (Appends (W.writing sink.old).taken (W.writing sink.new).taken (text_of listing.now)) }
    ensures front { OnErr result
        (AppendsFront (W.writing sink.old).taken (W.writing sink.new).taken (text_of listing.now)) }
    ensures failures { CountsFailure (W.writing sink.old).failures (W.writing sink.new).failures result }
{
    let mut piece = RowBuffer::new();
    piece.push_header(listing.version());
    let rows = listing.rows();
    for row in rows {
        make_room(sink, &mut piece)?;
        piece.push_line(row);
    }
    put(sink, piece.as_bytes())
}

//! Writes a dump with what is inserted into it.

ghost use Rattle.std.specs.Prelude.{◌≡◌, ◌<◌, ◌≤◌, ◌++◌, ℕ, true, List, MatchResult, Option, codes, flat_map};
ghost use Rattle.std.specs.Prelude.{map};
ghost use Rattle.vme_stream.specs.Outputs.{FailsToWrite, Writes};
ghost use Rattle.vme_trace.specs.Trace.{Trace};
ghost use Rattle.vcd_places.specs.Places.{IsAtTime, ends_definitions_at, times_of_body};
ghost use Rattle.vcd_places.specs.Times.{IsAscendingFrom, IsReached, times_left};
ghost use Rattle.vme_annotate.specs.Writing.{IsWrittenTo, StaysWithin};
ghost use Rattle.vme_annotation.specs.Annotated.{ArePutAt, annotated, change_text, declaration, declarations};
ghost use Rattle.vme_annotation.specs.Annotated.{with_space};
ghost use Rattle.vme_annotation.specs.Inserted.{PutChange, change_of};
ghost use Rattle.vme_annotate.specs.HasTimes.{HasTimes};
ghost use Rattle.vme_trace.specs.Streams.{Writing};
ghost use Rattle.vme_annotate.specs.Outputs.{HasPut};
ghost use Rattle.vme_annotate.specs.Planned.{ArePlanned, planned, text_in};
ghost use Rattle.vme_annotate.specs.TimedListings.{IsTimedListingOf};

use crate::added::AddedVariables;
use crate::changes::PlannedChange;
use crate::listed::TimedListing;
use crate::output_buffer::OutputBuffer;
use crate::short_text::ShortText;
use crate::shown::shown_text;
use vcd_places::{TimePlace, TimePlaces, definitions_end};
use vme_annotation::ShownVariable;
use vme_listing::Row;
use vme_stream::write_all;
use vme_trace::{Failed, Sink};

/// A dump, and what is inserted into it.
#[derive(Clone, Copy)]
pub(crate) struct Annotation<'a> {
    /// The bytes of the dump.
    pub dump: &'a [u8],
    /// The listing of the recording that a binding makes of the dump.
    pub listing: &'a TimedListing,
    /// The changes of its rows, in the order of their instants.
    pub changes: &'a [PlannedChange],
    /// The codes and the scope of the variables.
    pub added: &'a AddedVariables,
}

/// Puts the declaration of `variable`.
fn put_declaration<W: Sink>(
    buffer: &mut OutputBuffer,
    sink: &mut W,
    added: &AddedVariables,
    variable: ShownVariable,
)
    ensures { (start : Writing) (made : List ℕ) → HasPut start (W.writing sink.old) buffer.old made
        → HasPut start (W.writing sink.new) buffer.new (made
        ++ flat_map with_space (declaration added.now.own variable)) }
{
    buffer.put(sink, b"$var string 1 ");
    buffer.put(sink, added.code(variable.place()));
    buffer.put(sink, b" ");
    buffer.put(sink, variable.name());
    buffer.put(sink, b" $end ");
}

/// Puts the declarations of all variables, in their scope.
fn put_declarations<W: Sink>(buffer: &mut OutputBuffer, sink: &mut W, added: &AddedVariables)
    ensures { (start : Writing) (made : List ℕ) → HasPut start (W.writing sink.old) buffer.old made
        → HasPut start (W.writing sink.new) buffer.new (made ++ declarations added.now.scope added.now.own) }
{
    buffer.put(sink, b"$scope module ");
    buffer.put(sink, added.scope());
    buffer.put(sink, b" $end ");
    put_declaration(buffer, sink, added, ShownVariable::Tenure);
    put_declaration(buffer, sink, added, ShownVariable::Cycle);
    put_declaration(buffer, sink, added, ShownVariable::Transfer);
    put_declaration(buffer, sink, added, ShownVariable::Verdict);
    buffer.put(sink, b"$upscope $end ");
}

/// The text of a change, without its code: a space, `s`, and what is shown.
fn put_shown<W: Sink>(
    buffer: &mut OutputBuffer,
    sink: &mut W,
    listing: &TimedListing,
    change: PlannedChange,
)
    ensures { (start : Writing) (made : List ℕ) → HasPut start (W.writing sink.old) buffer.old made
        → HasPut start (W.writing sink.new) buffer.new (made
        ++ (codes " s" ++ text_in listing.now.listing.rows change.row)) }
{
    buffer.put(sink, b" s");
    let text = text_in(listing.rows(), change.row);
    buffer.put(sink, text.as_bytes());
}

/// The text of the row with the index `place`. Without one it is a hyphen: nothing is in progress.
fn text_in(rows: &[Row], place: Option<usize>) -> ShortText
    ensures { result ≡ text_in rows.now place }
{
    let Some(place) = place else {
        let mut text = ShortText::new();
        text.push(b"-");
        return text;
    };
    match rows.get(place) {
        Some(row) => shown_text(row),
        None => ShortText::new(),
    }
}

/// Puts a change: its text, and the code of its variable.
fn put_change<W: Sink>(
    buffer: &mut OutputBuffer,
    sink: &mut W,
    annotation: &Annotation<'_>,
    change: PlannedChange,
)
    ensures { (start : Writing) (made : List ℕ) → HasPut start (W.writing sink.old) buffer.old made
        → HasPut start (W.writing sink.new) buffer.new (made
        ++ change_text annotation.now.added.now.own (planned annotation.now.listing.now.listing.rows change)) }
{
    put_shown(buffer, sink, annotation.listing, change);
    buffer.put(sink, b" ");
    buffer.put(sink, annotation.added.code(change.variable.place()));
}

/// How far a dump is written, and its next time stamp.
#[derive(Drop)]
struct WritingPlace<'a> {
    /// How many bytes of the dump are put.
    count: usize,
    places: TimePlaces<'a>,
    /// The next time stamp of the dump. It isn't before the times that `go_to` was called with.
    next: Option<TimePlace>,
}

impl<'a> WritingPlace<'a> {
    /// The dump is written up to `end`, the end of its definitions.
    fn after_definitions(end: usize, places: TimePlaces<'a>) -> WritingPlace<'a>
        requires at { IsAtTime places.text 0 end }
        requires order { end ≡ places.at }
        requires all { times_left places ≡ times_of_body places.text }
        ensures written { IsWrittenTo places.entry.text 0 0 result }
        ensures within { StaysWithin result }
        ensures text { result.places.text ≡ places.entry.text }
        ensures count { result.count ≡ end }
    {
        let mut places = places;
        let next = places.next();
        WritingPlace {
            count: end,
            places,
            next,
        }
    }

    /// If the next time stamp that isn't below `time` equals it, continues after it, unless writing is already further.
    /// Returns the place at which writing continues.
    fn go_to(&mut self, time: u64) -> usize
        ensures place { result ≡ self.new.count }
        ensures forward { self.old.count ≤ result }
        ensures text { self.new.places.text ≡ self.old.places.text }
        ensures within { StaysWithin self.old → StaysWithin self.new }
        ensures written { (dump : List ℕ) (asked : ℕ) → IsWrittenTo dump asked asked self.old → asked ≤ time
            → IsReached dump time → IsAscendingFrom 0 (times_of_body dump) → IsWrittenTo dump time time self.new }
    {
        while let Some(found) = self.next {
            if found.time == time {
                self.count = found.end.max(self.count);
                return self.count;
            }
            if found.time > time {
                return self.count;
            }
            self.next = self.places.next();
        }
        self.count
    }
}

/// Writes a dump with its declarations and changes, in pieces of up to 4,096 bytes, or longer ones of the dump itself.
/// It takes no memory. After a failure a prefix of the text is written.
pub(crate) fn write_annotated<W: Sink>(
    sink: &mut W,
    annotation: &Annotation<'_>,
) -> Result<(), Failed>
    ensures { (t : Trace) → IsTimedListingOf t annotation.now.listing.now → HasTimes annotation.now.dump.now t
        → ArePlanned annotation.now.listing.now.listing.rows annotation.now.changes.now
        → (start : ℕ) × (put : List PutChange)
        × (ends_definitions_at annotation.now.dump.now start ≡ true)
        × ArePutAt annotation.now.dump.now t start put
        × (map change_of put ≡ map (planned annotation.now.listing.now.listing.rows) annotation.now.changes.now)
        × MatchResult result
        (λ _. Writes (W.writing sink.old) (W.writing sink.new)
        (annotated annotation.now.dump.now start annotation.now.added.now.scope annotation.now.added.now.own put))
        (λ _. FailsToWrite (W.writing sink.old) (W.writing sink.new)
        (annotated annotation.now.dump.now start annotation.now.added.now.scope annotation.now.added.now.own put)) }
{
    let dump = annotation.dump;
    let Some((section, places)) = definitions_end(dump) else {
        return write_all(sink, dump);
    };
    let mut buffer = OutputBuffer::new();
    buffer.put(sink, &dump[..section.start]);
    put_declarations(&mut buffer, sink, annotation.added);
    buffer.put(sink, &dump[section.start..section.end]);
    let mut written = WritingPlace::after_definitions(section.end, places);
    for change in annotation.changes {
        let from = written.count;
        let place = written.go_to(annotation.listing.shown_time(change.instant));
        buffer.put(sink, &dump[from..place]);
        put_change(&mut buffer, sink, annotation, *change);
    }
    buffer.put(sink, &dump[written.count..]);
    buffer.finish(sink)
}

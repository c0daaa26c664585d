//! The listing from a part with marks.

ghost use Rattle.std.specs.Prelude.{◌≡◌, ◌+◌, ◌<◌, ◌++◌, ◌∷◌, [], ◌^◌, All, IfOk, IfSome, List, OnOk, length, map};
ghost use Rattle.std.specs.Prelude.{◌≤◌, None, Some, true};
ghost use Rattle.std.specs.Option.{option_map};
ghost use Rattle.vme_trace.specs.Levels.{Levels};
ghost use Rattle.vme_trace.specs.Trace.{levels_after};
ghost use Rattle.vme_trace.specs.declared.step.Step.{Step};
ghost use Rattle.vme_part_format.specs.Bounds.{FitsPart};
ghost use Rattle.vme_part_format.specs.declared.wide.WideBreak.{WideBreak};
ghost use Rattle.vme_part_format.specs.Tables.{part_value, segment_value, table_value};
ghost use Rattle.vme_part_tables.specs.Runs.{break_of, mark_of};
ghost use Rattle.vme_part_tables.specs.Ways.{later_mark, outcome_in};
ghost use Rattle.vme_parts.specs.Buddies.{HasTables};
ghost use Rattle.vme_parts.specs.Gathering.{IsSegment};
ghost use Rattle.vme_part_listing.specs.Late.{HasLateMark};
ghost use Rattle.vme_part_listing.specs.Marks.{FitRuns, HasMarks, ListsFiles, ShowLate, ShowsFiles, marks_of_runs};
ghost use Rattle.vme_parts.specs.Progress.{FitStates, TellsAll};
ghost use Rattle.vme_part_listing.specs.Listings.{DeterminesListingAnswer};

use crate::answers::ListingAnswer;
use std::alloc::{AllocError, Global};
use vme_chains::acknowledge::{Iack, acknowledge_over_recordings};
use vme_chains::grant::{Grant, grants_over_recordings};
use vme_dtb::handshake::{Dtb, handshake_over_recordings};
use vme_dtb::stability::{Stability, stability_over_recordings};
use vme_monitor::both::marks_together;
use vme_monitor::finite::Finite;
use vme_monitor::known::{Known, known_over_recordings};
use vme_monitor::mark::Mark;
use vme_part_format::{OutcomeTable, Part, Segment, WideBreak, WideMark};
use vme_part_tables::{follow, put_marks_of_run};
use vme_parts::{JudgedSegments, judged};
use vme_summary::listing_by;
use vme_trace::{Break, Lines};

/// The mark with an instant of 32 bits, if its instant fits.
fn narrow_mark(mark: &WideMark) -> Option<Mark>
    ensures same { IfSome result (λ m. m ≡ mark_of mark.now) }
    ensures late { result ≡ None → 2 ^ 32 ≤ mark.now.instant }
{
    match u32::try_from(mark.instant) {
        Ok(instant) => Some(Mark {
            instant,
            kind: mark.kind,
        }),
        Err(_) => None,
    }
}

/// The marks with instants of 32 bits, if all instants fit.
fn narrow(alloc: Global, marks: &[WideMark]) -> Result<Option<Vec<Mark>>, AllocError>
    ensures same { IfOk result (λ found. IfSome found (λ v. v.items ≡ map mark_of marks.now)) }
    ensures late { IfOk result (λ found. found ≡ None → HasLateMark (map mark_of marks.now)) }
{
    let mut all = Vec::with_capacity(alloc, marks.len())?;
    for mark in marks {
        let Some(mark) = narrow_mark(mark) else {
            return Ok(None);
        };
        all.push(mark)?;
    }
    Ok(Some(all))
}

/// The break, if there is one, with an instant of 32 bits, if its instant fits.
fn narrow_break(found: Option<WideBreak>) -> Option<Option<Break>>
    ensures same { IfSome result (λ b. b ≡ option_map break_of found) }
    ensures late { result ≡ None → (b : WideBreak) × (found ≡ Some b) × (2 ^ 32 ≤ b.instant) }
{
    match found {
        None => Some(None),
        Some(found) => match u32::try_from(found.instant) {
            Ok(instant) => Some(Some(Break {
                instant,
                time: found.time,
                rule: found.rule,
                line: found.line,
            })),
            Err(_) => None,
        },
    }
}

/// The run of one monitor through segments: the memory (state) that it is in, and its marks so far.
#[derive(Drop)]
struct MonitorRun {
    memory: u32,
    marks: Vec<WideMark>,
}

impl MonitorRun {
    /// Runs through the table of a segment, where `steps` steps come before the segment.
    fn go_past(&mut self, table: &OutcomeTable, steps: u64) -> Result<(), AllocError>
        requires few { length table.now.entries.items < 2 ^ 32 }
        requires memory { self.old.memory < length table.now.entries.items }
        ensures memory { OnOk result (self.new.memory ≡ (outcome_in (table_value table.now) self.old.memory).leaving) }
        ensures marks { OnOk result (self.new.marks.items ≡ self.old.marks.items
            ++ map (later_mark steps) (outcome_in (table_value table.now) self.old.memory).marks) }
    {
        put_marks_of_run(&mut self.marks, table, self.memory, steps)?;
        let (memory, _) = follow(table, self.memory);
        self.memory = memory;
        Ok(())
    }

    /// The marks with instants of 32 bits, if all instants fit.
    fn narrow_marks(&self, alloc: Global) -> Result<Option<Vec<Mark>>, AllocError>
        ensures same { IfOk result (λ found. IfSome found (λ v. v.items ≡ map mark_of self.now.marks.items)) }
        ensures late { IfOk result (λ found. found ≡ None → HasLateMark (map mark_of self.now.marks.items)) }
    {
        narrow(alloc, self.marks.as_slice())
    }
}

/// The run of a monitor at the opening of a recording.
fn begin<M: Finite>(alloc: Global, opening: &Lines) -> MonitorRun
    ensures memory { result.memory ≡ M.place_of (M.begin opening.now) }
    ensures low { result.memory < M.COUNT }
    ensures marks { result.marks.items ≡ [] }
{
    let memory = M::place(M::start(opening)) as u32;
    MonitorRun {
        memory,
        marks: Vec::new(alloc),
    }
}

/// The runs of all monitors through segments.
#[derive(Drop)]
struct MonitorRuns {
    known: MonitorRun,
    handshake: MonitorRun,
    stability: MonitorRun,
    grant: MonitorRun,
    acknowledge: MonitorRun,
}

impl MonitorRuns {
    /// The runs before any step.
    fn at(alloc: Global, opening: &Lines) -> MonitorRuns
        ensures fit { FitRuns result }
        ensures shows { HasMarks result opening.now [] }
    {
        MonitorRuns {
            known: begin::<Known>(alloc, opening),
            handshake: begin::<Dtb>(alloc, opening),
            stability: begin::<Stability>(alloc, opening),
            grant: begin::<Grant>(alloc, opening),
            acknowledge: begin::<Iack>(alloc, opening),
        }
    }

    /// Runs through a segment, where `steps` steps come before it.
    fn go_past(&mut self, segment: &Segment, steps: u64) -> Result<(), AllocError>
        requires fit { FitRuns self.old }
        requires tables { HasTables (segment_value segment.now) }
        ensures fit { OnOk result (FitRuns self.new) }
        ensures shows { OnOk result ((o v : Levels) (x y : List Step) → v ≡ levels_after o x → steps ≡ length x
            → length x + length y < 2 ^ 64 → HasMarks self.old o x → TellsAll true (segment_value segment.now) v y
            → HasMarks self.new o (x ++ y)) }
    {
        self.known.go_past(&segment.known, steps)?;
        self.handshake.go_past(&segment.handshake, steps)?;
        self.stability.go_past(&segment.stability, steps)?;
        self.grant.go_past(&segment.grant, steps)?;
        self.acknowledge.go_past(&segment.acknowledge, steps)?;
        Ok(())
    }

    /// The marks of all monitors, in order, if their instants fit in 32 bits.
    fn together(self, alloc: Global) -> Result<Option<Vec<Mark>>, AllocError>
        ensures same { IfOk result (λ found. IfSome found (λ v. v.items ≡ marks_of_runs self)) }
        ensures late { IfOk result (λ found. found ≡ None → HasLateMark (marks_of_runs self)) }
    {
        let Some(known) = self.known.narrow_marks(alloc)? else {
            return Ok(None);
        };
        let Some(handshake) = self.handshake.narrow_marks(alloc)? else {
            return Ok(None);
        };
        let Some(stability) = self.stability.narrow_marks(alloc)? else {
            return Ok(None);
        };
        let Some(grant) = self.grant.narrow_marks(alloc)? else {
            return Ok(None);
        };
        let Some(acknowledge) = self.acknowledge.narrow_marks(alloc)? else {
            return Ok(None);
        };
        let chains = marks_together(alloc, grant, acknowledge)?;
        let held = marks_together(alloc, stability, chains)?;
        let started = marks_together(alloc, handshake, held)?;
        let all = marks_together(alloc, known, started)?;
        Ok(Some(all))
    }
}

/// How many steps were judged.
fn step_count(judging: &JudgedSegments) -> u64
    ensures { result ≡ judging.now.steps }
{
    judging.steps
}

/// The marks of the runs through `first` and then `rest`, in order. `None` if an instant doesn't fit in 32 bits, or
/// judging stops.
fn marks_from(
    alloc: Global,
    first: &Segment,
    rest: &[Segment],
) -> Result<Option<Vec<Mark>>, AllocError>
    requires first { IsSegment (segment_value first.now) }
    requires rest { All IsSegment (map segment_value rest.now) }
    ensures shows { IfOk result (λ found. IfSome found
        (λ v. ShowsFiles first.now.opening (segment_value first.now ∷ map segment_value rest.now) v.items)) }
    ensures late { IfOk result (λ found. found ≡ None
        → ShowLate (segment_value first.now ∷ map segment_value rest.now)) }
{
    known_over_recordings();
    handshake_over_recordings();
    stability_over_recordings();
    grants_over_recordings();
    acknowledge_over_recordings();
    let mut judging = JudgedSegments::of(first);
    let mut runs = MonitorRuns::at(alloc, &first.opening);
    runs.go_past(first, 0)?;
    for segment in rest {
        let steps = judging.steps;
        match judging.go_past(segment) {
            Ok(()) => {
                // the steps fit in 64 bits
                let _after = step_count(&judging);
                runs.go_past(segment, steps)?
            }
            Err(_) => return Ok(None),
        }
    }
    runs.together(alloc)
}

/// The listing of a recording whose segments, `first` and then `rest`, were judged.
fn listing_from(
    alloc: Global,
    judging: &JudgedSegments,
    first: &Segment,
    rest: &[Segment],
) -> Result<ListingAnswer, AllocError>
    requires fit { FitStates judging.now.states }
    requires first { IsSegment (segment_value first.now) }
    requires rest { All IsSegment (map segment_value rest.now) }
    ensures { IfOk result (λ what.
        ListsFiles judging.now (segment_value first.now ∷ map segment_value rest.now) what) }
{
    // the steps fit in 64 bits
    let _steps = step_count(judging);
    let Some(first_break) = narrow_break(judging.states.first_break()) else {
        return Ok(ListingAnswer::TooLong);
    };
    let Some(marks) = marks_from(alloc, first, rest)? else {
        return Ok(ListingAnswer::TooLong);
    };
    let has_judged = judging.states.has_judged();
    let listing = listing_by(
        alloc,
        &first.opening,
        has_judged,
        first_break,
        marks.as_slice(),
    )?;
    Ok(ListingAnswer::Listing(listing))
}

/// The listing of a recording whose segments were all judged.
fn list_all(
    alloc: Global,
    judging: &JudgedSegments,
    segments: &[Segment],
) -> Result<ListingAnswer, AllocError>
    requires fit { FitStates judging.now.states }
    requires segments { All IsSegment (map segment_value segments.now) }
    ensures { IfOk result (λ what. ListsFiles judging.now (map segment_value segments.now) what) }
{
    match segments {
        [first, rest @ ..] => listing_from(alloc, judging, first, rest),
        [] => Ok(ListingAnswer::TooLong),
    }
}

/// The listing, from a part with marks, of a recording of `files` files or, if `files` is `None`, of those up to the
/// last that is covered; or the reason why there is none. It fails if memory runs out.
pub fn tell_listing(
    alloc: Global,
    part: &Part,
    files: Option<u64>,
) -> Result<ListingAnswer, AllocError>
    requires { FitsPart (part_value part.now) }
    ensures { IfOk result (λ what. DeterminesListingAnswer (part_value part.now) files what) }
{
    let judging = match judged(part, files) {
        Ok(judging) => judging,
        Err(told) => return Ok(ListingAnswer::Refused(told)),
    };
    if !part.listing {
        return Ok(ListingAnswer::Unmarked);
    }
    list_all(alloc, &judging, part.segments.as_slice())
}

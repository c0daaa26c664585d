//! A file whose steps are given some at a time.

ghost use Rattle.std.specs.Prelude.{◌≡◌, ◌+◌, ◌<◌, ◌≤◌, ◌++◌, ℕ, [], Bool, IfErr, IfOk, List, None, Option, Some};
ghost use Rattle.std.specs.Prelude.{length};
ghost use Rattle.vme_trace.specs.Followed.{with_steps};
ghost use Rattle.vme_trace.specs.Levels.{Levels};
ghost use Rattle.vme_trace.specs.Trace.{Trace};
ghost use Rattle.vme_trace.specs.WellFormed.{malformed_step};
ghost use Rattle.vme_trace.specs.declared.step.Step.{Step};
ghost use Rattle.vme_summary.specs.Joins.{block_of};
ghost use Rattle.vme_part_format.specs.Tables.{part_value, segment_value};
ghost use Rattle.vme_parts.specs.Buddies.{HasTables};
ghost use Rattle.vme_parts.specs.Files.{IsPartOfFile, StandsForFile};
ghost use Rattle.vme_parts.specs.NodeCounts.{HaveNodesAtMost, IsLackOfMemory, IsPartRefusal, tables_for};
ghost use Rattle.vme_parts.specs.OnlyWithMarks.{HaveNodes, IsRefusedFile};
ghost use Rattle.vme_file_part.specs.Growing.{IsExtended, IsFileSoFar, IsFoundOfFile, IsFoundIn, FileMayGoOn};
ghost use Rattle.vme_file_part.specs.Growing.{AreTooManyNodes, FileHasNodesAtMost, HaveNodesSoFar};
ghost use Rattle.vme_file_part.specs.FileOf.{file_of};

use crate::segments::joined_table;
use std::alloc::Global;
use vme_part_format::{Part, Segment};
use vme_parts::{PartRefusal, joined_times, part_with, segment_of_steps, steps_of_file};
use vme_trace::{Lines, Step};

/// A file of a recording with the steps given so far, judged from each memory (state of a monitor) in which it may
/// begin.
#[derive(Drop)]
pub struct FileSoFar {
    number: u32,
    listing: bool,
    /// The first time of its dump, if it has one.
    first_time: Option<u64>,
    /// The levels before the first step of the dump.
    opening: Lines,
    /// The segment of the file so far, if a step was given.
    segment: Option<Segment>,
}

/// The segment of the steps of `first` and then those of `second`, which are of one file.
fn extended(alloc: Global, first: Segment, second: Segment) -> Result<Segment, PartRefusal>
    requires first { HasTables (segment_value first) }
    requires second { HasTables (segment_value second) }
    requires steps { first.steps + second.steps ≤ 268435456 }
    ensures extends { IfOk result (λ r. IsExtended (segment_value first) (segment_value second) (segment_value r)) }
    ensures refused { (listing : Bool) → HaveNodes listing (segment_value first)
        → HaveNodes listing (segment_value second) → IfErr result (IsRefusedFile listing) }
    ensures many { (k j : ℕ) → HaveNodesAtMost k (segment_value first) → HaveNodesAtMost j (segment_value second)
        → IfErr result (IsPartRefusal (AreTooManyNodes (k + j))) }
{
    let by = first.steps;
    let known = joined_table(alloc, first.known, second.known, by)?;
    let handshake = joined_table(alloc, first.handshake, second.handshake, by)?;
    let stability = joined_table(alloc, first.stability, second.stability, by)?;
    let grant = joined_table(alloc, first.grant, second.grant, by)?;
    let acknowledge = joined_table(alloc, first.acknowledge, second.acknowledge, by)?;
    Ok(Segment {
        first: first.first,
        order: first.order,
        steps: by + second.steps,
        opening: first.opening,
        left: second.left,
        times: joined_times(first.times, second.times),
        known,
        handshake,
        stability,
        grant,
        acknowledge,
    })
}

/// The segment of a file whose steps so far have the segment `segment`, and that continues with `steps`.
fn with_more(
    alloc: Global,
    listing: bool,
    number: u32,
    segment: Segment,
    steps: &[Step],
) -> Result<Segment, PartRefusal>
    requires { (o : Levels) × (x : List Step) × StandsForFile listing (segment_value segment) (block_of number o x)
        × FileMayGoOn (record { opening = o; steps = x }) steps.now }
    ensures stands { (o : Levels) (x : List Step) → StandsForFile listing (segment_value segment) (block_of number o x)
        → FileMayGoOn (record { opening = o; steps = x }) steps.now
        → IfOk result (λ s. StandsForFile listing (segment_value s) (block_of number o (x ++ steps.now))) }
    ensures nodes { (k : ℕ) → HaveNodesAtMost k (segment_value segment)
        → IfOk result (λ s. HaveNodesAtMost (k + tables_for (length steps.now)) (segment_value s)) }
    ensures refused { IfErr result (IsRefusedFile listing) }
    ensures many { (k : ℕ) → HaveNodesAtMost k (segment_value segment)
        → IfErr result (IsPartRefusal (AreTooManyNodes (k + tables_for (length steps.now)))) }
{
    let more = segment_of_steps(alloc, listing, number, &segment.left, steps)?;
    extended(alloc, segment, more)
}

/// The segment of a file whose dump begins with `steps`.
fn begun(
    alloc: Global,
    listing: bool,
    number: u32,
    first_time: Option<u64>,
    opening: &Lines,
    steps: &[Step],
) -> Result<Segment, PartRefusal>
    requires { FileMayGoOn (record { opening = opening.now; steps = [] }) steps.now }
    ensures stands { IfOk result (λ s. StandsForFile listing (segment_value s)
        (file_of number first_time (record { opening = opening.now; steps = steps.now }))) }
    ensures few { IfOk result (λ s. HaveNodesAtMost (tables_for (length steps.now)) (segment_value s)) }
    ensures refused { IfErr result IsLackOfMemory }
{
    let mut opening = *opening;
    let steps = steps_of_file(number, first_time, &mut opening, steps);
    segment_of_steps(alloc, listing, number, &opening, steps)
}

/// The segment of a file that continues with `steps` after those of `segment` or, if there is none, begins with
/// `steps`.
fn segment_with(
    alloc: Global,
    listing: bool,
    number: u32,
    first_time: Option<u64>,
    opening: &Lines,
    segment: Option<Segment>,
    steps: &[Step],
) -> Result<Segment, PartRefusal>
    requires some { 0 < length steps.now }
    requires found { (t : Trace) × IsFoundIn number listing first_time opening.now segment t × FileMayGoOn t steps.now }
    ensures found { (t : Trace) → IsFoundIn number listing first_time opening.now segment t → FileMayGoOn t steps.now
        → IfOk result (λ s. IsFoundOfFile number listing first_time (Some s) (with_steps t steps.now)) }
    ensures nodes { (k : ℕ) → HaveNodesSoFar k segment
        → IfOk result (λ s. HaveNodesAtMost (k + tables_for (length steps.now)) (segment_value s)) }
    ensures refused { IfErr result (IsRefusedFile listing) }
    ensures many { (k : ℕ) → HaveNodesSoFar k segment
        → IfErr result (IsPartRefusal (AreTooManyNodes (k + tables_for (length steps.now)))) }
{
    match segment {
        Some(segment) => with_more(alloc, listing, number, segment, steps),
        None => begun(alloc, listing, number, first_time, opening, steps),
    }
}

/// The segment of a file whose steps were all given.
fn whole_segment(
    alloc: Global,
    listing: bool,
    number: u32,
    opening: &Lines,
    segment: Option<Segment>,
) -> Result<Segment, PartRefusal>
    requires { (first_time : Option ℕ) × (t : Trace) × IsFoundIn number listing first_time opening.now segment t
        × (malformed_step t ≡ None) }
    ensures stands { (first_time : Option ℕ) (t : Trace) → IsFoundIn number listing first_time opening.now segment t
        → malformed_step t ≡ None
        → IfOk result (λ s. StandsForFile listing (segment_value s) (file_of number first_time t)) }
    ensures refused { IfErr result IsLackOfMemory }
{
    match segment {
        Some(segment) => Ok(segment),
        None => {
            let none = Vec::new(alloc);
            segment_of_steps(alloc, listing, number, opening, none.as_slice())
        }
    }
}

impl FileSoFar {
    /// The file `number`, without steps so far. Its dump has the first time `first_time`, if it has one, and the levels
    /// `opening` before any change.
    pub fn new(number: u32, listing: bool, first_time: Option<u64>, opening: &Lines) -> FileSoFar
        ensures so_far { IsFileSoFar number listing first_time result (record { opening = opening.now; steps = [] }) }
        ensures none { FileHasNodesAtMost 0 result }
    {
        FileSoFar {
            number,
            listing,
            first_time,
            opening: *opening,
            segment: None,
        }
    }

    /// Judges the steps that follow. It fails if memory runs out or a table with marks has too many nodes.
    pub fn go_on(self, alloc: Global, steps: &[Step]) -> Result<FileSoFar, PartRefusal>
        requires { (number : ℕ) × (listing : Bool) × (first_time : Option ℕ) × (t : Trace)
            × IsFileSoFar number listing first_time self t × FileMayGoOn t steps.now }
        ensures so_far { (number : ℕ) (listing : Bool) (first_time : Option ℕ) (t : Trace)
            → IsFileSoFar number listing first_time self t → FileMayGoOn t steps.now
            → IfOk result (λ f. IsFileSoFar number listing first_time f (with_steps t steps.now)) }
        ensures nodes { (k : ℕ) → FileHasNodesAtMost k self
            → IfOk result (FileHasNodesAtMost (k + tables_for (length steps.now))) }
        ensures refused { (number : ℕ) (listing : Bool) (first_time : Option ℕ) (t : Trace)
            → IsFileSoFar number listing first_time self t → IfErr result (IsRefusedFile listing) }
        ensures many { (k : ℕ) → FileHasNodesAtMost k self
            → IfErr result (IsPartRefusal (AreTooManyNodes (k + tables_for (length steps.now)))) }
    {
        if steps.is_empty() {
            return Ok(self);
        }
        let FileSoFar {
            number,
            listing,
            first_time,
            opening,
            segment,
        } = self;
        let segment = segment_with(alloc, listing, number, first_time, &opening, segment, steps)?;
        Ok(FileSoFar {
            number,
            listing,
            first_time,
            opening,
            segment: Some(segment),
        })
    }

    /// The part of the file, if no more steps follow. `backplane` is the sum of the backplane. It fails if memory runs
    /// out or a table with marks has too many nodes.
    pub fn into_part(self, alloc: Global, backplane: u64) -> Result<Part, PartRefusal>
        requires { (number : ℕ) × (listing : Bool) × (first_time : Option ℕ) × (t : Trace)
            × IsFileSoFar number listing first_time self t × (malformed_step t ≡ None) }
        ensures backplane { IfOk result (λ p. p.backplane ≡ backplane) }
        ensures listing { IfOk result (λ p. p.listing ≡ self.listing) }
        ensures stands { (number : ℕ) (listing : Bool) (first_time : Option ℕ) (t : Trace)
            → IsFileSoFar number listing first_time self t → malformed_step t ≡ None
            → IfOk result (λ p. IsPartOfFile listing (file_of number first_time t) (part_value p)) }
        ensures refused { IfErr result IsLackOfMemory }
    {
        let FileSoFar {
            number,
            listing,
            first_time: _,
            opening,
            segment,
        } = self;
        let segment = whole_segment(alloc, listing, number, &opening, segment)?;
        part_with(alloc, backplane, listing, segment)
    }
}

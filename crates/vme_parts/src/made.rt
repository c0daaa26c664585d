//! The part of one file.

ghost use Rattle.std.specs.Prelude.{◌≡◌, ◌≤◌, ◌∷◌, [], All, IfErr, IfOk, None, false, length, slice_get, true};
ghost use Rattle.std.specs.Option.{option_map};
ghost use Rattle.vme_trace.specs.Block.{trace_of};
ghost use Rattle.vme_trace.specs.WellFormed.{malformed_step};
ghost use Rattle.vme_trace.specs.declared.step.Step.{Step};
ghost use Rattle.vme_summary.specs.Joins.{block_of, first_time, last_time};
ghost use Rattle.vme_part_format.specs.Tables.{part_value, segment_value, table_value};
ghost use Rattle.vme_part_format.specs.declared.segment.SegmentTimes.{SegmentTimes};
ghost use Rattle.vme_part_tables.specs.Runs.{AgreesWithRuns};
ghost use Rattle.vme_parts.specs.FileTables.{AreTablesOf};
ghost use Rattle.vme_parts.specs.Files.{IsPartOfFile, StandsForFile};
ghost use Rattle.vme_parts.specs.Meeting.{ends_at, starts_at};
ghost use Rattle.vme_parts.specs.NodeCounts.{HaveNodesAtMost, IsLackOfMemory, tables_for};
ghost use Rattle.vme_parts.specs.OnlyWithMarks.{HaveNodes};

use crate::part_refusal::PartRefusal;
use crate::pieces::{lines_after, table_with_marks};
use std::alloc::{AllocError, Global};
use vme_chains::acknowledge::{AcknowledgeRules, Iack};
use vme_chains::grant::{Grant, GrantRules};
use vme_dtb::handshake::{Dtb, HandshakeRules};
use vme_dtb::stability::{Stability, StabilityRules};
use vme_monitor::finite::Finite;
use vme_monitor::known::{Known, KnownRules};
use vme_monitor::monitor::Monitor;
use vme_monitor::without_marks::BreakMonitor;
use vme_part_format::{OutcomeTable, Part, Segment, SegmentTimes, TableEntry};
use vme_part_tables::widened;
use vme_summary::each_monitor::summarise_monitors;
use vme_trace::{Lines, Step};

/// The table without marks of a monitor's summary.
fn bare_table<M: Finite>(alloc: Global, summary: &M::Summary) -> Result<OutcomeTable, AllocError>
    ensures agrees { IfOk result (λ t. AgreesWithRuns false M.COUNT M.place_of (table_value t)
        (λ p. M.outcome summary.now p)) }
    ensures none { IfOk result (λ t. (table_value t).nodes ≡ []) }
{
    let mut entries = Vec::with_capacity(alloc, M::COUNT)?;
    for place in 0..M::COUNT {
        let memory = M::nth(place);
        let left = M::leaving(summary, memory);
        let next = M::place(left) as u32;
        let first_break = widened(M::event(summary, memory));
        entries.push(TableEntry { next, first_break })?;
    }
    let nodes = Vec::new(alloc);
    Ok(OutcomeTable { entries, nodes })
}

/// The tables of the five monitors, and the levels after the steps.
#[derive(Drop)]
struct FileTables {
    known: OutcomeTable,
    handshake: OutcomeTable,
    stability: OutcomeTable,
    grant: OutcomeTable,
    acknowledge: OutcomeTable,
    left: Lines,
}

/// The tables without marks of `steps`. All monitors are run in one pass.
fn bare_tables(alloc: Global, opening: &Lines, steps: &[Step]) -> Result<FileTables, AllocError>
    requires { length steps.now ≤ 268435456 }
    ensures { IfOk result (AreTablesOf false opening.now steps.now) }
{
    let (summaries, left) = summarise_monitors::<
        BreakMonitor<KnownRules>,
        BreakMonitor<HandshakeRules>,
        BreakMonitor<StabilityRules>,
        BreakMonitor<GrantRules>,
        BreakMonitor<AcknowledgeRules>,
    >(alloc, opening, steps)?;
    let known = bare_table::<BreakMonitor<KnownRules>>(alloc, &summaries.known)?;
    let handshake = bare_table::<BreakMonitor<HandshakeRules>>(alloc, &summaries.handshake)?;
    let stability = bare_table::<BreakMonitor<StabilityRules>>(alloc, &summaries.stability)?;
    let grant = bare_table::<BreakMonitor<GrantRules>>(alloc, &summaries.grant)?;
    let acknowledge = bare_table::<BreakMonitor<AcknowledgeRules>>(alloc, &summaries.acknowledge)?;
    Ok(FileTables {
        known,
        handshake,
        stability,
        grant,
        acknowledge,
        left,
    })
}

/// The tables with marks of `steps`.
fn marked_tables(alloc: Global, opening: &Lines, steps: &[Step]) -> Result<FileTables, PartRefusal>
    requires accepted { malformed_step (record { opening = opening.now; steps = steps.now }) ≡ None }
    requires few { length steps.now ≤ 268435456 }
    ensures tables { IfOk result (AreTablesOf true opening.now steps.now) }
    ensures refused { IfErr result IsLackOfMemory }
{
    let known = table_with_marks::<Known>(alloc, opening, steps)?;
    let handshake = table_with_marks::<Dtb>(alloc, opening, steps)?;
    let stability = table_with_marks::<Stability>(alloc, opening, steps)?;
    let grant = table_with_marks::<Grant>(alloc, opening, steps)?;
    let acknowledge = table_with_marks::<Iack>(alloc, opening, steps)?;
    let left = lines_after(opening, steps);
    Ok(FileTables {
        known,
        handshake,
        stability,
        grant,
        acknowledge,
        left,
    })
}

/// The tables of `steps`, with marks (`listing`) or without.
fn tables_of(
    alloc: Global,
    listing: bool,
    opening: &Lines,
    steps: &[Step],
) -> Result<FileTables, PartRefusal>
    requires accepted { malformed_step (record { opening = opening.now; steps = steps.now }) ≡ None }
    requires few { length steps.now ≤ 268435456 }
    ensures tables { IfOk result (AreTablesOf listing opening.now steps.now) }
    ensures refused { IfErr result IsLackOfMemory }
{
    if listing {
        return marked_tables(alloc, opening, steps);
    }
    match bare_tables(alloc, opening, steps) {
        Ok(all) => Ok(all),
        Err(_) => Err(PartRefusal::Memory),
    }
}

/// When the steps of the file `number` are, if it has any.
fn times_of(number: u64, steps: &[Step]) -> Option<SegmentTimes>
    ensures starts { starts_at result ≡ first_time steps.now }
    ensures ends { ends_at result ≡ last_time steps.now }
    ensures numbered { option_map (λ (t : SegmentTimes). t.number) result
        ≡ option_map (λ (s : Step). number) (slice_get steps.now 0) }
{
    let Some(first) = steps.first() else {
        return None;
    };
    let Some(last) = steps.last() else {
        return None;
    };
    Some(SegmentTimes {
        number,
        first: first.time,
        last: last.time,
    })
}

/// The segment of one file, with marks (`listing`) or without, from its number, its opening and its steps; or why there
/// is none.
pub fn segment_of_steps(
    alloc: Global,
    listing: bool,
    number: u32,
    opening: &Lines,
    steps: &[Step],
) -> Result<Segment, PartRefusal>
    requires accepted { malformed_step (trace_of (block_of number opening.now steps.now)) ≡ None }
    requires few { length steps.now ≤ 268435456 }
    ensures stands { IfOk result
        (λ s. StandsForFile listing (segment_value s) (block_of number opening.now steps.now)) }
    ensures few { IfOk result (λ s. HaveNodesAtMost (tables_for (length steps.now)) (segment_value s)) }
    ensures refused { IfErr result IsLackOfMemory }
{
    let first = u64::from(number);
    let times = times_of(first, steps);
    let tables = tables_of(alloc, listing, opening, steps)?;
    Ok(Segment {
        first,
        order: 0,
        steps: steps.len() as u64,
        opening: *opening,
        left: tables.left,
        times,
        known: tables.known,
        handshake: tables.handshake,
        stability: tables.stability,
        grant: tables.grant,
        acknowledge: tables.acknowledge,
    })
}

/// The part with the one segment `segment`. `backplane` is the sum of the backplane.
pub fn part_with(
    alloc: Global,
    backplane: u64,
    listing: bool,
    segment: Segment,
) -> Result<Part, PartRefusal>
    ensures backplane { IfOk result (λ p. p.backplane ≡ backplane) }
    ensures listing { IfOk result (λ p. p.listing ≡ listing) }
    ensures one { IfOk result (λ p. (part_value p).segments ≡ segment_value segment ∷ []) }
    ensures refused { IfErr result IsLackOfMemory }
{
    let mut segments = Vec::new(alloc);
    segments.push(segment)?;
    Ok(Part {
        backplane,
        listing,
        segments,
    })
}

/// The part of one file, with marks (`listing`) or without, from its number, its opening and its steps; or why there is
/// none. `backplane` is the sum of the backplane.
pub fn part_of_steps(
    alloc: Global,
    backplane: u64,
    listing: bool,
    number: u32,
    opening: &Lines,
    steps: &[Step],
) -> Result<Part, PartRefusal>
    requires accepted { malformed_step (trace_of (block_of number opening.now steps.now)) ≡ None }
    requires few { length steps.now ≤ 268435456 }
    ensures backplane { IfOk result (λ p. p.backplane ≡ backplane) }
    ensures listing { IfOk result (λ p. p.listing ≡ listing) }
    ensures stands { IfOk result (λ p. IsPartOfFile listing (block_of number opening.now steps.now) (part_value p)) }
    ensures nodes { IfOk result (λ p. All (HaveNodes listing) (part_value p).segments) }
    ensures few { IfOk result
        (λ p. All (HaveNodesAtMost (tables_for (length steps.now))) (part_value p).segments) }
    ensures refused { IfErr result IsLackOfMemory }
{
    let segment = segment_of_steps(alloc, listing, number, opening, steps)?;
    part_with(alloc, backplane, listing, segment)
}

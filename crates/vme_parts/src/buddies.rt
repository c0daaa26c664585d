//! Buddies: two segments that are the halves of one.

ghost use Rattle.std.specs.Prelude.{◌≡◌, ◌+◌, ◌<◌, ◌≤◌, ◌^◌, ◌∷◌, [], IfErr, IfOk, IsTrue, false};
ghost use Rattle.vme_part_format.specs.Bounds.{FitsNumbers};
ghost use Rattle.vme_part_format.specs.Sizes.{IsCompact};
ghost use Rattle.vme_part_format.specs.Tables.{last_of, segment_value, table_value};
ghost use Rattle.vme_part_tables.specs.Ways.{HasWays};
ghost use Rattle.vme_parts.specs.Alike.{HaveManyNodes, IsSegmentRefusal};
ghost use Rattle.vme_parts.specs.Buddies.{AreBuddies, FewNodes, HasTables, HaveFewNodes, SegmentGoesOn};
ghost use Rattle.vme_parts.specs.Buddies.{are_buddies as are_buddies_of};
ghost use Rattle.vme_parts.specs.Joined.{IsOfBoth};

use crate::compact::check_compact;
use crate::join_refusal::JoinRefusal;
use crate::meets::{joined_times, torn_file};
use std::alloc::{AllocError, Global};
use vme_part_format::{OutcomeTable, Segment};
use vme_part_tables::{are_few_together, composed};

/// The greatest order of a segment.
pub(crate) const LAST_ORDER: u8 = 62;

/// How many files a segment of this order has.
fn file_count(order: u8) -> u64
    requires { order < 63 }
    ensures { result ≡ 2 ^ order }
{
    1u64 << order
}

/// The number of a segment's last file.
pub(crate) fn last_file(segment: &Segment) -> u64
    requires { FitsNumbers segment.now.first segment.now.order }
    ensures { result ≡ last_of segment.now.first segment.now.order }
{
    segment.first + (file_count(segment.order) - 1)
}

/// How many steps a segment has.
pub(crate) fn step_count(segment: &Segment) -> u64
    ensures { result ≡ segment.now.steps }
{
    segment.steps
}

/// Whether two segments are buddies: `first` is the first half of a segment, and `second` the second.
fn are_buddies(first: &Segment, second: &Segment) -> bool
    requires { FitsNumbers first.now.first first.now.order }
    ensures { result ≡ are_buddies_of (segment_value first.now) (segment_value second.now) }
{
    first.order == second.order
        && first.order < LAST_ORDER
        && second.first == first.first + file_count(first.order)
        && first.first % file_count(first.order + 1) == 0
}

/// Whether `second` opens with the levels that `first` leaves, and its steps are later, if both have steps.
fn follows(first: &Segment, second: &Segment) -> bool
    ensures { IsTrue result → SegmentGoesOn (segment_value first.now) (segment_value second.now) }
{
    let torn = torn_file(
        &first.left,
        first.times,
        second.first,
        &second.opening,
        second.times,
    );
    torn.is_none()
}

/// Whether two segments are buddies, and the second follows the first.
pub(crate) fn are_joinable(first: &Segment, second: &Segment) -> bool
    requires { FitsNumbers first.now.first first.now.order }
    ensures buddies { IsTrue result → AreBuddies (segment_value first.now) (segment_value second.now) }
    ensures goes_on { IsTrue result → SegmentGoesOn (segment_value first.now) (segment_value second.now) }
{
    if !are_buddies(first, second) {
        return false;
    }
    follows(first, second)
}

/// Whether 32 bits can number the memories and nodes of the composition of two tables.
pub fn nodes_are_few(first: &OutcomeTable, second: &OutcomeTable) -> bool
    requires { HasWays (table_value first.now) }
    ensures few { IsTrue result → FewNodes (table_value first.now) (table_value second.now) }
    ensures many { result ≡ false → FewNodes (table_value first.now) (table_value second.now) → ⊥ }
{
    are_few_together(first, second)
}

/// Whether, for each monitor, 32 bits can number the memories and nodes of the composition of the two tables.
fn have_few_nodes(first: &Segment, second: &Segment) -> bool
    requires { HasTables (segment_value first.now) }
    ensures few { IsTrue result → HaveFewNodes (segment_value first.now) (segment_value second.now) }
    ensures many { result ≡ false → HaveFewNodes (segment_value first.now) (segment_value second.now) → ⊥ }
{
    if !nodes_are_few(&first.known, &second.known) {
        return false;
    }
    if !nodes_are_few(&first.handshake, &second.handshake) {
        return false;
    }
    if !nodes_are_few(&first.stability, &second.stability) {
        return false;
    }
    if !nodes_are_few(&first.grant, &second.grant) {
        return false;
    }
    nodes_are_few(&first.acknowledge, &second.acknowledge)
}

/// Joins two buddies that follow one another into one segment.
pub(crate) fn joined(alloc: Global, first: Segment, second: Segment) -> Result<Segment, JoinRefusal>
    requires first { HasTables (segment_value first) }
    requires second { HasTables (segment_value second) }
    requires buddies { AreBuddies (segment_value first) (segment_value second) }
    requires goes_on { SegmentGoesOn (segment_value first) (segment_value second) }
    ensures both { IfOk result (λ r. IsOfBoth (segment_value first) (segment_value second) (segment_value r)) }
    ensures compact { IfOk result (λ r. IsCompact (segment_value r)) }
    ensures refused { IfErr result (IsSegmentRefusal (2 ^ 64 ≤ first.steps + second.steps)
        (HaveManyNodes (segment_value first ∷ segment_value second ∷ []))) }
{
    let Some(steps) = first.steps.checked_add(second.steps) else {
        return Err(JoinRefusal::TooManySteps);
    };
    if !have_few_nodes(&first, &second) {
        return Err(JoinRefusal::TooManyNodes);
    }
    let Ok(segment) = joined_in(alloc, first, second, steps) else {
        return Err(JoinRefusal::Memory);
    };
    match check_compact(&segment) {
        Ok(()) => Ok(segment),
        Err(why) => Err(why),
    }
}

/// Joins two segments, which have `steps` steps together. It fails if memory runs out.
fn joined_in(
    alloc: Global,
    first: Segment,
    second: Segment,
    steps: u64,
) -> Result<Segment, AllocError>
    requires first { HasTables (segment_value first) }
    requires second { HasTables (segment_value second) }
    requires few { HaveFewNodes (segment_value first) (segment_value second) }
    requires buddies { AreBuddies (segment_value first) (segment_value second) }
    requires goes_on { SegmentGoesOn (segment_value first) (segment_value second) }
    requires steps { steps ≡ first.steps + second.steps }
    ensures { IfOk result (λ r. IsOfBoth (segment_value first) (segment_value second) (segment_value r)) }
{
    let by = first.steps;
    let known = composed(alloc, first.known, second.known, by)?;
    let handshake = composed(alloc, first.handshake, second.handshake, by)?;
    let stability = composed(alloc, first.stability, second.stability, by)?;
    let grant = composed(alloc, first.grant, second.grant, by)?;
    let acknowledge = composed(alloc, first.acknowledge, second.acknowledge, by)?;
    Ok(Segment {
        first: first.first,
        order: first.order + 1,
        steps,
        opening: first.opening,
        left: second.left,
        times: joined_times(first.times, second.times),
        known,
        handshake,
        stability,
        grant,
        acknowledge,
    })
}

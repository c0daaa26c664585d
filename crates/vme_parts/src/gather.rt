//! Segments that are gathered one by one: buddies are joined, and a segment that lies in another is dropped.

ghost use Rattle.std.specs.Prelude.{◌≡◌, ◌<◌, ◌++◌, ◌∷◌, [], All, IfErr, IfOk, IfSome, IsPermutation, IsTrue};
ghost use Rattle.std.specs.Prelude.{List, None, OnOk};
ghost use Rattle.std.specs.Prelude.{false, map};
ghost use Rattle.std.specs.List.{last_or};
ghost use Rattle.std.specs.List.Sorted.{IsNonDecreasingBy};
ghost use Rattle.vme_part_format.specs.Tables.{SegmentValue, last_of, segment_value};
ghost use Rattle.vme_part_format.specs.declared.segment.Segment.{Segment};
ghost use Rattle.vme_parts.specs.Alike.{AreTooLong, HaveManyNodes, IsSegmentRefusal};
ghost use Rattle.vme_parts.specs.Gathering.{BeginsInLast, Gathered, IsSegment, Precedes, order_key as order_key_of};

use crate::buddies::{LAST_ORDER, are_joinable, joined, last_file};
use crate::join_refusal::JoinRefusal;
use std::alloc::{AllocError, Global};
use vme_part_format::Segment;

/// Joins `next` with the last of `segments`, as long as the last is its buddy and `next` follows it. Each one that is
/// joined is removed from `segments`.
fn join_back(
    alloc: Global,
    segments: &mut Vec<Segment>,
    next: Segment,
) -> Result<Segment, JoinRefusal>
    requires segments { All IsSegment (map segment_value segments.old.items) }
    requires next { IsSegment (segment_value next) }
    ensures segments { OnOk result (All IsSegment (map segment_value segments.new.items)) }
    ensures next { IfOk result (λ s. IsSegment (segment_value s)) }
    ensures first { IfOk result (λ s. Precedes (segment_value s) (segment_value next)) }
    ensures gathered { IfOk result (λ s. (done : List SegmentValue)
        → Gathered done (map segment_value segments.old.items ++ segment_value next ∷ [])
        → Gathered done (map segment_value segments.new.items ++ segment_value s ∷ [])) }
    ensures refused { IfErr result (IsSegmentRefusal
        ((done : List SegmentValue) → Gathered done (map segment_value segments.old.items ++ segment_value next ∷ [])
        → AreTooLong done)
        ((done : List SegmentValue) → Gathered done (map segment_value segments.old.items ++ segment_value next ∷ [])
        → HaveManyNodes done)) }
{
    let mut next = next;
    while let Some(last) = segments.pop() {
        if !are_joinable(&last, &next) {
            segments.push(last)?;
            return Ok(next);
        }
        next = match joined(alloc, last, next) {
            Ok(whole) => whole,
            Err(why) => return Err(why),
        };
    }
    Ok(next)
}

/// Whether `next` begins with a file of the last of `segments`, or before it.
fn begins_in_last(segments: &[Segment], next: &Segment) -> bool
    requires { All IsSegment (map segment_value segments.now) }
    ensures within { IsTrue result → BeginsInLast (map segment_value segments.now) (segment_value next.now) }
    ensures behind { result ≡ false → IfSome (last_or None (map segment_value segments.now))
        (λ last. last_of last.first last.order < next.now.first) }
{
    match segments.last() {
        Some(last) => next.first <= last_file(last),
        None => false,
    }
}

/// Adds `next` at the end of `segments`, the last of which precedes it, and joins buddies. Drops `next` if it lies in
/// the last.
fn add(alloc: Global, segments: &mut Vec<Segment>, next: Segment) -> Result<(), JoinRefusal>
    requires segments { All IsSegment (map segment_value segments.old.items) }
    requires next { IsSegment (segment_value next) }
    requires order { IfSome (last_or None (map segment_value segments.old.items))
        (λ last. Precedes last (segment_value next)) }
    ensures segments { OnOk result (All IsSegment (map segment_value segments.new.items)) }
    ensures last { OnOk result (IfSome (last_or None (map segment_value segments.new.items))
        (λ last. Precedes last (segment_value next))) }
    ensures gathered { OnOk result ((done : List SegmentValue) → Gathered done (map segment_value segments.old.items)
        → Gathered (done ++ segment_value next ∷ []) (map segment_value segments.new.items)) }
    ensures refused { IfErr result (IsSegmentRefusal
        ((done : List SegmentValue) → Gathered done (map segment_value segments.old.items)
        → AreTooLong (done ++ segment_value next ∷ []))
        ((done : List SegmentValue) → Gathered done (map segment_value segments.old.items)
        → HaveManyNodes (done ++ segment_value next ∷ []))) }
{
    if begins_in_last(segments.as_slice(), &next) {
        return Ok(());
    }
    let whole = match join_back(alloc, segments, next) {
        Ok(whole) => whole,
        Err(why) => return Err(why),
    };
    segments.push(whole)?;
    Ok(())
}

/// The key by which segments are sorted: first by the first file, then a greater segment before one that lies in it.
fn order_key(segment: &Segment) -> u128
    ensures { result ≡ order_key_of (segment_value segment.now) }
{
    u128::from(segment.first) * 64 + u128::from(LAST_ORDER.saturating_sub(segment.order))
}

/// Puts segments in the order in which they are added.
pub(crate) fn sort_segments(segments: &mut Vec<Segment>) -> Result<(), AllocError>
    ensures same { IsPermutation segments.old.items segments.new.items }
    ensures order { OnOk result
        (IsNonDecreasingBy (λ (s : Segment). order_key_of (segment_value s)) segments.new.items) }
{
    segments.sort_by_key(|segment| order_key(segment))
}

/// The segments of `all`, which are in order, with buddies joined, and without those that lie in another.
pub(crate) fn gather(alloc: Global, all: Vec<Segment>) -> Result<Vec<Segment>, JoinRefusal>
    requires segments { All IsSegment (map segment_value all.items) }
    requires order { IsNonDecreasingBy (λ (s : Segment). order_key_of (segment_value s)) all.items }
    ensures gathered { IfOk result (λ v. Gathered (map segment_value all.items) (map segment_value v.items)) }
    ensures refused { IfErr result (IsSegmentRefusal (AreTooLong (map segment_value all.items))
        (HaveManyNodes (map segment_value all.items))) }
{
    let mut segments = Vec::new(alloc);
    for segment in all {
        match add(alloc, &mut segments, segment) {
            Ok(()) => (),
            Err(why) => return Err(why),
        }
    }
    Ok(segments)
}

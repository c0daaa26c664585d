//! Whether two segments of the same files agree.

ghost use Rattle.std.specs.Prelude.{◌≡◌, ◌↔◌, ◌<◌, ℕ, All, IfErr, IsTrue, OnOk, false, length, map};
ghost use Rattle.std.specs.List.Sorted.{IsNonDecreasingBy};
ghost use Rattle.vme_part_format.specs.Tables.{segment_value, table_value};
ghost use Rattle.vme_part_format.specs.declared.segment.Segment.{Segment};
ghost use Rattle.vme_part_tables.specs.Ways.{HasWays, outcome_in};
ghost use Rattle.vme_parts.specs.Alike.{AllAlike, AreAlike, AreTablesAlike, HaveSameFiles, SegmentsDifferAt};
ghost use Rattle.vme_parts.specs.Buddies.{HasTables};
ghost use Rattle.vme_parts.specs.Gathering.{IsSegment, order_key};
ghost use Rattle.vme_parts.specs.declared.join_refusal.JoinRefusal.TheVariants as refusal;

use crate::join_refusal::JoinRefusal;
use vme_part_format::{OutcomeTable, Segment, SegmentTimes, WideBreak};
use vme_part_tables::follow;
use vme_trace::{Lines, Rule};

/// Whether two rules are the same.
fn are_rules_same(rule: Rule, other: Rule) -> bool
    ensures { IsTrue result ↔ (rule ≡ other) }
{
    rule == other
}

/// Whether two breaks are the same.
fn is_break_same(found: WideBreak, other: WideBreak) -> bool
    ensures { IsTrue result ↔ (found ≡ other) }
{
    found.instant == other.instant
        && found.time == other.time
        && found.line == other.line
        && are_rules_same(found.rule, other.rule)
}

/// Whether there are two same breaks, or none.
fn are_breaks_same(found: Option<WideBreak>, other: Option<WideBreak>) -> bool
    ensures { IsTrue result ↔ (found ≡ other) }
{
    match (found, other) {
        (Some(found), Some(other)) => is_break_same(found, other),
        (None, None) => true,
        _ => false,
    }
}

/// Whether all levels are the same.
fn are_lines_same(lines: &Lines, others: &Lines) -> bool
    ensures { IsTrue result ↔ (lines.now ≡ others.now) }
{
    lines == others
}

/// Whether the times are the same.
fn are_times_same(times: Option<SegmentTimes>, others: Option<SegmentTimes>) -> bool
    ensures { IsTrue result ↔ (times ≡ others) }
{
    times == others
}

/// Whether the runs from `memory` in two tables end in the same memory and have the same first break.
fn are_ways_same(first: &OutcomeTable, second: &OutcomeTable, memory: u32) -> bool
    requires first { HasWays (table_value first.now) }
    requires second { HasWays (table_value second.now) }
    requires in_first { memory < length first.now.entries.items }
    requires in_second { memory < length second.now.entries.items }
    ensures { IsTrue result
        ↔ ((outcome_in (table_value first.now) memory).leaving ≡ (outcome_in (table_value second.now) memory).leaving)
        × ((outcome_in (table_value first.now) memory).first_break
        ≡ (outcome_in (table_value second.now) memory).first_break) }
{
    let (left, found) = follow(first, memory);
    let (other_left, other_found) = follow(second, memory);
    if left != other_left {
        return false;
    }
    are_breaks_same(found, other_found)
}

/// Whether two tables have the same number of memories, and the runs from each memory end in the same memory and have
/// the same first break.
fn are_tables_same(first: &OutcomeTable, second: &OutcomeTable) -> bool
    requires first { HasWays (table_value first.now) }
    requires second { HasWays (table_value second.now) }
    ensures alike { IsTrue result → AreTablesAlike (table_value first.now) (table_value second.now) }
    ensures apart { result ≡ false → AreTablesAlike (table_value first.now) (table_value second.now) → ⊥ }
{
    let memories = first.entries.len();
    if memories != second.entries.len() {
        return false;
    }
    for memory in 0..memories {
        if !are_ways_same(first, second, memory as u32) {
            return false;
        }
    }
    true
}

/// Whether the tables of two segments agree.
fn are_all_tables_same(first: &Segment, second: &Segment) -> bool
    requires first { HasTables (segment_value first.now) }
    requires second { HasTables (segment_value second.now) }
    ensures alike { IsTrue result
        → AreTablesAlike (table_value first.now.known) (table_value second.now.known)
        × AreTablesAlike (table_value first.now.handshake) (table_value second.now.handshake)
        × AreTablesAlike (table_value first.now.stability) (table_value second.now.stability)
        × AreTablesAlike (table_value first.now.grant) (table_value second.now.grant)
        × AreTablesAlike (table_value first.now.acknowledge) (table_value second.now.acknowledge) }
    ensures apart { result ≡ false → AreAlike (segment_value first.now) (segment_value second.now) → ⊥ }
{
    if !are_tables_same(&first.known, &second.known) {
        return false;
    }
    if !are_tables_same(&first.handshake, &second.handshake) {
        return false;
    }
    if !are_tables_same(&first.stability, &second.stability) {
        return false;
    }
    if !are_tables_same(&first.grant, &second.grant) {
        return false;
    }
    are_tables_same(&first.acknowledge, &second.acknowledge)
}

/// Whether two segments of the same files agree in all but the marks.
fn are_same(first: &Segment, second: &Segment) -> bool
    requires first { HasTables (segment_value first.now) }
    requires second { HasTables (segment_value second.now) }
    ensures alike { IsTrue result → AreAlike (segment_value first.now) (segment_value second.now) }
    ensures apart { result ≡ false → AreAlike (segment_value first.now) (segment_value second.now) → ⊥ }
{
    if first.steps != second.steps {
        return false;
    }
    if !are_lines_same(&first.opening, &second.opening) {
        return false;
    }
    if !are_lines_same(&first.left, &second.left) {
        return false;
    }
    if !are_times_same(first.times, second.times) {
        return false;
    }
    are_all_tables_same(first, second)
}

/// Refuses two segments of the same files that differ.
fn compare(first: &Segment, second: &Segment) -> Result<(), JoinRefusal>
    requires first { HasTables (segment_value first.now) }
    requires second { HasTables (segment_value second.now) }
    ensures alike { OnOk result (HaveSameFiles (segment_value first.now) (segment_value second.now)
        → AreAlike (segment_value first.now) (segment_value second.now)) }
    ensures apart { IfErr result (λ why. (why ≡ refusal.Differs first.now.first)
        × HaveSameFiles (segment_value first.now) (segment_value second.now)
        × (AreAlike (segment_value first.now) (segment_value second.now) → ⊥)) }
{
    let has_same_files = first.first == second.first && first.order == second.order;
    if has_same_files && !are_same(first, second) {
        return Err(JoinRefusal::Differs(first.first));
    }
    Ok(())
}

/// Refuses segments, which are in order, if two of the same files differ.
pub(crate) fn compare_all(segments: &[Segment]) -> Result<(), JoinRefusal>
    requires segments { All IsSegment (map segment_value segments.now) }
    requires order { IsNonDecreasingBy (λ (s : Segment). order_key (segment_value s)) segments.now }
    ensures alike { OnOk result (AllAlike (map segment_value segments.now)) }
    ensures apart { IfErr result (λ why. (number : ℕ) × (why ≡ refusal.Differs number)
        × SegmentsDifferAt (map segment_value segments.now) number) }
{
    for place in 1..segments.len() {
        if let Err(why) = compare(&segments[place - 1], &segments[place]) {
            return Err(why);
        }
    }
    Ok(())
}

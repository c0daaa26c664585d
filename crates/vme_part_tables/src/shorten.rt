//! Merging nodes. The *way* of an entry or a node is the number of the memory or of the node with which its run
//! continues (`next`). A node that a single way leads to is merged into the node that this way comes from. So a table
//! has at most two nodes a memory, unless marks don't ascend.

ghost use Rattle.std.specs.Prelude.{◌≡◌, ◌+◌, ◌<◌, ◌≤◌, ◌^◌, ◌++◌, IfOk, IfSome, IsTrue, OnOk, length, map};
ghost use Rattle.std.specs.Option.{option_or};
ghost use Rattle.vme_part_format.specs.Tables.{node_value, table_value};
ghost use Rattle.vme_part_tables.specs.Pruned.{IsPruned};
ghost use Rattle.vme_part_tables.specs.Shortened.{AreInOrder, MayTakeIn, SayTheSame, next_past as next_past_of};
ghost use Rattle.vme_part_tables.specs.Ways.{HasWays, NodesGoOn};

use std::alloc::{AllocError, Global};
use vme_part_format::{OutcomeTable, TableEntry, TableNode, WideBreak, WideMark};

/// Counts one more way that leads to the node `place`.
fn count_way(counts: &mut [u32], place: usize) {
    if place < counts.len() {
        counts[place] = counts[place].saturating_add(1);
    }
}

/// Sets the number of ways that lead to the node `place` to 0.
fn forget_ways(counts: &mut [u32], place: usize) {
    if place < counts.len() {
        counts[place] = 0;
    }
}

/// How many ways lead to the node `place`.
fn ways_to(counts: &[u32], place: usize) -> u32 {
    match counts.get(place) {
        Some(count) => *count,
        None => 0,
    }
}

/// Counts the ways that lead from entries to nodes.
fn count_from_entries(counts: &mut [u32], memories: u32, entries: &[TableEntry]) {
    for entry in entries {
        if memories <= entry.next {
            count_way(counts, (entry.next - memories) as usize);
        }
    }
}

/// Counts the ways that lead from nodes to nodes. Those from a node that no way leads to don't count.
fn count_from_nodes(counts: &mut [u32], memories: u32, nodes: &[TableNode]) {
    for (place, node) in nodes.iter().enumerate() {
        if memories <= node.next && 0 < ways_to(counts, place) {
            let between = (node.next - memories) as usize;
            count_way(counts, place.saturating_add(between).saturating_add(1));
        }
    }
}

/// Whether the last of `marks` isn't later than the first of `others`.
fn are_in_order(marks: &[WideMark], others: &[WideMark]) -> bool
    ensures { IsTrue result → AreInOrder marks.now others.now }
{
    let Some(last) = marks.last() else {
        return true;
    };
    let Some(first) = others.first() else {
        return true;
    };
    last.instant <= first.instant
}

/// Whether the marks of `node` and then those of `behind` may be in one node.
fn may_stand_in_one(node: &TableNode, behind: &TableNode) -> bool
    ensures order { IsTrue result → AreInOrder node.now.marks.items behind.now.marks.items }
    ensures few { IsTrue result → length node.now.marks.items + length behind.now.marks.items < 2 ^ 32 }
{
    let room = u32::MAX as usize;
    if room < node.marks.len() || room - node.marks.len() < behind.marks.len() {
        return false;
    }
    are_in_order(node.marks.as_slice(), behind.marks.as_slice())
}

/// How many nodes are between the node `place` and the one that it continues with, if the two may be merged and no
/// other way leads to that one.
fn only_next(memories: u32, counts: &[u32], nodes: &[TableNode], place: usize) -> Option<usize>
    requires few { memories + length nodes.now < 2 ^ 32 }
    requires place { place < length nodes.now }
    ensures { IfSome result (λ between. MayTakeIn memories (map node_value nodes.now) place between) }
{
    let node = &nodes[place];
    if node.next < memories {
        return None;
    }
    let between = (node.next - memories) as usize;
    let at = place + 1 + between;
    if nodes.len() <= at {
        return None;
    }
    let behind = &nodes[at];
    if ways_to(counts, at) == 1 && may_stand_in_one(node, behind) {
        Some(between)
    } else {
        None
    }
}

/// A copy of marks. It fails if memory runs out.
fn copied(alloc: Global, marks: &[WideMark]) -> Result<Vec<WideMark>, AllocError>
    ensures { IfOk result (λ v. v.items ≡ marks.now) }
{
    let mut all = Vec::with_capacity(alloc, marks.len())?;
    for mark in marks {
        all.push(WideMark {
            instant: mark.instant,
            kind: mark.kind,
        })?;
    }
    Ok(all)
}

/// Has `node` continue with `next`, and adds `first_break` and the marks `more` after its own.
fn lengthen(
    node: &mut TableNode,
    next: u32,
    first_break: Option<WideBreak>,
    more: Vec<WideMark>,
) -> Result<(), AllocError>
    ensures { OnOk result (node_value node.new ≡ record {
      next = next;
      first_break = option_or node.old.first_break first_break;
      marks = node.old.marks.items ++ more.items;
    }) }
{
    let mut more = more;
    node.next = next;
    node.first_break = node.first_break.or(first_break);
    node.marks.append(&mut more)
}

/// Where a node continues after merging with a later node that continues with `way`. `between` nodes are between the
/// two.
fn next_past(memories: u32, between: usize, way: u32) -> u32
    requires { memories ≤ way → way + (between + 1) < 2 ^ 32 }
    ensures { result ≡ next_past_of memories between way }
{
    if way < memories {
        way
    } else {
        way + (between as u32 + 1)
    }
}

/// Merges into the node `place` the one that it continues with. `between` nodes are between the two.
fn take_in(
    alloc: Global,
    memories: u32,
    nodes: &mut [TableNode],
    place: usize,
    between: usize,
) -> Result<(), AllocError>
    requires few { memories + length nodes.old < 2 ^ 32 }
    requires go_on { NodesGoOn memories (map node_value nodes.old) }
    requires place { place < length nodes.old }
    requires may { MayTakeIn memories (map node_value nodes.old) place between }
    ensures { OnOk result (SayTheSame memories (map node_value nodes.old) (map node_value nodes.new)) }
{
    let behind = &nodes[place + 1 + between];
    let next = next_past(memories, between, behind.next);
    let first_break = behind.first_break;
    let more = copied(alloc, behind.marks.as_slice())?;
    lengthen(&mut nodes[place], next, first_break, more)
}

/// Merges into the node `place`, if a way leads to it, those that it continues with and that no other way leads to.
fn take_in_all(
    alloc: Global,
    memories: u32,
    counts: &mut [u32],
    nodes: &mut [TableNode],
    place: usize,
) -> Result<(), AllocError>
    requires few { memories + length nodes.old < 2 ^ 32 }
    requires go_on { NodesGoOn memories (map node_value nodes.old) }
    requires place { place < length nodes.old }
    ensures { OnOk result (SayTheSame memories (map node_value nodes.old) (map node_value nodes.new)) }
{
    if ways_to(counts, place) == 0 {
        return Ok(());
    }
    for _ in 0..nodes.len() {
        let Some(between) = only_next(memories, counts, nodes, place) else {
            return Ok(());
        };
        take_in(alloc, memories, nodes, place, between)?;
        forget_ways(counts, place.saturating_add(between).saturating_add(1));
    }
    Ok(())
}

/// Merges into each node that a way leads to those that it continues with and that no other way leads to.
fn join_ways(
    alloc: Global,
    memories: u32,
    counts: &mut [u32],
    nodes: &mut [TableNode],
) -> Result<(), AllocError>
    requires few { memories + length nodes.old < 2 ^ 32 }
    requires go_on { NodesGoOn memories (map node_value nodes.old) }
    ensures { OnOk result (SayTheSame memories (map node_value nodes.old) (map node_value nodes.new)) }
{
    for place in 0..nodes.len() {
        take_in_all(alloc, memories, counts, nodes, place)?;
    }
    Ok(())
}

/// The table whose nodes are merged with those that no other way leads to. A merged node stays in the table, and no
/// run reaches it.
pub(crate) fn shortened(alloc: Global, table: OutcomeTable) -> Result<OutcomeTable, AllocError>
    requires { HasWays (table_value table) }
    ensures { IfOk result (λ t. IsPruned (table_value table) (table_value t)) }
{
    let OutcomeTable { entries, mut nodes } = table;
    let memories = entries.len() as u32;
    let mut counts = vec![in alloc; 0u32; nodes.len()]?;
    count_from_entries(counts.as_mut_slice(), memories, entries.as_slice());
    count_from_nodes(counts.as_mut_slice(), memories, nodes.as_slice());
    join_ways(alloc, memories, counts.as_mut_slice(), nodes.as_mut_slice())?;
    Ok(OutcomeTable { entries, nodes })
}

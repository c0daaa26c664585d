//! Dropping nodes that no run reaches.

ghost use Rattle.std.specs.Prelude.{◌≡◌, ℕ, ◌+◌, ◌-◌, ◌<◌, ◌≤◌, ◌^◌, All, IfOk, drop, length, map, false};
ghost use Rattle.std.specs.Prelude.{slice_index_or, true};
ghost use Rattle.vme_part_format.specs.Tables.{node_value, table_value};
ghost use Rattle.vme_part_tables.specs.Pruned.{AreCounts, KeepsWays, IsKept, IsPruned, KeptGoOn, entry_kept};
ghost use Rattle.vme_part_tables.specs.Pruned.{next_kept as next_kept_of};
ghost use Rattle.vme_part_tables.specs.Pruned.{nodes_kept};
ghost use Rattle.vme_part_tables.specs.Ways.{HasWays, NodesGoOn};

use std::alloc::{AllocError, Global};
use vme_part_format::{OutcomeTable, TableEntry, TableNode};

/// Sets `keeps` for the nodes that entries continue with.
fn keep_for_entries(keeps: &mut [bool], memories: u32, entries: &[TableEntry])
    requires { All (λ (e : TableEntry). e.next < memories + length keeps.old) entries.now }
    ensures { All (λ (e : TableEntry). IsKept memories keeps.new e.next) entries.now }
{
    for entry in entries {
        if memories <= entry.next {
            keeps[(entry.next - memories) as usize] = true;
        }
    }
}

/// Sets `keeps` for the node that the node `place` continues with, if `place` is kept.
fn keep_next(keeps: &mut [bool], memories: u32, place: usize, next: u32)
    requires place { place < length keeps.old }
    requires next { next < memories + (length keeps.old - (place + 1)) }
    ensures more { (k : ℕ) → slice_index_or keeps.old k false ≡ true → slice_index_or keeps.new k false ≡ true }
    ensures before { (k : ℕ) → k ≤ place → slice_index_or keeps.new k false ≡ slice_index_or keeps.old k false }
    ensures kept { slice_index_or keeps.new place false ≡ true → IsKept memories (drop (place + 1) keeps.new) next }
{
    if keeps[place] && memories <= next {
        keeps[place + 1 + (next - memories) as usize] = true;
    }
}

/// Sets `keeps` for the nodes that kept nodes continue with.
fn keep_for_nodes(keeps: &mut [bool], memories: u32, nodes: &[TableNode])
    requires as_many { length keeps.old ≡ length nodes.now }
    requires goes_on { NodesGoOn memories (map node_value nodes.now) }
    ensures more { (k : ℕ) → slice_index_or keeps.old k false ≡ true → slice_index_or keeps.new k false ≡ true }
    ensures nodes { KeptGoOn memories keeps.new (map node_value nodes.now) }
{
    for (place, node) in nodes.iter().enumerate() {
        keep_next(keeps, memories, place, node.next);
    }
}

/// Sets `keeps` for the nodes that a run from an entry reaches.
fn keep_reached(keeps: &mut [bool], memories: u32, entries: &[TableEntry], nodes: &[TableNode])
    requires as_many { length keeps.old ≡ length nodes.now }
    requires entries { All (λ (e : TableEntry). e.next < memories + length nodes.now) entries.now }
    requires nodes { NodesGoOn memories (map node_value nodes.now) }
    ensures { KeepsWays memories keeps.new entries.now (map node_value nodes.now) }
{
    keep_for_entries(keeps, memories, entries);
    keep_for_nodes(keeps, memories, nodes);
}

/// For each node, whether a run from an entry reaches it.
fn reached(
    alloc: Global,
    memories: u32,
    entries: &[TableEntry],
    nodes: &[TableNode],
) -> Result<Vec<bool>, AllocError>
    requires entries { All (λ (e : TableEntry). e.next < memories + length nodes.now) entries.now }
    requires nodes { NodesGoOn memories (map node_value nodes.now) }
    ensures { IfOk result (λ keeps. KeepsWays memories keeps.items entries.now (map node_value nodes.now)) }
{
    let mut keeps = vec![in alloc; false; nodes.len()]?;
    keep_reached(keeps.as_mut_slice(), memories, entries, nodes);
    Ok(keeps)
}

/// For each node, how many nodes before it are kept.
fn kept_before(alloc: Global, keeps: &[bool]) -> Result<Vec<u32>, AllocError>
    requires { length keeps.now < 2 ^ 32 }
    ensures { IfOk result (λ counts. AreCounts keeps.now counts.items) }
{
    let mut counts = Vec::with_capacity(alloc, keeps.len())?;
    let mut count = 0u32;
    for is_kept in keeps {
        counts.push(count)?;
        if *is_kept {
            count += 1;
        }
    }
    Ok(counts)
}

/// Translates `way`, which counts the nodes from index `from` on, to one that counts the kept ones alone.
fn next_kept(memories: u32, keeps: &[bool], counts: &[u32], from: usize, way: u32) -> u32
    requires few { memories + length keeps.now < 2 ^ 32 }
    requires counts { AreCounts keeps.now counts.now }
    requires from { from ≤ length keeps.now }
    requires kept { IsKept memories (drop from keeps.now) way }
    ensures { result ≡ next_kept_of memories (drop from keeps.now) way }
{
    if way < memories {
        return way;
    }
    let to = from + (way - memories) as usize;
    memories + (counts[to] - counts[from])
}

/// Has the way of an entry count the kept nodes alone.
fn renumber_entry(entry: &mut TableEntry, memories: u32, keeps: &[bool], counts: &[u32])
    requires few { memories + length keeps.now < 2 ^ 32 }
    requires counts { AreCounts keeps.now counts.now }
    requires kept { IsKept memories keeps.now entry.old.next }
    ensures { entry.new ≡ entry_kept memories keeps.now entry.old }
{
    entry.next = next_kept(memories, keeps, counts, 0, entry.next);
}

/// Has the ways of entries count the kept nodes alone.
fn renumber_entries(entries: &mut [TableEntry], memories: u32, keeps: &[bool], counts: &[u32])
    requires few { memories + length keeps.now < 2 ^ 32 }
    requires counts { AreCounts keeps.now counts.now }
    requires kept { All (λ (e : TableEntry). IsKept memories keeps.now e.next) entries.old }
    ensures { entries.new ≡ map (entry_kept memories keeps.now) entries.old }
{
    for entry in entries.iter_mut() {
        renumber_entry(entry, memories, keeps, counts);
    }
}

/// The kept nodes, whose ways count the kept nodes alone.
fn kept_nodes(
    alloc: Global,
    memories: u32,
    nodes: Vec<TableNode>,
    keeps: &[bool],
    counts: &[u32],
) -> Result<Vec<TableNode>, AllocError>
    requires few { memories + length keeps.now < 2 ^ 32 }
    requires counts { AreCounts keeps.now counts.now }
    requires as_many { length keeps.now ≡ length nodes.items }
    requires kept { KeptGoOn memories keeps.now (map node_value nodes.items) }
    ensures { IfOk result (λ v. map node_value v.items ≡ nodes_kept memories keeps.now (map node_value nodes.items)) }
{
    let mut nodes = nodes;
    let mut kept = Vec::new(alloc);
    while let Some(node) = nodes.pop() {
        let place = nodes.len();
        if keeps[place] {
            let TableNode {
                next,
                first_break,
                marks,
            } = node;
            let next = next_kept(memories, keeps, counts, place + 1, next);
            kept.push(TableNode {
                next,
                first_break,
                marks,
            })?;
        }
    }
    kept.reverse();
    Ok(kept)
}

/// The table with only those nodes that a run reaches.
pub(crate) fn pruned(alloc: Global, table: OutcomeTable) -> Result<OutcomeTable, AllocError>
    requires { HasWays (table_value table) }
    ensures { IfOk result (λ t. IsPruned (table_value table) (table_value t)) }
{
    let OutcomeTable { mut entries, nodes } = table;
    let memories = entries.len() as u32;
    let keeps = reached(alloc, memories, entries.as_slice(), nodes.as_slice())?;
    let counts = kept_before(alloc, keeps.as_slice())?;
    renumber_entries(
        entries.as_mut_slice(),
        memories,
        keeps.as_slice(),
        counts.as_slice(),
    );
    let nodes = kept_nodes(alloc, memories, nodes, keeps.as_slice(), counts.as_slice())?;
    Ok(OutcomeTable { entries, nodes })
}

//! Writing and reading the tables of a segment. A *way* is the number of the memory or of the node with which a run
//! continues. `listing` is whether the part has marks.

ghost use Rattle.std.specs.Prelude.{◌≡◌, ◌+◌, ◌^◌, ◌<◌, ◌≤◌, ◌++◌, ℕ, OnOk, IfOk, Some, All, flat_map, length, map};
ghost use Rattle.std.specs.Int.{w32, to_le_bytes};
ghost use Rattle.vme_part_format.specs.Bounds.{AreAscending, CanWrite, FitsTable};
ghost use Rattle.vme_part_format.specs.PartText.{count_bytes, entry_bytes, first_break_bytes, marks_bytes, node_bytes};
ghost use Rattle.vme_part_format.specs.PartText.{table_bytes, way_bytes, written};
ghost use Rattle.vme_part_format.specs.Reading.{Gives, entries_at, mark_count_at, node_at, node_count_at};
ghost use Rattle.vme_part_format.specs.Reading.{node_number_at, nodes_at, table_at};
ghost use Rattle.vme_part_format.specs.Tables.{node_value, table_value};

use crate::fault::{FieldError, PartFaultKind};
use crate::fields::Fields;
use crate::marks::{put_marks, read_marks};
use crate::numbers::put_pair;
use crate::table::{OutcomeTable, STAYS, TableEntry, TableNode};
use crate::wide::{WideBreak, WideMark};
use std::alloc::{AllocError, Global};

/// How many entries come before that of memory 2, in which judging has ended.
const BEFORE_ENDED: u32 = 2;

/// Adds the break `found`: the place of its rule in `Rule::ALL` and 1, its line, its instant and its time.
fn put_break(out: &mut Vec<u8>, found: WideBreak) -> Result<(), AllocError>
    ensures { OnOk result (out.new.items ≡ out.old.items ++ first_break_bytes (Some found)) }
{
    out.push(found.rule.number() + 1)?;
    out.push(found.line.number())?;
    put_pair(out, found.instant, found.time)
}

/// Adds the first break of a run, or that it has none.
fn put_first_break(out: &mut Vec<u8>, first_break: Option<WideBreak>) -> Result<(), AllocError>
    ensures { OnOk result (out.new.items ≡ out.old.items ++ first_break_bytes first_break) }
{
    match first_break {
        None => Ok(out.push(0)?),
        Some(found) => put_break(out, found),
    }
}

/// Adds the way `next`: 4 bytes in a part with marks, else 1.
fn put_way(out: &mut Vec<u8>, listing: bool, next: u32) -> Result<(), AllocError>
    requires { CanWrite listing next }
    ensures { OnOk result (out.new.items ≡ out.old.items ++ way_bytes listing next) }
{
    if listing {
        out.extend_from_slice(&next.to_le_bytes())
    } else {
        Ok(out.push(next as u8)?)
    }
}

/// Adds an entry.
fn put_entry(out: &mut Vec<u8>, listing: bool, entry: &TableEntry) -> Result<(), AllocError>
    requires { CanWrite listing entry.now.next }
    ensures { OnOk result (out.new.items ≡ out.old.items ++ entry_bytes listing entry.now) }
{
    put_way(out, listing, entry.next)?;
    put_first_break(out, entry.first_break)
}

/// Adds these entries.
fn put_entries(out: &mut Vec<u8>, listing: bool, entries: &[TableEntry]) -> Result<(), AllocError>
    requires { All (λ e. CanWrite listing e.next) entries.now }
    ensures { OnOk result (out.new.items ≡ out.old.items ++ flat_map (entry_bytes listing) entries.now) }
{
    for entry in entries {
        put_entry(out, listing, entry)?;
    }
    Ok(())
}

/// Adds the number of marks of a node.
fn put_mark_count(out: &mut Vec<u8>, marks: &[WideMark]) -> Result<(), AllocError>
    requires { length marks.now < 2 ^ 32 }
    ensures { OnOk result (out.new.items ≡ out.old.items ++ to_le_bytes w32 (length marks.now)) }
{
    out.extend_from_slice(&(marks.len() as u32).to_le_bytes())
}

/// Adds the number of marks of a node, and then these marks.
fn put_counted_marks(out: &mut Vec<u8>, marks: &[WideMark]) -> Result<(), AllocError>
    requires few { length marks.now < 2 ^ 32 }
    requires ascend { AreAscending 0 marks.now }
    ensures { OnOk result
        (out.new.items ≡ out.old.items ++ (to_le_bytes w32 (length marks.now) ++ marks_bytes 0 marks.now)) }
{
    put_mark_count(out, marks)?;
    put_marks(out, marks)
}

/// Adds a node.
#[tactic(auto, unfolding(crate::specs::PartText::node_bytes))]
fn put_node(out: &mut Vec<u8>, node: &TableNode) -> Result<(), AllocError>
    requires few { length node.now.marks.items < 2 ^ 32 }
    requires ascend { AreAscending 0 node.now.marks.items }
    ensures { OnOk result (out.new.items ≡ out.old.items ++ node_bytes (node_value node.now)) }
{
    out.extend_from_slice(&node.next.to_le_bytes())?;
    put_first_break(out, node.first_break)?;
    put_counted_marks(out, node.marks.as_slice())
}

/// Adds these nodes.
fn put_nodes(out: &mut Vec<u8>, nodes: &[TableNode]) -> Result<(), AllocError>
    requires few { All (λ n. length n.marks.items < 2 ^ 32) nodes.now }
    requires ascend { All (λ n. AreAscending 0 n.marks.items) nodes.now }
    ensures { OnOk result (out.new.items ≡ out.old.items ++ flat_map node_bytes (map node_value nodes.now)) }
{
    for node in nodes {
        put_node(out, node)?;
    }
    Ok(())
}

/// Adds the number of nodes of a table, if the part has marks.
fn put_node_count(out: &mut Vec<u8>, listing: bool, nodes: &[TableNode]) -> Result<(), AllocError>
    requires { length nodes.now < 2 ^ 32 }
    ensures { OnOk result (out.new.items ≡ out.old.items ++ count_bytes listing (length nodes.now)) }
{
    if listing {
        out.extend_from_slice(&(nodes.len() as u32).to_le_bytes())
    } else {
        Ok(())
    }
}

/// Adds all entries except that of memory 2, in which judging has ended.
fn put_written(out: &mut Vec<u8>, listing: bool, entries: &[TableEntry]) -> Result<(), AllocError>
    requires many { 3 ≤ length entries.now }
    requires can { All (λ e. CanWrite listing e.next) entries.now }
    ensures { OnOk result
        (out.new.items ≡ out.old.items ++ flat_map (entry_bytes listing) (written entries.now)) }
{
    let ended = BEFORE_ENDED as usize;
    put_entries(out, listing, &entries[..ended])?;
    put_entries(out, listing, &entries[ended + 1..])
}

/// Adds a table.
#[tactic(auto, unfolding(crate::specs::PartText::table_bytes))]
pub(crate) fn put_table(
    out: &mut Vec<u8>,
    listing: bool,
    table: &OutcomeTable,
) -> Result<(), AllocError>
    requires { (memories : ℕ) × (steps : ℕ) × (3 ≤ memories) × (memories ≤ 256)
        × FitsTable listing memories steps (table_value table.now) }
    ensures { OnOk result (out.new.items ≡ out.old.items ++ table_bytes listing (table_value table.now)) }
{
    put_node_count(out, listing, table.nodes.as_slice())?;
    put_written(out, listing, table.entries.as_slice())?;
    put_nodes(out, table.nodes.as_slice())
}

/// Reads `count` entries of a table of a segment of `steps` steps. Each way has to be below `ways`, the number of
/// memories and nodes.
fn read_entries(
    alloc: Global,
    fields: &mut Fields,
    listing: bool,
    steps: u64,
    ways: u32,
    count: u32,
) -> Result<Vec<TableEntry>, FieldError>
    ensures { Gives (λ x. x.items) result fields.new (entries_at listing steps ways count fields.old) }
{
    let mut entries = Vec::new(alloc);
    for _ in 0..count {
        let TableEntry { next, first_break } = fields.entry(listing, steps, ways)?;
        entries.push(TableEntry { next, first_break })?;
    }
    Ok(entries)
}

/// Reads the number of marks of a node. It must not be 0.
#[tactic(auto, unfolding(crate::specs::Reading::mark_count_at))]
fn read_mark_count(fields: &mut Fields) -> Result<u32, FieldError>
    ensures { Gives (λ x. x) result fields.new (mark_count_at fields.old) }
{
    let bad = fields.fault(PartFaultKind::BadMark);
    let count = fields.u32()?;
    if count == 0 {
        Err(FieldError::Fault(bad))
    } else {
        Ok(count)
    }
}

/// Reads a node of a table of a segment of `steps` steps. Its way has to be below `ways`, the number of memories and of
/// the nodes after it.
#[tactic(auto, unfolding(crate::specs::Reading::node_at))]
fn read_node(
    alloc: Global,
    fields: &mut Fields,
    steps: u64,
    ways: u32,
) -> Result<TableNode, FieldError>
    ensures { Gives node_value result fields.new (node_at steps ways fields.old) }
{
    let next = fields.way(true, ways)?;
    let first_break = fields.first_break(steps)?;
    let count = read_mark_count(fields)?;
    let marks = read_marks(alloc, fields, steps, count)?;
    Ok(TableNode {
        next,
        first_break,
        marks,
    })
}

/// Reads the `count` nodes of a table of `memories` memories, of a segment of `steps` steps.
fn read_nodes(
    alloc: Global,
    fields: &mut Fields,
    memories: u32,
    steps: u64,
    count: u32,
) -> Result<Vec<TableNode>, FieldError>
    requires { memories + count < 2 ^ 32 }
    ensures { Gives (λ x. map node_value x.items) result fields.new (nodes_at memories steps count fields.old) }
{
    let mut nodes = Vec::new(alloc);
    for place in 0..count {
        let behind = count - place - 1;
        let node = read_node(alloc, fields, steps, memories + behind)?;
        nodes.push(node)?;
    }
    Ok(nodes)
}

/// Reads a number of nodes as it is written, and 0 in a part without marks. `read_node_count` refuses one that is too
/// large.
fn read_node_number(fields: &mut Fields, listing: bool) -> Result<u32, FieldError>
    ensures { Gives (λ x. x) result fields.new (node_number_at listing fields.old) }
{
    if listing { fields.u32() } else { Ok(0) }
}

/// Reads how many nodes a table of `memories` memories has. Memories and nodes have to be fewer than 2^32.
#[tactic(auto, unfolding(crate::specs::Reading::node_count_at))]
fn read_node_count(fields: &mut Fields, listing: bool, memories: u32) -> Result<u32, FieldError>
    ensures counted { Gives (λ x. x) result fields.new (node_count_at listing memories fields.old) }
    ensures few { IfOk result (λ count. memories + count < 2 ^ 32) }
{
    let bad = fields.fault(PartFaultKind::BadWay);
    let count = read_node_number(fields, listing)?;
    match memories.checked_add(count) {
        Some(_) => Ok(count),
        None => Err(FieldError::Fault(bad)),
    }
}

/// Reads a table of `memories` memories, of a segment of `steps` steps.
#[tactic(auto, unfolding(crate::specs::Reading::table_at))]
pub(crate) fn read_table(
    alloc: Global,
    fields: &mut Fields,
    listing: bool,
    memories: u32,
    steps: u64,
) -> Result<OutcomeTable, FieldError>
    requires { 3 ≤ memories }
    ensures { Gives table_value result fields.new (table_at listing memories steps fields.old) }
{
    let count = read_node_count(fields, listing, memories)?;
    let ways = memories + count;
    let mut entries = read_entries(alloc, fields, listing, steps, ways, BEFORE_ENDED)?;
    entries.push(STAYS)?;
    let behind = memories - (BEFORE_ENDED + 1);
    let mut others = read_entries(alloc, fields, listing, steps, ways, behind)?;
    entries.append(&mut others)?;
    let nodes = read_nodes(alloc, fields, memories, steps, count)?;
    Ok(OutcomeTable { entries, nodes })
}

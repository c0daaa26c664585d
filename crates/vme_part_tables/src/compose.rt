//! Composition of two tables into one.

ghost use Rattle.std.specs.Prelude.{◌≡◌, ◌+◌, ◌<◌, ◌≤◌, ◌^◌, IfOk, IsTrue, ◌↔◌, length, map};
ghost use Rattle.vme_part_format.specs.Tables.{node_value, table_value};
ghost use Rattle.vme_part_tables.specs.Composed.{CanCompose, NextsFit, entry_on, later_node as later_node_of, node_on};
ghost use Rattle.vme_part_tables.specs.Composed.{nodes_on};
ghost use Rattle.vme_part_tables.specs.Composed.{table_on};
ghost use Rattle.vme_part_tables.specs.Runs.{IsComposition};
ghost use Rattle.vme_part_tables.specs.Ways.{later_mark};

use crate::prune::pruned;
use crate::shorten::shortened;
use crate::ways::later_break;
use std::alloc::{AllocError, Global};
use vme_part_format::{OutcomeTable, TableEntry, TableNode, WideBreak, WideMark};

/// Where a run continues in the composed table if it continues with `way` in the first table. If `way` is a memory, the
/// run goes through `second`. `between` nodes of the first table come before the nodes of the second.
fn continued(
    way: u32,
    first_break: Option<WideBreak>,
    between: u32,
    second: &[TableEntry],
    steps: u64,
) -> TableEntry
    requires few { length second.now < 2 ^ 32 }
    requires fits { NextsFit second.now between }
    ensures { result ≡ entry_on second.now steps between (record { next = way; first_break = first_break }) }
{
    let memories = second.len() as u32;
    if memories <= way {
        return TableEntry {
            next: way,
            first_break,
        };
    }
    let entry = &second[way as usize];
    let next = if memories <= entry.next {
        entry.next + between
    } else {
        entry.next
    };
    TableEntry {
        next,
        first_break: first_break.or(later_break(entry.first_break, steps)),
    }
}

/// Continues an entry of the first table in the second.
fn connect_entry(entry: &mut TableEntry, between: u32, second: &[TableEntry], steps: u64)
    requires few { length second.now < 2 ^ 32 }
    requires fits { NextsFit second.now between }
    ensures { entry.new ≡ entry_on second.now steps between entry.old }
{
    *entry = continued(entry.next, entry.first_break, between, second, steps);
}

/// Continues a node of the first table, with `between` nodes after it, in the second.
fn connect_node(node: &mut TableNode, between: u32, second: &[TableEntry], steps: u64)
    requires few { length second.now < 2 ^ 32 }
    requires fits { NextsFit second.now between }
    ensures { node_value node.new ≡ node_on second.now steps between (node_value node.old) }
{
    let way = continued(node.next, node.first_break, between, second, steps);
    node.next = way.next;
    node.first_break = way.first_break;
}

/// Continues the entries of the first table, which has `between` nodes, in the second.
fn connect_entries(entries: &mut [TableEntry], between: u32, second: &[TableEntry], steps: u64)
    requires few { length second.now < 2 ^ 32 }
    requires fits { NextsFit second.now between }
    ensures { entries.new ≡ map (entry_on second.now steps between) entries.old }
{
    for entry in entries.iter_mut() {
        connect_entry(entry, between, second, steps);
    }
}

/// Continues the nodes of the first table in the second.
fn connect_nodes(nodes: &mut [TableNode], second: &[TableEntry], steps: u64)
    requires few { length second.now < 2 ^ 32 }
    requires few_nodes { length nodes.old < 2 ^ 32 }
    requires fits { NextsFit second.now (length nodes.old) }
    ensures { map node_value nodes.new ≡ nodes_on second.now steps (map node_value nodes.old) }
{
    let mut between = nodes.len() as u32;
    for node in nodes.iter_mut() {
        between -= 1;
        connect_node(node, between, second, steps);
    }
}

/// Makes the instant of a mark `by` later.
fn delay_mark(mark: &mut WideMark, by: u64)
    ensures { mark.new ≡ later_mark by mark.old }
{
    mark.instant = mark.instant.saturating_add(by);
}

/// Makes the instants of marks `by` later.
fn delay_marks(marks: &mut [WideMark], by: u64)
    ensures { marks.new ≡ map (later_mark by) marks.old }
{
    for mark in marks.iter_mut() {
        delay_mark(mark, by);
    }
}

/// Makes the instants of a node `by` later.
fn delay_node(node: &mut TableNode, by: u64)
    ensures { node_value node.new ≡ later_node_of by (node_value node.old) }
{
    node.first_break = later_break(node.first_break, by);
    delay_marks(node.marks.as_mut_slice(), by);
}

/// Makes the instants of nodes `by` later.
fn delay_nodes(nodes: &mut [TableNode], by: u64)
    ensures { map node_value nodes.new ≡ map (later_node_of by) (map node_value nodes.old) }
{
    for node in nodes.iter_mut() {
        delay_node(node, by);
    }
}

/// The composition of two tables. `steps` is the number of steps of the first. It may have nodes that no run reaches.
fn connected(
    first: OutcomeTable,
    second: OutcomeTable,
    steps: u64,
) -> Result<OutcomeTable, AllocError>
    requires { CanCompose (table_value first) (table_value second) }
    ensures { IfOk result (λ t. table_value t ≡ table_on (table_value first) (table_value second) steps) }
{
    let OutcomeTable {
        mut entries,
        mut nodes,
    } = first;
    let OutcomeTable {
        entries: behind,
        nodes: mut later,
    } = second;
    let between = nodes.len() as u32;
    connect_entries(entries.as_mut_slice(), between, behind.as_slice(), steps);
    connect_nodes(nodes.as_mut_slice(), behind.as_slice(), steps);
    delay_nodes(later.as_mut_slice(), steps);
    nodes.append(&mut later)?;
    Ok(OutcomeTable { entries, nodes })
}

/// Whether 32 bits can number the memories and nodes of the composition of two tables.
pub fn are_few_together(first: &OutcomeTable, second: &OutcomeTable) -> bool
    requires few { length first.now.entries.items < 2 ^ 32 }
    ensures { IsTrue result
        ↔ (length first.now.entries.items + (length first.now.nodes.items + length second.now.nodes.items) < 2 ^ 32) }
{
    let room = u32::MAX as usize - first.entries.len();
    first.nodes.len() <= room && second.nodes.len() <= room - first.nodes.len()
}

/// The composition of two tables. `steps` is the number of steps of the first. It fails if memory runs out.
pub fn composed(
    alloc: Global,
    first: OutcomeTable,
    second: OutcomeTable,
    steps: u64,
) -> Result<OutcomeTable, AllocError>
    requires { CanCompose (table_value first) (table_value second) }
    ensures { IfOk result (λ t. IsComposition steps (table_value first) (table_value second) (table_value t)) }
{
    let table = connected(first, second, steps)?;
    let table = shortened(alloc, table)?;
    pruned(alloc, table)
}

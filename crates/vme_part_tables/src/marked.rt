//! A table with marks, made from a monitor's summary.

ghost use Rattle.std.specs.Prelude.{◌≡◌, ℕ, ◌+◌, ◌<◌, ◌≤◌, ◌^◌, IfOk, OnOk, Option, length, map, [], true};
ghost use Rattle.std.specs.Option.{option_map};
ghost use Rattle.vme_part_format.specs.Tables.{node_value, table_value};
ghost use Rattle.vme_part_format.specs.declared.wide.WideBreak.{WideBreak};
ghost use Rattle.vme_part_tables.specs.Marked.{AddsBefore, AgreeBelow, AreMade, MadeGoOn, if_needed, made_outcome};
ghost use Rattle.vme_part_tables.specs.Marked.{is_needed as is_needed_of, marks_if, onward_outcome};
ghost use Rattle.vme_part_tables.specs.Marked.{onward_at as onward_at_of, reversed_way as reversed_way_of};
ghost use Rattle.vme_part_tables.specs.Runs.{AgreesWithRuns, break_of, mark_of};
ghost use Rattle.vme_part_tables.specs.Ways.{HasWays, outcome_in};

use std::alloc::{AllocError, Global};
use vme_monitor::finite::Finite;
use vme_monitor::mark::Mark;
use vme_monitor::monitor::Monitor;
use vme_part_format::{OutcomeTable, TableEntry, TableNode, WideBreak, WideMark};
use vme_trace::Break;

/// The break with numbers of 64 bits, if there is one.
pub fn widened(found: Option<Break>) -> Option<WideBreak>
    ensures { option_map break_of result ≡ found }
{
    match found {
        Some(found) => Some(WideBreak {
            instant: u64::from(found.instant),
            time: found.time,
            rule: found.rule,
            line: found.line,
        }),
        None => None,
    }
}

/// A copy of marks with instants of 64 bits. It fails if memory runs out.
fn wide_marks(alloc: Global, marks: &[Mark]) -> Result<Vec<WideMark>, AllocError>
    ensures { IfOk result (λ v. map mark_of v.items ≡ marks.now) }
{
    let mut all = Vec::with_capacity(alloc, marks.len())?;
    for mark in marks {
        all.push(WideMark {
            instant: u64::from(mark.instant),
            kind: mark.kind,
        })?;
    }
    Ok(all)
}

/// Where the run from a memory continues: its first break before the next node, and `way`. If `way` is below the
/// number of memories, it is the memory in which the run ends. Else `way` less that number is the index of the next
/// node in the order in which nodes were made.
#[derive(Clone, Copy)]
struct Onward {
    first_break: Option<WideBreak>,
    way: u32,
}

/// Nodes in the order in which they were made. The table has them in the reverse order, and `next` of each is as there.
#[derive(Drop)]
struct Made {
    memories: u32,
    nodes: Vec<TableNode>,
}

/// Translates `way`, which counts nodes in the order in which `made` nodes were made, to a way of the reverse order.
fn reversed_way(memories: u32, made: u32, way: u32) -> u32
    requires few { memories + made < 2 ^ 32 }
    requires way { way < memories + made }
    ensures { result ≡ reversed_way_of memories made way }
{
    if way < memories {
        way
    } else {
        memories + (made - 1 - (way - memories))
    }
}

impl Made {
    /// Where a run continues that has `first_break` and `marks`, and then continues with `onward`. If there are marks,
    /// a node is made for them.
    fn through(
        &mut self,
        alloc: Global,
        first_break: Option<WideBreak>,
        marks: &[Mark],
        onward: Onward,
    ) -> Result<Onward, AllocError>
        requires few { self.old.memories + length self.old.nodes.items < 2 ^ 32 }
        requires onward { onward.way < self.old.memories + length self.old.nodes.items }
        requires made { MadeGoOn self.old.memories (map node_value self.old.nodes.items) }
        ensures memories { OnOk result (self.new.memories ≡ self.old.memories) }
        ensures more { OnOk result (length self.old.nodes.items ≤ length self.new.nodes.items) }
        ensures one { OnOk result (length self.new.nodes.items ≤ length self.old.nodes.items + 1) }
        ensures made { OnOk result (MadeGoOn self.old.memories (map node_value self.new.nodes.items)) }
        ensures way { IfOk result (λ o. o.way < self.old.memories + length self.new.nodes.items) }
        ensures kept { OnOk result
            ((before : Option WideBreak) (way : ℕ) → way < self.old.memories + length self.old.nodes.items
            → made_outcome self.old.memories (map node_value self.new.nodes.items) before way
            ≡ made_outcome self.old.memories (map node_value self.old.nodes.items) before way) }
        ensures says { IfOk result (λ o. AddsBefore (option_map break_of first_break) marks.now
            (made_outcome self.old.memories (map node_value self.old.nodes.items) onward.first_break onward.way)
            (made_outcome self.old.memories (map node_value self.new.nodes.items) o.first_break o.way)) }
    {
        let first_break = first_break.or(onward.first_break);
        if marks.is_empty() {
            return Ok(Onward {
                first_break,
                way: onward.way,
            });
        }
        let made = self.nodes.len() as u32;
        let next = reversed_way(self.memories, made, onward.way);
        let marks = wide_marks(alloc, marks)?;
        self.nodes.push(TableNode {
            next,
            first_break,
            marks,
        })?;
        Ok(Onward {
            first_break: None,
            way: self.memories + made,
        })
    }
}

/// Whether the marks of the memory with the number `place` are needed.
fn is_needed(needs: &[bool], place: usize) -> bool
    ensures { result ≡ is_needed_of needs.now place }
{
    match needs.get(place) {
        Some(is_needed) => *is_needed,
        None => false,
    }
}

/// The marks of the run from a memory, if they are needed, else none.
fn marks_if_needed<M: Finite>(
    alloc: Global,
    summary: &M::Summary,
    memory: M::Memory,
    is_needed: bool,
) -> Result<Vec<Mark>, AllocError>
    ensures { IfOk result (λ v. v.items ≡ marks_if is_needed (M.outcome summary.now memory).marks) }
{
    if is_needed {
        M::marks(alloc, summary, memory)
    } else {
        Ok(Vec::new(alloc))
    }
}

/// Where the run from each memory of a monitor continues, by what `summary` says of it.
fn memory_ways<M: Finite>(
    alloc: Global,
    made: &mut Made,
    summary: &M::Summary,
    needs: &[bool],
) -> Result<Vec<Onward>, AllocError>
    requires empty { made.old.nodes.items ≡ [] }
    requires memories { made.old.memories ≡ M.COUNT }
    ensures memories { OnOk result (made.new.memories ≡ made.old.memories) }
    ensures count { OnOk result (length made.new.nodes.items ≤ M.COUNT) }
    ensures made { OnOk result (MadeGoOn made.old.memories (map node_value made.new.nodes.items)) }
    ensures ways { IfOk result (λ v. AreMade made.old.memories (map node_value made.new.nodes.items) v.items) }
    ensures says { IfOk result
        (λ v. AgreeBelow M.place_of made.old.memories (map node_value made.new.nodes.items) v.items M.COUNT
        (λ k. if_needed (is_needed_of needs.now k) (M.outcome summary.now (M.nth_of k)))) }
{
    let mut onward = Vec::with_capacity(alloc, M::COUNT)?;
    for place in 0..M::COUNT {
        let memory = M::nth(place);
        let left = M::leaving(summary, memory);
        let found = M::event(summary, memory);
        let marks = marks_if_needed::<M>(alloc, summary, memory, is_needed(needs, place))?;
        let next = Onward {
            first_break: None,
            way: M::place(left) as u32,
        };
        let way = made.through(alloc, widened(found), marks.as_slice(), next)?;
        onward.push(way)?;
    }
    Ok(onward)
}

/// The item `place` of `onward`, or a default one.
fn onward_at(onward: &[Onward], place: usize) -> Onward
    ensures { result ≡ onward_at_of onward.now place }
{
    match onward.get(place) {
        Some(way) => *way,
        None => Onward {
            first_break: None,
            way: 0,
        },
    }
}

/// The table of the nodes in `made`, with an entry for each memory by its item of `onward`.
fn made_table(
    alloc: Global,
    made: Made,
    onward: &[Onward],
    memories: usize,
) -> Result<OutcomeTable, AllocError>
    requires some { 0 < memories }
    requires memories { made.memories ≡ memories }
    requires few { memories + length made.nodes.items < 2 ^ 32 }
    requires made { MadeGoOn memories (map node_value made.nodes.items) }
    requires ways { AreMade memories (map node_value made.nodes.items) onward.now }
    ensures says { IfOk result (λ t. (k : ℕ) → k < memories → outcome_in (table_value t) k
        ≡ onward_outcome memories (map node_value made.nodes.items) (onward_at_of onward.now k)) }
    ensures ways { IfOk result (λ t. HasWays (table_value t)) }
    ensures counted { IfOk result (λ t. length t.entries.items ≡ memories) }
    ensures nodes { IfOk result (λ t. length t.nodes.items ≡ length made.nodes.items) }
{
    let count = made.nodes.len() as u32;
    let mut entries = Vec::with_capacity(alloc, memories)?;
    for place in 0..memories {
        let way = onward_at(onward, place);
        entries.push(TableEntry {
            next: reversed_way(made.memories, count, way.way),
            first_break: way.first_break,
        })?;
    }
    let mut nodes = made.nodes;
    nodes.reverse();
    Ok(OutcomeTable { entries, nodes })
}

/// The table with marks of a monitor's summary. It has a node for each memory whose marks are needed, if there are any.
/// For the other memories it has no marks.
pub fn marked_table<M: Finite>(
    alloc: Global,
    summary: &M::Summary,
    needs: &[bool],
) -> Result<OutcomeTable, AllocError>
    requires { 0 < M.COUNT }
    ensures agrees { IfOk result (λ t. AgreesWithRuns true M.COUNT M.place_of (table_value t)
        (λ p. if_needed (is_needed_of needs.now (M.place_of p)) (M.outcome summary.now p))) }
    ensures few { IfOk result (λ t. length (table_value t).nodes ≤ M.COUNT) }
{
    let mut made = Made {
        memories: M::COUNT as u32,
        nodes: Vec::new(alloc),
    };
    let onward = memory_ways::<M>(alloc, &mut made, summary, needs)?;
    let table = made_table(alloc, made, onward.as_slice(), M::COUNT)?;
    Ok(table)
}

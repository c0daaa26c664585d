//! Runs through a table: from the entry of a memory on, and through the nodes with which it continues.

ghost use Rattle.std.specs.Prelude.{◌≡◌, ◌<◌, ◌^◌, ◌++◌, OnOk, length, map};
ghost use Rattle.std.specs.Option.{option_map};
ghost use Rattle.vme_part_format.specs.Tables.{table_value};
ghost use Rattle.vme_part_tables.specs.Ways.{later_break as later_break_of, later_mark, outcome_in};

use std::alloc::AllocError;
use vme_part_format::{OutcomeTable, WideBreak, WideMark};

/// The break `found`, if there is one, with its instant later by `by`, but at most `u64::MAX`. Its time stays.
pub fn later_break(found: Option<WideBreak>, by: u64) -> Option<WideBreak>
    ensures { result ≡ option_map (later_break_of by) found }
{
    match found {
        Some(found) => Some(WideBreak {
            instant: found.instant.saturating_add(by),
            time: found.time,
            rule: found.rule,
            line: found.line,
        }),
        None => None,
    }
}

/// The number of the memory in which the run from the memory with the number `memory` ends, and the run's first break.
pub fn follow(table: &OutcomeTable, memory: u32) -> (u32, Option<WideBreak>)
    requires few { length table.now.entries.items < 2 ^ 32 }
    requires memory { memory < length table.now.entries.items }
    ensures leaving { result.0 ≡ (outcome_in (table_value table.now) memory).leaving }
    ensures first_break { result.1 ≡ (outcome_in (table_value table.now) memory).first_break }
{
    let memories = table.entries.len() as u32;
    let entry = &table.entries[memory as usize];
    let mut way = entry.next;
    let mut first_break = entry.first_break;
    for node in &table.nodes {
        if way < memories {
            return (way, first_break);
        }
        if way == memories {
            first_break = first_break.or(node.first_break);
            way = node.next;
        } else {
            way -= 1;
        }
    }
    (way, first_break)
}

/// Adds the marks `more` with their instants later by `by`, but at most `u64::MAX`.
fn put_later_marks(marks: &mut Vec<WideMark>, more: &[WideMark], by: u64) -> Result<(), AllocError>
    ensures { OnOk result (marks.new.items ≡ marks.old.items ++ map (later_mark by) more.now) }
{
    for mark in more {
        marks.push(WideMark {
            instant: mark.instant.saturating_add(by),
            kind: mark.kind,
        })?;
    }
    Ok(())
}

/// Adds the marks of the run from the memory with the number `memory`, with their instants later by `by`, but at most
/// `u64::MAX`. It fails if memory runs out; some of the marks may then be there.
pub fn put_marks_of_run(
    marks: &mut Vec<WideMark>,
    table: &OutcomeTable,
    memory: u32,
    by: u64,
) -> Result<(), AllocError>
    requires few { length table.now.entries.items < 2 ^ 32 }
    requires memory { memory < length table.now.entries.items }
    ensures { OnOk result (marks.new.items
        ≡ marks.old.items ++ map (later_mark by) (outcome_in (table_value table.now) memory).marks) }
{
    let memories = table.entries.len() as u32;
    let mut way = table.entries[memory as usize].next;
    for node in &table.nodes {
        if way < memories {
            return Ok(());
        }
        if way == memories {
            put_later_marks(marks, node.marks.as_slice(), by)?;
            way = node.next;
        } else {
            way -= 1;
        }
    }
    Ok(())
}

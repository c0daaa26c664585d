//! The memories in which a table ends.

ghost use Rattle.std.specs.Prelude.{◌≡◌, ℕ, ◌<◌, IfOk, false, length, slice_index_or, true};
ghost use Rattle.vme_part_format.specs.Tables.{table_value};
ghost use Rattle.vme_part_tables.specs.Marked.{AreNeeded};
ghost use Rattle.vme_part_tables.specs.Ways.{HasWays};

use crate::ways::follow;
use std::alloc::{AllocError, Global};
use vme_part_format::OutcomeTable;

/// Marks the memory with the number `place` as needed.
fn note(needs: &mut [bool], place: usize)
    requires { place < length needs.old }
    ensures more { (k : ℕ) → slice_index_or needs.old k false ≡ true → slice_index_or needs.new k false ≡ true }
    ensures here { slice_index_or needs.new place false ≡ true }
{
    needs[place] = true;
}

/// Marks each memory in which a run of a table ends as needed.
fn note_left(needs: &mut [bool], table: &OutcomeTable)
    requires ways { HasWays (table_value table.now) }
    requires as_many { length needs.old ≡ length table.now.entries.items }
    ensures { AreNeeded (table_value table.now) needs.new }
{
    let count = table.entries.len() as u32;
    for memory in 0..count {
        let (left, _) = follow(table, memory);
        note(needs, left as usize);
    }
}

/// For each memory, by its number, whether a run of the table ends in it. For the steps after those of the table no
/// other memories are needed.
pub fn left_memories(alloc: Global, table: &OutcomeTable) -> Result<Vec<bool>, AllocError>
    requires { HasWays (table_value table.now) }
    ensures { IfOk result (λ needs. AreNeeded (table_value table.now) needs.items) }
{
    let mut needs = vec![in alloc; false; table.entries.len()]?;
    note_left(needs.as_mut_slice(), table);
    Ok(needs)
}

//! The composition of tables, with the refusals of a file.

ghost use Rattle.std.specs.Prelude.{ℕ, Bool, IfErr, IfOk};
ghost use Rattle.vme_part_format.specs.Bounds.{HasNodes};
ghost use Rattle.vme_part_format.specs.Tables.{table_value};
ghost use Rattle.vme_part_tables.specs.Runs.{IsComposition};
ghost use Rattle.vme_parts.specs.Buddies.{FewNodes, IsTableOf};
ghost use Rattle.vme_parts.specs.NodeCounts.{IsPartRefusal};
ghost use Rattle.vme_parts.specs.OnlyWithMarks.{IsRefusedFile};

use std::alloc::Global;
use vme_part_format::OutcomeTable;
use vme_part_tables::composed;
use vme_parts::{PartRefusal, nodes_are_few};

/// The composition of two tables. The first is of `steps` steps.
pub(crate) fn joined_table(
    alloc: Global,
    first: OutcomeTable,
    second: OutcomeTable,
    steps: u64,
) -> Result<OutcomeTable, PartRefusal>
    requires { (n : ℕ) × IsTableOf n (table_value first) × IsTableOf n (table_value second) }
    ensures joins { IfOk result (λ t. IsComposition steps (table_value first) (table_value second) (table_value t)) }
    ensures refused { (listing : Bool) → HasNodes listing (table_value first).nodes
        → HasNodes listing (table_value second).nodes → IfErr result (IsRefusedFile listing) }
    ensures many { IfErr result (IsPartRefusal (FewNodes (table_value first) (table_value second) → ⊥)) }
{
    if !nodes_are_few(&first, &second) {
        return Err(PartRefusal::TooManyNodes);
    }
    match composed(alloc, first, second, steps) {
        Ok(table) => Ok(table),
        Err(_) => Err(PartRefusal::Memory),
    }
}

//! Compact tables, i.e. tables with few nodes.

ghost use Rattle.std.specs.Prelude.{◌≡◌, IfErr, IsTrue, OnOk, false};
ghost use Rattle.vme_part_format.specs.Sizes.{IsCompact, IsCompactTable};
ghost use Rattle.vme_part_format.specs.Tables.{segment_value, table_value};
ghost use Rattle.vme_parts.specs.declared.join_refusal.JoinRefusal.TheVariants as refusal;

use crate::join_refusal::JoinRefusal;
use vme_part_format::{OutcomeTable, Segment};

/// Whether a table has at most two nodes a memory.
fn is_compact_table(table: &OutcomeTable) -> bool
    ensures few { IsTrue result → IsCompactTable (table_value table.now) }
    ensures many { result ≡ false → IsCompactTable (table_value table.now) → ⊥ }
{
    table.nodes.len() <= table.entries.len().saturating_mul(2)
}

/// Whether each table of a segment has at most two nodes a memory.
pub(crate) fn is_compact(segment: &Segment) -> bool
    ensures few { IsTrue result → IsCompact (segment_value segment.now) }
    ensures many { result ≡ false → IsCompact (segment_value segment.now) → ⊥ }
{
    if !is_compact_table(&segment.known) {
        return false;
    }
    if !is_compact_table(&segment.handshake) {
        return false;
    }
    if !is_compact_table(&segment.stability) {
        return false;
    }
    if !is_compact_table(&segment.grant) {
        return false;
    }
    is_compact_table(&segment.acknowledge)
}

/// Refuses a segment of which a table has more than two nodes a memory.
pub(crate) fn check_compact(segment: &Segment) -> Result<(), JoinRefusal>
    ensures compact { OnOk result (IsCompact (segment_value segment.now)) }
    ensures refused { IfErr result (λ why. (why ≡ refusal.TooManyNodes)
        × (IsCompact (segment_value segment.now) → ⊥)) }
{
    if !is_compact(segment) {
        return Err(JoinRefusal::TooManyNodes);
    }
    Ok(())
}

//! A table with marks, made from pieces of the steps. In a piece, each memory in which the steps before may end has its
//! own marks. Runs that end the piece in the same memory share what follows.

ghost use Rattle.std.specs.Prelude.{◌≡◌, ◌+◌, ◌≤◌, ◌<◌, ◌^◌, ◌++◌, IfErr, IfOk, List, None, length, true};
ghost use Rattle.vme_trace.specs.Levels.{Levels};
ghost use Rattle.vme_trace.specs.Trace.{levels_after};
ghost use Rattle.vme_trace.specs.WellFormed.{malformed_step};
ghost use Rattle.vme_trace.specs.declared.step.Step.{Step};
ghost use Rattle.vme_part_format.specs.Tables.{table_value};
ghost use Rattle.vme_part_tables.specs.Marked.{if_needed, is_needed};
ghost use Rattle.vme_part_tables.specs.Runs.{AgreesWithRuns};
ghost use Rattle.vme_parts.specs.Buddies.{IsTableOf};
ghost use Rattle.vme_parts.specs.NodeCounts.{HasNodesAtMost, IsLackOfMemory, IsPartRefusal, tables_for};

use crate::buddies::nodes_are_few;
use crate::part_refusal::PartRefusal;
use std::alloc::{AllocError, Global};
use vme_monitor::finite::Finite;
use vme_monitor::monitor::Monitor;
use vme_part_format::OutcomeTable;
use vme_part_tables::{composed, left_memories, marked_table};
use vme_trace::{Lines, Step};

/// How many steps a piece has, at most.
const PIECE: usize = 1024;

/// The levels after `steps`.
pub(crate) fn lines_after(opening: &Lines, steps: &[Step]) -> Lines
    ensures { result ≡ levels_after opening.now steps.now }
{
    let mut lines = *opening;
    for step in steps {
        lines.apply(step.changes.as_slice());
    }
    lines
}

/// The table of a piece, with the marks of the memories for which `needs` is set.
fn piece_table<M: Finite>(
    alloc: Global,
    opening: &Lines,
    steps: &[Step],
    needs: &[bool],
) -> Result<OutcomeTable, AllocError>
    requires accepted { malformed_step (record { opening = opening.now; steps = steps.now }) ≡ None }
    requires few { length steps.now ≤ 268435456 }
    requires some { 0 < M.COUNT }
    ensures agrees { IfOk result (λ t. AgreesWithRuns true M.COUNT M.place_of (table_value t)
        (λ p. if_needed (is_needed needs.now (M.place_of p)) (M.run p opening.now steps.now))) }
    ensures few { IfOk result (λ t. length (table_value t).nodes ≤ M.COUNT) }
{
    let summary = M::summarise(alloc, opening, steps)?;
    marked_table::<M>(alloc, &summary, needs)
}

/// The table of `done` steps, which have the table `table`, and of the steps `piece` after them.
fn with_piece<M: Finite>(
    alloc: Global,
    table: OutcomeTable,
    done: usize,
    opening: &Lines,
    piece: &[Step],
) -> Result<OutcomeTable, PartRefusal>
    requires accepted { malformed_step (record { opening = opening.now; steps = piece.now }) ≡ None }
    requires few { length piece.now ≤ 268435456 }
    requires some { 0 < M.COUNT }
    requires table { IsTableOf M.COUNT (table_value table) }
    requires fits { done + length piece.now < 2 ^ 64 }
    ensures agrees { IfOk result
        (λ t. (o : Levels) (x : List Step) → opening.now ≡ levels_after o x → done ≡ length x
        → AgreesWithRuns true M.COUNT M.place_of (table_value table) (λ p. M.run p o x)
        → AgreesWithRuns true M.COUNT M.place_of (table_value t) (λ p. M.run p o (x ++ piece.now))) }
    ensures few { IfOk result
        (λ t. length (table_value t).nodes ≤ length (table_value table).nodes + M.COUNT) }
    ensures refused { IfErr result
        (IsPartRefusal (2 ^ 32 ≤ M.COUNT + (length (table_value table).nodes + M.COUNT))) }
{
    let needs = left_memories(alloc, &table)?;
    let next = piece_table::<M>(alloc, opening, piece, needs.as_slice())?;
    if !nodes_are_few(&table, &next) {
        return Err(PartRefusal::TooManyNodes);
    }
    let table = composed(alloc, table, next, done as u64)?;
    Ok(table)
}

/// The table with marks of `steps`.
pub(crate) fn table_with_marks<M: Finite>(
    alloc: Global,
    opening: &Lines,
    steps: &[Step],
) -> Result<OutcomeTable, PartRefusal>
    requires accepted { malformed_step (record { opening = opening.now; steps = steps.now }) ≡ None }
    requires few { length steps.now ≤ 268435456 }
    requires some { 0 < M.COUNT }
    ensures agrees { IfOk result (λ t. AgreesWithRuns true M.COUNT M.place_of (table_value t)
        (λ p. M.run p opening.now steps.now)) }
    ensures few { IfOk result
        (λ t. HasNodesAtMost M.COUNT (tables_for (length steps.now)) (table_value t)) }
    ensures refused { IfErr result IsLackOfMemory }
{
    let mut table = piece_table::<M>(alloc, opening, &steps[..0], &[])?;
    let mut lines = *opening;
    let mut done = 0;
    while done < steps.len() {
        let end = steps.len().min(done + PIECE);
        let piece = &steps[done..end];
        table = match with_piece::<M>(alloc, table, done, &lines, piece) {
            Ok(grown) => grown,
            Err(why) => return Err(why),
        };
        lines = lines_after(&lines, piece);
        done = end;
    }
    Ok(table)
}

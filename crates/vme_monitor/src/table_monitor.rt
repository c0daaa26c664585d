//! Each machine is a monitor, by tables.

ghost use Rattle.std.specs.Prelude.{◌≡◌, ◌≤◌, length, IfOk, None};
ghost use Rattle.vme_trace.specs.WellFormed.{malformed_step};
ghost use Rattle.vme_monitor.specs.Meeting.{shown_apart};
ghost use Rattle.vme_monitor.specs.Outcome.{StandsFor};
ghost use Rattle.vme_monitor.specs.Run.{machine_step, run_of};
ghost use Rattle.vme_monitor.specs.WholeTables.{table_marks, table_outcome, table_steps};

use crate::machine::Machine;
use crate::mark::Mark;
use crate::monitor::Monitor;
use crate::table::{Table, Unfinished};
use crate::view::StepView;
use std::alloc::{AllocError, Global};
use std::marker::PhantomData;
use vme_trace::{Break, Lines, Step};

/// The table of some steps after an opening. It fails if memory runs out.
pub fn summarise<M: Machine>(
    alloc: Global,
    opening: &Lines,
    steps: &[Step],
) -> Result<Table<M::Memory>, AllocError>
    requires accepted { malformed_step (record { opening = opening.now; steps = steps.now }) ≡ None }
    requires few { length steps.now ≤ 268435456 }
    ensures stands { IfOk result (λ t. StandsFor (run_of (machine_step M.observation M.next)) (table_outcome t)
        (table_steps t) opening.now steps.now) }
    ensures marks { IfOk result (λ t. table_marks t ≤ shown_apart (run_of (machine_step M.observation M.next))
        M.Memory.COUNT M.Memory.place_of M.Memory.nth_of opening.now steps.now) }
{
    let mut table = Unfinished::<M>::new(alloc)?;
    let mut view = StepView::new(opening);
    let mut instant = 0;
    for step in steps {
        let changes = step.changes.as_slice();
        view.go_to(changes);
        instant += 1;
        table.extend(alloc, &view, step, instant)?;
        view.go_past(changes);
    }
    Ok(table.finish(instant))
}

/// The monitor of a machine.
pub struct TableMonitor<M> {
    of: PhantomData<M>,
}

impl<M: Machine> Monitor for TableMonitor<M> {
    ghost use Rattle.std.specs.Prelude.{refl};
    ghost use Rattle.vme_trace.specs.WellFormed.{malformed_step};
    ghost use Rattle.vme_monitor.specs.Outcome.{StandsFor};
    ghost use Rattle.vme_monitor.specs.Run.{machine_step, run_of};
    ghost use Rattle.vme_monitor.specs.Runs.{run_joined};
    ghost use Rattle.vme_monitor.specs.RuleMonitors.{run_within};
    ghost use Rattle.vme_monitor.specs.Meeting.{shown_apart};
    ghost use Rattle.vme_monitor.specs.WholeTables.{table_marks, table_outcome, table_steps};

    type Memory = M::Memory;

    type Summary = Table<M::Memory>;

    ghost run = { run_of (machine_step M.observation M.next) };

    ghost begin = { M.begin };

    ghost count = { λ s. table_steps s };

    ghost outcome = { λ s p. table_outcome s p };

    ghost marks_kept = { λ s. table_marks s };

    ghost marks_shown = { shown_apart
        (run_of (machine_step M.observation M.next)) M.Memory.COUNT M.Memory.place_of M.Memory.nth_of };

    ghost nothing = { λ p o. refl };

    ghost joined = { λ p o x y. run_joined (machine_step M.observation M.next) x y p o };

    ghost within = { λ p o x. run_within (machine_step M.observation M.next) x p o };

    ghost inside = { λ s p. s.inside p };

    fn start(opening: &Lines) -> M::Memory {
        M::start(opening)
    }

    fn summarise(
        alloc: Global,
        opening: &Lines,
        steps: &[Step],
    ) -> Result<Table<M::Memory>, AllocError> {
        summarise::<M>(alloc, opening, steps)
    }

    fn compose(
        alloc: Global,
        first: &Table<M::Memory>,
        second: &Table<M::Memory>,
    ) -> Result<Table<M::Memory>, AllocError> {
        Table::compose(alloc, first, second)
    }

    fn unit(alloc: Global) -> Result<Table<M::Memory>, AllocError> {
        Table::unit(alloc)
    }

    fn steps(summary: &Table<M::Memory>) -> u32 {
        summary.steps()
    }

    fn stored(summary: &Table<M::Memory>) -> u64 {
        summary.stored()
    }

    fn leaving(summary: &Table<M::Memory>, memory: M::Memory) -> M::Memory {
        summary.leaving(memory)
    }

    fn event(summary: &Table<M::Memory>, memory: M::Memory) -> Option<Break> {
        summary.first_break(memory)
    }

    fn marks(
        alloc: Global,
        summary: &Table<M::Memory>,
        memory: M::Memory,
    ) -> Result<Vec<Mark>, AllocError> {
        summary.marks(alloc, memory)
    }
}

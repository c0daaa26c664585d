//! A monitor that shows nothing, for callers that need the first break (violation of a rule) alone.

ghost use Rattle.std.specs.Prelude.{◌≡◌};

use crate::machine::Machine;
use crate::mark::{NOTHING, Next};
use crate::over_stretches::OverStretches;
use crate::table_monitor::TableMonitor;
use crate::view::StepView;
use std::marker::PhantomData;
use vme_trace::{Change, Lines};

/// A machine without marks: it leaves the same memories (states of its automaton) and breaks the same rules, and shows
/// nothing.
pub struct WithoutMarks<M> {
    of: PhantomData<M>,
}

impl<M: Machine> Machine for WithoutMarks<M> {
    ghost use Rattle.vme_monitor.specs.WithoutMarks.{unmarked_step, unmarked_unchanged};

    type Memory = M::Memory;

    type Observation = M::Observation;

    ghost begin = { M.begin };

    ghost observation = { M.observation };

    ghost next = { unmarked_step M.next };

    ghost sensitivity_of = { M.sensitivity_of };

    ghost threshold_of = { M.threshold_of };

    ghost below_threshold = { unmarked_unchanged M.next M.sensitivity_of M.threshold_of M.below_threshold };

    ghost never_more_sensitive = { M.never_more_sensitive };

    ghost few = { M.few };

    fn start(opening: &Lines) -> M::Memory {
        M::start(opening)
    }

    #[inline(always)]
    fn observe_step(view: &StepView, changes: &[Change]) -> Option<M::Observation> {
        M::observe_step(view, changes)
    }

    #[inline(always)]
    fn step(
        memory: M::Memory,
        before: &Lines,
        after: &Lines,
        seen: &M::Observation,
    ) -> Next<M::Memory> {
        let next = M::step(memory, before, after, seen);
        Next {
            memory: next.memory,
            fault: next.fault,
            shown: NOTHING,
        }
    }

    fn sensitivity(memory: M::Memory) -> u8 {
        M::sensitivity(memory)
    }

    fn threshold(seen: &M::Observation) -> u8 {
        M::threshold(seen)
    }
}

/// The monitor of some rules that finds their breaks, and shows nothing.
pub type BreakMonitor<R> = TableMonitor<WithoutMarks<OverStretches<R>>>;

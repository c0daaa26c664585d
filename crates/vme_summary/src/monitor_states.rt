//! The states of monitors that judge a recording from its opening on.

ghost use Rattle.std.specs.Prelude.{◌≡◌, ◌+◌, ◌^◌, ◌<◌, ◌≤◌, ◌++◌, List, None, length, option_map, unwrap_or};
ghost use Rattle.std.specs.Option.{option_or};
ghost use Rattle.vme_monitor.specs.Outcome.{shifted_break};
ghost use Rattle.vme_monitor.specs.OverStretches.{observed, phase_step};
ghost use Rattle.vme_monitor.specs.Run.{break_of_fault, machine_step, quiet as quiet_next};
ghost use Rattle.vme_monitor.specs.StepRuns.{seen_in};
ghost use Rattle.vme_monitor.specs.WholeTables.{table_outcome, table_steps};
ghost use Rattle.vme_monitor.specs.WithoutMarks.{unmarked_next};
ghost use Rattle.vme_monitor.specs.declared.over_stretches.StretchPhase.TheVariants.{InStretch};
ghost use Rattle.vme_trace.specs.Levels.{Levels};
ghost use Rattle.vme_trace.specs.Trace.{Trace, levels_after};
ghost use Rattle.vme_trace.specs.Verdict.{rules_in_force, verdict_by, verdict_on};
ghost use Rattle.vme_trace.specs.declared.step.Step.{Step};
ghost use Rattle.vme_summary.specs.Progressed.{HasFound, HasFoundAll};

use vme_chains::acknowledge::AcknowledgeMemory;
use vme_chains::grant_memory::Arbitration;
use vme_dtb::holding::Holding;
use vme_dtb::memory::HandshakeMemory;
use vme_monitor::known::Stateless;
use vme_monitor::link::later_break;
use vme_monitor::machine::Enumerable;
use vme_monitor::mark::{NOTHING, Next, quiet};
use vme_monitor::over_stretches::{Rules, StretchPhase};
use vme_monitor::table::Table;
use vme_monitor::view::{End, StepView};
use vme_trace::{Break, Change, Lines, Step, Verdict};

/// The state of a monitor that began at an opening: its memory, i.e. the state of its automaton, and the first break
/// (violation of a rule) that it found.
#[derive(Drop)]
pub(crate) struct MonitorState<P> {
    pub(crate) memory: P,
    pub(crate) first_break: Option<Break>,
}

impl<P: Enumerable> MonitorState<P> {
    /// The state of a monitor that begins in `memory`, before any step.
    pub(crate) fn at(memory: P) -> MonitorState<P>
        ensures memory { result.memory ≡ memory }
        ensures first_break { result.first_break ≡ None }
    {
        MonitorState {
            memory,
            first_break: None,
        }
    }

    /// The state after the steps of `table`, which follow `steps` earlier ones.
    pub(crate) fn after(&self, table: &Table<P>, steps: u32) -> MonitorState<P>
        requires { steps + table_steps table.now < 2 ^ 32 }
        ensures memory { result.memory ≡ (table_outcome table.now self.now.memory).leaving }
        ensures first_break { result.first_break ≡ option_or self.now.first_break
            (option_map (shifted_break steps) (table_outcome table.now self.now.memory).first_break) }
    {
        let first_break = match self.first_break {
            Some(found) => Some(found),
            None => later_break(table.first_break(self.memory), steps),
        };
        MonitorState {
            memory: table.leaving(self.memory),
            first_break,
        }
    }
}

/// The result of a step that ends no stretch, in the phase `InStretch(memory)` and without marks. `None` says that the
/// memory stays and nothing is broken.
#[inline(always)]
fn next_judging<R: Rules>(
    memory: R::Memory,
    view: &StepView,
    changes: &[Change],
) -> Option<Next<StretchPhase<R::Memory>>>
    requires view { view.now ≡ seen_in view.now.before changes.now }
    requires goes_on { view.now.end ≡ None }
    ensures { unwrap_or result (quiet_next (InStretch memory)) ≡ unmarked_next
        (machine_step (observed R.observation) (phase_step R.begin R.start_marks R.reset_marks R.end_fault R.next)
        (InStretch memory) view.now.before view.now.after changes.now) }
{
    let Some(seen) = R::observe(&view.before, &view.after, changes) else {
        return None;
    };
    let next = R::step(memory, &view.before, &view.after, &seen);
    Some(Next {
        memory: StretchPhase::InStretch(next.memory),
        fault: next.fault,
        shown: NOTHING,
    })
}

/// The result of a step in the phase `memory`, without marks. `None` says that the memory stays and nothing is broken.
/// The memory is tested first: in most memories most steps give nothing.
#[inline(always)]
fn next_in<R: Rules>(
    memory: StretchPhase<R::Memory>,
    view: &StepView,
    changes: &[Change],
) -> Option<Next<StretchPhase<R::Memory>>>
    requires { view.now ≡ seen_in view.now.before changes.now }
    ensures { unwrap_or result (quiet_next memory) ≡ unmarked_next
        (machine_step (observed R.observation) (phase_step R.begin R.start_marks R.reset_marks R.end_fault R.next)
        memory view.now.before view.now.after changes.now) }
{
    match memory {
        StretchPhase::Ended => None,
        StretchPhase::Waiting | StretchPhase::Reset => {
            let machine_step = view.control
                || R::observe(&view.before, &view.after, changes).is_some();
            if machine_step && view.after.is_idle() {
                Some(quiet(StretchPhase::InStretch(R::at_start(&view.after))))
            } else {
                None
            }
        }
        StretchPhase::InStretch(inner) => match view.end {
            None => next_judging::<R>(inner, view, changes),
            Some(End::Reset) => Some(quiet(StretchPhase::Reset)),
            Some(End::Lost(line)) => Some(Next {
                memory: StretchPhase::Ended,
                fault: R::fault_at_end(line),
                shown: NOTHING,
            }),
        },
    }
}

/// Advances a monitor that began at an opening by the next step, at its instant after the opening.
#[inline(always)]
pub(crate) fn advance<R: Rules>(
    state: &mut MonitorState<StretchPhase<R::Memory>>,
    view: &StepView,
    changes: &[Change],
    time: u64,
    instant: u32,
)
    requires { view.now ≡ seen_in view.now.before changes.now }
    ensures memory { state.new.memory
        ≡ (machine_step (observed R.observation) (phase_step R.begin R.start_marks R.reset_marks R.end_fault R.next)
        state.old.memory view.now.before view.now.after changes.now).memory }
    ensures first_break { state.new.first_break ≡ option_or state.old.first_break
        (option_map (break_of_fault instant time)
        (machine_step (observed R.observation) (phase_step R.begin R.start_marks R.reset_marks R.end_fault R.next)
        state.old.memory view.now.before view.now.after changes.now).fault) }
{
    let Some(next) = next_in::<R>(state.memory, view, changes) else {
        return;
    };
    state.memory = next.memory;
    if let (None, Some(fault)) = (state.first_break, next.fault) {
        state.first_break = Some(Break {
            instant,
            time,
            rule: fault.rule,
            line: fault.line,
        });
    }
}

/// The states of all monitors that began at an opening.
#[derive(Drop)]
pub(crate) struct MonitorStates {
    pub(crate) known: MonitorState<StretchPhase<Stateless>>,
    pub(crate) handshake: MonitorState<StretchPhase<HandshakeMemory>>,
    pub(crate) stability: MonitorState<StretchPhase<Holding>>,
    pub(crate) grant: MonitorState<StretchPhase<Arbitration>>,
    pub(crate) acknowledge: MonitorState<StretchPhase<AcknowledgeMemory>>,
}

/// The verdict by the first break, if anything is judged.
fn verdict_of(found: Option<Break>) -> Verdict
    ensures { result ≡ verdict_on found }
{
    match found {
        None => Verdict::Conforming,
        Some(found) if found.rule.is_unreadable() => Verdict::Unreadable(found),
        Some(found) => Verdict::Broken(found),
    }
}

impl MonitorStates {
    /// Advances the monitors by `steps`, which follow `before` earlier steps that leave the lines `opening`. Gives the
    /// lines that `steps` leave.
    pub(crate) fn advance_along(&mut self, opening: &Lines, before: u32, steps: &[Step]) -> Lines
        requires { before + length steps.now ≤ 268435456 }
        ensures found { (o : Levels) (x : List Step) → opening.now ≡ levels_after o x → before ≡ length x
            → HasFound self.old o x → HasFound self.new o (x ++ steps.now) }
        ensures left { result ≡ levels_after opening.now steps.now }
    {
        let mut view = StepView::new(opening);
        let mut instant = before;
        for step in steps {
            let changes = step.changes.as_slice();
            view.go_to(changes);
            instant += 1;
            self.advance(&view, step, instant);
            view.go_past(changes);
        }
        view.before
    }

    /// The verdict on a recording, if the monitors have been advanced by all its steps.
    pub(crate) fn verdict(&self) -> Verdict
        ensures { (t : Trace) → HasFoundAll self.now t → verdict_by rules_in_force t ≡ result }
    {
        if self.has_judged() {
            verdict_of(self.first_break())
        } else {
            Verdict::NeverIdle
        }
    }
}

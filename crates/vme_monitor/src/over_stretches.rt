//! Judging starts at an idle instant, and ends where the bus is reset or a control line is lost. After a reset it
//! starts again at the next idle instant.

ghost use Rattle.std.specs.Prelude.{◌≡◌, ℕ, ◌≤◌, List, Option, None};
ghost use Rattle.vme_trace.specs.Trace.{Trace, levels_at};
ghost use Rattle.vme_trace.specs.WellFormed.{malformed_step};
ghost use Rattle.vme_trace.specs.Judged.{has_any_stretch, judged_stretches};
ghost use Rattle.vme_monitor.specs.Judges.{Judges};
ghost use Rattle.vme_monitor.specs.Shows.{Shows};
ghost use Rattle.vme_monitor.specs.Whole.{FindsLeastWhere, RemembersWithin, ShowsAllWhere, run_whole};
ghost use Rattle.vme_monitor.specs.Along.{memory_from};
ghost use Rattle.vme_monitor.specs.declared.over_stretches.StretchPhase.TheVariants.{InStretch};
ghost use Rattle.vme_monitor.specs.Run.{machine_step};
ghost use Rattle.vme_trace.specs.Levels.{Levels};
ghost use Rattle.vme_trace.specs.declared.step.Change.{Change};
ghost use Rattle.vme_monitor.specs.declared.mark.Fault.{Fault};
ghost use Rattle.vme_monitor.specs.declared.mark.StepMarks.{StepMarks};
ghost use Rattle.vme_monitor.specs.declared.mark.Next.{Next};
ghost use Rattle.vme_monitor.specs.OverStretches.{has_started, opening_phase};

use crate::machine::{Enumerable, Machine, Small};
use crate::mark::{Fault, NOTHING, Next, StepMarks, quiet};
use crate::monitor::Monitor;
use crate::table_monitor::TableMonitor;
use crate::view::{End, StepView};
use std::marker::PhantomData;
use vme_trace::{Change, Line, Lines};

/// An automaton that judges by some rules, from the start of a stretch of judged instants to its end. Its
/// memory is its state.
pub trait Rules {
    /// The state of the automaton between two judged steps.
    type Memory: Small;

    /// What the rules see of a step, whatever the memory.
    type Observation: Drop;

    /// The memory at the idle instant at which a stretch starts.
    ghost begin: { Levels → Self.Memory };

    /// What is shown where a stretch starts.
    ghost start_marks: { Levels → StepMarks };

    /// What is shown where a stretch ends because the bus is reset.
    ghost reset_marks: { StepMarks };

    /// What is broken where the control line with this number is lost.
    ghost end_fault: { ℕ → Option Fault };

    /// The observation of a step, by the levels before and after it and by its changes.
    ghost observation: { Levels → Levels → List Change → Option Self.Observation };

    /// What an observed step gives: the next memory, the rule that is broken, if any, and what is shown.
    ghost next: { Self.Memory → Levels → Levels → Self.Observation → Next Self.Memory };

    /// The memory at the idle instant at which a stretch starts.
    fn at_start(lines: &Lines) -> Self::Memory
        ensures { result ≡ begin lines.now };

    /// What is shown where a stretch starts.
    fn shown_at_start(lines: &Lines) -> StepMarks
        ensures { result ≡ start_marks lines.now };

    /// What is shown where a stretch ends because the bus is reset.
    fn shown_at_reset() -> StepMarks
        ensures { result ≡ reset_marks };

    /// What is broken where a control line is lost.
    fn fault_at_end(lost: Line) -> Option<Fault>
        ensures { result ≡ end_fault lost };

    /// The observation of a step between the levels `before` and `after`, if the rules see something.
    fn observe(before: &Lines, after: &Lines, changes: &[Change]) -> Option<Self::Observation>
        ensures { result ≡ observation before.now after.now changes.now };

    /// What an observed step gives, between the levels `before` and `after`.
    fn step(
        memory: Self::Memory,
        before: &Lines,
        after: &Lines,
        seen: &Self::Observation,
    ) -> Next<Self::Memory>
        ensures { result ≡ next memory before.now after.now seen.now };
}

/// Whether judging is before, within or after a stretch.
#[derive(Clone, Copy, PartialEq, Eq, Debug)]
pub enum StretchPhase<P> {
    /// A reset has ended a stretch, and none has started since.
    Reset,
    /// No stretch has started.
    Waiting,
    /// A stretch is judged, and this is the memory in it.
    InStretch(P),
    /// A lost control line has ended a stretch.
    Ended,
}

impl<P: Small> Enumerable for StretchPhase<P> {
    ghost use Rattle.std.specs.Prelude.{suc, refl};
    ghost use Rattle.std.specs.Prelude.{◌+◌};
    ghost use Rattle.vme_monitor.specs.OverStretches.{phase_nth, phase_place};
    ghost use Rattle.vme_monitor.specs.OverStretchesLaws.{phase_found, phase_placed};

    ghost COUNT = { P.COUNT + 3 };

    ghost place_of = { phase_place P.place_of };

    ghost nth_of = { phase_nth P.nth_of };

    ghost placed = { phase_placed P.COUNT P.place_of P.placed };

    ghost found = { phase_found P.place_of P.nth_of P.found };

    const COUNT: usize = P::COUNT + 3;

    fn place(self) -> usize {
        match self {
            StretchPhase::Waiting => 0,
            StretchPhase::Reset => 1,
            StretchPhase::Ended => 2,
            StretchPhase::InStretch(memory) => memory.place() + 3,
        }
    }

    fn nth(k: usize) -> StretchPhase<P> {
        if k == 0 {
            StretchPhase::Waiting
        } else if k == 1 {
            StretchPhase::Reset
        } else if k == 2 {
            StretchPhase::Ended
        } else {
            StretchPhase::InStretch(P::nth(k - 3))
        }
    }
}

/// The observation of a step.
#[derive(Drop)]
pub struct StretchObservation<S> {
    /// What ends a stretch there, if something does.
    pub end: Option<End>,
    /// What the rules see of the step; `None` where it is nothing to them.
    pub inner: Option<S>,
}

/// The phase at an opening: judging starts where the bus is idle.
pub fn phase_at<R: Rules>(opening: &Lines) -> StretchPhase<R::Memory>
    ensures { result ≡ opening_phase R.begin opening.now }
{
    if opening.is_idle() {
        StretchPhase::InStretch(R::at_start(opening))
    } else {
        StretchPhase::Waiting
    }
}

/// The machine that judges by some rules within stretches.
pub struct OverStretches<R> {
    of: PhantomData<R>,
}

impl<R: Rules> Machine for OverStretches<R> {
    ghost use Rattle.vme_monitor.specs.OverStretches.{observed, stretch_threshold, phase_sensitivity, phase_step};
    ghost use Rattle.vme_monitor.specs.OverStretches.{opening_phase};
    ghost use Rattle.vme_monitor.specs.OverStretchesLaws.{phases_few, phase_step_sensitivity, phase_step_unchanged};

    type Memory = StretchPhase<R::Memory>;

    type Observation = StretchObservation<R::Observation>;

    ghost begin = { opening_phase R.begin };

    ghost observation = { observed R.observation };

    ghost next = { phase_step R.begin R.start_marks R.reset_marks R.end_fault R.next };

    ghost sensitivity_of = { phase_sensitivity };

    ghost threshold_of = { stretch_threshold };

    ghost below_threshold = { phase_step_unchanged R.begin R.start_marks R.reset_marks R.end_fault R.next };

    ghost never_more_sensitive = { phase_step_sensitivity R.begin R.start_marks R.reset_marks R.end_fault R.next };

    ghost few = { phases_few R.Memory.COUNT R.Memory.small };

    fn start(opening: &Lines) -> StretchPhase<R::Memory> {
        phase_at::<R>(opening)
    }

    #[inline(always)]
    fn observe_step(
        view: &StepView,
        changes: &[Change],
    ) -> Option<StretchObservation<R::Observation>> {
        let inner = R::observe(&view.before, &view.after, changes);
        if inner.is_some() || view.control {
            Some(StretchObservation {
                end: view.end,
                inner,
            })
        } else {
            None
        }
    }

    #[inline(always)]
    fn step(
        memory: StretchPhase<R::Memory>,
        before: &Lines,
        after: &Lines,
        seen: &StretchObservation<R::Observation>,
    ) -> Next<StretchPhase<R::Memory>> {
        match memory {
            StretchPhase::Waiting | StretchPhase::Reset => {
                if after.is_idle() {
                    Next {
                        memory: StretchPhase::InStretch(R::at_start(after)),
                        fault: None,
                        shown: R::shown_at_start(after),
                    }
                } else {
                    quiet(memory)
                }
            }
            StretchPhase::InStretch(inner) => match seen.end {
                Some(End::Reset) => Next {
                    memory: StretchPhase::Reset,
                    fault: None,
                    shown: R::shown_at_reset(),
                },
                Some(End::Lost(line)) => Next {
                    memory: StretchPhase::Ended,
                    fault: R::fault_at_end(line),
                    shown: NOTHING,
                },
                None => match &seen.inner {
                    Some(machine_step) => {
                        let next = R::step(inner, before, after, machine_step);
                        Next {
                            memory: StretchPhase::InStretch(next.memory),
                            fault: next.fault,
                            shown: next.shown,
                        }
                    }
                    None => quiet(StretchPhase::InStretch(inner)),
                },
            },
            StretchPhase::Ended => quiet(StretchPhase::Ended),
        }
    }

    fn sensitivity(memory: StretchPhase<R::Memory>) -> u8 {
        match memory {
            StretchPhase::Reset => 3,
            StretchPhase::Waiting => 2,
            StretchPhase::InStretch(_) => 1,
            StretchPhase::Ended => 0,
        }
    }

    fn threshold(seen: &StretchObservation<R::Observation>) -> u8 {
        match seen.end {
            Some(_) => 0,
            None => { if seen.inner.is_some() { 1 } else { 2 } }
        }
    }
}

/// The monitor of some rules.
pub type RuleMonitor<R> = TableMonitor<OverStretches<R>>;

/// Over a whole recording, the first break is the least break of the rules, and the marks are what happens in the
/// stretches and at the resets that end them, if this holds for the rules' automaton in each stretch (`Judges`,
/// `Shows`). After the recording, the phase says whether there was a stretch. Within a stretch the memory
/// is the inner automaton's.
pub fn rules_over_recordings<R: Rules>()
    ensures first_break { FindsLeastWhere ⟦<RuleMonitor<R> as Monitor>⟧.run ⟦<RuleMonitor<R> as Monitor>⟧.begin
        (λ t stretch rules. Judges (machine_step R.observation R.next) (R.begin (levels_at t stretch.start)) R.end_fault
        t
        stretch rules) }
    ensures marks { ShowsAllWhere ⟦<RuleMonitor<R> as Monitor>⟧.run ⟦<RuleMonitor<R> as Monitor>⟧.begin R.reset_marks
        (λ t stretch shown. Shows (machine_step R.observation R.next) (R.begin (levels_at t stretch.start))
        R.start_marks t
        stretch shown) }
    ensures started { (t : Trace) → malformed_step t ≡ None → t.opening.slots ≤ 21
        → has_started (run_whole ⟦<RuleMonitor<R> as Monitor>⟧.run ⟦<RuleMonitor<R> as Monitor>⟧.begin t).leaving
        ≡ has_any_stretch (judged_stretches t) }
    ensures memory { RemembersWithin ⟦<RuleMonitor<R> as Monitor>⟧.run ⟦<RuleMonitor<R> as Monitor>⟧.begin
        (λ t stretch n. InStretch (memory_from (machine_step R.observation R.next) t
        (R.begin (levels_at t stretch.start))
        stretch.start n)) }
{}

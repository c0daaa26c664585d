//! The handshake of data transfers, and the answers that cycles admit (ANSI/IEEE Std 1014-1987, chapter 2, the data
//! transfer bus).
//!
//! A strobe stays low until an answer comes, a new transfer starts with both answer lines high, and an answer line
//! stays low until a strobe has risen. A single cycle has a transfer, or a read and then a write; a block transfer
//! keeps its direction; an interrupt acknowledge is one read.

ghost use Rattle.std.specs.Prelude.{◌≡◌, None, Some, true, if◌then◌else◌};
ghost use Rattle.vme_trace.specs.Edges.{falls_between, rises_between};
ghost use Rattle.vme_trace.specs.Lanes.{lanes_at};
ghost use Rattle.vme_trace.specs.LineNumbers.{DTACK};
ghost use Rattle.vme_monitor.specs.Tracking.{is_unanswered, is_within, is_writing};
ghost use Rattle.vme_monitor.specs.Run.{no_step_marks};
ghost use Rattle.vme_monitor.specs.Whole.{FindsLeast, ShowsAll};
ghost use Rattle.vme_dtb.specs.Machine.{answer_in, answered_in, fault_if as fault_if_on, cycle_fault as fault_of_cycle};
ghost use Rattle.vme_dtb.specs.Machine.{data_in, early_rise as early_rise_line, dtb_next, may_rise as may_rise_by};
ghost use Rattle.vme_dtb.specs.Machine.{handshake_fault as fault_of_handshake, handshake_rules, is_doubled, has_answer};
ghost use Rattle.vme_dtb.specs.Machine.{is_left_unanswered};
ghost use Rattle.vme_dtb.specs.Edge.{edges_between, is_addressed};
ghost use Rattle.vme_dtb.specs.UsualSteps.{is_answer_alone, strobes_break_rule, is_start_alone, is_strobes_alone};
ghost use Rattle.vme_dtb.specs.UsualSteps.{memory_left};
ghost use Rattle.vme_dtb.specs.Shown.{handshake_shown};

use crate::cycle::CyclePhase;
use crate::edges::{
    Edges, closes, cycle_start, first_answer, is_addressed, is_answer_alone, is_handshake_still,
    is_start_alone, is_strobes_alone, transfer_started,
};
use crate::memory::HandshakeMemory;
use vme_monitor::mark::{Fault, NOTHING, Next, StepMarks, TransferAnswer, quiet};
use vme_monitor::monitor::Monitor;
use vme_monitor::over_stretches::{RuleMonitor, Rules};
use vme_monitor::tracking::TransferPhase;
use vme_trace::edges::{
    falls, has_strobes_high, rises, starts_transfer, strobe_falls, strobe_rises,
};
use vme_trace::{Change, Lanes, Line, Lines, Rule, moved_data};

/// The rules of the handshake, H1 to H8, and of the answers that a cycle admits, C1, C2, I4 and I5.
pub struct HandshakeRules;

/// Whether a transfer is open and has no answer.
fn is_unanswered(transfer: TransferPhase) -> bool
    ensures { result ≡ is_unanswered transfer }
{
    matches!(transfer, TransferPhase::Reading | TransferPhase::Writing)
}

/// Whether a transfer is open and has its answer.
fn is_answered(transfer: TransferPhase) -> bool
    ensures { result ≡ has_answer transfer }
{
    matches!(transfer, TransferPhase::Answered)
}

/// Whether a transfer is open.
fn is_open(transfer: TransferPhase) -> bool
    ensures { result ≡ is_within transfer }
{
    !matches!(transfer, TransferPhase::Closed)
}

/// Whether a write is open and has no answer.
fn is_writing(transfer: TransferPhase) -> bool
    ensures { result ≡ is_writing transfer }
{
    matches!(transfer, TransferPhase::Writing)
}

/// The fault that `rule` is broken on `line`, if it applies and there is a line.
fn fault_if(rule: Rule, applies: bool, line: Option<Line>) -> Option<Fault>
    ensures { result ≡ fault_if_on rule applies line }
{
    match line {
        Some(line) if applies => Some(Fault { rule, line }),
        _ => None,
    }
}

/// The line that answers the transfer in which a step ends, if any.
fn answer_of(entered: TransferPhase, seen: &Edges) -> Option<Line>
    ensures { result ≡ answer_in entered seen.now }
{
    if is_unanswered(entered) {
        seen.answer_fall
    } else {
        None
    }
}

/// The data on the lines, if `write`.
#[inline(always)]
fn taken(write: bool, lines: &Lines) -> Option<Lanes>
    ensures { result ≡ (if write then Some (lanes_at lines.now) else None) }
{
    if write { Some(moved_data(lines)) } else { None }
}

/// The data that an answer takes, if the transfer in which the step ends is a write.
fn data_of(entered: TransferPhase, before: &Lines, after: &Lines) -> Option<Lanes>
    ensures { result ≡ data_in entered before.now after.now }
{
    if starts_transfer(before, after) {
        taken(is_writing(entered), after)
    } else {
        taken(is_writing(entered), before)
    }
}

/// The answer of the transfer in which a step ends, if any.
fn answered(
    entered: TransferPhase,
    before: &Lines,
    after: &Lines,
    seen: &Edges,
) -> Option<TransferAnswer>
    ensures { result ≡ answered_in entered before.now after.now seen.now }
{
    match answer_of(entered, seen) {
        Some(line) => Some(TransferAnswer {
            line,
            lanes: data_of(entered, before, after),
        }),
        None => None,
    }
}

/// Whether an answer line falls in a transfer that has its answer, or both fall in one.
fn is_doubled(entered: TransferPhase, seen: &Edges) -> bool
    ensures { result ≡ is_doubled entered seen.now }
{
    is_answered(entered) || (is_unanswered(entered) && seen.both_fall)
}

/// Whether a strobe has risen since an answer line fell. `was` says whether one had before the step.
fn may_rise(was: bool, seen: &Edges) -> bool
    ensures { result ≡ may_rise_by was seen.now }
{
    was || seen.strobe_rise.is_some()
}

impl HandshakeMemory {
    /// Whether the transfer that was open before the step stays without an answer.
    fn is_left_unanswered(self, seen: &Edges) -> bool
        ensures { result ≡ is_left_unanswered self.transfer seen.now }
    {
        is_unanswered(self.transfer) && !seen.answer_fall.is_some()
    }

    /// The first answer line that rises while no strobe has risen since it fell.
    fn early_rise(self, seen: &Edges) -> Option<Line>
        ensures { result ≡ early_rise_line self seen.now }
    {
        first_answer(
            seen.dtack_rises && !may_rise(self.dtack_may_rise, seen),
            seen.berr_rises && !may_rise(self.berr_may_rise, seen),
        )
    }

    /// The first rule of the handshake that is broken, where the step ends in the transfer `entered`.
    fn handshake_fault(self, entered: TransferPhase, seen: &Edges) -> Option<Fault>
        ensures { result ≡ fault_of_handshake self entered seen.now }
    {
        let left_unanswered = self.is_left_unanswered(seen);
        let doubled = is_doubled(entered, seen);
        fault_if(Rule::H1, true, seen.answer_not_high)
            .or(fault_if(Rule::H2, left_unanswered, seen.strobe_rise))
            .or(fault_if(Rule::H3, is_answered(self.transfer), seen.strobe_fall))
            .or(fault_if(Rule::H4, !is_open(entered), seen.answer_fall))
            .or(fault_if(Rule::H5, doubled, seen.answer_fall))
            .or(fault_if(Rule::H6, true, self.early_rise(seen)))
            .or(fault_if(
                Rule::H7,
                left_unanswered && seen.shown.cycle_end,
                Some(Line::AS),
            ))
            .or(fault_if(Rule::H8, seen.unaddressed, answer_of(entered, seen)))
    }
}

/// The first rule that an answer in a cycle breaks.
#[inline(always)]
fn cycle_fault(cycle: CyclePhase, write: bool, answer: Option<Line>) -> Option<Fault>
    ensures { result ≡ fault_of_cycle cycle write answer }
{
    match answer {
        None => None,
        Some(_) => fault_if(Rule::C1, cycle.is_read_modify_write_broken(write), answer)
            .or(fault_if(Rule::C2, cycle.is_direction_changed(write), answer))
            .or(fault_if(Rule::I4, cycle.is_interrupt_acknowledge() && write, answer))
            .or(fault_if(Rule::I5, cycle.is_answered_interrupt_acknowledge(), answer)),
    }
}

impl HandshakeMemory {
    /// The result of a step with any edges. Few steps get here.
    #[cold]
    #[inline(never)]
    #[tactic(auto, using(crate::proofs::UsualNexts::cond_closed_twice))]
    fn at_edges(self, before: &Lines, after: &Lines) -> Next<HandshakeMemory>
        ensures { result ≡ dtb_next self before.now after.now (edges_between before.now after.now) }
    {
        let seen = Edges::between(before, after);
        let entered = self.transfer.entered(before, after);
        let write = is_writing(entered);
        let cycle = self.cycle.entered(seen.shown.cycle);
        let answer = answer_of(entered, &seen);
        let fault = self
            .handshake_fault(entered, &seen)
            .or(cycle_fault(cycle, write, answer));
        let cycle = if answer.is_some() {
            cycle.answered(write)
        } else {
            cycle
        };
        let transfer = self.transfer.tracked(before, after);
        Next {
            memory: self.left(after, transfer, cycle, seen.strobe_rise.is_some()),
            fault,
            shown: StepMarks {
                answer: answered(entered, before, after, &seen),
                ..seen.shown
            },
        }
    }

    /// The result of a step with any edges, its fields taken out and put together again, so that the results of the
    /// usual steps stay in registers.
    #[inline(always)]
    fn at_any(self, before: &Lines, after: &Lines) -> Next<HandshakeMemory>
        ensures { result ≡ dtb_next self before.now after.now (edges_between before.now after.now) }
    {
        let Next {
            memory,
            fault,
            shown,
        } = self.at_edges(before, after);
        Next {
            memory,
            fault,
            shown,
        }
    }

    /// The memory after a step that leaves `transfer` (unless it closes) and `cycle`. `rises` says whether a strobe
    /// rises.
    #[inline(always)]
    fn left(
        self,
        after: &Lines,
        transfer: TransferPhase,
        cycle: CyclePhase,
        rises: bool,
    ) -> HandshakeMemory
        ensures { result ≡ memory_left self after.now transfer cycle rises }
    {
        HandshakeMemory {
            transfer: if has_strobes_high(after) {
                TransferPhase::Closed
            } else {
                transfer
            },
            cycle,
            dtack_may_rise: after.level(Line::DTACK).is_low() && (self.dtack_may_rise || rises),
            berr_may_rise: after.level(Line::BERR).is_low() && (self.berr_may_rise || rises),
        }
    }

    /// The result of a step in which AS* alone falls.
    #[inline(always)]
    fn at_cycle_start(self, before: &Lines, after: &Lines) -> Next<HandshakeMemory>
        requires { is_start_alone before.now after.now ≡ true }
        ensures { result ≡ dtb_next self before.now after.now (edges_between before.now after.now) }
    {
        let cycle_start = cycle_start(after);
        Next {
            memory: self.left(
                after,
                self.transfer,
                CyclePhase::of_class(cycle_start.class),
                false,
            ),
            fault: None,
            shown: StepMarks {
                cycle: Some(cycle_start),
                ..NOTHING
            },
        }
    }

    /// Whether strobes that move break a rule: one rises or the cycle ends before the answer, or one falls after it.
    fn strobes_break_rule(self, rises: bool, ends: bool, falls: bool) -> bool
        ensures { result ≡ strobes_break_rule self.transfer rises ends falls }
    {
        match self.transfer {
            TransferPhase::Closed => false,
            TransferPhase::Reading | TransferPhase::Writing => rises || ends,
            TransferPhase::Answered => falls,
        }
    }

    /// The result of a step in which strobes may move and the answer lines stay. AS* is low before it, and if a
    /// transfer starts, both answer lines are high.
    #[inline(always)]
    fn at_strobes(self, before: &Lines, after: &Lines) -> Next<HandshakeMemory>
        requires { is_strobes_alone before.now after.now ≡ true }
        ensures { result ≡ dtb_next self before.now after.now (edges_between before.now after.now) }
    {
        let strobe_rises = strobe_rises(before, after);
        let cycle_end = rises(before, after, Line::AS);
        if self.strobes_break_rule(strobe_rises, cycle_end, strobe_falls(before, after)) {
            return self.at_any(before, after);
        }
        let entered = self.transfer.entered(before, after);
        Next {
            memory: self.left(after, entered, self.cycle, strobe_rises),
            fault: None,
            shown: StepMarks {
                cycle_end,
                transfer: transfer_started(before, after),
                close: closes(before, after),
                ..NOTHING
            },
        }
    }

    /// The result of a step in which DTACK* alone falls while AS* is low.
    #[inline(always)]
    fn at_dtack_fall(self, before: &Lines, after: &Lines) -> Next<HandshakeMemory>
        requires alone { is_answer_alone before.now after.now ≡ true }
        requires falls { falls_between before.now after.now DTACK ≡ true }
        requires addressed { is_addressed before.now after.now ≡ true }
        ensures { result ≡ dtb_next self before.now after.now (edges_between before.now after.now) }
    {
        if !is_unanswered(self.transfer) {
            return self.at_any(before, after);
        }
        let write = is_writing(self.transfer);
        Next {
            memory: self.left(
                after,
                TransferPhase::Answered,
                self.cycle.answered(write),
                false,
            ),
            fault: cycle_fault(self.cycle, write, Some(Line::DTACK)),
            shown: StepMarks {
                answer: Some(TransferAnswer {
                    line: Line::DTACK,
                    lanes: taken(write, before),
                }),
                ..NOTHING
            },
        }
    }

    /// The result of a step in which DTACK* alone rises.
    #[inline(always)]
    fn at_dtack_rise(self, before: &Lines, after: &Lines) -> Next<HandshakeMemory>
        requires alone { is_answer_alone before.now after.now ≡ true }
        requires rises { rises_between before.now after.now DTACK ≡ true }
        ensures { result ≡ dtb_next self before.now after.now (edges_between before.now after.now) }
    {
        if !self.dtack_may_rise {
            return self.at_any(before, after);
        }
        quiet(self.left(after, self.transfer, self.cycle, false))
    }

    /// The result of a step in which AS*, the strobes and BERR* stay as they are.
    #[inline(always)]
    fn at_dtack_alone(self, before: &Lines, after: &Lines) -> Next<HandshakeMemory>
        requires { is_answer_alone before.now after.now ≡ true }
        ensures { result ≡ dtb_next self before.now after.now (edges_between before.now after.now) }
    {
        if rises(before, after, Line::DTACK) {
            self.at_dtack_rise(before, after)
        } else if falls(before, after, Line::DTACK) && is_addressed(before, after) {
            self.at_dtack_fall(before, after)
        } else {
            self.at_any(before, after)
        }
    }
}

impl Rules for HandshakeRules {
    ghost use Rattle.vme_monitor.specs.Run.{no_end_fault, no_start_marks, no_step_marks};
    ghost use Rattle.vme_dtb.specs.Machine.{dtb_begin, dtb_observation, dtb_step};

    type Memory = HandshakeMemory;

    /// An observation says that AS*, a strobe or an answer line moves.
    type Observation = ();

    ghost begin = { dtb_begin };

    ghost start_marks = { no_start_marks };

    ghost reset_marks = { no_step_marks };

    ghost end_fault = { no_end_fault };

    ghost observation = { dtb_observation };

    ghost next = { dtb_step };

    fn at_start(_lines: &Lines) -> HandshakeMemory {
        HandshakeMemory {
            transfer: TransferPhase::Closed,
            cycle: CyclePhase::Free,
            dtack_may_rise: false,
            berr_may_rise: false,
        }
    }

    fn shown_at_start(_lines: &Lines) -> StepMarks {
        NOTHING
    }

    fn shown_at_reset() -> StepMarks {
        NOTHING
    }

    fn fault_at_end(_lost: Line) -> Option<Fault> {
        None
    }

    #[inline(always)]
    fn observe(before: &Lines, after: &Lines, _changes: &[Change]) -> Option<()> {
        if is_handshake_still(before, after) {
            None
        } else {
            Some(())
        }
    }

    #[inline(always)]
    fn step(
        memory: HandshakeMemory,
        before: &Lines,
        after: &Lines,
        _seen: &(),
    ) -> Next<HandshakeMemory> {
        if is_answer_alone(before, after) {
            memory.at_dtack_alone(before, after)
        } else if is_start_alone(before, after) {
            memory.at_cycle_start(before, after)
        } else if is_strobes_alone(before, after) {
            memory.at_strobes(before, after)
        } else {
            memory.at_any(before, after)
        }
    }
}

/// The monitor of the handshake and of the answers that cycles admit.
///
/// Over a whole recording its first break is the least break of the rules H1 to H8, C1, C2, I4 and I5;
/// [`handshake_over_recordings`] says so.
pub type Dtb = RuleMonitor<HandshakeRules>;

/// Over a whole recording, the first break is the least break of H1 to H8, C1, C2, I4 and I5, and the marks are the
/// starts and ends of cycles, and the starts, answers and closes of transfers.
pub fn handshake_over_recordings()
    ensures first_break { FindsLeast ⟦<Dtb as Monitor>⟧.run ⟦<Dtb as Monitor>⟧.begin handshake_rules }
    ensures marks { ShowsAll ⟦<Dtb as Monitor>⟧.run ⟦<Dtb as Monitor>⟧.begin no_step_marks handshake_shown }
{}

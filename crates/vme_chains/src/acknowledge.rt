//! Interrupt acknowledge: a slot passes it on only while the slot's input is low, within a cycle and a transfer, and
//! before the answer.

ghost use Rattle.std.specs.Prelude.{◌≡◌, ◌&&◌, IsTrue};
ghost use Rattle.vme_trace.specs.Changes.{first_changed};
ghost use Rattle.vme_trace.specs.Edges.{falls_between};
ghost use Rattle.vme_trace.specs.LineNumbers.{has_line, input_of as input_line, is_slot_iack};
ghost use Rattle.vme_monitor.specs.Run.{no_step_marks};
ghost use Rattle.vme_monitor.specs.Whole.{FindsLeast, ShowsAll};
ghost use Rattle.vme_chains.specs.AcknowledgeRules.{acknowledge_rules, acknowledge_shown};
ghost use Rattle.vme_chains.specs.AcknowledgeRules.{changes_memory as changes_memory_of};
ghost use Rattle.vme_chains.specs.AcknowledgeRules.{changes_strobes as changes_strobes_of, fault_among};
ghost use Rattle.vme_chains.specs.AcknowledgeRules.{is_answered_by_dtack, is_addressed as addressed_near};
ghost use Rattle.vme_chains.specs.AcknowledgeRules.{is_strobed as strobed_near, memory_after};
ghost use Rattle.vme_chains.specs.AcknowledgeRules.{passes_on as passes, passes_unasked};

use vme_monitor::machine::{Enumerable, Small};
use vme_monitor::mark::{Fault, NOTHING, Next, StepMarks};
use vme_monitor::monitor::Monitor;
use vme_monitor::over_stretches::{RuleMonitor, Rules};
use vme_monitor::tracking::TransferPhase;
use vme_trace::edges::{answer_falls, falls, has_strobe_low, has_strobes_high, is_low_near};
use vme_trace::{Change, Line, Lines, Rule};

/// The memory of `Iack`, i.e. the state of its automaton.
#[derive(Clone, Copy, PartialEq, Eq, Debug)]
pub struct AcknowledgeMemory {
    /// The phase of the transfer.
    pub transfer: TransferPhase,
    /// Whether AS* is low and a transfer of the cycle was answered by DTACK*.
    pub answered_by_dtack: bool,
}

impl Enumerable for AcknowledgeMemory {
    ghost use Rattle.vme_chains.specs.AcknowledgeRules.{acknowledge_memory_found, acknowledge_memory_nth};
    ghost use Rattle.vme_chains.specs.AcknowledgeRules.{acknowledge_memory_place, acknowledge_memory_placed};

    ghost COUNT = { 8 };

    ghost place_of = { acknowledge_memory_place };

    ghost nth_of = { acknowledge_memory_nth };

    ghost placed = { acknowledge_memory_placed };

    ghost found = { acknowledge_memory_found };

    const COUNT: usize = 8;

    fn place(self) -> usize {
        let place = self.transfer.place();
        if self.answered_by_dtack {
            4 + place
        } else {
            place
        }
    }

    fn nth(k: usize) -> AcknowledgeMemory {
        if k < 4 {
            AcknowledgeMemory {
                transfer: TransferPhase::nth(k),
                answered_by_dtack: false,
            }
        } else {
            AcknowledgeMemory {
                transfer: TransferPhase::nth(k - 4),
                answered_by_dtack: true,
            }
        }
    }
}

impl Small for AcknowledgeMemory {
    ghost use Rattle.std.proofs.Common.{lit≤};

    ghost small = { lit≤ tt };
}

impl AcknowledgeMemory {
    /// The memory after a step.
    #[inline(always)]
    fn after(self, before: &Lines, after: &Lines) -> AcknowledgeMemory
        ensures { result ≡ memory_after self before.now after.now }
    {
        AcknowledgeMemory {
            transfer: self.transfer.tracked(before, after),
            answered_by_dtack: after.level(Line::AS).is_low()
                && (self.answered_by_dtack || answers_by_dtack(self.transfer, before, after)),
        }
    }
}

/// The slots that pass an acknowledge on at a step, by their outputs.
#[derive(Drop)]
pub struct PassingSlots {
    /// The first of them.
    pub first: Option<Line>,
    /// The first whose input isn't low.
    pub unasked: Option<Line>,
}

/// Whether a line is the acknowledge output of a slot.
fn is_output(line: Line) -> bool
    ensures { result ≡ is_slot_iack line }
{
    line.is_acknowledge()
}

/// The acknowledge input of the slot that has an acknowledge output.
fn input_of(output: Line) -> Line
    requires { IsTrue (is_slot_iack output) }
    ensures { result ≡ input_line output }
{
    match output.number() - Line::iack(1).number() {
        0 => Line::IACK,
        slot => Line::iack(slot),
    }
}

/// Whether the backplane has a line, and it falls. Few lines are tested, so this isn't inlined: that keeps the search
/// among the changes short.
#[cold]
#[inline(never)]
fn is_there_and_falls(before: &Lines, after: &Lines, line: Line) -> bool
    ensures { result
        ≡ (has_line before.now.slots line && has_line after.now.slots line && falls_between before.now after.now line) }
{
    before.has(line) && after.has(line) && falls(before, after, line)
}

/// Whether a line is an acknowledge output that falls.
fn passes_on(before: &Lines, after: &Lines, line: Line) -> bool
    ensures { result ≡ passes before.now after.now line }
{
    is_output(line) && is_there_and_falls(before, after, line)
}

/// Whether a line is an acknowledge output that falls while the slot's input isn't low.
fn passes_on_unasked(before: &Lines, after: &Lines, line: Line) -> bool
    ensures { result ≡ passes_unasked before.now after.now line }
{
    passes_on(before, after, line) && !is_low_near(before, after, input_of(line))
}

/// The first changed line that is an acknowledge output and falls.
fn first_passing(before: &Lines, after: &Lines, changes: &[Change]) -> Option<Line>
    ensures { result ≡ first_changed (passes before.now after.now) changes.now }
{
    for change in changes {
        if passes_on(before, after, change.line) {
            return Some(change.line);
        }
    }
    None
}

/// The first changed line that is an acknowledge output and falls while the slot's input isn't low.
fn first_unasked(before: &Lines, after: &Lines, changes: &[Change]) -> Option<Line>
    ensures { result ≡ first_changed (passes_unasked before.now after.now) changes.now }
{
    for change in changes {
        if passes_on_unasked(before, after, change.line) {
            return Some(change.line);
        }
    }
    None
}

/// The slots that pass an acknowledge on, by the changes of a step.
#[inline(always)]
fn outputs_passing(before: &Lines, after: &Lines, changes: &[Change]) -> PassingSlots
    ensures first { result.first ≡ first_changed (passes before.now after.now) changes.now }
    ensures unasked { result.unasked ≡ first_changed (passes_unasked before.now after.now) changes.now }
{
    let first = first_passing(before, after, changes);
    let unasked = if first.is_some() {
        first_unasked(before, after, changes)
    } else {
        None
    };
    PassingSlots { first, unasked }
}

/// Whether a transfer starts, or the open one closes.
fn changes_strobes(before: &Lines, after: &Lines) -> bool
    ensures { result ≡ changes_strobes_of before.now after.now }
{
    if has_strobes_high(before) {
        has_strobe_low(after)
    } else {
        has_strobes_high(after)
    }
}

/// Whether the memory may change: a transfer starts, is answered or ends, or AS* rises.
fn changes_memory(before: &Lines, after: &Lines) -> bool
    ensures { result ≡ changes_memory_of before.now after.now }
{
    changes_strobes(before, after)
        || answer_falls(before, after)
        || (before.level(Line::AS).is_low() && after.level(Line::AS).is_high())
}

/// Whether AS* and a data strobe are low, each before the step or after it.
fn is_strobed(before: &Lines, after: &Lines) -> bool
    ensures { result ≡ strobed_near before.now after.now }
{
    is_low_near(before, after, Line::AS)
        && (is_low_near(before, after, Line::DS0) || is_low_near(before, after, Line::DS1))
}

/// Whether AS* is low before the step and after it.
fn is_addressed(before: &Lines, after: &Lines) -> bool
    ensures { result ≡ addressed_near before.now after.now }
{
    before.level(Line::AS).is_low() && after.level(Line::AS).is_low()
}

/// Whether a transfer is answered by DTACK*.
#[inline(always)]
fn answers_by_dtack(transfer: TransferPhase, before: &Lines, after: &Lines) -> bool
    ensures { result ≡ is_answered_by_dtack transfer before.now after.now }
{
    falls(before, after, Line::DTACK)
        && matches!(
            transfer.entered(before, after),
            TransferPhase::Reading | TransferPhase::Writing
        )
}

/// The first rule that is broken, on its first line.
#[inline(always)]
fn fault_of(
    memory: AcknowledgeMemory,
    before: &Lines,
    after: &Lines,
    seen: &PassingSlots,
) -> Option<Fault>
    ensures { result ≡ fault_among memory before.now after.now seen.now.unasked seen.now.first }
{
    match (seen.unasked, seen.first) {
        (Some(line), _) => Some(Fault {
            rule: Rule::I1,
            line,
        }),
        (None, Some(line)) => {
            if !is_strobed(before, after) {
                Some(Fault {
                    rule: Rule::I2,
                    line,
                })
            } else if is_addressed(before, after) && memory.answered_by_dtack {
                Some(Fault {
                    rule: Rule::I3,
                    line,
                })
            } else {
                None
            }
        }
        (None, None) => None,
    }
}

/// The rules on how a slot passes an interrupt acknowledge on.
pub struct AcknowledgeRules;

impl Rules for AcknowledgeRules {
    ghost use Rattle.vme_monitor.specs.Run.{no_end_fault, no_start_marks, no_step_marks};
    ghost use Rattle.vme_chains.specs.AcknowledgeRules.{acknowledge_begin, acknowledge_next, acknowledge_observation};

    type Memory = AcknowledgeMemory;

    type Observation = PassingSlots;

    ghost begin = { acknowledge_begin };

    ghost start_marks = { no_start_marks };

    ghost reset_marks = { no_step_marks };

    ghost end_fault = { no_end_fault };

    ghost observation = { acknowledge_observation };

    ghost next = { acknowledge_next };

    fn at_start(_lines: &Lines) -> AcknowledgeMemory {
        AcknowledgeMemory {
            transfer: TransferPhase::Closed,
            answered_by_dtack: false,
        }
    }

    fn shown_at_start(_lines: &Lines) -> StepMarks {
        NOTHING
    }

    fn shown_at_reset() -> StepMarks {
        NOTHING
    }

    fn fault_at_end(_lost: Line) -> Option<Fault> {
        None
    }

    #[inline(always)]
    fn observe(before: &Lines, after: &Lines, changes: &[Change]) -> Option<PassingSlots> {
        let seen = outputs_passing(before, after, changes);
        if seen.first.is_some() || changes_memory(before, after) {
            Some(seen)
        } else {
            None
        }
    }

    #[inline(always)]
    fn step(
        memory: AcknowledgeMemory,
        before: &Lines,
        after: &Lines,
        seen: &PassingSlots,
    ) -> Next<AcknowledgeMemory> {
        Next {
            memory: memory.after(before, after),
            fault: fault_of(memory, before, after, seen),
            shown: NOTHING,
        }
    }
}

/// The monitor of the rules on interrupt acknowledge: IACKOUT* of a slot falls while its input isn't low (I1), while
/// AS* isn't low or neither data strobe is (I2), or after DTACK* answered in the cycle (I3).
pub type Iack = RuleMonitor<AcknowledgeRules>;

/// Over a whole recording, the first break is the least break of I1, I2 and I3, and there are no marks.
pub fn acknowledge_over_recordings()
    ensures first_break { FindsLeast ⟦<Iack as Monitor>⟧.run ⟦<Iack as Monitor>⟧.begin acknowledge_rules }
    ensures marks { ShowsAll ⟦<Iack as Monitor>⟧.run ⟦<Iack as Monitor>⟧.begin no_step_marks acknowledge_shown }
{}

//! The monitor of stability: lines are known when they have to be, and are then held. Its memory (the state of its
//! automaton) is `Holding`.

ghost use Rattle.std.specs.Prelude.{◌≡◌, ◌&&◌};
ghost use Rattle.vme_monitor.specs.Run.{no_step_marks};
ghost use Rattle.vme_monitor.specs.Whole.{FindsLeast, ShowsAll};
ghost use Rattle.vme_trace.specs.declared.rule.Rule.TheVariants.{S3, U4};
ghost use Rattle.vme_dtb.specs.StabilityRules.{answers_in, fault_in, fault_on as fault_on_line, held_fault};
ghost use Rattle.vme_dtb.specs.StabilityRules.{changed_data_fault, keeps_data as keeps_data_in, stability_rules};
ghost use Rattle.vme_dtb.specs.StabilityRules.{passed_in, stability_shown, stepped, undriven_fault, writes_now};

use crate::holding::{Holding, TransferState};
use crate::observation::{HoldingObservation, fault_on};
use vme_monitor::mark::{Fault, NOTHING, Next, StepMarks};
use vme_monitor::monitor::Monitor;
use vme_monitor::over_stretches::{RuleMonitor, Rules};
use vme_trace::edges::{answer_falls, has_strobe_low, has_strobes_high, rises, strobe_rises};
use vme_trace::{Change, Line, Lines, Rule};

/// The rules that lines are known when they have to be (U2 to U4), and are then held (S1 to S3).
pub struct StabilityRules;

impl Holding {
    ghost use Rattle.vme_dtb.specs.StabilityRules.{awaits_answer, keeps_address, keeps_direction};

    /// Whether the answer of a transfer comes.
    #[inline(always)]
    fn is_answer(self, before: &Lines, after: &Lines) -> bool
        ensures { result ≡ answers_in self before.now after.now }
    {
        !self.transfer.was_answered()
            && answer_falls(before, after)
            && (!has_strobes_high(before) || has_strobe_low(after))
    }

    /// Whether a cycle runs that has had no answer, so the lines that it needs are held.
    fn awaits_answer(self, lines: &Lines) -> bool
        ensures { result ≡ awaits_answer self lines.now }
    {
        lines.level(Line::AS).is_low() && !self.cycle_answered
    }

    /// Whether the lines that the cycle needs are still held at the step.
    fn keeps_address(self, before: &Lines, after: &Lines) -> bool
        ensures { result ≡ keeps_address self before.now after.now }
    {
        self.awaits_answer(before)
            && !rises(before, after, Line::AS)
            && !self.is_answer(before, after)
    }

    /// Whether a transfer was open in which no data strobe has risen, so WRITE* is still held.
    fn keeps_direction(self, before: &Lines, after: &Lines) -> bool
        ensures { result ≡ keeps_direction self before.now after.now }
    {
        !has_strobes_high(before) && !self.transfer.has_risen() && !strobe_rises(before, after)
    }

    /// What has happened in the transfer up to the end of a step: mostly no more than before.
    #[inline(always)]
    #[tactic(auto, using(crate::proofs::UnchangedTransferState::passed_unchanged))]
    fn passed(self, before: &Lines, after: &Lines) -> TransferState
        ensures { result ≡ passed_in self before.now after.now }
    {
        if has_strobes_high(after) {
            return TransferState::Fresh;
        }
        let answers = answer_falls(before, after);
        let rises = strobe_rises(before, after);
        if !answers && !rises {
            return self.transfer;
        }
        TransferState::of(
            self.transfer.was_answered() || answers,
            self.transfer.has_risen() || rises,
            self.transfer.writes(before.level(Line::WRITE).is_low()),
        )
    }

    /// The memory after a step.
    #[inline(always)]
    fn after_step(self, before: &Lines, after: &Lines) -> Holding
        ensures { result ≡ stepped self before.now after.now }
    {
        Holding {
            transfer: self.passed(before, after),
            cycle_answered: after.level(Line::AS).is_low()
                && (self.cycle_answered || self.is_answer(before, after)),
        }
    }

    /// The rule S1 or S2, if a change of a held line breaks it.
    #[inline(always)]
    fn broken(self, before: &Lines, after: &Lines, seen: &HoldingObservation) -> Option<Fault>
        ensures { result ≡ held_fault self before.now after.now seen.now }
    {
        if seen.changed_need.is_some() && self.keeps_address(before, after) {
            fault_on(Rule::S1, seen.changed_need)
        } else if seen.turned && self.keeps_direction(before, after) {
            fault_on(Rule::S2, Some(Line::WRITE))
        } else {
            None
        }
    }
}

impl Holding {
    /// Whether a transfer was open that has had no answer and no rising data strobe, also not at the step: the data
    /// lines of a write are still held.
    fn keeps_data(self, before: &Lines, after: &Lines) -> bool
        ensures { result ≡ keeps_data_in self before.now after.now }
    {
        self.keeps_direction(before, after)
            && !self.transfer.was_answered()
            && !answer_falls(before, after)
    }

    /// Whether the transfer after a step is a write that had no answer before.
    fn writes(self, before: &Lines, after: &Lines) -> bool
        ensures { result ≡ writes_now self before.now after.now }
    {
        if has_strobes_high(before) {
            has_strobe_low(after) && after.level(Line::WRITE).is_low()
        } else {
            self.transfer.writes(before.level(Line::WRITE).is_low())
        }
    }

    /// The rule U4 on the data line of a write that isn't known as a strobe falls, if there is one.
    #[inline(always)]
    fn undriven(self, before: &Lines, after: &Lines, seen: &HoldingObservation) -> Option<Fault>
        ensures { result ≡ fault_on_line U4 (undriven_fault self before.now after.now seen.now) }
    {
        match seen.undriven {
            Some(line) => {
                if self.writes(before, after) {
                    Some(Fault {
                        rule: Rule::U4,
                        line,
                    })
                } else {
                    None
                }
            }
            None => None,
        }
    }

    /// The rule S3 on the data line of a write that changes while it is held, if there is one.
    #[inline(always)]
    fn changed_data(self, before: &Lines, after: &Lines, seen: &HoldingObservation) -> Option<Fault>
        ensures { result ≡ fault_on_line S3 (changed_data_fault self before.now after.now seen.now) }
    {
        match seen.changed_data {
            Some(line) => {
                if self.keeps_data(before, after) {
                    Some(Fault {
                        rule: Rule::S3,
                        line,
                    })
                } else {
                    None
                }
            }
            None => None,
        }
    }

    /// The first rule that the step breaks, for any observation. `seen` is taken by value, so that it stays in
    /// registers wherever this isn't called.
    #[cold]
    #[inline(never)]
    fn any_fault(self, before: &Lines, after: &Lines, seen: HoldingObservation) -> Option<Fault>
        ensures { result ≡ fault_in self before.now after.now seen }
    {
        match seen.unknown {
            Some(fault) => Some(fault),
            None => match self.undriven(before, after, &seen) {
                Some(fault) => Some(fault),
                None => match self.broken(before, after, &seen) {
                    Some(fault) => Some(fault),
                    None => self.changed_data(before, after, &seen),
                },
            },
        }
    }

    /// The first rule that the step breaks. Most steps show no unknown line and no changed data
    /// line.
    #[inline(always)]
    fn fault(self, before: &Lines, after: &Lines, seen: &HoldingObservation) -> Option<Fault>
        ensures { result ≡ fault_in self before.now after.now seen.now }
    {
        match (seen.unknown, seen.undriven, seen.changed_data) {
            (None, None, None) => self.broken(before, after, seen),
            _ => self.any_fault(before, after, *seen),
        }
    }
}

impl Rules for StabilityRules {
    ghost use Rattle.vme_monitor.specs.Run.{no_end_fault, no_start_marks, no_step_marks};
    ghost use Rattle.vme_dtb.specs.StabilityRules.{stability_begin, stability_next, stability_observation};

    type Memory = Holding;

    type Observation = HoldingObservation;

    ghost begin = { stability_begin };

    ghost start_marks = { no_start_marks };

    ghost reset_marks = { no_step_marks };

    ghost end_fault = { no_end_fault };

    ghost observation = { stability_observation };

    ghost next = { stability_next };

    fn at_start(_lines: &Lines) -> Holding {
        Holding {
            transfer: TransferState::Fresh,
            cycle_answered: false,
        }
    }

    fn shown_at_start(_lines: &Lines) -> StepMarks {
        NOTHING
    }

    fn shown_at_reset() -> StepMarks {
        NOTHING
    }

    fn fault_at_end(_lost: Line) -> Option<Fault> {
        None
    }

    #[inline(always)]
    fn observe(before: &Lines, after: &Lines, changes: &[Change]) -> Option<HoldingObservation> {
        HoldingObservation::of(before, after, changes)
    }

    #[inline(always)]
    fn step(
        memory: Holding,
        before: &Lines,
        after: &Lines,
        seen: &HoldingObservation,
    ) -> Next<Holding> {
        Next {
            memory: memory.after_step(before, after),
            fault: memory.fault(before, after, seen),
            shown: NOTHING,
        }
    }
}

/// The monitor of the rules U2 (a line that a cycle needs is unknown as AS* falls), U3 (WRITE* is unknown as a transfer
/// starts), U4 (a data line that a write moves is unknown as a data strobe falls), S1 (a line that a cycle needs
/// changes before the first answer of the cycle), S2 (WRITE* changes in a transfer before a data strobe rises) and S3
/// (a data line that a write moves changes before the answer and before a data strobe rises).
pub type Stability = RuleMonitor<StabilityRules>;

/// Over a whole recording, the first break is the least break of U2, U3, U4, S1, S2 and S3, and there are no marks.
pub fn stability_over_recordings()
    ensures first_break { FindsLeast ⟦<Stability as Monitor>⟧.run ⟦<Stability as Monitor>⟧.begin stability_rules }
    ensures marks { ShowsAll ⟦<Stability as Monitor>⟧.run ⟦<Stability as Monitor>⟧.begin no_step_marks stability_shown }
{}

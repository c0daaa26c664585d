//! Bus grants, and the tenures that they lead to (ANSI/IEEE Std 1014-1987, chapter 3: data transfer bus arbitration).

ghost use Rattle.std.specs.Prelude.{◌≡◌, ◌+◌, ◌≤◌, option_map};
ghost use Rattle.vme_trace.specs.LineNumbers.{grant};
ghost use Rattle.vme_trace.specs.Rules.{is_option_equal};
ghost use Rattle.vme_monitor.specs.Run.{no_step_marks};
ghost use Rattle.vme_monitor.specs.Whole.{FindsLeast, ShowsAll};
ghost use Rattle.vme_chains.specs.GrantMarks.{tenures_shown};
ghost use Rattle.vme_chains.specs.GrantRules.{grant_rules, seen_between as seen_between_of, fault_on as fault_on_of};
ghost use Rattle.vme_chains.specs.GrantRules.{line_if as line_if_of, nets_fault as nets_fault_of, slot_of};
ghost use Rattle.vme_chains.specs.GrantRules.{step_fault as step_fault_of, unrequested as unrequested_of};

use crate::grant_levels::{
    falls, first_broken, grant_begins, is_cycle_unowned, is_low, is_ungranted, requested, rises,
    taken_between, touches_arbitration, touches_nets,
};
use crate::grant_memory::{Arbitration, LevelSet};
use vme_monitor::mark::{BusGrant, Fault, NOTHING, Next, StepMarks};
use vme_monitor::monitor::Monitor;
use vme_monitor::over_stretches::{RuleMonitor, Rules};
use vme_trace::{Change, Line, Lines, Rule};

/// What a step shows of grants and tenures, whatever the memory is (the state of the monitor's automaton).
#[derive(Drop)]
pub struct GrantObservation {
    /// What the changes break of the rules G1 to G4.
    pub net_fault: Option<Fault>,
    /// The levels that are requested after the step.
    pub requests: LevelSet,
    /// The arbiter begins to grant some level.
    pub grants: bool,
    /// BBSY* falls.
    pub busy_falls: bool,
    /// BBSY* falls, and no level is granted before the step or after it.
    pub busy_ungranted: bool,
    /// The grant by which BBSY* falls.
    pub tenure: Option<BusGrant>,
    /// BBSY* rises.
    pub busy_rises: bool,
    /// A cycle starts while the bus isn't busy.
    pub cycle_unowned: bool,
}

/// The fault that `rule` is broken on `line`, if there is a line.
fn fault_on(rule: Rule, line: Option<Line>) -> Option<Fault>
    ensures { result ≡ fault_on_of rule line }
{
    match line {
        Some(line) => Some(Fault { rule, line }),
        None => None,
    }
}

/// The line, if a rule is broken on it.
fn line_if(broken: bool, line: Line) -> Option<Line>
    ensures { result ≡ line_if_of broken line }
{
    if broken { Some(line) } else { None }
}

/// The first of the rules G1 to G4 that the changes break.
fn nets_fault(before: &Lines, after: &Lines, changes: &[Change]) -> Option<Fault>
    ensures { result ≡ nets_fault_of before.now after.now changes.now }
{
    if !touches_nets(changes) {
        return None;
    }
    let g1 = fault_on(Rule::G1, first_broken(Rule::G1, before, after, changes));
    let g2 = fault_on(Rule::G2, first_broken(Rule::G2, before, after, changes));
    let g3 = fault_on(Rule::G3, first_broken(Rule::G3, before, after, changes));
    let g4 = fault_on(Rule::G4, first_broken(Rule::G4, before, after, changes));
    g1.or(g2.or(g3.or(g4)))
}

/// The first level that is granted without being requested.
#[tactic(auto, using(vme_trace::proofs::Ranges::searches))]
fn unrequested(before: &Lines, after: &Lines, requests: LevelSet) -> Option<Line>
    ensures { result ≡ option_map (λ n. grant n 0) (unrequested_of before.now after.now requests) }
{
    for level in 0..4 {
        let net = Line::grant(level, 0);
        if falls(before, after, net) && !requests.has(level) {
            return Some(net);
        }
    }
    None
}

/// What a step shows of grants and tenures.
#[inline(always)]
fn seen_between(before: &Lines, after: &Lines, changes: &[Change]) -> GrantObservation
    ensures { result ≡ seen_between_of before.now after.now changes.now }
{
    let busy_falls = falls(before, after, Line::BBSY);
    GrantObservation {
        net_fault: nets_fault(before, after, changes),
        requests: requested(after),
        grants: grant_begins(before, after),
        busy_falls,
        busy_ungranted: busy_falls && is_ungranted(before, after),
        tenure: if busy_falls {
            taken_between(before, after)
        } else {
            None
        },
        busy_rises: rises(before, after, Line::BBSY),
        cycle_unowned: is_cycle_unowned(before, after),
    }
}

impl GrantObservation {
    /// Whether the grant that is taken has gone past the last slot.
    fn is_past_last_slot(&self, slots: u8) -> bool
        requires { slots ≤ 21 }
        ensures { result ≡ is_option_equal (slot_of self.now.tenure) (slots + 1) }
    {
        match &self.tenure {
            Some(taken) => taken.slot == slots + 1,
            None => false,
        }
    }

    /// The first rule that a step breaks. `requests` are the levels requested since the last grant; `granted` says
    /// whether there was a grant since the last fall of BBSY*.
    #[inline(always)]
    fn fault(
        &self,
        before: &Lines,
        after: &Lines,
        requests: LevelSet,
        granted: bool,
    ) -> Option<Fault>
        ensures { result ≡ step_fault_of before.now after.now requests granted self.now }
    {
        let g5_line = if self.grants {
            unrequested(before, after, requests)
        } else {
            None
        };
        let b1_line = line_if(self.busy_ungranted, Line::BBSY);
        let b2_line = line_if(self.busy_falls && !granted, Line::BBSY);
        let b3_line = line_if(self.cycle_unowned, Line::AS);
        let b4_line = line_if(self.is_past_last_slot(after.slots()), Line::BBSY);
        let b3_or_b4 = fault_on(Rule::B3, b3_line).or(fault_on(Rule::B4, b4_line));
        let b1_to_b4 = fault_on(Rule::B1, b1_line).or(fault_on(Rule::B2, b2_line).or(b3_or_b4));
        self.net_fault.or(fault_on(Rule::G5, g5_line).or(b1_to_b4))
    }
}

/// The rules of grants and tenures. A slot's grant output falls only while its input is low, and rises only while its
/// input is high (G1, G2). The arbiter grants one level at a time, while the bus isn't busy, after a request since the
/// grant before (G3 to G5). The bus becomes busy by a grant, each grant makes it so once, and a grant doesn't go past
/// the last slot (B1, B2, B4). A cycle starts only while the bus is busy (B3).
pub struct GrantRules;

impl Rules for GrantRules {
    ghost use Rattle.vme_monitor.specs.Run.{no_end_fault, no_step_marks};
    ghost use Rattle.vme_chains.specs.GrantRules.{grant_begin, grant_next, grant_observation, grant_start_marks};

    type Memory = Arbitration;

    type Observation = GrantObservation;

    ghost begin = { grant_begin };

    ghost start_marks = { grant_start_marks };

    ghost reset_marks = { no_step_marks };

    ghost end_fault = { no_end_fault };

    ghost observation = { grant_observation };

    ghost next = { grant_next };

    fn at_start(lines: &Lines) -> Arbitration {
        Arbitration {
            requests: requested(lines),
            granted: false,
        }
    }

    fn shown_at_start(lines: &Lines) -> StepMarks {
        StepMarks {
            opened: is_low(lines, Line::BBSY),
            ..NOTHING
        }
    }

    fn shown_at_reset() -> StepMarks {
        NOTHING
    }

    fn fault_at_end(_lost: Line) -> Option<Fault> {
        None
    }

    #[inline(always)]
    fn observe(before: &Lines, after: &Lines, changes: &[Change]) -> Option<GrantObservation> {
        if touches_arbitration(changes) || is_cycle_unowned(before, after) {
            Some(seen_between(before, after, changes))
        } else {
            None
        }
    }

    #[inline(always)]
    fn step(
        memory: Arbitration,
        before: &Lines,
        after: &Lines,
        seen: &GrantObservation,
    ) -> Next<Arbitration> {
        let requests = memory.requests.union(seen.requests);
        let granted = memory.granted || seen.grants;
        Next {
            memory: Arbitration {
                requests: if seen.grants { seen.requests } else { requests },
                granted: !seen.busy_falls && granted,
            },
            fault: seen.fault(before, after, requests, granted),
            shown: StepMarks {
                tenure: seen.tenure,
                tenure_end: seen.busy_rises,
                ..NOTHING
            },
        }
    }
}

/// The monitor of grants and tenures.
pub type Grant = RuleMonitor<GrantRules>;

/// Over a whole recording, the first break is the least break of the rules G1 to G5 and B1 to B4, and the marks are the
/// tenures: one that is open at the start, each start with its level and slot, and each end.
pub fn grants_over_recordings()
    ensures first_break { FindsLeast ⟦<Grant as Monitor>⟧.run ⟦<Grant as Monitor>⟧.begin grant_rules }
    ensures marks { ShowsAll ⟦<Grant as Monitor>⟧.run ⟦<Grant as Monitor>⟧.begin no_step_marks tenures_shown }
{}

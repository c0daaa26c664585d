//! The breaks of a recording as its steps come, and how they count.

ghost use Rattle.std.specs.Prelude.{◌≡◌, ◌-◌, ◌^◌, ◌≤◌, [], ◌∷◌, ◌++◌, length, None, IfOk, IfSome, OnErr, OnOk};
ghost use Rattle.std.specs.Prelude.{option_map};
ghost use Rattle.std.specs.Option.{option_to_list};
ghost use Rattle.vme_trace.specs.Followed.{with_steps};
ghost use Rattle.vme_trace.specs.WellFormed.{malformed_step};
ghost use Rattle.vme_audit.specs.Covered.{outcome as outcome_of};
ghost use Rattle.vme_audit.specs.Parts.{breaks};
ghost use Rattle.vme_auditor.specs.Breaks.{as_break};
ghost use Rattle.vme_auditor.specs.Findings.{AreBreakCountsOf, AreFindingsOf};
ghost use Rattle.vme_audit_lines.specs.AuditLines.{category_of};
ghost use Rattle.vme_step_auditor.specs.ReadBy.{has_stopped, read_of, stops_by};
ghost use Rattle.vme_step_auditor.specs.Counting.{faults_counted, found_break};

use crate::categorized_break::{CategorizedBreak, count};
use std::marker::Model;
use vme_audit::{Allowance, Outcome};
use vme_audit_lines::BreakCategory;
use vme_auditor::{AuditFindings, Auditor, BreakCounts, TooManySteps, breaks_grow, outcome};
use vme_summary::GhostSteps;
use vme_trace::{Lines, Step};

/// How the breaks of a recording count, and how far the recording is read.
#[derive(Clone, Copy, Debug)]
pub struct AuditRules<'a> {
    /// The allowed deviations.
    pub allowances: &'a [Allowance],
    /// The number of breaks that aren't allowed after which nothing more is read, or `None` to read everything. 0 has
    /// the effect of 1.
    pub stop: Option<u64>,
}

/// Finds the breaks of a recording as its steps come, and how they count. No step is kept.
#[derive(Drop)]
pub struct StepAuditor<'a> {
    rules: AuditRules<'a>,
    opening: Lines,
    auditor: Auditor,
    counts: BreakCounts,
    given: GhostSteps,
}

impl<'a> Model for StepAuditor<'a> {
    ghost use Rattle.vme_step_auditor.specs.ReadBy.{GivenSteps};
    ghost use Rattle.vme_step_auditor.specs.AuditedSteps.{HasAuditedSteps};

    ghost Value = { GivenSteps };

    ghost view = { λ a. record {
      allowances = a.rules.allowances.now;
      stop = a.rules.stop;
      recording = record { opening = a.opening; steps = a.given.items };
    } };

    ghost invariant = { λ a. HasAuditedSteps a.rules.allowances.now a.rules.stop
        (record { opening = a.opening; steps = a.given.items }) a.auditor a.counts };
}

/// Whether an audit stops after these breaks.
fn stops(stop: Option<u64>, counts: BreakCounts) -> bool
    requires { faults_counted counts ≤ 2 ^ 64 - 1 }
    ensures { result ≡ stops_by stop (faults_counted counts) }
{
    match stop {
        Some(count) => count.saturating_sub(1) < counts.broken + counts.unreadable,
        None => false,
    }
}

impl<'a> StepAuditor<'a> {
    /// The auditor before the first step.
    pub fn new(opening: &Lines, rules: AuditRules<'a>) -> StepAuditor<'a>
        ensures given { result ≡ record {
          allowances = rules.entry.allowances.now;
          stop = rules.entry.stop;
          recording = record { opening = opening.now; steps = [] };
        } }
        ensures nothing { breaks (read_of result) ≡ [] }
    {
        prove!(opening.slots() <= 21);
        breaks_grow();
        StepAuditor {
            rules,
            opening: *opening,
            auditor: Auditor::new(opening),
            counts: BreakCounts::default(),
            given: GhostSteps::new(),
        }
    }

    /// Takes the next step, and returns the break that it makes, if any. Once the audit is stopped, it returns no
    /// break. It fails if 2^64 - 1 steps were taken, and then stays as it was.
    pub fn take(&mut self, step: &Step) -> Result<Option<CategorizedBreak>, TooManySteps>
        ensures given { OnOk result (self.new
            ≡ record self.old { recording = with_steps self.old.recording (step.now ∷ []) }) }
        ensures told { malformed_step self.new.recording ≡ None
            → IfOk result (λ found. breaks (read_of self.new)
            ≡ breaks (read_of self.old) ++ option_to_list (option_map found_break found)) }
        ensures category { IfOk result (λ found. IfSome found (λ s.
            s.category ≡ category_of self.old.allowances (as_break s.found))) }
        ensures too_many { OnErr result (length self.old.recording.steps ≡ 2 ^ 64 - 1) }
        ensures stays { OnErr result (self.new ≡ self.old) }
    {
        prove!(self.opening.slots() <= 21);
        breaks_grow();
        let given = self.given.and(step);
        if stops(self.rules.stop, self.counts) {
            self.given = given;
            return Ok(None);
        }
        let found = self.auditor.step(step)?;
        self.given = given;
        match found {
            Some(found) => {
                let category = BreakCategory::of(self.rules.allowances, &found);
                count(&mut self.counts, category);
                Ok(Some(CategorizedBreak { category, found }))
            }
            None => Ok(None),
        }
    }

    /// Whether so many breaks were found that the audit has ended. Then it ignores further steps.
    pub fn is_stopped(&self) -> bool
        ensures { malformed_step self.now.recording ≡ None → result ≡ has_stopped self.now }
    {
        stops(self.rules.stop, self.counts)
    }

    /// The numbers of breaks of what is read.
    pub fn break_counts(&self) -> BreakCounts
        ensures { malformed_step self.now.recording ≡ None
            → AreBreakCountsOf result self.now.allowances (read_of self.now) }
    {
        self.counts
    }

    /// What was found of what is read.
    pub fn audited(&self) -> AuditFindings
        ensures { malformed_step self.now.recording ≡ None → AreFindingsOf result (read_of self.now) }
    {
        self.auditor.audited()
    }

    /// The outcome of the audit, where at least `wanted` answered transfers are required.
    pub fn outcome(&self, wanted: u64) -> Outcome
        ensures { malformed_step self.now.recording ≡ None
            → result ≡ outcome_of self.now.allowances wanted (read_of self.now) }
    {
        outcome(&self.audited(), self.break_counts(), wanted)
    }
}

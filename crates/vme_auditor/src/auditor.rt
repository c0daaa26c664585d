//! All breaks of a recording, as its steps come.

ghost use Rattle.std.specs.Prelude.{◌≡◌, ◌↔◌, ◌+◌, ◌-◌, ◌^◌, [], ◌∷◌, ◌++◌, None, Err, IfOk, OnErr, OnOk, length};
ghost use Rattle.std.specs.Prelude.{option_map};
ghost use Rattle.std.specs.Option.{option_to_list};
ghost use Rattle.vme_trace.specs.Followed.{with_steps};
ghost use Rattle.vme_trace.specs.WellFormed.{malformed_step};
ghost use Rattle.vme_audit.specs.Parts.{breaks};
ghost use Rattle.vme_auditor.specs.Breaks.{as_break};
ghost use Rattle.vme_auditor.specs.Findings.{AreFindingsOf};

use crate::audit::Audit;
use crate::audit_break::AuditBreak;
use crate::findings::AuditFindings;
use crate::laws::{first_break_is_found, marks_are_found};
use crate::tally::StartedTransfer;
use std::marker::Model;
use vme_monitor::known::known_over_recordings;
use vme_monitor::view::StepView;
use vme_summary::GhostSteps;
use vme_trace::{Lines, Step};

/// There are more than 18,446,744,073,709,551,615 steps.
#[derive(Clone, Copy, Debug, PartialEq, Eq)]
pub struct TooManySteps;

/// Finds all breaks of a recording, and its coverage, as its steps come. No step is kept.
#[derive(Drop)]
pub struct Auditor {
    opening: Lines,
    /// The number of steps so far.
    steps: u64,
    /// The levels after these steps, on both sides.
    view: StepView,
    audit: Audit,
    taken: GhostSteps,
}

impl Model for Auditor {
    ghost use Rattle.vme_trace.specs.Trace.{Trace};
    ghost use Rattle.vme_auditor.specs.Audited.{HasAudited};

    ghost Value = { Trace };

    ghost view = { λ a. record { opening = a.opening; steps = a.taken.items } };

    ghost invariant = { λ a. HasAudited a.opening a.taken.items a.steps a.view a.audit };
}

/// The instant and the time at which `transfer` starts.
fn start_of(transfer: Option<StartedTransfer>) -> Option<(u64, u64)>
    ensures { result ≡ option_map (λ s. (s.instant, s.time)) transfer }
{
    match transfer {
        Some(started) => Some((started.instant, started.time)),
        None => None,
    }
}

impl Auditor {
    /// The auditor before the first step.
    pub fn new(opening: &Lines) -> Auditor
        ensures { result ≡ record { opening = opening.now; steps = [] } }
    {
        Auditor {
            opening: *opening,
            steps: 0,
            view: StepView::new(opening),
            audit: Audit::at(opening),
            taken: GhostSteps::new(),
        }
    }

    /// Takes the next step, and returns the break that it makes, if any. It fails if 2^64 - 1 steps were taken, and
    /// then stays as it was.
    pub fn step(&mut self, step: &Step) -> Result<Option<AuditBreak>, TooManySteps>
        ensures recorded { OnOk result (self.new ≡ with_steps self.old (step.now ∷ [])) }
        ensures told { malformed_step self.new ≡ None
            → IfOk result (λ found. breaks self.new
            ≡ breaks self.old ++ option_to_list (option_map as_break found)) }
        ensures too_many { (result ≡ Err (record {})) ↔ (length self.old.steps ≡ 2 ^ 64 - 1) }
        ensures stays { OnErr result (self.new ≡ self.old) }
    {
        prove!(self.opening.slots() <= 21);
        first_break_is_found();
        let Some(instant) = self.steps.checked_add(1) else {
            return Err(TooManySteps);
        };
        let taken = self.taken.and(step);
        let changes = step.changes.as_slice();
        self.view.go_to(changes);
        let found = self.audit.go_on(&self.view, changes, instant, step.time);
        self.view.go_past(changes);
        self.steps = instant;
        self.taken = taken;
        Ok(found)
    }

    /// What was found of the recording, if it ends here.
    pub fn audited(&self) -> AuditFindings
        ensures { malformed_step self.now ≡ None → AreFindingsOf result self.now }
    {
        prove!(self.opening.slots() <= 21);
        prove!(self.steps <= u64::MAX);
        first_break_is_found();
        marks_are_found();
        known_over_recordings();
        AuditFindings {
            counts: self.audit.tally.counts(),
            events: self.audit.events,
            is_judged: self.audit.memories.have_started(),
            last_break: self.audit.last_break,
            hang: start_of(self.audit.tally.hang()),
        }
    }
}

//! Summaries of steps by all monitors. This is the only place that knows which monitors there are.

ghost use Rattle.std.specs.Prelude.{◌≡◌, ◌+◌, ◌^◌, ◌<◌, ◌≤◌, ◌∷◌, ◌++◌, List, [], length, IfOk};
ghost use Rattle.vme_trace.specs.Levels.{Levels};
ghost use Rattle.vme_trace.specs.Judged.{has_any_stretch, judged_stretches};
ghost use Rattle.vme_trace.specs.Trace.{Trace, levels_after};
ghost use Rattle.vme_trace.specs.declared.step.Step.{Step};
ghost use Rattle.vme_monitor.specs.StepRuns.{seen_in};
ghost use Rattle.vme_summary.specs.AllShown.{all_marks};
ghost use Rattle.vme_summary.specs.HasRoom.{HasRoom};
ghost use Rattle.vme_summary.specs.Advancing.{IsAdvancedTo};
ghost use Rattle.vme_summary.specs.Progressed.{FoundAfter, HasFound, HasFoundAll};
ghost use Rattle.vme_summary.specs.Summaries.{first_break_of, StandAlike, StandsForAll, SummaryFindsFor};
ghost use Rattle.vme_summary.specs.Summaries.{SummaryStandsFor, SummaryStandsForBoth, summary_steps};

use crate::each_monitor::summarise_monitors;
use crate::monitor_states::{MonitorState, MonitorStates, advance};
use crate::summary::{MonitorSummaries, Room};
use std::alloc::{AllocError, Global};
use vme_chains::acknowledge::{AcknowledgeRules, Iack, acknowledge_over_recordings};
use vme_chains::grant::{Grant, GrantRules, grants_over_recordings};
use vme_dtb::handshake::{Dtb, HandshakeRules, handshake_over_recordings};
use vme_dtb::stability::{Stability, StabilityRules, stability_over_recordings};
use vme_monitor::both::{least, marks_together};
use vme_monitor::known::{Known, KnownRules, known_over_recordings};
use vme_monitor::mark::Mark;
use vme_monitor::monitor::Monitor;
use vme_monitor::over_stretches::phase_at;
use vme_monitor::table::Table;
use vme_monitor::view::StepView;
use vme_monitor::without_marks::BreakMonitor;
use vme_trace::{Break, Lines, Step};

impl MonitorSummaries {
    /// The summary of steps after an opening, and the lines that the last one leaves.
    pub(crate) fn of_steps(
        alloc: Global,
        opening: &Lines,
        steps: &[Step],
    ) -> Result<(MonitorSummaries, Lines), AllocError>
        requires few { length steps.now ≤ 268435456 }
        ensures stands { IfOk result (λ made. SummaryStandsFor made.0 opening.now steps.now) }
        ensures left { IfOk result (λ made. made.1 ≡ levels_after opening.now steps.now) }
    {
        let (summaries, left) = summarise_monitors::<Known, Dtb, Stability, Grant, Iack>(
            alloc, opening, steps,
        )?;
        Ok((
            MonitorSummaries {
                known: summaries.known,
                handshake: summaries.handshake,
                stability: summaries.stability,
                grant: summaries.grant,
                acknowledge: summaries.acknowledge,
            },
            left,
        ))
    }

    /// The summary without marks of steps after an opening, and the lines that the last one leaves.
    pub(crate) fn without_marks(
        alloc: Global,
        opening: &Lines,
        steps: &[Step],
    ) -> Result<(MonitorSummaries, Lines), AllocError>
        requires few { length steps.now ≤ 268435456 }
        ensures finds { IfOk result (λ made. SummaryFindsFor made.0 opening.now steps.now) }
        ensures left { IfOk result (λ made. made.1 ≡ levels_after opening.now steps.now) }
    {
        let (summaries, left) = summarise_monitors::<
            BreakMonitor<KnownRules>,
            BreakMonitor<HandshakeRules>,
            BreakMonitor<StabilityRules>,
            BreakMonitor<GrantRules>,
            BreakMonitor<AcknowledgeRules>,
        >(alloc, opening, steps)?;
        Ok((
            MonitorSummaries {
                known: summaries.known,
                handshake: summaries.handshake,
                stability: summaries.stability,
                grant: summaries.grant,
                acknowledge: summaries.acknowledge,
            },
            left,
        ))
    }

    /// How many steps the summary covers.
    pub(crate) fn steps(&self) -> u32
        ensures { result ≡ summary_steps self.now }
    {
        self.known.steps()
    }

    /// The summary of the steps of `first` and then those of `second`.
    pub(crate) fn compose(
        alloc: Global,
        first: &MonitorSummaries,
        second: &MonitorSummaries,
    ) -> Result<MonitorSummaries, AllocError>
        requires { summary_steps first.now + summary_steps second.now ≤ 268435456 }
        ensures steps { IfOk result (λ s. summary_steps s ≡ summary_steps first.now + summary_steps second.now) }
        ensures stands { IfOk result (SummaryStandsForBoth first.now second.now) }
    {
        let known = Table::compose(alloc, &first.known, &second.known)?;
        let handshake = Table::compose(alloc, &first.handshake, &second.handshake)?;
        let stability = Table::compose(alloc, &first.stability, &second.stability)?;
        let grant = Table::compose(alloc, &first.grant, &second.grant)?;
        let acknowledge = Table::compose(alloc, &first.acknowledge, &second.acknowledge)?;
        Ok(MonitorSummaries {
            known,
            handshake,
            stability,
            grant,
            acknowledge,
        })
    }

    /// Allocates all that `append_in` needs. The summary stands for the same steps as before, after an error too.
    pub(crate) fn make_room(
        &mut self,
        alloc: Global,
        second: &MonitorSummaries,
    ) -> Result<Room, AllocError>
        ensures stands { StandAlike self.old self.new }
        ensures steps { summary_steps self.new ≡ summary_steps self.old }
        ensures room { IfOk result (λ room. HasRoom room self.new second.now) }
    {
        let known = self.known.make_room(alloc, &second.known)?;
        let handshake = self.handshake.make_room(alloc, &second.handshake)?;
        let stability = self.stability.make_room(alloc, &second.stability)?;
        let grant = self.grant.make_room(alloc, &second.grant)?;
        let acknowledge = self.acknowledge.make_room(alloc, &second.acknowledge)?;
        Ok(Room {
            known,
            handshake,
            stability,
            grant,
            acknowledge,
        })
    }

    /// The summary of the steps of `self` and then those of `second`, which are both consumed: their tables are moved,
    /// not copied. Allocates nothing.
    pub(crate) fn append_in(self, room: Room, second: MonitorSummaries) -> MonitorSummaries
        requires few { summary_steps self + summary_steps second ≤ 268435456 }
        requires room { HasRoom room self second }
        ensures steps { summary_steps result ≡ summary_steps self + summary_steps second }
        ensures stands { SummaryStandsForBoth self second result }
    {
        MonitorSummaries {
            known: self.known.append_in(room.known, second.known),
            handshake: self.handshake.append_in(room.handshake, second.handshake),
            stability: self.stability.append_in(room.stability, second.stability),
            grant: self.grant.append_in(room.grant, second.grant),
            acknowledge: self
                .acknowledge
                .append_in(room.acknowledge, second.acknowledge),
        }
    }

    /// The states of the monitors that begin at `opening`, after the steps.
    pub(crate) fn found_from(&self, opening: &Lines) -> MonitorStates
        ensures { (x : List Step) → SummaryFindsFor self.now opening.now x → HasFound result opening.now x }
    {
        prove!(self.steps() <= u32::MAX);
        self.found_after(&MonitorStates::at(opening), 0)
    }

    /// The states of the monitors after the steps, if `before` are their states after `steps` earlier ones.
    pub(crate) fn found_after(&self, before: &MonitorStates, steps: u32) -> MonitorStates
        requires { steps + summary_steps self.now < 2 ^ 32 }
        ensures { FoundAfter before.now steps self.now result }
    {
        MonitorStates {
            known: before.known.after(&self.known, steps),
            handshake: before.handshake.after(&self.handshake, steps),
            stability: before.stability.after(&self.stability, steps),
            grant: before.grant.after(&self.grant, steps),
            acknowledge: before.acknowledge.after(&self.acknowledge, steps),
        }
    }

    /// The marks of a recording that has these steps after `opening`, whether a rule is broken or not.
    pub(crate) fn marks(&self, alloc: Global, opening: &Lines) -> Result<Vec<Mark>, AllocError>
        ensures { IfOk result (λ marks. (t : Trace) → StandsForAll self.now opening.now t → marks.items ≡ all_marks t) }
    {
        known_over_recordings();
        handshake_over_recordings();
        stability_over_recordings();
        grants_over_recordings();
        acknowledge_over_recordings();
        let known = self.known.marks(alloc, Known::start(opening))?;
        let handshake = self.handshake.marks(alloc, Dtb::start(opening))?;
        let stability = self.stability.marks(alloc, Stability::start(opening))?;
        let grant = self.grant.marks(alloc, Grant::start(opening))?;
        let acknowledge = self.acknowledge.marks(alloc, Iack::start(opening))?;
        let chains = marks_together(alloc, grant, acknowledge)?;
        let held = marks_together(alloc, stability, chains)?;
        let started = marks_together(alloc, handshake, held)?;
        marks_together(alloc, known, started)
    }
}

impl MonitorStates {
    /// The states of the monitors that begin at `opening`, before any step.
    pub(crate) fn at(opening: &Lines) -> MonitorStates
        ensures { HasFound result opening.now [] }
    {
        MonitorStates {
            known: MonitorState::at(phase_at::<KnownRules>(opening)),
            handshake: MonitorState::at(phase_at::<HandshakeRules>(opening)),
            stability: MonitorState::at(phase_at::<StabilityRules>(opening)),
            grant: MonitorState::at(phase_at::<GrantRules>(opening)),
            acknowledge: MonitorState::at(phase_at::<AcknowledgeRules>(opening)),
        }
    }

    /// Advances the monitors by the next step, at its instant after the opening.
    #[inline(always)]
    pub(crate) fn advance(&mut self, view: &StepView, step: &Step, instant: u32)
        requires { view.now ≡ seen_in view.now.before step.now.changes }
        ensures { (o : Levels) (x : List Step) → IsAdvancedTo o x view.now.before instant
            → HasFound self.old o x → HasFound self.new o (x ++ step.now ∷ []) }
    {
        let changes = step.changes.as_slice();
        let time = step.time;
        advance::<KnownRules>(&mut self.known, view, changes, time, instant);
        advance::<HandshakeRules>(&mut self.handshake, view, changes, time, instant);
        advance::<StabilityRules>(&mut self.stability, view, changes, time, instant);
        advance::<GrantRules>(&mut self.grant, view, changes, time, instant);
        advance::<AcknowledgeRules>(&mut self.acknowledge, view, changes, time, instant);
    }

    /// Whether anything of a recording is judged, if the monitors have been advanced by all its steps.
    pub(crate) fn has_judged(&self) -> bool
        ensures { (t : Trace) → HasFoundAll self.now t → result ≡ has_any_stretch (judged_stretches t) }
    {
        known_over_recordings();
        Known::started(self.known.memory)
    }

    /// The first break of a recording, if the monitors have been advanced by all its steps.
    pub(crate) fn first_break(&self) -> Option<Break>
        ensures { (t : Trace) → HasFoundAll self.now t → result ≡ first_break_of t }
    {
        known_over_recordings();
        handshake_over_recordings();
        stability_over_recordings();
        grants_over_recordings();
        acknowledge_over_recordings();
        let chains = least(self.grant.first_break, self.acknowledge.first_break);
        let held = least(self.stability.first_break, chains);
        let started = least(self.handshake.first_break, held);
        least(self.known.first_break, started)
    }
}

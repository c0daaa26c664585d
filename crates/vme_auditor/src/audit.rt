//! The state of an audit.

ghost use Rattle.std.specs.Prelude.{◌≡◌, option_map};
ghost use Rattle.vme_monitor.specs.Run.{break_of_fault};
ghost use Rattle.vme_monitor.specs.StepRuns.{seen_in};
ghost use Rattle.vme_auditor.specs.Audited.{begun_at, ended_with, events_by, restarted, stepped};
ghost use Rattle.vme_auditor.specs.Breaks.{as_break};
ghost use Rattle.vme_auditor.specs.Memories.{fault_at};

use crate::asked::AskedEvents;
use crate::audit_break::AuditBreak;
use crate::memories::{AllShown, Memories};
use crate::tally::Tally;
use vme_dtb::memory::HandshakeMemory;
use vme_monitor::mark::Fault;
use vme_monitor::over_stretches::StretchPhase;
use vme_monitor::view::StepView;
use vme_trace::{Change, Lines};

/// An audit so far.
#[derive(Clone, Copy, Debug, PartialEq, Eq)]
pub(crate) struct Audit {
    /// The memories of the monitors.
    pub memories: Memories,
    /// What was counted.
    pub tally: Tally,
    /// Which events happened.
    pub events: AskedEvents,
    /// The instant of the last break, if there was one.
    pub last_break: Option<u64>,
}

impl Audit {
    /// The audit before the first step.
    pub fn at(opening: &Lines) -> Audit
        ensures { result ≡ begun_at opening.now }
    {
        let memories = Memories::at(opening);
        let mut events = AskedEvents::none();
        events.stretch = memories.have_started();
        Audit {
            memories,
            tally: Tally::new(),
            events,
            last_break: None,
        }
    }

    /// Advances past a step, at its instant and its time in the unit of the recording. Returns the break that the step
    /// makes, if any, and then judging starts anew.
    pub fn go_on(
        &mut self,
        view: &StepView,
        changes: &[Change],
        instant: u64,
        time: u64,
    ) -> Option<AuditBreak>
        requires { view.now ≡ seen_in view.now.before changes.now }
        ensures audit { self.new ≡ stepped self.old view.now.before view.now.after changes.now instant time }
        ensures found { option_map as_break result
            ≡ fault_at self.old.memories view.now.before view.now.after changes.now instant time }
    {
        let entered = self.memories.handshake;
        let shown = self.memories.go_on(view, changes);
        self.take_events(entered, view, changes, &shown);
        self.end_step(&view.after, instant, time, &shown)
    }

    /// Adds the events of a step, if its instant is judged.
    fn take_events(
        &mut self,
        entered: StretchPhase<HandshakeMemory>,
        view: &StepView,
        changes: &[Change],
        shown: &AllShown,
    )
        ensures { self.new ≡ record self.old {
          events = events_by self.old.events entered view.now.end view.now.before
              view.now.after changes.now shown.now.stretch shown.now.transfer;
        } }
    {
        if let StretchPhase::InStretch(memory) = entered {
            if view.end.is_none() {
                self.events.take(memory, &view.before, &view.after, changes, &shown.transfer);
            }
        }
        self.events.stretch = self.events.stretch || shown.stretch.start;
    }

    /// Counts what happens at a step, or starts judging anew if the step breaks a rule.
    fn end_step(
        &mut self,
        after: &Lines,
        instant: u64,
        time: u64,
        shown: &AllShown,
    ) -> Option<AuditBreak>
        ensures audit { self.new ≡ ended_with self.old after.now instant time shown.now.stretch shown.now.tenure
            shown.now.transfer shown.now.fault }
        ensures found { option_map as_break result ≡ option_map (break_of_fault instant time) shown.now.fault }
    {
        match shown.fault {
            Some(Fault { rule, line }) => {
                self.restart(after, instant);
                Some(AuditBreak {
                    instant,
                    time,
                    rule,
                    line,
                })
            }
            None => {
                self.tally.take(
                    instant,
                    time,
                    &shown.stretch,
                    &shown.tenure,
                    &shown.transfer,
                );
                None
            }
        }
    }

    /// Judging starts anew at the break at `instant`: what the bus did before is forgotten.
    fn restart(&mut self, after: &Lines, instant: u64)
        ensures { self.new ≡ restarted self.old after.now instant }
    {
        self.memories = Memories::at(after);
        self.events.stretch = self.events.stretch || self.memories.have_started();
        self.tally.end_at_break();
        self.last_break = Some(instant);
    }
}

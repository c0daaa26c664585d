//! Which of the events happened without which a rule can't be broken.

ghost use Rattle.std.specs.Prelude.{◌≡◌};
ghost use Rattle.vme_auditor.specs.Events.{answers_taken, asks_by, at_step, cycle_taken, further_taken};
ghost use Rattle.vme_auditor.specs.Events.{is_interrupt_entered as is_interrupt_entered_by, net_falls as net_falls_of};
ghost use Rattle.vme_auditor.specs.Events.{net_rises as net_rises_of, net_taken, nets_taken, nothing_happened};
ghost use Rattle.vme_auditor.specs.Events.{strobes_taken};

use vme_dtb::cycle::CyclePhase;
use vme_dtb::memory::HandshakeMemory;
use vme_monitor::mark::StepMarks;
use vme_monitor::tracking::TransferPhase;
use vme_trace::edges::{answer_falls, falls, rises, strobe_falls, strobe_rises};
use vme_trace::{Change, Class, Line, Lines, Rule};

/// Which events happened at judged instants. A rule whose event never happens can't be broken.
#[derive(Clone, Copy, Debug, PartialEq, Eq)]
pub struct AskedEvents {
    /// Judging starts.
    pub stretch: bool,
    /// A cycle starts.
    pub cycle: bool,
    /// AS* rises.
    pub cycle_end: bool,
    /// A transfer starts.
    pub transfer: bool,
    /// A transfer starts, and it is a write.
    pub write: bool,
    /// A strobe rises in a transfer that started before.
    pub strobe_rise: bool,
    /// A strobe falls in a transfer that started before.
    pub strobe_fall: bool,
    /// DTACK* or BERR* falls.
    pub answer_fall: bool,
    /// DTACK* or BERR* rises.
    pub answer_rise: bool,
    /// A transfer is answered.
    pub answer: bool,
    /// A further transfer of a single cycle is answered.
    pub single_again: bool,
    /// A further transfer of a block transfer is answered.
    pub block_again: bool,
    /// A transfer of an interrupt acknowledge is answered.
    pub interrupt: bool,
    /// A further transfer of an interrupt acknowledge is answered.
    pub interrupt_again: bool,
    /// A slot starts to pass a grant on.
    pub slot_grant_fall: bool,
    /// A slot stops passing a grant on.
    pub slot_grant_rise: bool,
    /// The arbiter grants.
    pub arbiter_fall: bool,
    /// BBSY* falls.
    pub tenure: bool,
    /// A slot passes an acknowledge on.
    pub acknowledge_fall: bool,
}

/// Whether a net of a daisy chain falls.
fn net_falls(before: &Lines, after: &Lines, net: Line) -> bool
    ensures { result ≡ net_falls_of before.now after.now net }
{
    before.has(net) && after.has(net) && falls(before, after, net)
}

/// Whether a net of a daisy chain rises.
fn net_rises(before: &Lines, after: &Lines, net: Line) -> bool
    ensures { result ≡ net_rises_of before.now after.now net }
{
    before.has(net) && after.has(net) && rises(before, after, net)
}

/// Whether an answer at a step is in an interrupt acknowledge cycle. `cycle` is the phase before the step.
fn is_interrupt_entered(cycle: CyclePhase, shown: &StepMarks) -> bool
    ensures { result ≡ is_interrupt_entered_by cycle shown.now.cycle }
{
    match shown.cycle {
        Some(start) => matches!(start.class, Class::I),
        None => matches!(cycle, CyclePhase::Interrupt | CyclePhase::InterruptDone),
    }
}

impl AskedEvents {
    /// No event happened.
    pub(crate) fn none() -> AskedEvents
        ensures { result ≡ nothing_happened }
    {
        AskedEvents {
            stretch: false,
            cycle: false,
            cycle_end: false,
            transfer: false,
            write: false,
            strobe_rise: false,
            strobe_fall: false,
            answer_fall: false,
            answer_rise: false,
            answer: false,
            single_again: false,
            block_again: false,
            interrupt: false,
            interrupt_again: false,
            slot_grant_fall: false,
            slot_grant_rise: false,
            arbiter_fall: false,
            tenure: false,
            acknowledge_fall: false,
        }
    }

    /// Adds the events of a step to a judged instant. `entered` is the memory of the handshake before the step, and
    /// `shown` has the marks of its cycle and transfer.
    pub(crate) fn take(
        &mut self,
        entered: HandshakeMemory,
        before: &Lines,
        after: &Lines,
        changes: &[Change],
        shown: &StepMarks,
    )
        ensures { self.new ≡ at_step self.old entered before.now after.now changes.now shown.now }
    {
        self.take_cycle(before, after, shown);
        self.take_strobes(entered.transfer, before, after);
        self.take_answers(entered.cycle, before, after, shown);
        self.tenure = self.tenure || falls(before, after, Line::BBSY);
        self.take_nets(before, after, changes);
    }

    /// Notes the start and the end of a cycle and the start of a transfer.
    fn take_cycle(&mut self, before: &Lines, after: &Lines, shown: &StepMarks)
        ensures { self.new ≡ cycle_taken self.old before.now after.now shown.now }
    {
        self.cycle = self.cycle || shown.cycle.is_some();
        self.cycle_end = self.cycle_end || rises(before, after, Line::AS);
        self.transfer = self.transfer || shown.transfer.is_some();
        self.write = self.write || matches!(shown.transfer, Some(true));
    }

    /// Notes a rise and a fall of a data strobe within a transfer.
    fn take_strobes(&mut self, phase: TransferPhase, before: &Lines, after: &Lines)
        ensures { self.new ≡ strobes_taken self.old phase before.now after.now }
    {
        let is_within = !matches!(phase, TransferPhase::Closed);
        self.strobe_rise = self.strobe_rise || (is_within && strobe_rises(before, after));
        self.strobe_fall = self.strobe_fall || (is_within && strobe_falls(before, after));
    }

    /// Notes a fall and a rise of DTACK* or BERR*, and the answer of a transfer.
    fn take_answers(&mut self, cycle: CyclePhase, before: &Lines, after: &Lines, shown: &StepMarks)
        ensures { self.new ≡ answers_taken self.old cycle before.now after.now shown.now }
    {
        self.answer_fall = self.answer_fall || answer_falls(before, after);
        self.answer_rise = self.answer_rise
            || rises(before, after, Line::DTACK)
            || rises(before, after, Line::BERR);
        if shown.answer.is_some() {
            self.answer = true;
            self.interrupt = self.interrupt || is_interrupt_entered(cycle, shown);
            if shown.cycle.is_none() {
                self.take_further(cycle);
            }
        }
    }

    /// Adds an answer in a cycle that started before: a further one, if the cycle had an answer already.
    fn take_further(&mut self, cycle: CyclePhase)
        ensures { self.new ≡ further_taken self.old cycle }
    {
        match cycle {
            CyclePhase::SingleRead | CyclePhase::SingleDone => self.single_again = true,
            CyclePhase::BlockReading | CyclePhase::BlockWriting => self.block_again = true,
            CyclePhase::InterruptDone => self.interrupt_again = true,
            CyclePhase::Free | CyclePhase::Single | CyclePhase::Block | CyclePhase::Interrupt => {}
        }
    }

    /// Adds the edges of the nets of daisy chains.
    fn take_nets(&mut self, before: &Lines, after: &Lines, changes: &[Change])
        ensures { self.new ≡ nets_taken before.now after.now self.old changes.now }
    {
        for change in changes {
            self.take_net(before, after, *change);
        }
    }

    /// Notes the fall and the rise of a net of a daisy chain.
    fn take_net(&mut self, before: &Lines, after: &Lines, change: Change)
        ensures { self.new ≡ net_taken before.now after.now self.old change }
    {
        let net = change.line;
        if let Some((_, place)) = net.grant_place() {
            if place == 0 {
                self.arbiter_fall = self.arbiter_fall || net_falls(before, after, net);
            } else {
                self.slot_grant_fall = self.slot_grant_fall || net_falls(before, after, net);
                self.slot_grant_rise = self.slot_grant_rise || net_rises(before, after, net);
            }
        } else if net.is_acknowledge() {
            self.acknowledge_fall = self.acknowledge_fall || net_falls(before, after, net);
        }
    }

    /// Whether `rule` was asked, i.e. its event happened.
    pub fn ask(&self, rule: Rule) -> bool
        ensures { result ≡ asks_by self.now rule }
    {
        match rule {
            Rule::U1 => self.stretch,
            Rule::U2 | Rule::S1 | Rule::B3 => self.cycle,
            Rule::U3 | Rule::H1 | Rule::S2 => self.transfer,
            Rule::U4 | Rule::S3 => self.write,
            Rule::H2 => self.strobe_rise,
            Rule::H3 => self.strobe_fall,
            Rule::H4 | Rule::H5 => self.answer_fall,
            Rule::H6 => self.answer_rise,
            Rule::H7 => self.cycle_end,
            Rule::H8 => self.answer,
            Rule::C1 => self.single_again,
            Rule::C2 => self.block_again,
            Rule::I4 => self.interrupt,
            Rule::I5 => self.interrupt_again,
            Rule::G1 => self.slot_grant_fall,
            Rule::G2 => self.slot_grant_rise,
            Rule::G3 | Rule::G5 => self.arbiter_fall,
            Rule::G4 => self.arbiter_fall || self.slot_grant_fall,
            Rule::B1 | Rule::B2 | Rule::B4 => self.tenure,
            Rule::I1 | Rule::I2 | Rule::I3 => self.acknowledge_fall,
        }
    }
}

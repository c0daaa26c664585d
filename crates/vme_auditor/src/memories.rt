//! The monitors of all rules, run from step to step.

ghost use Rattle.std.specs.Prelude.{◌≡◌};
ghost use Rattle.vme_monitor.specs.OverStretches.{has_started};
ghost use Rattle.vme_monitor.specs.Run.{machine_step};
ghost use Rattle.vme_monitor.specs.StepRuns.{seen_in};
ghost use Rattle.vme_auditor.specs.Memories.{AllGoOn, comes_before as comes_before_by, first_fault as first_fault_by};
ghost use Rattle.vme_auditor.specs.Memories.{memories_at};

use vme_chains::acknowledge::{AcknowledgeMemory, AcknowledgeRules};
use vme_chains::grant::GrantRules;
use vme_chains::grant_memory::Arbitration;
use vme_dtb::handshake::HandshakeRules;
use vme_dtb::holding::Holding;
use vme_dtb::memory::HandshakeMemory;
use vme_dtb::stability::StabilityRules;
use vme_monitor::known::{KnownRules, Stateless};
use vme_monitor::machine::Machine;
use vme_monitor::mark::{Fault, NOTHING, StepMarks};
use vme_monitor::over_stretches::{OverStretches, StretchPhase};
use vme_monitor::view::StepView;
use vme_trace::{Change, Lines};

type KnownMachine = OverStretches<KnownRules>;

type HandshakeMachine = OverStretches<HandshakeRules>;

type StabilityMachine = OverStretches<StabilityRules>;

type GrantMachine = OverStretches<GrantRules>;

type AcknowledgeMachine = OverStretches<AcknowledgeRules>;

/// The memory of each monitor, i.e. the state of its automaton.
#[derive(Clone, Copy, Debug, PartialEq, Eq)]
pub struct Memories {
    /// That of `Known`, which finds where judging starts and ends and where a control line is lost.
    pub known: StretchPhase<Stateless>,
    /// That of `Dtb`, of the handshake.
    pub handshake: StretchPhase<HandshakeMemory>,
    /// That of `Stability`, of the lines that stay as they are.
    pub stability: StretchPhase<Holding>,
    /// That of `Grant`, of requests and grants.
    pub grant: StretchPhase<Arbitration>,
    /// That of `Iack`, of interrupt acknowledges.
    pub acknowledge: StretchPhase<AcknowledgeMemory>,
}

/// What one monitor shows at a step: its fault and its marks.
#[derive(Clone, Copy, Debug, PartialEq, Eq)]
struct StepOutcome {
    fault: Option<Fault>,
    shown: StepMarks,
}

/// What all monitors show at a step. Those of held lines and of acknowledge outputs show no marks.
#[derive(Clone, Copy, Debug, PartialEq, Eq)]
pub struct AllShown {
    /// The first rule that the step breaks, if it breaks one, and the line that is named.
    pub fault: Option<Fault>,
    /// The marks of `Known`: where judging starts, and a reset that ends it.
    pub stretch: StepMarks,
    /// The marks of `Grant`: where tenures start and end, or are open where judging starts.
    pub tenure: StepMarks,
    /// The marks of `Dtb`: where cycles and transfers start and end, and the answers.
    pub transfer: StepMarks,
}

/// Whether fault `f` is named before fault `g` of the same step: by its rule, then by its line.
fn comes_before(f: &Fault, g: &Fault) -> bool
    ensures { result ≡ comes_before_by f.now g.now }
{
    let a = f.rule.number();
    let b = g.rule.number();
    a < b || (a == b && f.line.number() < g.line.number())
}

/// The fault that is named of two at one step.
fn first_fault(first: Option<Fault>, second: Option<Fault>) -> Option<Fault>
    ensures { result ≡ first_fault_by first second }
{
    match first {
        None => second,
        Some(a) => match second {
            None => Some(a),
            Some(b) => {
                if comes_before(&b, &a) {
                    Some(b)
                } else {
                    Some(a)
                }
            }
        },
    }
}

/// Advances the memory of machine `M` past a step, and returns what `M` shows there.
#[inline(always)]
fn advance<M: Machine>(memory: &mut M::Memory, view: &StepView, changes: &[Change]) -> StepOutcome
    requires { view.now ≡ seen_in view.now.before changes.now }
    ensures memory { memory.new
        ≡ (machine_step M.observation M.next memory.old view.now.before view.now.after changes.now).memory }
    ensures fault { result.fault
        ≡ (machine_step M.observation M.next memory.old view.now.before view.now.after changes.now).fault }
    ensures shown { result.shown
        ≡ (machine_step M.observation M.next memory.old view.now.before view.now.after changes.now).shown }
{
    match M::observe_step(view, changes) {
        Some(seen) => {
            let next = M::step(*memory, &view.before, &view.after, &seen);
            *memory = next.memory;
            StepOutcome {
                fault: next.fault,
                shown: next.shown,
            }
        }
        None => StepOutcome {
            fault: None,
            shown: NOTHING,
        },
    }
}

impl Memories {
    /// The memories in which the monitors start, by the levels of `opening`.
    pub fn at(opening: &Lines) -> Memories
        ensures { result ≡ memories_at opening.now }
    {
        Memories {
            known: KnownMachine::start(opening),
            handshake: HandshakeMachine::start(opening),
            stability: StabilityMachine::start(opening),
            grant: GrantMachine::start(opening),
            acknowledge: AcknowledgeMachine::start(opening),
        }
    }

    /// Advances all monitors past a step.
    #[inline(always)]
    pub fn go_on(&mut self, view: &StepView, changes: &[Change]) -> AllShown
        requires { view.now ≡ seen_in view.now.before changes.now }
        ensures { AllGoOn self.old view.now.before view.now.after changes.now self.new result }
    {
        let known = advance::<KnownMachine>(&mut self.known, view, changes);
        let handshake = advance::<HandshakeMachine>(&mut self.handshake, view, changes);
        let stability = advance::<StabilityMachine>(&mut self.stability, view, changes);
        let grant = advance::<GrantMachine>(&mut self.grant, view, changes);
        let acknowledge = advance::<AcknowledgeMachine>(&mut self.acknowledge, view, changes);
        let chains = first_fault(grant.fault, acknowledge.fault);
        let held = first_fault(stability.fault, chains);
        let started = first_fault(handshake.fault, held);
        AllShown {
            fault: first_fault(known.fault, started),
            stretch: known.shown,
            tenure: grant.shown,
            transfer: handshake.shown,
        }
    }

    /// Whether a stretch has started.
    pub fn have_started(&self) -> bool
        ensures { result ≡ has_started self.now.known }
    {
        !matches!(self.known, StretchPhase::Waiting)
    }
}

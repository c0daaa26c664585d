//! The states of the monitors after segments.

ghost use Rattle.std.specs.Prelude.{◌≡◌, ◌<◌, ◌^◌, [], None, length};
ghost use Rattle.std.specs.Option.{option_map, option_or};
ghost use Rattle.vme_trace.specs.Trace.{Trace};
ghost use Rattle.vme_trace.specs.Judged.{has_any_stretch, judged_stretches};
ghost use Rattle.vme_trace.specs.Verdict.{rules_in_force, verdict_by, verdict_on};
ghost use Rattle.vme_monitor.specs.BothMonitors.{breaks_before as fault_before, least as least_of};
ghost use Rattle.vme_monitor.specs.BothMonitors.{sooner as sooner_than};
ghost use Rattle.vme_summary.specs.Summaries.{first_break_of};
ghost use Rattle.vme_part_format.specs.Tables.{segment_value, table_value};
ghost use Rattle.vme_part_tables.specs.Runs.{break_of};
ghost use Rattle.vme_part_tables.specs.Ways.{later_break as later_break_of, outcome_in};
ghost use Rattle.vme_parts.specs.Buddies.{HasTables};
ghost use Rattle.vme_parts.specs.Progress.{FitStates, FoundAll, HasStates, HasStatesAfter};
ghost use Rattle.vme_parts.specs.Telling.{verdict_of as verdict_is};

use crate::answers::WideVerdict;
use vme_chains::acknowledge::{Iack, acknowledge_over_recordings};
use vme_chains::grant::{Grant, grants_over_recordings};
use vme_dtb::handshake::{Dtb, handshake_over_recordings};
use vme_dtb::stability::{Stability, stability_over_recordings};
use vme_monitor::finite::Finite;
use vme_monitor::known::{Known, known_over_recordings};
use vme_part_format::{OutcomeTable, Segment, WideBreak};
use vme_part_tables::{follow, later_break};
use vme_trace::Lines;

/// Where a monitor is.
#[derive(Clone, Copy)]
pub struct State {
    /// The number of the memory (state of its automaton) that it is in.
    pub memory: u32,
    /// The first break so far, if there is one.
    pub first_break: Option<WideBreak>,
}

/// The state of a monitor at the opening of a recording.
fn begin<M: Finite>(opening: &Lines) -> State
    ensures memory { result.memory ≡ M.place_of (M.begin opening.now) }
    ensures low { result.memory < M.COUNT }
    ensures first_break { result.first_break ≡ None }
{
    let memory = M::place(M::start(opening)) as u32;
    State {
        memory,
        first_break: None,
    }
}

/// The state after a segment with the table `table`, where `steps` steps come before the segment.
fn past(state: State, table: &OutcomeTable, steps: u64) -> State
    requires few { length table.now.entries.items < 2 ^ 32 }
    requires memory { state.memory < length table.now.entries.items }
    ensures memory { result.memory ≡ (outcome_in (table_value table.now) state.memory).leaving }
    ensures first_break { result.first_break ≡ option_or state.first_break
        (option_map (later_break_of steps) (outcome_in (table_value table.now) state.memory).first_break) }
{
    let (memory, first_break) = follow(table, state.memory);
    State {
        memory,
        first_break: state.first_break.or(later_break(first_break, steps)),
    }
}

/// Whether break `f` is named before break `g` of the same step: by its rule, then by its line.
fn breaks_before(f: &WideBreak, g: &WideBreak) -> bool
    ensures { result ≡ fault_before (break_of f.now) (break_of g.now) }
{
    let a = f.rule.number();
    let b = g.rule.number();
    a < b || (a == b && f.line.number() < g.line.number())
}

/// Whether break `a` is named before break `b`: by its instant, then by its rule, then by its line.
fn comes_before(a: &WideBreak, b: &WideBreak) -> bool
    ensures { result ≡ sooner_than (break_of a.now) (break_of b.now) }
{
    let less = breaks_before(a, b);
    a.instant < b.instant || (a.instant == b.instant && less)
}

/// The lesser of two breaks, or the one that there is.
fn least(first: Option<WideBreak>, second: Option<WideBreak>) -> Option<WideBreak>
    ensures { option_map break_of result ≡ least_of (option_map break_of first) (option_map break_of second) }
{
    match first {
        None => second,
        Some(a) => match second {
            None => Some(a),
            Some(b) => {
                if comes_before(&b, &a) {
                    Some(b)
                } else {
                    Some(a)
                }
            }
        },
    }
}

/// The verdict by the first break, if anything is judged.
fn verdict_of(found: Option<WideBreak>) -> WideVerdict
    ensures { verdict_is result ≡ verdict_on (option_map break_of found) }
{
    match found {
        None => WideVerdict::Conforming,
        Some(found) if found.rule.is_unreadable() => WideVerdict::Unreadable(found),
        Some(found) => WideVerdict::Broken(found),
    }
}

/// The states of the five monitors.
#[derive(Clone, Copy)]
pub struct States {
    /// That of `Known`, which finds where judging starts and ends and where a control line is lost.
    pub known: State,
    /// That of `Dtb`, of the handshake.
    pub handshake: State,
    /// That of `Stability`, of the lines that stay as they are.
    pub stability: State,
    /// That of `Grant`, of requests and grants.
    pub grant: State,
    /// That of `Iack`, of interrupt acknowledges.
    pub acknowledge: State,
}

impl States {
    /// The states before any step.
    pub fn at(opening: &Lines) -> States
        ensures fit { FitStates result }
        ensures found { HasStates result opening.now [] }
    {
        States {
            known: begin::<Known>(opening),
            handshake: begin::<Dtb>(opening),
            stability: begin::<Stability>(opening),
            grant: begin::<Grant>(opening),
            acknowledge: begin::<Iack>(opening),
        }
    }

    /// The states after `segment`, where `steps` steps come before it.
    pub fn past(&self, segment: &Segment, steps: u64) -> States
        requires fit { FitStates self.now }
        requires tables { HasTables (segment_value segment.now) }
        ensures fit { FitStates result }
        ensures found { HasStatesAfter self.now result (segment_value segment.now) steps }
    {
        States {
            known: past(self.known, &segment.known, steps),
            handshake: past(self.handshake, &segment.handshake, steps),
            stability: past(self.stability, &segment.stability, steps),
            grant: past(self.grant, &segment.grant, steps),
            acknowledge: past(self.acknowledge, &segment.acknowledge, steps),
        }
    }

    /// Whether anything is judged of a recording after whose steps the monitors have these states.
    pub fn has_judged(&self) -> bool
        requires { FitStates self.now }
        ensures { (t : Trace) → FoundAll self.now t → result ≡ has_any_stretch (judged_stretches t) }
    {
        known_over_recordings();
        Known::started(Known::nth(self.known.memory as usize))
    }

    /// The first break of a recording after whose steps the monitors have these states, if there is one.
    pub fn first_break(&self) -> Option<WideBreak>
        ensures { (t : Trace) → FoundAll self.now t → option_map break_of result ≡ first_break_of t }
    {
        known_over_recordings();
        handshake_over_recordings();
        stability_over_recordings();
        grants_over_recordings();
        acknowledge_over_recordings();
        let chains = least(self.grant.first_break, self.acknowledge.first_break);
        let held = least(self.stability.first_break, chains);
        let started = least(self.handshake.first_break, held);
        least(self.known.first_break, started)
    }

    /// The verdict on a recording after whose steps the monitors have these states.
    pub fn verdict(&self) -> WideVerdict
        requires { FitStates self.now }
        ensures { (t : Trace) → FoundAll self.now t → verdict_by rules_in_force t ≡ verdict_is result }
    {
        if self.has_judged() {
            verdict_of(self.first_break())
        } else {
            WideVerdict::NeverIdle
        }
    }
}

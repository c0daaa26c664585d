//! What the levels before and after a step show of grants, of requests and of BBSY*.

ghost use Rattle.std.specs.Prelude.{◌≡◌, ℕ, Bool, ◌+◌, ◌-◌, ◌≤◌, ◌<◌, IfSome, None, true, false, if◌then◌else◌};
ghost use Rattle.vme_trace.specs.Changes.{first_changed};
ghost use Rattle.vme_trace.specs.Instants.{greatest};
ghost use Rattle.vme_trace.specs.LineNumbers.{grant, is_grant as is_grant_line, is_slot_grant};
ghost use Rattle.vme_trace.specs.Levels.{seen_level};
ghost use Rattle.vme_chains.specs.GrantLevels.{falls_between, grant_begins as grant_begins_of};
ghost use Rattle.vme_chains.specs.GrantLevels.{granted_level as granted_level_of, high_near};
ghost use Rattle.vme_chains.specs.GrantLevels.{is_arbitration as is_arbitration_line};
ghost use Rattle.vme_chains.specs.GrantLevels.{is_cycle_unowned as is_cycle_unowned_of, is_high_in, is_low_in};
ghost use Rattle.vme_chains.specs.GrantLevels.{is_net_broken as is_net_broken_of};
ghost use Rattle.vme_chains.specs.GrantLevels.{is_other_granted as is_other_granted_of};
ghost use Rattle.vme_chains.specs.GrantLevels.{is_ungranted as is_ungranted_of, low_near, reaches, requested_in};
ghost use Rattle.vme_chains.specs.GrantLevels.{rises_between, taken_between as taken_between_of};
ghost use Rattle.vme_chains.specs.GrantLevels.{taken_in as taken_in_of, touches_arbitration as touches_arbitration_of};

use crate::grant_memory::LevelSet;
use vme_monitor::mark::BusGrant;
use vme_trace::{Change, Level, Line, Lines, Rule};

/// The level of a line; `Unknown` for a line that the backplane doesn't have.
fn shown(lines: &Lines, line: Line) -> Level
    ensures { result ≡ seen_level lines.now line }
{
    if lines.has(line) {
        lines.level(line)
    } else {
        Level::Unknown
    }
}

/// Whether the line is there, and low.
pub(crate) fn is_low(lines: &Lines, line: Line) -> bool
    ensures { result ≡ is_low_in lines.now line }
{
    shown(lines, line).is_low()
}

/// Whether the line is there, and high.
fn is_high(lines: &Lines, line: Line) -> bool
    ensures { result ≡ is_high_in lines.now line }
{
    shown(lines, line).is_high()
}

/// Whether the line falls at the step. A line that the backplane doesn't have never does.
pub fn falls(before: &Lines, after: &Lines, line: Line) -> bool
    ensures { result ≡ falls_between before.now after.now line }
{
    is_low(after, line) && is_high(before, line)
}

/// Whether the line rises at the step. A line that the backplane doesn't have never does.
pub fn rises(before: &Lines, after: &Lines, line: Line) -> bool
    ensures { result ≡ rises_between before.now after.now line }
{
    is_low(before, line) && is_high(after, line)
}

/// Whether the line is low before the step or after it.
fn is_low_near(before: &Lines, after: &Lines, line: Line) -> bool
    ensures { result ≡ low_near before.now after.now line }
{
    is_low(before, line) || is_low(after, line)
}

/// Whether the line is high before the step or after it.
fn is_high_near(before: &Lines, after: &Lines, line: Line) -> bool
    ensures { result ≡ high_near before.now after.now line }
{
    is_high(before, line) || is_high(after, line)
}

/// The levels that are requested.
pub(crate) fn requested(lines: &Lines) -> LevelSet
    ensures { result ≡ requested_in lines.now }
{
    LevelSet {
        zero: is_low(lines, Line::bus_request(0)),
        one: is_low(lines, Line::bus_request(1)),
        two: is_low(lines, Line::bus_request(2)),
        three: is_low(lines, Line::bus_request(3)),
    }
}

/// Whether the arbiter begins to grant some level.
#[tactic(auto, using(vme_trace::proofs::Ranges::searches))]
pub(crate) fn grant_begins(before: &Lines, after: &Lines) -> bool
    ensures { result ≡ grant_begins_of before.now after.now }
{
    for level in 0..4 {
        if falls(before, after, Line::grant(level, 0)) {
            return true;
        }
    }
    false
}

/// Whether the arbiter grants a level on another net than `line`.
#[tactic(auto, using(vme_trace::proofs::Ranges::searches))]
fn is_other_granted(lines: &Lines, line: Line) -> bool
    ensures { result ≡ is_other_granted_of lines.now line }
{
    for level in 0..4 {
        let net = Line::grant(level, 0);
        if net != line && is_low(lines, net) {
            return true;
        }
    }
    false
}

/// The least level that the arbiter grants.
#[tactic(auto, using(vme_trace::proofs::Ranges::searches))]
fn granted_level(lines: &Lines) -> Option<u8>
    ensures level { result ≡ granted_level_of lines.now }
    ensures below { IfSome result (λ level. level < 4) }
    ensures low { IfSome result (λ level. is_low_in lines.now (grant level 0) ≡ true) }
{
    for level in 0..4 {
        if is_low(lines, Line::grant(level, 0)) {
            return Some(level);
        }
    }
    None
}

/// The last net of a granted level's chain that the grant has reached.
#[tactic(auto, using(vme_trace::proofs::Ranges::searches))]
fn reached_net(lines: &Lines, level: u8) -> u8
    requires level { level < 4 }
    requires low { is_low_in lines.now (grant level 0) ≡ true }
    ensures net { Some result ≡ greatest (reaches lines.now level) 0 (lines.now.slots + 1) }
    ensures last { result ≤ 21 }
{
    for place in 1..lines.slots() + 1 {
        if !is_low(lines, Line::grant(level, place)) {
            return place - 1;
        }
    }
    lines.slots()
}

/// The grant of the least level that is granted, with the slot that it has reached.
fn taken(lines: &Lines) -> Option<BusGrant>
    ensures { result ≡ taken_in_of lines.now }
{
    match granted_level(lines) {
        Some(level) => Some(BusGrant {
            level,
            slot: 1 + reached_net(lines, level),
        }),
        None => None,
    }
}

/// The grant by which a tenure starts at the step: one after the step, or else one before it.
pub(crate) fn taken_between(before: &Lines, after: &Lines) -> Option<BusGrant>
    ensures { result ≡ taken_between_of before.now after.now }
{
    if granted_level(after).is_some() {
        taken(after)
    } else {
        taken(before)
    }
}

/// Whether no level is granted, neither before the step nor after it.
pub(crate) fn is_ungranted(before: &Lines, after: &Lines) -> bool
    ensures { result ≡ is_ungranted_of before.now after.now }
{
    granted_level(before).is_none() && granted_level(after).is_none()
}

/// If `line` is the grant output of a slot, the net at the slot's grant input.
fn grant_input(line: Line) -> Option<Line>
    ensures { result ≡ (if is_slot_grant line then Some (line - 1) else None) }
{
    let (level, place) = line.grant_place()?;
    if place == 0 {
        None
    } else {
        Some(Line::grant(level, place - 1))
    }
}

/// Whether the change of a line breaks a rule on the nets of grants, one of G1 to G4.
fn is_net_broken(rule: Rule, before: &Lines, after: &Lines, line: Line) -> bool
    ensures { result ≡ is_net_broken_of rule before.now after.now line }
{
    match rule {
        Rule::G1 => match grant_input(line) {
            Some(input) => falls(before, after, line) && !is_low_near(before, after, input),
            None => false,
        },
        Rule::G2 => match grant_input(line) {
            Some(input) => rises(before, after, line) && !is_high_near(before, after, input),
            None => false,
        },
        Rule::G3 => {
            line.is_grant()
                && grant_input(line).is_none()
                && falls(before, after, line)
                && is_other_granted(after, line)
        }
        Rule::G4 => {
            line.is_grant()
                && falls(before, after, line)
                && !is_high_near(before, after, Line::BBSY)
        }
        _ => false,
    }
}

/// The first changed line whose change breaks `rule`, one of G1 to G4.
pub(crate) fn first_broken(
    rule: Rule,
    before: &Lines,
    after: &Lines,
    changes: &[Change],
) -> Option<Line>
    ensures { result ≡ first_changed (is_net_broken_of rule before.now after.now) changes.now }
{
    for change in changes {
        if is_net_broken(rule, before, after, change.line) {
            return Some(change.line);
        }
    }
    None
}

/// Whether a net of a grant is among the changes. The change of any other line breaks none of G1 to G4.
pub(crate) fn touches_nets(changes: &[Change]) -> bool
    ensures { result ≡ false → (p : ℕ → Bool) → ((l : ℕ) → is_grant_line l ≡ false → p l ≡ false)
        → first_changed p changes.now ≡ None }
{
    for change in changes {
        if change.line.is_grant() {
            return true;
        }
    }
    false
}

/// Whether the line is BBSY*, a request or a grant.
fn is_arbitration(line: Line) -> bool
    ensures { result ≡ is_arbitration_line line }
{
    let number = line.number();
    Line::BBSY.number() <= number && number < Line::iack(1).number()
}

/// Whether BBSY*, a request or a grant is among the changes.
pub(crate) fn touches_arbitration(changes: &[Change]) -> bool
    ensures { result ≡ touches_arbitration_of changes.now }
{
    for change in changes {
        if is_arbitration(change.line) {
            return true;
        }
    }
    false
}

/// Whether a cycle starts while the bus isn't busy.
pub(crate) fn is_cycle_unowned(before: &Lines, after: &Lines) -> bool
    ensures { result ≡ is_cycle_unowned_of before.now after.now }
{
    falls(before, after, Line::AS) && !is_low_near(before, after, Line::BBSY)
}

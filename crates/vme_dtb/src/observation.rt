//! What a step shows of the lines that have to be known and held, whatever the memory is (the state of the monitor's
//! automaton).

ghost use Rattle.std.specs.Prelude.{◌≡◌, None, false, true};
ghost use Rattle.vme_trace.specs.Changes.{first_changed};
ghost use Rattle.vme_trace.specs.Cycle.{Needs};
ghost use Rattle.vme_trace.specs.Instants.{least};
ghost use Rattle.vme_trace.specs.Levels.{Levels};
ghost use Rattle.vme_trace.specs.LineNumbers.{line_count};
ghost use Rattle.vme_dtb.specs.StabilityRules.{changed_data_line as changed_data_line_of};
ghost use Rattle.vme_dtb.specs.StabilityRules.{changed_need_line as changed_need_line_of};
ghost use Rattle.vme_dtb.specs.StabilityRules.{fault_on as fault_on_line};
ghost use Rattle.vme_dtb.specs.StabilityRules.{first_needed as first_needed_of};
ghost use Rattle.vme_dtb.specs.StabilityRules.{is_changed_data as is_changed_data_of, is_undriven};
ghost use Rattle.vme_dtb.specs.StabilityRules.{may_change_memory as may_change_memory_of, may_write as may_write_of};
ghost use Rattle.vme_dtb.specs.StabilityRules.{undriven_line as undriven_line_of};
ghost use Rattle.vme_dtb.specs.StabilityRules.{unknown_direction as unknown_direction_of};
ghost use Rattle.vme_dtb.specs.StabilityRules.{unknown_fault as unknown_fault_of, unknown_need as unknown_need_of};

use vme_monitor::mark::Fault;
use vme_trace::edges::{
    answer_falls, falls, has_strobes_high, rises, starts_transfer, strobe_falls, strobe_rises,
};
use vme_trace::{Change, Line, LineSet, Lines, Rule, is_selected, needed};

/// The observation of one step.
#[derive(Clone, Copy, Debug)]
pub struct HoldingObservation {
    /// The rule U2 or U3 is broken: a line is unknown that has to be known at this step.
    pub unknown: Option<Fault>,
    /// A data strobe falls in a transfer that may be a write, and this is the least unknown data line that the transfer
    /// moves.
    pub undriven: Option<Line>,
    /// AS* was low before the step, and this is the first changed line among those that the cycle needs.
    pub changed_need: Option<Line>,
    /// WRITE* changes.
    pub turned: bool,
    /// WRITE* was low before the step, and this is the first changed data line that a transfer moved then.
    pub changed_data: Option<Line>,
}

/// A rule that is broken on a line, if there is one.
pub(crate) fn fault_on(rule: Rule, line: Option<Line>) -> Option<Fault>
    ensures { result ≡ fault_on_line rule line }
{
    match line {
        Some(line) => Some(Fault { rule, line }),
        None => None,
    }
}

/// The least line that is unknown, and that a cycle needs which starts at these levels.
fn unknown_need(lines: &Lines) -> Option<Line>
    ensures { result ≡ unknown_need_of lines.now }
{
    if lines.are_known(Line::IACK, Line::address(31)) {
        return None;
    }
    let needed = needed(lines);
    // the lines that a cycle may need are IACK* to A31
    for number in 5..45 {
        if let Some(line) = Line::from_number(number) {
            if !lines.level(line).is_known() && needed.has(line) {
                return Some(line);
            }
        }
    }
    None
}

/// WRITE*, where a transfer starts and WRITE* is unknown.
fn unknown_direction(before: &Lines, after: &Lines) -> Option<Line>
    ensures { result ≡ unknown_direction_of before.now after.now }
{
    if !after.level(Line::WRITE).is_known() && starts_transfer(before, after) {
        Some(Line::WRITE)
    } else {
        None
    }
}

/// The rule U2 or U3, if a line is unknown that has to be known at this step.
#[inline(always)]
fn unknown_fault(before: &Lines, after: &Lines) -> Option<Fault>
    ensures { result ≡ unknown_fault_of before.now after.now }
{
    if falls(before, after, Line::AS) {
        if let Some(line) = unknown_need(after) {
            return Some(Fault {
                rule: Rule::U2,
                line,
            });
        }
    }
    fault_on(Rule::U3, unknown_direction(before, after))
}

/// The first changed line of a set.
fn first_needed(needed: &LineSet, changes: &[Change]) -> Option<Line>
    ensures { result ≡ first_needed_of needed.now changes.now }
{
    for change in changes {
        if needed.has(change.line) {
            return Some(change.line);
        }
    }
    None
}

/// Whether a line other than AS*, the strobes and the answer lines is among the changes. No cycle needs AS*, a strobe
/// or an answer line, and no transfer moves them. Most steps change no other line, and then neither is searched for.
fn changes_beyond_answers(changes: &[Change]) -> bool
    ensures no_need { result ≡ false → (needs : Needs) → first_needed_of needs changes.now ≡ None }
    ensures no_data { result ≡ false → (v w : Levels) → first_changed (is_changed_data_of v w) changes.now ≡ None }
{
    for change in changes {
        if change.line.number() > Line::BERR.number() {
            return true;
        }
    }
    false
}

/// The first changed line that the cycle needs, if AS* was low before the step. `beyond_answers` says whether a line
/// other than AS*, the strobes and the answer lines changes.
#[inline(always)]
fn changed_need_line(beyond_answers: bool, before: &Lines, changes: &[Change]) -> Option<Line>
    requires { beyond_answers ≡ false → (needs : Needs) → first_needed_of needs changes.now ≡ None }
    ensures { result ≡ changed_need_line_of before.now changes.now }
{
    if beyond_answers && before.level(Line::AS).is_low() {
        first_needed(&needed(before), changes)
    } else {
        None
    }
}

/// Whether the transfer after a step may be a write: it was open, or WRITE* is low as it starts.
fn may_write(before: &Lines, after: &Lines) -> bool
    ensures { result ≡ may_write_of before.now after.now }
{
    !has_strobes_high(before) || after.level(Line::WRITE).is_low()
}

/// The least unknown data line that a transfer moves at these levels.
fn least_undriven(lines: &Lines) -> Option<Line>
    ensures { result ≡ least (is_undriven lines.now) 0 line_count }
{
    if lines.are_known(Line::data(0), Line::data(31)) {
        return None;
    }
    for bit in 0..32 {
        let line = Line::data(bit);
        if !lines.level(line).is_known() && is_selected(lines, line) {
            return Some(line);
        }
    }
    None
}

/// The least unknown data line that a transfer moves, if a strobe falls in a transfer that may be a write.
#[inline(always)]
fn undriven_line(before: &Lines, after: &Lines) -> Option<Line>
    ensures { result ≡ undriven_line_of before.now after.now }
{
    if strobe_falls(before, after) && may_write(before, after) {
        least_undriven(after)
    } else {
        None
    }
}

/// Whether a data line is among the changes. A transfer moves no other lines.
fn touches_data(changes: &[Change]) -> bool
    ensures { result ≡ false → (v w : Levels) → first_changed (is_changed_data_of v w) changes.now ≡ None }
{
    for change in changes {
        if change.line.is_data() {
            return true;
        }
    }
    false
}

/// Whether a transfer moved the line before the step, and the step gives it another level.
fn is_changed_data(line: Line, before: &Lines, after: &Lines) -> bool
    ensures { result ≡ is_changed_data_of before.now after.now line }
{
    before.has(line)
        && after.has(line)
        && is_selected(before, line)
        && !before.level(line).is_same(after.level(line))
}

/// The first changed data line that a transfer moved before the step.
fn first_changed_data(before: &Lines, after: &Lines, changes: &[Change]) -> Option<Line>
    ensures { result ≡ first_changed (is_changed_data_of before.now after.now) changes.now }
{
    for change in changes {
        if is_changed_data(change.line, before, after) {
            return Some(change.line);
        }
    }
    None
}

/// The first changed data line that a transfer moved before the step, if WRITE* was low. `beyond_answers` says whether
/// a line other than AS*, the strobes and the answer lines changes.
#[inline(always)]
fn changed_data_line(
    beyond_answers: bool,
    before: &Lines,
    after: &Lines,
    changes: &[Change],
) -> Option<Line>
    requires { beyond_answers ≡ false → (v w : Levels) → first_changed (is_changed_data_of v w) changes.now ≡ None }
    ensures { result ≡ changed_data_line_of before.now after.now changes.now }
{
    if beyond_answers && before.level(Line::WRITE).is_low() && touches_data(changes) {
        first_changed_data(before, after, changes)
    } else {
        None
    }
}

/// Whether the memory may change: an answer comes, or a data strobe or AS* rises.
fn may_change_memory(before: &Lines, after: &Lines) -> bool
    ensures { result ≡ may_change_memory_of before.now after.now }
{
    answer_falls(before, after) || strobe_rises(before, after) || rises(before, after, Line::AS)
}

impl HoldingObservation {
    ghost use Rattle.vme_dtb.specs.StabilityRules.{stability_observation};

    /// The observation of a step, if there is anything to observe.
    #[inline(always)]
    pub fn of(before: &Lines, after: &Lines, changes: &[Change]) -> Option<HoldingObservation>
        ensures { result ≡ stability_observation before.now after.now changes.now }
    {
        let unknown = unknown_fault(before, after);
        let beyond_answers = changes_beyond_answers(changes);
        let changed_need = changed_need_line(beyond_answers, before, changes);
        let turned = !before.level(Line::WRITE).is_same(after.level(Line::WRITE));
        let undriven = undriven_line(before, after);
        let changed_data = changed_data_line(beyond_answers, before, after, changes);
        if unknown.is_some()
            || changed_need.is_some()
            || turned
            || may_change_memory(before, after)
            || undriven.is_some()
            || changed_data.is_some()
        {
            Some(HoldingObservation {
                unknown,
                undriven,
                changed_need,
                turned,
                changed_data,
            })
        } else {
            None
        }
    }
}

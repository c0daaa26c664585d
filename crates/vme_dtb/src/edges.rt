//! What one step shows of the handshake.

ghost use Rattle.std.specs.Prelude.{◌≡◌, ◌<◌, ◌&&◌, Some, None, if◌then◌else◌};
ghost use Rattle.vme_trace.specs.Edges.{starts_between};
ghost use Rattle.vme_trace.specs.LineNumbers.{grant, AS, DS0, DS1, DTACK, BERR, WRITE};
ghost use Rattle.vme_trace.specs.Levels.{is_low, level_at};
ghost use Rattle.vme_dtb.specs.Edge.{address_of, cycle_start_of, closes_between, edges_between, first_of};
ghost use Rattle.vme_dtb.specs.Edge.{is_addressed, is_still, is_answer_not_high, shown_between};
ghost use Rattle.vme_dtb.specs.Edge.{stays_on};
ghost use Rattle.vme_dtb.specs.UsualSteps.{is_answer_alone, is_start_alone, is_strobes_alone};

use vme_monitor::mark::{CycleStart, NOTHING, StepMarks};
use vme_trace::edges::{falls, has_strobes_high, rises, starts_transfer};
use vme_trace::{Line, Lines, am_class, am_code};

/// What a step shows of the handshake, by the levels before and after it alone.
#[derive(Clone, Copy, PartialEq, Eq, Debug)]
pub struct Edges {
    /// What happens, but for the answer of a transfer.
    pub shown: StepMarks,
    /// A transfer starts, and this answer line is the first that is high neither before nor after the step.
    pub answer_not_high: Option<Line>,
    /// The first strobe that rises.
    pub strobe_rise: Option<Line>,
    /// The first strobe that falls.
    pub strobe_fall: Option<Line>,
    /// The first answer line that falls.
    pub answer_fall: Option<Line>,
    /// Whether both answer lines fall.
    pub both_fall: bool,
    /// Whether DTACK* rises.
    pub dtack_rises: bool,
    /// Whether BERR* rises.
    pub berr_rises: bool,
    /// Whether AS* is low neither before nor after the step.
    pub unaddressed: bool,
}

/// Whether a bused line keeps its level.
#[tactic(auto, using(vme_trace::proofs::SameLevel::sameb_is_same_level))]
pub(crate) fn stays(before: &Lines, after: &Lines, line: Line) -> bool
    requires { line < grant 0 0 }
    ensures { result ≡ stays_on before.now after.now line }
{
    before.level(line) == after.level(line)
}

/// Whether the strobes stay as they are.
fn do_strobes_stay(before: &Lines, after: &Lines) -> bool
    ensures { result ≡ (stays_on before.now after.now DS0 && stays_on before.now after.now DS1) }
{
    stays(before, after, Line::DS0) && stays(before, after, Line::DS1)
}

/// Whether the answer lines stay as they are.
fn do_answers_stay(before: &Lines, after: &Lines) -> bool
    ensures { result ≡ (stays_on before.now after.now DTACK && stays_on before.now after.now BERR) }
{
    stays(before, after, Line::DTACK) && stays(before, after, Line::BERR)
}

/// Whether AS*, the strobes and the answer lines stay as they are.
pub(crate) fn is_handshake_still(before: &Lines, after: &Lines) -> bool
    ensures { result ≡ is_still before.now after.now }
{
    stays(before, after, Line::AS)
        && do_strobes_stay(before, after)
        && do_answers_stay(before, after)
}

/// Whether AS*, the strobes and BERR* stay as they are.
pub(crate) fn is_answer_alone(before: &Lines, after: &Lines) -> bool
    ensures { result ≡ is_answer_alone before.now after.now }
{
    stays(before, after, Line::AS)
        && do_strobes_stay(before, after)
        && stays(before, after, Line::BERR)
}

/// Whether AS* falls, and the strobes and the answer lines stay as they are.
pub(crate) fn is_start_alone(before: &Lines, after: &Lines) -> bool
    ensures { result ≡ is_start_alone before.now after.now }
{
    falls(before, after, Line::AS)
        && do_strobes_stay(before, after)
        && do_answers_stay(before, after)
}

/// Whether the answer lines stay as they are, AS* was low, and both answer lines are high if a transfer starts.
pub(crate) fn is_strobes_alone(before: &Lines, after: &Lines) -> bool
    ensures { result ≡ is_strobes_alone before.now after.now }
{
    before.level(Line::AS).is_low()
        && do_answers_stay(before, after)
        && (!starts_transfer(before, after)
            || (before.level(Line::DTACK).is_high() && before.level(Line::BERR).is_high()))
}

/// Whether AS* is low before or after the step.
pub(crate) fn is_addressed(before: &Lines, after: &Lines) -> bool
    ensures { result ≡ is_addressed before.now after.now }
{
    before.level(Line::AS).is_low() || after.level(Line::AS).is_low()
}

/// DS0* if `first`, else DS1* if `second`.
fn first_strobe(first: bool, second: bool) -> Option<Line>
    ensures { result ≡ first_of first DS0 second DS1 }
{
    if first {
        Some(Line::DS0)
    } else if second {
        Some(Line::DS1)
    } else {
        None
    }
}

/// DTACK* if `dtack`, else BERR* if `berr`.
pub(crate) fn first_answer(dtack: bool, berr: bool) -> Option<Line>
    ensures { result ≡ first_of dtack DTACK berr BERR }
{
    if dtack {
        Some(Line::DTACK)
    } else if berr {
        Some(Line::BERR)
    } else {
        None
    }
}

/// The address on A01 to A31: a line that isn't high counts 0.
#[tactic(auto, unfolding(crate::specs::Edge::address_below))]
fn address(lines: &Lines) -> u32
    ensures { result ≡ address_of lines.now }
{
    let mut address: u32 = 0;
    for bit in 1..32u8 {
        if lines.level(Line::address(bit)).is_high() {
            address += 1 << bit;
        }
    }
    address
}

/// What the lines show where a cycle starts.
#[inline(always)]
pub(crate) fn cycle_start(lines: &Lines) -> CycleStart
    ensures { result ≡ cycle_start_of lines.now }
{
    CycleStart {
        class: am_class(lines),
        modifier: am_code(lines),
        address: address(lines),
    }
}

/// Whether the transfer that starts is a write, if one starts.
pub(crate) fn transfer_started(before: &Lines, after: &Lines) -> Option<bool>
    ensures { result ≡ (if starts_between before.now after.now then Some
        (is_low (level_at after.now WRITE)) else None) }
{
    if starts_transfer(before, after) {
        Some(after.level(Line::WRITE).is_low())
    } else {
        None
    }
}

/// Whether a transfer closes: both strobes are high, and weren't.
pub(crate) fn closes(before: &Lines, after: &Lines) -> bool
    ensures { result ≡ closes_between before.now after.now }
{
    has_strobes_high(after) && !has_strobes_high(before)
}

/// Whether an answer line is high neither before nor after the step.
fn is_answer_not_high(before: &Lines, after: &Lines, line: Line) -> bool
    requires { line < grant 0 0 }
    ensures { result ≡ is_answer_not_high before.now after.now line }
{
    !(before.level(line).is_high() || after.level(line).is_high())
}

/// What happens, but for the answer of a transfer.
fn shown(before: &Lines, after: &Lines) -> StepMarks
    ensures { result ≡ shown_between before.now after.now }
{
    let cycle = if falls(before, after, Line::AS) {
        Some(cycle_start(after))
    } else {
        None
    };
    StepMarks {
        cycle,
        cycle_end: rises(before, after, Line::AS),
        transfer: transfer_started(before, after),
        close: closes(before, after),
        ..NOTHING
    }
}

impl Edges {
    /// What the levels before and after a step show.
    pub(crate) fn between(before: &Lines, after: &Lines) -> Edges
        ensures { result ≡ edges_between before.now after.now }
    {
        let answer_not_high = if starts_transfer(before, after) {
            first_answer(
                is_answer_not_high(before, after, Line::DTACK),
                is_answer_not_high(before, after, Line::BERR),
            )
        } else {
            None
        };
        let dtack_falls = falls(before, after, Line::DTACK);
        let berr_falls = falls(before, after, Line::BERR);
        Edges {
            shown: shown(before, after),
            answer_not_high,
            strobe_rise: first_strobe(
                rises(before, after, Line::DS0),
                rises(before, after, Line::DS1),
            ),
            strobe_fall: first_strobe(
                falls(before, after, Line::DS0),
                falls(before, after, Line::DS1),
            ),
            answer_fall: first_answer(dtack_falls, berr_falls),
            both_fall: dtack_falls && berr_falls,
            dtack_rises: rises(before, after, Line::DTACK),
            berr_rises: rises(before, after, Line::BERR),
            unaddressed: !is_addressed(before, after),
        }
    }
}

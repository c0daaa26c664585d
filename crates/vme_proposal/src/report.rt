//! What was found for the lines of a backplane, in one line for people.

ghost use Rattle.std.specs.Prelude.{IfOk};
ghost use Rattle.vme_text.specs.Escaping.{IsVisible};

use crate::fitting::Fitted;
use crate::proposal::{Proposal, push_searched};
use std::alloc::{AllocError, Global};
use vme_declarations::group_of;
use vme_text::{Text, escaped_text};
use vme_trace::{Line, MOST_SLOTS};

/// The number of groups of lines that a binding names.
const GROUPS: u8 = 19;

/// What to do where a line that is needed wasn't found.
const REMEDY: &str = ": bind the lines by hand, `vmecheck variables` lists the variables";

/// What is said where AS is bound to a variable that never moves.
const STILL: &str = "AS never moves in the dump, so no cycle is judged";

/// How the lines of a group are bound.
#[derive(Clone, Copy, PartialEq, Eq)]
enum GroupState {
    /// Each to a variable.
    Bound,
    /// Some to variables, and the others to constants.
    InPart,
    /// To constants, though some were found.
    Constant,
    /// To constants: none was found.
    NotFound,
}

/// The lines of one name: the line with the greatest number, and the number of lines from there down.
#[derive(Clone, Copy)]
struct LineGroup {
    name: &'static str,
    first: Line,
    count: u8,
}

/// The group of this name, of `count` lines from `first` down.
fn new_group(name: &'static str, first: Line, count: u8) -> LineGroup {
    LineGroup { name, first, count }
}

/// The group at `place`, from 0 to 18, in the order of a binding, on a backplane of `slots` slots.
fn group_at(place: u8, slots: u8) -> LineGroup {
    let slots = slots.clamp(1, MOST_SLOTS);
    match place {
        0 => new_group("AS", Line::AS, 1),
        1 => new_group("DS0", Line::DS0, 1),
        2 => new_group("DS1", Line::DS1, 1),
        3 => new_group("DTACK", Line::DTACK, 1),
        4 => new_group("BERR", Line::BERR, 1),
        5 => new_group("IACK", Line::IACK, 1),
        6 => new_group("LWORD", Line::LWORD, 1),
        7 => new_group("WRITE", Line::WRITE, 1),
        8 => new_group("BBSY", Line::BBSY, 1),
        9 => new_group("AM", Line::address_modifier(5), 6),
        10 => new_group("A", Line::address(31), 31),
        11 => new_group("D", Line::data(31), 32),
        12 => new_group("SYSRESET", Line::SYSRESET, 1),
        13 => new_group("BR", Line::bus_request(3), 4),
        14 => new_group("BG0", Line::grant(0, slots), slots + 1),
        15 => new_group("BG1", Line::grant(1, slots), slots + 1),
        16 => new_group("BG2", Line::grant(2, slots), slots + 1),
        17 => new_group("BG3", Line::grant(3, slots), slots + 1),
        _ => new_group("IA", Line::iack(slots), slots),
    }
}

/// How the lines of a group are bound.
fn state_of(proposal: &Proposal<'_>, group: &LineGroup) -> GroupState {
    let bound = proposal.count_bound(group.first.number(), group.count);
    if bound == group.count {
        GroupState::Bound
    } else if bound > 0 {
        GroupState::InPart
    } else if proposal.fitted().named & group_of(group.first) != 0 {
        GroupState::Constant
    } else {
        GroupState::NotFound
    }
}

/// Why a check by the binding would judge no cycle, no transfer or no answer, if so: a cycle needs AS, a transfer a
/// strobe and an answer.
fn why_no_bus(proposal: &Proposal<'_>) -> Option<&'static str> {
    let is_bound = |line: Line| proposal.count_bound(line.number(), 1) == 1;
    if !is_bound(Line::AS) {
        Some("without AS no cycle is judged")
    } else if !is_bound(Line::DS0) && !is_bound(Line::DS1) {
        Some("without DS0 and DS1 no transfer is judged")
    } else if !is_bound(Line::DTACK) {
        Some("without DTACK no answer is judged")
    } else if !proposal.fitted().found.moves(Line::AS) {
        Some(STILL)
    } else {
        None
    }
}

/// Whether a check by the binding judges cycles, transfers and answers.
pub(crate) fn is_bus(proposal: &Proposal<'_>) -> bool {
    why_no_bus(proposal).is_none()
}

/// The line that says how many groups are bound, in which scope, of how many slots, and which aren't; and why a check
/// by the binding would judge no cycle, no transfer or no answer, if so.
pub(crate) fn report(alloc: Global, proposal: &Proposal<'_>, slots: u8) -> Result<Text, AllocError>
    ensures { IfOk result (λ text. IsVisible text) }
{
    let line = report_line(alloc, proposal, slots)?;
    escaped_text(alloc, line.as_bytes())
}

/// The line of `report`, with the path of the scope as it is, i.e. not escaped.
fn report_line(alloc: Global, proposal: &Proposal<'_>, slots: u8) -> Result<Text, AllocError> {
    let mut text = Text::new(alloc);
    text.push(b"vmecheck: bound ")?;
    let bound = count(proposal, slots, GroupState::Bound);
    text.push_decimal(alloc, u64::from(bound))?;
    text.push(b" of ")?;
    text.push_decimal(alloc, u64::from(GROUPS))?;
    text.push(b" groups")?;
    if proposal.fitted().named == 0 {
        text.push(b": no variable ")?;
        push_searched(&mut text, alloc, &proposal.fitted().found)?;
        text.push(b" is named as a line of a VMEbus")?;
        text.push(REMEDY.as_bytes())?;
        text.push(b"\n")?;
        return Ok(text);
    }
    push_place(&mut text, alloc, proposal.fitted(), slots)?;
    push_groups(&mut text, proposal, slots, GroupState::NotFound)?;
    push_groups(&mut text, proposal, slots, GroupState::InPart)?;
    push_groups(&mut text, proposal, slots, GroupState::Constant)?;
    if let Some(why) = why_no_bus(proposal) {
        text.push(b"; ")?;
        text.push(why.as_bytes())?;
        if why != STILL {
            text.push(REMEDY.as_bytes())?;
        }
    }
    text.push(b"\n")?;
    Ok(text)
}

/// The line that says that even what was found makes no recording of the dump. It fails if memory runs out.
pub fn constants_report(alloc: Global) -> Result<Text, AllocError>
    ensures { IfOk result (λ text. IsVisible text) }
{
    let mut line = Text::new(alloc);
    line.push(b"vmecheck: bound 0 of 19 groups: what was found makes no recording of the dump")?;
    line.push(REMEDY.as_bytes())?;
    line.push(b"\n")?;
    escaped_text(alloc, line.as_bytes())
}

/// The number of groups that are in `state`.
fn count(proposal: &Proposal<'_>, slots: u8, state: GroupState) -> u8 {
    let mut count: u8 = 0;
    for place in 0..GROUPS {
        if state_of(proposal, &group_at(place, slots)) == state {
            count = count.saturating_add(1);
        }
    }
    count
}

/// Appends in which scope the lines were found, and how many slots there are.
fn push_place(
    text: &mut Text,
    alloc: Global,
    fitted: &Fitted,
    slots: u8,
) -> Result<(), AllocError> {
    let scope = fitted.found.scope.as_slice();
    if scope.is_empty() {
        text.push(b" outside of all scopes, ")?;
    } else {
        text.push(b" in scope ")?;
        text.push(scope)?;
        text.push(b", ")?;
    }
    text.push_decimal(alloc, u64::from(slots))?;
    let noun = if slots == 1 { " slot" } else { " slots" };
    text.push(noun.as_bytes())
}

/// Appends the names of the groups that are in `state`, if there are any.
fn push_groups(
    text: &mut Text,
    proposal: &Proposal<'_>,
    slots: u8,
    state: GroupState,
) -> Result<(), AllocError> {
    if count(proposal, slots, state) == 0 {
        return Ok(());
    }
    let said = match state {
        GroupState::Bound => "; bound:",
        GroupState::InPart => "; in part:",
        GroupState::Constant => "; found, but bound to constants:",
        GroupState::NotFound => "; not found:",
    };
    text.push(said.as_bytes())?;
    for place in 0..GROUPS {
        let group = group_at(place, slots);
        if state_of(proposal, &group) == state {
            text.push(b" ")?;
            text.push(group.name.as_bytes())?;
        }
    }
    Ok(())
}

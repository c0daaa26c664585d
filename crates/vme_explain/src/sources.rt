//! What the lines of a backplane are bound to, read from the text of a binding.

use std::alloc::{AllocError, Global};
use vcd_read::Variable;
use vme_text::{Text, push_escaped};
use vme_trace::{Line, MOST_SLOTS};

/// What a line is bound to.
#[derive(Clone, Copy)]
pub(crate) struct Bound<'a> {
    /// The word after the equals sign.
    pub source: &'a [u8],
    /// The index of the bit of `source`, counted from the left.
    pub place: u32,
}

/// The two words of an assignment in a binding, `NAME = SOURCE`.
#[derive(Clone, Copy)]
pub(crate) struct Assigned<'a> {
    /// The word before the equals sign.
    pub name: &'a [u8],
    /// The word after the equals sign.
    pub source: &'a [u8],
}

/// Whether a byte separates the words of a line.
fn is_blank(byte: u8) -> bool {
    matches!(byte, b' ' | b'\t' | b'\r')
}

/// The words of an assignment `NAME = SOURCE`, if `line` is one.
pub(crate) fn assignment_in(line: &[u8]) -> Option<Assigned<'_>> {
    let mut words = line
        .split(|byte| is_blank(*byte))
        .filter(|word| !word.is_empty());
    let name = words.next()?;
    let equals = words.next()?;
    let source = words.next()?;
    if name.starts_with(b"#") || equals != b"=".as_slice() {
        return None;
    }
    Some(Assigned { name, source })
}

/// The index of `line` among the lines that `name` means, counted from the left.
fn place_in(name: &[u8], line: Line, slots: u8) -> Option<u32> {
    if line.name().as_bytes() == name {
        return Some(0);
    }
    let (first, count) = group(name, slots)?;
    let place = first.checked_sub(line.number())?;
    if place < count {
        Some(u32::from(place))
    } else {
        None
    }
}

/// The number of the first line of a group, and the number of its lines.
fn group(name: &[u8], slots: u8) -> Option<(u8, u8)> {
    let slots = slots.clamp(1, MOST_SLOTS);
    match name {
        b"AM" => Some((Line::address_modifier(5).number(), 6)),
        b"A" => Some((Line::address(31).number(), 31)),
        b"D" => Some((Line::data(31).number(), 32)),
        b"BR" => Some((Line::bus_request(3).number(), 4)),
        b"IA" => Some((Line::iack(slots).number(), slots)),
        [b'B', b'G', digit @ b'0'..=b'3'] => {
            let level = *digit - b'0';
            Some((Line::grant(level, slots).number(), slots + 1))
        }
        _ => None,
    }
}

/// What a line is bound to.
pub(crate) fn bound_to(binding: &[u8], line: Line, slots: u8) -> Option<Bound<'_>> {
    for text in binding.split(|byte| *byte == b'\n') {
        if let Some(found) = assignment_in(text) {
            if let Some(place) = place_in(found.name, line, slots) {
                return Some(Bound {
                    source: found.source,
                    place,
                });
            }
        }
    }
    None
}

/// The path of a source, and the selection in brackets after it, empty if there is none.
pub(crate) fn path_of(source: &[u8]) -> (&[u8], &[u8]) {
    match source.iter().rposition(|byte| *byte == b'[') {
        Some(at) if source.ends_with(b"]") => (&source[..at], &source[at..]),
        _ => (source, b""),
    }
}

/// The number of the leftmost bit of a selection, and whether the bit numbers run downwards from it.
fn leftmost(selection: &[u8]) -> Option<(u32, bool)> {
    let mut numbers = [0u32; 2];
    let mut at: usize = 0;
    for byte in selection {
        match *byte {
            b'0'..=b'9' if at < 2 => {
                numbers[at] = numbers[at]
                    .saturating_mul(10)
                    .saturating_add(u32::from(*byte - b'0'));
            }
            b':' => at = at.saturating_add(1),
            b'[' | b']' => {}
            _ => return None,
        }
    }
    Some((numbers[0], at == 0 || numbers[0] >= numbers[1]))
}

/// The number of the bit that a line is bound to, if bits are selected or the variable has an index.
fn bit_of(bound: &Bound<'_>, variables: &[Variable]) -> Option<u32> {
    let (path, selection) = path_of(bound.source);
    let selected = if selection.is_empty() {
        None
    } else {
        leftmost(selection)
    };
    let (left, is_downwards) = match selected {
        Some(first) => first,
        None => {
            let (left, right) = variable_of(path, variables)?.index?;
            (left, left >= right)
        }
    };
    Some(if is_downwards {
        left.saturating_sub(bound.place)
    } else {
        left.saturating_add(bound.place)
    })
}

/// The first variable of a path.
pub(crate) fn variable_of<'a>(path: &[u8], variables: &'a [Variable]) -> Option<&'a Variable> {
    variables
        .iter()
        .find(|variable| variable.path.as_bytes() == path)
}

/// How many bits of its variable are to the left of the one that a line is bound to.
pub(crate) fn bits_before(bound: &Bound<'_>, variables: &[Variable]) -> u32 {
    let (path, _) = path_of(bound.source);
    match (bit_of(bound, variables), variable_of(path, variables)) {
        (Some(bit), Some(variable)) => match variable.index {
            Some((left, _)) => left.abs_diff(bit),
            None => bound.place,
        },
        _ => bound.place,
    }
}

/// Appends the variable of a line, with the index of its bit.
pub(crate) fn push_variable(
    text: &mut Text,
    alloc: Global,
    bound: &Bound<'_>,
    variables: &[Variable],
) -> Result<(), AllocError> {
    let (path, _) = path_of(bound.source);
    push_escaped(text, alloc, path)?;
    match bit_of(bound, variables) {
        Some(bit) => {
            text.push(b"[")?;
            text.push_decimal(alloc, u64::from(bit))?;
            text.push(b"]")
        }
        None => Ok(()),
    }
}

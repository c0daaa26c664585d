//! The values of several lines together at some instants: codes, addresses, data and chains.

use crate::sources::bound_to;
use std::alloc::{AllocError, Global};
use vme_text::Text;
use vme_trace::{Level, Line, Lines, MOST_SLOTS};

/// The most digits of a value in an excerpt.
pub const MOST_DIGITS: usize = 8;

/// Lines whose levels are shown as one value, the leftmost first.
#[derive(Drop)]
pub struct ValueRow {
    /// The name of the row.
    pub name: &'static str,
    /// The values, one for each instant.
    pub values: Vec<[u8; MOST_DIGITS]>,
    /// The number of digits of each value.
    pub width: usize,
}

/// A bit of a value, `None` if it is unknown.
fn bit(lines: &Lines, line: Line) -> Option<u8> {
    if !lines.has(line) {
        return None;
    }
    match lines.level(line) {
        Level::Low => Some(0),
        Level::High => Some(1),
        Level::Unknown => None,
    }
}

/// The hexadecimal digit of four bits, the leftmost first, or `x` if one of them is unknown.
fn digit(bits: [Option<u8>; 4]) -> u8 {
    let mut number: u8 = 0;
    for bit in bits {
        match bit {
            Some(bit) => number = number.wrapping_mul(2).wrapping_add(bit) & 15,
            None => return b'x',
        }
    }
    let number = number & 15;
    if number < 10 {
        b'0' + number
    } else {
        b'A' + (number - 10)
    }
}

/// The address modifier line of a bit, if there is one.
fn modifier_line(bit: u8) -> Option<Line> {
    if bit < 6 {
        Some(Line::address_modifier(bit))
    } else {
        None
    }
}

/// The address line of a bit, if there is one.
fn address_line(bit: u8) -> Option<Line> {
    if 1 <= bit && bit <= 31 {
        Some(Line::address(bit))
    } else {
        None
    }
}

/// The data line of a bit, if there is one.
fn data_line(bit: u8) -> Option<Line> {
    if bit < 32 {
        Some(Line::data(bit))
    } else {
        None
    }
}

/// Net `place` of the grant chain of `level`, if a backplane of `slots` slots has it.
fn grant_line(level: u8, place: u8, slots: u8) -> Option<Line> {
    if place <= slots.min(MOST_SLOTS) {
        Some(Line::grant(level.min(3), place))
    } else {
        None
    }
}

/// The net of the acknowledge chain that is `distance` after that of slot 1, if a backplane of `slots` slots has it.
fn acknowledge_line(distance: u8, slots: u8) -> Option<Line> {
    if distance < slots.min(MOST_SLOTS) {
        Some(Line::iack(distance + 1))
    } else {
        None
    }
}

/// Which bus or chain a row shows.
#[derive(Clone, Copy)]
enum ValueBus {
    /// The address modifier code.
    Modifier,
    /// The address, A01 to A31.
    Address,
    /// The data, D00 to D31.
    Data,
    /// The grant chain of a level, net 0 on the right.
    Grants(u8),
    /// The acknowledge chain, the net that slot 1 drives on the right.
    Acknowledges,
}

/// The line of bit `number` of a bus, counted from the right.
fn line_of(bus: ValueBus, number: u8, slots: u8) -> Option<Line> {
    match bus {
        ValueBus::Modifier => modifier_line(number),
        ValueBus::Address => address_line(number),
        ValueBus::Data => data_line(number),
        ValueBus::Grants(level) => grant_line(level, number, slots),
        ValueBus::Acknowledges => acknowledge_line(number, slots),
    }
}

/// Bit `number` of a bus. A bit that the bus lacks, such as bit 0 of the address, counts as Low.
fn bus_bit(lines: &Lines, bus: ValueBus, number: u8) -> Option<u8> {
    match line_of(bus, number, lines.slots()) {
        Some(line) => bit(lines, line),
        None => Some(0),
    }
}

/// The last `count` hexadecimal digits of a bus's value.
fn digits(lines: &Lines, bus: ValueBus, count: usize) -> [u8; MOST_DIGITS] {
    let mut text = [b' '; MOST_DIGITS];
    let count = count.min(MOST_DIGITS);
    for place in 0..count {
        let low = (4 * (count - 1 - place)) as u8;
        text[place] = digit([
            bus_bit(lines, bus, low + 3),
            bus_bit(lines, bus, low + 2),
            bus_bit(lines, bus, low + 1),
            bus_bit(lines, bus, low),
        ]);
    }
    text
}

/// The row of a bus, with its value at each instant in this many digits.
fn row_of(
    alloc: Global,
    name: &'static str,
    bus: ValueBus,
    width: usize,
    levels: &[Lines],
) -> Result<ValueRow, AllocError> {
    let mut values = Vec::new(alloc);
    for lines in levels {
        values.push(digits(lines, bus, width))?;
    }
    Ok(ValueRow {
        name,
        values,
        width,
    })
}

/// Whether a line is Low at one of the instants.
fn is_low_once(line: Line, levels: &[Lines]) -> bool {
    levels.iter().any(|lines| bit(lines, line) == Some(0))
}

/// The rows of the address modifier code, of the address, of the data if the binding has D00, and of each daisy chain
/// with a net that is Low at one of the instants and without a net in `shown`. The address has 8 digits if AM5 is Low
/// at one of the instants, as in extended space, or else 6. The data has 8 digits if LWORD is Low at one of them, or
/// else 4.
pub(crate) fn value_rows(
    alloc: Global,
    binding: &[u8],
    levels: &[Lines],
    shown: &[Line],
) -> Result<Vec<ValueRow>, AllocError> {
    let mut rows = Vec::new(alloc);
    let slots = match levels.first() {
        Some(lines) => lines.slots(),
        None => return Ok(rows),
    };
    rows.push(row_of(alloc, "AM", ValueBus::Modifier, 2, levels)?)?;
    let width = if is_low_once(Line::address_modifier(5), levels) {
        8
    } else {
        6
    };
    rows.push(row_of(alloc, "address", ValueBus::Address, width, levels)?)?;
    if bound_to(binding, Line::data(0), slots).is_some() {
        let width = if is_low_once(Line::LWORD, levels) {
            8
        } else {
            4
        };
        rows.push(row_of(alloc, "data", ValueBus::Data, width, levels)?)?;
    }
    for (name, bus) in [
        ("BG3", ValueBus::Grants(3)),
        ("BG2", ValueBus::Grants(2)),
        ("BG1", ValueBus::Grants(1)),
        ("BG0", ValueBus::Grants(0)),
        ("IA", ValueBus::Acknowledges),
    ] {
        if is_to_be_shown(bus, slots, levels, shown) {
            let width = chain_digits(bus, slots);
            rows.push(row_of(alloc, name, bus, width, levels)?)?;
        }
    }
    Ok(rows)
}

/// The number of hexadecimal digits of a chain's nets.
fn chain_digits(bus: ValueBus, slots: u8) -> usize {
    let nets = match bus {
        ValueBus::Grants(_) => usize::from(slots).saturating_add(1),
        _ => usize::from(slots),
    };
    nets.saturating_add(3) / 4
}

/// Whether a chain is shown as one value: a net of it is Low at one of the instants, and none of its nets is in
/// `shown`.
fn is_to_be_shown(bus: ValueBus, slots: u8, levels: &[Lines], shown: &[Line]) -> bool {
    let mut is_low = false;
    for number in 0..MOST_SLOTS + 1 {
        if let Some(line) = line_of(bus, number, slots) {
            if shown.contains(&line) {
                return false;
            }
            if is_low_once(line, levels) {
                is_low = true;
            }
        }
    }
    is_low
}

/// Appends the value of a row at index `place`, after spaces up to a width.
pub(crate) fn push_value(
    text: &mut Text,
    row: &ValueRow,
    place: usize,
    width: usize,
) -> Result<(), AllocError> {
    let Some(value) = row.values.get(place) else {
        return Ok(());
    };
    text.push_spaces(width.saturating_sub(row.width))?;
    text.push(&value[..row.width.min(MOST_DIGITS)])
}

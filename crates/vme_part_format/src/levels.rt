//! Levels, four lines in a byte.

ghost use Rattle.std.specs.Prelude.{◌≡◌, ◌+◌, ◌≤◌, ◌<◌, OnOk, ◌++◌};
ghost use Rattle.vme_trace.specs.LineNumbers.{line_count};
ghost use Rattle.vme_trace.specs.Levels.{seen_level};
ghost use Rattle.vme_part_format.specs.PartText.{level_code, levels_bytes, quad};
ghost use Rattle.vme_part_format.specs.Reading.{Gives, SetsFour, SetsLevel, coded_level, levels_at};

use crate::fault::{FieldError, PartFaultKind};
use crate::fields::Fields;
use std::alloc::AllocError;
use vme_trace::{Change, Level, Line, Lines};

/// How many bytes the levels of all lines have.
const LEVEL_BYTES: u8 = 48;

/// The code of a level.
fn code_of(level: Level) -> u8
    ensures { result ≡ level_code level }
{
    match level {
        Level::Low => 0,
        Level::High => 1,
        Level::Unknown => 2,
    }
}

/// The code of the level of the line `number`, which is Unknown if the backplane doesn't have the line.
fn code_at(lines: &Lines, number: u8) -> u8
    requires { number < line_count }
    ensures code { result ≡ level_code (seen_level lines.now number) }
    ensures few { result < 3 }
{
    match Line::from_number(number) {
        Some(line) if lines.has(line) => code_of(lines.level(line)),
        _ => code_of(Level::Unknown),
    }
}

/// The level with the code `code`, if `line` may have it. A line that the backplane doesn't have is Unknown.
fn level_of(lines: &Lines, line: Line, code: u8) -> Option<Level>
    ensures { result ≡ coded_level lines.now.slots line code }
{
    if lines.has(line) {
        match code {
            0 => Some(Level::Low),
            1 => Some(Level::High),
            2 => Some(Level::Unknown),
            _ => None,
        }
    } else if code == 2 {
        Some(Level::Unknown)
    } else {
        None
    }
}

/// The codes of the four lines from number `first` on, in one byte.
fn four_codes(lines: &Lines, first: u8) -> u8
    requires { first + 3 < line_count }
    ensures { result ≡ quad (seen_level lines.now first) (seen_level lines.now (first + 1))
        (seen_level lines.now (first + 2)) (seen_level lines.now (first + 3)) }
{
    code_at(lines, first)
        + 4 * code_at(lines, first + 1)
        + 16 * code_at(lines, first + 2)
        + 64 * code_at(lines, first + 3)
}

/// Adds the levels of all lines.
pub(crate) fn put_levels(out: &mut Vec<u8>, lines: &Lines) -> Result<(), AllocError>
    ensures { OnOk result (out.new.items ≡ out.old.items ++ levels_bytes lines.now) }
{
    for place in 0..LEVEL_BYTES {
        out.push(four_codes(lines, 4 * place))?;
    }
    Ok(())
}

/// Gives the line `number` the level with the code `code`, if it may have it. Answers whether it may.
#[tactic(auto, unfolding(vme_trace::specs::Trace::changed))]
fn set_level(lines: &mut Lines, number: u8, code: u8) -> bool
    requires { number < line_count }
    ensures { SetsLevel result lines.old number code lines.new }
{
    let Some(line) = Line::from_number(number) else {
        unreachable!()
    };
    match level_of(lines, line, code) {
        Some(level) => {
            lines.apply(&[Change { line, level }]);
            true
        }
        None => false,
    }
}

/// Gives the four lines from number `first` on the levels in `byte`, if they may have these. Answers whether they may.
#[tactic(auto, unfolding(crate::specs::Reading::unpacked))]
fn set_four(lines: &mut Lines, first: u8, byte: u8) -> bool
    requires { first + 3 < line_count }
    ensures { SetsFour result lines.old first byte lines.new }
{
    if !set_level(lines, first, byte % 4) {
        return false;
    }
    if !set_level(lines, first + 1, byte / 4 % 4) {
        return false;
    }
    if !set_level(lines, first + 2, byte / 16 % 4) {
        return false;
    }
    set_level(lines, first + 3, byte / 64)
}

/// Reads the levels of a backplane of `slots` slots.
pub(crate) fn read_levels(fields: &mut Fields, slots: u8) -> Result<Lines, FieldError>
    requires least { 1 ≤ slots }
    requires most { slots ≤ 21 }
    ensures { Gives (λ x. x) result fields.new (levels_at slots fields.old) }
{
    let Some(mut lines) = Lines::new(slots) else {
        unreachable!()
    };
    for place in 0..LEVEL_BYTES {
        let bad = fields.fault(PartFaultKind::BadLevels);
        let byte = fields.byte()?;
        if !set_four(&mut lines, 4 * place, byte) {
            return Err(FieldError::Fault(bad));
        }
    }
    Ok(lines)
}

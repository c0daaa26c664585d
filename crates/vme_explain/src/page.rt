//! The text that explains a verdict.

ghost use Rattle.std.specs.Prelude.{◌≤◌, IfOk};
ghost use Rattle.vme_text.specs.Escaping.{IsVisible};

use crate::broken::{push_driver, push_others};
use crate::driver::push_label;
use crate::level_characters::line_characters;
use crate::scale::time_name;
use crate::sources::{bound_to, push_variable};
use crate::summary::{push_never_idle, push_summary};
use crate::values::{ValueRow, push_value};
use crate::window::excerpt_of;
use crate::wrapping::{LONGEST, wrapped};
use std::alloc::{AllocError, Global};
use vcd_read::Variable;
use vme_account::{Account, Part};
use vme_listing::{
    AnswerLine, Row, address_digits, data_digits, direction_text, hexadecimal_digits,
};
use vme_rules::push_rule;
use vme_text::{Text, escaped_text};
use vme_trace::{Break, Class, Lanes, Line, Lines, Verdict};

/// The least width of the names of rows, in characters.
const NAMES: usize = 8;

/// What is explained.
#[derive(Clone, Copy)]
pub struct Subject<'a> {
    /// The account of the recording.
    pub account: &'a Account,
    /// Its verdict.
    pub verdict: &'a Verdict,
    /// The text of the binding.
    pub binding: &'a [u8],
    /// The variables of the dump.
    pub variables: &'a [Variable],
    /// The number in the time scale: a time of the dump is that many units, e.g. 10 for 10 ns.
    pub time_unit: u64,
    /// The time scale of the dump, as `10ns`, or empty.
    pub time_scale: &'a [u8],
}

/// Why a recording is judged as it is: the text after the line of its verdict, in visible characters alone. It fails if
/// memory runs out.
pub fn explanation(alloc: Global, subject: &Subject<'_>) -> Result<Text, AllocError>
    ensures { IfOk result (λ text. IsVisible text) }
{
    let mut text = Text::new(alloc);
    match subject.verdict {
        Verdict::Broken(found) | Verdict::Unreadable(found) => {
            push_break(&mut text, alloc, subject, found)?
        }
        Verdict::Conforming => push_summary(&mut text, alloc, subject)?,
        Verdict::NeverIdle => push_never_idle(&mut text, alloc, subject)?,
    }
    // names are escaped already, since lines are wrapped by what is shown; whatever else needs it is escaped here
    let lines = wrapped(alloc, text.as_bytes())?;
    escaped_text(alloc, lines.as_bytes())
}

/// Appends why and where a rule is broken.
fn push_break(
    text: &mut Text,
    alloc: Global,
    subject: &Subject<'_>,
    found: &Break,
) -> Result<(), AllocError> {
    text.push(b"\n")?;
    push_rule(text, found.rule)?;
    text.push(b"\nopen before the break:\n")?;
    push_open(text, alloc, subject)?;
    push_line_value(text, alloc, subject, found)?;
    push_others(text, alloc, subject, found)?;
    text.push(b"\n")?;
    push_excerpt(text, alloc, subject, found)
}

/// Appends which tenure, cycle and transfer are open where the listing ends, a line for each. It fails if memory runs
/// out, and then nothing is said of the text.
pub fn push_open(text: &mut Text, alloc: Global, subject: &Subject<'_>) -> Result<(), AllocError> {
    for (part, name) in [
        (Part::Tenure, "tenure: "),
        (Part::Cycle, "cycle: "),
        (Part::Transfer, "transfer: "),
    ] {
        text.push(name.as_bytes())?;
        match subject.account.open_row(part) {
            Some(row) => push_open_row(text, alloc, subject.account, &row)?,
            None => text.push(b"none")?,
        }
        text.push(b"\n")?;
    }
    Ok(())
}

/// Appends what a row says that is open at the break.
fn push_open_row(
    text: &mut Text,
    alloc: Global,
    account: &Account,
    row: &Row,
) -> Result<(), AllocError> {
    match row {
        Row::OpenTenure { start, .. } => {
            text.push(b"open before judging starts")?;
            push_since(text, alloc, account, *start)
        }
        Row::Tenure {
            start,
            level,
            slot,
            ..
        } => {
            text.push(b"level ")?;
            text.push_decimal(alloc, u64::from(*level))?;
            text.push(b", slot ")?;
            text.push_decimal(alloc, u64::from(*slot))?;
            push_since(text, alloc, account, *start)
        }
        Row::AddressedCycle {
            start,
            class,
            modifier,
            address,
            ..
        } => {
            push_addressed(text, *class, *modifier, *address)?;
            push_since(text, alloc, account, *start)
        }
        Row::FreeCycle {
            start,
            modifier,
            ..
        } => {
            text.push(b"AM ")?;
            push_hexadecimal(text, u32::from(*modifier), 2)?;
            push_since(text, alloc, account, *start)
        }
        Row::InterruptCycle { start, level, .. } => {
            text.push(b"interrupt acknowledge of level ")?;
            text.push_decimal(alloc, u64::from(*level))?;
            push_since(text, alloc, account, *start)
        }
        _ => push_open_transfer(text, alloc, account, row),
    }
}

/// Appends what the row of a transfer says that is open at the break.
fn push_open_transfer(
    text: &mut Text,
    alloc: Global,
    account: &Account,
    row: &Row,
) -> Result<(), AllocError> {
    match row {
        Row::Transfer {
            start,
            direction,
            line,
            answer,
            lanes,
            ..
        } => {
            text.push(direction_text(*direction))?;
            push_since(text, alloc, account, *start)?;
            match line {
                AnswerLine::Dtack => text.push(b", answered by DTACK at instant ")?,
                AnswerLine::Berr => text.push(b", answered by BERR at instant ")?,
            }
            push_instant(text, alloc, account, *answer)?;
            push_data(text, *lanes)
        }
        Row::PendingTransfer { start, direction } => {
            text.push(direction_text(*direction))?;
            push_since(text, alloc, account, *start)?;
            text.push(b", not answered")
        }
        _ => Ok(()),
    }
}

/// Appends the data of a write.
fn push_data(text: &mut Text, lanes: Option<Lanes>) -> Result<(), AllocError> {
    match lanes {
        Some(lanes) => {
            text.push(b", data ")?;
            text.push(&data_digits(lanes))
        }
        None => Ok(()),
    }
}

/// Appends the class, the code and the address of a cycle.
fn push_addressed(
    text: &mut Text,
    class: Class,
    modifier: u8,
    address: u32,
) -> Result<(), AllocError> {
    match class {
        Class::K => text.push(b"block transfer, AM ")?,
        _ => text.push(b"single, AM ")?,
    }
    push_hexadecimal(text, u32::from(modifier), 2)?;
    text.push(b", address ")?;
    push_hexadecimal(text, address, address_digits(modifier))
}

/// Appends the last `digits` hexadecimal digits of a number.
fn push_hexadecimal(text: &mut Text, number: u32, digits: usize) -> Result<(), AllocError>
    requires { digits ≤ 8 }
{
    let glyphs = hexadecimal_digits(number);
    text.push(&glyphs[8 - digits..])
}

/// Appends since which instant something lasts.
fn push_since(
    text: &mut Text,
    alloc: Global,
    account: &Account,
    instant: u32,
) -> Result<(), AllocError> {
    text.push(b", since instant ")?;
    push_instant(text, alloc, account, instant)
}

/// Appends an instant and its time.
pub(crate) fn push_instant(
    text: &mut Text,
    alloc: Global,
    account: &Account,
    instant: u32,
) -> Result<(), AllocError> {
    text.push_decimal(alloc, u64::from(instant))?;
    match account.time_at(instant) {
        Some(time) => push_time(text, alloc, time),
        None => Ok(()),
    }
}

/// Appends the time of an instant, after the instant.
pub(crate) fn push_time(text: &mut Text, alloc: Global, time: u64) -> Result<(), AllocError> {
    text.push(b" time ")?;
    text.push_decimal(alloc, time)
}

/// The time of a shown instant. The times of the shown instants are kept.
pub fn shown_time(account: &Account, instant: u32) -> u64 {
    account.time_at(instant).unwrap_or(0)
}

/// Appends a line with the variable of a break's line, the levels there, and the driver if the line is a net. It fails
/// if memory runs out, and then nothing is said of the text.
pub fn push_line_value(
    text: &mut Text,
    alloc: Global,
    subject: &Subject<'_>,
    found: &Break,
) -> Result<(), AllocError> {
    text.push(b"line ")?;
    text.push(found.line.name().as_bytes())?;
    text.push(b": ")?;
    let slots = subject.account.opening().slots();
    if let Some(bound) = bound_to(subject.binding, found.line, slots) {
        text.push(b"variable ")?;
        push_variable(text, alloc, &bound, subject.variables)?;
        text.push(b", ")?;
    }
    let at = found.instant;
    let levels = subject
        .account
        .levels_from(alloc, at.saturating_sub(1), at)?;
    let characters = line_characters(alloc, found.line, levels.as_slice())?;
    if let (Some(before), Some(now)) = (characters.first(), characters.last()) {
        text.push(&[*before])?;
        text.push(b" before and ")?;
        text.push(&[*now])?;
        text.push(b" at the break")?;
    }
    push_driver(text, alloc, found.line)?;
    text.push(b"\n")
}

/// The widths of the columns of an excerpt, in characters.
#[derive(Clone, Copy)]
struct Widths {
    /// The width of the names.
    names: usize,
    /// The width of each instant.
    column: usize,
}

/// Appends the levels of some lines around a break, and the values of the buses.
fn push_excerpt(
    text: &mut Text,
    alloc: Global,
    subject: &Subject<'_>,
    found: &Break,
) -> Result<(), AllocError> {
    let account = subject.account;
    let excerpt = excerpt_of(alloc, subject)?;
    let all = excerpt.levels.as_slice();
    let last = excerpt.last;
    let widths = Widths {
        names: names_width(alloc, subject, excerpt.lines.as_slice())?,
        column: column_width(alloc, shown_time(account, last), excerpt.values.as_slice())?,
    };
    // as many of the instants as fit a line
    let columns = (LONGEST.saturating_sub(widths.names) / widths.column.max(1)).max(1);
    let left_out = all
        .len()
        .saturating_sub(columns)
        .min(found.instant.saturating_sub(excerpt.first) as usize);
    let first = excerpt.first.saturating_add(left_out as u32);
    let levels = &all[left_out.min(all.len())..];
    push_padded(text, b"instant", widths.names)?;
    for instant in first..last.saturating_add(1) {
        push_number(text, alloc, u64::from(instant), widths.column)?;
    }
    text.push(b"\n")?;
    push_padded(text, time_name(subject.time_scale).as_bytes(), widths.names)?;
    for instant in first..last.saturating_add(1) {
        push_number(text, alloc, shown_time(account, instant), widths.column)?;
    }
    text.push(b"\n")?;
    for line in &excerpt.lines {
        push_levels(text, alloc, *line, levels, widths)?;
    }
    for row in &excerpt.values {
        push_padded(text, row.name.as_bytes(), widths.names)?;
        for place in left_out..left_out.saturating_add(levels.len()) {
            push_value(text, row, place, widths.column)?;
        }
        text.push(b"\n")?;
    }
    push_padded(text, b"", widths.names)?;
    let before = found.instant.saturating_sub(first) as usize;
    text.push_spaces(
        before
            .saturating_mul(widths.column)
            .saturating_add(widths.column.saturating_sub(1)),
    )?;
    text.push(b"^\n")
}

/// The width of the names of the rows, in characters.
fn names_width(alloc: Global, subject: &Subject<'_>, lines: &[Line]) -> Result<usize, AllocError> {
    let mut width = NAMES.max(time_name(subject.time_scale).len());
    for line in lines {
        let mut label = Text::new(alloc);
        push_label(&mut label, alloc, *line)?;
        width = width.max(label.as_bytes().len());
    }
    Ok(width)
}

/// The width of a column in characters, where `time` is the greatest time in it: at least one more than the longest
/// value, and at least two more than the time.
fn column_width(alloc: Global, time: u64, values: &[ValueRow]) -> Result<usize, AllocError> {
    let mut digits = Text::new(alloc);
    digits.push_decimal(alloc, time)?;
    let mut width = digits.as_bytes().len().saturating_add(2);
    for row in values {
        width = width.max(row.width.saturating_add(1));
    }
    Ok(width)
}

/// Appends the name of a row, with spaces up to a width.
fn push_padded(text: &mut Text, name: &[u8], width: usize) -> Result<(), AllocError> {
    text.push(name)?;
    text.push_spaces(width.saturating_sub(name.len()))
}

/// Appends a number, after spaces up to a width.
fn push_number(
    text: &mut Text,
    alloc: Global,
    number: u64,
    width: usize,
) -> Result<(), AllocError> {
    let mut digits = Text::new(alloc);
    digits.push_decimal(alloc, number)?;
    text.push_spaces(width.saturating_sub(digits.as_bytes().len()))?;
    text.push(digits.as_bytes())
}

/// Appends the levels of a line.
fn push_levels(
    text: &mut Text,
    alloc: Global,
    line: Line,
    levels: &[Lines],
    widths: Widths,
) -> Result<(), AllocError> {
    let mut label = Text::new(alloc);
    push_label(&mut label, alloc, line)?;
    push_padded(text, label.as_bytes(), widths.names)?;
    for character in &line_characters(alloc, line, levels)? {
        text.push_spaces(widths.column.saturating_sub(1))?;
        text.push(&[*character])?;
    }
    text.push(b"\n")
}

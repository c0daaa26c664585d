//! Steps from texts.

use smallvec::SmallVec;
use std::alloc::Global;
use vme_trace::{Change, Changes, LINE_COUNT, Level, Line, Lines, Step};

/// Lines with consecutive numbers, by the numbers of the first and the last.
#[derive(Clone, Copy)]
struct LineRange {
    first: u8,
    last: u8,
}

const A24_TO_A31: LineRange = LineRange {
    first: 37,
    last: 44,
};

const D00_TO_D31: LineRange = LineRange {
    first: 159,
    last: 190,
};

const D16_TO_D31: LineRange = LineRange {
    first: 175,
    last: 190,
};

const SYSRESET: LineRange = LineRange {
    first: 191,
    last: 191,
};

/// Whether the number of a line is in one of the ranges.
fn is_within(number: u8, ranges: &[LineRange]) -> bool {
    for range in ranges {
        if range.first <= number && number <= range.last {
            return true;
        }
    }
    false
}

/// The change that `word` denotes, e.g. BR3=0.
fn change_of(word: &str) -> Option<Change> {
    let (name, level) = word.split_once('=')?;
    let level = match level.as_bytes() {
        [b'0'] => Level::Low,
        [b'1'] => Level::High,
        [b'x'] => Level::Unknown,
        _ => return None,
    };
    Some(Change {
        line: Line::from_name(name.as_bytes())?,
        level,
    })
}

/// Appends a change to High for each line of the backplane but those in the ranges `left_out`.
fn push_high(changes: &mut Vec<Change>, lines: &Lines, left_out: &[LineRange]) -> Option<()> {
    for number in 0..LINE_COUNT {
        let line = Line::from_number(number)?;
        if lines.has(line) && !is_within(number, left_out) {
            let level = Level::High;
            changes.push(Change { line, level }).ok()?;
        }
    }
    Some(())
}

/// Appends the changes that `word` denotes.
fn push_word(changes: &mut Vec<Change>, lines: &Lines, word: &str) -> Option<()> {
    if word == "high" {
        return push_high(changes, lines, &[]);
    }
    if word == "high_but_A24_to_A31" {
        return push_high(changes, lines, &[A24_TO_A31]);
    }
    if word == "high_but_A24_to_A31_D00_to_D31" {
        return push_high(changes, lines, &[A24_TO_A31, D00_TO_D31]);
    }
    if word == "high_but_A24_to_A31_D16_to_D31" {
        return push_high(changes, lines, &[A24_TO_A31, D16_TO_D31]);
    }
    if word == "high_but_SYSRESET" {
        return push_high(changes, lines, &[SYSRESET]);
    }
    changes.push(change_of(word)?).ok()
}

/// The changes that the words of `text` denote, on the backplane of `lines`.
pub(crate) fn changes_of(alloc: Global, lines: &Lines, text: &str) -> Option<Vec<Change>> {
    let mut changes = Vec::new(alloc);
    for word in text.split_whitespace() {
        push_word(&mut changes, lines, word)?;
    }
    Some(changes)
}

/// The step at `time` that the words of `text` denote, on the backplane of `lines`.
pub fn step_of(alloc: Global, lines: &Lines, time: u64, text: &str) -> Option<Step> {
    let changes = changes_of(alloc, lines, text)?;
    let list = SmallVec::from_slice(alloc, changes.as_slice()).ok()?;
    Some(Step {
        time,
        changes: Changes::new(list),
    })
}

/// Appends the steps that `text` denotes, on the backplane of `lines`. Where `steps` has some, the times continue.
pub fn push_steps(alloc: Global, steps: &mut Vec<Step>, lines: &Lines, text: &str) -> Option<()> {
    for part in text.split(';') {
        if !part.is_empty() {
            let time = (steps.len() as u64).saturating_mul(10);
            steps.push(step_of(alloc, lines, time, part)?).ok()?;
        }
    }
    Some(())
}

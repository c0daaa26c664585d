//! What a dump has instead of what a binding asks for: the paths that are nearest to one that it lacks, and the bits of
//! a vector that fit some lines.

use std::alloc::{AllocError, Global};
use vcd_read::Variable;
use vme_faults::nearest;
use vme_text::{Text, push_escaped};

/// How many paths are shown, at most.
const MOST: usize = 3;

/// The line of a binding whose source isn't found, or doesn't fit.
#[derive(Clone, Copy)]
pub(crate) struct FaultySource<'a> {
    /// The line of the backplane, or the group.
    pub(crate) name: &'a [u8],
    /// What it is bound to.
    pub(crate) source: &'a [u8],
    /// How many slots the backplane has.
    pub(crate) slots: u8,
}

/// Appends the variables of a dump whose paths are nearest to that of a source.
pub(crate) fn push_nearest(
    shown: &mut Text,
    alloc: Global,
    faulty: FaultySource<'_>,
    variables: &[Variable],
) -> Result<(), AllocError> {
    let near = nearest(alloc, path_in(faulty.source), variables, MOST)?;
    if near.is_empty() {
        return Ok(());
    }
    shown.push(b"nearest in the dump:\n")?;
    for found in near.iter() {
        if let Some(variable) = variables.get(found.place) {
            shown.push(b"    ")?;
            push_variable(shown, alloc, variable)?;
            shown.push(b"\n")?;
        }
    }
    Ok(())
}

/// Appends how many bits each variable of a source's path has, how many lines the name has, and the bits that fit them.
pub(crate) fn push_widths(
    shown: &mut Text,
    alloc: Global,
    faulty: FaultySource<'_>,
    variables: &[Variable],
) -> Result<(), AllocError> {
    let path = path_in(faulty.source);
    for variable in variables.iter() {
        if variable.path.as_bytes() == path {
            push_width(shown, alloc, faulty, variable)?;
        }
    }
    Ok(())
}

/// Appends the width of a variable and that of a name, and the bits that fit.
fn push_width(
    shown: &mut Text,
    alloc: Global,
    faulty: FaultySource<'_>,
    variable: &Variable,
) -> Result<(), AllocError> {
    let (first, last) = numbers_of(faulty.name, faulty.slots);
    push_variable(shown, alloc, variable)?;
    shown.push(b", and ")?;
    push_escaped(shown, alloc, faulty.name)?;
    shown.push(b" has ")?;
    push_count(
        shown,
        alloc,
        first.saturating_sub(last).saturating_add(1),
        "line",
    )?;
    shown.push(b"\n")?;
    match variable.index {
        Some((left, right)) if last < first && first <= left && right <= last => {
            shown.push(b"these bits fit: ")?;
            push_escaped(shown, alloc, variable.path.as_bytes())?;
            push_index(shown, alloc, first, last)?;
            shown.push(b"\n")
        }
        _ => Ok(()),
    }
}

/// Appends the path of a variable with its index, and how many bits it has.
fn push_variable(shown: &mut Text, alloc: Global, variable: &Variable) -> Result<(), AllocError> {
    push_escaped(shown, alloc, variable.path.as_bytes())?;
    if let Some((left, right)) = variable.index {
        push_index(shown, alloc, left, right)?;
    }
    shown.push(b", ")?;
    push_count(shown, alloc, variable.size, "bit")
}

/// Appends the index of some bits.
fn push_index(shown: &mut Text, alloc: Global, left: u32, right: u32) -> Result<(), AllocError> {
    shown.push(b"[")?;
    shown.push_decimal(alloc, u64::from(left))?;
    if left != right {
        shown.push(b":")?;
        shown.push_decimal(alloc, u64::from(right))?;
    }
    shown.push(b"]")
}

/// Appends how many of something there are.
fn push_count(shown: &mut Text, alloc: Global, count: u32, what: &str) -> Result<(), AllocError> {
    shown.push_decimal(alloc, u64::from(count))?;
    shown.push(b" ")?;
    shown.push(what.as_bytes())?;
    if count == 1 {
        return Ok(());
    }
    shown.push(b"s")
}

/// The path of a source, without the bits that it selects.
fn path_in(source: &[u8]) -> &[u8] {
    match source.iter().rposition(|byte| *byte == b'[') {
        Some(at) if source.ends_with(b"]") => source.get(..at).unwrap_or(source),
        _ => source,
    }
}

/// The numbers of the first and the last line of a group. They are equal where the name is that of a single line.
fn numbers_of(name: &[u8], slots: u8) -> (u32, u32) {
    let slots = u32::from(slots);
    match name {
        b"AM" => (5, 0),
        b"A" => (31, 1),
        b"D" => (31, 0),
        b"BR" => (3, 0),
        b"IA" => (slots, 1),
        b"BG0" | b"BG1" | b"BG2" | b"BG3" => (slots, 0),
        _ => (0, 0),
    }
}

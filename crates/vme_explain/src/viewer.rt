//! A save file for the waveform viewer GTKWave.

ghost use Rattle.std.specs.Prelude.{◌≡◌, ◌++◌, ℕ, IfOk, List, nat_eq};
ghost use Rattle.std.specs.List.{starts_with};
ghost use Rattle.vme_explain.specs.SaveFile.{save_file_first_line};

use crate::page::{Subject, shown_time};
use crate::sources::{assignment_in, bits_before, bound_to, path_of, variable_of};
use std::alloc::{AllocError, Global};
use vcd_read::Variable;
use vme_text::{Text, push_escaped};
use vme_trace::{Break, Verdict};

/// How many instants before the break the view begins.
const BEFORE: u32 = 8;

/// The marker is at most 300 points from the left edge of the view: one and a half divisions of the time axis, of 200
/// points each. The names take 300 points, so the marker is visible in a window 1,000 points wide.
const HALF_DIVISIONS: u64 = 3;

/// The first line of a save file of this program.
fn first_line() -> &'static [u8]
    ensures { result.now ≡ save_file_first_line }
{
    b"[*] written by vmecheck explain\n"
}

/// Whether a file begins like a save file of this program.
pub fn is_save_file(begin: &[u8]) -> bool
    ensures { result ≡ starts_with nat_eq begin.now save_file_first_line }
{
    begin.starts_with(first_line())
}

/// The save file for the dump of name `dump`: the bound variables, each once, and a marker at the break, if there is
/// one. It fails if memory runs out.
pub fn save_file(alloc: Global, subject: &Subject<'_>, dump: &[u8]) -> Result<Text, AllocError>
    ensures { IfOk result (λ text. (rest : List ℕ) × (text ≡ save_file_first_line ++ rest)) }
{
    let mut text = Text::new(alloc);
    text.push(first_line())?;
    let rest = view_and_traces(alloc, subject, dump)?;
    text.push(rest.as_bytes())?;
    Ok(text)
}

/// Lines of one kind, which the viewer shows together.
struct TraceGroup {
    name: &'static str,
    /// How the names of this kind begin in a binding.
    names: &'static [&'static str],
}

/// The groups of lines, in the order in which they are shown.
const GROUPS: [TraceGroup; 5] = [
    TraceGroup {
        name: "handshake",
        names: &["AS", "DS0", "DS1", "DTACK", "BERR", "WRITE"],
    },
    TraceGroup {
        name: "address and data",
        names: &["AM", "A", "LWORD", "D"],
    },
    TraceGroup {
        name: "arbitration",
        names: &["BBSY", "BR", "BG"],
    },
    TraceGroup {
        name: "interrupt acknowledge",
        names: &["IACK", "IA"],
    },
    TraceGroup {
        name: "reset",
        names: &["SYSRESET"],
    },
];

/// The index in `GROUPS` of a binding's name: the group of the longest matching beginning, since `BERR` begins with
/// `B`.
fn group_of(name: &[u8]) -> Option<usize> {
    let mut longest = 0;
    let mut found = None;
    for (place, group) in GROUPS.iter().enumerate() {
        for begin in group.names {
            if begin.len() > longest && name.starts_with(begin.as_bytes()) {
                longest = begin.len();
                found = Some(place);
            }
        }
    }
    found
}

/// What a save file has after its first line: the dump, the view, the variable of the broken line, and all variables by
/// kind, each once.
fn view_and_traces(alloc: Global, subject: &Subject<'_>, dump: &[u8]) -> Result<Text, AllocError> {
    let mut text = Text::new(alloc);
    push_dump(&mut text, dump)?;
    push_view(&mut text, alloc, subject)?;
    push_broken(&mut text, alloc, subject)?;
    let mut written: Vec<&[u8]> = Vec::new(alloc);
    for (place, group) in GROUPS.iter().enumerate() {
        let mut is_begun = false;
        for line in subject.binding.split(|byte| *byte == b'\n') {
            if let Some(found) = assignment_in(line) {
                let (path, _) = path_of(found.source);
                let is_new = group_of(found.name) == Some(place)
                    && !written.iter().any(|other| *other == path)
                    && variable_of(path, subject.variables).is_some();
                if is_new {
                    if !is_begun {
                        push_heading(&mut text, group.name)?;
                        is_begun = true;
                    }
                    written.push(path)?;
                    push_traces(&mut text, alloc, subject.variables, path)?;
                }
            }
        }
    }
    text.push(b"[pattern_trace] 1\n[pattern_trace] 0\n")?;
    Ok(text)
}

/// Appends the variable of the line of a break, if it is bound to one.
fn push_broken(text: &mut Text, alloc: Global, subject: &Subject<'_>) -> Result<(), AllocError> {
    let line = match subject.verdict {
        Verdict::Broken(found) | Verdict::Unreadable(found) => found.line,
        _ => return Ok(()),
    };
    let Some(bound) = bound_to(subject.binding, line, subject.account.opening().slots()) else {
        return Ok(());
    };
    let (path, _) = path_of(bound.source);
    let Some(variable) = variable_of(path, subject.variables) else {
        return Ok(());
    };
    push_heading(text, "the broken line")?;
    if variable.size == 1 {
        return push_traces(text, alloc, subject.variables, path);
    }
    // one bit of a vector
    text.push(b"@28\n(")?;
    let before = bits_before(&bound, subject.variables);
    text.push_decimal(alloc, u64::from(before))?;
    text.push(b")")?;
    push_escaped(text, alloc, path)?;
    push_index(text, alloc, variable)?;
    text.push(b"\n")
}

/// Appends a heading for the lines below it.
fn push_heading(text: &mut Text, name: &str) -> Result<(), AllocError> {
    text.push(b"@200\n-")?;
    text.push(name.as_bytes())?;
    text.push(b"\n")
}

/// Appends the name of the dump as it is, since the viewer opens it, and knows no escapes. A name with a quotation
/// mark, a control character or a character that turns the direction of a line is left out. Then the user opens the
/// dump in the viewer by hand.
fn push_dump(text: &mut Text, name: &[u8]) -> Result<(), AllocError> {
    for at in 0..name.len() {
        if begins_unfit(name.get(at..).unwrap_or(b"")) {
            return Ok(());
        }
    }
    text.push(b"[dumpfile] \"")?;
    text.push(name)?;
    text.push(b"\"\n")
}

/// Whether `bytes` begins with a character that no name in a save file has: a quotation mark, a control character, or
/// one that turns the direction of a line, in UTF-8.
fn begins_unfit(bytes: &[u8]) -> bool {
    match bytes {
        [0x00..=0x1F | b'"' | 0x7F, ..] => true,
        [0xC2, 0x80..=0x9F, ..] => true,
        [0xD8, 0x9C, ..] => true,
        [0xE2, 0x80, 0x8E | 0x8F | 0xAA..=0xAE, ..] => true,
        [0xE2, 0x81, 0xA6..=0xA9, ..] => true,
        _ => false,
    }
}

/// Appends where the view begins, its scale, and the marker. The viewer counts them in the unit of the time scale.
fn push_view(text: &mut Text, alloc: Global, subject: &Subject<'_>) -> Result<(), AllocError> {
    let account = subject.account;
    let (first, marker) = match subject.verdict {
        Verdict::Broken(Break { instant, time, .. })
        | Verdict::Unreadable(Break { instant, time, .. }) => {
            (instant.saturating_sub(BEFORE), Some(*time))
        }
        _ => (0, None),
    };
    let from = shown_time(account, first.max(1));
    let to = match marker {
        Some(time) => time,
        None => shown_time(account, account.end()),
    };
    let unit = subject.time_unit;
    let (from, to) = (from.saturating_mul(unit), to.saturating_mul(unit));
    text.push(b"[sst_expanded] 0\n[signals_width] 300\n[timestart] ")?;
    text.push_decimal(alloc, from)?;
    text.push(b"\n*-")?;
    text.push_decimal(alloc, scale(to.saturating_sub(from)))?;
    text.push(b".000000 ")?;
    match marker {
        Some(_) => text.push_decimal(alloc, to)?,
        None => text.push(b"-1")?,
    }
    for _ in 0..26 {
        text.push(b" -1")?;
    }
    text.push(b"\n")
}

/// How often a division, which is one time unit at first, is doubled until one and a half divisions hold `span`.
fn scale(span: u64) -> u64 {
    let mut doublings: u64 = 0;
    for doubled in 0..63u32 {
        if (HALF_DIVISIONS << doubled.min(61)) / 2 < span {
            doublings = u64::from(doubled).saturating_add(1);
        }
    }
    doublings
}

/// Appends the variables of a path, by their indices.
fn push_traces(
    text: &mut Text,
    alloc: Global,
    variables: &[Variable],
    path: &[u8],
) -> Result<(), AllocError> {
    for variable in variables {
        if variable.path.as_bytes() == path {
            let form = if variable.size == 1 { "@28\n" } else { "@22\n" };
            text.push(form.as_bytes())?;
            push_escaped(text, alloc, path)?;
            push_index(text, alloc, variable)?;
            text.push(b"\n")?;
        }
    }
    Ok(())
}

/// Appends the index of a variable. The viewer numbers the bits of a vector without one down to 0.
fn push_index(text: &mut Text, alloc: Global, variable: &Variable) -> Result<(), AllocError> {
    let (left, right) = match variable.index {
        Some(index) => index,
        None if variable.size > 1 => (variable.size - 1, 0),
        None => return Ok(()),
    };
    text.push(b"[")?;
    text.push_decimal(alloc, u64::from(left))?;
    if left != right {
        text.push(b":")?;
        text.push_decimal(alloc, u64::from(right))?;
    }
    text.push(b"]")
}

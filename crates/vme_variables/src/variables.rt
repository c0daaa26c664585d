//! The variables of a dump as text.

ghost use Rattle.std.specs.Prelude.{◌≡◌, List, IfErr, IfOk, Ok, OnOk};
ghost use Rattle.vcd_read.specs.Meaning.{ReadFails, dump_of, instants_from};
ghost use Rattle.vcd_read.specs.declared.dump.Instant.{Instant};
ghost use Rattle.vcd_read.specs.declared.fault.FaultKind.TheVariants.{Memory};
ghost use Rattle.vme_declarations.specs.Dumps.{IsDump};
ghost use Rattle.vme_text.specs.Escaping.{IsVisible};

use crate::changes::ChangeCounts;
use crate::timescale::push_timescale;
use std::alloc::{AllocError, Global};
use vcd_read::{FaultKind, Head, Variable, Variables, VcdFault, read_definitions};
use vme_text::{Text, escaped_text};

/// The variables of the text of a dump, one a line in the order of their declaration: for each the number of its value
/// changes, its width in bits, and its path with its index, as a binding names it. Its first value is one of the value
/// changes, and so is a value that it has already. Before the variables are the time scale and the last time. A byte of
/// a name that isn't a visible character is written as `\xHH`.
///
/// There is a text only for a dump without a fault. A fault is the dump's first one; at line 0 it is want of memory.
pub fn variables_text(alloc: Global, dump: &[u8]) -> Result<Text, VcdFault>
    ensures ok { OnOk result (IsDump dump.now) }
    ensures visible { IfOk result (λ text. IsVisible text) }
    ensures err { IfErr result (λ fault. ReadFails fault (dump_of dump.now)) }
{
    match read_definitions(alloc, dump, Variables::new(alloc)) {
        Ok((head, variables)) => variables_after(alloc, dump, &head, variables.as_slice()),
        Err(fault) => Err(fault),
    }
}

/// The text of the variables of a dump, after its definitions `head` are read.
fn variables_after(
    alloc: Global,
    dump: &[u8],
    head: &Head<'_>,
    variables: &[Variable],
) -> Result<Text, VcdFault>
    ensures ok { OnOk result ((instants : List Instant) × instants_from head.now.nets head.now.body ≡ Ok instants) }
    ensures visible { IfOk result (λ text. IsVisible text) }
    ensures err { IfErr result (λ fault. ReadFails fault (instants_from head.now.nets head.now.body)) }
{
    match changes_in(alloc, head) {
        Ok(changes) => match escaped_lines(alloc, dump, variables, &changes) {
            Ok(text) => Ok(text),
            Err(_) => Err(no_memory()),
        },
        Err(fault) => Err(fault),
    }
}

/// How many value changes of each net are in the body after the definitions `head`.
fn changes_in(alloc: Global, head: &Head<'_>) -> Result<ChangeCounts, VcdFault>
    ensures ok { OnOk result ((instants : List Instant) × instants_from head.now.nets head.now.body ≡ Ok instants) }
    ensures err { IfErr result (λ fault. ReadFails fault (instants_from head.now.nets head.now.body)) }
{
    match ChangeCounts::zeros(alloc, head.net_count()) {
        Ok(zeros) => head.read_body(alloc, zeros),
        Err(_) => Err(no_memory()),
    }
}

/// Memory ran out.
fn no_memory() -> VcdFault
    ensures { result ≡ record { line = 0; kind = Memory } }
{
    VcdFault {
        line: 0,
        kind: FaultKind::Memory,
    }
}

/// The lines of the text, with the names escaped.
fn escaped_lines(
    alloc: Global,
    dump: &[u8],
    variables: &[Variable],
    changes: &ChangeCounts,
) -> Result<Text, AllocError>
    ensures { IfOk result (λ text. IsVisible text) }
{
    let lines = lines_of(alloc, dump, variables, changes)?;
    escaped_text(alloc, lines.as_bytes())
}

/// The lines of the text, with the names as they are.
fn lines_of(
    alloc: Global,
    dump: &[u8],
    variables: &[Variable],
    changes: &ChangeCounts,
) -> Result<Text, AllocError> {
    let mut text = Text::new(alloc);
    let mut scale = Text::new(alloc);
    push_timescale(&mut scale, dump)?;
    text.push(b"time scale ")?;
    if scale.as_bytes().is_empty() {
        text.push(b"none")?;
    } else {
        text.push(scale.as_bytes())?;
    }
    text.push(b"\nlast time ")?;
    text.push_decimal(alloc, changes.last())?;
    text.push(b"\nchanges bits variable\n")?;
    for variable in variables {
        push_column(&mut text, alloc, changes.count(variable.net), 7)?;
        push_column(&mut text, alloc, u64::from(variable.size), 5)?;
        push_variable(&mut text, alloc, variable)?;
    }
    Ok(text)
}

/// Appends a number right-aligned, and a space.
fn push_column(
    text: &mut Text,
    alloc: Global,
    number: u64,
    width: usize,
) -> Result<(), AllocError> {
    let mut digits = Text::new(alloc);
    digits.push_decimal(alloc, number)?;
    text.push_spaces(width.saturating_sub(digits.as_bytes().len()))?;
    text.push(digits.as_bytes())?;
    text.push(b" ")
}

/// Appends the path of a variable and its index.
fn push_variable(text: &mut Text, alloc: Global, variable: &Variable) -> Result<(), AllocError> {
    text.push(variable.path.as_bytes())?;
    if let Some((left, right)) = variable.index {
        text.push(b"[")?;
        text.push_decimal(alloc, u64::from(left))?;
        if left != right {
            text.push(b":")?;
            text.push_decimal(alloc, u64::from(right))?;
        }
        text.push(b"]")?;
    }
    text.push(b"\n")
}

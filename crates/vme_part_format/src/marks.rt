//! Writing and reading marks. Each is written by the distance of its instant from that of the mark before it.

ghost use Rattle.std.specs.Prelude.{◌≡◌, ◌^◌, ◌<◌, ◌≤◌, ◌++◌, ◌-◌, OnOk};
ghost use Rattle.vme_part_format.specs.Bounds.{AreAscending};
ghost use Rattle.vme_part_format.specs.PartText.{kind_bytes, kind_code, mark_bytes, marks_bytes, moved_code};
ghost use Rattle.vme_part_format.specs.PartText.{bytes_of_width, class_code, width_code};
ghost use Rattle.vme_part_format.specs.Reading.{Gives, cycle_at, distance_at, distance_number_at};
ghost use Rattle.vme_part_format.specs.Reading.{instant_at, kind_at};
ghost use Rattle.vme_part_format.specs.Reading.{mark_at, marks_at, moved_of as moved_by, tenure_at, write_answer_at};

use crate::fault::{FieldError, FieldFault, PartFaultKind};
use crate::fields::Fields;
use crate::wide::WideMark;
use std::alloc::{AllocError, Global};
use vme_monitor::mark::MarkKind;
use vme_trace::{Class, Line, MovedBytes};

/// A code, 0 to 4, of how many bytes `distance` is written in: 0, 1, 2, 4 or 8.
fn width_of(distance: u64) -> u8
    ensures code { result ≡ width_code distance }
    ensures few { result ≤ 4 }
{
    match distance {
        0 => 0,
        1..=0xFF => 1,
        0x100..=0xFFFF => 2,
        0x1_0000..=0xFFFF_FFFF => 3,
        _ => 4,
    }
}

/// Adds `distance` in as few of 0, 1, 2, 4 or 8 bytes as hold it.
fn put_distance(out: &mut Vec<u8>, distance: u64) -> Result<(), AllocError>
    ensures { OnOk result (out.new.items ≡ out.old.items ++ bytes_of_width (width_code distance) distance) }
{
    match width_of(distance) {
        0 => Ok(()),
        1 => Ok(out.push(distance as u8)?),
        2 => out.extend_from_slice(&(distance as u16).to_le_bytes()),
        3 => out.extend_from_slice(&(distance as u32).to_le_bytes()),
        _ => out.extend_from_slice(&distance.to_le_bytes()),
    }
}

/// The code of the start of a cycle of this class.
fn class_number(class: Class) -> u8
    ensures code { result ≡ class_code class }
    ensures few { result < 32 }
{
    match class {
        Class::S => 5,
        Class::K => 6,
        Class::I => 7,
        Class::F => 8,
    }
}

/// The code of the bytes that a write moves.
fn moved_number(moved: MovedBytes) -> u8
    ensures { result ≡ moved_code moved }
{
    match moved {
        MovedBytes::Nothing => 0,
        MovedBytes::OddByte => 1,
        MovedBytes::EvenByte => 2,
        MovedBytes::Word => 3,
        MovedBytes::LongWord => 4,
    }
}

/// The code of a kind of mark.
fn kind_number(kind: MarkKind) -> u8
    ensures code { result ≡ kind_code kind }
    ensures few { result < 32 }
{
    match kind {
        MarkKind::Reset => 0,
        MarkKind::Start => 1,
        MarkKind::Open => 2,
        MarkKind::Tenure { .. } => 3,
        MarkKind::TenureEnd => 4,
        MarkKind::Cycle { class, .. } => class_number(class),
        MarkKind::CycleEnd => 9,
        MarkKind::Transfer { write } => { if write { 11 } else { 10 } }
        MarkKind::Answer { line } => { if line == Line::DTACK { 12 } else { 13 } }
        MarkKind::WriteAnswer { line, .. } => { if line == Line::DTACK { 14 } else { 15 } }
        MarkKind::Close => 16,
    }
}

/// Adds the values of a mark of this kind, such as the level and the slot of a tenure.
fn put_kind(out: &mut Vec<u8>, kind: MarkKind) -> Result<(), AllocError>
    ensures { OnOk result (out.new.items ≡ out.old.items ++ kind_bytes kind) }
{
    match kind {
        MarkKind::Tenure { level, slot } => out.extend_from_slice(&[level, slot]),
        MarkKind::Cycle { am, address, .. } => {
            out.push(am)?;
            out.extend_from_slice(&address.to_le_bytes())
        }
        MarkKind::WriteAnswer {
            moved,
            unknown,
            value,
            ..
        } => {
            out.push(moved_number(moved))?;
            out.push(unknown)?;
            out.extend_from_slice(&value.to_le_bytes())
        }
        MarkKind::Reset
        | MarkKind::Start
        | MarkKind::Open
        | MarkKind::TenureEnd
        | MarkKind::CycleEnd
        | MarkKind::Transfer { .. }
        | MarkKind::Answer { .. }
        | MarkKind::Close => Ok(()),
    }
}

/// Adds `mark`, by the distance of its instant from `before`.
#[tactic(auto, unfolding(crate::specs::PartText::spaced_bytes))]
fn put_mark(out: &mut Vec<u8>, before: u64, mark: &WideMark) -> Result<(), AllocError>
    requires { before ≤ mark.now.instant }
    ensures { OnOk result (out.new.items ≡ out.old.items ++ mark_bytes before mark.now) }
{
    let distance = mark.instant - before;
    out.push(32 * width_of(distance) + kind_number(mark.kind))?;
    put_distance(out, distance)?;
    put_kind(out, mark.kind)
}

/// Adds `marks`. The distance of the first is that from 0.
pub(crate) fn put_marks(out: &mut Vec<u8>, marks: &[WideMark]) -> Result<(), AllocError>
    requires { AreAscending 0 marks.now }
    ensures { OnOk result (out.new.items ≡ out.old.items ++ marks_bytes 0 marks.now) }
{
    let mut before = 0;
    for mark in marks {
        put_mark(out, before, mark)?;
        before = mark.instant;
    }
    Ok(())
}

/// Reads a distance in the width with the code `code`.
fn read_distance_number(fields: &mut Fields, code: u8) -> Result<u64, FieldError>
    ensures { Gives (λ x. x) result fields.new (distance_number_at code fields.old) }
{
    match code {
        0 => Ok(0),
        1 => Ok(u64::from(fields.byte()?)),
        2 => Ok(u64::from(fields.u16()?)),
        3 => Ok(u64::from(fields.u32()?)),
        _ => fields.u64(),
    }
}

/// Reads a distance in the width with the code `code`, which has to be the least that holds it. If it isn't, `bad` is
/// returned.
#[tactic(auto, unfolding(crate::specs::Reading::distance_at))]
fn read_distance(fields: &mut Fields, bad: FieldFault, code: u8) -> Result<u64, FieldError>
    ensures { Gives (λ x. x) result fields.new (distance_at bad code fields.old) }
{
    let distance = read_distance_number(fields, code)?;
    if width_of(distance) == code {
        Ok(distance)
    } else {
        Err(FieldError::Fault(bad))
    }
}

/// Reads an instant of a segment of `steps` steps, by its distance from `before`.
#[tactic(auto, unfolding(crate::specs::Reading::instant_at))]
fn read_instant(
    fields: &mut Fields,
    bad: FieldFault,
    steps: u64,
    before: u64,
    code: u8,
) -> Result<u64, FieldError>
    ensures { Gives (λ x. x) result fields.new (instant_at bad steps before code fields.old) }
{
    let distance = read_distance(fields, bad, code)?;
    match before.checked_add(distance) {
        Some(instant) if 0 < instant && instant <= steps => Ok(instant),
        _ => Err(FieldError::Fault(bad)),
    }
}

/// Reads the level and the slot of the start of a tenure. `bad` is returned if they are out of range.
#[tactic(auto, unfolding(crate::specs::Reading::tenure_at))]
fn read_tenure(fields: &mut Fields, bad: FieldFault) -> Result<MarkKind, FieldError>
    ensures { Gives (λ x. x) result fields.new (tenure_at bad fields.old) }
{
    let level = fields.byte()?;
    let slot = fields.byte()?;
    if level < 4 && 0 < slot && slot <= 22 {
        Ok(MarkKind::Tenure { level, slot })
    } else {
        Err(FieldError::Fault(bad))
    }
}

/// Reads the modifier code and the address of the start of a cycle. `bad` is returned if the code is over 63.
#[tactic(auto, unfolding(crate::specs::Reading::cycle_at))]
fn read_cycle(fields: &mut Fields, bad: FieldFault, class: Class) -> Result<MarkKind, FieldError>
    ensures { Gives (λ x. x) result fields.new (cycle_at bad class fields.old) }
{
    let am = fields.byte()?;
    let address = fields.u32()?;
    if am < 64 {
        Ok(MarkKind::Cycle { class, am, address })
    } else {
        Err(FieldError::Fault(bad))
    }
}

/// The bytes that a write moves, by their code, if there is such a code.
fn moved_of(code: u8) -> Option<MovedBytes>
    ensures { result ≡ moved_by code }
{
    match code {
        0 => Some(MovedBytes::Nothing),
        1 => Some(MovedBytes::OddByte),
        2 => Some(MovedBytes::EvenByte),
        3 => Some(MovedBytes::Word),
        4 => Some(MovedBytes::LongWord),
        _ => None,
    }
}

/// Reads the data of a write that `line` answers. `bad` is returned if there is no such code of moved bytes.
#[tactic(auto, unfolding(crate::specs::Reading::write_answer_at))]
fn read_write_answer(
    fields: &mut Fields,
    bad: FieldFault,
    line: Line,
) -> Result<MarkKind, FieldError>
    ensures { Gives (λ x. x) result fields.new (write_answer_at bad line fields.old) }
{
    let code = fields.byte()?;
    let unknown = fields.byte()?;
    let value = fields.u32()?;
    match moved_of(code) {
        Some(moved) => Ok(MarkKind::WriteAnswer {
            line,
            moved,
            unknown,
            value,
        }),
        None => Err(FieldError::Fault(bad)),
    }
}

/// Reads the values of a mark of the kind with the code `code`. `bad` is returned if there is no such kind.
#[tactic(auto, unfolding(crate::specs::Reading::kind_at))]
fn read_kind(fields: &mut Fields, bad: FieldFault, code: u8) -> Result<MarkKind, FieldError>
    ensures { Gives (λ x. x) result fields.new (kind_at bad code fields.old) }
{
    match code {
        0 => Ok(MarkKind::Reset),
        1 => Ok(MarkKind::Start),
        2 => Ok(MarkKind::Open),
        3 => read_tenure(fields, bad),
        4 => Ok(MarkKind::TenureEnd),
        5 => read_cycle(fields, bad, Class::S),
        6 => read_cycle(fields, bad, Class::K),
        7 => read_cycle(fields, bad, Class::I),
        8 => read_cycle(fields, bad, Class::F),
        9 => Ok(MarkKind::CycleEnd),
        10 => Ok(MarkKind::Transfer { write: false }),
        11 => Ok(MarkKind::Transfer { write: true }),
        12 => Ok(MarkKind::Answer { line: Line::DTACK }),
        13 => Ok(MarkKind::Answer { line: Line::BERR }),
        14 => read_write_answer(fields, bad, Line::DTACK),
        15 => read_write_answer(fields, bad, Line::BERR),
        16 => Ok(MarkKind::Close),
        _ => Err(FieldError::Fault(bad)),
    }
}

/// Reads a mark of a segment of `steps` steps. `before` is the instant of the mark before it, or 0.
#[tactic(auto, unfolding(crate::specs::Reading::mark_at))]
fn read_mark(fields: &mut Fields, steps: u64, before: u64) -> Result<WideMark, FieldError>
    ensures { Gives (λ x. x) result fields.new (mark_at steps before fields.old) }
{
    let bad = fields.fault(PartFaultKind::BadMark);
    let tag = fields.byte()?;
    let instant = read_instant(fields, bad, steps, before, tag / 32)?;
    let kind = read_kind(fields, bad, tag % 32)?;
    Ok(WideMark { instant, kind })
}

/// Reads `count` marks of a segment of `steps` steps. The distance of the first is that from 0.
pub(crate) fn read_marks(
    alloc: Global,
    fields: &mut Fields,
    steps: u64,
    count: u32,
) -> Result<Vec<WideMark>, FieldError>
    ensures { Gives (λ x. x.items) result fields.new (marks_at steps 0 count fields.old) }
{
    let mut marks = Vec::new(alloc);
    let mut before = 0;
    for _ in 0..count {
        let WideMark { instant, kind } = read_mark(fields, steps, before)?;
        before = instant;
        marks.push(WideMark { instant, kind })?;
    }
    Ok(marks)
}

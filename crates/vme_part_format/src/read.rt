//! Reading a part from bytes that aren't trusted.

ghost use Rattle.std.specs.Prelude.{◌≡◌, ◌-◌, ◌≤◌, IfOk, IsErr, Ok, None, drop, length, map};
ghost use Rattle.vme_part_format.specs.Bounds.{FitsNumbers, FitsPart};
ghost use Rattle.vme_part_format.specs.PartText.{part_bytes};
ghost use Rattle.vme_part_format.specs.Reading.{Gives, GivesPart, IsPartReading, are_numbers as are_numbers_of};
ghost use Rattle.vme_part_format.specs.Reading.{are_times as are_times_of, body_at, has_its_sum as has_sum_of};
ghost use Rattle.vme_part_format.specs.Reading.{is_after, numbers_at, part_at, segment_at, segments_at, slots_at};
ghost use Rattle.vme_part_format.specs.Reading.{with_place, step_times_at, summed_part, times_at};
ghost use Rattle.vme_part_format.specs.Sums.{DifferInOne};
ghost use Rattle.vme_part_format.specs.Tables.{PartValue, part_value, segment_value};

use crate::fault::{FieldError, PartFault, PartFaultKind, ReadError};
use crate::fields::Fields;
use crate::levels::read_levels;
use crate::part::Part;
use crate::segment::{MEMORY_COUNTS, Segment, SegmentTimes, file_count, last_file};
use crate::sum::sum_of_bytes;
use crate::tables::read_table;
use std::alloc::Global;
use vme_trace::MOST_SLOTS;

/// What each part begins with.
pub(crate) const NAME: [u8; 7] = *b"vmepart";

/// The version, which follows.
pub(crate) const VERSION: u8 = b'1';

/// How many bytes the name, the version and the sum have together.
const FEWEST_BYTES: usize = 16;

/// How many bytes the sum has.
const SUM_BYTES: usize = 8;

/// Whether `first` is greater than `before`, if there is a `before`.
fn comes_after(before: Option<u64>, first: u64) -> bool
    ensures { result ≡ is_after before first }
{
    match before {
        None => true,
        Some(last) => last < first,
    }
}

/// Whether a segment of the order `order` may begin with the file `first`.
fn are_numbers(first: u64, order: u8) -> bool
    ensures { result ≡ are_numbers_of first order }
{
    first < 1 << 63 && order < 63 && first % file_count(order) == 0
}

/// Reads the first number and the order of a segment. `before` is the last file of the segment before it.
#[tactic(auto, unfolding(crate::specs::Reading::numbers_at))]
fn read_numbers(fields: &mut Fields, before: Option<u64>) -> Result<(u64, u8), FieldError>
    ensures numbers { Gives (λ x. x) result fields.new (numbers_at before fields.old) }
    ensures fit { IfOk result (λ x. FitsNumbers x.0 x.1) }
{
    let bad = fields.fault(PartFaultKind::BadNumber);
    let first = fields.u64()?;
    let order = fields.byte()?;
    if are_numbers(first, order) && comes_after(before, first) {
        Ok((first, order))
    } else {
        Err(FieldError::Fault(bad))
    }
}

/// Reads the number of slots, from 1 to 21.
#[tactic(auto, unfolding(crate::specs::Reading::slots_at))]
fn read_slots(fields: &mut Fields) -> Result<u8, FieldError>
    ensures slots { Gives (λ x. x) result fields.new (slots_at fields.old) }
    ensures least { IfOk result (λ x. 1 ≤ x) }
    ensures most { IfOk result (λ x. x ≤ 21) }
{
    let bad = fields.fault(PartFaultKind::BadLevels);
    let slots = fields.byte()?;
    if 1 <= slots && slots <= MOST_SLOTS {
        Ok(slots)
    } else {
        Err(FieldError::Fault(bad))
    }
}

/// Reads when the steps of a segment are, if `there` says that it has some.
fn read_step_times(fields: &mut Fields, there: bool) -> Result<Option<SegmentTimes>, FieldError>
    ensures { Gives (λ x. x) result fields.new (step_times_at there fields.old) }
{
    if !there {
        return Ok(None);
    }
    let number = fields.u64()?;
    let first = fields.u64()?;
    let last = fields.u64()?;
    Ok(Some(SegmentTimes {
        number,
        first,
        last,
    }))
}

/// Whether a segment of `steps` steps may have the times `times`.
fn are_times(first: u64, order: u8, steps: u64, times: Option<SegmentTimes>) -> bool
    requires { FitsNumbers first order }
    ensures { result ≡ are_times_of first order steps times }
{
    match times {
        None => steps == 0,
        Some(times) => {
            0 < steps
                && first <= times.number
                && times.number <= last_file(first, order)
                && times.first <= times.last
        }
    }
}

/// Reads whether a segment of 2^`order` files from the file `first` on, with `steps` steps, has times, and which.
#[tactic(auto, unfolding(crate::specs::Reading::times_at))]
fn read_times(
    fields: &mut Fields,
    first: u64,
    order: u8,
    steps: u64,
) -> Result<Option<SegmentTimes>, FieldError>
    requires { FitsNumbers first order }
    ensures { Gives (λ x. x) result fields.new (times_at first order steps fields.old) }
{
    let bad = fields.fault(PartFaultKind::BadSteps);
    let there = fields.flag()?;
    let times = read_step_times(fields, there)?;
    if are_times(first, order, steps, times) {
        Ok(times)
    } else {
        Err(FieldError::Fault(bad))
    }
}

/// Reads a segment. `before` is the last file of the segment before it.
#[tactic(auto, unfolding(crate::specs::Reading::segment_at))]
fn read_segment(
    alloc: Global,
    fields: &mut Fields,
    listing: bool,
    before: Option<u64>,
) -> Result<Segment, FieldError>
    ensures segment { Gives segment_value result fields.new (segment_at listing before fields.old) }
    ensures fit { IfOk result (λ s. FitsNumbers s.first s.order) }
{
    let (first, order) = read_numbers(fields, before)?;
    let steps = fields.u64()?;
    let slots = read_slots(fields)?;
    let opening = read_levels(fields, slots)?;
    let left = read_levels(fields, slots)?;
    let times = read_times(fields, first, order, steps)?;
    let known = read_table(alloc, fields, listing, MEMORY_COUNTS[0], steps)?;
    let handshake = read_table(alloc, fields, listing, MEMORY_COUNTS[1], steps)?;
    let stability = read_table(alloc, fields, listing, MEMORY_COUNTS[2], steps)?;
    let grant = read_table(alloc, fields, listing, MEMORY_COUNTS[3], steps)?;
    let acknowledge = read_table(alloc, fields, listing, MEMORY_COUNTS[4], steps)?;
    Ok(Segment {
        first,
        order,
        steps,
        opening,
        left,
        times,
        known,
        handshake,
        stability,
        grant,
        acknowledge,
    })
}

/// Reads `count` segments.
fn read_segments(
    alloc: Global,
    fields: &mut Fields,
    listing: bool,
    count: u32,
) -> Result<Vec<Segment>, FieldError>
    ensures { Gives (λ x. map segment_value x.items) result fields.new
        (segments_at listing None count fields.old) }
{
    let mut segments = Vec::new(alloc);
    let mut before = None;
    for _ in 0..count {
        let segment = read_segment(alloc, fields, listing, before)?;
        before = Some(last_file(segment.first, segment.order));
        segments.push(segment)?;
    }
    Ok(segments)
}

/// Reads all fields, after which no bytes may be left.
#[tactic(auto, unfolding(crate::specs::Reading::body_at))]
fn read_body(alloc: Global, bytes: &[u8]) -> Result<Part, FieldError>
    ensures { GivesPart part_value result (body_at bytes.now) }
{
    let mut fields = Fields::new(bytes);
    let backplane = fields.u64()?;
    let listing = fields.flag()?;
    let count = fields.u32()?;
    let segments = read_segments(alloc, &mut fields, listing, count)?;
    if !fields.is_empty() {
        return Err(FieldError::Fault(fields.fault(PartFaultKind::Trailing)));
    }
    Ok(Part {
        backplane,
        listing,
        segments,
    })
}

/// Whether there are at least 16 bytes, and the last 8 are the sum of those before them.
fn has_its_sum(bytes: &[u8]) -> bool
    ensures { result ≡ has_sum_of bytes.now }
{
    if bytes.len() < FEWEST_BYTES {
        return false;
    }
    let (summed, sum) = bytes.split_at(bytes.len() - SUM_BYTES);
    let written = u64::from_le_bytes([
        sum[0], sum[1], sum[2], sum[3], sum[4], sum[5], sum[6], sum[7],
    ]);
    sum_of_bytes(summed) == written
}

/// The refusal of bytes for a fault of the kind `kind` at the index `place`.
fn refusal(kind: PartFaultKind, place: usize) -> ReadError
    ensures { result ≡ ReadError.Fault (record { kind = kind; place = place }) }
{
    ReadError::Fault(PartFault { kind, place })
}

/// Reads the fields of a part, between the version and the sum of `bytes`.
fn read_fields(alloc: Global, bytes: &[u8]) -> Result<Part, ReadError>
    requires { 16 ≤ length bytes.now }
    ensures { IsPartReading part_value result
        (with_place (length bytes.now - 8) (body_at (drop 8 (summed_part bytes.now)))) }
{
    let end = bytes.len() - SUM_BYTES;
    let summed = &bytes[..end];
    match read_body(alloc, &summed[NAME.len() + 1..]) {
        Ok(part) => Ok(part),
        Err(FieldError::Memory) => Err(ReadError::Memory),
        Err(FieldError::Fault(found)) => Err(refusal(found.kind, end.saturating_sub(found.left))),
    }
}

/// The part whose encoding `bytes` is, or the first fault.
#[tactic(auto, unfolding(crate::specs::Reading::part_at))]
fn read_checked(alloc: Global, bytes: &[u8]) -> Result<Part, ReadError>
    ensures { IsPartReading part_value result (part_at bytes.now) }
{
    if !bytes.starts_with(&NAME) {
        return Err(refusal(PartFaultKind::NotAPart, 0));
    }
    if !bytes[NAME.len()..].starts_with(&[VERSION]) {
        return Err(refusal(PartFaultKind::OtherVersion, NAME.len()));
    }
    if !has_its_sum(bytes) {
        return Err(refusal(PartFaultKind::Damaged, bytes.len() - SUM_BYTES));
    }
    read_fields(alloc, bytes)
}

/// The part whose encoding is the whole of `bytes`; else their first fault, or that memory ran out.
pub fn read_part(alloc: Global, bytes: &[u8]) -> Result<Part, ReadError>
    // If a part is read, `bytes` is its encoding.
    ensures found { IfOk result (λ p. FitsPart (part_value p) × (bytes.now ≡ part_bytes (part_value p))) }

    // The encoding of a part is read as this part, unless memory runs out.
    ensures only { (p : PartValue) → FitsPart p → bytes.now ≡ part_bytes p → IsPartReading part_value result (Ok p) }

    // The encoding of a part with one byte changed is refused.
    ensures changed { (p : PartValue) → DifferInOne bytes.now (part_bytes p) → IsErr result }

    // The result is that of `part_at`, which has the first fault, unless memory runs out.
    ensures exact { IsPartReading part_value result (part_at bytes.now) }
{
    read_checked(alloc, bytes)
}

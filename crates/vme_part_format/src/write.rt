//! Writing a part.

ghost use Rattle.std.specs.Prelude.{◌≡◌, ◌++◌, ◌+◌, ◌*◌, ◌^◌, ◌<◌, ◌≤◌, [], ◌∷◌, OnOk, IfOk};
ghost use Rattle.std.specs.Prelude.{None, Some, false, flat_map, length, map, true, vec_len};
ghost use Rattle.vme_part_format.specs.Bounds.{FitSegments, FitsPart, FitsSegment};
ghost use Rattle.vme_part_format.specs.PartText.{chains_bytes, head_bytes, lines_bytes, part_bytes, segment_bytes};
ghost use Rattle.vme_part_format.specs.PartText.{flag, front_bytes, summed_bytes, tables_bytes, times_bytes};
ghost use Rattle.vme_part_format.specs.Sizes.{IsCompactPart, marks_in, most_bytes, nodes_in};
ghost use Rattle.vme_part_format.specs.Tables.{part_value, segment_value};

use crate::levels::put_levels;
use crate::numbers::{put_number, put_pair};
use crate::part::Part;
use crate::read::{NAME, VERSION};
use crate::segment::{Segment, SegmentTimes};
use crate::sum::sum_of_bytes;
use crate::tables::put_table;
use std::alloc::{AllocError, Global};

/// Adds that a segment has steps, and when they are.
fn put_step_times(out: &mut Vec<u8>, times: SegmentTimes) -> Result<(), AllocError>
    ensures { OnOk result (out.new.items ≡ out.old.items ++ times_bytes (Some times)) }
{
    out.push(1)?;
    put_number(out, times.number)?;
    put_pair(out, times.first, times.last)
}

/// Adds whether a segment has steps, and when they are.
fn put_times(out: &mut Vec<u8>, times: Option<SegmentTimes>) -> Result<(), AllocError>
    ensures { OnOk result (out.new.items ≡ out.old.items ++ times_bytes times) }
{
    match times {
        None => Ok(out.push(0)?),
        Some(times) => put_step_times(out, times),
    }
}

/// Adds which files a segment covers, and how many steps they have.
fn put_head(out: &mut Vec<u8>, segment: &Segment) -> Result<(), AllocError>
    ensures { OnOk result (out.new.items ≡ out.old.items ++ head_bytes (segment_value segment.now)) }
{
    out.extend_from_slice(&segment.first.to_le_bytes())?;
    out.push(segment.order)?;
    out.extend_from_slice(&segment.steps.to_le_bytes())
}

/// Adds the number of slots, the levels before a segment, and those after it.
fn put_lines(out: &mut Vec<u8>, segment: &Segment) -> Result<(), AllocError>
    ensures { OnOk result (out.new.items ≡ out.old.items ++ lines_bytes (segment_value segment.now)) }
{
    out.push(segment.opening.slots())?;
    put_levels(out, &segment.opening)?;
    put_levels(out, &segment.left)
}

/// Adds the tables of held lines and of the chains.
fn put_chains(out: &mut Vec<u8>, listing: bool, segment: &Segment) -> Result<(), AllocError>
    requires { FitsSegment listing (segment_value segment.now) }
    ensures { OnOk result (out.new.items ≡ out.old.items ++ chains_bytes listing (segment_value segment.now)) }
{
    put_table(out, listing, &segment.stability)?;
    put_table(out, listing, &segment.grant)?;
    put_table(out, listing, &segment.acknowledge)
}

/// Adds all tables.
fn put_tables(out: &mut Vec<u8>, listing: bool, segment: &Segment) -> Result<(), AllocError>
    requires { FitsSegment listing (segment_value segment.now) }
    ensures { OnOk result (out.new.items ≡ out.old.items ++ tables_bytes listing (segment_value segment.now)) }
{
    put_table(out, listing, &segment.known)?;
    put_table(out, listing, &segment.handshake)?;
    put_chains(out, listing, segment)
}

/// Adds a segment.
#[tactic(auto, unfolding(crate::specs::PartText::segment_bytes))]
fn put_segment(out: &mut Vec<u8>, listing: bool, segment: &Segment) -> Result<(), AllocError>
    requires { FitsSegment listing (segment_value segment.now) }
    ensures { OnOk result (out.new.items ≡ out.old.items ++ segment_bytes listing (segment_value segment.now)) }
{
    put_head(out, segment)?;
    put_lines(out, segment)?;
    put_times(out, segment.times)?;
    put_tables(out, listing, segment)
}

/// Adds these segments.
fn put_segments(out: &mut Vec<u8>, listing: bool, segments: &[Segment]) -> Result<(), AllocError>
    requires { FitSegments listing None (map segment_value segments.now) }
    ensures { OnOk result (out.new.items
        ≡ out.old.items ++ flat_map (segment_bytes listing) (map segment_value segments.now)) }
{
    for segment in segments {
        put_segment(out, listing, segment)?;
    }
    Ok(())
}

/// Adds whether the part has marks.
fn put_flag(out: &mut Vec<u8>, listing: bool) -> Result<(), AllocError>
    ensures { OnOk result (out.new.items ≡ out.old.items ++ (flag listing ∷ [])) }
{
    Ok(out.push(if listing { 1 } else { 0 })?)
}

/// Adds what comes between the version and the segments.
fn put_front(out: &mut Vec<u8>, part: &Part) -> Result<(), AllocError>
    requires { length part.now.segments.items < 2 ^ 32 }
    ensures { OnOk result (out.new.items ≡ out.old.items ++ front_bytes (part_value part.now)) }
{
    out.extend_from_slice(&part.backplane.to_le_bytes())?;
    put_flag(out, part.listing)?;
    out.extend_from_slice(&(part.segments.len() as u32).to_le_bytes())
}

/// All bytes of a part except its sum.
#[tactic(auto, unfolding(crate::specs::PartText::body_bytes))]
fn write_summed(alloc: Global, part: &Part) -> Result<Vec<u8>, AllocError>
    requires { FitsPart (part_value part.now) }
    ensures { IfOk result (λ out. out.items ≡ summed_bytes (part_value part.now)) }
{
    let mut out = Vec::new(alloc);
    out.extend_from_slice(&NAME)?;
    out.push(VERSION)?;
    put_front(&mut out, part)?;
    put_segments(&mut out, part.listing, part.segments.as_slice())?;
    Ok(out)
}

/// The bytes of a part, with their sum.
#[tactic(auto, unfolding(crate::specs::PartText::part_bytes))]
fn write_whole(alloc: Global, part: &Part) -> Result<Vec<u8>, AllocError>
    requires { FitsPart (part_value part.now) }
    ensures { IfOk result (λ out. out.items ≡ part_bytes (part_value part.now)) }
{
    let mut out = write_summed(alloc, part)?;
    let sum = sum_of_bytes(out.as_slice());
    out.extend_from_slice(&sum.to_le_bytes())?;
    Ok(out)
}

/// The bytes of a part, with the sum at their end. It fails if memory runs out.
pub fn write_part(alloc: Global, part: &Part) -> Result<Vec<u8>, AllocError>
    requires { FitsPart (part_value part.now) }
    ensures bytes { IfOk result (λ out. out.items ≡ part_bytes (part_value part.now)) }

    // Without marks there are at most 4,034 bytes a segment, and 29 more.
    ensures few { part.now.listing ≡ false
        → IfOk result (λ out. length out.items ≤ 29 + 4034 * vec_len part.now.segments) }

    // With marks there are at most 15 bytes a mark, 26 a node, 4,669 a segment, and 29 more.
    ensures marked { part.now.listing ≡ true → IfOk result (λ out. length out.items
        ≤ 29 + 4669 * vec_len part.now.segments + 26 * nodes_in (part_value part.now)
        + 15 * marks_in (part_value part.now)) }

    // A part of at most one segment, whose tables have at most two nodes a memory, has at most 4,096 bytes without
    // marks. With marks it has at most 16,384, and 16 more for each mark.
    ensures small { IsCompactPart (part_value part.now) → vec_len part.now.segments ≤ 1
        → IfOk result (λ out. length out.items ≤ most_bytes (part_value part.now)) }
{
    write_whole(alloc, part)
}

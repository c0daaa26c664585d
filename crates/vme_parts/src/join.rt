//! Joining parts, in any order.

ghost use Rattle.std.specs.Prelude.{◌≡◌, ◌<◌, ◌≤◌, ◌^◌, All, IfErr, IfOk, IsTrue, OnOk, false, map};
ghost use Rattle.vme_part_format.specs.Bounds.{FitsPart};
ghost use Rattle.vme_part_format.specs.Sizes.{IsCompactPart};
ghost use Rattle.vme_part_format.specs.Tables.{part_value, segment_value};
ghost use Rattle.vme_part_format.specs.declared.part.Part.{Part};
ghost use Rattle.vme_parts.specs.Alike.{AreRefused, AreRefusedBy, IsLike, MakeOne, first_backplane, first_listing};
ghost use Rattle.vme_parts.specs.Files.{JoinsParts};
ghost use Rattle.vme_parts.specs.Gathering.{segments_of};

use crate::gather::{gather, sort_segments};
use crate::join_refusal::JoinRefusal;
use crate::same::compare_all;
use std::alloc::{AllocError, Global};
use vme_part_format::{Part, Segment};

/// Refuses the first part whose backplane isn't `backplane`, or whose `listing` is another.
fn check_alike(parts: &[Part], backplane: u64, listing: bool) -> Result<(), JoinRefusal>
    ensures like { OnOk result (All (IsLike backplane listing) (map part_value parts.now)) }
    ensures refused { IfErr result (AreRefusedBy backplane listing (map part_value parts.now)) }
{
    for place in 0..parts.len() {
        let part = &parts[place];
        if part.backplane != backplane {
            return Err(JoinRefusal::Backplane(place));
        }
        if part.listing != listing {
            return Err(JoinRefusal::Marks(place));
        }
    }
    Ok(())
}

/// The segments of all parts.
fn all_segments(alloc: Global, parts: Vec<Part>) -> Result<Vec<Segment>, AllocError>
    ensures { IfOk result (λ v. map segment_value v.items ≡ segments_of (map part_value parts.items)) }
{
    let mut all = Vec::new(alloc);
    for part in parts {
        let mut segments = part.segments;
        all.append(&mut segments)?;
    }
    Ok(all)
}

/// The sum of the first part's backplane, or 0 if there is no part.
fn backplane_of(parts: &[Part]) -> u64
    ensures { result ≡ first_backplane (map part_value parts.now) }
{
    match parts.first() {
        Some(part) => part.backplane,
        None => 0,
    }
}

/// Whether the first part has marks, or `false` if there is no part.
fn has_marks(parts: &[Part]) -> bool
    ensures { result ≡ first_listing (map part_value parts.now) }
{
    match parts.first() {
        Some(part) => part.listing,
        None => false,
    }
}

/// Whether `count` segments are more than 32 bits count.
fn are_too_many(count: usize) -> bool
    ensures many { IsTrue result → 2 ^ 32 ≤ count }
    ensures few { result ≡ false → count < 2 ^ 32 }
{
    (u32::MAX as usize) < count
}

/// Joins `parts`, which may be in any order, into one part, or answers why it doesn't.
pub fn join_parts(alloc: Global, parts: Vec<Part>) -> Result<Part, JoinRefusal>
    requires { All (λ (p : Part). FitsPart (part_value p)) parts.items }
    ensures joins { IfOk result (λ r. JoinsParts (map part_value parts.items) (part_value r)) }
    ensures fits { IfOk result (λ r. FitsPart (part_value r)) }
    ensures one { IfOk result (λ r. MakeOne (map part_value parts.items) (part_value r)) }
    ensures compact { IfOk result (λ r. All IsCompactPart (map part_value parts.items) → IsCompactPart (part_value r)) }
    ensures refused { IfErr result (AreRefused (map part_value parts.items)) }
{
    let backplane = backplane_of(parts.as_slice());
    let listing = has_marks(parts.as_slice());
    check_alike(parts.as_slice(), backplane, listing)?;
    let mut all = all_segments(alloc, parts)?;
    sort_segments(&mut all)?;
    if let Err(why) = compare_all(all.as_slice()) {
        return Err(why);
    }
    let segments = match gather(alloc, all) {
        Ok(segments) => segments,
        Err(why) => return Err(why),
    };
    let count = segments.len();
    if are_too_many(count) {
        return Err(JoinRefusal::TooManySegments);
    }
    Ok(Part {
        backplane,
        listing,
        segments,
    })
}

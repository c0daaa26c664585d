//! Which files of a recording segments cover. A segment covers files that follow one another (`last_file`).

ghost use Rattle.std.specs.Prelude.{◌≡◌, ◌+◌, All, IfErr, IfOk, IfSome, IsTrue, None, false, map};
ghost use Rattle.vme_part_format.specs.Bounds.{FitsNumbers};
ghost use Rattle.vme_part_format.specs.Tables.{last_of, segment_value};
ghost use Rattle.vme_parts.specs.Covering.{AreNext, HasGap, IsBeyond, AreWithinFiles, LacksFrom};
ghost use Rattle.vme_parts.specs.Gathering.{IsSegment};

use crate::buddies::last_file;
use vme_part_format::Segment;

/// The number of the file after a segment's last one.
fn next_file(segment: &Segment) -> u64
    requires { FitsNumbers segment.now.first segment.now.order }
    ensures { result ≡ last_of segment.now.first segment.now.order + 1 }
{
    last_file(segment) + 1
}

/// If the segments cover all files from 0 to their last, the number after the last, which is 0 without segments. Else
/// the error is the least number of a file that they don't cover.
pub(crate) fn covered(segments: &[Segment]) -> Result<u64, u64>
    requires { All IsSegment (map segment_value segments.now) }
    ensures next { IfOk result (λ end. AreNext 0 (map segment_value segments.now) end) }
    ensures gap { IfErr result (λ k. HasGap 0 (map segment_value segments.now) k) }
{
    let mut next = 0;
    for segment in segments {
        if segment.first != next {
            return Err(next);
        }
        next = next_file(segment);
    }
    Ok(next)
}

/// The number of the last file that is covered, if it isn't below `files`, the number of files of the recording. `None`
/// if `files` is.
pub(crate) fn beyond(segments: &[Segment], files: Option<u64>) -> Option<u64>
    requires { All IsSegment (map segment_value segments.now) }
    ensures beyond { IfSome result (λ k. IsBeyond (map segment_value segments.now) files k) }
    ensures within { result ≡ None → AreWithinFiles (map segment_value segments.now) files }
{
    let Some(count) = files else {
        return None;
    };
    let Some(last) = segments.last() else {
        return None;
    };
    let file = last_file(last);
    if count <= file {
        return Some(file);
    }
    None
}

/// Whether the recording has more than `end` files. It has `files` of them, but at least 1. If `files` is `None`, it
/// has `end` of them, but at least 1.
pub(crate) fn lacks(end: u64, files: Option<u64>) -> bool
    ensures lacks { IsTrue result → LacksFrom files end }
    ensures whole { result ≡ false → LacksFrom files end → ⊥ }
{
    match files {
        Some(count) => end == 0 || end < count,
        None => end == 0,
    }
}

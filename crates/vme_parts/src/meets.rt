//! Whether files follow one another.

ghost use Rattle.std.specs.Prelude.{◌≡◌, IfSome, None, true};
ghost use Rattle.vme_summary.specs.Joins.{is_later_time};
ghost use Rattle.vme_parts.specs.Joined.{joined_times as joined_times_of};
ghost use Rattle.vme_parts.specs.Meeting.{FilesGoOn, IsEarlyFile, IsTornAt, ends_at, starts_at};

use vme_part_format::SegmentTimes;
use vme_trace::Lines;

/// The file of the first step of `after`, if this step isn't later than the last step of `before`.
fn early_file(before: Option<SegmentTimes>, after: Option<SegmentTimes>) -> Option<u64>
    ensures later { result ≡ None → is_later_time (ends_at before) (starts_at after) ≡ true }
    ensures early { IfSome result (IsEarlyFile before after) }
{
    let Some(before) = before else {
        return None;
    };
    let Some(after) = after else {
        return None;
    };
    if after.first <= before.last {
        Some(after.number)
    } else {
        None
    }
}

/// The file of a segment that doesn't follow the files before the segment, if there is one. The files before leave the
/// levels `left` and have the times `before`. The segment begins with the file `first` and the levels `opening`, and
/// has the times `after`.
pub(crate) fn torn_file(
    left: &Lines,
    before: Option<SegmentTimes>,
    first: u64,
    opening: &Lines,
    after: Option<SegmentTimes>,
) -> Option<u64>
    ensures follows { result ≡ None → FilesGoOn left.now before opening.now after }
    ensures torn { IfSome result (λ file. IsTornAt left.now before first opening.now after file) }
{
    if left == opening {
        early_file(before, after)
    } else {
        Some(first)
    }
}

/// The times of the steps of `before` and then those of `after`.
pub fn joined_times(
    before: Option<SegmentTimes>,
    after: Option<SegmentTimes>,
) -> Option<SegmentTimes>
    ensures { result ≡ joined_times_of before after }
{
    match (before, after) {
        (Some(before), Some(after)) => Some(SegmentTimes {
            number: before.number,
            first: before.first,
            last: after.last,
        }),
        (None, after) => after,
        (before, None) => before,
    }
}

//! The verdict on the whole recording, from a part.

ghost use Rattle.std.specs.Prelude.{◌≡◌, ◌∷◌, [], All, IfOk, map};
ghost use Rattle.vme_part_format.specs.Bounds.{FitsPart};
ghost use Rattle.vme_part_format.specs.Tables.{part_value, segment_value};
ghost use Rattle.vme_parts.specs.Gathering.{IsSegment};
ghost use Rattle.vme_parts.specs.Progress.{FitStates};
ghost use Rattle.vme_parts.specs.Telling.{DeterminesRecordingAnswer, JudgesAll, JudgesFiles};
ghost use Rattle.vme_parts.specs.Telling.{answer_of as answer_of_stop};

use crate::answers::RecordingAnswer;
use crate::cover::{beyond, covered, lacks};
use crate::judged_segments::{JudgedSegments, JudgingFault};
use vme_part_format::{Part, Segment};

/// Judges a segment and those that follow it.
fn judge_from(first: &Segment, rest: &[Segment]) -> Result<JudgedSegments, JudgingFault>
    requires first { IsSegment (segment_value first.now) }
    requires rest { All IsSegment (map segment_value rest.now) }
    ensures fit { IfOk result (λ j. FitStates j.states) }
    ensures judges { JudgesAll (segment_value first.now ∷ map segment_value rest.now) result }
{
    let mut judging = JudgedSegments::of(first);
    for segment in rest {
        match judging.go_past(segment) {
            Ok(()) => (),
            Err(stop) => return Err(stop),
        }
    }
    Ok(judging)
}

/// Judges all segments, which follow one another by their numbers.
fn judge_all(segments: &[Segment]) -> Result<JudgedSegments, JudgingFault>
    requires segments { All IsSegment (map segment_value segments.now) }
    requires some { segments.now ≡ [] → ⊥ }
    ensures fit { IfOk result (λ j. FitStates j.states) }
    ensures judges { JudgesAll (map segment_value segments.now) result }
{
    match segments {
        [first, rest @ ..] => judge_from(first, rest),
        [] => unreachable!(),
    }
}

/// The answer where judging stops.
fn answer_of(stop: JudgingFault) -> RecordingAnswer
    ensures { result ≡ answer_of_stop stop }
{
    match stop {
        JudgingFault::Torn(file) => RecordingAnswer::Torn(file),
        JudgingFault::TooManySteps => RecordingAnswer::TooManySteps,
    }
}

/// Judges all segments of `part`, if they cover all files of the recording and no others. The recording has `files`
/// files or, if `files` is `None`, those up to the last that is covered. Else the error is the answer about the
/// recording, which is no verdict.
pub fn judged(part: &Part, files: Option<u64>) -> Result<JudgedSegments, RecordingAnswer>
    requires { FitsPart (part_value part.now) }
    ensures fit { IfOk result (λ j. FitStates j.states) }
    ensures judges { JudgesFiles (part_value part.now) files result }
{
    let segments = part.segments.as_slice();
    if let Some(file) = beyond(segments, files) {
        return Err(RecordingAnswer::Beyond(file));
    }
    let end = match covered(segments) {
        Ok(end) => end,
        Err(file) => return Err(RecordingAnswer::Missing(file)),
    };
    if lacks(end, files) {
        return Err(RecordingAnswer::Missing(end));
    }
    match judge_all(segments) {
        Ok(judging) => Ok(judging),
        Err(stop) => Err(answer_of(stop)),
    }
}

/// The answer of `part` for a recording of `files` files or, if `files` is `None`, of those up to the last that is
/// covered.
pub fn tell_verdict(part: &Part, files: Option<u64>) -> RecordingAnswer
    requires { FitsPart (part_value part.now) }
    ensures { DeterminesRecordingAnswer (part_value part.now) files result }
{
    match judged(part, files) {
        Ok(judging) => RecordingAnswer::Verdict(judging.states.verdict()),
        Err(answer) => answer,
    }
}

//! Segments judged in order.

ghost use Rattle.std.specs.Prelude.{◌≡◌, ◌+◌, Bool, IfErr, List, OnOk};
ghost use Rattle.vme_trace.specs.declared.block.Block.{Block};
ghost use Rattle.vme_summary.specs.declared.extent.Extent.{Extent};
ghost use Rattle.vme_part_format.specs.Tables.{segment_value};
ghost use Rattle.vme_parts.specs.Buddies.{HasTables};
ghost use Rattle.vme_parts.specs.Progress.{FitStates, HasJudgedFiles, HasJudgedNext, StopsAt};
ghost use Rattle.vme_parts.specs.Stands.{SegmentStandsFor, extent_of};

use crate::buddies::step_count;
use crate::meets::{joined_times, torn_file};
use crate::state::States;
use vme_part_format::{Segment, SegmentTimes};
use vme_trace::Lines;

/// Why judging stops at a segment.
#[derive(Clone, Copy)]
pub enum JudgingFault {
    /// This file of the segment doesn't follow those before it.
    Torn(u64),
    /// With the segment there are more steps than 64 bits count.
    TooManySteps,
}

/// The state of judging segments in order.
#[derive(Clone, Copy)]
pub struct JudgedSegments {
    /// The levels that the files judged so far leave.
    pub left: Lines,
    /// When their steps are, if they have any.
    pub times: Option<SegmentTimes>,
    /// The number of their steps.
    pub steps: u64,
    /// The states of the monitors after them.
    pub states: States,
}

impl JudgedSegments {
    /// The state after the first segment.
    pub fn of(segment: &Segment) -> JudgedSegments
        requires { HasTables (segment_value segment.now) }
        ensures fit { FitStates result.states }
        ensures judged { (listing : Bool) (bs : List Block) → SegmentStandsFor listing (segment_value segment.now) bs
            → HasJudgedFiles result (extent_of (segment_value segment.now)) bs }
    {
        let begun = States::at(&segment.opening);
        JudgedSegments {
            left: segment.left,
            times: segment.times,
            steps: step_count(segment),
            states: begun.past(segment, 0),
        }
    }

    /// Judges the segment that comes next. The error says why judging stops there, and then the state is as it was.
    pub fn go_past(&mut self, segment: &Segment) -> Result<(), JudgingFault>
        requires fit { FitStates self.old.states }
        requires tables { HasTables (segment_value segment.now) }
        ensures fit { FitStates self.new.states }
        ensures judged { OnOk result (HasJudgedNext self.old self.new (segment_value segment.now)) }
        ensures stops { IfErr result (λ stop. (listing : Bool) (e : Extent) (bs ys : List Block)
            → HasJudgedFiles self.old e bs → SegmentStandsFor listing (segment_value segment.now) ys
            → segment.now.first ≡ e.last + 1
            → StopsAt bs ys stop) }
    {
        let torn = torn_file(
            &self.left,
            self.times,
            segment.first,
            &segment.opening,
            segment.times,
        );
        if let Some(file) = torn {
            return Err(JudgingFault::Torn(file));
        }
        let Some(steps) = self.steps.checked_add(segment.steps) else {
            return Err(JudgingFault::TooManySteps);
        };
        let states = self.states.past(segment, self.steps);
        let times = joined_times(self.times, segment.times);
        *self = JudgedSegments {
            left: segment.left,
            times,
            steps,
            states,
        };
        Ok(())
    }
}

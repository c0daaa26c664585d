//! The steps of a piece, whatever was recorded before it.

ghost use Rattle.std.specs.Prelude.{◌≡◌, List, [], IfErr, IfOk, None};
ghost use Rattle.vme_trace.specs.Followed.{with_steps};
ghost use Rattle.vme_trace.specs.Trace.{Trace};
ghost use Rattle.vcd_read.specs.Reading.{line_behind};
ghost use Rattle.vcd_read.specs.Tokens.{Token, tokens_from};
ghost use Rattle.vme_bind.specs.SpeculativeReading.{with_recording};
ghost use Rattle.vme_bind.specs.TextReading.{reading_ahead};
ghost use Rattle.vme_step_reader.specs.Stops.{StopsBehind};

use crate::stopped_steps::StoppedSteps;
use std::alloc::Global;
use vcd_read::Stopped;
use vme_bind::{SpeculativeReader, StepCollector, recorded_before_is_a_prefix};
use vme_trace::{Lines, Step};

/// The steps before a fault.
fn steps_before(stopped: Stopped<StepCollector>) -> StoppedSteps
    ensures fault { result.fault ≡ stopped.fault }
    ensures time { result.time ≡ stopped.time }
    ensures steps { result.steps ≡ stopped.visitor.steps }
{
    let Stopped {
        fault,
        visitor,
        time,
    } = stopped;
    StoppedSteps {
        fault,
        time,
        steps: visitor.steps,
    }
}

/// Reads a piece that ends after a space. Returns the next reader, and the steps that become complete by the piece.
pub(crate) fn read_piece(
    alloc: Global,
    speculative: SpeculativeReader,
    opening: &Lines,
    piece: &[u8],
) -> Result<(SpeculativeReader, Vec<Step>), StoppedSteps>
    ensures line { IfOk result (λ made. made.0.body.line ≡ line_behind speculative.body.line piece.now) }
    ensures rest { IfOk result (λ made. (given : Trace) (more : List Token)
        → reading_ahead (with_recording given speculative) (tokens_from speculative.body.line piece.now) more
        ≡ reading_ahead (with_recording (with_steps given made.1.items) made.0) [] more) }
    ensures stopped { IfErr result (λ stopped. (given : Trace) (more : List Token) → StopsBehind given stopped
        (reading_ahead (with_recording given speculative) (tokens_from speculative.body.line piece.now) more)) }
{
    recorded_before_is_a_prefix();
    let text = speculative.with_step_visitor(StepCollector::new(alloc, opening));
    match text.read_until_fault(alloc, piece) {
        Ok(text) => {
            let (speculative, taken) = text.into_speculative();
            Ok((speculative, taken.steps))
        }
        Err(stopped) => Err(steps_before(stopped)),
    }
}

/// Reads the last piece, and returns the steps that become complete by it and by the end.
pub(crate) fn read_last_piece(
    alloc: Global,
    speculative: SpeculativeReader,
    opening: &Lines,
    piece: &[u8],
) -> Result<Vec<Step>, StoppedSteps>
    ensures recorded { IfOk result (λ steps. (given : Trace)
        → (reading_ahead (with_recording given speculative) (tokens_from speculative.body.line piece.now) []).recorded
        ≡ with_steps given steps.items) }
    ensures whole { IfOk result (λ steps. (given : Trace)
        → (reading_ahead (with_recording given speculative) (tokens_from speculative.body.line piece.now) []).fault
        ≡ None) }
    ensures stopped { IfErr result (λ stopped. (given : Trace) → StopsBehind given stopped
        (reading_ahead (with_recording given speculative) (tokens_from speculative.body.line piece.now) [])) }
{
    recorded_before_is_a_prefix();
    let text = speculative.with_step_visitor(StepCollector::new(alloc, opening));
    match text.read_until_fault(alloc, piece) {
        Ok(text) => match text.finish_or_stop(alloc) {
            Ok(taken) => Ok(taken.steps),
            Err(stopped) => Err(steps_before(stopped)),
        },
        Err(stopped) => Err(steps_before(stopped)),
    }
}

//! The steps of a body that comes piece by piece.

ghost use Rattle.std.specs.Prelude.{◌≡◌, ◌≢◌, ◌≤◌, ◌++◌, ℕ, List, [], IfErr, IfOk, None, length, take};
ghost use Rattle.vme_trace.specs.Followed.{with_steps};
ghost use Rattle.vme_trace.specs.WellFormed.{malformed_step};
ghost use Rattle.vcd_read.specs.declared.fault.FaultKind.TheVariants.{Memory};
ghost use Rattle.vme_step_reader.specs.StepReading.{whole_reading};
ghost use Rattle.vme_step_reader.specs.Stops.{StopsBehind};

use crate::pieces::{read_last_piece, read_piece};
use crate::stopped_steps::StoppedSteps;
use std::alloc::Global;
use std::marker::Model;
use vcd_read::whole_tokens;
use vme_bind::{SpeculativeReader, recorded_before_is_a_prefix};
use vme_summary::GhostSteps;
use vme_trace::{Lines, Step};

/// The body of a dump, as far as it is read. The steps that are complete were returned: none is kept.
#[derive(Drop)]
pub struct StepReader {
    pub(crate) speculative: SpeculativeReader,
    pub(crate) opening: Lines,
    pub(crate) given: GhostSteps,
}

impl Model for StepReader {
    ghost use Rattle.std.specs.Prelude.{◌≡◌, ℕ, List, None};
    ghost use Rattle.vme_trace.specs.WellFormed.{malformed_step};
    ghost use Rattle.vme_step_reader.specs.StepReading.{StepReading, whole_reading};

    ghost Value = { StepReading };

    ghost view = { λ r. record {
      given = record { opening = r.opening; steps = r.given.items };
      speculative =
          r.speculative;
    } };

    ghost invariant = { λ r. (rest : List ℕ) → malformed_step (whole_reading
        (record { given = record { opening = r.opening; steps = r.given.items }; speculative = r.speculative })
        rest).recorded
        ≡ None };
}

impl StepReader {
    /// The levels before the first step.
    pub fn opening(&self) -> &Lines
        ensures { result.now ≡ self.entry.now.given.opening }
    {
        &self.opening
    }

    /// The last time that was read, or 0: that of the text if it ended here.
    pub fn time(&self) -> u64
        ensures { result ≡ (whole_reading self.now []).time }
    {
        self.speculative.time()
    }

    /// Takes a prefix of `bytes`. Returns the next reader, the steps that became complete, and the prefix's length.
    /// With the first fault come the steps that are complete before it.
    pub fn take(
        self,
        alloc: Global,
        bytes: &[u8],
    ) -> Result<(StepReader, Vec<Step>, usize), StoppedSteps>
        ensures within { IfOk result (λ made. made.2 ≤ length bytes.now) }
        ensures taken { IfOk result (λ made. (rest : List ℕ)
            → whole_reading self (take made.2 bytes.now ++ rest) ≡ whole_reading made.0 rest) }
        ensures given { IfOk result (λ made. made.0.given ≡ with_steps self.given made.1.items) }
        ensures formed { IfOk result (λ made. malformed_step made.0.given ≡ None) }
        ensures stopped { IfErr result (λ stopped. (rest : List ℕ)
            → StopsBehind self.given stopped (whole_reading self (bytes.now ++ rest))) }
        ensures formed_before { IfErr result (λ stopped. stopped.fault.kind ≢ Memory
            → malformed_step (with_steps self.given stopped.steps.items) ≡ None) }
    {
        recorded_before_is_a_prefix();
        let StepReader {
            speculative,
            opening,
            given,
        } = self;
        let count = whole_tokens(bytes);
        match read_piece(alloc, speculative, &opening, &bytes[..count]) {
            Ok((speculative, steps)) => {
                let given = given.and_all(&GhostSteps::of(steps.as_slice()));
                let reader = StepReader {
                    speculative,
                    opening,
                    given,
                };
                Ok((reader, steps, count))
            }
            Err(stopped) => Err(stopped),
        }
    }

    /// Takes the last bytes, and returns the steps that became complete by them and by the end. With a fault come the
    /// steps that are complete before it.
    pub fn finish(self, alloc: Global, rest: &[u8]) -> Result<Vec<Step>, StoppedSteps>
        ensures recorded { IfOk result (λ steps.
            (whole_reading self rest.now).recorded ≡ with_steps self.given steps.items) }
        ensures whole { IfOk result (λ steps. (whole_reading self rest.now).fault ≡ None) }
        ensures formed { IfOk result (λ steps. malformed_step (with_steps self.given steps.items) ≡ None) }
        ensures stopped { IfErr result (λ stopped.
            StopsBehind self.given stopped (whole_reading self rest.now)) }
        ensures formed_before { IfErr result (λ stopped. stopped.fault.kind ≢ Memory
            → malformed_step (with_steps self.given stopped.steps.items) ≡ None) }
    {
        let StepReader {
            speculative,
            opening,
            given: _,
        } = self;
        match read_last_piece(alloc, speculative, &opening, rest) {
            Ok(steps) => Ok(steps),
            Err(stopped) => Err(stopped),
        }
    }
}

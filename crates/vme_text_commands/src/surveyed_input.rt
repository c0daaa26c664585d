//! A dump that is surveyed as it is read.

ghost use Rattle.std.specs.Prelude.{◌≡◌, ◌≤◌, ℕ, List, Result, IfOk, length, take};
ghost use Rattle.vcd_read.specs.declared.fault.VcdFault.{VcdFault};
ghost use Rattle.vme_declarations.specs.SurveyStages.{survey_ahead};
ghost use Rattle.vme_declarations.specs.Surveys.{Survey, survey_of};
ghost use Rattle.vcd_read.specs.ByteConsumers.{ContinuesAs};

use crate::fault_context::FaultContext;
use std::alloc::{AllocError, Global};
use vcd_read::ByteConsumer;
use vme_declarations::DumpSurvey;

/// A dump that is surveyed.
#[derive(Drop)]
pub(crate) struct SurveyedInput {
    /// The survey so far.
    pub survey: DumpSurvey,
    /// What is kept to show where it is refused.
    pub context: FaultContext,
}

impl SurveyedInput {
    /// Before the first byte.
    pub fn new(alloc: Global) -> SurveyedInput
        ensures { (rest : List ℕ) → survey_ahead result.survey rest ≡ survey_of rest }
    {
        SurveyedInput {
            survey: DumpSurvey::new(),
            context: FaultContext::new(alloc),
        }
    }

    /// Takes a prefix of `bytes`, and returns its length. It fails if memory runs out.
    pub fn take(self, alloc: Global, bytes: &[u8]) -> Result<(SurveyedInput, usize), AllocError>
        ensures within { IfOk result (λ made. made.1 ≤ length bytes.now) }
        ensures taken { IfOk result (λ made. ContinuesAs (survey_ahead self.survey) (survey_ahead made.0.survey)
            (take made.1 bytes.now)) }
    {
        let SurveyedInput { survey, context } = self;
        let mut context = context;
        let (survey, count) = survey.take(alloc, bytes)?;
        context.pass(alloc, &bytes[..count], survey.fault())?;
        Ok((SurveyedInput { survey, context }, count))
    }
}

impl ByteConsumer for SurveyedInput {
    ghost use Rattle.std.specs.Prelude.{Result};
    ghost use Rattle.vcd_read.specs.declared.fault.VcdFault.{VcdFault};
    ghost use Rattle.vme_declarations.specs.Surveys.{Survey};
    ghost use Rattle.vme_declarations.specs.SurveyStages.{survey_ahead};

    ghost Outcome = { Result Survey VcdFault };

    ghost ahead = { λ u. survey_ahead u.survey };
}

//! What holds of the steps of every text.

ghost use Rattle.std.specs.Prelude.{◌≡◌, ◌<◌, ◌≤◌, ℕ, All, List, Some, []};
ghost use Rattle.vcd_read.specs.declared.fault.VcdFault.{VcdFault};
ghost use Rattle.vme_trace.specs.Followed.{with_steps};
ghost use Rattle.vme_trace.specs.declared.step.Step.{Step};
ghost use Rattle.vme_step_reader.specs.StepReading.{AreToCome, StepReading, whole_reading};

use vme_bind::recorded_before_is_a_prefix;

/// The steps that were returned are a prefix of those that are recorded, whatever bytes follow.
pub fn given_is_a_prefix()
    ensures { (r : StepReading) (rest : List ℕ) → (steps : List Step)
        × ((whole_reading r rest).recorded ≡ with_steps r.given steps) }
{
    recorded_before_is_a_prefix();
}

/// The steps that are still to come are no earlier than the last time that was read, and no later than the last time of
/// the whole text. If the text has a fault, they are all earlier than that time.
pub fn times_go_on()
    ensures follows { (r : StepReading) (rest : List ℕ) (steps : List Step)
        → AreToCome r rest steps
        → All (λ (step : Step). (whole_reading r []).time ≤ step.time) steps }
    ensures within { (r : StepReading) (rest : List ℕ) (steps : List Step)
        → AreToCome r rest steps
        → All (λ (step : Step). step.time ≤ (whole_reading r rest).time) steps }
    ensures before { (r : StepReading) (rest : List ℕ) (steps : List Step) (fault : VcdFault)
        → AreToCome r rest steps
        → (whole_reading r rest).fault ≡ Some fault
        → All (λ (step : Step). step.time < (whole_reading r rest).time) steps }
    ensures on { (r : StepReading) (rest : List ℕ) → (whole_reading r []).time ≤ (whole_reading r rest).time }
{
    recorded_before_is_a_prefix();
}

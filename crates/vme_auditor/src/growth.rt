//! How the breaks of a recording grow as its steps come.

ghost use Rattle.std.specs.Prelude.{◌≡◌, ◌≤◌, ◌+◌, All, List, [], ◌∷◌, ◌++◌, length, None};
ghost use Rattle.vme_trace.specs.Followed.{with_steps};
ghost use Rattle.vme_trace.specs.Levels.{Levels};
ghost use Rattle.vme_trace.specs.Trace.{Trace};
ghost use Rattle.vme_trace.specs.WellFormed.{malformed_step};
ghost use Rattle.vme_trace.specs.declared.step.Step.{Step};
ghost use Rattle.vme_audit.specs.Parts.{breaks};
ghost use Rattle.vme_auditor.specs.Growth.{StepBreaks};

use crate::laws::first_break_is_found;

/// Before the first step there is no break. Each step breaks at most one rule, at its own instant, and the breaks
/// before it stay. So no break is after the last step.
pub fn breaks_grow()
    ensures opening { (o : Levels) → o.slots ≤ 21 → breaks (record { opening = o; steps = [] }) ≡ [] }
    ensures step { (t : Trace) (s : Step) → malformed_step (with_steps t (s ∷ [])) ≡ None → t.opening.slots ≤ 21
        → StepBreaks t s }
    ensures within { (t : Trace) → malformed_step t ≡ None → t.opening.slots ≤ 21
        → All (λ b. b.instant ≤ length t.steps) (breaks t) }
{
    first_break_is_found();
}

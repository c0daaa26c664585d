//! How far a recording is read as its steps come.

ghost use Rattle.std.specs.Prelude.{◌≡◌, ℕ, ◌≤◌, true, false, List, Option, None};
ghost use Rattle.vme_trace.specs.Followed.{with_steps};
ghost use Rattle.vme_trace.specs.Trace.{Trace};
ghost use Rattle.vme_trace.specs.WellFormed.{malformed_step};
ghost use Rattle.vme_trace.specs.declared.step.Step.{Step};
ghost use Rattle.vme_audit.specs.declared.allowance.Allowance.{Allowance};
ghost use Rattle.vme_step_auditor.specs.ReadBy.{BreaksGoOn, HoldsOnceStopped, is_stopped, read_by};

use vme_auditor::breaks_grow;

/// Once an audit stops, further steps don't change what is read.
pub fn stop_is_final()
    ensures stays { (allowances : List Allowance) (stop : Option ℕ) → HoldsOnceStopped allowances stop
        (λ t longer. is_stopped allowances stop longer ≡ true) }
    ensures read { (allowances : List Allowance) (stop : Option ℕ) → HoldsOnceStopped allowances stop
        (λ t longer. read_by allowances stop longer ≡ read_by allowances stop t) }
{
    breaks_grow();
}

/// Until an audit stops, everything is read. When further steps come, the breaks of what is read stay, and others may
/// be added.
pub fn reading_goes_on()
    ensures all { (allowances : List Allowance) (stop : Option ℕ) (t : Trace)
        → is_stopped allowances stop t ≡ false → read_by allowances stop t ≡ t }
    ensures breaks { (allowances : List Allowance) (stop : Option ℕ) (t : Trace) (steps : List Step)
        → malformed_step (with_steps t steps) ≡ None → t.opening.slots ≤ 21
        → BreaksGoOn allowances stop t (with_steps t steps) }
{
    breaks_grow();
}

//! The steps of a dump, settled by a skew if there is one.

ghost use Rattle.std.specs.Prelude.{◌≡◌, ◌++◌, ◌&&◌, ℕ, true, None, Option, IfOk, OnOk};
ghost use Rattle.std.specs.Option.{option_to_list};
ghost use Rattle.vme_trace.specs.Followed.{with_steps};
ghost use Rattle.vme_trace.specs.Trace.{Trace};
ghost use Rattle.vme_trace.specs.WellFormed.{malformed_step};
ghost use Rattle.vme_skew.specs.Settled.{settled as settled_recording};
ghost use Rattle.vme_skew.specs.Settling.{IsSettledSoFar};
ghost use Rattle.vme_dump_input.specs.SettledReadings.{settled_so_far, settled_whole};
ghost use Rattle.vme_dump_input.specs.SettledSteps.{ComesOut, GoOnFrom, GoOnTo, IsSettlerFor, all_taken};
ghost use Rattle.vme_dump_input.specs.SettledSteps.{are_in_order, settled_to};

use std::alloc::{AllocError, Global};
use vme_skew::StepSettler;
use vme_trace::{Lines, Step};

/// The settler of a dump's steps. `None` if the skew is 0.
pub fn settler_for(alloc: Global, opening: &Lines, skew: u64) -> Option<StepSettler>
    ensures { IsSettlerFor skew opening.now result }
{
    if skew == 0 {
        None
    } else {
        Some(StepSettler::new(alloc, *opening, skew))
    }
}

/// Keeps a step that came out, if one did.
fn push_if_some(settled: &mut Vec<Step>, made: Option<Step>) -> Result<(), AllocError>
    ensures { OnOk result (settled.new.items ≡ settled.old.items ++ option_to_list made) }
{
    if let Some(step) = made {
        settled.push(step)?;
    }
    Ok(())
}

/// Gives the settler the steps that follow, and returns the steps that come out.
fn take_all(
    alloc: Global,
    settler: &mut StepSettler,
    steps: &[Step],
) -> Result<Vec<Step>, AllocError>
    ensures { IfOk result (λ made. settler.new ≡ all_taken settler.old steps.now made.items) }
{
    let mut settled = Vec::new(alloc);
    for step in steps {
        let made = settler.take(alloc, step)?;
        push_if_some(&mut settled, made)?;
    }
    Ok(settled)
}

/// Settles the steps that follow, and ends the current group if `time`, which was read in the dump, is past it.
fn settle(
    alloc: Global,
    settler: &mut StepSettler,
    steps: &[Step],
    time: u64,
) -> Result<Vec<Step>, AllocError>
    ensures made { IfOk result (λ made. settler.new ≡ settled_to settler.old steps.now time made.items) }
    ensures settled { OnOk result (IsSettledSoFar settler.new) }
{
    let mut settled = take_all(alloc, settler, steps)?;
    let made = settler.reach(alloc, time)?;
    push_if_some(&mut settled, made)?;
    Ok(settled)
}

/// Settles the last steps of the dump, at whose end all groups end.
fn settle_last(alloc: Global, settler: StepSettler, steps: &[Step]) -> Result<Vec<Step>, AllocError>
    ensures { IfOk result (λ made. malformed_step (with_steps settler.given steps.now) ≡ None
        → (settler.in_order && are_in_order settler.reached steps.now) ≡ true
        → settler.out ++ made.items ≡ (settled_recording settler.skew (with_steps settler.given steps.now)).steps) }
{
    let mut settler = settler;
    let mut settled = take_all(alloc, &mut settler, steps)?;
    let made = settler.end(alloc)?;
    push_if_some(&mut settled, made)?;
    Ok(settled)
}

/// The steps that come out once `steps` follow and `time` is read. Without a settler they are `steps`. It fails if
/// memory runs out, and then nothing is said of the settler.
pub fn settled_steps(
    alloc: Global,
    settler: &mut Option<StepSettler>,
    steps: Vec<Step>,
    time: u64,
) -> Result<Vec<Step>, AllocError>
    ensures comes { (skew : Option ℕ) (given t : Trace) (from : ℕ) → ComesOut skew settler.old given from t
        → GoOnTo given from steps.items time
        → IfOk result (λ made.
        ComesOut skew settler.new (with_steps given steps.items) time (with_steps t made.items)) }
    ensures settled { (skew : Option ℕ) (given t : Trace) (from : ℕ) → ComesOut skew settler.old given from t
        → GoOnTo given from steps.items time
        → IfOk result (λ made. with_steps t made.items ≡ settled_so_far skew time (with_steps given steps.items)) }
{
    match settler {
        None => Ok(steps),
        Some(settler) => settle(alloc, settler, &steps, time),
    }
}

/// The steps that come out at the end of the dump, where `steps` are its last. It fails if memory runs out.
pub fn last_steps(
    alloc: Global,
    settler: &mut Option<StepSettler>,
    steps: Vec<Step>,
) -> Result<Vec<Step>, AllocError>
    ensures { (skew : Option ℕ) (given t : Trace) (from : ℕ) → ComesOut skew settler.old given from t
        → GoOnFrom given from steps.items
        → IfOk result (λ made. with_steps t made.items ≡ settled_whole skew (with_steps given steps.items)) }
{
    match settler.take() {
        None => Ok(steps),
        Some(settler) => settle_last(alloc, settler, &steps),
    }
}

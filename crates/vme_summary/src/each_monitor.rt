//! Five monitors that are advanced in one pass over the steps.

ghost use Rattle.std.specs.Prelude.{◌≡◌, ◌≤◌, ◌∷◌, ◌++◌, [], IfOk, List, OnOk, length};
ghost use Rattle.vme_trace.specs.Levels.{Levels};
ghost use Rattle.vme_trace.specs.Trace.{levels_after};
ghost use Rattle.vme_trace.specs.declared.step.Step.{Step};
ghost use Rattle.vme_monitor.specs.Outcome.{StandsFor};
ghost use Rattle.vme_monitor.specs.StepRuns.{seen_in};
ghost use Rattle.vme_summary.specs.Advancing.{IsAdvancedTo};

use std::alloc::{AllocError, Global};
use vme_monitor::stepping::Stepping;
use vme_monitor::view::StepView;
use vme_trace::{Lines, Step};

/// A value for each of the five monitors.
#[derive(Drop)]
pub struct EachMonitor<A: Drop, B: Drop, C: Drop, D: Drop, E: Drop> {
    /// For the monitor of the start and end of judging, and of lost control lines.
    pub known: A,
    /// For the monitor of strobes and answers.
    pub handshake: B,
    /// For the monitor of lines that have to be known and held.
    pub stability: C,
    /// For the monitor of bus grants.
    pub grant: D,
    /// For the monitor of interrupt acknowledges.
    pub acknowledge: E,
}

/// The progress of five monitors before the first step.
fn begin_monitors<A: Stepping, B: Stepping, C: Stepping, D: Stepping, E: Stepping>(
    alloc: Global,
) -> Result<
    EachMonitor<A::Progress, B::Progress, C::Progress, D::Progress, E::Progress>,
    AllocError,
>
    ensures known { IfOk result (λ all. (o : Levels) → A.tells_of all.known o []) }
    ensures handshake { IfOk result (λ all. (o : Levels) → B.tells_of all.handshake o []) }
    ensures stability { IfOk result (λ all. (o : Levels) → C.tells_of all.stability o []) }
    ensures grant { IfOk result (λ all. (o : Levels) → D.tells_of all.grant o []) }
    ensures acknowledge { IfOk result (λ all. (o : Levels) → E.tells_of all.acknowledge o []) }
{
    Ok(EachMonitor {
        known: A::begin(alloc)?,
        handshake: B::begin(alloc)?,
        stability: C::begin(alloc)?,
        grant: D::begin(alloc)?,
        acknowledge: E::begin(alloc)?,
    })
}

/// Advances five monitors past a step, at its instant after the opening.
#[inline(always)]
fn step_monitors<A: Stepping, B: Stepping, C: Stepping, D: Stepping, E: Stepping>(
    alloc: Global,
    all: &mut EachMonitor<A::Progress, B::Progress, C::Progress, D::Progress, E::Progress>,
    view: &StepView,
    step: &Step,
    instant: u32,
) -> Result<(), AllocError>
    requires { view.now ≡ seen_in view.now.before step.now.changes }
    ensures known { OnOk result ((o : Levels) (x : List Step) → IsAdvancedTo o x view.now.before instant
        → A.tells_of all.old.known o x → A.tells_of all.new.known o (x ++ step.now ∷ [])) }
    ensures handshake { OnOk result ((o : Levels) (x : List Step) → IsAdvancedTo o x view.now.before instant
        → B.tells_of all.old.handshake o x → B.tells_of all.new.handshake o (x ++ step.now ∷ [])) }
    ensures stability { OnOk result ((o : Levels) (x : List Step) → IsAdvancedTo o x view.now.before instant
        → C.tells_of all.old.stability o x → C.tells_of all.new.stability o (x ++ step.now ∷ [])) }
    ensures grant { OnOk result ((o : Levels) (x : List Step) → IsAdvancedTo o x view.now.before instant
        → D.tells_of all.old.grant o x → D.tells_of all.new.grant o (x ++ step.now ∷ [])) }
    ensures acknowledge { OnOk result ((o : Levels) (x : List Step) → IsAdvancedTo o x view.now.before instant
        → E.tells_of all.old.acknowledge o x → E.tells_of all.new.acknowledge o (x ++ step.now ∷ [])) }
{
    A::go_on(alloc, &mut all.known, view, step, instant)?;
    B::go_on(alloc, &mut all.handshake, view, step, instant)?;
    C::go_on(alloc, &mut all.stability, view, step, instant)?;
    D::go_on(alloc, &mut all.grant, view, step, instant)?;
    E::go_on(alloc, &mut all.acknowledge, view, step, instant)
}

/// The summaries of the steps after an opening by five monitors, and the lines that the last step leaves. One pass over
/// the steps advances all of them. The only error is that an allocation fails.
pub fn summarise_monitors<A: Stepping, B: Stepping, C: Stepping, D: Stepping, E: Stepping>(
    alloc: Global,
    opening: &Lines,
    steps: &[Step],
) -> Result<
    (
        EachMonitor<A::Summary, B::Summary, C::Summary, D::Summary, E::Summary>,
        Lines,
    ),
    AllocError,
>
    requires few { length steps.now ≤ 268435456 }
    ensures known { IfOk result (λ made.
        StandsFor A.run (A.outcome made.0.known) (A.count made.0.known) opening.now steps.now) }
    ensures handshake { IfOk result (λ made.
        StandsFor B.run (B.outcome made.0.handshake) (B.count made.0.handshake) opening.now steps.now) }
    ensures stability { IfOk result (λ made.
        StandsFor C.run (C.outcome made.0.stability) (C.count made.0.stability) opening.now steps.now) }
    ensures grant { IfOk result (λ made.
        StandsFor D.run (D.outcome made.0.grant) (D.count made.0.grant) opening.now steps.now) }
    ensures acknowledge { IfOk result (λ made.
        StandsFor E.run (E.outcome made.0.acknowledge) (E.count made.0.acknowledge) opening.now steps.now) }
    ensures left { IfOk result (λ made. made.1 ≡ levels_after opening.now steps.now) }
{
    let mut all = begin_monitors::<A, B, C, D, E>(alloc)?;
    let mut view = StepView::new(opening);
    let mut instant = 0;
    for step in steps {
        let changes = step.changes.as_slice();
        view.go_to(changes);
        instant += 1;
        step_monitors::<A, B, C, D, E>(alloc, &mut all, &view, step, instant)?;
        view.go_past(changes);
    }
    let summaries = EachMonitor {
        known: A::finish(all.known, instant),
        handshake: B::finish(all.handshake, instant),
        stability: C::finish(all.stability, instant),
        grant: D::finish(all.grant, instant),
        acknowledge: E::finish(all.acknowledge, instant),
    };
    Ok((summaries, view.before))
}

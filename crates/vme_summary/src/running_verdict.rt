//! The state of judging a recording from its opening on, block by block. It allocates nothing.

ghost use Rattle.std.specs.Prelude.{◌≡◌, ◌+◌, ◌≤◌, ◌↔◌, List, ◌++◌, IfSome, None, Some};
ghost use Rattle.vme_trace.specs.Verdict.{rules_in_force, verdict_by};
ghost use Rattle.vme_trace.specs.declared.block.Block.{Block};
ghost use Rattle.vme_summary.specs.Joins.{BlocksJoin};
ghost use Rattle.vme_summary.specs.Progressed.{ComesPastBoth, HasCome, judged_steps};
ghost use Rattle.vme_summary.specs.Stands.{SpanStandsFor, recorded, step_count};

use crate::extent::Extent;
use crate::monitor_states::MonitorStates;
use crate::span::Span;
use vme_trace::Verdict;

/// The state of judging blocks that join, from the opening of the first one on: their extent, and what the monitors
/// found.
#[derive(Drop)]
pub struct RunningVerdict {
    extent: Extent,
    steps: u32,
    found: MonitorStates,
}

impl RunningVerdict {
    /// The state after the blocks of a span.
    pub fn of(span: &Span) -> RunningVerdict
        ensures steps { judged_steps result ≡ step_count span.now }
        ensures come { (blocks : List Block) → SpanStandsFor span.now blocks → HasCome result blocks }
    {
        RunningVerdict {
            extent: span.extent,
            steps: span.steps(),
            found: span.summary.found_from(&span.extent.opening),
        }
    }

    /// The state after the blocks of a further span, if they join those before: the span's first number is the next, it
    /// opens with the lines that those before leave, slots included, and its first step is later than the last one
    /// before it. They have at most 268,435,456 steps together.
    pub fn after(&self, next: &Span) -> Option<RunningVerdict>
        requires { judged_steps self.now + step_count next.now ≤ 268435456 }
        ensures steps { IfSome result (λ p. judged_steps p ≡ judged_steps self.now + step_count next.now) }
        ensures come { IfSome result (ComesPastBoth self.now next.now) }
        ensures torn { (x y : List Block) → HasCome self.now x → SpanStandsFor next.now y
            → ((result ≡ None) ↔ ¬ BlocksJoin (x ++ y)) }
    {
        if !self.extent.meets(&next.extent) {
            return None;
        }
        Some(RunningVerdict {
            extent: self.extent.joined(&next.extent),
            steps: self.steps + next.steps(),
            found: next.summary.found_after(&self.found, self.steps),
        })
    }

    /// The verdict, by the rules in force, of the recording that the blocks make: the first of them has to be the
    /// recording's first.
    pub fn verdict(&self) -> Verdict
        ensures { (blocks : List Block) → HasCome self.now blocks
            → recorded (verdict_by rules_in_force) blocks ≡ Some result }
    {
        prove!(self.extent.opening.slots() <= 21);
        self.found.verdict()
    }
}

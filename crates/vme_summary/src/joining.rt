//! Joining two spans whose blocks follow one another.

ghost use Rattle.std.specs.Prelude.{◌≡◌, ◌+◌, ◌≤◌, ◌↔◌, List, IfOk, IfErr, Err};
ghost use Rattle.vme_trace.specs.declared.block.Block.{Block};
ghost use Rattle.vme_summary.specs.Joins.{MakeSoundRecording};
ghost use Rattle.vme_summary.specs.Stands.{SaysTorn, SpanStandsFor, StandsForBlocks, StandsForBoth, first_number};
ghost use Rattle.vme_summary.specs.Stands.{step_count};
ghost use Rattle.vme_summary.specs.declared.span.Span.{Span};

use crate::span::Span;
use crate::summary::MonitorSummaries;
use std::alloc::Global;

/// Why two spans aren't joined.
#[derive(Clone, Copy, Debug, PartialEq, Eq)]
pub enum JoinFault {
    /// The second span doesn't continue where the first ends: its first number isn't the next, it doesn't open with the
    /// levels that the first leaves, slots included, or its first step isn't later than the last one before it.
    Torn,
    /// Memory ran out.
    Memory,
}

/// The span of the blocks of `first` and then those of `second`, which continues where `first` ends. They have at most
/// 268,435,456 steps together. `Torn` takes precedence over `Memory`.
pub fn join(alloc: Global, first: &Span, second: &Span) -> Result<Span, JoinFault>
    requires { step_count first.now + step_count second.now ≤ 268435456 }
    ensures starts { IfOk result (λ s. first_number s ≡ first_number first.now) }
    ensures steps { IfOk result (λ s. step_count s ≡ step_count first.now + step_count second.now) }
    ensures joined { IfOk result (StandsForBoth first.now second.now) }
    ensures torn { SaysTorn (result ≡ Err JoinFault.Torn) first.now second.now }
{
    if !first.extent.meets(&second.extent) {
        return Err(JoinFault::Torn);
    }
    let Ok(summary) = MonitorSummaries::compose(alloc, &first.summary, &second.summary) else {
        return Err(JoinFault::Memory);
    };
    Ok(Span {
        extent: first.extent.joined(&second.extent),
        summary,
    })
}

/// Joins two spans as `join` does, and consumes them: what they hold is moved, not copied. All memory is allocated
/// before anything is moved. With an error both are handed back: the first stands for the same blocks as before, and
/// the second is as it was.
pub fn append(alloc: Global, first: Span, second: Span) -> Result<Span, (Span, Span, JoinFault)>
    requires { step_count first + step_count second ≤ 268435456 }
    ensures starts { IfOk result (λ s. first_number s ≡ first_number first) }
    ensures steps { IfOk result (λ s. step_count s ≡ step_count first + step_count second) }
    ensures joined { IfOk result (StandsForBoth first second) }
    ensures torn { IfErr result (λ refused. SaysTorn (refused.2 ≡ JoinFault.Torn) first second) }

    // After an error.
    ensures first { IfErr result (λ refused. (x : List Block) → (SpanStandsFor first x ↔ SpanStandsFor refused.0 x)) }
    ensures first_starts { IfErr result (λ refused. first_number refused.0 ≡ first_number first) }
    ensures first_steps { IfErr result (λ refused. step_count refused.0 ≡ step_count first) }
    ensures second { IfErr result (λ refused. refused.1 ≡ second) }
{
    if !first.extent.meets(&second.extent) {
        return Err((first, second, JoinFault::Torn));
    }
    let mut summary = first.summary;
    match summary.make_room(alloc, &second.summary) {
        Ok(room) => Ok(Span {
            extent: first.extent.joined(&second.extent),
            summary: summary.append_in(room, second.summary),
        }),
        Err(_) => Err((
            Span {
                extent: first.extent,
                summary,
            },
            second,
            JoinFault::Memory,
        )),
    }
}

/// Blocks that join, each of which is well formed, make a well-formed recording.
pub fn joined_blocks_are_sound()
    ensures { (blocks : List Block) → MakeSoundRecording blocks }
{}

/// Each span stands for some blocks, whoever made it.
pub fn spans_stand_for_blocks()
    ensures { (s : Span) → ∥ StandsForBlocks s ∥₁ }
{}

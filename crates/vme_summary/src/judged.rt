//! A block and the span that stands for it.

ghost use Rattle.std.specs.Prelude.{◌≡◌, ◌≤◌, [], ◌∷◌, length, IfOk, IfErr, None};
ghost use Rattle.vme_trace.specs.Block.{trace_of};
ghost use Rattle.vme_trace.specs.WellFormed.{malformed_step};
ghost use Rattle.vme_summary.specs.Joins.{block_of};
ghost use Rattle.vme_summary.specs.Stands.{SpanStandsFor, first_number, step_count};

use crate::extent::Extent;
use crate::span::Span;
use crate::summary::MonitorSummaries;
use std::alloc::{AllocError, Global};
use std::marker::Model;
use vme_trace::{Block, Lines, Step};

/// A block that is judged: `Block::check` accepts it, it has at most 65,536 steps, and a span stands for it alone.
/// Contracts see it as the block.
#[derive(Drop)]
pub struct Judged {
    block: Block,
    span: Span,
}

impl Model for Judged {
    ghost use Rattle.vme_summary.specs.Stands.{IsJudged};
    ghost use Rattle.vme_trace.specs.declared.block.Block.{Block};

    ghost Value = { Block };

    ghost view = { λ a. a.block };

    ghost invariant = { λ a. IsJudged a.block a.span };
}

impl Judged {
    /// The block.
    pub fn block(&self) -> &Block
        ensures block { result.now ≡ self.now }
        ensures accepted { malformed_step (trace_of self.now) ≡ None }
        ensures short { length self.now.steps ≤ 65536 }
    {
        &self.block
    }

    /// The span that stands for the block alone.
    pub fn span(&self) -> &Span
        ensures span { SpanStandsFor result.now (self.now ∷ []) }
        ensures starts { first_number result.now ≡ self.now.number }
        ensures steps { step_count result.now ≡ length self.now.steps }
    {
        &self.span
    }

    /// The block, without the span.
    pub fn into_block(self) -> Block
        ensures { result ≡ self }
    {
        let Judged { block, span: _ } = self;
        block
    }

    /// The block and the span.
    pub fn into_parts(self) -> (Block, Span)
        ensures block { result.0 ≡ self }
        ensures accepted { malformed_step (trace_of self) ≡ None }
        ensures span { SpanStandsFor result.1 (self ∷ []) }
        ensures starts { first_number result.1 ≡ self.number }
        ensures steps { step_count result.1 ≡ length self.steps }
        ensures short { length self.steps ≤ 65536 }
    {
        let Judged { block, span } = self;
        (block, span)
    }
}

/// Judges a block, whatever came before it. It has to be one that `Block::check` accepts, of at most 65,536 steps. The
/// only error is that an allocation fails: the block is then handed back as it was.
pub fn judge_block(alloc: Global, block: Block) -> Result<Judged, (Block, AllocError)>
    requires accepted { malformed_step (trace_of block) ≡ None }
    requires short { length block.steps ≤ 65536 }
    ensures judged { IfOk result (λ judged. judged ≡ block) }
    ensures handed_back { IfErr result (λ fault. fault.0 ≡ block) }
{
    match span_of_steps(alloc, block.number, &block.opening, block.steps.as_slice()) {
        Ok(span) => Ok(Judged { block, span }),
        Err(fault) => Err((block, fault)),
    }
}

/// The span of a block of `steps`, whatever came before it.
fn span_of_steps(
    alloc: Global,
    number: u32,
    opening: &Lines,
    steps: &[Step],
) -> Result<Span, AllocError>
    requires accepted { malformed_step (trace_of (block_of number opening.now steps.now)) ≡ None }
    requires short { length steps.now ≤ 65536 }
    ensures { IfOk result (λ s. SpanStandsFor s (block_of number opening.now steps.now ∷ [])) }
{
    let (summary, left) = MonitorSummaries::of_steps(alloc, opening, steps)?;
    Ok(Span {
        extent: Extent::around(number, opening, steps, left),
        summary,
    })
}

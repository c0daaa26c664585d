//! Inserted blocks at their numbers, and their spans.

ghost use Rattle.std.specs.Prelude.{◌≡◌, ◌≤◌, replicate, IfOk, IfSome, None, MatchOption};
ghost use Rattle.vme_book.specs.Inserted.{AllThere, IsLeastMissing};
ghost use Rattle.vme_book.specs.BookState.{AreAtOwnNumbers, HasJudgedLongest, HasJudgedPrefix, HaveSpans};

use std::alloc::{AllocError, Global};
use vme_summary::{RunningVerdict, Span};
use vme_trace::Block;

/// At each number the block that was inserted there, and its span until the span is joined to those before it.
#[derive(Drop)]
pub(crate) struct BookSlots {
    pub(crate) blocks: Vec<Option<Block>>,
    pub(crate) spans: Vec<Option<Span>>,
}

/// A vector of `count` places, with nothing at any.
fn vacant<T>(alloc: Global, count: usize) -> Result<Vec<Option<T>>, AllocError>
    ensures { IfOk result (λ places. places.items ≡ replicate count None) }
{
    let mut places = Vec::with_capacity(alloc, count)?;
    for _ in 0..count {
        places.push_reserved(None);
    }
    Ok(places)
}

impl BookSlots {
    /// `total` numbers, with nothing inserted at any.
    pub(crate) fn new(alloc: Global, total: usize) -> Result<BookSlots, AllocError>
        ensures blocks { IfOk result (λ places. places.blocks.items ≡ replicate total None) }
        ensures spans { IfOk result (λ places. places.spans.items ≡ replicate total None) }
    {
        Ok(BookSlots {
            blocks: vacant(alloc, total)?,
            spans: vacant(alloc, total)?,
        })
    }

    /// The least number at which nothing is inserted.
    pub(crate) fn missing(&self) -> Option<usize>
        ensures some { IfSome result (λ n. IsLeastMissing self.now.blocks.items n) }
        ensures none { MatchOption result (AllThere self.now.blocks.items) (λ n. Unit {0}) }
    {
        for (number, block) in self.blocks.iter().enumerate() {
            if block.is_none() {
                return Some(number);
            }
        }
        None
    }

    /// Continues judging with the blocks from number `from` on, as long as they are inserted and join those before. The
    /// result is the state of judging after them, and the first number that isn't judged.
    pub(crate) fn judge_from(
        &self,
        progress: Option<RunningVerdict>,
        from: usize,
    ) -> (Option<RunningVerdict>, usize)
        requires placed { AreAtOwnNumbers self.now.blocks.items }
        requires waiting { HaveSpans self.now.blocks.items self.now.spans.items from }
        requires past { HasJudgedPrefix self.now.blocks.items progress from }
        ensures within { from ≤ result.1 }
        ensures past { HasJudgedLongest self.now.blocks.items result.0 result.1 }
    {
        let mut progress = progress;
        for number in from..self.blocks.len() {
            if self.blocks[number].is_none() {
                return (progress, number);
            }
            let Some(span) = &self.spans[number] else {
                unreachable!()
            };
            let next = match &progress {
                None => Some(RunningVerdict::of(span)),
                Some(before) => before.after(span),
            };
            if next.is_none() {
                return (progress, number);
            }
            progress = next;
        }
        (progress, self.blocks.len())
    }
}

//! The first blocks, joined to one span.

ghost use Rattle.std.specs.Prelude.{◌≡◌, ◌+◌, ◌<◌, ◌≤◌, None, OnOk, OnErr, IfErr};
ghost use Rattle.vme_book.specs.BookState.{AreAtOwnNumbers, FirstJoin, FitsAfter, HaveSpans, IsJoinedTo};
ghost use Rattle.vme_book.specs.BookState.{JoinsAfter, StandsAsBefore, StandsForPrefix};

use crate::places::BookSlots;
use std::alloc::{AllocError, Global};
use vme_summary::{JoinFault, Span, append};

/// The first blocks, joined to one span.
#[derive(Drop)]
pub(crate) struct JoinedPrefix {
    /// The span of the blocks; `None` if there are none.
    pub(crate) span: Option<Span>,
    /// How many blocks they are.
    pub(crate) count: usize,
}

impl JoinedPrefix {
    /// No blocks.
    pub(crate) fn new() -> JoinedPrefix
        ensures count { result.count ≡ 0 }
        ensures span { result.span ≡ None }
    {
        JoinedPrefix {
            span: None,
            count: 0,
        }
    }

    /// Takes over the span of the next block, which joins those before it. Without memory the span is handed back.
    fn push(&mut self, alloc: Global, next: Span) -> Result<(), Span>
        requires room { self.old.count < 4096 }
        requires few { FitsAfter self.old.span next }
        requires joins { JoinsAfter self.old.span next }
        ensures pushed { OnOk result (IsJoinedTo self.old.span next self.new.span) }
        ensures more { OnOk result (self.new.count ≡ self.old.count + 1) }
        ensures kept { OnErr result (StandsAsBefore self.old.span self.new.span) }
        ensures same { OnErr result (self.new.count ≡ self.old.count) }
        ensures handed_back { IfErr result (λ span. span ≡ next) }
    {
        let Some(before) = self.span.take() else {
            self.span = Some(next);
            self.count += 1;
            return Ok(());
        };
        match append(alloc, before, next) {
            Ok(span) => {
                self.span = Some(span);
                self.count += 1;
                Ok(())
            }
            Err((before, next, fault)) => {
                let JoinFault::Memory = fault else {
                    unreachable!()
                };
                self.span = Some(before);
                Err(next)
            }
        }
    }

    /// Takes over the spans of the next blocks, those with numbers below `end`. Without memory it takes over fewer.
    pub(crate) fn join_up_to(
        &mut self,
        alloc: Global,
        places: &mut BookSlots,
        end: usize,
    ) -> Result<(), AllocError>
        requires placed { AreAtOwnNumbers places.old.blocks.items }
        requires waiting { HaveSpans places.old.blocks.items places.old.spans.items self.old.count }
        requires joined { StandsForPrefix places.old.blocks.items self.old }
        requires prefix { FirstJoin places.old.blocks.items end }
        requires within { self.old.count ≤ end }
        ensures blocks { places.new.blocks ≡ places.old.blocks }
        ensures waiting { HaveSpans places.old.blocks.items places.new.spans.items self.new.count }
        ensures joined { StandsForPrefix places.old.blocks.items self.new }
        ensures within { self.new.count ≤ end }
        ensures all { OnOk result (self.new.count ≡ end) }
    {
        for number in self.count..end {
            let Some(span) = places.spans[number].take() else {
                unreachable!()
            };
            if let Err(span) = self.push(alloc, span) {
                places.spans[number] = Some(span);
                return Err(AllocError);
            }
        }
        Ok(())
    }
}

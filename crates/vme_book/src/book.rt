//! A book, i.e. a reorder buffer: judged blocks that arrive in any order are collected by number and
//! joined.

ghost use Rattle.std.specs.Prelude.{◌≡◌, ◌<◌, ◌↔◌, ◌⊎◌, length, replicate, slice_set, IfOk, IfErr, OnOk, OnErr, Err};
ghost use Rattle.std.specs.Prelude.{None, Some};
ghost use Rattle.vme_book.specs.Inserted.{IsVerdictSoFar, MakesWhole, RefusesBlock, RefusesClose, stored};

use crate::joined::JoinedPrefix;
use crate::places::BookSlots;
use crate::recording::recording;
use std::alloc::Global;
use std::marker::Model;
use vme_summary::{Judged, RunningVerdict, Span};
use vme_trace::{Block, Capture, Verdict};

/// How many blocks a book has at most.
const MOST_BLOCKS: u32 = 4096;

/// Why no book is made.
#[derive(Clone, Copy, Debug, PartialEq, Eq)]
pub enum BookFault {
    /// The total is 0 or over 4,096.
    BadTotal,
    /// Memory ran out.
    Memory,
}

/// Why a block isn't inserted.
#[derive(Clone, Copy, Debug, PartialEq, Eq)]
pub enum InsertFault {
    /// Its number isn't below the total.
    Stranger,
    /// A block of its number was inserted before.
    Doubled,
    /// Memory ran out.
    Memory,
}

/// Why a book isn't closed.
#[derive(Clone, Copy, Debug, PartialEq, Eq)]
pub enum CloseFault {
    /// No block of this number was inserted; it is the least such number.
    Missing(u32),
    /// The block of this number doesn't join those before it; it is the least such number.
    Torn(u32),
    /// Memory ran out.
    Memory,
}

/// The result of closing a book all of whose blocks are inserted and join.
#[derive(Drop)]
pub struct Whole {
    /// The span of all blocks.
    pub span: Span,
    /// The recording of all blocks.
    pub capture: Capture,
}

/// Judged blocks of one recording, inserted in any order. Contracts see a list: at each number below the total, the
/// block that was inserted there, if there is one. A block *joins* those before it if it opens with the lines that they
/// leave and its steps come later than theirs.
#[derive(Drop)]
pub struct Book {
    places: BookSlots,
    /// The state of judging after the blocks from number 0 on that are inserted and join; `None` if there are none.
    progress: Option<RunningVerdict>,
    /// How many blocks these are.
    reached: usize,
    /// The first ones of these blocks, joined to one span. The others are joined as a further block is inserted, or as
    /// the book is closed.
    joined: JoinedPrefix,
}

impl Model for Book {
    ghost use Rattle.std.specs.Prelude.{List, Option};
    ghost use Rattle.vme_trace.specs.declared.block.Block.{Block};

    ghost Value = { List (Option Block) };

    ghost use Rattle.vme_book.specs.BookState.{IsBookState};

    ghost view = { λ a. a.places.blocks.items };

    ghost invariant = { λ a. IsBookState a.places a.progress a.reached a.joined };
}

impl Book {
    /// A book of `total` numbers, 1 to 4,096, with nothing inserted. It fails if the total is out of its range or
    /// memory runs out.
    pub fn new(alloc: Global, total: u32) -> Result<Book, BookFault>
        ensures bad_total { (result ≡ Err BookFault.BadTotal) ↔ ((total ≡ 0) ⊎ (4096 < total)) }
        ensures empty { IfOk result (λ book. book ≡ replicate total None) }
    {
        if total == 0 || total > MOST_BLOCKS {
            return Err(BookFault::BadTotal);
        }
        let Ok(places) = BookSlots::new(alloc, total as usize) else {
            return Err(BookFault::Memory);
        };
        Ok(Book {
            places,
            progress: None,
            reached: 0,
            joined: JoinedPrefix::new(),
        })
    }

    /// Inserts a judged block at its number. If it isn't inserted, it is handed back, and the book is left as it was.
    /// Stranger is named before Doubled, and Doubled before Memory. Spans are moved, not copied; each is joined once.
    pub fn insert(&mut self, alloc: Global, judged: Judged) -> Result<(), (Judged, InsertFault)>
        ensures free { OnOk result (stored self.old judged.number ≡ None) }
        ensures known { OnOk result (judged.number < length self.old) }
        ensures inserted { OnOk result (self.new ≡ slice_set self.old judged.number (Some judged)) }
        ensures why { IfErr result (λ refused. RefusesBlock self.old judged.number refused.1) }
        ensures handed_back { IfErr result (λ refused. refused.0 ≡ judged) }
        ensures unchanged { OnErr result (self.new ≡ self.old) }
    {
        let number = judged.block().number as usize;
        if number >= self.places.blocks.len() {
            return Err((judged, InsertFault::Stranger));
        }
        if self.places.blocks[number].is_some() {
            return Err((judged, InsertFault::Doubled));
        }
        // Joining takes memory, so it is done before the block is put in: if it fails, the book has the same blocks.
        if self
            .joined
            .join_up_to(alloc, &mut self.places, self.reached)
            .is_err()
        {
            return Err((judged, InsertFault::Memory));
        }
        let (block, span) = judged.into_parts();
        self.places.blocks[number] = Some(block);
        self.places.spans[number] = Some(span);
        let (progress, reached) = self.places.judge_from(self.progress.take(), self.reached);
        self.progress = progress;
        self.reached = reached;
        Ok(())
    }

    /// The verdict, by the rules in force, of the longest list of blocks from number 0 on that are inserted and join;
    /// `None` until block 0 is inserted. It takes no memory, and no more time for more blocks.
    pub fn so_far(&self) -> Option<Verdict>
        ensures { IsVerdictSoFar self.now result }
    {
        match &self.progress {
            None => None,
            Some(progress) => Some(progress.verdict()),
        }
    }

    /// The span and the recording of all blocks, whose steps are moved. On an error the book is handed back as it was.
    /// Missing is named before Torn, and Torn before Memory.
    pub fn close(self, alloc: Global) -> Result<Whole, (Book, CloseFault)>
        ensures whole { IfOk result (MakesWhole self) }
        ensures why { IfErr result (λ refused. RefusesClose self refused.1) }
        ensures handed_back { IfErr result (λ refused. refused.0 ≡ self) }
    {
        let mut book = self;
        if let Some(number) = book.places.missing() {
            return Err((book, CloseFault::Missing(number as u32)));
        }
        if book.reached < book.places.blocks.len() {
            let number = book.reached as u32;
            return Err((book, CloseFault::Torn(number)));
        }
        if book
            .joined
            .join_up_to(alloc, &mut book.places, book.reached)
            .is_err()
        {
            return Err((book, CloseFault::Memory));
        }
        let steps = match &book.joined.span {
            Some(span) => span.steps() as usize,
            None => unreachable!(),
        };
        let Ok(room) = Vec::with_capacity(alloc, steps) else {
            return Err((book, CloseFault::Memory));
        };
        let Some(span) = book.joined.span.take() else {
            unreachable!()
        };
        Ok(Whole {
            span,
            capture: recording(book.places.blocks, room),
        })
    }
}

//! The work of the calling thread: it delivers as any worker, and takes filed blocks off the board into a book, which
//! keeps them by number and joins them.

ghost use Rattle.std.specs.Prelude.{◌≡◌, ◌<◌, [], IfOk, OnOk};
ghost use Rattle.vme_core.specs.Stages.{HasSeen};
ghost use Rattle.vme_core.specs.declared.stage.Stage.TheVariants as stage;
ghost use Rattle.vme_core.specs.declared.view.View.{View};
ghost use Rattle.vme_board.specs.Benches.{IsOf, total_of, view_of};
ghost use Rattle.vme_floor.specs.Collecting.{IsCollected, IsCollectedOf, IsKnownTaken, OwnAreTaken, TakesOnly};
ghost use Rattle.vme_floor.specs.Works.{IsKnownFiled, IsNew};
ghost use Rattle.vme_floor.specs.declared.answer.Answer.TheVariants.{Filed};

use crate::answer::Answer;
use crate::gate::Gate;
use crate::worker::{Work, deliver_next};
use std::alloc::{AllocError, Global};
use vme_board::{Bench, Board};
use vme_book::{Book, BookFault, InsertFault};
use vme_core::Stage;
use vme_trace::Block;

/// The blocks that were taken off a board, in a book.
#[derive(Drop)]
pub(crate) struct Collection {
    pub(crate) book: Book,
    /// How many blocks were taken.
    pub(crate) count: u32,
    /// How many numbers the board has.
    pub(crate) total: u32,
    /// Each number below this one is taken.
    pub(crate) next: u32,
}

impl Collection {
    /// No blocks, of `total` numbers.
    pub(crate) fn new(alloc: Global, total: u32) -> Result<Collection, BookFault>
        ensures { IfOk result (λ c. (v : View) → v.takes ≡ [] → IsCollected total v c) }
    {
        Ok(Collection {
            book: Book::new(alloc, total)?,
            count: 0,
            total,
            next: 0,
        })
    }

    /// Looks up the stage of a number and, if it is filed, takes its block and inserts it into the book. The answer is
    /// whether the number is filed or taken.
    fn collect(
        &mut self,
        alloc: Global,
        board: &Board,
        bench: &mut Bench,
        number: u32,
    ) -> Result<bool, AllocError>
        requires bench { IsOf bench.old board.now }
        requires number { number < total_of board.now }
        requires collected { IsCollected (total_of board.now) (view_of bench.old) self.old }
        ensures board { IsOf bench.new board.now }
        ensures rest { TakesOnly (view_of bench.old) (view_of bench.new) }
        ensures collected { OnOk result (IsCollected (total_of board.now) (view_of bench.new) self.new) }
        ensures gone { OnOk result (HasSeen (view_of bench.old) number stage.Filed
            → IsKnownTaken (view_of bench.new) number) }
    {
        match bench.look(board, number) {
            Stage::Free | Stage::Claimed => return Ok(false),
            Stage::Taken => return Ok(true),
            Stage::Filed => {}
        }
        let Some(judged) = bench.take(board, number) else {
            return Ok(true);
        };
        if let Err((_, fault)) = self.book.insert(alloc, judged) {
            let InsertFault::Memory = fault else {
                unreachable!()
            };
            return Err(AllocError);
        }
        self.count += 1;
        Ok(true)
    }

    /// After a delivery: collects its number, if it was filed, and then the numbers from `next` on, up to the first
    /// that isn't filed yet.
    fn collect_after(
        &mut self,
        alloc: Global,
        board: &Board,
        bench: &mut Bench,
        number: u32,
        answer: Answer,
    ) -> Result<(), AllocError>
        requires bench { IsOf bench.old board.now }
        requires number { answer ≡ Filed → IsKnownFiled (total_of board.now) (view_of bench.old) number }
        requires collected { IsCollected (total_of board.now) (view_of bench.old) self.old }
        ensures board { IsOf bench.new board.now }
        ensures rest { TakesOnly (view_of bench.old) (view_of bench.new) }
        ensures collected { OnOk result (IsCollected (total_of board.now) (view_of bench.new) self.new) }
        ensures gone { OnOk result (answer ≡ Filed → IsKnownTaken (view_of bench.new) number) }
    {
        if let Answer::Filed = answer {
            self.collect(alloc, board, bench, number)?;
        }
        for next in self.next..self.total {
            if !self.collect(alloc, board, bench, next)? {
                return Ok(());
            }
            self.next = next + 1;
        }
        Ok(())
    }
}

/// The calling thread's work, and the blocks that it collected.
#[derive(Drop)]
pub(crate) struct CollectingWorker {
    pub(crate) work: Work,
    pub(crate) collection: Collection,
}

/// Draws deliveries, delivers each, and collects after it, until none is left.
pub(crate) fn deliver_and_collect<G: Gate>(
    alloc: Global,
    board: &Board,
    deliveries: &[Block],
    gate: &G,
    bench: Bench,
    collection: Collection,
) -> Result<CollectingWorker, AllocError>
    requires new { IsNew board.now deliveries.now bench }
    requires collected { IsCollected (total_of board.now) (view_of bench) collection }
    ensures collected { IfOk result (λ all. IsCollectedOf board.now deliveries.now all) }
    ensures own { IfOk result (λ all. OwnAreTaken (view_of all.work.bench)) }
    ensures share { IfOk result (λ all. (view_of all.work.bench).share ≡ (view_of bench).share) }
{
    let mut work = Work {
        bench,
        replies: Vec::new(alloc),
    };
    let mut collection = collection;
    'draws: while let Some(reply) = deliver_next(alloc, board, deliveries, gate, 0, &mut work)? {
        let number = deliveries[reply.delivery as usize].number;
        collection.collect_after(alloc, board, &mut work.bench, number, reply.answer)?;
    }
    Ok(CollectingWorker { work, collection })
}

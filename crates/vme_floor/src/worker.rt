//! The work of one worker.

ghost use Rattle.std.specs.Prelude.{◌≡◌, IfOk, OnOk, None};
ghost use Rattle.vme_core.specs.Stages.{HasSeen, SeesMore};
ghost use Rattle.vme_core.specs.declared.stage.Stage.TheVariants as stage;
ghost use Rattle.vme_board.specs.Benches.{IsOf, draws_of, total_of, view_of};
ghost use Rattle.vme_board.specs.Views.{AllFound, SameDraws};
ghost use Rattle.vme_floor.specs.Answering.{IsRightAnswer};
ghost use Rattle.vme_floor.specs.declared.answer.Answer.TheVariants.{Doubled, Filed};
ghost use Rattle.vme_floor.specs.Works.{IsListAfter, IsNew, IsNext, IsOtherWorkOf, IsWorkOf};

use crate::answer::{Answer, Reply};
use crate::gate::Gate;
use std::alloc::{AllocError, Global};
use vme_board::{Bench, Board, DeliveryRefusal};
use vme_trace::Block;

/// The work that a worker did: its bench, and a reply to each delivery that it drew.
#[derive(Drop)]
pub(crate) struct Work {
    pub(crate) bench: Bench,
    pub(crate) replies: Vec<Reply>,
}

/// Draws deliveries, and delivers each, until none is left.
pub(crate) fn deliver_drawn<G: Gate>(
    alloc: Global,
    board: &Board,
    deliveries: &[Block],
    gate: &G,
    worker: u32,
    bench: Bench,
) -> Result<Work, AllocError>
    requires { IsNew board.now deliveries.now bench }
    ensures other { IfOk result (λ work. IsOtherWorkOf board.now deliveries.now work) }
    ensures share { IfOk result (λ work. (view_of work.bench).share ≡ (view_of bench).share) }
{
    let mut work = Work {
        bench,
        replies: Vec::new(alloc),
    };
    'draws: while let Some(_) = deliver_next(alloc, board, deliveries, gate, worker, &mut work)? {}
    Ok(work)
}

/// Draws a delivery, and delivers it. None if no delivery is left.
pub(crate) fn deliver_next<G: Gate>(
    alloc: Global,
    board: &Board,
    deliveries: &[Block],
    gate: &G,
    worker: u32,
    work: &mut Work,
) -> Result<Option<Reply>, AllocError>
    requires work { IsWorkOf board.now deliveries.now work.old }
    ensures work { OnOk result (IsWorkOf board.now deliveries.now work.new) }
    ensures next { IfOk result (IsNext board.now deliveries.now work.old work.new) }
    ensures share { OnOk result ((view_of work.new.bench).share ≡ (view_of work.old.bench).share) }
    ensures none_left { IfOk result (λ r. r ≡ None → AllFound (view_of work.new.bench) (draws_of board.now)) }
{
    // Before the draw, so that each delivery that is drawn gets a reply.
    work.replies.reserve(1)?;
    let Some(delivery) = work.bench.draw(board) else {
        return Ok(None);
    };
    gate.pass(worker, delivery);
    let answer = deliver_copy(
        alloc,
        board,
        &deliveries[delivery as usize],
        &mut work.bench,
    );
    gate.done(worker, delivery);
    let reply = Reply { delivery, answer };
    work.replies.push_reserved(reply);
    Ok(Some(reply))
}

/// Delivers a copy of a block.
fn deliver_copy(alloc: Global, board: &Board, block: &Block, bench: &mut Bench) -> Answer
    requires { IsOf bench.old board.now }
    ensures board { IsOf bench.new board.now }
    ensures draws { SameDraws (view_of bench.old) (view_of bench.new) }
    ensures takes { (view_of bench.new).takes ≡ (view_of bench.old).takes }
    ensures sees { SeesMore (view_of bench.old) (view_of bench.new) }
    ensures filed { result ≡ Filed → HasSeen (view_of bench.new) block.now.number stage.Filed }
    ensures doubled { result ≡ Doubled → HasSeen (view_of bench.new) block.now.number stage.Claimed }
    ensures suits { IsRightAnswer (total_of board.now) block.now result }
    ensures lists { IsListAfter (view_of bench.old).list (view_of bench.new).list block.now result }
{
    let Ok(copy) = block.copy(alloc) else {
        return Answer::Memory;
    };
    match bench.deliver(alloc, board, copy) {
        Ok(_) => Answer::Filed,
        Err(refused) => match refused.why {
            DeliveryRefusal::Stranger => Answer::Stranger,
            DeliveryRefusal::TooLong => Answer::TooLong,
            DeliveryRefusal::Malformed { step } => Answer::Malformed { step },
            DeliveryRefusal::Doubled => Answer::Doubled,
            DeliveryRefusal::Memory => Answer::Memory,
        },
    }
}

//! The bench: a worker's handle to a board.

ghost use Rattle.std.specs.Prelude.{◌≡◌, ◌⊎◌, ℕ, ◌+◌, ◌<◌, ◌≤◌, [], ◌∷◌, length, IfSome, IfNone, IfOk, IfErr};
ghost use Rattle.std.specs.Bool.{OnTrue, OnFalse};
ghost use Rattle.vme_core.specs.declared.stage.Stage.TheVariants as stage;
ghost use Rattle.vme_core.specs.Counting.{occurrences, numbers, AreDisjoint};
ghost use Rattle.vme_core.specs.Stages.{rank, seen, HasSeen, SeesMore};
ghost use Rattle.vme_core.specs.Views.{empty_view, first_view, kept_view, split_view, joint_view};
ghost use Rattle.vme_board.specs.Refusals.{IsDeliverable, IsReason};
ghost use Rattle.vme_board.specs.Postconditions.{DrawPost, ClaimPost, FilePost, TakePost, GivePost, CountPost};
ghost use Rattle.vme_board.specs.Postconditions.{ClaimedLookPost, FiledLookPost, TakenLookPost};
ghost use Rattle.vme_board.specs.Views.{SameDraws, SameWork, SameNumbers, AllFound, IsNewDraw, SameBlocks};
ghost use Rattle.vme_board.specs.Views.{HasNothingToTake, SeesGreater};
ghost use Rattle.vme_board.specs.declared.delivery.DeliveryRefusal.TheVariants.{Doubled, Memory};

use crate::board::{Board, BoardSeat};
use crate::delivery::{DeliveryRefusal, Filed, Refused};
use crate::words::{CLAIMED, DRAWN, FILED, TAKEN, bit, mask_of, word_of};
use atomic_table::{Join, Play, Split};
use std::alloc::Global;
use vme_core::{Stage, View};
use vme_summary::{Judged, judge_block};
use vme_trace::Block;

/// To win a draw.
struct Draw;

impl Play<Option<Judged>, View> for Draw {
    ghost then = { DrawPost };
}

/// To claim a number.
struct Claim;

impl Play<Option<Judged>, View> for Claim {
    ghost then = { ClaimPost };
}

/// To file a number.
struct File;

impl Play<Option<Judged>, View> for File {
    ghost then = { FilePost };
}

/// To take a number.
struct Take;

impl Play<Option<Judged>, View> for Take {
    ghost then = { TakePost };
}

/// To give a slot back.
struct Give;

impl Play<Option<Judged>, View> for Give {
    ghost then = { GivePost };
}

/// To see which numbers are claimed.
struct LookAtClaimed;

impl Play<Option<Judged>, View> for LookAtClaimed {
    ghost then = { ClaimedLookPost };
}

/// To see which numbers are filed.
struct LookAtFiled;

impl Play<Option<Judged>, View> for LookAtFiled {
    ghost then = { FiledLookPost };
}

/// To see which numbers are taken.
struct LookAtTaken;

impl Play<Option<Judged>, View> for LookAtTaken {
    ghost then = { TakenLookPost };
}

/// To see that all draws are different, and all filed and all taken numbers.
struct Count;

impl Play<Option<Judged>, View> for Count {
    ghost then = { CountPost };
}

/// To split a bench.
struct SplitOff;

impl Split<View> for SplitOff {
    ghost left = { kept_view };

    ghost right = { split_view };
}

/// To join two benches.
struct Fold;

impl Join<View> for Fold {
    ghost both = { joint_view };

    ghost spent = { empty_view };
}

/// A worker's handle to a board. `seat` is its handle to the board's table. It has found each draw below `next` won.
#[derive(Drop)]
pub struct Bench {
    pub(crate) seat: BoardSeat,
    pub(crate) next: u32,
    /// How many numbers it filed.
    pub(crate) filed: u32,
    /// How many numbers it took.
    pub(crate) taken: u32,
    ghost no_slots: { seat.me.1 ≡ [] },
    ghost not_pending: { seat.me.0.pending ≡ [] },
    ghost shares: { 0 < length seat.me.0.share },
    ghost found: { AllFound seat.me.0 next },
    ghost counted: { (filed ≡ length seat.me.0.list) × (taken ≡ length seat.me.0.takes) },
    ghost same_blocks: { SameBlocks seat.me.0 },
}

impl Bench {
    ghost use Rattle.vme_board.specs.Benches.{view_of, IsOf, total_of, draws_of};

    /// The bench of a seat that has done nothing yet.
    pub(crate) fn first(seat: BoardSeat) -> Bench
        requires { seat.me ≡ (first_view, []) }
        ensures { result.seat ≡ seat }
    {
        Bench {
            seat,
            next: 0,
            filed: 0,
            taken: 0,
        }
    }

    /// Wins the least draw that no bench has won yet. None if each draw was found won.
    pub fn draw(&mut self, board: &Board) -> Option<u32>
        requires { IsOf self.old board.now }
        ensures board { IsOf self.new board.now }
        ensures some { IfSome result (λ d. d < draws_of board.now) }
        ensures fresh { IfSome result (λ d. IsNewDraw (view_of self.old) d) }
        ensures won { IfSome result (λ d. (view_of self.new).draws ≡ d ∷ (view_of self.old).draws) }
        ensures found { IfSome result (λ d. AllFound (view_of self.new) (d + 1)) }
        ensures none { IfNone result ((view_of self.new).draws ≡ (view_of self.old).draws) }
        ensures none_left { IfNone result (AllFound (view_of self.new) (draws_of board.now)) }
        ensures rest { SameNumbers (view_of self.old) (view_of self.new) }
        ensures grows { SeesMore (view_of self.old) (view_of self.new) }
    {
        while self.next < board.draws {
            let d = self.next;
            let found = board
                .table
                .shared
                .fetch_or::<Draw>(&mut self.seat, word_of(d, DRAWN), mask_of(d));
            self.next += 1;
            if bit(found, d) == 0 {
                return Some(d);
            }
        }
        None
    }

    /// A bench for another worker. It has seen what this one has, and has filed, taken and drawn nothing. It gets half
    /// of the first part of this one's share. If it is dropped and not folded in, its share is lost.
    pub fn split(&mut self, board: &Board) -> Bench
        requires { IsOf self.old board.now }
        ensures board { IsOf self.new board.now × IsOf result board.now }
        ensures old { view_of self.new ≡ kept_view (view_of self.old) }
        ensures new { view_of result ≡ split_view (view_of self.old) }
    {
        let seat = board.table.shared.split_seat::<SplitOff>(&mut self.seat);
        Bench {
            seat,
            next: self.next,
            filed: 0,
            taken: 0,
        }
    }

    /// Joins two benches into one. It has filed, taken, drawn and seen what either has.
    pub fn fold(self, other: Bench, board: &Board) -> Bench
        requires this { IsOf self board.now }
        requires other { IsOf other board.now }
        ensures board { IsOf result board.now }
        ensures joint { view_of result ≡ joint_view (view_of self) (view_of other) }
        ensures lists { AreDisjoint (numbers (view_of self).list) (numbers (view_of other).list) }
        ensures takes { AreDisjoint (numbers (view_of self).takes) (numbers (view_of other).takes) }
        ensures draws { AreDisjoint (view_of self).draws (view_of other).draws }
        ensures seen { SeesGreater (view_of self) (view_of other) (view_of result) }
        ensures same_blocks { SameBlocks (view_of result) }
    {
        let Bench {
            mut seat,
            next,
            filed,
            taken,
        } = self;
        let Bench {
            seat: other_seat,
            next: other_next,
            filed: other_filed,
            taken: other_taken,
        } = other;
        board.table.shared.join_seat::<Fold>(&mut seat, other_seat);
        board.table.shared.load::<Count>(&mut seat, 0);
        let next = if next < other_next { other_next } else { next };
        Bench {
            seat,
            next,
            filed: filed + other_filed,
            taken: taken + other_taken,
        }
    }

    /// The stage of `number`. It isn't earlier than the one that this bench had seen, and this bench has seen it after
    /// the call.
    pub fn look(&mut self, board: &Board, number: u32) -> Stage
        requires bench { IsOf self.old board.now }
        requires number { number < total_of board.now }
        ensures board { IsOf self.new board.now }
        ensures at_least { rank (seen (view_of self.old) number) ≤ rank result }
        ensures seen { seen (view_of self.new) number ≡ result }
        ensures rest { SameWork (view_of self.old) (view_of self.new) }
        ensures grows { SeesMore (view_of self.old) (view_of self.new) }
    {
        if self.sees_taken(board, number) {
            Stage::Taken
        } else if self.sees_filed(board, number) {
            Stage::Filed
        } else if self.sees_claimed(board, number) {
            Stage::Claimed
        } else {
            Stage::Free
        }
    }

    // Looks, by a load, whether the number is at the stage Claimed or a later one.
    /// Whether the bench sees the number claimed.
    fn sees_claimed(&mut self, board: &Board, number: u32) -> bool
        requires bench { IsOf self.old board.now }
        requires number { number < total_of board.now }
        ensures board { IsOf self.new board.now }
        ensures yes { OnTrue result (0 < occurrences number (view_of self.new).claimed) }
        ensures no { OnFalse result (occurrences number (view_of self.new).claimed ≡ 0) }
        ensures filed { (view_of self.new).filed ≡ (view_of self.old).filed }
        ensures taken { (view_of self.new).taken ≡ (view_of self.old).taken }
        ensures rest { SameWork (view_of self.old) (view_of self.new) }
        ensures grows { SeesMore (view_of self.old) (view_of self.new) }
    {
        let found = board
            .table
            .shared
            .load::<LookAtClaimed>(&mut self.seat, word_of(number, CLAIMED));
        bit(found, number) == 1
    }

    // Looks, by a load, whether the number is at the stage Filed or Taken.
    /// Whether the bench sees the number filed.
    fn sees_filed(&mut self, board: &Board, number: u32) -> bool
        requires bench { IsOf self.old board.now }
        requires number { number < total_of board.now }
        ensures board { IsOf self.new board.now }
        ensures yes { OnTrue result (0 < occurrences number (view_of self.new).filed) }
        ensures no { OnFalse result (occurrences number (view_of self.new).filed ≡ 0) }
        ensures never { OnFalse result (rank (seen (view_of self.old) number) < rank stage.Filed) }
        ensures taken { (view_of self.new).taken ≡ (view_of self.old).taken }
        ensures rest { SameWork (view_of self.old) (view_of self.new) }
        ensures grows { SeesMore (view_of self.old) (view_of self.new) }
    {
        let found = board
            .table
            .shared
            .load::<LookAtFiled>(&mut self.seat, word_of(number, FILED));
        bit(found, number) == 1
    }

    // Looks, by a load, whether the number is at the stage Taken.
    /// Whether the bench sees the number taken.
    fn sees_taken(&mut self, board: &Board, number: u32) -> bool
        requires bench { IsOf self.old board.now }
        requires number { number < total_of board.now }
        ensures board { IsOf self.new board.now }
        ensures yes { OnTrue result (0 < occurrences number (view_of self.new).taken) }
        ensures no { OnFalse result (occurrences number (view_of self.new).taken ≡ 0) }
        ensures rest { SameWork (view_of self.old) (view_of self.new) }
        ensures grows { SeesMore (view_of self.old) (view_of self.new) }
    {
        let found = board
            .table
            .shared
            .load::<LookAtTaken>(&mut self.seat, word_of(number, TAKEN));
        bit(found, number) == 1
    }

    // Claims the block's number, puts the block into its slot and files it. Hands the block back if the number was
    // claimed before.
    /// Claims the number of a block and files the block, or hands the block back if the number was claimed before.
    fn try_claim(&mut self, board: &Board, judged: Judged) -> Result<Filed, Judged>
        requires bench { IsOf self.old board.now }
        requires number { judged.number < total_of board.now }
        ensures board { IsOf self.new board.now }
        ensures filed { IfOk result (λ f. f.number ≡ judged.number) }
        ensures new { IfOk result (λ f. occurrences judged.number (numbers (view_of self.old).list) ≡ 0) }
        ensures list { IfOk result (λ _. (view_of self.new).list ≡ (judged.number, judged) ∷ (view_of self.old).list) }
        ensures sees_filed { IfOk result (λ f. HasSeen (view_of self.new) judged.number stage.Filed) }
        ensures handed_back { IfErr result (λ j. j ≡ judged) }
        ensures unlisted { IfErr result (λ j. (view_of self.new).list ≡ (view_of self.old).list) }
        ensures lost { IfErr result (λ j. HasSeen (view_of self.new) judged.number stage.Claimed) }
        ensures takes { (view_of self.new).takes ≡ (view_of self.old).takes }
        ensures draws { SameDraws (view_of self.old) (view_of self.new) }
        ensures grows { SeesMore (view_of self.old) (view_of self.new) }
    {
        let number = judged.block().number;
        let claimed = board
            .table
            .shared
            .fetch_or::<Claim>(&mut self.seat, word_of(number, CLAIMED), mask_of(number));
        if bit(claimed, number) == 1 {
            return Err(judged);
        }
        board
            .table
            .shared
            .exchange(&mut self.seat, number as usize, Some(judged));
        board
            .table
            .shared
            .fetch_or::<File>(&mut self.seat, word_of(number, FILED), mask_of(number));
        self.filed += 1;
        Ok(Filed { number })
    }

    /// Files a block, once for each number, or refuses it and hands it back. It refuses in this order: a number not
    /// below the board's total, more than 65,536 steps, a malformed step, a number that was claimed before, want of
    /// memory. All memory is taken before the number is claimed, so nothing is claimed for a block that is refused.
    pub fn deliver(&mut self, alloc: Global, board: &Board, block: Block) -> Result<Filed, Refused>
        requires { IsOf self.old board.now }
        ensures board { IsOf self.new board.now }
        ensures pending { (view_of self.new).pending ≡ [] }

        ensures filed { IfOk result (λ f. f.number ≡ block.number) }
        ensures sound { IfOk result (λ f. IsDeliverable (total_of board.now) block) }
        ensures new { IfOk result (λ f. occurrences block.number (numbers (view_of self.old).list) ≡ 0) }
        ensures listed { IfOk result (λ f. (view_of self.new).list ≡ (block.number, block) ∷ (view_of self.old).list) }
        ensures sees_filed { IfOk result (λ f. HasSeen (view_of self.new) block.number stage.Filed) }

        ensures why { IfErr result (λ r. IsReason (total_of board.now) block r.why) }
        ensures handed_back { IfErr result (λ r. r.block ≡ block) }
        ensures unlisted { IfErr result (λ r. (view_of self.new).list ≡ (view_of self.old).list) }
        ensures doubled { IfErr result (λ r. r.why ≡ Doubled → HasSeen (view_of self.new) block.number stage.Claimed) }
        ensures unclaimed { IfErr result
            (λ r. r.why ≡ Memory → occurrences block.number (view_of self.new).claimed ≡ 0) }

        ensures takes { (view_of self.new).takes ≡ (view_of self.old).takes }
        ensures draws { SameDraws (view_of self.old) (view_of self.new) }
        ensures grows { SeesMore (view_of self.old) (view_of self.new) }
    {
        if block.number >= board.total {
            return Err(Refused {
                why: DeliveryRefusal::Stranger,
                block,
            });
        }
        if block.steps.as_slice().len() > 65536 {
            return Err(Refused {
                why: DeliveryRefusal::TooLong,
                block,
            });
        }
        if let Err(fault) = block.check() {
            return Err(Refused {
                why: DeliveryRefusal::Malformed { step: fault.step },
                block,
            });
        }
        if self.sees_claimed(board, block.number) {
            return Err(Refused {
                why: DeliveryRefusal::Doubled,
                block,
            });
        }
        let judged = match judge_block(alloc, block) {
            Ok(judged) => judged,
            Err((block, _)) => {
                return Err(Refused {
                    why: DeliveryRefusal::Memory,
                    block,
                });
            }
        };
        match self.try_claim(board, judged) {
            Ok(filed) => Ok(filed),
            Err(judged) => Err(Refused {
                why: DeliveryRefusal::Doubled,
                block: judged.into_block(),
            }),
        }
    }

    /// Takes the filed block of `number` out of the board, if no bench has. None if the number isn't filed yet, or is
    /// taken.
    pub fn take(&mut self, board: &Board, number: u32) -> Option<Judged>
        requires bench { IsOf self.old board.now }
        requires number { number < total_of board.now }
        ensures board { IsOf self.new board.now }
        ensures block { IfSome result (λ j. j.number ≡ number) }
        ensures new { IfSome result (λ j. occurrences number (numbers (view_of self.old).takes) ≡ 0) }
        ensures taken { IfSome result (λ j. (view_of self.new).takes ≡ (number, j) ∷ (view_of self.old).takes) }
        ensures same_blocks { SameBlocks (view_of self.new) }
        ensures none { IfNone result ((view_of self.new).takes ≡ (view_of self.old).takes) }
        ensures why { IfNone result (HasNothingToTake (view_of self.old) (view_of self.new) number) }
        ensures list { (view_of self.new).list ≡ (view_of self.old).list }
        ensures draws { SameDraws (view_of self.old) (view_of self.new) }
        ensures grows { SeesMore (view_of self.old) (view_of self.new) }
    {
        if !self.sees_filed(board, number) {
            return None;
        }
        let taken = board
            .table
            .shared
            .fetch_or::<Take>(&mut self.seat, word_of(number, TAKEN), mask_of(number));
        if bit(taken, number) == 1 {
            return None;
        }
        let judged = board
            .table
            .shared
            .exchange(&mut self.seat, number as usize, None);
        board.table.shared.load::<Give>(&mut self.seat, 0);
        self.taken += 1;
        judged
    }
}

//! The board, which benches share, and its contents when it is closed.

ghost use Rattle.std.specs.Prelude.{◌≡◌, ◌==◌, ◌↔◌, ◌⊎◌, ℕ, cond, ◌+◌, ◌*◌, ◌/◌, ◌<◌, ◌≤◌, [], length};
ghost use Rattle.std.specs.Prelude.{IfOk, IfErr, Err, Some, None, slice_get, vec_capacity};
ghost use Rattle.std.specs.Mem.Slots.{slots_items, slots_len, IsFull};
ghost use Rattle.vme_trace.specs.declared.block.Block.{Block};
ghost use Rattle.vme_core.specs.Counting.{sum_below};
ghost use Rattle.vme_core.specs.Views.{first_view};
ghost use Rattle.vme_core.specs.Shares.{IsWholeShare};
ghost use Rattle.vme_board.specs.Contents.{AreNumbered, HasList, HasUntaken, LacksTakes, HasOnlyList, LacksOthers};
ghost use Rattle.vme_board.specs.Contents.{AddUp, unlisted_count, untaken_count, DidAll};
ghost use Rattle.vme_board.specs.Words.{Holds, IsWideFor, AreKept, bit_of, kept};
ghost use Rattle.vme_board.specs.declared.board.BoardFault.TheVariants.{BadTotal, BadDraws};

use crate::bench::Bench;
use crate::words::{FILED, TAKEN, bit, word_of};
use atomic_table::{Closed as ClosedTable, Seat, Table, TableRule};
use std::alloc::Global;
use vme_core::View;
use vme_summary::Judged;

pub(crate) type BoardSeat = Seat<Option<Judged>, View>;

/// The rule of the table. Its key is the number of words.
pub(crate) struct BoardRule;

impl TableRule<Option<Judged>, View, usize> for BoardRule {
    ghost holds = { Holds };

    ghost first = { λ _. first_view };
}

/// A table with a slot for each number below `total`, and `draws` draws. Its memory is in proportion to both.
#[derive(Drop)]
pub struct Board {
    pub(crate) table: Table<Option<Judged>, View, usize, BoardRule, Global>,
    pub(crate) total: u32,
    pub(crate) draws: u32,
    ghost sized: { (table.shared.table_id.words ≡ table.shared.key) × (table.shared.table_id.slots ≡ total) },
    ghost limits: { (0 < total) × (total ≤ 4096) × (draws ≤ 65536) },
    ghost numbers_fit: { IsWideFor table.shared.key total },
    ghost draws_fit: { IsWideFor table.shared.key draws },
}

/// Why no board is made.
#[derive(Clone, Copy, Debug, PartialEq, Eq)]
pub enum BoardFault {
    /// The total isn't from 1 to 4,096.
    BadTotal,
    /// More than 65,536 draws.
    BadDraws,
    /// Memory was refused.
    Memory,
}

/// The contents of a closed board.
#[derive(Drop)]
pub struct Closed {
    /// For each number below the total, its block with its span if the number was filed and not taken.
    pub contents: Vec<Option<Judged>>,
    /// How many numbers were filed, taken ones included, that aren't in the closing bench's list.
    pub others: u32,
    /// How many numbers were taken that aren't in the closing bench's takes.
    pub taken: u32,
}

impl Board {
    ghost use Rattle.vme_board.specs.Benches.{view_of, IsOf, total_of, draws_of};

    /// A board of `total` numbers, from 1 to 4,096, and `draws` draws, up to 65,536, and its first bench. It fails if a
    /// number is out of its range or memory runs out.
    pub fn new(alloc: Global, total: u32, draws: u32) -> Result<(Board, Bench), BoardFault>
        ensures total { IfOk result (λ made. total_of made.0 ≡ total) }
        ensures draws { IfOk result (λ made. draws_of made.0 ≡ draws) }
        ensures limits { IfOk result (λ made. (0 < total) × (total ≤ 4096) × (draws ≤ 65536)) }
        ensures bench { IfOk result (λ made. IsOf made.1 made.0) }
        ensures first { IfOk result (λ made. view_of made.1 ≡ first_view) }
        ensures bad_total { (result ≡ Err BadTotal) ↔ (¬ ((0 < total) × (total ≤ 4096))) }
        ensures bad_draws { (result ≡ Err BadDraws) ↔ ((0 < total) × (total ≤ 4096) × (65536 < draws)) }
    {
        if total == 0 || total > 4096 {
            return Err(BoardFault::BadTotal);
        }
        if draws > 65536 {
            return Err(BoardFault::BadDraws);
        }
        let most = if total < draws { draws } else { total };
        let width = 4 * (most as usize).div_ceil(64);
        let Ok(words) = Vec::from_elem(alloc, 0u64, width) else {
            return Err(BoardFault::Memory);
        };
        let Ok((table, seat)) = Table::<Option<Judged>, View, usize, BoardRule, Global>::vacant(
            alloc,
            words.as_slice(),
            total as usize,
            &width,
        ) else {
            return Err(BoardFault::Memory);
        };
        Ok((
            Board {
                table,
                total,
                draws,
            },
            Bench::first(seat),
        ))
    }

    /// Takes everything out of the board. Err is want of memory, and returns the board and the bench unchanged.
    pub fn close(self, alloc: Global, bench: Bench) -> Result<Closed, (Board, Bench)>
        requires { IsOf bench self }
        ensures err { IfErr result (λ r. (r.0 ≡ self) × (r.1 ≡ bench)) }

        ensures length { IfOk result (λ c. length c.contents.items ≡ total_of self) }
        ensures numbered { IfOk result (λ c. AreNumbered c.contents.items) }

        // What the bench filed is there, unless it was taken.
        ensures listed { IfOk result (λ c. HasList (view_of bench) c.contents.items) }
        ensures kept { IfOk result (λ c. c.taken ≡ 0 → HasUntaken (view_of bench) c.contents.items) }
        ensures gone { IfOk result (λ c. LacksTakes (view_of bench) c.contents.items) }

        // A block that it didn't file is there only if `others` isn't 0.
        ensures only { IfOk result (λ c. c.others ≡ 0 → HasOnlyList (view_of bench) c.contents.items) }
        ensures outside { IfOk result (λ c. c.others ≡ 0 → LacksOthers (view_of bench) c.contents.items) }

        // If the bench has the whole share, it filed, took and drew all that was filed, taken and drawn.
        ensures no_others { IfOk result (λ c. IsWholeShare (view_of bench).share → c.others ≡ 0) }
        ensures no_taken { IfOk result (λ c. IsWholeShare (view_of bench).share → c.taken ≡ 0) }
        ensures did_all { IfOk result (λ c. IsWholeShare (view_of bench).share → DidAll (view_of bench)) }

        ensures counts { IfOk result (λ c. AddUp (view_of bench) c.contents.items c.others c.taken) }
        ensures within { IfOk result (λ c. c.others + length (view_of bench).list ≤ total_of self) }
        ensures saw_filed { IfOk result (λ c. unlisted_count (view_of bench) (total_of self) ≤ c.others) }
        ensures saw_taken { IfOk result (λ c. untaken_count (view_of bench) (total_of self) ≤ c.taken) }
    {
        let Ok(contents) = Vec::with_capacity(alloc, self.total as usize) else {
            return Err((self, bench));
        };
        let Board {
            table,
            total,
            draws: _,
        } = self;
        let Bench {
            seat,
            next: _,
            filed,
            taken,
        } = bench;
        let (contents, all_filed, all_taken) = emptied(table.close_with(seat), contents, total);
        Ok(Closed {
            contents,
            others: all_filed - filed,
            taken: all_taken - taken,
        })
    }
}

// A slot's value, if its number is filed and not taken.
/// What was found in a slot, if its number was filed and not taken.
fn pick(found: Option<Judged>, filed: u64, taken: u64) -> Option<Judged>
    ensures { result ≡ cond (filed == 1) (cond (taken == 1) None found) None }
{
    if filed != 1 {
        return None;
    }
    if taken == 1 {
        return None;
    }
    found
}

// Takes each slot's value, in order, and keeps it if the number is filed and not taken. Counts the filed and the taken
// numbers.
/// The contents of a closed board, and how many numbers were filed and how many taken.
fn emptied(
    closed: ClosedTable<Option<Judged>, Global>,
    contents: Vec<Option<Judged>>,
    total: u32,
) -> (Vec<Option<Judged>>, u32, u32)
    requires limit { total ≤ 4096 }
    requires words { IsWideFor (slots_len closed.words) total }
    requires slots { slots_len closed.slots ≡ total }
    requires full { IsFull closed.words × IsFull closed.slots }
    requires empty { contents.items ≡ [] }
    requires room { total ≤ vec_capacity contents }
    ensures length { length result.0.items ≡ total }
    ensures contents { AreKept (slots_items closed.words) (slots_items closed.slots) total result.0.items }
    ensures filed { result.1 ≡ sum_below (bit_of 1 (slots_items closed.words)) total }
    ensures taken { result.2 ≡ sum_below (bit_of 2 (slots_items closed.words)) total }
{
    let mut closed = closed;
    let mut contents = contents;
    let mut all_filed = 0;
    let mut all_taken = 0;
    let mut n = 0;
    while n < total {
        let found = closed.take(n as usize);
        let filed = bit(closed.word(word_of(n, FILED)), n);
        let taken = bit(closed.word(word_of(n, TAKEN)), n);
        contents.push_reserved(pick(found, filed, taken));
        all_filed += filed as u32;
        all_taken += taken as u32;
        n += 1;
    }
    closed.free();
    (contents, all_filed, all_taken)
}

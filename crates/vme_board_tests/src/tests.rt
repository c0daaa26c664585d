ghost use Rattle.std.specs.Prelude.{◌≡◌, IfSome};
ghost use Rattle.vme_board.specs.Benches.{IsOf, total_of};

use smallvec::SmallVec;
use std::alloc::Global;
use std::process::Abort;
use vme_board::{Bench, Board, BoardFault, Closed, DeliveryRefusal, Filed, Refused, Stage};
use vme_summary::{Judged, Span, join};
use vme_test_recordings::{GRANTED, READ, capture_of};
use vme_trace::{Block, Change, Changes, Level, Line, Lines, Step, Steps, Verdict};

/// The worked recording, in blocks of one step.
pub(crate) fn blocks_of_read(alloc: Global) -> Option<Vec<Block>> {
    capture_of(alloc, GRANTED, READ)?.cut(alloc, 1).ok()
}

fn step_of(alloc: Global, time: u64, changes: &[Change]) -> Option<Step> {
    let changes = SmallVec::from_slice(alloc, changes).ok()?;
    Some(Step {
        time,
        changes: Changes::new(changes),
    })
}

/// Adds a step.
fn push_step(alloc: Global, steps: &mut Vec<Step>, time: u64, changes: &[Change]) -> Option<()> {
    steps.push(step_of(alloc, time, changes)?).ok()
}

/// A block of `count` steps, in each of which AS changes. None is want of memory.
pub(crate) fn block_of(alloc: Global, number: u32, first: u64, count: u32) -> Option<Block> {
    let line = Line::from_name(b"AS")?;
    let mut steps = Vec::new(alloc);
    for k in 0..count {
        let level = if k % 2 == 0 { Level::High } else { Level::Low };
        let time = first.saturating_add(u64::from(k));
        push_step(alloc, &mut steps, time, &[Change { line, level }])?;
    }
    Some(Block {
        number,
        opening: Lines::new(1)?,
        steps: Steps::new(steps),
    })
}

/// A block whose first step has no change, and then `count` steps that have one. None is want of memory.
pub(crate) fn malformed_block(alloc: Global, number: u32, count: u32) -> Option<Block> {
    let block = block_of(alloc, number, 1, count)?;
    let mut steps = block.steps.into_inner();
    steps.insert(0, step_of(alloc, 0, &[])?).ok()?;
    Some(Block {
        number,
        opening: block.opening,
        steps: Steps::new(steps),
    })
}

/// Whether the blocks are equal.
pub(crate) fn is_equal(block: &Block, other: &Block) -> bool {
    let (steps, others) = (block.steps.as_slice(), other.steps.as_slice());
    block.number == other.number
        && block.opening.slots() == other.opening.slots()
        && steps.len() == others.len()
        && steps.iter().zip(others).all(|(step, same)| {
            step.time == same.time && step.changes.as_slice() == same.changes.as_slice()
        })
}

pub(crate) fn is_filed(answer: &Result<Filed, Refused>, number: u32) -> bool {
    match answer {
        Ok(filed) => filed.number == number,
        Err(_) => false,
    }
}

/// Whether the delivery was refused for the reason `why`, and the block handed back.
pub(crate) fn is_refused(
    answer: &Result<Filed, Refused>,
    why: DeliveryRefusal,
    block: &Block,
) -> bool {
    match answer {
        Ok(_) => false,
        Err(refused) => refused.why == why && is_equal(&refused.block, block),
    }
}

/// `span` joined to the span of the blocks before it, if there is one. `None` if they don't join, or if one of them has
/// 1,000 steps or more.
fn joined_after(alloc: Global, all: Option<Span>, span: Span) -> Option<Span> {
    match all {
        None => Some(span),
        Some(before) => {
            if before.steps() < 1000 && span.steps() < 1000 {
                join(alloc, &before, &span).ok()
            } else {
                None
            }
        }
    }
}

/// The span of all blocks of a board, if each place has one.
fn whole_of(alloc: Global, contents: Vec<Option<Judged>>) -> Option<Span> {
    let mut all = None;
    for place in contents {
        let span = place?.into_parts().1;
        all = Some(joined_after(alloc, all, span)?);
    }
    all
}

/// Whether `closed` is the contents of the worked recording's board: fourteen blocks, whose joined recording
/// conforms.
pub(crate) fn is_worked(alloc: Global, closed: Closed, others: u32) -> bool {
    let is_so = closed.others == others && closed.taken == 0 && closed.contents.len() == 14;
    match whole_of(alloc, closed.contents) {
        Some(whole) => {
            is_so
                && whole.first() == 0
                && whole.steps() == 14
                && whole.verdict() == Verdict::Conforming
        }
        None => false,
    }
}

/// Closes a board. If memory is refused once, it tries again.
pub(crate) fn closed_by(alloc: Global, board: Board, bench: Bench) -> Option<Closed>
    requires { IsOf bench board }
{
    match board.close(alloc, bench) {
        Ok(closed) => Some(closed),
        Err((board, bench)) => board.close(alloc, bench).ok(),
    }
}

/// Whether the board, closed by the bench, has the worked recording.
pub(crate) fn leaves_worked(alloc: Global, board: Board, bench: Bench, others: u32) -> bool
    requires { IsOf bench board }
{
    match closed_by(alloc, board, bench) {
        Some(closed) => is_worked(alloc, closed, others),
        None => false,
    }
}

/// The answer to a delivery. Of the bench its callers know only that it stays one of the board's.
pub(crate) fn delivered(
    alloc: Global,
    board: &Board,
    bench: &mut Bench,
    block: Block,
) -> Result<Filed, Refused>
    requires { IsOf bench.old board.now }
    ensures { IsOf bench.new board.now }
{
    bench.deliver(alloc, board, block)
}

/// Delivers the blocks, from the last to the first, by the two benches in turn.
fn deliver_in_turn(
    rt: &impl Abort,
    alloc: Global,
    board: &Board,
    first: &mut Bench,
    second: &mut Bench,
    blocks: Vec<Block>,
)
    requires { IsOf first.old board.now × IsOf second.old board.now }
    ensures { IsOf first.new board.now × IsOf second.new board.now }
{
    for block in blocks.into_iter().rev() {
        let number = block.number;
        let answer = if number % 2 == 0 {
            delivered(alloc, board, first, block)
        } else {
            delivered(alloc, board, second, block)
        };
        assert!(rt; is_filed(&answer, number));
    }
}

#[test]
fn worked_recording_by_two_benches(rt: HostRuntime) {
    let alloc = rt.alloc();
    let (Some((board, mut first)), Some(blocks)) = (board_of(alloc), blocks_of_read(alloc)) else {
        panic!(rt; "no memory")
    };
    let mut second = first.split(&board);
    deliver_in_turn(&rt, alloc, &board, &mut first, &mut second, blocks);
    let bench = first.fold(second, &board);
    assert!(rt; leaves_worked(alloc, board, bench, 0));
}

#[test]
fn a_dropped_bench_leaves_others(rt: HostRuntime) {
    let alloc = rt.alloc();
    let (Some((board, mut first)), Some(blocks)) = (board_of(alloc), blocks_of_read(alloc)) else {
        panic!(rt; "no memory")
    };
    let mut second = first.split(&board);
    deliver_in_turn(&rt, alloc, &board, &mut first, &mut second, blocks);
    drop(second);
    assert!(rt; leaves_worked(alloc, board, first, 7));
}

/// Whether no board is made, for the reason `fault`.
fn is_no_board(alloc: Global, total: u32, draws: u32, fault: BoardFault) -> bool {
    match Board::new(alloc, total, draws) {
        Ok(_) => false,
        Err(found) => found == fault,
    }
}

/// The number that the bench draws. Of the bench its callers know only that it stays one of the board's.
fn drawn(board: &Board, bench: &mut Bench) -> Option<u32>
    requires { IsOf bench.old board.now }
    ensures { IsOf bench.new board.now }
{
    bench.draw(board)
}

/// Whether the bench wins the draws 0, 1 and 2, and then none.
fn draws_three(board: &Board, bench: &mut Bench) -> bool
    requires { IsOf bench.old board.now }
{
    drawn(board, bench) == Some(0)
        && drawn(board, bench) == Some(1)
        && drawn(board, bench) == Some(2)
        && drawn(board, bench).is_none()
}

#[test]
fn totals_and_draws(rt: HostRuntime) {
    let alloc = rt.alloc();
    assert!(rt; is_no_board(alloc, 0, 65537, BoardFault::BadTotal));
    assert!(rt; is_no_board(alloc, 4097, 65537, BoardFault::BadTotal));
    assert!(rt; is_no_board(alloc, 1, 65537, BoardFault::BadDraws));
    assert!(rt; Board::new(alloc, 4096, 65536).is_ok());
    let Ok((board, mut bench)) = Board::new(alloc, 1, 3) else {
        panic!(rt; "no board")
    };
    assert!(rt; draws_three(&board, &mut bench));
}

/// Whether two benches win the draws 0 to 3: the first bench 0, the second 1 and 2, and the first 3.
fn win_different_draws(board: &Board, first: &mut Bench, second: &mut Bench) -> bool
    requires { IsOf first.old board.now × IsOf second.old board.now }
    ensures { IsOf first.new board.now × IsOf second.new board.now }
{
    let (least, next) = (drawn(board, first), drawn(board, second));
    let (third, last) = (drawn(board, second), drawn(board, first));
    least == Some(0) && next == Some(1) && third == Some(2) && last == Some(3)
}

#[test]
fn draws_of_two_benches(rt: HostRuntime) {
    let Ok((board, mut first)) = Board::new(rt.alloc(), 1, 130) else {
        panic!(rt; "no board")
    };
    let mut second = first.split(&board);
    assert!(rt; win_different_draws(&board, &mut first, &mut second));
    let mut bench = first.fold(second, &board);
    assert!(rt; bench.draw(&board) == Some(4));
}

/// Whether a block is refused for the reason `why`, and handed back unchanged (`same`).
fn refuses(
    alloc: Global,
    board: &Board,
    bench: &mut Bench,
    why: DeliveryRefusal,
    block: Option<Block>,
    same: Option<Block>,
) -> bool
    requires { IsOf bench.old board.now }
    ensures { IsOf bench.new board.now }
{
    match (block, same) {
        (Some(block), Some(same)) => {
            is_refused(&delivered(alloc, board, bench, block), why, &same)
        }
        _ => false,
    }
}

/// Whether a block is filed under `number`.
fn files(alloc: Global, board: &Board, bench: &mut Bench, number: u32, block: Option<Block>) -> bool
    requires { IsOf bench.old board.now }
    ensures { IsOf bench.new board.now }
{
    match block {
        Some(block) => is_filed(&delivered(alloc, board, bench, block), number),
        None => false,
    }
}

#[test]
fn refusals_in_order(rt: HostRuntime) {
    let alloc = rt.alloc();
    let Some((board, mut bench)) = board_of(alloc) else {
        panic!(rt; "no board")
    };
    let (long, same) = (block_of(alloc, 14, 0, 65537), block_of(alloc, 14, 0, 65537));
    let why = DeliveryRefusal::Stranger;
    assert!(rt; refuses(alloc, &board, &mut bench, why, long, same));
    let (long, same) = (
        malformed_block(alloc, 5, 65536),
        malformed_block(alloc, 5, 65536),
    );
    let why = DeliveryRefusal::TooLong;
    assert!(rt; refuses(alloc, &board, &mut bench, why, long, same));
    assert!(rt; files(alloc, &board, &mut bench, 5, block_of(alloc, 5, 0, 1)));
    let (malformed, same) = (malformed_block(alloc, 5, 2), malformed_block(alloc, 5, 2));
    let why = DeliveryRefusal::Malformed { step: 0 };
    assert!(rt; refuses(alloc, &board, &mut bench, why, malformed, same));
}

/// Whether block 5 is filed, and refused when it is delivered again.
fn files_five(alloc: Global, board: &Board, bench: &mut Bench) -> bool
    requires { IsOf bench.old board.now }
    ensures { IsOf bench.new board.now }
{
    let is_filed = files(alloc, board, bench, 5, block_of(alloc, 5, 0, 2));
    let (again, same) = (block_of(alloc, 5, 7, 3), block_of(alloc, 5, 7, 3));
    let is_doubled = refuses(alloc, board, bench, DeliveryRefusal::Doubled, again, same);
    is_filed && is_doubled
}

/// One bench sees block 5 filed, another takes it, and the first sees it taken.
fn take_five(board: &Board, first: &mut Bench, second: &mut Bench) -> Option<Judged>
    requires { IsOf first.old board.now × IsOf second.old board.now × (total_of board.now ≡ 14) }
    ensures { IsOf first.new board.now × IsOf second.new board.now }
{
    let is_filed = first.look(board, 5) == Stage::Filed && first.look(board, 6) == Stage::Free;
    let taken = second.take(board, 5);
    let is_taken = first.look(board, 5) == Stage::Taken && first.take(board, 5).is_none();
    if is_filed && is_taken { taken } else { None }
}

/// Whether `judged` is the block 5 that was filed.
pub(crate) fn is_five(alloc: Global, judged: Option<Judged>) -> bool {
    match (judged, block_of(alloc, 5, 0, 2)) {
        (Some(judged), Some(given)) => is_equal(judged.block(), &given),
        _ => false,
    }
}

/// Whether one number was taken by another bench than the one that closes the board, and no block is left.
fn leaves_nothing(alloc: Global, board: Board, bench: Bench) -> bool
    requires { IsOf bench board }
{
    match closed_by(alloc, board, bench) {
        Some(closed) => {
            closed.others == 0
                && closed.taken == 1
                && closed.contents.iter().all(|place| place.is_none())
        }
        None => false,
    }
}

#[test]
fn a_block_is_filed_once_and_taken_once(rt: HostRuntime) {
    let alloc = rt.alloc();
    let Some((board, mut first)) = board_of(alloc) else {
        panic!(rt; "no board")
    };
    let mut second = first.split(&board);
    let mut third = first.split(&board);
    assert!(rt; files_five(alloc, &board, &mut first));
    let taken = take_five(&board, &mut second, &mut third);
    assert!(rt; is_five(alloc, taken));
    let bench = first.fold(second, &board);
    assert!(rt; leaves_nothing(alloc, board, bench));
}

/// Makes a board. If memory is refused once, it tries again.
pub(crate) fn board_of(alloc: Global) -> Option<(Board, Bench)>
    ensures { IfSome result (λ made. IsOf made.1 made.0 × (total_of made.0 ≡ 14)) }
{
    match Board::new(alloc, 14, 0) {
        Ok(made) => Some(made),
        Err(_) => Board::new(alloc, 14, 0).ok(),
    }
}

/// Whether a block is filed. If memory is refused once, the block is handed back unchanged and nothing is claimed, and
/// it is delivered again.
fn is_filed_at_last(
    board: &Board,
    bench: &mut Bench,
    alloc: Global,
    block: Block,
    same: &Block,
) -> bool
    requires { IsOf bench.old board.now × (total_of board.now ≡ 14) }
    ensures { IsOf bench.new board.now }
{
    match delivered(alloc, board, bench, block) {
        Err(
            Refused {
                why: DeliveryRefusal::Memory,
                block,
            },
        ) => {
            is_equal(&block, same)
                && bench.look(board, 5) == Stage::Free
                && is_filed(&delivered(alloc, board, bench, block), 5)
        }
        answer => is_filed(&answer, 5),
    }
}

/// Whether a board has the block 5, `same`, and no other.
fn has_five(closed: &Closed, same: &Block) -> bool {
    for (number, place) in closed.contents.iter().enumerate() {
        let is_so = match place {
            Some(judged) => number == 5 && is_equal(judged.block(), same),
            None => number != 5,
        };
        if !is_so {
            return false;
        }
    }
    closed.others == 0 && closed.taken == 0 && closed.contents.len() == 14
}

/// Makes a block 5 of twelve steps. If memory is refused once, it tries again.
fn long_five(alloc: Global) -> Option<Block> {
    match block_of(alloc, 5, 0, 12) {
        Some(block) => Some(block),
        None => block_of(alloc, 5, 0, 12),
    }
}

/// `tests/memory/run` refuses each of its allocations in turn.
#[test]
fn each_growth_fails_once(rt: HostRuntime) {
    let alloc = rt.alloc();
    let (Some(given), Some(same)) = (long_five(alloc), long_five(alloc)) else {
        panic!(rt; "no block")
    };
    let Some((board, mut bench)) = board_of(alloc) else {
        panic!(rt; "no board")
    };
    assert!(rt; is_filed_at_last(&board, &mut bench, alloc, given, &same));
    let Some(closed) = closed_by(alloc, board, bench) else {
        panic!(rt; "not closed")
    };
    assert!(rt; has_five(&closed, &same));
}

ghost use Rattle.std.specs.Prelude.{◌≡◌, ◌<◌, ◌≤◌, ℕ, ◌+◌, IfOk, IfSome, vec_len, get_or};
ghost use Rattle.vme_board.specs.Benches.{IsOf, total_of};

use crate::tests::{
    block_of, blocks_of_read, board_of, delivered, is_filed, is_five, is_refused, leaves_worked,
    malformed_block,
};
use std::alloc::Global;
use std::process::Abort;
use std::sync::Wait;
use std::test::Fail;
use std::thread;
use std::thread::{Promise, Threads, join};
use vme_board::{Bench, Board, Closed, DeliveryRefusal, Filed, Refused, Stage};
use vme_summary::Judged;
use vme_trace::{Block, Lines, Steps};

/// Delivers `blocks`, half of the worked recording's, from the last to the first. The flag says whether all were filed.
fn deliver_half(alloc: Global, board: &Board, bench: Bench, blocks: Vec<Block>) -> (Bench, bool)
    requires { IsOf bench board.now }
    ensures { IsOf result.0 board.now }
{
    let mut bench = bench;
    let mut all_filed = true;
    for block in blocks.into_iter().rev() {
        let number = block.number;
        all_filed = is_filed(&delivered(alloc, board, &mut bench, block), number) && all_filed;
    }
    (bench, all_filed)
}

/// The blocks with even numbers, and the others.
fn halves(alloc: Global) -> Option<(Vec<Block>, Vec<Block>)> {
    let (mut even, mut odd) = (Vec::new(alloc), Vec::new(alloc));
    for block in blocks_of_read(alloc)? {
        if block.number % 2 == 0 {
            even.push(block).ok()?;
        } else {
            odd.push(block).ok()?;
        }
    }
    Some((even, odd))
}

/// Each bench delivers its blocks on a thread of its own. Whether all are filed.
fn deliver_halves(
    rt: &impl Threads,
    alloc: Global,
    board: &Board,
    benches: (Bench, Bench),
    blocks: (Vec<Block>, Vec<Block>),
) -> (Bench, Bench, bool)
    requires { IsOf benches.0 board.now × IsOf benches.1 board.now }
    ensures { IsOf result.0 board.now × IsOf result.1 board.now }
{
    let (first, second) = benches;
    let (even, odd) = blocks;
    let ((first, even_filed), (second, odd_filed)) = join(
        rt,
        move || -> (Bench, bool)
            requires { IsOf first board.now }
            ensures { IsOf result.0 board.entry.now }
        { deliver_half(alloc, board, first, even) },
        move || -> (Bench, bool)
            requires { IsOf second board.now }
            ensures { IsOf result.0 board.entry.now }
        { deliver_half(alloc, board, second, odd) },
    );
    (first, second, even_filed && odd_filed)
}

#[test]
fn worked_recording_by_two_threads(rt: HostRuntime) {
    let alloc = rt.alloc();
    let (Some((board, mut first)), Some(blocks)) = (board_of(alloc), halves(alloc)) else {
        panic!(rt; "no memory")
    };
    let second = first.split(&board);
    let (first, second, are_filed) = deliver_halves(&rt, alloc, &board, (first, second), blocks);
    let bench = first.fold(second, &board);
    assert!(rt; are_filed && leaves_worked(alloc, board, bench, 0));
}

/// The bench delivers a block on a thread of its own.
fn deliver_apart(
    rt: &impl Threads,
    alloc: Global,
    board: &Board,
    bench: Bench,
    block: Block,
) -> (Bench, Result<Filed, Refused>)
    requires { IsOf bench board.now }
    ensures { IsOf result.0 board.now }
{
    let (done, ()) = join(
        rt,
        move || -> (Bench, Result<Filed, Refused>)
            requires { IsOf bench board.now }
            ensures { IsOf result.0 board.entry.now }
        {
            let mut bench = bench;
            let answer = bench.deliver(alloc, board, block);
            (bench, answer)
        },
        || (),
    );
    done
}

/// The bench looks at a number on a thread of its own.
fn look_apart(rt: &impl Threads, board: &Board, bench: Bench, number: u32) -> (Bench, Stage)
    requires { IsOf bench board.now × (number < total_of board.now) }
    ensures { IsOf result.0 board.now }
{
    let (done, ()) = join(
        rt,
        move || -> (Bench, Stage)
            requires { IsOf bench board.now × (number < total_of board.now) }
            ensures { IsOf result.0 board.entry.now }
        {
            let mut bench = bench;
            let stage = bench.look(board, number);
            (bench, stage)
        },
        || (),
    );
    done
}

/// The bench takes a number on a thread of its own.
fn take_apart(
    rt: &impl Threads,
    board: &Board,
    bench: Bench,
    number: u32,
) -> (Bench, Option<Judged>)
    requires { IsOf bench board.now × (number < total_of board.now) }
    ensures { IsOf result.0 board.now }
{
    let (done, ()) = join(
        rt,
        move || -> (Bench, Option<Judged>)
            requires { IsOf bench board.now × (number < total_of board.now) }
            ensures { IsOf result.0 board.entry.now }
        {
            let mut bench = bench;
            let taken = bench.take(board, number);
            (bench, taken)
        },
        || (),
    );
    done
}

/// The bench draws on a thread of its own.
fn draw_apart(rt: &impl Threads, board: &Board, bench: Bench) -> (Bench, Option<u32>)
    requires { IsOf bench board.now }
    ensures { IsOf result.0 board.now }
{
    let (done, ()) = join(
        rt,
        move || -> (Bench, Option<u32>)
            requires { IsOf bench board.now }
            ensures { IsOf result.0 board.entry.now }
        {
            let mut bench = bench;
            let draw = bench.draw(board);
            (bench, draw)
        },
        || (),
    );
    done
}

/// Whether benches draw on threads of their own, and each wins a draw that none won before, and then none.
fn draw_by_threads(rt: &impl Threads, board: &Board, first: Bench, second: Bench) -> bool
    requires { IsOf first board.now × IsOf second board.now }
{
    let (first, least) = draw_apart(rt, board, first);
    let (second, next) = draw_apart(rt, board, second);
    let (_second, last) = draw_apart(rt, board, second);
    let (_first, none) = draw_apart(rt, board, first);
    least == Some(0) && next == Some(1) && last == Some(2) && none.is_none()
}

#[test]
fn draws_by_threads(rt: HostRuntime) {
    let Ok((board, mut first)) = Board::new(rt.alloc(), 1, 3) else {
        panic!(rt; "no board")
    };
    let second = first.split(&board);
    assert!(rt; draw_by_threads(&rt, &board, first, second));
}

/// The bench, if on a thread of its own a block is refused for the reason `why`, and handed back unchanged (`same`).
fn refused_apart(
    rt: &impl Threads,
    alloc: Global,
    board: &Board,
    bench: Bench,
    why: DeliveryRefusal,
    block: Option<Block>,
    same: Option<Block>,
) -> Option<Bench>
    requires { IsOf bench board.now }
    ensures { IfSome result (λ bench. IsOf bench board.now) }
{
    let (Some(block), Some(same)) = (block, same) else {
        return None;
    };
    let (bench, answer) = deliver_apart(rt, alloc, board, bench, block);
    if is_refused(&answer, why, &same) {
        Some(bench)
    } else {
        None
    }
}

/// The bench, if a block whose number isn't on the board is refused, and a block that is too long.
fn refuses_apart(rt: &impl Threads, alloc: Global, board: &Board, bench: Bench) -> Option<Bench>
    requires { IsOf bench board.now }
    ensures { IfSome result (λ bench. IsOf bench board.now) }
{
    let (stranger, same) = (block_of(alloc, 14, 0, 1), block_of(alloc, 14, 0, 1));
    let why = DeliveryRefusal::Stranger;
    let bench = refused_apart(rt, alloc, board, bench, why, stranger, same)?;
    let (long, same) = (block_of(alloc, 4, 0, 65537), block_of(alloc, 4, 0, 65537));
    refused_apart(
        rt,
        alloc,
        board,
        bench,
        DeliveryRefusal::TooLong,
        long,
        same,
    )
}

#[test]
fn refusals_by_threads(rt: HostRuntime) {
    let alloc = rt.alloc();
    let Some((board, bench)) = board_of(alloc) else {
        panic!(rt; "no board")
    };
    let Some(bench) = refuses_apart(&rt, alloc, &board, bench) else {
        panic!(rt; "not refused")
    };
    let (malformed, same) = (malformed_block(alloc, 5, 2), malformed_block(alloc, 5, 2));
    let why = DeliveryRefusal::Malformed { step: 0 };
    assert!(rt; refused_apart(&rt, alloc, &board, bench, why, malformed, same).is_some());
}

/// The bench, if it files a block under `number` on a thread of its own.
fn filed_apart(
    rt: &impl Threads,
    alloc: Global,
    board: &Board,
    bench: Bench,
    number: u32,
    block: Option<Block>,
) -> Option<Bench>
    requires { IsOf bench board.now }
    ensures { IfSome result (λ bench. IsOf bench board.now) }
{
    let (bench, answer) = deliver_apart(rt, alloc, board, bench, block?);
    if is_filed(&answer, number) {
        Some(bench)
    } else {
        None
    }
}

/// Whether block 5 is filed, and refused when it is delivered again.
fn files_five(rt: &impl Threads, alloc: Global, board: &Board, bench: Bench) -> bool
    requires { IsOf bench board.now }
{
    let given = block_of(alloc, 5, 0, 2);
    let Some(bench) = filed_apart(rt, alloc, board, bench, 5, given) else {
        return false;
    };
    let (again, same) = (block_of(alloc, 5, 7, 3), block_of(alloc, 5, 7, 3));
    refused_apart(
        rt,
        alloc,
        board,
        bench,
        DeliveryRefusal::Doubled,
        again,
        same,
    )
    .is_some()
}

/// One bench sees block 5 filed, another takes it, and the first sees it taken.
fn take_five(rt: &impl Threads, board: &Board, first: Bench, second: Bench) -> Option<Judged>
    requires { IsOf first board.now × IsOf second board.now × (total_of board.now ≡ 14) }
{
    let (first, stage) = look_apart(rt, board, first, 5);
    let (first, other) = look_apart(rt, board, first, 6);
    let is_filed = stage == Stage::Filed && other == Stage::Free;
    let (_second, taken) = take_apart(rt, board, second, 5);
    let (first, stage) = look_apart(rt, board, first, 5);
    let (_first, again) = take_apart(rt, board, first, 5);
    let is_taken = stage == Stage::Taken && again.is_none();
    if is_filed && is_taken { taken } else { None }
}

#[test]
fn filed_once_and_taken_once_by_threads(rt: HostRuntime) {
    let alloc = rt.alloc();
    let Some((board, mut first)) = board_of(alloc) else {
        panic!(rt; "no board")
    };
    let second = first.split(&board);
    let third = first.split(&board);
    assert!(rt; files_five(&rt, alloc, &board, first));
    let taken = take_five(&rt, &board, second, third);
    assert!(rt; is_five(alloc, taken));
}

/// The work of one thread.
#[derive(Drop)]
struct Work {
    bench: Bench,
    filed: u32,
    doubled: u32,
    /// How many blocks were refused that may not be filed at all.
    hostile: u32,
}

/// The blocks that a thread delivers.
#[derive(Clone, Copy)]
enum Share {
    /// Blocks that another thread delivers too.
    Range,
    /// Blocks out of range and malformed blocks, and between them blocks that all threads deliver.
    Hostile,
}

#[derive(Clone, Copy)]
struct OnBoard<'a>(&'a Board);

impl<'a> Promise<Work> for OnBoard<'a> {
    ghost kept_by = { λ p work. IsOf work.bench p.0.now };
}

/// A block of no steps. Those of two threads differ in their slots.
fn empty_block(alloc: Global, number: u32, thread: u8) -> Option<Block> {
    Some(Block {
        number,
        opening: Lines::new(thread % 8 + 1)?,
        steps: Steps::new(Vec::new(alloc)),
    })
}

/// Delivers the block with the number that is `place` behind a thread's first one, modulo the board's 4,096, and counts
/// the answer.
fn deliver_in_range(alloc: Global, board: &Board, work: &mut Work, thread: u8, place: u32)
    requires { IsOf work.old.bench board.now }
    ensures { IsOf work.new.bench board.now }
{
    let number = u32::from(thread).wrapping_mul(512).wrapping_add(place) % 4096;
    let (Some(block), Some(same)) = (
        empty_block(alloc, number, thread),
        empty_block(alloc, number, thread),
    ) else {
        return;
    };
    let answer = delivered(alloc, board, &mut work.bench, block);
    if is_filed(&answer, number) {
        work.filed = work.filed.wrapping_add(1);
    } else if is_refused(&answer, DeliveryRefusal::Doubled, &same) {
        work.doubled = work.doubled.wrapping_add(1);
    }
}

/// Delivers a block that may not be filed, and counts it if it is refused for the reason `why`.
fn deliver_refused(
    alloc: Global,
    board: &Board,
    work: &mut Work,
    block: Option<Block>,
    why: DeliveryRefusal,
)
    requires { IsOf work.old.bench board.now }
    ensures { IsOf work.new.bench board.now }
{
    let Some(block) = block else {
        return;
    };
    if let Err(refused) = delivered(alloc, board, &mut work.bench, block) {
        if refused.why == why {
            work.hostile = work.hostile.wrapping_add(1);
        }
    }
}

/// Delivers a block out of range, a malformed block and a block of the number `number`, and counts the answers.
fn deliver_hostile(alloc: Global, board: &Board, work: &mut Work, thread: u8, number: u32)
    requires { IsOf work.old.bench board.now }
    ensures { IsOf work.new.bench board.now }
{
    let stranger = block_of(alloc, number.saturating_add(14), 0, 1);
    deliver_refused(alloc, board, work, stranger, DeliveryRefusal::Stranger);
    let malformed = malformed_block(alloc, number, 2);
    let why = DeliveryRefusal::Malformed { step: 0 };
    deliver_refused(alloc, board, work, malformed, why);
    if let Some(block) = empty_block(alloc, number, thread) {
        match delivered(alloc, board, &mut work.bench, block) {
            Ok(_) => work.filed = work.filed.wrapping_add(1),
            Err(_) => work.doubled = work.doubled.wrapping_add(1),
        }
    }
}

/// Delivers a share by a bench: 1,024 blocks, or three of each number below 14.
fn deliver_share(alloc: Global, board: &Board, bench: Bench, thread: u8, share: Share) -> Work
    requires { IsOf bench board.now }
    ensures { IsOf result.bench board.now }
{
    let mut work = Work {
        bench,
        filed: 0,
        doubled: 0,
        hostile: 0,
    };
    let count = match share {
        Share::Range => 1024u32,
        Share::Hostile => 14,
    };
    for k in 0..count {
        match share {
            Share::Range => deliver_in_range(alloc, board, &mut work, thread, k),
            Share::Hostile => deliver_hostile(alloc, board, &mut work, thread, k),
        }
    }
    work
}

/// Eight benches on eight threads deliver a share each.
fn deliver_by_eight<R: Threads + Wait>(
    rt: &R,
    alloc: Global,
    board: &Board,
    bench: Bench,
    share: Share,
) -> Result<Work, Fail>
    requires { IsOf bench board.now }
    ensures { IfOk result (λ work. IsOf work.bench board.now) }
{
    thread::scope(
        thread::scope_env(),
        rt,
        |scope| -> Result<Work, Fail>
            requires { IsOf bench board.now }
            ensures { IfOk result (λ work. IsOf work.bench board.entry.now) }
        {
            let mut mine = bench;
            let mut handles = Vec::with_capacity(alloc, 7)?;
            for k in 1..8u8 {
                let theirs = mine.split(board);
                let Ok(handle) = scope.spawn_with(
                    OnBoard(board),
                    move || deliver_share(alloc, board, theirs, k, share),
                ) else {
                    return Err("no thread")?;
                };
                handles.push(handle)?;
            }
            let mut all = deliver_share(alloc, board, mine, 0, share);
            for handle in handles {
                let work = handle.join(rt);
                all = Work {
                    bench: all.bench.fold(work.bench, board),
                    filed: all.filed.wrapping_add(work.filed),
                    doubled: all.doubled.wrapping_add(work.doubled),
                    hostile: all.hostile.wrapping_add(work.hostile),
                };
            }
            Ok(all)
        },
    )
}

/// Whether the board has the block of each of `count` numbers.
fn has_all(closed: &Closed, count: usize) -> bool {
    for (number, place) in closed.contents.iter().enumerate() {
        match place {
            Some(judged) => {
                if judged.block().number as usize != number {
                    return false;
                }
            }
            None => return false,
        }
    }
    closed.contents.len() == count
}

/// Whether `counts` deliveries were filed, doubled and hostile, and each number of the board has its block: nothing was
/// taken, and no other bench filed.
fn leaves_all(
    alloc: Global,
    board: Board,
    work: Work,
    count: usize,
    counts: (u32, u32, u32),
) -> bool
    requires { IsOf work.bench board }
{
    let is_so = (work.filed, work.doubled, work.hostile) == counts;
    match board.close(alloc, work.bench) {
        Ok(closed) => is_so && closed.others == 0 && closed.taken == 0 && has_all(&closed, count),
        Err(_) => false,
    }
}

/// Whether each number is filed once by eight benches.
fn file_by_eight<R: Threads + Wait>(rt: &R, alloc: Global) -> Result<bool, Fail> {
    let Ok((board, bench)) = Board::new(alloc, 4096, 0) else {
        return Ok(false);
    };
    let work = deliver_by_eight(rt, alloc, &board, bench, Share::Range)?;
    Ok(leaves_all(alloc, board, work, 4096, (4096, 4096, 0)))
}

/// `file_by_eight`, five times.
fn file_in_rounds<R: Threads + Wait + Abort>(rt: &R, alloc: Global) -> Result<(), Fail> {
    for round in 0..5 {
        assert!(rt; file_by_eight(rt, alloc)?, "in round {round}");
    }
    Ok(())
}

#[test]
fn eight_benches_file_once_in_rounds_1_to_5(rt: HostRuntime) -> Result<(), Fail> {
    file_in_rounds(&rt, rt.alloc())
}

#[test]
fn eight_benches_file_once_in_rounds_6_to_10(rt: HostRuntime) -> Result<(), Fail> {
    file_in_rounds(&rt, rt.alloc())
}

#[test]
fn eight_benches_file_once_in_rounds_11_to_15(rt: HostRuntime) -> Result<(), Fail> {
    file_in_rounds(&rt, rt.alloc())
}

#[test]
fn eight_benches_file_once_in_rounds_16_to_20(rt: HostRuntime) -> Result<(), Fail> {
    file_in_rounds(&rt, rt.alloc())
}

/// Whether each number is filed once if all threads also deliver blocks out of range and malformed ones.
fn file_among_hostile<R: Threads + Wait>(rt: &R, alloc: Global) -> Result<bool, Fail> {
    let Some((board, bench)) = board_of(alloc) else {
        return Ok(false);
    };
    let work = deliver_by_eight(rt, alloc, &board, bench, Share::Hostile)?;
    Ok(leaves_all(alloc, board, work, 14, (14, 7 * 14, 8 * 28)))
}

#[test]
fn hostile_blocks_of_eight_benches(rt: HostRuntime) -> Result<(), Fail> {
    for round in 0..25 {
        assert!(rt; file_among_hostile(&rt, rt.alloc())?, "in round {round}");
    }
    Ok(())
}

//! Two pods on threads of their own, and verdicts by workers.

ghost use Rattle.std.specs.Prelude.{◌≤◌, IfSome};
ghost use Rattle.vme_board.specs.Benches.{IsOf};

use std::alloc::Global;
use std::sync::Wait;
use std::thread::{Threads, join};
use vme_board::{Bench, Board};
use vme_book::{Book, Whole};
use vme_pod_check::{
    Plan, PodsOrder, Unjudged, check_by_pods, deliveries_of, order_of, verdict_by_pods,
};
use vme_stream::{Bytes, Refusal, binding_in, recorded_in};
use vme_summary::Judged;
use vme_test_recordings::{BUS_BINDING, BUS_DEFINITIONS, READ_DUMP};
use vme_test_streams::{LimitedSink, WantedAnswer, has_answered, words_of};
use vme_trace::{Block, Capture, Verdict};

/// The recording of the read.
fn recorded_read(alloc: Global) -> Option<Capture> {
    let binding = binding_in(alloc, BUS_BINDING.as_bytes()).ok()?;
    recorded_in(alloc, &binding, READ_DUMP.as_bytes())
        .ok()?
        .ok()
}

/// Whether a check of the inputs writes `told`, to a standard output with the room `room`. None if memory runs out.
fn tells_once<R: Threads + Wait + Sync>(
    rt: &R,
    alloc: Global,
    inputs: (&[u8], &[u8]),
    plan: Plan,
    room: usize,
    told: WantedAnswer<'_>,
) -> Option<bool>
    requires block { (1 ≤ plan.block) × (plan.block ≤ 65536) }
    requires workers { (1 ≤ plan.workers) × (plan.workers ≤ 64) }
{
    let mut out = LimitedSink::new(alloc, room);
    let mut err = LimitedSink::new(alloc, 1000);
    let status = check_by_pods(
        rt,
        alloc,
        &mut Bytes::new(inputs.0),
        &mut Bytes::new(inputs.1),
        plan,
        &mut out,
        &mut err,
    );
    if status == 4 {
        None
    } else {
        Some(has_answered(&out, &err, status, told))
    }
}

/// `tells_once`, tried again if memory runs out once.
fn tells<R: Threads + Wait + Sync>(
    rt: &R,
    alloc: Global,
    inputs: (&[u8], &[u8]),
    plan: Plan,
    room: usize,
    told: WantedAnswer<'_>,
) -> bool
    requires block { (1 ≤ plan.block) × (plan.block ≤ 65536) }
    requires workers { (1 ≤ plan.workers) × (plan.workers ≤ 64) }
{
    match tells_once(rt, alloc, inputs, plan, room, told) {
        Some(is_told) => is_told,
        None => tells_once(rt, alloc, inputs, plan, room, told) == Some(true),
    }
}

/// Pairs of the number of steps of a block and the number of workers.
static SHARES: [(u32, u32); 6] = [(1, 1), (1, 3), (2, 1), (2, 3), (65536, 1), (65536, 3)];

static SEEDS: [u64; 3] = [0, 1, 7919];

/// Whether a check of `dump` writes `told`, by a plan with the numbers `share`, which have to be in their ranges.
fn tells_by<R: Threads + Wait + Sync>(
    rt: &R,
    alloc: Global,
    dump: &[u8],
    share: (u32, u32),
    seed: Option<u64>,
    told: WantedAnswer<'_>,
) -> bool {
    let (block, workers) = share;
    if block < 1 || 65536 < block || workers < 1 || 64 < workers {
        return false;
    }
    let plan = Plan {
        block,
        workers,
        seed,
    };
    tells(rt, alloc, (BUS_BINDING.as_bytes(), dump), plan, 1000, told)
}

/// Whether a check of `dump` writes `told`, by each of several plans.
fn plans_tell<R: Threads + Wait + Sync>(
    rt: &R,
    alloc: Global,
    dump: &[u8],
    told: WantedAnswer<'_>,
) -> bool {
    for share in SHARES.iter() {
        if !tells_by(rt, alloc, dump, *share, None, told) {
            return false;
        }
        for seed in SEEDS.iter() {
            if !tells_by(rt, alloc, dump, *share, Some(*seed), told) {
                return false;
            }
        }
    }
    true
}

#[test]
fn plans_change_nothing(rt: HostRuntime) {
    let conforming = ("conforming\n", "", 0);
    assert!(rt; plans_tell(&rt, rt.alloc(), READ_DUMP.as_bytes(), conforming));
}

/// Whether a check of the read without a strobe writes that a rule is broken, by each of several plans.
fn plans_tell_a_break<R: Threads + Wait + Sync>(rt: &R, alloc: Global) -> Option<bool> {
    let unstrobed = READ_DUMP
        .replace(alloc, "#20 0q\n#30 0s\n#40 1p 1q", "#20 0s\n#40 1p")
        .ok()?;
    let broken = ("broken H4 at instant 3 time 20 line DTACK\n", "", 1);
    Some(plans_tell(rt, alloc, unstrobed.as_bytes(), broken))
}

#[test]
fn plans_change_no_break(rt: HostRuntime) {
    assert!(rt; plans_tell_a_break(&rt, rt.alloc()) == Some(true));
}

const TWO_WORKERS: Plan = Plan {
    block: 1,
    workers: 2,
    seed: Some(1),
};

/// The verdict on the read by two workers.
fn verdict_of_read<R: Threads + Wait + Sync>(rt: &R, alloc: Global) -> Option<Verdict> {
    let capture = recorded_read(alloc)?;
    verdict_by_pods(rt, alloc, &capture, TWO_WORKERS).ok()
}

#[test]
fn a_recording_is_judged(rt: HostRuntime) {
    assert!(rt; verdict_of_read(&rt, rt.alloc()) == Some(Verdict::Conforming));
}

/// The deliveries, by `seed`, of the recording's blocks of one step.
fn delivered(alloc: Global, capture: &Capture, seed: u64) -> Option<Vec<Block>> {
    match capture.cut(alloc, 1) {
        Ok(blocks) => deliveries_of(alloc, blocks, Some(seed)).ok(),
        Err(_) => None,
    }
}

/// Whether no number is below the one before it.
fn ascend(deliveries: &[Block]) -> bool {
    let mut least = 0;
    for block in deliveries {
        if block.number < least {
            return false;
        }
        least = block.number;
    }
    true
}

/// Whether a seed gives another order, and whether it delivers a block twice.
fn shuffles_and_repeats(alloc: Global, capture: &Capture, seed: u64) -> Option<(bool, bool)> {
    let deliveries = delivered(alloc, capture, seed)?;
    Some((!ascend(deliveries.as_slice()), deliveries.len() != 6))
}

/// Whether any of eight seeds gives another order, and any delivers a block twice.
fn some_shuffle_and_repeat(alloc: Global) -> Option<bool> {
    let capture = recorded_read(alloc)?;
    let (mut some_shuffles, mut some_repeats) = (false, false);
    for seed in 0..8 {
        let (shuffles, repeats) = shuffles_and_repeats(alloc, &capture, seed)?;
        some_shuffles = some_shuffles || shuffles;
        some_repeats = some_repeats || repeats;
    }
    Some(some_shuffles && some_repeats)
}

/// No contract says that a seed gives another order, or that a block is delivered twice.
#[test]
fn seeds_shuffle_and_repeat(rt: HostRuntime) {
    assert!(rt; some_shuffle_and_repeat(rt.alloc()) == Some(true));
}

/// Files copies of the blocks whose numbers are odd (`odd`), or of the others. None if a delivery is refused.
fn filed_by(
    alloc: Global,
    board: &Board,
    bench: Bench,
    blocks: &[Block],
    odd: bool,
) -> Option<Bench>
    requires { IsOf bench board.now }
    ensures { IfSome result (λ bench. IsOf bench board.now) }
{
    let mut bench = bench;
    for block in blocks {
        if (block.number % 2 == 1) == odd {
            let copy = block.copy(alloc).ok()?;
            bench.deliver(alloc, board, copy).ok()?;
        }
    }
    Some(bench)
}

/// The bench of both pods, after each has filed its blocks on a thread of its own.
fn filed_by_both(
    rt: &impl Threads,
    alloc: Global,
    board: &Board,
    pods: (Bench, Bench),
    blocks: &[Block],
) -> Option<Bench>
    requires { IsOf pods.0 board.now × IsOf pods.1 board.now }
    ensures { IfSome result (λ bench. IsOf bench board.now) }
{
    let (first, second) = pods;
    let (odd, even) = join(
        rt,
        move || -> Option<Bench>
            requires { IsOf first board.now }
            ensures { IfSome result (λ bench. IsOf bench board.entry.now) }
        { filed_by(alloc, board, first, blocks, true) },
        move || -> Option<Bench>
            requires { IsOf second board.now }
            ensures { IfSome result (λ bench. IsOf bench board.entry.now) }
        { filed_by(alloc, board, second, blocks, false) },
    );
    Some(odd?.fold(even?, board))
}

/// The contents of a closed board, if it has no block of another bench, and nothing was taken from it.
fn contents_of(alloc: Global, board: Board, bench: Bench) -> Option<Vec<Option<Judged>>>
    requires { IsOf bench board }
{
    let closed = board.close(alloc, bench).ok()?;
    if closed.others == 0 && closed.taken == 0 {
        Some(closed.contents)
    } else {
        None
    }
}

/// The judged blocks that two pods file, the odd ones and the even ones, each on a thread of its own.
fn judged_by_two_pods(
    rt: &impl Threads,
    alloc: Global,
    total: u32,
    blocks: &[Block],
) -> Option<Vec<Option<Judged>>> {
    let (board, mut first) = Board::new(alloc, total, 0).ok()?;
    let second = first.split(&board);
    let bench = filed_by_both(rt, alloc, &board, (first, second), blocks)?;
    contents_of(alloc, board, bench)
}

/// A book with all judged blocks, which it joins by number.
fn all_inserted(alloc: Global, total: u32, contents: Vec<Option<Judged>>) -> Option<Book> {
    let mut book = Book::new(alloc, total).ok()?;
    for content in contents {
        book.insert(alloc, content?).ok()?;
    }
    Some(book)
}

/// The read, whose blocks two pods deliver. Its verdict is known before the book is closed.
fn whole_by_two_pods(rt: &impl Threads, alloc: Global) -> Option<Whole> {
    let blocks = recorded_read(alloc)?.cut(alloc, 1).ok()?;
    let total = u32::try_from(blocks.len()).ok()?;
    let contents = judged_by_two_pods(rt, alloc, total, blocks.as_slice())?;
    let book = all_inserted(alloc, total, contents)?;
    if book.so_far() == Some(Verdict::Conforming) {
        book.close(alloc).ok()
    } else {
        None
    }
}

/// Whether the span and the recording have the six steps of the read.
fn is_whole(rt: &impl Threads, alloc: Global) -> bool {
    match whole_by_two_pods(rt, alloc) {
        Some(whole) => whole.span.steps() == 6 && whole.capture.steps().len() == 6,
        None => false,
    }
}

#[test]
fn two_pods(rt: HostRuntime) {
    assert!(rt; is_whole(&rt, rt.alloc()));
}

/// Whether a binding and a dump, by two workers and a seed, are refused with the line `text` and status 3.
fn is_refused<R: Threads + Wait + Sync>(
    rt: &R,
    alloc: Global,
    inputs: (&[u8], &[u8]),
    text: &str,
) -> bool {
    tells(rt, alloc, inputs, TWO_WORKERS, 1000, ("", text, 3))
}

/// Whether a binding without slots, and a dump without definitions, are refused.
fn inputs_are_refused<R: Threads + Wait + Sync>(rt: &R, alloc: Global) -> bool {
    let unslotted = ("AS = 0\n".as_bytes(), READ_DUMP.as_bytes());
    let undefined = (BUS_BINDING.as_bytes(), "".as_bytes());
    is_refused(
        rt,
        alloc,
        unslotted,
        "vmecheck: binding line 1: SlotsFirst\n",
    ) && is_refused(
        rt,
        alloc,
        undefined,
        "vmecheck: dump line 1: NoEndDefinitions\n",
    )
}

#[test]
fn refusals_are_told(rt: HostRuntime) {
    assert!(rt; inputs_are_refused(&rt, rt.alloc()));
}

/// A dump of `steps` steps, in which AS goes low and high in turn.
fn long_dump(alloc: Global, steps: u32) -> Option<String> {
    let mut dump = String::from_str(alloc, BUS_DEFINITIONS).ok()?;
    for step in 0..steps {
        let change = format!(in alloc; "#{step} {}p\n", step % 2).ok()?;
        dump.push_str(change.as_str()).ok()?;
    }
    Some(dump)
}

/// Whether a recording of one block too many is refused.
fn many_are_refused<R: Threads + Wait + Sync>(rt: &R, alloc: Global) -> bool {
    match long_dump(alloc, 4097) {
        Some(dump) => is_refused(
            rt,
            alloc,
            (BUS_BINDING.as_bytes(), dump.as_bytes()),
            "vmecheck: too many blocks\n",
        ),
        None => false,
    }
}

#[test]
fn too_many_blocks_are_told(rt: HostRuntime) {
    assert!(rt; many_are_refused(&rt, rt.alloc()));
}

#[test]
fn a_verdict_that_is_not_written_is_told(rt: HostRuntime) {
    let unwritten = ("", "vmecheck: cannot write\n", 5);
    let inputs = (BUS_BINDING.as_bytes(), READ_DUMP.as_bytes());
    assert!(rt; tells(&rt, rt.alloc(), inputs, TWO_WORKERS, 0, unwritten));
}

/// Whether the reason has the line `text` and the status `status`.
fn is_told(unjudged: Unjudged, text: &str, status: u8) -> bool {
    unjudged.line().as_bytes() == text.as_bytes() && unjudged.status() == status
}

/// Whether each reason that a dump can't give has its line.
fn unjudged_is_told() -> bool {
    let memory = Unjudged::Refused(Refusal::Memory);
    is_told(memory, "vmecheck: out of memory\n", 4)
        && is_told(Unjudged::NoWorker, "vmecheck: cannot start a worker\n", 4)
        && is_told(Unjudged::Stray, "vmecheck: stray block\n", 4)
}

#[test]
fn what_is_not_judged_is_told(rt: HostRuntime) {
    assert!(rt; unjudged_is_told());
}

/// The order, i.e. the parsed arguments, in a line.
fn ordered(alloc: Global, line: &str) -> Option<PodsOrder> {
    let words = words_of(alloc, line).ok()?;
    order_of(alloc, words.as_slice()).ok()?
}

/// Whether a line is parsed to the plan and the files.
fn orders(alloc: Global, line: &str, plan: Plan, binding: &str, dump: &str) -> bool {
    match ordered(alloc, line) {
        Some(order) => {
            order.plan == plan && order.binding.as_str() == binding && order.dump.as_str() == dump
        }
        None => false,
    }
}

#[test]
fn words_make_an_order(rt: HostRuntime) {
    let line = "vme_pods --block 7 --seed 9 lines.bind read.vcd";
    let plan = Plan {
        block: 7,
        workers: 4,
        seed: Some(9),
    };
    assert!(rt; orders(rt.alloc(), line, plan, "lines.bind", "read.vcd"));
}

//! Runs on real threads, on a read over the bus and on recordings that break rules.

ghost use Rattle.std.specs.Prelude.{◌≡◌};
ghost use Rattle.vme_summary.specs.Stands.{first_number};

mod early;
mod gates;
mod hostile;
mod recordings;
mod short;

use gates::{Gathers, Listens, Waits};
use recordings::{
    ORDERS, RESET_ROWS, broken_blocks, broken_rows, broken_twice, no_changes, picked, picked_of,
    read_blocks, read_by_fives, reset_blocks, shuffled,
};
use std::alloc::Global;
use std::process::Abort;
use std::sync::Wait;
use std::test::Fail;
use std::thread::Threads;
use vme_floor::{Answer, Gate, Open, Report, RunFault, run};
use vme_listing::write_listing;
use vme_summary::Span;
use vme_test_recordings::GRANTED_READ_LISTING;
use vme_trace::{Block, Break, Failed, Line, Lines, Rule, Sink, Step, Steps, Verdict};

/// A sink that keeps what is written.
#[derive(Drop)]
struct Page {
    bytes: Vec<u8>,
    failures: u64,
}

impl Sink for Page {
    ghost use Rattle.std.specs.Prelude.{None};

    ghost writing = { λ page. record { taken = None; failures = page.failures } };

    fn write(&mut self, bytes: &[u8]) -> Result<usize, Failed> {
        if self.failures < u64::MAX && self.bytes.extend_from_slice(bytes).is_err() {
            self.failures += 1;
            return Err(Failed);
        }
        Ok(bytes.len())
    }
}

/// The outcome of a run: a verdict, or why there is none.
#[derive(Clone, Copy, PartialEq, Eq)]
enum Outcome {
    Judged(Verdict),
    Missing(u32),
    Torn(u32),
    Memory,
    NoWorker,
    BadTotal,
    BadDraws,
    BadWorkers,
    Stray,
}

/// The verdict on the read.
const CONFORMING: Outcome = Outcome::Judged(Verdict::Conforming);

/// The result of a run. It is smaller than the report, and so are the proofs of what owns it.
#[derive(Drop)]
struct RunOutcome {
    outcome: Outcome,
    answers: Vec<Answer>,
    /// How many blocks were taken before the threads were joined.
    early: u32,
    /// How many steps the recording has.
    steps: usize,
    /// The text of its listing.
    listing: Vec<u8>,
}

/// The text of the listing of the recording whose summary is `span`.
fn text_of(alloc: Global, span: &Span) -> Option<Vec<u8>>
    requires { first_number span.now ≡ 0 }
{
    let Ok(listing) = span.listing(alloc) else {
        return None;
    };
    let mut page = Page {
        bytes: Vec::new(alloc),
        failures: 0,
    };
    match write_listing(&listing, &mut page) {
        Ok(()) => Some(page.bytes),
        Err(_) => None,
    }
}

/// The result of a report. If memory is refused once, its listing is made again.
fn outcome_of_report(alloc: Global, report: Report) -> Option<RunOutcome>
    requires { first_number report.span ≡ 0 }
{
    let listing = match text_of(alloc, &report.span) {
        Some(text) => Some(text),
        None => text_of(alloc, &report.span),
    };
    Some(RunOutcome {
        outcome: Outcome::Judged(report.verdict),
        answers: report.answers.into_inner(),
        early: report.early,
        steps: report.capture.steps().len(),
        listing: listing?,
    })
}

/// The result of a fault.
fn outcome_of_fault(alloc: Global, fault: RunFault) -> RunOutcome {
    let (outcome, answers) = match fault {
        RunFault::Missing { number, answers } => (Outcome::Missing(number), answers.into_inner()),
        RunFault::Torn { number, answers } => (Outcome::Torn(number), answers.into_inner()),
        RunFault::Memory => (Outcome::Memory, Vec::new(alloc)),
        RunFault::NoWorker => (Outcome::NoWorker, Vec::new(alloc)),
        RunFault::BadTotal => (Outcome::BadTotal, Vec::new(alloc)),
        RunFault::BadDraws => (Outcome::BadDraws, Vec::new(alloc)),
        RunFault::BadWorkers => (Outcome::BadWorkers, Vec::new(alloc)),
        RunFault::Stray => (Outcome::Stray, Vec::new(alloc)),
    };
    RunOutcome {
        outcome,
        answers,
        early: 0,
        steps: 0,
        listing: Vec::new(alloc),
    }
}

/// The result of a run with the gate `gate`, if its listing can be made.
fn told_through<R: Threads + Wait + Sync, G: Gate + Sync>(
    rt: &R,
    alloc: Global,
    deliveries: &[Block],
    total: u32,
    workers: u32,
    gate: &G,
) -> Option<RunOutcome> {
    match run(rt, alloc, deliveries, total, workers, gate) {
        Ok(report) => outcome_of_report(alloc, report),
        Err(fault) => Some(outcome_of_fault(alloc, fault)),
    }
}

/// The result of a run with a gate whose calls return at once.
fn told_of<R: Threads + Wait + Sync>(
    rt: &R,
    alloc: Global,
    deliveries: &[Block],
    total: u32,
    workers: u32,
) -> Option<RunOutcome> {
    told_through(rt, alloc, deliveries, total, workers, &Open)
}

/// Asserts the outcome of a run on the deliveries, and its answers.
fn assert_told<R: Threads + Wait + Abort + Sync>(
    rt: &R,
    alloc: Global,
    deliveries: &[Block],
    total: u32,
    workers: u32,
    outcome: &Outcome,
    answers: &[Answer],
) {
    let is_so = match told_of(rt, alloc, deliveries, total, workers) {
        Some(told) => told.outcome == *outcome && told.answers.as_slice() == answers,
        None => false,
    };
    assert!(rt; is_so);
}

/// Asserts how many steps the recording of a run on the deliveries has, and its listing, which ends with the verdict.
fn assert_listed<R: Threads + Wait + Abort + Sync>(
    rt: &R,
    alloc: Global,
    deliveries: &[Block],
    total: u32,
    workers: u32,
    steps: usize,
    rows: &str,
) {
    let is_so = match told_of(rt, alloc, deliveries, total, workers) {
        Some(told) => told.steps == steps && told.listing.as_slice() == rows.as_bytes(),
        None => false,
    };
    assert!(rt; is_so);
}

#[test]
fn workers_change_nothing(rt: HostRuntime) -> Result<(), Fail> {
    let blocks = read_blocks(rt.alloc(), 1).ok_or("no blocks")?;
    for workers in [1, 2, 64] {
        assert_listed(
            &rt,
            rt.alloc(),
            &blocks,
            14,
            workers,
            14,
            GRANTED_READ_LISTING,
        );
    }
    Ok(())
}

/// Blocks of one step, delivered from the last to the first.
#[test]
fn a_reset_in_any_order(rt: HostRuntime) -> Result<(), Fail> {
    let alloc = rt.alloc();
    let blocks = reset_blocks(alloc).ok_or("no blocks")?;
    let backwards = [12, 11, 10, 9, 8, 7, 6, 5, 4, 3, 2, 1, 0];
    let deliveries = picked(alloc, &blocks, &backwards).ok_or("no blocks")?;
    assert_listed(&rt, alloc, &deliveries, 13, 3, 13, RESET_ROWS);
    Ok(())
}

#[test]
fn doubled_torn_and_missing(rt: HostRuntime) -> Result<(), Fail> {
    let alloc = rt.alloc();
    let blocks = read_by_fives(alloc).ok_or("no blocks")?;
    let filed = Answer::Filed;
    let doubled = [filed, filed, Answer::Doubled, filed];
    for (places, outcome, answers) in [
        ([0, 1, 3, 2].as_slice(), CONFORMING, doubled.as_slice()),
        (&[0, 3, 1, 2], Outcome::Torn(2), &doubled),
        (&[0, 1], Outcome::Missing(2), &[filed, filed]),
    ] {
        let deliveries = picked(alloc, &blocks, places).ok_or("no blocks")?;
        assert_told(&rt, alloc, &deliveries, 3, 1, &outcome, answers);
    }
    Ok(())
}

/// A block of `count` steps that change nothing.
fn still(alloc: Global, number: u32, count: usize) -> Option<Block> {
    let mut steps = Vec::with_capacity(alloc, count).ok()?;
    for time in 0..count {
        let step = Step {
            time: time as u64,
            changes: no_changes(alloc),
        };
        steps.push(step).ok()?;
    }
    Some(Block {
        number,
        opening: Lines::new(3)?,
        steps: Steps::new(steps),
    })
}

#[test]
fn each_refusal_of_a_delivery(rt: HostRuntime) -> Result<(), Fail> {
    let alloc = rt.alloc();
    let mut deliveries = Vec::new(alloc);
    for (number, steps) in [(1, 65537), (0, 65537), (0, 1), (0, 0)] {
        deliveries.push(still(alloc, number, steps).ok_or("no block")?)?;
    }
    let malformed = Answer::Malformed { step: 0 };
    let answers = [Answer::Stranger, Answer::TooLong, malformed, Answer::Filed];
    let outcome = Outcome::Judged(Verdict::NeverIdle);
    for workers in [1, 4] {
        assert_told(&rt, alloc, &deliveries, 1, workers, &outcome, &answers);
    }
    Ok(())
}

#[test]
fn numbers_out_of_range(rt: HostRuntime) -> Result<(), Fail> {
    let alloc = rt.alloc();
    let mut many = Vec::with_capacity(alloc, 65537)?;
    for _ in 0..65537 {
        many.push(still(alloc, 0, 0).ok_or("no block")?)?;
    }
    let one = many.get(0..1).ok_or("no block")?;
    for (deliveries, total, workers, outcome) in [
        (many.as_slice(), 0, 0, Outcome::BadTotal),
        (many.as_slice(), 4097, 0, Outcome::BadTotal),
        (many.as_slice(), 1, 0, Outcome::BadDraws),
        (one, 1, 0, Outcome::BadWorkers),
        (one, 1, 65, Outcome::BadWorkers),
    ] {
        assert_told(&rt, alloc, deliveries, total, workers, &outcome, &[]);
    }
    let outcome = Outcome::Judged(Verdict::NeverIdle);
    assert_told(&rt, alloc, one, 1, 64, &outcome, &[Answer::Filed]);
    Ok(())
}

/// Delivers two blocks by two workers. The delivery `held` waits until the other is done.
fn assert_overlap<R: Threads + Wait + Abort + Sync>(
    rt: &R,
    alloc: Global,
    blocks: &[Block],
    held: u32,
    outcome: &Outcome,
) {
    let gate = Waits::new(rt, held, 1 - held.min(1));
    let filed = [Answer::Filed, Answer::Filed];
    let is_so = match told_through(rt, alloc, blocks, 2, 2, &gate) {
        Some(told) => told.outcome == *outcome && told.answers.as_slice() == filed.as_slice(),
        None => false,
    };
    assert!(rt; is_so);
}

#[test]
fn workers_overlap(rt: HostRuntime) -> Result<(), Fail> {
    let blocks = read_blocks(rt.alloc(), 7).ok_or("no blocks")?;
    for _ in 0..50 {
        assert_overlap(&rt, rt.alloc(), &blocks, 0, &CONFORMING);
        assert_overlap(&rt, rt.alloc(), &blocks, 1, &CONFORMING);
    }
    Ok(())
}

/// The break of the block that is judged last is the least one.
#[test]
fn the_least_break_is_named(rt: HostRuntime) -> Result<(), Fail> {
    let blocks = broken_twice(rt.alloc()).ok_or("no blocks")?;
    let outcome = Outcome::Judged(Verdict::Broken(Break {
        instant: 10,
        time: 90,
        rule: Rule::H4,
        line: Line::from_name(b"DTACK").ok_or("no such line")?,
    }));
    assert_overlap(&rt, rt.alloc(), &blocks, 0, &outcome);
    assert_overlap(&rt, rt.alloc(), &blocks, 1, &outcome);
    Ok(())
}

/// Asserts that `workers` workers are at the gate at once, each with its number, and that what the calling thread filed
/// was taken before the threads were joined.
fn assert_meeting<R: Threads + Wait + Abort + Sync>(
    rt: &R,
    alloc: Global,
    blocks: &[Block],
    workers: u32,
    numbers: u64,
) {
    let gate = Gathers::new(rt, workers.saturating_sub(1));
    let early = match told_through(rt, alloc, blocks, 67, workers, &gate) {
        Some(told) => told.early,
        None => 0,
    };
    assert!(rt; gate.workers() == (numbers, numbers));
    assert!(rt; 2 <= early && early <= 67);
}

#[test]
fn workers_meet_at_the_gate(rt: HostRuntime) -> Result<(), Fail> {
    let blocks = broken_blocks(rt.alloc(), 3).ok_or("no blocks")?;
    for (workers, numbers) in [(2, 3), (3, 7), (64, u64::MAX)] {
        assert_meeting(&rt, rt.alloc(), &blocks, workers, numbers);
    }
    Ok(())
}

/// A gate gets the worker and the delivery, before and after the delivery.
#[test]
fn gates_are_told(rt: HostRuntime) -> Result<(), Fail> {
    let blocks = read_blocks(rt.alloc(), 1).ok_or("no blocks")?;
    let gate = Listens::new();
    told_through(&rt, rt.alloc(), &blocks, 14, 1, &gate).ok_or("not told")?;
    assert!(rt; gate.heard_in_order(14));
    Ok(())
}

/// Whether each of three deliveries was filed, and they made the whole read.
fn is_whole_read(told: &RunOutcome) -> bool {
    told.outcome == CONFORMING
        && told.steps == 14
        && told.answers.as_slice() == [Answer::Filed; 3].as_slice()
        && told.listing.as_slice() == GRANTED_READ_LISTING.as_bytes()
}

/// Asserts that a run on these three deliveries by three workers makes the whole read.
fn assert_read<R: Threads + Wait + Abort + Sync>(rt: &R, alloc: Global, deliveries: &[Block]) {
    let is_read = match told_of(rt, alloc, deliveries, 3, 3) {
        Some(told) => is_whole_read(&told),
        None => false,
    };
    assert!(rt; is_read);
}

/// Three blocks in each of their six orders, a hundred times: each run has the same answers, verdict and listing.
#[test]
fn every_order(rt: HostRuntime) -> Result<(), Fail> {
    for order in ORDERS.iter() {
        let deliveries = picked_of(rt.alloc(), 5, order).ok_or("no blocks")?;
        for _ in 0..100 {
            assert_read(&rt, rt.alloc(), &deliveries);
        }
    }
    Ok(())
}

/// A recording of 200 steps that breaks a rule in its middle, cut in several ways, each block delivered twice and
/// shuffled.
#[test]
fn cuts(rt: HostRuntime) -> Result<(), Fail> {
    let alloc = rt.alloc();
    let rows = broken_rows(alloc).ok_or("no rows")?;
    for (size, total) in [(3, 67), (7, 29), (64, 4), (199, 2), (200, 1)] {
        let blocks = broken_blocks(alloc, size).ok_or("no blocks")?;
        let deliveries = shuffled(alloc, &blocks, size).ok_or("no blocks")?;
        for workers in [1, 3, 64] {
            assert_listed(&rt, alloc, &deliveries, total, workers, 200, rows.as_str());
        }
    }
    Ok(())
}

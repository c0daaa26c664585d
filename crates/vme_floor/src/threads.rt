//! The workers in parallel: the calling thread is worker 0, each other one has a scoped thread.

ghost use Rattle.std.specs.Prelude.{◌≡◌, ◌<◌, ℕ, List, [], ◌∷◌, ◌++◌, IfOk, IfErr};
ghost use Rattle.vme_core.specs.Shares.{IsWholeShare};
ghost use Rattle.vme_board.specs.Benches.{total_of, view_of};
ghost use Rattle.vme_floor.specs.Collecting.{IsCollected, IsCollectedOf, OwnAreTaken};
ghost use Rattle.vme_floor.specs.declared.threads.ThreadFault.TheVariants.{NoWorker};
ghost use Rattle.vme_floor.specs.Works.{IsNew, IsOtherWorkOf, IsWorkBy};

use crate::collector::{CollectingWorker, Collection, deliver_and_collect};
use crate::gate::Gate;
use crate::worker::{Work, deliver_drawn};
use std::alloc::{AllocError, Global};
use std::sync::Wait;
use std::thread;
use std::thread::{Promise, PromisedHandle, Scope, Threads};
use vme_board::{Bench, Board};
use vme_trace::Block;

/// Why there is no work of all workers.
#[derive(Drop)]
pub(crate) enum ThreadFault {
    /// Memory ran out.
    Memory,
    /// A thread couldn't be started.
    NoWorker,
}

/// The board, the deliveries and the number of a thread's worker. The promise is that the thread returns this worker's
/// work.
#[derive(Clone, Copy)]
struct WorkContext<'a> {
    board: &'a Board,
    deliveries: &'a [Block],
    worker: u32,
}

impl<'a> Promise<Result<Work, AllocError>> for WorkContext<'a> {
    ghost kept_by = { λ p r. IfOk r (IsWorkBy p.board.now p.deliveries.now p.worker) };
}

/// The work of all workers together, after each has ended.
pub(crate) fn work_together<R: Threads + Wait + Sync, G: Gate + Sync>(
    rt: &R,
    alloc: Global,
    board: &Board,
    deliveries: &[Block],
    gate: &G,
    workers: u32,
    bench: Bench,
    collection: Collection,
) -> Result<CollectingWorker, ThreadFault>
    requires new { IsNew board.now deliveries.now bench }
    requires share { (view_of bench).share ≡ 0 ∷ [] }
    requires collected { IsCollected (total_of board.now) (view_of bench) collection }
    ensures collected { IfOk result (λ all. IsCollectedOf board.now deliveries.now all) }
    ensures own { IfOk result (λ all. workers ≡ 1 → OwnAreTaken (view_of all.work.bench)) }
    ensures whole { IfOk result (λ all. IsWholeShare (view_of all.work.bench).share) }
    ensures alone { IfErr result (λ fault. fault ≡ NoWorker → 1 < workers) }
{
    thread::scope(
        thread::scope_env(),
        rt,
        |scope| -> Result<CollectingWorker, ThreadFault>
            requires new { IsNew board.now deliveries.now bench }
            requires share { (view_of bench).share ≡ 0 ∷ [] }
            requires collected { IsCollected (total_of board.now) (view_of bench) collection }
            ensures collected { IfOk result (λ all. IsCollectedOf board.entry.now deliveries.entry.now all) }
            ensures own { IfOk result (λ all. workers ≡ 1 → OwnAreTaken (view_of all.work.bench)) }
            ensures whole { IfOk result (λ all. IsWholeShare (view_of all.work.bench).share) }
            ensures alone { IfErr result (λ fault. fault ≡ NoWorker → 1 < workers) }
        {
            work_in_scope(
                rt, alloc, scope, board, deliveries, gate, workers, bench, collection,
            )
        },
    )
}

/// Starts the threads, works, and joins them. If a thread can't be started, those that were started do their work
/// before the fault is returned. It waits for the threads that it joins and at the gate, and for nothing else.
fn work_in_scope<'s, E, R: Threads, G: Gate + Sync>(
    rt: &R,
    alloc: Global,
    scope: &Scope<'s, E>,
    board: &'s Board,
    deliveries: &'s [Block],
    gate: &'s G,
    workers: u32,
    bench: Bench,
    collection: Collection,
) -> Result<CollectingWorker, ThreadFault>
    requires new { IsNew board.now deliveries.now bench }
    requires share { (view_of bench).share ≡ 0 ∷ [] }
    requires collected { IsCollected (total_of board.now) (view_of bench) collection }
    ensures collected { IfOk result (λ all. IsCollectedOf board.now deliveries.now all) }
    ensures own { IfOk result (λ all. workers ≡ 1 → OwnAreTaken (view_of all.work.bench)) }
    ensures whole { IfOk result (λ all. IsWholeShare (view_of all.work.bench).share) }
    ensures alone { IfErr result (λ fault. fault ≡ NoWorker → 1 < workers) }
{
    let mut bench = bench;
    let mut handles: Vec<PromisedHandle<Result<Work, AllocError>, WorkContext<'s>>> = Vec::new(
        alloc,
    );
    let mut fault = None;
    for worker in 1..workers {
        if handles.reserve(1).is_err() {
            fault = Some(ThreadFault::Memory);
            break;
        }
        let own = bench.split(board);
        match scope.spawn_with(
            WorkContext {
                board,
                deliveries,
                worker,
            },
            move || -> Result<Work, AllocError>
                requires new { IsNew board.now deliveries.now own }
                requires share { (view_of own).share ≡ worker ∷ [] }
                ensures { IfOk result (IsWorkBy board.entry.now deliveries.entry.now worker) }
            { deliver_drawn(alloc, board, deliveries, gate, worker, own) },
        ) {
            Ok(handle) => handles.push_reserved(handle),
            Err(_) => {
                fault = Some(ThreadFault::NoWorker);
                break;
            }
        }
    }
    let mut all = deliver_and_collect(alloc, board, deliveries, gate, bench, collection);
    for handle in handles {
        all = with_other(board, deliveries, all, handle.join(rt));
    }
    if let Some(fault) = fault {
        return Err(fault);
    }
    match all {
        Ok(all) => Ok(all),
        Err(_) => Err(ThreadFault::Memory),
    }
}

/// Joins another worker's work to that of the calling thread. Err is want of memory, in the work of either or here.
fn with_other(
    board: &Board,
    deliveries: &[Block],
    first: Result<CollectingWorker, AllocError>,
    other: Result<Work, AllocError>,
) -> Result<CollectingWorker, AllocError>
    requires first { IfOk first (λ all. IsCollectedOf board.now deliveries.now all) }
    requires other { IfOk other (λ work. IsOtherWorkOf board.now deliveries.now work) }
    ensures collected { IfOk result (λ all. IsCollectedOf board.now deliveries.now all) }
    ensures share { (s t : List ℕ) → IfOk first (λ all. (view_of all.work.bench).share ≡ s)
        → IfOk other (λ work. (view_of work.bench).share ≡ t)
        → IfOk result (λ all. (view_of all.work.bench).share ≡ s ++ t) }
{
    let CollectingWorker { work, collection } = first?;
    let Work {
        bench: other_bench,
        replies: mut other_replies,
    } = other?;
    let Work { bench, mut replies } = work;
    replies.append(&mut other_replies)?;
    let bench = bench.fold(other_bench, board);
    Ok(CollectingWorker {
        work: Work { bench, replies },
        collection,
    })
}

//! A whole run: deliveries, workers, and the verdict.

ghost use Rattle.std.specs.Prelude.{◌≡◌, ◌≢◌, IfOk, IfErr, OnOk};
ghost use Rattle.vme_trace.specs.Verdict.{rules_in_force, verdict_by};
ghost use Rattle.vme_listing.specs.Recorded.{recorded_rows};
ghost use Rattle.vme_split.specs.Split.{Splits};
ghost use Rattle.vme_floor.specs.Claims.{AreAnswered, InRange, IsEarly, IsFault, IsRecorded};
ghost use Rattle.vme_floor.specs.Cuts.{JudgesCuts};
ghost use Rattle.vme_floor.specs.declared.report.RunFault.TheVariants.{Stray};

use crate::collector::{CollectingWorker, Collection};
use crate::finish_run::finish_run;
use crate::gate::Gate;
use crate::report::{Report, RunFault};
use crate::threads::{ThreadFault, work_together};
use crate::worker::Work;
use std::alloc::Global;
use std::sync::Wait;
use std::thread::Threads;
use vme_board::Board;
use vme_trace::Block;

/// The greatest number of blocks.
const MOST_BLOCKS: u32 = 4096;

/// The greatest number of deliveries.
const MOST_DELIVERIES: usize = 65536;

/// The greatest number of workers.
const MOST_WORKERS: u32 = 64;

/// Judges a recording from deliveries of its numbered blocks, in any order, each block once or more.
///
/// The workers share the deliveries: each draws one, passes the gate, and delivers a copy of the block to a board,
/// which files one block a number. The calling thread is worker 0, each other worker has a thread of its own. After
/// each of its deliveries worker 0 takes the number just filed, and the next numbers as far as they are filed, off the
/// board into a book, which joins them. After all have ended, the blocks left on the board are put into it too.
///
/// The recording and its verdict depend only on which blocks are filed: not on the order of the deliveries, on who
/// delivered what, or on the number of workers. The verdict is that of the recording by the definitions, and the
/// listing of the span is the listing of that recording. Where two deliveries of a number differ, either may be filed;
/// the answers say which.
///
/// `total`: 1 to 4,096 numbers; at most 65,536 deliveries; `workers`: 1 to 64. The call waits for the threads that it
/// starts and at the gate, and for nothing else; it returns if these do.
pub fn run<R: Threads + Wait + Sync, G: Gate + Sync>(
    rt: &R,
    alloc: Global,
    deliveries: &[Block],
    total: u32,
    workers: u32,
    gate: &G,
) -> Result<Report, RunFault>
    ensures accepted { OnOk result (InRange total deliveries.now workers) }

    // The answers, with a report, or with a number that is missing or torn.
    ensures answers { AreAnswered total deliveries.now result }

    // The recording is the joined content of the deliveries answered Filed, one for each number below the total, and
    // the span stands for it. The verdict is that of the recording.
    ensures recorded { IfOk result (λ r. IsRecorded total deliveries.now r.answers r.capture r.span) }
    ensures verdict { IfOk result (λ r. r.verdict ≡ verdict_by rules_in_force r.capture) }

    // The judged edges of the recording split into exactly the rows of its listing.
    ensures split { IfOk result (λ r. Splits r.capture r.verdict (recorded_rows r.capture)) }

    // How many blocks were taken before the threads were joined.
    ensures early { IfOk result (λ r. IsEarly total workers r.early) }

    // When each refusal is returned.
    ensures refusals { IfErr result (λ fault. IsFault total deliveries.now workers fault) }

    // The workers' benches account for all that the board holds, so `Stray` is never returned.
    ensures accounted { IfErr result (λ fault. fault ≢ Stray) }

    // If the deliveries are all blocks of a cut of a recording, in any order, each once or more, a report has that
    // recording and its verdict; there is none only for want of memory or of a thread.
    ensures cut { JudgesCuts total deliveries.now workers result }
{
    run_deliveries(rt, alloc, deliveries, total, workers, gate)
}

/// A run with the claims from which all claims of [`run`] follow.
fn run_deliveries<R: Threads + Wait + Sync, G: Gate + Sync>(
    rt: &R,
    alloc: Global,
    deliveries: &[Block],
    total: u32,
    workers: u32,
    gate: &G,
) -> Result<Report, RunFault>
    ensures accepted { OnOk result (InRange total deliveries.now workers) }
    ensures answers { AreAnswered total deliveries.now result }
    ensures recorded { IfOk result (λ r. IsRecorded total deliveries.now r.answers r.capture r.span) }
    ensures verdict { IfOk result (λ r. r.verdict ≡ verdict_by rules_in_force r.capture) }
    ensures early { IfOk result (λ r. IsEarly total workers r.early) }
    ensures refusals { IfErr result (λ fault. IsFault total deliveries.now workers fault) }
{
    if total == 0 || total > MOST_BLOCKS {
        return Err(RunFault::BadTotal);
    }
    if deliveries.len() > MOST_DELIVERIES {
        return Err(RunFault::BadDraws);
    }
    if workers == 0 || workers > MOST_WORKERS {
        return Err(RunFault::BadWorkers);
    }
    let Ok((board, bench)) = Board::new(alloc, total, deliveries.len() as u32) else {
        return Err(RunFault::Memory);
    };
    let Ok(collection) = Collection::new(alloc, total) else {
        return Err(RunFault::Memory);
    };
    match work_together(
        rt, alloc, &board, deliveries, gate, workers, bench, collection,
    ) {
        Ok(all) => {
            let CollectingWorker { work, collection } = all;
            let Work { bench, replies } = work;
            match board.close(alloc, bench) {
                Ok(closed) => finish_run(alloc, deliveries, total, replies, collection, closed),
                Err(_) => Err(RunFault::Memory),
            }
        }
        Err(ThreadFault::Memory) => Err(RunFault::Memory),
        Err(ThreadFault::NoWorker) => Err(RunFault::NoWorker),
    }
}

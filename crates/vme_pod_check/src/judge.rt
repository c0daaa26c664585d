//! The verdict on a recording by workers.

ghost use Rattle.std.specs.Prelude.{◌≡◌, ◌<◌, ◌≤◌, IfErr, IfOk, Err, Ok, Some, length};
ghost use Rattle.vme_trace.specs.Trace.{Trace};
ghost use Rattle.vme_trace.specs.Verdict.{rules_in_force, verdict_by};
ghost use Rattle.vme_summary.specs.Joins.{BlocksJoin, joined_trace};
ghost use Rattle.vme_stream.specs.Answers.{verdict_in_blocks};
ghost use Rattle.vme_pod_check.specs.Deliveries.{AreTakenFrom};
ghost use Rattle.vme_pod_check.specs.Judgements.{Finds, IsPassing, NeedsThreads};
ghost use Rattle.vme_pod_check.specs.Outcomes.{MayCome};
ghost use Rattle.vme_pod_check.specs.declared.unjudged.Unjudged.TheVariants.{NoWorker};

use crate::deliveries::deliveries_of;
use crate::unjudged::Unjudged;
use std::alloc::Global;
use std::sync::Wait;
use std::thread::Threads;
use vme_floor::{Open, Report, RunFault, run};
use vme_stream::Refusal;
use vme_trace::{Block, Capture, CutFault, Verdict};

/// How the recording is delivered.
#[derive(Clone, Copy, Debug, PartialEq, Eq)]
pub struct Plan {
    /// The number of steps of a block, 1 to 65,536.
    pub block: u32,
    /// The number of workers, 1 to 64.
    pub workers: u32,
    /// The seed of the order and the repetition of the deliveries. Without it they are in the order of their numbers.
    pub seed: Option<u64>,
}

/// The verdict on a recording that is cut into blocks, which workers deliver in the order of the plan. The answer
/// doesn't depend on the order, the repetition or the number of workers, unless memory runs out or a thread can't be
/// started. An error is either of these, or a recording of more than 4,096 blocks.
pub fn verdict_by_pods<R: Threads + Wait + Sync>(
    rt: &R,
    alloc: Global,
    capture: &Capture,
    plan: Plan,
) -> Result<Verdict, Unjudged>
    requires block { (1 ≤ plan.block) × (plan.block ≤ 65536) }
    requires workers { (1 ≤ plan.workers) × (plan.workers ≤ 64) }
    ensures exact { Finds result (verdict_in_blocks plan.block capture.now) }
    ensures alone { NeedsThreads plan.workers result }
{
    // Its contract says that the recording is well formed, so that the blocks join.
    let _ = capture.steps();
    match capture.cut(alloc, plan.block) {
        Ok(blocks) => verdict_on_blocks(rt, alloc, blocks, plan),
        Err(CutFault::TooManyBlocks) => Err(Unjudged::Refused(Refusal::TooManyBlocks)),
        Err(CutFault::BadSize) | Err(CutFault::Memory) => Err(Unjudged::Refused(Refusal::Memory)),
    }
}

/// The verdict on the recording that `blocks`, which join, make.
fn verdict_on_blocks<R: Threads + Wait + Sync>(
    rt: &R,
    alloc: Global,
    blocks: Vec<Block>,
    plan: Plan,
) -> Result<Verdict, Unjudged>
    requires numbered { AreTakenFrom blocks.items blocks.items }
    requires join { BlocksJoin blocks.items }
    requires count { (1 ≤ length blocks.items) × (length blocks.items ≤ 4096) }
    requires workers { (1 ≤ plan.workers) × (plan.workers ≤ 64) }
    ensures exact { (t : Trace) → joined_trace blocks.items ≡ Some t
        → Finds result (Ok (verdict_by rules_in_force t)) }
    ensures alone { NeedsThreads plan.workers result }
{
    let total = blocks.len() as u32;
    match deliveries_of(alloc, blocks, plan.seed) {
        Ok(deliveries) => {
            let outcome = run(rt, alloc, deliveries.as_slice(), total, plan.workers, &Open);
            verdict_of(outcome)
        }
        Err(_) => Err(Unjudged::Refused(Refusal::Memory)),
    }
}

/// The verdict of a report, or the reason that there is none, for a fault of the run.
fn verdict_of(outcome: Result<Report, RunFault>) -> Result<Verdict, Unjudged>
    requires { IfErr outcome MayCome }
    ensures exact { (v : Verdict) → IfOk outcome (λ report. report.verdict ≡ v)
        → Finds result (Ok v) }
    ensures alone { IfErr result (λ unjudged. unjudged ≡ NoWorker → outcome ≡ Err RunFault.NoWorker) }
{
    match outcome {
        Ok(report) => Ok(report.verdict),
        Err(fault) => Err(unjudged_by(fault)),
    }
}

/// The reason that there is no verdict, for a fault of the run.
fn unjudged_by(fault: RunFault) -> Unjudged
    requires { MayCome fault }
    ensures passing { IsPassing result }
    ensures alone { result ≡ NoWorker → fault ≡ RunFault.NoWorker }
{
    match fault {
        RunFault::NoWorker => Unjudged::NoWorker,
        RunFault::Memory => Unjudged::Refused(Refusal::Memory),
        // Each delivery of a number was answered that there was no memory.
        RunFault::Missing { .. } => Unjudged::Refused(Refusal::Memory),
        _ => unreachable!(),
    }
}

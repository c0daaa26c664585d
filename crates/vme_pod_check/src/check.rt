//! The check of one recording by workers.

ghost use Rattle.std.specs.Prelude.{◌≡◌, ◌≤◌, ◌↔◌, ℕ, suc, List, Option, Some};
ghost use Rattle.vme_stream.specs.Answers.{answer_of, judgement_of};
ghost use Rattle.vme_stream.specs.Ends.{WritesAnswerExactly};
ghost use Rattle.vme_pod_check.specs.Judgements.{ChecksByPods, Finds, NeedsThreads};
ghost use Rattle.vme_stream.specs.Inputs.{IsReading};

use crate::judge::{Plan, verdict_by_pods};
use crate::unjudged::Unjudged;
use std::alloc::Global;
use std::sync::Wait;
use std::thread::Threads;
use vme_stream::{capture_from, complain, tell_verdict};
use vme_trace::{Sink, Source, Verdict};

/// Judges by workers the recording that a binding makes of a dump, and writes its verdict to `out`, or why there is
/// none to `err`. The line and the exit status are those of a check, for every order, every repetition and every number
/// of workers; the status is 4 where there is no memory or a thread can't be started.
///
/// The binding is read, and then the dump. A failure of `err` is ignored.
pub fn check_by_pods<R: Threads + Wait + Sync, B: Source, D: Source, O: Sink, E: Sink>(
    rt: &R,
    alloc: Global,
    binding: &mut B,
    dump: &mut D,
    plan: Plan,
    out: &mut O,
    err: &mut E,
) -> u8
    requires block { (1 ≤ plan.block) × (plan.block ≤ 65536) }
    requires workers { (1 ≤ plan.workers) × (plan.workers ≤ 64) }
    ensures answer { ChecksByPods
        (B.reading binding.old, B.reading binding.new) (D.reading dump.old, D.reading dump.new) plan.block plan.workers
        (O.writing out.old, O.writing out.new) (E.writing err.old, E.writing err.new) result }
    ensures unwritten { (result ≡ 5) ↔ ((O.writing out.new).failures ≡ suc (O.writing out.old).failures) }

    // If the inputs are read whole, no write fails, and the status isn't 4, this is exactly the answer of a check.
    ensures exact { WritesAnswerExactly (λ b d. answer_of (Some b) (Some d) plan.block)
        (B.reading binding.old, B.reading binding.new) (D.reading dump.old, D.reading dump.new)
        (O.writing out.old, O.writing out.new) (E.writing err.old, E.writing err.new) result }
{
    answer(rt, alloc, binding, dump, plan, out, err)
}

/// Judges the inputs, tells the verdict or why there is none, and returns the status of the process.
fn answer<R: Threads + Wait + Sync, B: Source, D: Source, O: Sink, E: Sink>(
    rt: &R,
    alloc: Global,
    binding: &mut B,
    dump: &mut D,
    plan: Plan,
    out: &mut O,
    err: &mut E,
) -> u8
    requires block { (1 ≤ plan.block) × (plan.block ≤ 65536) }
    requires workers { (1 ≤ plan.workers) × (plan.workers ≤ 64) }
    ensures { ChecksByPods
        (B.reading binding.old, B.reading binding.new) (D.reading dump.old, D.reading dump.new) plan.block plan.workers
        (O.writing out.old, O.writing out.new) (E.writing err.old, E.writing err.new) result }
{
    match judge(rt, alloc, binding, dump, plan) {
        Ok(verdict) => tell_verdict(&verdict, out, err),
        Err(unjudged) => {
            complain(err, unjudged.line());
            unjudged.status()
        }
    }
}

/// The verdict on the recording that a binding makes of a dump, or the first reason that there is none.
fn judge<R: Threads + Wait + Sync, B: Source, D: Source>(
    rt: &R,
    alloc: Global,
    binding: &mut B,
    dump: &mut D,
    plan: Plan,
) -> Result<Verdict, Unjudged>
    requires block { (1 ≤ plan.block) × (plan.block ≤ 65536) }
    requires workers { (1 ≤ plan.workers) × (plan.workers ≤ 64) }
    ensures { (binding_bytes dump_bytes : Option (List ℕ))
        × IsReading (B.reading binding.old) (B.reading binding.new) binding_bytes
        × IsReading (D.reading dump.old) (D.reading dump.new) dump_bytes
        × Finds result (judgement_of binding_bytes dump_bytes plan.block) × NeedsThreads plan.workers result }
{
    match capture_from(alloc, binding, dump) {
        Ok(capture) => verdict_by_pods(rt, alloc, &capture, plan),
        Err(refusal) => Err(Unjudged::Refused(refusal)),
    }
}

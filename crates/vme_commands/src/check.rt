//! The check of one recording.

ghost use Rattle.std.specs.Prelude.{◌≡◌, ◌≤◌, ◌↔◌, ℕ, suc, List, Option, Some, None};
ghost use Rattle.vme_stream.specs.Answers.{AnswerGives, answer_of};
ghost use Rattle.vme_stream.specs.Ends.{Checks, WritesAnswerExactly};
ghost use Rattle.vme_stream.specs.Inputs.{IsReading};
ghost use Rattle.vme_trace.specs.WellFormed.{malformed_step};
ghost use Rattle.vme_commands.specs.Judged.{judged_in_blocks};
ghost use Rattle.vme_commands.specs.Settled.{ChecksSettled, settled_answer_of, settled_judgement};

use crate::judged_recording::judged_recording;
use crate::workers::Workers;
use std::alloc::Global;
use std::thread::Threads;
use vme_stream::{Refusal, tell_refusal, tell_verdict};
use vme_summary::Judge;
use vme_trace::{Sink, Source, Verdict};

/// Judges the recording that the binding makes of the dump, settled, i.e. deskewed, by `skew`, and writes its verdict
/// to `out`, or to `err` why there is none. Returns the exit status: 0 conforming, 1 broken, 2 unreadable or never
/// idle, 3 where an input is refused, 4 for want of memory, 5 where the verdict can't be written.
///
/// The binding is read, and then the dump, piece by piece. Neither the dump nor the recording is kept: the steps are
/// deskewed and judged as they are made, by one worker if `skew` is over 0. A recording that fills more than 4,096
/// blocks of `block` steps is refused, and the verdict is otherwise the same for each size. A failure of `err` is
/// ignored.
pub fn check<R: Threads + Sync, B: Source, D: Source, O: Sink, E: Sink>(
    rt: &R,
    alloc: Global,
    binding: &mut B,
    dump: &mut D,
    block: u32,
    workers: u32,
    skew: u64,
    out: &mut O,
    err: &mut E,
) -> u8
    requires block { (1 ≤ block) × (block ≤ 65536) }
    requires workers { (1 ≤ workers) × (workers ≤ 64) }
    ensures answer { ChecksSettled skew
        (B.reading binding.old, B.reading binding.new) (D.reading dump.old, D.reading dump.new) block
        (O.writing out.old, O.writing out.new) (E.writing err.old, E.writing err.new) result }

    // If `skew` is 0, the recording that the binding makes of the dump is judged as it is.
    ensures unsettled { skew ≡ 0 → Checks
        (B.reading binding.old, B.reading binding.new) (D.reading dump.old, D.reading dump.new) block
        (O.writing out.old, O.writing out.new) (E.writing err.old, E.writing err.new) result }
    ensures unwritten { (result ≡ 5) ↔ ((O.writing out.new).failures ≡ suc (O.writing out.old).failures) }

    // If both inputs are read whole, no write to `out` fails and memory suffices, the answer is exactly as defined.
    ensures exact { WritesAnswerExactly (λ b d. settled_answer_of skew (Some b) (Some d) block)
        (B.reading binding.old, B.reading binding.new) (D.reading dump.old, D.reading dump.new)
        (O.writing out.old, O.writing out.new) (E.writing err.old, E.writing err.new) result }
    ensures exact_unsettled { skew ≡ 0 → WritesAnswerExactly (λ b d. answer_of (Some b) (Some d) block)
        (B.reading binding.old, B.reading binding.new) (D.reading dump.old, D.reading dump.new)
        (O.writing out.old, O.writing out.new) (E.writing err.old, E.writing err.new) result }
{
    check_by(
        alloc,
        &Workers::new(rt, workers),
        binding,
        dump,
        block,
        skew,
        out,
        err,
    )
}

/// `check` by these workers, whose pieces may have any size. The answer doesn't depend on it.
pub fn check_by<R: Threads + Sync, B: Source, D: Source, O: Sink, E: Sink>(
    alloc: Global,
    workers: &Workers<'_, R>,
    binding: &mut B,
    dump: &mut D,
    block: u32,
    skew: u64,
    out: &mut O,
    err: &mut E,
) -> u8
    requires { (1 ≤ block) × (block ≤ 65536) }
    ensures { ChecksSettled skew
        (B.reading binding.old, B.reading binding.new) (D.reading dump.old, D.reading dump.new) block
        (O.writing out.old, O.writing out.new) (E.writing err.old, E.writing err.new) result }
{
    match judge(alloc, workers, binding, dump, block, skew) {
        Ok(verdict) => tell_verdict(&verdict, out, err),
        Err(refusal) => tell_refusal(&refusal, err),
    }
}

/// The verdict on the recording that the binding makes of the dump, deskewed by `skew`, or the first reason that there
/// is none.
#[inline(never)]
fn judge<R: Threads + Sync, B: Source, D: Source>(
    alloc: Global,
    workers: &Workers<'_, R>,
    binding: &mut B,
    dump: &mut D,
    block: u32,
    skew: u64,
) -> Result<Verdict, Refusal>
    requires { (1 ≤ block) × (block ≤ 65536) }
    ensures { (binding_bytes dump_bytes : Option (List ℕ))
        × IsReading (B.reading binding.old) (B.reading binding.new) binding_bytes
        × IsReading (D.reading dump.old) (D.reading dump.new) dump_bytes
        × AnswerGives (λ verdict. verdict) result (settled_judgement skew binding_bytes dump_bytes block) }
{
    let judge = judged_recording(alloc, workers, binding, dump, skew)?;
    verdict_of(alloc, judge, block)
}

/// The verdict on a recording whose steps were judged.
#[inline(never)]
fn verdict_of(alloc: Global, judge: Judge, block: u32) -> Result<Verdict, Refusal>
    requires { (1 ≤ block) × (block ≤ 65536) }
    ensures { malformed_step judge ≡ None → AnswerGives (λ verdict. verdict) result (judged_in_blocks block judge) }
{
    match judge.verdict(alloc, block) {
        Ok(verdict) => Ok(verdict),
        Err(why) => Err(Refusal::of_judging(why)),
    }
}

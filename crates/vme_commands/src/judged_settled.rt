//! The recording that a binding makes of a dump, deskewed by a skew, and judged as the dump is read.

ghost use Rattle.std.specs.Prelude.{◌≡◌, ◌≤◌, ℕ, List, Option, None, IfOk, length};
ghost use Rattle.vme_bind.specs.Capture.{limited};
ghost use Rattle.vme_stream.specs.Answers.{AnswerGives, dump_read, or_bad_binding, recording_by};
ghost use Rattle.vme_stream.specs.Inputs.{IsReading, longest_input};
ghost use Rattle.vme_trace.specs.WellFormed.{capture_limit, malformed_step};
ghost use Rattle.vme_commands.specs.Settled.{settled_read};
ghost use Rattle.vme_skew.specs.Settled.{settled_or};

use std::alloc::Global;
use std::marker::Brand;
use vme_bind::{Binding, DumpReader};
use vme_skew::{GhostSkew, SettlingVisitor};
use vme_stream::{Input, Refusal, binding_from, read_by};
use vme_summary::NoVerdict;
use vme_summary::chunk_judge::ChunkJudge;
use vme_summary::stream_judge::StreamJudge;
use vme_trace::{Source, StepVisitor};

/// The judge that took the recording that a binding makes of a dump, deskewed by `skew`, or the first reason that there
/// is none. The binding is read, and then the dump, piece by piece. Neither its text nor its steps are kept.
#[inline(never)]
pub(crate) fn judged_settled<B: Source, D: Source, J: ChunkJudge>(
    alloc: Global,
    piece: usize,
    binding: &mut B,
    dump: &mut D,
    skew: u64,
) -> Result<StreamJudge<J>, Refusal>
    requires { (1 ≤ piece) × (piece ≤ longest_input) }
    ensures gives { (binding_bytes dump_bytes : Option (List ℕ))
        × IsReading (B.reading binding.old) (B.reading binding.new) binding_bytes
        × IsReading (D.reading dump.old) (D.reading dump.new) dump_bytes
        × AnswerGives (λ w. w) result (settled_read skew binding_bytes dump_bytes) }
    ensures formed { IfOk result (λ w. malformed_step w ≡ None) }
    ensures short { IfOk result (λ w. length w.steps ≤ capture_limit) }
{
    judged_by_skew::<Brand, B, D, J>(alloc, piece, binding, dump, skew)
}

/// `judged_settled`, where the type `K` stands for `skew`.
fn judged_by_skew<K: GhostSkew, B: Source, D: Source, J: ChunkJudge>(
    alloc: Global,
    piece: usize,
    binding: &mut B,
    dump: &mut D,
    skew: u64,
) -> Result<StreamJudge<J>, Refusal>
    requires piece { (1 ≤ piece) × (piece ≤ longest_input) }
    requires skew { skew ≡ K.skew }
    ensures gives { (binding_bytes dump_bytes : Option (List ℕ))
        × IsReading (B.reading binding.old) (B.reading binding.new) binding_bytes
        × IsReading (D.reading dump.old) (D.reading dump.new) dump_bytes
        × AnswerGives (λ w. w) result (settled_read K.skew binding_bytes dump_bytes) }
    ensures formed { IfOk result (λ w. malformed_step w ≡ None) }
    ensures short { IfOk result (λ w. length w.steps ≤ capture_limit) }
{
    let bound = binding_from(alloc, binding)?;
    let lines = bound.lines();
    let stream_judge = StreamJudge::new(alloc, lines);
    let settling: SettlingVisitor<K, StreamJudge<J>> = SettlingVisitor::new(
        alloc,
        lines,
        skew,
        stream_judge,
    );
    let settled = taken_in_order(alloc, piece, &bound, dump, settling)?;
    settled_visitor(alloc, settled)
}

/// `visitor`, after it took the recording that a binding makes of a dump, which is read in order, `piece`
/// bytes at once.
fn taken_in_order<F: StepVisitor, D: Source>(
    alloc: Global,
    piece: usize,
    bound: &Binding,
    dump: &mut D,
    visitor: F,
) -> Result<F, Refusal>
    requires { (1 ≤ piece) × (piece ≤ longest_input) }
    ensures gives { (bytes : Option (List ℕ))
        × IsReading (D.reading dump.old) (D.reading dump.new) bytes
        × AnswerGives (λ w. F.recorded w) result (recording_by bound.now (dump_read bytes)) }
    ensures formed { IfOk result (λ w. malformed_step (F.recorded w) ≡ None) }
{
    let reader = DumpReader::new(bound, visitor);
    match read_by(
        alloc,
        dump,
        reader,
        piece,
        &|reader: DumpReader<'_, F>, bytes: &[u8]| reader.take(alloc, bytes),
    ) {
        Ok((reader, rest)) => match reader.finish(alloc, rest.as_slice()) {
            Ok(visitor) => Ok(visitor),
            Err(fault) => Err(Refusal::of_capture(fault)),
        },
        Err(fault) => Err(Refusal::of_input(Input::Dump, fault)),
    }
}

/// The visitor that took a deskewed recording, whose last group of steps ends here. The limit on steps counts those
/// before deskewing.
pub fn settled_visitor<K: GhostSkew, F: StepVisitor>(
    alloc: Global,
    settling: SettlingVisitor<K, F>,
) -> Result<F, Refusal>
    ensures gives { malformed_step settling ≡ None
        → AnswerGives (λ w. F.recorded w) result (settled_or K.skew (or_bad_binding (limited settling))) }
    ensures formed { malformed_step settling ≡ None → IfOk result (λ w. malformed_step (F.recorded w) ≡ None) }
    ensures short { malformed_step settling ≡ None
        → IfOk result (λ w. length (F.recorded w).steps ≤ capture_limit) }
{
    if settling.is_too_long() {
        return Err(Refusal::of_judging(NoVerdict::TooManySteps));
    }
    match settling.finish(alloc) {
        Ok(visitor) => Ok(visitor),
        Err(_) => Err(Refusal::Memory),
    }
}

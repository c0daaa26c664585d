//! The recording that a binding makes of a dump, judged as the dump is read.

ghost use Rattle.std.specs.Prelude.{◌≡◌, ◌≤◌, ℕ, List, Option, None, IfOk, length, take};
ghost use Rattle.vcd_read.specs.ByteConsumers.{ContinuesAs};
ghost use Rattle.vme_bind.specs.DumpReading.{dump_ahead};
ghost use Rattle.vme_bind.specs.TextCapture.{GivesBy};
ghost use Rattle.vme_stream.specs.Answers.{AnswerGives, recording_read};
ghost use Rattle.vme_stream.specs.Inputs.{IsReading};
ghost use Rattle.vme_trace.specs.WellFormed.{malformed_step};

use crate::workers::Workers;
use std::alloc::{AllocError, Global};
use std::thread::Threads;
use vcd_read::whole_tokens;
use vme_bind::{CaptureFault, DumpReader};
use vme_stream::{Input, Refusal, binding_from, read_by};
use vme_summary::chunk_judge::ChunkJudge;
use vme_summary::stream_judge::StreamJudge;
use vme_trace::Source;

/// The judge that took the recording that a binding makes of a dump, or the first reason that there is none. The
/// binding is read, and then the dump, piece by piece. None of its text is kept.
#[inline(never)]
pub(crate) fn judged_dump<R: Threads + Sync, B: Source, D: Source, J: ChunkJudge + Send>(
    alloc: Global,
    workers: &Workers<'_, R>,
    binding: &mut B,
    dump: &mut D,
) -> Result<StreamJudge<J>, Refusal>
    ensures gives { (binding_bytes dump_bytes : Option (List ℕ))
        × IsReading (B.reading binding.old) (B.reading binding.new) binding_bytes
        × IsReading (D.reading dump.old) (D.reading dump.new) dump_bytes
        × AnswerGives (λ w. w) result (recording_read binding_bytes dump_bytes) }
    ensures formed { IfOk result (λ w. malformed_step w ≡ None) }
{
    let bound = binding_from(alloc, binding)?;
    let reader = DumpReader::new(&bound, StreamJudge::new(alloc, bound.lines()));
    match read_by(
        alloc,
        dump,
        reader,
        workers.piece(),
        &|reader: DumpReader<'_, StreamJudge<J>>, bytes: &[u8]| take_by_workers(
            alloc, workers, reader, bytes,
        ),
    ) {
        Ok((reader, rest)) => match finish(alloc, workers, reader, rest.as_slice()) {
            Ok(stream_judge) => Ok(stream_judge),
            Err(fault) => Err(Refusal::of_capture(fault)),
        },
        Err(fault) => Err(Refusal::of_input(Input::Dump, fault)),
    }
}

/// Passes a prefix of `bytes` on to the reader of the dump, and returns its length. In the body nothing is passed on
/// until there are enough bytes to share. The workers read them.
fn take_by_workers<'b, R: Threads + Sync, J: ChunkJudge + Send>(
    alloc: Global,
    workers: &Workers<'_, R>,
    reader: DumpReader<'b, StreamJudge<J>>,
    bytes: &[u8],
) -> Result<(DumpReader<'b, StreamJudge<J>>, usize), AllocError>
    ensures within { IfOk result (λ made. made.1 ≤ length bytes.now) }
    ensures taken { IfOk result (λ made. ContinuesAs (dump_ahead reader.entry) (dump_ahead made.0)
        (take made.1 bytes.now)) }
{
    let count = whole_tokens(bytes);
    match reader {
        DumpReader::Body(text) if workers.want_more(bytes.len()) => {
            Ok((DumpReader::Body(text), 0))
        }
        DumpReader::Body(text) => match workers.read(alloc, text, &bytes[..count]) {
            Ok(text) => Ok((DumpReader::Body(text), count)),
            Err(fault) => Ok((DumpReader::failed(fault)?, count)),
        },
        other => other.take(alloc, bytes),
    }
}

/// The judge that took the recording of a dump, whose last bytes are `last`.
fn finish<R: Threads + Sync, J: ChunkJudge + Send>(
    alloc: Global,
    workers: &Workers<'_, R>,
    reader: DumpReader<'_, StreamJudge<J>>,
    last: &[u8],
) -> Result<StreamJudge<J>, CaptureFault>
    ensures { GivesBy (λ w. w) result (dump_ahead reader.entry last.now) }
{
    match reader {
        DumpReader::Body(text) => match workers.read(alloc, text, last) {
            Ok(text) => text.finish(alloc),
            Err(fault) => Err(fault),
        },
        other => other.finish(alloc, last),
    }
}

//! A piece of a dump that is read and judged by several workers.

ghost use Rattle.std.specs.Prelude.{◌≡◌, ◌≤◌, [], Result, drop, length, IfOk, IfSome};
ghost use Rattle.vme_trace.specs.Trace.{Trace};
ghost use Rattle.vcd_read.specs.Reading.{line_behind};
ghost use Rattle.vcd_read.specs.Tokens.{tokens_from};
ghost use Rattle.vme_bind.specs.TextCapture.{CaptureFailsBy};
ghost use Rattle.vme_bind.specs.TextPieces.{TextContinuesAs, outcome_ahead, text_reached};
ghost use Rattle.vme_bind.specs.SpeculativeReading.{with_recording};
ghost use Rattle.vme_bind.specs.declared.fault.CaptureFault.{CaptureFault as Why};
ghost use Rattle.vme_text_workers.specs.Cuts.{IsCutIn};
ghost use Rattle.vme_text_workers.specs.SpeculativeChunks.{AreAhead, AreTaken};

use crate::chunks::JudgedChunks;
use crate::cut::{DumpPiece, cut, cut_at_last_time, cut_at_time};
use crate::in_order::read_in_order;
use crate::joining::{JoinedPieces, join_in_order};
use crate::speculation::Speculation;
use crate::speculative::{
    levels_before_each, levels_to_read_again, read_each_speculatively, read_from,
};
use std::alloc::{AllocError, Global};
use std::thread::Threads;
use vcd_read::{FaultKind, VcdFault};
use vme_bind::{CaptureFault, SpeculativeChunk, SpeculativeReader, TextReader};
use vme_summary::chunk_judge::ChunkJudge;
use vme_summary::stream_judge::StreamJudge;
use vme_trace::StepVisitor;

/// Memory ran out.
fn want_of_memory() -> CaptureFault
    ensures { (answer : Result Trace Why) → CaptureFailsBy result answer }
{
    CaptureFault::Dump(VcdFault {
        line: 0,
        kind: FaultKind::Memory,
    })
}

/// Reads and judges each piece ahead of those before it: from the levels that likely hold before it, or, if the last
/// assumption was wrong, from those that a first pass over the pieces finds. The only error is want of memory.
fn read_each_ahead<R: Threads + Sync, J: ChunkJudge + Send>(
    rt: &R,
    alloc: Global,
    threads: usize,
    speculative: &SpeculativeReader,
    pieces: &[DumpPiece<'_>],
    speculation: &Speculation,
) -> Result<Vec<Option<(SpeculativeChunk, JudgedChunks<J>)>>, AllocError>
    ensures { IfOk result (λ all. AreAhead speculative.now.body.nets speculative.now.line_bits pieces.now all.items) }
{
    if speculation.is_wrong() {
        let levels = levels_before_each(rt, alloc, threads, speculative, pieces, speculation)?;
        return read_from(rt, alloc, threads, speculative, pieces, &levels);
    }
    read_each_speculatively(rt, alloc, threads, speculative, pieces)
}

/// Reads and judges each piece ahead of those before it, reads those again that were read from wrong levels, and joins
/// the pieces in order as far as they fit. Also returns how many pieces were joined. The only error is want of memory.
fn take_ahead<R: Threads + Sync, J: ChunkJudge + Send>(
    rt: &R,
    alloc: Global,
    threads: usize,
    speculative: SpeculativeReader,
    stream_judge: StreamJudge<J>,
    pieces: &[DumpPiece<'_>],
    speculation: &Speculation,
) -> Result<(TextReader<StreamJudge<J>>, usize), AllocError>
    ensures count { IfOk result (λ taken. taken.1 ≤ length pieces.now) }
    ensures taken { IfOk result (λ taken. AreTaken pieces.now (with_recording stream_judge speculative)
        (text_reached taken.0) (drop taken.1 pieces.now)) }
{
    let all = read_each_ahead(rt, alloc, threads, &speculative, pieces, speculation)?;
    let levels = levels_to_read_again(alloc, &speculative, &all)?;
    if levels.iter().any(|one| one.is_some()) {
        speculation.note(true);
    }
    let again = read_from(rt, alloc, threads, &speculative, pieces, &levels)?;
    let JoinedPieces {
        speculative,
        stream_judge,
        count,
    } = join_in_order(alloc, speculative, stream_judge, pieces, all, again)?;
    Ok((speculative.with_step_visitor(stream_judge), count))
}

/// Takes the next `piece` of the text, which ends after a space, or where the text does. At most `workers` threads read
/// and judge its parts. The first part that doesn't fit, and all parts after it, are read in order.
fn read_body<R: Threads + Sync, J: ChunkJudge + Send>(
    rt: &R,
    alloc: Global,
    text: TextReader<StreamJudge<J>>,
    piece: &[u8],
    workers: u32,
    speculation: &Speculation,
) -> Result<TextReader<StreamJudge<J>>, CaptureFault>
    ensures line { IfOk result (λ text'. (text_reached text').body.line
        ≡ line_behind (text_reached text).body.line piece.now) }
    ensures rest { TextContinuesAs (λ text'. outcome_ahead (text_reached text') []) result
        (outcome_ahead (text_reached text) (tokens_from (text_reached text).body.line piece.now)) }
{
    let (speculative, stream_judge) = text.into_speculative();
    let Ok(pieces) = cut(alloc, piece, speculative.line(), workers) else {
        return Err(want_of_memory());
    };
    match take_ahead(
        rt,
        alloc,
        workers as usize,
        speculative,
        stream_judge,
        &pieces,
        speculation,
    ) {
        Ok((text, count)) => read_in_order(alloc, text, &pieces[count..]),
        Err(_) => Err(want_of_memory()),
    }
}

/// `piece` cut at its last time. If an item or a dump section is open before it, no part of it would fit, and it isn't
/// cut.
fn cut_to_read_ahead<'a, F: StepVisitor>(
    text: &TextReader<F>,
    piece: &'a [u8],
) -> Option<(&'a [u8], &'a [u8])>
    ensures { IfSome result (λ cut. IsCutIn piece.now cut.0.now cut.1.now) }
{
    if text.is_between_items() {
        cut_at_last_time(piece)
    } else {
        None
    }
}

/// As `read_body`, but what follows the last time is read in order, since it may end within an item.
fn read_up_to_last_time<R: Threads + Sync, J: ChunkJudge + Send>(
    rt: &R,
    alloc: Global,
    text: TextReader<StreamJudge<J>>,
    piece: &[u8],
    workers: u32,
    speculation: &Speculation,
) -> Result<TextReader<StreamJudge<J>>, CaptureFault>
    ensures line { IfOk result (λ text'. (text_reached text').body.line
        ≡ line_behind (text_reached text).body.line piece.now) }
    ensures rest { TextContinuesAs (λ text'. outcome_ahead (text_reached text') []) result
        (outcome_ahead (text_reached text) (tokens_from (text_reached text).body.line piece.now)) }
{
    let Some((front, behind)) = cut_to_read_ahead(&text, piece) else {
        return text.read(alloc, piece);
    };
    let text = read_body(rt, alloc, text, front, workers, speculation)?;
    text.read(alloc, behind)
}

/// Takes the next `piece` of the text, which ends after a space, or where the text does. From its first time to its
/// last it is read and judged by `workers` workers, each in a thread of its own, as far as its parts fit together. All
/// else is read in order. `speculation` is the one that the pieces before were read with, or a new one: it changes no
/// answer. Errors are those of `TextReader::read`. It is never inlined, so that a caller with one worker, which reads
/// in order without it, takes no room for it.
#[inline(never)]
pub fn read_by_workers<R: Threads + Sync, J: ChunkJudge + Send>(
    rt: &R,
    alloc: Global,
    text: TextReader<StreamJudge<J>>,
    piece: &[u8],
    workers: u32,
    speculation: &Speculation,
) -> Result<TextReader<StreamJudge<J>>, CaptureFault>
    ensures line { IfOk result (λ text'. (text_reached text').body.line
        ≡ line_behind (text_reached text).body.line piece.now) }
    ensures rest { TextContinuesAs (λ text'. outcome_ahead (text_reached text') []) result
        (outcome_ahead (text_reached text) (tokens_from (text_reached text).body.line piece.now)) }
{
    let Some((front, behind)) = cut_at_time(piece, 0) else {
        return text.read(alloc, piece);
    };
    let text = text.read(alloc, front)?;
    read_up_to_last_time(rt, alloc, text, behind, workers, speculation)
}

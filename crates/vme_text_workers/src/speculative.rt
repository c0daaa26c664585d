//! Pieces that are read ahead of those before them, and judged as they are read.

ghost use Rattle.std.specs.Prelude.{◌≡◌, ◌<◌, length, slice_get, IfOk, IfSome};
ghost use Rattle.vme_trace.specs.LineNumbers.{line_count};
ghost use Rattle.vme_text_workers.specs.SpeculativeChunks.{AreAhead, AreWhole, IsAheadAt, IsJudgedAhead};

use crate::chunks::{ChunkBuffer, JudgedChunks};
use crate::cut::{DumpPiece, cut_at_time};
use crate::detached::map_places;
use crate::speculation::Speculation;
use std::alloc::{AllocError, Global};
use std::thread::Threads;
use vme_bind::{SpeculativeChunk, SpeculativeReader};
use vme_summary::StepDiscarder;
use vme_summary::chunk_judge::ChunkJudge;
use vme_trace::Lines;

/// How many bytes before a piece are looked at for the levels that it begins with.
const LOOK_BACK: usize = 16_384;

/// The last bytes of a piece, from where a line begins with a time.
fn last_lines(bytes: &[u8]) -> Option<&[u8]> {
    if bytes.len() <= LOOK_BACK {
        return Some(bytes);
    }
    let (_, last) = cut_at_time(bytes, bytes.len() - LOOK_BACK)?;
    Some(last)
}

/// What a piece does to the levels, read from the levels before all pieces. `None` where
/// `SpeculativeReader::read_ahead` gives `None`.
fn read_levels(
    alloc: Global,
    speculative: &SpeculativeReader,
    bytes: &[u8],
    line: u64,
) -> Option<SpeculativeChunk> {
    let now = speculative.now();
    let (ahead, _) = speculative.read_ahead(alloc, bytes, line, now, StepDiscarder::new(now))?;
    Some(ahead)
}

/// The levels that likely hold after a piece: those to which its last lines of text lead, from the levels before all
/// pieces. A bus line that doesn't change in that text is assumed to have its level before all pieces.
fn likely_after(alloc: Global, speculative: &SpeculativeReader, piece: DumpPiece<'_>) -> Lines
    ensures { length result.levels ≡ line_count }
{
    let now = *speculative.now();
    let Some(bytes) = last_lines(piece.bytes) else {
        return now;
    };
    match read_levels(alloc, speculative, bytes, piece.line) {
        Some(ahead) => *ahead.levels(),
        None => now,
    }
}

/// Reads a piece ahead, from `levels`, and judges it. `None` where `SpeculativeReader::read_ahead` gives `None`, and
/// for want of memory.
fn read_ahead<J: ChunkJudge>(
    alloc: Global,
    speculative: &SpeculativeReader,
    piece: DumpPiece<'_>,
    levels: &Lines,
) -> Option<(SpeculativeChunk, JudgedChunks<J>)>
    requires { length levels.now.levels ≡ line_count }
    ensures { IfSome result (λ ahead.
        IsJudgedAhead speculative.now.body.nets speculative.now.line_bits piece.entry.bytes.now ahead.1 ahead.0) }
{
    let chunks = ChunkBuffer::new(alloc, levels);
    let (ahead, chunks) = speculative.read_ahead(alloc, piece.bytes, piece.line, levels, chunks)?;
    match chunks.finish(alloc) {
        Ok(chunks) => Some((ahead, chunks)),
        Err(_) => None,
    }
}

/// Reads each piece ahead from the levels that likely hold before it, by `threads` threads.
pub(crate) fn read_each_speculatively<R: Threads + Sync, J: ChunkJudge + Send>(
    rt: &R,
    alloc: Global,
    threads: usize,
    speculative: &SpeculativeReader,
    pieces: &[DumpPiece<'_>],
) -> Result<Vec<Option<(SpeculativeChunk, JudgedChunks<J>)>>, AllocError>
    ensures { IfOk result (λ all. AreAhead speculative.now.body.nets speculative.now.line_bits pieces.now all.items) }
{
    let all = map_places(
        rt,
        alloc,
        threads,
        pieces.len(),
        &|place: usize| -> Option<(SpeculativeChunk, JudgedChunks<J>)>
            requires { place < length pieces.now }
            ensures { IsAheadAt speculative.entry.now pieces.entry.now place result }
        {
            let levels = if place == 0 {
                *speculative.now()
            } else {
                likely_after(alloc, speculative, pieces[place - 1])
            };
            read_ahead(alloc, speculative, pieces[place], &levels)
        },
    )?;
    Ok(all)
}

/// The levels after a piece that was read ahead, if `before` are the levels before it. `None` if they are of a
/// backplane with another number of slots.
fn levels_after_piece(ahead: &SpeculativeChunk, before: &Lines) -> Option<Lines>
    requires { length before.now.levels ≡ line_count }
    ensures { IfSome result (λ levels. length levels.levels ≡ line_count) }
{
    if ahead.from().slots() != before.slots() {
        return None;
    }
    Some(ahead.levels_at_end(before))
}

/// The levels before each piece, by a first pass of `threads` threads, which reads what the pieces do to the lines.
/// They end with the first piece that can't be read ahead: the levels after it aren't known. Whether an assumption
/// would have been wrong is noted. The only error is want of memory.
pub(crate) fn levels_before_each<R: Threads + Sync>(
    rt: &R,
    alloc: Global,
    threads: usize,
    speculative: &SpeculativeReader,
    pieces: &[DumpPiece<'_>],
    speculation: &Speculation,
) -> Result<Vec<Option<Lines>>, AllocError>
    ensures { IfOk result (λ levels. AreWhole levels.items) }
{
    let read = map_places(
        rt,
        alloc,
        threads,
        pieces.len().saturating_sub(1),
        &|place: usize| -> Option<(SpeculativeChunk, Lines)>
            requires { place < length pieces.now }
        {
            let piece = pieces[place];
            let ahead = read_levels(alloc, speculative, piece.bytes, piece.line)?;
            Some((ahead, likely_after(alloc, speculative, piece)))
        },
    )?;
    let mut levels = Vec::new(alloc);
    let mut before = *speculative.now();
    let mut wrong = false;
    levels.push(Some(before))?;
    for one in &read {
        let Some((ahead, likely)) = one else {
            break;
        };
        let Some(next) = levels_after_piece(ahead, &before) else {
            break;
        };
        levels.push(Some(next))?;
        wrong = wrong || *likely != next;
        before = next;
    }
    speculation.note(wrong);
    Ok(levels)
}

/// The levels from which each piece is to be read again: the right ones before it, if it was read from others. They end
/// before the first piece that wasn't read ahead. The only error is want of memory.
pub(crate) fn levels_to_read_again<J: ChunkJudge>(
    alloc: Global,
    speculative: &SpeculativeReader,
    all: &[Option<(SpeculativeChunk, JudgedChunks<J>)>],
) -> Result<Vec<Option<Lines>>, AllocError>
    ensures { IfOk result (λ levels. AreWhole levels.items) }
{
    let mut again = Vec::new(alloc);
    let mut before = *speculative.now();
    for one in all {
        let Some((ahead, _)) = one else {
            break;
        };
        let Some(next) = levels_after_piece(ahead, &before) else {
            break;
        };
        again.push(if *ahead.from() == before {
            None
        } else {
            Some(before)
        })?;
        before = next;
    }
    Ok(again)
}

/// Reads each piece from its levels, by `threads` threads. A piece without levels isn't read.
pub(crate) fn read_from<R: Threads + Sync, J: ChunkJudge + Send>(
    rt: &R,
    alloc: Global,
    threads: usize,
    speculative: &SpeculativeReader,
    pieces: &[DumpPiece<'_>],
    levels: &[Option<Lines>],
) -> Result<Vec<Option<(SpeculativeChunk, JudgedChunks<J>)>>, AllocError>
    requires { AreWhole levels.now }
    ensures { IfOk result (λ all. AreAhead speculative.now.body.nets speculative.now.line_bits pieces.now all.items) }
{
    if levels.iter().all(|one| one.is_none()) {
        return Ok(Vec::new(alloc));
    }
    let all = map_places(
        rt,
        alloc,
        threads,
        pieces.len(),
        &|place: usize| -> Option<(SpeculativeChunk, JudgedChunks<J>)>
            requires { (place < length pieces.now) × AreWhole levels.now }
            ensures { IsAheadAt speculative.entry.now pieces.entry.now place result }
        {
            if place >= levels.len() {
                return None;
            }
            match &levels[place] {
                Some(before) => read_ahead(alloc, speculative, pieces[place], before),
                None => None,
            }
        },
    )?;
    Ok(all)
}

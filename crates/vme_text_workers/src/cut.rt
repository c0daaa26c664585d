//! A text that is cut into pieces where they can be read by themselves.

ghost use Rattle.std.specs.Prelude.{◌≡◌, ◌≤◌, ◌<◌, length, IfOk, IfSome};
ghost use Rattle.vme_text_workers.specs.Cuts.{ArePiecesOf, IsCutIn};

use memchr::{memchr, memrchr};
use std::alloc::{AllocError, Global};
use vcd_read::{line_feeds, whole_tokens};

/// How many pieces of a text there are for each worker, at most.
const PIECES_A_WORKER: u32 = 4;

/// A piece of a text.
#[derive(Clone, Copy)]
pub(crate) struct DumpPiece<'t> {
    /// Its bytes.
    pub bytes: &'t [u8],
    /// The number of the line that it begins on, from 1.
    pub line: u64,
}

/// The first index after `from` at which a line begins with a time, directly after a line feed.
fn time_from(text: &[u8], from: usize) -> Option<usize>
    ensures { IfSome result (λ place. place < length text.now) }
{
    let mut at = from;
    while at < text.len() {
        at += memchr(b'\n', &text[at..])? + 1;
        if at < text.len() && text[at] == b'#' {
            return Some(at);
        }
    }
    None
}

/// The last index at which a line begins with a time, directly after a line feed.
fn last_time(text: &[u8]) -> Option<usize>
    ensures { IfSome result (λ place. place < length text.now) }
{
    let mut end = text.len();
    while let Some(place) = memrchr(b'\n', &text[..end]) {
        if place + 1 < text.len() && text[place + 1] == b'#' {
            return Some(place + 1);
        }
        end = place;
    }
    None
}

/// `text` cut in two after the last space before `place`.
fn cut_before(text: &[u8], place: usize) -> (&[u8], &[u8])
    requires { place ≤ length text.now }
    ensures { IsCutIn text.now result.0.now result.1.now }
{
    text.split_at(whole_tokens(&text[..place]))
}

/// `text` cut in two before the first line, after index `from`, that begins with a time.
pub(crate) fn cut_at_time(text: &[u8], from: usize) -> Option<(&[u8], &[u8])>
    ensures { IfSome result (λ cut. IsCutIn text.now cut.0.now cut.1.now) }
{
    let place = time_from(text, from)?;
    Some(cut_before(text, place))
}

/// `text` cut in two before the last line that begins with a time.
pub(crate) fn cut_at_last_time(text: &[u8]) -> Option<(&[u8], &[u8])>
    ensures { IfSome result (λ cut. IsCutIn text.now cut.0.now cut.1.now) }
{
    let place = last_time(text)?;
    Some(cut_before(text, place))
}

/// How long the next piece is to be, after the `before` pieces that were cut off. `share` is each worker's share of the
/// text: its first piece is half of it, its second a quarter, and the others an eighth. So all workers begin with long
/// pieces, and end with short ones.
fn piece_size(share: usize, workers: usize, before: usize) -> usize {
    if before < workers {
        share / 2
    } else if before < workers.saturating_mul(2) {
        share / 4
    } else {
        share / 8
    }
}

/// `text`, which begins on line `line`, cut into pieces for `workers` workers, the longest first. Each but the first
/// begins with a time.
pub(crate) fn cut<'t>(
    alloc: Global,
    text: &'t [u8],
    line: u64,
    workers: u32,
) -> Result<Vec<DumpPiece<'t>>, AllocError>
    ensures { IfOk result (λ pieces. ArePiecesOf text.now pieces.items) }
{
    let share = text.len() / (workers as usize).max(1);
    let mut pieces = Vec::new(alloc);
    let mut left = text;
    let mut line = line;
    for _ in 1..workers.saturating_mul(PIECES_A_WORKER) {
        let size = piece_size(share, workers as usize, pieces.len());
        let Some((bytes, behind)) = cut_at_time(left, size) else {
            break;
        };
        pieces.push(DumpPiece { bytes, line })?;
        line = line.saturating_add(line_feeds(bytes));
        left = behind;
    }
    pieces.push(DumpPiece { bytes: left, line })?;
    Ok(pieces)
}

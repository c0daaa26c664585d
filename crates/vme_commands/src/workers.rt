//! The workers that read and judge a dump.

ghost use Rattle.std.specs.Prelude.{◌≡◌, ◌≤◌, [], IfOk};
ghost use Rattle.vcd_read.specs.Reading.{line_behind};
ghost use Rattle.vcd_read.specs.Tokens.{tokens_from};
ghost use Rattle.vme_bind.specs.TextPieces.{TextContinuesAs, outcome_ahead, text_reached};
ghost use Rattle.vme_stream.specs.Inputs.{longest_input};

use std::alloc::Global;
use std::thread::Threads;
use vme_bind::{CaptureFault, TextReader};
use vme_summary::chunk_judge::ChunkJudge;
use vme_summary::stream_judge::StreamJudge;
use vme_text_workers::{Speculation, read_by_workers};

/// How many bytes of a dump one worker is given at once. It is given more where the definitions or a word need more.
const PIECE: usize = 262_144;

/// How many bytes several workers are given first. Those of them after the definitions are judged by one worker.
const FRONT: usize = 65_536;

/// How many bytes each of several workers is given at once after those.
const SHARE: usize = 1_048_576;

/// How many workers read and judge a dump, and in which pieces it is read. The answers depend on neither.
#[derive(Drop)]
pub struct Workers<'r, R: Threads + Sync> {
    rt: &'r R,
    count: u32,
    /// How many bytes are given at once, at least.
    piece: usize,
    /// How many bytes each of several workers is given at once.
    share: usize,
    /// Whether the levels before the pieces of several workers were assumed wrongly.
    speculation: Speculation,
    ghost piece_in_range: { (1 ≤ piece) × (piece ≤ longest_input) },
}

impl<'r, R: Threads + Sync> Workers<'r, R> {
    /// `count` workers.
    pub fn new(rt: &'r R, count: u32) -> Workers<'r, R> {
        let piece = if count > 1 { FRONT } else { PIECE };
        Workers::with_pieces(rt, count, piece, SHARE)
    }

    /// `count` workers, which are given at least `piece` bytes at once, and `share` bytes for each of several workers.
    pub fn with_pieces(rt: &'r R, count: u32, piece: usize, share: usize) -> Workers<'r, R>
        requires { (1 ≤ piece) × (piece ≤ longest_input) }
    {
        Workers {
            rt,
            count,
            piece,
            share,
            speculation: Speculation::new(),
        }
    }

    /// How many bytes are given at once, at least.
    pub fn piece(&self) -> usize
        ensures { (1 ≤ result) × (result ≤ longest_input) }
    {
        self.piece
    }

    /// Whether `len` bytes of a body are too few to share among the workers.
    pub fn want_more(&self, len: usize) -> bool {
        self.count > 1 && len < self.share.saturating_mul(self.count as usize)
    }

    /// Reads the next piece of a dump, which ends after white space, or where the dump does. A single worker reads it
    /// in order, without a thread. It fails if a fault of the dump is met, or if memory runs out.
    pub fn read<J: ChunkJudge + Send>(
        &self,
        alloc: Global,
        text: TextReader<StreamJudge<J>>,
        piece: &[u8],
    ) -> Result<TextReader<StreamJudge<J>>, CaptureFault>
        ensures line { IfOk result (λ next. (text_reached next).body.line
            ≡ line_behind (text_reached text).body.line piece.now) }
        ensures rest { TextContinuesAs (λ next. outcome_ahead (text_reached next) []) result
            (outcome_ahead (text_reached text) (tokens_from (text_reached text).body.line piece.now)) }
    {
        if self.count <= 1 {
            return text.read(alloc, piece);
        }
        read_by_workers(self.rt, alloc, text, piece, self.count, &self.speculation)
    }
}

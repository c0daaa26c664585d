//! A part of a recording that is judged in chunks of steps.

ghost use Rattle.std.specs.Prelude.{◌≡◌, [], IfOk, OnOk};
ghost use Rattle.vme_trace.specs.Followed.{with_steps};
ghost use Rattle.vme_trace.specs.Trace.{levels_after};

use std::alloc::{AllocError, Global};
use std::marker::Model;
use vme_summary::JudgedChunk;
use vme_summary::chunk_judge::ChunkJudge;
use vme_summary::stream_judge::StreamJudge;
use vme_trace::{Lines, Step, StepVisitor};

/// How many steps are judged at once.
const AT_ONCE: usize = 16_384;

/// The steps of a part, judged in chunks. The steps themselves aren't kept. Contracts see a recording: the levels
/// before the steps, and the steps.
#[derive(Drop)]
pub(crate) struct JudgedChunks<J: ChunkJudge> {
    opening: Lines,
    chunks: Vec<JudgedChunk<J>>,
}

impl<J: ChunkJudge> Model for JudgedChunks<J> {
    ghost use Rattle.vme_trace.specs.Trace.{Trace};
    ghost use Rattle.vme_text_workers.specs.Chunks.{Follow, steps_in};

    ghost Value = { Trace };

    ghost view = { λ r. record { opening = r.opening; steps = steps_in r.chunks.items } };

    ghost invariant = { λ r. Follow r.opening r.chunks.items };
}

/// The steps of a part as they come: the chunks that were judged, and the steps after them. Contracts see a recording.
#[derive(Drop)]
pub(crate) struct ChunkBuffer<J: ChunkJudge> {
    opening: Lines,
    chunks: Vec<JudgedChunk<J>>,
    /// The levels after the chunks.
    left: Lines,
    /// The steps after the chunks, which aren't judged yet.
    waiting: Vec<Step>,
}

impl<J: ChunkJudge> Model for ChunkBuffer<J> {
    ghost use Rattle.std.specs.Prelude.{◌++◌};
    ghost use Rattle.vme_trace.specs.Trace.{Trace};
    ghost use Rattle.vme_text_workers.specs.Chunks.{AreUnderway, steps_in};

    ghost Value = { Trace };

    ghost view = { λ r. record { opening = r.opening; steps = steps_in r.chunks.items ++ r.waiting.items } };

    ghost invariant = { λ r. AreUnderway r.opening r.chunks.items r.left };
}

impl<J: ChunkJudge> ChunkBuffer<J> {
    /// The buffer before the first step, where the levels are `opening`.
    pub fn new(alloc: Global, opening: &Lines) -> ChunkBuffer<J>
        ensures { result ≡ record { opening = opening.now; steps = [] } }
    {
        ChunkBuffer {
            opening: *opening,
            chunks: Vec::new(alloc),
            left: *opening,
            waiting: Vec::new(alloc),
        }
    }

    /// Judges the waiting steps as one chunk. Few steps lead to this call. The only error is want of memory.
    #[cold]
    #[inline(never)]
    fn judge(&mut self, alloc: Global) -> Result<(), AllocError>
        ensures { OnOk result (self.new ≡ self.old) }
    {
        let chunk = JudgedChunk::of(alloc, &self.left, &self.waiting)?;
        let left = *chunk.left();
        self.chunks.push(chunk)?;
        self.left = left;
        self.waiting.clear();
        Ok(())
    }

    /// Judges the waiting steps, once all steps came. The only error is want of memory.
    #[inline(never)]
    pub fn finish(self, alloc: Global) -> Result<JudgedChunks<J>, AllocError>
        ensures { IfOk result (λ judged. judged ≡ self) }
    {
        let ChunkBuffer {
            opening,
            mut chunks,
            left,
            waiting,
        } = self;
        chunks.push(JudgedChunk::of(alloc, &left, &waiting)?)?;
        Ok(JudgedChunks { opening, chunks })
    }
}

impl<J: ChunkJudge> StepVisitor for ChunkBuffer<J> {
    ghost recorded = { λ chunks. chunks };

    fn open(&mut self, opening: &Lines) {
        self.opening = *opening;
        self.chunks.clear();
        self.left = *opening;
        self.waiting.clear();
    }

    #[inline(always)]
    fn step(&mut self, alloc: Global, step: Step) -> Result<(), AllocError> {
        if self.waiting.len() == self.waiting.capacity() {
            self.waiting.reserve(1)?;
        }
        self.waiting.push_reserved(step);
        if self.waiting.len() >= AT_ONCE {
            self.judge(alloc)?;
        }
        Ok(())
    }
}

impl<J: ChunkJudge> JudgedChunks<J> {
    /// Passes the judged steps to `stream_judge`, after those that it has. The only error is want of memory.
    pub fn pass(
        self,
        alloc: Global,
        stream_judge: StreamJudge<J>,
    ) -> Result<StreamJudge<J>, AllocError>
        requires { self.opening ≡ levels_after stream_judge.opening stream_judge.steps }
        ensures { IfOk result (λ passed. passed ≡ with_steps stream_judge self.steps) }
    {
        let mut stream_judge = stream_judge;
        for chunk in self.chunks {
            stream_judge.pass(alloc, chunk)?;
        }
        Ok(stream_judge)
    }
}

//! The verdict on a recording, and writing it.

ghost use Rattle.std.specs.Prelude.{◌≡◌, ◌≤◌, Ok};
ghost use Rattle.vme_stream.specs.Answers.{AnswerGives, answer_by, verdict_in_blocks};
ghost use Rattle.vme_stream.specs.Ends.{Ends};

use crate::output::write_answer;
use crate::refusal::Refusal;
use crate::text::{verdict_line, verdict_status};
use std::alloc::Global;
use vme_summary::verdict_by_blocks;
use vme_trace::{Capture, CutFault, Sink, Verdict};

/// The verdict on a recording, which is judged in blocks of `block` steps. It fails if there are more than 4,096 blocks
/// or memory runs out.
pub fn verdict_on(alloc: Global, capture: &Capture, block: u32) -> Result<Verdict, Refusal>
    requires { (1 ≤ block) × (block ≤ 65536) }
    ensures { AnswerGives (λ verdict. verdict) result (verdict_in_blocks block capture.now) }
{
    match verdict_by_blocks(alloc, capture, block) {
        Ok(verdict) => Ok(verdict),
        Err(CutFault::TooManyBlocks) => Err(Refusal::TooManyBlocks),
        Err(CutFault::BadSize) | Err(CutFault::Memory) => Err(Refusal::Memory),
    }
}

/// Writes the line of `verdict` to `out`. If that fails, writes to `err` that it can't be written. Returns the exit
/// status: that of the verdict, or 5.
pub fn tell_verdict<O: Sink, E: Sink>(verdict: &Verdict, out: &mut O, err: &mut E) -> u8
    ensures { Ends (answer_by (Ok verdict.now))
        (O.writing out.old, O.writing out.new) (E.writing err.old, E.writing err.new) result }
{
    let line = verdict_line(verdict);
    write_answer(line.as_bytes(), verdict_status(verdict), out, err)
}

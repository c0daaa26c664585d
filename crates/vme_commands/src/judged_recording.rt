//! The recording that a binding makes of a dump, judged as the dump is read, by workers or deskewed.

ghost use Rattle.std.specs.Prelude.{◌≡◌, ℕ, List, Option, None, IfOk};
ghost use Rattle.vme_stream.specs.Inputs.{IsReading};
ghost use Rattle.vme_trace.specs.WellFormed.{malformed_step};
ghost use Rattle.vme_commands.specs.Judged.{GivesUnlimited};
ghost use Rattle.vme_commands.specs.Settled.{settled_read};

use crate::judged_dump::judged_dump;
use crate::judged_settled::judged_settled;
use crate::workers::Workers;
use std::alloc::Global;
use std::thread::Threads;
use vme_stream::Refusal;
use vme_summary::chunk_judge::ChunkJudge;
use vme_summary::stream_judge::StreamJudge;
use vme_trace::Source;

/// The judge that took the recording that a binding makes of a dump, deskewed by `skew`, or the first reason that there
/// is none. One worker deskews; without a skew all of them read. A judge may have taken a recording that is too long.
pub(crate) fn judged_recording<R: Threads + Sync, B: Source, D: Source, J: ChunkJudge + Send>(
    alloc: Global,
    workers: &Workers<'_, R>,
    binding: &mut B,
    dump: &mut D,
    skew: u64,
) -> Result<StreamJudge<J>, Refusal>
    ensures gives { (binding_bytes dump_bytes : Option (List ℕ))
        × IsReading (B.reading binding.old) (B.reading binding.new) binding_bytes
        × IsReading (D.reading dump.old) (D.reading dump.new) dump_bytes
        × GivesUnlimited result (settled_read skew binding_bytes dump_bytes) }
    ensures formed { IfOk result (λ w. malformed_step w ≡ None) }
{
    if skew == 0 {
        judged_dump(alloc, workers, binding, dump)
    } else {
        judged_settled(alloc, workers.piece(), binding, dump, skew)
    }
}

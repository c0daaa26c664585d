//! One part joined from several.

ghost use Rattle.std.specs.Prelude.{map};
ghost use Rattle.vme_part_format.specs.Bounds.{FitsPart};
ghost use Rattle.vme_part_format.specs.Tables.{part_value};
ghost use Rattle.vme_part_command.specs.PartAnswers.{EndsUnlessMemory, WritesJoin};
ghost use Rattle.vme_part_command.specs.Written.{written_part};

use crate::complaints::no_memory;
use crate::inputs::{NamedPart, joined, refuse_joined};
use std::alloc::Global;
use vme_part_format::{Part, write_part};
use vme_stream::write_answer;
use vme_trace::{Sink, Source};

/// Writes a part. The answer is the exit status.
pub(crate) fn put_part<O: Sink, E: Sink>(alloc: Global, part: &Part, out: &mut O, err: &mut E) -> u8
    requires { FitsPart (part_value part.now) }
    ensures { EndsUnlessMemory (written_part (part_value part.now))
        (O.writing out.old, O.writing out.new) (E.writing err.old, E.writing err.new) result }
{
    match write_part(alloc, part) {
        Ok(bytes) => write_answer(bytes.as_slice(), 0, out, err),
        Err(_) => no_memory(err),
    }
}

/// Writes to `out` one part joined from the parts in the inputs, which may be in any order, or to `err` why there is
/// none. The answer is the exit status: 0, 3 where an input is refused, 4 for want of memory, 5 where the part can't be
/// written.
pub fn write_joined<P: Source, O: Sink, E: Sink>(
    alloc: Global,
    inputs: &mut [NamedPart<'_, P>],
    out: &mut O,
    err: &mut E,
) -> u8
    ensures answer { WritesJoin (map (λ i. i.name.now) inputs.old)
        (map (λ i. P.reading i.part) inputs.old, map (λ i. P.reading i.part) inputs.new)
        (O.writing out.old, O.writing out.new) (E.writing err.old, E.writing err.new) result }
{
    match joined(alloc, inputs) {
        Ok(part) => put_part(alloc, &part, out, err),
        Err(why) => refuse_joined(alloc, inputs, why, err),
    }
}

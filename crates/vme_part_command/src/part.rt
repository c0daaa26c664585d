//! The part of one file of a recording.

ghost use Rattle.std.specs.Prelude.{ℕ, List, Ok, Option};
ghost use Rattle.vme_stream.specs.Inputs.{IsReading};
ghost use Rattle.vme_stream.specs.Answers.{binding_read, dump_read};
ghost use Rattle.vme_part_format.specs.Tables.{part_value};
ghost use Rattle.vme_part_command.specs.PartAnswers.{Complains};
ghost use Rattle.vme_part_command.specs.Written.{FindsOfDump, FindsPart, WritesPart, dump_recording, no_part_answer};

use crate::complaints::refuse;
use crate::file_body::part_of_begun;
use crate::join::put_part;
use crate::lines::refusing_line;
use crate::no_part::NoPart;
use std::alloc::Global;
use vme_bind::Binding;
use vme_dump_input::{dump_input, read_definitions};
use vme_part_format::Part;
use vme_stream::{Refusal, binding_from, tell_refusal};
use vme_trace::{Sink, Source};

/// Which file of a recording a dump is, and what its part has.
#[derive(Clone, Copy, Debug)]
pub struct PartOptions {
    /// The number of the file.
    pub number: u32,
    /// Whether the part has the marks of a listing.
    pub listing: bool,
}

/// The part of the recording that the binding `bound` makes of a dump, which is a file of a longer recording.
fn part_of_dump<D: Source>(
    alloc: Global,
    options: PartOptions,
    bound: &Binding,
    dump: &mut D,
) -> Result<Part, NoPart>
    ensures { FindsOfDump options bound.now (D.reading dump.old) (D.reading dump.new) result }
{
    let Ok(mut input) = dump_input(alloc) else {
        return Err(NoPart::Refused(Refusal::Memory));
    };
    match read_definitions(alloc, bound, dump, &mut input) {
        Ok(begun) => part_of_begun(alloc, options, dump, &mut input, begun),
        Err(refusal) => Err(NoPart::Refused(refusal)),
    }
}

/// The part of the recording that a binding makes of a dump. The binding is read first.
fn made_part<B: Source, D: Source>(
    alloc: Global,
    options: PartOptions,
    binding: &mut B,
    dump: &mut D,
) -> Result<Part, NoPart>
    ensures { (binding_bytes dump_bytes : Option (List ℕ))
        × IsReading (B.reading binding.old) (B.reading binding.new) binding_bytes
        × IsReading (D.reading dump.old) (D.reading dump.new) dump_bytes
        × FindsPart part_value options (dump_recording (binding_read binding_bytes) (dump_read dump_bytes)) result }
{
    match binding_from(alloc, binding) {
        Ok(bound) => part_of_dump(alloc, options, &bound, dump),
        Err(refusal) => Err(NoPart::Refused(refusal)),
    }
}

/// Writes why there is no part. The answer is the exit status.
fn refuse_part<E: Sink>(why: NoPart, err: &mut E) -> u8
    ensures { Complains (no_part_answer why) (E.writing err.old, E.writing err.new) result }
{
    match why {
        NoPart::Refused(refusal) => tell_refusal(&refusal, err),
        NoPart::OutOfRange => refuse(refusing_line(b"out of the range of parts"), err),
    }
}

/// Judges a dump that is a file of a recording, by a binding, for each memory (state) in which the file may begin, and
/// writes its part to `out`, or to `err` why there is none. The answer is the exit status: 0 whatever the verdict, 3
/// where an input is refused, 4 for want of memory, 5 where the part can't be written.
pub fn write_part_of<B: Source, D: Source, O: Sink, E: Sink>(
    alloc: Global,
    options: PartOptions,
    binding: &mut B,
    dump: &mut D,
    out: &mut O,
    err: &mut E,
) -> u8
    ensures answer { WritesPart options
        (B.reading binding.old, B.reading binding.new) (D.reading dump.old, D.reading dump.new)
        (O.writing out.old, O.writing out.new) (E.writing err.old, E.writing err.new) result }
{
    match made_part(alloc, options, binding, dump) {
        Ok(part) => put_part(alloc, &part, out, err),
        Err(why) => refuse_part(why, err),
    }
}

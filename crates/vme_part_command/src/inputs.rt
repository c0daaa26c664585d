//! The parts in the inputs.

ghost use Rattle.std.specs.Prelude.{◌≡◌, IfErr, IfOk, Some, map};
ghost use Rattle.vme_stream.specs.Inputs.{IsReading};
ghost use Rattle.vme_part_format.specs.Bounds.{FitsPart};
ghost use Rattle.vme_part_format.specs.PartText.{part_bytes};
ghost use Rattle.vme_part_format.specs.Tables.{part_value};
ghost use Rattle.vme_parts.specs.Alike.{first_listing};
ghost use Rattle.vme_part_command.specs.PartAnswers.{ComplainsUnlessMemory, name_at, no_join_answer, refusing};
ghost use Rattle.vme_part_command.specs.PartAnswers.{what_is_wrong};
ghost use Rattle.vme_part_command.specs.Inputs.{IsPartInputError, IsJoinOf, IsNoJoin, ReadParts};
ghost use Rattle.vme_part_command.specs.Lines.{input_text, marks_text};
ghost use Rattle.vme_part_command.specs.declared.inputs.NoJoin.TheVariants as none;

use crate::complaints::{no_memory, refuse, tell_input};
use crate::lines::{fault_message, part_line, refusing_line};
use std::alloc::{AllocError, AllocFailed, Global};
use vme_part_format::{Part, PartFault, ReadError, read_part};
use vme_parts::{JoinRefusal, join_parts};
use vme_stream::{InFault, read_all};
use vme_trace::{Sink, Source};

/// An input that is to have a part, with its name.
#[derive(Drop)]
pub struct NamedPart<'a, P> {
    /// Its name in messages.
    pub name: &'a [u8],
    /// Its bytes, which are read from the start.
    pub part: P,
}

/// Why an input is no part.
#[derive(Clone, Copy, Debug)]
pub(crate) enum PartInputFault {
    /// It can't be read.
    Unread,
    /// It has more than 268,435,456 bytes.
    TooLong,
    /// Its bytes have this fault.
    Faulty(PartFault),
}

/// Why an input isn't read as a part.
#[derive(Clone, Copy, Debug)]
enum PartInputError {
    /// Memory runs out.
    Memory,
    /// The input is no part.
    Fault(PartInputFault),
}

/// Why no part is joined from the inputs.
#[derive(Clone, Copy, Debug)]
pub(crate) enum NoJoin {
    /// Memory runs out.
    Memory,
    /// The input with this index is no part.
    Input(usize, PartInputFault),
    /// The parts can't be joined for this reason. The flag is whether the first has marks.
    Refused(JoinRefusal, bool),
}

impl From<AllocError> for NoJoin {
    ghost use Rattle.vme_part_command.specs.declared.inputs.NoJoin.TheVariants.{Memory};

    ghost from_gives = { λ _ e. e ≡ Memory };

    fn from(_e: AllocError) -> NoJoin {
        NoJoin::Memory
    }
}

impl<T: Drop> From<AllocFailed<T>> for NoJoin {
    ghost use Rattle.vme_part_command.specs.declared.inputs.NoJoin.TheVariants.{Memory};

    ghost from_gives = { λ _ e. e ≡ Memory };

    fn from(_e: AllocFailed<T>) -> NoJoin {
        NoJoin::Memory
    }
}

/// Reads the part in an input.
fn part_in<P: Source>(alloc: Global, input: &mut NamedPart<'_, P>) -> Result<Part, PartInputError>
    ensures fits { IfOk result (λ part. FitsPart (part_value part)) }
    ensures read { IfOk result (λ part. IsReading (P.reading input.old.part) (P.reading input.new.part)
        (Some (part_bytes (part_value part)))) }
    ensures fault { IfErr result (λ why. IsPartInputError (P.reading input.old.part) (P.reading input.new.part) why) }
    ensures name { input.new.name.now ≡ input.old.name.now }
{
    let bytes = match read_all(alloc, &mut input.part) {
        Ok(bytes) => bytes,
        Err(InFault::Read) => return Err(PartInputError::Fault(PartInputFault::Unread)),
        Err(InFault::TooLong) => return Err(PartInputError::Fault(PartInputFault::TooLong)),
        Err(InFault::Memory) => return Err(PartInputError::Memory),
    };
    match read_part(alloc, bytes.as_slice()) {
        Ok(part) => Ok(part),
        Err(ReadError::Memory) => Err(PartInputError::Memory),
        Err(ReadError::Fault(fault)) => Err(PartInputError::Fault(PartInputFault::Faulty(fault))),
    }
}

/// Reads the parts in the inputs, in order.
fn read_parts<P: Source>(
    alloc: Global,
    inputs: &mut [NamedPart<'_, P>],
) -> Result<Vec<Part>, NoJoin>
    ensures read { IfOk result (λ parts. ReadParts (map (λ i. P.reading i.part) inputs.old)
        (map (λ i. P.reading i.part) inputs.new) (map part_value parts.items)) }
    ensures unread { IfErr result (λ why. IsNoJoin (map (λ i. P.reading i.part) inputs.old)
        (map (λ i. P.reading i.part) inputs.new) why) }
    ensures names { map (λ i. i.name.now) inputs.new ≡ map (λ i. i.name.now) inputs.old }
{
    let mut parts = Vec::new(alloc);
    for input in inputs.iter_mut() {
        let place = parts.len();
        match part_in(alloc, input) {
            Ok(part) => parts.push(part)?,
            Err(PartInputError::Memory) => return Err(NoJoin::Memory),
            Err(PartInputError::Fault(fault)) => return Err(NoJoin::Input(place, fault)),
        }
    }
    Ok(parts)
}

/// Whether the first part has marks, or `false` if there is no part.
fn has_marks(parts: &[Part]) -> bool
    ensures { result ≡ first_listing (map part_value parts.now) }
{
    match parts.first() {
        Some(part) => part.listing,
        None => false,
    }
}

/// The part joined from the parts in the inputs.
pub(crate) fn joined<P: Source>(
    alloc: Global,
    inputs: &mut [NamedPart<'_, P>],
) -> Result<Part, NoJoin>
    ensures joined { IfOk result (λ part. IsJoinOf (map (λ i. P.reading i.part) inputs.old)
        (map (λ i. P.reading i.part) inputs.new) (part_value part)) }
    ensures unjoined { IfErr result (λ why. IsNoJoin (map (λ i. P.reading i.part) inputs.old)
        (map (λ i. P.reading i.part) inputs.new) why) }
    ensures names { map (λ i. i.name.now) inputs.new ≡ map (λ i. i.name.now) inputs.old }
{
    let parts = match read_parts(alloc, inputs) {
        Ok(parts) => parts,
        Err(why) => return Err(why),
    };
    let has_marks = has_marks(parts.as_slice());
    match join_parts(alloc, parts) {
        Ok(part) => Ok(part),
        Err(why) => Err(NoJoin::Refused(why, has_marks)),
    }
}

/// The name of the input with the index `place`.
fn name_of<'a, P>(inputs: &[NamedPart<'a, P>], place: usize) -> &'a [u8]
    ensures { result.now ≡ name_at (map (λ i. i.name.now) inputs.now) place }
{
    match inputs.get(place) {
        Some(named) => named.name,
        None => b"",
    }
}

/// Writes why an input is no part. The answer is the exit status.
fn refuse_input<E: Sink>(alloc: Global, name: &[u8], fault: &PartInputFault, err: &mut E) -> u8
    ensures { ComplainsUnlessMemory (refusing (input_text name.now (what_is_wrong fault.now)))
        (E.writing err.old, E.writing err.new) result }
{
    match fault {
        PartInputFault::Unread => tell_input(alloc, name, b"cannot read", err),
        PartInputFault::TooLong => tell_input(alloc, name, b"too long", err),
        PartInputFault::Faulty(fault) => {
            let what = fault_message(fault);
            tell_input(alloc, name, what.as_bytes(), err)
        }
    }
}

/// Writes that a part has no marks and the first has some (`has_marks`), or the other way round. The answer is the exit
/// status.
fn refuse_marks<E: Sink>(alloc: Global, name: &[u8], has_marks: bool, err: &mut E) -> u8
    ensures { ComplainsUnlessMemory (refusing (input_text name.now (marks_text has_marks)))
        (E.writing err.old, E.writing err.new) result }
{
    if has_marks {
        tell_input(alloc, name, b"without marks", err)
    } else {
        tell_input(alloc, name, b"with marks", err)
    }
}

/// Writes why the parts in the inputs can't be joined. The answer is the exit status.
fn tell_join_refusal<P, E: Sink>(
    alloc: Global,
    inputs: &[NamedPart<'_, P>],
    has_marks: bool,
    why: JoinRefusal,
    err: &mut E,
) -> u8
    ensures { ComplainsUnlessMemory (no_join_answer (map (λ i. i.name.now) inputs.now) (none.Refused why has_marks))
        (E.writing err.old, E.writing err.new) result }
{
    match why {
        JoinRefusal::Memory => no_memory(err),
        JoinRefusal::Backplane(place) => {
            tell_input(alloc, name_of(inputs, place), b"of another backplane", err)
        }
        JoinRefusal::Marks(place) => { refuse_marks(alloc, name_of(inputs, place), has_marks, err) }
        JoinRefusal::Differs(number) => refuse(part_line(number, b" differs"), err),
        JoinRefusal::TooManySteps => refuse(refusing_line(b"too many steps"), err),
        JoinRefusal::TooManyNodes => refuse(refusing_line(b"too many marks"), err),
        JoinRefusal::TooManySegments => refuse(refusing_line(b"too many parts"), err),
    }
}

/// Writes why no part is joined from the inputs. The answer is the exit status.
pub(crate) fn refuse_joined<P, E: Sink>(
    alloc: Global,
    inputs: &[NamedPart<'_, P>],
    why: NoJoin,
    err: &mut E,
) -> u8
    ensures { ComplainsUnlessMemory (no_join_answer (map (λ i. i.name.now) inputs.now) why)
        (E.writing err.old, E.writing err.new) result }
{
    match why {
        NoJoin::Memory => no_memory(err),
        NoJoin::Input(place, fault) => refuse_input(alloc, name_of(inputs, place), &fault, err),
        NoJoin::Refused(why, has_marks) => tell_join_refusal(alloc, inputs, has_marks, why, err),
    }
}

//! The commands on parts, i.e. results of judging files of a recording: `part`, `join` and `tell`.

ghost use Rattle.std.specs.Prelude.{◌≡◌, Err, IfOk, IfSome, map, option_map, string_bytes};
ghost use Rattle.vme_program.specs.Parts.{AreOpened, IsFirstUnopenedPart, JoinsFiles, TellsOfFiles, TellsParts};
ghost use Rattle.vme_program.specs.Parts.{WritesPartOfFiles};
ghost use Rattle.vme_program.specs.declared.opening.OpenFilesError.TheVariants.{Unopened};

use crate::audit::refuse_file;
use crate::environment::Environment;
use crate::opening::{OpenFilesError, open_recording, refuse_input};
use std::alloc::Global;
use vme_part_command::{
    NamedPart, PartOptions, list_whole, tell_whole, write_joined, write_part_of,
};
use vme_stream::{Refusal, tell_refusal};
use vme_trace::{Sink, Source};
use vme_words::{JoinOrder, PartOrder, TellOrder};

/// Writes the part of the dump that an order names, by the binding that it names: the binding is opened, and then the
/// dump. The answer is the exit status.
#[inline(never)]
pub fn part_file<S: Environment, O: Sink, E: Sink>(
    alloc: Global,
    environment: &S,
    order: &PartOrder,
    out: &mut O,
    err: &mut E,
) -> u8
    ensures { WritesPartOfFiles (S.opens environment.now) order.now
        (O.writing out.old, O.writing out.new) (E.writing err.old, E.writing err.new) result }
{
    let options = PartOptions {
        number: order.number,
        listing: order.listing,
    };
    match open_recording(environment, &order.recording) {
        Ok((mut binding, mut dump)) => {
            write_part_of(alloc, options, &mut binding, &mut dump, out, err)
        }
        Err(input) => refuse_input(input, err),
    }
}

/// Opens the parts with these names, in this order.
fn open_parts<'a, S: Environment>(
    alloc: Global,
    environment: &S,
    names: &'a [String],
) -> Result<Vec<NamedPart<'a, S::Reader>>, OpenFilesError<'a>>
    ensures named { IfOk result (λ parts. map (λ p. p.name.now) parts.items ≡ map string_bytes names.now) }
    ensures opened { IfOk result (λ parts. AreOpened (S.opens environment.now) (map string_bytes names.now)
        (map (λ p. S.Reader.reading p.part) parts.items)) }
    ensures unopened { (name : _) → result ≡ Err (Unopened name)
        → IsFirstUnopenedPart (S.opens environment.now) (map string_bytes names.now) name.now }
{
    let mut parts = Vec::new(alloc);
    for name in names {
        let name = name.as_str();
        match open_part(environment, name) {
            Some(named) => parts.push(named)?,
            None => return Err(OpenFilesError::Unopened(name)),
        }
    }
    Ok(parts)
}

/// Opens the part with this name.
fn open_part<'a, S: Environment>(environment: &S, name: &'a str) -> Option<NamedPart<'a, S::Reader>>
    ensures named { IfSome result (λ named. named.name.now ≡ name.now) }
    ensures opened { S.opens environment.now name.now (option_map (λ named. S.Reader.reading named.part) result) }
{
    match environment.open_file(name) {
        Some(part) => Some(NamedPart {
            name: name.as_bytes(),
            part,
        }),
        None => None,
    }
}

/// Joins the parts that an order names into one, and writes it. Each is opened before one is read. Returns the exit
/// status.
#[inline(never)]
pub fn join_files<S: Environment, O: Sink, E: Sink>(
    alloc: Global,
    environment: &S,
    order: &JoinOrder,
    out: &mut O,
    err: &mut E,
) -> u8
    ensures { JoinsFiles (S.opens environment.now) order.now
        (O.writing out.old, O.writing out.new) (E.writing err.old, E.writing err.new) result }
{
    match open_parts(alloc, environment, order.parts.as_slice()) {
        Ok(mut parts) => write_joined(alloc, parts.as_mut_slice(), out, err),
        Err(OpenFilesError::Unopened(name)) => refuse_file(alloc, name, b"cannot open", 3, err),
        Err(OpenFilesError::Memory) => tell_refusal(&Refusal::Memory, err),
    }
}

/// Writes the verdict on the recording whose parts an order names, or its listing. Each part is opened before one is
/// read. Returns the exit status.
#[inline(never)]
pub fn tell_files<S: Environment, O: Sink, E: Sink>(
    alloc: Global,
    environment: &S,
    order: &TellOrder,
    out: &mut O,
    err: &mut E,
) -> u8
    ensures { TellsOfFiles (S.opens environment.now) order.now
        (O.writing out.old, O.writing out.new) (E.writing err.old, E.writing err.new) result }
{
    match open_parts(alloc, environment, order.parts.as_slice()) {
        Ok(mut parts) => tell_opened(alloc, order, parts.as_mut_slice(), out, err),
        Err(OpenFilesError::Unopened(name)) => refuse_file(alloc, name, b"cannot open", 3, err),
        Err(OpenFilesError::Memory) => tell_refusal(&Refusal::Memory, err),
    }
}

/// Writes the verdict on the recording of parts that are open, or its listing.
#[inline(never)]
fn tell_opened<P: Source, O: Sink, E: Sink>(
    alloc: Global,
    order: &TellOrder,
    parts: &mut [NamedPart<'_, P>],
    out: &mut O,
    err: &mut E,
) -> u8
    ensures { TellsParts order.now.listing order.now.file_count (map (λ p. p.name.now) parts.old)
        (map (λ p. P.reading p.part) parts.old, map (λ p. P.reading p.part) parts.new)
        (O.writing out.old, O.writing out.new) (E.writing err.old, E.writing err.new) result }
{
    if order.listing {
        list_whole(alloc, parts, order.file_count, out, err)
    } else {
        tell_whole(alloc, parts, order.file_count, out, err)
    }
}

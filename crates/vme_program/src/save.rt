//! Writes the waveform viewer's file and the picture: over no input, and over nothing that the program didn't write
//! itself.

ghost use Rattle.vme_program.specs.Saves.{EndsWriting, MayBeSaved, RefusesPlace, Saves};

use crate::environment::{Environment, WriteResult};
use std::alloc::Global;
use vme_explain::{FileId, SaveRefusal, save_refusal, save_refusal_text};
use vme_stream::{Refusal, cannot_write_line, complain, say, tell_refusal};
use vme_trace::Sink;

/// Which files the inputs are.
#[derive(Clone, Copy, Debug, PartialEq, Eq)]
pub struct InputIds {
    /// That of the binding.
    pub binding: FileId,
    /// That of the dump.
    pub dump: FileId,
}

/// Why no file is written at a path, if none may be.
pub(crate) fn refusal_at<S: Environment>(
    environment: &S,
    path: &str,
    inputs: InputIds,
) -> Option<SaveRefusal>
    ensures { MayBeSaved (S.has_entry environment.now) path.now inputs result }
{
    save_refusal(&environment.entry_at(path), inputs.binding, inputs.dump)
}

/// Writes a file at a path, if one may be written there. Returns `status`, or another exit status where the file isn't
/// written.
#[inline(never)]
pub(crate) fn save<S: Environment, E: Sink>(
    alloc: Global,
    environment: &S,
    path: &str,
    bytes: &[u8],
    inputs: InputIds,
    status: u8,
    err: &mut E,
) -> u8
    ensures { Saves (S.has_entry environment.now) (S.replaces environment.now) path.now inputs bytes.now status
        (E.writing err.old, E.writing err.new) result }
{
    match refusal_at(environment, path, inputs) {
        Some(refusal) => refuse_place(alloc, path, refusal, err),
        None => end_writing(environment.replace_file(alloc, path, bytes), status, err),
    }
}

/// Reports it if a file isn't written. Returns `status`, or another exit status where it isn't written.
fn end_writing<E: Sink>(written: WriteResult, status: u8, err: &mut E) -> u8
    ensures { EndsWriting written status (E.writing err.old, E.writing err.new) result }
{
    match written {
        WriteResult::Whole => status,
        WriteResult::Failed => {
            complain(err, cannot_write_line());
            5
        }
        WriteResult::Memory => tell_refusal(&Refusal::Memory, err),
    }
}

/// Says why no file is written at a path. The answer is the exit status.
pub(crate) fn refuse_place<E: Sink>(
    alloc: Global,
    path: &str,
    refusal: SaveRefusal,
    err: &mut E,
) -> u8
    ensures { RefusesPlace path.now refusal (E.writing err.old, E.writing err.new) result }
{
    match save_refusal_text(alloc, path, refusal) {
        Ok(text) => {
            say(err, text.as_bytes());
            3
        }
        Err(_) => tell_refusal(&Refusal::Memory, err),
    }
}

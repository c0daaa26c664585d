//! The files that an order names, opened, and the message about one that can't be.

ghost use Rattle.std.specs.Prelude.{◌≡◌, IfErr, IfOk, Some, string_bytes};
ghost use Rattle.vme_stream.specs.Texts.{line_of, refusal_text};
ghost use Rattle.vme_stream.specs.declared.refusal.Refusal.TheVariants.{CannotOpen};
ghost use Rattle.vme_stream.specs.Outputs.{TriesToWrite};
ghost use Rattle.vme_program.specs.Openings.{IsFirstUnopenedInput};
ghost use Rattle.vme_program.specs.declared.opening.OpenFilesError.TheVariants.{Memory};

use crate::environment::Environment;
use std::alloc::AllocFailed;
use vme_stream::{Input, Refusal, tell_refusal};
use vme_trace::Sink;
use vme_words::RecordingFiles;

/// Why the files of several names aren't opened.
#[derive(Drop)]
pub(crate) enum OpenFilesError<'a> {
    /// The file with this name can't be opened.
    Unopened(&'a str),
    /// Memory ran out.
    Memory,
}

impl<'a, T: Drop> From<AllocFailed<T>> for OpenFilesError<'a> {
    ghost from_gives = { λ _ none. none ≡ Memory };

    fn from(_: AllocFailed<T>) -> OpenFilesError<'a> {
        OpenFilesError::Memory
    }
}

/// The binding and the dump of a recording, opened in this order; or the first that can't be opened.
pub(crate) fn open_recording<S: Environment>(
    environment: &S,
    files: &RecordingFiles,
) -> Result<(S::Reader, S::Reader), Input>
    ensures binding { IfOk result (λ opened.
        S.opens environment.now (string_bytes files.now.binding) (Some (S.Reader.reading opened.0))) }
    ensures dump { IfOk result (λ opened.
        S.opens environment.now (string_bytes files.now.dump) (Some (S.Reader.reading opened.1))) }
    ensures unopened { IfErr result (IsFirstUnopenedInput (S.opens environment.now) files.now) }
{
    let Some(binding) = environment.open_file(files.binding.as_str()) else {
        return Err(Input::Binding);
    };
    let Some(dump) = environment.open_file(files.dump.as_str()) else {
        return Err(Input::Dump);
    };
    Ok((binding, dump))
}

/// Says that an input can't be opened. The answer is the exit status.
pub(crate) fn refuse_input<E: Sink>(input: Input, err: &mut E) -> u8
    ensures told { TriesToWrite (E.writing err.old) (E.writing err.new) (line_of (refusal_text (CannotOpen input))) }
    ensures status { result ≡ 3 }
{
    tell_refusal(&Refusal::CannotOpen(input), err)
}

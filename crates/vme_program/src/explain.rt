//! The explanation of the files that an order names, the waveform viewer's file, and the picture.

ghost use Rattle.std.specs.Prelude.{◌≡◌, MatchOption, Some, false, option_map, true};
ghost use Rattle.vme_program.specs.Explanations.{AreAllowed, AreApart, AreShared, AsksNoFile, AsksSomeFile};
ghost use Rattle.vme_program.specs.Explanations.{EachIsAllowed, ExplainsAndSaves, IsOnePlace, OneIsRefused};
ghost use Rattle.vme_program.specs.Explanations.{ExplainsFiles, ExplainsOpened, ExplainsThenSaves};
ghost use Rattle.vme_program.specs.Explanations.{ExplainsUnlessRefused, IsAllowed, IsRefused, IsRefusedAt, SavesFiles};
ghost use Rattle.vme_program.specs.Explanations.{SavesIfAsked, picture_word, viewer_word};

use crate::environment::Environment;
use crate::opening::{open_recording, refuse_input};
use crate::save::{InputIds, refusal_at, refuse_place, save};
use std::alloc::Global;
use vme_explain::{SaveRefusal, is_one_file};
use vme_stream::Input;
use vme_text_commands::explain::{ExplainedFiles, InputNames, explain};
use vme_trace::{Sink, Source};
use vme_words::ExplainOrder;

/// Judges the recording of the files that an order names, says why and where, and writes the waveform viewer's file and
/// the picture, if they are wanted. If one of these may not be written, nothing is. Returns the exit status.
#[inline(never)]
pub fn explain_files<S: Environment, O: Sink, E: Sink>(
    alloc: Global,
    environment: &S,
    order: &ExplainOrder,
    out: &mut O,
    err: &mut E,
) -> u8
    ensures { ExplainsFiles S.Environment environment.now order.now
        (O.writing out.old, O.writing out.new) (E.writing err.old, E.writing err.new) result }
{
    match open_recording(environment, &order.recording) {
        Ok((mut binding, mut dump)) => explain_opened(
            alloc,
            environment,
            order,
            &mut binding,
            &mut dump,
            out,
            err,
        ),
        Err(input) => refuse_input(input, err),
    }
}

/// Explains the recording of a binding and a dump that are open, and writes the files that are wanted.
#[inline(never)]
fn explain_opened<S: Environment, O: Sink, E: Sink>(
    alloc: Global,
    environment: &S,
    order: &ExplainOrder,
    binding: &mut S::Reader,
    dump: &mut S::Reader,
    out: &mut O,
    err: &mut E,
) -> u8
    ensures { ExplainsOpened S.Environment environment.now order.now
        (S.Reader.reading binding.old, S.Reader.reading binding.new)
        (S.Reader.reading dump.old, S.Reader.reading dump.new)
        (O.writing out.old, O.writing out.new) (E.writing err.old, E.writing err.new) result }
{
    if asks_no_file(order) {
        let (status, _) = explain(
            alloc,
            binding,
            dump,
            input_names(order),
            order.skew,
            out,
            err,
        );
        status
    } else {
        explain_and_save(alloc, environment, order, binding, dump, out, err)
    }
}

/// Whether no file is wanted beside the explanation.
fn asks_no_file(order: &ExplainOrder) -> bool
    ensures none { result ≡ true → AsksNoFile order.now }
    ensures some { result ≡ false → AsksSomeFile order.now }
{
    viewer_path(order).is_none() && picture_path(order).is_none()
}

/// Explains the recording, and writes the files that are wanted, of which there is at least one.
#[inline(never)]
fn explain_and_save<S: Environment, O: Sink, E: Sink>(
    alloc: Global,
    environment: &S,
    order: &ExplainOrder,
    binding: &mut S::Reader,
    dump: &mut S::Reader,
    out: &mut O,
    err: &mut E,
) -> u8
    ensures { ExplainsAndSaves S.Environment environment.now order.now
        (S.Reader.reading binding.old, S.Reader.reading binding.new)
        (S.Reader.reading dump.old, S.Reader.reading dump.new)
        (O.writing out.old, O.writing out.new) (E.writing err.old, E.writing err.new) result }
{
    let Some(binding_id) = environment.id_of(binding) else {
        return refuse_input(Input::Binding, err);
    };
    let Some(dump_id) = environment.id_of(dump) else {
        return refuse_input(Input::Dump, err);
    };
    let inputs = InputIds {
        binding: binding_id,
        dump: dump_id,
    };
    explain_unless_refused(alloc, environment, order, inputs, binding, dump, out, err)
}

/// Explains the recording of the input files `inputs`, and writes the files that are wanted, unless one may not be
/// written.
#[inline(never)]
fn explain_unless_refused<S: Environment, B: Source, D: Source, O: Sink, E: Sink>(
    alloc: Global,
    environment: &S,
    order: &ExplainOrder,
    inputs: InputIds,
    binding: &mut B,
    dump: &mut D,
    out: &mut O,
    err: &mut E,
) -> u8
    ensures { ExplainsUnlessRefused S.Environment environment.now order.now inputs
        (B.reading binding.old, B.reading binding.new) (D.reading dump.old, D.reading dump.new)
        (O.writing out.old, O.writing out.new) (E.writing err.old, E.writing err.new) result }
{
    match refused_place(environment, order, inputs) {
        Some(place) => refuse_place(alloc, place.path, place.refusal, err),
        None => explain_then_save(alloc, environment, order, inputs, binding, dump, out, err),
    }
}

/// A path at which no file may be written, and why.
#[derive(Clone, Copy)]
struct RefusedPlace<'a> {
    path: &'a str,
    refusal: SaveRefusal,
}

/// The first place at which a file is wanted and may not be written, or else the one at which both are wanted, if there
/// is such a place.
fn refused_place<'a, S: Environment>(
    environment: &S,
    order: &'a ExplainOrder,
    inputs: InputIds,
) -> Option<RefusedPlace<'a>>
    ensures { MatchOption result (AreAllowed S.Environment environment.now order.now inputs)
        (λ place. IsRefused S.Environment environment.now order.now inputs place.path.now place.refusal) }
{
    match refused_at_either(environment, order, inputs) {
        Some(place) => Some(place),
        None => shared_place(environment, viewer_path(order), picture_path(order)),
    }
}

/// The first place at which a file is wanted and may not be written, if there is one.
fn refused_at_either<'a, S: Environment>(
    environment: &S,
    order: &'a ExplainOrder,
    inputs: InputIds,
) -> Option<RefusedPlace<'a>>
    ensures { MatchOption result (EachIsAllowed S.Environment environment.now order.now inputs)
        (λ place. OneIsRefused S.Environment environment.now order.now inputs place.path.now place.refusal) }
{
    match refused_at(environment, viewer_path(order), inputs) {
        Some(place) => Some(place),
        None => refused_at(environment, picture_path(order), inputs),
    }
}

/// The place of the picture, if the viewer's file is wanted there too.
fn shared_place<'a, S: Environment>(
    environment: &S,
    viewer: Option<&str>,
    picture: Option<&'a str>,
) -> Option<RefusedPlace<'a>>
    ensures { MatchOption result
        (AreApart S.Environment environment.now
        (option_map (λ path. path.now) viewer.entry) (option_map (λ path. path.now) picture.entry))
        (λ place. AreShared S.Environment environment.now
        (option_map (λ path. path.now) viewer.entry) (option_map (λ path. path.now) picture.entry)
        place.path.now place.refusal) }
{
    match viewer {
        Some(viewer) => shared_with_viewer(environment, viewer, picture),
        None => None,
    }
}

/// The place of the picture, if the viewer's file, which is wanted at `viewer`, is wanted there too.
fn shared_with_viewer<'a, S: Environment>(
    environment: &S,
    viewer: &str,
    picture: Option<&'a str>,
) -> Option<RefusedPlace<'a>>
    ensures { MatchOption result
        (AreApart S.Environment environment.now (Some viewer.now) (option_map (λ path. path.now) picture.entry))
        (λ place. AreShared S.Environment environment.now (Some viewer.now)
        (option_map (λ path. path.now) picture.entry) place.path.now place.refusal) }
{
    match picture {
        Some(picture) => shared_picture_place(environment, viewer, picture),
        None => None,
    }
}

/// The place at `picture`, if the path `viewer` leads there too.
fn shared_picture_place<'a, S: Environment>(
    environment: &S,
    viewer: &str,
    picture: &'a str,
) -> Option<RefusedPlace<'a>>
    ensures { MatchOption result (AreApart S.Environment environment.now (Some viewer.now) (Some picture.now))
        (λ place. AreShared S.Environment environment.now (Some viewer.now) (Some picture.now)
        place.path.now place.refusal) }
{
    if is_one_place(environment, viewer, picture) {
        Some(RefusedPlace {
            path: picture,
            refusal: SaveRefusal::Shared,
        })
    } else {
        None
    }
}

/// Whether two paths are equal, or one file is at both.
fn is_one_place<S: Environment>(environment: &S, one: &str, other: &str) -> bool
    ensures { IsOnePlace S.Environment environment.now one.now other.now result }
{
    let first = environment.entry_at(one);
    let second = environment.entry_at(other);
    let is_one_path = one == other;
    is_one_path || is_one_file(&first, &second)
}

/// The place at the path `wanted`, if there is such a path and no file may be written there.
fn refused_at<'a, S: Environment>(
    environment: &S,
    wanted: Option<&'a str>,
    inputs: InputIds,
) -> Option<RefusedPlace<'a>>
    ensures { MatchOption result
        (IsAllowed S.Environment environment.now inputs (option_map (λ path. path.now) wanted.entry))
        (λ place. IsRefusedAt S.Environment environment.now inputs (option_map (λ path. path.now) wanted.entry)
        place.path.now place.refusal) }
{
    match wanted {
        Some(path) => refusal_of(environment, path, inputs),
        None => None,
    }
}

/// The place at `path`, if no file may be written there.
fn refusal_of<'a, S: Environment>(
    environment: &S,
    path: &'a str,
    inputs: InputIds,
) -> Option<RefusedPlace<'a>>
    ensures { MatchOption result (IsAllowed S.Environment environment.now inputs (Some path.now))
        (λ place. IsRefusedAt S.Environment environment.now inputs (Some path.now)
        place.path.now place.refusal) }
{
    match refusal_at(environment, path, inputs) {
        Some(refusal) => Some(RefusedPlace { path, refusal }),
        None => None,
    }
}

/// Explains the recording, and then writes the files that are wanted, each of which may be written.
#[inline(never)]
fn explain_then_save<S: Environment, B: Source, D: Source, O: Sink, E: Sink>(
    alloc: Global,
    environment: &S,
    order: &ExplainOrder,
    inputs: InputIds,
    binding: &mut B,
    dump: &mut D,
    out: &mut O,
    err: &mut E,
) -> u8
    ensures { ExplainsThenSaves S.Environment environment.now order.now inputs
        (B.reading binding.old, B.reading binding.new) (D.reading dump.old, D.reading dump.new)
        (O.writing out.old, O.writing out.new) (E.writing err.old, E.writing err.new) result }
{
    let (status, files) = explain(
        alloc,
        binding,
        dump,
        input_names(order),
        order.skew,
        out,
        err,
    );
    match files {
        Some(files) => save_files(alloc, environment, order, &files, inputs, status, err),
        None => status,
    }
}

/// Writes the files that are wanted. Returns `status`, or another exit status where one isn't written.
#[inline(never)]
fn save_files<S: Environment, E: Sink>(
    alloc: Global,
    environment: &S,
    order: &ExplainOrder,
    files: &ExplainedFiles,
    inputs: InputIds,
    status: u8,
    err: &mut E,
) -> u8
    ensures { SavesFiles S.Environment environment.now order.now inputs files.now.viewer files.now.picture status
        (E.writing err.old, E.writing err.new) result }
{
    let viewer = files.viewer.as_bytes();
    let status = save_wanted(
        alloc,
        environment,
        viewer_path(order),
        viewer,
        inputs,
        status,
        err,
    );
    let picture = files.picture.as_bytes();
    save_wanted(
        alloc,
        environment,
        picture_path(order),
        picture,
        inputs,
        status,
        err,
    )
}

/// Writes a file, if it is wanted. Returns `status`, or another exit status where it isn't written.
#[inline(never)]
fn save_wanted<S: Environment, E: Sink>(
    alloc: Global,
    environment: &S,
    wanted: Option<&str>,
    bytes: &[u8],
    inputs: InputIds,
    status: u8,
    err: &mut E,
) -> u8
    ensures { SavesIfAsked S.Environment environment.now inputs (option_map (λ path. path.now) wanted.entry)
        bytes.now status (E.writing err.old, E.writing err.new) result }
{
    match wanted {
        Some(path) => save(alloc, environment, path, bytes, inputs, status, err),
        None => status,
    }
}

/// The path at which the viewer's file is wanted, if it is.
fn viewer_path(order: &ExplainOrder) -> Option<&str>
    ensures { option_map (λ path. path.now) result ≡ viewer_word order.now }
{
    match &order.viewer {
        Some(path) => Some(path.as_str()),
        None => None,
    }
}

/// The path at which the picture is wanted, if it is.
fn picture_path(order: &ExplainOrder) -> Option<&str>
    ensures { option_map (λ path. path.now) result ≡ picture_word order.now }
{
    match &order.picture {
        Some(path) => Some(path.as_str()),
        None => None,
    }
}

/// The names of the input files.
fn input_names(order: &ExplainOrder) -> InputNames<'_> {
    InputNames {
        binding: order.recording.binding.as_bytes(),
        dump: order.recording.dump.as_bytes(),
    }
}

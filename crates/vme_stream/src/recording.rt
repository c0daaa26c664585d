//! The recording that a binding makes of a dump.

ghost use Rattle.std.specs.Prelude.{◌≡◌, ℕ, List, Option};
ghost use Rattle.vme_stream.specs.Inputs.{IsReading};
ghost use Rattle.vcd_read.specs.Meaning.{dump_of};
ghost use Rattle.vme_bind.specs.Binding.{binding_of};
ghost use Rattle.vme_stream.specs.Answers.{AnswerGives, or_bad_binding, or_bad_dump, binding_read, dump_read};
ghost use Rattle.vme_stream.specs.Answers.{capture_read, recorded_by};

use crate::input::read_all;
use crate::refusal::{Input, Refusal};
use std::alloc::Global;
use vme_bind::{BindFault, Binding, read_binding};
use vme_trace::{Capture, Source};

/// The recording that a binding makes of a dump: the binding is read first. It fails if there is no binding, no dump or
/// no recording, or if memory runs out.
pub fn capture_from<B: Source, D: Source>(
    alloc: Global,
    binding: &mut B,
    dump: &mut D,
) -> Result<Capture, Refusal>
    ensures { (binding_bytes dump_bytes : Option (List ℕ))
        × IsReading (B.reading binding.old) (B.reading binding.new) binding_bytes
        × IsReading (D.reading dump.old) (D.reading dump.new) dump_bytes
        × AnswerGives (λ capture. capture) result (capture_read binding_bytes dump_bytes) }
{
    let bound = binding_from(alloc, binding)?;
    match recorded_from(alloc, &bound, dump) {
        Ok(Ok(capture)) => Ok(capture),
        Ok(Err(fault)) => Err(Refusal::BadBinding(fault)),
        Err(refusal) => Err(refusal),
    }
}

/// Reads a dump. The result is the recording that `bound` makes of it, or the fault by which it makes none. The error
/// says why there is no dump, or that memory ran out.
pub fn recorded_from<D: Source>(
    alloc: Global,
    bound: &Binding,
    dump: &mut D,
) -> Result<Result<Capture, BindFault>, Refusal>
    ensures { (bytes : Option (List ℕ))
        × IsReading (D.reading dump.old) (D.reading dump.new) bytes
        × AnswerGives (λ recorded. recorded) result (recorded_by bound.now (dump_read bytes)) }
{
    match read_all(alloc, dump) {
        Ok(text) => recorded_in(alloc, bound, text.as_slice()),
        Err(fault) => Err(Refusal::of_input(Input::Dump, fault)),
    }
}

/// As `recorded_from`, of the text of a dump, which is read once.
pub fn recorded_in(
    alloc: Global,
    bound: &Binding,
    text: &[u8],
) -> Result<Result<Capture, BindFault>, Refusal>
    ensures { AnswerGives (λ recorded. recorded) result (recorded_by bound.now (or_bad_dump (dump_of text.now))) }
{
    match bound.capture_text(alloc, text) {
        Ok(capture) => Ok(Ok(capture)),
        Err(fault) => match Refusal::of_capture(fault) {
            Refusal::BadBinding(fault) => Ok(Err(fault)),
            refusal => Err(refusal),
        },
    }
}

/// Reads a binding. The error says why there is none: the text can't be read, is too long or isn't a binding, or memory
/// ran out. How much of the source is read then isn't specified.
pub fn binding_from<R: Source>(alloc: Global, source: &mut R) -> Result<Binding, Refusal>
    ensures { (bytes : Option (List ℕ))
        × IsReading (R.reading source.old) (R.reading source.new) bytes
        × AnswerGives (λ binding. binding) result (binding_read bytes) }
{
    match read_all(alloc, source) {
        Ok(text) => binding_in(alloc, text.as_slice()),
        Err(fault) => Err(Refusal::of_input(Input::Binding, fault)),
    }
}

/// The binding in a text. It fails if the binding has a fault or memory runs out.
pub fn binding_in(alloc: Global, text: &[u8]) -> Result<Binding, Refusal>
    ensures { AnswerGives (λ binding. binding) result (or_bad_binding (binding_of text.now)) }
{
    match read_binding(alloc, text) {
        Ok(binding) => Ok(binding),
        Err(fault) => Err(Refusal::of_binding(fault)),
    }
}

//! A dump that is explained as it is read.

ghost use Rattle.std.specs.Prelude.{◌≡◌, ◌≤◌, ℕ, List, Option, None, IfOk, length, take};
ghost use Rattle.vcd_read.specs.Meaning.{dump_of};
ghost use Rattle.vme_stream.specs.Answers.{AnswerGives, dump_read, or_bad_dump, recording_by};
ghost use Rattle.vme_bind.specs.Binding.{BoundLines};
ghost use Rattle.vme_bind.specs.TextCapture.{recording_of_text};
ghost use Rattle.vme_bind.specs.DumpReading.{dump_ahead};
ghost use Rattle.vcd_read.specs.ByteConsumers.{ContinuesAs};
ghost use Rattle.vme_stream.specs.Inputs.{IsReading};
ghost use Rattle.vme_trace.specs.WellFormed.{malformed_step};

use crate::fault_context::FaultContext;
use std::alloc::{AllocError, Global};
use vcd_read::{ByteConsumer, FaultKind, Variables, read_definitions};
use vme_bind::{Binding, CaptureFault, DumpReader};
use vme_stream::{Input, Refusal, read_by};
use vme_text::Text;
use vme_trace::{Source, StepVisitor};
use vme_variables::{time_scale, time_unit};

/// How many bytes of a dump are read at once.
const PIECE: usize = 262_144;

/// What is kept of a dump that was read.
#[derive(Drop)]
pub(crate) struct KeptDump {
    /// Its variables; none where its definitions are at fault.
    pub variables: Variables,
    /// How many units of its time scale a time stands for.
    pub time_unit: u64,
    /// Its time scale, as `10ns`, or nothing.
    pub time_scale: Text,
    /// What is needed to show its fault, where it has one.
    pub context: Option<FaultContext>,
}

impl KeptDump {
    /// Nothing.
    fn nothing(alloc: Global) -> KeptDump {
        KeptDump {
            variables: Variables::new(alloc),
            time_unit: 1,
            time_scale: Text::new(alloc),
            context: None,
        }
    }

    /// What is kept of a dump that begins with these bytes, in which its definitions end. The only error is want of
    /// memory.
    fn of(alloc: Global, bytes: &[u8]) -> Result<KeptDump, AllocError> {
        Ok(KeptDump {
            variables: variables_of(alloc, bytes)?,
            time_unit: time_unit(alloc, bytes)?,
            time_scale: time_scale(alloc, bytes)?,
            context: None,
        })
    }

    /// What is kept of a dump that ends with the bytes `rest`: `kept`, or, without it, what the definitions in `rest`
    /// give.
    fn by_end(alloc: Global, kept: Option<KeptDump>, rest: &[u8]) -> Result<KeptDump, AllocError> {
        match kept {
            Some(kept) => Ok(kept),
            None => KeptDump::of(alloc, rest),
        }
    }

    /// What is kept of a dump that ends with the bytes `rest`, and has no recording because of `fault`.
    fn with_fault(self, context: FaultContext, fault: &CaptureFault, rest: &[u8]) -> KeptDump {
        let mut kept = self;
        let mut context = context;
        if let CaptureFault::Dump(fault) = fault {
            if let Ok(()) = context.record_fault(*fault, rest) {
                kept.context = Some(context);
            }
        }
        kept
    }
}

/// The variables of a dump, or none if its definitions have a fault. It fails if memory runs out.
fn variables_of(alloc: Global, bytes: &[u8]) -> Result<Variables, AllocError> {
    match read_definitions(alloc, bytes, Variables::new(alloc)) {
        Ok((_, variables)) => Ok(variables),
        Err(fault) => match fault.kind {
            FaultKind::Memory => Err(AllocError),
            _ => Ok(Variables::new(alloc)),
        },
    }
}

/// What is kept of a dump after the bytes `taken`. The first bytes that are taken have all its definitions.
fn kept_after(
    alloc: Global,
    kept: Option<KeptDump>,
    taken: &[u8],
) -> Result<Option<KeptDump>, AllocError> {
    match kept {
        Some(kept) => Ok(Some(kept)),
        None if taken.is_empty() => Ok(None),
        None => Ok(Some(KeptDump::of(alloc, taken)?)),
    }
}

/// A dump whose recording by a binding is taken as it is read, and what is kept of it for the explanation.
#[derive(Drop)]
pub(crate) struct ExplainedInput<'b, F: StepVisitor> {
    reader: DumpReader<'b, F>,
    context: FaultContext,
    kept: Option<KeptDump>,
}

impl<'b, F: StepVisitor> ExplainedInput<'b, F> {
    /// Before the first byte.
    pub fn new(alloc: Global, binding: &'b Binding, visitor: F) -> ExplainedInput<'b, F>
        ensures { (rest : List ℕ) → dump_ahead result.reader rest ≡ recording_of_text binding.now rest }
    {
        ExplainedInput {
            reader: DumpReader::new(binding, visitor),
            context: FaultContext::new(alloc),
            kept: None,
        }
    }

    /// Takes a prefix of `bytes`, and returns its length. It fails if memory runs out.
    pub fn take(
        self,
        alloc: Global,
        bytes: &[u8],
    ) -> Result<(ExplainedInput<'b, F>, usize), AllocError>
        ensures within { IfOk result (λ made. made.1 ≤ length bytes.now) }
        ensures taken { IfOk result (λ made. ContinuesAs (dump_ahead self.entry.reader) (dump_ahead made.0.reader)
            (take made.1 bytes.now)) }
    {
        let ExplainedInput {
            reader,
            context,
            kept,
        } = self;
        let mut context = context;
        let (reader, count) = reader.take(alloc, bytes)?;
        let taken = &bytes[..count];
        context.pass(alloc, taken, reader.fault())?;
        let kept = kept_after(alloc, kept, taken)?;
        Ok((
            ExplainedInput {
                reader,
                context,
                kept,
            },
            count,
        ))
    }
}

impl<F: StepVisitor> ByteConsumer for ExplainedInput<'_, F> {
    ghost use Rattle.std.specs.Prelude.{Result};
    ghost use Rattle.vme_trace.specs.Trace.{Trace};
    ghost use Rattle.vme_bind.specs.declared.fault.CaptureFault.{CaptureFault};
    ghost use Rattle.vme_bind.specs.DumpReading.{dump_ahead};

    ghost Outcome = { Result Trace CaptureFault };

    ghost ahead = { λ u. dump_ahead u.reader };
}

/// `visitor`, after it took the recording that the binding makes of the dump, or the first reason that there is none;
/// and what is kept of the dump. The dump is read piece by piece.
pub(crate) fn taken_dump<F: StepVisitor, D: Source>(
    alloc: Global,
    binding: &Binding,
    dump: &mut D,
    visitor: F,
) -> (Result<F, Refusal>, KeptDump)
    ensures gives { (bytes : Option (List ℕ))
        × IsReading (D.reading dump.old) (D.reading dump.new) bytes
        × AnswerGives (λ w. F.recorded w) result.0 (recording_by binding.now (dump_read bytes)) }
    ensures formed { IfOk result.0 (λ w. malformed_step (F.recorded w) ≡ None) }
{
    let input = ExplainedInput::new(alloc, binding, visitor);
    match read_by(
        alloc,
        dump,
        input,
        PIECE,
        &|input: ExplainedInput<'_, F>, bytes: &[u8]| input.take(alloc, bytes),
    ) {
        Ok((input, rest)) => taken_input(alloc, input, rest.as_slice()),
        Err(fault) => (
            Err(Refusal::of_input(Input::Dump, fault)),
            KeptDump::nothing(alloc),
        ),
    }
}

/// `taken_dump` for a dump that was read up to its last bytes, `rest`.
fn taken_input<F: StepVisitor>(
    alloc: Global,
    input: ExplainedInput<'_, F>,
    rest: &[u8],
) -> (Result<F, Refusal>, KeptDump)
    ensures gives { (b : BoundLines) (bytes : List ℕ)
        → recording_of_text b bytes ≡ dump_ahead input.entry.reader rest.now
        → AnswerGives (λ w. F.recorded w) result.0 (recording_by b (or_bad_dump (dump_of bytes))) }
    ensures formed { (b : BoundLines) (bytes : List ℕ)
        → recording_of_text b bytes ≡ dump_ahead input.entry.reader rest.now
        → IfOk result.0 (λ w. malformed_step (F.recorded w) ≡ None) }
{
    let ExplainedInput {
        reader,
        context,
        kept,
    } = input;
    let Ok(kept) = KeptDump::by_end(alloc, kept, rest) else {
        return (Err(Refusal::Memory), KeptDump::nothing(alloc));
    };
    match reader.finish(alloc, rest) {
        Ok(visitor) => (Ok(visitor), kept),
        Err(fault) => {
            let kept = kept.with_fault(context, &fault, rest);
            (Err(Refusal::of_capture(fault)), kept)
        }
    }
}

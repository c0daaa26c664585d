//! A dump that is read as its text comes: its definitions first, and then its body.

ghost use Rattle.std.specs.Prelude.{◌≡◌, ◌≤◌, ℕ, List, length, take, false, Err, IfOk, IfSome};
ghost use Rattle.vcd_read.specs.ByteConsumers.{ContinuesAs};
ghost use Rattle.vme_bind.specs.DumpReading.{dump_ahead};
ghost use Rattle.vme_bind.specs.TextCapture.{GivesBy, recording_of_text};
ghost use Rattle.vme_bind.specs.Wants.{is_memory_fault};
ghost use Rattle.vme_bind.specs.declared.fault.CaptureFault.TheVariants.{Dump};

use crate::binding::Binding;
use crate::fault::CaptureFault;
use crate::input_fault::{InputFault, is_memory_fault};
use crate::text_reader::TextReader;
use std::alloc::{AllocError, Global};
use vcd_read::{ByteConsumer, VcdFault, whole_tokens};
use vme_trace::StepVisitor;

/// Reads a dump as its text comes, and gives its recording by a binding to a visitor. No text is kept: the caller holds
/// the bytes that aren't taken. A caller that reads a body in another way, as several workers do, uses the `TextReader`
/// of `Body`, and continues with a `Body` of the `TextReader` that reading gives.
#[derive(Drop)]
pub enum DumpReader<'b, F: StepVisitor> {
    /// The definitions don't end in the bytes that were seen, and no byte was taken.
    Definitions(&'b Binding, F),
    /// The definitions are read, and what was taken of the body.
    Body(TextReader<F>),
    /// The dump, or the binding for it, has a fault.
    Failed(InputFault),
}

impl<'b, F: StepVisitor> DumpReader<'b, F> {
    /// The reader before the first byte.
    pub fn new(binding: &'b Binding, visitor: F) -> DumpReader<'b, F>
        ensures { (rest : List ℕ) → dump_ahead result rest ≡ recording_of_text binding.now rest }
    {
        DumpReader::Definitions(binding, visitor)
    }

    /// The reader of a dump that has `fault`. It takes all bytes that follow, and looks at none. Want of memory is no
    /// fault of a dump: it is the only error.
    pub fn failed(fault: CaptureFault) -> Result<DumpReader<'b, F>, AllocError>
        ensures not_want { IfOk result (λ reader. is_memory_fault fault ≡ false) }
        ensures ahead { IfOk result (λ reader. (rest : List ℕ) → dump_ahead reader rest ≡ Err fault) }
    {
        if is_memory_fault(&fault) {
            return Err(AllocError);
        }
        Ok(DumpReader::Failed(InputFault { fault }))
    }

    /// The fault of the dump itself, if one was met.
    pub fn fault(&self) -> Option<VcdFault>
        ensures { IfSome result (λ fault. (rest : List ℕ) → dump_ahead self.now rest ≡ Err (Dump fault)) }
    {
        match self {
            DumpReader::Failed(first) => match first.fault {
                CaptureFault::Dump(fault) => Some(fault),
                CaptureFault::Binding(_) => None,
            },
            _ => None,
        }
    }

    /// Takes a prefix of `bytes`, up to their last white space, and returns its length. It takes nothing while the
    /// definitions don't end in it, and all bytes after a fault. The only error is want of memory.
    pub fn take(self, alloc: Global, bytes: &[u8]) -> Result<(DumpReader<'b, F>, usize), AllocError>
        ensures within { IfOk result (λ made. made.1 ≤ length bytes.now) }
        ensures taken { IfOk result (λ made. ContinuesAs (dump_ahead self.entry) (dump_ahead made.0)
            (take made.1 bytes.now)) }
    {
        let count = whole_tokens(bytes);
        match self {
            DumpReader::Definitions(bound, visitor) => match bound.begin_text(
                alloc,
                &bytes[..count],
                visitor,
            ) {
                Ok(Ok(text)) => Ok((DumpReader::Body(text), count)),
                Ok(Err(visitor)) => Ok((DumpReader::new(bound, visitor), 0)),
                Err(fault) => Ok((DumpReader::failed(fault)?, count)),
            },
            DumpReader::Body(text) => match text.read(alloc, &bytes[..count]) {
                Ok(text) => Ok((DumpReader::Body(text), count)),
                Err(fault) => Ok((DumpReader::failed(fault)?, count)),
            },
            DumpReader::Failed(first) => Ok((DumpReader::Failed(first), bytes.len())),
        }
    }

    /// The visitor that took the recording of the dump, or the first fault. `rest` is the rest of the text.
    pub fn finish(self, alloc: Global, rest: &[u8]) -> Result<F, CaptureFault>
        ensures { GivesBy (λ f. F.recorded f) result (dump_ahead self.entry rest.now) }
    {
        match self {
            DumpReader::Definitions(bound, visitor) => bound.record_text(alloc, rest, visitor),
            DumpReader::Body(text) => match text.read(alloc, rest) {
                Ok(text) => text.finish(alloc),
                Err(fault) => Err(fault),
            },
            DumpReader::Failed(first) => Err(first.fault),
        }
    }
}

impl<F: StepVisitor> ByteConsumer for DumpReader<'_, F> {
    ghost use Rattle.std.specs.Prelude.{Result};
    ghost use Rattle.vme_trace.specs.Trace.{Trace};
    ghost use Rattle.vme_bind.specs.declared.fault.CaptureFault.{CaptureFault};
    ghost use Rattle.vme_bind.specs.DumpReading.{dump_ahead};

    ghost Outcome = { Result Trace CaptureFault };

    ghost ahead = { λ reader. dump_ahead reader };
}

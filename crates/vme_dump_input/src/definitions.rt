//! The definitions of a dump.

ghost use Rattle.std.specs.Prelude.{◌≡◌, ℕ, List, [], ◌++◌, true, None, Ok, IfOk};
ghost use Rattle.vme_trace.specs.Streams.{Reading};
ghost use Rattle.vme_bind.specs.TextCapture.{CaptureFailsBy};
ghost use Rattle.vme_bind.specs.TextReading.{reading_of_text};
ghost use Rattle.vme_listing.specs.Reading.{IsFollowedBy};
ghost use Rattle.vme_stream.specs.Inputs.{longest_input};
ghost use Rattle.vme_stream.specs.Refusals.{input_refusal};
ghost use Rattle.vme_stream.specs.declared.refusal.Input.TheVariants.{Dump};
ghost use Rattle.vme_bind.specs.declared.fault.BindFault.{BindFault};
ghost use Rattle.vme_dump_input.specs.declared.definitions.DumpAfterDefinitions.TheVariants.{Body, Unusable};
ghost use Rattle.vme_dump_input.specs.BufferedInputs.{IsReadTo, not_read};
ghost use Rattle.vme_dump_input.specs.DumpBeginnings.{BeginsDump, HasFaultBefore, HoldsDefinitions};
ghost use Rattle.vme_dump_input.specs.DumpBeginnings.{HoldsDefinitionsIfSome, IsDumpRefused, MayBeRead};
ghost use Rattle.vme_dump_input.specs.DumpBeginnings.{MayBeReadIfSome};
ghost use Rattle.vme_dump_input.specs.DumpBeginnings.{MayBegin};

use crate::buffered_input::BufferedInput;
use crate::definitions_end::DefinitionsEnd;
use std::alloc::{AllocError, Global};
use vcd_read::{VcdFault, whole_tokens};
use vme_bind::{BindFault, Binding, CaptureFault};
use vme_step_reader::{StepReader, begin_last_steps, begin_steps};
use vme_stream::{InFault, Input, Refusal, recorded_in};
use vme_trace::Source;

/// How many bytes a dump has at most.
const LONGEST_DUMP: u64 = 268_435_456;

/// How much room each read of a dump has.
const DUMP_ROOM: usize = 65_536;

/// A buffered input for a dump. It fails if memory runs out.
pub fn dump_input(alloc: Global) -> Result<BufferedInput, AllocError>
    ensures { IfOk result (λ input. input ≡ not_read longest_input DUMP_ROOM) }
{
    BufferedInput::new(alloc, LONGEST_DUMP, DUMP_ROOM)
}

/// The definitions of a dump were read, and none of their bytes taken.
#[derive(Drop)]
pub enum DumpAfterDefinitions {
    /// The reader of its body, and how many bytes its definitions have.
    Body(StepReader, usize),
    /// The binding can't be used on it.
    Unusable(BindFault),
}

/// The refusal for a dump that can't be had.
pub fn unread(fault: InFault) -> Refusal
    ensures { result ≡ input_refusal Dump fault }
{
    Refusal::of_input(Input::Dump, fault)
}

/// The refusal for a fault of a dump. The rest of the dump is read first: if it can't be had, that is the refusal.
pub fn refused_for<D: Source>(dump: &mut D, input: &mut BufferedInput, fault: VcdFault) -> Refusal
    ensures refused { (old : Reading) (done : List ℕ) → IsReadTo old (D.reading dump.old) done input.old
        → input.old.limit ≡ longest_input → HasFaultBefore done input.old fault
        → IsDumpRefused old (D.reading dump.new) result }
    ensures limit { input.new.limit ≡ input.old.limit }
{
    match input.read_rest(dump) {
        Ok(()) => Refusal::of_dump(fault),
        Err(fault) => unread(fault),
    }
}

/// The result where the binding can't be used on the dump. The rest of the dump is read first, since a fault of its own
/// comes before one of the binding.
fn unusable<D: Source>(
    alloc: Global,
    binding: &Binding,
    dump: &mut D,
    input: &mut BufferedInput,
) -> Result<DumpAfterDefinitions, Refusal>
    ensures begun { IfOk result MayBeRead }
    ensures unusable { IfOk result (λ begun. (fault : BindFault) × (begun ≡ Unusable fault)) }
    ensures read { (old : Reading) → IsReadTo old (D.reading dump.old) [] input.old → input.old.limit ≡ longest_input
        → BeginsDump binding.now old (D.reading dump.new) input.new result }
    ensures limit { input.old.limit ≡ longest_input → input.new.limit ≡ longest_input }
{
    while !input.is_whole() {
        if let Err(fault) = input.read(dump) {
            return Err(unread(fault));
        }
    }
    match recorded_in(alloc, binding, input.bytes()) {
        Ok(Ok(_recording)) => Err(Refusal::Memory),
        Ok(Err(fault)) => Ok(DumpAfterDefinitions::Unusable(fault)),
        Err(refusal) => Err(refusal),
    }
}

/// The result for a fault that is found before the body.
fn not_begun<D: Source>(
    alloc: Global,
    binding: &Binding,
    dump: &mut D,
    input: &mut BufferedInput,
    fault: CaptureFault,
) -> Result<DumpAfterDefinitions, Refusal>
    ensures begun { IfOk result MayBeRead }
    ensures unusable { IfOk result (λ begun. (fault : BindFault) × (begun ≡ Unusable fault)) }
    ensures read { (old : Reading) → IsReadTo old (D.reading dump.old) [] input.old → input.old.limit ≡ longest_input
        → ((rest : List ℕ) → IsFollowedBy input.old.is_whole rest
        → CaptureFailsBy fault (reading_of_text binding.now (input.old.held ++ rest)))
        → BeginsDump binding.now old (D.reading dump.new) input.new result }
    ensures limit { input.old.limit ≡ longest_input → input.new.limit ≡ longest_input }
{
    match fault {
        CaptureFault::Dump(fault) => Err(refused_for(dump, input, fault)),
        CaptureFault::Binding(_) => unusable(alloc, binding, dump, input),
    }
}

/// Begins with the body, where all of the dump is held.
fn begin_last<D: Source>(
    alloc: Global,
    binding: &Binding,
    dump: &mut D,
    input: &mut BufferedInput,
) -> Result<DumpAfterDefinitions, Refusal>
    requires { input.old.is_whole ≡ true }
    ensures begun { IfOk result MayBeRead }
    ensures held { IfOk result (HoldsDefinitions input.new) }
    ensures read { (old : Reading) → IsReadTo old (D.reading dump.old) [] input.old → input.old.limit ≡ longest_input
        → BeginsDump binding.now old (D.reading dump.new) input.new result }
    ensures limit { input.old.limit ≡ longest_input → input.new.limit ≡ longest_input }
{
    match begin_last_steps(alloc, binding, input.bytes()) {
        Ok((reader, count)) => Ok(DumpAfterDefinitions::Body(reader, count)),
        Err(fault) => not_begun(alloc, binding, dump, input, fault),
    }
}

/// The reader of the body, and after how many bytes the body begins.
fn body_after(found: (StepReader, usize)) -> DumpAfterDefinitions
    ensures { result ≡ Body found.0 found.1 }
{
    let (reader, count) = found;
    DumpAfterDefinitions::Body(reader, count)
}

/// Begins with the body, if the definitions end in what is held.
fn begin<D: Source>(
    alloc: Global,
    binding: &Binding,
    dump: &mut D,
    input: &mut BufferedInput,
) -> Result<Option<DumpAfterDefinitions>, Refusal>
    ensures begun { IfOk result MayBeReadIfSome }
    ensures held { IfOk result (HoldsDefinitionsIfSome input.new) }
    ensures read { (old : Reading) → IsReadTo old (D.reading dump.old) [] input.old → input.old.limit ≡ longest_input
        → MayBegin binding.now old (D.reading dump.new) input.old input.new result }
    ensures left { result ≡ Ok None → input.new ≡ input.old }
    ensures limit { input.old.limit ≡ longest_input → input.new.limit ≡ longest_input }
{
    match begin_steps(alloc, binding, input.bytes()) {
        Ok(Some(found)) => Ok(Some(body_after(found))),
        Ok(None) => Ok(None),
        Err(fault) => match not_begun(alloc, binding, dump, input, fault) {
            Ok(begun) => Ok(Some(begun)),
            Err(refusal) => Err(refusal),
        },
    }
}

/// Reads the definitions of a dump, and takes none of their bytes: they are still held. It fails if the dump can't be
/// read or is too long, if a fault of the dump is met, or if memory runs out.
pub fn read_definitions<D: Source>(
    alloc: Global,
    binding: &Binding,
    dump: &mut D,
    input: &mut BufferedInput,
) -> Result<DumpAfterDefinitions, Refusal>
    ensures begun { IfOk result MayBeRead }
    ensures held { IfOk result (HoldsDefinitions input.new) }
    ensures read { (old : Reading) → IsReadTo old (D.reading dump.old) [] input.old → input.old.limit ≡ longest_input
        → BeginsDump binding.now old (D.reading dump.new) input.new result }
    ensures limit { input.old.limit ≡ longest_input → input.new.limit ≡ longest_input }
{
    let mut search = DefinitionsEnd::new();
    while !input.is_whole() {
        if let Err(fault) = input.read(dump) {
            return Err(unread(fault));
        }
        let held = input.bytes();
        if search.may_end(&held[..whole_tokens(held)]) {
            match begin(alloc, binding, dump, input) {
                Ok(Some(begun)) => return Ok(begun),
                Ok(None) => {}
                Err(refusal) => return Err(refusal),
            }
        }
    }
    begin_last(alloc, binding, dump, input)
}

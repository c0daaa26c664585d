//! The definitions of a dump, after which steps come.

ghost use Rattle.std.specs.Prelude.{◌≡◌, ◌≤◌, ◌++◌, ℕ, List, [], IfErr, IfNone, IfOk, IfSome, None, Ok, Err, drop};
ghost use Rattle.std.specs.Prelude.{length};
ghost use Rattle.vme_trace.specs.WellFormed.{malformed_step};
ghost use Rattle.vcd_read.specs.Reading.{line_behind};
ghost use Rattle.vcd_read.specs.Tokens.{Token, tokens, tokens_from};
ghost use Rattle.vcd_read.specs.declared.fault.VcdFault.{VcdFault};
ghost use Rattle.vme_bind.specs.declared.fault.CaptureFault.TheVariants.{Dump};
ghost use Rattle.vme_bind.specs.SpeculativeReading.{with_recording};
ghost use Rattle.vme_bind.specs.TextCapture.{CaptureFailsBy};
ghost use Rattle.vme_bind.specs.TextPieces.{text_reached};
ghost use Rattle.vme_bind.specs.TextReading.{or_fault, reading_ahead, reading_of_text};
ghost use Rattle.vme_step_reader.specs.StepReading.{whole_reading};

use crate::step_reader::StepReader;
use std::alloc::Global;
use vcd_read::whole_tokens;
use vme_bind::{Binding, CaptureFault, StepCollector, TextReader};
use vme_summary::GhostSteps;

/// The reader after the definitions, where nothing of the body is read yet. A fault of the binding is found here.
fn before_steps(text: TextReader<StepCollector>) -> Result<StepReader, CaptureFault>
    requires none { (text_reached text).body.progress.accumulator.recorded.steps ≡ [] }
    requires formed { (ts more : List Token)
        → malformed_step (reading_ahead (text_reached text) ts more).recorded ≡ None }
    ensures reached { IfOk result (λ reader. text_reached text ≡ with_recording reader.given reader.speculative) }
    ensures fits { IfOk result (λ reader. (text_reached text).fault ≡ None) }
    ensures none { IfOk result (λ reader. reader.given.steps ≡ []) }
    ensures formed { IfOk result (λ reader. malformed_step reader.given ≡ None) }
    ensures sound { IfOk result (λ reader. (rest : List ℕ)
        → malformed_step (whole_reading reader rest).recorded ≡ None) }
    ensures refused { IfErr result (λ fault. (ts more : List Token) → CaptureFailsBy fault
        (or_fault (text_reached text).fault (reading_ahead (text_reached text) ts more))) }
{
    if let Some(fault) = text.binding_fault() {
        return Err(CaptureFault::Binding(fault));
    }
    let (speculative, taken) = text.into_speculative();
    Ok(StepReader {
        speculative,
        opening: taken.opening,
        given: GhostSteps::new(),
    })
}

/// Begins with the definitions in `front`, a prefix of a text that ends at a token boundary. Returns the reader and how
/// many bytes the definitions take, or `None` if they don't end in `front`.
fn begin_at(
    alloc: Global,
    binding: &Binding,
    front: &[u8],
) -> Result<Option<(StepReader, usize)>, CaptureFault>
    ensures within { IfOk result (λ found. IfSome found (λ begun. begun.1 ≤ length front.now)) }
    ensures none { IfOk result (λ found. IfSome found (λ begun. begun.0.given.steps ≡ [])) }
    ensures formed { IfOk result (λ found. IfSome found (λ begun. malformed_step begun.0.given ≡ None)) }
    ensures sound { IfOk result (λ found. IfSome found (λ begun. (rest : List ℕ)
        → malformed_step (whole_reading begun.0 rest).recorded ≡ None)) }
    ensures line { IfOk result (λ found. IfSome found (λ begun.
        line_behind begun.0.speculative.body.line (drop begun.1 front.now) ≡ line_behind 1 front.now)) }
    ensures begins { IfOk result (λ found. IfSome found (λ begun. (whole : List ℕ) (more : List Token)
        → tokens whole ≡ tokens front.now ++ more
        → reading_of_text binding.now whole ≡ Ok (reading_ahead (with_recording begun.0.given begun.0.speculative)
        (tokens_from begun.0.speculative.body.line (drop begun.1 front.now)) more))) }
    ensures fails { IfErr result (λ fault. (whole : List ℕ) (more : List Token)
        → tokens whole ≡ tokens front.now ++ more → CaptureFailsBy fault (reading_of_text binding.now whole)) }
    ensures unended { IfOk result (λ found. IfNone found ((fault : VcdFault)
        × (reading_of_text binding.now front.now ≡ Err (Dump fault)))) }
{
    match binding.begin_before_body(alloc, front, StepCollector::new(alloc, binding.lines())) {
        Ok(Ok((text, left))) => match before_steps(text) {
            Ok(reader) => Ok(Some((reader, front.len() - left.len()))),
            Err(fault) => Err(fault),
        },
        Ok(Err(_)) => Ok(None),
        Err(fault) => Err(fault),
    }
}

/// Begins with the definitions of a text whose first bytes are `front`. Returns the reader and how many of these bytes
/// the definitions take, or `None` if they don't end within the whole tokens of `front`. A fault of the definitions, or
/// of the binding, is that of every text with these first bytes.
pub fn begin_steps(
    alloc: Global,
    binding: &Binding,
    front: &[u8],
) -> Result<Option<(StepReader, usize)>, CaptureFault>
    ensures within { IfOk result (λ found. IfSome found (λ begun. begun.1 ≤ length front.now)) }
    ensures none { IfOk result (λ found. IfSome found (λ begun. begun.0.given.steps ≡ [])) }
    ensures formed { IfOk result (λ found. IfSome found (λ begun. malformed_step begun.0.given ≡ None)) }
    ensures sound { IfOk result (λ found. IfSome found (λ begun. (rest : List ℕ)
        → malformed_step (whole_reading begun.0 rest).recorded ≡ None)) }
    ensures begins { IfOk result (λ found. IfSome found (λ begun. (rest : List ℕ)
        → reading_of_text binding.now (front.now ++ rest)
        ≡ Ok (whole_reading begun.0 (drop begun.1 front.now ++ rest)))) }
    ensures fails { IfErr result (λ fault. (rest : List ℕ)
        → CaptureFailsBy fault (reading_of_text binding.now (front.now ++ rest))) }
{
    let count = whole_tokens(front);
    begin_at(alloc, binding, &front[..count])
}

/// As `begin_steps`, of a whole text: definitions that don't end are a fault.
pub fn begin_last_steps(
    alloc: Global,
    binding: &Binding,
    text: &[u8],
) -> Result<(StepReader, usize), CaptureFault>
    ensures within { IfOk result (λ begun. begun.1 ≤ length text.now) }
    ensures none { IfOk result (λ begun. begun.0.given.steps ≡ []) }
    ensures formed { IfOk result (λ begun. malformed_step begun.0.given ≡ None) }
    ensures sound { IfOk result (λ begun. (rest : List ℕ)
        → malformed_step (whole_reading begun.0 rest).recorded ≡ None) }
    ensures begins { IfOk result (λ begun. reading_of_text binding.now text.now
        ≡ Ok (whole_reading begun.0 (drop begun.1 text.now))) }
    ensures fails { IfErr result (λ fault. CaptureFailsBy fault (reading_of_text binding.now text.now)) }
{
    match begin_at(alloc, binding, text) {
        Ok(Some(begun)) => Ok(begun),
        Ok(None) => Err(unended(alloc, binding, text)),
        Err(fault) => Err(fault),
    }
}

/// The fault of definitions that don't end.
fn unended(alloc: Global, binding: &Binding, text: &[u8]) -> CaptureFault
    requires { (fault : VcdFault) × (reading_of_text binding.now text.now ≡ Err (Dump fault)) }
    ensures { CaptureFailsBy result (reading_of_text binding.now text.now) }
{
    match binding.record_text(alloc, text, StepCollector::new(alloc, binding.lines())) {
        Ok(_) => unreachable!(),
        Err(fault) => fault,
    }
}

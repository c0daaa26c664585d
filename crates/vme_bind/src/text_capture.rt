//! The recording that a binding makes of the text of a dump.

ghost use Rattle.std.specs.Prelude.{◌≡◌, ℕ, List, IfOk, None, map, replicate};
ghost use Rattle.std.specs.List.{fold};
ghost use Rattle.vme_trace.specs.WellFormed.{malformed_step};
ghost use Rattle.vme_trace.specs.LineNumbers.{line_count};
ghost use Rattle.vme_trace.specs.declared.level.Level.TheVariants.{Unknown};
ghost use Rattle.vme_bind.specs.Answers.{BindFails};
ghost use Rattle.vme_bind.specs.declared.fault.BindFaultKind.TheVariants.{Memory};
ghost use Rattle.vme_bind.specs.Binding.{BoundLines};
ghost use Rattle.vme_bind.specs.PathSearch.{found_in, none_found, with_variable};
ghost use Rattle.vme_bind.specs.BoundGroups.{bound_groups_in};
ghost use Rattle.vme_bind.specs.declared.bound_groups.BoundGroup.{BoundGroup};
ghost use Rattle.vme_bind.specs.BuilderState.{IsBegun};
ghost use Rattle.vcd_read.specs.declared.dump.Variable.{Variable};
ghost use Rattle.vcd_read.specs.Sections.{defined};
ghost use Rattle.vme_bind.specs.TextCapture.{CaptureFailsBy, GivesBy, body_recording, capture_of_text};
ghost use Rattle.vme_bind.specs.TextCapture.{recording_after};
ghost use Rattle.vme_bind.specs.TextCapture.{recording_of_text};

use crate::binding::Binding;
use crate::bound_groups::BoundGroup;
use crate::capture::{captured, opening_of};
use crate::capture_builder::{CaptureBuilder, ChangeDiscarder};
use crate::fault::{BindFault, BindFaultKind, CaptureFault};
use crate::net_lines::NetLines;
use crate::recorder::Recorder;
use crate::search::Search;
use crate::step_collector::StepCollector;
use std::alloc::{AllocError, Global};
use vcd_read::{Head, read_definitions};
use vme_trace::{Capture, Lines, StepVisitor};

/// The builder for `visitor`, before any change. `visitor` has the opening.
pub(crate) fn builder_of<F: StepVisitor>(
    alloc: Global,
    lines: &Lines,
    bound_groups: &[BoundGroup],
    visitor: F,
) -> Result<CaptureBuilder<F>, AllocError>
    requires { lines.now.levels ≡ replicate line_count Unknown }
    ensures { IfOk result (IsBegun lines.now.slots bound_groups.now) }
{
    let line_bits = NetLines::of_bound_groups(alloc, lines, bound_groups)?;
    let opening = opening_of(lines, bound_groups);
    let recorder = Recorder::new(opening);
    let mut visitor = visitor;
    visitor.open(&opening);
    Ok(CaptureBuilder::new(line_bits, recorder, visitor))
}

/// Reads the body after the definitions `head`.
fn record_body<F: StepVisitor>(
    alloc: Global,
    made: CaptureBuilder<F>,
    head: &Head<'_>,
) -> Result<F, CaptureFault>
    ensures { (slots : ℕ) (bound_groups : List BoundGroup) → IsBegun slots bound_groups made
        → GivesBy (λ f. F.recorded f) result (body_recording slots bound_groups head.now) }
{
    match head.read_body(alloc, made) {
        Ok(end) => Ok(end.into_visitor()),
        Err(fault) => Err(CaptureFault::Dump(fault)),
    }
}

/// Gives `visitor` the recording that `bound_groups` make of the body after the definitions `head`.
fn record_bound_groups<F: StepVisitor>(
    alloc: Global,
    lines: &Lines,
    bound_groups: &[BoundGroup],
    head: &Head<'_>,
    visitor: F,
) -> Result<F, CaptureFault>
    requires { lines.now.levels ≡ replicate line_count Unknown }
    ensures { GivesBy (λ f. F.recorded f) result (body_recording lines.now.slots bound_groups.now head.now) }
{
    match builder_of(alloc, lines, bound_groups, visitor) {
        Ok(made) => record_body(alloc, made, head),
        Err(_) => Err(CaptureFault::Binding(want_of_memory())),
    }
}

/// The fault of a binding that memory ran out, which is at line 0.
pub(crate) fn want_of_memory() -> BindFault
    ensures { result ≡ record { line = 0; kind = Memory } }
{
    BindFault {
        line: 0,
        kind: BindFaultKind::Memory,
    }
}

/// The first fault of the body after the definitions `head`, or, where the body has none, `fault`.
fn first_fault(alloc: Global, head: &Head<'_>, fault: BindFault) -> CaptureFault
    ensures { (b : BoundLines) (variables : List Variable) → BindFails fault (bound_groups_in variables b.assignments)
        → CaptureFailsBy result (recording_after b (defined head.now variables)) }
{
    match head.read_body(alloc, ChangeDiscarder) {
        Ok(_) => CaptureFault::Binding(fault),
        Err(first) => CaptureFault::Dump(first),
    }
}

impl Binding {
    /// The recording that the binding makes of the dump `text`, which is read once and isn't kept.
    ///
    /// The result is that of `capture` for the dump that `read_vcd` reads. A fault of the dump takes precedence over
    /// one of the binding.
    pub fn capture_text(&self, alloc: Global, text: &[u8]) -> Result<Capture, CaptureFault>
        ensures { GivesBy (λ capture. capture) result (capture_of_text self.now text.now) }
    {
        match self.record_text(alloc, text, StepCollector::new(alloc, self.lines())) {
            Ok(kept) => match captured(kept.opening, kept.steps) {
                Ok(capture) => Ok(capture),
                Err(fault) => Err(CaptureFault::Binding(fault)),
            },
            Err(fault) => Err(fault),
        }
    }

    /// Gives the recording that the binding makes of the dump `text` to `visitor`, step by step. The steps aren't kept
    /// here, and there may be any number of them. A fault of the dump takes precedence over one of the binding.
    pub fn record_text<F: StepVisitor>(
        &self,
        alloc: Global,
        text: &[u8],
        visitor: F,
    ) -> Result<F, CaptureFault>
        ensures gives { GivesBy (λ f. F.recorded f) result (recording_of_text self.now text.now) }
        ensures formed { IfOk result (λ f. malformed_step (F.recorded f) ≡ None) }
    {
        let search = match Search::new(alloc, self.assignments()) {
            Ok(search) => search,
            Err(_) => return Err(CaptureFault::Binding(want_of_memory())),
        };
        match read_definitions(alloc, text, search) {
            Ok((head, search)) => self.record_head(alloc, &head, &search, visitor),
            Err(fault) => Err(CaptureFault::Dump(fault)),
        }
    }

    /// Gives `visitor` the recording of the body after the definitions `head`. `search` has what was found of their
    /// variables.
    fn record_head<F: StepVisitor>(
        &self,
        alloc: Global,
        head: &Head<'_>,
        search: &Search<'_>,
        visitor: F,
    ) -> Result<F, CaptureFault>
        ensures { (variables : List Variable) → map found_in search.now.searches.items
            ≡ fold with_variable (map none_found self.now.assignments) variables
            → GivesBy (λ f. F.recorded f) result (recording_after self.now (defined head.now variables)) }
    {
        match search.bound_groups(alloc) {
            Ok(bound_groups) => record_bound_groups(
                alloc,
                self.lines(),
                &bound_groups,
                head,
                visitor,
            ),
            Err(fault) => Err(first_fault(alloc, head, fault)),
        }
    }
}

//! The recording that is made as a dump is read.

ghost use Rattle.std.specs.Prelude.{◌≡◌, ℕ, OnOk};
ghost use Rattle.vme_bind.specs.Recording.{AreLines};
ghost use Rattle.vme_bind.specs.NetLines.{line_bits_of};
ghost use Rattle.vme_bind.specs.BuilderState.{builder_change, builder_instant};
ghost use Rattle.vme_bind.specs.AssignedLines.{speculative_change, speculative_instant, none_assigned};

use crate::assigned_lines::AssignedLines;
use crate::net_lines::NetLines;
use crate::recorder::Recorder;
use std::alloc::{AllocError, Global};
use std::marker::Model;
use vcd_read::ChangeVisitor;
use vme_trace::StepVisitor;

/// Makes the recording of a dump from its changes: the lines of each net, the levels of the lines, and the visitor that
/// takes the steps. A change of a net without lines changes nothing.
#[derive(Drop)]
pub(crate) struct CaptureBuilder<F: StepVisitor> {
    line_bits: NetLines,
    recorder: Recorder,
    visitor: F,
}

impl<F: StepVisitor> Model for CaptureBuilder<F> {
    ghost use Rattle.std.specs.Prelude.{ℕ};
    ghost use Rattle.vme_bind.specs.BuilderState.{BuilderState};
    ghost use Rattle.vme_bind.specs.Recording.{AreLines};
    ghost use Rattle.vme_bind.specs.NetLines.{line_bits_of};

    ghost Value = { BuilderState };

    ghost view = { λ m. record { line_bits = m.line_bits; progress = m.recorder; recorded = F.recorded m.visitor } };

    ghost invariant = { λ m. (net : ℕ) → AreLines m.recorder.now.slots (line_bits_of m.line_bits net) };
}

impl<F: StepVisitor> CaptureBuilder<F> {
    /// The builder that continues the recording of `visitor` from the levels of `recorder`.
    pub fn new(line_bits: NetLines, recorder: Recorder, visitor: F) -> CaptureBuilder<F>
        requires { (net : ℕ) → AreLines recorder.now.slots (line_bits_of line_bits net) }
        ensures { result ≡ record { line_bits = line_bits; progress = recorder; recorded = F.recorded visitor } }
    {
        CaptureBuilder {
            line_bits,
            recorder,
            visitor,
        }
    }

    /// The lines of the nets, the levels of the lines, and the visitor that took the recording.
    pub fn into_parts(self) -> (NetLines, Recorder, F)
        ensures parts { self ≡ record { line_bits = result.0; progress = result.1; recorded = F.recorded result.2 } }
        ensures lines { (net : ℕ) → AreLines result.1.now.slots (line_bits_of result.0 net) }
    {
        let CaptureBuilder {
            line_bits,
            recorder,
            visitor,
        } = self;
        (line_bits, recorder, visitor)
    }

    /// The visitor that took the recording.
    pub fn into_visitor(self) -> F
        ensures { F.recorded result ≡ self.recorded }
    {
        self.visitor
    }

    /// Ends an instant at which several lines may have another level than before.
    #[inline(never)]
    fn end_lines(&mut self, alloc: Global, time: u64) -> Result<(), AllocError>
        ensures { OnOk result (self.new ≡ builder_instant self.old time) }
    {
        match self.recorder.end_with_lines(alloc, time)? {
            Some(ended) => self.visitor.step(alloc, ended),
            None => Ok(()),
        }
    }
}

impl<F: StepVisitor> ChangeVisitor for CaptureBuilder<F> {
    ghost use Rattle.vme_bind.specs.BuilderState.{BuilderState};

    ghost Taken = { BuilderState };

    ghost taken = { λ r. r };

    ghost with_change = { builder_change };

    ghost with_instant = { builder_instant };

    #[inline(always)]
    fn change(
        &mut self,
        alloc: Global,
        net: u32,
        size: u32,
        digits: &[u8],
    ) -> Result<(), AllocError> {
        let _ = alloc;
        self.recorder
            .set_by_digits(self.line_bits.of(net), size, digits)
    }

    #[inline(always)]
    fn end_instant(&mut self, alloc: Global, time: u64) -> Result<(), AllocError> {
        if self.recorder.is_untouched() {
            return Ok(());
        }
        let Some(line) = self.recorder.lone_line() else {
            return self.end_lines(alloc, time);
        };
        match self.recorder.end_with_line(alloc, time, line) {
            Some(step) => self.visitor.step(alloc, step),
            None => Ok(()),
        }
    }
}

/// A `CaptureBuilder` for a piece that is read ahead. It borrows the lines of the nets, and keeps which lines the piece
/// assigned a level to.
#[derive(Drop)]
pub(crate) struct SpeculativeBuilder<'t, F: StepVisitor> {
    line_bits: &'t NetLines,
    recorder: Recorder,
    visitor: F,
    assigned: AssignedLines,
}

impl<'t, F: StepVisitor> Model for SpeculativeBuilder<'t, F> {
    ghost use Rattle.std.specs.Prelude.{ℕ};
    ghost use Rattle.vme_bind.specs.Recording.{AreLines};
    ghost use Rattle.vme_bind.specs.NetLines.{line_bits_of};
    ghost use Rattle.vme_bind.specs.AssignedLines.{SpeculativeBuilderState};

    ghost Value = { SpeculativeBuilderState };

    ghost view = { λ m. record {
      made = record { line_bits = m.line_bits.now; progress = m.recorder; recorded = F.recorded m.visitor };
      assigned = m.assigned;
    } };

    ghost invariant = { λ m. (net : ℕ) → AreLines m.recorder.now.slots (line_bits_of m.line_bits.now net) };
}

impl<'t, F: StepVisitor> SpeculativeBuilder<'t, F> {
    /// The builder that continues the recording of `visitor` from the levels of `recorder`. No line is assigned a level
    /// yet.
    pub fn new(line_bits: &'t NetLines, recorder: Recorder, visitor: F) -> SpeculativeBuilder<'t, F>
        requires { (net : ℕ) → AreLines recorder.now.slots (line_bits_of line_bits.now net) }
        ensures made { result.made
            ≡ record { line_bits = line_bits.now; progress = recorder; recorded = F.recorded visitor } }
        ensures assigned { result.assigned ≡ none_assigned }
    {
        SpeculativeBuilder {
            line_bits,
            recorder,
            visitor,
            assigned: AssignedLines::none(),
        }
    }

    /// The levels of the lines, the visitor that took the recording, and the lines that were assigned a level.
    pub fn into_parts(self) -> (Recorder, F, AssignedLines)
        ensures progress { self.entry.made.progress ≡ result.0 }
        ensures recorded { self.entry.made.recorded ≡ F.recorded result.1 }
        ensures assigned { self.entry.assigned ≡ result.2 }
    {
        let SpeculativeBuilder {
            line_bits: _,
            recorder,
            visitor,
            assigned,
        } = self;
        (recorder, visitor, assigned)
    }

    /// Ends an instant at which several lines may have another level than before.
    #[inline(never)]
    fn end_lines(&mut self, alloc: Global, time: u64) -> Result<(), AllocError>
        ensures { OnOk result (self.new ≡ speculative_instant self.old time) }
    {
        match self.recorder.end_with_lines(alloc, time)? {
            Some(ended_ahead) => self.visitor.step(alloc, ended_ahead),
            None => Ok(()),
        }
    }
}

impl<F: StepVisitor> ChangeVisitor for SpeculativeBuilder<'_, F> {
    ghost use Rattle.vme_bind.specs.AssignedLines.{SpeculativeBuilderState};

    ghost Taken = { SpeculativeBuilderState };

    ghost taken = { λ r. r };

    ghost with_change = { speculative_change };

    ghost with_instant = { speculative_instant };

    #[inline(always)]
    fn change(
        &mut self,
        alloc: Global,
        net: u32,
        size: u32,
        digits: &[u8],
    ) -> Result<(), AllocError> {
        let _ = alloc;
        let line_bits = self.line_bits.of(net);
        self.assigned.assign(line_bits);
        self.recorder.set_by_digits(line_bits, size, digits)
    }

    #[inline(always)]
    fn end_instant(&mut self, alloc: Global, time: u64) -> Result<(), AllocError> {
        if self.recorder.is_untouched() {
            return Ok(());
        }
        let Some(line) = self.recorder.lone_line() else {
            return self.end_lines(alloc, time);
        };
        match self.recorder.end_with_line(alloc, time, line) {
            Some(made) => self.visitor.step(alloc, made),
            None => Ok(()),
        }
    }
}

/// A visitor that discards the changes.
#[derive(Clone, Copy)]
pub(crate) struct ChangeDiscarder;

impl ChangeVisitor for ChangeDiscarder {
    ghost Taken = { Unit {0} };

    ghost taken = { λ p. tt };

    ghost with_change = { λ t net bits. t };

    ghost with_instant = { λ t time. t };

    fn change(
        &mut self,
        alloc: Global,
        net: u32,
        size: u32,
        digits: &[u8],
    ) -> Result<(), AllocError> {
        let _ = (alloc, net, size, digits.len());
        Ok(())
    }

    fn end_instant(&mut self, alloc: Global, time: u64) -> Result<(), AllocError> {
        let _ = (alloc, time);
        Ok(())
    }
}

//! The recording that a binding makes of a dump.

ghost use Rattle.std.specs.Prelude.{◌≡◌, List, None, IfOk, length, replicate};
ghost use Rattle.vme_trace.specs.WellFormed.{malformed_step};
ghost use Rattle.vme_trace.specs.LineNumbers.{line_count};
ghost use Rattle.vme_trace.specs.declared.level.Level.TheVariants.{Unknown};
ghost use Rattle.vcd_read.specs.declared.dump.Instant.{Instant};
ghost use Rattle.vme_bind.specs.Answers.{BindGives};
ghost use Rattle.vme_bind.specs.Capture.{levels_after, recording, limited, capture_of};

use crate::binding::Binding;
use crate::bound_groups::{BoundGroup, LineSource};
use crate::fault::{BindFault, BindFaultKind};
use crate::net_lines::{NetLines, line_source};
use crate::recorder::Recorder;
use std::alloc::{AllocError, Global};
use vcd_read::{Dump, Instant as DumpInstant};
use vme_trace::{Capture, LINE_COUNT, Line, Lines, Step};

/// The levels before any change: a line that is bound to a constant level has it, each other line is unknown.
pub(crate) fn opening_of(lines: &Lines, bound_groups: &[BoundGroup]) -> Lines
    requires { lines.now.levels ≡ replicate line_count Unknown }
    ensures { (instants : List Instant) → result ≡ levels_after lines.now.slots bound_groups.now instants 0 }
{
    let mut opening = *lines;
    for number in 0..LINE_COUNT {
        if let Some(line) = Line::from_number(number) {
            match line_source(lines, bound_groups, line) {
                Some(LineSource::Always(level)) => opening.set(line, level),
                Some(LineSource::Bit(_)) => {}
                None => {}
            }
        }
    }
    opening
}

/// The opening, and the steps at the instants of a dump.
fn record_all(
    alloc: Global,
    lines: &Lines,
    bound_groups: &[BoundGroup],
    instants: &[DumpInstant],
) -> Result<(Lines, Vec<Step>), AllocError>
    requires { lines.now.levels ≡ replicate line_count Unknown }
    ensures { IfOk result (λ made. recording lines.now.slots bound_groups.now instants.now (length instants.now)
        ≡ record { opening = made.0; steps = made.1.items }) }
{
    let line_bits = NetLines::of_bound_groups(alloc, lines, bound_groups)?;
    let opening = opening_of(lines, bound_groups);
    let mut recorder = Recorder::new(opening);
    let mut steps = Vec::new(alloc);
    for instant in instants {
        if let Some(step) = recorder.record(
            alloc,
            &line_bits,
            instant.time,
            instant.values.as_slice(),
        )? {
            steps.push(step)?;
        }
    }
    Ok((opening, steps))
}

/// The recording with `opening` and `steps`, or `TooManySteps`.
pub(crate) fn captured(opening: Lines, steps: Vec<Step>) -> Result<Capture, BindFault>
    requires { malformed_step (record { opening = opening; steps = steps.items }) ≡ None }
    ensures { result ≡ limited (record { opening = opening; steps = steps.items }) }
{
    Capture::from_well_formed(opening, steps).ok_or(BindFault {
        line: 0,
        kind: BindFaultKind::TooManySteps,
    })
}

impl Binding {
    /// The recording that the binding makes of a dump.
    ///
    /// Each line has the level of the last change of its bit; before the first, and where the bit is x, it is unknown.
    /// A bit z is high on a bused line and unknown on a net of a daisy chain. A line that is bound to a level has it
    /// from the opening on. There is a step at each time of the dump at which some line has another level than before.
    ///
    /// An error names the first line of the binding whose source the dump lacks, has twice, or has in another width
    /// than its lines. Over 268,435,456 steps, and want of memory, are faults at line 0.
    pub fn capture(&self, alloc: Global, dump: &Dump) -> Result<Capture, BindFault>
        ensures { BindGives (λ capture. capture) result (capture_of self.now dump.now) }
    {
        let bound_groups = BoundGroup::all(alloc, self.assignments(), dump.variables())?;
        let (opening, steps) = record_all(alloc, self.lines(), &bound_groups, dump.instants())?;
        captured(opening, steps)
    }
}

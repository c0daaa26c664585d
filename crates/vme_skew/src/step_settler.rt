//! A recording settled by a skew as its steps come.

ghost use Rattle.std.specs.Prelude.{◌≡◌, ◌++◌, true, IfOk, OnErr, OnOk, None};
ghost use Rattle.std.specs.Option.{option_to_list};
ghost use Rattle.vme_trace.specs.WellFormed.{malformed_step};
ghost use Rattle.vme_skew.specs.Settled.{settled};
ghost use Rattle.vme_skew.specs.Settling.{IsSettledSoFar, failed, reached_by, taken, unsettled};

use crate::group::StepGroup;
use std::alloc::{AllocError, Global};
use std::marker::Model;
use vme_summary::GhostSteps;
use vme_trace::{Lines, Step};

/// Settles the steps of a recording as they come, by a skew in time units of the dump. Of the steps only the changes of
/// the current group are kept.
///
/// The steps that come out are those of the settled recording, as long as no step is earlier than a time that was known
/// before it: the time of another step, or one that was reached. After a call that fails for want of memory nothing is
/// said of the steps that come out.
#[derive(Drop)]
pub struct StepSettler {
    skew: u64,
    opening: Lines,
    group: StepGroup,
    /// Whether a step came that belongs to the group.
    is_begun: bool,
    /// The latest time that is known.
    reached: u64,
    /// Whether no step came earlier than a time that was known, and there was memory for all.
    in_order: bool,
    given: GhostSteps,
    out: GhostSteps,
}

impl Model for StepSettler {
    ghost use Rattle.vme_skew.specs.Settling.{KeepsGroup, Settling};

    ghost Value = { Settling };

    ghost view = { λ s. record {
      skew = s.skew;
      given = record { opening = s.opening; steps = s.given.items };
      out = s.out.items;
      reached = s.reached;
      in_order = s.in_order;
    } };

    ghost invariant = { λ s. KeepsGroup
        (record {
          skew = s.skew;
          given = record { opening = s.opening; steps = s.given.items };
          out = s.out.items;
          reached = s.reached;
          in_order = s.in_order;
        })
        s.is_begun s.group };
}

/// The steps of `out`, and then that of `settled`, if there is one.
fn with_settled(out: &GhostSteps, settled: &Option<Step>) -> GhostSteps
    ensures { result.items ≡ out.now.items ++ option_to_list settled.now }
{
    match settled {
        Some(step) => out.and(step),
        None => out.and_all(&GhostSteps::new()),
    }
}

impl StepSettler {
    /// The settler before the first step.
    pub fn new(alloc: Global, opening: Lines, skew: u64) -> StepSettler
        ensures { result ≡ unsettled skew opening }
    {
        StepSettler {
            skew,
            opening,
            group: StepGroup::new(alloc, opening),
            is_begun: false,
            reached: 0,
            in_order: true,
            given: GhostSteps::new(),
            out: GhostSteps::new(),
        }
    }

    /// Takes the step that follows. If it begins another group, the result is the step of the group before, if that
    /// makes one. It fails if memory runs out, and then nothing is said of later results.
    pub fn take(&mut self, alloc: Global, step: &Step) -> Result<Option<Step>, AllocError>
        ensures taken { IfOk result (λ made. self.new ≡ taken self.old step.now made) }
        ensures settled { IsSettledSoFar self.new }
        ensures failed { OnErr result (self.new ≡ failed self.old) }
    {
        let in_order = self.in_order && self.reached <= step.time;
        self.in_order = false;
        let is_over = self.group.is_over(step.time, self.skew);
        let settled = self
            .group
            .end_if(alloc, is_over || !self.is_begun, step.time)?;
        self.group.take_any(step.changes.as_slice())?;
        self.is_begun = true;
        self.reached = self.reached.max(step.time);
        self.given = self.given.and(step);
        self.out = with_settled(&self.out, &settled);
        self.in_order = in_order;
        Ok(settled)
    }

    /// Ends the current group, if a step at `time` or later doesn't belong to it. The result is then its step, if it
    /// makes one. It fails if memory runs out, and then nothing is said of later results.
    pub fn reach(&mut self, alloc: Global, time: u64) -> Result<Option<Step>, AllocError>
        ensures reached { IfOk result (λ made. self.new ≡ reached_by self.old time made) }
        ensures settled { IsSettledSoFar self.new }
        ensures failed { OnErr result (self.new ≡ failed self.old) }
    {
        let in_order = self.in_order;
        self.in_order = false;
        let is_over = self.group.is_over(time, self.skew);
        let settled = self.group.end_if(alloc, is_over && self.is_begun, time)?;
        self.is_begun = self.is_begun && !is_over;
        self.reached = self.reached.max(time);
        self.out = with_settled(&self.out, &settled);
        self.in_order = in_order;
        Ok(settled)
    }

    /// Ends the last group, where the recording ends. The result is its step, if it makes one. It fails if memory runs
    /// out.
    pub fn end(self, alloc: Global) -> Result<Option<Step>, AllocError>
        ensures { IfOk result (λ made. malformed_step self.given ≡ None → self.in_order ≡ true
            → self.out ++ option_to_list made ≡ (settled self.skew self.given).steps) }
    {
        let mut group = self.group;
        group.end(alloc, 0)
    }
}

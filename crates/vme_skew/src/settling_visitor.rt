//! A visitor that takes a recording, and passes on the settled recording.

ghost use Rattle.std.specs.Prelude.{◌≡◌, ◌+◌, ℕ, [], IfOk, None, OnOk, length, min, nat_lt};
ghost use Rattle.std.specs.Option.{option_to_list};
ghost use Rattle.vme_trace.specs.Followed.{with_steps};
ghost use Rattle.vme_trace.specs.WellFormed.{capture_limit, malformed_step};
ghost use Rattle.vme_skew.specs.Settled.{settled};

use crate::step_settler::StepSettler;
use std::alloc::{AllocError, Global};
use std::marker::{Brand, Model, PhantomData};
use vme_trace::{Lines, Step, StepVisitor};

/// How many steps a recording has at most.
const MOST_STEPS: u32 = 268435456;

/// A skew that is a parameter of a type. Only clauses read it.
pub trait GhostSkew {
    ghost skew: { ℕ };
}

impl GhostSkew for Brand {
    ghost skew = { 0 };
}

/// Takes the steps of a recording as they come, and passes on the steps of the settled recording, as far as they are
/// complete. The skew is in time units of the dump. Of the steps only the changes of the current group are kept.
#[derive(Drop)]
pub struct SettlingVisitor<K: GhostSkew, F: StepVisitor> {
    alloc: Global,
    skew: u64,
    settler: StepSettler,
    /// The visitor of the settled recording.
    taker: F,
    /// How many steps came, but at most `MOST_STEPS + 1`.
    count: u32,
    /// Whether there was memory for all.
    is_whole: bool,
    of: PhantomData<K>,
}

impl<K: GhostSkew, F: StepVisitor> Model for SettlingVisitor<K, F> {
    ghost use Rattle.vme_trace.specs.Trace.{Trace};
    ghost use Rattle.vme_skew.specs.PassedOn.{KeepsSettled};

    ghost Value = { Trace };

    ghost view = { λ v. v.settler.given };

    ghost invariant = { λ v. KeepsSettled K.skew v.skew v.count v.is_whole v.settler (F.recorded v.taker) };
}

/// The count with one step more, but at most `MOST_STEPS + 1`.
fn next_count(count: u32) -> u32
    ensures { result ≡ min (count + 1) (capture_limit + 1) }
{
    if count > MOST_STEPS {
        MOST_STEPS + 1
    } else {
        count + 1
    }
}

/// Passes on a step, if there is one.
fn pass_on<F: StepVisitor>(
    taker: &mut F,
    alloc: Global,
    settled: Option<Step>,
) -> Result<(), AllocError>
    ensures { OnOk result (F.recorded taker.new ≡ with_steps (F.recorded taker.old) (option_to_list settled)) }
{
    match settled {
        Some(step) => taker.step(alloc, step),
        None => Ok(()),
    }
}

impl<K: GhostSkew, F: StepVisitor> SettlingVisitor<K, F> {
    /// The visitor before the first step. `taker` is to take the settled recording.
    pub fn new(alloc: Global, opening: &Lines, skew: u64, taker: F) -> SettlingVisitor<K, F>
        requires { skew ≡ K.skew }
        ensures { result ≡ record { opening = opening.now; steps = [] } }
    {
        let mut taker = taker;
        taker.open(opening);
        SettlingVisitor {
            alloc,
            skew,
            settler: StepSettler::new(alloc, *opening, skew),
            taker,
            count: 0,
            is_whole: true,
            of: PhantomData,
        }
    }

    /// Whether over 268,435,456 steps came.
    pub fn is_too_long(&self) -> bool
        ensures { result ≡ nat_lt capture_limit (length self.now.steps) }
    {
        self.count > MOST_STEPS
    }

    /// Ends the last group, where the recording ends. Returns the visitor that took the settled recording. The only
    /// error is want of memory.
    pub fn finish(self, alloc: Global) -> Result<F, AllocError>
        ensures settled { malformed_step self ≡ None
            → IfOk result (λ taker. F.recorded taker ≡ settled K.skew self) }
        ensures formed { malformed_step self ≡ None
            → IfOk result (λ taker. malformed_step (F.recorded taker) ≡ None) }
    {
        let SettlingVisitor {
            alloc: _,
            skew: _,
            settler,
            taker,
            count: _,
            is_whole,
            of: _,
        } = self;
        if !is_whole {
            return Err(AllocError);
        }
        let mut taker = taker;
        let last = settler.end(alloc)?;
        pass_on(&mut taker, alloc, last)?;
        Ok(taker)
    }
}

impl<K: GhostSkew, F: StepVisitor> StepVisitor for SettlingVisitor<K, F> {
    ghost recorded = { λ v. v };

    fn open(&mut self, opening: &Lines) {
        self.settler = StepSettler::new(self.alloc, *opening, self.skew);
        self.taker.open(opening);
        self.count = 0;
        self.is_whole = true;
    }

    fn step(&mut self, alloc: Global, step: Step) -> Result<(), AllocError> {
        let was_whole = self.is_whole;
        self.is_whole = false;
        let settled = self.settler.take(alloc, &step)?;
        self.count = next_count(self.count);
        pass_on(&mut self.taker, alloc, settled)?;
        self.is_whole = was_whole;
        Ok(())
    }
}

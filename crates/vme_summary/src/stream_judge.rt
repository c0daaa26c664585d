//! Judging a recording as its steps come.

ghost use Rattle.std.specs.Prelude.{◌≡◌, ◌+◌, ◌<◌, ◌≤◌, ◌↔◌, List, [], ◌∷◌, ◌++◌, length, true, IfOk, IsTrue, OnErr};
ghost use Rattle.std.specs.Prelude.{OnOk, Err, None};
ghost use Rattle.vme_trace.specs.Blocks.{block_count};
ghost use Rattle.vme_trace.specs.Followed.{with_steps};
ghost use Rattle.vme_trace.specs.Levels.{Levels};
ghost use Rattle.vme_trace.specs.Trace.{levels_after};
ghost use Rattle.vme_trace.specs.Verdict.{rules_in_force, verdict_by};
ghost use Rattle.vme_trace.specs.WellFormed.{capture_limit, malformed_step};
ghost use Rattle.vme_trace.specs.declared.step.Step.{Step};
ghost use Rattle.vme_listing.specs.Places.{is_well_placed};
ghost use Rattle.vme_listing.specs.Recorded.{listing_of};

use crate::chunk_judge::{ChunkJudge, MOST_STEPS};
use crate::ghost_steps::GhostSteps;
use crate::judged_chunk::JudgedChunk;
use crate::listing_state::ListingState;
use crate::verdict_state::VerdictState;
use std::alloc::{AllocError, Global};
use std::marker::Model;
use vme_listing::Listing;
use vme_trace::{Lines, Step, StepVisitor, Verdict};

/// How many blocks there are at most.
const MOST_BLOCKS: u32 = 4096;

/// How many steps are judged at once.
const AT_ONCE: usize = 16384;

/// Why there is no verdict, and no listing.
#[derive(Clone, Copy, Debug, PartialEq, Eq)]
pub enum NoVerdict {
    /// There are over 268,435,456 steps.
    TooManySteps,
    /// They fill over 4,096 blocks.
    TooManyBlocks,
    /// An allocation failed.
    Memory,
}

/// Judges a recording as its steps come, 16,384 at a time. No steps that have been judged are kept.
#[derive(Drop)]
pub struct StreamJudge<J: ChunkJudge> {
    /// How many steps came, at most `MOST_STEPS + 1`.
    count: u32,
    opening: Lines,
    judging: J,
    /// The steps that came and haven't been judged yet.
    waiting: Vec<Step>,
    taken: GhostSteps,
}

/// Judges a recording for its verdict: without marks, so that nothing is kept of what was judged.
pub type Judge = StreamJudge<VerdictState>;

/// Judges a recording for its listing: its marks are kept.
pub type Lister = StreamJudge<ListingState>;

impl<J: ChunkJudge> Model for StreamJudge<J> {
    ghost use Rattle.vme_trace.specs.Trace.{Trace};
    ghost use Rattle.vme_summary.specs.JudgedSoFar.{KeepsUp};

    ghost Value = { Trace };

    ghost view = { λ w. record { opening = w.opening; steps = w.taken.items } };

    ghost invariant = { λ w. KeepsUp (J.is_past w.judging) w.count w.opening w.taken.items w.waiting.items };
}

/// Adds a step to those that wait, mostly without a call.
#[inline(always)]
fn wait(waiting: &mut Vec<Step>, step: Step) -> Result<(), AllocError>
    ensures items { OnOk result (waiting.new.items ≡ waiting.old.items ++ step ∷ []) }
    ensures stays { OnErr result (waiting.new.items ≡ waiting.old.items) }
{
    if waiting.len() == waiting.capacity() {
        waiting.reserve(1)?;
    }
    waiting.push_reserved(step);
    Ok(())
}

/// Judges the waiting steps, at most 268,435,456 with those before them; then none waits. Few steps get here.
#[cold]
#[inline(never)]
fn judge_waiting<J: ChunkJudge>(
    judging: &mut J,
    alloc: Global,
    waiting: &mut Vec<Step>,
) -> Result<(), AllocError>
    requires { (o : Levels) × (x : List Step) × J.is_past judging.old o x
        × (length x + length waiting.old.items ≤ 268435456) }
    ensures past { OnOk result ((o : Levels) (x : List Step)
        → J.is_past judging.old o x → J.is_past judging.new o (x ++ waiting.old.items)) }
    ensures none { OnOk result (waiting.new.items ≡ []) }
    ensures stays { OnErr result ((o : Levels) (x : List Step)
        → J.is_past judging.old o x → J.is_past judging.new o x) }
    ensures kept { OnErr result (waiting.new.items ≡ waiting.old.items) }
{
    judging.go_on(alloc, waiting)?;
    waiting.clear();
    Ok(())
}

impl<J: ChunkJudge> StreamJudge<J> {
    /// A judge that no steps have come to.
    pub fn new(alloc: Global, opening: &Lines) -> StreamJudge<J>
        ensures { result ≡ record { opening = opening.now; steps = [] } }
    {
        StreamJudge {
            count: 0,
            opening: *opening,
            judging: J::at(opening),
            waiting: Vec::new(alloc),
            taken: GhostSteps::new(),
        }
    }

    /// Whether the steps that came leave `lines`. All of them are judged first. If there are over 268,435,456, this
    /// isn't known, and the answer is `false`. The only error is that an allocation fails.
    pub fn leaves(&mut self, alloc: Global, lines: &Lines) -> Result<bool, AllocError>
        ensures same { self.new ≡ self.old }
        ensures leaves { IfOk result (λ leaves. IsTrue leaves
            → levels_after self.old.opening self.old.steps ≡ lines.now) }
    {
        if self.count > MOST_STEPS {
            return Ok(false);
        }
        self.judging.go_on(alloc, &self.waiting)?;
        self.waiting.clear();
        Ok(*self.judging.left() == *lines)
    }

    /// Takes steps that were judged by themselves, and follow those that came. The only error is that an allocation
    /// fails.
    pub fn pass(&mut self, alloc: Global, chunk: JudgedChunk<J>) -> Result<(), AllocError>
        requires { chunk.opening ≡ levels_after self.old.opening self.old.steps }
        ensures { OnOk result (self.new ≡ with_steps self.old chunk.steps) }
    {
        let count = self.count + chunk.count;
        let taken = self.taken.and_all(&chunk.taken);
        if count > MOST_STEPS {
            self.count = MOST_STEPS + 1;
            self.taken = taken;
            return Ok(());
        }
        self.judging.go_on(alloc, &self.waiting)?;
        self.waiting.clear();
        self.judging.pass(alloc, chunk.chunk_summary)?;
        self.count = count;
        self.taken = taken;
        Ok(())
    }

    /// The judge of all steps that came, if there are at most 268,435,456 of them, and they fill at most 4,096 blocks
    /// of `size` steps.
    fn finish(self, alloc: Global, size: u32) -> Result<J, NoVerdict>
        requires { (1 ≤ size) × (size ≤ 65536) }
        ensures too_many_steps { (result ≡ Err NoVerdict.TooManySteps) ↔ (capture_limit < length self.steps) }
        ensures too_many_blocks { (result ≡ Err NoVerdict.TooManyBlocks)
            ↔ ((length self.steps ≤ capture_limit) × (4096 < block_count size self)) }
        ensures past { IfOk result (λ judging. J.is_past judging self.opening self.steps) }
    {
        if self.count > MOST_STEPS {
            return Err(NoVerdict::TooManySteps);
        }
        if self.count.div_ceil(size).max(1) > MOST_BLOCKS {
            return Err(NoVerdict::TooManyBlocks);
        }
        let mut judging = self.judging;
        match judging.go_on(alloc, &self.waiting) {
            Ok(()) => Ok(judging),
            Err(_) => Err(NoVerdict::Memory),
        }
    }
}

impl StreamJudge<VerdictState> {
    /// The verdict, by the rules in force, on the recording whose steps came, if it has at most 268,435,456 of them,
    /// and they fill at most 4,096 blocks of `size` steps. It fails if there are more steps or blocks, or if memory
    /// runs out.
    pub fn verdict(self, alloc: Global, size: u32) -> Result<Verdict, NoVerdict>
        requires { (1 ≤ size) × (size ≤ 65536) }
        ensures too_many_steps { (result ≡ Err NoVerdict.TooManySteps) ↔ (capture_limit < length self.steps) }
        ensures too_many_blocks { (result ≡ Err NoVerdict.TooManyBlocks)
            ↔ ((length self.steps ≤ capture_limit) × (4096 < block_count size self)) }
        ensures verdict { malformed_step self ≡ None
            → IfOk result (λ verdict. verdict ≡ verdict_by rules_in_force self) }
    {
        prove!(self.opening.slots() <= 21);
        match self.finish(alloc, size) {
            Ok(judging) => Ok(judging.verdict()),
            Err(why) => Err(why),
        }
    }
}

impl StreamJudge<ListingState> {
    /// The listing, by the rules in force, of the recording whose steps came, within the limits of `verdict`: its
    /// tenures, cycles and transfers before the least break, and the verdict. It fails if there are more steps or
    /// blocks, or if memory runs out.
    pub fn listing(self, alloc: Global, size: u32) -> Result<Listing, NoVerdict>
        requires { (1 ≤ size) × (size ≤ 65536) }
        ensures too_many_steps { (result ≡ Err NoVerdict.TooManySteps) ↔ (capture_limit < length self.steps) }
        ensures too_many_blocks { (result ≡ Err NoVerdict.TooManyBlocks)
            ↔ ((length self.steps ≤ capture_limit) × (4096 < block_count size self)) }
        ensures listing { malformed_step self ≡ None → IfOk result (λ listing. listing ≡ listing_of self) }
        ensures placed { malformed_step self ≡ None → IfOk result (λ listing. is_well_placed listing ≡ true) }
    {
        let opening = self.opening;
        prove!(opening.slots() <= 21);
        match self.finish(alloc, size) {
            Ok(marking) => match marking.listing(alloc, &opening) {
                Ok(listing) => Ok(listing),
                Err(_) => Err(NoVerdict::Memory),
            },
            Err(why) => Err(why),
        }
    }
}

impl<J: ChunkJudge> StepVisitor for StreamJudge<J> {
    ghost recorded = { λ w. w };

    fn open(&mut self, opening: &Lines) {
        self.count = 0;
        self.opening = *opening;
        self.judging = J::at(opening);
        self.waiting.clear();
        self.taken = GhostSteps::new();
    }

    // Steps beyond the most that a recording has are dropped.
    #[inline(always)]
    fn step(&mut self, alloc: Global, step: Step) -> Result<(), AllocError> {
        let taken = self.taken.and(&step);
        if self.count >= MOST_STEPS {
            self.count = MOST_STEPS + 1;
            self.taken = taken;
            return Ok(());
        }
        wait(&mut self.waiting, step)?;
        self.count += 1;
        self.taken = taken;
        if self.waiting.len() >= AT_ONCE {
            judge_waiting(&mut self.judging, alloc, &mut self.waiting)?;
        }
        Ok(())
    }
}

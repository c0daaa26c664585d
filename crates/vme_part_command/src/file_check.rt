//! The steps of a dump that is a file of a recording, judged as they are read.

ghost use Rattle.std.specs.Prelude.{◌≡◌, ℕ, Bool, [], IfOk, None, Ok, Option, length};
ghost use Rattle.vme_trace.specs.LineNumbers.{line_count};
ghost use Rattle.vme_bind.specs.Capture.{limited};
ghost use Rattle.vme_trace.specs.Followed.{with_steps};
ghost use Rattle.vme_trace.specs.Trace.{Trace};
ghost use Rattle.vme_trace.specs.WellFormed.{malformed_step};
ghost use Rattle.vme_trace.specs.declared.step.Step.{Step};
ghost use Rattle.vme_file_part.specs.Growing.{IsFileSoFar, FileMayGoOn};
ghost use Rattle.vme_part_command.specs.FileChecks.{FindsOfSteps, HasFewNodes, HasTakenSteps, IsPending, MayBeJudged};

use crate::no_part::NoPart;
use std::alloc::{AllocError, Global};
use vme_bind::{BindFault, BindFaultKind};
use vme_file_part::FileSoFar;
use vme_part_format::Part;
use vme_parts::{PartRefusal, can_write};
use vme_stream::Refusal;
use vme_trace::{Lines, Step};

/// How many steps a recording has at most.
const MOST_STEPS: usize = 268_435_456;

/// How many steps are judged at once, however they are read. So the part of a dump doesn't depend on how it is read.
/// Nor does a table get too many nodes, as it might if few steps were judged at once.
const BATCH: usize = 16_384;

/// The state of judging the steps of a dump.
#[derive(Drop)]
pub(crate) struct FileCheck {
    /// The file with the steps judged so far.
    file: FileSoFar,
    /// The steps after those that are judged.
    pending: Vec<Step>,
    /// How many steps were given. Once they are too many, no more steps are judged.
    count: usize,
}

/// Judges the steps that follow.
fn judge_more(alloc: Global, file: FileSoFar, steps: &[Step]) -> Result<FileSoFar, AllocError>
    requires { (number : ℕ) × (listing : Bool) × (first_time : Option ℕ) × (t : Trace)
        × IsFileSoFar number listing first_time file t × HasFewNodes file t × FileMayGoOn t steps.now }
    ensures so_far { (number : ℕ) (listing : Bool) (first_time : Option ℕ) (t : Trace)
        → IsFileSoFar number listing first_time file t → FileMayGoOn t steps.now
        → IfOk result (λ file. IsFileSoFar number listing first_time file (with_steps t steps.now)) }
    ensures few { (t : Trace) → HasFewNodes file t → length steps.now ≡ 16384
        → IfOk result (λ file. HasFewNodes file (with_steps t steps.now)) }
{
    match file.go_on(alloc, steps) {
        Ok(file) => Ok(file),
        Err(PartRefusal::TooManyNodes) => unreachable!(),
        Err(PartRefusal::Memory) => Err(AllocError),
    }
}

/// Judges `pending` in batches, as long as there is a whole batch. The rest is returned.
fn judge_batches(
    alloc: Global,
    file: FileSoFar,
    pending: Vec<Step>,
) -> Result<(FileSoFar, Vec<Step>), AllocError>
    requires { (number : ℕ) × (listing : Bool) × (first_time : Option ℕ) × (t : Trace)
        × IsPending number listing first_time file pending.items t × MayBeJudged t }
    ensures { (number : ℕ) (listing : Bool) (first_time : Option ℕ) (t : Trace)
        → IsPending number listing first_time file pending.items t → MayBeJudged t
        → IfOk result (λ made. IsPending number listing first_time made.0 made.1.items t) }
{
    let mut file = file;
    let mut pending = pending;
    while pending.len() >= BATCH {
        let rest = pending.split_off(BATCH)?;
        file = judge_more(alloc, file, pending.as_slice())?;
        pending = rest;
    }
    Ok((file, pending))
}

/// Judges `pending` and then `steps`, the last steps.
fn judge_all(
    alloc: Global,
    file: FileSoFar,
    pending: Vec<Step>,
    steps: Vec<Step>,
) -> Result<FileSoFar, AllocError>
    requires { (number : ℕ) × (listing : Bool) × (first_time : Option ℕ) × (t : Trace)
        × IsPending number listing first_time file pending.items t × MayBeJudged (with_steps t steps.items) }
    ensures { (number : ℕ) (listing : Bool) (first_time : Option ℕ) (t : Trace)
        → IsPending number listing first_time file pending.items t → MayBeJudged (with_steps t steps.items)
        → IfOk result (λ file. IsFileSoFar number listing first_time file (with_steps t steps.items)) }
{
    let mut pending = pending;
    let mut steps = steps;
    pending.append(&mut steps)?;
    let (file, rest) = judge_batches(alloc, file, pending)?;
    judge_more(alloc, file, rest.as_slice())
}

/// The part of a file whose steps were all given.
fn part_in(alloc: Global, file: FileSoFar, backplane: u64) -> Result<Part, NoPart>
    requires { (number : ℕ) × (listing : Bool) × (first_time : Option ℕ) × (t : Trace)
        × IsFileSoFar number listing first_time file t × (malformed_step t ≡ None) }
    ensures { (number : ℕ) (listing : Bool) (first_time : Option ℕ) (t : Trace)
        → IsFileSoFar number listing first_time file t → malformed_step t ≡ None → limited t ≡ Ok t
        → FindsOfSteps number listing first_time backplane t result }
{
    match file.into_part(alloc, backplane) {
        Ok(part) => {
            if can_write(&part) {
                Ok(part)
            } else {
                Err(NoPart::OutOfRange)
            }
        }
        Err(PartRefusal::TooManyNodes) => unreachable!(),
        Err(PartRefusal::Memory) => Err(NoPart::Refused(Refusal::Memory)),
    }
}

impl FileCheck {
    /// The state before the first step of a dump that is the file `number`, with marks (`listing`) or without. The dump
    /// has the first time `first_time`, if it has one, and the levels `opening` before any change.
    pub fn new(
        alloc: Global,
        number: u32,
        listing: bool,
        first_time: Option<u64>,
        opening: &Lines,
    ) -> FileCheck
        ensures taken { HasTakenSteps number listing first_time result (record { opening = opening.now; steps = [] }) }
        ensures whole { length opening.now.levels ≡ line_count }
    {
        FileCheck {
            file: FileSoFar::new(number, listing, first_time, opening),
            pending: Vec::new(alloc),
            count: 0,
        }
    }

    /// Takes the steps that follow. It fails if memory runs out.
    pub fn take(self, alloc: Global, steps: Vec<Step>) -> Result<FileCheck, AllocError>
        requires { (number : ℕ) × (listing : Bool) × (first_time : Option ℕ) × (t : Trace)
            × HasTakenSteps number listing first_time self t × (malformed_step (with_steps t steps.items) ≡ None) }
        ensures { (number : ℕ) (listing : Bool) (first_time : Option ℕ) (t : Trace)
            → HasTakenSteps number listing first_time self t → malformed_step (with_steps t steps.items) ≡ None
            → IfOk result (λ check. HasTakenSteps number listing first_time check (with_steps t steps.items)) }
    {
        let FileCheck {
            file,
            mut pending,
            count,
        } = self;
        let total = count.saturating_add(steps.len());
        if total > MOST_STEPS {
            return Ok(FileCheck {
                file,
                pending,
                count: total,
            });
        }
        let mut steps = steps;
        pending.append(&mut steps)?;
        let (file, pending) = judge_batches(alloc, file, pending)?;
        Ok(FileCheck {
            file,
            pending,
            count: total,
        })
    }

    /// The part of the file, whose last steps are `steps`. `backplane` is the sum of the backplane.
    pub fn finish(self, alloc: Global, steps: Vec<Step>, backplane: u64) -> Result<Part, NoPart>
        requires { (number : ℕ) × (listing : Bool) × (first_time : Option ℕ) × (t : Trace)
            × HasTakenSteps number listing first_time self t × (malformed_step (with_steps t steps.items) ≡ None) }
        ensures { (number : ℕ) (listing : Bool) (first_time : Option ℕ) (t : Trace)
            → HasTakenSteps number listing first_time self t → malformed_step (with_steps t steps.items) ≡ None
            → FindsOfSteps number listing first_time backplane (with_steps t steps.items) result }
    {
        let FileCheck {
            file,
            pending,
            count,
        } = self;
        let total = count.saturating_add(steps.len());
        if total > MOST_STEPS {
            let fault = BindFault {
                line: 0,
                kind: BindFaultKind::TooManySteps,
            };
            return Err(NoPart::Refused(Refusal::BadBinding(fault)));
        }
        match judge_all(alloc, file, pending, steps) {
            Ok(file) => part_in(alloc, file, backplane),
            Err(_) => Err(NoPart::Refused(Refusal::Memory)),
        }
    }
}

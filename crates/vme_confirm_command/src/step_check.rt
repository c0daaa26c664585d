//! Compares the steps of a dump, deskewed if there is a skew, with rows.

ghost use Rattle.std.specs.Prelude.{◌≡◌, ℕ, List, [], length, Option, IfOk, OnOk};
ghost use Rattle.vme_trace.specs.Followed.{with_steps};
ghost use Rattle.vme_trace.specs.LineNumbers.{line_count};
ghost use Rattle.vme_trace.specs.Trace.{Trace};
ghost use Rattle.vme_listing.specs.declared.row.Row.{Row};
ghost use Rattle.vme_listing.specs.declared.row.Version.{Version};
ghost use Rattle.vme_cert.specs.Checking.{HasCompared, HasFollowed, at_opening};
ghost use Rattle.vme_dump_input.specs.SettledReadings.{skew_of};
ghost use Rattle.vme_dump_input.specs.SettledSteps.{GoOnFrom, GoOnTo};
ghost use Rattle.vme_confirm_command.specs.StepChecks.{Finds, HasCheckedSteps, IsComparing, StepsMayFollow};

use std::alloc::{AllocError, Global};
use vme_bind::{BindFault, BindFaultKind};
use vme_cert::{Answer, Checker, RowSource};
use vme_dump_input::{last_steps, settled_steps, settler_for};
use vme_listing::Version;
use vme_skew::StepSettler;
use vme_trace::{Lines, Step};

/// How many steps a recording has at most.
const MOST_STEPS: usize = 268_435_456;

/// A comparison of the steps of a dump, as they come, with rows.
#[derive(Drop)]
pub(crate) struct StepCheck<S: RowSource> {
    settler: Option<StepSettler>,
    checker: Checker<S>,
    /// How many steps came. Once they are too many, nothing more is compared.
    count: usize,
}

/// Gives steps to a checker.
fn check_all<S: RowSource>(checker: &mut Checker<S>, steps: &[Step])
    requires { (recorded : Trace) × HasFollowed recorded checker.old × StepsMayFollow recorded steps.now }
    ensures taken { (recorded : Trace) → HasFollowed recorded checker.old
        → HasFollowed (with_steps recorded steps.now) checker.new }
    ensures compared { (whole : S.Whole) (version : Version) (recorded : Trace) → HasFollowed recorded checker.old
        → HasCompared S.gave S.is_over whole version recorded checker.old
        → HasCompared S.gave S.is_over whole version (with_steps recorded steps.now) checker.new }
{
    for step in steps {
        checker.take(step);
    }
}

impl<S: RowSource> StepCheck<S> {
    /// Before the first step.
    pub fn new(alloc: Global, opening: &Lines, skew: u64, version: Version, rows: S) -> StepCheck<S>
        ensures stepped { (time : ℕ) → HasCheckedSteps (skew_of skew) (at_opening opening.now) time
            (at_opening opening.now) result.settler result.checker result.count }
        ensures compared { (whole : S.Whole) → S.gave whole rows []
            → HasCompared S.gave S.is_over whole version (at_opening opening.now) result.checker }
        ensures whole { length opening.now.levels ≡ line_count }
    {
        StepCheck {
            settler: settler_for(alloc, opening, skew),
            checker: Checker::new(opening, version, rows),
            count: 0,
        }
    }

    /// Takes the steps that follow, once the dump has come to `time`. It fails if memory runs out, and then nothing is
    /// said of the steps that were compared.
    pub fn take(&mut self, alloc: Global, steps: Vec<Step>, time: u64) -> Result<(), AllocError>
        requires { (skew : Option ℕ) × (given : Trace) × (from : ℕ) × (t : Trace)
            × HasCheckedSteps skew given from t self.old.settler self.old.checker self.old.count
            × GoOnTo given from steps.items time }
        ensures stepped { (skew : Option ℕ) (given : Trace) (from : ℕ) (t : Trace)
            → HasCheckedSteps skew given from t self.old.settler self.old.checker self.old.count
            → GoOnTo given from steps.items time
            → OnOk result ((later : Trace) × HasCheckedSteps skew (with_steps given steps.items) time later
            self.new.settler self.new.checker self.new.count
            × ((whole : S.Whole) (version : Version)
            → HasCompared S.gave S.is_over whole version t self.old.checker
            → HasCompared S.gave S.is_over whole version later self.new.checker)) }
        ensures comparing { (whole : S.Whole) (version : Version)
            → IsComparing S.gave S.is_over whole version self.old.checker
            → IsComparing S.gave S.is_over whole version self.new.checker }
    {
        let count = self.count.saturating_add(steps.len());
        self.count = count;
        if count > MOST_STEPS {
            return Ok(());
        }
        let settled = settled_steps(alloc, &mut self.settler, steps, time)?;
        check_all(&mut self.checker, settled.as_slice());
        Ok(())
    }

    /// Takes the last steps. Returns the answer about the rows for the whole recording, or that it is too long, and the
    /// source of the rows. There is no answer if memory runs out.
    pub fn finish(
        self,
        alloc: Global,
        steps: Vec<Step>,
    ) -> (Result<Result<Answer, BindFault>, AllocError>, S)
        requires { (skew : Option ℕ) × (given : Trace) × (from : ℕ) × (t : Trace)
            × HasCheckedSteps skew given from t self.settler self.checker self.count
            × GoOnFrom given from steps.items }
        ensures finds { (whole : S.Whole) (version : Version) (skew : Option ℕ) (given : Trace) (from : ℕ) (t : Trace)
            → HasCheckedSteps skew given from t self.settler self.checker self.count
            → HasCompared S.gave S.is_over whole version t self.checker → GoOnFrom given from steps.items
            → IfOk result.0 (λ found. Finds S.gave S.is_over whole version skew (with_steps given steps.items) found
            result.1) }
        ensures left { (whole : S.Whole) (version : Version)
            → IsComparing S.gave S.is_over whole version self.checker → (rows : List Row) × S.gave whole result.1 rows }
    {
        let mut check = self;
        let total = check.count.saturating_add(steps.len());
        if total > MOST_STEPS {
            let fault = BindFault {
                line: 0,
                kind: BindFaultKind::TooManySteps,
            };
            return (Ok(Err(fault)), check.into_source());
        }
        match last_steps(alloc, &mut check.settler, steps) {
            Ok(settled) => {
                check_all(&mut check.checker, settled.as_slice());
                let StepCheck {
                    settler: _,
                    checker,
                    count: _,
                } = check;
                let (answer, rows) = checker.finish();
                (Ok(Ok(answer)), rows)
            }
            Err(error) => (Err(error), check.into_source()),
        }
    }

    /// The source of the rows, where there is no answer about them.
    pub fn into_source(self) -> S
        ensures { (whole : S.Whole) (version : Version) → IsComparing S.gave S.is_over whole version self.checker
            → (rows : List Row) × S.gave whole result rows }
    {
        let StepCheck {
            settler: _,
            checker,
            count: _,
        } = self;
        checker.into_source()
    }
}

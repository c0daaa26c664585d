//! The account of the steps so far: what an explanation reports of them.

ghost use Rattle.std.specs.Prelude.{◌≡◌, ◌+◌, ◌∷◌, ◌++◌, ◌<◌, [], List, IfOk, IfSome, None, OnOk, length};
ghost use Rattle.vme_trace.specs.Levels.{Levels};
ghost use Rattle.vme_trace.specs.Trace.{Trace};
ghost use Rattle.vme_trace.specs.WellFormed.{malformed_step};
ghost use Rattle.vme_trace.specs.declared.step.Step.{Step as StepOf};
ghost use Rattle.vme_account.specs.Accounts.{IsAccountOf, KeepsAccount};

use crate::account::Account;
use crate::followed_steps::FollowedSteps;
use crate::stored_steps::StoredSteps;
use std::alloc::{AllocError, Global};
use vme_auditor::{first_break_is_found, marks_are_found};
use vme_monitor::known::known_over_recordings;
use vme_trace::{Lines, Step};

/// The number of steps after a break that are kept.
const KEPT_AFTER_BREAK: u32 = 3;

/// What the account has of the steps so far.
#[derive(Drop)]
pub(crate) struct RunningAccount {
    /// The monitors of the rules, run up to the first break, and what is noted of the steps up to there: the break, the
    /// open rows and the counts of rows, events and times.
    pub judged: FollowedSteps,
    /// The last steps up to the end, but at most three after the break.
    pub kept: StoredSteps,
}

impl RunningAccount {
    /// The account before the first step. It has large tables, so it is boxed and isn't moved. `None` if memory runs
    /// out.
    pub fn boxed(alloc: Global, opening: &Lines) -> Option<Box<RunningAccount>>
        ensures { IfSome result (λ running. KeepsAccount opening.now [] running.value) }
    {
        let running = RunningAccount {
            judged: FollowedSteps::at_opening(opening),
            kept: StoredSteps::new(alloc, opening),
        };
        match Box::new(alloc, running) {
            Ok(running) => Some(running),
            Err(_) => None,
        }
    }

    /// The number of steps so far.
    pub fn steps(&self) -> u32
        ensures { result ≡ self.now.kept.steps }
    {
        self.kept.steps()
    }

    /// Takes the next step, the 67,108,864th at most: longer recordings have no account. The only error is want of
    /// memory.
    pub fn take(&mut self, step: Step) -> Result<(), AllocError>
        requires { (o : Levels) × (x : List StepOf) × KeepsAccount o x self.old × (length x < 67108864) }
        ensures { OnOk result ((o : Levels) (x : List StepOf) → KeepsAccount o x self.old
            → KeepsAccount o (x ++ step ∷ []) self.new) }
    {
        self.judged.take(&step, self.kept.steps() + 1)?;
        let is_wanted = self.wants_more();
        self.kept.take(step, is_wanted)
    }

    /// Whether the next step is kept: at most three steps after the break are.
    fn wants_more(&self) -> bool {
        match self.judged.notes.found {
            Some(found) => self.kept.steps() < found.instant.saturating_add(KEPT_AFTER_BREAK),
            None => true,
        }
    }
}

/// The account of a recording that ends here. The only error is want of memory.
pub(crate) fn account_of(
    running: Box<RunningAccount>,
    opening: Lines,
) -> Result<Account, AllocError>
    ensures { (t : Trace) → KeepsAccount t.opening t.steps running.value → opening ≡ t.opening
        → malformed_step t ≡ None → IfOk result (λ account. IsAccountOf account t) }
{
    prove!(opening.slots() <= 21);
    // laws, for the proof alone: the monitors find the verdict's break, the listing's marks, and whether judging starts
    first_break_is_found();
    marks_are_found();
    known_over_recordings();
    let marked = running.judged.notes.marked;
    let counts = marked.counts()?;
    let unended = marked.unended();
    Ok(Account {
        opening,
        running,
        counts,
        unended,
    })
}

//! Takes the steps of a recording, and makes its account: what an explanation reports of it.

ghost use Rattle.std.specs.Prelude.{◌≡◌, ◌+◌, ◌<◌, ◌≤◌, [], Err, IfErr, IfOk, None, length, min};
ghost use Rattle.vme_trace.specs.Trace.{Trace};
ghost use Rattle.vme_trace.specs.WellFormed.{capture_limit, malformed_step};
ghost use Rattle.vme_account.specs.Accounts.{IsAccountOf, KeepsAccount};

use crate::account::Account;
use crate::running_account::{RunningAccount, account_of};
use std::alloc::{AllocError, Global};
use std::marker::Model;
use vme_summary::GhostSteps;
use vme_trace::{Lines, Step, StepVisitor};

/// The greatest number of steps of a recording.
const MOST_STEPS: u32 = 268_435_456;

/// The greatest number of steps of a recording that has an account: 4,096 blocks of 16,384 steps.
const MOST_TAKEN: u32 = 67_108_864;

/// Why there is no account.
#[derive(Clone, Copy, Debug, PartialEq, Eq)]
pub enum NoAccount {
    /// Memory ran out.
    Memory,
    /// The recording has more than 67,108,864 steps.
    TooManyBlocks,
    /// The recording has more than 268,435,456 steps.
    TooManySteps,
}

/// Takes the steps of a recording as they come, and keeps what its account has. Its size doesn't depend on the number
/// of steps. After it ran out of memory it has no account.
#[derive(Drop)]
pub struct AccountVisitor {
    alloc: Global,
    opening: Lines,
    taken: GhostSteps,
    /// `None` after more than `MOST_TAKEN` steps, or after a failed allocation.
    running: Option<Box<RunningAccount>>,
    /// The number of steps so far, at most `MOST_STEPS + 1`.
    count: u32,
}

impl Model for AccountVisitor {
    ghost use Rattle.vme_trace.specs.Trace.{Trace};
    ghost use Rattle.vme_account.specs.Accounts.{IsRunning};

    ghost Value = { Trace };

    ghost view = { λ v. record { opening = v.opening; steps = v.taken.items } };

    ghost invariant = { λ v. IsRunning v.opening v.taken.items v.running v.count };
}

impl AccountVisitor {
    /// The visitor before the first step of a recording with these opening levels. If memory runs out,
    /// [`AccountVisitor::finish`] answers it.
    pub fn new(alloc: Global, opening: &Lines) -> AccountVisitor
        ensures { result ≡ record { opening = opening.now; steps = [] } }
    {
        AccountVisitor {
            alloc,
            opening: *opening,
            taken: GhostSteps::new(),
            running: RunningAccount::boxed(alloc, opening),
            count: 0,
        }
    }

    /// The account of the recording, which ends here. Too many steps are answered before lack of memory.
    pub fn finish(self) -> Result<Account, NoAccount>
        ensures account { malformed_step self ≡ None → IfOk result (λ account. IsAccountOf account self) }
        ensures short { IfOk result (λ account. length self.steps ≤ 67108864) }
        ensures too_many_blocks { result ≡ Err NoAccount.TooManyBlocks
            → (67108864 < length self.steps) × (length self.steps ≤ capture_limit) }
        ensures too_many_steps { result ≡ Err NoAccount.TooManySteps → capture_limit < length self.steps }
    {
        let AccountVisitor {
            alloc: _,
            opening,
            taken: _,
            running,
            count,
        } = self;
        if count > MOST_STEPS {
            return Err(NoAccount::TooManySteps);
        }
        if count > MOST_TAKEN {
            return Err(NoAccount::TooManyBlocks);
        }
        match running {
            Some(running) => account_at_end(running, opening),
            None => Err(NoAccount::Memory),
        }
    }
}

/// The account of a recording that ends here.
fn account_at_end(running: Box<RunningAccount>, opening: Lines) -> Result<Account, NoAccount>
    ensures account { (t : Trace) → KeepsAccount t.opening t.steps running.value → opening ≡ t.opening
        → malformed_step t ≡ None → IfOk result (λ account. IsAccountOf account t) }
    ensures memory { IfErr result (λ e. e ≡ NoAccount.Memory) }
{
    match account_of(running, opening) {
        Ok(account) => Ok(account),
        Err(_) => Err(NoAccount::Memory),
    }
}

/// One more than `count`, at most `MOST_STEPS + 1`.
fn next_count(count: u32) -> u32
    ensures { result ≡ min (count + 1) (capture_limit + 1) }
{
    if count > MOST_STEPS {
        MOST_STEPS + 1
    } else {
        count + 1
    }
}

impl StepVisitor for AccountVisitor {
    ghost recorded = { λ v. v };

    fn open(&mut self, opening: &Lines) {
        self.opening = *opening;
        self.taken = GhostSteps::new();
        self.running = RunningAccount::boxed(self.alloc, opening);
        self.count = 0;
    }

    fn step(&mut self, _alloc: Global, step: Step) -> Result<(), AllocError> {
        let taken = self.taken.and(&step);
        let count = next_count(self.count);
        if let Some(mut running) = self.running.take() {
            if count <= MOST_TAKEN {
                running.take(step)?;
                self.running = Some(running);
            }
        }
        self.taken = taken;
        self.count = count;
        Ok(())
    }
}

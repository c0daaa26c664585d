//! The memory of `Stability`, i.e. the state of its automaton: it says which lines have to be held.

ghost use Rattle.std.specs.Prelude.{◌≡◌};
ghost use Rattle.vme_dtb.specs.HoldingNumbers.{has_risen as risen_of, passed, transfer_state_nth, transfer_state_place};
ghost use Rattle.vme_dtb.specs.HoldingNumbers.{was_answered as answered_of, writes_of};

use vme_monitor::machine::{Enumerable, Small};

/// What has happened in a transfer: whether it was answered, whether a data strobe has risen in it, and its direction.
#[derive(Clone, Copy, PartialEq, Eq, Debug)]
pub enum TransferState {
    /// No transfer is open, or it has had no answer and no data strobe has risen in it: its direction is the one that
    /// WRITE* shows.
    Fresh,
    /// A data strobe has risen in a read that has had no answer.
    RisenInRead,
    /// A data strobe has risen in a write that has had no answer.
    RisenInWrite,
    /// A transfer was answered, and no data strobe has risen in it.
    Answered,
    /// A transfer was answered, and a data strobe has risen in it.
    Over,
}

impl TransferState {
    /// The state of an open transfer.
    pub(crate) fn of(answered: bool, risen: bool, writes: bool) -> TransferState
        ensures { result ≡ passed answered risen writes }
    {
        match (answered, risen, writes) {
            (true, true, _) => TransferState::Over,
            (true, false, _) => TransferState::Answered,
            (false, true, true) => TransferState::RisenInWrite,
            (false, true, false) => TransferState::RisenInRead,
            (false, false, _) => TransferState::Fresh,
        }
    }

    /// An answer has come.
    pub(crate) fn was_answered(self) -> bool
        ensures { result ≡ answered_of self }
    {
        matches!(self, TransferState::Answered | TransferState::Over)
    }

    /// A data strobe has risen, so WRITE* isn't held any more.
    pub(crate) fn has_risen(self) -> bool
        ensures { result ≡ risen_of self }
    {
        matches!(
            self,
            TransferState::RisenInRead | TransferState::RisenInWrite | TransferState::Over
        )
    }

    /// Whether the transfer is a write that has had no answer. `low` says whether WRITE* is low.
    pub(crate) fn writes(self, low: bool) -> bool
        ensures { result ≡ writes_of self low }
    {
        match self {
            TransferState::Fresh => low,
            TransferState::RisenInWrite => true,
            TransferState::RisenInRead | TransferState::Answered | TransferState::Over => false,
        }
    }

    /// The number of what has happened.
    fn place(self) -> usize
        ensures { result ≡ transfer_state_place self }
    {
        match self {
            TransferState::Fresh => 0,
            TransferState::RisenInRead => 1,
            TransferState::RisenInWrite => 2,
            TransferState::Answered => 3,
            TransferState::Over => 4,
        }
    }

    /// What has happened, by its number.
    fn nth(k: usize) -> TransferState
        ensures { result ≡ transfer_state_nth k }
    {
        match k {
            0 => TransferState::Fresh,
            1 => TransferState::RisenInRead,
            2 => TransferState::RisenInWrite,
            3 => TransferState::Answered,
            _ => TransferState::Over,
        }
    }
}

/// What has happened in the cycle and in the transfer. This determines which lines have to stay as they are.
#[derive(Clone, Copy, PartialEq, Eq, Debug)]
pub struct Holding {
    /// What has happened in the transfer.
    pub transfer: TransferState,
    /// A cycle runs, and was answered, so the lines that it needs aren't held any more.
    pub cycle_answered: bool,
}

impl Enumerable for Holding {
    ghost use Rattle.vme_dtb.specs.HoldingNumbers.{holding_nth, holding_place, holding_found, holding_placed};

    ghost COUNT = { 10 };

    ghost place_of = { holding_place };

    ghost nth_of = { holding_nth };

    ghost placed = { holding_placed };

    ghost found = { holding_found };

    const COUNT: usize = 10;

    fn place(self) -> usize {
        let cycle = if self.cycle_answered { 5 } else { 0 };
        self.transfer.place() + cycle
    }

    fn nth(k: usize) -> Holding {
        Holding {
            transfer: TransferState::nth(k % 5),
            cycle_answered: k / 5 == 1,
        }
    }
}

impl Small for Holding {
    ghost use Rattle.std.proofs.Common.{lit≤};

    ghost small = { lit≤ tt };
}

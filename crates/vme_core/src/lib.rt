//! The board as a state machine of atomic steps, and what holds after every run of it.
//!
//! A board is a table of numbered blocks that several workers share. A bench is a worker's handle to
//! it. One event of the machine is one atomic step of one bench: a bench is made, split or joined; a
//! number is claimed, its block put into its slot, and filed; a word is looked at; a draw is tried; a
//! filed block is taken, lifted out of its slot, and the slot given back. A draw is one of a fixed
//! count of work items, which a bench wins by an atomic test-and-set. A run is any list of such
//! events, of any benches in any order.
//!
//! Each bench has a share of the board. The first has the whole; a split halves a part of it, and a
//! join adds two shares. Only a bench that has a share claims, files, takes or draws. So the bench
//! that has the whole share has done all that was done.
//!
//! # Parts
//!
//! - `stage`: how far a number has come. `view`: what a bench filed, took, drew and has seen. A view
//!   is only in contracts.
//! - `specs/Machine.antt`: the states and the events. `specs/Shares.antt`: the shares.
//! - `specs/Law.antt`: what holds after every run.
//! - `specs/BoardInvariant.antt`: the invariant from which the law follows. It is over functions
//!   that give what is claimed, filed, taken and drawn, and the slots. `proofs/InvariantSteps.antt`
//!   shows that each step preserves it, for any source of those functions: the machine's state
//!   here, the words and slots of a shared table in vme_board.
//!
//! # What is proved
//!
//! - [`every_run`]: what holds of the state after every run (`lawful`), of each step (`steps`), and
//!   of each continuation of a run (`grows`). Its comment says it in words.
//! - [`shares_stay_whole`]: the first bench has the whole share (`first`). If two shares together are
//!   the whole, they are so in either order (`swapped`) and after a split of one (`halved`).
//!
//! # What isn't proved
//!
//! That some code does what this machine does: for the board see vme_board_machine. Nothing is
//! proved of progress, or of which of two benches wins.
//!
//! # Limits
//!
//! None: the laws hold for every count of numbers, of draws and of benches. Start reading at
//! `specs/Machine`.
#![tactic(auto)]

ghost use Rattle.std.specs.Prelude.{ℕ, List, [], ◌∷◌, ◌++◌};
ghost use Rattle.vme_core.specs.Law.{IsReachable, StepsTo, RunsTo, IsLawful, IsRightStep, OnlyGrows};
ghost use Rattle.vme_core.specs.Machine.{Core};
ghost use Rattle.vme_core.specs.Shares.{IsWholeShare, kept_share, split_share};

pub mod stage;
pub mod view;

pub use stage::Stage;
pub use view::View;

/// This holds after every run of a board of `n` numbers and `d` draws. A claimed number has one owner, and no other
/// number has one. A filed number was filed once, by its owner, and no other was filed. A taken number was taken once,
/// after it was filed, and no other was taken. Each draw that is drawn was won once. What a bench filed, took, or has
/// seen is so. The bench that has the whole share has done all that was done. However the run continues, no stage goes
/// back and no content changes.
pub fn every_run()
    ensures lawful { (n d : ℕ) (s : Core) → IsReachable n d s → IsLawful s }
    ensures steps { (n d : ℕ) (s t : Core) → IsReachable n d s → StepsTo n d s t → IsRightStep s t }
    ensures grows { (n d : ℕ) (s t : Core) → IsReachable n d s → RunsTo n d s t → OnlyGrows s t }
{}

/// The first bench has the whole share. If two shares together are the whole, they are so in either order, and after
/// one of them was split.
pub fn shares_stay_whole()
    ensures first { IsWholeShare (0 ∷ []) }
    ensures swapped { (s t : List ℕ) → IsWholeShare (s ++ t) → IsWholeShare (t ++ s) }
    ensures halved { (s t : List ℕ) → IsWholeShare (s ++ t) → IsWholeShare (kept_share s ++ (split_share s ++ t)) }
{}

//! The board simulates the machine: each step that a call of vme_board makes is one event of the
//! state machine of vme_core.
//!
//! # Parts
//!
//! - `specs/Steps.antt`: what benches do to the table, event by event: the word that a call loads
//!   or in which it sets a bit, the postcondition of that step (`Postconditions` of vme_board,
//!   which its calls name), and where the bench is in its call after it. A step may give its bench
//!   any view, and check out or return slots in any way that satisfies the postcondition.
//! - `specs/ReadsAs.antt`: when such a state corresponds to one of the machine: the bits of a row are
//!   those of the stages, the table's slots are its slots, the views are its views.
//! - `specs/Worked`: a worked run.
//!
//! # What is proved
//!
//! - [`board_is_the_machine`]: a new board corresponds to the machine's start (`begins`). Each step
//!   from a state that corresponds to a reachable one of the machine is the machine's event, and
//!   leads to a state that corresponds to the one after the event (`steps`). So each run of benches,
//!   in any interleaving, is a run of the machine (`runs`), and `every_run` of vme_core holds of it.
//! - [`worked_run`]: a number is filed and taken, a claim of it fails, and a bench is dropped.
//!
//! # What isn't proved
//!
//! That the calls make these steps, in this order and no others: compare `bench.rt` of vme_board with
//! `specs/Steps.antt`. vme_board proves that each of them keeps the invariant of the table. Start
//! reading at `specs/Steps`.
#![tactic(auto)]

ghost use Rattle.std.specs.Prelude.{◌≡◌, ℕ, List};
ghost use Rattle.vme_trace.specs.declared.block.Block.{Block};
ghost use Rattle.vme_core.specs.Law.{IsReachable};
ghost use Rattle.vme_core.specs.Machine.{Core, BoardEvent, start};
ghost use Rattle.vme_board.specs.Words.{IsWideFor};
ghost use Rattle.vme_board_machine.specs.ReadsAs.{ReadsAs, RunsAs, StepsAs};
ghost use Rattle.vme_board_machine.specs.Steps.{BoardState, opened, IsBoardRun};
ghost use Rattle.vme_board_machine.specs.Worked.{IsWorked};

/// A new board corresponds to the machine's start (`ReadsAs`). From each state that the machine can reach, a step of
/// benches is the machine's event. So each run of benches is a run of the machine by the same events.
pub fn board_is_the_machine()
    ensures begins { (total draws width : ℕ) → IsWideFor width total → IsWideFor width draws
        → ReadsAs total draws (opened width total) start }
    ensures steps { (total draws : ℕ) (s : BoardState) (m : Core) → IsReachable total draws m → ReadsAs total draws s m
        → StepsAs total draws s m }
    ensures runs { (total draws width : ℕ) → IsWideFor width total → IsWideFor width draws
        → (events : List BoardEvent) (t : BoardState) → IsBoardRun total draws (opened width total) events t
        → RunsAs total draws start events t }
{}

/// A run of a board of one number, with any blocks. One bench files the number. The claim of another fails, and it
/// takes the number out. A third bench is dropped, so the last bench doesn't have its share.
pub fn worked_run()
    ensures { (b c : Block) → b.number ≡ 0 → (s t : BoardState) × IsWorked b c s t }
{}

//! A board of numbered blocks that benches share, from any threads, without a lock.
//!
//! # Parts
//!
//! - `board`: a [`Board`] is a table with a slot for each number below its total. [`Board::close`]
//!   returns the blocks that were filed and not taken.
//! - `bench`: a [`Bench`] is a worker's handle to the board, and makes its steps. It delivers blocks
//!   in any order ([`Bench::deliver`]), wins draws ([`Bench::draw`]), looks up the stage of a number
//!   ([`Bench::look`]) and takes filed blocks out ([`Bench::take`]). A draw is one of a fixed count of
//!   work items, which a bench wins by an atomic test-and-set. Benches are split off and folded
//!   together.
//! - `delivery`: the result of a delivery.
//! - `words`: the index of a number's word and bit in the table.
//!
//! What a bench has filed, taken, drawn and seen is its view, which is only in contracts: `view_of`
//! in `specs/Benches.antt`, with the fields of [`vme_core::View`]. `specs/Words.antt` says how the
//! words and slots of the table are read; their invariant is that of vme_core.
//! `specs/Postconditions.antt` has the postcondition of each atomic step, and `proofs/Steps.antt`
//! shows that each step keeps the invariant.
//!
//! # What is proved
//!
//! - [`Bench::deliver`] files a block once for its number (`new`, `listed`), or refuses it for a
//!   reason that holds (`why`) and hands it back (`handed_back`).
//! - [`Bench::draw`] wins a draw that no other bench has won. [`Bench::take`] gives a filed block
//!   once. [`Bench::look`] answers no earlier stage than the bench has seen (`at_least`).
//! - [`Bench::fold`]: two benches filed, took and drew nothing twice (`lists`, `takes`, `draws`).
//! - [`Board::close`] gives each block that the bench filed and no bench took. If the bench has the
//!   whole share, nothing was filed or taken by others, and what it has seen done it did
//!   (`no_others`, `no_taken`, `did_all`).
//! - No call takes a lock or waits for another bench: none is given the handle that waiting needs.
//!   Each returns, whatever other threads do.
//!
//! # What isn't proved
//!
//! Which of two different deliveries of one number is filed; that a look sees what another bench
//! has just done; that threads get their turns fairly; that memory suffices.
//!
//! # Limits
//!
//! A board has 1 to 4,096 numbers and at most 65,536 draws, and a block at most 65,536 steps. A
//! bench that is dropped takes its share with it. Start reading at `bench`.
#![tactic(auto)]

mod bench;
mod board;
mod delivery;
mod words;

pub use bench::Bench;
pub use board::{Board, BoardFault, Closed};
pub use delivery::{DeliveryRefusal, Filed, Refused};
pub use vme_core::Stage;

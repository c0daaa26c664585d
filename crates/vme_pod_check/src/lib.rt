//! The check of a recording as the pods of a logic analyser deliver it: cut into blocks, which
//! workers deliver in any order, some of them twice.
//!
//! # Parts
//!
//! - `check`: [`check_by_pods`] judges the recording that a binding makes of a dump, and writes the
//!   line of its verdict, or why there is none.
//! - `judge`: [`verdict_by_pods`], the verdict on a recording by workers, which a [`Plan`] describes.
//! - `deliveries`: [`deliveries_of`], the blocks of a recording; with a seed they are in another order
//!   and some of them twice.
//! - `unjudged`: [`Unjudged`], why a recording isn't judged by workers.
//! - `words`: [`order_of`] parses the arguments of the command line into a [`PodsOrder`].
//!
//! # What is proved
//!
//! - [`check_by_pods`]: what it writes and its status are exactly those of a check, for any order,
//!   repetition and number of workers (`exact`). The exceptions are lack of memory and a thread that
//!   can't be started (never with one worker), which have status 4.
//! - [`verdict_by_pods`] gives the verdict of the recording by the definitions (`exact`).
//! - [`deliveries_of`]: the deliveries are the recording's blocks, each once or more (`delivered`);
//!   without a seed they are in the order of their numbers (`in_order`).
//! - The numbers from the arguments are in their ranges (`block`, `workers`).
//!
//! # What isn't proved
//!
//! How the other arguments are parsed, and that a seed gives another order and delivers a block
//! twice: vme_pod_check_tests tests both. That memory suffices, and that a thread can be started.
//!
//! # Limits
//!
//! Blocks of 1 to 65,536 steps, at most 4,096 of them, and 1 to 64 workers. Start reading at
//! `check`.
#![tactic(auto)]

mod check;
mod deliveries;
mod judge;
mod unjudged;
mod words;

pub use check::check_by_pods;
pub use deliveries::deliveries_of;
pub use judge::{Plan, verdict_by_pods};
pub use unjudged::Unjudged;
pub use words::{PodsOrder, no_text, order_of};

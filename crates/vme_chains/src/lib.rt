//! The monitors of the daisy chains (ANSI/IEEE Std 1014-1987, chapters 3 and 4): bus grants, with
//! the tenures that they lead to, and interrupt acknowledges.
//!
//! # Parts
//!
//! - `grant`: [`grant::Grant`], the monitor of G1 to G5 and B1 to B4.
//! - `grant_levels`, `grant_memory`: what the levels before and after a step show of grants,
//!   requests and BBSY*; the memory of requests and grants, i.e. the state of the automaton of
//!   `Grant`.
//! - `acknowledge`: [`acknowledge::Iack`], the monitor of I1 to I3.
//!
//! # What is proved
//!
//! Over every recording, also where other rules are broken:
//!
//! - [`grant::grants_over_recordings`]: the first break (violation of a rule) is the least break of
//!   the nine rules of grants and tenures (`first_break`). The marks (events of the bus with their
//!   instants) are the tenures: an open one at the start, each start with its level and slot, and
//!   each end (`marks`).
//! - [`acknowledge::acknowledge_over_recordings`]: the first break is the least break of I1 to I3
//!   (`first_break`), and there are no marks (`marks`).
//!
//! I4 and I5, of an acknowledge cycle's transfers, are rules of vme_dtb.
//!
//! # What isn't proved
//!
//! That allocations succeed. That the rules say what the standard says is to be read in vme_trace;
//! it has no rule on which of several requests an arbiter grants.
//!
//! # Limits
//!
//! There are 4 levels and 1 to 21 slots. `Grant` has 35 memories, and `Iack` 11. Start reading at
//! `grant`, with `specs/GrantRules`.
#![tactic(auto)]

pub mod acknowledge;
pub mod grant;
pub mod grant_levels;
pub mod grant_memory;

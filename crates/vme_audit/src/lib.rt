//! What the audit of a recording is, by definitions alone: all of its breaks and not the first
//! alone, what was covered, and the outcome.
//!
//! # Parts
//!
//! - `specs/Parts`: a recording is judged anew after each break, from the first idle instant on;
//!   all breaks of it.
//! - `specs/AskedRules`: what has to happen for a rule to be asked at all. A rule that is never
//!   asked can't be broken.
//! - `specs/Counted`, and `counts`: how many tenures, cycles, transfers and resets a recording has,
//!   by the rows of the listings of its parts.
//! - `specs/Covered`, and `outcome`: when a recording is covered, and the outcome of its audit.
//! - `specs/Allowances`, and `allowance`: breaks that are allowed.
//!
//! # What is proved
//!
//! Nothing here: this crate has types and definitions, and no function. vme_audit_eval computes
//! what they say of worked recordings.
//!
//! # What isn't said
//!
//! That a covered recording asks enough of a bus for some purpose: `never_asked` has the rules that
//! it never asks. Start reading at `specs/Parts`.
#![tactic(auto)]

pub mod allowance;
pub mod counts;
pub mod outcome;

pub use allowance::Allowance;
pub use counts::Counts;
pub use outcome::{CoverageGap, Outcome};

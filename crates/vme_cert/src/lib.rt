//! Checks that a listing is that of a recording, by the definitions alone, in one pass that keeps
//! neither steps nor compared rows.
//!
//! # What is claimed
//!
//! [`confirm`] answers yes exactly where the rows, the verdict's included, are those of the
//! recording (`listing_of`), and else names the first row that differs: its contract is
//! `DecidesListing`, in `specs/Agreement.antt`. [`confirm_text`] does the same for a text
//! (`DecidesText`), or names its first fault. Neither uses a monitor or a summary. Both use
//! [`Checker`], which takes a recording step by step and the rows from any [`RowSource`], such as a
//! text that is read in pieces.
//!
//! # What has to be trusted
//!
//! The prover and its library; and that the definitions say what the bus does: `specs/` of
//! vme_trace (the levels of an instant, what is judged, transfers, cycles, tenures, the rules, the
//! verdict) and of vme_listing (`Recorded.antt` the rows; for `confirm_text` also `Listed.antt`,
//! `Places.antt`, `RowText.antt` and `Reading.antt`: which text is that of a listing, and what the
//! first fault of another one is). docs/PROTOCOL.md says the same in words.
//!
//! Stop here if you trust the prover: nothing in this crate needs your trust, and its own `specs/`
//! and `proofs/` only lead from its code to those definitions.
//!
//! # How it works
//!
//! An *expected* row is one of the recording's own listing. As it starts, the next given row is taken
//! and kept beside it. All of the expected row is then known but its last edge, and a transfer's
//! answer. When that edge comes, or can no longer come, the two rows are compared. At most one
//! tenure, one cycle and one transfer are open. Nothing stops at the first difference: the least
//! row that differs is kept, and the pass continues to the end or to the first break (the first
//! violation of a rule).
//!
//! # In which order to read
//!
//! 1. The definitions named above, and `specs/Agreement.antt`. `specs/Vocabulary.antt` lists the
//!    words of both crates that are used here.
//! 2. `bus`: the levels at an instant and at the one before; `search`: the loop that it uses.
//! 3. `state`: what the rules need of earlier instants, each field by its definition
//!    (`specs/State.antt`), and the questions that it answers.
//! 4. `rules`: each rule beside its definition, in the order of docs/PROTOCOL.md; which rules a line
//!    may break; and the first that is broken.
//! 5. `comparison` and `open_rows`: the given rows as they are taken, those that are open, and the
//!    least that differs.
//! 6. `rows`: the rows that start at an instant, and those that end.
//! 7. `checker`: stretches, from an idle instant to a reset, a lost line or a break.
//! 8. `source` and `compare`: where the given rows come from, a listing or a text.
//!
//! The modules of `proofs/` have the same order: `Ranges` and `Instant` for the levels, `Fields`
//! for the state and what rules ask of it, `Breaks` for the rules, `Comparing`, `Placing` and
//! `Following` for the rows, `Checking` for the stretches.
//!
//! # What isn't proved
//!
//! How much work a call takes (`tests/growth` measures that it is in proportion), and that it takes
//! no memory.
//!
//! # Limits
//!
//! A recording has at most 268,435,456 steps, as every capture has.
#![tactic(auto)]

mod bus;
mod checker;
pub mod compare;
mod comparison;
mod open_rows;
mod rows;
mod rules;
mod search;
mod source;
mod state;

pub use checker::Checker;
pub use compare::{Answer, confirm, confirm_text};
pub use source::RowSource;

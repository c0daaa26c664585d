//! Worked recordings: how they are written, and the verdict and the listing that each of them
//! should get.
//!
//! # Parts
//!
//! - `specs/Recording`: what a worked recording is, and that the definitions of a verdict and of a
//!   listing agree with the verdict and the rows that it should get.
//! - `specs/Steps`: how the steps of a recording are written.
//! - `specs/Examples`: for each rule, a recording that breaks it and those nearest to it that
//!   conform.
//! - `specs/Tables`: modifier codes, control lines and needed lines.
//! - Each other module of `specs/`: the recordings on one matter. It ends in the list of them.
//! - `proofs/Everything`: what has to unfold for a verdict and the rows of a listing to compute.
//! - `proofs/Facts`: how the facts of a list of recordings are put together.
//!
//! # What is proved
//!
//! Nothing here: this crate has definitions, and no function. Crates of laws compute what the
//! definitions of vme_trace and vme_listing say of these recordings: vme_transfers_eval,
//! vme_stability_eval, vme_chains_eval, vme_judging_eval and, above these four, vme_rules_eval.
//! vme_audit_eval writes recordings, and vme_judging_eval blocks, as it is done here. No code of
//! the product uses any of them.
//!
//! # What isn't said
//!
//! Nothing is said of recordings that aren't in this crate. `tests/definitions/try` edits the
//! definitions, and a law has to refuse each edit. `./test` runs the program on dumps of the
//! recordings, read off `specs/`.
//!
//! # In which order to read
//!
//! `specs/Recording` and `specs/Steps`, then `specs/Examples`, then the module of interest.
#![tactic(auto)]

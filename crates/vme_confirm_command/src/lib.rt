//! The command `confirm`: whether a listing is that of the recording that a binding makes of a
//! dump. Dump and listing are read piece by piece, and nothing of them is kept.
//!
//! # Parts
//!
//! - `confirm`: [`confirm_with`] reads a binding, then the dump with the listing beside it, and
//!   writes the answer.
//! - `body`: the body of the dump, which vme_dump_input reads. Its steps go to `step_check` as they
//!   become complete, which deskews them if there is a skew and gives them to the checker of
//!   vme_cert.
//! - `listing_rows`, `row_reading`, `rows_fault`: the rows of the listing, each read as the checker
//!   asks for it, up to the first fault.
//!
//! # What is proved
//!
//! - [`confirm_with`] (`answer`): the answer is whether the rows of the listing are those of the
//!   recording deskewed by the skew, in the listing's version, and which is the first that differs
//!   (`DecidesListing` of vme_cert); or it is the first reason that there is none: of the binding,
//!   of the dump, of the listing, and then why the binding makes no recording of the dump
//!   (`compared_settled`). It is written, or the exit status says that it can't be (`Confirms`).
//! - If the inputs are read whole, no write fails and memory suffices, the answer is exactly the
//!   defined one (`exact`, `TellsConfirmation`).
//! - No index is out of range, no sum wraps, and each call ends.
//!
//! # What isn't proved
//!
//! When a byte is read, and that memory suffices: a few MiB, and what the definitions and the
//! longest token take. Where the binding can't be used on the dump, all of the dump is held.
//!
//! # Limits
//!
//! A dump has at most 268,435,456 bytes, and a listing at most 137,438,953,472, which no recording
//! reaches.
#![tactic(auto)]

mod body;
pub mod confirm;
mod listing_rows;
mod row_reading;
mod rows_fault;
mod step_check;

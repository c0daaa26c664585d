//! Tests of the monitors in vme_monitor, vme_dtb and vme_chains: worked recordings, joined and run.
//!
//! The breaks (violations of rules) and marks (events of the bus with their instants) that are
//! found are compared with those that are written with the recordings, for blocks of several sizes.
//! The memories (states of a monitor's automaton) are enumerated.
//!
//! - `recordings`: whether a monitor finds the wanted breaks and marks in recordings, which are
//!   written in the notation of vme_test_recordings.
//! - `known_tests`: where judging starts, again after a reset, of two monitors at once, and without
//!   marks. The only rules here are those of `Known`.
//! - `handshake_tests`: pipelined cycles and an answer without a transfer (H4); the data of a write,
//!   known and unknown.
//! - `stability_tests`: cycles with and without data, and resets after which no lines are held. U3,
//!   U4, S1, S2 and S3 are broken; U2 is in vme_summary_tests and vme_eval.
//! - `grant_tests` and `acknowledge_tests`: a tenure, a grant that is taken twice (B2), one that
//!   goes past the last slot (B4), a tenure that is open after a reset, an acknowledge along its
//!   chain, and one that skips a slot (I1).
//! - `stored_tests`: how many marks the summary of a read stores, against what summaries of one step
//!   show.
//!
//! Not tried here: breaks of the other rules. Each is broken in a worked recording of vme_eval.
#![tactic(auto)]

#[cfg(test)]
mod acknowledge_tests;
#[cfg(test)]
mod grant_tests;
#[cfg(test)]
mod handshake_tests;
#[cfg(test)]
mod known_tests;
#[cfg(test)]
mod recordings;
#[cfg(test)]
mod stability_tests;
#[cfg(test)]
mod stored_tests;

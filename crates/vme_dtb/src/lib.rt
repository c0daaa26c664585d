//! The monitors of the data transfer bus (ANSI/IEEE Std 1014-1987, chapter 2): the handshake of
//! strobes and answers, with the answers that a cycle admits; and what has to stay valid meanwhile.
//! The address, its modifier, the direction and the data of a write are known when AS* or a data
//! strobe falls that needs them, and stay as they are until they may change.
//!
//! # Parts
//!
//! - `handshake`: [`handshake::Dtb`], the monitor of H1 to H8, C1, C2, I4 and I5.
//! - `edges`: what one step shows of the handshake, whatever the memory is (the state of the
//!   monitor's automaton).
//! - `memory`, `cycle`: the memory of the handshake from one step to the next, and what the cycle
//!   that started last still admits.
//! - `stability`: [`stability::Stability`], the monitor of U2 to U4 and S1 to S3.
//! - `observation`: what one step shows of the lines that have to be known and held, whatever the
//!   memory is.
//! - `holding`: the memory of `Stability`, which says which lines have to be held.
//!
//! # What is proved
//!
//! Over every recording, also where other rules are broken:
//!
//! - [`handshake::handshake_over_recordings`]: the first break (violation of a rule) is the least
//!   break of the twelve rules of the handshake and of the answers in a cycle (`first_break`). The
//!   marks (events of the bus with their instants) are the starts and ends of cycles, and the
//!   starts, the answers with the data of a write, and the closes of transfers (`marks`).
//! - [`stability::stability_over_recordings`]: the first break is the least break of the six rules
//!   of lines that are known and held (`first_break`), and there are no marks (`marks`).
//!
//! # What isn't proved
//!
//! That allocations succeed. That the rules say what the standard says is to be read in vme_trace.
//! Set-up and hold times in nanoseconds aren't checked.
//!
//! # Limits
//!
//! There are 144 memories of the handshake, and 147 of `Dtb`; 10 of the held lines, and 13 of
//! `Stability`.
//!
//! # In which order to read
//!
//! `handshake` with `specs/Machine`; in `proofs/` each rule of the handshake has its lemma in
//! `HandshakeBreaks`, and each on the answers in a cycle in `CycleBreaks`. Then `stability` with
//! `specs/StabilityRules`.
#![tactic(auto)]

pub mod cycle;
pub mod edges;
pub mod handshake;
pub mod holding;
pub mod memory;
pub mod observation;
pub mod stability;

//! Tests of vme_floor: recordings judged by workers, in every order of deliveries.
//!
//! - `tests`: 1 and more workers, a reset, doubled, torn and missing blocks, each refusal, numbers
//!   out of range, workers that overlap (a gate holds one delivery until another is done), three
//!   blocks in each of their six orders a hundred times, and cuts of a recording that breaks a rule
//!   in its middle.
//! - `early`: blocks that the calling thread takes before the threads are joined. `gates`: gates
//!   that make workers wait, and one that records its calls. `hostile`: invalid deliveries and a
//!   doubled one. `short`: runs where memory is refused once (`tests/memory/run`).
//! - `recordings`: the recordings.
//!
//! Verdicts, listings and answers are compared with those that are written beside the recordings.
//! Not tested: every order of the threads' steps, and that a thread can't be started.
#![tactic(auto)]

#[cfg(test)]
mod tests;

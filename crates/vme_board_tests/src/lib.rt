//! Tests of vme_board: blocks delivered, claimed, taken and refused, on one thread and on many.
//!
//! - `tests`: a worked recording by two benches, a bench that is dropped, totals and draws out of
//!   range, refusals in their order, and a block that is filed once and taken once.
//!   `each_growth_fails_once` is for `tests/memory/run`, which refuses each of its allocations in
//!   turn.
//! - `thread_tests`: the same on threads; eight benches on eight threads that deliver each of 4,096
//!   numbers twice, twenty times over; and blocks out of range and malformed ones among them.
//!
//! The filed blocks are compared with the delivered ones, and the joined recording with its verdict.
//! Not tested: every order of the threads' steps, which `every_run` of vme_core covers; and speed.
#![tactic(auto)]

#[cfg(test)]
mod tests;
#[cfg(test)]
mod thread_tests;

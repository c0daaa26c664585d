//! Tests of vme_pod_check: recordings as pods deliver them. The expected values are written beside
//! them.
//!
//! - The verdict on a read, and on one without a strobe, by each of several plans: blocks of 1, 2 and
//!   65,536 steps, 1 and 3 workers, in order and by three seeds.
//! - That seeds give another order, and deliver blocks twice; refusals of a binding, of a dump and
//!   of too many blocks; a verdict that can't be written; the lines where there is no verdict; the
//!   arguments.
//! - Two pods on threads of their own, with a board and a book (`whole_by_two_pods`), an example
//!   for those who embed the library.
//!
//! Not tested: that a thread can't be started. `./test` runs the program on the examples.
#![tactic(auto)]

#[cfg(test)]
mod tests;

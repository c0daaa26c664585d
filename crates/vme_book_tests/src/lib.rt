//! Tests of vme_book: blocks that arrive in every order, and books that are closed.
//!
//! The verdicts and listings are compared with those of the worked read, and the refusals with
//! those that are given beside them: three blocks in each of their six orders, single steps
//! backwards, a number that is missing, blocks that are torn by lines and across a block without
//! steps, totals out of range, and 4,096 single steps that arrive ascending, descending, the even
//! ones first, and shuffled. `each_growth_fails_once` is made for `tests/memory/run`, which refuses
//! each of its allocations in turn.
//!
//! Not tried: longer blocks in as many numbers.
#![tactic(auto)]

#[cfg(test)]
mod tests;

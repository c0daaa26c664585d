//! What an annotated dump is: a dump with variables that show the tenures, cycles and transfers of
//! the recording that a binding makes of it, and its verdict.
//!
//! # Parts
//!
//! - `shown_variable`: [`ShownVariable`], the variables that are added.
//! - `same`: [`annotated_says_the_same`], the law that a binding makes the same recording of it.
//!
//! # What is proved
//!
//! - Any binding that makes a recording of a dump makes the same of the annotated dump
//!   ([`annotated_says_the_same`]): what is inserted adds no instant, and no binding names it.
//!
//! # What isn't proved
//!
//! That a viewer of waves shows the added variables. `specs/Annotated` is the definition, and
//! `specs/Shown` says what the variables show.
//!
//! Start reading at `specs/Annotated`.
#![tactic(auto)]

mod same;
mod shown_variable;

pub use same::annotated_says_the_same;
pub use shown_variable::ShownVariable;

//! What the rules of the bus ask, in a sentence each, for people: where a rule is broken, the line
//! that a break names, the chapter of the standard (ANSI/IEEE Std 1014-1987), and what is usually
//! wrong on a board that breaks it.
//!
//! # Parts
//!
//! - `guide`: [`Guide::of`], the only source of these. `vmecheck rules`, `vmecheck explain` and
//!   docs/PROTOCOL.md say what it says.
//! - `page`: the guides as text.
//!
//! # What is proved
//!
//! A guide is of the rule that was asked for, and has exactly the texts of `specs/Guides` for it.
//! Exactly this guide is written, or those of all rules, in their order (`guides_text`).
//!
//! # What isn't proved
//!
//! That what the sentences say is so: they are to be read beside `specs/Rules` of vme_trace, which
//! decides. `tests/texts` compares docs/PROTOCOL.md with them. Start reading at `guide`.
#![tactic(auto)]

mod guide;
mod page;

pub use guide::Guide;
pub use page::{push_rule, rules_text};

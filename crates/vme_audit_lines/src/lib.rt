//! The lines that an audit writes, byte for byte.
//!
//! # Parts
//!
//! - `category`: [`BreakCategory`] is how a break counts, [`BreakCategory::of`] determines it by the
//!   allowed deviations, and [`is_allowed`] is whether one of them allows the break.
//! - `dump_lines`: [`dump_head`] is the beginning of each line about a dump, its name; [`break_line`]
//!   is the line of a break, and [`refusal_text`] is why there is no outcome.
//! - `counts`: [`count_lines`] are the counts of the recording, and the rules that it never asks.
//! - `outcome`: [`outcome_line`] is the line of the audit's outcome, and [`outcome_status`] is the
//!   exit status.
//!
//! # What is proved
//!
//! Each line is exactly the one of `specs/AuditLines`. A line is complete before any of it is
//! written; without memory there is none. [`unasked_is_never_asked`]: if the events are those of
//! the definitions, the rules in the last line of the counts are those that the definitions call
//! never asked.
//!
//! # What isn't proved
//!
//! That these are the lines that users want: docs/FORMATS.md has the format.
//!
//! # Limits
//!
//! The length of a line depends on the name of its dump. Start reading at `specs/AuditLines`.
#![tactic(auto)]

ghost use Rattle.std.specs.Prelude.{◌≡◌, List};
ghost use Rattle.vme_trace.specs.Trace.{Trace};
ghost use Rattle.vme_trace.specs.declared.rule.Rule.{Rule};
ghost use Rattle.vme_audit.specs.AskedRules.{is_asked, never_asked};
ghost use Rattle.vme_auditor.specs.Events.{asks_by};
ghost use Rattle.vme_auditor.specs.declared.asked.AskedEvents.{AskedEvents};
ghost use Rattle.vme_audit_lines.specs.AuditLines.{unasked};

mod category;
mod counts;
mod dump_lines;
mod outcome;

pub use category::{BreakCategory, is_allowed};
pub use counts::count_lines;
pub use dump_lines::{break_line, dump_head, refusal_text};
pub use outcome::{outcome_line, outcome_status};

/// If the events are those of the definitions, so are the rules that are named as never asked.
pub fn unasked_is_never_asked()
    ensures { (e : AskedEvents) (t : Trace) → ((r : Rule) → asks_by e r ≡ is_asked t r)
        → unasked e ≡ never_asked t }
{}

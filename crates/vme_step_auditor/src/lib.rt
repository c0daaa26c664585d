//! Audits the steps of a recording one by one, with allowed deviations, and up to a number of breaks
//! that aren't allowed. A *break* is a violation of a rule.
//!
//! # Parts
//!
//! - `step_auditor`: [`StepAuditor`] takes one step after the other, and returns the break that a
//!   step makes and how it counts. It ignores all steps after the break at which it stops.
//! - `categorized_break`: a break that is returned ([`CategorizedBreak`]), and counts of breaks.
//! - `laws`: how far a recording is read as its steps come.
//!
//! # What is proved
//!
//! - [`StepAuditor::take`]: the breaks that are returned are exactly those of the recording so far,
//!   as far as it is read, each with its own step (`told`) and with how it counts (`category`).
//! - [`StepAuditor::is_stopped`]: the audit is stopped exactly where the recording has as many breaks
//!   that aren't allowed as end it.
//! - [`StepAuditor::break_counts`], [`StepAuditor::audited`] and [`StepAuditor::outcome`] are those
//!   of vme_audit for the recording so far, as far as it is read.
//! - [`stop_is_final`]: once an audit stops, further steps don't change what is read.
//!   [`reading_goes_on`]: until then everything is read, and the breaks of what is read stay when
//!   further steps come.
//!
//! # What isn't proved
//!
//! How long an audit takes. Once it is stopped, a step costs one comparison.
//!
//! # Limits
//!
//! Those of an [`Auditor`]: the step after the 18,446,744,073,709,551,615th is refused.
//!
//! # In which order to read
//!
//! `specs/Allowances` of vme_audit; `specs/ReadBy`; then `step_auditor`.
//!
//! [`Auditor`]: vme_auditor::Auditor
#![tactic(auto)]

mod categorized_break;
mod laws;
mod step_auditor;

pub use categorized_break::CategorizedBreak;
pub use laws::{reading_goes_on, stop_is_final};
pub use step_auditor::{AuditRules, StepAuditor};

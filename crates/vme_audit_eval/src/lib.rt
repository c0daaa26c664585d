//! The results of an audit's definitions for worked recordings, computed by the prover.
//!
//! Each function is a law. Its contract is that the recordings of one module of `specs/` have the
//! results beside them; the module ends in the list of its recordings.
//!
//! - [`several_breaks`]: all breaks, and what is judged after each.
//! - [`coverage`]: what is counted, and which recordings are covered.
//! - [`asking`]: which rules are asked.
//!
//! Nothing is stated of other recordings. Start reading in `specs/Audited`, then `specs/Breaks`.
#![tactic(auto)]

ghost use Rattle.std.specs.Prelude.{All};
ghost use Rattle.vme_audit_eval.specs.Asking.{asking};
ghost use Rattle.vme_audit_eval.specs.Audited.{AskingAgrees, AuditAgrees};
ghost use Rattle.vme_audit_eval.specs.Breaks.{several_breaks};
ghost use Rattle.vme_audit_eval.specs.Coverage.{coverage};

/// All breaks of recordings, and what is judged after each: judging starts anew at the first idle
/// instant from that of the break on.
pub fn several_breaks()
    ensures { All AuditAgrees several_breaks }
{}

/// The counts and the outcome: which recordings are covered, by the number of answered transfers
/// required.
pub fn coverage()
    ensures { All AuditAgrees coverage }
{}

/// The rules that recordings ask.
pub fn asking()
    ensures { All AskingAgrees asking }
{}

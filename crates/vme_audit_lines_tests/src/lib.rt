//! Tests of vme_audit_lines and vme_step_auditor.
//!
//! - `tests`: the lines that an audit writes, compared with those of the second judge (the
//!   independent reference/vmecheck.py). `a_line_is_whole_or_there_is_none` is for
//!   `tests/memory/run`, which refuses each of its allocations in turn.
//! - `step_tests`: a recording with three breaks, as far as it is read.
#![tactic(auto)]

#[cfg(test)]
mod step_tests;
#[cfg(test)]
mod tests;

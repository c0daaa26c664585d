//! Tests of vme_auditor: recordings with several breaks, and the results of the second judge (the
//! independent reference/vmecheck.py) for them.
#![tactic(auto)]

#[cfg(test)]
mod recordings;
#[cfg(test)]
mod tests;

//! Tests of vme_parts: recordings that are cut into files, whose parts are joined in many orders and
//! groupings, and files that are missing or torn.
#![tactic(auto)]

#[cfg(test)]
mod tests;

//! Tests of vcd_places: where definitions end and time stamps are in texts, and codes that are
//! unused. The expected values are given beside the texts.
#![tactic(auto)]

#[cfg(test)]
mod tests;

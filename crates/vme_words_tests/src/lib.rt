//! Tests of vme_words: which order, i.e. parsed command, the arguments of a command line give,
//! compared with expected ones, and which arguments are refused, as invalid or because they ask for
//! help.
#![tactic(auto)]

#[cfg(test)]
mod tests;

//! Known deviations, which an audit allows.

use vme_trace::{Line, Rule};

/// A known deviation: breaks of a rule, on one line or on every line, are allowed.
#[derive(Clone, Copy, Debug, PartialEq, Eq)]
pub struct Allowance {
    /// The rule that may be broken.
    pub rule: Rule,
    /// The only line on which the rule may be broken, or `None` for every line.
    pub line: Option<Line>,
}

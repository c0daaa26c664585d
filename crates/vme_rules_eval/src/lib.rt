//! Each rule has an example that breaks it, and recordings nearest to that which conform.
//!
//! The examples are in `specs/Examples` of vme_eval. What the definitions say of them is computed
//! in the crates of laws below. The one law here, [`every_rule`], puts it together, rule by rule.
//! Nothing is said of other recordings. Start reading at `IsShown` of `specs/Examples`.
#![tactic(auto)]

ghost use Rattle.vme_trace.specs.declared.rule.Rule.{Rule};
ghost use Rattle.vme_eval.specs.Examples.{IsShown};

/// Each rule is broken in its example, and the recordings nearest to that conform.
pub fn every_rule()
    ensures { (r : Rule) → IsShown r }
{}

//! What the definitions say of where judging starts and ends, of which break (violation of a rule)
//! is named, and of which blocks join, on worked recordings and blocks, by computing them.
//!
//! Each function is a law: its contract states it, and the prover computes it. The recordings are in
//! vme_eval, with the verdict and the listing that each should get, and the blocks in
//! `specs/WorkedBlocks`.
//!
//! - [`malformed_steps`]: steps that may not follow what precedes them.
//! - [`least_of_two`]: the lesser of two levels, and the first of two malformed steps.
//! - [`judged_stretches`]: what is judged.
//! - [`dumps`]: recordings as from a dump, and where judging starts and ends (U1).
//! - [`resets`]: resets of the bus, and the starts after them.
//! - [`same_instant`]: which of two breaks of one instant is named.
//! - [`leniencies`]: what conforms though the standard's order of edges forbids it.
//! - [`blocks_that_join`]: blocks that follow one another join, across a block without steps too.
//! - [`blocks_that_are_torn`]: blocks are torn by number, by lines, by slots and by time, the last
//!   across a block without steps too.
//!
//! By their contracts, `join` and `append` of vme_summary answer that spans are torn exactly where
//! their blocks don't join; vme_summary_tests asks them about spans. Nothing is said of other
//! recordings and blocks. Start reading at the law of interest.
#![tactic(auto)]

ghost use Rattle.std.specs.Prelude.{◌≡◌, ◌∷◌, [], All, Some};
ghost use Rattle.vme_trace.specs.LineNumbers.{AS, BBSY, DS0, grant};
ghost use Rattle.vme_trace.specs.Tenures.{tenure_level};
ghost use Rattle.vme_trace.specs.WellFormed.{malformed_step};
ghost use Rattle.vme_eval.specs.Recording.{Agrees, judged};
ghost use Rattle.vme_eval.specs.Steps.{at, dumped_at, high, low};
ghost use Rattle.vme_eval.specs.Dumps.{dumps};
ghost use Rattle.vme_eval.specs.Grants.{two_levels_granted_at_once};
ghost use Rattle.vme_eval.specs.Resets.{resets, reset_after_a_lost_strobe, two_resets};
ghost use Rattle.vme_eval.specs.SameInstant.{same_instant};
ghost use Rattle.vme_eval.specs.Leniencies.{leniencies};
ghost use Rattle.vme_summary.specs.Joins.{BlocksJoin};
ghost use Rattle.vme_judging_eval.specs.WorkedBlocks.{after_empty, empty, first, next, on_other_lines, on_slots};

/// Steps that may not follow what precedes them: one that changes nothing, one that is no later than the step before,
/// and ones that change a line that a backplane of one slot doesn't have, a line to the level that it has, and lines
/// out of order.
pub fn malformed_steps()
    ensures no_change { malformed_step (dumped_at (at 5 [] ∷ [])) ≡ Some 0 }
    ensures no_later { malformed_step (dumped_at (at 5 (low AS ∷ []) ∷ at 5 (low DS0 ∷ []) ∷ [])) ≡ Some 1 }
    ensures no_line { malformed_step (dumped_at (at 5 (low (grant 0 2) ∷ []) ∷ [])) ≡ Some 0 }
    ensures no_level { malformed_step (dumped_at (at 5 (low BBSY ∷ []) ∷ [])) ≡ Some 0 }
    ensures no_order { malformed_step (dumped_at (at 5 (low DS0 ∷ low AS ∷ []) ∷ [])) ≡ Some 0 }
    ensures one_line_twice { malformed_step (dumped_at (at 5 (low AS ∷ high AS ∷ []) ∷ [])) ≡ Some 0 }
{}

/// Of two levels that are granted the lesser one is a tenure's, and of two malformed steps the first is named. No
/// verdict or listing shows the former, since two granted levels break a rule, or says anything of the latter.
pub fn least_of_two()
    ensures level { tenure_level two_levels_granted_at_once.trace 3 ≡ Some 2 }
    ensures step { malformed_step (dumped_at (at 5 [] ∷ at 3 [] ∷ [])) ≡ Some 0 }
{}

/// What is judged: up to each reset and from the next idle instant on, and nothing more once a line was lost. No
/// verdict or listing shows that nothing more is judged, since the loss is the least break.
pub fn judged_stretches()
    ensures after_resets { judged two_resets.trace ≡ (1, 2) ∷ (3, 4) ∷ (5, 6) ∷ [] }
    ensures after_a_loss { judged reset_after_a_lost_strobe.trace ≡ (1, 2) ∷ [] }
{}

/// Recordings of one slot, as from a dump, and where judging starts and ends.
pub fn dumps()
    ensures { All Agrees dumps }
{}

/// Resets, which end what is judged and name no break, and the starts after them.
pub fn resets()
    ensures { All Agrees resets }
{}

/// Recordings that break two rules at one instant: the rule that comes first is named.
pub fn same_instant()
    ensures { All Agrees same_instant }
{}

/// What conforms though the standard's order of edges forbids it.
pub fn leniencies()
    ensures { All Agrees leniencies }
{}

/// Blocks that follow one another join, across an empty block too.
pub fn blocks_that_join()
    ensures later { BlocksJoin (first ∷ next 11 ∷ []) }
    ensures across_empty { BlocksJoin (first ∷ empty ∷ after_empty 11 ∷ []) }
    ensures same_slots { BlocksJoin (first ∷ on_slots 3 ∷ []) }
{}

/// Blocks are torn where a number is left out, where the lines or the slots differ, and where the time isn't later than
/// that of the last step so far, across an empty block too: there each two adjacent blocks join.
pub fn blocks_that_are_torn()
    ensures by_number { ¬ BlocksJoin (first ∷ after_empty 11 ∷ []) }
    ensures by_lines { ¬ BlocksJoin (first ∷ on_other_lines ∷ []) }
    ensures by_slots { ¬ BlocksJoin (first ∷ on_slots 2 ∷ []) }
    ensures by_time { ¬ BlocksJoin (first ∷ next 10 ∷ []) }
    ensures before_empty { BlocksJoin (first ∷ empty ∷ []) }
    ensures after_empty { BlocksJoin (empty ∷ after_empty 10 ∷ []) }
    ensures across_empty { ¬ BlocksJoin (first ∷ empty ∷ after_empty 10 ∷ []) }
{}

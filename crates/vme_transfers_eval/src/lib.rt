//! What the definitions say of worked recordings of transfers and cycles, by computing them.
//!
//! Each function is a law: its contract states it, and the prover computes it. The recordings are
//! in vme_eval, in the module of the law's name, with the verdict and the listing that each should
//! get.
//!
//! - [`tables`]: which modifier codes, control lines and needed lines the definitions single out.
//! - [`transfers`]: transfers, answers and the address strobe (H1 to H8).
//! - [`cycles`]: classes of cycles, and cycles of several transfers (C1, C2).
//!
//! Nothing is said of other recordings. Start reading at the law of interest.
#![tactic(auto)]

ghost use Rattle.std.specs.Prelude.{◌≡◌, ◌∷◌, [], All};
ghost use Rattle.vme_trace.specs.LineNumbers.{IACK};
ghost use Rattle.vme_trace.specs.declared.level.Level.TheVariants.{Low, Unknown};
ghost use Rattle.vme_eval.specs.Recording.{Agrees};
ghost use Rattle.vme_eval.specs.Transfers.{transfers};
ghost use Rattle.vme_eval.specs.Cycles.{cycles};
ghost use Rattle.vme_eval.specs.Tables.{codes_that, control_lines, high_but, high_lines, is_block_transfer};
ghost use Rattle.vme_eval.specs.Tables.{is_single_transfer, lines_losing_control, lines_of_code, modifier_lines};
ghost use Rattle.vme_eval.specs.Tables.{needed_lines, needs_up_to};
ghost use Rattle.vme_eval.specs.Tables.{not_idle_with, standard_lines};

/// The modifier codes of each class, the lines that have to be high or known on an idle bus, the control lines, and the
/// lines that a cycle needs.
pub fn tables()
    ensures block_codes { codes_that is_block_transfer ≡ 11 ∷ 15 ∷ 59 ∷ 63 ∷ [] }
    ensures single_codes { codes_that is_single_transfer ≡ 9 ∷ 10 ∷ 13 ∷ 14 ∷ 41 ∷ 45 ∷ 57 ∷ 58 ∷ 61 ∷ 62 ∷ [] }
    ensures extended_codes { codes_that (needs_up_to 31) ≡ 9 ∷ 10 ∷ 11 ∷ 13 ∷ 14 ∷ 15 ∷ [] }
    ensures standard_codes { codes_that (needs_up_to 23) ≡ 57 ∷ 58 ∷ 59 ∷ 61 ∷ 62 ∷ 63 ∷ [] }
    ensures short_codes { codes_that (needs_up_to 15) ≡ 41 ∷ 45 ∷ [] }
    ensures high_lines { not_idle_with Low ≡ high_lines }
    ensures known_lines { not_idle_with Unknown ≡ control_lines }
    ensures control_lines { lines_losing_control ≡ control_lines }
    ensures standard_needs { needed_lines (lines_of_code 61) ≡ standard_lines }
    ensures acknowledge_needs { needed_lines (high_but IACK Low) ≡ 5 ∷ 14 ∷ 15 ∷ 16 ∷ [] }
    ensures modifier_lines { modifier_lines ≡ 6 ∷ 7 ∷ 8 ∷ 9 ∷ 10 ∷ 11 ∷ [] }
{}

/// Transfers, answers and the address strobe.
pub fn transfers()
    ensures { All Agrees transfers }
{}

/// Classes of cycles, and cycles of several transfers.
pub fn cycles()
    ensures { All Agrees cycles }
{}

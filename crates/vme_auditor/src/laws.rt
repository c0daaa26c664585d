//! What the monitors find from step to step agrees with the definitions, and an audit agrees with a verdict and with a
//! listing.

ghost use Rattle.std.specs.Prelude.{◌≡◌, ◌≤◌, ◌↔◌, ℕ, List, [], None, Some, if◌then◌else◌, slice_get};
ghost use Rattle.vme_trace.specs.Rules.{is_unreadable};
ghost use Rattle.vme_trace.specs.Trace.{Trace};
ghost use Rattle.vme_trace.specs.Verdict.{verdict};
ghost use Rattle.vme_trace.specs.WellFormed.{malformed_step};
ghost use Rattle.vme_trace.specs.declared.verdict.Break.{Break};
ghost use Rattle.vme_trace.specs.declared.verdict.Verdict.TheVariants.{Broken, Conforming, NeverIdle, Unreadable};
ghost use Rattle.vme_audit.specs.Counted.{counts, counts_of_rows};
ghost use Rattle.vme_audit.specs.Covered.{is_judged_part, outcome};
ghost use Rattle.vme_audit.specs.Parts.{breaks, last_part, named_break};
ghost use Rattle.vme_audit.specs.declared.allowance.Allowance.{Allowance};
ghost use Rattle.vme_audit.specs.declared.outcome.CoverageGap.TheVariants as gap;
ghost use Rattle.vme_audit.specs.declared.outcome.Outcome.TheVariants as audited;
ghost use Rattle.vme_listing.specs.Recorded.{recorded_rows};
ghost use Rattle.vme_summary.specs.AllShown.{all_marks};
ghost use Rattle.vme_auditor.specs.FirstBreak.{first_break_from};
ghost use Rattle.vme_auditor.specs.JoinedMarks.{joined_marks};
ghost use Rattle.vme_auditor.specs.Memories.{memories_at};

use vme_chains::acknowledge::acknowledge_over_recordings;
use vme_chains::grant::grants_over_recordings;
use vme_dtb::handshake::handshake_over_recordings;
use vme_dtb::stability::stability_over_recordings;
use vme_monitor::known::known_over_recordings;

/// The first break that the monitors find, step by step, is the one that the recording's verdict names.
pub fn first_break_is_found()
    ensures { (t : Trace) → malformed_step t ≡ None → t.opening.slots ≤ 21
        → named_break (verdict t) ≡ first_break_from (memories_at t.opening) t.opening t.steps }
{
    known_over_recordings();
    handshake_over_recordings();
    stability_over_recordings();
    grants_over_recordings();
    acknowledge_over_recordings();
}

/// The marks that the monitors show, step by step, are those from which the recording's listing is made.
pub fn marks_are_found()
    ensures { (t : Trace) → malformed_step t ≡ None → t.opening.slots ≤ 21
        → joined_marks (memories_at t.opening) t.opening t.steps ≡ all_marks t }
{
    known_over_recordings();
    handshake_over_recordings();
    stability_over_recordings();
    grants_over_recordings();
    acknowledge_over_recordings();
}

/// The first break of a recording is the one that its verdict names. The rule of this break determines whether the
/// verdict is that the recording is wrong there, or that it can't be read.
pub fn first_break_is_named()
    ensures named { (t : Trace) → slice_get (breaks t) 0 ≡ named_break (verdict t) }
    ensures verdict { (t : Trace) (b : Break) → slice_get (breaks t) 0 ≡ Some b
        → verdict t ≡ (if is_unreadable b.rule then Unreadable b else Broken b) }
{}

/// A recording has no break exactly where its verdict names none. Then what is judged in it, if anything, conforms, and
/// its counts are those of its listing.
pub fn unbroken_is_listed()
    ensures breaks { (t : Trace) → (breaks t ≡ []) ↔ (named_break (verdict t) ≡ None) }
    ensures verdict { (t : Trace) → breaks t ≡ []
        → verdict t ≡ (if is_judged_part (last_part t) then Conforming else NeverIdle) }
    ensures counts { (t : Trace) → breaks t ≡ [] → counts t ≡ counts_of_rows (recorded_rows t) }
{}

/// If a recording's outcome is that it conforms, and no break of it is allowed, its verdict is that it conforms. The
/// outcome is that the bus is never idle exactly where the verdict is.
pub fn outcome_has_verdict()
    ensures conforming { (allowances : List Allowance) (wanted : ℕ) (t : Trace)
        → outcome allowances wanted t ≡ audited.Conforming 0 → verdict t ≡ Conforming }
    ensures never_idle { (allowances : List Allowance) (wanted : ℕ) (t : Trace)
        → (outcome allowances wanted t ≡ audited.NotCovered gap.NeverIdle) ↔ (verdict t ≡ NeverIdle) }
{}

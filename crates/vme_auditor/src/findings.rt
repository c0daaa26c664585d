//! What an audit found, and its outcome.

ghost use Rattle.std.specs.Prelude.{◌≡◌, List};
ghost use Rattle.vme_trace.specs.Trace.{Trace};
ghost use Rattle.vme_audit.specs.Covered.{outcome as outcome_of};
ghost use Rattle.vme_audit.specs.declared.allowance.Allowance.{Allowance};
ghost use Rattle.vme_auditor.specs.Findings.{AreBreakCountsOf, AreFindingsOf, gap_by, outcome_by};

use crate::asked::AskedEvents;
use vme_audit::{Counts, CoverageGap, Outcome};

/// What an audit found of a recording, except its breaks.
#[derive(Clone, Copy, Debug, PartialEq, Eq)]
pub struct AuditFindings {
    /// How many resets, tenures, cycles and transfers there are.
    pub counts: Counts,
    /// Which events happened, by which the rules that were asked are known.
    pub events: AskedEvents,
    /// Whether anything is judged after the last break, or at all if there is none.
    pub is_judged: bool,
    /// The instant of the last break, if there is one.
    pub last_break: Option<u64>,
    /// The instant and the time, in the unit of the recording, at which the first transfer starts that is still without
    /// an answer at the end, if there is one.
    pub hang: Option<(u64, u64)>,
}

/// The numbers of a recording's breaks.
#[derive(Clone, Copy, Debug, Default, PartialEq, Eq)]
pub struct BreakCounts {
    /// Those that aren't allowed and mean that the recording is wrong.
    pub broken: u64,
    /// Those that aren't allowed and mean that the recording can't be read.
    pub unreadable: u64,
    /// Those that are allowed.
    pub allowed: u64,
}

/// Why a recording isn't covered, if it isn't, where at least `wanted` answered transfers are required.
fn gap(findings: &AuditFindings, wanted: u64) -> Option<CoverageGap>
    ensures { result ≡ gap_by findings.now wanted }
{
    let answered = findings
        .counts
        .by_dtack
        .saturating_add(findings.counts.by_berr);
    if !findings.is_judged {
        match findings.last_break {
            Some(instant) => Some(CoverageGap::NeverIdleBehind { instant }),
            None => Some(CoverageGap::NeverIdle),
        }
    } else if answered < wanted {
        Some(CoverageGap::FewAnswers { answered, wanted })
    } else {
        match findings.hang {
            Some((instant, time)) => Some(CoverageGap::Hang { instant, time }),
            None => None,
        }
    }
}

/// The outcome of a recording's audit, where at least `wanted` answered transfers are required.
pub fn outcome(findings: &AuditFindings, breaks: BreakCounts, wanted: u64) -> Outcome
    ensures found { result ≡ outcome_by findings.now breaks wanted }
    ensures defined { (allowances : List Allowance) (t : Trace) → AreFindingsOf findings.now t
        → AreBreakCountsOf breaks allowances t → result ≡ outcome_of allowances wanted t }
{
    if breaks.broken > 0 {
        Outcome::Broken
    } else if breaks.unreadable > 0 {
        Outcome::Unreadable
    } else {
        match gap(findings, wanted) {
            Some(gap) => Outcome::NotCovered { gap },
            None => Outcome::Conforming {
                allowed: breaks.allowed,
            },
        }
    }
}

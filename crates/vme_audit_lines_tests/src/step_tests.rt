use std::alloc::Global;
use vme_audit::{Allowance, Outcome};
use vme_audit_lines::BreakCategory;
use vme_auditor::{AuditBreak, BreakCounts};
use vme_step_auditor::{AuditRules, CategorizedBreak, StepAuditor};
use vme_test_recordings::{opening_of, step_of};
use vme_trace::{Line, Lines, Rule};

/// Every line is High, except BBSY*.
const OPENING: &str = "high BBSY=0";

/// A strobe that becomes unknown, a stray answer, and a read with a second answer line: the changes of each step.
static STEPS: [&str; 12] = [
    "AS=x",
    "AS=1",
    "DTACK=0",
    "DTACK=1",
    "AM1=0",
    "AS=0",
    "DS0=0",
    "BERR=0",
    "DTACK=0",
    "AS=1 DS0=1",
    "BERR=1",
    "DTACK=1",
];

/// How a break counts, and its instant, time, rule and line.
type KnownBreak = (BreakCategory, u64, u64, Rule, &'static str);

/// The breaks of these steps by the second judge, and how each counts where H4 on DTACK* is allowed.
static BREAKS: [KnownBreak; 3] = [
    (BreakCategory::Unreadable, 1, 0, Rule::U1, "AS"),
    (BreakCategory::Allowed, 3, 20, Rule::H4, "DTACK"),
    (BreakCategory::Broken, 9, 80, Rule::H5, "DTACK"),
];

/// A known break with its category.
fn break_of(known: &KnownBreak) -> Option<CategorizedBreak> {
    let (category, instant, time, rule, line) = *known;
    Some(CategorizedBreak {
        category,
        found: AuditBreak {
            instant,
            time,
            rule,
            line: Line::from_name(line.as_bytes())?,
        },
    })
}

/// Whether `returned` are the first of the known breaks.
fn are_first_breaks(returned: &[CategorizedBreak]) -> bool {
    for (found, known) in returned.iter().zip(BREAKS.iter()) {
        let is_so = match break_of(known) {
            Some(known) => *found == known,
            None => false,
        };
        if !is_so {
            return false;
        }
    }
    returned.len() <= BREAKS.len()
}

/// Takes the steps, which are ten time units apart, and adds the breaks that the auditor returns to `returned`.
fn read_steps(
    alloc: Global,
    opening: &Lines,
    auditor: &mut StepAuditor<'_>,
    returned: &mut Vec<CategorizedBreak>,
) -> Option<()> {
    for (number, text) in STEPS.iter().enumerate() {
        let time = (number as u64).saturating_mul(10);
        let step = step_of(alloc, opening, time, text)?;
        if let Some(found) = auditor.take(&step).ok()? {
            returned.push(found).ok()?;
        }
    }
    Some(())
}

/// The result of an audit: how many breaks are returned, whether it is stopped, the counts of breaks, how many
/// transfers BERR* answered, and the outcome.
type EndedAudit = (usize, bool, BreakCounts, u64, Outcome);

/// The result of an audit of the recording with limit `stop`. The returned breaks must be the first of the known ones.
fn ended(alloc: Global, stop: Option<u64>) -> Option<EndedAudit> {
    let allowances = [Allowance {
        rule: Rule::H4,
        line: Line::from_name(b"DTACK"),
    }];
    let rules = AuditRules {
        allowances: &allowances,
        stop,
    };
    let opening = opening_of(alloc, 1, OPENING)?;
    let mut auditor = StepAuditor::new(&opening, rules);
    let mut returned = Vec::new(alloc);
    read_steps(alloc, &opening, &mut auditor, &mut returned)?;
    if !are_first_breaks(returned.as_slice()) {
        return None;
    }
    Some((
        returned.len(),
        auditor.is_stopped(),
        auditor.break_counts(),
        auditor.audited().counts.by_berr,
        auditor.outcome(1),
    ))
}

/// All breaks of the recording.
const ALL: BreakCounts = BreakCounts {
    broken: 1,
    unreadable: 1,
    allowed: 1,
};

#[test]
fn all_is_read_without_a_stop(rt: HostRuntime) {
    assert!(rt; ended(rt.alloc(), None) == Some((3, false, ALL, 1, Outcome::Broken)));
}

#[test]
fn reading_stops_at_the_first_break(rt: HostRuntime) {
    let first = BreakCounts {
        broken: 0,
        unreadable: 1,
        allowed: 0,
    };
    let wanted = (1, true, first, 0, Outcome::Unreadable);
    assert!(rt; ended(rt.alloc(), Some(1)) == Some(wanted));
}

#[test]
fn what_is_allowed_stops_nothing(rt: HostRuntime) {
    assert!(rt; ended(rt.alloc(), Some(2)) == Some((3, true, ALL, 1, Outcome::Broken)));
}

#[test]
fn a_stop_is_not_reached(rt: HostRuntime) {
    assert!(rt; ended(rt.alloc(), Some(3)) == Some((3, false, ALL, 1, Outcome::Broken)));
}

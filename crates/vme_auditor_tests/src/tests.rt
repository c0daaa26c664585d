use crate::recordings::{RECORDINGS, WorkedRecording};
use std::alloc::Global;
use vme_audit::{Counts, CoverageGap, Outcome};
use vme_auditor::{AskedEvents, AuditBreak, AuditFindings, Auditor, BreakCounts, outcome};
use vme_test_recordings::{opening_of, push_steps};
use vme_trace::{Block, Line, Lines, Rule, Steps};

/// A break of the second judge.
fn break_of(worked: &(u64, u64, Rule, &'static str)) -> Option<AuditBreak> {
    let (instant, time, rule, line) = *worked;
    Some(AuditBreak {
        instant,
        time,
        rule,
        line: Line::from_name(line.as_bytes())?,
    })
}

fn counts_of(counts: [u64; 11]) -> Counts {
    let [
        resets,
        tenures,
        single,
        block,
        free,
        acknowledge,
        reads,
        writes,
        by_dtack,
        by_berr,
        pending,
    ] = counts;
    Counts {
        resets,
        tenures,
        single,
        block,
        free,
        acknowledge,
        reads,
        writes,
        by_dtack,
        by_berr,
        pending,
    }
}

/// The opening and the steps of a recording, if they are well formed.
fn block_of(alloc: Global, worked: &WorkedRecording) -> Option<Block> {
    let opening = opening_of(alloc, worked.slots, worked.opening)?;
    let mut steps = Vec::new(alloc);
    push_steps(alloc, &mut steps, &opening, worked.steps)?;
    let block = Block {
        number: 0,
        opening,
        steps: Steps::new(steps),
    };
    match block.check() {
        Ok(()) => Some(block),
        Err(_) => None,
    }
}

/// The breaks of a recording, and the findings of its audit.
fn audited(alloc: Global, worked: &WorkedRecording) -> Option<(Vec<AuditBreak>, AuditFindings)> {
    let block = block_of(alloc, worked)?;
    let mut auditor = Auditor::new(&block.opening);
    let mut breaks = Vec::new(alloc);
    for step in block.steps.as_slice() {
        if let Some(found) = auditor.step(step).ok()? {
            breaks.push(found).ok()?;
        }
    }
    Some((breaks, auditor.audited()))
}

/// Whether `breaks` are the breaks `worked` of the second judge.
fn are_breaks(breaks: &[AuditBreak], worked: &[(u64, u64, Rule, &'static str)]) -> bool {
    for (found, worked) in breaks.iter().zip(worked) {
        let is_so = match break_of(worked) {
            Some(worked) => *found == worked,
            None => false,
        };
        if !is_so {
            return false;
        }
    }
    breaks.len() == worked.len()
}

/// Whether a text has a name among its words.
fn has_name(names: &str, name: &str) -> bool {
    for word in names.split_whitespace() {
        if word == name {
            return true;
        }
    }
    false
}

/// Whether exactly the events happened that `names` has.
fn are_events(events: &AskedEvents, names: &str) -> bool {
    let happened = [
        ("stretch", events.stretch),
        ("cycle", events.cycle),
        ("cycle_end", events.cycle_end),
        ("transfer", events.transfer),
        ("write", events.write),
        ("strobe_rise", events.strobe_rise),
        ("strobe_fall", events.strobe_fall),
        ("answer_fall", events.answer_fall),
        ("answer_rise", events.answer_rise),
        ("answer", events.answer),
        ("single_again", events.single_again),
        ("block_again", events.block_again),
        ("interrupt", events.interrupt),
        ("interrupt_again", events.interrupt_again),
        ("slot_grant_fall", events.slot_grant_fall),
        ("slot_grant_rise", events.slot_grant_rise),
        ("arbiter_fall", events.arbiter_fall),
        ("tenure", events.tenure),
        ("acknowledge_fall", events.acknowledge_fall),
    ];
    for (name, is_there) in happened {
        if is_there != has_name(names, name) {
            return false;
        }
    }
    true
}

/// Whether these are the outcomes with `allowed` allowed breaks, where no answered transfer is required, or one is.
fn has_outcomes(findings: &AuditFindings, allowed: u64, outcomes: (Outcome, Outcome)) -> bool {
    let allowed = BreakCounts {
        broken: 0,
        unreadable: 0,
        allowed,
    };
    outcome(findings, allowed, 0) == outcomes.0 && outcome(findings, allowed, 1) == outcomes.1
}

/// What differs from the results of the second judge for a recording, or an empty text.
fn difference(
    breaks: &[AuditBreak],
    findings: &AuditFindings,
    worked: &WorkedRecording,
) -> &'static str {
    if !are_breaks(breaks, worked.breaks) {
        return "breaks";
    }
    if findings.counts != counts_of(worked.counts) {
        return "counts";
    }
    if !are_events(&findings.events, worked.events) {
        return "events";
    }
    if !has_outcomes(findings, breaks.len() as u64, worked.outcomes) {
        return "outcome";
    }
    ""
}

/// What differs in the audit of a recording from the results of the second judge, or an empty text.
fn difference_of(alloc: Global, worked: &WorkedRecording) -> &'static str {
    match audited(alloc, worked) {
        Some((breaks, findings)) => difference(breaks.as_slice(), &findings, worked),
        None => "not audited",
    }
}

#[test]
fn recordings_are_audited(rt: HostRuntime) {
    for worked in RECORDINGS.iter() {
        let differs = difference_of(rt.alloc(), worked);
        assert!(rt; differs.is_empty(), "{differs} of {}", worked.steps);
    }
}

/// The outcome of a recording of which nothing is known, with these numbers of breaks.
fn outcome_of(counts: BreakCounts) -> Option<Outcome> {
    let opening = Lines::new(1)?;
    Some(outcome(&Auditor::new(&opening).audited(), counts, 1))
}

#[test]
fn a_break_is_told_before_a_gap(rt: HostRuntime) {
    let broken = BreakCounts {
        broken: 1,
        unreadable: 1,
        allowed: 1,
    };
    let unreadable = BreakCounts {
        broken: 0,
        ..broken
    };
    assert!(rt; outcome_of(broken) == Some(Outcome::Broken));
    assert!(rt; outcome_of(unreadable) == Some(Outcome::Unreadable));
    let gap = CoverageGap::NeverIdle;
    assert!(rt; outcome_of(BreakCounts::default()) == Some(Outcome::NotCovered { gap }));
}

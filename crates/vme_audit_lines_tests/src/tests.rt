use std::alloc::{AllocError, Global};
use vcd_read::{FaultKind, VcdFault};
use vme_audit::{Allowance, Counts, CoverageGap, Outcome};
use vme_audit_lines::{
    BreakCategory, break_line, count_lines, dump_head, is_allowed, outcome_line, outcome_status,
    refusal_text,
};
use vme_auditor::{AskedEvents, AuditBreak, AuditFindings, BreakCounts};
use vme_bind::{BindFault, BindFaultKind};
use vme_stream::{Input, Refusal};
use vme_text::Text;
use vme_trace::{Line, Rule};

/// An answer in no transfer.
const STRAY: AuditBreak = AuditBreak {
    instant: 14,
    time: 79,
    rule: Rule::H4,
    line: Line::BERR,
};

/// A break at the greatest instant and time.
const LATE: AuditBreak = AuditBreak {
    instant: 18_446_744_073_709_551_615,
    time: 18_446_744_073_709_551_615,
    rule: Rule::U1,
    line: Line::DTACK,
};

/// The events of a recording without a further transfer of a single cycle, and without a further one of an acknowledge.
const MANY_EVENTS: AskedEvents = AskedEvents {
    stretch: true,
    cycle: true,
    cycle_end: true,
    transfer: true,
    write: true,
    strobe_rise: true,
    strobe_fall: true,
    answer_fall: true,
    answer_rise: true,
    answer: true,
    single_again: false,
    block_again: true,
    interrupt: true,
    interrupt_again: false,
    slot_grant_fall: true,
    slot_grant_rise: true,
    arbiter_fall: true,
    tenure: true,
    acknowledge_fall: true,
};

/// Whether `made` is the text `text`.
fn is_text(made: Result<Text, AllocError>, text: &[u8]) -> bool {
    match made {
        Ok(made) => made.as_bytes() == text,
        Err(_) => false,
    }
}

/// Whether `made` is the text `text`, or there was no memory.
fn is_text_or_no_memory(made: Result<Text, AllocError>, text: &[u8]) -> bool {
    match made {
        Ok(made) => made.as_bytes() == text,
        Err(_) => true,
    }
}

#[test]
fn names_are_shown(rt: HostRuntime) {
    assert!(rt; is_text(dump_head(rt.alloc(), b"-"), b"-: "));
    assert!(rt; is_text(dump_head(rt.alloc(), b"a: b\n.vcd"), b"a: b?.vcd: "));
    assert!(rt; is_text(dump_head(rt.alloc(), b"\x00\x1F\x20~\x7F"), b"?? ~?: "));
    assert!(rt; is_text(dump_head(rt.alloc(), b"\x80\xFF"), b"\x80\xFF: "));
}

/// Whether the line of a break is `line`.
fn is_line(alloc: Global, category: BreakCategory, found: &AuditBreak, line: &str) -> bool {
    is_text(break_line(alloc, b"-: ", category, found), line.as_bytes())
}

#[test]
fn breaks_are_told(rt: HostRuntime) {
    let broken = "-: broken H4 at instant 14 time 79 line BERR\n";
    assert!(rt; is_line(rt.alloc(), BreakCategory::Broken, &STRAY, broken));
    let allowed = "-: allowed H4 at instant 14 time 79 line BERR\n";
    assert!(rt; is_line(rt.alloc(), BreakCategory::Allowed, &STRAY, allowed));
    let late =
        "-: unreadable U1 at instant 18446744073709551615 time 18446744073709551615 line DTACK\n";
    assert!(rt; is_line(rt.alloc(), BreakCategory::Unreadable, &LATE, late));
}

/// An allowance of a rule on every line.
fn anywhere(rule: Rule) -> Allowance {
    Allowance { rule, line: None }
}

/// An allowance of a rule on DTACK*.
fn on_dtack(rule: Rule) -> Allowance {
    Allowance {
        rule,
        line: Some(Line::DTACK),
    }
}

/// An allowance of a rule on BERR*.
fn on_berr(rule: Rule) -> Allowance {
    Allowance {
        rule,
        line: Some(Line::BERR),
    }
}

/// Whether a break is of a category, and is allowed exactly if the category says so.
fn counts_as(allowances: &[Allowance], found: &AuditBreak, category: BreakCategory) -> bool {
    BreakCategory::of(allowances, found) == category
        && is_allowed(allowances, found) == (category == BreakCategory::Allowed)
}

/// Whether these allowances allow the stray answer.
fn is_stray_allowed(one: Allowance, other: Allowance) -> bool {
    counts_as(&[one, other], &STRAY, BreakCategory::Allowed)
}

/// Whether the stray answer counts as broken with these allowances.
fn is_stray_broken(one: Allowance, other: Allowance) -> bool {
    counts_as(&[one, other], &STRAY, BreakCategory::Broken)
}

#[test]
fn breaks_count_by_what_is_allowed(rt: HostRuntime) {
    assert!(rt; is_stray_broken(anywhere(Rule::H5), anywhere(Rule::H5)));
    assert!(rt; is_stray_allowed(anywhere(Rule::H4), anywhere(Rule::H5)));
    assert!(rt; is_stray_broken(on_dtack(Rule::H4), on_berr(Rule::H5)));
    assert!(rt; is_stray_allowed(on_dtack(Rule::H4), on_berr(Rule::H4)));
    let others = [anywhere(Rule::H4), anywhere(Rule::U2)];
    assert!(rt; counts_as(&others, &LATE, BreakCategory::Unreadable));
    let own = [on_dtack(Rule::U1), anywhere(Rule::H4)];
    assert!(rt; counts_as(&own, &LATE, BreakCategory::Allowed));
    assert!(rt; counts_as(&[], &STRAY, BreakCategory::Broken));
    assert!(rt; counts_as(&[], &LATE, BreakCategory::Unreadable));
}

/// What an audit found of a recording with these events.
fn found_with(events: AskedEvents) -> AuditFindings {
    AuditFindings {
        counts: Counts {
            resets: 3,
            tenures: 5,
            single: 3,
            block: 2,
            free: 1,
            acknowledge: 1,
            reads: 2,
            writes: 5,
            by_dtack: 5,
            by_berr: 1,
            pending: 1,
        },
        events,
        is_judged: true,
        last_break: Some(148),
        hang: None,
    }
}

const BREAKS: BreakCounts = BreakCounts {
    broken: 4,
    unreadable: 2,
    allowed: 0,
};

/// Whether the lines of counts are `lines`.
fn are_told(alloc: Global, head: &[u8], findings: &AuditFindings, lines: &[u8]) -> bool {
    is_text(count_lines(alloc, head, BREAKS, findings), lines)
}

/// The lines of counts of a recording with many events, without a head.
const MANY_TOLD: &[u8] = b"4 broken, 2 unreadable, 0 allowed\n\
3 resets, 5 tenures, 7 cycles (3 single, 2 block, 1 free, 1 acknowledge)\n\
7 transfers (2 read, 5 write; 5 by DTACK, 1 by BERR, 1 pending)\n\
never asked: C1 I5\n";

#[test]
fn counts_are_told(rt: HostRuntime) {
    let lines = b"-: 4 broken, 2 unreadable, 0 allowed\n\
-: 3 resets, 5 tenures, 7 cycles (3 single, 2 block, 1 free, 1 acknowledge)\n\
-: 7 transfers (2 read, 5 write; 5 by DTACK, 1 by BERR, 1 pending)\n\
-: never asked: C1 I5\n";
    assert!(rt; are_told(rt.alloc(), b"-: ", &found_with(MANY_EVENTS), lines));
    let all = AskedEvents {
        single_again: true,
        interrupt_again: true,
        ..MANY_EVENTS
    };
    let lines = b"4 broken, 2 unreadable, 0 allowed\n\
3 resets, 5 tenures, 7 cycles (3 single, 2 block, 1 free, 1 acknowledge)\n\
7 transfers (2 read, 5 write; 5 by DTACK, 1 by BERR, 1 pending)\n";
    assert!(rt; are_told(rt.alloc(), b"", &found_with(all), lines));
}

/// Sums of counts may have more digits than a count.
#[test]
fn sums_do_not_wrap(rt: HostRuntime) {
    let most = u64::MAX;
    let mut findings = found_with(MANY_EVENTS);
    findings.counts.single = most;
    findings.counts.block = most;
    findings.counts.reads = most;
    findings.counts.writes = most;
    let lines = b"4 broken, 2 unreadable, 0 allowed\n\
3 resets, 5 tenures, 36893488147419103232 cycles (18446744073709551615 single, \
18446744073709551615 block, 1 free, 1 acknowledge)\n\
36893488147419103230 transfers (18446744073709551615 read, 18446744073709551615 write; 5 by DTACK, \
1 by BERR, 1 pending)\n\
never asked: C1 I5\n";
    assert!(rt; are_told(rt.alloc(), b"", &findings, lines));
}

/// Whether the line of an outcome is `line`, and its exit status `status`.
fn is_outcome_line(alloc: Global, outcome: &Outcome, line: &str, status: u8) -> bool {
    is_text(outcome_line(alloc, b"-: ", outcome), line.as_bytes())
        && outcome_status(outcome) == status
}

/// Whether the line of a gap is `line`.
fn is_gap_line(alloc: Global, gap: CoverageGap, line: &str) -> bool {
    is_outcome_line(alloc, &Outcome::NotCovered { gap }, line, 6)
}

#[test]
fn outcomes_are_told(rt: HostRuntime) {
    let alloc = rt.alloc();
    let (none, one) = (
        Outcome::Conforming { allowed: 0 },
        Outcome::Conforming { allowed: 1 },
    );
    assert!(rt; is_outcome_line(alloc, &none, "-: conforming\n", 0));
    assert!(rt; is_outcome_line(alloc, &one, "-: conforming with 1 allowed\n", 0));
    assert!(rt; is_outcome_line(alloc, &Outcome::Broken, "-: broken\n", 1));
    assert!(rt; is_outcome_line(alloc, &Outcome::Unreadable, "-: unreadable\n", 2));
}

#[test]
fn gaps_are_told(rt: HostRuntime) {
    let alloc = rt.alloc();
    let behind = CoverageGap::NeverIdleBehind { instant: 12 };
    let few = CoverageGap::FewAnswers {
        answered: 0,
        wanted: 1,
    };
    let hang = CoverageGap::Hang {
        instant: 9,
        time: 110,
    };
    assert!(rt;
        is_gap_line(
            alloc,
            CoverageGap::NeverIdle,
            "-: not covered: never idle\n"
        )
    );
    let line = "-: not covered: never idle behind instant 12\n";
    assert!(rt; is_gap_line(alloc, behind, line));
    assert!(rt; is_gap_line(alloc, few, "-: not covered: 0 of 1 transfers answered\n"));
    let line = "-: not covered: transfer at instant 9 time 110 without an answer\n";
    assert!(rt; is_gap_line(alloc, hang, line));
}

/// Whether the text of a refusal is this one.
fn is_refusal_line(alloc: Global, refusal: Refusal, text: &str) -> bool {
    is_text(refusal_text(alloc, &refusal), text.as_bytes())
}

/// Whether the texts for inputs that can't be read are right.
fn are_inputs_told(alloc: Global) -> bool {
    is_refusal_line(alloc, Refusal::CannotOpen(Input::Dump), "cannot open\n")
        && is_refusal_line(alloc, Refusal::CannotRead(Input::Dump), "cannot read\n")
        && is_refusal_line(
            alloc,
            Refusal::CannotOpen(Input::Binding),
            "cannot open binding\n",
        )
}

/// Whether the texts for faults of inputs and for want of memory are right.
fn are_faults_told(alloc: Global) -> bool {
    let bad_dump = VcdFault {
        line: 119,
        kind: FaultKind::ScopeUnderflow,
    };
    let no_path = BindFault {
        line: 5,
        kind: BindFaultKind::NoSuchPath,
    };
    is_refusal_line(
        alloc,
        Refusal::BadDump(bad_dump),
        "dump line 119: ScopeUnderflow\n",
    ) && is_refusal_line(
        alloc,
        Refusal::BadBinding(no_path),
        "binding line 5: NoSuchPath\n",
    ) && is_refusal_line(alloc, Refusal::Memory, "out of memory\n")
}

#[test]
fn refusals_are_told(rt: HostRuntime) {
    assert!(rt; are_inputs_told(rt.alloc()));
    assert!(rt; are_faults_told(rt.alloc()));
}

/// When each allocation is refused in turn, this test shows that a line is then missing, and is otherwise complete.
#[test]
fn a_line_is_whole_or_there_is_none(rt: HostRuntime) {
    let alloc = rt.alloc();
    let head = dump_head(alloc, b"recordings/crate-2/boot.vcd");
    assert!(rt; is_text_or_no_memory(head, b"recordings/crate-2/boot.vcd: "));
    let line = break_line(alloc, b"-: ", BreakCategory::Broken, &STRAY);
    assert!(rt; is_text_or_no_memory(line, b"-: broken H4 at instant 14 time 79 line BERR\n"));
    let lines = count_lines(alloc, b"", BREAKS, &found_with(MANY_EVENTS));
    assert!(rt; is_text_or_no_memory(lines, MANY_TOLD));
    let line = outcome_line(alloc, b"-: ", &Outcome::Conforming { allowed: 12 });
    assert!(rt; is_text_or_no_memory(line, b"-: conforming with 12 allowed\n"));
    let text = refusal_text(alloc, &Refusal::CannotRead(Input::Dump));
    assert!(rt; is_text_or_no_memory(text, b"cannot read\n"));
}

ghost use Rattle.std.specs.Prelude.{◌≡◌, ◌≤◌};
ghost use Rattle.vme_summary.specs.Stands.{first_number};

use crate::listing_tests::has_rows;
use std::alloc::Global;
use std::process::Abort;
use vme_listing::Listing;
use vme_summary::judged::{Judged, judge_block};
use vme_summary::{JoinFault, Judge, Span, join, verdict_by_blocks};
use vme_test_recordings::{
    DUMPED, DUMPED_READ, GRANTED, GRANTED_FROM_IDLE, PASSED_ON, READ, Recording, capture_of,
};
use vme_trace::{Block, Break, Capture, Line, Lines, Rule, StepVisitor, Verdict};

/// The verdict on a recording, with the line by its name.
#[derive(Clone, Copy)]
pub(crate) enum Expected {
    Conforming,
    NeverIdle,
    Broken(u32, Rule, &'static str),
    Unreadable(u32, Rule, &'static str),
}

/// A worked recording: how it starts, its further steps, its verdict, and the rows of its listing.
pub(crate) type Worked = (Recording, &'static str, Expected, &'static str);

use Expected::{Broken, Conforming, NeverIdle, Unreadable};

/// All lines are unknown.
const UNKNOWN: Recording = Recording {
    slots: 3,
    opening: "",
    steps: "",
};

/// The listing of `READ` after `GRANTED`.
const READ_ROWS: &str =
    "start 1\ntenure 5 level 3 slot 2 end 14\ncycle 9 S 39 FFFFDE end 12\ntransfer 10 of 9 read DTACK 11 close 12\n\
        verdict conforming\n";

/// Recordings as read from a dump.
pub(crate) static DUMPS: [Worked; 4] = [
    (
        DUMPED,
        DUMPED_READ,
        Conforming,
        "start 1\ntenure 1 open end -\ncycle 2 S 3D FFFFFE end 5\ntransfer 3 of 2 read DTACK 4 close 5\n\
            verdict conforming\n",
    ),
    (DUMPED, "", NeverIdle, "verdict never-idle\n"),
    (
        DUMPED,
        "AS=1 DS0=1 DS1=1 DTACK=1 BERR=1 IACK=1;AS=0;DTACK=0;AS=1;DTACK=1",
        Broken(3, Rule::H4, "DTACK"),
        "start 1\ntenure 1 open end -\ncycle 2 S 3D FFFFFE end -\nverdict broken H4 3 DTACK\n",
    ),
    (
        DUMPED,
        "AS=1 DS0=1 DS1=1 DTACK=1 BERR=1 IACK=1;AS=x;DS0=0;DTACK=0;AS=1 DS0=1;DTACK=1",
        Unreadable(2, Rule::U1, "AS"),
        "start 1\ntenure 1 open end -\nverdict unreadable U1 2 AS\n",
    ),
];

/// Transfers and cycles.
pub(crate) static CYCLES: [Worked; 9] = [
    (GRANTED, READ, Conforming, READ_ROWS),
    (
        GRANTED_FROM_IDLE,
        READ,
        Conforming,
        "start 0\ntenure 4 level 3 slot 2 end 13\ncycle 8 S 39 FFFFDE end 11\n\
            transfer 9 of 8 read DTACK 10 close 11\nverdict conforming\n",
    ),
    (
        GRANTED,
        "AM1=0 AM2=0 A05=0;AS=0;DS0=0 DS1=0;DTACK=0;AS=1;A05=1;AS=0;DS0=1 DS1=1;DTACK=1;DS0=0 DS1=0;DTACK=0;\
            AS=1 DS0=1 DS1=1;DTACK=1 BBSY=1",
        Conforming,
        "start 1\ntenure 5 level 3 slot 2 end 20\ncycle 9 S 39 FFFFDE end 12\n\
            transfer 10 of 9 read DTACK 11 close 15\ncycle 14 S 39 FFFFFE end 19\n\
            transfer 17 of 14 read DTACK 18 close 19\nverdict conforming\n",
    ),
    (
        GRANTED,
        "AM1=0 A05=0;AS=0;DS0=0 DS1=0;DTACK=0;DS0=1 DS1=1;DTACK=1;WRITE=0 D07=0;DS0=0 DS1=0;DTACK=0 D00=0;\
            AS=1 DS0=1 DS1=1;DTACK=1",
        Conforming,
        "start 1\ntenure 5 level 3 slot 2 end -\ncycle 9 S 3D FFFFDE end 17\n\
            transfer 10 of 9 read DTACK 11 close 12\ntransfer 15 of 9 write DTACK 16 close 17 data ----FF7F\n\
            verdict conforming\n",
    ),
    (
        GRANTED,
        "AM1=0 WRITE=0 A05=0;AS=0;DS0=0 DS1=0;DTACK=0;DS0=1 DS1=1;DTACK=1;WRITE=1;DS0=0 DS1=0;DTACK=0;\
            AS=1 DS0=1 DS1=1;DTACK=1",
        Broken(16, Rule::C1, "DTACK"),
        "start 1\ntenure 5 level 3 slot 2 end -\ncycle 9 S 3D FFFFDE end -\n\
            transfer 10 of 9 write DTACK 11 close 12 data ----FFFF\ntransfer 15 read pending\n\
            verdict broken C1 16 DTACK\n",
    ),
    (
        GRANTED,
        "AM2=0 A05=0;AS=0;DS0=0 DS1=0;DTACK=0;DS0=1 DS1=1;DTACK=1 WRITE=0;DS0=0 DS1=0;DTACK=0",
        Broken(15, Rule::C2, "DTACK"),
        "start 1\ntenure 5 level 3 slot 2 end -\ncycle 9 K 3B FFFFDE end -\ntransfer 10 of 9 read DTACK 11 close 12\n\
            transfer 14 write pending\nverdict broken C2 15 DTACK\n",
    ),
    (
        GRANTED,
        "AM1=0 AM2=0 A05=0;AS=0;DTACK=0",
        Broken(10, Rule::H4, "DTACK"),
        "start 1\ntenure 5 level 3 slot 2 end -\ncycle 9 S 39 FFFFDE end -\nverdict broken H4 10 DTACK\n",
    ),
    (
        GRANTED,
        "AM1=0 AM2=0 A05=0;AS=0;DS0=0 DS1=0;DS0=1 DS1=1 DTACK=0;AS=1;DTACK=1;BBSY=1",
        Conforming,
        "start 1\ntenure 5 level 3 slot 2 end 14\ncycle 9 S 39 FFFFDE end 12\n\
            transfer 10 of 9 read DTACK 11 close 11\nverdict conforming\n",
    ),
    (
        GRANTED,
        "AM1=0 AM2=0 A05=0;AS=0;DS0=0 DS1=0;DS0=1 DS1=1;DTACK=0",
        Broken(11, Rule::H2, "DS0"),
        "start 1\ntenure 5 level 3 slot 2 end -\ncycle 9 S 39 FFFFDE end -\ntransfer 10 read pending\n\
            verdict broken H2 11 DS0\n",
    ),
];

/// The listing of a read by modifier 29 after `GRANTED`.
const SHORT_READ_ROWS: &str =
    "start 1\ntenure 5 level 3 slot 2 end 14\ncycle 9 S 29 FFDE end 12\ntransfer 10 of 9 read DTACK 11 close 12\n\
        verdict conforming\n";

/// Lines that a cycle needs.
pub(crate) static HELD: [Worked; 6] = [
    (
        GRANTED,
        "AM1=0 AM2=0 AM4=0 A05=0;AS=0;DS0=0 DS1=0;DTACK=0;AS=1 DS0=1 DS1=1;DTACK=1;BBSY=1",
        Conforming,
        SHORT_READ_ROWS,
    ),
    (
        GRANTED,
        "AM1=0 AM2=0 AM4=0 A05=0;AS=0;DS0=0 DS1=0 A05=1;DTACK=0;AS=1 DS0=1 DS1=1;DTACK=1;BBSY=1",
        Broken(10, Rule::S1, "A05"),
        "start 1\ntenure 5 level 3 slot 2 end -\ncycle 9 S 29 FFDE end -\nverdict broken S1 10 A05\n",
    ),
    (
        GRANTED,
        "AM1=0 AM2=0 AM4=0 A05=0;AS=0;DS0=0 DS1=0;DTACK=0 A05=1;AS=1 DS0=1 DS1=1;DTACK=1;BBSY=1",
        Conforming,
        SHORT_READ_ROWS,
    ),
    (
        GRANTED,
        "AM1=0 AM2=0 AM4=0 A05=0;AS=0;DS0=0 DS1=0 A16=0;DTACK=0;AS=1 DS0=1 DS1=1;DTACK=1;BBSY=1",
        Conforming,
        SHORT_READ_ROWS,
    ),
    (
        GRANTED,
        "AM1=0 AM2=0 AM3=x A05=0;AS=0;DS0=0 DS1=0;DTACK=0;AS=1 DS0=1 DS1=1;DTACK=1;BBSY=1",
        Unreadable(9, Rule::U2, "AM3"),
        "start 1\ntenure 5 level 3 slot 2 end -\nverdict unreadable U2 9 AM3\n",
    ),
    (
        GRANTED,
        "A05=0;AS=0;DS0=0 DS1=0;DTACK=0;AS=1 DS0=1 DS1=1;DTACK=1;BBSY=1",
        Conforming,
        "start 1\ntenure 5 level 3 slot 2 end 14\ncycle 9 K 3F FFFFDE end 12\n\
            transfer 10 of 9 read DTACK 11 close 12\nverdict conforming\n",
    ),
];

/// Grants and interrupt acknowledges.
pub(crate) static CHAINS: [Worked; 9] = [
    (
        PASSED_ON,
        "BBSY=0 BR3=1;BBSY=1;BBSY=0",
        Broken(8, Rule::B2, "BBSY"),
        "start 1\ntenure 6 level 3 slot 3 end 7\nverdict broken B2 8 BBSY\n",
    ),
    (
        PASSED_ON,
        "BBSY=0 BR3=1;BG3.0=1;BG3.1=1;BG3.2=1;BBSY=1;BBSY=0",
        Broken(11, Rule::B1, "BBSY"),
        "start 1\ntenure 6 level 3 slot 3 end 10\nverdict broken B1 11 BBSY\n",
    ),
    (
        PASSED_ON,
        "BG3.3=0;BBSY=0",
        Broken(7, Rule::B4, "BBSY"),
        "start 1\nverdict broken B4 7 BBSY\n",
    ),
    (
        PASSED_ON,
        "BG3.3=0;BG3.0=1;BG3.1=1 BG3.2=1 BG3.3=1",
        Conforming,
        "start 1\nverdict conforming\n",
    ),
    (
        GRANTED,
        "IACK=0 A02=0;AS=0;DS0=0;IA.1=0;DTACK=0;AS=1 DS0=1 IA.1=1;DTACK=1 IACK=1;BBSY=1",
        Conforming,
        "start 1\ntenure 5 level 3 slot 2 end 15\ncycle 9 I 5 end 13\ntransfer 10 of 9 read DTACK 12 close 13\n\
            verdict conforming\n",
    ),
    (
        GRANTED,
        "IACK=0 WRITE=0 A02=0;AS=0;DS0=0;IA.1=0;DTACK=0;AS=1 DS0=1 IA.1=1;DTACK=1 IACK=1;BBSY=1",
        Broken(12, Rule::I4, "DTACK"),
        "start 1\ntenure 5 level 3 slot 2 end -\ncycle 9 I 5 end -\ntransfer 10 write pending\n\
            verdict broken I4 12 DTACK\n",
    ),
    (
        GRANTED,
        "IACK=0 A02=0;AS=0;DS0=0;IA.2=0",
        Broken(11, Rule::I1, "IA.2"),
        "start 1\ntenure 5 level 3 slot 2 end -\ncycle 9 I 5 end -\ntransfer 10 read pending\n\
            verdict broken I1 11 IA.2\n",
    ),
    (
        GRANTED,
        "IACK=0 A02=0;AS=0;IA.1=0",
        Broken(10, Rule::I2, "IA.1"),
        "start 1\ntenure 5 level 3 slot 2 end -\ncycle 9 I 5 end -\nverdict broken I2 10 IA.1\n",
    ),
    (
        GRANTED,
        "IACK=0 A02=0;AS=0;DS0=0;DTACK=0;IA.1=0",
        Broken(12, Rule::I3, "IA.1"),
        "start 1\ntenure 5 level 3 slot 2 end -\ncycle 9 I 5 end -\ntransfer 10 of 9 read DTACK 11 close -\n\
            verdict broken I3 12 IA.1\n",
    ),
];

/// A read that a reset leaves without an answer, and then a whole one.
const READ_AGAIN: Worked = (
    GRANTED,
    "AM1=0 AM2=0 A05=0;AS=0;DS0=0 DS1=0;SYSRESET=0;DTACK=0;AS=1 DS0=1 DS1=1;DTACK=1 BBSY=1;SYSRESET=1;BR3=0;BG3.0=0;\
        BG3.1=0;BBSY=0 BR3=1;BG3.0=1;BG3.1=1;AS=0;DS0=0 DS1=0;DTACK=0;AS=1 DS0=1 DS1=1;DTACK=1;BBSY=1",
    Conforming,
    "start 1\ntenure 5 level 3 slot 2 end -\ncycle 9 S 39 FFFFDE end -\ntransfer 10 read pending\nreset 11\n\
        start 15\ntenure 19 level 3 slot 2 end 27\ncycle 22 S 39 FFFFDE end 25\n\
        transfer 23 of 22 read DTACK 24 close 25\nverdict conforming\n",
);

/// The listing of a read after `GRANTED` that a reset leaves without an answer.
const RESET_ROWS: &str =
    "start 1\ntenure 5 level 3 slot 2 end -\ncycle 9 S 39 FFFFDE end -\ntransfer 10 read pending\nreset 11\n\
        start 13\nverdict conforming\n";

/// Resets of the bus.
pub(crate) static RESETS: [Worked; 15] = [
    (
        GRANTED,
        "AM1=0 AM2=0 A05=0;AS=0;DS0=0 DS1=0;SYSRESET=0;AS=1 DS0=1 DS1=1 BBSY=1;SYSRESET=1",
        Conforming,
        RESET_ROWS,
    ),
    READ_AGAIN,
    (
        GRANTED_FROM_IDLE,
        "AM1=0 AM2=0 A05=0;AS=0;DS0=0 DS1=0;SYSRESET=0;AS=1 DS0=1 DS1=1;SYSRESET=1;AS=0;DS0=0 DS1=0;DTACK=0;\
            AS=1 DS0=1 DS1=1;DTACK=1;BBSY=1",
        Conforming,
        "start 0\ntenure 4 level 3 slot 2 end -\ncycle 8 S 39 FFFFDE end -\ntransfer 9 read pending\nreset 10\n\
            start 12\ntenure 12 open end 18\ncycle 13 S 39 FFFFDE end 16\ntransfer 14 of 13 read DTACK 15 close 16\n\
            verdict conforming\n",
    ),
    (
        GRANTED,
        "AM1=0 AM2=0 A05=0;AS=0;DS0=0 DS1=0;SYSRESET=0;AS=1 DS0=1 DS1=1;SYSRESET=1",
        Conforming,
        "start 1\ntenure 5 level 3 slot 2 end -\ncycle 9 S 39 FFFFDE end -\ntransfer 10 read pending\nreset 11\n\
            start 13\ntenure 13 open end -\nverdict conforming\n",
    ),
    (
        GRANTED,
        "AM1=0 AM2=0 A05=0;AS=0;DS0=0 DS1=0;SYSRESET=0;AS=1 DS0=1 DS1=1 BBSY=1;SYSRESET=1;DTACK=0",
        Broken(14, Rule::H4, "DTACK"),
        "start 1\ntenure 5 level 3 slot 2 end -\ncycle 9 S 39 FFFFDE end -\ntransfer 10 read pending\nreset 11\n\
            start 13\nverdict broken H4 14 DTACK\n",
    ),
    (
        GRANTED,
        "AM1=0 AM2=0 A05=0;AS=0;DS0=0 DS1=0;AS=x SYSRESET=0;AS=1 DS0=1 DS1=1 BBSY=1;SYSRESET=1",
        Conforming,
        RESET_ROWS,
    ),
    (
        GRANTED,
        "AM1=0 AM2=0 A05=0;AS=0;DS0=0 DS1=0;SYSRESET=x",
        Unreadable(11, Rule::U1, "SYSRESET"),
        "start 1\ntenure 5 level 3 slot 2 end -\ncycle 9 S 39 FFFFDE end -\ntransfer 10 read pending\n\
            verdict unreadable U1 11 SYSRESET\n",
    ),
    (
        UNKNOWN,
        "high_but_A24_to_A31;BR3=0;BR3=1 SYSRESET=0;SYSRESET=1;BG3.0=0",
        Broken(5, Rule::G5, "BG3.0"),
        "start 1\nreset 3\nstart 4\nverdict broken G5 5 BG3.0\n",
    ),
    (
        UNKNOWN,
        "high_but_A24_to_A31;BR3=0;BR3=1;BG3.0=0",
        Conforming,
        "start 1\nverdict conforming\n",
    ),
    (
        UNKNOWN,
        "high_but_SYSRESET SYSRESET=0;BR3=0;BR3=1",
        NeverIdle,
        "verdict never-idle\n",
    ),
    (
        UNKNOWN,
        "high_but_A24_to_A31;AS=0 SYSRESET=0;SYSRESET=1;SYSRESET=0;AS=1 SYSRESET=1;SYSRESET=0",
        Conforming,
        "start 1\nreset 2\nstart 5\nreset 6\nverdict conforming\n",
    ),
    (
        UNKNOWN,
        "high_but_A24_to_A31;AS=x SYSRESET=0;SYSRESET=1;AS=1;AS=x;AS=1 SYSRESET=0;SYSRESET=1",
        Unreadable(5, Rule::U1, "AS"),
        "start 1\nreset 2\nstart 4\nverdict unreadable U1 5 AS\n",
    ),
    (
        UNKNOWN,
        "high_but_A24_to_A31;DTACK=0;DTACK=1 SYSRESET=0;SYSRESET=1",
        Broken(2, Rule::H4, "DTACK"),
        "start 1\nverdict broken H4 2 DTACK\n",
    ),
    (
        GRANTED,
        "AM1=0 AM2=0 A05=0;AS=0;DS0=0 DS1=0;DTACK=0;AS=1 DS0=1 DS1=1;DTACK=1;BBSY=1;SYSRESET=0",
        Conforming,
        "start 1\ntenure 5 level 3 slot 2 end 14\ncycle 9 S 39 FFFFDE end 12\n\
            transfer 10 of 9 read DTACK 11 close 12\nreset 15\nverdict conforming\n",
    ),
    (
        GRANTED,
        "BBSY=1;SYSRESET=0;SYSRESET=1;BBSY=0",
        Broken(11, Rule::B1, "BBSY"),
        "start 1\ntenure 5 level 3 slot 2 end 8\nreset 9\nstart 10\nverdict broken B1 11 BBSY\n",
    ),
];

/// The break of a recording whose steps are ten units apart.
fn break_of(instant: u32, rule: Rule, name: &str) -> Option<Break> {
    Some(Break {
        instant,
        time: 10 * u64::from(instant.saturating_sub(1)),
        rule,
        line: Line::from_name(name.as_bytes())?,
    })
}

pub(crate) fn verdict_of(expected: Expected) -> Option<Verdict> {
    match expected {
        Conforming => Some(Verdict::Conforming),
        NeverIdle => Some(Verdict::NeverIdle),
        Broken(instant, rule, name) => Some(Verdict::Broken(break_of(instant, rule, name)?)),
        Unreadable(instant, rule, name) => {
            Some(Verdict::Unreadable(break_of(instant, rule, name)?))
        }
    }
}

/// The verdict, in blocks of `size` steps. After a failed allocation the capture is judged again.
fn verdict_in(alloc: Global, capture: &Capture, size: u32) -> Option<Verdict> {
    match verdict_by_blocks(alloc, capture, size) {
        Ok(verdict) => Some(verdict),
        Err(_) => verdict_by_blocks(alloc, capture, size).ok(),
    }
}

/// The visitor, after it has taken the steps of a capture one after the other.
pub(crate) fn followed<F: StepVisitor + Drop>(
    alloc: Global,
    capture: &Capture,
    visitor: F,
) -> Option<F> {
    let mut visitor = visitor;
    visitor.open(capture.opening());
    for step in capture.steps() {
        visitor.step(alloc, step.copy(alloc).ok()?).ok()?;
    }
    Some(visitor)
}

/// The verdict on a recording whose steps come one after the other.
fn verdict_as_made(alloc: Global, capture: &Capture, size: u32) -> Option<Verdict>
    requires { (1 ≤ size) × (size ≤ 65536) }
{
    let other = Lines::new(1)?;
    let judge = followed(alloc, capture, Judge::new(alloc, &other))?;
    judge.verdict(alloc, size).ok()
}

/// Whether the verdict `wanted` was found.
pub(crate) fn is_verdict(found: Option<Verdict>, wanted: &Verdict) -> bool {
    match found {
        Some(found) => found == *wanted,
        None => false,
    }
}

/// Whether a recording gets its verdict in blocks of `size` steps, and step by step.
fn has_verdict(alloc: Global, capture: &Capture, size: u32, verdict: &Verdict) -> bool
    requires { (1 ≤ size) × (size ≤ 65536) }
{
    is_verdict(verdict_in(alloc, capture, size), verdict)
        && is_verdict(verdict_as_made(alloc, capture, size), verdict)
}

/// Whether a recording gets its verdict in blocks of several sizes, and step by step.
fn always_has_verdict(alloc: Global, capture: &Capture, verdict: &Verdict) -> bool {
    has_verdict(alloc, capture, 1, verdict)
        && has_verdict(alloc, capture, 2, verdict)
        && has_verdict(alloc, capture, 5, verdict)
        && has_verdict(alloc, capture, 9, verdict)
        && has_verdict(alloc, capture, 65536, verdict)
}

/// Whether a worked recording gets its verdict.
fn is_judged(alloc: Global, recording: &Worked) -> bool {
    let (start, text, expected, _) = recording;
    let Some(verdict) = verdict_of(*expected) else {
        return false;
    };
    match capture_of(alloc, *start, text) {
        Some(capture) => always_has_verdict(alloc, &capture, &verdict),
        None => false,
    }
}

fn assert_verdicts(rt: &impl Abort, alloc: Global, recordings: &[Worked]) {
    for recording in recordings {
        let (_, text, _, _) = recording;
        assert!(rt; is_judged(alloc, recording), "{text}");
    }
}

#[test]
fn verdicts(rt: HostRuntime) {
    assert_verdicts(&rt, rt.alloc(), &DUMPS);
    assert_verdicts(&rt, rt.alloc(), &CYCLES);
    assert_verdicts(&rt, rt.alloc(), &HELD);
    assert_verdicts(&rt, rt.alloc(), &CHAINS);
    assert_verdicts(&rt, rt.alloc(), &RESETS);
}

/// A block with its span. After a failed allocation the block that comes back is judged again.
pub(crate) fn judged(alloc: Global, block: Block) -> Option<Judged> {
    if let Err(_) = block.check() {
        return None;
    }
    if block.steps.as_slice().len() > 1000 {
        return None;
    }
    match judge_block(alloc, block) {
        Ok(judged) => Some(judged),
        Err((block, _)) => judge_block(alloc, block).ok(),
    }
}

/// The span of two that aren't torn. After a failed allocation they are joined again.
fn joined(alloc: Global, first: &Span, second: &Span) -> Option<Span> {
    if first.steps() > 1000 || second.steps() > 1000 {
        return None;
    }
    match join(alloc, first, second) {
        Ok(span) => Some(span),
        Err(JoinFault::Memory) => join(alloc, first, second).ok(),
        Err(JoinFault::Torn) => None,
    }
}

/// The span of those so far, if any, and then `span`.
fn added(alloc: Global, all: Option<Span>, span: Span) -> Option<Span> {
    match all {
        None => Some(span),
        Some(before) => joined(alloc, &before, &span),
    }
}

/// The spans of blocks, joined from the left.
fn span_of(alloc: Global, blocks: Vec<Block>) -> Option<Span> {
    let mut all = None;
    for block in blocks {
        let span = judged(alloc, block)?.into_parts().1;
        all = Some(added(alloc, all, span)?);
    }
    all
}

/// `span` and then the span of those after it, if any.
fn added_before(alloc: Global, span: Span, all: Option<Span>) -> Option<Span> {
    match all {
        None => Some(span),
        Some(after) => joined(alloc, &span, &after),
    }
}

/// The spans of blocks, joined from the right.
fn span_from_right(alloc: Global, blocks: Vec<Block>) -> Option<Span> {
    let mut all = None;
    for block in blocks.into_iter().rev() {
        let span = judged(alloc, block)?.into_parts().1;
        all = Some(added_before(alloc, span, all)?);
    }
    all
}

/// The spans of blocks, in their order.
fn spans_of(alloc: Global, blocks: Vec<Block>) -> Option<Vec<Span>> {
    let mut spans = Vec::new(alloc);
    for block in blocks {
        let span = judged(alloc, block)?.into_parts().1;
        spans.push(span).ok()?;
    }
    Some(spans)
}

/// The first span joined with the second, the third with the fourth, and so on.
fn paired(alloc: Global, spans: Vec<Span>) -> Option<Vec<Span>> {
    let mut pairs = Vec::new(alloc);
    let mut odd = None;
    for span in spans {
        odd = match odd {
            None => Some(span),
            Some(first) => {
                let pair = joined(alloc, &first, &span)?;
                pairs.push(pair).ok()?;
                None
            }
        };
    }
    if let Some(last) = odd {
        pairs.push(last).ok()?;
    }
    Some(pairs)
}

/// The spans of at most 32 blocks, joined by halves.
fn span_by_halves(alloc: Global, blocks: Vec<Block>) -> Option<Span> {
    let mut spans = spans_of(alloc, blocks)?;
    for _ in 0..5 {
        spans = paired(alloc, spans)?;
    }
    spans.pop()
}

/// How the spans of blocks are joined.
#[derive(Clone, Copy)]
enum Brackets {
    FromLeft,
    FromRight,
    Halves,
}

/// The spans of at most 32 blocks, joined.
fn span_in(alloc: Global, blocks: Vec<Block>, brackets: Brackets) -> Option<Span> {
    match brackets {
        Brackets::FromLeft => span_of(alloc, blocks),
        Brackets::FromRight => span_from_right(alloc, blocks),
        Brackets::Halves => span_by_halves(alloc, blocks),
    }
}

/// Whether a span is that of a whole recording in blocks of one step, which conforms and has the listing `rows`.
fn is_whole(alloc: Global, all: &Span, last: u32, rows: &str) -> bool {
    if all.first() != 0 {
        return false;
    }
    if all.last() != last || all.steps().checked_sub(1) != Some(last) {
        return false;
    }
    if all.verdict() != Verdict::Conforming {
        return false;
    }
    match all.listing(alloc) {
        Ok(listing) => has_rows(alloc, &listing, rows),
        Err(_) => false,
    }
}

/// Whether a recording that is cut into single steps has the span of a whole recording that conforms.
fn is_joined(alloc: Global, recording: &Worked, last: u32, brackets: Brackets) -> Option<bool> {
    let (start, text, _, rows) = recording;
    let blocks = capture_of(alloc, *start, text)?.cut(alloc, 1).ok()?;
    let all = span_in(alloc, blocks, brackets)?;
    Some(is_whole(alloc, &all, last, rows))
}

/// Whether it has so in whatever brackets its steps are joined: from the left, from the right, and by halves.
fn is_always_joined(alloc: Global, recording: &Worked, last: u32) -> bool {
    is_joined(alloc, recording, last, Brackets::FromLeft).unwrap_or(false)
        && is_joined(alloc, recording, last, Brackets::FromRight).unwrap_or(false)
        && is_joined(alloc, recording, last, Brackets::Halves).unwrap_or(false)
}

/// A read of 14 steps, and a read that a reset leaves without an answer before another one, of 27.
#[test]
fn joined_spans(rt: HostRuntime) {
    assert!(rt; is_always_joined(rt.alloc(), &CYCLES[0], 13));
    assert!(rt; is_always_joined(rt.alloc(), &RESETS[1], 26));
}

/// The recording of a read. After a failed allocation it is made again.
fn read_capture(alloc: Global) -> Option<Capture> {
    match capture_of(alloc, GRANTED, READ) {
        Some(capture) => Some(capture),
        None => capture_of(alloc, GRANTED, READ),
    }
}

/// The recording in blocks of five steps. After a failed allocation it is cut again.
fn cut_by_fives(alloc: Global, capture: &Capture) -> Option<Vec<Block>> {
    match capture.cut(alloc, 5) {
        Ok(blocks) => Some(blocks),
        Err(_) => capture.cut(alloc, 5).ok(),
    }
}

/// The listing of a span. After a failed allocation it is made again.
fn listing_of(alloc: Global, whole: &Span) -> Option<Listing>
    requires { first_number whole.now ≡ 0 }
{
    match whole.listing(alloc) {
        Ok(listing) => Some(listing),
        Err(_) => whole.listing(alloc).ok(),
    }
}

/// Whether a span is that of the read in three blocks, which conforms, and its listing has five rows.
fn is_read(alloc: Global, whole: &Span) -> bool {
    if whole.first() != 0 {
        return false;
    }
    if whole.last() != 2 || whole.steps() != 14 || whole.verdict() != Verdict::Conforming {
        return false;
    }
    match listing_of(alloc, whole) {
        Some(listing) => listing.rows().len() == 5,
        None => false,
    }
}

/// The span of the read in blocks of five steps.
fn span_of_read(alloc: Global) -> Option<Span> {
    let capture = read_capture(alloc)?;
    span_of(alloc, cut_by_fives(alloc, &capture)?)
}

/// `tests/memory/run` refuses each of this test's allocations in turn.
#[test]
fn each_growth_fails_once(rt: HostRuntime) {
    match span_of_read(rt.alloc()) {
        Some(whole) => assert!(rt; is_read(rt.alloc(), &whole)),
        None => panic!(rt; "no span"),
    }
}

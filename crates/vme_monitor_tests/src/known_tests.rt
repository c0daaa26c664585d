use crate::recordings::{Continued, break_of, capture_of, enumerates_memories, finds, mark, whole};
use std::alloc::Global;
use vme_monitor::both::Both;
use vme_monitor::known::{Known, KnownRules};
use vme_monitor::mark::{Mark, MarkKind};
use vme_monitor::monitor::Monitor;
use vme_monitor::without_marks::BreakMonitor;
use vme_test_recordings::{DUMPED, DUMPED_READ};
use vme_trace::{Line, Rule};

const READ: Continued = (DUMPED, DUMPED_READ);

const NOTHING: Continued = (DUMPED, "");

const LOST_STROBE: Continued = (
    DUMPED,
    "AS=1 DS0=1 DS1=1 DTACK=1 BERR=1 IACK=1;AS=x;DS0=0;DTACK=0;AS=1 DS0=1;DTACK=1",
);

/// The bus is reset in a cycle, as a strobe gets lost, and idle again at the sixth step. There judging starts again,
/// until it isn't known whether the bus is reset.
const RESET: Continued = (
    DUMPED,
    "AS=1 DS0=1 DS1=1 DTACK=1 BERR=1 IACK=1;AS=0;AS=x SYSRESET=0;DS0=x;SYSRESET=1;AS=1 DS0=1;AS=0;SYSRESET=x",
);

/// The bus is reset after a control line was lost.
const LATE_RESET: Continued = (
    DUMPED,
    "AS=1 DS0=1 DS1=1 DTACK=1 BERR=1 IACK=1;AS=x;SYSRESET=0;AS=1;SYSRESET=1;AS=0",
);

/// The bus is reset from the first step on.
const NEVER_IDLE: Continued = (
    DUMPED,
    "AS=1 DS0=1 DS1=1 DTACK=1 BERR=1 IACK=1 SYSRESET=0;AS=0;AS=1",
);

/// The start of judging, at the first step.
const START: Mark = Mark {
    instant: 1,
    kind: MarkKind::Start,
};

#[test]
fn judges_whatever_the_cut(rt: HostRuntime) {
    let alloc = rt.alloc();
    let lost = break_of(2, Rule::U1, Line::AS);
    assert!(rt; finds::<Known>(alloc, &READ, None, Some(&[START])));
    assert!(rt; finds::<Known>(alloc, &NOTHING, None, Some(&[])));
    assert!(rt; finds::<Known>(alloc, &LOST_STROBE, lost, Some(&[START])));
}

#[test]
fn judges_again_after_a_reset(rt: HostRuntime) {
    let alloc = rt.alloc();
    let unknown = break_of(8, Rule::U1, Line::SYSRESET);
    let marks = [START, mark(3, MarkKind::Reset), mark(6, MarkKind::Start)];
    assert!(rt; finds::<Known>(alloc, &RESET, unknown, Some(&marks)));
    let lost = break_of(2, Rule::U1, Line::AS);
    assert!(rt; finds::<Known>(alloc, &LATE_RESET, lost, Some(&[START])));
    assert!(rt; finds::<Known>(alloc, &NEVER_IDLE, None, Some(&[])));
}

#[test]
fn two_show_what_each_shows(rt: HostRuntime) {
    let lost = break_of(2, Rule::U1, Line::AS);
    let marks = [START, START];
    assert!(rt; finds::<Both<Known, Known>>(rt.alloc(), &LOST_STROBE, lost, Some(&marks)));
}

#[test]
fn without_marks_breaks_alone_are_found(rt: HostRuntime) {
    let alloc = rt.alloc();
    let lost = break_of(2, Rule::U1, Line::AS);
    assert!(rt; finds::<BreakMonitor<KnownRules>>(alloc, &READ, None, Some(&[])));
    assert!(rt; finds::<BreakMonitor<KnownRules>>(alloc, &LOST_STROBE, lost, Some(&[])));
    let unknown = break_of(8, Rule::U1, Line::SYSRESET);
    assert!(rt; finds::<BreakMonitor<KnownRules>>(alloc, &RESET, unknown, Some(&[])));
}

/// Whether judging starts in a recording.
fn is_started(alloc: Global, recording: &Continued) -> Option<bool> {
    let capture = capture_of(alloc, recording)?;
    let all = whole::<Known>(alloc, &capture, 2)?;
    Some(Known::started(Known::leaving(&all, Known::start(capture.opening()))))
}

#[test]
fn tells_whether_judging_started(rt: HostRuntime) {
    assert!(rt; is_started(rt.alloc(), &NOTHING) == Some(false));
    assert!(rt; is_started(rt.alloc(), &LOST_STROBE) == Some(true));
    assert!(rt; is_started(rt.alloc(), &RESET) == Some(true));
    assert!(rt; is_started(rt.alloc(), &NEVER_IDLE) == Some(false));
}

#[test]
fn memories_are_enumerated(rt: HostRuntime) {
    assert!(rt; enumerates_memories::<Known>(4));
}

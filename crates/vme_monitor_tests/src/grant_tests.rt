//! Grants and tenures: a tenure, a grant that is taken twice (B2), one that goes past the last slot (B4), and a tenure
//! that is open after a reset.

use crate::recordings::{Continued, GRANTED, IDLE, break_of, enumerates_memories, finds, mark};
use vme_chains::grant::Grant;
use vme_monitor::mark::{Mark, MarkKind};
use vme_test_recordings::READ;
use vme_trace::{Line, Rule};

/// A read in a tenure of slot 2: 14 steps.
pub(crate) const TENURE: Continued = (GRANTED, READ);

/// A grant that is taken twice.
const TWICE: Continued = (
    IDLE,
    "BR3=0;BG3.0=0;BG3.1=0;BG3.2=0;BBSY=0 BR3=1;BBSY=1;BBSY=0",
);

/// A grant that goes past the last slot, and is taken.
const PAST: Continued = (IDLE, "BR3=0;BG3.0=0;BG3.1=0;BG3.2=0;BG3.3=0;BBSY=0");

/// A tenure in which the bus is reset, and busy as judging starts again.
const RESET: Continued = (
    IDLE,
    "BR3=0;BG3.0=0;BBSY=0 BR3=1;SYSRESET=0;BG3.0=1;SYSRESET=1;BBSY=1",
);

fn tenure(instant: u32, level: u8, slot: u8) -> Mark {
    mark(instant, MarkKind::Tenure { level, slot })
}

#[test]
fn judges_a_tenure(rt: HostRuntime) {
    let shown = [tenure(5, 3, 2), mark(14, MarkKind::TenureEnd)];
    assert!(rt; finds::<Grant>(rt.alloc(), &TENURE, None, Some(&shown)));
}

#[test]
fn a_grant_is_taken_once(rt: HostRuntime) {
    let shown = [
        tenure(6, 3, 3),
        mark(7, MarkKind::TenureEnd),
        tenure(8, 3, 3),
    ];
    let twice = break_of(8, Rule::B2, Line::BBSY);
    assert!(rt; finds::<Grant>(rt.alloc(), &TWICE, twice, Some(&shown)));
}

#[test]
fn a_grant_goes_past_the_last_slot(rt: HostRuntime) {
    let past = break_of(7, Rule::B4, Line::BBSY);
    assert!(rt; finds::<Grant>(rt.alloc(), &PAST, past, Some(&[tenure(7, 3, 4)])));
}

/// A tenure that a reset ends has no end of its own, and is open where the bus is busy as judging starts again.
#[test]
fn a_tenure_is_open_after_a_reset(rt: HostRuntime) {
    let shown = [
        tenure(4, 3, 1),
        mark(7, MarkKind::Open),
        mark(8, MarkKind::TenureEnd),
    ];
    assert!(rt; finds::<Grant>(rt.alloc(), &RESET, None, Some(&shown)));
}

#[test]
fn memories_are_enumerated(rt: HostRuntime) {
    assert!(rt; enumerates_memories::<Grant>(35));
}

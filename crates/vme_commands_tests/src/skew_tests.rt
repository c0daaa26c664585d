//! Commands with a skew: a dump in which the answer is recorded before the strobe.

ghost use Rattle.std.specs.Prelude.{◌≤◌};

use crate::tests::{
    Command, NEVER_IDLE, SINGLE_STEPS, Settings, TOO_MANY_BLOCKS, answers, explains, many_steps,
    status_of,
};
use std::process::Abort;
use std::test::Fail;
use std::thread::Threads;
use vme_commands::{BLOCK, BUILT_IN, unsettled};
use vme_stream::Bytes;
use vme_test_recordings::{
    BROKEN_LISTING, BUS_DEFINITIONS, EARLY_ANSWER, LATE_LISTING, ONE_STEP_LISTING, SETTLED_LISTING,
    bus_dump,
};
use vme_test_streams::{LimitedSink, has_answered};

/// The line of the verdict on `EARLY_ANSWER` with a skew below 3.
const BROKEN_LINE: &str = "broken H4 at instant 3 time 20 line DTACK\n";

/// Skews, the line of the verdict with each, the listing, and the status.
static WANTED: [(u64, &str, &str, u8); 6] = [
    (0, BROKEN_LINE, BROKEN_LISTING, 1),
    (2, BROKEN_LINE, BROKEN_LISTING, 1),
    (3, "conforming\n", SETTLED_LISTING, 0),
    (12, "conforming\n", LATE_LISTING, 0),
    (50, "conforming\n", ONE_STEP_LISTING, 0),
    (u64::MAX, "conforming\n", ONE_STEP_LISTING, 0),
];

/// Expects that `check` and `list` answer this of a dump, by so many workers.
fn expect_answers<R: Abort + AllocGlobal + Threads + Sync>(
    rt: &R,
    dump: &str,
    workers: u32,
    wanted: &(u64, &str, &str, u8),
)
    requires { (1 ≤ workers) × (workers ≤ 64) }
{
    let (skew, line, listing, status) = *wanted;
    let dump = dump.as_bytes();
    let single_steps = Settings {
        block: 1,
        workers,
        skew,
    };
    let usual = Settings {
        block: BLOCK,
        workers,
        skew,
    };
    let line = (line, "", status);
    let listing = (listing, "", status);
    assert!(rt;
        answers(rt, Command::Check, BUILT_IN, dump, single_steps, line),
        "by {skew}"
    );
    assert!(rt;
        answers(rt, Command::List, BUILT_IN, dump, usual, listing),
        "by {skew}"
    );
}

#[test]
fn recordings_settle(rt: HostRuntime) -> Result<(), Fail> {
    // laws of a skew of 0, which do nothing at run time: each public function is called once
    unsettled();
    let dump = bus_dump(rt.alloc(), EARLY_ANSWER)?;
    let dump = dump.as_str();
    for wanted in WANTED.iter() {
        expect_answers(&rt, dump, 1, wanted);
        expect_answers(&rt, dump, 3, wanted);
    }
    Ok(())
}

/// Skews, what the explanation with each begins with, and the status.
static EXPLAINED: [(u64, &str, u8); 4] = [
    (0, BROKEN_LINE, 1),
    (2, BROKEN_LINE, 1),
    (
        3,
        "conforming\n\njudged: from instant 1 time 0 to instant 5 time 50\n",
        0,
    ),
    (
        12,
        "conforming\n\njudged: from instant 3 time 40 to instant 3 time 40\n",
        0,
    ),
];

#[test]
fn an_explanation_is_of_what_settled(rt: HostRuntime) -> Result<(), Fail> {
    let dump = bus_dump(rt.alloc(), EARLY_ANSWER)?;
    for (skew, text, status) in EXPLAINED.iter() {
        assert!(rt;
            explains(
                rt.alloc(),
                BUILT_IN,
                dump.as_str(),
                *skew,
                (text, *status),
                (&[], &[])
            ),
            "by {skew}"
        );
    }
    Ok(())
}

/// The limit on blocks counts the steps that are left: with a skew of 1 the steps at the times 2k and 2k + 1 settle to
/// one. So 8,192 steps make 4,096 blocks of one step, as many as there may be, and one step more makes one too many.
#[test]
fn blocks_are_counted_behind_settling(rt: HostRuntime) -> Result<(), Fail> {
    let most = many_steps(rt.alloc(), BUS_DEFINITIONS, 8192)?;
    let one_more = many_steps(rt.alloc(), BUS_DEFINITIONS, 8193)?;
    let deskewed = Settings {
        block: 1,
        workers: 1,
        skew: 1,
    };
    assert!(rt;
        answers(
            &rt,
            Command::Check,
            BUILT_IN,
            most.as_bytes(),
            SINGLE_STEPS,
            TOO_MANY_BLOCKS
        )
    );
    assert!(rt;
        answers(
            &rt,
            Command::Check,
            BUILT_IN,
            most.as_bytes(),
            deskewed,
            NEVER_IDLE
        )
    );
    assert!(rt;
        answers(
            &rt,
            Command::Check,
            BUILT_IN,
            one_more.as_bytes(),
            deskewed,
            TOO_MANY_BLOCKS
        )
    );
    Ok(())
}

/// Run with each allocation refused in turn, this shows that the answer is then want of memory.
#[test]
fn want_of_memory_by_a_skew_is_told(rt: HostRuntime) {
    let (Ok(dump), Ok(mut out), Ok(mut err)) = (
        bus_dump(rt.alloc(), EARLY_ANSWER),
        LimitedSink::with_capacity(rt.alloc(), 200),
        LimitedSink::with_capacity(rt.alloc(), 200),
    ) else {
        return;
    };
    let by_three = Settings {
        block: BLOCK,
        workers: 1,
        skew: 3,
    };
    let status = status_of(
        &rt,
        Command::List,
        &mut Bytes::new(BUILT_IN),
        &mut Bytes::new(dump.as_bytes()),
        by_three,
        &mut out,
        &mut err,
    );
    let wanted = if status == 4 {
        ("", "vmecheck: out of memory\n", 4)
    } else {
        (SETTLED_LISTING, "", 0)
    };
    assert!(rt; has_answered(&out, &err, status, wanted));
}

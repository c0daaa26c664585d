//! Known and held lines: cycles with and without data, and resets after which no lines are held. U3, U4, S1, S2 and S3
//! are broken here.

use crate::recordings::{GRANTED, IDLE, break_of, enumerates_memories, finds};
use std::alloc::Global;
use vme_dtb::stability::Stability;
use vme_test_recordings::Recording;
use vme_trace::{Line, Rule};

/// How a recording begins, its further steps, and its break: the instant, the rule and the name of the line.
type JudgedSteps = (Recording, &'static str, Option<(u32, Rule, &'static str)>);

/// As `GRANTED`, but D00 to D15 become high, too.
const GRANTED_WITH_WORDS: Recording = Recording {
    slots: 3,
    opening: "",
    steps: "high_but_A24_to_A31_D16_to_D31;BR3=0;BG3.0=0;BG3.1=0;BBSY=0 BR3=1;BG3.0=1;BG3.1=1",
};

/// Recordings whose bus is granted to slot 2.
static WORKED: [JudgedSteps; 13] = [
    // an address is held until the answer
    (
        GRANTED,
        "AM1=0 AM2=0 AM4=0 A05=0;AS=0;DS0=0 DS1=0;DTACK=0 A05=1;AS=1 DS0=1 DS1=1;DTACK=1;BBSY=1",
        None,
    ),
    // the direction is known and held
    (
        GRANTED,
        "AM1=0 AM2=0 A05=0;AS=0;DS0=0 DS1=0;DTACK=0 WRITE=0;AS=1 DS0=1 DS1=1;DTACK=1;BBSY=1",
        Some((11, Rule::S2, "WRITE")),
    ),
    (
        GRANTED,
        "AM1=0 AM2=0 WRITE=x A05=0;AS=0;DS0=0 DS1=0;DTACK=0;AS=1 DS0=1 DS1=1;DTACK=1;BBSY=1",
        Some((10, Rule::U3, "WRITE")),
    ),
    // data of a write are known
    (
        GRANTED,
        "AM1=0 AM2=0 WRITE=0 A05=0;AS=0;DS0=0 DS1=0;DTACK=0",
        Some((10, Rule::U4, "D00")),
    ),
    (GRANTED, "AM1=0 AM2=0 A05=0;AS=0;DS0=0 DS1=0;DTACK=0", None),
    (
        GRANTED_WITH_WORDS,
        "AM1=0 AM2=0 WRITE=0 A05=0;AS=0;DS0=0 DS1=0;DTACK=0",
        None,
    ),
    (
        GRANTED_WITH_WORDS,
        "AM1=0 AM2=0 WRITE=0 A05=0;AS=0;DS0=0 DS1=0 D03=x;DTACK=0",
        Some((10, Rule::U4, "D03")),
    ),
    (
        GRANTED_WITH_WORDS,
        "AM1=0 AM2=0 WRITE=0 A05=0;AS=0;DS0=0 D08=x;DTACK=0",
        None,
    ),
    (
        GRANTED_WITH_WORDS,
        "AM1=0 AM2=0 WRITE=0 A05=0;AS=0;DS0=0 D08=x;DS1=0",
        Some((11, Rule::U4, "D08")),
    ),
    // data of a write are held
    (
        GRANTED_WITH_WORDS,
        "AM1=0 AM2=0 WRITE=0 A05=0;AS=0;DS0=0 DS1=0;D03=0",
        Some((11, Rule::S3, "D03")),
    ),
    (
        GRANTED_WITH_WORDS,
        "AM1=0 AM2=0 WRITE=0 A05=0;AS=0;DS0=0 DS1=0;DTACK=0 D03=0",
        None,
    ),
    (
        GRANTED_WITH_WORDS,
        "AM1=0 AM2=0 WRITE=0 A05=0;AS=0;DS0=0 DS1=0;D16=0",
        None,
    ),
    (
        GRANTED_WITH_WORDS,
        "AM1=0 AM2=0 WRITE=0 A05=0;AS=0;DS0=0 DS1=0 D03=0;DTACK=0",
        None,
    ),
];

/// The lines that a cycle needs may change once the bus is reset, and not before.
static RESETS: [JudgedSteps; 2] = [
    (
        IDLE,
        "AM1=0 AM2=0 A05=0;AS=0;SYSRESET=0;AS=1 A05=1;SYSRESET=1",
        None,
    ),
    (
        IDLE,
        "AM1=0 AM2=0 A05=0;AS=0;A05=1",
        Some((4, Rule::S1, "A05")),
    ),
];

/// Whether the monitor finds the break that is written with the recording, and shows no marks.
fn finds_the_break(alloc: Global, worked: &JudgedSteps) -> bool {
    let (start, more, want) = *worked;
    let first_break = match want {
        Some((instant, rule, name)) => match Line::from_name(name.as_bytes()) {
            Some(line) => break_of(instant, rule, line),
            None => return false,
        },
        None => None,
    };
    let recording = (start, more);
    finds::<Stability>(alloc, &recording, first_break, Some(&[]))
}

#[test]
fn cycles_and_writes_are_judged(rt: HostRuntime) {
    for worked in WORKED.iter() {
        let (_, steps, _) = worked;
        assert!(rt; finds_the_break(rt.alloc(), worked), "{steps}");
    }
}

#[test]
fn a_reset_ends_what_is_held(rt: HostRuntime) {
    for worked in RESETS.iter() {
        let (_, steps, _) = worked;
        assert!(rt; finds_the_break(rt.alloc(), worked), "{steps}");
    }
}

#[test]
fn memories_are_enumerated(rt: HostRuntime) {
    assert!(rt; enumerates_memories::<Stability>(13));
}

use vme_audit::Outcome::{Conforming, NotCovered};
use vme_audit::{CoverageGap, Outcome};
use vme_trace::Rule;

/// A recording, in the notation of vme_test_recordings, and the results of the second judge for it.
#[derive(Clone, Copy)]
pub(crate) struct WorkedRecording {
    pub slots: u8,
    pub opening: &'static str,
    pub steps: &'static str,
    /// Each break: its instant, its time, its rule and its line.
    pub breaks: &'static [(u64, u64, Rule, &'static str)],
    /// Resets, tenures, single, block, free and acknowledge cycles, reads, writes, and transfers by DTACK*, by BERR*
    /// and pending.
    pub counts: [u64; 11],
    /// The events that happen, of those that rules refer to, by the names of the fields of AskedEvents.
    pub events: &'static str,
    /// The outcomes if every break is allowed, where no answered transfer is required, or one is.
    pub outcomes: (Outcome, Outcome),
}

/// No transfer is answered, and one is required.
const UNANSWERED: Outcome = NotCovered {
    gap: CoverageGap::FewAnswers {
        answered: 0,
        wanted: 1,
    },
};

/// Recordings of each kind of cycle, of breaks and of resets.
pub(crate) static RECORDINGS: [WorkedRecording; 22] = [
    // nothing is known
    WorkedRecording {
        slots: 3,
        opening: "",
        steps: "",
        breaks: &[],
        counts: [0, 0, 0, 0, 0, 0, 0, 0, 0, 0, 0],
        events: "",
        outcomes: (
            NotCovered {
                gap: CoverageGap::NeverIdle,
            },
            NotCovered {
                gap: CoverageGap::NeverIdle,
            },
        ),
    },
    // idle, and nothing else
    WorkedRecording {
        slots: 3,
        opening: "high_but_A24_to_A31",
        steps: "",
        breaks: &[],
        counts: [0, 0, 0, 0, 0, 0, 0, 0, 0, 0, 0],
        events: "stretch",
        outcomes: (Conforming { allowed: 0 }, UNANSWERED),
    },
    // a read in a tenure
    WorkedRecording {
        slots: 3,
        opening: "",
        steps: "high_but_A24_to_A31;BR3=0;BG3.0=0;BG3.1=0;BBSY=0 BR3=1;BG3.0=1;BG3.1=1;AM1=0 AM2=0 A05=0;AS=0;\
            DS0=0 DS1=0;DTACK=0;AS=1 DS0=1 DS1=1;DTACK=1;BBSY=1",
        breaks: &[],
        counts: [0, 1, 1, 0, 0, 0, 1, 0, 1, 0, 0],
        events: "stretch cycle cycle_end transfer strobe_rise answer_fall answer_rise answer \
            slot_grant_fall slot_grant_rise arbiter_fall tenure",
        outcomes: (Conforming { allowed: 0 }, Conforming { allowed: 0 }),
    },
    // two stray answers, the second before an idle instant and another after one
    WorkedRecording {
        slots: 1,
        opening: "high",
        steps: "DTACK=0;BERR=0;BERR=1;DTACK=1;BERR=0;BERR=1",
        breaks: &[(1, 0, Rule::H4, "DTACK"), (5, 40, Rule::H4, "BERR")],
        counts: [0, 0, 0, 0, 0, 0, 0, 0, 0, 0, 0],
        events: "stretch answer_fall",
        outcomes: (Conforming { allowed: 2 }, UNANSWERED),
    },
    // the bus is taken without a grant, and a read follows
    WorkedRecording {
        slots: 1,
        opening: "high",
        steps: "AM1=0 BBSY=0;AS=0;DS0=0;DTACK=0;AS=1 DS0=1;DTACK=1",
        breaks: &[(1, 0, Rule::B1, "BBSY")],
        counts: [0, 0, 1, 0, 0, 0, 1, 0, 1, 0, 0],
        events: "stretch cycle cycle_end transfer strobe_rise answer_fall answer_rise answer tenure",
        outcomes: (Conforming { allowed: 1 }, Conforming { allowed: 1 }),
    },
    // a lost strobe and a stray answer, then a read with a second answer line
    WorkedRecording {
        slots: 1,
        opening: "high BBSY=0",
        steps: "AS=x;AS=1;DTACK=0;DTACK=1;AM1=0;AS=0;DS0=0;BERR=0;DTACK=0;AS=1 DS0=1;BERR=1;DTACK=1",
        breaks: &[
            (1, 0, Rule::U1, "AS"),
            (3, 20, Rule::H4, "DTACK"),
            (9, 80, Rule::H5, "DTACK"),
        ],
        counts: [0, 0, 1, 0, 0, 0, 1, 0, 0, 1, 0],
        events: "stretch cycle transfer answer_fall answer",
        outcomes: (Conforming { allowed: 3 }, Conforming { allowed: 3 }),
    },
    // a reset amid a write, a break, a reset that is not judged, and one that is
    WorkedRecording {
        slots: 3,
        opening: "high_but_A24_to_A31",
        steps: "BBSY=0;AM1=0 WRITE=0;AS=0;DS0=0 DS1=0;SYSRESET=0;AS=1 DS0=1 DS1=1;SYSRESET=1;\
            DTACK=0;SYSRESET=0;DTACK=1 SYSRESET=1;BERR=0;BERR=1 SYSRESET=0;SYSRESET=1;SYSRESET=0;SYSRESET=1",
        breaks: &[
            (1, 0, Rule::B1, "BBSY"),
            (8, 70, Rule::H4, "DTACK"),
            (11, 100, Rule::H4, "BERR"),
        ],
        counts: [2, 0, 1, 0, 0, 0, 0, 1, 0, 0, 1],
        events: "stretch cycle transfer write answer_fall tenure",
        outcomes: (Conforming { allowed: 3 }, UNANSWERED),
    },
    // a block transfer that changes direction, and a write after it
    WorkedRecording {
        slots: 2,
        opening: "high BBSY=0",
        steps: "AS=0;DS0=0 DS1=0;DTACK=0;DS0=1 DS1=1;DTACK=1;DS0=0 DS1=0;DTACK=0;DS0=1 DS1=1;\
            DTACK=1;WRITE=0;DS0=0 DS1=0;DTACK=0;AS=1 DS0=1 DS1=1;DTACK=1;AM1=0;AS=0;DS0=0;BERR=0;AS=1 DS0=1;\
            BERR=1",
        breaks: &[(12, 110, Rule::C2, "DTACK")],
        counts: [0, 0, 1, 1, 0, 0, 2, 2, 2, 1, 1],
        events: "stretch cycle cycle_end transfer write strobe_rise answer_fall answer_rise answer block_again",
        outcomes: (Conforming { allowed: 1 }, Conforming { allowed: 1 }),
    },
    // a single cycle that reads and writes, and is answered once more
    WorkedRecording {
        slots: 2,
        opening: "high BBSY=0",
        steps: "AM1=0 AM2=0;AS=0;DS0=0 DS1=0;DTACK=0;DS0=1 DS1=1;DTACK=1;WRITE=0 D03=0;DS0=0 DS1=0;\
            DTACK=0;DS0=1 DS1=1;DTACK=1;DS0=0 DS1=0;DTACK=0;AS=1 DS0=1 DS1=1;DTACK=1",
        breaks: &[(13, 120, Rule::C1, "DTACK")],
        counts: [0, 0, 1, 0, 0, 0, 1, 2, 2, 0, 1],
        events: "stretch cycle transfer write strobe_rise answer_fall answer_rise answer single_again",
        outcomes: (Conforming { allowed: 1 }, Conforming { allowed: 1 }),
    },
    // an interrupt is acknowledged through three slots, and answered twice
    WorkedRecording {
        slots: 3,
        opening: "high BBSY=0",
        steps: "IACK=0 A01=0;AS=0;DS0=0;IA.1=0;IA.2=0;DTACK=0;DS0=1;DTACK=1;DS0=0;DTACK=0;\
            AS=1 DS0=1;DTACK=1 IA.1=1 IA.2=1;IACK=1",
        breaks: &[(10, 90, Rule::I5, "DTACK")],
        counts: [0, 0, 0, 0, 0, 1, 2, 0, 1, 0, 1],
        events: "stretch cycle transfer strobe_rise answer_fall answer_rise answer interrupt \
            interrupt_again acknowledge_fall",
        outcomes: (Conforming { allowed: 1 }, Conforming { allowed: 1 }),
    },
    // an acknowledge is passed on out of turn
    WorkedRecording {
        slots: 3,
        opening: "high BBSY=0",
        steps: "IA.2=0;IA.2=1;IACK=0;AS=0;IA.1=0;DS0=0;AS=1 DS0=1;IACK=1;IA.1=1",
        breaks: &[(1, 0, Rule::I1, "IA.2"), (5, 40, Rule::I2, "IA.1")],
        counts: [0, 0, 0, 0, 0, 1, 0, 0, 0, 0, 0],
        events: "stretch cycle acknowledge_fall",
        outcomes: (Conforming { allowed: 2 }, UNANSWERED),
    },
    // a transfer stays without an answer, and another starts
    WorkedRecording {
        slots: 1,
        opening: "high BBSY=0",
        steps: "AM1=0;AS=0;DS0=0;DS0=1;DS0=0;DTACK=0",
        breaks: &[(4, 30, Rule::H2, "DS0")],
        counts: [0, 0, 1, 0, 0, 0, 1, 0, 0, 0, 1],
        events: "stretch cycle transfer strobe_rise",
        outcomes: (
            NotCovered {
                gap: CoverageGap::NeverIdleBehind { instant: 4 },
            },
            NotCovered {
                gap: CoverageGap::NeverIdleBehind { instant: 4 },
            },
        ),
    },
    // a transfer stays without an answer after a reset
    WorkedRecording {
        slots: 1,
        opening: "high BBSY=0",
        steps: "AM1=0;AS=0;DS0=0;SYSRESET=0;AS=1 DS0=1;SYSRESET=1;AS=0;DS1=0",
        breaks: &[],
        counts: [1, 0, 2, 0, 0, 0, 2, 0, 0, 0, 2],
        events: "stretch cycle transfer",
        outcomes: (
            NotCovered {
                gap: CoverageGap::Hang {
                    instant: 8,
                    time: 70,
                },
            },
            UNANSWERED,
        ),
    },
    // a transfer without a cycle is answered, and one in a cycle
    WorkedRecording {
        slots: 1,
        opening: "high BBSY=0",
        steps: "DS0=0;DTACK=0;DS0=1;DTACK=1;AM1=0;AS=0;DS0=0;DTACK=0;AS=1 DS0=1;DTACK=1",
        breaks: &[(2, 10, Rule::H8, "DTACK")],
        counts: [0, 0, 1, 0, 0, 0, 2, 0, 1, 0, 1],
        events: "stretch cycle cycle_end transfer strobe_rise answer_fall answer_rise answer",
        outcomes: (Conforming { allowed: 1 }, Conforming { allowed: 1 }),
    },
    // a transfer without a cycle waits
    WorkedRecording {
        slots: 1,
        opening: "high BBSY=0",
        steps: "DS0=0;AM1=0;AS=0",
        breaks: &[],
        counts: [0, 0, 1, 0, 0, 0, 1, 0, 0, 0, 1],
        events: "stretch cycle transfer",
        outcomes: (
            NotCovered {
                gap: CoverageGap::Hang {
                    instant: 1,
                    time: 0,
                },
            },
            UNANSWERED,
        ),
    },
    // grants are passed on through three slots
    WorkedRecording {
        slots: 3,
        opening: "high_but_A24_to_A31",
        steps: "BR3=0;BG3.0=0;BG3.1=0;BG3.2=0;BG3.3=0;BBSY=0 BR3=1;BG3.0=1;BG3.1=1;BG3.2=1;BG3.3=1;\
            BR0=0;BBSY=1;BG0.0=0;BG0.1=0;BBSY=0;BG0.0=1;BG0.1=1",
        breaks: &[(6, 50, Rule::B4, "BBSY")],
        counts: [0, 1, 0, 0, 0, 0, 0, 0, 0, 0, 0],
        events: "stretch slot_grant_fall slot_grant_rise arbiter_fall tenure",
        outcomes: (Conforming { allowed: 1 }, UNANSWERED),
    },
    // a slot passes a grant on without having one, and keeps one
    WorkedRecording {
        slots: 3,
        opening: "high_but_A24_to_A31",
        steps: "BG2.1=0;BG2.1=1;BR2=0;BG2.0=0;BG2.1=0;BR2=1 BG2.0=1;BG2.1=1;BBSY=0;BBSY=1",
        breaks: &[(1, 0, Rule::G1, "BG2.1"), (8, 70, Rule::B1, "BBSY")],
        counts: [0, 0, 0, 0, 0, 0, 0, 0, 0, 0, 0],
        events: "stretch slot_grant_fall slot_grant_rise arbiter_fall tenure",
        outcomes: (Conforming { allowed: 2 }, UNANSWERED),
    },
    // the arbiter grants twice at once, and again in a tenure
    WorkedRecording {
        slots: 3,
        opening: "high_but_A24_to_A31",
        steps: "BR1=0 BR2=0;BG2.0=0;BG1.0=0;BG1.0=1;BBSY=0;BG2.0=1;BG1.0=0;BG1.0=1;BBSY=1",
        breaks: &[(3, 20, Rule::G3, "BG1.0"), (7, 60, Rule::G4, "BG1.0")],
        counts: [0, 0, 0, 0, 0, 0, 0, 0, 0, 0, 0],
        events: "stretch arbiter_fall",
        outcomes: (Conforming { allowed: 2 }, UNANSWERED),
    },
    // a free code, an address that moves, and data that are not known
    WorkedRecording {
        slots: 2,
        opening: "high BBSY=0",
        steps: "AM5=0;AS=0;DS0=0;DTACK=0;AS=1 DS0=1;DTACK=1;AM1=0 AM5=1;AS=0;A05=0;AS=1;AS=0;DS0=0;\
            DTACK=0;AS=1 DS0=1;DTACK=1;WRITE=0 D01=x;AS=0;DS0=0;DTACK=0;D01=0;AS=1 DS0=1;DTACK=1",
        breaks: &[(9, 80, Rule::S1, "A05"), (18, 170, Rule::U4, "D01")],
        counts: [0, 0, 3, 0, 1, 0, 2, 0, 2, 0, 0],
        events: "stretch cycle cycle_end transfer write strobe_rise answer_fall answer_rise answer",
        outcomes: (Conforming { allowed: 2 }, Conforming { allowed: 2 }),
    },
    // a break cuts a cycle off at its start, and breaks cut transfers off
    WorkedRecording {
        slots: 2,
        opening: "high",
        steps: "AS=0;AS=1;BBSY=0;AM1=0;AS=0;DS0=0;AS=x;AS=0;DS0=1;AS=1;AS=0;DS0=0;DTACK=0;DS0=1;DTACK=1;AS=1",
        breaks: &[
            (1, 0, Rule::B3, "AS"),
            (3, 20, Rule::B1, "BBSY"),
            (7, 60, Rule::U1, "AS"),
        ],
        counts: [0, 0, 2, 0, 0, 0, 2, 0, 1, 0, 1],
        events: "stretch cycle cycle_end transfer strobe_rise answer_fall answer_rise answer tenure",
        outcomes: (Conforming { allowed: 3 }, Conforming { allowed: 3 }),
    },
    // a break in the last step
    WorkedRecording {
        slots: 1,
        opening: "high BBSY=0",
        steps: "AM1=0;AS=0;DS0=0;DTACK=0;AS=1 DS0=1;DTACK=1;BERR=0",
        breaks: &[(7, 60, Rule::H4, "BERR")],
        counts: [0, 0, 1, 0, 0, 0, 1, 0, 1, 0, 0],
        events: "stretch cycle cycle_end transfer strobe_rise answer_fall answer_rise answer",
        outcomes: (
            NotCovered {
                gap: CoverageGap::NeverIdleBehind { instant: 7 },
            },
            NotCovered {
                gap: CoverageGap::NeverIdleBehind { instant: 7 },
            },
        ),
    },
    // both answers at once, and a strobe that falls late
    WorkedRecording {
        slots: 2,
        opening: "high BBSY=0",
        steps: "AM1=0;AS=0;DS0=0;DTACK=0;DS1=0;DTACK=1;AS=1 DS0=1 DS1=1;AS=0;DS0=0;DS1=0;\
            DTACK=0 BERR=0;DS0=1;AS=1 DS1=1;DTACK=1 BERR=1",
        breaks: &[(5, 40, Rule::H3, "DS1"), (11, 100, Rule::H5, "DTACK")],
        counts: [0, 0, 2, 0, 0, 0, 2, 0, 1, 0, 1],
        events: "stretch cycle transfer strobe_fall answer_fall answer",
        outcomes: (Conforming { allowed: 2 }, Conforming { allowed: 2 }),
    },
];

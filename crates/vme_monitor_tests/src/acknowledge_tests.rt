//! Interrupt acknowledges: one along its chain, and one that skips a slot (I1). The monitor of acknowledges finds the
//! breaks, and shows no marks. `;` separates the steps of a recording, and IA.k is the acknowledge output of slot k.

use crate::recordings::{Continued, GRANTED, break_of, enumerates_memories, finds};
use vme_chains::acknowledge::Iack;
use vme_trace::{Line, Rule};

/// An interrupt acknowledge of level 5 that conforms: slot 1 passes it on, and it is answered.
const CONFORMING: Continued = (
    GRANTED,
    "IACK=0 A02=0;AS=0;DS0=0;IA.1=0;DTACK=0;AS=1 DS0=1 IA.1=1;DTACK=1 IACK=1;BBSY=1",
);

/// An interrupt acknowledge that skips slot 1.
const SKIPPED: Continued = (GRANTED, "IACK=0 A02=0;AS=0;DS0=0;IA.2=0");

/// The first breaks no rule; the second breaks I1 at instant 11, by the last of its four steps after the grant's seven.
#[test]
fn judges_interrupt_acknowledges(rt: HostRuntime) {
    assert!(rt; finds::<Iack>(rt.alloc(), &CONFORMING, None, Some(&[])));
    let skipped = break_of(11, Rule::I1, Line::iack(2));
    assert!(rt; finds::<Iack>(rt.alloc(), &SKIPPED, skipped, Some(&[])));
}

/// The monitor has 11 memories, the states of its automaton.
#[test]
fn memories_are_enumerated(rt: HostRuntime) {
    assert!(rt; enumerates_memories::<Iack>(11));
}

//! The handshake: pipelined cycles, an answer without a transfer (H4), and the data of a write, known and unknown.

use crate::recordings::{
    Continued, GRANTED, break_of, capture_of, enumerates_memories, finds, mark, whole,
};
use std::alloc::Global;
use vme_dtb::handshake::Dtb;
use vme_monitor::mark::{Mark, MarkKind};
use vme_monitor::monitor::Monitor;
use vme_monitor::tracking::TransferPhase;
use vme_trace::{Class, Lanes, Line, MovedBytes, Rule};

/// Two reads in two cycles, the second of which starts while the first transfer is still open.
const PIPELINED: Continued = (
    GRANTED,
    "AM1=0 AM2=0 A05=0;AS=0;DS0=0 DS1=0;DTACK=0;AS=1;A05=1;AS=0;DS0=1 DS1=1;DTACK=1;\
        DS0=0 DS1=0;DTACK=0;AS=1 DS0=1 DS1=1;DTACK=1 BBSY=1",
);

fn cycle(instant: u32, address: u32) -> Mark {
    let (class, am) = (Class::S, 0x39);
    mark(instant, MarkKind::Cycle { class, am, address })
}

/// The start of a read's transfer.
fn read(instant: u32) -> Mark {
    mark(instant, MarkKind::Transfer { write: false })
}

fn answer(instant: u32) -> Mark {
    mark(instant, MarkKind::Answer { line: Line::DTACK })
}

/// The answer of a write.
fn answer_with(instant: u32, lanes: Lanes) -> Mark {
    mark(
        instant,
        MarkKind::WriteAnswer {
            line: Line::DTACK,
            moved: lanes.moved,
            unknown: lanes.unknown,
            value: lanes.value,
        },
    )
}

/// Cycles and transfers are marked, in blocks of each of the sizes.
#[test]
fn cycles_and_transfers_are_marked(rt: HostRuntime) {
    let want = [
        cycle(9, 0xFFFFDE),
        read(10),
        answer(11),
        mark(12, MarkKind::CycleEnd),
        cycle(14, 0xFFFFFE),
        mark(15, MarkKind::Close),
        read(17),
        answer(18),
        mark(19, MarkKind::CycleEnd),
        mark(19, MarkKind::Close),
    ];
    assert!(rt; finds::<Dtb>(rt.alloc(), &PIPELINED, None, Some(&want)));
}

const STRAY: Continued = (GRANTED, "AM1=0 AM2=0 A05=0;AS=0;DTACK=0");

#[test]
fn an_answer_falls_in_a_transfer(rt: HostRuntime) {
    let stray = break_of(10, Rule::H4, Line::DTACK);
    assert!(rt; finds::<Dtb>(rt.alloc(), &STRAY, stray, None));
}

/// The marks of the answers in a recording.
fn answers_of(alloc: Global, recording: &Continued) -> Option<Vec<Mark>> {
    let capture = capture_of(alloc, recording)?;
    let all = whole::<Dtb>(alloc, &capture, 1000)?;
    let mut marks = Dtb::marks(alloc, &all, Dtb::start(capture.opening())).ok()?;
    marks.retain(|mark| {
        matches!(
            mark.kind,
            MarkKind::Answer { .. } | MarkKind::WriteAnswer { .. }
        )
    });
    Some(marks)
}

/// Whether `want` are the marks of the answers in a recording.
fn has_answers(alloc: Global, recording: &Continued, want: &[Mark]) -> bool {
    match answers_of(alloc, recording) {
        Some(answers) => answers.as_slice() == want,
        None => false,
    }
}

const READ_AND_WRITE: Continued = (
    GRANTED,
    "AM1=0 A05=0 D00=1 D01=0 D02=0 D03=1;AS=0 D04=0 D05=1 D06=0 D07=1;DS0=0;DTACK=0;DS0=1;DTACK=1;\
        WRITE=0;DS0=0;DTACK=0 D01=1;AS=1 DS0=1 D00=0;DTACK=1",
);

/// The levels of D00 to D07 before the answer are the data of a write, whatever they change to with the answer. A read
/// has no data.
#[test]
fn the_answer_of_a_write_has_its_data(rt: HostRuntime) {
    let byte = Lanes {
        moved: MovedBytes::OddByte,
        value: 0xA9,
        unknown: 0,
    };
    let want = [answer(11), answer_with(16, byte)];
    assert!(rt; has_answers(rt.alloc(), &READ_AND_WRITE, &want));
}

const AT_ONCE: Continued = (
    GRANTED,
    "AM1=0 WRITE=0 A05=0 D00=0 D01=0 D02=0 D03=0;AS=0 D04=0 D05=0 D06=0;\
        DS0=0 DS1=0 DTACK=0 D00=1;BBSY=1",
);

/// A hexadecimal digit with an unknown line has its bit set in `unknown`. If the answer comes as the transfer starts,
/// the data are those at that instant.
#[test]
fn the_data_of_a_write_may_be_unknown(rt: HostRuntime) {
    let word = Lanes {
        moved: MovedBytes::Word,
        value: 0x1,
        unknown: 0b1110,
    };
    assert!(rt; has_answers(rt.alloc(), &AT_ONCE, &[answer_with(10, word)]));
}

#[test]
fn memories_are_enumerated(rt: HostRuntime) {
    assert!(rt; enumerates_memories::<Dtb>(147));
}

/// The phases of a transfer are numbered as they are declared.
#[test]
fn phases_of_a_transfer_are_numbered(rt: HostRuntime) {
    let (closed, answered) = (TransferPhase::Closed, TransferPhase::Answered);
    assert!(rt; closed.place() == 0 && answered.place() == 3);
    assert!(rt; TransferPhase::nth(1) == TransferPhase::Reading);
    assert!(rt; TransferPhase::nth(2) == TransferPhase::Writing);
}

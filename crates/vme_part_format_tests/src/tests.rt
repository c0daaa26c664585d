use std::alloc::{AllocError, Global};
use std::process::Abort;
use std::test::Fail;
use vme_monitor::mark::MarkKind;
use vme_part_format::{
    Part, PartFault, PartFaultKind, ReadError, STAYS, SegmentTimes, TableEntry, WideBreak,
    WideMark, read_part, sum_of_bytes, write_part,
};
use vme_trace::{Class, Level, Line, Lines, MovedBytes, RULE_COUNT, Rule};

/// How many memories each monitor has.
const MEMORIES: [u8; 5] = [4, 147, 13, 35, 11];

/// The memory in which judging has ended. The bytes of a table have no entry of it: a run stays in it.
const ENDED: u8 = 2;

/// The levels of two slots: every line is high, except A31, which is unknown, and BG3's last net, which is low.
const LEVELS: [u8; 48] = [
    0x55, 0x55, 0x55, 0x55, 0x55, 0x55, 0x55, 0x55, 0x55, 0x55, 0x55, 0x56, 0x55, 0xA9, 0xAA, 0xAA,
    0xAA, 0xAA, 0x95, 0xAA, 0xAA, 0xAA, 0xAA, 0x5A, 0xA9, 0xAA, 0xAA, 0xAA, 0xAA, 0x85, 0xAA, 0xAA,
    0xAA, 0xAA, 0x5A, 0xAA, 0xAA, 0xAA, 0xAA, 0x6A, 0x55, 0x55, 0x55, 0x55, 0x55, 0x55, 0x55, 0x55,
];

/// The lines with the levels `LEVELS`.
fn some_lines() -> Option<Lines> {
    let mut lines = Lines::new(2)?;
    for number in 0..192 {
        let line = Line::from_number(number)?;
        if lines.has(line) && line != Line::address(31) {
            lines.set(line, Level::High);
        }
    }
    let net = Line::grant(3, 2);
    if lines.has(net) {
        lines.set(net, Level::Low);
    }
    Some(lines)
}

/// Adds the name, the version, and the fields before the segments.
fn put_front(out: &mut Vec<u8>, backplane: u64, listing: u8, count: u32) -> Result<(), AllocError> {
    out.extend_from_slice(b"vmepart1")?;
    out.extend_from_slice(&backplane.to_le_bytes())?;
    out.push(listing)?;
    out.extend_from_slice(&count.to_le_bytes())
}

/// Adds the fields of a segment before its times.
fn put_head(out: &mut Vec<u8>, first: u64, order: u8, steps: u64) -> Result<(), AllocError> {
    out.extend_from_slice(&first.to_le_bytes())?;
    out.push(order)?;
    out.extend_from_slice(&steps.to_le_bytes())?;
    out.push(2)?;
    out.extend_from_slice(&LEVELS)?;
    out.extend_from_slice(&LEVELS)
}

fn put_times(out: &mut Vec<u8>, times: [u64; 3]) -> Result<(), AllocError> {
    out.push(1)?;
    for time in &times {
        out.extend_from_slice(&time.to_le_bytes())?;
    }
    Ok(())
}

/// Adds an entry for each memory (state) of a table: a run stays in its memory, and then come the bytes `rest`.
fn put_entries(out: &mut Vec<u8>, memories: u8, rest: &[u8]) -> Result<(), AllocError> {
    for next in 0..memories {
        if next != ENDED {
            out.push(next)?;
            out.extend_from_slice(rest)?;
        }
    }
    Ok(())
}

/// Adds a table of a part without marks, in which each run stays in its memory.
fn put_unchanged_table(out: &mut Vec<u8>, memories: u8) -> Result<(), AllocError> {
    put_entries(out, memories, &[0])
}

/// Adds a table of a part without marks, in which each run stays in its memory, and breaks I5 on SYSRESET*.
fn put_broken_table(out: &mut Vec<u8>, memories: u8) -> Result<(), AllocError> {
    for next in 0..memories {
        if next != ENDED {
            out.extend_from_slice(&[next, 31, 191])?;
            out.extend_from_slice(&(u64::MAX - u64::from(next)).to_le_bytes())?;
            out.extend_from_slice(&u64::MAX.to_le_bytes())?;
        }
    }
    Ok(())
}

/// Adds a table of a part with marks: it has no marks, and each run stays in its memory.
fn put_unchanged_table_with_marks(out: &mut Vec<u8>, memories: u8) -> Result<(), AllocError> {
    out.extend_from_slice(&[0, 0, 0, 0])?;
    put_entries(out, memories, &[0, 0, 0, 0])
}

/// How many marks `MARKS` has.
const MARK_COUNT: u8 = 18;

/// The bytes of marks of each kind, at distances of each width.
const MARKS: [u8; 75] = [
    0x20, 1, // at 1 a reset
    0x01, // a start
    0x22, 255, // at 256 an open tenure
    0x43, 0, 1, 3, 22, // at 512 a tenure of level 3 and slot 22
    0x04, // its end
    0x65, 0, 0, 1, 0, 0x39, 0xDE, 0xFF, 0xFF, 0xFF, // at 66,048 a cycle
    0x26, 1, 0x3F, 0, 0, 0, 0, // at 66,049 one of the next class
    0x27, 1, 0, 1, 0, 0, 0, // at 66,050 one of the next
    0x28, 1, 0x10, 1, 2, 3, 4, // at 66,051 one of the last
    0x29, 1, // at 66,052 its end
    0x0A, // a transfer that is no write
    0x2B, 1, // at 66,053 a write
    0x0C, // an answer by DTACK*
    0x2D, 1, // at 66,054 one by BERR*
    0x0E, 4, 0x80, 0x78, 0x56, 0x34, 0x12, // a write's answer by DTACK*
    0x2F, 1, 0, 0, 0, 0, 0, 0, // at 66,055 one by BERR*
    0x90, 0, 0, 0, 0, 1, 0, 0, 0, // 2^32 instants later a transfer closes
    0x10, // and another
];

/// The marks in `MARKS`.
const KINDS: [(u64, MarkKind); 18] = [
    (1, MarkKind::Reset),
    (1, MarkKind::Start),
    (256, MarkKind::Open),
    (512, MarkKind::Tenure { level: 3, slot: 22 }),
    (512, MarkKind::TenureEnd),
    (
        66_048,
        MarkKind::Cycle {
            class: Class::S,
            am: 0x39,
            address: 0xFFFF_FFDE,
        },
    ),
    (
        66_049,
        MarkKind::Cycle {
            class: Class::K,
            am: 0x3F,
            address: 0,
        },
    ),
    (
        66_050,
        MarkKind::Cycle {
            class: Class::I,
            am: 0,
            address: 1,
        },
    ),
    (
        66_051,
        MarkKind::Cycle {
            class: Class::F,
            am: 0x10,
            address: 0x0403_0201,
        },
    ),
    (66_052, MarkKind::CycleEnd),
    (66_052, MarkKind::Transfer { write: false }),
    (66_053, MarkKind::Transfer { write: true }),
    (66_053, MarkKind::Answer { line: Line::DTACK }),
    (66_054, MarkKind::Answer { line: Line::BERR }),
    (
        66_054,
        MarkKind::WriteAnswer {
            line: Line::DTACK,
            moved: MovedBytes::LongWord,
            unknown: 0x80,
            value: 0x1234_5678,
        },
    ),
    (
        66_055,
        MarkKind::WriteAnswer {
            line: Line::BERR,
            moved: MovedBytes::Nothing,
            unknown: 0,
            value: 0,
        },
    ),
    (4_295_033_351, MarkKind::Close),
    (4_295_033_351, MarkKind::Close),
];

/// The bytes of a break of H4 on DTACK*, at instant 7 and time 70.
const FOUND: [u8; 18] = [8, 3, 7, 0, 0, 0, 0, 0, 0, 0, 70, 0, 0, 0, 0, 0, 0, 0];

/// Adds a table of the handshake with two nodes. Memories 3 and 4 continue with the second and the first node, and the
/// first node with the second.
fn put_marked_table(out: &mut Vec<u8>) -> Result<(), AllocError> {
    out.extend_from_slice(&[2, 0, 0, 0])?;
    for next in 0..147 {
        match next {
            // the memory `ENDED`
            2 => {}
            3 => out.extend_from_slice(&[148, 0, 0, 0, 0])?,
            4 => {
                out.extend_from_slice(&[147, 0, 0, 0])?;
                out.extend_from_slice(&FOUND)?;
            }
            _ => out.extend_from_slice(&[next, 0, 0, 0, 0])?,
        }
    }
    out.extend_from_slice(&[147, 0, 0, 0, 0, MARK_COUNT, 0, 0, 0])?;
    out.extend_from_slice(&MARKS)?;
    out.extend_from_slice(&[3, 0, 0, 0])?;
    out.extend_from_slice(&FOUND)?;
    out.extend_from_slice(&[1, 0, 0, 0, 0x20, 9])
}

/// The bytes before the sum of a part of two files without steps.
fn empty_part(alloc: Global) -> Result<Vec<u8>, AllocError> {
    let mut out = Vec::new(alloc);
    put_front(&mut out, 0x0102_0304_0506_0708, 0, 1)?;
    put_head(&mut out, 258, 1, 0)?;
    out.push(0)?;
    for memories in MEMORIES {
        put_unchanged_table(&mut out, memories)?;
    }
    Ok(out)
}

/// The bytes before the sum of a part of 2^62 files, whose tables have as many breaks as they may have.
fn greatest_part(alloc: Global) -> Result<Vec<u8>, AllocError> {
    let mut out = Vec::new(alloc);
    put_front(&mut out, u64::MAX, 0, 1)?;
    put_head(&mut out, 1 << 62, 62, u64::MAX)?;
    put_times(&mut out, [(1 << 62) + 1, 5, u64::MAX])?;
    for memories in MEMORIES {
        put_broken_table(&mut out, memories)?;
    }
    Ok(out)
}

fn put_marked_segment(out: &mut Vec<u8>, first: u64) -> Result<(), AllocError> {
    put_head(out, first, 0, u64::MAX)?;
    put_times(out, [first, 5, 5])?;
    put_unchanged_table_with_marks(out, 4)?;
    put_marked_table(out)?;
    put_unchanged_table_with_marks(out, 13)?;
    put_unchanged_table_with_marks(out, 35)?;
    put_unchanged_table_with_marks(out, 11)
}

/// The bytes before the sum of a part of two segments with marks.
fn marked_part(alloc: Global) -> Result<Vec<u8>, AllocError> {
    let mut out = Vec::new(alloc);
    put_front(&mut out, 1, 1, 2)?;
    put_marked_segment(&mut out, 4)?;
    put_marked_segment(&mut out, 5)?;
    Ok(out)
}

/// The bytes and then their sum.
fn with_sum(alloc: Global, bytes: &[u8]) -> Result<Vec<u8>, AllocError> {
    let mut whole = Vec::from_slice(alloc, bytes)?;
    whole.extend_from_slice(&sum_of_bytes(bytes).to_le_bytes())?;
    Ok(whole)
}

/// The bytes with the one at `place` changed to `byte`.
fn changed(alloc: Global, bytes: &[u8], place: usize, byte: u8) -> Result<Vec<u8>, AllocError> {
    let mut all = Vec::new(alloc);
    for (at, old) in bytes.iter().enumerate() {
        all.push(if at == place { byte } else { *old })?;
    }
    Ok(all)
}

/// Reads the part in `bytes`, and asserts that it is written as the same bytes.
fn expect_part(rt: &impl Abort, alloc: Global, bytes: &[u8]) -> Result<Part, Fail> {
    let part = read_part(alloc, bytes).ok().ok_or("no part")?;
    let written = write_part(alloc, &part)?;
    assert_eq!(rt; written.as_slice(), bytes);
    Ok(part)
}

/// The fault with which `bytes` are refused, if they are.
fn fault_of(alloc: Global, bytes: &[u8]) -> Option<PartFault> {
    match read_part(alloc, bytes) {
        Err(ReadError::Fault(fault)) => Some(fault),
        _ => None,
    }
}

#[test]
fn sums_are_those_of_fnv_1a(rt: HostRuntime) {
    assert_eq!(rt; sum_of_bytes(b""), 0xcbf2_9ce4_8422_2325);
    assert_eq!(rt; sum_of_bytes(b"a"), 0xaf63_dc4c_8601_ec8c);
    assert_eq!(rt; sum_of_bytes(b"foobar"), 0x8594_4171_f739_67e8);
}

#[test]
fn a_part_without_steps_is_read(rt: HostRuntime) -> Result<(), Fail> {
    let bytes = empty_part(rt.alloc())?;
    assert_eq!(rt; bytes.len(), 21 + 115 + 205 * 2);
    let bytes = with_sum(rt.alloc(), bytes.as_slice())?;
    let part = expect_part(&rt, rt.alloc(), bytes.as_slice())?;
    assert_eq!(rt; part.backplane, 0x0102_0304_0506_0708);
    assert!(rt; !part.listing);
    let segment = part.segments.first().ok_or("no segment")?;
    assert_eq!(rt; segment.first, 258);
    assert_eq!(rt; segment.order, 1);
    assert_eq!(rt; segment.steps, 0);
    let lines = some_lines().ok_or("lines")?;
    assert_eq!(rt; segment.opening, lines);
    assert_eq!(rt; segment.left, lines);
    assert_eq!(rt; segment.times, None);
    let last = TableEntry {
        next: 3,
        first_break: None,
    };
    assert_eq!(rt; segment.known.entries.last(), Some(&last));
    assert_eq!(rt; segment.known.entries.get(2), Some(&STAYS));
    Ok(())
}

#[test]
fn the_greatest_part_without_marks_has_4063_bytes(rt: HostRuntime) -> Result<(), Fail> {
    let bytes = greatest_part(rt.alloc())?;
    let bytes = with_sum(rt.alloc(), bytes.as_slice())?;
    assert_eq!(rt; bytes.len(), 4063);
    let part = expect_part(&rt, rt.alloc(), bytes.as_slice())?;
    let segment = part.segments.first().ok_or("no segment")?;
    let times = SegmentTimes {
        number: (1 << 62) + 1,
        first: 5,
        last: u64::MAX,
    };
    assert_eq!(rt; segment.times, Some(times));
    let found = WideBreak {
        instant: u64::MAX - 10,
        time: u64::MAX,
        rule: Rule::I5,
        line: Line::SYSRESET,
    };
    let last = TableEntry {
        next: 10,
        first_break: Some(found),
    };
    assert_eq!(rt; segment.acknowledge.entries.last(), Some(&last));
    Ok(())
}

/// All marks.
fn all_marks(alloc: Global) -> Result<Vec<WideMark>, AllocError> {
    let mut marks = Vec::new(alloc);
    for (instant, kind) in KINDS {
        marks.push(WideMark { instant, kind })?;
    }
    Ok(marks)
}

#[test]
fn marks_are_read(rt: HostRuntime) -> Result<(), Fail> {
    let bytes = marked_part(rt.alloc())?;
    let bytes = with_sum(rt.alloc(), bytes.as_slice())?;
    let part = expect_part(&rt, rt.alloc(), bytes.as_slice())?;
    assert!(rt; part.listing);
    assert_eq!(rt; part.segments.len(), 2);
    let segment = part.segments.last().ok_or("no segment")?;
    assert_eq!(rt; segment.first, 5);
    let node = segment.handshake.nodes.first().ok_or("no node")?;
    assert_eq!(rt; node.next, 147);
    let marks = all_marks(rt.alloc())?;
    assert_eq!(rt; node.marks.as_slice(), marks.as_slice());
    let node = segment.handshake.nodes.last().ok_or("no node")?;
    let found = WideBreak {
        instant: 7,
        time: 70,
        rule: Rule::H4,
        line: Line::DTACK,
    };
    assert_eq!(rt; node.next, 3);
    assert_eq!(rt; node.first_break, Some(found));
    Ok(())
}

#[test]
fn a_changed_byte_is_damage(rt: HostRuntime) -> Result<(), Fail> {
    let bytes = empty_part(rt.alloc())?;
    let bytes = with_sum(rt.alloc(), bytes.as_slice())?;
    let end = bytes.len().saturating_sub(8);
    for (place, byte) in bytes.iter().enumerate() {
        if place >= 8 {
            let other = changed(rt.alloc(), bytes.as_slice(), place, *byte ^ 0x20)?;
            let fault = fault_of(rt.alloc(), other.as_slice()).ok_or("a part")?;
            assert_eq!(rt; fault.kind, PartFaultKind::Damaged);
            assert_eq!(rt; fault.place, end);
            let cut = bytes.get(..place).ok_or("no place")?;
            let fault = fault_of(rt.alloc(), cut).ok_or("a part")?;
            assert_eq!(rt; fault.kind, PartFaultKind::Damaged);
        }
    }
    Ok(())
}

/// The bytes that are written for the part in `bytes`.
fn rewritten(alloc: Global, bytes: &[u8]) -> Result<Vec<u8>, ReadError> {
    match read_part(alloc, bytes) {
        Ok(part) => match write_part(alloc, &part) {
            Ok(written) => Ok(written),
            Err(_) => Err(ReadError::Memory),
        },
        Err(error) => Err(error),
    }
}

/// Asserts that the bytes with their sum are read and written as the same bytes, or refused at a place before the sum.
fn expect_exact(rt: &impl Abort, alloc: Global, bytes: &[u8]) -> Result<(), Fail> {
    let whole = with_sum(alloc, bytes)?;
    match rewritten(alloc, whole.as_slice()) {
        Ok(written) => assert_eq!(rt; written.as_slice(), whole.as_slice()),
        Err(ReadError::Fault(fault)) => {
            assert!(rt; fault.kind != PartFaultKind::Damaged);
            assert!(rt; fault.place <= bytes.len());
        }
        Err(ReadError::Memory) => return Err(Fail::from("memory")),
    }
    Ok(())
}

/// Asserts that `front`, the first bytes of a part, is refused as cut short if its sum follows.
fn expect_cut_short(rt: &impl Abort, alloc: Global, front: &[u8]) -> Result<(), Fail> {
    let whole = with_sum(alloc, front)?;
    let fault = fault_of(alloc, whole.as_slice()).ok_or("a part")?;
    assert_eq!(rt; fault.kind, PartFaultKind::CutShort);
    assert!(rt; fault.place <= front.len());
    Ok(())
}

#[test]
fn changed_bytes_with_a_right_sum_are_read_exactly(rt: HostRuntime) -> Result<(), Fail> {
    for bytes in [empty_part(rt.alloc())?, marked_part(rt.alloc())?] {
        for (place, byte) in bytes.iter().enumerate() {
            if place < 150 || place % 23 == 0 {
                for change in [1, 2, 0x10, 0x20, 0x40, 0x80, 0xFF] {
                    let other = changed(rt.alloc(), bytes.as_slice(), place, *byte ^ change)?;
                    expect_exact(&rt, rt.alloc(), other.as_slice())?;
                }
                if place >= 8 {
                    let front = bytes.get(..place).ok_or("no place")?;
                    expect_cut_short(&rt, rt.alloc(), front)?;
                }
            }
        }
    }
    Ok(())
}

#[test]
fn faults_have_their_places(rt: HostRuntime) -> Result<(), Fail> {
    let bytes = empty_part(rt.alloc())?;
    let end = bytes.len();
    let cases = [
        (0, b'w', PartFaultKind::NotAPart, 0),
        (7, b'2', PartFaultKind::OtherVersion, 7),
        (16, 2, PartFaultKind::BadFlag, 16),
        (21, 3, PartFaultKind::BadNumber, 21),
        (29, 63, PartFaultKind::BadNumber, 21),
        (30, 1, PartFaultKind::BadSteps, 135),
        (38, 22, PartFaultKind::BadLevels, 38),
        (40, 0x57, PartFaultKind::BadLevels, 40),
        (52, 0x55, PartFaultKind::BadLevels, 52),
        (135, 2, PartFaultKind::BadFlag, 135),
        (136, 4, PartFaultKind::BadWay, 136),
        (137, RULE_COUNT as u8 + 1, PartFaultKind::BadBreak, 137),
        (17, 2, PartFaultKind::CutShort, end),
        (17, 0, PartFaultKind::Trailing, 21),
    ];
    for (place, byte, kind, at) in cases {
        let other = changed(rt.alloc(), bytes.as_slice(), place, byte)?;
        let whole = with_sum(rt.alloc(), other.as_slice())?;
        let fault = fault_of(rt.alloc(), whole.as_slice()).ok_or("a part")?;
        assert_eq!(rt; fault, PartFault { kind, place: at });
    }
    Ok(())
}

/// `rewritten`, tried once more if memory is refused at first.
fn bytes_again(alloc: Global, bytes: &[u8]) -> Result<Vec<u8>, ReadError> {
    match rewritten(alloc, bytes) {
        Err(ReadError::Memory) => rewritten(alloc, bytes),
        answer => answer,
    }
}

/// `tests/memory/run` refuses each of its allocations in turn.
#[test]
fn each_growth_fails_once(rt: HostRuntime) -> Result<(), Fail> {
    let Ok(bytes) = marked_part(rt.alloc()) else {
        return Ok(());
    };
    let Ok(bytes) = with_sum(rt.alloc(), bytes.as_slice()) else {
        return Ok(());
    };
    let again = bytes_again(rt.alloc(), bytes.as_slice())
        .ok()
        .ok_or("no part")?;
    assert_eq!(rt; again.as_slice(), bytes.as_slice());
    Ok(())
}

use std::alloc::{AllocError, Global};
use std::test::Fail;
use vme_faults::KeptLines;

/// A dump with a dump section, and in it a comment; one of its lines ends with a carriage return.
const DUMP: &str =
    "$var wire 1 a AS $end\n$enddefinitions $end\n#0\r\n$dumpvars 1a\n1b\n$comment here\nit is $end\n$end\n#1 0a\n";

const LINES: [&str; 10] = [
    "$var wire 1 a AS $end",
    "$enddefinitions $end",
    "#0",
    "$dumpvars 1a",
    "1b",
    "$comment here",
    "it is $end",
    "$end",
    "#1 0a",
    "",
];

/// The bytes of the dump from one place to another.
fn part(from: usize, to: usize) -> &'static [u8] {
    DUMP.as_bytes().get(from..to).unwrap_or(b"")
}

/// Whether the dump may be cut at a place, after a space.
fn is_cut(at: usize) -> bool {
    match part(0, at).last() {
        Some(before) => matches!(*before, b' ' | b'\r' | b'\n'),
        None => true,
    }
}

/// Whether the line of the fault is the one with this number.
fn is_line(lines: &KeptLines, number: usize) -> bool {
    let line = LINES.get(number.saturating_sub(1)).copied().unwrap_or("");
    lines.fault_line() == line.as_bytes()
}

/// Whether the line `number` is kept, if the dump comes in three parts: before a fault, with the fault, and the rest.
fn is_kept(alloc: Global, first: usize, second: usize, number: usize) -> Result<bool, AllocError> {
    let mut lines = KeptLines::new(alloc);
    lines.pass(alloc, part(0, first))?;
    lines.record_fault(number as u64, part(first, second))?;
    lines.extend_fault(part(second, DUMP.len()))?;
    Ok(is_line(&lines, number))
}

/// Whether the line `number` is kept, if two parts come before the one with the fault.
fn is_kept_of_two(
    alloc: Global,
    first: usize,
    second: usize,
    number: usize,
) -> Result<bool, AllocError> {
    let mut lines = KeptLines::new(alloc);
    lines.pass(alloc, part(0, first))?;
    lines.pass(alloc, part(first, second))?;
    lines.record_fault(number as u64, part(second, DUMP.len()))?;
    Ok(is_line(&lines, number))
}

/// The number of the line that has a place.
fn line_at(at: usize) -> usize {
    let feeds = part(0, at).iter().filter(|byte| **byte == b'\n').count();
    feeds.saturating_add(1)
}

#[test]
fn lines_that_follow_are_kept(rt: HostRuntime) -> Result<(), Fail> {
    for first in 0..DUMP.len() {
        if is_cut(first) {
            for number in line_at(first)..11 {
                assert!(rt;
                    is_kept(rt.alloc(), first, DUMP.len(), number)?,
                    "{first} {number}"
                );
            }
        }
    }
    Ok(())
}

#[test]
fn the_rest_of_a_line_follows(rt: HostRuntime) -> Result<(), Fail> {
    for second in 45..DUMP.len() {
        let number = line_at(second);
        assert!(rt; is_kept(rt.alloc(), 44, second, number)?, "{second}");
    }
    Ok(())
}

/// The place after a part of the dump.
fn behind(text: &str) -> usize {
    memchr::memmem::find(DUMP.as_bytes(), text.as_bytes())
        .unwrap_or(0)
        .saturating_add(text.len())
}

#[test]
fn open_lines_are_kept(rt: HostRuntime) -> Result<(), Fail> {
    let alloc = rt.alloc();
    for (text, number) in [
        ("$dumpvars ", 4),
        ("1b\n", 4),
        ("1b\n", 5),
        ("here\n", 4),
        ("here\n", 6),
        ("it ", 6),
        ("it is ", 4),
        ("is $end\n", 4),
        ("is $end\n", 7),
        ("$end\n$end\n", 8),
    ] {
        assert!(rt;
            is_kept(alloc, behind(text), DUMP.len(), number)?,
            "{text} {number}"
        );
    }
    // what is closed isn't kept
    assert!(rt; !is_kept(alloc, behind("$end\n$end\n"), DUMP.len(), 4)?);
    assert!(rt; !is_kept(alloc, behind("is $end\n"), DUMP.len(), 6)?);
    Ok(())
}

#[test]
fn a_line_in_two_parts_is_kept(rt: HostRuntime) -> Result<(), Fail> {
    let alloc = rt.alloc();
    for (first, second, number) in [
        ("$dumpvars ", "1b\n", 4),
        ("$comment ", "here\n", 6),
        ("it ", "is $end\n", 7),
    ] {
        assert!(rt;
            is_kept_of_two(alloc, behind(first), behind(second), number)?,
            "{first} {number}"
        );
    }
    Ok(())
}

#[test]
fn each_growth_fails_once(rt: HostRuntime) -> Result<(), Fail> {
    match is_kept(rt.alloc(), behind("here\n"), behind("is "), 7) {
        Ok(is_kept) => assert!(rt; is_kept),
        Err(_) => {}
    }
    Ok(())
}

//! A read cycle in three files.

use std::alloc::Global;
use vme_part_command::{
    NamedPart, PartOptions, list_whole, tell_whole, write_joined, write_part_of,
};
use vme_stream::{Bytes, Io};
use vme_test_recordings::{BUS_BINDING, READ_LISTING, bus_dump};
use vme_test_streams::{LimitedSink, PieceReader, WantedAnswer, has_answered};
use vme_trace::Source;

/// The first file: a read cycle until the address strobe falls.
const FIRST: &str = "#0 1p 1q 1r 1s 1t 1u\n#10 0p\n";

/// The second file: the cycle from there until the answer.
const SECOND: &str = "#10 0p 1q 1r 1s 1t 1u\n#20 0q\n#30 0s\n";

/// The third file: the end of the cycle.
const THIRD: &str = "#30 0p 0q 1r 0s 1t 1u\n#40 1p 1q\n#50 1s\n";

/// Another third file: the end of a cycle without an answer before it.
const OTHER_THIRD: &str = "#30 0p 0q 1r 1s 1t 1u\n#40 1p 1q\n";

/// A file without a time.
const NO_TIME: &str = "";

/// A file without a step, and without a level of a line.
const NO_LEVELS: &str = "#0\n";

/// The first file, with no levels at its first time.
const LATER_FIRST: &str = "#0\n#1 1p 1q 1r 1s 1t 1u\n#10 0p\n";

/// The second file, with its levels before any time.
const UNTIMED_SECOND: &str = "$dumpvars 0p 1q 1r 1s 1t 1u $end\n#20 0q\n#30 0s\n";

/// The part of the dump that comes from `source`, by `binding`, if one is written.
fn part_from<D: Source>(
    alloc: Global,
    binding: &str,
    options: PartOptions,
    source: &mut D,
) -> Option<Vec<u8>> {
    let mut out = LimitedSink::new(alloc, 1_000_000);
    let mut err = LimitedSink::new(alloc, 1000);
    let status = write_part_of(
        alloc,
        options,
        &mut Bytes::new(binding.as_bytes()),
        source,
        &mut out,
        &mut err,
    );
    if status == 0 && err.bytes.is_empty() {
        Some(out.bytes)
    } else {
        None
    }
}

/// The part of the dump with the body `body` as the file `number`, by `binding`, if one is written.
fn part_by(
    alloc: Global,
    binding: &str,
    number: u32,
    listing: bool,
    body: &str,
) -> Option<Vec<u8>> {
    let dump = bus_dump(alloc, body).ok()?;
    let mut source = Bytes::new(dump.as_bytes());
    part_from(alloc, binding, PartOptions { number, listing }, &mut source)
}

/// The part with marks of the dump with the body `body` as the file `number`.
fn part_of(alloc: Global, number: u32, body: &str) -> Option<Vec<u8>> {
    part_by(alloc, BUS_BINDING, number, true, body)
}

/// The name of the input with the index `place`.
fn name_by(place: usize) -> &'static [u8] {
    match place {
        0 => b"a.part",
        1 => b"b.part",
        _ => b"c.part",
    }
}

/// Inputs with the bytes `parts`.
fn inputs_of<'a>(alloc: Global, parts: &'a [&'a [u8]]) -> Option<Vec<NamedPart<'a, Bytes<'a>>>> {
    let mut inputs = Vec::new(alloc);
    for bytes in parts {
        let name = name_by(inputs.len());
        let part = Bytes::new(*bytes);
        inputs.push(NamedPart { name, part }).ok()?;
    }
    Some(inputs)
}

/// The part joined from `parts`, if one is written.
fn joined(alloc: Global, parts: &[&[u8]]) -> Option<Vec<u8>> {
    let mut inputs = inputs_of(alloc, parts)?;
    let mut out = LimitedSink::new(alloc, 1_000_000);
    let mut err = LimitedSink::new(alloc, 1000);
    let status = write_joined(alloc, inputs.as_mut_slice(), &mut out, &mut err);
    if status == 0 && err.bytes.is_empty() {
        Some(out.bytes)
    } else {
        None
    }
}

/// Whether the command on the inputs writes `wanted`, to a sink with room for `room` bytes.
fn answers<P: Source>(
    alloc: Global,
    inputs: &mut [NamedPart<'_, P>],
    files: Option<u64>,
    listing: bool,
    room: usize,
    wanted: WantedAnswer<'_>,
) -> bool {
    let mut out = LimitedSink::new(alloc, room);
    let mut err = LimitedSink::new(alloc, 1000);
    let status = if listing {
        list_whole(alloc, inputs, files, &mut out, &mut err)
    } else {
        tell_whole(alloc, inputs, files, &mut out, &mut err)
    };
    has_answered(&out, &err, status, wanted)
}

/// Whether the command on `parts` writes `wanted`.
fn tells(
    alloc: Global,
    parts: &[&[u8]],
    files: Option<u64>,
    listing: bool,
    wanted: WantedAnswer<'_>,
) -> Option<bool> {
    let mut inputs = inputs_of(alloc, parts)?;
    Some(answers(alloc, inputs.as_mut_slice(), files, listing, 1000, wanted))
}

/// Whether the part of a dump, without marks, is short, and begins as a part does.
fn writes_a_short_part(alloc: Global) -> Option<bool> {
    let part = part_by(alloc, BUS_BINDING, 0, false, FIRST)?;
    Some(part.as_slice().starts_with(b"vmepart1") && part.len() < 4096)
}

#[test]
fn a_part_is_short(rt: HostRuntime) {
    assert!(rt; writes_a_short_part(rt.alloc()) == Some(true));
}

/// Whether the parts of the files, in another order than that of the files, give the verdict and the listing of the
/// whole.
fn tells_the_whole(alloc: Global) -> Option<bool> {
    let first = part_of(alloc, 0, FIRST)?;
    let second = part_of(alloc, 1, SECOND)?;
    let third = part_of(alloc, 2, THIRD)?;
    let parts = [third.as_slice(), first.as_slice(), second.as_slice()];
    let verdict = ("conforming\n", "", 0);
    let listing = (READ_LISTING, "", 0);
    Some(
        tells(alloc, &parts, None, false, verdict)?
            && tells(alloc, &parts, Some(3), false, verdict)?
            && tells(alloc, &parts, None, true, listing)?,
    )
}

#[test]
fn the_verdict_and_the_listing_of_the_whole(rt: HostRuntime) {
    assert!(rt; tells_the_whole(rt.alloc()) == Some(true));
}

/// Whether the opening of a file has the levels at its first time, and is unknown where that time gives none.
fn opens_at_the_first_time(alloc: Global) -> Option<bool> {
    let none = part_of(alloc, 0, NO_LEVELS)?;
    let first = part_of(alloc, 1, LATER_FIRST)?;
    let second = part_of(alloc, 2, UNTIMED_SECOND)?;
    let third = part_of(alloc, 3, THIRD)?;
    let parts = [
        none.as_slice(),
        first.as_slice(),
        second.as_slice(),
        third.as_slice(),
    ];
    tells(alloc, &parts, Some(4), true, (READ_LISTING, "", 0))
}

#[test]
fn the_opening_is_that_of_the_first_time(rt: HostRuntime) {
    assert!(rt; opens_at_the_first_time(rt.alloc()) == Some(true));
}

/// The part with marks of the dump with the body `body`, which is read a few bytes at a time.
fn part_by_reads(alloc: Global, number: u32, body: &str) -> Option<Vec<u8>> {
    let dump = bus_dump(alloc, body).ok()?;
    let options = PartOptions {
        number,
        listing: true,
    };
    let mut source = Io::new(PieceReader::new(dump.as_bytes(), 7));
    part_from(alloc, BUS_BINDING, options, &mut source)
}

/// Whether a dump has the same part however it is read.
fn writes_the_same_part(alloc: Global) -> Option<bool> {
    let first = part_of(alloc, 0, FIRST)?;
    let third = part_of(alloc, 2, THIRD)?;
    Some(
        part_by_reads(alloc, 0, FIRST)?.as_slice() == first.as_slice()
            && part_by_reads(alloc, 2, THIRD)?.as_slice() == third.as_slice(),
    )
}

#[test]
fn short_reads_make_the_same_part(rt: HostRuntime) {
    assert!(rt; writes_the_same_part(rt.alloc()) == Some(true));
}

/// Whether joins of joins, the third file in two of them, give the listing of the whole.
fn tells_by_joins(alloc: Global) -> Option<bool> {
    let first = part_of(alloc, 0, FIRST)?;
    let second = part_of(alloc, 1, SECOND)?;
    let third = part_of(alloc, 2, THIRD)?;
    let some = joined(alloc, &[third.as_slice(), first.as_slice()])?;
    let all = joined(
        alloc,
        &[second.as_slice(), some.as_slice(), third.as_slice()],
    )?;
    let parts = [all.as_slice(), second.as_slice()];
    tells(alloc, &parts, Some(3), true, (READ_LISTING, "", 0))
}

#[test]
fn joins_of_joins(rt: HostRuntime) {
    assert!(rt; tells_by_joins(rt.alloc()) == Some(true));
}

/// Whether a missing file, and one beyond the files, is reported by its number.
fn tells_missing_files(alloc: Global) -> Option<bool> {
    let first = part_of(alloc, 0, FIRST)?;
    let third = part_of(alloc, 2, THIRD)?;
    let parts = [first.as_slice(), third.as_slice()];
    let missing = ("", "vmecheck: part 1 missing\n", 3);
    let beyond = ("", "vmecheck: part 2 beyond the files\n", 3);
    Some(
        tells(alloc, &parts, None, false, missing)?
            && tells(alloc, &parts, None, true, missing)?
            && tells(alloc, &parts, Some(2), false, beyond)?
            && tells(alloc, &[first.as_slice()], Some(2), false, missing)?,
    )
}

#[test]
fn a_missing_file_is_told(rt: HostRuntime) {
    assert!(rt; tells_missing_files(rt.alloc()) == Some(true));
}

/// Whether a file that doesn't follow those before it, and two that differ, are reported.
fn tells_torn_files(alloc: Global) -> Option<bool> {
    let first = part_of(alloc, 0, FIRST)?;
    let second = part_of(alloc, 1, SECOND)?;
    let other = part_of(alloc, 2, OTHER_THIRD)?;
    let early = part_of(alloc, 2, SECOND)?;
    let another = part_of(alloc, 1, THIRD)?;
    let torn = ("", "vmecheck: part 2 torn\n", 3);
    let differs = ("", "vmecheck: part 2 differs\n", 3);
    // the files 0 and 1 are the two halves of one segment, which are joined first
    let first_pair_differs = ("", "vmecheck: part 1 differs\n", 3);
    Some(
        tells(
            alloc,
            &[first.as_slice(), second.as_slice(), other.as_slice()],
            None,
            false,
            torn,
        )? && tells(
            alloc,
            &[first.as_slice(), second.as_slice(), early.as_slice()],
            None,
            true,
            torn,
        )? && tells(
            alloc,
            &[first.as_slice(), other.as_slice(), early.as_slice()],
            None,
            false,
            differs,
        )? && tells(
            alloc,
            &[second.as_slice(), first.as_slice(), another.as_slice()],
            None,
            false,
            first_pair_differs,
        )?,
    )
}

#[test]
fn a_torn_file_is_told(rt: HostRuntime) {
    assert!(rt; tells_torn_files(rt.alloc()) == Some(true));
}

/// Whether `dump` is refused with the line `line`.
fn is_refused(alloc: Global, dump: &str, line: &str) -> bool {
    let mut out = LimitedSink::new(alloc, 1000);
    let mut err = LimitedSink::new(alloc, 1000);
    let status = write_part_of(
        alloc,
        PartOptions {
            number: 1,
            listing: true,
        },
        &mut Bytes::new(BUS_BINDING.as_bytes()),
        &mut Bytes::new(dump.as_bytes()),
        &mut out,
        &mut err,
    );
    has_answered(&out, &err, status, ("", line, 3))
}

/// Whether an empty file is refused, and one that has only definitions is judged. Such a file has no steps and no
/// levels, so it doesn't follow a file that leaves some.
fn judges_short_files(alloc: Global) -> Option<bool> {
    let untimed = part_of(alloc, 0, NO_TIME)?;
    let first = part_of(alloc, 0, FIRST)?;
    let next_untimed = part_of(alloc, 1, NO_TIME)?;
    let never = ("never idle\n", "", 2);
    let torn = ("", "vmecheck: part 1 torn\n", 3);
    Some(
        is_refused(alloc, "", "vmecheck: dump line 1: NoEndDefinitions\n")
            && tells(alloc, &[untimed.as_slice()], None, false, never)?
            && tells(
                alloc,
                &[untimed.as_slice(), next_untimed.as_slice()],
                None,
                false,
                never,
            )?
            && tells(
                alloc,
                &[first.as_slice(), next_untimed.as_slice()],
                None,
                false,
                torn,
            )?,
    )
}

#[test]
fn short_files_are_judged_or_refused(rt: HostRuntime) {
    assert!(rt; judges_short_files(rt.alloc()) == Some(true));
}

/// Whether parts of different backplanes, and with marks and without, are refused by their names.
fn refuses_others(alloc: Global) -> Option<bool> {
    let first = part_of(alloc, 0, FIRST)?;
    let two_slots = BUS_BINDING.replace(alloc, "slots 1", "slots 2").ok()?;
    let other = part_by(alloc, two_slots.as_str(), 1, true, SECOND)?;
    let without_marks = part_by(alloc, BUS_BINDING, 1, false, SECOND)?;
    let backplane = ("", "vmecheck: b.part: of another backplane\n", 3);
    let without = ("", "vmecheck: b.part: without marks\n", 3);
    let with = ("", "vmecheck: b.part: with marks\n", 3);
    let unmarked = ("", "vmecheck: parts without marks\n", 3);
    let first_without_marks = part_by(alloc, BUS_BINDING, 0, false, FIRST)?;
    Some(
        tells(
            alloc,
            &[first.as_slice(), other.as_slice()],
            None,
            false,
            backplane,
        )? && tells(
            alloc,
            &[first.as_slice(), without_marks.as_slice()],
            None,
            false,
            without,
        )? && tells(
            alloc,
            &[without_marks.as_slice(), first.as_slice()],
            None,
            false,
            with,
        )? && tells(
            alloc,
            &[first_without_marks.as_slice()],
            None,
            true,
            unmarked,
        )?,
    )
}

#[test]
fn other_parts_are_refused(rt: HostRuntime) {
    assert!(rt; refuses_others(rt.alloc()) == Some(true));
}

/// Whether a part that was cut short or changed is refused by its name.
fn refuses_damaged(alloc: Global) -> Option<bool> {
    let first = part_of(alloc, 0, FIRST)?;
    let mut changed = part_of(alloc, 1, SECOND)?;
    let cut = changed.as_slice().get(..100)?;
    let damaged = ("", "vmecheck: b.part: damaged\n", 3);
    let none = ("", "vmecheck: b.part: no part\n", 3);
    let is_cut = tells(alloc, &[first.as_slice(), cut], None, false, damaged)?;
    let is_none = tells(alloc, &[first.as_slice(), b"vmecheck"], None, false, none)?;
    *changed.as_mut_slice().get_mut(60)? ^= 1;
    let is_changed = tells(
        alloc,
        &[first.as_slice(), changed.as_slice()],
        None,
        false,
        damaged,
    )?;
    Some(is_cut && is_none && is_changed)
}

#[test]
fn damaged_parts_are_refused(rt: HostRuntime) {
    assert!(rt; refuses_damaged(rt.alloc()) == Some(true));
}

/// Whether it is reported that a part can't be read after its first `place` bytes. `None` if it is shorter.
fn tells_failed_read(alloc: Global, part: &[u8], place: usize) -> Option<bool> {
    let left = part.get(..place)?;
    let mut inputs = [NamedPart {
        name: b"a.part",
        part: Io::new(PieceReader::torn(left, 7)),
    }];
    let wanted = ("", "vmecheck: a.part: cannot read\n", 3);
    Some(answers(alloc, &mut inputs, None, false, 1000, wanted))
}

/// Whether `tell` and `join` refuse an input whose name has a line feed and an escape in one line, with `?` for these.
fn refuses_in_one_line(alloc: Global) -> bool {
    let wanted = ("", "vmecheck: a??.part: no part\n", 3);
    let mut inputs = [NamedPart {
        name: b"a\n\x1B.part",
        part: Bytes::new("vmecheck".as_bytes()),
    }];
    let is_told = answers(alloc, &mut inputs, None, false, 1000, wanted);
    let mut again = [NamedPart {
        name: b"a\n\x1B.part",
        part: Bytes::new("vmecheck".as_bytes()),
    }];
    let mut out = LimitedSink::new(alloc, 1000);
    let mut err = LimitedSink::new(alloc, 1000);
    let status = write_joined(alloc, &mut again, &mut out, &mut err);
    is_told && has_answered(&out, &err, status, wanted)
}

#[test]
fn a_name_is_shown_in_one_line(rt: HostRuntime) {
    assert!(rt; refuses_in_one_line(rt.alloc()));
}

/// After how many bytes a read fails.
static FAILS_AFTER: [usize; 5] = [0, 1, 8, 100, 1000];

/// Whether it is reported that a part can't be read after each count of `FAILS_AFTER`, and after its end.
fn tells_failed_reads(alloc: Global) -> Option<bool> {
    let part = part_of(alloc, 0, FIRST)?;
    let bytes = part.as_slice();
    for place in FAILS_AFTER.iter() {
        let is_told = tells_failed_read(alloc, bytes, *place)?;
        if !is_told {
            return Some(false);
        }
    }
    tells_failed_read(alloc, bytes, bytes.len())
}

#[test]
fn a_read_fails_in_mid_stream(rt: HostRuntime) {
    assert!(rt; tells_failed_reads(rt.alloc()) == Some(true));
}

/// Whether it is reported that the verdict can't be written.
fn tells_a_full_output(alloc: Global) -> Option<bool> {
    let first = part_of(alloc, 0, FIRST)?;
    let parts = [first.as_slice()];
    let mut inputs = inputs_of(alloc, &parts)?;
    let wanted = ("", "vmecheck: cannot write\n", 5);
    Some(answers(alloc, inputs.as_mut_slice(), None, false, 0, wanted))
}

#[test]
fn a_full_output_is_told(rt: HostRuntime) {
    assert!(rt; tells_a_full_output(rt.alloc()) == Some(true));
}

/// Run with each allocation refused in turn, this shows that the answer is then want of memory.
#[test]
fn want_of_memory_is_told(rt: HostRuntime) {
    let alloc = rt.alloc();
    let (Ok(dump), Ok(mut out), Ok(mut err)) = (
        bus_dump(alloc, SECOND),
        LimitedSink::with_capacity(alloc, 100_000),
        LimitedSink::with_capacity(alloc, 100),
    ) else {
        return;
    };
    let options = PartOptions {
        number: 1,
        listing: true,
    };
    let status = write_part_of(
        alloc,
        options,
        &mut Bytes::new(BUS_BINDING.as_bytes()),
        &mut Bytes::new(dump.as_bytes()),
        &mut out,
        &mut err,
    );
    let is_told = if status == 4 {
        has_answered(&out, &err, status, ("", "vmecheck: out of memory\n", 4))
    } else {
        status == 0 && out.bytes.as_slice().starts_with(b"vmepart1") && err.bytes.is_empty()
    };
    assert!(rt; is_told);
}

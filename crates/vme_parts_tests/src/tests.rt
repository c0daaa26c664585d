//! Recordings are cut into files. A file is judged by itself, and the result is its part. Parts are joined: a joined
//! part covers files by their numbers, in segments of 2^k files from a multiple of 2^k on. The last one tells the
//! verdict of the whole recording, or which file is missing, torn or beyond those that are asked for.

ghost use Rattle.std.specs.Prelude.{◌<◌, All, IfOk};
ghost use Rattle.vme_part_format.specs.Bounds.{FitsPart};
ghost use Rattle.vme_part_format.specs.Tables.{part_value};
ghost use Rattle.vme_part_format.specs.declared.part.Part.{Part};

use smallvec::SmallVec;
use std::alloc::{AllocError, Global};
use std::process::Abort;
use std::test::Fail;
use vme_part_format::{Part, read_part, write_part};
use vme_parts::{
    JoinRefusal, RecordingAnswer, WideVerdict, can_write, join_parts, part_of_steps, steps_of_file,
    tell_verdict,
};
use vme_summary::verdict_by_blocks;
use vme_trace::{Capture, Change, Changes, LINE_COUNT, Level, Line, Lines, Step, Verdict};

/// One file of a recording.
#[derive(Drop)]
struct TestFile {
    number: u32,
    capture: Capture,
}

/// A file with the number, opening and steps.
fn file_of(number: u32, opening: Lines, steps: Vec<Step>) -> Result<TestFile, &'static str> {
    match Capture::new(opening, steps) {
        Ok(capture) => Ok(TestFile { number, capture }),
        Err(_) => Err("malformed"),
    }
}

/// Adds copies of `steps` to `own`.
fn copy_steps(alloc: Global, own: &mut Vec<Step>, steps: &[Step]) -> Result<(), &'static str> {
    for step in steps {
        let again = step.copy(alloc).map_err(|_| "no memory")?;
        own.push(again).map_err(|_| "no memory")?;
    }
    Ok(())
}

/// A read of a requester in slot 2. Each item is one step: words of lines and levels.
const READ: [&str; 13] = [
    "BR3=0",
    "BG3.0=0",
    "BG3.1=0",
    "BBSY=0 BR3=1",
    "BG3.0=1",
    "BG3.1=1",
    "AM1=0 AM2=0 A05=0",
    "AS=0",
    "DS0=0 DS1=0",
    "DTACK=0",
    "AS=1 DS0=1 DS1=1",
    "DTACK=1",
    "BBSY=1 AM1=1 AM2=1 A05=1",
];

/// Changes that spoil a conforming recording: a reset, a lost line, and edges in the wrong place.
const SPOILS: [&str; 12] = [
    "SYSRESET=0",
    "SYSRESET=1",
    "AS=x",
    "DTACK=0",
    "BERR=0",
    "DS0=1",
    "A05=1",
    "WRITE=0",
    "BBSY=0",
    "BG3.1=0",
    "BG0.0=0",
    "IA.1=0",
];

/// The next number of a pseudorandom generator, below 2^31.
fn next_number(state: &mut u64) -> u64 {
    *state = state
        .wrapping_mul(6364136223846793005)
        .wrapping_add(1442695040888963407);
    *state >> 33
}

/// A pseudorandom number below `end`.
fn below(state: &mut u64, end: usize) -> usize
    ensures { 0 < end → result < end }
{
    if end == 0 {
        0
    } else {
        next_number(state) as usize % end
    }
}

/// The changes in `words`, without those that change nothing. `lines` gets the levels after them.
fn changes_of(alloc: Global, lines: &mut Lines, words: &str) -> Result<Vec<Change>, &'static str> {
    let mut changes = Vec::new(alloc);
    for number in 0..LINE_COUNT {
        let line = Line::from_number(number).ok_or("no such line")?;
        for word in words.split_whitespace() {
            let (name, level) = word.split_once('=').ok_or("no change")?;
            let level = match level.as_bytes() {
                [b'0'] => Level::Low,
                [b'1'] => Level::High,
                _ => Level::Unknown,
            };
            let is_meant = Line::from_name(name.as_bytes()) == Some(line);
            if is_meant && lines.has(line) && lines.level(line) != level {
                lines.set(line, level);
                changes
                    .push(Change { line, level })
                    .map_err(|_| "no memory")?;
            }
        }
    }
    Ok(changes)
}

/// Adds a step with the changes, if there are any.
fn add_step(
    alloc: Global,
    steps: &mut Vec<Step>,
    time: u64,
    changes: &[Change],
) -> Result<(), &'static str> {
    if changes.is_empty() {
        return Ok(());
    }
    let list = SmallVec::from_slice(alloc, changes).map_err(|_| "no memory")?;
    let step = Step {
        time,
        changes: Changes::new(list),
    };
    steps.push(step).map_err(|_| "no memory")
}

/// The changes by which each line of the backplane goes high. `lines` gets these levels.
fn quiet_changes(alloc: Global, lines: &mut Lines) -> Result<Vec<Change>, &'static str> {
    let mut quiet = Vec::new(alloc);
    for number in 0..LINE_COUNT {
        let line = Line::from_number(number).ok_or("no such line")?;
        if lines.has(line) {
            lines.set(line, Level::High);
            let change = Change {
                line,
                level: Level::High,
            };
            quiet.push(change).map_err(|_| "no memory")?;
        }
    }
    Ok(quiet)
}

/// Adds a step with the changes in `words`, if they change something.
fn add_words(
    alloc: Global,
    steps: &mut Vec<Step>,
    lines: &mut Lines,
    time: u64,
    words: &str,
) -> Result<(), &'static str> {
    let changes = changes_of(alloc, lines, words)?;
    add_step(alloc, steps, time, changes.as_slice())
}

/// A first step after which the bus is idle, and then the steps of one to four reads, spoiled at most twice: one of
/// `SPOILS` comes after a step of a read.
fn steps_of_reads(
    alloc: Global,
    state: &mut u64,
    lines: &mut Lines,
) -> Result<Vec<Step>, &'static str> {
    let mut steps = Vec::new(alloc);
    let quiet = quiet_changes(alloc, lines)?;
    add_step(alloc, &mut steps, 3, quiet.as_slice())?;
    let mut time = 3u64;
    let reads = 1 + below(state, 4);
    let spoiled = below(state, 3);
    let mut spoils = [usize::MAX; 2];
    for place in 0..spoiled {
        spoils[place] = below(state, 13 * reads);
    }
    for place in 0..13 * reads {
        time = time.saturating_add(1 + next_number(state) % 100);
        add_words(alloc, &mut steps, lines, time, READ[place % 13])?;
        if spoils.contains(&place) {
            time = time.saturating_add(1);
            let words = SPOILS[below(state, SPOILS.len())];
            add_words(alloc, &mut steps, lines, time, words)?;
        }
    }
    Ok(steps)
}

/// A recording of one to four reads on three slots, spoiled at most twice.
fn recording(alloc: Global, seed: u64) -> Result<Capture, &'static str> {
    let mut state = seed;
    let opening = Lines::new(3).ok_or("no such backplane")?;
    let mut lines = opening;
    let steps = steps_of_reads(alloc, &mut state, &mut lines)?;
    Capture::new(opening, steps).ok().ok_or("malformed")
}

/// The places at which a recording of `steps` steps is cut into `count` files, some of them empty.
fn cuts_of(
    alloc: Global,
    state: &mut u64,
    steps: usize,
    count: usize,
) -> Result<Vec<usize>, &'static str> {
    let mut cuts = Vec::new(alloc);
    for _ in 1..count {
        cuts.push(below(state, steps.saturating_add(1)))
            .map_err(|_| "no memory")?;
    }
    cuts.push(steps).map_err(|_| "no memory")?;
    cuts.sort().map_err(|_| "no memory")?;
    Ok(cuts)
}

/// The file `number` with `steps`, which opens with `lines`. `lines` gets the levels that it leaves.
fn next_file(
    alloc: Global,
    number: u32,
    lines: &mut Lines,
    steps: &[Step],
) -> Result<TestFile, &'static str> {
    let opening = *lines;
    let mut own = Vec::new(alloc);
    copy_steps(alloc, &mut own, steps)?;
    for step in steps {
        lines.apply(step.changes.as_slice());
    }
    file_of(number, opening, own)
}

/// The recording cut into `count` files, some of them empty.
fn files_of(
    alloc: Global,
    state: &mut u64,
    capture: &Capture,
    count: usize,
) -> Result<Vec<TestFile>, &'static str> {
    let steps = capture.steps();
    let cuts = cuts_of(alloc, state, steps.len(), count)?;
    let mut files = Vec::new(alloc);
    let mut lines = *capture.opening();
    let mut from = 0;
    let mut number = 0u32;
    for cut in &cuts {
        if *cut < from || steps.len() < *cut {
            return Err("no such cut");
        }
        let own = &steps[from..*cut];
        let file = next_file(alloc, number, &mut lines, own)?;
        files.push(file).map_err(|_| "no memory")?;
        from = *cut;
        number = number.saturating_add(1);
    }
    Ok(files)
}

/// The files of the recording of `seed`, cut by the generator `state`.
fn cut_recording(
    alloc: Global,
    seed: u64,
    state: &mut u64,
    count: usize,
) -> Result<Vec<TestFile>, &'static str> {
    let capture = recording(alloc, seed)?;
    files_of(alloc, state, &capture, count)
}

/// The bytes of the part of a file. `backplane` is the checksum by which parts of one backplane are known, and with
/// `listing` the part has marks, of which a listing is made.
fn part_of(
    alloc: Global,
    backplane: u64,
    listing: bool,
    file: &TestFile,
) -> Result<Vec<u8>, &'static str> {
    let opening = file.capture.opening();
    let steps = file.capture.steps();
    let part = part_of_steps(alloc, backplane, listing, file.number, opening, steps).map_err(
        |_| "not made",
    )?;
    if !can_write(&part) {
        return Err("out of range");
    }
    write_part(alloc, &part).map_err(|_| "no memory")
}

/// The part in `bytes`.
fn read_one(alloc: Global, bytes: &[u8]) -> Result<Part, &'static str>
    ensures { IfOk result (λ p. FitsPart (part_value p)) }
{
    match read_part(alloc, bytes) {
        Ok(part) => Ok(part),
        Err(_) => Err("no part"),
    }
}

/// The parts in `texts`.
fn read_each(alloc: Global, texts: &[Vec<u8>]) -> Result<Vec<Part>, &'static str>
    ensures { IfOk result (λ v. All (λ (p : Part). FitsPart (part_value p)) v.items) }
{
    let mut parts = Vec::new(alloc);
    for text in texts {
        let part = read_one(alloc, text.as_slice())?;
        parts.push(part).map_err(|_| "no memory")?;
    }
    Ok(parts)
}

/// Why parts aren't joined, if they aren't.
fn why_apart(alloc: Global, texts: &[Vec<u8>]) -> Result<Option<JoinRefusal>, &'static str> {
    let parts = read_each(alloc, texts)?;
    Ok(join_parts(alloc, parts).err())
}

/// The bytes of the part joined from those in `texts`.
fn join_all(alloc: Global, texts: &[Vec<u8>]) -> Result<Vec<u8>, &'static str> {
    let parts = read_each(alloc, texts)?;
    match join_parts(alloc, parts) {
        Ok(part) => write_part(alloc, &part).map_err(|_| "no memory"),
        Err(_) => Err("not joined"),
    }
}

/// The answer of the part in `text` for a recording of `files` files, or of as many as it covers.
fn answer_of(
    alloc: Global,
    text: &[u8],
    files: Option<u64>,
) -> Result<RecordingAnswer, &'static str> {
    let part = read_one(alloc, text)?;
    Ok(tell_verdict(&part, files))
}

/// How many segments the part in `text` has.
fn segments_in(alloc: Global, text: &[u8]) -> Result<usize, &'static str> {
    let part = read_one(alloc, text)?;
    Ok(part.segments.len())
}

/// A copy of `text`.
fn copied(alloc: Global, text: &[u8]) -> Result<Vec<u8>, &'static str> {
    let mut again = Vec::new(alloc);
    again.extend_from_slice(text).map_err(|_| "no memory")?;
    Ok(again)
}

/// At most four of the parts in `bag`, taken out or copied.
fn some_of(
    alloc: Global,
    state: &mut u64,
    bag: &mut Vec<Vec<u8>>,
) -> Result<Vec<Vec<u8>>, &'static str> {
    let mut some = Vec::new(alloc);
    for _ in 0..1 + below(state, 4) {
        if !bag.is_empty() {
            let place = below(state, bag.len());
            if next_number(state) % 4 == 0 {
                let again = copied(alloc, bag[place].as_slice())?;
                some.push(again).map_err(|_| "no memory")?;
            } else {
                some.push(bag.swap_remove(place)).map_err(|_| "no memory")?;
            }
        }
    }
    Ok(some)
}

/// The parts of the files, one for each.
fn bag_of(alloc: Global, listing: bool, files: &[TestFile]) -> Result<Vec<Vec<u8>>, &'static str> {
    let mut bag = Vec::new(alloc);
    for file in files {
        bag.push(part_of(alloc, 7, listing, file)?)
            .map_err(|_| "no memory")?;
    }
    Ok(bag)
}

/// The parts of the files, joined in a pseudorandom order and grouping, some of them twice: at most 60 joins, and then
/// one of all.
fn joined(
    alloc: Global,
    state: &mut u64,
    listing: bool,
    files: &[TestFile],
) -> Result<Vec<u8>, &'static str> {
    let mut bag = bag_of(alloc, listing, files)?;
    for _ in 0..60 {
        if bag.len() > 1 || next_number(state) % 3 == 0 {
            let some = some_of(alloc, state, &mut bag)?;
            let part = join_all(alloc, some.as_slice())?;
            bag.push(part).map_err(|_| "no memory")?;
        }
    }
    join_all(alloc, bag.as_slice())
}

/// The answer, for `count` files, of the part joined from the parts of `files`.
fn told_of_files(
    alloc: Global,
    state: &mut u64,
    listing: bool,
    files: &[TestFile],
    count: Option<u64>,
) -> Result<RecordingAnswer, &'static str> {
    let text = joined(alloc, state, listing, files)?;
    answer_of(alloc, text.as_slice(), count)
}

/// The part joined from two. The second is given first.
fn join_two(alloc: Global, first: Vec<u8>, second: Vec<u8>) -> Result<Vec<u8>, &'static str> {
    let mut both = Vec::new(alloc);
    both.push(second).map_err(|_| "no memory")?;
    both.push(first).map_err(|_| "no memory")?;
    join_all(alloc, both.as_slice())
}

/// The verdict of the recording of `seed`.
fn verdict_of(alloc: Global, seed: u64) -> Result<Verdict, &'static str> {
    let capture = recording(alloc, seed)?;
    verdict_by_blocks(alloc, &capture, 100)
        .ok()
        .ok_or("no verdict")
}

/// Whether the answer `told` is the verdict `verdict`.
fn is_verdict(told: &RecordingAnswer, verdict: &Verdict) -> bool {
    match (told, verdict) {
        (RecordingAnswer::Verdict(WideVerdict::Conforming), Verdict::Conforming) => true,
        (RecordingAnswer::Verdict(WideVerdict::NeverIdle), Verdict::NeverIdle) => true,
        (RecordingAnswer::Verdict(WideVerdict::Broken(a)), Verdict::Broken(b)) => {
            a.instant == u64::from(b.instant)
                && a.time == b.time
                && a.rule == b.rule
                && a.line == b.line
        }
        (RecordingAnswer::Verdict(WideVerdict::Unreadable(a)), Verdict::Unreadable(b)) => {
            a.instant == u64::from(b.instant)
                && a.time == b.time
                && a.rule == b.rule
                && a.line == b.line
        }
        _ => false,
    }
}

/// Whether the parts of the recording of `seed`, with marks (`listing`) or without, give its verdict.
fn tells_verdict(alloc: Global, seed: u64, listing: bool) -> Result<bool, &'static str> {
    let mut state = seed.wrapping_mul(77).wrapping_add(5);
    let count = 1 + below(&mut state, 9);
    let files = cut_recording(alloc, seed, &mut state, count)?;
    let verdict = verdict_of(alloc, seed)?;
    let text = joined(alloc, &mut state, listing, files.as_slice())?;
    let told = answer_of(alloc, text.as_slice(), Some(count as u64))?;
    let again = answer_of(alloc, text.as_slice(), None)?;
    Ok(is_verdict(&told, &verdict) && is_verdict(&again, &verdict))
}

/// For each cut, order, grouping and repetition, the verdict is that of the recording.
#[test]
fn every_order_tells_the_whole(rt: HostRuntime) -> Result<(), Fail> {
    let alloc = rt.alloc();
    for seed in 0..8 {
        assert!(rt; tells_verdict(alloc, seed, false)?);
        assert!(rt; tells_verdict(alloc, seed, true)?);
    }
    Ok(())
}

/// Whether two joins of the same seven files have the same bytes, and three segments: of 4, 2 and 1 files.
fn is_determined(alloc: Global, seed: u64, listing: bool) -> Result<bool, &'static str> {
    let mut state = seed;
    let files = cut_recording(alloc, seed, &mut state, 7)?;
    let one = joined(alloc, &mut state, listing, files.as_slice())?;
    let other = joined(alloc, &mut state, listing, files.as_slice())?;
    let count = segments_in(alloc, one.as_slice())?;
    Ok(one.as_slice() == other.as_slice() && count == 3)
}

/// A join is determined by what it covers: its bytes are the same for each order and grouping.
#[test]
fn a_join_is_determined_by_what_it_covers(rt: HostRuntime) -> Result<(), Fail> {
    let alloc = rt.alloc();
    for seed in 100..106 {
        assert!(rt; is_determined(alloc, seed, false)?);
        assert!(rt; is_determined(alloc, seed, true)?);
    }
    Ok(())
}

/// The files before `end` and those from `from` on, joined separately, and then together.
fn joined_runs(
    alloc: Global,
    state: &mut u64,
    files: &[TestFile],
    end: usize,
    from: usize,
) -> Result<Vec<u8>, &'static str> {
    if files.len() < end || files.len() < from {
        return Err("too few");
    }
    let first = joined(alloc, state, false, &files[..end])?;
    let second = joined(alloc, state, false, &files[from..])?;
    join_two(alloc, first, second)
}

/// Ranges of files that overlap make the whole: 0 to 5 and 3 to 8. It has two segments, of 8 files and of 1.
#[test]
fn runs_that_overlap_make_the_whole(rt: HostRuntime) -> Result<(), Fail> {
    let alloc = rt.alloc();
    let mut state = 9;
    let files = cut_recording(alloc, 1, &mut state, 9)?;
    let part = joined_runs(alloc, &mut state, files.as_slice(), 6, 3)?;
    assert_eq!(rt; segments_in(alloc, part.as_slice())?, 2);
    let told = answer_of(alloc, part.as_slice(), Some(9))?;
    let verdict = verdict_of(alloc, 1)?;
    assert!(rt; is_verdict(&told, &verdict));
    Ok(())
}

/// All files except those from `from` to before `to`, joined.
fn joined_without(
    alloc: Global,
    state: &mut u64,
    files: &[TestFile],
    from: usize,
    to: usize,
) -> Result<Vec<u8>, &'static str> {
    if files.len() < from || files.len() < to {
        return Err("too few");
    }
    if from == 0 {
        return joined(alloc, state, false, &files[to..]);
    }
    if to == files.len() {
        return joined(alloc, state, false, &files[..from]);
    }
    joined_runs(alloc, state, files, from, to)
}

/// The answer, for `count` files, of the part joined from eight files of a recording except those from `from` to before
/// `to`.
fn told_without(
    alloc: Global,
    from: usize,
    to: usize,
    count: Option<u64>,
) -> Result<RecordingAnswer, &'static str> {
    let mut state = 4;
    let files = cut_recording(alloc, 2, &mut state, 8)?;
    let text = joined_without(alloc, &mut state, files.as_slice(), from, to)?;
    answer_of(alloc, text.as_slice(), count)
}

/// Files that are missing, and files beyond the number that is asked for.
#[test]
fn what_isnt_there_is_told(rt: HostRuntime) -> Result<(), Fail> {
    let alloc = rt.alloc();
    assert_eq!(rt;
        told_without(alloc, 8, 8, Some(9))?,
        RecordingAnswer::Missing(8)
    );
    assert_eq!(rt;
        told_without(alloc, 8, 8, Some(7))?,
        RecordingAnswer::Beyond(7)
    );
    assert_eq!(rt;
        told_without(alloc, 0, 4, None)?,
        RecordingAnswer::Missing(0)
    );
    assert_eq!(rt;
        told_without(alloc, 3, 4, None)?,
        RecordingAnswer::Missing(3)
    );
    assert_eq!(rt;
        told_without(alloc, 3, 4, Some(8))?,
        RecordingAnswer::Missing(3)
    );
    assert_eq!(rt;
        told_without(alloc, 0, 8, None)?,
        RecordingAnswer::Missing(0)
    );
    assert_eq!(rt;
        told_without(alloc, 0, 8, Some(0))?,
        RecordingAnswer::Missing(0)
    );
    Ok(())
}

/// The levels that a file leaves.
fn left_by(file: &TestFile) -> Lines {
    let mut left = *file.capture.opening();
    for step in file.capture.steps() {
        left.apply(step.changes.as_slice());
    }
    left
}

/// The file `number` with the opening and the steps of `file`. If `early`, its first step is at time 3.
fn renumbered(
    alloc: Global,
    file: &TestFile,
    number: u32,
    early: bool,
) -> Result<TestFile, &'static str> {
    let mut steps = Vec::new(alloc);
    copy_steps(alloc, &mut steps, file.capture.steps())?;
    if early && !steps.is_empty() {
        steps[0].time = 3;
    }
    file_of(number, *file.capture.opening(), steps)
}

/// Adds `count` empty files after others, which leave the levels `left`.
fn add_empty(
    alloc: Global,
    files: &mut Vec<TestFile>,
    left: Lines,
    count: u32,
) -> Result<(), &'static str> {
    for number in 0..count {
        let file = file_of(number + 1, left, Vec::new(alloc))?;
        files.push(file).map_err(|_| "no memory")?;
    }
    Ok(())
}

/// The answer for the halves of a recording with `gap` empty files between them. If `early`, the second begins too
/// early.
fn told_with_gap(alloc: Global, gap: u8, early: bool) -> Result<RecordingAnswer, &'static str> {
    let mut state = 4;
    let halves = cut_recording(alloc, 3, &mut state, 2)?;
    let mut files = Vec::new(alloc);
    let (Some(first), Some(second)) = (halves.first(), halves.get(1)) else {
        return Err("too few");
    };
    files
        .push(renumbered(alloc, first, 0, false)?)
        .map_err(|_| "no memory")?;
    add_empty(alloc, &mut files, left_by(first), u32::from(gap))?;
    files
        .push(renumbered(alloc, second, u32::from(gap) + 1, early)?)
        .map_err(|_| "no memory")?;
    told_of_files(alloc, &mut state, false, files.as_slice(), None)
}

/// A step that isn't later than the one before it is torn at its file, even if empty files are between them.
#[test]
fn a_tear_in_time_is_told_at_its_file(rt: HostRuntime) -> Result<(), Fail> {
    let alloc = rt.alloc();
    assert_eq!(rt; told_with_gap(alloc, 1, true)?, RecordingAnswer::Torn(2));
    assert_eq!(rt; told_with_gap(alloc, 2, true)?, RecordingAnswer::Torn(3));
    assert!(rt; matches!(told_with_gap(alloc, 3, false)?, RecordingAnswer::Verdict(_)));
    Ok(())
}

/// `file` with the number `number`, and another level of one line in its opening.
fn torn_file(alloc: Global, file: &TestFile, number: u32) -> Result<TestFile, &'static str> {
    let line = Line::address(9);
    let mut opening = *file.capture.opening();
    if opening.has(line) {
        let level = if opening.level(line) == Level::High {
            Level::Unknown
        } else {
            Level::High
        };
        opening.set(line, level);
    }
    let mut steps = Vec::new(alloc);
    copy_steps(alloc, &mut steps, file.capture.steps())?;
    file_of(number, opening, steps)
}

/// The answer if the file `torn` opens with other levels.
fn told_with_torn(alloc: Global, torn: u32) -> Result<RecordingAnswer, &'static str> {
    let mut state = 6;
    let mut files = cut_recording(alloc, 5, &mut state, 8)?;
    if let Some(file) = files.get_mut(torn as usize) {
        *file = torn_file(alloc, file, torn)?;
    }
    told_of_files(alloc, &mut state, false, files.as_slice(), None)
}

/// A file that opens with other levels is torn, and the files around it aren't.
#[test]
fn a_tear_in_levels_is_told_at_its_file(rt: HostRuntime) -> Result<(), Fail> {
    let alloc = rt.alloc();
    for torn in 1..8 {
        let told = told_with_torn(alloc, torn)?;
        assert_eq!(rt; told, RecordingAnswer::Torn(u64::from(torn)));
    }
    Ok(())
}

/// Why the parts of two files aren't joined, if they aren't. The first has the backplane's checksum 7 and no marks, the
/// second the checksum `backplane`, and marks if `listing`.
fn why_two(
    alloc: Global,
    first: &TestFile,
    second: &TestFile,
    backplane: u64,
    listing: bool,
) -> Result<Option<JoinRefusal>, &'static str> {
    let mut parts = Vec::new(alloc);
    let one = part_of(alloc, 7, false, first)?;
    parts.push(one).map_err(|_| "no memory")?;
    let other = part_of(alloc, backplane, listing, second)?;
    parts.push(other).map_err(|_| "no memory")?;
    why_apart(alloc, parts.as_slice())
}

/// Why the parts of `first`, `second` and `other`, which has the number of `second`, aren't joined, if they aren't.
fn why_three(
    alloc: Global,
    first: &TestFile,
    second: &TestFile,
    other: &TestFile,
) -> Result<Option<JoinRefusal>, &'static str> {
    let mut parts = Vec::new(alloc);
    for file in [second, first, other] {
        let part = part_of(alloc, 7, false, file)?;
        parts.push(part).map_err(|_| "no memory")?;
    }
    why_apart(alloc, parts.as_slice())
}

/// Two files of one number are refused, though one of them follows the file before it.
#[test]
fn files_of_one_number_are_compared(rt: HostRuntime) -> Result<(), Fail> {
    let alloc = rt.alloc();
    let mut state = 8;
    let files = cut_recording(alloc, 7, &mut state, 2)?;
    let first = files.first().ok_or("no file")?;
    let second = files.get(1).ok_or("no file")?;
    let other = file_of(1, *first.capture.opening(), Vec::new(alloc))?;
    let why = why_three(alloc, first, second, &other)?;
    assert_eq!(rt; why, Some(JoinRefusal::Differs(1)));
    assert_eq!(rt; why_three(alloc, first, second, second)?, None);
    Ok(())
}

/// Parts of other backplanes, with marks and without, and that differ aren't joined. The refusal has the index of the
/// part, or the number of the file of which two parts differ.
#[test]
fn parts_that_dont_go_together_are_refused(rt: HostRuntime) -> Result<(), Fail> {
    let alloc = rt.alloc();
    let mut state = 8;
    let files = cut_recording(alloc, 7, &mut state, 2)?;
    let first = files.first().ok_or("no file")?;
    let second = files.get(1).ok_or("no file")?;
    let why = why_two(alloc, first, second, 8, false)?;
    assert_eq!(rt; why, Some(JoinRefusal::Backplane(1)));
    let why = why_two(alloc, first, second, 7, true)?;
    assert_eq!(rt; why, Some(JoinRefusal::Marks(1)));
    let other = file_of(0, *second.capture.opening(), Vec::new(alloc))?;
    let why = why_two(alloc, first, &other, 7, false)?;
    assert_eq!(rt; why, Some(JoinRefusal::Differs(0)));
    Ok(())
}

/// If a file with a number over 0 has a step at its first time, this step belongs to its opening.
#[test]
fn the_first_time_opens_a_later_file(rt: HostRuntime) -> Result<(), Fail> {
    let alloc = rt.alloc();
    let capture = recording(alloc, 9)?;
    let steps = capture.steps();
    for (number, time, dropped) in [
        (0, Some(3), 0),
        (1, Some(3), 1),
        (7, Some(2), 0),
        (7, None, 0),
    ] {
        let mut opening = *capture.opening();
        let own = steps_of_file(number, time, &mut opening, steps);
        assert_eq!(rt; own.len(), steps.len().saturating_sub(dropped));
        let is_open = opening.level(Line::AS) == Level::High;
        assert_eq!(rt; is_open, dropped == 1);
    }
    let mut opening = *capture.opening();
    assert!(rt; steps_of_file(1, Some(3), &mut opening, &[]).is_empty());
    Ok(())
}

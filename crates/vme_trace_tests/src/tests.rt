use std::alloc::Global;
use vme_test_recordings::{DUMPED, DUMPED_READ, capture_of, opening_of, push_steps, step_of};
use vme_trace::{
    Block, Capture, Class, CutFault, LINE_COUNT, Level, Line, LineSet, Lines, Rule, Step, Steps,
    am_class, am_code, is_selected, needed,
};

const AS: u8 = 0;

const DS1: u8 = 2;

const BERR: u8 = 4;

const IACK: u8 = 5;

const IACK_1: u8 = 138;

const LOW: Level = Level::Low;

const HIGH: Level = Level::High;

const UNKNOWN: Level = Level::Unknown;

/// Gives a line a level, if the line is on the backplane.
fn put(lines: &mut Lines, number: u8, level: Level) {
    if let Some(line) = Line::from_number(number) {
        if lines.has(line) {
            lines.set(line, level);
        }
    }
}

/// Every line of a backplane high.
fn high_lines(slots: u8) -> Option<Lines> {
    let mut lines = Lines::new(slots)?;
    for number in 0..LINE_COUNT {
        put(&mut lines, number, Level::High);
    }
    Some(lines)
}

/// One slot: the first six lines unknown, the address modifier 3D, the bus busy, all else high.
fn dump_lines(alloc: Global) -> Option<Lines> {
    let start = DUMPED;
    opening_of(alloc, start.slots, start.opening)
}

fn read_capture(alloc: Global) -> Option<Capture> {
    capture_of(alloc, DUMPED, DUMPED_READ)
}

/// Whether a line has a number and a name, and is found by both.
fn is_named(number: u8, name: &[u8]) -> bool {
    match Line::from_number(number) {
        Some(line) => {
            line.number() == number
                && line.name().as_bytes() == name
                && Line::from_name(name) == Some(line)
        }
        None => false,
    }
}

/// Lines by their numbers.
static NAMED: [(u8, &str); 22] = [
    (0, "AS"),
    (5, "IACK"),
    (6, "AM0"),
    (12, "LWORD"),
    (14, "A01"),
    (22, "A09"),
    (23, "A10"),
    (44, "A31"),
    (45, "BBSY"),
    (49, "BR3"),
    (50, "BG0.0"),
    (60, "BG0.10"),
    (71, "BG0.21"),
    (72, "BG1.0"),
    (137, "BG3.21"),
    (138, "IA.1"),
    (158, "IA.21"),
    (159, "D00"),
    (168, "D09"),
    (169, "D10"),
    (190, "D31"),
    (191, "SYSRESET"),
];

/// No line has one of these names.
static UNNAMED: [&str; 21] = [
    "",
    "A",
    "A00",
    "A1",
    "A001",
    "A32",
    "AM6",
    "BR4",
    "BG4.0",
    "BG0.22",
    "BG0.01",
    "IA.0",
    "IA.22",
    "D",
    "D0",
    "D32",
    "SYSRES",
    "SYSRESET*",
    "as",
    "AS ",
    "AS*",
];

#[test]
fn line_names(rt: HostRuntime) {
    for (number, name) in NAMED.iter() {
        assert!(rt; is_named(*number, name.as_bytes()), "{name}");
    }
    for name in UNNAMED.iter() {
        assert!(rt; Line::from_name(name.as_bytes()).is_none(), "{name}");
    }
}

#[test]
fn lines_by_place(rt: HostRuntime) {
    assert!(rt; Line::BERR.number() == 4 && Line::LWORD.number() == 12);
    assert!(rt; Line::WRITE.number() == 13 && Line::SYSRESET.number() == 191);
    assert!(rt; Line::address_modifier(5).number() == 11 && Line::address(31).number() == 44);
    assert!(rt; Line::bus_request(3).number() == 49 && Line::grant(3, 2).number() == 118);
    assert!(rt; Line::data(0).number() == 159 && Line::data(31).number() == 190);
    assert!(rt; Line::iack(21).number() == 158);
}

/// Whether a rule is named as its variant is, is found by that name, and is one by which a recording can't be read on
/// where its letter says so.
fn is_rule_named(alloc: Global, rule: Rule) -> bool {
    let name = rule.name();
    match format!(in alloc; "{rule:?}") {
        Ok(variant) => {
            variant.as_bytes() == name.as_bytes()
                && Rule::from_name(variant.as_bytes()) == Some(rule)
                && rule.is_unreadable() == variant.starts_with('U')
        }
        Err(_) => false,
    }
}

/// No rule has one of these names.
static NO_RULES: [&str; 9] = ["", "U", "1", "U0", "X1", "u1", "U1 ", "U01", "1U"];

#[test]
fn rule_names(rt: HostRuntime) {
    for rule in Rule::ALL {
        assert!(rt; is_rule_named(rt.alloc(), rule), "{rule:?}");
    }
    for name in NO_RULES.iter() {
        assert!(rt; Rule::from_name(name.as_bytes()).is_none(), "{name}");
    }
}

/// Lines by their numbers, whether they are on a backplane of three slots, and whether they are control lines there.
static LINES_OF_THREE_SLOTS: [(u8, bool, bool); 9] = [
    (AS, true, true),
    // LWORD*
    (12, true, false),
    // BBSY*
    (45, true, true),
    // BG0.3 and BG0.4
    (53, true, true),
    (54, false, false),
    // IA.3 and IA.4
    (140, true, true),
    (141, false, false),
    // D31
    (190, true, false),
    // SYSRESET*
    (191, true, true),
];

/// Whether a line of a backplane of three slots exists, and whether it is a control line there.
fn line_of_three_slots(number: u8) -> Option<(bool, bool)> {
    let lines = Lines::new(3)?;
    let line = Line::from_number(number)?;
    Some((lines.has(line), lines.is_control(line)))
}

#[test]
fn backplanes(rt: HostRuntime) {
    for (number, exists, control) in LINES_OF_THREE_SLOTS.iter() {
        assert!(rt; line_of_three_slots(*number) == Some((*exists, *control)));
    }
}

/// Whether two buses are the same at AS*, and at BBSY*, which is low on one of them.
fn same_at_both() -> Option<(bool, bool)> {
    let (first, mut second) = (high_lines(2)?, high_lines(2)?);
    second.set(Line::BBSY, Level::Low);
    Some((
        first.is_same_on(&second, Line::AS),
        first.is_same_on(&second, Line::BBSY),
    ))
}

#[test]
fn lines_of_two_buses_are_compared(rt: HostRuntime) {
    assert!(rt; same_at_both() == Some((true, false)));
}

/// Whether a bus of high lines stays idle where one of them gets a level.
fn is_idle_with(number: u8, level: Level) -> Option<bool> {
    let mut lines = high_lines(2)?;
    put(&mut lines, number, level);
    Some(lines.is_idle())
}

/// Lines by their numbers, and whether the bus stays idle where one is low, and where it is unknown.
static IDLE: [(u8, bool, bool); 10] = [
    (AS, false, false),
    (DS1, false, false),
    (BERR, false, false),
    (IACK, true, false),
    // AM3
    (9, true, true),
    // BBSY*
    (45, true, false),
    // BR3*
    (49, true, false),
    // BG3.2
    (118, false, false),
    (IACK_1, false, false),
    // SYSRESET*
    (191, false, false),
];

#[test]
fn idle_buses(rt: HostRuntime) {
    for (number, low, unknown) in IDLE.iter() {
        assert!(rt; is_idle_with(*number, Level::High) == Some(true));
        assert!(rt; is_idle_with(*number, Level::Low) == Some(*low));
        assert!(rt; is_idle_with(*number, Level::Unknown) == Some(*unknown));
    }
}

/// The levels of LWORD*, A01, DS0* and DS1*, and the numbers of the data lines that a transfer then moves: from the
/// first up to an end.
static MOVED: [(Level, Level, Level, Level, u8, u8); 10] = [
    (HIGH, HIGH, LOW, HIGH, 159, 167),
    (HIGH, HIGH, HIGH, LOW, 167, 175),
    (HIGH, LOW, LOW, LOW, 159, 175),
    (LOW, LOW, LOW, LOW, 159, 191),
    (HIGH, HIGH, HIGH, HIGH, 0, 0),
    (LOW, LOW, LOW, HIGH, 0, 0),
    (LOW, LOW, HIGH, LOW, 0, 0),
    (LOW, HIGH, LOW, LOW, 0, 0),
    (LOW, UNKNOWN, LOW, LOW, 0, 0),
    (UNKNOWN, LOW, LOW, LOW, 0, 0),
];

/// Whether a transfer moves just the lines with the numbers from `first` on and before `end`.
fn moves(lines: &Lines, first: u8, end: u8) -> bool {
    for number in 0..LINE_COUNT {
        let is_moved = match Line::from_number(number) {
            Some(line) => is_selected(lines, line),
            None => false,
        };
        if is_moved != (first <= number && number < end) {
            return false;
        }
    }
    true
}

/// All lines of one slot high, but for LWORD*, A01, DS0* and DS1*.
fn strobed(lword: Level, a01: Level, ds0: Level, ds1: Level) -> Option<Lines> {
    let mut lines = high_lines(1)?;
    lines.set(Line::LWORD, lword);
    lines.set(Line::address(1), a01);
    lines.set(Line::DS0, ds0);
    lines.set(Line::DS1, ds1);
    Some(lines)
}

/// Whether a transfer with these levels moves just the lines with the numbers from `first` on and before `end`.
fn strobed_moves(levels: (Level, Level, Level, Level), first: u8, end: u8) -> bool {
    match strobed(levels.0, levels.1, levels.2, levels.3) {
        Some(lines) => moves(&lines, first, end),
        None => false,
    }
}

#[test]
fn moved_data_lines(rt: HostRuntime) {
    for (lword, a01, ds0, ds1, first, end) in MOVED.iter() {
        let levels = (*lword, *a01, *ds0, *ds1);
        assert!(rt; strobed_moves(levels, *first, *end), "{first}");
    }
}

/// All lines of one slot high, but for the bits of an address modifier code that are 0.
fn lines_of_code(code: u8) -> Option<Lines> {
    let mut lines = high_lines(1)?;
    for bit in 0..6 {
        if code >> bit & 1 == 0 {
            lines.set(Line::address_modifier(bit), Level::Low);
        }
    }
    Some(lines)
}

/// The highest address line of a set, or 0.
fn highest_address_of(set: &LineSet) -> u8 {
    let mut highest = 0;
    for bit in 1..32 {
        if set.has(Line::address(bit)) {
            highest = bit;
        }
    }
    highest
}

/// Codes, the class of each, and the highest address line that is needed by it.
static CLASSES: [(u8, Class, u8); 6] = [
    (0x09, Class::S, 31),
    (0x0B, Class::K, 31),
    (0x10, Class::F, 0),
    (0x29, Class::S, 15),
    (0x3D, Class::S, 23),
    (0x3F, Class::K, 23),
];

/// The class of lines, whether LWORD* is needed there, and the highest address line that is.
fn class_and_needed(lines: &Lines) -> (Class, bool, u8) {
    let set = needed(lines);
    (
        am_class(lines),
        set.has(Line::LWORD),
        highest_address_of(&set),
    )
}

/// Whether the lines of a code have that code, this class, and this highest address line that is needed.
fn has_class(code: u8, class: Class, highest: u8) -> bool {
    match lines_of_code(code) {
        Some(lines) => {
            am_code(&lines) == code && class_and_needed(&lines) == (class, true, highest)
        }
        None => false,
    }
}

#[test]
fn classes(rt: HostRuntime) {
    for (code, class, highest) in CLASSES.iter() {
        assert!(rt; has_class(*code, *class, *highest));
    }
}

/// The class of code 3D with a bit that is unknown where IACK* is on a level, whether LWORD* is needed, and the highest
/// address line that is.
fn class_of_unknown_code(iack: Level) -> Option<(Class, bool, u8)> {
    let mut lines = lines_of_code(0x3D)?;
    lines.set(Line::address_modifier(3), Level::Unknown);
    lines.set(Line::IACK, iack);
    Some(class_and_needed(&lines))
}

#[test]
fn acknowledge_class(rt: HostRuntime) {
    assert!(rt; matches!(class_of_unknown_code(Level::High), Some((Class::F, _, _))));
    assert!(rt; class_of_unknown_code(Level::Low) == Some((Class::I, false, 3)));
}

/// A step after those of the read, its time and its words, and whether it is malformed there.
static BEHIND: [(u64, &str, bool); 8] = [
    (60, "AS=0", false),
    (50, "AS=0", true),
    (60, "", true),
    (60, "AS=1", true),
    (60, "DS0=0 AS=0", true),
    (60, "AS=0 AS=1", true),
    (60, "AS=0 IA.2=0", true),
    (60, "AS=0 IA.1=0", false),
];

/// The steps of the read, and one after them.
fn read_and(alloc: Global, lines: &Lines, time: u64, words: &str) -> Option<Vec<Step>> {
    let mut steps = Vec::new(alloc);
    push_steps(alloc, &mut steps, lines, DUMPED_READ)?;
    steps.push(step_of(alloc, lines, time, words)?).ok()?;
    Some(steps)
}

/// Which step is named as malformed, by a block and by a capture.
fn malformed_in(opening: Lines, steps: Vec<Step>) -> (Option<usize>, Option<usize>) {
    let block = Block {
        number: 7,
        opening,
        steps: Steps::new(steps),
    };
    let named = block.check().err().map(|fault| fault.step);
    match Capture::new(opening, block.steps.into_inner()) {
        Ok(_) => (named, None),
        Err((_, fault)) => (named, Some(fault.step)),
    }
}

/// Which step is named as malformed, by a block and by a capture, where the step of `words` follows those of the read.
fn malformed_behind(
    alloc: Global,
    time: u64,
    words: &str,
) -> Option<(Option<usize>, Option<usize>)> {
    let opening = dump_lines(alloc)?;
    let steps = read_and(alloc, &opening, time, words)?;
    Some(malformed_in(opening, steps))
}

#[test]
fn malformed_steps(rt: HostRuntime) {
    for (time, words, is_malformed) in BEHIND.iter() {
        let wrong = if *is_malformed { Some(6) } else { None };
        assert!(rt; malformed_behind(rt.alloc(), *time, words) == Some((wrong, wrong)));
    }
}

/// Whether the blocks have these numbers, and first steps at these times.
fn begin_so(blocks: &[Block], firsts: &[(u32, u64)]) -> bool {
    for (block, (number, time)) in blocks.iter().zip(firsts.iter()) {
        let is_so = match block.steps.as_slice().first() {
            Some(first) => block.number == *number && first.time == *time,
            None => false,
        };
        if !is_so {
            return false;
        }
    }
    blocks.len() == firsts.len()
}

/// Whether the blocks were made, have these numbers and times of their first steps, and can each be copied.
fn are_cut_and_copied(
    alloc: Global,
    blocks: Result<Vec<Block>, CutFault>,
    firsts: &[(u32, u64)],
) -> bool {
    match blocks {
        Ok(blocks) => {
            begin_so(blocks.as_slice(), firsts) && are_copied(alloc, blocks.as_slice())
        }
        Err(_) => false,
    }
}

/// Whether each block can be copied.
fn are_copied(alloc: Global, blocks: &[Block]) -> bool {
    for block in blocks {
        if block.copy(alloc).is_err() {
            return false;
        }
    }
    true
}

/// Numbers of blocks, and the times of their first steps.
static FIRSTS: [(u32, u64); 2] = [(0, 0), (1, 40)];

/// Whether the read is cut into blocks of four steps, each of which can be copied.
fn is_read_cut(alloc: Global) -> Option<bool> {
    let blocks = read_capture(alloc)?.cut(alloc, 4);
    Some(are_cut_and_copied(alloc, blocks, FIRSTS.as_slice()))
}

#[test]
fn blocks_of_a_read(rt: HostRuntime) {
    assert!(rt; is_read_cut(rt.alloc()) == Some(true));
}

/// A recording of `count` steps, at which AS rises and falls in turn.
fn toggles(alloc: Global, count: u64) -> Option<Capture> {
    let opening = dump_lines(alloc)?;
    let mut steps = Vec::new(alloc);
    for time in 0..count {
        let words = if time % 2 == 0 { "AS=1" } else { "AS=0" };
        steps.push(step_of(alloc, &opening, time, words)?).ok()?;
    }
    Capture::new(opening, steps).ok()
}

/// How many blocks of `size` steps a recording of `count` steps is cut into, or why it isn't cut.
fn cut_of(alloc: Global, count: u64, size: u32) -> Option<Result<usize, CutFault>> {
    let capture = toggles(alloc, count)?;
    match capture.cut(alloc, size) {
        Ok(blocks) => Some(Ok(blocks.len())),
        Err(fault) => Some(Err(fault)),
    }
}

/// Whether a recording of `count` steps is cut into `wanted` blocks of `size` steps.
fn is_cut_into(alloc: Global, count: u64, size: u32, wanted: usize) -> bool {
    match cut_of(alloc, count, size) {
        Some(Ok(blocks)) => blocks == wanted,
        _ => false,
    }
}

/// Whether a recording of `count` steps isn't cut into blocks of `size` steps, for the fault `wanted`.
fn is_not_cut_for(alloc: Global, count: u64, size: u32, wanted: CutFault) -> bool {
    match cut_of(alloc, count, size) {
        Some(Err(fault)) => fault == wanted,
        _ => false,
    }
}

/// How many steps a recording has, the size of its blocks, and how many blocks there are.
static CUT: [(u64, u32, usize); 4] = [
    (4096, 1, 4096),
    (4097, 2, 2049),
    (4097, 65536, 1),
    (0, 1, 1),
];

/// How many steps a recording has, the size of its blocks, and why it isn't cut.
static NOT_CUT: [(u64, u32, CutFault); 4] = [
    (4097, 1, CutFault::TooManyBlocks),
    (4097, 0, CutFault::BadSize),
    (4097, 65537, CutFault::BadSize),
    (0, 0, CutFault::BadSize),
];

/// Blocks have 1 to 65,536 steps, and there are 4,096 of them at most. Without steps there is one.
#[test]
fn cuts(rt: HostRuntime) {
    for (count, size, blocks) in CUT.iter() {
        assert!(rt; is_cut_into(rt.alloc(), *count, *size, *blocks));
    }
    for (count, size, fault) in NOT_CUT.iter() {
        assert!(rt; is_not_cut_for(rt.alloc(), *count, *size, *fault));
    }
}

/// Whether a cut makes `count` blocks, or memory is refused.
fn is_cut_or_refused(alloc: Global, capture: &Capture, size: u32, count: usize) -> bool {
    match capture.cut(alloc, size) {
        Ok(blocks) => blocks.len() == count,
        Err(fault) => fault == CutFault::Memory,
    }
}

/// Whether each copy that is made is of a block of one step.
fn are_copied_or_refused(alloc: Global, blocks: &[Block]) -> bool {
    for block in blocks {
        let is_so = match block.copy(alloc) {
            Ok(copy) => copy.steps.as_slice().len() == 1,
            Err(_) => true,
        };
        if !is_so {
            return false;
        }
    }
    true
}

/// Whether a cut into blocks of one step makes six of them, and copies of one step, or memory is refused.
fn are_singles_or_refused(alloc: Global, capture: &Capture) -> bool {
    match capture.cut(alloc, 1) {
        Ok(blocks) => blocks.len() == 6 && are_copied_or_refused(alloc, blocks.as_slice()),
        Err(fault) => fault == CutFault::Memory,
    }
}

/// Whether cuts and copies of the read are right, or memory is refused.
fn is_cut_right_or_refused(alloc: Global) -> bool {
    match read_capture(alloc) {
        Some(capture) => {
            is_cut_or_refused(alloc, &capture, 4, 2) && are_singles_or_refused(alloc, &capture)
        }
        None => true,
    }
}

/// Where memory is refused, a cut and a copy say so, and nothing else. (Run with each allocation refused in turn.)
#[test]
fn refused_memory(rt: HostRuntime) {
    assert!(rt; is_cut_right_or_refused(rt.alloc()));
}

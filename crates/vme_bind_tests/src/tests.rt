ghost use Rattle.std.specs.Prelude.{◌≡◌, []};

use std::alloc::{AllocError, Global};
use std::process::Abort;
use std::test::Fail;
use vcd_read::{FaultKind, Stopped, VcdFault, read_vcd};
use vme_bind::{
    BindFault, BindFaultKind, Binding, CaptureFault, DumpReader, SpeculativeReader, StepCollector,
    TextReader, read_binding,
};
use vme_test_recordings::{BUS_BINDING, write_steps};
use vme_trace::{Capture, Level, Line, Lines, Step, StepVisitor};

/// The declarations of the variables of `BUS_BINDING`, except AS.
const DECLARED: &str = "\
$var wire 1 q DS0 $end
$var wire 1 r DS1 $end
$var wire 1 s DTACK $end
$var wire 1 t BERR $end
$var wire 1 u IACK $end
$upscope $end
$enddefinitions $end
";

/// The scope of those variables, in which AS is declared.
const BUS: &str = "$scope module bus $end\n$var wire 1 p AS $end\n";

/// A read of the bus.
const READ: &str = "\
#0 1p 1q 1r 1s 1t 1u
#10 0p
#20 0q
#30 0s
#40 1p 1q
#50 1s
";

/// The steps of that read.
const READ_STEPS: &str = "\
#0 AS=1 DS0=1 DS1=1 DTACK=1 BERR=1 IACK=1
#10 AS=0
#20 DS0=0
#30 DTACK=0
#40 AS=1 DS0=1
#50 DTACK=1
";

/// The binding of the lines that the vectors below don't have.
const UNVECTORED_LINES: &str = "\
DS0 = 1
DS1 = 1
DTACK = 1
BERR = 1
IACK = 1
AM = 1
LWORD = 1
WRITE = 1
A = 1
BBSY = 1
BG1 = 1
BG2 = 1
BG3 = 1
IA = 1
";

/// Vectors with their indices down and up.
const VECTORS: &str = "\
$var wire 8 d down [7:0] $end
$var wire 4 u up [0:3] $end
$var wire 2 g grants $end
$enddefinitions $end
#5 b10010110 d b0011 u bz0 g
#6 bzzz0zzzz d b01xz u bz g
";

/// What the binding of the bus has after its lines, what the dump declares after AS, its changes, and the steps of the
/// recording.
static BUS_RECORDINGS: [(&str, &str, &str, &str); 5] = [
    ("", "", READ, READ_STEPS),
    (
        "D = bus.D\n",
        "$var wire 32 d D $end\n",
        "#1 1p b0 d #2 b100x d #3 bz1 d",
        "#1 AS=1 D00=0 D01=0 D02=0 D03=0 D04=0 D05=0 D06=0 D07=0 D08=0 D09=0 D10=0 D11=0 D12=0 D13=0 D14=0 \
        D15=0 D16=0 D17=0 D18=0 D19=0 D20=0 D21=0 D22=0 D23=0 D24=0 D25=0 D26=0 D27=0 D28=0 D29=0 D30=0 D31=0\n\
        #2 D00=x D03=1\n\
        #3 D00=1 D01=1 D02=1 D04=1 D05=1 D06=1 D07=1 D08=1 D09=1 D10=1 D11=1 D12=1 D13=1 D14=1 D15=1 D16=1 \
        D17=1 D18=1 D19=1 D20=1 D21=1 D22=1 D23=1 D24=1 D25=1 D26=1 D27=1 D28=1 D29=1 D30=1 D31=1\n",
    ),
    (
        "SYSRESET = bus.RESET\n",
        "$var wire 1 e RESET $end\n",
        "#1 1p 1e #2 0e #3 ze #4 xe #5 1e",
        "#1 AS=1 SYSRESET=1\n#2 SYSRESET=0\n#3 SYSRESET=1\n#4 SYSRESET=x\n#5 SYSRESET=1\n",
    ),
    (
        "",
        "$var wire 1 p AS2 $end $var wire 1 p AS $end\n",
        READ,
        READ_STEPS,
    ),
    (
        "",
        "",
        "#0 1p 1q #1 1p #2 #3 0p 1p #4 0q 0p #5 xp bx q",
        "#0 AS=1 DS0=1\n#4 AS=0 DS0=0\n#5 AS=x DS0=x\n",
    ),
];

/// The bits of AS, those of BR, and the steps of the recording.
static VECTOR_RECORDINGS: [(&str, &str, &str); 3] = [
    (
        "down[7]",
        "down[4:1]",
        "#5 AS=1 BR0=1 BR1=1 BR2=0 BR3=1 BG0.0=0\n#6 BR2=1 BR3=0 BG0.0=x\n",
    ),
    (
        "up[1]",
        "up",
        "#5 AS=0 BR0=1 BR1=1 BR2=0 BR3=0 BG0.0=0\n#6 AS=1 BR1=x BR2=1 BG0.0=x\n",
    ),
    (
        "up[3:3]",
        "up[0:3]",
        "#5 AS=1 BR0=1 BR1=1 BR2=0 BR3=0 BG0.0=0\n#6 BR1=x BR2=1 BG0.0=x\n",
    ),
];

/// The path of AS, and the declarations of a dump in which it is p: a path may be split into scopes anywhere.
static PATHS: [(&str, &str); 12] = [
    (
        "a.b.c",
        "$scope module a $end $scope begin b $end $var wire 1 p c $end",
    ),
    ("a.b.c", "$scope module a.b $end $var wire 1 p c $end"),
    ("a.b.c", "$scope module a $end $var wire 1 p b.c $end"),
    ("a.b.c", "$var wire 1 p a.b.c $end"),
    (
        "a.b.c",
        "$scope module $end $scope module a $end $scope $end $scope module b $end $scope module $end $var wire 1 \
                p c $end",
    ),
    ("a.b.c", "$scope module a . b $end $var wire 1 p c $end"),
    (
        "a.b",
        "$scope module a $end $scope module b $end $upscope $end $var wire 1 p b $end",
    ),
    (
        "a.b",
        "$scope module a $end $upscope $end $scope module a $end $var wire 1 p b $end",
    ),
    (
        "a.b",
        "$scope module aa $end $var wire 1 q b $end $upscope $end $scope module a $end $var wire 1 p b $end $var \
                wire 1 q bb $end",
    ),
    (
        "a.b",
        "$scope module a $end $scope module a $end $var wire 1 q b $end $upscope $end $var wire 1 p b $end \
                $upscope $end $var wire 1 q b $end",
    ),
    ("a..b", "$scope module a. $end $var wire 1 p b $end"),
    (
        ".b",
        "$scope module . $end $var wire 1 q b $end $upscope $end $var wire 1 p .b $end",
    ),
];

/// The other lines of a binding of AS to a path.
const ONES: &str = "\nBR = 1\nBG0 = 1\n";

/// The variable with the code p falls.
const FALLS: &str = " $enddefinitions $end #1 1p #2 0p";

/// The texts of a list, one after the other.
fn together(alloc: Global, parts: &[&str]) -> Result<Vec<u8>, AllocError> {
    let mut text = Vec::new(alloc);
    for part in parts {
        text.extend_from_slice(part.as_bytes())?;
    }
    Ok(text)
}

fn bound(alloc: Global, parts: &[&str]) -> Option<Binding> {
    let text = together(alloc, parts).ok()?;
    read_binding(alloc, text.as_slice()).ok()
}

fn captured(alloc: Global, binding: &[&str], dump: &[&str]) -> Option<Capture> {
    let binding = bound(alloc, binding)?;
    let text = together(alloc, dump).ok()?;
    binding.capture_text(alloc, text.as_slice()).ok()
}

/// The recording that a binding makes of a dump that was read before.
fn captured_by_dump(alloc: Global, binding: &[&str], dump: &[&str]) -> Option<Capture> {
    let binding = bound(alloc, binding)?;
    let text = together(alloc, dump).ok()?;
    let dump = read_vcd(alloc, text.as_slice()).ok()?;
    binding.capture(alloc, &dump).ok()
}

/// The steps of a recording, a line each.
fn written(alloc: Global, steps: &[Step]) -> Result<Vec<u8>, AllocError> {
    let mut text = Vec::new(alloc);
    write_steps(alloc, &mut text, steps)?;
    Ok(text)
}

/// Whether the steps are written as `wanted`.
fn are_written(alloc: Global, steps: &[Step], wanted: &str) -> bool {
    match written(alloc, steps) {
        Ok(text) => text.as_slice() == wanted.as_bytes(),
        Err(_) => false,
    }
}

/// Whether there is a recording, whose steps are written as `wanted`.
fn is_written(alloc: Global, capture: Option<Capture>, wanted: &str) -> bool {
    match capture {
        Some(capture) => are_written(alloc, capture.steps(), wanted),
        None => false,
    }
}

#[test]
fn recordings_of_the_bus(rt: HostRuntime) {
    for (more, declared, changes, wanted) in BUS_RECORDINGS.iter() {
        let dump = [BUS, *declared, DECLARED, *changes];
        let capture = captured(rt.alloc(), &[BUS_BINDING, *more], &dump);
        assert!(rt; is_written(rt.alloc(), capture, wanted), "not {wanted}");
    }
}

#[test]
fn a_dump_that_was_read_is_recorded(rt: HostRuntime) {
    let capture = captured_by_dump(rt.alloc(), &[BUS_BINDING], &[BUS, DECLARED, READ]);
    assert!(rt; is_written(rt.alloc(), capture, READ_STEPS));
}

/// The parts of a binding of AS and BR to bits of vectors.
fn to_vectors<'a>(strobe: &'a str, requests: &'a str) -> [&'a str; 6] {
    [
        "slots 1\nAS = ",
        strobe,
        "\nBR = ",
        requests,
        "\nBG0 = grants\n",
        UNVECTORED_LINES,
    ]
}

/// The parts of a binding of AS to a path.
fn to_path(path: &str) -> [&str; 4] {
    ["slots 1\nAS = ", path, ONES, UNVECTORED_LINES]
}

#[test]
fn recordings_of_vectors(rt: HostRuntime) {
    for (strobe, requests, wanted) in VECTOR_RECORDINGS.iter() {
        let capture = captured(rt.alloc(), &to_vectors(strobe, requests), &[VECTORS]);
        assert!(rt; is_written(rt.alloc(), capture, wanted), "not {wanted}");
    }
}

#[test]
fn recordings_by_paths(rt: HostRuntime) {
    for (path, header) in PATHS.iter() {
        let capture = captured(rt.alloc(), &to_path(path), &[*header, FALLS]);
        let wanted = "#1 AS=1\n#2 AS=0\n";
        assert!(rt; is_written(rt.alloc(), capture, wanted), "{header}");
    }
}

/// What the binding has after its lines, a line, and the level that it opens with.
static OPENINGS: [(&str, &str, Level); 9] = [
    ("", "AS", Level::Unknown),
    ("", "BBSY", Level::Low),
    ("", "AM1", Level::Low),
    ("", "IA.1", Level::High),
    // a system reset that is left out is high
    ("", "SYSRESET", Level::High),
    ("D = 0\n", "SYSRESET", Level::High),
    ("SYSRESET = 0\n", "SYSRESET", Level::Low),
    ("SYSRESET = 1\n", "SYSRESET", Level::High),
    ("SYSRESET = x\n", "SYSRESET", Level::Unknown),
];

fn level_of(lines: &Lines, name: &str) -> Option<Level> {
    let line = Line::from_name(name.as_bytes())?;
    if !lines.has(line) {
        return None;
    }
    Some(lines.level(line))
}

fn has_data_high(lines: &Lines) -> bool {
    for bit in 0..32 {
        if lines.level(Line::data(bit)) != Level::High {
            return false;
        }
    }
    true
}

/// The level of a line in the opening, where the binding has more lines.
fn opening_level(alloc: Global, more: &str, name: &str) -> Option<Level> {
    let capture = captured(alloc, &[BUS_BINDING, more], &[BUS, DECLARED, READ])?;
    level_of(capture.opening(), name)
}

#[test]
fn openings(rt: HostRuntime) {
    for (more, name, level) in OPENINGS.iter() {
        let found = opening_level(rt.alloc(), more, name);
        assert!(rt; found == Some(*level), "{name} {more}");
    }
}

#[test]
fn data_lines_that_are_left_out_are_high(rt: HostRuntime) {
    let is_so = match captured(rt.alloc(), &[BUS_BINDING], &[BUS, DECLARED, READ]) {
        Some(capture) => capture.opening().slots() == 1 && has_data_high(capture.opening()),
        None => false,
    };
    assert!(rt; is_so);
}

/// Texts, and their first faults.
static FAULTS: [(&str, &str); 13] = [
    ("AS = 0", "binding line 1: SlotsFirst"),
    ("slots 22", "binding line 1: SlotsFirst"),
    ("slots 0", "binding line 1: SlotsFirst"),
    ("slots 01", "binding line 1: SlotsFirst"),
    ("slots 1 1", "binding line 1: SlotsFirst"),
    ("\n# no slots\n", "binding line 3: SlotsFirst"),
    ("slots 1\nBG0.2 = 1", "binding line 2: UnknownName"),
    ("slots 1\nAS 0", "binding line 2: BadLine"),
    ("slots 1\nAS = 0 1", "binding line 2: BadLine"),
    ("slots 1\nAM = 1\nAM3 = 0", "binding line 3: NamedTwice"),
    ("slots 1", "binding line 1: Unbound AS"),
    ("\t slots\t1 \r\n\n", "binding line 3: Unbound AS"),
    ("slots 1\r", "binding line 1: SlotsFirst"),
];

/// What the binding has after the lines of the bus, and the first fault.
static MORE_FAULTS: [(&str, &str); 4] = [
    ("D00 = 1\n", "binding line 25: Unbound D01"),
    ("D = 1\nD31 = 1\n", "binding line 25: NamedTwice"),
    ("D32 = 1\n", "binding line 24: UnknownName"),
    (
        "SYSRESET = bus.RESET\nSYSRESET = 1\n",
        "binding line 25: NamedTwice",
    ),
];

/// The first fault of a text, as it is shown.
fn fault_of(alloc: Global, parts: &[&str]) -> Option<String> {
    let text = together(alloc, parts).ok()?;
    let fault = read_binding(alloc, text.as_slice()).err()?;
    format!(in alloc; "{fault}").ok()
}

/// Whether the first fault of a text is `wanted`.
fn has_fault(alloc: Global, parts: &[&str], wanted: &str) -> bool {
    match fault_of(alloc, parts) {
        Some(found) => found.as_str() == wanted,
        None => false,
    }
}

#[test]
fn faults_of_bindings(rt: HostRuntime) {
    for (text, wanted) in FAULTS.iter() {
        assert!(rt; has_fault(rt.alloc(), &[*text], wanted), "not {wanted}");
    }
}

#[test]
fn faults_behind_the_lines_of_the_bus(rt: HostRuntime) {
    for (more, wanted) in MORE_FAULTS.iter() {
        assert!(rt;
            has_fault(rt.alloc(), &[BUS_BINDING, *more], wanted),
            "not {wanted}"
        );
    }
}

/// The bits of AS, those of BR, and the first fault by the lines of the binding.
static NO_VECTORS: [(&str, &str, &str); 7] = [
    ("down", "none", "binding line 2: WrongWidth"),
    ("down[8]", "up", "binding line 2: NoSuchPath"),
    ("up[0]", "up[3:0]", "binding line 3: NoSuchPath"),
    ("up[0]", "down[4:2]", "binding line 3: WrongWidth"),
    ("grants[0]", "up", "binding line 2: NoSuchPath"),
    ("X", "up", "binding line 2: NoSuchPath"),
    ("[3]", "up", "binding line 2: NoSuchPath"),
];

/// The path of AS, the declarations of a dump, and the first fault by the lines of the binding.
static NO_PATHS: [(&str, &str, &str); 8] = [
    (
        "a.b",
        "$scope module a $end $upscope $end $var wire 1 p b $end",
        "binding line 2: NoSuchPath",
    ),
    (
        "a.b",
        "$scope module a $end $scope module b $end $var wire 1 p b $end",
        "binding line 2: NoSuchPath",
    ),
    (
        "a.b",
        "$scope module a $end $var wire 1 p bb $end",
        "binding line 2: NoSuchPath",
    ),
    (
        "a.b",
        "$scope module a $end $var wire 1 p b $end $upscope $end $scope module a $end $var wire 1 q b $end",
        "binding line 2: AmbiguousPath",
    ),
    (
        "a.b",
        "$scope module a $end $var wire 1 p b $end $upscope $end $var wire 1 q a.b $end",
        "binding line 2: AmbiguousPath",
    ),
    (
        "a.b",
        "$scope module a $end $var wire 1 q b $end $var wire 1 p b $end $var wire 1 q b $end",
        "binding line 2: AmbiguousPath",
    ),
    (
        "a.b",
        "$scope module a $end $var wire 2 p b [1:0] $end",
        "binding line 2: WrongWidth",
    ),
    (
        "a.b[2]",
        "$scope module a $end $var wire 2 p b [1:0] $end",
        "binding line 2: NoSuchPath",
    ),
];

fn shown_fault(alloc: Global, fault: CaptureFault) -> Result<String, AllocError> {
    match fault {
        CaptureFault::Binding(fault) => format!(in alloc; "{fault}"),
        CaptureFault::Dump(fault) => format!(in alloc; "{fault}"),
    }
}

/// Why the text of a dump makes no recording.
fn fault_with(alloc: Global, binding: &Binding, text: &[u8]) -> Option<String> {
    let fault = binding.capture_text(alloc, text).err()?;
    shown_fault(alloc, fault).ok()
}

/// Why a dump that was read before makes no recording.
fn lacked_by_dump(alloc: Global, binding: &Binding, text: &[u8]) -> Option<String> {
    let dump = read_vcd(alloc, text).ok()?;
    let fault = binding.capture(alloc, &dump).err()?;
    format!(in alloc; "{fault}").ok()
}

/// Whether a binding has the fault `wanted` with the text of a dump.
fn has_fault_in(alloc: Global, binding: &Binding, text: &[u8], wanted: &str) -> bool {
    match fault_with(alloc, binding, text) {
        Some(found) => found.as_str() == wanted,
        None => false,
    }
}

/// Whether a binding has the fault `wanted` with a dump that was read before.
fn dump_lacks(alloc: Global, binding: &Binding, text: &[u8], wanted: &str) -> bool {
    match lacked_by_dump(alloc, binding, text) {
        Some(found) => found.as_str() == wanted,
        None => false,
    }
}

/// Whether a binding has the fault `wanted` with a dump that was read before, and with its text.
fn has_fault_with(alloc: Global, binding: &[&str], dump: &[&str], wanted: &str) -> bool {
    match (bound(alloc, binding), together(alloc, dump)) {
        (Some(binding), Ok(text)) => {
            has_fault_in(alloc, &binding, text.as_slice(), wanted)
                && dump_lacks(alloc, &binding, text.as_slice(), wanted)
        }
        _ => false,
    }
}

#[test]
fn what_dumps_of_the_bus_lack(rt: HostRuntime) {
    let alloc = rt.alloc();
    let wanted = "binding line 24: NoSuchPath";
    let more = "SYSRESET = bus.RESET\n";
    assert!(rt; has_fault_with(alloc, &[BUS_BINDING, more], &[BUS, DECLARED, READ], wanted));
    let wanted = "binding line 2: NoSuchPath";
    let dump = ["$scope module bus $end\n", DECLARED];
    assert!(rt; has_fault_with(alloc, &[BUS_BINDING], &dump, wanted));
    let wanted = "binding line 2: AmbiguousPath";
    let other = "$var wire 1 v AS $end\n";
    assert!(rt; has_fault_with(alloc, &[BUS_BINDING], &[BUS, other, DECLARED], wanted));
}

#[test]
fn what_dumps_of_vectors_lack(rt: HostRuntime) {
    for (strobe, requests, wanted) in NO_VECTORS.iter() {
        let binding = to_vectors(strobe, requests);
        assert!(rt;
            has_fault_with(rt.alloc(), &binding, &[VECTORS], wanted),
            "{strobe}"
        );
    }
}

#[test]
fn paths_that_dumps_lack(rt: HostRuntime) {
    for (path, header, wanted) in NO_PATHS.iter() {
        let dump = [*header, " $enddefinitions $end"];
        assert!(rt;
            has_fault_with(rt.alloc(), &to_path(path), &dump, wanted),
            "{header}"
        );
    }
}

/// A binding of 21 slots with a million lines that are empty.
fn many_lines(alloc: Global) -> Option<Vec<u8>> {
    let mut text = Vec::new(alloc);
    text.extend_from_slice(b"slots 21\n").ok()?;
    for _ in 0..1_000_000 {
        text.push(b'\n').ok()?;
    }
    Some(text)
}

#[test]
fn lines_are_counted_to_a_million(rt: HostRuntime) {
    let unbound = BindFault {
        line: 1_000_002,
        kind: BindFaultKind::Unbound(Line::AS),
    };
    let found = match many_lines(rt.alloc()) {
        Some(text) => read_binding(rt.alloc(), &text).err(),
        None => None,
    };
    assert!(rt; found == Some(unbound));
}

/// The text of a dump whose last line is bad.
const BROKEN: &[u8] = b"$enddefinitions $end\n#1\n2p";

#[test]
fn a_fault_of_the_dump_comes_before_one_of_the_binding(rt: HostRuntime) {
    let Some(binding) = bound(rt.alloc(), &[BUS_BINDING]) else {
        panic!(rt; "no binding")
    };
    let (alloc, wanted) = (rt.alloc(), "dump line 3: BadToken");
    assert!(rt; has_fault_in(alloc, &binding, BROKEN, wanted));
    let wanted = "binding line 2: NoSuchPath";
    assert!(rt; has_fault_in(alloc, &binding, &BROKEN[..23], wanted));
}

#[test]
fn a_fault_is_shown_with_its_line(rt: HostRuntime) -> Result<(), Fail> {
    let kind = BindFaultKind::Unbound(Line::iack(1));
    let fault = BindFault { line: 3, kind };
    let shown = format!(in rt.alloc(); "{fault}")?;
    assert!(rt; shown.as_str() == "binding line 3: Unbound IA.1");
    Ok(())
}

/// Whether `text` is a binding if `binds_all`, or else has a fault that isn't want of memory.
fn is_binding_only_if(alloc: Global, text: &[u8], binds_all: bool) -> bool {
    match read_binding(alloc, text).err() {
        None => binds_all,
        Some(fault) => !binds_all && fault.kind != BindFaultKind::Memory,
    }
}

/// A prefix of a binding that lacks more than the last line feed doesn't bind all lines.
#[test]
fn every_prefix_of_a_binding_has_a_fault_unless_it_binds_all(rt: HostRuntime) {
    let text = BUS_BINDING.as_bytes();
    for end in 0..text.len() {
        let binds_all = end + 1 == text.len();
        assert!(rt;
            is_binding_only_if(rt.alloc(), &text[..end], binds_all),
            "at {end}"
        );
    }
}

/// Run with each allocation refused in turn, this shows that the answer is then want of memory.
#[test]
fn want_of_memory_is_the_fault(rt: HostRuntime) {
    let memory = BindFault {
        line: 0,
        kind: BindFaultKind::Memory,
    };
    let Ok(text) = together(rt.alloc(), &[BUS, DECLARED, READ]) else {
        return;
    };
    let Ok(dump) = read_vcd(rt.alloc(), text.as_slice()) else {
        return;
    };
    match read_binding(rt.alloc(), BUS_BINDING.as_bytes()) {
        Ok(binding) => match binding.capture(rt.alloc(), &dump) {
            Ok(capture) => assert_eq!(rt; capture.steps().len(), 6),
            Err(fault) => assert!(rt; fault == memory, "{fault}"),
        },
        Err(fault) => assert!(rt; fault == memory, "{fault}"),
    }
}

/// Run with each allocation refused in turn, this shows that want of memory is the fault where the text is read.
#[test]
fn want_of_memory_at_a_text_is_the_fault(rt: HostRuntime) {
    let Ok(text) = together(rt.alloc(), &[BUS, DECLARED, READ]) else {
        return;
    };
    let Ok(binding) = read_binding(rt.alloc(), BUS_BINDING.as_bytes()) else {
        return;
    };
    match binding.capture_text(rt.alloc(), text.as_slice()) {
        Ok(capture) => assert_eq!(rt; capture.steps().len(), 6),
        Err(CaptureFault::Binding(fault)) => assert!(rt; fault.kind == BindFaultKind::Memory),
        Err(CaptureFault::Dump(fault)) => assert!(rt; fault.kind == FaultKind::Memory),
    }
}

/// The same reference; its type may be shared between threads.
fn shared<T: Sync>(value: &T) -> &T
    ensures { result.now ≡ value.now }
{
    value
}

/// The same value; its type may be sent to another thread.
fn sent<T: Send>(value: T) -> T
    ensures { result ≡ value }
{
    value
}

/// A recording without steps.
fn none_kept(alloc: Global, opening: Lines) -> StepCollector
    ensures opening { result.opening ≡ opening }
    ensures steps { result.steps.items ≡ [] }
{
    StepCollector {
        opening,
        steps: Vec::new(alloc),
    }
}

/// Keeps the step that ends an instant, and those of a piece.
fn keep_all(
    alloc: Global,
    kept: &mut StepCollector,
    ended: Option<Step>,
    own: StepCollector,
) -> Result<(), AllocError> {
    if let Some(step) = ended {
        kept.step(alloc, step)?;
    }
    for step in own.steps {
        kept.step(alloc, step)?;
    }
    Ok(())
}

/// Reads a piece ahead, from the levels that the reader is at, and joins it at once.
fn joined(
    alloc: Global,
    speculative: SpeculativeReader,
    piece: &[u8],
    kept: &mut StepCollector,
) -> Option<SpeculativeReader> {
    let from = *speculative.now();
    let own = none_kept(alloc, from);
    let read = shared(&speculative).read_ahead(alloc, piece, speculative.line(), &from, own);
    let (ahead, own) = read?;
    let ahead = sent(ahead);
    if !speculative.may_join(&ahead) {
        return None;
    }
    let (speculative, ended) = speculative.join(alloc, ahead).ok()?;
    keep_all(alloc, kept, ended, own).ok()?;
    Some(speculative)
}

/// A dump of the bus that is read up to the end of `front`, in which its definitions end.
fn begun(alloc: Global, front: &[&str]) -> Option<TextReader<StepCollector>> {
    let binding = bound(alloc, &[BUS_BINDING])?;
    let front = together(alloc, front).ok()?;
    let kept = none_kept(alloc, Lines::new(1)?);
    let text = binding.begin_text(alloc, front.as_slice(), kept).ok()?;
    text.ok()
}

/// Pieces that are read ahead and joined, one after the other.
static PIECES: [&str; 4] = ["#10 0p\n", "#20 0q\n", "#30 0s\n#40 1p 1q\n", "#50 1s\n"];

/// The recording of the dump whose body has those pieces.
fn kept_of_pieces(alloc: Global) -> Option<StepCollector> {
    let text = begun(alloc, &[BUS, DECLARED, "#0 1p 1q 1r 1s 1t 1u\n"])?;
    let (mut speculative, mut kept) = text.into_speculative();
    for piece in PIECES.iter() {
        speculative = joined(alloc, speculative, piece.as_bytes(), &mut kept)?;
    }
    speculative.with_step_visitor(kept).finish(alloc).ok()
}

/// Each piece is joined before the next one is read ahead.
#[test]
fn pieces_that_are_joined_at_once_are_read_as_their_text(rt: HostRuntime) {
    let is_so = match kept_of_pieces(rt.alloc()) {
        Some(kept) => are_written(rt.alloc(), &kept.steps, READ_STEPS),
        None => false,
    };
    assert!(rt; is_so);
}

/// Pieces of a body, and whether what is read ends between two items after each.
static BETWEEN: [(&str, bool); 7] = [
    ("#0 1p 1q\n", true),
    ("$dumpon\n", false),
    ("#10 0p\n", false),
    ("$end\n", true),
    ("b0 \n", false),
    ("q\n", true),
    ("$comment\n", false),
];

/// The first piece after which `is_between_items` answers wrong, or an empty text. `None` is a dump that isn't
/// read, or one that isn't between two items before its first piece.
fn first_wrong_end(alloc: Global) -> Option<&'static str> {
    let mut text = begun(alloc, &[BUS, DECLARED])?;
    if !text.is_between_items() {
        return None;
    }
    for (piece, wanted) in BETWEEN.iter() {
        text = text.read(alloc, piece.as_bytes()).ok()?;
        if text.is_between_items() != *wanted {
            return Some(*piece);
        }
    }
    Some("")
}

/// What is read ends between two items unless an item or a dump section is open.
#[test]
fn a_text_is_between_items_outside_of_dump_sections(rt: HostRuntime) {
    let wrong = first_wrong_end(rt.alloc()).unwrap_or("not read");
    assert!(rt; wrong.is_empty(), "{wrong}");
}

/// A dump that is read up to its body, where its definitions end in `front`, and what `front` has of the body.
fn begun_before_body<'t>(
    alloc: Global,
    binding: &Binding,
    front: &'t [u8],
) -> Option<(TextReader<StepCollector>, &'t [u8])> {
    let kept = none_kept(alloc, Lines::new(1)?);
    let begun = binding.begin_before_body(alloc, front, kept).ok()?;
    begun.ok()
}

/// Reads the next piece of a body, up to its first fault.
fn read_piece(
    alloc: Global,
    text: TextReader<StepCollector>,
    piece: &[u8],
) -> Result<TextReader<StepCollector>, Stopped<StepCollector>> {
    text.read_until_fault(alloc, piece)
}

/// Where reading further pieces of a body stops.
fn stopped_behind(
    alloc: Global,
    text: TextReader<StepCollector>,
    second: &str,
    third: &str,
) -> Option<Stopped<StepCollector>> {
    let text = match read_piece(alloc, text, second.as_bytes()) {
        Ok(text) => text,
        Err(stopped) => return Some(stopped),
    };
    let text = match read_piece(alloc, text, third.as_bytes()) {
        Ok(text) => text,
        Err(stopped) => return Some(stopped),
    };
    text.finish_or_stop(alloc).err()
}

/// Where reading a body in three pieces stops, of which `first` follows the definitions at once.
fn stopped_by(
    alloc: Global,
    first: &str,
    second: &str,
    third: &str,
) -> Option<Stopped<StepCollector>> {
    let binding = bound(alloc, &[BUS_BINDING])?;
    let front = together(alloc, &[BUS, DECLARED, first]).ok()?;
    let (text, rest) = begun_before_body(alloc, &binding, front.as_slice())?;
    match read_piece(alloc, text, rest) {
        Ok(text) => stopped_behind(alloc, text, second, third),
        Err(stopped) => Some(stopped),
    }
}

/// Pieces of a body, the line and kind of its first fault, the steps of the instants that end before it, and the last
/// time before it.
static STOPS: [(&str, &str, &str, u64, FaultKind, &str, u64); 4] = [
    (
        "#0 1p 1q 1r 1s 1t 1u\n",
        "#10 0p\n#20 0q\n",
        "#30 0s 1x\n#40 1p\n",
        13,
        FaultKind::UndeclaredCode,
        "#0 AS=1 DS0=1 DS1=1 DTACK=1 BERR=1 IACK=1\n#10 AS=0\n#20 DS0=0\n",
        30,
    ),
    (
        "#0 1p 1q 1r 1s 1t 1u 2p\n",
        "",
        "",
        10,
        FaultKind::BadToken,
        "",
        0,
    ),
    (
        "",
        "#0 1p 1q 1r 1s 1t 1u\n#10 0p\n",
        "#5 1p\n",
        12,
        FaultKind::TimeBackwards,
        "#0 AS=1 DS0=1 DS1=1 DTACK=1 BERR=1 IACK=1\n",
        10,
    ),
    (
        "#0 1p 1q 1r 1s 1t 1u\n",
        "#10 0p\n#20\n",
        "$dumpvars 0q\n",
        13,
        FaultKind::UnfinishedSection,
        "#0 AS=1 DS0=1 DS1=1 DTACK=1 BERR=1 IACK=1\n#10 AS=0\n",
        20,
    ),
];

/// Whether reading stops with the fault `wanted`, the steps `steps` and the last time `last`.
fn is_stop(
    alloc: Global,
    stopped: Option<Stopped<StepCollector>>,
    wanted: VcdFault,
    steps: &str,
    last: u64,
) -> bool {
    match stopped {
        Some(stopped) => {
            stopped.fault == wanted
                && stopped.time == last
                && are_written(alloc, &stopped.visitor.steps, steps)
        }
        None => false,
    }
}

#[test]
fn a_fault_comes_with_the_steps_before_it(rt: HostRuntime) {
    for (first, second, third, line, kind, steps, last) in STOPS.iter() {
        let wanted = VcdFault {
            line: *line,
            kind: *kind,
        };
        let stopped = stopped_by(rt.alloc(), first, second, third);
        assert!(rt;
            is_stop(rt.alloc(), stopped, wanted, steps, *last),
            "{wanted}"
        );
    }
}

/// The fault of a binding that is known before the body is read, and that of the body.
fn faults_before_and_in_body(alloc: Global) -> Option<(BindFault, VcdFault)> {
    let binding = bound(alloc, &[BUS_BINDING])?;
    let front = ["$scope module bus $end\n", DECLARED, "#0 1q 2p\n"];
    let front = together(alloc, &front).ok()?;
    let (text, rest) = begun_before_body(alloc, &binding, front.as_slice())?;
    let known = text.binding_fault()?;
    if rest != b"#0 1q 2p\n".as_slice() {
        return None;
    }
    let stopped = read_piece(alloc, text, rest).err()?;
    Some((known, stopped.fault))
}

/// The fault of a binding is known before any of the body is read, which may have a fault of its own.
#[test]
fn the_fault_of_a_binding_is_known_before_the_body(rt: HostRuntime) {
    let known = BindFault {
        line: 2,
        kind: BindFaultKind::NoSuchPath,
    };
    let told = VcdFault {
        line: 9,
        kind: FaultKind::BadToken,
    };
    let is_so = match faults_before_and_in_body(rt.alloc()) {
        Some((before, behind)) => before == known && behind == told,
        None => false,
    };
    assert!(rt; is_so);
}

/// The reader after it took what it takes of `bytes`, and the bytes that it leaves.
fn left_of<'b, 't>(
    alloc: Global,
    reader: DumpReader<'b, StepCollector>,
    bytes: &'t [u8],
) -> Option<(DumpReader<'b, StepCollector>, &'t [u8])> {
    let Ok((reader, count)) = reader.take(alloc, bytes) else {
        return None;
    };
    Some((reader, &bytes[count..]))
}

/// Whether the reader is in the body, and has met no fault so far.
fn is_at_body(reader: &DumpReader<'_, StepCollector>) -> bool {
    matches!(reader, DumpReader::Body(_))
}

/// The fault that is known after `first`, and the result of a dump of the bus whose body is `first` and then `last`.
fn read_in_two(
    alloc: Global,
    first: &str,
    last: &str,
) -> Option<(Option<VcdFault>, Result<StepCollector, CaptureFault>)> {
    let binding = bound(alloc, &[BUS_BINDING])?;
    let reader = DumpReader::new(&binding, none_kept(alloc, Lines::new(1)?));
    // the definitions don't end here
    let Some((reader, left)) = left_of(alloc, reader, BUS.as_bytes()) else {
        return None;
    };
    if left.len() != BUS.len() || is_at_body(&reader) {
        return None;
    }
    let front = together(alloc, &[BUS, DECLARED]).ok()?;
    let Some((reader, _)) = left_of(alloc, reader, front.as_slice()) else {
        return None;
    };
    if !is_at_body(&reader) {
        return None;
    }
    let Some((reader, left)) = left_of(alloc, reader, first.as_bytes()) else {
        return None;
    };
    let known = reader.fault();
    let mut rest = Vec::from_slice(alloc, left).ok()?;
    rest.extend_from_slice(last.as_bytes()).ok()?;
    Some((known, reader.finish(alloc, rest.as_slice())))
}

/// A dump is cut within a token.
#[test]
fn a_dump_is_read_as_its_text_comes(rt: HostRuntime) {
    let (alloc, first) = (rt.alloc(), "#0 1p 1q 1r 1s 1t 1u\n#10 0p\n#20 0");
    let read = read_in_two(alloc, first, "q\n#30 0s\n#40 1p 1q\n#50 1s\n");
    let is_so = match &read {
        Some((None, Ok(kept))) => are_written(alloc, &kept.steps, READ_STEPS),
        _ => false,
    };
    assert!(rt; is_so);
}

/// A fault is known once it is met, and is that of the dump.
#[test]
fn a_fault_is_known_as_the_text_comes(rt: HostRuntime) {
    let wanted = VcdFault {
        line: 11,
        kind: FaultKind::BadToken,
    };
    let is_so = match read_in_two(rt.alloc(), "#0 1p\n2p\n", "#10 0p\n") {
        Some((Some(known), Err(CaptureFault::Dump(told)))) => known == wanted && told == wanted,
        _ => false,
    };
    assert!(rt; is_so);
}

/// The fault of a reader that has failed with `met`.
fn fault_after(met: VcdFault) -> Option<VcdFault> {
    let reader: DumpReader<'_, StepCollector> = DumpReader::failed(CaptureFault::Dump(met)).ok()?;
    reader.fault()
}

/// A caller that reads a body in another way reports its fault. Want of memory is no fault of a dump.
#[test]
fn a_fault_may_be_met_elsewhere(rt: HostRuntime) {
    let met = VcdFault {
        line: 3,
        kind: FaultKind::BadToken,
    };
    let none = VcdFault {
        line: 0,
        kind: FaultKind::Memory,
    };
    let is_so = fault_after(met) == Some(met) && fault_after(none).is_none();
    assert!(rt; is_so);
}

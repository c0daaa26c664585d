use std::alloc::{AllocError, Global};
use vcd_read::{FaultKind, VcdFault};
use vme_bind::{BindFault, BindFaultKind, Binding, CaptureFault, read_binding};
use vme_step_reader::{StepReader, StoppedSteps, begin_last_steps, begin_steps};
use vme_test_recordings::write_steps;
use vme_trace::{Level, Line};

/// A binding of two lines to variables, and of the others to levels.
const LINES: &str = "\
slots 1
AS = bus.AS
DTACK = bus.DTACK
DS0 = 1
DS1 = 1
BERR = 1
IACK = 1
AM = 1
LWORD = 1
WRITE = 1
A = 1
BBSY = 1
BR = 1
BG0 = 1
BG1 = 1
BG2 = 1
BG3 = 1
IA = 1
";

/// The definitions of the two variables.
const DEFINITIONS: &str = "\
$scope module bus $end
$var wire 1 p AS $end
$var wire 1 s DTACK $end
$upscope $end
$enddefinitions $end
";

/// A body that conforms to the grammar, and its steps.
const BODY: &str =
    "#0 1p 1s\n#10 0p\n$comment #15 $end #20\n#30 0s\n$dumpon #40 1p $end\n#50 b1 s\n";

const STEPS: &str = "#0 AS=1 DTACK=1\n#10 AS=0\n#30 DTACK=0\n#40 AS=1\n#50 DTACK=1\n";

/// The definitions, and a body after them.
fn after_definitions(alloc: Global, body: &str) -> Result<Vec<u8>, AllocError> {
    let mut text = Vec::from_slice(alloc, DEFINITIONS.as_bytes())?;
    text.extend_from_slice(body.as_bytes())?;
    Ok(text)
}

fn bound(alloc: Global) -> Option<Binding> {
    read_binding(alloc, LINES.as_bytes()).ok()
}

/// The fault at which reading stops, and the last time before it. None is want of memory.
type StopFault = Option<(VcdFault, u64)>;

/// Adds the steps before a fault.
fn write_stopped(alloc: Global, text: &mut Vec<u8>, stopped: &StoppedSteps) -> StopFault {
    match write_steps(alloc, text, stopped.steps.as_slice()) {
        Ok(()) => Some((stopped.fault, stopped.time)),
        Err(_) => None,
    }
}

/// How many bytes of a dump were taken, if the first `count` of the `length` bytes before `end` were.
fn taken_up_to(end: usize, length: usize, count: usize) -> usize {
    end.saturating_sub(length.saturating_sub(count))
}

/// Reads more bytes, and adds their steps. Returns the next reader, and how many bytes were taken.
fn read_more(
    alloc: Global,
    reader: StepReader,
    bytes: &[u8],
    text: &mut Vec<u8>,
) -> Result<(StepReader, usize), StopFault> {
    match reader.take(alloc, bytes) {
        Ok((reader, more, count)) => match write_steps(alloc, text, more.as_slice()) {
            Ok(()) => Ok((reader, count)),
            Err(_) => Err(None),
        },
        Err(stopped) => Err(write_stopped(alloc, text, &stopped)),
    }
}

/// Reads the last bytes, and adds their steps.
fn read_last(
    alloc: Global,
    reader: StepReader,
    bytes: &[u8],
    text: &mut Vec<u8>,
) -> Result<(), StopFault> {
    match reader.finish(alloc, bytes) {
        Ok(more) => match write_steps(alloc, text, more.as_slice()) {
            Ok(()) => Ok(()),
            Err(_) => Err(None),
        },
        Err(stopped) => Err(write_stopped(alloc, text, &stopped)),
    }
}

/// Reads the rest of a dump, of which `begun` has taken some bytes, up to each of `ends`. Bytes that aren't taken come
/// again, with more after them.
fn read_on(
    alloc: Global,
    begun: (StepReader, usize),
    dump: &[u8],
    ends: &[usize],
    text: &mut Vec<u8>,
) -> Result<(), StopFault> {
    let (mut reader, mut taken) = begun;
    for end in ends {
        let bytes = dump.get(taken..*end).unwrap_or(&[]);
        let (next, count) = read_more(alloc, reader, bytes, text)?;
        reader = next;
        taken = taken_up_to(*end, bytes.len(), count);
    }
    read_last(alloc, reader, dump.get(taken..).unwrap_or(&[]), text)
}

/// The reader of a dump of which more comes up to each of `ends`, how many bytes it has taken, and how many of the ends
/// have come. If the definitions are known to end only where the dump does, all have.
fn begun_up_to(
    alloc: Global,
    binding: &Binding,
    dump: &[u8],
    ends: &[usize],
) -> Result<(StepReader, usize, usize), CaptureFault> {
    for (count, end) in ends.iter().enumerate() {
        match begin_steps(alloc, binding, dump.get(..*end).unwrap_or(&[])) {
            Ok(Some((reader, taken))) => return Ok((reader, taken, count + 1)),
            Ok(None) => (),
            Err(fault) => return Err(fault),
        }
    }
    match begin_last_steps(alloc, binding, dump) {
        Ok((reader, taken)) => Ok((reader, taken, ends.len())),
        Err(fault) => Err(fault),
    }
}

/// Reads a dump up to each of `ends`, and adds its steps.
fn read_up_to(
    alloc: Global,
    binding: &Binding,
    dump: &[u8],
    ends: &[usize],
    text: &mut Vec<u8>,
) -> Result<(), StopFault> {
    match begun_up_to(alloc, binding, dump, ends) {
        Ok((reader, taken, count)) => {
            let behind = ends.get(count..).unwrap_or(&[]);
            read_on(alloc, (reader, taken), dump, behind, text)
        }
        Err(_) => Err(None),
    }
}

/// Whether reading a dump up to each of `ends` gives the steps `wanted`, and this fault.
fn has_steps_up_to(
    alloc: Global,
    binding: &Binding,
    dump: &[u8],
    ends: &[usize],
    wanted: &str,
    fault: StopFault,
) -> bool {
    let mut text = Vec::new(alloc);
    let is_end = match read_up_to(alloc, binding, dump, ends, &mut text) {
        Ok(()) => fault.is_none(),
        Err(stop) => stop.is_some() && stop == fault,
    };
    is_end && text.as_slice() == wanted.as_bytes()
}

/// As `has_steps_up_to`, where `size` bytes more come at once.
fn has_steps(
    alloc: Global,
    binding: &Binding,
    dump: &[u8],
    size: usize,
    wanted: &str,
    fault: StopFault,
) -> bool {
    match ends_of(alloc, dump.len(), size) {
        Ok(ends) => has_steps_up_to(alloc, binding, dump, &ends, wanted, fault),
        Err(_) => false,
    }
}

/// As `has_steps`, for each of `SIZES`.
fn has_steps_by_each_size(
    alloc: Global,
    binding: &Binding,
    dump: &[u8],
    wanted: &str,
    fault: StopFault,
) -> bool {
    let mut same = true;
    for size in SIZES.iter() {
        same &= has_steps(alloc, binding, dump, *size, wanted, fault);
    }
    same
}

/// As `has_steps_by_each_size`, by the binding `LINES`.
fn has_steps_always(alloc: Global, dump: &[u8], wanted: &str, fault: StopFault) -> bool {
    match bound(alloc) {
        Some(binding) => has_steps_by_each_size(alloc, &binding, dump, wanted, fault),
        None => false,
    }
}

/// As `has_steps_always`, of a body after the definitions.
fn body_has_steps(alloc: Global, body: &str, wanted: &str, fault: StopFault) -> bool {
    match after_definitions(alloc, body) {
        Ok(dump) => has_steps_always(alloc, &dump, wanted, fault),
        Err(_) => false,
    }
}

/// How many bytes of a text have come after each piece, where `size` bytes come at once.
fn ends_of(alloc: Global, length: usize, size: usize) -> Result<Vec<usize>, AllocError> {
    let mut ends = Vec::new(alloc);
    for end in 1..=length {
        if end.checked_rem(size) == Some(0) || end == length {
            ends.push(end)?;
        }
    }
    Ok(ends)
}

static SIZES: [usize; 7] = [1, 2, 3, 7, 19, 100, 1000];

#[test]
fn the_steps_of_pieces_are_those_of_the_text(rt: HostRuntime) {
    assert!(rt; body_has_steps(rt.alloc(), BODY, STEPS, None));
}

/// A body, its first fault, the steps of the instants that end before it, and the last time before it.
static STOPS: [(&str, u64, FaultKind, &str, u64); 5] = [
    ("2p\n", 6, FaultKind::BadToken, "", 0),
    (
        "#0 1p 1s\n#10 0p\n#20 0s 1x\n#30 1p\n",
        8,
        FaultKind::UndeclaredCode,
        "#0 AS=1 DTACK=1\n#10 AS=0\n",
        20,
    ),
    (
        "#0 1p 1s\n#10 0p\n#5 1p\n",
        8,
        FaultKind::TimeBackwards,
        "#0 AS=1 DTACK=1\n",
        10,
    ),
    (
        "#0 1p 1s\n#10 0p #20\n$dumpvars 0s\n",
        8,
        FaultKind::UnfinishedSection,
        "#0 AS=1 DTACK=1\n#10 AS=0\n",
        20,
    ),
    (
        "#0 1p 1s\n#10 0p #20\n#30 b1",
        8,
        FaultKind::UnfinishedSection,
        "#0 AS=1 DTACK=1\n#10 AS=0\n",
        30,
    ),
];

#[test]
fn a_fault_comes_after_the_steps_before_it(rt: HostRuntime) {
    for (body, line, kind, steps, last) in STOPS.iter() {
        let (line, kind) = (*line, *kind);
        let fault = Some((VcdFault { line, kind }, *last));
        assert!(rt; body_has_steps(rt.alloc(), body, steps, fault), "{body}");
    }
}

/// Why a dump has no steps, where `size` bytes more come at once.
fn refused(alloc: Global, binding: &Binding, dump: &str, size: usize) -> Option<CaptureFault> {
    match ends_of(alloc, dump.len(), size) {
        Ok(ends) => begun_up_to(alloc, binding, dump.as_bytes(), &ends).err(),
        Err(_) => None,
    }
}

/// Dumps whose definitions don't end or have a fault, with its line.
static REFUSED: [(&str, u64, FaultKind); 3] = [
    (
        "$scope module bus $end\n$var wire 1 p AS $end\n",
        3,
        FaultKind::NoEndDefinitions,
    ),
    (
        "$scope module bus $end\n$var wire 1 p AS",
        2,
        FaultKind::UnfinishedSection,
    ),
    (
        "$scope module bus $end\n$var wire 1 p $end\n$enddefinitions $end\n#0 1p\n",
        2,
        FaultKind::BadVar,
    ),
];

/// A dump of which the binding makes no recording, whatever its body has.
const UNBOUND: &str =
    "$scope module bus $end\n$var wire 1 p AS $end\n$enddefinitions $end\n#0 2p\n";

/// Whether a dump has no steps by any of `SIZES`, for the fault `wanted`.
fn is_refused(alloc: Global, binding: &Binding, dump: &str, wanted: CaptureFault) -> bool {
    let mut same = true;
    for size in SIZES.iter() {
        same &= match refused(alloc, binding, dump, *size) {
            Some(fault) => fault == wanted,
            None => false,
        };
    }
    same
}

/// Whether `UNBOUND` is refused for a fault of the binding, and each of `REFUSED` for its own.
fn are_refused(alloc: Global, binding: &Binding) -> bool {
    let unbound = BindFault {
        line: 3,
        kind: BindFaultKind::NoSuchPath,
    };
    let mut same = is_refused(alloc, binding, UNBOUND, CaptureFault::Binding(unbound));
    for (dump, line, kind) in REFUSED.iter() {
        let (line, kind) = (*line, *kind);
        let fault = CaptureFault::Dump(VcdFault { line, kind });
        same &= is_refused(alloc, binding, dump, fault);
    }
    same
}

/// As `are_refused`, by the binding `LINES`.
fn are_all_refused(alloc: Global) -> bool {
    match bound(alloc) {
        Some(binding) => are_refused(alloc, &binding),
        None => false,
    }
}

#[test]
fn a_text_may_have_no_steps(rt: HostRuntime) {
    assert!(rt; are_all_refused(rt.alloc()));
}

/// Whether it isn't known yet that the definitions end.
fn is_unknown(alloc: Global, dump: &[u8]) -> bool {
    match bound(alloc) {
        Some(binding) => matches!(begin_steps(alloc, &binding, dump), Ok(None)),
        None => false,
    }
}

/// The last word of the definitions may be the last of the text: it is known to end there only at the text's end.
#[test]
fn definitions_may_end_as_the_text_does(rt: HostRuntime) {
    let dump = DEFINITIONS.as_bytes().strip_suffix(b"\n").unwrap_or(&[]);
    assert!(rt; is_unknown(rt.alloc(), dump));
    assert!(rt; has_steps_always(rt.alloc(), dump, "", None));
}

/// Pieces of a body, and the last time after each.
static TIMES: [(&str, u64); 3] = [
    ("#10 0p\n", 10),
    ("#20 $comment #30\n", 20),
    ("$end #40\n", 40),
];

/// A reader that has read the definitions.
fn begun(alloc: Global) -> Option<StepReader> {
    let front = after_definitions(alloc, "#0 1p").ok()?;
    let (reader, count) = begin_steps(alloc, &bound(alloc)?, front.as_slice()).ok()??;
    if count == DEFINITIONS.len() && reader.time() == 0 {
        Some(reader)
    } else {
        None
    }
}

/// The reader after a piece, if it takes all of the piece.
fn after_piece(alloc: Global, reader: StepReader, piece: &str) -> Option<StepReader> {
    let (next, _, count) = reader.take(alloc, piece.as_bytes()).ok()?;
    if count == piece.len() {
        Some(next)
    } else {
        None
    }
}

/// The first piece after which the last time is wrong, or an empty text. `None` if a text isn't read, or the opening is
/// wrong.
fn first_wrong_time(alloc: Global) -> Option<&'static str> {
    let mut reader = begun(alloc)?;
    for (piece, time) in TIMES.iter() {
        reader = after_piece(alloc, reader, piece)?;
        if reader.time() != *time {
            return Some(*piece);
        }
    }
    let opening = reader.opening();
    if opening.level(Line::AS) != Level::Unknown || opening.level(Line::DS0) != Level::High {
        return None;
    }
    Some("")
}

#[test]
fn the_opening_and_the_last_time_are_known(rt: HostRuntime) {
    let wrong = first_wrong_time(rt.alloc()).unwrap_or("not read");
    assert!(rt; wrong.is_empty(), "{wrong}");
}

/// Whether there are five steps in all, with the `count` before, or memory is refused.
fn are_five_or_refused(alloc: Global, reader: StepReader, count: usize) -> bool {
    match reader.finish(alloc, &[]) {
        Ok(last) => last.len().checked_add(count) == Some(5),
        Err(stopped) => stopped.fault.kind == FaultKind::Memory,
    }
}

/// As `are_five_or_refused`, where the body is still to be taken.
fn is_taken_or_refused(alloc: Global, reader: StepReader, body: &[u8]) -> bool {
    match reader.take(alloc, body) {
        Ok((reader, steps, _)) => are_five_or_refused(alloc, reader, steps.len()),
        Err(stopped) => stopped.fault.kind == FaultKind::Memory,
    }
}

/// Whether a fault is want of memory.
fn is_refusal(fault: CaptureFault) -> bool {
    match fault {
        CaptureFault::Binding(fault) => fault.kind == BindFaultKind::Memory,
        CaptureFault::Dump(fault) => fault.kind == FaultKind::Memory,
    }
}

/// Whether a dump has five steps, or memory is refused.
fn has_steps_or_is_refused(alloc: Global, binding: &Binding, dump: &[u8]) -> bool {
    match begin_last_steps(alloc, binding, dump) {
        Ok((reader, count)) => {
            is_taken_or_refused(alloc, reader, dump.get(count..).unwrap_or(&[]))
        }
        Err(fault) => is_refusal(fault),
    }
}

/// As `has_steps_or_is_refused`, by the binding `LINES`, if there is memory for it.
fn is_bound_or_refused(alloc: Global, dump: &[u8]) -> bool {
    match read_binding(alloc, LINES.as_bytes()) {
        Ok(binding) => has_steps_or_is_refused(alloc, &binding, dump),
        Err(fault) => fault.kind == BindFaultKind::Memory,
    }
}

/// As `is_bound_or_refused`, of `BODY`, if there is memory for the text.
fn is_want_told(alloc: Global) -> bool {
    match after_definitions(alloc, BODY) {
        Ok(dump) => is_bound_or_refused(alloc, &dump),
        Err(_) => true,
    }
}

/// Run with each allocation refused in turn, this shows that the answer is then want of memory.
#[test]
fn want_of_memory_is_the_fault(rt: HostRuntime) {
    assert!(rt; is_want_told(rt.alloc()));
}

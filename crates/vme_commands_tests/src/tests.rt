ghost use Rattle.std.specs.Prelude.{◌≤◌, IfSome};

use std::alloc::{AllocError, Global};
use std::process::Abort;
use std::test::Fail;
use std::thread::Threads;
use vme_commands::check::check;
use vme_commands::list::list;
use vme_commands::{BLOCK, BUILT_IN, allowance_of, allowances_of};
use vme_faults::RefusalKind;
use vme_stream::Bytes;
use vme_test_recordings::{
    BROKEN_LISTING, BUS_DEFINITIONS, READ_LISTING, RESET_LISTING, bus_dump, reset_binding,
    reset_dump,
};
use vme_test_streams::{LimitedSink, WantedAnswer, has_answered, words_of};
use vme_text_commands::bind::bind;
use vme_text_commands::explain::{InputNames, explain};
use vme_text_commands::{tell_faults, tell_variables};
use vme_trace::{Line, Rule, Sink, Source};

/// The body of a dump of a read that conforms.
pub(crate) const BODY: &str = "#0 1p 1q 1r 1s 1t 1u\n#10 0p\n#20 0q\n#30 0s\n#40 1p 1q\n#50 1s\n";

/// The names of the input files.
pub(crate) const NAMES: InputNames<'static> = InputNames {
    binding: b"bus.bind",
    dump: b"b.vcd",
};

/// The head of a dump with one variable of one bit.
const ONE_BIT: &str = "$var wire 1 p AS $end\n$enddefinitions $end\n";

/// A dump with no path of the built-in binding.
const UNBOUND: &str = "$enddefinitions $end\n";

/// How a command judges: how many steps a block has, how many workers read the dump, and the skew.
#[derive(Clone, Copy)]
pub(crate) struct Settings {
    pub block: u32,
    pub workers: u32,
    pub skew: u64,
}

/// As a command judges without options, but with one worker.
pub(crate) const USUAL: Settings = Settings {
    block: BLOCK,
    workers: 1,
    skew: 0,
};

/// Blocks of one step, one worker and no skew.
pub(crate) const SINGLE_STEPS: Settings = Settings {
    block: 1,
    workers: 1,
    skew: 0,
};

/// A command that judges a recording.
#[derive(Clone, Copy)]
pub(crate) enum Command {
    Check,
    List,
}

/// The status with which a command ends.
pub(crate) fn status_of<R: AllocGlobal + Threads + Sync, B: Source, D: Source, O: Sink, E: Sink>(
    rt: &R,
    command: Command,
    binding: &mut B,
    dump: &mut D,
    settings: Settings,
    out: &mut O,
    err: &mut E,
) -> u8
    requires block { (1 ≤ settings.block) × (settings.block ≤ 65536) }
    requires workers { (1 ≤ settings.workers) × (settings.workers ≤ 64) }
{
    match command {
        Command::Check => check(
            rt,
            rt.alloc(),
            binding,
            dump,
            settings.block,
            settings.workers,
            settings.skew,
            out,
            err,
        ),
        Command::List => list(
            rt,
            rt.alloc(),
            binding,
            dump,
            settings.block,
            settings.workers,
            settings.skew,
            out,
            err,
        ),
    }
}

/// Whether a command on a dump, by a binding, answers `wanted`.
pub(crate) fn answers<R: AllocGlobal + Threads + Sync>(
    rt: &R,
    command: Command,
    binding: &[u8],
    dump: &[u8],
    settings: Settings,
    wanted: WantedAnswer<'_>,
) -> bool
    requires block { (1 ≤ settings.block) × (settings.block ≤ 65536) }
    requires workers { (1 ≤ settings.workers) × (settings.workers ≤ 64) }
{
    let mut out = LimitedSink::new(rt.alloc(), 1000);
    let mut err = LimitedSink::new(rt.alloc(), 1000);
    let status = status_of(
        rt,
        command,
        &mut Bytes::new(binding),
        &mut Bytes::new(dump),
        settings,
        &mut out,
        &mut err,
    );
    has_answered(&out, &err, status, wanted)
}

/// Expects that a command writes `text` of a dump, with this status, in blocks of one step, of three and of the usual
/// size.
fn expect<R: Abort + AllocGlobal + Threads + Sync>(
    rt: &R,
    command: Command,
    dump: &str,
    text: &str,
    status: u8,
) {
    let dump = dump.as_bytes();
    let wanted = (text, "", status);
    let three_steps = Settings {
        block: 3,
        workers: 1,
        skew: 0,
    };
    assert!(rt;
        answers(rt, command, BUILT_IN, dump, SINGLE_STEPS, wanted),
        "{text}"
    );
    assert!(rt;
        answers(rt, command, BUILT_IN, dump, three_steps, wanted),
        "{text}"
    );
    assert!(rt;
        answers(rt, command, BUILT_IN, dump, USUAL, wanted),
        "{text}"
    );
}

fn expect_refusal<R: Abort + AllocGlobal + Threads + Sync>(
    rt: &R,
    binding: &str,
    dump: &str,
    text: &str,
) {
    let wanted = ("", text, 3);
    assert!(rt;
        answers(
            rt,
            Command::Check,
            binding.as_bytes(),
            dump.as_bytes(),
            USUAL,
            wanted
        ),
        "{text}"
    );
}

/// The dump with this head and body.
fn dump_of(alloc: Global, head: &str, body: &str) -> Result<String, AllocError> {
    let mut dump = String::from_str(alloc, head)?;
    dump.push_str(body)?;
    Ok(dump)
}

/// Bodies of dumps, and the line and the status of the verdict on each.
static VERDICTS: [(&str, &str, u8); 5] = [
    (BODY, "conforming\n", 0),
    ("", "never idle\n", 2),
    (
        "#0 1p 1q 1r 1s 1t 1u\n#10 0p\n#20 0s\n#40 1p 1q\n#50 1s\n",
        "broken H4 at instant 3 time 20 line DTACK\n",
        1,
    ),
    (
        "#0 1p 1q 1r 1s 1t 1u\n#10 xp\n#20 0q\n#30 0s\n#40 1p 1q\n#50 1s\n",
        "unreadable U1 at instant 2 time 10 line AS\n",
        2,
    ),
    (
        "#0 1p 1q 1r 1s 1t 1u\n#10 0p\n#20 0q\n#25 $dumpoff xp xq xr xs xt xu $end\n#30 0s\n#40 1p 1q\n#50 1s\n",
        "unreadable U1 at instant 4 time 25 line AS\n",
        2,
    ),
];

#[test]
fn verdicts(rt: HostRuntime) -> Result<(), Fail> {
    for (body, text, status) in VERDICTS.iter() {
        let dump = bus_dump(rt.alloc(), body)?;
        expect(&rt, Command::Check, dump.as_str(), text, *status);
    }
    Ok(())
}

/// Bodies of dumps, and the listing of each and its status.
static LISTINGS: [(&str, &str, u8); 4] = [
    (BODY, READ_LISTING, 0),
    ("", "vmecheck listing 3\nverdict never-idle\n", 2),
    (
        "#0 1p 1q 1r 1s 1t 1u\n#10 0p\n#20 0s\n#40 1p 1q\n#50 1s\n",
        BROKEN_LISTING,
        1,
    ),
    (
        "#0 1p 1q 1r 1s 1t 1u\n#10 xp\n#20 0q\n#30 0s\n#40 1p 1q\n#50 1s\n",
        "vmecheck listing 3\nstart 1\ntenure 1 open end -\nverdict unreadable U1 2 AS\n",
        2,
    ),
];

#[test]
fn listings(rt: HostRuntime) -> Result<(), Fail> {
    for (body, text, status) in LISTINGS.iter() {
        let dump = bus_dump(rt.alloc(), body)?;
        expect(&rt, Command::List, dump.as_str(), text, *status);
    }
    Ok(())
}

#[test]
fn a_reset_ends_what_is_judged(rt: HostRuntime) -> Result<(), Fail> {
    let dump = reset_dump(rt.alloc())?;
    let binding = reset_binding(rt.alloc())?;
    let listed = (RESET_LISTING, "", 0);
    assert!(rt;
        answers(
            &rt,
            Command::List,
            binding.as_bytes(),
            dump.as_bytes(),
            SINGLE_STEPS,
            listed
        )
    );
    let unbound = "broken H2 at instant 4 time 30 line DS0\n";
    expect(&rt, Command::Check, dump.as_str(), unbound, 1);
    Ok(())
}

#[test]
fn aliases(rt: HostRuntime) -> Result<(), Fail> {
    let head = "$scope module bus $end $var wire 1 p AS $end $var wire 1 p AS2 $end\n\
$var wire 1 q DS0 $end $var wire 1 r DS1 $end $var wire 1 s DTACK $end\n\
$var wire 1 t BERR $end $var wire 1 u IACK $end $enddefinitions $end\n";
    let dump = dump_of(rt.alloc(), head, BODY)?;
    expect(&rt, Command::Check, dump.as_str(), "conforming\n", 0);
    Ok(())
}

/// The head and the rest of dumps, and the message about the fault of each.
static DUMP_FAULTS: [(&str, &str, &str); 11] = [
    (ONE_BIT, "1q", "vmecheck: dump line 3: UndeclaredCode\n"),
    (ONE_BIT, "b10 p", "vmecheck: dump line 3: TooWide\n"),
    (ONE_BIT, "#5\n#4", "vmecheck: dump line 4: TimeBackwards\n"),
    (
        ONE_BIT,
        "#18446744073709551616",
        "vmecheck: dump line 3: NumberTooLarge\n",
    ),
    (ONE_BIT, "2p", "vmecheck: dump line 3: BadToken\n"),
    (
        ONE_BIT,
        "$dumpvars 1p",
        "vmecheck: dump line 3: UnfinishedSection\n",
    ),
    (
        "",
        "$upscope $end",
        "vmecheck: dump line 1: ScopeUnderflow\n",
    ),
    ("", "$var wire 1 p $end", "vmecheck: dump line 1: BadVar\n"),
    (
        "",
        "$var wire 1 p AS $end\n",
        "vmecheck: dump line 2: NoEndDefinitions\n",
    ),
    (
        "$var wire 1 p AS $end\n",
        "$var wire 2 p B $end",
        "vmecheck: dump line 2: SizeConflict\n",
    ),
    ("", "", "vmecheck: dump line 1: NoEndDefinitions\n"),
];

#[test]
fn dump_faults(rt: HostRuntime) -> Result<(), Fail> {
    let binding = str::from_utf8(BUILT_IN).ok().ok_or("no text")?;
    for (head, body, text) in DUMP_FAULTS.iter() {
        let dump = dump_of(rt.alloc(), head, body)?;
        expect_refusal(&rt, binding, dump.as_str(), text);
    }
    Ok(())
}

/// Bindings, and the message about the fault of each.
static BINDING_FAULTS: [(&str, &str); 6] = [
    ("AS = 0", "vmecheck: binding line 1: SlotsFirst\n"),
    ("slots 22", "vmecheck: binding line 1: SlotsFirst\n"),
    (
        "slots 1\nBG0.2 = 1",
        "vmecheck: binding line 2: UnknownName\n",
    ),
    ("slots 1\nAS 0", "vmecheck: binding line 2: BadLine\n"),
    (
        "slots 1\nAM = 1\nAM3 = 0",
        "vmecheck: binding line 3: NamedTwice\n",
    ),
    ("slots 1\n", "vmecheck: binding line 2: Unbound AS\n"),
];

#[test]
fn binding_faults(rt: HostRuntime) {
    for (binding, text) in BINDING_FAULTS.iter() {
        expect_refusal(&rt, binding, "", text);
    }
}

/// A text in the head of the dump, the text that replaces it, and the message.
static OTHER_HEADS: [(&str, &str, &str); 2] = [
    (
        "$var wire 1 p AS $end\n",
        "",
        "vmecheck: binding line 2: NoSuchPath\n",
    ),
    (
        "$upscope",
        "$var wire 1 v AS $end $upscope",
        "vmecheck: binding line 2: AmbiguousPath\n",
    ),
];

/// A text in the built-in binding, the text that replaces it, and the message.
static OTHER_BINDINGS: [(&str, &str, &str); 2] = [
    (
        "= bus.AS\n",
        "= bus.AS[3]\n",
        "vmecheck: binding line 2: NoSuchPath\n",
    ),
    (
        "BR = 1\n",
        "BR = bus.AS\n",
        "vmecheck: binding line 18: WrongWidth\n",
    ),
];

#[test]
fn paths(rt: HostRuntime) -> Result<(), Fail> {
    let built_in = str::from_utf8(BUILT_IN).ok().ok_or("no text")?;
    for (old, new, text) in OTHER_HEADS.iter() {
        let head = BUS_DEFINITIONS.replace(rt.alloc(), *old, *new)?;
        expect_refusal(&rt, built_in, head.as_str(), text);
    }
    let dump = bus_dump(rt.alloc(), BODY)?;
    for (old, new, text) in OTHER_BINDINGS.iter() {
        let binding = built_in.replace(rt.alloc(), *old, *new)?;
        expect_refusal(&rt, binding.as_str(), dump.as_str(), text);
    }
    Ok(())
}

/// A dump of `count` steps, one at each time from 0, with this head. AS and DS0 move in turn, and both go to the same
/// level: high at the times 0 and 1, low at 2 and 3, high at 4 and 5, and so on.
pub(crate) fn many_steps(alloc: Global, head: &str, count: u32) -> Result<String, Fail> {
    let mut dump = String::from_str(alloc, head)?;
    for time in 0..count {
        let level = if time % 4 < 2 { "1" } else { "0" };
        let code = if time % 2 == 0 { "p" } else { "q" };
        dump.push_str(format!(in alloc; "#{time} {level}{code}\n")?.as_str())?;
    }
    Ok(dump)
}

/// What is written of a dump of which too many blocks would be made.
pub(crate) const TOO_MANY_BLOCKS: WantedAnswer<'static> = ("", "vmecheck: too many blocks\n", 3);

/// What is written of a dump in which the bus is never idle.
pub(crate) const NEVER_IDLE: WantedAnswer<'static> = ("never idle\n", "", 2);

/// 4,097 steps are one block too many if each is a block.
#[test]
fn blocks(rt: HostRuntime) -> Result<(), Fail> {
    let dump = many_steps(rt.alloc(), BUS_DEFINITIONS, 4097)?;
    let two_steps = Settings {
        block: 2,
        workers: 1,
        skew: 0,
    };
    assert!(rt;
        answers(
            &rt,
            Command::Check,
            BUILT_IN,
            dump.as_bytes(),
            SINGLE_STEPS,
            TOO_MANY_BLOCKS
        )
    );
    assert!(rt;
        answers(
            &rt,
            Command::Check,
            BUILT_IN,
            dump.as_bytes(),
            two_steps,
            NEVER_IDLE
        )
    );
    Ok(())
}

/// Whether a text allows a rule at a line, or at every line where none is named.
fn allows(text: &str, rule: Rule, line: &str) -> bool {
    match allowance_of(text.as_bytes()) {
        Some(read) => read.rule == rule && read.line == Line::from_name(line.as_bytes()),
        None => false,
    }
}

/// Texts that allow nothing.
static NO_ALLOWANCES: [&str; 7] = ["", "H9", "h4", "H4=", "=AS", "H4=AS=", "H4 =AS"];

/// Whether the words of a line allow `count` breaks, or, if `count` is `None`, aren't allowances.
fn allows_so_many(alloc: Global, line: &str, count: Option<usize>) -> Result<bool, AllocError> {
    let texts = words_of(alloc, line)?;
    let allowed = allowances_of(alloc, texts.as_slice())?;
    Ok(allowed.as_ref().map(|all| all.len()) == count)
}

#[test]
fn allowances_are_read(rt: HostRuntime) -> Result<(), Fail> {
    assert!(rt; allows("H4", Rule::H4, ""));
    assert!(rt; allows("U1=AS", Rule::U1, "AS"));
    assert!(rt; allows("G3=BG3.21", Rule::G3, "BG3.21"));
    for text in NO_ALLOWANCES.iter() {
        assert!(rt; allowance_of(text.as_bytes()).is_none(), "{text}");
    }
    let alloc = rt.alloc();
    assert!(rt; allows_so_many(alloc, "H4", Some(1))?);
    assert!(rt; allows_so_many(alloc, "H4=AS H4 U1=DS0", Some(3))?);
    assert!(rt; allows_so_many(alloc, "H4 H9 U1", None)?);
    Ok(())
}

/// Whether a file contains these texts.
fn has_parts(file: &[u8], parts: &[&str]) -> bool {
    let text = str::from_utf8(file).unwrap_or("");
    for part in parts {
        if !text.contains(*part) {
            return false;
        }
    }
    true
}

/// Whether the explanation of a dump begins with the wanted text and has the wanted status, nothing is written to
/// `err`, and the files contain `parts`: the save file the first, the picture the second.
pub(crate) fn explains(
    alloc: Global,
    binding: &[u8],
    dump: &str,
    skew: u64,
    wanted: (&str, u8),
    parts: (&[&str], &[&str]),
) -> bool {
    let (text, wanted_status) = wanted;
    let mut out = LimitedSink::new(alloc, 5000);
    let mut err = LimitedSink::new(alloc, 100);
    let (status, files) = explain(
        alloc,
        &mut Bytes::new(binding),
        &mut Bytes::new(dump.as_bytes()),
        NAMES,
        skew,
        &mut out,
        &mut err,
    );
    let is_so = out.bytes.as_slice().starts_with(text.as_bytes())
        && err.bytes.is_empty()
        && status == wanted_status;
    match files {
        Some(files) => {
            is_so
                && has_parts(files.viewer.as_bytes(), parts.0)
                && has_parts(files.picture.as_bytes(), parts.1)
        }
        None => false,
    }
}

/// Whether an explanation was begun, or want of memory was reported, and nothing else.
fn begins_or_lacks_memory(out: &LimitedSink, err: &LimitedSink, status: u8) -> bool {
    if status == 4 {
        return err.bytes.as_slice() == b"vmecheck: out of memory\n".as_slice();
    }
    out.bytes.as_slice().starts_with(b"conforming\n") && err.bytes.is_empty() && status == 0
}

/// Run with each allocation refused in turn, this shows that the answer is then want of memory.
#[test]
fn want_of_memory_is_told(rt: HostRuntime) {
    let (Ok(dump), Ok(mut out), Ok(mut err)) = (
        bus_dump(rt.alloc(), BODY),
        LimitedSink::with_capacity(rt.alloc(), 5000),
        LimitedSink::with_capacity(rt.alloc(), 100),
    ) else {
        return;
    };
    let (status, _) = explain(
        rt.alloc(),
        &mut Bytes::new(BUILT_IN),
        &mut Bytes::new(dump.as_bytes()),
        NAMES,
        0,
        &mut out,
        &mut err,
    );
    assert!(rt; begins_or_lacks_memory(&out, &err, status));
}

#[test]
fn an_explanation_begins_with_the_verdict(rt: HostRuntime) -> Result<(), Fail> {
    let dump = bus_dump(rt.alloc(), BODY)?;
    let text = "conforming\n\njudged: from instant 1 time 0 to instant 6 time 50\n";
    let files = (
        &["[*] written by vmecheck explain\n"][..],
        &["<!-- written by vmecheck explain -->\n<svg "][..],
    );
    assert!(rt; explains(rt.alloc(), BUILT_IN, dump.as_str(), 0, (text, 0), files));
    Ok(())
}

/// How a binding that is written begins, how the message about it begins, and the status.
type WrittenBinding = (&'static str, &'static str, u8);

/// Whether a binding for the scope `path` of a dump, and the message about it, begin as in `bound`, with that status.
fn binds(
    alloc: Global,
    dump: &str,
    slots: Option<u8>,
    path: Option<&[u8]>,
    bound: WrittenBinding,
) -> bool
    requires { IfSome slots (λ n. (1 ≤ n) × (n ≤ 21)) }
{
    let (head, message, wanted_status) = bound;
    let mut out = LimitedSink::new(alloc, 20_000);
    let mut err = LimitedSink::new(alloc, 1000);
    let mut dump = Bytes::new(dump.as_bytes());
    let status = bind(
        alloc, &mut dump, b"bus.vcd", slots, path, &mut out, &mut err,
    );
    out.bytes.as_slice().starts_with(head.as_bytes())
        && err.bytes.as_slice().starts_with(message.as_bytes())
        && status == wanted_status
}

#[test]
fn a_binding_is_written(rt: HostRuntime) -> Result<(), Fail> {
    let dump = bus_dump(rt.alloc(), BODY)?;
    let head =
        "# Found by the names in the scope bus: look each line over.\nslots 1\nAS = bus.AS\n";
    let message =
        "vmecheck: bound 6 of 19 groups in scope bus, 1 slot; not found: LWORD WRITE BBSY AM A D SYSRESET BR \
BG0 BG1 BG2 BG3 IA\n";
    assert!(rt; binds(rt.alloc(), dump.as_str(), None, None, (head, message, 0)));
    Ok(())
}

#[test]
fn a_binding_without_a_bus_ends_with_a_status_of_its_own(rt: HostRuntime) {
    let bound = (
        "# NOTHING IS BOUND: ",
        "vmecheck: bound 0 of 19 groups: ",
        7,
    );
    assert!(rt; binds(rt.alloc(), UNBOUND, None, None, bound));
}

/// What is written for the scope of the bus, for none and for another.
const IN_BUS: WrittenBinding = (
    "# Found by the names in the scope bus: look each line over.\nslots 2\nAS = bus.AS\n",
    "vmecheck: bound 6 of 19 groups in scope bus, 2 slots; ",
    0,
);

const IN_NONE: WrittenBinding = (
    "# NOTHING IS BOUND: no variable outside of all scopes was found ",
    "vmecheck: bound 0 of 19 groups: no variable outside of all scopes is named ",
    7,
);

const IN_ANOTHER: WrittenBinding = (
    "",
    "vmecheck: no variable of the dump stands in that scope: `vmecheck variables` lists their paths\n",
    3,
);

#[test]
fn a_binding_is_written_for_a_scope(rt: HostRuntime) -> Result<(), Fail> {
    let dump = bus_dump(rt.alloc(), BODY)?;
    let (alloc, dump) = (rt.alloc(), dump.as_str());
    assert!(rt; binds(alloc, dump, Some(2), Some(b"bus"), IN_BUS));
    assert!(rt; binds(alloc, dump, Some(2), Some(b""), IN_NONE));
    assert!(rt; binds(alloc, dump, Some(2), Some(b"bus2"), IN_ANOTHER));
    Ok(())
}

#[test]
fn a_kind_of_refusal_is_told(rt: HostRuntime) {
    let mut out = LimitedSink::new(rt.alloc(), 5000);
    let mut err = LimitedSink::new(rt.alloc(), 100);
    let status = tell_faults(rt.alloc(), Some(RefusalKind::BadVar), &mut out, &mut err);
    let first_lines =
        b"BadVar: a declaration that is none\n  expected: `$var`, a type, a size in digits, ";
    let is_told = out.bytes.as_slice().starts_with(first_lines);
    assert!(rt; is_told && err.bytes.is_empty() && status == 0);
}

/// How the message about a dump that gzip compressed begins.
const COMPRESSED: &[u8] =
    b"vmecheck: dump line 1: BadToken\nb.vcd, line 1:\n    \\x1F\\x8B\\x08\n    \
^^^^^^^^^^^^\nb.vcd is a file that gzip compressed:\n`zcat bus.vcd.gz > bus.vcd` makes a plain dump of \
it\nBadToken: a token of the dump may not stand where it stands\n  expected: ";

const COMPRESSED_DUMP: &[u8] = b"\x1F\x8B\x08\n";

/// Whether nothing is written of a compressed dump, and the message says what it is.
fn is_compressed(status: u8, out: &LimitedSink, err: &LimitedSink) -> bool {
    status == 3 && out.bytes.is_empty() && err.bytes.as_slice().starts_with(COMPRESSED)
}

#[test]
fn variables_of_a_refused_dump_are_not_told(rt: HostRuntime) {
    let mut out = LimitedSink::new(rt.alloc(), 100);
    let mut err = LimitedSink::new(rt.alloc(), 5000);
    let mut dump = Bytes::new(COMPRESSED_DUMP);
    let status = tell_variables(rt.alloc(), &mut dump, b"b.vcd", &mut out, &mut err);
    assert!(rt; is_compressed(status, &out, &err));
}

#[test]
fn a_refused_dump_is_not_bound(rt: HostRuntime) {
    let mut out = LimitedSink::new(rt.alloc(), 100);
    let mut err = LimitedSink::new(rt.alloc(), 5000);
    let mut dump = Bytes::new(COMPRESSED_DUMP);
    let status = bind(
        rt.alloc(),
        &mut dump,
        b"b.vcd",
        None,
        None,
        &mut out,
        &mut err,
    );
    assert!(rt; is_compressed(status, &out, &err));
}

#[test]
fn a_refused_dump_is_not_explained(rt: HostRuntime) {
    let mut out = LimitedSink::new(rt.alloc(), 100);
    let mut err = LimitedSink::new(rt.alloc(), 5000);
    let mut binding = Bytes::new(BUILT_IN);
    let mut dump = Bytes::new(COMPRESSED_DUMP);
    let (status, _) = explain(
        rt.alloc(),
        &mut binding,
        &mut dump,
        NAMES,
        0,
        &mut out,
        &mut err,
    );
    assert!(rt; is_compressed(status, &out, &err));
}

/// Dumps that are refused, and what is told of each before its page.
static REFUSED_DUMPS: [(&str, &str); 12] = [
    (
        "$timescale 1 ns $end\n$scope module bench $end\n$var wire 1 p AS $end\n\
$var reg 131072 q mem [131071:0] $end\n$upscope $end\n$enddefinitions $end\n#0\n1p\n",
        "vmecheck: dump line 4: NumberTooLarge\nb.vcd, line 4:\n    $var reg 131072 q mem [131071:0] $end\n    \
^^^^\nNumberTooLarge: ",
    ),
    (
        "$timescale 1 ns $end\n$scope module bench $end\n$var port 1 <0 AS $end\n$var port [5:0] <1 AM $end\n\
$upscope $end\n$enddefinitions $end\n#0\n$dumpports\npH 0 6 <0\n$end\n",
        "vmecheck: dump line 4: BadVar\nb.vcd, line 4:\n    $var port [5:0] <1 AM $end\n    ^^^^\n\
a port of extended VCD: record with `$dumpvars` and not with `$dumpports`\nBadVar: ",
    ),
    (
        "$date\n    Tue Dec  1 17:00:00 2026\n",
        "vmecheck: dump line 1: UnfinishedSection\nb.vcd, line 1:\n    $date\n    ^^^^^\nUnfinishedSection: ",
    ),
    (
        "$timescale 1 ns $end\n$scope module bench $end\n$var wire 1 p AS $end\n$upscope $end",
        "vmecheck: dump line 4: NoEndDefinitions\nb.vcd, line 4:\n    the text ends here\nNoEndDefinitions: ",
    ),
    (
        "$timescale 1 ns $end\n$scope module bench $end\n$var port 1 <0 AS $end\n$upscope $end\n\
$enddefinitions $end\n#0\n$dumpports\npH 0 6 <0\n$end\n",
        "vmecheck: dump line 7: BadToken\nb.vcd, line 7:\n    $dumpports\n    ^^^^^^^^^^\n\
a section of extended VCD: record with `$dumpvars` and not with `$dumpports`\nBadToken: ",
    ),
    (
        "$enddefinitions $end\n#0\n$date today $end\n$enddefinitions $end\n",
        "vmecheck: dump line 3: BadToken\nb.vcd, line 3:\n    $date today $end\n    ^^^^^\n\
a second header begins here: two dumps stand in one file\nBadToken: ",
    ),
    (
        "$timescale 1 ns $end\n$scope module libsigrok $end\n$var wire 1 ! AS $end\n$var wire 2 \" DS $end\n\
$upscope $end\n$enddefinitions $end\n#0 1! b11 \"\n#20 0! 1%\n",
        "vmecheck: dump line 8: UndeclaredCode\nb.vcd, line 8:\n    #20 0! 1%\nUndeclaredCode: ",
    ),
    (
        "$timescale 1 ns $end\n$scope module libsigrok $end\n$var wire 1 ! AS $end\n$var wire 2 \" DS $end\n\
$upscope $end\n$enddefinitions $end\n#0 1! b11 \"\n#20 0! b111 \"\n",
        "vmecheck: dump line 8: TooWide\nb.vcd, line 8:\n    #20 0! b111 \"\nTooWide: ",
    ),
    (
        "$var wire 1 ! AS $end\n$enddefinitions $end\n#20 1%\n",
        "vmecheck: dump line 3: UndeclaredCode\nb.vcd, line 3:\n    #20 1%\n        ^^\nUndeclaredCode: ",
    ),
    (
        "$var wire 1 ! AS $end\n$enddefinitions $end\n#20 1! #10\n",
        "vmecheck: dump line 3: TimeBackwards\nb.vcd, line 3:\n    #20 1! #10\nTimeBackwards: ",
    ),
    (
        "$var wire 1 ! AS $end\n$enddefinitions $end\n#20 0! $end\n",
        "vmecheck: dump line 3: BadToken\nb.vcd, line 3:\n    #20 0! $end\n           ^^^^\nBadToken: ",
    ),
    (
        "$timescale 1 ns $end $end\n$enddefinitions $end\n",
        "vmecheck: dump line 1: BadToken\nb.vcd, line 1:\n    $timescale 1 ns $end $end\nBadToken: ",
    ),
];

/// Whether the message about a refused dump begins with `told`, in `variables`, which holds the whole dump, and in
/// `bind`, which reads it piece by piece.
fn is_shown(alloc: Global, dump: &str, told: &str) -> bool {
    let mut out = LimitedSink::new(alloc, 100);
    let mut whole = LimitedSink::new(alloc, 5000);
    let mut read = Bytes::new(dump.as_bytes());
    let of_whole = tell_variables(alloc, &mut read, b"b.vcd", &mut out, &mut whole);
    let mut pieces = LimitedSink::new(alloc, 5000);
    let mut read = Bytes::new(dump.as_bytes());
    let of_pieces = bind(
        alloc,
        &mut read,
        b"b.vcd",
        None,
        None,
        &mut out,
        &mut pieces,
    );
    of_whole == 3
        && of_pieces == 3
        && out.bytes.is_empty()
        && whole.bytes.as_slice().starts_with(told.as_bytes())
        && pieces.bytes.as_slice().starts_with(told.as_bytes())
}

#[test]
fn a_refused_dump_is_shown_where_it_is_at_fault(rt: HostRuntime) {
    for (dump, told) in REFUSED_DUMPS.iter() {
        assert!(rt; is_shown(rt.alloc(), dump, told), "{told}");
    }
}

/// A binding of AS* and the address modifier.
const MODIFIER_BINDING: &str =
    "slots 1\nAS = b.AS\nDS0 = 1\nDS1 = 1\nDTACK = 1\nBERR = 1\nIACK = 1\nAM = b.AM\n\
LWORD = 1\nWRITE = 1\nA = 1\nBBSY = 1\nBR = 1\nBG0 = 1\nBG1 = 1\nBG2 = 1\nBG3 = 1\nIA = 1\n";

/// A dump of them, in which AS* falls too early.
const MODIFIER_DUMP: &str =
    "$timescale 10 ns $end\n$scope module b $end\n$var wire 1 p AS $end\n$var wire 6 q AM $end\n\
$upscope $end\n$enddefinitions $end\n#0 1p b111101 q\n#3 b111110 q\n#5 0p\n";

/// What its picture has.
static PICTURED: [&str; 1] = [">time (10 ns)</text>"];

/// What its save file has.
static VIEWED: [&str; 3] = [
    "\n[timestart] 0\n*-6.000000 50 -1 ",
    "\n-the broken line\n@28\nb.AS\n@200\n-handshake\n@28\nb.AS\n",
    "\n-address and data\n@22\nb.AM[5:0]\n",
];

#[test]
fn the_viewer_counts_in_the_unit_of_the_time_scale(rt: HostRuntime) {
    let binding = MODIFIER_BINDING.as_bytes();
    let broken = ("broken B3 at instant 3 time 5 line AS\n", 1);
    assert!(rt;
        explains(
            rt.alloc(),
            binding,
            MODIFIER_DUMP,
            0,
            broken,
            (&VIEWED, &PICTURED)
        )
    );
}

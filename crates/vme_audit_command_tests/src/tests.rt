use std::alloc::Global;
use vme_audit::Allowance;
use vme_audit_command::{AuditOptions, NamedDump, TestSuite, audit, junit_file};
use vme_stream::{Bytes, Io};
use vme_test_streams::{LimitedSink, PieceReader};
use vme_trace::Rule;

/// A binding of the lines of the data transfer bus; no other line moves.
const BINDING: &[u8] = b"slots 1
AS = b.AS
DS0 = b.DS0
DS1 = b.DS1
DTACK = b.DTACK
BERR = b.BERR
IACK = b.IACK
WRITE = b.WRITE
SYSRESET = b.R
AM0 = 1
AM1 = 0
AM2 = 1
AM3 = 1
AM4 = 1
AM5 = 1
LWORD = 1
A = 1
BBSY = 0
BR = 1
BG0 = 1
BG1 = 1
BG2 = 1
BG3 = 1
IA = 1
";

/// The definitions of each dump.
const HEAD: &str = "$scope module b $end
$var wire 1 a AS $end
$var wire 1 p DS0 $end
$var wire 1 q DS1 $end
$var wire 1 d DTACK $end
$var wire 1 e BERR $end
$var wire 1 i IACK $end
$var wire 1 w WRITE $end
$var wire 1 r R $end
$upscope $end
$enddefinitions $end
";

/// A read that is answered.
const READ: &str = "#0 1a 1p 1q 1d 1e 1i 1w 1r\n#10 0a\n#20 0p\n#30 0d\n#40 1a 1p\n#50 1d\n";

/// Two answers without a transfer. Judging starts anew after the first.
const ANSWERS: &str = "#0 1a 1p 1q 1d 1e 1i 1w 1r\n#10 0d\n#20 1d\n#30 0e\n#40 1e\n";

/// The two answers, and after them a word that is no item of a dump.
const FAULTY_ANSWERS: &str =
    "#0 1a 1p 1q 1d 1e 1i 1w 1r\n#10 0d\n#20 1d\n#30 0e\n#40 1e\nnonsense\n";

/// The lines of both answers.
const BOTH: &[u8] = b"d: broken H4 at instant 2 time 10 line DTACK
d: broken H4 at instant 4 time 30 line BERR
";

/// The lines of both answers, and the outcome.
const BOTH_BROKEN: &[u8] = b"d: broken H4 at instant 2 time 10 line DTACK
d: broken H4 at instant 4 time 30 line BERR
d: broken
";

/// Options of an audit without counts.
fn quietly<'a>(allowances: &'a [Allowance]) -> AuditOptions<'a> {
    AuditOptions {
        allowances,
        transfers: 1,
        stop: None,
        skew: 0,
        is_quiet: true,
    }
}

/// How a dump is read.
#[derive(Clone, Copy)]
struct DumpFeed {
    portion: usize,
    is_torn: bool,
}

const WHOLE: DumpFeed = DumpFeed {
    portion: 1_000_000,
    is_torn: false,
};

/// A dump that a `PieceReader` reads.
type ReadDump<'a> = NamedDump<'a, Io<PieceReader<'a>>>;

/// A dump with the definitions `HEAD`, and `body` after them.
fn dump_of<'a>(name: &'a [u8], body: &'a str, feed: DumpFeed) -> ReadDump<'a> {
    let head = if feed.is_torn {
        PieceReader::torn(HEAD.as_bytes(), feed.portion)
    } else {
        PieceReader::new(HEAD.as_bytes(), feed.portion)
    };
    NamedDump {
        name,
        dump: Io::new(head.then(body.as_bytes())),
    }
}

/// The expected output, error output and status.
#[derive(Clone, Copy)]
struct WantedAudit<'a> {
    /// The lines. `..` at the end of a line is for the names of rules.
    out: &'a [u8],
    err: &'a [u8],
    status: u8,
}

/// Whether a line is the expected one, up to its `..`, if it has one.
fn is_line(line: &[u8], wanted: &[u8]) -> bool {
    match wanted.strip_suffix(b"..") {
        Some(front) => line.starts_with(front),
        None => line == wanted,
    }
}

fn count_lines(text: &[u8]) -> usize {
    text.split(|byte| *byte == b'\n').count()
}

/// Whether the lines of a text are the expected ones.
fn has_lines(text: &[u8], wanted: &[u8]) -> bool {
    let lines = text.split(|byte| *byte == b'\n');
    let wanted_lines = wanted.split(|byte| *byte == b'\n');
    count_lines(text) == count_lines(wanted)
        && lines
            .zip(wanted_lines)
            .all(|(line, wanted)| is_line(line, wanted))
}

/// Whether auditing dumps by a binding gives this result, where only `room` bytes can be written.
fn audits(
    alloc: Global,
    binding: &[u8],
    dumps: &mut [ReadDump<'_>],
    options: AuditOptions<'_>,
    suite: &mut TestSuite,
    room: usize,
    wanted: (bool, WantedAudit<'_>),
) -> bool {
    let mut out = LimitedSink::new(alloc, room);
    let mut err = LimitedSink::new(alloc, 10_000);
    let (is_audited, status) = audit(
        alloc,
        &mut Bytes::new(binding),
        dumps,
        options,
        suite,
        &mut out,
        &mut err,
    );
    (is_audited, status) == (wanted.0, wanted.1.status)
        && has_lines(out.bytes.as_slice(), wanted.1.out)
        && err.bytes.as_slice() == wanted.1.err
}

/// Whether the audit of a dump with this body gives this result.
fn has_result(
    alloc: Global,
    body: &str,
    feed: DumpFeed,
    options: AuditOptions<'_>,
    wanted: WantedAudit<'_>,
) -> bool {
    let mut suite = TestSuite::new(alloc, false);
    let mut dumps = [dump_of(b"d", body, feed)];
    audits(
        alloc,
        BINDING,
        &mut dumps,
        options,
        &mut suite,
        10_000,
        (true, wanted),
    )
}

/// Sizes of portions.
static PORTIONS: [usize; 9] = [1, 2, 3, 5, 7, 8, 13, 64, 1_000];

/// Whether the audit gives this result for each size of portions.
fn always_has_result(
    alloc: Global,
    body: &str,
    is_torn: bool,
    options: AuditOptions<'_>,
    wanted: WantedAudit<'_>,
) -> bool {
    let mut same = true;
    for portion in PORTIONS.iter() {
        let feed = DumpFeed {
            portion: *portion,
            is_torn,
        };
        same &= has_result(alloc, body, feed, options, wanted);
    }
    same
}

#[test]
fn outcomes_are_told(rt: HostRuntime) {
    let conforming = WantedAudit {
        out: b"d: conforming\n",
        err: b"",
        status: 0,
    };
    let few = WantedAudit {
        out: b"d: not covered: 1 of 2 transfers answered\n",
        err: b"",
        status: 6,
    };
    let never_idle = WantedAudit {
        out: b"d: not covered: never idle\n",
        err: b"",
        status: 6,
    };
    let two = AuditOptions {
        transfers: 2,
        ..quietly(&[])
    };
    assert!(rt; has_result(rt.alloc(), READ, WHOLE, quietly(&[]), conforming));
    assert!(rt; has_result(rt.alloc(), READ, WHOLE, two, few));
    assert!(rt; has_result(rt.alloc(), "", WHOLE, quietly(&[]), never_idle));
}

#[test]
fn counts_are_told(rt: HostRuntime) {
    let told = WantedAudit {
        out: b"d: 0 broken, 0 unreadable, 0 allowed
d: 0 resets, 0 tenures, 1 cycles (1 single, 0 block, 0 free, 0 acknowledge)
d: 1 transfers (1 read, 0 write; 1 by DTACK, 0 by BERR, 0 pending)
d: never asked: U4 ..
d: conforming
",
        err: b"",
        status: 0,
    };
    let options = AuditOptions {
        is_quiet: false,
        ..quietly(&[])
    };
    assert!(rt; has_result(rt.alloc(), READ, WHOLE, options, told));
}

/// The result with both answers as breaks.
const BROKEN: WantedAudit<'static> = WantedAudit {
    out: BOTH_BROKEN,
    err: b"",
    status: 1,
};

/// Each break is reported, for any sizes of portions.
#[test]
fn breaks_are_told(rt: HostRuntime) {
    assert!(rt; always_has_result(rt.alloc(), ANSWERS, false, quietly(&[]), BROKEN));
}

#[test]
fn breaks_are_allowed(rt: HostRuntime) {
    let told = WantedAudit {
        out: b"d: allowed H4 at instant 2 time 10 line DTACK
d: allowed H4 at instant 4 time 30 line BERR
d: conforming with 2 allowed
",
        err: b"",
        status: 0,
    };
    let allowances = [Allowance {
        rule: Rule::H4,
        line: None,
    }];
    let options = AuditOptions {
        transfers: 0,
        ..quietly(&allowances)
    };
    assert!(rt; has_result(rt.alloc(), ANSWERS, WHOLE, options, told));
}

/// A dump is read only up to the break that ends its audit. A later fault isn't reported.
#[test]
fn an_audit_is_stopped(rt: HostRuntime) {
    let told = WantedAudit {
        out: b"d: broken H4 at instant 2 time 10 line DTACK\nd: broken\n",
        err: b"",
        status: 1,
    };
    let options = AuditOptions {
        stop: Some(1),
        ..quietly(&[])
    };
    assert!(rt; always_has_result(rt.alloc(), ANSWERS, false, options, told));
    assert!(rt; always_has_result(rt.alloc(), FAULTY_ANSWERS, false, options, told));
}

/// Before a fault the breaks are reported whose instants are followed by a later time.
#[test]
fn a_fault_is_told(rt: HostRuntime) {
    let told = WantedAudit {
        out: BOTH,
        err: b"vmecheck: d: dump line 17: BadToken\n",
        status: 3,
    };
    assert!(rt; always_has_result(rt.alloc(), FAULTY_ANSWERS, false, quietly(&[]), told));
    let early = WantedAudit {
        out: b"d: broken H4 at instant 2 time 10 line DTACK\n",
        err: b"vmecheck: d: dump line 16: BadToken\n",
        status: 3,
    };
    let body = "#0 1a 1p 1q 1d 1e 1i 1w 1r\n#10 0d\n#20 1d\n#30 0e\nnonsense\n";
    assert!(rt; has_result(rt.alloc(), body, WHOLE, quietly(&[]), early));
}

/// Steps within the skew are merged, also before a fault.
#[test]
fn a_dump_is_settled(rt: HostRuntime) {
    let told = WantedAudit {
        out: b"d: not covered: 0 of 1 transfers answered\n",
        err: b"",
        status: 6,
    };
    let options = AuditOptions {
        skew: 10,
        ..quietly(&[])
    };
    let apart = AuditOptions {
        skew: 9,
        ..quietly(&[])
    };
    assert!(rt; always_has_result(rt.alloc(), ANSWERS, false, options, told));
    assert!(rt; always_has_result(rt.alloc(), ANSWERS, false, apart, BROKEN));
}

/// If a read fails, what is complete in the bytes read is reported.
#[test]
fn a_dump_that_cannot_be_read_is_told(rt: HostRuntime) {
    let told = WantedAudit {
        out: BOTH,
        err: b"vmecheck: d: cannot read\n",
        status: 3,
    };
    assert!(rt; always_has_result(rt.alloc(), ANSWERS, true, quietly(&[]), told));
    let nothing = WantedAudit { out: b"", ..told };
    let torn = DumpFeed {
        is_torn: true,
        ..WHOLE
    };
    assert!(rt; has_result(rt.alloc(), "", torn, quietly(&[]), nothing));
}

/// Whether a prefix of the output is written, where only `room` bytes can be.
fn writes_the_first(alloc: Global, room: usize) -> bool {
    let mut suite = TestSuite::new(alloc, true);
    let mut dumps = [dump_of(b"d", ANSWERS, WHOLE)];
    let wanted = WantedAudit {
        out: BOTH_BROKEN.get(..room).unwrap_or(b""),
        err: b"vmecheck: cannot write\n",
        status: 5,
    };
    audits(
        alloc,
        BINDING,
        &mut dumps,
        quietly(&[]),
        &mut suite,
        room,
        (true, wanted),
    )
}

/// If a write fails, a prefix of the output is written.
#[test]
fn a_write_that_fails_ends_the_audit(rt: HostRuntime) {
    for room in 0..BOTH_BROKEN.len() {
        assert!(rt; writes_the_first(rt.alloc(), room), "{room}");
    }
}

/// Whether a text that isn't a binding is refused.
fn is_binding_refused(alloc: Global) -> bool {
    let mut suite = TestSuite::new(alloc, true);
    let mut dumps = [dump_of(b"d", "", WHOLE)];
    let wanted = WantedAudit {
        out: b"",
        err: b"vmecheck: binding line 1: SlotsFirst\n",
        status: 3,
    };
    audits(
        alloc,
        b"AS = b.AS\n",
        &mut dumps,
        quietly(&[]),
        &mut suite,
        1_000,
        (false, wanted),
    )
}

/// With a text that isn't a binding nothing is audited.
#[test]
fn a_binding_is_refused(rt: HostRuntime) {
    assert!(rt; is_binding_refused(rt.alloc()));
}

/// The result for three dumps.
const IN_ORDER: WantedAudit<'static> = WantedAudit {
    out: b"a<\"b\">?&?: not covered: 1 of 2 transfers answered
d: broken H4 at instant 2 time 10 line DTACK
d: broken H4 at instant 4 time 30 line BERR
d: broken
",
    err: b"vmecheck: c: dump line 12: BadToken\n",
    status: 3,
};

/// The JUnit file of these dumps. `..` at the end of a line is for the names of rules.
const JUNIT: &str = "<?xml version=\"1.0\" encoding=\"UTF-8\"?>
<testsuite name=\"vmecheck\">
<testcase name=\"a&lt;&quot;b&quot;&gt;?&amp;&#9;\">\
<failure message=\"not covered: 1 of 2 transfers answered\"/><system-out>0 broken, 0 unreadable, 0 allowed
0 resets, 0 tenures, 1 cycles (1 single, 0 block, 0 free, 0 acknowledge)
1 transfers (1 read, 0 write; 1 by DTACK, 0 by BERR, 0 pending)
never asked: U4 ..
</system-out></testcase>
<testcase name=\"c\"><error message=\"dump line 12: BadToken\"/></testcase>
<testcase name=\"d\"><failure message=\"broken H4 at instant 2 time 10 line DTACK\"/>\
<failure message=\"broken H4 at instant 4 time 30 line BERR\"/><system-out>2 broken, 0 unreadable, 0 allowed
0 resets, 0 tenures, 0 cycles (0 single, 0 block, 0 free, 0 acknowledge)
0 transfers (0 read, 0 write; 0 by DTACK, 0 by BERR, 0 pending)
never asked: U2 U3 U4 ..
</system-out></testcase>
</testsuite>
";

/// Whether the JUnit file of a suite is the expected one.
fn has_junit_file(alloc: Global, suite: &TestSuite, wanted: &str) -> bool {
    match junit_file(alloc, suite) {
        Ok(text) => has_lines(text.as_bytes(), wanted.as_bytes()),
        Err(_) => false,
    }
}

/// Whether three dumps are reported in their order.
fn are_told_in_order(alloc: Global, suite: &mut TestSuite) -> bool {
    let mut dumps = [
        dump_of(b"a<\"b\">\x01&\t", READ, WHOLE),
        dump_of(b"c", "nonsense\n", WHOLE),
        dump_of(b"d", ANSWERS, WHOLE),
    ];
    let two = AuditOptions {
        transfers: 2,
        ..quietly(&[])
    };
    audits(
        alloc,
        BINDING,
        &mut dumps,
        two,
        suite,
        10_000,
        (true, IN_ORDER),
    )
}

/// Whether three dumps are reported in their order, on standard output and in the JUnit file.
fn are_in_order(alloc: Global) -> bool {
    let mut suite = TestSuite::new(alloc, true);
    are_told_in_order(alloc, &mut suite) && has_junit_file(alloc, &suite, JUNIT)
}

/// Dumps are reported in their order, and the JUnit file has a test case for each, with escaped names.
#[test]
fn dumps_are_told_in_their_order(rt: HostRuntime) {
    assert!(rt; are_in_order(rt.alloc()));
}

/// Whether the result is the expected one, or a prefix of the expected output and want of memory.
fn is_outcome_or_short(out: &[u8], err: &[u8], status: u8, wanted: WantedAudit<'_>) -> bool {
    if status == 4 {
        return wanted.out.starts_with(out) && err.ends_with(b"out of memory\n");
    }
    status == wanted.status && out == wanted.out && err == wanted.err
}

/// Whether the audit of a dump with this body gives the expected result, or a prefix of the expected output and want of
/// memory. `out` and `err` are its sinks.
fn is_full_or_short_in(
    alloc: Global,
    body: &str,
    out: &mut LimitedSink,
    err: &mut LimitedSink,
    wanted: WantedAudit<'_>,
) -> bool {
    let mut suite = TestSuite::new(alloc, false);
    let mut dumps = [dump_of(b"d", body, WHOLE)];
    let (_is_audited, status) = audit(
        alloc,
        &mut Bytes::new(BINDING),
        &mut dumps,
        quietly(&[]),
        &mut suite,
        out,
        err,
    );
    is_outcome_or_short(out.bytes.as_slice(), err.bytes.as_slice(), status, wanted)
}

/// Whether the audit of a dump with this body gives the expected result, or is short for want of memory, with `out` as
/// a sink, or there is no memory for the other sink.
fn is_full_or_short_by(
    alloc: Global,
    body: &str,
    out: &mut LimitedSink,
    wanted: WantedAudit<'_>,
) -> bool {
    match LimitedSink::with_capacity(alloc, 1_000) {
        Ok(mut err) => is_full_or_short_in(alloc, body, out, &mut err, wanted),
        Err(_) => true,
    }
}

/// Whether the audit of a dump with this body gives the expected result, or is short for want of memory, or there is no
/// memory for the sinks.
fn is_full_or_short(alloc: Global, body: &str, wanted: WantedAudit<'_>) -> bool {
    match LimitedSink::with_capacity(alloc, 1_000) {
        Ok(mut out) => is_full_or_short_by(alloc, body, &mut out, wanted),
        Err(_) => true,
    }
}

/// Want of memory is reported with status 4, also if there is no memory for the line of a refusal.
#[test]
fn want_of_memory_is_told(rt: HostRuntime) {
    let refused = WantedAudit {
        out: b"",
        err: b"vmecheck: d: dump line 12: BadToken\n",
        status: 3,
    };
    assert!(rt; is_full_or_short(rt.alloc(), ANSWERS, BROKEN));
    assert!(rt; is_full_or_short(rt.alloc(), "nonsense\n", refused));
}

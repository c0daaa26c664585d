use std::alloc::{AllocError, Global};
use std::process::Abort;
use std::thread::Threads;
use vme_annotate::{annotate, list_times};
use vme_annotation::annotated_says_the_same;
use vme_commands::list::list;
use vme_commands::{BLOCK, BUILT_IN};
use vme_confirm_command::confirm::confirm_with;
use vme_stream::Bytes;
use vme_test_streams::{LimitedSink, has_answered};

/// The definitions without their end, `END`, which comes before a body.
const HEAD: &str = "$timescale 1 ns $end\n$scope module bus $end\n\
$var wire 1 p AS $end\n$var wire 1 q DS0 $end\n$var wire 1 r DS1 $end\n\
$var wire 1 s DTACK $end\n$var wire 1 t BERR $end\n$var wire 1 u IACK $end\n\
$upscope $end\n";

const END: &str = "$enddefinitions $end";

const BODY: &str = "\n#0 1p 1q 1r 1s 1t 1u\n#10 0p\n#20 0q\n#30 0s\n#40 1p 1q\n#50 1s\n";

/// The declarations that are added after that head.
const DECLARED: &str = "$scope module vmecheck $end $var string 1 ! tenure $end \
$var string 1 \" cycle $end $var string 1 # transfer $end $var string 1 $ verdict $end $upscope $end ";

/// Bodies after the head, the annotated text of each, and the status.
static BODIES: [(&str, &str, u8); 14] = [
    // Plain
    (
        "\n#0 1p 1q 1r 1s 1t 1u\n#10 0p\n#20 0q\n#30 0s\n#40 1p 1q\n#50 1s\n",
        "\n#0 s- ! s- \" s- # s- $ sopen ! 1p 1q 1r 1s 1t 1u\n#10 sA24_FFFFFE \" 0p\n#20 sREAD # 0q\n#30 0s\n#40 s- \" \
            s- # 1p 1q\n#50 1s\n",
        0,
    ),
    // No line feed at the end
    (
        "\n#0 1p 1q 1r 1s 1t 1u\n#10 0p\n#20 0q\n#30 0s\n#40 1p 1q\n#50 1s",
        "\n#0 s- ! s- \" s- # s- $ sopen ! 1p 1q 1r 1s 1t 1u\n#10 sA24_FFFFFE \" 0p\n#20 sREAD # 0q\n#30 0s\n#40 s- \" \
            s- # 1p 1q\n#50 1s",
        0,
    ),
    // Ends with a time
    (
        "\n#0 1p 1q 1r 1s 1t 1u\n#10 0p\n#20 0q\n#30 0s\n#40 1p 1q\n#50 1s\n#60",
        "\n#0 s- ! s- \" s- # s- $ sopen ! 1p 1q 1r 1s 1t 1u\n#10 sA24_FFFFFE \" 0p\n#20 sREAD # 0q\n#30 0s\n#40 s- \" \
            s- # 1p 1q\n#50 1s\n#60",
        0,
    ),
    // Dumpoff
    (
        "\n#0 1p 1q 1r 1s 1t 1u\n#10 0p\n#20 0q\n#30 0s\n#35 $dumpoff xp xq xr xs xt xu $end\n#40 1p 1q\n#50 1s\n",
        "\n#0 s- ! s- \" s- # s- $ sopen ! 1p 1q 1r 1s 1t 1u\n#10 sA24_FFFFFE \" 0p\n#20 sREAD # 0q\n#30 0s\n#35 s- ! \
            s- \" s- # sU1_AS $ $dumpoff xp xq xr xs xt xu $end\n#40 1p 1q\n#50 1s\n",
        2,
    ),
    // Times repeat
    (
        "\n#0 1p 1q 1r 1s 1t 1u\n#10 #10 0p #10\n#20 0q\n#30 0s\n#40 1p 1q\n#50 1s\n",
        "\n#0 s- ! s- \" s- # s- $ sopen ! 1p 1q 1r 1s 1t 1u\n#10 sA24_FFFFFE \" #10 0p #10\n#20 sREAD # 0q\n#30 \
            0s\n#40 s- \" s- # 1p 1q\n#50 1s\n",
        0,
    ),
    // Zero repeats
    (
        "\n#0 #0 $dumpvars 1p 1q 1r 1s 1t 1u $end #0\n#0 1p 1q 1r 1s 1t 1u\n#10 0p\n#20 0q\n#30 0s\n#40 1p 1q\n\
            #50 1s\n",
        "\n#0 s- ! s- \" s- # s- $ sopen ! #0 $dumpvars 1p 1q 1r 1s 1t 1u $end #0\n#0 1p 1q 1r 1s 1t 1u\n#10 \
            sA24_FFFFFE \" 0p\n#20 sREAD # 0q\n#30 0s\n#40 s- \" s- # 1p 1q\n#50 1s\n",
        0,
    ),
    // Changes before the first time
    (
        "\n1p 1q 1r 1s 1t 1u\n#10 0p\n#20 0q\n#30 0s\n#40 1p 1q\n#50 1s\n",
        " s- ! s- \" s- # s- $ sopen !\n1p 1q 1r 1s 1t 1u\n#10 sA24_FFFFFE \" 0p\n#20 sREAD # 0q\n#30 0s\n#40 s- \" s- \
            # 1p 1q\n#50 1s\n",
        0,
    ),
    // Changes before #0
    (
        "\n1p 1q 1r 1s 1t 1u\n#0\n#10 0p\n#20 0q\n#30 0s\n#40 1p 1q\n#50 1s\n",
        "\n1p 1q 1r 1s 1t 1u\n#0 s- ! s- \" s- # s- $ sopen !\n#10 sA24_FFFFFE \" 0p\n#20 sREAD # 0q\n#30 0s\n#40 s- \
            \" s- # 1p 1q\n#50 1s\n",
        0,
    ),
    // A time in a comment
    (
        "\n#0 $comment #10 #20 $end\n 1p 1q 1r 1s 1t 1u\n#10 0p\n#20 0q\n#30 0s\n#40 1p 1q\n#50 1s\n",
        "\n#0 s- ! s- \" s- # s- $ sopen ! $comment #10 #20 $end\n 1p 1q 1r 1s 1t 1u\n#10 sA24_FFFFFE \" 0p\n#20 sREAD \
            # 0q\n#30 0s\n#40 s- \" s- # 1p 1q\n#50 1s\n",
        0,
    ),
    // Never idle
    ("\n#0 1p", "\n#0 s- ! s- \" s- # s- $ 1p", 2),
    // No changes
    ("\n", " s- ! s- \" s- # s- $\n", 2),
    // Times without changes
    (
        "\n#5\n#7\n#10 0p\n#20 0q\n#30 0s\n#40 1p 1q\n#50 1s\n",
        "\n#5\n#7\n#10 s- ! s- \" s- # s- $ 0p\n#20 0q\n#30 0s\n#40 1p 1q\n#50 1s\n",
        2,
    ),
    // Break
    (
        "\n#0 1p 1q 1r 1s 1t 1u\n#10 0p\n#20 0s\n#40 1p 1q\n#50 1s\n",
        "\n#0 s- ! s- \" s- # s- $ sopen ! 1p 1q 1r 1s 1t 1u\n#10 sA24_FFFFFE \" 0p\n#20 s- ! s- \" s- # sH4_DTACK $ \
            0s\n#40 1p 1q\n#50 1s\n",
        1,
    ),
    // Unreadable
    (
        "\n#0 1p 1q 1r 1s 1t 1u\n#10 xp\n#20 0q\n#30 0s\n#40 1p 1q\n#50 1s\n",
        "\n#0 s- ! s- \" s- # s- $ sopen ! 1p 1q 1r 1s 1t 1u\n#10 s- ! s- \" s- # sU1_AS $ xp\n#20 0q\n#30 0s\n#40 1p \
            1q\n#50 1s\n",
        2,
    ),
];

/// What replaces the last section of the head, the declarations that are added after it, and what is shown at first.
static HEADS: [(&str, &str, &str); 6] = [
    // A scope of that name
    (
        "$scope module vmecheck $end $var wire 1 ! tenure $end $upscope $end $upscope $end\n",
        "$scope module vmecheck_ $end $var string 1 \" tenure $end $var string 1 # cycle $end \
$var string 1 $ transfer $end $var string 1 % verdict $end $upscope $end ",
        "\n#0 s- \" s- # s- $ s- % sopen \" 1p",
    ),
    // One that has underscores
    (
        "$scope module vmecheck__ $end $var wire 1 ! x $end $upscope $end $upscope $end\n",
        "$scope module vmecheck___ $end $var string 1 \" tenure $end $var string 1 # cycle $end \
$var string 1 $ transfer $end $var string 1 % verdict $end $upscope $end ",
        "\n#0 s- \" s- # s- $ s- % sopen \" 1p",
    ),
    // A name that looks like a path
    (
        "$var wire 1 ! vmecheck.tenure $end $upscope $end\n",
        "$scope module vmecheck_ $end $var string 1 \" tenure $end $var string 1 # cycle $end \
$var string 1 $ transfer $end $var string 1 % verdict $end $upscope $end ",
        "\n#0 s- \" s- # s- $ s- % sopen \" 1p",
    ),
    // A scope that stays open
    (
        "",
        "$scope module vmecheck $end $var string 1 ! tenure $end $var string 1 \" cycle $end \
$var string 1 # transfer $end $var string 1 $ verdict $end $upscope $end ",
        "\n#0 s- ! s- \" s- # s- $ sopen ! 1p",
    ),
    // Codes that are taken
    (
        "$var wire 1 # a $end $var wire 8 ! b $end $var real 64 % c $end $upscope $end\n",
        "$scope module vmecheck $end $var string 1 \" tenure $end $var string 1 $ cycle $end \
$var string 1 & transfer $end $var string 1 ' verdict $end $upscope $end ",
        "\n#0 s- \" s- $ s- & s- ' sopen \" 1p",
    ),
    // Long codes
    (
        "$var wire 1 !!!! a $end $var wire 1 abcdefghijklmnopqrstuvwxyz b $end $upscope $end\n",
        "$scope module vmecheck $end $var string 1 ! tenure $end $var string 1 \" cycle $end \
$var string 1 # transfer $end $var string 1 $ verdict $end $upscope $end ",
        "\n#0 s- ! s- \" s- # s- $ sopen ! 1p",
    ),
];

/// What a command wrote to `out` and to `err`, and its status.
#[derive(Drop)]
struct Answer {
    out: LimitedSink,
    err: LimitedSink,
    status: u8,
}

impl Answer {
    /// Whether `text` was written to `out` and `told` to `err`, with this status.
    fn is(&self, text: &str, told: &str, status: u8) -> bool {
        has_answered(&self.out, &self.err, self.status, (text, told, status))
    }

    /// Whether what was written to `out` begins with `front`, nothing was written to `err`, and the status is 0.
    fn begins(&self, front: &str) -> bool {
        self.out.bytes.as_slice().starts_with(front.as_bytes())
            && self.err.bytes.is_empty()
            && self.status == 0
    }
}

/// The parts of a text, joined.
fn text_of(alloc: Global, parts: &[&str]) -> Result<String, AllocError> {
    let mut text = String::new(alloc);
    for part in parts {
        text.push_str(part)?;
    }
    Ok(text)
}

/// What annotating a dump by a binding writes, to a sink with room for `room` bytes.
fn annotated(alloc: Global, binding: &[u8], dump: &[u8], skew: u64, room: usize) -> Answer {
    let mut out = LimitedSink::new(alloc, room);
    let mut err = LimitedSink::new(alloc, 1000);
    let status = annotate(
        alloc,
        &mut Bytes::new(binding),
        &mut Bytes::new(dump),
        skew,
        &mut out,
        &mut err,
    );
    Answer { out, err, status }
}

/// What listing a dump by a binding with times writes, to a sink with room for `room` bytes.
fn timed(alloc: Global, binding: &[u8], dump: &[u8], room: usize) -> Answer {
    let mut out = LimitedSink::new(alloc, room);
    let mut err = LimitedSink::new(alloc, 1000);
    let status = list_times(
        alloc,
        &mut Bytes::new(binding),
        &mut Bytes::new(dump),
        BLOCK,
        0,
        &mut out,
        &mut err,
    );
    Answer { out, err, status }
}

/// What listing a dump writes.
fn listed<R: AllocGlobal + Threads + Sync>(rt: &R, dump: &[u8]) -> Answer {
    let mut out = LimitedSink::new(rt.alloc(), 10_000);
    let mut err = LimitedSink::new(rt.alloc(), 1000);
    let status = list(
        rt,
        rt.alloc(),
        &mut Bytes::new(BUILT_IN),
        &mut Bytes::new(dump),
        BLOCK,
        1,
        0,
        &mut out,
        &mut err,
    );
    Answer { out, err, status }
}

/// Whether two dumps have the same listing, with this status.
fn have_one_listing<R: AllocGlobal + Threads + Sync>(
    rt: &R,
    first: &[u8],
    second: &[u8],
    status: u8,
) -> bool {
    let one = listed(rt, first);
    let other = listed(rt, second);
    one.out.bytes.as_slice() == other.out.bytes.as_slice()
        && one.status == status
        && other.status == status
}

/// Whether the head with `body` is annotated as the head with `shown`, with this status, and both have the same
/// listing.
fn shows<R: AllocGlobal + Threads + Sync>(
    rt: &R,
    body: &str,
    shown: &str,
    status: u8,
) -> Option<bool> {
    let dump = text_of(rt.alloc(), &[HEAD, END, body]).ok()?;
    let wanted = text_of(rt.alloc(), &[HEAD, DECLARED, END, shown]).ok()?;
    let answer = annotated(rt.alloc(), BUILT_IN, dump.as_bytes(), 0, 10_000);
    Some(
        answer.is(wanted.as_str(), "", status)
            && have_one_listing(rt, dump.as_bytes(), wanted.as_bytes(), status),
    )
}

#[test]
fn bodies(rt: HostRuntime) {
    annotated_says_the_same();
    for (body, shown, status) in BODIES.iter() {
        assert!(rt; shows(&rt, body, shown, *status) == Some(true), "{body}");
    }
}

/// Whether a head that ends with `last` gets the declarations `declared`, the body begins with `first`, and the
/// annotated dump has the same listing.
fn declares<R: AllocGlobal + Threads + Sync>(
    rt: &R,
    last: &str,
    declared: &str,
    first: &str,
) -> Option<bool> {
    let head = HEAD.replace(rt.alloc(), "$upscope $end\n", last).ok()?;
    let dump = text_of(rt.alloc(), &[head.as_str(), END, BODY]).ok()?;
    let front = text_of(rt.alloc(), &[head.as_str(), declared, END, first]).ok()?;
    let answer = annotated(rt.alloc(), BUILT_IN, dump.as_bytes(), 0, 10_000);
    Some(
        answer.begins(front.as_str())
            && have_one_listing(rt, dump.as_bytes(), &answer.out.bytes, 0),
    )
}

#[test]
fn heads(rt: HostRuntime) {
    for (last, declared, first) in HEADS.iter() {
        assert!(rt;
            declares(&rt, last, declared, first) == Some(true),
            "{last}"
        );
    }
}

/// Whether a dump that is annotated again has one more scope, and the same listing.
fn has_a_scope_more<R: AllocGlobal + Threads + Sync>(rt: &R) -> Option<bool> {
    let dump = text_of(rt.alloc(), &[HEAD, END, BODY]).ok()?;
    let scope = "$scope module vmecheck_ $end $var string 1 % tenure $end ";
    let front = text_of(rt.alloc(), &[HEAD, DECLARED, scope]).ok()?;
    let once = annotated(rt.alloc(), BUILT_IN, dump.as_bytes(), 0, 10_000);
    let again = annotated(rt.alloc(), BUILT_IN, &once.out.bytes, 0, 10_000);
    Some(again.begins(front.as_str()) && have_one_listing(rt, dump.as_bytes(), &again.out.bytes, 0))
}

#[test]
fn twice(rt: HostRuntime) {
    assert!(rt; has_a_scope_more(&rt) == Some(true));
}

/// Whether `body` is annotated as `shown`, by a binding and a skew.
fn shows_by(alloc: Global, binding: &[u8], body: &str, skew: u64, shown: &str) -> Option<bool> {
    let dump = text_of(alloc, &[HEAD, END, body]).ok()?;
    let wanted = text_of(alloc, &[HEAD, DECLARED, END, shown]).ok()?;
    let answer = annotated(alloc, binding, dump.as_bytes(), skew, 10_000);
    Some(answer.is(wanted.as_str(), "", 0))
}

/// With a skew the changes are at the times of the deskewed steps.
#[test]
fn by_a_skew(rt: HostRuntime) {
    let body = "\n#0 1p 1q 1r 1s 1t 1u\n#10 0p\n#20 0s\n#23 0q\n#40 1p 1q\n#50 1s\n";
    let shown = "\n#0 s- ! s- \" s- # s- $ sopen ! 1p 1q 1r 1s 1t 1u\n#10 sA24_FFFFFE \" 0p\n\
#20 sREAD # 0s\n#23 0q\n#40 s- \" s- # 1p 1q\n#50 1s\n";
    assert!(rt; shows_by(rt.alloc(), BUILT_IN, body, 3, shown) == Some(true));
}

/// Heads, bodies after the end of the definitions, and the message about each.
static REFUSALS: [(&str, &str, &str); 4] = [
    ("", "\n", "vmecheck: binding line 2: NoSuchPath\n"),
    (
        HEAD,
        "\n#5\n#4\n",
        "vmecheck: dump line 12: TimeBackwards\n",
    ),
    (
        HEAD,
        "\n#0 1~\n",
        "vmecheck: dump line 11: UndeclaredCode\n",
    ),
    (
        "$upscope $end\n",
        "\n",
        "vmecheck: dump line 1: ScopeUnderflow\n",
    ),
];

/// Whether a dump is neither annotated nor listed with times, and `told` is the message.
fn is_refused(alloc: Global, head: &str, body: &str, told: &str) -> Option<bool> {
    let dump = text_of(alloc, &[head, END, body]).ok()?;
    Some(
        annotated(alloc, BUILT_IN, dump.as_bytes(), 0, 10_000).is("", told, 3)
            && timed(alloc, BUILT_IN, dump.as_bytes(), 10_000).is("", told, 3),
    )
}

/// A dump that `list` refuses is refused here too, and nothing is written.
#[test]
fn refusals(rt: HostRuntime) {
    for (head, body, told) in REFUSALS.iter() {
        assert!(rt;
            is_refused(rt.alloc(), head, body, told) == Some(true),
            "{told}"
        );
    }
}

#[test]
fn a_binding_is_refused_first(rt: HostRuntime) {
    let answer = annotated(rt.alloc(), b"slots 0\n", b"", 0, 10_000);
    assert!(rt; answer.is("", "vmecheck: binding line 1: SlotsFirst\n", 3));
}

/// The listing of the plain dump with times, and of others.
static TIMED: [(&str, &str, u8); 3] = [
    (
        BODY,
        "vmecheck listing 3 times\nstart 1@0\ntenure 1@0 open end -\ncycle 2@10 S 3D FFFFFE end 5@40\n\
transfer 3@20 of 2@10 read DTACK 4@30 close 5@40\nverdict conforming\n",
        0,
    ),
    (
        "\n#0 1p 1q 1r 1s 1t 1u\n#10 0p\n#20 0s\n",
        "vmecheck listing 3 times\nstart 1@0\ntenure 1@0 open end -\ncycle 2@10 S 3D FFFFFE end -\n\
verdict broken H4 3@20 DTACK\n",
        1,
    ),
    ("\n", "vmecheck listing 3 times\nverdict never-idle\n", 2),
];

/// Whether `listing` is refused as a listing of a dump, because of its header.
fn is_no_listing(alloc: Global, dump: &[u8], listing: &[u8]) -> bool {
    let mut out = LimitedSink::new(alloc, 1000);
    let mut err = LimitedSink::new(alloc, 1000);
    let (status, _) = confirm_with(
        alloc,
        &mut Bytes::new(BUILT_IN),
        &mut Bytes::new(dump),
        Bytes::new(listing),
        0,
        &mut out,
        &mut err,
    );
    Answer { out, err, status }.is("", "vmecheck: listing header\n", 3)
}

/// Whether `body` is listed with times as `wanted`, with this status, and `confirm` refuses that text.
fn tells_times(alloc: Global, body: &str, wanted: &str, status: u8) -> Option<bool> {
    let dump = text_of(alloc, &[HEAD, END, body]).ok()?;
    Some(
        timed(alloc, BUILT_IN, dump.as_bytes(), 10_000).is(wanted, "", status)
            && is_no_listing(alloc, dump.as_bytes(), wanted.as_bytes()),
    )
}

#[test]
fn times(rt: HostRuntime) {
    for (body, wanted, status) in TIMED.iter() {
        assert!(rt;
            tells_times(rt.alloc(), body, wanted, *status) == Some(true),
            "{body}"
        );
    }
}

/// A binding by which the opening is idle, since all control lines are constants.
const CONSTANTS: &str =
    "slots 1\nAS = 1\nDS0 = 1\nDS1 = 1\nDTACK = 1\nBERR = 1\nIACK = 1\nAM = 1\nLWORD = 1\n\
WRITE = 1\nA = 1\nBBSY = 0\nBR = 1\nBG0 = 1\nBG1 = 1\nBG2 = 1\nBG3 = 1\nIA = 1\n";

/// Whether the dump is listed with times as `wanted`, by a binding.
fn tells_times_by(alloc: Global, binding: &[u8], wanted: &str) -> Option<bool> {
    let dump = text_of(alloc, &[HEAD, END, BODY]).ok()?;
    Some(timed(alloc, binding, dump.as_bytes(), 1000).is(wanted, "", 0))
}

#[test]
fn an_opening_has_no_time(rt: HostRuntime) {
    let wanted = "vmecheck listing 3 times\nstart 0@-\ntenure 0@- open end -\nverdict conforming\n";
    assert!(rt; tells_times_by(rt.alloc(), CONSTANTS.as_bytes(), wanted) == Some(true));
}

#[test]
fn an_opening_is_shown_with_the_first_step(rt: HostRuntime) {
    let shown = "\n#0 s- ! s- \" s- # s- $ sopen ! 1p 1q 1r 1s 1t 1u\n#10 0p\n#20 0q\n#30 0s\n\
#40 1p 1q\n#50 1s\n";
    assert!(rt; shows_by(rt.alloc(), CONSTANTS.as_bytes(), BODY, 0, shown) == Some(true));
}

/// A dump whose body continues with 2,000 changes that leave the levels as they are.
fn long_dump(alloc: Global) -> Result<String, AllocError> {
    let mut dump = text_of(alloc, &[HEAD, END, BODY])?;
    for _ in 0..2000 {
        dump.push_str("#50 1u 1u\n")?;
    }
    Ok(dump)
}

/// Whether, of the long dump, annotated, a prefix is written to a sink with room for `room` bytes, and the failure is
/// reported.
fn writes_a_front(alloc: Global, room: usize) -> Option<bool> {
    let dump = long_dump(alloc).ok()?;
    let whole = annotated(alloc, BUILT_IN, dump.as_bytes(), 0, 100_000);
    let front = annotated(alloc, BUILT_IN, dump.as_bytes(), 0, room);
    Some(
        whole.out.bytes.starts_with(front.out.bytes.as_slice())
            && front.err.bytes.as_slice() == b"vmecheck: cannot write\n".as_slice()
            && front.status == 5,
    )
}

static ROOMS: [usize; 3] = [0, 1, 400];

/// What is held is written first, and then the rest of the dump at once.
#[test]
fn writes_that_fail(rt: HostRuntime) {
    for room in ROOMS.iter() {
        assert!(rt; writes_a_front(rt.alloc(), *room) == Some(true), "{room}");
    }
}

/// Whether nothing is written of a listing with times for which there is no room.
fn writes_no_times(alloc: Global) -> Option<bool> {
    let dump = text_of(alloc, &[HEAD, END, BODY]).ok()?;
    let answer = timed(alloc, BUILT_IN, dump.as_bytes(), 0);
    Some(answer.is("", "vmecheck: cannot write\n", 5))
}

#[test]
fn times_that_cannot_be_written(rt: HostRuntime) {
    assert!(rt; writes_no_times(rt.alloc()) == Some(true));
}

/// Made for `tests/memory/run`, which refuses each allocation in turn: want of memory is reported, or the answer is
/// right.
#[test]
fn want_of_memory_is_told(rt: HostRuntime) {
    let (Ok(dump), Ok(wanted), Ok(mut out), Ok(mut err)) = (
        text_of(rt.alloc(), &[HEAD, END, BODY]),
        text_of(rt.alloc(), &[HEAD, DECLARED, END, BODIES[0].1]),
        LimitedSink::with_capacity(rt.alloc(), 10_000),
        LimitedSink::with_capacity(rt.alloc(), 100),
    ) else {
        return;
    };
    let status = annotate(
        rt.alloc(),
        &mut Bytes::new(BUILT_IN),
        &mut Bytes::new(dump.as_bytes()),
        0,
        &mut out,
        &mut err,
    );
    let answer = Answer { out, err, status };
    let is_so = if status == 4 {
        answer.is("", "vmecheck: out of memory\n", 4)
    } else {
        answer.is(wanted.as_str(), "", 0)
    };
    assert!(rt; is_so);
}

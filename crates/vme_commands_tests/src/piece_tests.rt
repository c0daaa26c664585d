//! A dump that is judged in pieces: the verdict and the listing are those of the whole text, wherever it is cut.

use crate::tests::Command;
use std::alloc::Global;
use std::process::Abort;
use std::test::Fail;
use std::thread::Threads;
use vme_commands::check::check_by;
use vme_commands::list::list_by;
use vme_commands::{BLOCK, BUILT_IN, Workers};
use vme_stream::{Bytes, Io};
use vme_test_recordings::{BUS_DEFINITIONS, READ_LISTING, bus_dump};
use vme_test_streams::{LimitedSink, PieceReader, WantedAnswer, has_answered};

/// How long the pieces are that a dump is cut into. The longest is longer than each dump here.
const PIECES: [usize; 10] = [1, 2, 3, 5, 8, 13, 21, 34, 64, 4096];

/// How many workers read each dump.
static WORKERS: [u32; 3] = [1, 2, 5];

/// The skews that it is deskewed by. No two steps are so near.
static SKEWS: [u64; 2] = [0, 1];

/// A source of a dump that gives at most `portion` bytes a read.
fn in_portions(dump: &str, portion: usize) -> Io<PieceReader<'_>> {
    Io::new(PieceReader::new(dump.as_bytes(), portion))
}

/// The expected answers to a dump: the line of its verdict, its listing, or else its first fault, and the status.
#[derive(Clone, Copy)]
struct Wanted {
    line: &'static str,
    listing: &'static str,
    fault: &'static str,
    status: u8,
}

const CONFORMING: Wanted = Wanted {
    line: "conforming\n",
    listing: READ_LISTING,
    fault: "",
    status: 0,
};

const NEVER_IDLE: Wanted = Wanted {
    line: "never idle\n",
    listing: "vmecheck listing 3\nverdict never-idle\n",
    fault: "",
    status: 2,
};

/// The expected answers to a dump with this fault, or to one that conforms if the fault is empty.
fn wanted_of(fault: &'static str) -> Wanted {
    if fault.is_empty() {
        return CONFORMING;
    }
    Wanted {
        line: "",
        listing: "",
        fault,
        status: 3,
    }
}

fn expect_pieces<R: Abort + AllocGlobal + Threads + Sync>(rt: &R, dump: &str, wanted: Wanted) {
    for piece in PIECES {
        for count in WORKERS.iter() {
            let workers = Workers::with_pieces(rt, *count, piece, 4 * piece);
            expect_by(rt, dump, &workers, wanted);
        }
    }
}

/// Expects these answers to a dump, whatever the skew.
fn expect_by<R: Abort + AllocGlobal + Threads + Sync>(
    rt: &R,
    dump: &str,
    workers: &Workers<'_, R>,
    wanted: Wanted,
) {
    let piece = workers.piece();
    let line = (wanted.line, wanted.fault, wanted.status);
    let listing = (wanted.listing, wanted.fault, wanted.status);
    for skew in SKEWS.iter() {
        assert!(rt;
            answers_by(rt.alloc(), Command::Check, dump, workers, *skew, line),
            "pieces of {piece} bytes: {dump}"
        );
        assert!(rt;
            answers_by(rt.alloc(), Command::List, dump, workers, *skew, listing),
            "pieces of {piece} bytes: {dump}"
        );
    }
}

/// The status with which a command on a dump ends, by these workers.
fn status_by<R: Threads + Sync>(
    alloc: Global,
    command: Command,
    dump: &str,
    workers: &Workers<'_, R>,
    skew: u64,
    out: &mut LimitedSink,
    err: &mut LimitedSink,
) -> u8 {
    let mut binding = Bytes::new(BUILT_IN);
    let mut dump = in_portions(dump, workers.piece());
    let (binding, dump) = (&mut binding, &mut dump);
    match command {
        Command::Check => check_by(alloc, workers, binding, dump, BLOCK, skew, out, err),
        Command::List => list_by(alloc, workers, binding, dump, BLOCK, skew, out, err),
    }
}

/// Whether a command on a dump, by these workers, answers `wanted`.
fn answers_by<R: Threads + Sync>(
    alloc: Global,
    command: Command,
    dump: &str,
    workers: &Workers<'_, R>,
    skew: u64,
    wanted: WantedAnswer<'_>,
) -> bool {
    let mut out = LimitedSink::new(alloc, 1000);
    let mut err = LimitedSink::new(alloc, 1000);
    let status = status_by(alloc, command, dump, workers, skew, &mut out, &mut err);
    has_answered(&out, &err, status, wanted)
}

/// Bodies of dumps, and the fault of each, or none where it conforms.
static BODIES: [(&str, &str); 9] = [
    (
        "#0 1p 1q 1r 1s 1t 1u\n#10 0p\n#20 0q\n#30 0s\n#40 1p 1q\n#50 1s\n",
        "",
    ),
    // no line feed at the end
    (
        "#0 1p 1q 1r 1s 1t 1u\n#10 0p\n#20 0q\n#30 0s\n#40 1p 1q\n#50 1s",
        "",
    ),
    // times in a comment, a value and its code on two lines, dump sections, a time twice
    (
        "#0 1p 1q 1r $comment #5 0p #7\n#8 b $end 1s 1t 1u\n#10 $dumpall b0\np\n$end\n#20 0q\n#20\n#30 r1.5\n\
                q 0s\n#40 1p 1q\n#50 1s\n",
        "",
    ),
    // faults at the front, in the middle and at the end
    ("?\n#0 1p\n", "vmecheck: dump line 11: BadToken\n"),
    (
        "#0 1p 1q 1r 1s 1t 1u\n#10 0p\n#9 0q\n#30 0s\n",
        "vmecheck: dump line 13: TimeBackwards\n",
    ),
    (
        "#0 1p 1q 1r 1s 1t 1u\n#10 0p\n#20 0z\n",
        "vmecheck: dump line 13: UndeclaredCode\n",
    ),
    (
        "#0 1p 1q 1r 1s 1t 1u\n#10 0p\n#20 b1",
        "vmecheck: dump line 13: UnfinishedSection\n",
    ),
    (
        "#0 1p 1q 1r 1s 1t 1u\n#10 $dumpall 0p\n#20 0q\n",
        "vmecheck: dump line 12: UnfinishedSection\n",
    ),
    (
        "#0 1p 1q 1r 1s 1t 1u\n#10 0p $comment\n#20 0q\n",
        "vmecheck: dump line 12: UnfinishedSection\n",
    ),
];

#[test]
fn dumps_in_pieces(rt: HostRuntime) -> Result<(), Fail> {
    for (body, fault) in BODIES.iter() {
        let dump = bus_dump(rt.alloc(), body)?;
        expect_pieces(&rt, dump.as_str(), wanted_of(fault));
    }
    expect_pieces(&rt, BUS_DEFINITIONS, NEVER_IDLE);
    Ok(())
}

#[test]
fn definitions_in_pieces(rt: HostRuntime) {
    expect_pieces(
        &rt,
        "",
        wanted_of("vmecheck: dump line 1: NoEndDefinitions\n"),
    );
    expect_pieces(
        &rt,
        "$scope module\nbus",
        wanted_of("vmecheck: dump line 1: UnfinishedSection\n"),
    );
    expect_pieces(
        &rt,
        "$upscope\n$end\n",
        wanted_of("vmecheck: dump line 1: ScopeUnderflow\n"),
    );
}

/// Several workers read a body once there is a share for each of them. A single worker doesn't wait.
#[test]
fn a_body_is_shared_once_it_is_enough(rt: HostRuntime) {
    let four = Workers::new(&rt, 4);
    assert!(rt; four.want_more(4_194_303) && !four.want_more(4_194_304));
    assert!(rt; !Workers::new(&rt, 1).want_more(0));
}

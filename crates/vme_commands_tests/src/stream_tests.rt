//! Readers that fail or never end, and writers that fail, at each place.

use crate::tests::{BODY, Command, USUAL, status_of};
use std::io::{self, Error, ErrorKind, Read, Write};
use std::process::Abort;
use std::test::Fail;
use std::thread::Threads;
use vme_commands::check::check;
use vme_commands::{BLOCK, BUILT_IN};
use vme_stream::{Bytes, Io};
use vme_test_recordings::{BROKEN_LISTING, BUS_DEFINITIONS, READ_LISTING, bus_dump};
use vme_test_streams::{PieceReader, PieceWriter};
use vme_trace::Source;

static COMMANDS: [Command; 2] = [Command::Check, Command::List];

/// A source of the bytes up to `place`, at most `piece` a read, that fails there.
fn torn_at(text: &str, place: usize, piece: usize) -> Io<PieceReader<'_>> {
    let front = text.as_bytes().get(..place).unwrap_or_default();
    Io::new(PieceReader::torn(front, piece))
}

/// A reader of `left` line feeds, at most `piece` a read, and the least room that it was offered.
#[derive(Drop)]
struct LineFeeds {
    left: usize,
    piece: usize,
    least_room: usize,
}

impl Read for LineFeeds {
    fn read(&mut self, buffer: &mut [u8]) -> io::Result<usize> {
        self.least_room = self.least_room.min(buffer.len());
        let count = buffer.len().min(self.left).min(self.piece);
        buffer[..count].fill(b'\n');
        self.left -= count;
        Ok(count)
    }
}

/// A reader that is interrupted for good.
#[derive(Drop)]
struct Stuck;

impl Read for Stuck {
    fn read(&mut self, _buffer: &mut [u8]) -> io::Result<usize> {
        Err(Error::from(ErrorKind::Interrupted))
    }
}

/// A writer that takes nothing, and says so.
#[derive(Drop)]
struct Deaf;

impl Write for Deaf {
    fn write(&mut self, _bytes: &[u8]) -> io::Result<usize> {
        Ok(0)
    }

    fn flush(&mut self) -> io::Result<()> {
        Ok(())
    }
}

/// Whether a command writes nothing to `out`, writes `text` to `err`, and ends with status 3.
fn refuses<R: AllocGlobal + Threads + Sync, B: Source, D: Source>(
    rt: &R,
    command: Command,
    binding: &mut B,
    dump: &mut D,
    text: &str,
) -> bool {
    let mut out = PieceWriter::new(rt.alloc(), 1000, 1000);
    let mut err = PieceWriter::new(rt.alloc(), 1000, 1000);
    let status = status_of(
        rt,
        command,
        binding,
        dump,
        USUAL,
        &mut Io::new(&mut out),
        &mut Io::new(&mut err),
    );
    out.bytes.is_empty() && err.bytes.as_slice() == text.as_bytes() && status == 3
}

/// Whether a command reports that the binding can't be read, if a read fails at `place`.
fn tells_torn_binding<R: AllocGlobal + Threads + Sync>(
    rt: &R,
    command: Command,
    text: &str,
    place: usize,
) -> bool {
    let mut binding = torn_at(text, place, 1000);
    let mut dump = Bytes::new(BUS_DEFINITIONS.as_bytes());
    let wanted = "vmecheck: cannot read binding\n";
    refuses(rt, command, &mut binding, &mut dump, wanted)
}

#[test]
fn torn_bindings(rt: HostRuntime) -> Result<(), Fail> {
    let text = str::from_utf8(BUILT_IN).ok().ok_or("no text")?;
    for command in COMMANDS.iter() {
        for place in 0..=text.len() {
            assert!(rt;
                tells_torn_binding(&rt, *command, text, place),
                "at {place}"
            );
        }
    }
    Ok(())
}

/// Whether a command reports that the dump from this source can't be read, or what else is wrong with it, by `wanted`.
fn tells_of_dump<R: AllocGlobal + Threads + Sync, D: Source>(
    rt: &R,
    command: Command,
    dump: &mut D,
    wanted: &str,
) -> bool {
    let mut binding = Bytes::new(BUILT_IN);
    refuses(rt, command, &mut binding, dump, wanted)
}

#[test]
fn torn_dumps(rt: HostRuntime) -> Result<(), Fail> {
    let whole = bus_dump(rt.alloc(), BODY)?;
    let text = whole.as_str();
    for command in COMMANDS.iter() {
        for place in 0..=text.len() {
            let mut dump = torn_at(text, place, 1);
            let wanted = "vmecheck: cannot read dump\n";
            assert!(rt;
                tells_of_dump(&rt, *command, &mut dump, wanted),
                "at {place}"
            );
        }
    }
    Ok(())
}

/// How many line feeds dumps have, how many come a read, and the message about each: 17,000,000 bytes, the most that
/// there may be, one more, and as many as 64 bits can count.
static LONG_DUMPS: [(usize, usize, &str); 5] = [
    (
        17_000_000,
        100_000,
        "vmecheck: dump line 17000001: NoEndDefinitions\n",
    ),
    (
        268_435_456,
        1_000_000,
        "vmecheck: dump line 268435457: NoEndDefinitions\n",
    ),
    (268_435_457, 1_000_000, "vmecheck: dump too long\n"),
    (usize::MAX, 1, "vmecheck: cannot read dump\n"),
    (usize::MAX, 1_000_000, "vmecheck: dump too long\n"),
];

/// Dumps that are long, and too long to be read in pieces of this size or at all. The reader with pieces of 1,000,000
/// fills its room.
#[test]
fn long_dumps(rt: HostRuntime) {
    for (left, piece, wanted) in LONG_DUMPS.iter() {
        let mut line_feeds = LineFeeds {
            left: *left,
            piece: *piece,
            least_room: usize::MAX,
        };
        let mut dump = Io::new(&mut line_feeds);
        assert!(rt;
            tells_of_dump(&rt, Command::Check, &mut dump, wanted),
            "{wanted}"
        );
        assert!(rt; line_feeds.least_room >= 4_096, "{wanted}");
    }
}

#[test]
fn a_reader_that_is_interrupted_for_good(rt: HostRuntime) {
    for command in COMMANDS.iter() {
        let wanted = "vmecheck: cannot read dump\n";
        assert!(rt; tells_of_dump(&rt, *command, &mut Io::new(Stuck), wanted));
    }
}

#[test]
fn a_writer_that_takes_nothing(rt: HostRuntime) -> Result<(), Fail> {
    let dump = bus_dump(rt.alloc(), BODY)?;
    let mut err = PieceWriter::new(rt.alloc(), 1000, 1000);
    let status = check(
        &rt,
        rt.alloc(),
        &mut Bytes::new(BUILT_IN),
        &mut Bytes::new(dump.as_bytes()),
        BLOCK,
        1,
        0,
        &mut Io::new(Deaf),
        &mut Io::new(&mut err),
    );
    let message = b"vmecheck: cannot write\n".as_slice();
    assert!(rt; err.bytes.as_slice() == message && status == 5);
    Ok(())
}

/// Whether a command writes the first `room` bytes of `text` to a writer with that room, and `message` to `err`, with
/// this status.
fn writes_front<R: AllocGlobal + Threads + Sync>(
    rt: &R,
    command: Command,
    dump: &str,
    text: &str,
    room: usize,
    message: &str,
    status: u8,
) -> bool {
    let mut out = PieceWriter::new(rt.alloc(), room, 5);
    let mut err = PieceWriter::new(rt.alloc(), 1000, 1000);
    let found = status_of(
        rt,
        command,
        &mut Bytes::new(BUILT_IN),
        &mut Bytes::new(dump.as_bytes()),
        USUAL,
        &mut Io::new(&mut out),
        &mut Io::new(&mut err),
    );
    Some(out.bytes.as_slice()) == text.as_bytes().get(..room)
        && err.bytes.as_slice() == message.as_bytes()
        && found == status
}

/// Commands, whether their dump is one without the strobe, and what each writes and its status.
static WRITTEN: [(Command, bool, &str, u8); 4] = [
    (Command::Check, false, "conforming\n", 0),
    (Command::List, false, READ_LISTING, 0),
    (
        Command::Check,
        true,
        "broken H4 at instant 3 time 30 line DTACK\n",
        1,
    ),
    (Command::List, true, BROKEN_LISTING, 1),
];

/// Expects that a command writes `text` where there is room for it, and else as much of it as there is room for.
fn expect_fronts<R: Abort + AllocGlobal + Threads + Sync>(
    rt: &R,
    command: Command,
    dump: &str,
    text: &str,
    status: u8,
) {
    let full = "vmecheck: cannot write\n";
    for room in 0..text.len() {
        assert!(rt;
            writes_front(rt, command, dump, text, room, full, 5),
            "{text}"
        );
    }
    assert!(rt;
        writes_front(rt, command, dump, text, text.len(), "", status),
        "{text}"
    );
}

#[test]
fn full_writers(rt: HostRuntime) -> Result<(), Fail> {
    let whole = bus_dump(rt.alloc(), BODY)?;
    let body = BODY.replace(rt.alloc(), "#20 0q\n", "")?;
    let broken = bus_dump(rt.alloc(), body.as_str())?;
    for (command, is_broken, text, status) in WRITTEN.iter() {
        let dump = if *is_broken {
            broken.as_str()
        } else {
            whole.as_str()
        };
        expect_fronts(&rt, *command, dump, text, *status);
    }
    Ok(())
}

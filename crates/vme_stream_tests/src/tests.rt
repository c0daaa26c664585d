ghost use Rattle.std.specs.Prelude.{ℕ, ◌≤◌, length, IfOk};

use std::alloc::AllocError;
use std::test::Fail;
use vcd_read::ByteConsumer;
use vme_stream::{Bytes, InFault, Io, Message, complain, read_all, read_by, write_all};
use vme_test_streams::{PieceReader, PieceWriter};

const TEXT: &[u8] = b"a line of some bytes\nand another\n";

#[test]
fn a_source_is_read_to_its_end(rt: HostRuntime) -> Result<(), Fail> {
    for piece in [1, 7, 1000] {
        let mut source = Io::new(PieceReader::new(TEXT, piece));
        let whole = read_all(rt.alloc(), &mut source).ok().ok_or("no text")?;
        assert!(rt; whole.as_slice() == TEXT, "{piece}");
        let rest = read_all(rt.alloc(), &mut source).ok().ok_or("no end")?;
        assert!(rt; rest.is_empty(), "{piece}");
    }
    let whole = read_all(rt.alloc(), &mut Bytes::new(TEXT))
        .ok()
        .ok_or("no text")?;
    assert!(rt; whole.as_slice() == TEXT);
    Ok(())
}

#[test]
fn the_reader_of_a_source_is_lent(rt: HostRuntime) {
    let source = Io::new(PieceReader::new(TEXT, 7));
    assert!(rt; source.reader().left == TEXT);
}

/// Each read has room for 4,096 bytes, whether the reader gives one byte at once, or all that it has room for.
#[test]
fn each_read_has_room(rt: HostRuntime) -> Result<(), Fail> {
    let text = Vec::from_elem(rt.alloc(), b'a', 300_000)?;
    for piece in [1, 4_095, 131_071, 300_000] {
        let mut pieces = PieceReader::new(text.as_slice(), piece);
        let whole = read_all(rt.alloc(), &mut Io::new(&mut pieces))
            .ok()
            .ok_or("no text")?;
        assert!(rt; whole.as_slice() == text.as_slice(), "{piece}");
        assert!(rt; pieces.least_room >= 4_096, "{piece}");
    }
    Ok(())
}

#[test]
fn a_source_that_fails_cannot_be_read(rt: HostRuntime) {
    for place in 0..=TEXT.len() {
        let left = TEXT.get(..place).unwrap_or_default();
        let mut source = Io::new(PieceReader::torn(left, 3));
        let read = read_all(rt.alloc(), &mut source).err();
        assert!(rt; read == Some(InFault::Read), "{place}");
    }
}

/// Takes all but the last three of 1,000 bytes or more, and none of fewer. It counts them, and notes the most that it
/// was given.
#[derive(Drop)]
struct Thousands {
    taken: usize,
    most: usize,
}

impl ByteConsumer for Thousands {
    ghost Outcome = { ℕ };

    ghost ahead = { λ _ _. 0 };
}

impl Thousands {
    fn take(self, bytes: &[u8]) -> Result<(Thousands, usize), AllocError>
        ensures { IfOk result (λ made. made.1 ≤ length bytes.now) }
    {
        let count = if bytes.len() < 1000 {
            0
        } else {
            bytes.len() - 3
        };
        let next = Thousands {
            taken: self.taken.saturating_add(count),
            most: self.most.max(bytes.len()),
        };
        Ok((next, count))
    }
}

/// The room that reading a source takes depends on what is taken at once, and not on the source's length.
#[test]
fn a_long_source_is_read_in_little_room(rt: HostRuntime) -> Result<(), Fail> {
    let bytes = Vec::from_elem(rt.alloc(), 7u8, 1_000_000)?;
    let none = Thousands { taken: 0, most: 0 };
    let (made, rest) = read_by(
        rt.alloc(),
        &mut Bytes::new(&bytes),
        none,
        64,
        &|all: Thousands, bytes: &[u8]| all.take(bytes),
    )
    .ok()
    .ok_or("not read")?;
    let count = made.taken.saturating_add(rest.len());
    assert!(rt; count == 1_000_000 && made.most <= 16_384);
    Ok(())
}

#[test]
fn a_sink_takes_all_or_the_first_bytes(rt: HostRuntime) {
    for room in 0..=TEXT.len() {
        let mut writer = PieceWriter::new(rt.alloc(), room, 5);
        let written = write_all(&mut Io::new(&mut writer), TEXT);
        assert!(rt; written.is_ok() == (room == TEXT.len()), "{room}");
        assert!(rt;
            writer.bytes.as_slice() == TEXT.get(..room).unwrap_or_default(),
            "{room}"
        );
    }
}

#[test]
fn messages(rt: HostRuntime) {
    let mut writer = PieceWriter::new(rt.alloc(), 1000, 1000);
    let line = Message::new()
        .with(b"row ")
        .with_decimal(18_446_744_073_709_551_615)
        .with_line_feed();
    complain(&mut Io::new(&mut writer), line);
    complain(&mut Io::new(&mut writer), Message::new().with(b"no row\n"));
    assert!(rt; writer.bytes.as_slice() == b"row 18446744073709551615\nno row\n".as_slice());
}

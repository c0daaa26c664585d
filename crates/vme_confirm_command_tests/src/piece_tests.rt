//! Inputs that come in pieces, readers that fail, and outputs that are full.

use crate::tests::confirms_from;
use std::alloc::Global;
use std::io::{self, Read};
use vme_stream::{Bytes, Io};
use vme_test_recordings::{BUS_BINDING, READ_DUMP, READ_LISTING};
use vme_test_streams::{PieceReader, WantedAnswer};
use vme_trace::Source;

/// A source of a text, at most `piece` bytes a read.
fn in_pieces(text: &str, piece: usize) -> Io<PieceReader<'_>> {
    Io::new(PieceReader::new(text.as_bytes(), piece))
}

/// A source of the bytes up to `place`, at most `piece` a read, that fails there.
fn torn_at(text: &str, place: usize, piece: usize) -> Io<PieceReader<'_>> {
    let front = text.as_bytes().get(..place).unwrap_or_default();
    Io::new(PieceReader::torn(front, piece))
}

/// A reader of a header and `left` line feeds.
#[derive(Drop)]
struct HeaderAndFeeds {
    header: &'static [u8],
    left: usize,
}

impl Read for HeaderAndFeeds {
    fn read(&mut self, buffer: &mut [u8]) -> io::Result<usize> {
        if !self.header.is_empty() {
            let count = self.header.len().min(buffer.len());
            buffer[..count].copy_from_slice(&self.header[..count]);
            self.header = &self.header[count..];
            return Ok(count);
        }
        let count = buffer.len().min(self.left);
        buffer[..count].fill(b'\n');
        self.left -= count;
        Ok(count)
    }
}

/// Whether the comparison of these inputs gives this.
fn confirms<D: Source + Drop, L: Source + Drop>(
    alloc: Global,
    mut dump: D,
    listing: L,
    wanted: WantedAnswer<'_>,
) -> bool {
    confirms_from(alloc, BUS_BINDING, &mut dump, listing, 0, 1000, wanted)
}

/// Whether the listing is confirmed where a read gives at most `of_dump` bytes of the dump and `of_listing` of the
/// listing.
fn confirms_in_pieces(alloc: Global, of_dump: usize, of_listing: usize) -> bool {
    confirms(
        alloc,
        in_pieces(READ_DUMP, of_dump),
        in_pieces(READ_LISTING, of_listing),
        ("confirmed\n", "", 0),
    )
}

#[test]
fn pieces_of_any_length(rt: HostRuntime) {
    for piece in 1..=300 {
        assert!(rt; confirms_in_pieces(rt.alloc(), piece, 1), "{piece}");
        assert!(rt; confirms_in_pieces(rt.alloc(), 1, piece), "{piece}");
    }
}

/// Whether it is reported that the dump can't be read, if a read fails at `place`.
fn tells_torn_dump(alloc: Global, place: usize) -> bool {
    confirms(
        alloc,
        torn_at(READ_DUMP, place, 1),
        Bytes::new(READ_LISTING.as_bytes()),
        ("", "vmecheck: cannot read dump\n", 3),
    )
}

#[test]
fn torn_dumps(rt: HostRuntime) {
    for place in 0..=READ_DUMP.len() {
        assert!(rt; tells_torn_dump(rt.alloc(), place), "at {place}");
    }
}

/// Whether it is reported that the listing can't be read, if a read fails at `place`.
fn tells_torn_listing(alloc: Global, place: usize) -> bool {
    confirms(
        alloc,
        Bytes::new(READ_DUMP.as_bytes()),
        torn_at(READ_LISTING, place, 7),
        ("", "vmecheck: cannot read listing\n", 3),
    )
}

#[test]
fn torn_listings(rt: HostRuntime) {
    for place in 0..=READ_LISTING.len() {
        assert!(rt; tells_torn_listing(rt.alloc(), place), "at {place}");
    }
}

#[test]
fn full_outputs(rt: HostRuntime) {
    let mut dump = Bytes::new(READ_DUMP.as_bytes());
    let listing = Bytes::new(READ_LISTING.as_bytes());
    let wanted = ("", "vmecheck: cannot write\n", 5);
    assert!(rt; confirms_from(rt.alloc(), BUS_BINDING, &mut dump, listing, 0, 0, wanted));
}

/// A listing of more bytes than a dump may have.
#[test]
fn a_long_listing(rt: HostRuntime) {
    let line_feeds = HeaderAndFeeds {
        header: b"vmecheck listing 3\n",
        left: 300_000_000,
    };
    let dump = Bytes::new(READ_DUMP.as_bytes());
    let wanted = ("", "vmecheck: listing row 1: BadRow\n", 3);
    assert!(rt; confirms(rt.alloc(), dump, Io::new(line_feeds), wanted));
}

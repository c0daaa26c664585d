use crate::tests::{CHAINS, CYCLES, DUMPS, HELD, RESETS, Worked, followed};
use std::alloc::Global;
use std::process::Abort;
use vme_listing::{ListFault, Listing, read_listing, write_listing};
use vme_summary::{Lister, listing_by_blocks};
use vme_test_recordings::capture_of;
use vme_trace::{Capture, CutFault, Failed, Lines, Sink};

/// A sink that keeps what is written.
#[derive(Drop)]
struct Page {
    bytes: Vec<u8>,
    failures: u64,
}

impl Sink for Page {
    ghost use Rattle.std.specs.Prelude.{None};

    ghost writing = { λ s. record { taken = None; failures = s.failures } };

    fn write(&mut self, bytes: &[u8]) -> Result<usize, Failed> {
        if self.failures < u64::MAX && self.bytes.extend_from_slice(bytes).is_err() {
            self.failures += 1;
            return Err(Failed);
        }
        Ok(bytes.len())
    }
}

/// The listing that `text` is read as. After a failed allocation it is read again.
fn read(alloc: Global, text: &[u8]) -> Result<Listing, ListFault> {
    match read_listing(alloc, text) {
        Err(ListFault::Memory) => read_listing(alloc, text),
        answer => answer,
    }
}

/// The text of a listing.
fn written(alloc: Global, listing: &Listing) -> Option<Vec<u8>> {
    let mut page = Page {
        bytes: Vec::with_capacity(alloc, 1000).ok()?,
        failures: 0,
    };
    match write_listing(listing, &mut page) {
        Ok(()) => Some(page.bytes),
        Err(_) => None,
    }
}

/// Whether the listing is written as `rows`, and what is written is read as the listing.
pub(crate) fn has_rows(alloc: Global, listing: &Listing, rows: &str) -> bool {
    let Some(text) = written(alloc, listing) else {
        return false;
    };
    let text = text.as_slice();
    match read(alloc, text) {
        Ok(again) => {
            again.rows() == listing.rows()
                && text.strip_prefix(b"vmecheck listing 3\n") == Some(rows.as_bytes())
        }
        Err(_) => false,
    }
}

/// The listing, in blocks of `size` steps. After a failed allocation the capture is judged again.
fn listing_in(alloc: Global, capture: &Capture, size: u32) -> Result<Listing, CutFault> {
    match listing_by_blocks(alloc, capture, size) {
        Err(CutFault::Memory) => listing_by_blocks(alloc, capture, size),
        answer => answer,
    }
}

/// The listing of a recording whose steps come one after the other.
fn listing_as_made(alloc: Global, capture: &Capture) -> Option<Listing> {
    let other = Lines::new(1)?;
    let lister = followed(alloc, capture, Lister::new(alloc, &other))?;
    lister.listing(alloc, 65536).ok()
}

/// Whether `rows` is the listing in blocks of `size` steps.
fn is_listed(alloc: Global, capture: &Capture, size: u32, rows: &str) -> bool {
    match listing_in(alloc, capture, size) {
        Ok(listing) => has_rows(alloc, &listing, rows),
        Err(_) => false,
    }
}

/// Whether `rows` is the listing of the steps one after the other.
fn is_made(alloc: Global, capture: &Capture, rows: &str) -> bool {
    match listing_as_made(alloc, capture) {
        Some(listing) => has_rows(alloc, &listing, rows),
        None => false,
    }
}

/// Whether a worked recording has its listing, whatever the size of the blocks.
fn has_listing(alloc: Global, recording: &Worked) -> bool {
    let (start, text, _, rows) = recording;
    match capture_of(alloc, *start, text) {
        Some(capture) => {
            is_listed(alloc, &capture, 1, rows)
                && is_listed(alloc, &capture, 2, rows)
                && is_listed(alloc, &capture, 5, rows)
                && is_listed(alloc, &capture, 65536, rows)
                && is_made(alloc, &capture, rows)
        }
        None => false,
    }
}

fn assert_listings(rt: &impl Abort, alloc: Global, recordings: &[Worked]) {
    for recording in recordings {
        let (_, text, _, _) = recording;
        assert!(rt; has_listing(alloc, recording), "{text}");
    }
}

#[test]
fn dumps(rt: HostRuntime) {
    assert_listings(&rt, rt.alloc(), &DUMPS);
}

#[test]
fn cycles_chains_and_resets(rt: HostRuntime) {
    assert_listings(&rt, rt.alloc(), &CYCLES);
    assert_listings(&rt, rt.alloc(), &HELD);
    assert_listings(&rt, rt.alloc(), &CHAINS);
    assert_listings(&rt, rt.alloc(), &RESETS);
}

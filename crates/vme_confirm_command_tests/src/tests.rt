//! The answer to whole texts.

use std::alloc::Global;
use vme_confirm_command::confirm::confirm_with;
use vme_stream::{Bytes, Io};
use vme_test_recordings::{
    BROKEN_LISTING, BUS_BINDING, EARLY_ANSWER, LATE_LISTING, ONE_STEP_LISTING, READ_DUMP,
    READ_LISTING, RESET_LISTING, SETTLED_LISTING, bus_dump, reset_binding, reset_dump,
};
use vme_test_streams::{LimitedSink, PieceReader, WantedAnswer, has_answered};
use vme_trace::Source;

/// A dump with no path of the binding.
const UNBOUND: &str = "$enddefinitions $end\n";

/// Whether the comparison of a listing with that of a dump gives this, written to a sink with room for `room` bytes.
pub(crate) fn confirms_from<D: Source, L: Source + Drop>(
    alloc: Global,
    binding: &str,
    dump: &mut D,
    listing: L,
    skew: u64,
    room: usize,
    wanted: WantedAnswer<'_>,
) -> bool {
    let mut out = LimitedSink::new(alloc, room);
    let mut err = LimitedSink::new(alloc, 1000);
    let (status, _) = confirm_with(
        alloc,
        &mut Bytes::new(binding.as_bytes()),
        dump,
        listing,
        skew,
        &mut out,
        &mut err,
    );
    has_answered(&out, &err, status, wanted)
}

/// Whether the comparison of a listing with that of a dump gives this.
fn confirms<L: Source + Drop>(
    alloc: Global,
    binding: &str,
    dump: &str,
    listing: L,
    skew: u64,
    wanted: WantedAnswer<'_>,
) -> bool {
    let mut dump = Bytes::new(dump.as_bytes());
    confirms_from(alloc, binding, &mut dump, listing, skew, 1000, wanted)
}

/// Whether the comparison of the dump and its listing, with `new` in place of `old` in the listing, gives this.
fn confirms_other_listing(
    alloc: Global,
    old: &str,
    new: &str,
    wanted: WantedAnswer<'_>,
) -> Option<bool> {
    let listing = READ_LISTING.replace(alloc, old, new).ok()?;
    let listing = Bytes::new(listing.as_bytes());
    Some(confirms(alloc, BUS_BINDING, READ_DUMP, listing, 0, wanted))
}

/// Whether the comparison of the dump, with `new` in place of `old`, and a listing gives this.
fn confirms_other_dump(
    alloc: Global,
    old: &str,
    new: &str,
    listing: &str,
    wanted: WantedAnswer<'_>,
) -> Option<bool> {
    let dump = READ_DUMP.replace(alloc, old, new).ok()?;
    let listing = Bytes::new(listing.as_bytes());
    Some(confirms(alloc, BUS_BINDING, dump.as_str(), listing, 0, wanted))
}

/// A text in the listing, the text that replaces it, what is written, and the status.
static CONFIRMATIONS: [(&str, &str, &str, u8); 9] = [
    ("listing 3", "listing 3", "confirmed\n", 0),
    ("listing 3", "listing 2", "confirmed\n", 0),
    ("listing 3", "listing 1", "confirmed\n", 0),
    ("tenure 1 open end -\n", "", "not confirmed at row 2\n", 1),
    (
        "cycle 2 S 3D FFFFFE end 5\n",
        "",
        "not confirmed at row 3\n",
        1,
    ),
    (
        "FFFFFE end 5\n",
        "FFFFFE end 4294967295\n",
        "not confirmed at row 3\n",
        1,
    ),
    ("close 5", "close 6", "not confirmed at row 4\n", 1),
    (
        "conforming",
        "broken H4 3 DTACK",
        "not confirmed at row 5\n",
        1,
    ),
    (
        "verdict",
        "transfer 6 read pending\nverdict",
        "not confirmed at row 5\n",
        1,
    ),
];

#[test]
fn confirmations(rt: HostRuntime) {
    for (old, new, text, status) in CONFIRMATIONS.iter() {
        let wanted = (*text, "", *status);
        let is_so = confirms_other_listing(rt.alloc(), old, new, wanted).unwrap_or(false);
        assert!(rt; is_so, "{old} {new}");
    }
}

/// A text in the dump, the text that replaces it, and the listing of that dump.
static OTHER_DUMPS: [(&str, &str, &str); 3] = [
    (
        "#0 1p 1q 1r 1s 1t 1u\n#10 0p\n#20 0q\n#30 0s\n#40 1p 1q\n#50 1s\n",
        "",
        "vmecheck listing 3\nverdict never-idle\n",
    ),
    ("#20 0q\n", "", BROKEN_LISTING),
    (
        "#10 0p",
        "#10 xp",
        "vmecheck listing 3\nstart 1\ntenure 1 open end -\nverdict unreadable U1 2 AS\n",
    ),
];

#[test]
fn other_verdicts(rt: HostRuntime) {
    for (old, new, listing) in OTHER_DUMPS.iter() {
        let wanted = ("confirmed\n", "", 0);
        let is_so = confirms_other_dump(rt.alloc(), old, new, listing, wanted).unwrap_or(false);
        assert!(rt; is_so, "{listing}");
    }
}

/// A text in the listing, the text that replaces it, and the message about the fault.
static LISTING_FAULTS: [(&str, &str, &str); 6] = [
    (READ_LISTING, "", "vmecheck: listing header\n"),
    ("listing 3", "listing 4", "vmecheck: listing header\n"),
    (
        "verdict conforming\n",
        "",
        "vmecheck: listing row 5: BadRow\n",
    ),
    (
        "conforming\n",
        "conforming\n\n",
        "vmecheck: listing row 5: BadRow\n",
    ),
    ("S 3D", "K 3D", "vmecheck: listing row 3: BadRow\n"),
    ("cycle 2", "cycle 0", "vmecheck: listing row 3: Unsorted\n"),
];

#[test]
fn listing_faults(rt: HostRuntime) {
    for (old, new, text) in LISTING_FAULTS.iter() {
        let wanted = ("", *text, 3);
        let is_so = confirms_other_listing(rt.alloc(), old, new, wanted).unwrap_or(false);
        assert!(rt; is_so, "{old} {new}");
    }
}

/// Bindings and dumps, and the message about each, where the listing can't be read.
static TOLD_BEFORE: [(&str, &str, &str); 4] = [
    ("slots 22", "", "vmecheck: binding line 1: SlotsFirst\n"),
    (BUS_BINDING, "", "vmecheck: dump line 1: NoEndDefinitions\n"),
    (BUS_BINDING, UNBOUND, "vmecheck: cannot read listing\n"),
    (BUS_BINDING, READ_DUMP, "vmecheck: cannot read listing\n"),
];

#[test]
fn listing_is_told_last(rt: HostRuntime) {
    for (binding, dump, text) in TOLD_BEFORE.iter() {
        let listing = Io::new(PieceReader::torn(b"", 1));
        let wanted = ("", *text, 3);
        assert!(rt;
            confirms(rt.alloc(), binding, dump, listing, 0, wanted),
            "{text}"
        );
    }
}

#[test]
fn a_fault_of_a_body_is_told_before_the_listing(rt: HostRuntime) {
    let alloc = rt.alloc();
    let wanted = ("", "vmecheck: dump line 16: UndeclaredCode\n", 3);
    assert!(rt; confirms_other_dump(alloc, "#50 1s", "#50 1!", "", wanted) == Some(true));
    assert!(rt; confirms_other_dump(alloc, "#50 1s", "#50 1!", READ_LISTING, wanted) == Some(true));
}

/// Dumps with no path of the binding, listings, and the message.
static UNBOUND_DUMPS: [(&str, &str, &str); 3] = [
    (UNBOUND, "", "vmecheck: listing header\n"),
    (
        UNBOUND,
        READ_LISTING,
        "vmecheck: binding line 2: NoSuchPath\n",
    ),
    (
        "$enddefinitions $end\n1!\n",
        READ_LISTING,
        "vmecheck: dump line 2: UndeclaredCode\n",
    ),
];

#[test]
fn binding_that_makes_no_recording_is_told_last(rt: HostRuntime) {
    for (dump, listing, text) in UNBOUND_DUMPS.iter() {
        let listing = Bytes::new(listing.as_bytes());
        let wanted = ("", *text, 3);
        assert!(rt;
            confirms(rt.alloc(), BUS_BINDING, dump, listing, 0, wanted),
            "{text}"
        );
    }
}

/// Run with each allocation refused in turn, this shows that the answer is then want of memory.
#[test]
fn want_of_memory_is_told(rt: HostRuntime) {
    let (Ok(mut out), Ok(mut err)) = (
        LimitedSink::with_capacity(rt.alloc(), 100),
        LimitedSink::with_capacity(rt.alloc(), 100),
    ) else {
        return;
    };
    let (ended, _) = confirm_with(
        rt.alloc(),
        &mut Bytes::new(BUS_BINDING.as_bytes()),
        &mut Bytes::new(READ_DUMP.as_bytes()),
        Bytes::new(READ_LISTING.as_bytes()),
        3,
        &mut out,
        &mut err,
    );
    let wanted = if ended == 4 {
        ("", "vmecheck: out of memory\n", 4)
    } else {
        ("confirmed\n", "", 0)
    };
    assert!(rt; has_answered(&out, &err, ended, wanted));
}

/// Skews, a listing, what is written of it with each, and the status.
static SKEWS: [(u64, &str, &str, u8); 8] = [
    (0, BROKEN_LISTING, "confirmed\n", 0),
    (2, BROKEN_LISTING, "confirmed\n", 0),
    (3, SETTLED_LISTING, "confirmed\n", 0),
    (12, LATE_LISTING, "confirmed\n", 0),
    (50, ONE_STEP_LISTING, "confirmed\n", 0),
    (u64::MAX, ONE_STEP_LISTING, "confirmed\n", 0),
    (2, SETTLED_LISTING, "not confirmed at row 3\n", 1),
    (12, SETTLED_LISTING, "not confirmed at row 1\n", 1),
];

/// Whether the comparison of a listing with that of the dump with the body `EARLY_ANSWER` gives this.
fn confirms_skewed(
    alloc: Global,
    skew: u64,
    listing: &str,
    wanted: WantedAnswer<'_>,
) -> Option<bool> {
    let dump = bus_dump(alloc, EARLY_ANSWER).ok()?;
    let listing = Bytes::new(listing.as_bytes());
    Some(confirms(alloc, BUS_BINDING, dump.as_str(), listing, skew, wanted))
}

#[test]
fn a_listing_is_confirmed_by_its_skew(rt: HostRuntime) {
    for (skew, listing, text, status) in SKEWS.iter() {
        let wanted = (*text, "", *status);
        assert!(rt;
            confirms_skewed(rt.alloc(), *skew, listing, wanted) == Some(true),
            "{skew} {text}"
        );
    }
}

/// Whether the listing of a read that a reset ends is confirmed.
fn confirms_a_reset(alloc: Global) -> Option<bool> {
    let binding = reset_binding(alloc).ok()?;
    let dump = reset_dump(alloc).ok()?;
    let listing = Bytes::new(RESET_LISTING.as_bytes());
    let wanted = ("confirmed\n", "", 0);
    Some(confirms(alloc, binding.as_str(), dump.as_str(), listing, 0, wanted))
}

#[test]
fn a_reset_is_confirmed(rt: HostRuntime) {
    assert!(rt; confirms_a_reset(rt.alloc()) == Some(true));
}

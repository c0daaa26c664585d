use std::alloc::Global;
use std::process::Abort;
use std::test::Fail;
use vme_cert::{Answer, confirm, confirm_text};
use vme_listing::{Direction, ListFault, ListedVerdict, Listing, Row, Version, read_listing};
use vme_test_recordings::{
    DUMPED, DUMPED_READ, GRANTED, GRANTED_FROM_IDLE, PASSED_ON, READ, Recording, capture_of,
};
use vme_trace::Capture;

/// The bus becomes idle.
const IDLE: Recording = Recording {
    slots: 3,
    opening: "",
    steps: "high_but_A24_to_A31",
};

/// Recordings, and the rows of their listings.
static LISTINGS: [(Recording, &'static str, &'static str); 20] = [
    (
        DUMPED,
        DUMPED_READ,
        "start 1\ntenure 1 open end -\ncycle 2 S 3D FFFFFE end 5\ntransfer 3 of 2 read DTACK 4 close 5\n\
            verdict conforming\n",
    ),
    (DUMPED, "", "verdict never-idle\n"),
    (
        DUMPED,
        "AS=1 DS0=1 DS1=1 DTACK=1 BERR=1 IACK=1;AS=0;DTACK=0;AS=1;DTACK=1",
        "start 1\ntenure 1 open end -\ncycle 2 S 3D FFFFFE end -\nverdict broken H4 3 DTACK\n",
    ),
    (
        DUMPED,
        "AS=1 DS0=1 DS1=1 DTACK=1 BERR=1 IACK=1;AS=x;DS0=0;DTACK=0;AS=1 DS0=1;DTACK=1",
        "start 1\ntenure 1 open end -\nverdict unreadable U1 2 AS\n",
    ),
    (
        GRANTED,
        READ,
        "start 1\ntenure 5 level 3 slot 2 end 14\ncycle 9 S 39 FFFFDE end 12\n\
            transfer 10 of 9 read DTACK 11 close 12\nverdict conforming\n",
    ),
    (
        GRANTED_FROM_IDLE,
        READ,
        "start 0\ntenure 4 level 3 slot 2 end 13\ncycle 8 S 39 FFFFDE end 11\n\
            transfer 9 of 8 read DTACK 10 close 11\nverdict conforming\n",
    ),
    (
        GRANTED,
        "AM1=0 AM2=0 A05=0;AS=0;DS0=0 DS1=0;DTACK=0;AS=1;A05=1;AS=0;DS0=1 DS1=1;DTACK=1;DS0=0 DS1=0;DTACK=0;\
            AS=1 DS0=1 DS1=1;DTACK=1 BBSY=1",
        "start 1\ntenure 5 level 3 slot 2 end 20\ncycle 9 S 39 FFFFDE end 12\n\
            transfer 10 of 9 read DTACK 11 close 15\ncycle 14 S 39 FFFFFE end 19\n\
            transfer 17 of 14 read DTACK 18 close 19\nverdict conforming\n",
    ),
    (
        GRANTED,
        "AM1=0 A05=0;AS=0;DS0=0 DS1=0;DTACK=0;DS0=1 DS1=1;DTACK=1;WRITE=0;DS0=0 DS1=0;DTACK=0;AS=1 DS0=1 DS1=1;DTACK=1",
        "start 1\ntenure 5 level 3 slot 2 end -\ncycle 9 S 3D FFFFDE end 17\n\
            transfer 10 of 9 read DTACK 11 close 12\ntransfer 15 of 9 write DTACK 16 close 17 data ----FFFF\n\
            verdict conforming\n",
    ),
    (
        GRANTED,
        "AM1=0 WRITE=0 A05=0;AS=0;DS0=0 DS1=0;DTACK=0;DS0=1 DS1=1;DTACK=1;WRITE=1;DS0=0 DS1=0;DTACK=0;\
            AS=1 DS0=1 DS1=1;DTACK=1",
        "start 1\ntenure 5 level 3 slot 2 end -\ncycle 9 S 3D FFFFDE end -\n\
            transfer 10 of 9 write DTACK 11 close 12 data ----FFFF\ntransfer 15 read pending\n\
            verdict broken C1 16 DTACK\n",
    ),
    (
        GRANTED,
        "AM2=0 A05=0;AS=0;DS0=0 DS1=0;DTACK=0;DS0=1 DS1=1;DTACK=1 WRITE=0;DS0=0 DS1=0;DTACK=0",
        "start 1\ntenure 5 level 3 slot 2 end -\ncycle 9 K 3B FFFFDE end -\ntransfer 10 of 9 read DTACK 11 close 12\n\
            transfer 14 write pending\nverdict broken C2 15 DTACK\n",
    ),
    (
        GRANTED,
        "AM1=0 AM2=0 A05=0;AS=0;DTACK=0",
        "start 1\ntenure 5 level 3 slot 2 end -\ncycle 9 S 39 FFFFDE end -\nverdict broken H4 10 DTACK\n",
    ),
    (
        GRANTED,
        "AM1=0 AM2=0 AM4=0 A05=0;AS=0;DS0=0 DS1=0;DTACK=0;AS=1 DS0=1 DS1=1;DTACK=1;BBSY=1",
        "start 1\ntenure 5 level 3 slot 2 end 14\ncycle 9 S 29 FFDE end 12\ntransfer 10 of 9 read DTACK 11 close 12\n\
            verdict conforming\n",
    ),
    (
        GRANTED,
        "AM1=0 AM2=0 AM4=0 A05=0;AS=0;DS0=0 DS1=0 A05=1;DTACK=0;AS=1 DS0=1 DS1=1;DTACK=1;BBSY=1",
        "start 1\ntenure 5 level 3 slot 2 end -\ncycle 9 S 29 FFDE end -\nverdict broken S1 10 A05\n",
    ),
    (
        GRANTED,
        "AM1=0 AM2=0 AM3=x A05=0;AS=0;DS0=0 DS1=0;DTACK=0;AS=1 DS0=1 DS1=1;DTACK=1;BBSY=1",
        "start 1\ntenure 5 level 3 slot 2 end -\nverdict unreadable U2 9 AM3\n",
    ),
    (
        GRANTED,
        "A05=0;AS=0;DS0=0 DS1=0;DTACK=0;AS=1 DS0=1 DS1=1;DTACK=1;BBSY=1",
        "start 1\ntenure 5 level 3 slot 2 end 14\ncycle 9 K 3F FFFFDE end 12\n\
            transfer 10 of 9 read DTACK 11 close 12\nverdict conforming\n",
    ),
    (
        PASSED_ON,
        "BBSY=0 BR3=1;BBSY=1;BBSY=0",
        "start 1\ntenure 6 level 3 slot 3 end 7\nverdict broken B2 8 BBSY\n",
    ),
    (
        PASSED_ON,
        "BBSY=0 BR3=1;BG3.0=1;BG3.1=1;BG3.2=1;BBSY=1;BBSY=0",
        "start 1\ntenure 6 level 3 slot 3 end 10\nverdict broken B1 11 BBSY\n",
    ),
    (
        PASSED_ON,
        "BG3.3=0;BBSY=0",
        "start 1\nverdict broken B4 7 BBSY\n",
    ),
    (
        PASSED_ON,
        "BG3.3=0;BG3.0=1;BG3.1=1 BG3.2=1 BG3.3=1",
        "start 1\nverdict conforming\n",
    ),
    (
        GRANTED,
        "IACK=0 A02=0;AS=0;DS0=0;IA.1=0;DTACK=0;AS=1 DS0=1 IA.1=1;DTACK=1 IACK=1;BBSY=1",
        "start 1\ntenure 5 level 3 slot 2 end 15\ncycle 9 I 5 end 13\ntransfer 10 of 9 read DTACK 12 close 13\n\
            verdict conforming\n",
    ),
];

/// What follows `GRANTED`, with the data lines of a transfer, and the rows of the listing.
static DATA: [(&'static str, &'static str); 7] = [
    // a line that DS0* moves is unknown as both strobes fall, or as the later one does
    (
        "AM1=0 AM2=0 WRITE=0 D03=x;AS=0;DS0=0 DS1=0;D03=1;DTACK=0",
        "start 1\ntenure 5 level 3 slot 2 end -\ncycle 9 S 39 FFFFFE end -\nverdict unreadable U4 10 D03\n",
    ),
    (
        "AM1=0 AM2=0 WRITE=0 D03=x;AS=0;DS1=0;DS0=0;DTACK=0",
        "start 1\ntenure 5 level 3 slot 2 end -\ncycle 9 S 39 FFFFFE end -\ntransfer 10 write pending\n\
            verdict unreadable U4 11 D03\n",
    ),
    // a long word moves D16, and two bytes don't
    (
        "AM1=0 AM2=0 LWORD=0 WRITE=0 A01=0 D16=x;AS=0;DS0=0 DS1=0;DTACK=0",
        "start 1\ntenure 5 level 3 slot 2 end -\ncycle 9 S 39 FFFFFC end -\nverdict unreadable U4 10 D16\n",
    ),
    (
        "AM1=0 AM2=0 WRITE=0 D16=x;AS=0;DS0=0 DS1=0;D16=0;DTACK=0;AS=1 DS0=1 DS1=1;DTACK=1",
        "start 1\ntenure 5 level 3 slot 2 end -\ncycle 9 S 39 FFFFFE end 13\n\
            transfer 10 of 9 write DTACK 12 close 13 data ----FFFF\nverdict conforming\n",
    ),
    // data change before the answer, or as the write starts and as it is answered
    (
        "AM1=0 AM2=0 WRITE=0;AS=0;DS0=0 DS1=0;D03=0;DTACK=0",
        "start 1\ntenure 5 level 3 slot 2 end -\ncycle 9 S 39 FFFFFE end -\ntransfer 10 write pending\n\
            verdict broken S3 11 D03\n",
    ),
    (
        "AM1=0 AM2=0 WRITE=0;AS=0;DS0=0 DS1=0 D03=0;DTACK=0 D03=1;AS=1 DS0=1 DS1=1;DTACK=1",
        "start 1\ntenure 5 level 3 slot 2 end -\ncycle 9 S 39 FFFFFE end 12\n\
            transfer 10 of 9 write DTACK 11 close 12 data ----FFF7\nverdict conforming\n",
    ),
    // the data of a read may be unknown and change
    (
        "AM1=0 AM2=0 D03=x;AS=0;DS0=0 DS1=0;D03=0;DTACK=0;AS=1 DS0=1 DS1=1;DTACK=1",
        "start 1\ntenure 5 level 3 slot 2 end -\ncycle 9 S 39 FFFFFE end 13\n\
            transfer 10 of 9 read DTACK 12 close 13\nverdict conforming\n",
    ),
];

/// The bus is idle, but for a reset that lasts.
const HELD_IN_RESET: Recording = Recording {
    slots: 3,
    opening: "high_but_A24_to_A31 SYSRESET=0",
    steps: "BR3=0;BG3.0=0;BG3.1=0;BBSY=0 BR3=1;BG3.0=1;BG3.1=1",
};

/// Recordings with resets, and the rows of their listings.
static RESETS: [(Recording, &'static str, &'static str); 10] = [
    // a reset in a read, after which the bus is free, or busy
    (
        GRANTED,
        "AM1=0 AM2=0 A05=0;AS=0;DS0=0 DS1=0;SYSRESET=0;AS=1 DS0=1 DS1=1 BBSY=1;SYSRESET=1",
        "start 1\ntenure 5 level 3 slot 2 end -\ncycle 9 S 39 FFFFDE end -\ntransfer 10 read pending\nreset 11\n\
         start 13\nverdict conforming\n",
    ),
    (
        GRANTED,
        "AM1=0 AM2=0 A05=0;AS=0;DS0=0 DS1=0;SYSRESET=0;AS=1 DS0=1 DS1=1;SYSRESET=1",
        "start 1\ntenure 5 level 3 slot 2 end -\ncycle 9 S 39 FFFFDE end -\ntransfer 10 read pending\nreset 11\n\
         start 13\ntenure 13 open end -\nverdict conforming\n",
    ),
    // the read may not be answered after the reset
    (
        GRANTED,
        "AM1=0 AM2=0 A05=0;AS=0;DS0=0 DS1=0;SYSRESET=0;AS=1 DS0=1 DS1=1 BBSY=1;SYSRESET=1;DTACK=0",
        "start 1\ntenure 5 level 3 slot 2 end -\ncycle 9 S 39 FFFFDE end -\ntransfer 10 read pending\nreset 11\n\
         start 13\nverdict broken H4 14 DTACK\n",
    ),
    // a line may become unknown as the reset comes, but not the reset line itself
    (
        GRANTED,
        "AM1=0 AM2=0 A05=0;AS=0;DS0=0 DS1=0;AS=x SYSRESET=0;AS=1 DS0=1 DS1=1 BBSY=1;SYSRESET=1",
        "start 1\ntenure 5 level 3 slot 2 end -\ncycle 9 S 39 FFFFDE end -\ntransfer 10 read pending\nreset 11\n\
         start 13\nverdict conforming\n",
    ),
    (
        GRANTED,
        "AM1=0 AM2=0 A05=0;AS=0;DS0=0 DS1=0;SYSRESET=x",
        "start 1\ntenure 5 level 3 slot 2 end -\ncycle 9 S 39 FFFFDE end -\ntransfer 10 read pending\n\
         verdict unreadable U1 11 SYSRESET\n",
    ),
    // a request from before a reset isn't granted after it
    (
        IDLE,
        "BR3=0;BR3=1 SYSRESET=0;SYSRESET=1;BG3.0=0",
        "start 1\nreset 3\nstart 4\nverdict broken G5 5 BG3.0\n",
    ),
    (IDLE, "BR3=0;BR3=1;BG3.0=0", "start 1\nverdict conforming\n"),
    (HELD_IN_RESET, READ, "verdict never-idle\n"),
    // three stretches, the last of which is broken, and one after it
    (
        GRANTED_FROM_IDLE,
        "AM1=0 AM2=0 A05=0;AS=0;DS0=0 DS1=0;DTACK=0;AS=1 DS0=1 DS1=1;DTACK=1;BBSY=1;SYSRESET=0;IACK=x SYSRESET=1;\
         IACK=1;BR3=0;BG3.0=0;BG3.1=0;BBSY=0 BR3=1;BBSY=x SYSRESET=0;BBSY=1 BG3.0=1;BG3.1=1;SYSRESET=1;DTACK=0;\
         DTACK=1 SYSRESET=0;SYSRESET=1",
        "start 0\ntenure 4 level 3 slot 2 end 13\ncycle 8 S 39 FFFFDE end 11\n\
         transfer 9 of 8 read DTACK 10 close 11\nreset 14\nstart 16\ntenure 20 level 3 slot 2 end -\nreset 21\n\
         start 24\nverdict broken H4 25 DTACK\n",
    ),
    // a stretch that a reset ends at the last instant
    (
        GRANTED_FROM_IDLE,
        "SYSRESET=0;BBSY=1 SYSRESET=1;SYSRESET=0",
        "start 0\ntenure 4 level 3 slot 2 end -\nreset 7\nstart 8\nreset 9\nverdict conforming\n",
    ),
];

/// The text of a listing of version 3 with these lines.
fn listing_text(alloc: Global, lines: &str) -> Result<Vec<u8>, Fail> {
    let mut text = Vec::from_slice(alloc, b"vmecheck listing 3\n")?;
    text.extend_from_slice(lines.as_bytes())?;
    Ok(text)
}

fn rows_of(alloc: Global, text: &[u8]) -> Result<Vec<Row>, Fail> {
    let listing = read_listing(alloc, text);
    Ok(listing.ok().ok_or("no listing")?.into_rows())
}

/// The answer to a text. If memory is short once, the text is compared again.
fn text_answer(alloc: Global, capture: &Capture, text: &[u8]) -> Result<Answer, ListFault> {
    match confirm_text(alloc, capture, text) {
        Err(ListFault::Memory) => confirm_text(alloc, capture, text),
        answer => answer,
    }
}

/// The answer to the rows of `front`, `more` and `back`, in this order. If memory is short once, they are compared
/// again.
fn answer(
    alloc: Global,
    capture: &Capture,
    front: &[Row],
    more: &[Row],
    back: &[Row],
) -> Result<Answer, Fail> {
    let mut rows = Vec::from_slice(alloc, front)?;
    rows.extend_from_slice(more)?;
    rows.extend_from_slice(back)?;
    let listing = Listing::new(Version::Three, rows);
    match confirm(alloc, capture, &listing) {
        Ok(answer) => Ok(answer),
        Err(_) => Ok(confirm(alloc, capture, &listing)?),
    }
}

/// An end other than `end`.
fn other_end(end: Option<u32>) -> Option<u32> {
    match end {
        Some(end) => Some(end ^ 1),
        None => Some(12),
    }
}

/// The row with one word changed.
fn changed(row: Row) -> Row {
    match row {
        Row::Start { instant } => Row::Start {
            instant: instant ^ 1,
        },
        Row::Reset { instant } => Row::Reset {
            instant: instant ^ 1,
        },
        Row::OpenTenure { start, end } => Row::OpenTenure {
            start,
            end: other_end(end),
        },
        Row::Tenure {
            start,
            level,
            slot,
            end,
        } => Row::Tenure {
            start,
            level,
            slot: slot ^ 1,
            end,
        },
        Row::AddressedCycle {
            start,
            class,
            modifier,
            address,
            end,
        } => Row::AddressedCycle {
            start,
            class,
            modifier,
            address: address ^ 2,
            end,
        },
        Row::FreeCycle {
            start,
            modifier,
            end,
        } => Row::FreeCycle {
            start,
            modifier: modifier ^ 1,
            end,
        },
        Row::InterruptCycle { start, level, end } => Row::InterruptCycle {
            start,
            level: level ^ 1,
            end,
        },
        Row::Transfer {
            start,
            cycle,
            direction,
            line,
            answer,
            close,
            lanes,
        } => Row::Transfer {
            start,
            cycle,
            direction,
            line,
            answer,
            close: other_end(close),
            lanes,
        },
        Row::PendingTransfer { start, direction } => Row::PendingTransfer {
            start: start ^ 1,
            direction,
        },
        Row::Verdict(ListedVerdict::NeverIdle) => Row::Verdict(ListedVerdict::Conforming),
        Row::Verdict(_) => Row::Verdict(ListedVerdict::NeverIdle),
    }
}

/// A row that no listing has.
const STRANGE: Row = Row::PendingTransfer {
    start: 0,
    direction: Direction::Write,
};

/// The first row that differs is named, whichever row is left out, changed or added.
fn assert_each_row_counts(
    rt: &impl Abort,
    alloc: Global,
    capture: &Capture,
    rows: &[Row],
) -> Result<(), Fail> {
    for place in 0..rows.len() {
        let no = Answer::No { row: place + 1 };
        let front = &rows[..place];
        let row = rows[place];
        let back = &rows[place + 1..];
        assert_eq!(rt;
            answer(alloc, capture, front, &[], back)?,
            no,
            "{row:?} left out"
        );
        assert_eq!(rt;
            answer(alloc, capture, front, &[changed(row)], back)?,
            no,
            "{row:?} changed"
        );
        assert_eq!(rt;
            answer(alloc, capture, front, &[STRANGE, row], back)?,
            no,
            "before {row:?}"
        );
    }
    assert_eq!(rt;
        answer(alloc, capture, rows, &[STRANGE], &[])?,
        Answer::No {
            row: rows.len().saturating_add(1)
        }
    );
    Ok(())
}

/// The rows of a text are the listing of a recording, and no others are.
fn assert_listed(
    rt: &impl Abort,
    alloc: Global,
    start: Recording,
    steps: &str,
    text: &str,
) -> Result<(), Fail> {
    let capture = capture_of(alloc, start, steps).ok_or("no recording")?;
    let whole = listing_text(alloc, text)?;
    let rows = rows_of(alloc, whole.as_slice())?;
    let rows = rows.as_slice();
    assert_eq!(rt;
        answer(alloc, &capture, rows, &[], &[])?,
        Answer::Yes,
        "{text}"
    );
    assert_eq!(rt;
        text_answer(alloc, &capture, whole.as_slice()),
        Ok(Answer::Yes),
        "{text}"
    );
    let last = whole.len().saturating_sub(1);
    assert_eq!(rt;
        text_answer(alloc, &capture, &whole.as_slice()[..last]),
        Err(ListFault::BadRow { row: rows.len() }),
        "{text} without its last line feed"
    );
    assert_each_row_counts(rt, alloc, &capture, rows)
}

#[test]
fn listings(rt: HostRuntime) -> Result<(), Fail> {
    for (start, steps, text) in LISTINGS.iter() {
        assert_listed(&rt, rt.alloc(), *start, steps, text)?;
    }
    Ok(())
}

#[test]
fn data_lines(rt: HostRuntime) -> Result<(), Fail> {
    for (steps, text) in DATA.iter() {
        assert_listed(&rt, rt.alloc(), GRANTED, steps, text)?;
    }
    Ok(())
}

#[test]
fn resets(rt: HostRuntime) -> Result<(), Fail> {
    for (start, steps, text) in RESETS.iter() {
        assert_listed(&rt, rt.alloc(), *start, steps, text)?;
    }
    Ok(())
}

/// The recording of the first of `RESETS`.
fn first_reset(alloc: Global) -> Option<Capture> {
    let (start, steps, _) = &RESETS[0];
    capture_of(alloc, *start, steps)
}

/// A listing of an older version, whose rows are those up to a listed reset, isn't that of the recording.
#[test]
fn older_listings_lack_resets(rt: HostRuntime) -> Result<(), Fail> {
    let alloc = rt.alloc();
    let capture = first_reset(alloc).ok_or("no recording")?;
    let text =
        "vmecheck listing 2\nstart 1\ntenure 5 level 3 slot 2 end -\ncycle 9 S 39 FFFFDE end -\n\
         transfer 10 read pending\nverdict conforming\n";
    let listing = read_listing(alloc, text.as_bytes())
        .ok()
        .ok_or("no listing")?;
    assert_eq!(rt; confirm(alloc, &capture, &listing)?, Answer::No { row: 5 });
    assert_eq!(rt;
        text_answer(alloc, &capture, text.as_bytes()),
        Ok(Answer::No { row: 5 })
    );
    Ok(())
}

/// Texts that are no listings, and the first fault of each.
static NO_LISTINGS: [(&'static str, ListFault); 4] = [
    (
        "vmecheck listing 4\nstart 1\nverdict conforming\n",
        ListFault::BadHeader,
    ),
    // only version 3 has resets
    (
        "vmecheck listing 2\nstart 1\ntenure 5 level 3 slot 2 end -\ncycle 9 S 39 FFFFDE end -\n\
         transfer 10 read pending\nreset 11\nstart 13\nverdict conforming\n",
        ListFault::BadRow { row: 5 },
    ),
    // something follows the verdict
    (
        "vmecheck listing 3\nstart 1\ntenure 5 level 3 slot 2 end -\ncycle 9 S 39 FFFFDE end -\n\
         transfer 10 read pending\nreset 11\nstart 13\nverdict conforming\nstart 14\n",
        ListFault::BadRow { row: 7 },
    ),
    (
        "vmecheck listing 3\nstart 2\ntenure 5 level 3 slot 2 end -\ntenure 4 level 3 slot 2 end -\n\
         verdict conforming\n",
        ListFault::Unsorted { row: 3 },
    ),
];

/// The first fault of a text that is no listing is named, whether the rows before it are the recording's or not.
#[test]
fn texts_that_are_no_listings(rt: HostRuntime) -> Result<(), Fail> {
    let capture = first_reset(rt.alloc()).ok_or("no recording")?;
    for (text, fault) in NO_LISTINGS.iter() {
        assert_eq!(rt;
            text_answer(rt.alloc(), &capture, text.as_bytes()),
            Err(*fault),
            "{text}"
        );
    }
    Ok(())
}

/// A read and then a write of both bytes, in which every data line is high.
const READ_AND_WRITE: &'static str =
    "AM1=0 A05=0;AS=0;DS0=0 DS1=0;DTACK=0;DS0=1 DS1=1;DTACK=1;WRITE=0;DS0=0 DS1=0;DTACK=0;AS=1 DS0=1 DS1=1;DTACK=1";

/// Listings of each version of that recording, and the answer to each.
static BY_VERSION: [(&'static str, Answer); 4] = [
    (
        "vmecheck listing 2\nstart 1\ntenure 5 level 3 slot 2 end -\ncycle 9 S 3D FFFFDE end 17\n\
            transfer 10 of 9 read DTACK 11 close 12\ntransfer 15 of 9 write DTACK 16 close 17 data ----FFFF\n\
            verdict conforming\n",
        Answer::Yes,
    ),
    (
        "vmecheck listing 2\nstart 1\ntenure 5 level 3 slot 2 end -\ncycle 9 S 3D FFFFDE end 17\n\
            transfer 10 of 9 read DTACK 11 close 12\ntransfer 15 of 9 write DTACK 16 close 17 data ----FFFE\n\
            verdict conforming\n",
        Answer::No { row: 5 },
    ),
    (
        "vmecheck listing 3\nstart 1\ntenure 5 level 3 slot 2 end -\ncycle 9 S 3D FFFFDE end 17\n\
         transfer 10 of 9 read DTACK 11 close 12\ntransfer 15 of 9 write DTACK 16 close 17 data ----FFFF\n\
         verdict conforming\n",
        Answer::Yes,
    ),
    (
        "vmecheck listing 1\nstart 1\ntenure 5 level 3 slot 2 end -\ncycle 9 S 3D FFFFDE end 17\n\
            transfer 10 of 9 read DTACK 11 close 12\ntransfer 15 of 9 write DTACK 16 close 17\n\
            verdict conforming\n",
        Answer::Yes,
    ),
];

/// The data of a write count in a listing of version 2 or 3, and one of version 1 has none.
#[test]
fn data_count_by_the_version(rt: HostRuntime) -> Result<(), Fail> {
    let alloc = rt.alloc();
    let capture = capture_of(alloc, GRANTED, READ_AND_WRITE).ok_or("no recording")?;
    for (text, wanted) in BY_VERSION.iter() {
        let listing = read_listing(alloc, text.as_bytes())
            .ok()
            .ok_or("no listing")?;
        assert_eq!(rt; confirm(alloc, &capture, &listing)?, *wanted);
        assert_eq!(rt; text_answer(alloc, &capture, text.as_bytes()), Ok(*wanted));
    }
    Ok(())
}

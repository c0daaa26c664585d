use std::alloc::{AllocError, Global};
use vme_listing::ListFault::{BadHeader, BadRow, Unsorted};
use vme_listing::{
    AnswerLine, Direction, ListFault, ListedVerdict, Listing, Row, RowReader, Version, data_digits,
    read_listing, write_listing,
};
use vme_trace::{Class, Failed, Lanes, Line, MovedBytes, Rule, Sink};

/// A sink that takes at most 50 bytes a write, and none once it has `most` bytes or more.
#[derive(Drop)]
struct Page {
    bytes: Vec<u8>,
    most: usize,
    failures: u64,
}

impl Sink for Page {
    ghost use Rattle.std.specs.Prelude.{None};

    ghost writing = { λ s. record { taken = None; failures = s.failures } };

    fn write(&mut self, bytes: &[u8]) -> Result<usize, Failed> {
        let taken = bytes.len().min(50);
        let is_full = self.bytes.len() >= self.most;
        if self.failures < u64::MAX
            && (is_full || self.bytes.extend_from_slice(&bytes[..taken]).is_err())
        {
            self.failures += 1;
            return Err(Failed);
        }
        Ok(taken)
    }
}

/// A sink that takes no more bytes once it has `most`.
fn empty_page(alloc: Global, most: usize) -> Page {
    Page {
        bytes: Vec::new(alloc),
        most,
        failures: 0,
    }
}

/// Whether the listing is written as `header` and then `text`.
fn is_written_as(alloc: Global, listing: &Listing, header: &[u8], text: &[u8]) -> bool {
    let mut page = empty_page(alloc, 10000);
    write_listing(listing, &mut page).is_ok()
        && page.failures == 0
        && page.bytes.as_slice().strip_prefix(header) == Some(text)
}

/// The listing of some rows.
fn listing_of(alloc: Global, version: Version, rows: &[Row]) -> Result<Listing, AllocError> {
    Ok(Listing::new(version, Vec::from_slice(alloc, rows)?))
}

/// Whether the rows in the version are written as `header` and then `text`.
fn is_text_of(alloc: Global, version: Version, rows: &[Row], header: &[u8], text: &[u8]) -> bool {
    match listing_of(alloc, version, rows) {
        Ok(listing) => is_written_as(alloc, &listing, header, text),
        Err(_) => false,
    }
}

/// Whether the rows in version 1 are written as its header and then `text`.
fn is_text(alloc: Global, rows: &[Row], text: &[u8]) -> bool {
    is_text_of(alloc, Version::One, rows, b"vmecheck listing 1\n", text)
}

const START: Row = Row::Start { instant: 1 };

const CONFORMING: Row = Row::Verdict(ListedVerdict::Conforming);

fn tenure(start: u32, slot: u8, end: Option<u32>) -> Row {
    Row::Tenure {
        start,
        level: 3,
        slot,
        end,
    }
}

fn cycle(start: u32, modifier: u8, address: u32, end: Option<u32>) -> Row {
    Row::AddressedCycle {
        start,
        class: Class::S,
        modifier,
        address,
        end,
    }
}

fn transfer(start: u32, cycle: u32, direction: Direction, answer: u32, close: u32) -> Row {
    Row::Transfer {
        start,
        cycle,
        direction,
        line: AnswerLine::Dtack,
        answer,
        close: Some(close),
        lanes: None,
    }
}

/// The row of a write with its data.
fn write_of(start: u32, lanes: Lanes) -> Row {
    Row::Transfer {
        start,
        cycle: 9,
        direction: Direction::Write,
        line: AnswerLine::Dtack,
        answer: 11,
        close: None,
        lanes: Some(lanes),
    }
}

/// The data of a write.
fn lanes(moved: MovedBytes, value: u32, unknown: u8) -> Lanes {
    Lanes {
        moved,
        value,
        unknown,
    }
}

/// Reads in the standard, the short and the extended space.
#[test]
fn reads(rt: HostRuntime) {
    let alloc = rt.alloc();
    let open = Row::OpenTenure {
        start: 1,
        end: None,
    };
    let first = [
        START,
        open,
        cycle(2, 0x3D, 0xFFFFFE, Some(5)),
        transfer(3, 2, Direction::Read, 4, 5),
        CONFORMING,
    ];
    assert!(rt;
        is_text(
            alloc,
            &first,
            b"start 1\ntenure 1 open end -\ncycle 2 S 3D FFFFFE end 5\ntransfer 3 of 2 read DTACK 4 close 5\n\
                verdict conforming\n"
        )
    );
    let second = [
        START,
        tenure(5, 2, Some(14)),
        cycle(9, 0x39, 0xFFFFDE, Some(12)),
        transfer(10, 9, Direction::Read, 11, 12),
        CONFORMING,
    ];
    assert!(rt;
        is_text(
            alloc,
            &second,
            b"start 1\ntenure 5 level 3 slot 2 end 14\ncycle 9 S 39 FFFFDE end 12\n\
                transfer 10 of 9 read DTACK 11 close 12\nverdict conforming\n"
        )
    );
    let short = [START, cycle(9, 0x29, 0xFFDE, Some(12)), CONFORMING];
    assert!(rt;
        is_text(
            alloc,
            &short,
            b"start 1\ncycle 9 S 29 FFDE end 12\nverdict conforming\n"
        )
    );
    let extended = [START, cycle(9, 0x0D, 0x1E, None), CONFORMING];
    assert!(rt;
        is_text(
            alloc,
            &extended,
            b"start 1\ncycle 9 S 0D 0000001E end -\nverdict conforming\n"
        )
    );
}

/// Two cycles, and a read and a write in one.
#[test]
fn transfers(rt: HostRuntime) {
    let alloc = rt.alloc();
    let overlapped = [
        cycle(9, 0x39, 0xFFFFDE, Some(12)),
        transfer(10, 9, Direction::Read, 11, 15),
        cycle(14, 0x39, 0xFFFFFE, Some(19)),
        transfer(17, 14, Direction::Read, 18, 19),
    ];
    assert!(rt;
        is_text(
            alloc,
            &overlapped,
            b"cycle 9 S 39 FFFFDE end 12\ntransfer 10 of 9 read DTACK 11 close 15\ncycle 14 S 39 FFFFFE end 19\n\
                transfer 17 of 14 read DTACK 18 close 19\n"
        )
    );
    let modified = [
        tenure(5, 2, None),
        cycle(9, 0x3D, 0xFFFFDE, Some(17)),
        transfer(10, 9, Direction::Read, 11, 12),
        transfer(15, 9, Direction::Write, 16, 17),
    ];
    assert!(rt;
        is_text(
            alloc,
            &modified,
            b"tenure 5 level 3 slot 2 end -\ncycle 9 S 3D FFFFDE end 17\ntransfer 10 of 9 read DTACK 11 close 12\n\
                transfer 15 of 9 write DTACK 16 close 17\n"
        )
    );
    let interrupt = Row::InterruptCycle {
        start: 9,
        level: 5,
        end: Some(13),
    };
    assert!(rt;
        is_text(
            alloc,
            &[interrupt, transfer(10, 9, Direction::Read, 12, 13)],
            b"cycle 9 I 5 end 13\ntransfer 10 of 9 read DTACK 12 close 13\n"
        )
    );
    let free = Row::FreeCycle {
        start: 4294967295,
        modifier: 0x1F,
        end: None,
    };
    let pending = Row::PendingTransfer {
        start: 10,
        direction: Direction::Write,
    };
    assert!(rt;
        is_text(
            alloc,
            &[free, pending],
            b"cycle 4294967295 F 1F end -\ntransfer 10 write pending\n"
        )
    );
}

/// Whether writes are written with their data, of each pattern of bytes that are moved.
fn are_writes_written(alloc: Global) -> bool {
    let rows = [
        write_of(10, lanes(MovedBytes::LongWord, 0x7FFFFFFF, 0)),
        write_of(11, lanes(MovedBytes::Word, 0xFFFF, 0)),
        write_of(12, lanes(MovedBytes::EvenByte, 0xA00, 8)),
        write_of(13, lanes(MovedBytes::OddByte, 0, 2)),
        write_of(14, lanes(MovedBytes::Nothing, 0, 0)),
        transfer(15, 9, Direction::Read, 16, 17),
    ];
    is_text_of(
        alloc,
        Version::Two,
        &rows,
        b"vmecheck listing 2\n",
        b"transfer 10 of 9 write DTACK 11 close - data 7FFFFFFF\n\
            transfer 11 of 9 write DTACK 11 close - data ----FFFF\n\
            transfer 12 of 9 write DTACK 11 close - data ----XA--\n\
            transfer 13 of 9 write DTACK 11 close - data ------X0\n\
            transfer 14 of 9 write DTACK 11 close - data --------\ntransfer 15 of 9 read DTACK 16 close 17\n",
    )
}

#[test]
fn writes(rt: HostRuntime) {
    assert!(rt; are_writes_written(rt.alloc()));
}

/// A transfer that a reset cuts off, and what is judged after it.
fn is_reset_written(alloc: Global) -> bool {
    let rows = [
        START,
        cycle(9, 0x39, 0xFFFFDE, None),
        Row::PendingTransfer {
            start: 10,
            direction: Direction::Read,
        },
        Row::Reset { instant: 11 },
        Row::Start { instant: 13 },
        CONFORMING,
    ];
    is_text_of(
        alloc,
        Version::Three,
        &rows,
        b"vmecheck listing 3\n",
        b"start 1\ncycle 9 S 39 FFFFDE end -\ntransfer 10 read pending\nreset 11\nstart 13\n\
            verdict conforming\n",
    )
}

#[test]
fn resets(rt: HostRuntime) {
    assert!(rt; is_reset_written(rt.alloc()));
}

/// Whether the row of a listing of version 3 is the same in each of the versions 1, 2 and 3.
fn same_in_versions(row: &Row) -> (bool, bool, bool) {
    (
        row.in_version(Version::One) == *row,
        row.in_version(Version::Two) == *row,
        row.in_version(Version::Three) == *row,
    )
}

/// Whether a version has data, and whether it has resets.
fn includes_data_and_resets(version: Version) -> (bool, bool) {
    (version.includes_data(), version.includes_resets())
}

#[test]
fn versions(rt: HostRuntime) {
    let write = write_of(10, lanes(MovedBytes::Word, 0xFFFF, 0));
    assert!(rt; same_in_versions(&write) == (false, true, true));
    let reset = Row::Reset { instant: 11 };
    assert!(rt; same_in_versions(&reset) == (true, true, true));
    assert!(rt; includes_data_and_resets(Version::One) == (false, false));
    assert!(rt; includes_data_and_resets(Version::Two) == (true, false));
    assert!(rt; includes_data_and_resets(Version::Three) == (true, true));
}

/// The digits of the data of a write: those that aren't moved, one of which a line is unknown, and the others.
#[test]
fn digits_of_data(rt: HostRuntime) {
    assert!(rt; data_digits(lanes(MovedBytes::Word, 0x1034, 4)) == *b"----1X34");
    assert!(rt; data_digits(lanes(MovedBytes::Nothing, 0, 0)) == *b"--------");
}

/// The other verdicts.
#[test]
fn verdicts(rt: HostRuntime) {
    let alloc = rt.alloc();
    let answered = Row::Verdict(ListedVerdict::Broken(Rule::H4, 10, Line::DTACK));
    assert!(rt; is_text(alloc, &[answered], b"verdict broken H4 10 DTACK\n"));
    let taken = Row::Verdict(ListedVerdict::Broken(Rule::B2, 8, Line::BBSY));
    assert!(rt;
        is_text(
            alloc,
            &[START, tenure(6, 3, Some(7)), taken],
            b"start 1\ntenure 6 level 3 slot 3 end 7\nverdict broken B2 8 BBSY\n"
        )
    );
    let lost = Row::Verdict(ListedVerdict::Unreadable(Rule::U1, 2, Line::AS));
    assert!(rt; is_text(alloc, &[lost], b"verdict unreadable U1 2 AS\n"));
    assert!(rt;
        is_text(
            alloc,
            &[Row::Verdict(ListedVerdict::NeverIdle)],
            b"verdict never-idle\n"
        )
    );
}

/// Whether a page has all of a hundred rows.
fn is_whole(page: &Page) -> bool {
    page.bytes.len() == 19 + 100 * 73
        && page.bytes.as_slice().ends_with(
            b"\ntransfer 1000000000 of 1000000000 read DTACK 1000000000 close 1000000000\n",
        )
}

/// Whether `part` has a prefix of the bytes of `whole`, after which a write failed.
fn is_front_of(part: &Page, whole: &Page) -> bool {
    part.failures == 1
        && part.bytes.len() < 4300
        && whole.bytes.as_slice().starts_with(part.bytes.as_slice())
}

/// Whether a listing of a hundred rows is written whole, and a prefix of it where a write fails.
fn is_written_in_pieces(alloc: Global, listing: &Listing) -> bool {
    let mut whole = empty_page(alloc, 10000);
    let mut part = empty_page(alloc, 4200);
    write_listing(listing, &mut whole).is_ok()
        && is_whole(&whole)
        && write_listing(listing, &mut part).is_err()
        && is_front_of(&part, &whole)
}

/// Whether a listing of these rows is written whole, and a prefix of it where a write fails.
fn are_written_in_pieces(alloc: Global, rows: &[Row]) -> bool {
    match listing_of(alloc, Version::One, rows) {
        Ok(listing) => is_written_in_pieces(alloc, &listing),
        Err(_) => false,
    }
}

/// A listing of over 4,096 bytes is written whole. A write that fails ends the writing, with a prefix of the text out.
#[test]
fn pieces(rt: HostRuntime) {
    let rows = [transfer(
        1000000000,
        1000000000,
        Direction::Read,
        1000000000,
        1000000000,
    ); 100];
    assert!(rt; are_written_in_pieces(rt.alloc(), rows.as_slice()));
}

/// A listing of five rows: a read in the standard space.
const WORKED: &[u8] =
    b"vmecheck listing 1\nstart 1\ntenure 5 level 3 slot 2 end 14\ncycle 9 S 39 FFFFDE end 12\n\
        transfer 10 of 9 read DTACK 11 close 12\nverdict conforming\n";

/// A listing of version 2: a read, and writes of each pattern of bytes that are moved, one unanswered.
const WORKED_WRITES: &[u8] =
    b"vmecheck listing 2\nstart 1\ncycle 9 S 39 FFFFDE end -\ntransfer 10 of 9 read DTACK 11 close 12\n\
        transfer 13 of 9 write BERR 14 close 15 data ----FFFF\n\
        transfer 16 of 9 write DTACK 17 close 18 data 7FFFFFFF\n\
        transfer 19 of 9 write DTACK 20 close 21 data ------X0\n\
        transfer 22 of 9 write DTACK 23 close 24 data ----1B--\n\
        transfer 25 of 9 write DTACK 26 close - data --------\ntransfer 28 write pending\nverdict conforming\n";

/// A listing of version 3: a reset cuts a read off, and the bus is idle again two steps later.
const WORKED_RESET: &[u8] =
    b"vmecheck listing 3\nstart 1\ntenure 5 level 3 slot 2 end -\ncycle 9 S 39 FFFFDE end -\n\
        transfer 10 read pending\nreset 11\nstart 13\nverdict conforming\n";

/// The result of reading a text. Where memory is short once, it is read again.
fn read(alloc: Global, text: &[u8]) -> Result<Listing, ListFault> {
    match read_listing(alloc, text) {
        Err(ListFault::Memory) => read_listing(alloc, text),
        answer => answer,
    }
}

/// The fault of a text, or none.
fn fault_of(alloc: Global, text: &[u8]) -> Option<ListFault> {
    read(alloc, text).err()
}

/// Whether a text is a listing of a version, and written back as the same bytes.
fn is_read_back(alloc: Global, text: &[u8], version: Version) -> bool {
    match read(alloc, text) {
        Ok(listing) => { listing.version() == version && is_written_as(alloc, &listing, b"", text) }
        Err(_) => false,
    }
}

/// Texts, and the version of each.
static READ_BACK: [(&[u8], Version); 6] = [
    (WORKED, Version::One),
    (WORKED_WRITES, Version::Two),
    (WORKED_RESET, Version::Three),
    (b"vmecheck listing 1\nverdict never-idle\n", Version::One),
    (b"vmecheck listing 2\nverdict never-idle\n", Version::Two),
    (b"vmecheck listing 3\nverdict never-idle\n", Version::Three),
];

/// Listings that are read, and written back as the same bytes.
#[test]
fn read_back(rt: HostRuntime) {
    for (text, version) in READ_BACK.iter() {
        assert!(rt; is_read_back(rt.alloc(), text, *version));
    }
}

/// Whether a text is a listing with the row `row` at `place`, from 0.
fn has_row(alloc: Global, text: &[u8], place: usize, row: &Row) -> bool {
    match read(alloc, text) {
        Ok(listing) => listing.rows().get(place) == Some(row),
        Err(_) => false,
    }
}

/// Whether a text is a listing whose vector, taken out of it, has the rows `rows`.
fn gives_rows_back(alloc: Global, text: &[u8], rows: &[Row]) -> bool {
    match read(alloc, text) {
        Ok(listing) => {
            let given = listing.into_rows();
            given.as_slice() == rows
        }
        Err(_) => false,
    }
}

/// A listing gives the vector of its rows back, in their order.
#[test]
fn rows_given_back(rt: HostRuntime) {
    let rows = [
        START,
        tenure(5, 2, Some(14)),
        cycle(9, 0x39, 0xFFFFDE, Some(12)),
        transfer(10, 9, Direction::Read, 11, 12),
        CONFORMING,
    ];
    assert!(rt; gives_rows_back(rt.alloc(), WORKED, &rows));
}

/// The data of a write, as it is read.
#[test]
fn read_data(rt: HostRuntime) {
    let row = Row::Transfer {
        start: 19,
        cycle: 9,
        direction: Direction::Write,
        line: AnswerLine::Dtack,
        answer: 20,
        close: Some(21),
        lanes: Some(lanes(MovedBytes::OddByte, 0, 2)),
    };
    assert!(rt; has_row(rt.alloc(), WORKED_WRITES, 5, &row));
}

/// Rows that may follow the header of version 3.
static GOOD_RESETS: [&[u8]; 9] = [
    b"start 1\nverdict conforming\n",
    b"start 1\nreset 2\nverdict conforming\n",
    b"start 1\nreset 2\nstart 3\nreset 4\nstart 5\nverdict conforming\n",
    b"start 1\nreset 2\nstart 2\nverdict conforming\n",
    b"start 5\ntenure 5 open end -\ncycle 6 F 1F end -\nverdict conforming\n",
    b"start 5\ntenure 6 level 3 slot 2 end -\ncycle 6 F 1F end -\ntransfer 6 read pending\nreset 7\n\
        verdict conforming\n",
    b"start 1\nreset 11\nstart 13\ntenure 13 open end -\nverdict broken H4 14 DTACK\n",
    b"start 1\ntransfer 10 of 9 write DTACK 11 close - data ----FFFF\nverdict conforming\n",
    b"start 0\nverdict unreadable U1 11 SYSRESET\n",
];

/// Rows after the header of version 3, one of which may not be there, and the fault.
static BAD_RESETS: [(&[u8], ListFault); 21] = [
    // A reset with nothing before it, or with neither a start nor a verdict after it.
    (b"reset 1\n", BadRow { row: 1 }),
    (
        b"start 1\nreset 2\nreset 3\nverdict conforming\n",
        BadRow { row: 3 },
    ),
    (
        b"start 1\nreset 2\ntenure 3 level 3 slot 2 end -\nverdict conforming\n",
        BadRow { row: 3 },
    ),
    (
        b"start 1\nreset 2\ntransfer 3 read pending\nverdict conforming\n",
        BadRow { row: 3 },
    ),
    (b"start 1\nreset 2\nverdict never-idle\n", BadRow { row: 3 }),
    (b"start 1\nreset 2\n", BadRow { row: 3 }),
    // A later start that doesn't follow a reset.
    (b"start 1\nstart 2\nverdict conforming\n", BadRow { row: 2 }),
    (
        b"start 1\ntenure 5 level 3 slot 2 end -\ncycle 9 S 39 FFFFDE end -\ntransfer 10 read pending\nstart 13\n\
            reset 11\nverdict conforming\n",
        BadRow { row: 5 },
    ),
    (
        b"start 1\nreset 2\nstart 3\ntransfer 4 read pending\nstart 5\nverdict conforming\n",
        BadRow { row: 5 },
    ),
    // Starts and resets out of order.
    (
        b"start 5\ntenure 4 level 3 slot 2 end -\nverdict conforming\n",
        Unsorted { row: 2 },
    ),
    (
        b"start 5\nreset 5\nverdict conforming\n",
        Unsorted { row: 2 },
    ),
    (
        b"start 5\nreset 4\nverdict conforming\n",
        Unsorted { row: 2 },
    ),
    (
        b"start 1\ncycle 9 F 1F end -\nreset 9\nverdict conforming\n",
        Unsorted { row: 3 },
    ),
    (
        b"start 1\nreset 11\nstart 10\nverdict conforming\n",
        Unsorted { row: 3 },
    ),
    (
        b"start 1\nreset 11\nstart 13\ncycle 12 F 1F end -\nverdict conforming\n",
        Unsorted { row: 4 },
    ),
    // A row that may not be there, and that is out of order, too.
    (b"start 5\nstart 3\nverdict conforming\n", BadRow { row: 2 }),
    (
        b"start 5\nreset 7\nreset 6\nverdict conforming\n",
        BadRow { row: 3 },
    ),
    // Lines that are no row.
    (b"start 1\nreset 02\n", BadRow { row: 2 }),
    (b"start 1\nreset\n", BadRow { row: 2 }),
    (b"start 1\nreset 2 \n", BadRow { row: 2 }),
    (
        b"start 1\ntransfer 10 of 9 write DTACK 11 close -\nverdict conforming\n",
        BadRow { row: 2 },
    ),
];

/// A header and rows.
fn text_of(alloc: Global, header: &[u8], rows: &[u8]) -> Result<Vec<u8>, AllocError> {
    let mut text = Vec::from_slice(alloc, header)?;
    text.extend_from_slice(rows)?;
    Ok(text)
}

/// Whether rows after a header have the fault `fault`, or no fault where it is `None`.
fn has_fault(alloc: Global, header: &[u8], rows: &[u8], fault: Option<ListFault>) -> bool {
    match text_of(alloc, header, rows) {
        Ok(text) => fault_of(alloc, &text) == fault,
        Err(_) => false,
    }
}

/// Whether rows after a header are a listing of the version, and written back as the same bytes.
fn are_read_back(alloc: Global, header: &[u8], rows: &[u8], version: Version) -> bool {
    match text_of(alloc, header, rows) {
        Ok(text) => is_read_back(alloc, &text, version),
        Err(_) => false,
    }
}

/// The header of version 3.
const THIRD: &[u8] = b"vmecheck listing 3\n";

/// Rows of version 3 in right and in wrong places.
#[test]
fn placed_resets(rt: HostRuntime) {
    for rows in GOOD_RESETS.iter() {
        assert!(rt; are_read_back(rt.alloc(), THIRD, rows, Version::Three));
    }
    for (rows, fault) in BAD_RESETS.iter() {
        assert!(rt; has_fault(rt.alloc(), THIRD, rows, Some(*fault)));
    }
}

/// The headers of versions 1 and 2.
static OLDER: [&[u8]; 2] = [b"vmecheck listing 1\n", b"vmecheck listing 2\n"];

/// Versions 1 and 2 have no resets and compare nothing with a start, and any version may name SYSRESET*.
#[test]
fn older_versions(rt: HostRuntime) {
    let reset = b"start 1\nreset 2\nverdict conforming\n";
    let early = b"start 5\ntenure 4 level 3 slot 2 end -\nverdict unreadable U1 11 SYSRESET\n";
    for header in OLDER.iter() {
        assert!(rt; has_fault(rt.alloc(), header, reset, Some(BadRow { row: 2 })));
        assert!(rt; has_fault(rt.alloc(), header, early, None));
    }
}

/// Texts with a fault: its kind and its row.
static FAULTS: [(&[u8], ListFault); 15] = [
    (b"", BadHeader),
    (b"vmecheck listing 1", BadHeader),
    (b"vmecheck listing 4\nverdict never-idle\n", BadHeader),
    (b"vmecheck listing 3\n", BadRow { row: 1 }),
    (b"vmecheck listing 2\n", BadRow { row: 1 }),
    (b"vmecheck listing 1\n", BadRow { row: 1 }),
    (
        b"vmecheck listing 1\ntenure 5 open end 7\n",
        BadRow { row: 1 },
    ),
    (b"vmecheck listing 1\nstart 01\n", BadRow { row: 1 }),
    (b"vmecheck listing 1\nstart 4294967296\n", BadRow { row: 1 }),
    (
        b"vmecheck listing 1\nverdict conforming\n",
        BadRow { row: 1 },
    ),
    (
        b"vmecheck listing 1\nstart 1\nverdict conforming\nverdict conforming\n",
        BadRow { row: 2 },
    ),
    (
        b"vmecheck listing 1\nverdict never-idle\n ",
        BadRow { row: 1 },
    ),
    (
        b"vmecheck listing 1\nstart 1\ntenure 5 level 3 slot 2 end 14\ncycle 9 S 39 FFFFDE end 12\n\
                transfer 10 of 9 read DTACK 11 close 12\n",
        BadRow { row: 5 },
    ),
    (
        b"vmecheck listing 1\nstart 1\ncycle 9 S 39 FFFFDE end 12\ntenure 5 level 3 slot 2 end 14\n\
                transfer 10 of 9 read DTACK 11 close 12\nverdict conforming\n",
        Unsorted { row: 3 },
    ),
    (
        b"vmecheck listing 1\nstart 1\ntransfer 9 read pending\ncycle 9 F 1F end -\n",
        Unsorted { row: 3 },
    ),
];

#[test]
fn faults(rt: HostRuntime) {
    for (text, fault) in FAULTS.iter() {
        assert!(rt; fault_of(rt.alloc(), text) == Some(*fault));
    }
    let open = WORKED.strip_suffix(b"\n").unwrap_or_default();
    assert!(rt; fault_of(rt.alloc(), open) == Some(BadRow { row: 5 }));
}

/// Lines that are no row after `start 1`.
static BAD_LINES: [&[u8]; 26] = [
    b"",
    b"start 2",
    b"tenure 05 level 3 slot 2 end 14",
    b"tenure 5 level 4 slot 2 end 14",
    b"tenure 5 level 3 slot 0 end 14",
    b"tenure 5 level 3 slot 22 end 14",
    b"tenure 5 level 3 slot 2 end",
    b"tenure 5 level 3 slot 2 end 14 ",
    b"tenure 5  level 3 slot 2 end 14",
    b"tenure 5 level 3 slot 2 end +14",
    b"tenure 4294967296 level 3 slot 2 end -",
    b"tenure 5 open end",
    b"cycle 9 S 39 ffffde end 12",
    b"cycle 9 S 39 FFFFDF end 12",
    b"cycle 9 S 39 00FFFFDE end 12",
    b"cycle 9 K 39 FFFFDE end 12",
    b"cycle 9 S 3B FFFFDE end 12",
    b"cycle 9 S 1F FFFFDE end 12",
    b"cycle 9 F 39 end 12",
    b"cycle 9 F 40 end 12",
    b"cycle 9 I 8 end 12",
    b"transfer 10 of 9 read AS 11 close 12",
    b"transfer 10 of 9 read DTACK 11 close 12\r",
    b"transfer 10 of 9 write DTACK 11 close 12 data 7FFFFFFF",
    b"transfer 10 of 9 write DTACK 11 close 12 data --------",
    b"transfer 10 read",
];

/// `front`, the line, and a verdict.
fn with_line(alloc: Global, front: &[u8], line: &[u8]) -> Result<Vec<u8>, AllocError> {
    let mut text = text_of(alloc, front, line)?;
    text.extend_from_slice(b"\nverdict conforming\n")?;
    Ok(text)
}

/// Whether a line after `front`, which has one row, is no row.
fn is_bad_line(alloc: Global, front: &[u8], line: &[u8]) -> bool {
    match with_line(alloc, front, line) {
        Ok(text) => fault_of(alloc, &text) == Some(BadRow { row: 2 }),
        Err(_) => false,
    }
}

#[test]
fn bad_lines(rt: HostRuntime) {
    for line in BAD_LINES.iter() {
        assert!(rt; is_bad_line(rt.alloc(), b"vmecheck listing 1\nstart 1\n", line));
    }
}

/// The header of each version, and a start.
static STARTED: [&[u8]; 3] = [
    b"vmecheck listing 1\nstart 1\n",
    b"vmecheck listing 2\nstart 1\n",
    b"vmecheck listing 3\nstart 1\n",
];

/// Verdicts that may be the last row.
static GOOD_VERDICTS: [&[u8]; 6] = [
    b"verdict conforming\n",
    b"verdict broken H4 10 D31\n",
    b"verdict broken I5 4294967295 SYSRESET\n",
    b"verdict broken G1 0 BG0.21\n",
    b"verdict unreadable U1 10 AS\n",
    b"verdict unreadable U4 10 D00\n",
];

/// Lines that are no verdict, as the last row.
static BAD_VERDICTS: [&[u8]; 15] = [
    b"verdict never-idle\n",
    b"verdict broken U1 10 AS\n",
    b"verdict broken U4 10 D00\n",
    b"verdict unreadable H4 10 DTACK\n",
    b"verdict unreadable I5 10 DTACK\n",
    b"verdict broken H4 10 D32\n",
    b"verdict broken G1 10 BG0.22\n",
    b"verdict broken H9 10 DTACK\n",
    b"verdict broken H4 4294967296 DTACK\n",
    b"verdict broken H4 010 DTACK\n",
    b"verdict broken H4 10 DTACK \n",
    b"verdict broken H4 DTACK\n",
    b"verdict broken\n",
    b"verdict conforming \n",
    b"verdict\n",
];

/// Verdicts at the end of a listing, so that a fault is one of their form.
#[test]
fn last_verdicts(rt: HostRuntime) {
    let fault = Some(BadRow { row: 2 });
    for front in STARTED.iter() {
        for line in GOOD_VERDICTS.iter() {
            assert!(rt; has_fault(rt.alloc(), front, line, None));
        }
        for line in BAD_VERDICTS.iter() {
            assert!(rt; has_fault(rt.alloc(), front, line, fault));
        }
    }
}

/// Two rows of one instant and one kind.
static ONE_PLACE: [&[u8]; 6] = [
    b"tenure 5 open end -\ntenure 5 open end -\n",
    b"tenure 5 open end -\ntenure 5 level 3 slot 2 end -\n",
    b"tenure 5 level 3 slot 2 end 7\ntenure 5 level 3 slot 2 end 7\n",
    b"cycle 5 S 39 FFFFDE end -\ncycle 5 F 1F end -\n",
    b"cycle 5 I 7 end -\ncycle 5 I 7 end -\n",
    b"transfer 5 of 5 read DTACK 6 close 7\ntransfer 5 read pending\n",
];

/// Rows that may follow `start 1` in each version: of each kind, at one instant and at later ones.
static GOOD_ROWS: [&[u8]; 9] = [
    b"tenure 1 open end 4294967295\ncycle 5 K 3B FFFFDE end 12\nverdict conforming\n",
    b"tenure 5 level 0 slot 1 end -\ntenure 6 level 3 slot 21 end 7\nverdict conforming\n",
    b"tenure 5 level 3 slot 2 end -\ncycle 5 F 1F end -\ntransfer 5 read pending\nverdict conforming\n",
    b"transfer 5 write pending\ntenure 6 level 3 slot 2 end -\nverdict conforming\n",
    b"cycle 5 S 29 FFFE end -\ncycle 6 S 0D FFFFFFFE end -\ncycle 7 K 0B 00000000 end -\nverdict conforming\n",
    b"cycle 5 F 00 end -\ncycle 6 F 3C end -\ncycle 7 I 0 end -\ncycle 8 I 7 end -\nverdict conforming\n",
    b"transfer 0 of 0 read BERR 0 close 0\ntransfer 1 of 9 read DTACK 0 close -\nverdict conforming\n",
    b"tenure 4294967295 open end -\nverdict conforming\n",
    b"verdict conforming\n",
];

/// Rows of each kind in the versions that have them, and two of one place in each.
#[test]
fn placed_rows(rt: HostRuntime) {
    let fault = Some(Unsorted { row: 3 });
    for front in STARTED.iter() {
        for rows in ONE_PLACE.iter() {
            assert!(rt; has_fault(rt.alloc(), front, rows, fault));
        }
    }
    for rows in GOOD_ROWS.iter() {
        let (first, second) = (
            b"vmecheck listing 1\nstart 0\n",
            b"vmecheck listing 2\nstart 0\n",
        );
        assert!(rt; are_read_back(rt.alloc(), first, rows, Version::One));
        assert!(rt; are_read_back(rt.alloc(), second, rows, Version::Two));
    }
}

/// An answered write without and with its data, and whether it is a row in version 1.
static WRITES: [(&[u8], bool); 2] = [
    (
        b"transfer 5 of 5 write DTACK 6 close 7\nverdict conforming\n",
        true,
    ),
    (
        b"transfer 5 of 5 write DTACK 6 close 7 data ----1X34\nverdict conforming\n",
        false,
    ),
];

/// Whether rows after the header of a version and a start are a listing, if `is_row`; if not, whether the second row is
/// at fault.
fn is_row_in(alloc: Global, version: usize, rows: &[u8], is_row: bool) -> bool {
    let fault = if is_row {
        None
    } else {
        Some(BadRow { row: 2 })
    };
    has_fault(alloc, STARTED[version % 3], rows, fault)
}

/// The row of an answered write with and without data: a row in some versions, and a fault in the others.
#[test]
fn writes_of_versions(rt: HostRuntime) {
    for (rows, is_first) in WRITES.iter() {
        assert!(rt; is_row_in(rt.alloc(), 0, rows, *is_first));
        assert!(rt; is_row_in(rt.alloc(), 1, rows, !*is_first));
        assert!(rt; is_row_in(rt.alloc(), 2, rows, !*is_first));
    }
}

/// Lines that are no row after `start 1` in a version that has data.
static BAD_WRITES: [&[u8]; 19] = [
    b"transfer 10 of 9 write DTACK 11 close 12",
    b"transfer 10 of 9 write DTACK 11 close 12 data",
    b"transfer 10 of 9 write DTACK 11 close 12 data ",
    b"transfer 10 of 9 write DTACK 11 close 12 7FFFFFFF",
    b"transfer 10 of 9 write DTACK 11 close 12 date 7FFFFFFF",
    b"transfer 10 of 9 read DTACK 11 close 12 data 7FFFFFFF",
    b"transfer 10 of 9 read DTACK 11 close 12 data --------",
    b"transfer 10 write pending data 7FFFFFFF",
    b"transfer 10 of 9 write DTACK 11 close 12 data FF------",
    b"transfer 10 of 9 write DTACK 11 close 12 data FFFF----",
    b"transfer 10 of 9 write DTACK 11 close 12 data -------0",
    b"transfer 10 of 9 write DTACK 11 close 12 data --FFFFFF",
    b"transfer 10 of 9 write DTACK 11 close 12 data ----FF-F",
    b"transfer 10 of 9 write DTACK 11 close 12 data 7fffffff",
    b"transfer 10 of 9 write DTACK 11 close 12 data 7FFFFFFx",
    b"transfer 10 of 9 write DTACK 11 close 12 data 7FFFFFF",
    b"transfer 10 of 9 write DTACK 11 close 12 data 07FFFFFFF",
    b"transfer 10 of 9 write DTACK 11 close 12 data 7FFFFFFF ",
    b"transfer 10 of 9 write DTACK 11 close 12 data 7FFFFFFG",
];

#[test]
fn bad_writes(rt: HostRuntime) {
    for line in BAD_WRITES.iter() {
        assert!(rt; is_bad_line(rt.alloc(), b"vmecheck listing 2\nstart 1\n", line));
        assert!(rt; is_bad_line(rt.alloc(), b"vmecheck listing 3\nstart 1\n", line));
    }
}

/// The worked listings.
static ALL_WORKED: [&[u8]; 3] = [WORKED, WORKED_WRITES, WORKED_RESET];

/// Whether each prefix of a listing's text has a fault, unless it is the whole text.
fn have_fronts_faults(alloc: Global, text: &[u8]) -> bool {
    let mut same = true;
    for end in 0..=text.len() {
        let fault = fault_of(alloc, &text[..end]);
        same &= fault != Some(ListFault::Memory) && fault.is_none() == (end == text.len());
    }
    same
}

/// Each prefix of a listing's text has a fault, unless it is the whole text.
#[test]
fn fronts(rt: HostRuntime) {
    for text in ALL_WORKED.iter() {
        assert!(rt; have_fronts_faults(rt.alloc(), text));
    }
}

/// Whether the rows of a text are read one by one, and nothing after the verdict.
fn are_rows_read(mut reader: RowReader<'_>) -> bool {
    reader.version() == Version::Two
        && reader.next() == Ok(Some(START))
        && reader.next() == Ok(Some(cycle(9, 0x39, 0xFFFFDE, Some(12))))
        && reader.next() == Ok(Some(CONFORMING))
        && reader.next() == Ok(None)
        && reader.next() == Ok(None)
}

/// Whether the row after a start is a fault, which the next call gives again.
fn is_fault_read(mut reader: RowReader<'_>) -> bool {
    reader.next() == Ok(Some(START))
        && reader.next() == Err(BadRow { row: 2 })
        && reader.next() == Err(BadRow { row: 2 })
}

#[test]
fn rows_read(rt: HostRuntime) {
    let text = b"vmecheck listing 2\nstart 1\ncycle 9 S 39 FFFFDE end 12\nverdict conforming\n";
    let is_read = match RowReader::of(text) {
        Some(reader) => are_rows_read(reader),
        None => false,
    };
    assert!(rt; is_read);
    let is_fault = match RowReader::of(b"vmecheck listing 2\nstart 1\nreset 14\n") {
        Some(reader) => is_fault_read(reader),
        None => false,
    };
    assert!(rt; is_fault);
    assert!(rt; RowReader::of(b"vmecheck listing 4\nstart 1\n").is_none());
}

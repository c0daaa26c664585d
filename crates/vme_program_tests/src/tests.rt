use std::alloc::{AllocError, Global};
use std::cell::Cell;
use std::process::Abort;
use std::test::Fail;
use std::thread::Threads;
use vme_explain::{FileId, PathEntry};
use vme_program::{Environment, WriteResult, run_words};
use vme_stream::Bytes;
use vme_test_recordings::{BUS_BINDING, READ_DUMP, READ_LISTING};
use vme_test_streams::{LimitedSink, words_of};

/// How the annotated dump begins.
const ANNOTATED: &str = "$timescale 1 ns $end\n$scope module bus $end\n\
$var wire 1 p AS $end\n$var wire 1 q DS0 $end\n$var wire 1 r DS1 $end\n\
$var wire 1 s DTACK $end\n$var wire 1 t BERR $end\n$var wire 1 u IACK $end\n\
$upscope $end\n$scope module vmecheck $end $var string 1 ! tenure $end ";

/// A binding, a dump, a listing and a part by their names, a dump on standard input, and how often a file was written.
#[derive(Drop)]
struct Shelf<'a> {
    is_terminal: bool,
    part: &'a [u8],
    replaces: Cell<u32>,
    writes: Cell<u32>,
}

impl<'a> Environment for Shelf<'a> {
    type Reader = Bytes<'a>;

    ghost opens = { λ _ _ _. Unit {0} };

    ghost gives_input = { λ _ _. Unit {0} };

    ghost on_terminal = { λ _ _. Unit {0} };

    ghost reads_file = { λ _ _ _. Unit {0} };

    ghost is_at_path = { λ _ _ _. Unit {0} };

    ghost has_entry = { λ _ _ _. Unit {0} };

    ghost replaces = { λ _ _ _ _. Unit {0} };

    ghost writes = { λ _ _ _ _. Unit {0} };

    fn open_file(&self, name: &str) -> Option<Bytes<'a>> {
        if name == "binding" {
            Some(Bytes::new(BUS_BINDING.as_bytes()))
        } else if name == "dump" {
            Some(Bytes::new(READ_DUMP.as_bytes()))
        } else if name == "listing" {
            Some(Bytes::new(READ_LISTING.as_bytes()))
        } else if name == "part" {
            Some(Bytes::new(self.part))
        } else {
            None
        }
    }

    fn input(&self) -> Bytes<'a> {
        Bytes::new(READ_DUMP.as_bytes())
    }

    fn is_terminal(&self) -> bool {
        self.is_terminal
    }

    fn id_of(&self, _reader: &Bytes<'a>) -> Option<FileId> {
        Some(FileId {
            device: 1,
            number: 1,
        })
    }

    fn id_at(&self, path: &str) -> Option<FileId> {
        if path == "dump" {
            Some(FileId {
                device: 1,
                number: 1,
            })
        } else {
            None
        }
    }

    fn entry_at(&self, path: &str) -> PathEntry {
        if path == "dump" {
            PathEntry::File {
                id: FileId {
                    device: 1,
                    number: 1,
                },
                is_ours: false,
            }
        } else if path == "save" || path == "link_to_save" {
            PathEntry::File {
                id: FileId {
                    device: 1,
                    number: 2,
                },
                is_ours: true,
            }
        } else {
            PathEntry::Nothing
        }
    }

    fn replace_file(&self, _alloc: Global, path: &str, _bytes: &[u8]) -> WriteResult {
        self.replaces.set(self.replaces.get().wrapping_add(1));
        if path == "full" {
            WriteResult::Failed
        } else {
            WriteResult::Whole
        }
    }

    fn write_file(&self, path: &str, _bytes: &[u8]) -> WriteResult {
        self.writes.set(self.writes.get().wrapping_add(1));
        if path == "full" {
            WriteResult::Failed
        } else {
            WriteResult::Whole
        }
    }
}

/// What came of the words of a line.
#[derive(Drop)]
struct Ran {
    out: Vec<u8>,
    err: Vec<u8>,
    /// The status, which is `None` if the words are wrong.
    status: Option<u8>,
    /// How often a file was put in a place.
    replaces: u32,
    /// How often a file was written.
    writes: u32,
}

/// Runs the words of a line, with `part` as the file of the part.
fn run_line<R: AllocGlobal + Threads + Sync>(
    rt: &R,
    line: &str,
    is_terminal: bool,
    part: &[u8],
) -> Result<Ran, AllocError> {
    let words = words_of(rt.alloc(), line)?;
    let shelf = Shelf {
        is_terminal,
        part,
        replaces: Cell::new(0),
        writes: Cell::new(0),
    };
    let mut out = LimitedSink::new(rt.alloc(), 1_000_000);
    let mut err = LimitedSink::new(rt.alloc(), 1_000_000);
    let status = match run_words(rt, rt.alloc(), &shelf, words.as_slice(), &mut out, &mut err) {
        Ok(status) => Some(status),
        Err(_) => None,
    };
    let (replaces, writes) = (shelf.replaces.get(), shelf.writes.get());
    Ok(Ran {
        out: out.bytes,
        err: err.bytes,
        status,
        replaces,
        writes,
    })
}

/// Runs the words of a line, and compares the status, how standard output and standard error begin, and how often a
/// file was put in a place or written.
fn expect<R: Abort + AllocGlobal + Threads + Sync>(
    rt: &R,
    line: &str,
    is_terminal: bool,
    texts: (&str, &str),
    ended: (u8, u32, u32),
) -> Result<(), AllocError> {
    let ran = run_line(rt, line, is_terminal, b"vmepart2")?;
    let (status, replaces, writes) = ended;
    assert_eq!(rt;
        (ran.status, ran.replaces, ran.writes),
        (Some(status), replaces, writes),
        "{line}"
    );
    let (out, err) = (ran.out.as_slice(), ran.err.as_slice());
    assert!(rt; out.starts_with(texts.0.as_bytes()), "{line}");
    assert!(rt; out.is_empty() == texts.0.is_empty(), "{line}");
    assert!(rt; err.starts_with(texts.1.as_bytes()), "{line}");
    assert!(rt; err.is_empty() == texts.1.is_empty(), "{line}");
    Ok(())
}

#[test]
fn happy_paths(rt: HostRuntime) -> Result<(), Fail> {
    for (line, out, ended) in [
        ("vmecheck", "conforming\n", (0, 0, 0)),
        ("vmecheck check binding dump", "conforming\n", (0, 0, 0)),
        ("vmecheck list binding dump", READ_LISTING, (0, 0, 0)),
        (
            "vmecheck list --times binding dump",
            "vmecheck listing 3 times\nstart 1@0\ntenure 1@0 open end -\ncycle 2@10 S 3D FFFFFE end 5@40\n",
            (0, 0, 0),
        ),
        ("vmecheck annotate binding dump", ANNOTATED, (0, 0, 0)),
        (
            "vmecheck confirm binding dump listing",
            "confirmed\n",
            (0, 0, 0),
        ),
        ("vmecheck explain binding dump", "conforming\n", (0, 0, 0)),
        (
            "vmecheck explain --gtkw new binding dump",
            "conforming\n",
            (0, 1, 0),
        ),
        (
            "vmecheck explain --svg new binding dump",
            "conforming\n",
            (0, 1, 0),
        ),
        (
            "vmecheck explain --svg new --gtkw save binding dump",
            "conforming\n",
            (0, 2, 0),
        ),
        (
            "vmecheck variables dump",
            "time scale 1ns\nlast time 50\nchanges bits variable\n      3     1 bus.AS\n",
            (0, 0, 0),
        ),
        ("vmecheck rules H4", "H4", (0, 0, 0)),
        (
            "vmecheck faults BadToken",
            "BadToken: a token of the dump may not stand where it stands\n",
            (0, 0, 0),
        ),
        (
            "vmecheck audit binding dump",
            "dump: 0 broken, 0 unreadable, 0 allowed\n",
            (0, 0, 0),
        ),
        (
            "vmecheck audit --quiet binding dump -",
            "dump: conforming\n-: conforming\n",
            (0, 0, 0),
        ),
        ("vmecheck audit --junit new binding -", "-: ", (0, 0, 1)),
    ] {
        expect(&rt, line, false, (out, ""), ended)?;
    }
    expect(
        &rt,
        "vmecheck bind --slots 3 dump",
        false,
        (
            "# Found by the names in the scope bus: look each line over.\nslots 3\nAS = bus.AS\n",
            "vmecheck: bound 6 of 19 groups in scope bus, 3 slots",
        ),
        (0, 0, 0),
    )?;
    Ok(())
}

#[test]
fn what_is_refused(rt: HostRuntime) -> Result<(), Fail> {
    for (line, err, ended) in [
        (
            "vmecheck check none dump",
            "vmecheck: cannot open binding\n",
            (3, 0, 0),
        ),
        (
            "vmecheck check none none",
            "vmecheck: cannot open binding\n",
            (3, 0, 0),
        ),
        (
            "vmecheck annotate none none",
            "vmecheck: cannot open binding\n",
            (3, 0, 0),
        ),
        (
            "vmecheck annotate binding none",
            "vmecheck: cannot open dump\n",
            (3, 0, 0),
        ),
        (
            "vmecheck list --times binding none",
            "vmecheck: cannot open dump\n",
            (3, 0, 0),
        ),
        (
            "vmecheck check binding none",
            "vmecheck: cannot open dump\n",
            (3, 0, 0),
        ),
        (
            "vmecheck check dump binding",
            "vmecheck: binding line 1: SlotsFirst\n",
            (3, 0, 0),
        ),
        (
            "vmecheck list binding none",
            "vmecheck: cannot open dump\n",
            (3, 0, 0),
        ),
        (
            "vmecheck confirm binding dump none",
            "vmecheck: cannot open listing\n",
            (3, 0, 0),
        ),
        (
            "vmecheck confirm binding dump dump",
            "vmecheck: listing header\n",
            (3, 0, 0),
        ),
        (
            "vmecheck explain none dump",
            "vmecheck: cannot open binding\n",
            (3, 0, 0),
        ),
        (
            "vmecheck explain --gtkw dump binding dump",
            "vmecheck: nothing is written over dump",
            (3, 0, 0),
        ),
        (
            "vmecheck explain --gtkw new --svg dump binding dump",
            "vmecheck: nothing is written over dump",
            (3, 0, 0),
        ),
        (
            "vmecheck explain --gtkw new --svg new binding dump",
            "vmecheck: nothing is written over new: two files are wanted there\n",
            (3, 0, 0),
        ),
        (
            "vmecheck explain --gtkw save --svg link_to_save binding dump",
            "vmecheck: nothing is written over link_to_save: two files are wanted there\n",
            (3, 0, 0),
        ),
        (
            "vmecheck variables none",
            "vmecheck: cannot open dump\n",
            (3, 0, 0),
        ),
        (
            "vmecheck bind none",
            "vmecheck: cannot open dump\n",
            (3, 0, 0),
        ),
        (
            "vmecheck audit none dump",
            "vmecheck: cannot open binding\n",
            (3, 0, 0),
        ),
        (
            "vmecheck audit binding none",
            "vmecheck: none: cannot open\n",
            (3, 0, 0),
        ),
        (
            "vmecheck audit --junit dump binding dump",
            "vmecheck: dump: is an input\n",
            (3, 0, 0),
        ),
        (
            "vmecheck part none none",
            "vmecheck: cannot open binding\n",
            (3, 0, 0),
        ),
        (
            "vmecheck part binding none",
            "vmecheck: cannot open dump\n",
            (3, 0, 0),
        ),
        (
            "vmecheck join dump none",
            "vmecheck: none: cannot open\n",
            (3, 0, 0),
        ),
        (
            "vmecheck tell none dump",
            "vmecheck: none: cannot open\n",
            (3, 0, 0),
        ),
        (
            "vmecheck join part dump",
            "vmecheck: part: a part of another version\n",
            (3, 0, 0),
        ),
        ("vmecheck tell dump", "vmecheck: dump: no part\n", (3, 0, 0)),
    ] {
        expect(&rt, line, false, ("", err), ended)?;
    }
    Ok(())
}

/// What the words of a line write on standard output, and the status, with `part` as the file of the part.
fn written<R: Abort + AllocGlobal + Threads + Sync>(
    rt: &R,
    line: &str,
    part: &[u8],
) -> Result<(Vec<u8>, Option<u8>), AllocError> {
    let ran = run_line(rt, line, false, part)?;
    Ok((ran.out, ran.status))
}

/// Whether the words of a line write `wanted` and have the status `ended`, which is `None` if they are wrong, with
/// `part` as the file of the part.
fn writes<R: Abort + AllocGlobal + Threads + Sync>(
    rt: &R,
    line: &str,
    part: &[u8],
    wanted: &[u8],
    ended: Option<u8>,
) -> bool {
    match written(rt, line, part) {
        Ok((bytes, status)) => bytes.as_slice() == wanted && status == ended,
        Err(_) => false,
    }
}

#[test]
fn parts_are_made_joined_and_told(rt: HostRuntime) -> Result<(), Fail> {
    let (part, status) = written(&rt, "vmecheck part --listing binding dump", b"")?;
    let part = part.as_slice();
    assert!(rt; part.starts_with(b"vmepart1") && status == Some(0));
    assert!(rt; writes(&rt, "vmecheck join part part", part, part, Some(0)));
    assert!(rt; writes(&rt, "vmecheck tell part", part, b"conforming\n", Some(0)));
    assert!(rt;
        writes(
            &rt,
            "vmecheck tell --list --files 1 part part",
            part,
            READ_LISTING.as_bytes(),
            Some(0)
        )
    );
    assert!(rt; writes(&rt, "vmecheck tell --files 2 part", part, b"", Some(3)));
    Ok(())
}

#[test]
fn a_part_without_marks_lists_nothing(rt: HostRuntime) -> Result<(), Fail> {
    let (part, status) = written(&rt, "vmecheck part --number 1 binding dump", b"")?;
    let part = part.as_slice();
    assert!(rt; status == Some(0));
    assert!(rt; writes(&rt, "vmecheck tell part", part, b"", Some(3)));
    assert!(rt; writes(&rt, "vmecheck tell --list part", part, b"", Some(3)));
    Ok(())
}

#[test]
fn a_number_over_32_bits_is_wrong(rt: HostRuntime) {
    assert!(rt;
        writes(
            &rt,
            "vmecheck part --number 4294967296 binding dump",
            b"",
            b"",
            None
        )
    );
}

#[test]
fn what_is_said_first_and_last(rt: HostRuntime) -> Result<(), Fail> {
    let reads = "vmecheck: reads a dump from standard input;";
    expect(&rt, "vmecheck", true, ("conforming\n", reads), (0, 0, 0))?;
    for (line, out, ended) in [
        (
            "vmecheck explain --gtkw full binding dump",
            "conforming\n",
            (5, 1, 0),
        ),
        (
            "vmecheck explain --svg full binding dump",
            "conforming\n",
            (5, 1, 0),
        ),
        (
            "vmecheck explain --gtkw full --svg new binding dump",
            "conforming\n",
            (5, 2, 0),
        ),
        (
            "vmecheck audit --junit full binding dump",
            "dump: ",
            (5, 0, 1),
        ),
    ] {
        expect(&rt, line, false, (out, "vmecheck: "), ended)?;
    }
    Ok(())
}

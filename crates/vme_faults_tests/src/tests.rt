use std::alloc::{AllocError, Global};
use std::process::Abort;
use std::test::Fail;
use vcd_read::{FaultKind, Variables, VcdFault, read_definitions};
use vme_bind::{BindFault, BindFaultKind};
use vme_faults::{FileKind, Page, RefusalKind, VariableDistance, faults_text, nearest};
use vme_listing::ListFault;
use vme_stream::Refusal;

/// The page of the kind NoSuchPath.
const OF_NO_SUCH_PATH: &str =
    "NoSuchPath: the dump has no variable of this path, or none with these bits
  expected: the scopes and the name of a variable, joined by dots, and bits that its index has
  usually: another case of letters; a scope left out, such as `TOP.`; an index that isn't the
    variable's, or one that runs the other way, or of a variable that has none; a binding of another
    dump
  remedy: `vmecheck variables bus.vcd` shows the paths; `vmecheck bind bus.vcd` looks for the lines
";

#[test]
fn a_kind_is_told(rt: HostRuntime) -> Result<(), Fail> {
    let text = faults_text(rt.alloc(), Some(RefusalKind::NoSuchPath))?;
    assert_eq!(rt; text.as_bytes(), OF_NO_SUCH_PATH.as_bytes());
    Ok(())
}

#[test]
fn all_kinds_are_told_in_their_order(rt: HostRuntime) -> Result<(), Fail> {
    let text = faults_text(rt.alloc(), None)?;
    assert!(rt;
        text.as_bytes()
            .starts_with(b"BadToken: a token of the dump ")
    );
    assert_eq!(rt;
        text.as_bytes()
            .split(|byte| *byte == b'\n')
            .filter(|line| !line.starts_with(b" ") && !line.is_empty())
            .count(),
        27
    );
    assert!(rt;
        text.as_bytes()
            .split(|byte| *byte == b'\n')
            .all(|line| line.len() <= 100)
    );
    assert_eq!(rt;
        Page::of(RefusalKind::BadVar).remedy,
        "record with `$dumpvars`"
    );
    Ok(())
}

#[test]
fn a_kind_has_its_name(rt: HostRuntime) -> Result<(), Fail> {
    assert_eq!(rt;
        RefusalKind::from_name(b"cannot open"),
        Some(RefusalKind::CannotOpen)
    );
    assert_eq!(rt;
        RefusalKind::from_name(b"listing header"),
        Some(RefusalKind::BadHeader)
    );
    assert_eq!(rt; RefusalKind::from_name(b"badtoken"), None);
    assert_eq!(rt; RefusalKind::TooManySteps.name(), "TooManySteps");
    Ok(())
}

#[test]
fn a_refusal_has_a_kind(rt: HostRuntime) -> Result<(), Fail> {
    let fault = VcdFault {
        line: 7,
        kind: FaultKind::TooWide,
    };
    assert_eq!(rt;
        RefusalKind::of(&Refusal::BadDump(fault)),
        RefusalKind::TooWide
    );
    let fault = BindFault {
        line: 3,
        kind: BindFaultKind::NoSuchPath,
    };
    assert_eq!(rt;
        RefusalKind::of(&Refusal::BadBinding(fault)),
        RefusalKind::NoSuchPath
    );
    let fault = ListFault::BadRow { row: 2 };
    assert_eq!(rt;
        RefusalKind::of(&Refusal::BadListing(fault)),
        RefusalKind::BadRow
    );
    assert_eq!(rt; RefusalKind::of(&Refusal::Memory), RefusalKind::OutOfMemory);
    Ok(())
}

#[test]
fn a_file_is_known_by_its_first_bytes(rt: HostRuntime) -> Result<(), Fail> {
    let files: [(&[u8], Option<FileKind>); 18] = [
        (b"", Some(FileKind::Empty)),
        (&[0, 0, 0, 0, 0, 0, 0, 1, 0x49, 0, 0], Some(FileKind::Fst)),
        (&[0x1F, 0x8B, 8, 0], Some(FileKind::Gzip)),
        (b"\xFD7zXZ\0\0", Some(FileKind::Xz)),
        (&[0x28, 0xB5, 0x2F, 0xFD, 4], Some(FileKind::Zstd)),
        (b"BZh91AY", Some(FileKind::Bzip2)),
        (b"\xEF\xBB\xBF$date", Some(FileKind::MarkedUtf8)),
        (b"\xFF\xFE$\0", Some(FileKind::MarkedUtf16)),
        (b"\xFE\xFF\0$", Some(FileKind::MarkedUtf16)),
        (b"$\0d\0", Some(FileKind::LittleUtf16)),
        (b"\0$\0d", Some(FileKind::BigUtf16)),
        (b"vmecheck listing 3\n", Some(FileKind::Listing)),
        (
            b"# Found by the names.\r\n\n \tslots 3\n",
            Some(FileKind::Binding),
        ),
        (b"slots 3", Some(FileKind::Binding)),
        (b"\n  $date\n", Some(FileKind::Dump)),
        (b"# slots 3", None),
        (b"0!", None),
        (b"\0\0\0\0", None),
    ];
    for (bytes, kind) in files {
        assert_eq!(rt; FileKind::of(bytes), kind);
    }
    assert_eq!(rt; FileKind::Gzip.name(), "a file that gzip compressed");
    assert_eq!(rt;
        FileKind::Gzip.help(),
        "`zcat bus.vcd.gz > bus.vcd` makes a plain dump of it"
    );
    Ok(())
}

/// Variables whose paths differ little.
const ALIKE: &str =
    "$scope module bus $end\n$var wire 1 a AM $end\n$var wire 1 b AS $end\n$var wire 1 c DS0 $end\n\
$scope module slot $end\n$var wire 1 d AS $end\n$upscope $end\n$upscope $end\n$enddefinitions $end\n";

/// The variables of `ALIKE` that are nearest to a path.
fn alike(alloc: Global, path: &str, count: usize) -> Result<Vec<VariableDistance>, AllocError> {
    match read_definitions(alloc, ALIKE.as_bytes(), Variables::new(alloc)) {
        Ok((_, variables)) => nearest(alloc, path.as_bytes(), variables.as_slice(), count),
        Err(_) => Err(AllocError),
    }
}

fn near(distance: usize, place: usize) -> VariableDistance {
    VariableDistance { distance, place }
}

#[test]
fn the_nearest_paths_come_first(rt: HostRuntime) -> Result<(), Fail> {
    for (path, wanted) in [
        ("BUS.as", [near(0, 1), near(1, 0), near(3, 2), near(5, 3)]),
        ("bus.ADS", [near(1, 1), near(2, 0), near(3, 2), near(6, 3)]),
        (
            "top.bus.AS",
            [near(4, 1), near(8, 3), near(10, 0), near(10, 2)],
        ),
        (
            "bs.slot.AS",
            [near(1, 3), near(6, 1), near(9, 0), near(9, 2)],
        ),
    ] {
        assert_eq!(rt; alike(rt.alloc(), path, 9)?.as_slice(), wanted.as_slice());
        assert_eq!(rt;
            alike(rt.alloc(), path, 2)?.as_slice(),
            [wanted[0], wanted[1]].as_slice()
        );
    }
    Ok(())
}

use std::test::Fail;
use vcd_read::{Variables, read_definitions};
use vme_account::AccountVisitor;
use vme_explain::{
    Driver, FileId, PathEntry, SaveRefusal, Subject, driver_of, is_one_file, is_save_file,
    save_file, save_refusal, save_refusal_text, time_name,
};
use vme_trace::{Break, Line, Lines, Rule, Verdict};

/// The definitions of a dump whose times are in units of 10 ns, with a vector without an index.
const DEFINITIONS: &str = "$timescale 10 ns $end\n$scope module b $end\n$var wire 1 p AS $end\n\
$var wire 6 q AM $end\n$upscope $end\n$enddefinitions $end\n";

#[test]
fn a_save_file_has_times_in_units_and_ranges_of_bits(rt: HostRuntime) -> Result<(), Fail> {
    let definitions = read_definitions(
        rt.alloc(),
        DEFINITIONS.as_bytes(),
        Variables::new(rt.alloc()),
    );
    let (Ok((_, variables)), Some(opening)) = (definitions, Lines::new(1)) else {
        return Err(Fail::from("no definitions"));
    };
    let Ok(account) = AccountVisitor::new(rt.alloc(), &opening).finish() else {
        return Err(Fail::from("no account"));
    };
    let verdict = Verdict::Broken(Break {
        rule: Rule::B3,
        instant: 1,
        time: 5,
        line: Line::AS,
    });
    let subject = Subject {
        account: &account,
        verdict: &verdict,
        binding: b"slots 1\nAS = b.AS\nAM = b.AM\n",
        variables: variables.as_slice(),
        time_unit: 10,
        time_scale: b"10ns",
    };
    let text = save_file(rt.alloc(), &subject, b"b.vcd")?;
    let shown =
        b"[*] written by vmecheck explain\n[dumpfile] \"b.vcd\"\n[sst_expanded] 0\n[signals_width] 300\n\
[timestart] 0\n*-6.000000 50 -1";
    assert!(rt; text.as_bytes().starts_with(shown));
    let traces = b"\n@200\n-the broken line\n@28\nb.AS\n@200\n-handshake\n@28\nb.AS\n\
@200\n-address and data\n@22\nb.AM[5:0]\n[pattern_trace] 1\n[pattern_trace] 0\n";
    assert!(rt; text.as_bytes().ends_with(traces));
    let unnamed = b"[*] written by vmecheck explain\n[sst_expanded] 0\n";
    for name in ["a\u{202E}.vcd", "\u{2066}", "b\u{9B}", "\"", "\n"] {
        let text = save_file(rt.alloc(), &subject, name.as_bytes())?;
        assert!(rt; text.as_bytes().starts_with(unnamed));
    }
    assert!(rt; is_save_file(text.as_bytes()));
    assert!(rt; !is_save_file(b"[*] GTKWave Analyzer\n"));
    Ok(())
}

#[test]
fn times_and_drivers_are_named(rt: HostRuntime) {
    assert_eq!(rt; time_name(b"1ns"), "time (ns)");
    assert_eq!(rt; time_name(b"100ps"), "time (100 ps)");
    assert_eq!(rt; time_name(b"5ns"), "time");
    assert_eq!(rt; time_name(b""), "time");
    assert!(rt; driver_of(Line::grant(3, 0)) == Some(Driver::Arbiter));
    assert!(rt; driver_of(Line::grant(0, 21)) == Some(Driver::Slot(21)));
    assert!(rt; driver_of(Line::iack(1)) == Some(Driver::Slot(1)));
    assert!(rt; driver_of(Line::iack(21)) == Some(Driver::Slot(21)));
    assert!(rt; driver_of(Line::AS).is_none() && driver_of(Line::data(0)).is_none());
}

const BINDING: FileId = FileId {
    device: 1,
    number: 7,
};

const DUMP: FileId = FileId {
    device: 1,
    number: 8,
};

#[test]
fn no_input_and_no_file_of_others_is_written_over(rt: HostRuntime) -> Result<(), Fail> {
    let refusal_for = |device, number, is_ours| {
        let id = FileId { device, number };
        save_refusal(&PathEntry::File { id, is_ours }, BINDING, DUMP)
    };
    assert!(rt; save_refusal(&PathEntry::Nothing, BINDING, DUMP).is_none());
    assert!(rt; save_refusal(&PathEntry::Other, BINDING, DUMP) == Some(SaveRefusal::Foreign));
    assert!(rt; refusal_for(1, 7, true) == Some(SaveRefusal::Binding));
    assert!(rt; refusal_for(1, 8, true) == Some(SaveRefusal::Dump));
    assert!(rt; refusal_for(2, 8, true).is_none());
    assert!(rt; refusal_for(1, 9, false) == Some(SaveRefusal::Foreign));
    let file_of = |id, is_ours| PathEntry::File { id, is_ours };
    assert!(rt; is_one_file(&file_of(DUMP, true), &file_of(DUMP, false)));
    assert!(rt; !is_one_file(&file_of(DUMP, true), &file_of(BINDING, true)));
    assert!(rt; !is_one_file(&PathEntry::Nothing, &PathEntry::Nothing));
    let text = save_refusal_text(rt.alloc(), "a\u{202E}\u{1B}", SaveRefusal::Dump)?;
    let shown = b"vmecheck: nothing is written over a\\xE2\\x80\\xAE\\x1B: it is the dump\n";
    assert_eq!(rt; text.as_bytes(), shown.as_slice());
    Ok(())
}

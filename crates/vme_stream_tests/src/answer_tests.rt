ghost use Rattle.std.specs.Prelude.{◌≤◌};

use std::alloc::Global;
use vcd_read::{FaultKind, VcdFault};
use vme_bind::{BindFault, BindFaultKind};
use vme_listing::{ListFault, read_listing};
use vme_stream::{
    Bytes, InFault, Input, Refusal, binding_from, binding_in, cannot_write_line, capture_from,
    listing_status, recorded_from, recorded_in, refusal_line, tell_verdict, verdict_line,
    verdict_on, verdict_status,
};
use vme_summary::NoVerdict;
use vme_test_recordings::{BROKEN_LISTING, BUS_BINDING, READ_LISTING, bus_dump};
use vme_test_streams::{LimitedSink, WantedAnswer, has_answered};
use vme_trace::{Break, Line, Rule, Verdict};

/// A read.
const READ: &str = "#0 1p 1q 1r 1s 1t 1u\n#10 0p\n#20 0q\n#30 0s\n#40 1p 1q\n#50 1s\n";

/// An answer in place of the strobe.
const STRAY_ANSWER: &str = "#0 1p 1q 1r 1s 1t 1u\n#10 0p\n#20 0s\n#40 1p 1q\n#50 1s\n";

const STRAY: Verdict = Verdict::Broken(Break {
    instant: 3,
    time: 20,
    rule: Rule::H4,
    line: Line::DTACK,
});

/// The bodies of dumps, and the lines of their verdicts.
static WORKED: [(&str, &str); 4] = [
    (READ, "conforming\n"),
    ("", "never idle\n"),
    (STRAY_ANSWER, "broken H4 at instant 3 time 20 line DTACK\n"),
    (
        "#0 1p 1q 1r 1s 1t 1u\n#10 xp\n#20 0q\n#30 0s\n#40 1p 1q\n#50 1s\n",
        "unreadable U1 at instant 2 time 10 line AS\n",
    ),
];

/// The listings of the same recordings, and their exit statuses.
static LISTED: [(&str, u8); 4] = [
    (READ_LISTING, 0),
    ("vmecheck listing 3\nverdict never-idle\n", 2),
    (BROKEN_LISTING, 1),
    (
        "vmecheck listing 3\nstart 1\ntenure 1 open end -\nverdict unreadable U1 2 AS\n",
        2,
    ),
];

/// The verdict on the recording of a binding and a dump, in blocks of `block` steps.
fn judged(alloc: Global, binding: &str, dump: &str, block: u32) -> Result<Verdict, Refusal>
    requires { (1 ≤ block) × (block ≤ 65536) }
{
    let capture = capture_from(
        alloc,
        &mut Bytes::new(binding.as_bytes()),
        &mut Bytes::new(dump.as_bytes()),
    )?;
    verdict_on(alloc, &capture, block)
}

/// Whether there is a verdict with this line.
fn has_line(found: Result<Verdict, Refusal>, line: &str) -> bool {
    match found {
        Ok(verdict) => verdict_line(&verdict).as_bytes() == line.as_bytes(),
        Err(_) => false,
    }
}

/// Whether a dump has this verdict in blocks of one, three and 16,384 steps.
fn has_verdict(alloc: Global, dump: &str, line: &str) -> bool {
    has_line(judged(alloc, BUS_BINDING, dump, 1), line)
        && has_line(judged(alloc, BUS_BINDING, dump, 3), line)
        && has_line(judged(alloc, BUS_BINDING, dump, 16_384), line)
}

/// Whether the dump with this body has this verdict in blocks of each of these sizes.
fn body_has_verdict(alloc: Global, body: &str, line: &str) -> bool {
    match bus_dump(alloc, body) {
        Ok(dump) => has_verdict(alloc, dump.as_str(), line),
        Err(_) => false,
    }
}

#[test]
fn worked_recordings_have_their_verdicts(rt: HostRuntime) {
    for (body, line) in WORKED.iter() {
        assert!(rt; body_has_verdict(rt.alloc(), body, line), "{line}");
    }
}

/// The verdict on a recording whose inputs are read before it is made.
fn judged_in(alloc: Global, dump: &[u8]) -> Result<Verdict, Refusal> {
    let bound = binding_in(alloc, BUS_BINDING.as_bytes())?;
    match recorded_in(alloc, &bound, dump)? {
        Ok(capture) => verdict_on(alloc, &capture, 1),
        Err(fault) => Err(Refusal::BadBinding(fault)),
    }
}

/// The verdict on a recording whose binding is read before its dump.
fn judged_by_and_by(alloc: Global, dump: &[u8]) -> Result<Verdict, Refusal> {
    let bound = binding_from(alloc, &mut Bytes::new(BUS_BINDING.as_bytes()))?;
    match recorded_from(alloc, &bound, &mut Bytes::new(dump))? {
        Ok(capture) => verdict_on(alloc, &capture, 16_384),
        Err(fault) => Err(Refusal::BadBinding(fault)),
    }
}

/// Whether a dump has this verdict in both ways.
fn has_verdict_each_way(alloc: Global, dump: &[u8], line: &str) -> bool {
    has_line(judged_in(alloc, dump), line) && has_line(judged_by_and_by(alloc, dump), line)
}

/// Whether the dump with this body has this verdict in both ways.
fn body_has_verdict_each_way(alloc: Global, body: &str, line: &str) -> bool {
    match bus_dump(alloc, body) {
        Ok(dump) => has_verdict_each_way(alloc, dump.as_bytes(), line),
        Err(_) => false,
    }
}

#[test]
fn each_way_to_a_recording_gives_the_same(rt: HostRuntime) {
    for (body, line) in WORKED.iter() {
        assert!(rt; body_has_verdict_each_way(rt.alloc(), body, line), "{line}");
    }
}

/// Whether the verdict `STRAY`, written to an output with this room, gives `wanted`.
fn tells(alloc: Global, room: usize, wanted: WantedAnswer<'_>) -> bool {
    let mut out = LimitedSink::new(alloc, room);
    let mut err = LimitedSink::new(alloc, 100);
    let status = tell_verdict(&STRAY, &mut out, &mut err);
    has_answered(&out, &err, status, wanted)
}

#[test]
fn a_verdict_is_told(rt: HostRuntime) {
    let line = "broken H4 at instant 3 time 20 line DTACK\n";
    let full = "vmecheck: cannot write\n";
    assert!(rt; tells(rt.alloc(), 100, (line, "", 1)));
    assert!(rt; tells(rt.alloc(), 0, ("", full, 5)));
    assert!(rt; verdict_line(&STRAY).as_bytes() == line.as_bytes());
    assert!(rt; cannot_write_line().as_bytes() == full.as_bytes());
    assert!(rt;
        verdict_status(&Verdict::Conforming) == 0 && verdict_status(&Verdict::NeverIdle) == 2
    );
}

/// Whether the listing with this text has this exit status.
fn ends_with(alloc: Global, text: &str, status: u8) -> bool {
    match read_listing(alloc, text.as_bytes()) {
        Ok(listing) => listing_status(&listing) == status,
        Err(_) => false,
    }
}

#[test]
fn a_listing_ends_as_its_verdict(rt: HostRuntime) {
    for (text, status) in LISTED.iter() {
        assert!(rt; ends_with(rt.alloc(), text, *status), "{text}");
    }
}

/// Whether inputs are refused for this reason.
fn is_refused(alloc: Global, binding: &str, dump: &str, wanted: &Refusal) -> bool {
    match judged(alloc, binding, dump, 16_384) {
        Ok(_) => false,
        Err(refusal) => refusal == *wanted,
    }
}

#[test]
fn the_first_reason_is_answered(rt: HostRuntime) {
    let bad_binding = Refusal::BadBinding(BindFault {
        line: 1,
        kind: BindFaultKind::SlotsFirst,
    });
    let bad_dump = Refusal::BadDump(VcdFault {
        line: 1,
        kind: FaultKind::BadToken,
    });
    let no_path = Refusal::BadBinding(BindFault {
        line: 2,
        kind: BindFaultKind::NoSuchPath,
    });
    assert!(rt; is_refused(rt.alloc(), "AS = 1\n", "AS\n", &bad_binding));
    assert!(rt; is_refused(rt.alloc(), BUS_BINDING, "AS\n", &bad_dump));
    assert!(rt;
        is_refused(
            rt.alloc(),
            BUS_BINDING,
            "$enddefinitions $end\n#0\n",
            &no_path
        )
    );
}

/// Whether a refusal has this line, and this status.
fn is_told(refusal: Refusal, text: &str, status: u8) -> bool {
    refusal_line(&refusal).as_bytes() == text.as_bytes() && refusal.status() == status
}

/// Whether the refusals of inputs that can't be read have their lines.
fn are_inputs_told() -> bool {
    is_told(
        Refusal::CannotOpen(Input::Binding),
        "vmecheck: cannot open binding\n",
        3,
    ) && is_told(
        Refusal::of_input(Input::Dump, InFault::Read),
        "vmecheck: cannot read dump\n",
        3,
    ) && is_told(
        Refusal::of_input(Input::Listing, InFault::TooLong),
        "vmecheck: listing too long\n",
        3,
    )
}

/// Whether the refusals of inputs with faults have their lines.
fn are_faults_told() -> bool {
    let unbound = BindFault {
        line: 7,
        kind: BindFaultKind::Unbound(Line::DTACK),
    };
    let backwards = VcdFault {
        line: 12,
        kind: FaultKind::TimeBackwards,
    };
    is_told(
        Refusal::of_binding(unbound),
        "vmecheck: binding line 7: Unbound DTACK\n",
        3,
    ) && is_told(
        Refusal::of_dump(backwards),
        "vmecheck: dump line 12: TimeBackwards\n",
        3,
    ) && is_told(
        Refusal::of_listing(ListFault::BadRow { row: 2 }),
        "vmecheck: listing row 2: BadRow\n",
        3,
    )
}

/// Whether the refusals of recordings that aren't judged have their lines.
fn are_recordings_told() -> bool {
    is_told(
        Refusal::of_judging(NoVerdict::TooManyBlocks),
        "vmecheck: too many blocks\n",
        3,
    ) && is_told(
        Refusal::of_listing(ListFault::Memory),
        "vmecheck: out of memory\n",
        4,
    )
}

#[test]
fn refusals_are_told(rt: HostRuntime) {
    assert!(rt; are_inputs_told());
    assert!(rt; are_faults_told());
    assert!(rt; are_recordings_told());
}

ghost use Rattle.std.specs.Prelude.{◌≡◌};

use std::alloc::Global;
use std::marker::Brand;
use vme_bind::StepCollector;
use vme_skew::{GhostSkew, SettlingVisitor, StepSettler};
use vme_test_recordings::{opening_of, step_of};
use vme_trace::{Lines, Step, StepVisitor};

/// A time, and the words of the lines that change then.
type Row = (u64, &'static str);

const THREE_FALLS: [Row; 3] = [(10, "DTACK=0"), (13, "AS=0"), (15, "BBSY=0")];

const ALL_AT_ONCE: [Row; 1] = [(10, "AS=0 DTACK=0 BBSY=0")];

/// The last times that there are.
const LATEST: [Row; 2] = [(u64::MAX - 1, "DTACK=0"), (u64::MAX, "AS=0")];

/// More lines fall at once than a step keeps without memory of its own, and rise one after the other.
const MANY: [Row; 4] = [
    (3, "D00=0 D01=0 D02=0 D03=0 D04=0"),
    (4, "AS=0 DS0=0 D05=0 D06=0 D07=0 D08=0"),
    (9, "DS0=1"),
    (14, "AS=1"),
];

const MANY_AT_ONCE: [Row; 3] = [
    (
        3,
        "AS=0 DS0=0 D00=0 D01=0 D02=0 D03=0 D04=0 D05=0 D06=0 D07=0 D08=0",
    ),
    (9, "DS0=1"),
    (14, "AS=1"),
];

/// Steps after an opening with each line high, a skew, and the steps to which they settle.
static WORKED: [(&[Row], u64, &[Row]); 17] = [
    // a step that is exactly the skew later belongs to the group, whose lines come in their order
    (&THREE_FALLS, 3, &[(10, "AS=0 DTACK=0"), (15, "BBSY=0")]),
    // a later step begins another group, from which the skew is counted anew
    (&THREE_FALLS, 2, &[(10, "DTACK=0"), (13, "AS=0 BBSY=0")]),
    // a skew of 0 changes nothing
    (&THREE_FALLS, 0, &THREE_FALLS),
    (&MANY, 0, &MANY),
    // the skew is as long as the recording, longer, and as long as can be
    (&THREE_FALLS, 5, &ALL_AT_ONCE),
    (&THREE_FALLS, 6, &ALL_AT_ONCE),
    (&THREE_FALLS, u64::MAX, &ALL_AT_ONCE),
    // a line that falls and rises within a group doesn't change
    (
        &[(4, "AS=0"), (5, "DS0=0"), (6, "AS=1")],
        5,
        &[(4, "DS0=0")],
    ),
    // a line that falls, rises and falls within a group falls once
    (&[(4, "AS=0"), (5, "AS=1"), (6, "AS=0")], 5, &[(4, "AS=0")]),
    // a group that ends as it began makes no step, and the next one begins with the next step
    (
        &[
            (0, "AS=0 DS0=0"),
            (5, "AS=1 DS0=1"),
            (6, "DTACK=0"),
            (12, "DTACK=1"),
        ],
        5,
        &[(6, "DTACK=0"), (12, "DTACK=1")],
    ),
    // a recording that ends as it began may settle to no steps
    (&[(7, "AS=0"), (8, "AS=1")], 1, &[]),
    // a reset and an unknown level that begin and end within a group are gone
    (
        &[
            (0, "AS=x SYSRESET=0"),
            (1, "DS0=0"),
            (2, "SYSRESET=1"),
            (3, "AS=0"),
        ],
        3,
        &[(0, "AS=0 DS0=0")],
    ),
    // a reset and an unknown level that last longer than the group stay
    (
        &[
            (0, "DS0=0"),
            (1, "AS=x"),
            (2, "SYSRESET=0"),
            (9, "AS=1 SYSRESET=1"),
        ],
        3,
        &[(0, "AS=x DS0=0 SYSRESET=0"), (9, "AS=1 SYSRESET=1")],
    ),
    // no steps settle to no steps
    (&[], 3, &[]),
    // at the last times that there are
    (&LATEST, 0, &LATEST),
    (&LATEST, 1, &[(u64::MAX - 1, "AS=0 DTACK=0")]),
    // more lines than a step keeps without memory of its own
    (&MANY, 4, &MANY_AT_ONCE),
];

/// More lines than a step keeps without memory of its own, and the steps to which they settle by a skew of 4.
static LARGE: [(&[Row], &[Row]); 1] = [(&MANY, &MANY_AT_ONCE)];

/// A skew and a time, and what is complete of the three falls once that time is reached.
static TIMES: [(u64, u64, &[Row]); 6] = [
    // a time that is exactly the skew later than the start of a group doesn't end it
    (3, 18, &[(10, "AS=0 DTACK=0")]),
    // a time that is later by one more ends it
    (3, 19, &[(10, "AS=0 DTACK=0"), (15, "BBSY=0")]),
    (5, 15, &[]),
    (5, 16, &ALL_AT_ONCE),
    // with a skew of 0 all is complete that is earlier
    (0, 16, &THREE_FALLS),
    // with the greatest skew nothing is complete
    (u64::MAX, u64::MAX, &[]),
];

/// The step of a row. `None` is want of memory.
fn step(alloc: Global, row: Row) -> Option<Step> {
    let (time, words) = row;
    step_of(alloc, &Lines::new(1)?, time, words)
}

/// Every line of a backplane high.
fn high_lines(alloc: Global) -> Option<Lines> {
    opening_of(alloc, 1, "high")
}

/// Whether these are the steps. `None` is want of memory.
fn are_steps(alloc: Global, steps: &[Step], rows: &[Row]) -> Option<bool> {
    for (found, row) in steps.iter().zip(rows) {
        let wanted = step(alloc, *row)?;
        if found.time != wanted.time || found.changes.as_slice() != wanted.changes.as_slice() {
            return Some(false);
        }
    }
    Some(steps.len() == rows.len())
}

/// Keeps a step that came out of a settler, if one did.
fn keep(out: &mut Vec<Step>, settled: Option<Step>) -> Option<()> {
    if let Some(step) = settled {
        out.push(step).ok()?;
    }
    Some(())
}

/// Gives these steps to a settler, and keeps what comes out.
fn take_all(
    alloc: Global,
    settler: &mut StepSettler,
    rows: &[Row],
    out: &mut Vec<Step>,
) -> Option<()> {
    for row in rows {
        let settled = settler.take(alloc, &step(alloc, *row)?).ok()?;
        keep(out, settled)?;
    }
    Some(())
}

/// What comes out of a settler that takes these steps.
fn settled_as_they_come(
    alloc: Global,
    opening: Lines,
    rows: &[Row],
    skew: u64,
) -> Option<Vec<Step>> {
    let mut settler = StepSettler::new(alloc, opening, skew);
    let mut out = Vec::new(alloc);
    take_all(alloc, &mut settler, rows, &mut out)?;
    keep(&mut out, settler.end(alloc).ok()?)?;
    Some(out)
}

/// What has come out of a settler that takes these steps, once a time is reached.
fn complete_at(
    alloc: Global,
    opening: Lines,
    rows: &[Row],
    skew: u64,
    time: u64,
) -> Option<Vec<Step>> {
    let mut settler = StepSettler::new(alloc, opening, skew);
    let mut out = Vec::new(alloc);
    take_all(alloc, &mut settler, rows, &mut out)?;
    keep(&mut out, settler.reach(alloc, time).ok()?)?;
    Some(out)
}

/// What a visitor passes on of these steps, settled by a skew that is also a parameter of its type, and whether there
/// are too many. Before these it takes a step of another recording, which `open` drops.
fn passed_on_by<K: GhostSkew>(
    alloc: Global,
    opening: &Lines,
    rows: &[Row],
    skew: u64,
) -> Option<(StepCollector, bool)>
    requires { skew ≡ K.skew }
{
    let low = Lines::new(2);
    let first = match &low {
        Some(lines) => lines,
        None => opening,
    };
    let taker = StepCollector {
        opening: *first,
        steps: Vec::new(alloc),
    };
    let mut visitor: SettlingVisitor<K, StepCollector> = SettlingVisitor::new(
        alloc, first, skew, taker,
    );
    visitor.step(alloc, step(alloc, LATEST[0])?).ok()?;
    visitor.open(opening);
    for row in rows {
        visitor.step(alloc, step(alloc, *row)?).ok()?;
    }
    let is_too_long = visitor.is_too_long();
    Some((visitor.finish(alloc).ok()?, is_too_long))
}

/// `passed_on_by`, with a type that stands for `skew`.
fn passed_on(
    alloc: Global,
    opening: &Lines,
    rows: &[Row],
    skew: u64,
) -> Option<(StepCollector, bool)> {
    passed_on_by::<Brand>(alloc, opening, rows, skew)
}

/// Whether these steps settle to `settled` as they come.
fn settles_as_they_come(alloc: Global, rows: &[Row], skew: u64, settled: &[Row]) -> Option<bool> {
    let out = settled_as_they_come(alloc, high_lines(alloc)?, rows, skew)?;
    are_steps(alloc, &out, settled)
}

#[test]
fn steps_settle_as_they_come(rt: HostRuntime) {
    for (rows, skew, settled) in WORKED.iter() {
        let is_so = settles_as_they_come(rt.alloc(), rows, *skew, settled).unwrap_or(false);
        assert!(rt; is_so, "{skew} {}", rows.len());
    }
}

/// Whether a visitor passes on `settled` of these steps, and they aren't too many.
fn passes_on(alloc: Global, rows: &[Row], skew: u64, settled: &[Row]) -> Option<bool> {
    let opening = high_lines(alloc)?;
    let (taken, is_too_long) = passed_on(alloc, &opening, rows, skew)?;
    let is_settled = are_steps(alloc, &taken.steps, settled)?;
    Some(taken.opening == opening && is_settled && !is_too_long)
}

#[test]
fn settled_steps_are_passed_on(rt: HostRuntime) {
    for (rows, skew, settled) in WORKED.iter() {
        let is_so = passes_on(rt.alloc(), rows, *skew, settled).unwrap_or(false);
        assert!(rt; is_so, "{skew} {}", rows.len());
    }
}

/// Whether `complete` is what is complete of the three falls once `time` is reached.
fn is_complete(alloc: Global, skew: u64, time: u64, complete: &[Row]) -> Option<bool> {
    let out = complete_at(alloc, high_lines(alloc)?, &THREE_FALLS, skew, time)?;
    are_steps(alloc, &out, complete)
}

#[test]
fn times_end_groups(rt: HostRuntime) {
    for (skew, time, complete) in TIMES.iter() {
        let is_so = is_complete(rt.alloc(), *skew, *time, complete).unwrap_or(false);
        assert!(rt; is_so, "{skew} {time}");
    }
}

/// Settled steps that are more than the skew apart settle to themselves.
#[test]
fn what_is_settled_stays(rt: HostRuntime) {
    for (rows, settled) in LARGE.iter() {
        assert!(rt; settles_as_they_come(rt.alloc(), rows, 4, settled).unwrap_or(false));
        assert!(rt; settles_as_they_come(rt.alloc(), settled, 4, settled).unwrap_or(false));
    }
}

/// Whether these steps settle to `settled` by a skew of 4, as they come and as they are passed on, unless memory runs
/// out.
fn settles_if_memory_suffices(alloc: Global, rows: &[Row], settled: &[Row]) -> bool {
    settles_as_they_come(alloc, rows, 4, settled).unwrap_or(true)
        && passes_on(alloc, rows, 4, settled).unwrap_or(true)
}

/// `tests/memory/run` refuses each allocation in turn: then the error is want of memory, and else the steps are
/// settled.
#[test]
fn want_of_memory_is_the_error(rt: HostRuntime) {
    for (rows, settled) in LARGE.iter() {
        assert!(rt; settles_if_memory_suffices(rt.alloc(), rows, settled));
    }
}

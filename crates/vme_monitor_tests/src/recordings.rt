//! Whether a monitor finds and shows in recordings what is written with them.

use std::alloc::Global;
use vme_monitor::finite::Finite;
use vme_monitor::mark::{Mark, MarkKind};
use vme_monitor::monitor::{Monitor, join, none};
use vme_test_recordings::Recording;
use vme_trace::{Block, Break, Capture, Line, Rule};

/// A recording that continues: how it begins, and its further steps.
pub(crate) type Continued = (Recording, &'static str);

/// The bus becomes idle. A24 to A31 and the data lines stay unknown.
pub(crate) const IDLE: Recording = Recording {
    slots: 3,
    opening: "",
    steps: "high_but_A24_to_A31_D00_to_D31",
};

/// The bus becomes idle, and a requester in slot 2 takes it by level 3. A24 to A31 and the data lines stay unknown.
pub(crate) const GRANTED: Recording = Recording {
    slots: 3,
    opening: "",
    steps: "high_but_A24_to_A31_D00_to_D31;BR3=0;BG3.0=0;BG3.1=0;BBSY=0 BR3=1;BG3.0=1;BG3.1=1",
};

pub(crate) fn capture_of(alloc: Global, recording: &Continued) -> Option<Capture> {
    let (start, more) = *recording;
    vme_test_recordings::capture_of(alloc, start, more)
}

pub(crate) fn summary_of<M: Monitor>(alloc: Global, block: &Block) -> Option<M::Summary> {
    if let Err(_) = block.check() {
        return None;
    }
    let steps = block.steps.as_slice();
    if steps.len() > 1000 {
        return None;
    }
    M::summarise(alloc, &block.opening, steps).ok()
}

fn joined<M: Monitor>(
    alloc: Global,
    first: &M::Summary,
    second: &M::Summary,
) -> Option<M::Summary> {
    if M::steps(first) > 1000 || M::steps(second) > 1000 {
        return None;
    }
    join::<M>(alloc, first, second).ok()
}

/// The summary of a recording that is cut into blocks of `size` steps.
pub(crate) fn whole<M: Monitor>(alloc: Global, capture: &Capture, size: u32) -> Option<M::Summary> {
    let mut all = none::<M>(alloc).ok()?;
    for block in capture.cut(alloc, size).ok()? {
        let part = summary_of::<M>(alloc, &block)?;
        all = joined::<M>(alloc, &all, &part)?;
    }
    Some(all)
}

/// Whether `first_break` is found in a recording, and `marks` are shown if they are given, in blocks of `size` steps.
fn finds_in<M: Monitor>(
    alloc: Global,
    capture: &Capture,
    size: u32,
    first_break: &Option<Break>,
    marks: Option<&[Mark]>,
) -> Option<bool> {
    let all = whole::<M>(alloc, capture, size)?;
    let start = M::start(capture.opening());
    let shown = M::marks(alloc, &all, start).ok()?;
    let are_shown = match marks {
        Some(marks) => shown.as_slice() == marks,
        None => true,
    };
    Some(are_shown && M::event(&all, start) == *first_break)
}

/// The sizes of blocks that are tried.
static SIZES: [u32; 5] = [1, 2, 3, 9, 65536];

/// Whether `first_break` is found in a recording, and `marks` are shown if they are given, in blocks of each of the
/// sizes.
pub(crate) fn finds<M: Monitor>(
    alloc: Global,
    recording: &Continued,
    first_break: Option<Break>,
    marks: Option<&[Mark]>,
) -> bool {
    let Some(capture) = capture_of(alloc, recording) else {
        return false;
    };
    for size in SIZES.iter() {
        if !finds_in::<M>(alloc, &capture, *size, &first_break, marks).unwrap_or(false) {
            return false;
        }
    }
    true
}

/// Whether a monitor has `count` memories (states of its automaton), and each place is that of the memory at it.
pub(crate) fn enumerates_memories<M: Finite>(count: usize) -> bool {
    for k in 0..M::COUNT {
        if M::place(M::nth(k)) != k {
            return false;
        }
    }
    M::COUNT == count
}

/// The break of a rule on a line, in a recording whose steps are ten units apart.
pub(crate) fn break_of(instant: u32, rule: Rule, line: Line) -> Option<Break> {
    Some(Break {
        instant,
        time: 10 * u64::from(instant.saturating_sub(1)),
        rule,
        line,
    })
}

pub(crate) fn mark(instant: u32, kind: MarkKind) -> Mark {
    Mark { instant, kind }
}

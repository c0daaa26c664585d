//! Whether a part can be written.

ghost use Rattle.std.specs.Prelude.{◌≡◌, ◌+◌, ◌<◌, ◌^◌, All, IfSome, IsTrue, Some, false, length, map};
ghost use Rattle.std.specs.Prelude.{slice_get};
ghost use Rattle.vme_trace.specs.Levels.{seen_level, set_level};
ghost use Rattle.vme_trace.specs.LineNumbers.{line_count};
ghost use Rattle.vme_part_format.specs.Bounds.{FitMarks, FitNodes, FitsBreak, FitsEntry, FitsKind, FitsLevels};
ghost use Rattle.vme_part_format.specs.Bounds.{FitsMark};
ghost use Rattle.vme_part_format.specs.Bounds.{FitsNode, FitsNumbers, FitsPart, FitsSegment, FitsTable, FitsTimes};
ghost use Rattle.vme_part_format.specs.Bounds.{stays};
ghost use Rattle.vme_part_format.specs.Sizes.{IsCompact, IsCompactPart};
ghost use Rattle.vme_part_format.specs.Tables.{node_value, part_value, segment_value, table_value};

use crate::buddies::{last_file, step_count};
use crate::compact::is_compact;
use vme_monitor::mark::MarkKind;
use vme_part_format::{
    MEMORY_COUNTS, OutcomeTable, Part, STAYS, Segment, TableEntry, TableNode, WideBreak, WideMark,
};
use vme_trace::{Change, LINE_COUNT, Level, Line, Lines};

/// Whether the first number and the order of a segment are within the bounds.
fn numbers_fit(segment: &Segment) -> bool
    ensures { IsTrue result → FitsNumbers segment.now.first segment.now.order }
{
    segment.first < 1 << 63 && segment.order < 63 && segment.first % (1u64 << segment.order) == 0
}

/// The level of the line `number`, which is Unknown if the backplane doesn't have the line.
fn level_at(lines: &Lines, number: u8) -> Level
    requires { number < line_count }
    ensures { result ≡ seen_level lines.now number }
{
    match Line::from_number(number) {
        Some(line) if lines.has(line) => lines.level(line),
        _ => Level::Unknown,
    }
}

/// Gives the line `number` a level, even if the backplane doesn't have the line.
#[tactic(auto, unfolding(vme_trace::specs::Trace::changed))]
fn put_level(lines: &mut Lines, number: u8, level: Level)
    requires { number < line_count }
    ensures { lines.new ≡ set_level lines.old number level }
{
    let Some(line) = Line::from_number(number) else {
        unreachable!()
    };
    lines.apply(&[Change { line, level }]);
}

/// Whether the lines that the backplane doesn't have are Unknown.
fn levels_fit(lines: &Lines) -> bool
    ensures { IsTrue result → FitsLevels lines.now }
{
    let Some(mut seen) = Lines::new(lines.slots()) else {
        return false;
    };
    for number in 0..LINE_COUNT {
        put_level(&mut seen, number, level_at(lines, number));
    }
    seen == *lines
}

/// Whether a break is one of a segment of `steps` steps.
fn break_fits(found: WideBreak, steps: u64) -> bool
    ensures { IsTrue result → FitsBreak steps found }
{
    0 < found.instant && found.instant <= steps
}

/// Whether a break, if there is one, is one of a segment of `steps` steps.
fn first_break_fits(first_break: Option<WideBreak>, steps: u64) -> bool
    ensures { IsTrue result → IfSome first_break (FitsBreak steps) }
{
    match first_break {
        Some(found) => break_fits(found, steps),
        None => true,
    }
}

/// Whether the values of a mark of this kind are within the bounds.
fn kind_fits(kind: MarkKind) -> bool
    ensures { IsTrue result → FitsKind kind }
{
    match kind {
        MarkKind::Tenure { level, slot } => level < 4 && 0 < slot && slot <= 22,
        MarkKind::Cycle { am, .. } => am < 64,
        MarkKind::Answer { line } | MarkKind::WriteAnswer { line, .. } => {
            line == Line::DTACK || line == Line::BERR
        }
        _ => true,
    }
}

/// Whether a mark's instant is `before` at least, is one of `steps` steps, and its kind is within the bounds.
fn mark_fits(mark: &WideMark, steps: u64, before: u64) -> bool
    ensures { IsTrue result → FitsMark steps before mark.now }
{
    0 < mark.instant && before <= mark.instant && mark.instant <= steps && kind_fits(mark.kind)
}

/// Whether each mark fits a segment of `steps` steps, and the instants of the marks don't descend.
fn marks_fit(marks: &[WideMark], steps: u64) -> bool
    ensures { IsTrue result → FitMarks steps 0 marks.now }
{
    let mut before = 0;
    for mark in marks {
        if !mark_fits(mark, steps, before) {
            return false;
        }
        before = mark.instant;
    }
    true
}

/// Whether a node with `behind` nodes after it, in a table of `memories` memories, is within the bounds.
fn node_fits(node: &TableNode, memories: u32, steps: u64, behind: u32) -> bool
    requires { memories + behind < 2 ^ 32 }
    ensures { IsTrue result → FitsNode memories steps behind (node_value node.now) }
{
    node.next < memories + behind
        && first_break_fits(node.first_break, steps)
        && !node.marks.is_empty()
        && node.marks.len() <= u32::MAX as usize
        && marks_fit(node.marks.as_slice(), steps)
}

/// Whether the nodes of a table of `memories` memories, of a segment of `steps` steps, are within the bounds.
fn nodes_fit(nodes: &[TableNode], memories: u32, steps: u64) -> bool
    requires { memories + length nodes.now < 2 ^ 32 }
    ensures { IsTrue result → FitNodes memories steps (map node_value nodes.now) }
{
    let mut behind = nodes.len() as u32;
    for node in nodes {
        behind -= 1;
        if !node_fits(node, memories, steps, behind) {
            return false;
        }
    }
    true
}

/// Whether an entry has a way below `ways`, the number of memories and nodes, and its break is one of a segment of
/// `steps` steps.
fn entry_fits(entry: &TableEntry, ways: u32, steps: u64) -> bool
    ensures { IsTrue result → FitsEntry steps ways entry.now }
{
    entry.next < ways && first_break_fits(entry.first_break, steps)
}

/// Whether `entry_fits` holds of all of `entries`.
fn entries_fit(entries: &[TableEntry], ways: u32, steps: u64) -> bool
    ensures { IsTrue result → All (FitsEntry steps ways) entries.now }
{
    for entry in entries {
        if !entry_fits(entry, ways, steps) {
            return false;
        }
    }
    true
}

/// Whether a run from memory 2 stays in it, and has no break and no mark.
fn memory_stays(entries: &[TableEntry]) -> bool
    ensures { IsTrue result → slice_get entries.now 2 ≡ Some stays }
{
    match entries.get(2) {
        Some(entry) => *entry == STAYS,
        None => false,
    }
}

/// Whether a table of a part, with marks (`listing`) or without, may have `nodes` nodes.
fn may_have(listing: bool, nodes: usize) -> bool
    ensures { IsTrue result → listing ≡ false → nodes ≡ 0 }
{
    listing || nodes == 0
}

/// Whether a table of `memories` memories can be written.
fn table_fits(table: &OutcomeTable, listing: bool, memories: u32, steps: u64) -> bool
    requires { memories < 2 ^ 31 }
    ensures { IsTrue result → FitsTable listing memories steps (table_value table.now) }
{
    let nodes = table.nodes.len();
    let room = (u32::MAX - memories) as usize;
    if table.entries.len() != memories as usize {
        return false;
    }
    if room < nodes {
        return false;
    }
    if !may_have(listing, nodes) {
        return false;
    }
    if !memory_stays(table.entries.as_slice()) {
        return false;
    }
    if !entries_fit(table.entries.as_slice(), memories + nodes as u32, steps) {
        return false;
    }
    nodes_fit(table.nodes.as_slice(), memories, steps)
}

/// Whether the times of a segment are within the bounds.
fn times_fit(segment: &Segment) -> bool
    requires { FitsNumbers segment.now.first segment.now.order }
    ensures { IsTrue result
        → FitsTimes segment.now.first segment.now.order segment.now.steps segment.now.times }
{
    match segment.times {
        None => segment.steps == 0,
        Some(times) => {
            0 < segment.steps
                && segment.first <= times.number
                && times.number <= last_file(segment)
                && times.first <= times.last
        }
    }
}

/// Whether the tables of a segment can be written.
fn tables_fit(segment: &Segment, listing: bool, steps: u64) -> bool
    ensures known { IsTrue result → FitsTable listing 4 steps (table_value segment.now.known) }
    ensures handshake { IsTrue result → FitsTable listing 147 steps (table_value segment.now.handshake) }
    ensures stability { IsTrue result → FitsTable listing 13 steps (table_value segment.now.stability) }
    ensures grant { IsTrue result → FitsTable listing 35 steps (table_value segment.now.grant) }
    ensures acknowledge { IsTrue result → FitsTable listing 11 steps (table_value segment.now.acknowledge) }
{
    let [known, handshake, stability, grant, acknowledge] = MEMORY_COUNTS;
    table_fits(&segment.known, listing, known, steps)
        && table_fits(&segment.handshake, listing, handshake, steps)
        && table_fits(&segment.stability, listing, stability, steps)
        && table_fits(&segment.grant, listing, grant, steps)
        && table_fits(&segment.acknowledge, listing, acknowledge, steps)
}

/// Whether a segment can be written.
fn segment_fits(segment: &Segment, listing: bool) -> bool
    ensures { IsTrue result → FitsSegment listing (segment_value segment.now) }
{
    if !numbers_fit(segment) {
        return false;
    }
    if !levels_fit(&segment.opening) {
        return false;
    }
    if !levels_fit(&segment.left) {
        return false;
    }
    if segment.left.slots() != segment.opening.slots() {
        return false;
    }
    if !times_fit(segment) {
        return false;
    }
    tables_fit(segment, listing, step_count(segment))
}

/// The sum of a part's backplane.
fn backplane_of(part: &Part) -> u64
    ensures { result ≡ part.now.backplane }
{
    part.backplane
}

/// Whether a segment can be written, and each table has at most two nodes a memory.
fn is_fit_and_compact(segment: &Segment, listing: bool) -> bool
    ensures fits { IsTrue result → FitsSegment listing (segment_value segment.now) }
    ensures compact { IsTrue result → IsCompact (segment_value segment.now) }
{
    segment_fits(segment, listing) && is_compact(segment)
}

/// Whether a part has one segment, can be written, and each table has at most two nodes a memory. If not, it is refused
/// as out of the range of parts.
pub fn can_write(part: &Part) -> bool
    ensures fits { IsTrue result → FitsPart (part_value part.now) }
    ensures compact { IsTrue result → IsCompactPart (part_value part.now) }
{
    // the backplane may be any number of 64 bits
    let _backplane = backplane_of(part);
    match part.segments.as_slice() {
        [segment] => is_fit_and_compact(segment, part.listing),
        _ => false,
    }
}

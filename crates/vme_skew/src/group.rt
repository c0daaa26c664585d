//! The current group of steps.

ghost use Rattle.std.specs.Prelude.{◌≡◌, ◌+◌, [], IfOk, OnOk, false, true, get_or, length, nat_lt, replicate};
ghost use Rattle.std.specs.Prelude.{if◌then◌else◌, slice_set};
ghost use Rattle.std.specs.Option.{option_to_list};
ghost use Rattle.std.specs.List.Sorted.{IsNonDecreasing};
ghost use Rattle.vme_trace.specs.LineNumbers.{line_count};
ghost use Rattle.vme_trace.specs.Levels.{set_level};
ghost use Rattle.vme_trace.specs.Trace.{changed};
ghost use Rattle.vme_bind.specs.Recording.{IsLine, changes_between, step_between};
ghost use Rattle.vme_skew.specs.Group.{ChangeLines, ListsTouchedLines, begun};

use smallvec::SmallVec;
use std::alloc::{AllocError, Global};
use std::marker::Model;
use vme_trace::{Change, Changes, LINE_COUNT, Line, Lines, Step};

/// A mark for each line: it is set or not.
#[derive(Drop)]
struct LineMarks {
    marks: [bool; LINE_COUNT as usize],
}

impl Model for LineMarks {
    ghost use Rattle.std.specs.Prelude.{Bool, List};

    ghost Value = { List Bool };

    ghost view = { λ m. m.marks };
}

impl LineMarks {
    /// No line is marked.
    fn none() -> LineMarks
        ensures { result ≡ replicate line_count false }
    {
        LineMarks {
            marks: [false; LINE_COUNT as usize],
        }
    }

    /// Whether the line is marked.
    fn has(&self, line: Line) -> bool
        ensures { result ≡ get_or self.now line false }
    {
        self.marks[line.number() as usize]
    }

    /// Marks the line.
    fn mark(&mut self, line: Line)
        ensures { self.new ≡ slice_set self.old line true }
    {
        self.marks[line.number() as usize] = true;
    }
}

/// A group of steps.
#[derive(Drop)]
pub(crate) struct StepGroup {
    /// The time at which it begins.
    start: u64,
    /// The levels before it.
    before: Lines,
    /// The levels after its last step.
    now: Lines,
    /// The lines that its steps change, each line once.
    touched: Vec<Line>,
    /// The marks of these lines.
    marked: LineMarks,
}

impl Model for StepGroup {
    ghost use Rattle.vme_skew.specs.Group.{GroupLevels, KeepsTouchedLines};

    ghost Value = { GroupLevels };

    ghost view = { λ g. record { start = g.start; before = g.before; now = g.now } };

    ghost invariant = { λ g. KeepsTouchedLines g.before g.now g.touched.items g.marked };
}

/// The changes from the levels `before` a group to those after it, `now`, on the `touched` lines, in the order of their
/// numbers. `before` is then set to `now`.
fn show(
    alloc: Global,
    touched: &[Line],
    now: &Lines,
    before: &mut Lines,
) -> Result<SmallVec<Change, 8>, AllocError>
    requires sorted { IsNonDecreasing touched.now }
    requires touched { ListsTouchedLines before.old now.now touched.now }
    ensures changes { IfOk result (λ changes. changes.items ≡ changes_between before.old now.now) }
    ensures before { OnOk result (before.new ≡ now.now) }
    ensures touched { ListsTouchedLines before.new now.now touched.now }
{
    let mut changes = SmallVec::with_capacity(alloc, touched.len())?;
    for line in touched {
        let level = now.level(*line);
        if !before.level(*line).is_same(level) {
            changes.push_reserved(Change { line: *line, level });
            before.set(*line, level);
        }
    }
    Ok(changes)
}

impl StepGroup {
    /// A group that begins at time 0 and has no step yet.
    pub fn new(alloc: Global, opening: Lines) -> StepGroup
        ensures group { result ≡ begun 0 opening }
        ensures all { length opening.levels ≡ line_count }
    {
        StepGroup {
            start: 0,
            before: opening,
            now: opening,
            touched: Vec::new(alloc),
            marked: LineMarks::none(),
        }
    }

    /// Whether a step at `time` comes more than the skew after the beginning of the group.
    #[tactic(auto, using(crate::proofs::Grouping::is_over_skew))]
    pub fn is_over(&self, time: u64, skew: u64) -> bool
        ensures { result ≡ nat_lt (self.entry.now.start + skew) time }
    {
        time.saturating_sub(self.start) > skew
    }

    /// Gives a line a level.
    fn set_line(&mut self, change: Change) -> Result<(), AllocError>
        requires { IsLine self.old.now.slots change.line }
        ensures slots { self.new.now.slots ≡ self.old.now.slots }
        ensures ok { OnOk result (self.new ≡ record self.old {
          now = set_level self.old.now change.line change.level;
        }) }
    {
        if !self.marked.has(change.line) {
            self.touched.push(change.line)?;
            self.marked.mark(change.line);
        }
        self.now.set(change.line, change.level);
        Ok(())
    }

    /// Takes the changes of the step that follows. It fails if memory runs out, and then nothing is said of the group.
    pub fn take(&mut self, changes: &[Change]) -> Result<(), AllocError>
        requires { ChangeLines self.old.now.slots changes.now }
        ensures { OnOk result (self.new ≡ record self.old { now = changed self.old.now changes.now }) }
    {
        for change in changes {
            self.set_line(*change)?;
        }
        Ok(())
    }

    /// Takes the changes of the step that follows, of which nothing is known: changes of lines that the backplane
    /// doesn't have are left out. It fails if memory runs out, and then nothing is said of the group.
    pub fn take_any(&mut self, changes: &[Change]) -> Result<(), AllocError>
        ensures { ChangeLines self.old.now.slots changes.now
            → OnOk result (self.new ≡ record self.old { now = changed self.old.now changes.now }) }
    {
        for change in changes {
            if self.now.has(change.line) {
                self.set_line(*change)?;
            }
        }
        Ok(())
    }

    /// Ends the group, which makes a step if some line has another level after it than before it. The next group begins
    /// at time `next`. It fails if memory runs out, and then nothing is said of the group.
    pub fn end(&mut self, alloc: Global, next: u64) -> Result<Option<Step>, AllocError>
        ensures begun { OnOk result (self.new ≡ begun next self.old.now) }
        ensures step { IfOk result (λ step. option_to_list step
            ≡ step_between self.old.start self.old.before self.old.now) }
    {
        self.touched.sort_unstable_by_key(|line| line.number());
        let changes = show(alloc, &self.touched, &self.now, &mut self.before)?;
        self.touched.clear();
        self.marked = LineMarks::none();
        let time = self.start;
        self.start = next;
        if changes.is_empty() {
            return Ok(None);
        }
        Ok(Some(Step {
            time,
            changes: Changes::new(changes),
        }))
    }

    /// Ends the group if `is_last`: then the next one begins at time `next`. It fails if memory runs out, and then
    /// nothing is said of the group.
    pub fn end_if(
        &mut self,
        alloc: Global,
        is_last: bool,
        next: u64,
    ) -> Result<Option<Step>, AllocError>
        ensures begun { OnOk result (self.new ≡ (if is_last then begun next self.old.now else self.old)) }
        ensures step { IfOk result (λ step. option_to_list step
            ≡ (if is_last then step_between self.old.start self.old.before self.old.now else [])) }
    {
        if is_last {
            self.end(alloc, next)
        } else {
            Ok(None)
        }
    }
}

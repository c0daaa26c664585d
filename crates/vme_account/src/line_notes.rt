//! Which lines move, and which are at some time as an idle bus has them.

ghost use Rattle.std.specs.Prelude.{◌≡◌};
ghost use Rattle.vme_trace.specs.Levels.{rests_high};
ghost use Rattle.vme_account.specs.Idle.{has_idle_level, is_idle_level};
ghost use Rattle.vme_account.specs.LineNotes.{is_flagged};

use vme_trace::{Change, LINE_COUNT, Level, Line, Lines};

/// A set of lines: a flag for each, by its number, says whether it is in the set.
#[derive(Clone, Copy, Debug, PartialEq, Eq)]
pub(crate) struct LineFlags {
    lines: [bool; LINE_COUNT as usize],
}

/// Whether a control line is High while the bus is idle: AS, the strobes, the answers, the nets and SYSRESET are.
pub fn rests_high(line: Line) -> bool
    ensures { result ≡ rests_high line }
{
    line <= Line::BERR || line.is_net() || line == Line::SYSRESET
}

/// Whether `line` may have `level` on an idle bus: High if it rests High, or else any known level.
fn is_idle_level(line: Line, level: Level) -> bool
    ensures { result ≡ is_idle_level line level }
{
    if rests_high(line) {
        level.is_high()
    } else {
        level.is_known()
    }
}

/// Whether the backplane has `line`, with a level that it may have on an idle bus.
pub(crate) fn has_idle_level(lines: &Lines, line: Line) -> bool
    ensures { result ≡ has_idle_level lines.now line }
{
    lines.has(line) && is_idle_level(line, lines.level(line))
}

/// Which lines move, and which are at some time as an idle bus has them.
#[derive(Clone, Copy, Debug, PartialEq, Eq)]
pub(crate) struct LineNotes {
    /// The lines that moved since judging started first.
    pub moved: LineFlags,
    /// The lines that were at some time as an idle bus has them, before judging started.
    pub idle_levels: LineFlags,
}

impl LineNotes {
    /// The notes before the first step.
    pub fn at_opening(opening: &Lines) -> LineNotes {
        LineNotes {
            moved: LineFlags::none(),
            idle_levels: LineFlags::idle_in(opening),
        }
    }

    /// Takes the changes of a step. `has_started` is whether judging has started before it.
    pub fn note_lines(&mut self, has_started: bool, changes: &[Change]) {
        if has_started {
            self.moved.insert_changed(changes);
        } else {
            self.idle_levels.insert_idle(changes);
        }
    }
}

impl LineFlags {
    /// No line.
    fn none() -> LineFlags {
        LineFlags {
            lines: [false; LINE_COUNT as usize],
        }
    }

    /// The lines that are as an idle bus has them.
    fn idle_in(lines: &Lines) -> LineFlags {
        let mut idle = LineFlags::none();
        for number in 0..LINE_COUNT {
            if let Some(line) = Line::from_number(number) {
                if has_idle_level(lines, line) {
                    idle.insert(line);
                }
            }
        }
        idle
    }

    /// Inserts a line.
    fn insert(&mut self, line: Line) {
        self.lines[usize::from(line.number())] = true;
    }

    /// Inserts the lines that change to a level that an idle bus has.
    fn insert_idle(&mut self, changes: &[Change]) {
        for change in changes {
            if is_idle_level(change.line, change.level) {
                self.insert(change.line);
            }
        }
    }

    /// Inserts the lines that change.
    fn insert_changed(&mut self, changes: &[Change]) {
        for change in changes {
            self.insert(change.line);
        }
    }

    /// Whether a line is in the set.
    pub fn has(&self, line: Line) -> bool
        ensures { result ≡ is_flagged self.now line }
    {
        let place = usize::from(line.number());
        self.lines[place]
    }
}

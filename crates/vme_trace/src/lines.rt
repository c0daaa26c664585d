//! The levels of all lines at an instant.

ghost use Rattle.std.specs.Prelude.{◌≡◌, ◌+◌, ◌*◌, ◌<◌, ◌≤◌, SomeIff, IsTrue, replicate};
ghost use Rattle.vme_trace.specs.declared.level.Level.TheVariants.{Unknown};

use crate::level::Level;
use crate::line::{LINE_COUNT, Line, MOST_SLOTS};
use crate::step::Change;
use std::marker::Model;

/// Each line has a level.
const LEVEL_COUNT: usize = LINE_COUNT as usize;

/// The level of every line of a backplane of some slots.
#[derive(Clone, Copy, Debug, PartialEq, Eq)]
pub struct Lines {
    slots: u8,
    levels: [Level; LEVEL_COUNT],
}

impl Model for Lines {
    ghost use Rattle.std.specs.Prelude.{◌≤◌};
    ghost use Rattle.vme_trace.specs.Levels.{Levels};

    ghost Value = { Levels };

    ghost view = { λ a. record { slots = a.slots; levels = a.levels } };

    ghost invariant = { λ a. (1 ≤ a.slots) × (a.slots ≤ 21) };

    ghost inverse = { λ v. record { slots = v.slots; levels = v.levels } };
}

impl Lines {
    ghost use Rattle.vme_trace.specs.Instants.{every};
    ghost use Rattle.vme_trace.specs.Levels.{level_at, set_level, is_high_on, is_known_on, is_idle, idle_by_ranges};
    ghost use Rattle.vme_trace.specs.Levels.{is_reset, is_lost, same_level};
    ghost use Rattle.vme_trace.specs.Changes.{lost_among, touches_control};
    ghost use Rattle.vme_trace.specs.Trace.{changed};
    ghost use Rattle.vme_trace.specs.LineNumbers.{line_count, has_line, is_control, grant};

    /// A backplane of `slots` slots, 1 to 21, with all lines unknown; `None` for another number of slots.
    pub fn new(slots: u8) -> Option<Lines>
        ensures { SomeIff result ((1 ≤ slots) × (slots ≤ 21))
            (record { slots = slots; levels = replicate line_count Unknown }) }
    {
        if 1 <= slots && slots <= MOST_SLOTS {
            Some(Lines {
                slots,
                levels: [Level::Unknown; LEVEL_COUNT],
            })
        } else {
            None
        }
    }

    /// How many slots the backplane has, 1 to 21.
    pub fn slots(&self) -> u8
        ensures slots { result ≡ self.now.slots }
        ensures least { 1 ≤ result }
        ensures most { result ≤ 21 }
    {
        self.slots
    }

    /// Whether the backplane has the line: the nets of its daisy chains end at its last slot.
    pub fn has(&self, line: Line) -> bool
        ensures { result ≡ has_line self.now.slots line }
    {
        if let Some((_, place)) = line.grant_place() {
            place <= self.slots
        } else if line.is_acknowledge() {
            line.number() <= Line::iack(self.slots).number()
        } else {
            true
        }
    }

    /// Gives a line a level.
    pub fn set(&mut self, line: Line, level: Level)
        requires { IsTrue (has_line self.old.slots line) }
        ensures { self.new ≡ set_level self.old line level }
    {
        self.put(line, level);
    }

    /// The level of a line.
    pub fn level(&self, line: Line) -> Level
        requires { IsTrue (has_line self.now.slots line) }
        ensures { result ≡ level_at self.now line }
    {
        self.at(line.number())
    }

    /// Whether `line` has the same level in `self` and in `other`.
    #[inline(always)]
    pub fn is_same_on(&self, other: &Lines, line: Line) -> bool
        ensures { result ≡ same_level (level_at self.now line) (level_at other.now line) }
    {
        self.at(line.number()).is_same(other.at(line.number()))
    }

    /// The level of the line with the number `number`.
    fn at(&self, number: u8) -> Level
        requires { number < line_count }
        ensures { result ≡ level_at self.now number }
    {
        self.levels[number as usize]
    }

    /// Gives a line a level.
    fn put(&mut self, line: Line, level: Level)
        ensures { self.new ≡ set_level self.old line level }
    {
        self.levels[line.number() as usize] = level;
    }

    /// Makes the changes of a step, in their order. Only the changed lines are looked at. Most steps have one change.
    #[tactic(auto, unfolding(crate::specs::Trace::changed))]
    pub fn apply(&mut self, changes: &[Change])
        ensures { self.new ≡ changed self.old changes.now }
    {
        if let [only] = changes {
            self.put(only.line, only.level);
            return;
        }
        for change in changes {
            self.put(change.line, change.level);
        }
    }

    /// Whether the line is a control line, which has to be known wherever something is judged: AS*, the
    /// strobes, the answers, IACK*, BBSY*, the bus requests, the nets of the daisy chains that exist, and SYSRESET*.
    pub fn is_control(&self, line: Line) -> bool
        ensures { result ≡ is_control self.now.slots line }
    {
        let number = line.number();
        (number <= Line::IACK.number() || (Line::BBSY.number() <= number && !line.is_data()))
            && self.has(line)
    }

    /// Whether the bus is reset: SYSRESET* is low.
    #[inline(always)]
    pub fn is_reset(&self) -> bool
        ensures { result ≡ is_reset self.now }
    {
        self.level(Line::SYSRESET).is_low()
    }

    /// Whether the line is an unknown control line, and the bus isn't reset.
    fn is_lost(&self, line: Line) -> bool
        ensures { result ≡ is_lost self.now line }
    {
        !self.at(line.number()).is_known() && self.is_control(line) && !self.is_reset()
    }

    /// Whether a control line is among the changes.
    pub fn touches_control(&self, changes: &[Change]) -> bool
        ensures { result ≡ touches_control self.now.slots changes.now }
    {
        for change in changes {
            if self.is_control(change.line) {
                return true;
            }
        }
        false
    }

    /// The first changed line that is an unknown control line; `None` where the bus is reset.
    pub fn lost_among(&self, changes: &[Change]) -> Option<Line>
        ensures { result ≡ lost_among self.now changes.now }
    {
        for change in changes {
            if self.is_lost(change.line) {
                return Some(change.line);
            }
        }
        None
    }

    /// Whether all lines from `first` to `last`, both included, are high.
    #[tactic(auto, using(crate::proofs::Ranges::searches))]
    fn are_high(&self, first: Line, last: Line) -> bool
        requires { first ≤ last }
        ensures { result ≡ every (is_high_on self.now) first (last + 1) }
    {
        for number in first.number()..last.number() + 1 {
            if !self.at(number).is_high() {
                return false;
            }
        }
        true
    }

    /// Whether all lines from `first` to `last`, both included, are known. The known ones are counted, without an early
    /// return, so that a few vector instructions do it.
    #[inline(always)]
    pub fn are_known(&self, first: Line, last: Line) -> bool
        requires { first ≤ last }
        ensures { result ≡ every (is_known_on self.now) first (last + 1) }
    {
        let mut known = 0u8;
        for number in first.number()..last.number() + 1 {
            if self.at(number).is_known() {
                known += 1;
            }
        }
        known == last.number() - first.number() + 1
    }

    /// Whether no net of a bus grant level is low or unknown.
    fn is_ungranted(&self, level: u8) -> bool
        requires { level < 4 }
        ensures { result ≡ every (is_high_on self.now) (grant level 0) (grant level self.now.slots + 1) }
    {
        self.are_high(Line::grant(level, 0), Line::grant(level, self.slots))
    }

    /// Whether the bus is idle: each control line is known, and AS*, the strobes, the answers, the nets of
    /// the daisy chains and SYSRESET* are high. The lines are looked at up to the first that isn't so.
    pub fn is_idle(&self) -> bool
        ensures { result ≡ is_idle self.now }
    {
        self.is_each_range_idle()
    }

    /// Whether the bus is idle, by the ranges of lines that the backplane has.
    fn is_each_range_idle(&self) -> bool
        ensures ranges { result ≡ idle_by_ranges self.now }
        ensures first { 1 ≤ self.now.slots }
        ensures last { self.now.slots ≤ 21 }
    {
        self.are_high(Line::AS, Line::BERR)
            && self.are_known(Line::IACK, Line::IACK)
            && self.are_known(Line::BBSY, Line::bus_request(3))
            && self.is_ungranted(0)
            && self.is_ungranted(1)
            && self.is_ungranted(2)
            && self.is_ungranted(3)
            && self.are_high(Line::iack(1), Line::iack(self.slots))
            && self.are_high(Line::SYSRESET, Line::SYSRESET)
    }
}

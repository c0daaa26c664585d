//! Which bits of variables the lines of a backplane were found to be.

ghost use Rattle.std.specs.Prelude.{◌≡◌, ◌≤◌, ℕ, [], None, false};
ghost use Rattle.vme_declarations.specs.Found.{bit_of_line, groups, has_net, moves, slots, with_bit};
ghost use Rattle.vme_declarations.specs.Found.{with_group, with_moving};

use crate::groups::{Groups, group_of};
use std::alloc::Global;
use vme_trace::{LINE_COUNT, Line, MOST_SLOTS};

/// A bit of a variable.
#[derive(Clone, Copy, Debug, PartialEq, Eq)]
pub struct VariableBit {
    /// The place of the variable in the order of declaration.
    pub variable: usize,
    /// The place of the bit, from the left.
    pub place: u32,
}

/// What was found for the lines of a backplane.
#[derive(Drop)]
pub struct FoundLines {
    /// A bit of a variable for each line, by the line's number.
    bits_of_lines: [Option<VariableBit>; LINE_COUNT as usize],
    /// The lines whose bit moves.
    moving: [bool; LINE_COUNT as usize],
    /// The path of the scope in which lines were found, or that was asked for.
    pub scope: Vec<u8>,
    /// Whether that scope was asked for by its path.
    pub is_asked: bool,
    /// The paths of other scopes that hold at least half as many of the names.
    pub others: Vec<Vec<u8>>,
    /// The groups of which a board's output was found too, beside the variable that is taken.
    pub doubled: Groups,
}

impl FoundLines {
    /// Nothing is found.
    pub fn none(alloc: Global) -> FoundLines
        ensures bits { (line : ℕ) → bit_of_line result line ≡ None }
        ensures moving { (line : ℕ) → moves result line ≡ false }
        ensures scope { result.scope.items ≡ [] }
        ensures is_asked { result.is_asked ≡ false }
        ensures others { result.others.items ≡ [] }
        ensures doubled { result.doubled ≡ 0 }
    {
        FoundLines {
            bits_of_lines: [None; LINE_COUNT as usize],
            moving: [false; LINE_COUNT as usize],
            scope: Vec::new(alloc),
            is_asked: false,
            others: Vec::new(alloc),
            doubled: 0,
        }
    }

    /// The bit that was found for a line, if one was.
    pub fn bit_of_line(&self, line: Line) -> Option<VariableBit>
        ensures { result ≡ bit_of_line self.now line }
    {
        self.bits_of_lines
            .get(usize::from(line.number()))
            .copied()
            .flatten()
    }

    /// Whether the bit of a line was found and moves.
    pub fn moves(&self, line: Line) -> bool
        ensures { result ≡ moves self.now line }
    {
        self.moving
            .get(usize::from(line.number()))
            .copied()
            .unwrap_or(false)
    }

    /// `groups` with the group of `line`, if a bit of the line was found.
    fn with_group(&self, line: Line, groups: Groups) -> Groups
        ensures { result ≡ with_group self.now line groups }
    {
        if self.bit_of_line(line).is_some() {
            groups | group_of(line)
        } else {
            groups
        }
    }

    /// The groups of which a line was found.
    #[tactic(auto, using(crate::proofs::FoundLemmas::groups_below_next), unfolding(crate::specs::Found::groups_below))]
    pub fn groups(&self) -> Groups
        ensures { result ≡ groups self.now }
    {
        let mut groups: Groups = 0;
        for number in 0..LINE_COUNT {
            let Some(line) = Line::from_number(number) else {
                return groups;
            };
            groups = self.with_group(line, groups);
        }
        groups
    }

    /// Removes the bit of `line`.
    pub fn forget(&mut self, line: Line)
        ensures { self.new ≡ with_bit self.old line None }
    {
        self.set(line, None);
    }

    /// Sets the bit of `line`.
    pub fn set(&mut self, line: Line, bit: Option<VariableBit>)
        ensures { self.new ≡ with_bit self.old line bit }
    {
        self.bits_of_lines[usize::from(line.number())] = bit;
    }

    /// Notes whether the bit of `line` moves.
    pub fn note_moving(&mut self, line: Line, moves: bool)
        ensures { self.new ≡ with_moving self.old line moves }
    {
        self.moving[usize::from(line.number())] = moves;
    }

    /// Whether a net at `place` of some daisy chain was found.
    fn has_net(&self, place: u8) -> bool
        requires first { 1 ≤ place }
        requires last { place ≤ 21 }
        ensures { result ≡ has_net self.now place }
    {
        self.bit_of_line(Line::grant(0, place)).is_some()
            || self.bit_of_line(Line::grant(1, place)).is_some()
            || self.bit_of_line(Line::grant(2, place)).is_some()
            || self.bit_of_line(Line::grant(3, place)).is_some()
            || self.bit_of_line(Line::iack(place)).is_some()
    }

    /// The number of slots that the daisy chains show: the greatest place at which a net was found, from 1 to 21; else
    /// 1.
    pub fn slots(&self) -> u8
        ensures { result ≡ slots self.now }
    {
        let mut slots = 1;
        for before in 0..MOST_SLOTS {
            if self.has_net(before + 1) {
                slots = before + 1;
            }
        }
        slots
    }
}

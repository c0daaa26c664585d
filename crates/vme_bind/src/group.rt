//! Groups of lines.

ghost use Rattle.std.specs.Prelude.{◌≡◌, option_and_then};
ghost use Rattle.vme_trace.specs.Names.{line_named};

use vme_trace::{Line, Lines};

/// The lines that one name denotes. Their numbers are consecutive.
#[derive(Clone, Copy)]
pub(crate) struct Group {
    /// The first line, which has the greatest number.
    pub first: Line,
    /// The number of lines, from the first one down.
    pub count: u8,
}

impl Group {
    ghost use Rattle.vme_bind.specs.Groups.{data_group, reset_group, holds, share, group_named, single};

    /// The data lines, D31 to D00.
    pub fn data() -> Group
        ensures { result ≡ data_group }
    {
        Group {
            first: Line::data(31),
            count: 32,
        }
    }

    /// The system reset alone.
    pub fn reset() -> Group
        ensures { result ≡ reset_group }
    {
        Group {
            first: Line::SYSRESET,
            count: 1,
        }
    }

    /// Whether `line` is in the group.
    pub fn holds(self, line: Line) -> bool
        ensures { result ≡ holds self line }
    {
        let first = u16::from(self.first.number());
        let line = u16::from(line.number());
        line <= first && first < line + u16::from(self.count)
    }

    /// Whether the two groups have a line in common.
    pub fn shares(self, other: Group) -> bool
        ensures { result ≡ share self other }
    {
        let first = u16::from(self.first.number());
        let other_first = u16::from(other.first.number());
        first < other_first + u16::from(self.count) && other_first < first + u16::from(other.count)
    }

    /// The lines that `name` denotes on the backplane `lines`, if it denotes any.
    pub fn named(lines: &Lines, name: &[u8]) -> Option<Group>
        ensures { result ≡ group_named lines.now.slots name.now }
    {
        let slots = lines.slots();
        let (first, count) = if name == b"AM".as_slice() {
            (Line::address_modifier(5), 6)
        } else if name == b"A".as_slice() {
            (Line::address(31), 31)
        } else if name == b"BR".as_slice() {
            (Line::bus_request(3), 4)
        } else if name == b"BG0".as_slice() {
            (Line::grant(0, slots), slots + 1)
        } else if name == b"BG1".as_slice() {
            (Line::grant(1, slots), slots + 1)
        } else if name == b"BG2".as_slice() {
            (Line::grant(2, slots), slots + 1)
        } else if name == b"BG3".as_slice() {
            (Line::grant(3, slots), slots + 1)
        } else if name == b"IA".as_slice() {
            (Line::iack(slots), slots)
        } else if name == b"D".as_slice() {
            return Some(Group::data());
        } else {
            return Group::single(lines, name);
        };
        Some(Group { first, count })
    }

    /// The group of the one line with this name, if the backplane has it.
    fn single(lines: &Lines, name: &[u8]) -> Option<Group>
        ensures { result ≡ option_and_then (single lines.now.slots) (line_named name.now) }
    {
        let line = Line::from_name(name)?;
        if !lines.has(line) {
            return None;
        }
        Some(Group {
            first: line,
            count: 1,
        })
    }
}

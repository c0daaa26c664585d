//! The groups of lines that a binding names, as bits of a set.

ghost use Rattle.std.specs.Prelude.{◌≡◌, ◌<◌, count_ones};
ghost use Rattle.vme_declarations.specs.Groups.{group_of, group_place, has_cycle, has_group, has_handshake};

use vme_trace::Line;

/// A set of groups: a bit for each group.
pub type Groups = u32;

/// The groups that distinguish a bus from a memory: all but the data lines.
pub const BUS_GROUPS: Groups = 0x7_FFFF ^ (1 << 17);

/// The place of the bit of the line's group in a set, from the right.
fn group_place(line: Line) -> u32
    ensures place { result ≡ group_place line }
    ensures within { result < 32 }
{
    let number = u32::from(line.number());
    match number {
        0..=5 => number,
        6..=11 => 6,
        12 => 7,
        13 => 8,
        14..=44 => 9,
        45 => 10,
        46..=49 => 11,
        50..=71 => 12,
        72..=93 => 13,
        94..=115 => 14,
        116..=137 => 15,
        138..=158 => 16,
        159..=190 => 17,
        _ => 18,
    }
}

/// The set of the group of `line` alone.
pub fn group_of(line: Line) -> Groups
    ensures { result ≡ group_of line }
{
    1 << group_place(line)
}

/// How many groups a set has.
pub fn count(groups: Groups) -> u32
    ensures { result ≡ count_ones groups }
{
    groups.count_ones()
}

/// Whether a set has the group of a line.
fn has_group(groups: Groups, line: Line) -> bool
    ensures { result ≡ has_group groups line }
{
    groups >> group_place(line) & 1 == 1
}

/// Whether `groups` has AS and a data strobe.
pub fn has_cycle(groups: Groups) -> bool
    ensures { result ≡ has_cycle groups }
{
    has_group(groups, Line::AS) && (has_group(groups, Line::DS0) || has_group(groups, Line::DS1))
}

/// Whether `groups` has AS, a data strobe, and DTACK or BERR.
pub fn has_handshake(groups: Groups) -> bool
    ensures { result ≡ has_handshake groups }
{
    has_cycle(groups) && (has_group(groups, Line::DTACK) || has_group(groups, Line::BERR))
}

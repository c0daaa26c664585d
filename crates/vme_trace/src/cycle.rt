//! What the levels as AS* falls determine: the class of the cycle, and the lines that it needs.

ghost use Rattle.std.specs.Prelude.{◌≡◌, ◌<◌, ◌≤◌};
ghost use Rattle.vme_trace.specs.Cycle.{modifier_bit, modifier_of, highest_address, class_of, needs_of};
ghost use Rattle.vme_trace.specs.Cycle.{has_known_modifier, is_block};

use crate::class::Class;
use crate::line::Line;
use crate::lines::Lines;
use std::marker::Model;

/// The lines that a cycle needs: IACK*, the address lines up to a highest one, and perhaps AM0 to AM5 and LWORD*.
#[derive(Clone, Copy, Debug, PartialEq, Eq)]
pub struct LineSet {
    has_modifier: bool,
    highest_address: u8,
}

impl Model for LineSet {
    ghost use Rattle.vme_trace.specs.Cycle.{Needs};

    ghost Value = { Needs };

    ghost use Rattle.std.specs.Prelude.{◌≤◌};

    ghost view = { λ a. record { modifier = a.has_modifier; highest = a.highest_address } };

    ghost invariant = { λ a. a.highest_address ≤ 31 };

    ghost inverse = { λ v. record { has_modifier = v.modifier; highest_address = v.highest } };
}

impl LineSet {
    ghost use Rattle.vme_trace.specs.Cycle.{is_within};

    /// Whether the line is in the set.
    pub fn has(&self, line: Line) -> bool
        ensures { result ≡ is_within self.now line }
    {
        let number = line.number();
        match number {
            5 => true,
            6..=12 => self.has_modifier,
            14..=44 => number - 13 <= self.highest_address,
            _ => false,
        }
    }
}

/// The address modifier code, AM5 the most significant bit: a high line is 1, any other 0.
#[tactic(auto, unfolding(crate::specs::Cycle::modifier_of))]
pub fn am_code(lines: &Lines) -> u8
    ensures code { result ≡ modifier_of lines.now }
    ensures below { result < 64 }
{
    modifier_bit(lines, 0)
        + 2 * modifier_bit(lines, 1)
        + 4 * modifier_bit(lines, 2)
        + 8 * modifier_bit(lines, 3)
        + 16 * modifier_bit(lines, 4)
        + 32 * modifier_bit(lines, 5)
}

/// 1 where a bit of the address modifier is high, else 0.
fn modifier_bit(lines: &Lines, bit: u8) -> u8
    requires { bit < 6 }
    ensures bit { result ≡ modifier_bit lines.now bit }
    ensures one { result ≤ 1 }
{
    if lines.level(Line::address_modifier(bit)).is_high() {
        1
    } else {
        0
    }
}

/// Whether each bit of the address modifier is known.
#[tactic(auto, using(crate::proofs::Ranges::searches))]
fn is_modifier_known(lines: &Lines) -> bool
    ensures { result ≡ has_known_modifier lines.now }
{
    for bit in 0..6 {
        if !lines.level(Line::address_modifier(bit)).is_known() {
            return false;
        }
    }
    true
}

/// An address space, by how many address lines are meaningful.
#[derive(Clone, Copy, Debug, PartialEq, Eq)]
pub enum Space {
    /// Short, of 16 bits: A01 to A15.
    Short,
    /// Standard, of 24 bits: A01 to A23.
    Standard,
    /// Extended, of 32 bits: A01 to A31.
    Extended,
}

impl Space {
    ghost use Rattle.vme_trace.specs.Cycle.{highest_in};

    /// The address space of an address modifier code; `None` for a code without one.
    #[tactic(auto, unfolding(crate::specs::Cycle::highest_address))]
    pub fn of(modifier: u8) -> Option<Space>
        ensures { highest_address modifier ≡ highest_in result }
    {
        match modifier {
            0x09 | 0x0A | 0x0B | 0x0D | 0x0E | 0x0F => Some(Space::Extended),
            0x39 | 0x3A | 0x3B | 0x3D | 0x3E | 0x3F => Some(Space::Standard),
            0x29 | 0x2D => Some(Space::Short),
            _ => None,
        }
    }
}

/// The number of the highest address line that is meaningful with `code`: 31, 23 or 15, or 0 where none is.
fn highest_address(code: u8) -> u8
    ensures highest { result ≡ highest_address code }
    ensures last { result ≤ 31 }
{
    match Space::of(code) {
        Some(Space::Extended) => 31,
        Some(Space::Standard) => 23,
        Some(Space::Short) => 15,
        None => 0,
    }
}

/// Whether an address modifier code is one of block transfers.
pub fn is_block(modifier: u8) -> bool
    ensures { result ≡ is_block modifier }
{
    matches!(modifier, 0x0B | 0x0F | 0x3B | 0x3F)
}

/// The class of a cycle whose address strobe falls at these levels: an interrupt acknowledge, a block
/// transfer, single transfers, or free.
#[tactic(auto, unfolding(crate::specs::Cycle::class_of))]
pub fn am_class(lines: &Lines) -> Class
    ensures { result ≡ class_of lines.now }
{
    if lines.level(Line::IACK).is_low() {
        return Class::I;
    }
    if !is_modifier_known(lines) {
        return Class::F;
    }
    let code = am_code(lines);
    if is_block(code) {
        Class::K
    } else if highest_address(code) == 0 {
        Class::F
    } else {
        Class::S
    }
}

/// The lines that a cycle whose address strobe falls at these levels needs: they are known then, and stay
/// as they are to the cycle's first answer.
#[tactic(auto, unfolding(crate::specs::Cycle::needs_of))]
pub fn needed(lines: &Lines) -> LineSet
    ensures { result ≡ needs_of lines.now }
{
    match am_class(lines) {
        Class::I => LineSet {
            has_modifier: false,
            highest_address: 3,
        },
        Class::F => LineSet {
            has_modifier: true,
            highest_address: 0,
        },
        Class::S | Class::K => LineSet {
            has_modifier: true,
            highest_address: highest_address(am_code(lines)),
        },
    }
}

//! The data lines that a transfer moves, and the data on them.

ghost use Rattle.std.specs.Prelude.{◌≡◌, ◌≤◌, ◌<◌, ◌*◌};
ghost use Rattle.vme_trace.specs.Data.{is_selected as is_selected_at};
ghost use Rattle.vme_trace.specs.Lanes.{digit_at, flag_at, has_digit, is_digit_known, is_digit_moved, lanes_at};
ghost use Rattle.vme_trace.specs.Lanes.{moved_at, weight_at};

use crate::level::Level;
use crate::line::Line;
use crate::lines::Lines;

/// Which bytes of the data bus a transfer moves.
#[derive(Clone, Copy, Debug, PartialEq, Eq)]
pub enum MovedBytes {
    /// None.
    Nothing,
    /// The odd byte, D00 to D07.
    OddByte,
    /// The even byte, D08 to D15.
    EvenByte,
    /// Both of these, D00 to D15.
    Word,
    /// All four, D00 to D31.
    LongWord,
}

/// The data of a transfer, in hexadecimal digits of four lines each: the digit at place k, 0 to 7, is that of D4k to
/// D4k+3.
#[derive(Clone, Copy, Debug, PartialEq, Eq)]
pub struct Lanes {
    /// Which bytes are moved.
    pub moved: MovedBytes,
    /// Bit k is 1 where the digit at place k is moved, and one of its lines is unknown.
    pub unknown: u8,
    /// The digits that are moved and known, a high line being 1; any other digit is 0.
    pub value: u32,
}

impl MovedBytes {
    /// Whether the digit at `place` is among the bytes; place 0 is that of D00 to D03.
    pub fn has_digit(self, place: u8) -> bool
        ensures { result ≡ has_digit self place }
    {
        match self {
            MovedBytes::Nothing => false,
            MovedBytes::OddByte => place < 2,
            MovedBytes::EvenByte => 2 <= place && place < 4,
            MovedBytes::Word => place < 4,
            MovedBytes::LongWord => place < 8,
        }
    }
}

/// Whether a transfer at these levels moves the line: with LWORD* high, D00 to D07 where DS0* is low and D08 to D15
/// where DS1* is low; with LWORD*, A01 and both strobes low, D00 to D31.
#[tactic(auto, unfolding(crate::specs::Data::is_selected))]
pub fn is_selected(lines: &Lines, line: Line) -> bool
    ensures { result ≡ is_selected_at lines.now line }
{
    if !line.is_data() {
        return false;
    }
    let place = line.number() - Line::data(0).number();
    let odd = lines.level(Line::DS0).is_low();
    let even = lines.level(Line::DS1).is_low();
    match lines.level(Line::LWORD) {
        Level::High => (odd && place < 8) || (even && 8 <= place && place < 16),
        Level::Low => odd && even && lines.level(Line::address(1)).is_low(),
        Level::Unknown => false,
    }
}

/// Which bytes a transfer at these levels moves.
#[tactic(auto, unfolding(crate::specs::Lanes::moved_at))]
fn moved_bytes(lines: &Lines) -> MovedBytes
    ensures { result ≡ moved_at lines.now }
{
    let odd = is_selected(lines, Line::data(0));
    let even = is_selected(lines, Line::data(8));
    if is_selected(lines, Line::data(16)) {
        MovedBytes::LongWord
    } else if odd && even {
        MovedBytes::Word
    } else if odd {
        MovedBytes::OddByte
    } else if even {
        MovedBytes::EvenByte
    } else {
        MovedBytes::Nothing
    }
}

/// Whether the digit at `place` is moved.
fn is_digit_moved(lines: &Lines, place: u8) -> bool
    requires { place < 8 }
    ensures { result ≡ is_digit_moved lines.now place }
{
    is_selected(lines, Line::data(4 * place))
}

/// Whether each line of the digit at `place` is known.
fn is_digit_known(lines: &Lines, place: u8) -> bool
    requires { place < 8 }
    ensures { result ≡ is_digit_known lines.now place }
{
    let first = 4 * place;
    lines.level(Line::data(first)).is_known()
        && lines.level(Line::data(first + 1)).is_known()
        && lines.level(Line::data(first + 2)).is_known()
        && lines.level(Line::data(first + 3)).is_known()
}

/// `weight` where data line `bit` is high, else 0.
fn weight(lines: &Lines, bit: u8, weight: u32) -> u32
    requires { bit < 32 }
    ensures weight { result ≡ weight_at lines.now bit weight }
    ensures most { result ≤ weight }
{
    if lines.level(Line::data(bit)).is_high() {
        weight
    } else {
        0
    }
}

/// The digit at `place`, where it is moved and known, else 0.
#[tactic(auto, unfolding(crate::specs::Lanes::digit_at))]
fn digit(lines: &Lines, place: u8) -> u32
    requires { place < 8 }
    ensures digit { result ≡ digit_at lines.now place }
    ensures below { result < 16 }
{
    let first = 4 * place;
    if is_digit_moved(lines, place) && is_digit_known(lines, place) {
        weight(lines, first, 1)
            + weight(lines, first + 1, 2)
            + weight(lines, first + 2, 4)
            + weight(lines, first + 3, 8)
    } else {
        0
    }
}

/// 1 where the digit at `place` is moved and not known, else 0.
#[tactic(auto, unfolding(crate::specs::Lanes::flag_at))]
fn flag(lines: &Lines, place: u8) -> u8
    requires { place < 8 }
    ensures flag { result ≡ flag_at lines.now place }
    ensures most { result ≤ 1 }
{
    if is_digit_moved(lines, place) && !is_digit_known(lines, place) {
        1
    } else {
        0
    }
}

/// The data of a transfer that is answered at these levels.
#[tactic(auto, unfolding(crate::specs::Lanes::lanes_at))]
pub fn moved_data(lines: &Lines) -> Lanes
    ensures { result ≡ lanes_at lines.now }
{
    let value = digit(lines, 0)
        + 0x10 * digit(lines, 1)
        + 0x100 * digit(lines, 2)
        + 0x1000 * digit(lines, 3)
        + 0x1_0000 * digit(lines, 4)
        + 0x10_0000 * digit(lines, 5)
        + 0x100_0000 * digit(lines, 6)
        + 0x1000_0000 * digit(lines, 7);
    let unknown = flag(lines, 0)
        + 2 * flag(lines, 1)
        + 4 * flag(lines, 2)
        + 8 * flag(lines, 3)
        + 16 * flag(lines, 4)
        + 32 * flag(lines, 5)
        + 64 * flag(lines, 6)
        + 128 * flag(lines, 7);
    Lanes {
        moved: moved_bytes(lines),
        value,
        unknown,
    }
}

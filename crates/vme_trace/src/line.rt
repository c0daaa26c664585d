//! The lines of a backplane.

ghost use Rattle.std.specs.Prelude.{◌≡◌, ℕ, ◌+◌, ◌*◌, ◌<◌, ◌≤◌, SomeIff, IfSome, Some, None, nat_lt, if◌then◌else◌};
ghost use Rattle.vme_trace.specs.LineNumbers.{AM, A, BR, D, grant, grant_level, grant_place, iack, is_data, is_grant};
ghost use Rattle.vme_trace.specs.LineNumbers.{is_net, is_slot_iack, line_count};
ghost use Rattle.vme_trace.specs.Names.{line_name, line_named};

use crate::name::Name;
use std::marker::Model;

/// A signal line of the backplane, or a net of one of its daisy chains, by its number. The numbers order
/// lines wherever a least line is named.
#[derive(Clone, Copy, Debug, Default, PartialEq, Eq, PartialOrd, Ord)]
pub struct Line {
    number: u8,
}

impl Model for Line {
    ghost use Rattle.std.specs.Prelude.{ℕ, ◌<◌};
    ghost use Rattle.vme_trace.specs.LineNumbers.{line_count};

    ghost Value = { ℕ };

    ghost view = { λ l. l.number };

    ghost invariant = { λ l. l.number < line_count };

    ghost inverse = { λ n. record { number = n } };
}

/// How many lines there are, over all backplanes.
pub const LINE_COUNT: u8 = 192;

/// How many slots a backplane has at most.
pub const MOST_SLOTS: u8 = 21;

/// How many nets the daisy chain of a grant level has at most: one before each slot, and one after the last.
pub const CHAIN_NETS: u8 = MOST_SLOTS + 1;

/// The number of the first grant net. The grant nets have consecutive numbers, level by level, and in a level by their
/// place in the chain.
const FIRST_GRANT: u8 = 50;

/// The number of the first acknowledge output.
const FIRST_ACKNOWLEDGE: u8 = FIRST_GRANT + 4 * CHAIN_NETS;

/// The number of the first data line.
const FIRST_DATA: u8 = FIRST_ACKNOWLEDGE + MOST_SLOTS;

/// The bused lines of which a backplane has one each.
impl Line {
    /// AS*, the address strobe.
    pub const AS: Line = Line { number: 0 };

    /// DS0*, a data strobe.
    pub const DS0: Line = Line { number: 1 };

    /// DS1*, the other data strobe.
    pub const DS1: Line = Line { number: 2 };

    /// DTACK*, data transfer acknowledge: the answer of a slave that did the transfer.
    pub const DTACK: Line = Line { number: 3 };

    /// BERR*, bus error: the answer that a transfer wasn't done.
    pub const BERR: Line = Line { number: 4 };

    /// IACK*, interrupt acknowledge.
    pub const IACK: Line = Line { number: 5 };

    /// LWORD*, long word.
    pub const LWORD: Line = Line { number: 12 };

    /// WRITE*, the direction of a transfer.
    pub const WRITE: Line = Line { number: 13 };

    /// BBSY*, bus busy.
    pub const BBSY: Line = Line { number: 45 };

    /// SYSRESET*, the system reset.
    pub const SYSRESET: Line = Line {
        number: LINE_COUNT - 1,
    };
}

impl Line {
    /// The line of a number, if there is one: the numbers are 0 to 191.
    pub fn from_number(number: u8) -> Option<Line>
        ensures { SomeIff result (number < line_count) number }
    {
        if number < LINE_COUNT {
            Some(Line { number })
        } else {
            None
        }
    }

    /// The line with the number `number`.
    pub(crate) fn nth(number: u8) -> Line
        requires { number < line_count }
        ensures { result ≡ number }
    {
        Line { number }
    }

    /// The number of the line, below 192.
    pub fn number(self) -> u8
        ensures number { result ≡ self }
        ensures exists { result < line_count }
    {
        self.number
    }

    /// AM0 to AM5, a bit of the address modifier, by its place.
    pub fn address_modifier(bit: u8) -> Line
        requires { bit < 6 }
        ensures { result ≡ AM bit }
    {
        Line { number: 6 + bit }
    }

    /// A01 to A31, a bit of the address, by its place: 1 to 31.
    pub fn address(bit: u8) -> Line
        requires first { 1 ≤ bit }
        requires last { bit ≤ 31 }
        ensures { result ≡ A bit }
    {
        Line { number: 13 + bit }
    }

    /// BR0* to BR3*, the bus request of a level.
    pub fn bus_request(level: u8) -> Line
        requires { level < 4 }
        ensures { result ≡ BR level }
    {
        Line { number: 46 + level }
    }

    /// The net of a bus grant level, 0 to 3, at a place of its daisy chain, 0 to 21: the grant input of
    /// slot `place` + 1, and the grant output of slot `place`. The arbiter drives the net at place 0.
    pub fn grant(level: u8, place: u8) -> Line
        requires level { level < 4 }
        requires place { place ≤ 21 }
        ensures { result ≡ grant level place }
    {
        Line {
            number: FIRST_GRANT + CHAIN_NETS * level + place,
        }
    }

    /// The acknowledge output of a slot, 1 to 21: the acknowledge input of the next one.
    pub fn iack(slot: u8) -> Line
        requires first { 1 ≤ slot }
        requires last { slot ≤ 21 }
        ensures { result ≡ iack slot }
    {
        Line {
            number: FIRST_ACKNOWLEDGE - 1 + slot,
        }
    }

    /// D00 to D31, a bit of the data, by its place: 0 to 31.
    pub fn data(bit: u8) -> Line
        requires { bit < 32 }
        ensures { result ≡ D bit }
    {
        Line {
            number: FIRST_DATA + bit,
        }
    }

    /// Whether it is a net of a daisy chain: a bus grant or an acknowledge output. All others are bused.
    pub fn is_net(self) -> bool
        ensures { result ≡ is_net self }
    {
        FIRST_GRANT <= self.number && self.number < FIRST_DATA
    }

    /// Whether it is a net of a bus grant's daisy chain.
    pub fn is_grant(self) -> bool
        ensures { result ≡ is_grant self }
    {
        FIRST_GRANT <= self.number && self.number < FIRST_ACKNOWLEDGE
    }

    /// The level of a grant net, 0 to 3, and its place in its daisy chain, 0 to 21; `None` for another line.
    pub fn grant_place(self) -> Option<(u8, u8)>
        ensures place { result ≡ (if is_grant self then Some (grant_level self, grant_place self) else None) }
        ensures level { IfSome result (λ net. net.0 < 4) }
        ensures least { IfSome result (λ net. net.1 ≤ 21) }
    {
        if !self.is_grant() {
            return None;
        }
        let net = self.number - FIRST_GRANT;
        Some((net / CHAIN_NETS, net % CHAIN_NETS))
    }

    /// Whether it is the acknowledge output of a slot.
    pub fn is_acknowledge(self) -> bool
        ensures { result ≡ is_slot_iack self }
    {
        FIRST_ACKNOWLEDGE <= self.number && self.number < FIRST_DATA
    }

    /// Whether it is a data line.
    pub fn is_data(self) -> bool
        ensures { result ≡ is_data self }
    {
        FIRST_DATA <= self.number && self.number < FIRST_DATA + 32
    }

    /// The name of the line, without the asterisk: AS, DS0, DS1, DTACK, BERR, IACK, AM0 to AM5, LWORD,
    /// WRITE, A01 to A31, BBSY, BR0 to BR3, BG0.0 to BG3.21 (level, place), IA.1 to IA.21 (slot), D00 to D31, SYSRESET.
    pub fn name(self) -> Name
        ensures { result ≡ line_name self }
    {
        let number = self.number;
        match number {
            0 => Name::of(b"AS"),
            1 => Name::of(b"DS0"),
            2 => Name::of(b"DS1"),
            3 => Name::of(b"DTACK"),
            4 => Name::of(b"BERR"),
            5 => Name::of(b"IACK"),
            6..=11 => Name::of(b"AM").with_decimal(number - 6),
            12 => Name::of(b"LWORD"),
            13 => Name::of(b"WRITE"),
            14..=44 => Name::of(b"A").with_two_digits(number - 13),
            45 => Name::of(b"BBSY"),
            46..=49 => Name::of(b"BR").with_decimal(number - 46),
            _ => self.net_name(),
        }
    }

    /// The name of a line that comes after the bus requests in the order of lines: of a net, a data line or SYSRESET.
    fn net_name(self) -> Name
        requires { grant 0 0 ≤ self }
        ensures { result ≡ line_name self }
    {
        if let Some((level, place)) = self.grant_place() {
            grant_name(level, place)
        } else if self.is_acknowledge() {
            Name::of(b"IA.").with_decimal(self.number - FIRST_ACKNOWLEDGE + 1)
        } else if self.is_data() {
            Name::of(b"D").with_two_digits(self.number - FIRST_DATA)
        } else {
            Name::of(b"SYSRESET")
        }
    }

    /// The line whose name is `name`, if there is one. Lines differ in their names, so it is the only one.
    #[tactic(auto, using(crate::proofs::Ranges::searches))]
    pub fn from_name(name: &[u8]) -> Option<Line>
        ensures line { result ≡ line_named name.now }
        ensures named { IfSome result (λ line. line_name line ≡ name.now) }
        ensures found { (line : ℕ) → line < line_count → line_name line ≡ name.now → result ≡ Some line }
    {
        for number in 0..LINE_COUNT {
            let line = Line::nth(number);
            if line.name().as_bytes() == name {
                return Some(line);
            }
        }
        None
    }
}

/// The name of a net of a bus grant's daisy chain.
fn grant_name(level: u8, place: u8) -> Name
    requires level { level < 4 }
    requires place { place < 22 }
    ensures { result ≡ line_name (grant level place) }
{
    Name::of(b"BG")
        .with_decimal(level)
        .with(b'.')
        .with_decimal(place)
}

//! The text of the rows of a listing, in a buffer.
#![tactic(auto, unfolding(crate::specs::RowText::row_text))]

ghost use Rattle.std.specs.Prelude.{◌≡◌, ◌+◌, ◌<◌, ◌≤◌, ◌∷◌, ◌++◌, ◌↔◌, [], true, length, decimal, slice_range};
ghost use Rattle.std.specs.Prelude.{IsTrue};
ghost use Rattle.std.specs.Fmt.{digit_glyph};
ghost use Rattle.vme_listing.specs.RowText.{end_instant_text, hexadecimal, address_digits, class_text, direction_text};
ghost use Rattle.vme_listing.specs.RowText.{answer_text, digit_text, lanes_text, data_text, break_text, row_text};
ghost use Rattle.vme_listing.specs.RowText.{header, line_of};
ghost use Rattle.vme_listing.specs.declared.row.Row.TheVariants.{OpenTenure, Tenure, AddressedCycle, FreeCycle};
ghost use Rattle.vme_listing.specs.declared.row.Row.TheVariants.{InterruptCycle, Transfer, PendingTransfer, Verdict};

use crate::row::{AnswerLine, Direction, ListedVerdict, Row, Version};
use std::marker::Model;
use vme_trace::{Class, Lanes, Line, Rule, Space};

/// How many bytes a line of a listing has at most, its line feed too.
pub const LONGEST_LINE: usize = 96;

/// How many bytes the buffer holds at most.
pub(crate) const MOST: usize = 4096;

impl Version {
    /// The first line of a listing.
    pub(crate) fn header(self) -> &'static [u8]
        ensures text { result.now ≡ header self }
        ensures length { length result.now ≡ 19 }
    {
        match self {
            Version::One => b"vmecheck listing 1\n",
            Version::Two => b"vmecheck listing 2\n",
            Version::Three => b"vmecheck listing 3\n",
        }
    }
}

/// Text of a listing: at most 4,096 bytes of ASCII.
#[derive(Drop)]
pub(crate) struct RowBuffer {
    bytes: [u8; 4096],
    len: usize,
}

impl Model for RowBuffer {
    ghost use Rattle.std.specs.Prelude.{ℕ, ◌≤◌, List, take};

    ghost Value = { List ℕ };

    ghost view = { λ a. take a.len a.bytes };

    ghost invariant = { λ a. a.len ≤ 4096 };
}

impl RowBuffer {
    /// An empty buffer.
    pub(crate) fn new() -> RowBuffer
        ensures { result ≡ [] }
    {
        RowBuffer {
            bytes: [0; 4096],
            len: 0,
        }
    }

    /// The text in the buffer.
    pub(crate) fn as_bytes(&self) -> &[u8]
        ensures { result.now ≡ self.now }
    {
        &self.bytes[..self.len]
    }

    /// Empties the buffer.
    pub(crate) fn clear(&mut self)
        ensures { self.new ≡ [] }
    {
        self.len = 0;
    }

    /// Whether the buffer has room for one more line.
    pub(crate) fn has_room(&self) -> bool
        ensures { IsTrue result ↔ (length self.now + LONGEST_LINE < MOST) }
    {
        self.len + LONGEST_LINE < MOST
    }

    /// Appends a byte.
    fn push(&mut self, byte: u8)
        requires { length self.old < MOST }
        ensures text { self.new ≡ self.old ++ byte ∷ [] }
        ensures length { length self.new ≡ length self.old + 1 }
    {
        self.bytes[self.len] = byte;
        self.len += 1;
    }

    /// Appends a text.
    pub(crate) fn extend(&mut self, text: &[u8])
        requires { length self.old + length text.now ≤ MOST }
        ensures text { self.new ≡ self.old ++ text.now }
        ensures length { length self.new ≡ length self.old + length text.now }
    {
        let end = self.len + text.len();
        self.bytes[self.len..end].copy_from_slice(text);
        self.len = end;
    }

    /// The first line of a listing.
    pub(crate) fn push_header(&mut self, version: Version)
        requires { length self.old + 19 ≤ MOST }
        ensures { self.new ≡ self.old ++ header version }
    {
        self.extend(version.header());
    }

    /// Appends a number in decimal digits.
    fn push_decimal(&mut self, number: u32)
        requires { length self.old + 10 ≤ MOST }
        ensures text { self.new ≡ self.old ++ decimal number }
        ensures length { length self.new ≤ length self.old + 10 }
    {
        let (digits, start) = decimal_digits(u64::from(number));
        self.extend(&digits[start..]);
    }

    /// Appends a number in this many hexadecimal digits.
    fn push_hexadecimal(&mut self, digits: usize, value: u32)
        requires room { length self.old + digits ≤ MOST }
        requires digits { digits ≤ 8 }
        ensures text { self.new ≡ self.old ++ hexadecimal digits value }
        ensures length { length self.new ≡ length self.old + digits }
    {
        let first = 8 - digits;
        let glyphs = hexadecimal_digits(value);
        self.extend(&glyphs[first..]);
    }

    /// Appends the instant of an end or a close, or a hyphen where there is none.
    fn push_end_instant(&mut self, instant: Option<u32>)
        requires { length self.old + 10 ≤ MOST }
        ensures text { self.new ≡ self.old ++ end_instant_text instant }
        ensures length { length self.new ≤ length self.old + 10 }
    {
        match instant {
            Some(number) => self.push_decimal(number),
            None => self.push(b'-'),
        }
    }

    /// Appends the data of a write, if there are any.
    fn push_data(&mut self, lanes: Option<Lanes>)
        requires { length self.old + 14 ≤ MOST }
        ensures text { self.new ≡ self.old ++ data_text lanes }
        ensures length { length self.new ≤ length self.old + 14 }
    {
        if let Some(lanes) = lanes {
            self.extend(b" data ");
            self.extend(&data_digits(lanes));
        }
    }

    /// Appends the rule of a break, its instant and its line.
    fn push_break(&mut self, rule: Rule, instant: u32, line: Line)
        requires { length self.old + 30 ≤ MOST }
        ensures text { self.new ≡ self.old ++ break_text rule instant line }
        ensures length { length self.new ≤ length self.old + 30 }
    {
        self.extend(rule.name().as_bytes());
        self.push(b' ');
        self.push_decimal(instant);
        self.push(b' ');
        self.extend(line.name().as_bytes());
    }
}

/// The rows of each kind.
impl RowBuffer {
    /// Appends the row of a tenure that is open at the start.
    fn push_open_tenure(&mut self, start: u32, end: Option<u32>)
        requires { length self.old + 95 ≤ MOST }
        ensures text { self.new ≡ self.old ++ row_text (OpenTenure start end) }
        ensures length { length self.new ≤ length self.old + 95 }
    {
        self.extend(b"tenure ");
        self.push_decimal(start);
        self.extend(b" open end ");
        self.push_end_instant(end);
    }

    /// Appends the row of a tenure.
    fn push_tenure(&mut self, start: u32, level: u8, slot: u8, end: Option<u32>)
        requires { length self.old + 95 ≤ MOST }
        ensures text { self.new ≡ self.old ++ row_text (Tenure start level slot end) }
        ensures length { length self.new ≤ length self.old + 95 }
    {
        self.extend(b"tenure ");
        self.push_decimal(start);
        self.extend(b" level ");
        self.push_decimal(u32::from(level));
        self.extend(b" slot ");
        self.push_decimal(u32::from(slot));
        self.extend(b" end ");
        self.push_end_instant(end);
    }

    /// Appends the row of a cycle of single transfers or of a block transfer.
    fn push_addressed_cycle(
        &mut self,
        start: u32,
        class: Class,
        modifier: u8,
        address: u32,
        end: Option<u32>,
    )
        requires { length self.old + 95 ≤ MOST }
        ensures text { self.new ≡ self.old ++ row_text (AddressedCycle start class modifier address end) }
        ensures length { length self.new ≤ length self.old + 95 }
    {
        self.extend(b"cycle ");
        self.push_decimal(start);
        self.push(b' ');
        self.extend(class_text(class));
        self.push(b' ');
        self.push_hexadecimal(2, u32::from(modifier));
        self.push(b' ');
        self.push_hexadecimal(address_digits(modifier), address);
        self.extend(b" end ");
        self.push_end_instant(end);
    }

    /// Appends the row of a cycle of a free class.
    fn push_free_cycle(&mut self, start: u32, modifier: u8, end: Option<u32>)
        requires { length self.old + 95 ≤ MOST }
        ensures text { self.new ≡ self.old ++ row_text (FreeCycle start modifier end) }
        ensures length { length self.new ≤ length self.old + 95 }
    {
        self.extend(b"cycle ");
        self.push_decimal(start);
        self.extend(b" F ");
        self.push_hexadecimal(2, u32::from(modifier));
        self.extend(b" end ");
        self.push_end_instant(end);
    }

    /// Appends the row of an interrupt acknowledge cycle.
    fn push_interrupt_cycle(&mut self, start: u32, level: u8, end: Option<u32>)
        requires { length self.old + 95 ≤ MOST }
        ensures text { self.new ≡ self.old ++ row_text (InterruptCycle start level end) }
        ensures length { length self.new ≤ length self.old + 95 }
    {
        self.extend(b"cycle ");
        self.push_decimal(start);
        self.extend(b" I ");
        self.push_decimal(u32::from(level));
        self.extend(b" end ");
        self.push_end_instant(end);
    }

    /// Appends the row of a transfer.
    fn push_transfer(
        &mut self,
        start: u32,
        cycle: u32,
        direction: Direction,
        line: AnswerLine,
        answer: u32,
        close: Option<u32>,
        lanes: Option<Lanes>,
    )
        requires { length self.old + 95 ≤ MOST }
        ensures text { self.new ≡ self.old ++ row_text (Transfer direction line start cycle answer close lanes) }
        ensures length { length self.new ≤ length self.old + 95 }
    {
        self.extend(b"transfer ");
        self.push_decimal(start);
        self.extend(b" of ");
        self.push_decimal(cycle);
        self.push(b' ');
        self.extend(direction_text(direction));
        self.push(b' ');
        self.extend(answer_text(line));
        self.push(b' ');
        self.push_decimal(answer);
        self.extend(b" close ");
        self.push_end_instant(close);
        self.push_data(lanes);
    }

    /// Appends the row of a transfer without an answer.
    fn push_pending(&mut self, start: u32, direction: Direction)
        requires { length self.old + 95 ≤ MOST }
        ensures text { self.new ≡ self.old ++ row_text (PendingTransfer start direction) }
        ensures length { length self.new ≤ length self.old + 95 }
    {
        self.extend(b"transfer ");
        self.push_decimal(start);
        self.push(b' ');
        self.extend(direction_text(direction));
        self.extend(b" pending");
    }

    /// Appends the verdict.
    fn push_verdict(&mut self, outcome: ListedVerdict)
        requires { length self.old + 95 ≤ MOST }
        ensures text { self.new ≡ self.old ++ row_text (Verdict outcome) }
        ensures length { length self.new ≤ length self.old + 95 }
    {
        match outcome {
            ListedVerdict::Conforming => self.extend(b"verdict conforming"),
            ListedVerdict::NeverIdle => self.extend(b"verdict never-idle"),
            ListedVerdict::Broken(rule, instant, line) => {
                self.extend(b"verdict broken ");
                self.push_break(rule, instant, line);
            }
            ListedVerdict::Unreadable(rule, instant, line) => {
                self.extend(b"verdict unreadable ");
                self.push_break(rule, instant, line);
            }
        }
    }

    /// The line of the row in the text of a listing, without its line feed.
    pub(crate) fn push_row(&mut self, row: &Row)
        requires { length self.old + 95 ≤ MOST }
        ensures text { self.new ≡ self.old ++ row_text row.now }
        ensures length { length self.new ≤ length self.old + 95 }
    {
        match *row {
            Row::Start { instant } => {
                self.extend(b"start ");
                self.push_decimal(instant);
            }
            Row::Reset { instant } => {
                self.extend(b"reset ");
                self.push_decimal(instant);
            }
            Row::OpenTenure { start, end } => self.push_open_tenure(start, end),
            Row::Tenure {
                start,
                level,
                slot,
                end,
            } => self.push_tenure(start, level, slot, end),
            Row::AddressedCycle {
                start,
                class,
                modifier,
                address,
                end,
            } => self.push_addressed_cycle(start, class, modifier, address, end),
            Row::FreeCycle {
                start,
                modifier,
                end,
            } => self.push_free_cycle(start, modifier, end),
            Row::InterruptCycle { start, level, end } => {
                self.push_interrupt_cycle(start, level, end);
            }
            Row::Transfer {
                start,
                cycle,
                direction,
                line,
                answer,
                close,
                lanes,
            } => self.push_transfer(start, cycle, direction, line, answer, close, lanes),
            Row::PendingTransfer { start, direction } => self.push_pending(start, direction),
            Row::Verdict(outcome) => self.push_verdict(outcome),
        }
    }

    /// The line of the row, with its line feed.
    pub(crate) fn push_line(&mut self, row: &Row)
        requires { length self.old + LONGEST_LINE < MOST }
        ensures { self.new ≡ self.old ++ line_of row.now }
    {
        self.push_row(row);
        self.push(b'\n');
    }
}

/// The class of a cycle, by its letter.
pub fn class_text(class: Class) -> &'static [u8]
    ensures text { result.now ≡ class_text class }
    ensures length { length result.now ≡ 1 }
{
    match class {
        Class::S => b"S",
        Class::K => b"K",
        Class::I => b"I",
        Class::F => b"F",
    }
}

/// The direction of a transfer.
pub fn direction_text(direction: Direction) -> &'static [u8]
    ensures text { result.now ≡ direction_text direction }
    ensures length { length result.now ≤ 5 }
{
    match direction {
        Direction::Read => b"read",
        Direction::Write => b"write",
    }
}

/// The line of an answer.
pub fn answer_text(line: AnswerLine) -> &'static [u8]
    ensures text { result.now ≡ answer_text line }
    ensures length { length result.now ≤ 5 }
{
    match line {
        AnswerLine::Dtack => b"DTACK",
        AnswerLine::Berr => b"BERR",
    }
}

/// How many digits the address of a cycle has, by the address modifier code: 8 in the extended space, 6 in the
/// standard, 4 in the short, and none where the code is of no space.
pub fn address_digits(modifier: u8) -> usize
    ensures digits { result ≡ address_digits modifier }
    ensures most { result ≤ 8 }
{
    match Space::of(modifier) {
        Some(Space::Extended) => 8,
        Some(Space::Standard) => 6,
        Some(Space::Short) => 4,
        None => 0,
    }
}

/// A digit of the data of a write, with its bit of the unknown digits.
fn lane_digit(is_moved: bool, digit: u32, flag: u8) -> u8
    requires { digit < 16 }
    ensures { result ≡ digit_text is_moved digit flag }
{
    if !is_moved {
        b'-'
    } else if flag == 1 {
        b'X'
    } else {
        hexadecimal_digit(digit as u8)
    }
}

/// The data of a write as a listing has them, a character for four lines each, D31 to D28 first: `-` where they
/// aren't moved, `X` where one of them is unknown, else a hexadecimal digit.
#[tactic(auto, unfolding(crate::specs::RowText::lanes_text))]
pub fn data_digits(lanes: Lanes) -> [u8; 8]
    ensures { result ≡ lanes_text lanes }
{
    let moved = lanes.moved;
    let value = lanes.value;
    let flags = lanes.unknown;
    [
        lane_digit(
            moved.has_digit(7),
            value / 0x1000_0000 % 16,
            flags / 128 % 2,
        ),
        lane_digit(moved.has_digit(6), value / 0x100_0000 % 16, flags / 64 % 2),
        lane_digit(moved.has_digit(5), value / 0x10_0000 % 16, flags / 32 % 2),
        lane_digit(moved.has_digit(4), value / 0x1_0000 % 16, flags / 16 % 2),
        lane_digit(moved.has_digit(3), value / 0x1000 % 16, flags / 8 % 2),
        lane_digit(moved.has_digit(2), value / 0x100 % 16, flags / 4 % 2),
        lane_digit(moved.has_digit(1), value / 0x10 % 16, flags / 2 % 2),
        lane_digit(moved.has_digit(0), value % 16, flags % 2),
    ]
}

/// The digits of a number in decimal, which are the last ones of the array, and where they start in it.
pub fn decimal_digits(number: u64) -> ([u8; 20], usize)
    ensures digits { slice_range result.0 result.1 20 ≡ decimal number }
    ensures start { result.1 + length (decimal number) ≡ 20 }
{
    let mut digits = [0; 20];
    let mut start: usize = 20;
    let mut rest = number;
    while rest >= 10 {
        start -= 1;
        digits[start] = b'0' + (rest % 10) as u8;
        rest /= 10;
    }
    start -= 1;
    digits[start] = b'0' + rest as u8;
    (digits, start)
}

/// The eight digits of a number in base 16, the letters in upper case.
pub fn hexadecimal_digits(number: u32) -> [u8; 8]
    ensures { result ≡ hexadecimal 8 number }
{
    let mut glyphs = [0; 8];
    let mut start: usize = 8;
    let mut rest = number;
    while start > 0 {
        start -= 1;
        glyphs[start] = hexadecimal_digit((rest % 16) as u8);
        rest /= 16;
    }
    glyphs
}

/// A digit in base 16.
fn hexadecimal_digit(value: u8) -> u8
    requires { value < 16 }
    ensures { result ≡ digit_glyph true value }
{
    if value < 10 {
        b'0' + value
    } else {
        b'A' + value - 10
    }
}

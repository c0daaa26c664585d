//! Finds the row whose text a line is, reading the line from left to right.
#![tactic(auto)]

ghost use Rattle.std.specs.Prelude.{◌≡◌, ◌≤◌, ◌<◌, ◌^◌, ◌==◌, ◌&&◌, ℕ, Some, None, IfSome, bytes_eq, decimal, length};
ghost use Rattle.std.specs.Prelude.{take};
ghost use Rattle.std.specs.Prelude.{true, false, nat_lt, slice_index};
ghost use Rattle.std.specs.Char.{is_ascii_digit};
ghost use Rattle.std.specs.Fmt.{digit_glyph};
ghost use Rattle.std.specs.Option.{option_map};
ghost use Rattle.std.specs.Str.Parse.{digits_value};
ghost use Rattle.vme_listing.specs.declared.row.Row.{Row};
ghost use Rattle.vme_listing.specs.declared.row.ListedVerdict.TheVariants.{Broken, Unreadable};
ghost use Rattle.vme_listing.specs.Places.{is_row};
ghost use Rattle.vme_listing.specs.RowText.{hexadecimal, row_text, lanes_text};
ghost use Rattle.vme_listing.specs.Lines.{after_word, hexadecimal_in, lanes_in, number_in, past, skipped, starts_with};
ghost use Rattle.vme_listing.specs.Lines.{is_hexadecimal, are_hexadecimal};
ghost use Rattle.vme_listing.specs.Lines.{number_at, past_number, small_at, past_small};
ghost use Rattle.vme_listing.specs.Lines.{end_instant_at, past_end_instant};
ghost use Rattle.vme_listing.specs.Lines.{hexadecimal_at, past_hexadecimal, modifier_at, past_modifier};
ghost use Rattle.vme_listing.specs.Lines.{direction_at, past_direction, answer_at, past_answer, class_at, past_class};
ghost use Rattle.vme_listing.specs.Lines.{lanes_at, past_lanes, data_at, past_data, tenure_at, past_tenure};
ghost use Rattle.vme_listing.specs.Lines.{cycle_at, past_cycle, transfer_at, past_transfer, outcome_in, break_in};
ghost use Rattle.vme_listing.specs.Lines.{whole, row_in};

use crate::row::{AnswerLine, Direction, ListedVerdict, Row, Version};
use crate::text::{address_digits, data_digits};
use crate::words::lanes_word;
use std::marker::Model;
use vme_trace::{Class, Lanes, Line, MovedBytes, Rule};

/// Where data can't be read.
const NO_LANES: Lanes = Lanes {
    moved: MovedBytes::Nothing,
    value: 0,
    unknown: 0,
};

/// The bytes of a line after the pieces that were read, or `None` if one of the pieces wasn't there.
#[derive(Drop)]
struct RowLine<'a> {
    rest: Option<&'a [u8]>,
}

impl<'a> Model for RowLine<'a> {
    ghost use Rattle.vme_listing.specs.Lines.{Rest};
    ghost use Rattle.std.specs.Option.{option_map};

    ghost Value = { Rest };

    ghost view = { λ a. option_map (λ rest. rest.now) a.rest };
}

/// The decimal digits at the start of a text: how many there are, at most ten, and their value.
#[derive(Clone, Copy)]
struct FrontDigits {
    count: usize,
    number: u64,
}

/// The decimal digits that a text begins with, at most ten.
fn front_digits(text: &[u8]) -> FrontDigits
    ensures few { result.count ≤ 10 }
    ensures within { result.count ≤ length text.now }
    ensures digits { (k : ℕ) → k < result.count → is_ascii_digit (slice_index text.now k) ≡ true }
    ensures end { result.count < 10 → result.count < length text.now
        → is_ascii_digit (slice_index text.now result.count) ≡ false }
    ensures number { result.number ≡ digits_value 10 (take result.count text.now) }
{
    let mut count: usize = 0;
    let mut number: u64 = 0;
    while count < 10 && count < text.len() && text[count].is_ascii_digit() {
        let digit = u64::from(text[count] - b'0');
        number = number * 10 + digit;
        count += 1;
    }
    FrontDigits { count, number }
}

/// Whether the number of `count` digits at the start of `text` has a leading zero.
fn has_leading_zero(count: usize, text: &[u8]) -> bool
    requires { 0 < length text.now }
    ensures { result ≡ (nat_lt 1 count && (slice_index text.now 0 == 48)) }
{
    (count > 1) & (text[0] == b'0')
}

/// The number whose decimal text is at the start of `text`, and the bytes after it.
fn front_number(text: &[u8]) -> Option<(u32, &[u8])>
    ensures number { IfSome result (λ front. number_in text.now ≡ Some front.0) }
    ensures rest { IfSome result (λ front. after_word (decimal front.0) text.now ≡ Some front.1.now) }
    ensures none { result ≡ None → number_in text.now ≡ None }
{
    let front = front_digits(text);
    let count = front.count;
    let number = front.number;
    if count == 0 {
        return None;
    }
    if has_leading_zero(count, text) {
        return None;
    }
    if number > 4_294_967_295 {
        return None;
    }
    Some((number as u32, &text[count..]))
}

/// The number of a digit in base 16: 0 to 9, A to F.
fn hexadecimal_value(byte: u8) -> Option<u8>
    ensures small { IfSome result (λ digit. digit < 16) }
    ensures glyph { IfSome result (λ digit. digit_glyph true digit ≡ byte) }
    ensures none { result ≡ None → is_hexadecimal byte ≡ false }
{
    match byte {
        b'0'..=b'9' => Some(byte - b'0'),
        b'A'..=b'F' => Some(byte - b'A' + 10),
        _ => None,
    }
}

/// The number whose digits in base 16 `word` is; `None` if a byte is no such digit.
fn hexadecimal_word(word: &[u8]) -> Option<u32>
    requires { length word.now ≤ 8 }
    ensures number { IfSome result (λ number. hexadecimal (length word.now) number ≡ word.now) }
    ensures below { IfSome result (λ number. number < 16 ^ length word.now) }
    ensures none { result ≡ None → are_hexadecimal word.now ≡ false }
{
    let mut number: u32 = 0;
    for byte in word {
        let Some(digit) = hexadecimal_value(*byte) else {
            return None;
        };
        number = number * 16 + u32::from(digit);
    }
    Some(number)
}

/// The number of the `digits` digits in base 16 at the start of `text`, and the bytes after them.
fn front_hexadecimal(digits: usize, text: &[u8]) -> Option<(u32, &[u8])>
    requires { digits ≤ 8 }
    ensures number { IfSome result (λ front. hexadecimal_in digits text.now ≡ Some front.0) }
    ensures rest { IfSome result (λ front. after_word (hexadecimal digits front.0) text.now ≡ Some front.1.now) }
    ensures none { result ≡ None → hexadecimal_in digits text.now ≡ None }
{
    if text.len() < digits {
        return None;
    }
    match hexadecimal_word(&text[..digits]) {
        Some(number) => Some((number, &text[digits..])),
        None => None,
    }
}

/// Whether `word` is the text of `lanes`.
fn is_lanes_text(lanes: Lanes, word: &[u8]) -> bool
    ensures { result ≡ bytes_eq (lanes_text lanes) word.now }
{
    data_digits(lanes).as_slice() == word
}

/// The data whose text is at the start of `text`, and the bytes after it.
fn front_lanes(text: &[u8]) -> Option<(Lanes, &[u8])>
    ensures lanes { IfSome result (λ front. lanes_in text.now ≡ Some front.0) }
    ensures rest { IfSome result (λ front. after_word (lanes_text front.0) text.now ≡ Some front.1.now) }
    ensures none { result ≡ None → lanes_in text.now ≡ None }
{
    if text.len() < 8 {
        return None;
    }
    let word = &text[..8];
    let lanes = lanes_word(word);
    if is_lanes_text(lanes, word) {
        Some((lanes, &text[8..]))
    } else {
        None
    }
}

impl<'a> RowLine<'a> {
    /// Reads `word`, which has to be there.
    #[inline(always)]
    #[tactic(auto, using(crate::proofs::Pieces::words))]
    fn word(&mut self, word: &[u8])
        ensures { self.new ≡ past word.now self.old }
    {
        self.rest = match self.rest {
            Some(rest) => rest.strip_prefix(word),
            None => None,
        };
    }

    /// Whether `word` is there. If so, it is read.
    #[inline(always)]
    #[tactic(auto, using(crate::proofs::Pieces::words))]
    fn has(&mut self, word: &[u8]) -> bool
        ensures found { result ≡ starts_with word.now self.old }
        ensures left { self.new ≡ skipped word.now self.old }
    {
        let Some(rest) = self.rest else {
            return false;
        };
        match rest.strip_prefix(word) {
            Some(more) => {
                self.rest = Some(more);
                true
            }
            None => false,
        }
    }

    /// Takes a number.
    fn number(&mut self) -> u32
        ensures number { result ≡ number_at self.old }
        ensures left { self.new ≡ past_number self.old }
    {
        let Some(rest) = self.rest else {
            return 0;
        };
        match front_number(rest) {
            Some((number, more)) => {
                self.rest = Some(more);
                number
            }
            None => {
                self.rest = None;
                0
            }
        }
    }

    /// Takes a number below 256.
    fn small(&mut self) -> u8
        ensures small { result ≡ small_at self.old }
        ensures left { self.new ≡ past_small self.old }
    {
        match u8::try_from(self.number()) {
            Ok(number) => number,
            Err(_) => {
                self.rest = None;
                0
            }
        }
    }

    /// Reads the instant of an end or a close: a number, or `None` for a hyphen.
    fn end_instant(&mut self) -> Option<u32>
        ensures end_instant { result ≡ end_instant_at self.old }
        ensures left { self.new ≡ past_end_instant self.old }
    {
        if self.has(b"-") {
            None
        } else {
            Some(self.number())
        }
    }

    /// Takes a number of this many hexadecimal digits.
    fn hexadecimal(&mut self, digits: usize) -> u32
        requires { digits ≤ 8 }
        ensures number { result ≡ hexadecimal_at self.old digits }
        ensures left { self.new ≡ past_hexadecimal self.old digits }
    {
        let Some(rest) = self.rest else {
            return 0;
        };
        match front_hexadecimal(digits, rest) {
            Some((number, more)) => {
                self.rest = Some(more);
                number
            }
            None => {
                self.rest = None;
                0
            }
        }
    }

    /// Takes an address modifier code of two hexadecimal digits.
    fn modifier(&mut self) -> u8
        ensures modifier { result ≡ modifier_at self.old }
        ensures left { self.new ≡ past_modifier self.old }
    {
        match u8::try_from(self.hexadecimal(2)) {
            Ok(number) => number,
            Err(_) => {
                self.rest = None;
                0
            }
        }
    }

    /// Takes the direction of a transfer.
    fn direction(&mut self) -> Direction
        ensures direction { result ≡ direction_at self.old }
        ensures left { self.new ≡ past_direction self.old }
    {
        if self.has(b" read") {
            Direction::Read
        } else {
            self.word(b" write");
            Direction::Write
        }
    }

    /// Takes the line of an answer.
    fn answer_line(&mut self) -> AnswerLine
        ensures line { result ≡ answer_at self.old }
        ensures left { self.new ≡ past_answer self.old }
    {
        if self.has(b" DTACK ") {
            AnswerLine::Dtack
        } else {
            self.word(b" BERR ");
            AnswerLine::Berr
        }
    }

    /// Takes the class of an addressed cycle.
    fn class(&mut self) -> Class
        ensures class { result ≡ class_at self.old }
        ensures left { self.new ≡ past_class self.old }
    {
        if self.has(b" S ") {
            Class::S
        } else {
            self.word(b" K ");
            Class::K
        }
    }

    /// Takes the data of a write.
    fn lanes(&mut self) -> Lanes
        ensures lanes { result ≡ lanes_at self.old }
        ensures left { self.new ≡ past_lanes self.old }
    {
        let Some(rest) = self.rest else {
            return NO_LANES;
        };
        match front_lanes(rest) {
            Some((lanes, more)) => {
                self.rest = Some(more);
                lanes
            }
            None => {
                self.rest = None;
                NO_LANES
            }
        }
    }

    /// Takes the data of a write, if they follow.
    fn data(&mut self) -> Option<Lanes>
        ensures data { result ≡ data_at self.old }
        ensures left { self.new ≡ past_data self.old }
    {
        if self.has(b" data ") {
            Some(self.lanes())
        } else {
            None
        }
    }

    /// Takes the rest of the row of a tenure.
    #[tactic(auto, unfolding(crate::specs::Lines::tenure_at, crate::specs::Lines::past_tenure))]
    fn tenure(&mut self) -> Row
        ensures row { result ≡ tenure_at self.old }
        ensures left { self.new ≡ past_tenure self.old }
    {
        let start = self.number();
        if self.has(b" open end ") {
            let end = self.end_instant();
            return Row::OpenTenure { start, end };
        }
        self.word(b" level ");
        let level = self.small();
        self.word(b" slot ");
        let slot = self.small();
        self.word(b" end ");
        let end = self.end_instant();
        Row::Tenure {
            start,
            level,
            slot,
            end,
        }
    }

    /// Takes the rest of the row of a cycle.
    #[tactic(auto, unfolding(crate::specs::Lines::cycle_at, crate::specs::Lines::past_cycle))]
    fn cycle(&mut self) -> Row
        ensures row { result ≡ cycle_at self.old }
        ensures left { self.new ≡ past_cycle self.old }
    {
        let start = self.number();
        if self.has(b" I ") {
            let level = self.small();
            self.word(b" end ");
            let end = self.end_instant();
            return Row::InterruptCycle { start, level, end };
        }
        if self.has(b" F ") {
            let modifier = self.modifier();
            self.word(b" end ");
            let end = self.end_instant();
            return Row::FreeCycle {
                start,
                modifier,
                end,
            };
        }
        let class = self.class();
        let modifier = self.modifier();
        self.word(b" ");
        let address = self.hexadecimal(address_digits(modifier));
        self.word(b" end ");
        let end = self.end_instant();
        Row::AddressedCycle {
            start,
            class,
            modifier,
            address,
            end,
        }
    }

    /// Takes the rest of the row of a transfer.
    #[tactic(auto, unfolding(crate::specs::Lines::transfer_at, crate::specs::Lines::past_transfer))]
    fn transfer(&mut self) -> Row
        ensures row { result ≡ transfer_at self.old }
        ensures left { self.new ≡ past_transfer self.old }
    {
        let start = self.number();
        if !self.has(b" of ") {
            let direction = self.direction();
            self.word(b" pending");
            return Row::PendingTransfer { start, direction };
        }
        let cycle = self.number();
        let direction = self.direction();
        let line = self.answer_line();
        let answer = self.number();
        self.word(b" close ");
        let close = self.end_instant();
        let lanes = self.data();
        Row::Transfer {
            start,
            cycle,
            direction,
            line,
            answer,
            close,
            lanes,
        }
    }

    /// The rule, instant and line of a break, if its text is the whole rest of the line.
    fn break_left(&mut self) -> Option<(Rule, u32, Line)>
        ensures broken { option_map (λ named. Broken named.0 named.1 named.2) result ≡ break_in Broken self.old }
        ensures unreadable { option_map (λ named. Unreadable named.0 named.1 named.2) result
            ≡ break_in Unreadable self.old }
    {
        let text = self.rest?;
        if text.len() < 2 {
            return None;
        }
        let rule = Rule::from_name(&text[..2])?;
        self.rest = Some(&text[2..]);
        self.word(b" ");
        let instant = self.number();
        self.word(b" ");
        let named = Line::from_name(self.rest?)?;
        Some((rule, instant, named))
    }

    /// The row, if the whole line was read.
    fn whole(&self, row: Row) -> Option<Row>
        ensures { result ≡ whole row self.now }
    {
        match self.rest {
            Some(rest) if rest.is_empty() => Some(row),
            _ => None,
        }
    }
}

/// The outcome that a text says, if it says one.
#[tactic(auto, unfolding(crate::specs::Lines::outcome_in))]
fn outcome(text: &[u8]) -> Option<ListedVerdict>
    ensures { result ≡ outcome_in text.now }
{
    if text == b"conforming".as_slice() {
        return Some(ListedVerdict::Conforming);
    }
    if text == b"never-idle".as_slice() {
        return Some(ListedVerdict::NeverIdle);
    }
    let mut line = RowLine { rest: Some(text) };
    if line.has(b"broken ") {
        let (rule, instant, named) = line.break_left()?;
        return Some(ListedVerdict::Broken(rule, instant, named));
    }
    line.word(b"unreadable ");
    let (rule, instant, named) = line.break_left()?;
    Some(ListedVerdict::Unreadable(rule, instant, named))
}

/// The row that a line says, if it says one.
#[tactic(auto, unfolding(crate::specs::Lines::row_in))]
fn row_of(line: &[u8]) -> Option<Row>
    ensures { result ≡ row_in line.now }
{
    let mut text = RowLine { rest: Some(line) };
    if text.has(b"transfer ") {
        let row = text.transfer();
        return text.whole(row);
    }
    if text.has(b"cycle ") {
        let row = text.cycle();
        return text.whole(row);
    }
    if text.has(b"tenure ") {
        let row = text.tenure();
        return text.whole(row);
    }
    if text.has(b"start ") {
        let instant = text.number();
        return text.whole(Row::Start { instant });
    }
    if text.has(b"reset ") {
        let instant = text.number();
        return text.whole(Row::Reset { instant });
    }
    text.word(b"verdict ");
    Some(Row::Verdict(outcome(text.rest?)?))
}

/// The row of the version whose text the line is, without its line feed; rows differ in their text.
pub(crate) fn read_row(version: Version, line: &[u8]) -> Option<Row>
    ensures named { IfSome result (λ row. (is_row version row ≡ true) × (row_text row ≡ line.now)) }
    ensures found { (row : Row) → is_row version row ≡ true → row_text row ≡ line.now → result ≡ Some row }
{
    let row = row_of(line)?;
    if row.is_row(version) { Some(row) } else { None }
}

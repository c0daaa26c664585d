//! The texts that the variables of an annotated dump show.

ghost use Rattle.std.specs.Prelude.{◌≡◌, ◌+◌, ◌≤◌, ◌++◌, length};
ghost use Rattle.vme_annotation.specs.Shown.{address_text, answer_text, block_text, break_text, data_text};
ghost use Rattle.vme_annotation.specs.Shown.{direction_text, shown_text, space_text, tenure_text, transfer_text};
ghost use Rattle.vme_annotation.specs.Shown.{verdict_text};

use crate::short_text::{MOST, ShortText};
use vme_listing::{AnswerLine, Direction, ListedVerdict, Row, address_digits, data_digits};
use vme_trace::{Class, Lanes, Line, Rule, Space};

/// The name of the address space of a cycle with this address modifier code.
fn space_text(modifier: u8) -> &'static [u8]
    ensures text { result.now ≡ space_text modifier }
    ensures length { length result.now ≡ 3 }
{
    match Space::of(modifier) {
        Some(Space::Extended) => b"A32",
        Some(Space::Standard) => b"A24",
        _ => b"A16",
    }
}

/// `_BLT` for a block transfer, nothing for another cycle.
fn block_text(class: Class) -> &'static [u8]
    ensures text { result.now ≡ block_text class }
    ensures length { length result.now ≤ 4 }
{
    match class {
        Class::K => b"_BLT",
        Class::S | Class::I | Class::F => b"",
    }
}

/// The direction of a transfer.
fn direction_text(direction: Direction) -> &'static [u8]
    ensures text { result.now ≡ direction_text direction }
    ensures length { length result.now ≤ 5 }
{
    match direction {
        Direction::Read => b"READ",
        Direction::Write => b"WRITE",
    }
}

/// `_BERR` for an answer by BERR, nothing for one by DTACK.
fn answer_text(line: AnswerLine) -> &'static [u8]
    ensures text { result.now ≡ answer_text line }
    ensures length { length result.now ≤ 5 }
{
    match line {
        AnswerLine::Dtack => b"",
        AnswerLine::Berr => b"_BERR",
    }
}

impl ShortText {
    /// Appends what is shown of a tenure.
    fn push_tenure(&mut self, level: u8, slot: u8)
        requires { length self.old + 50 ≤ MOST }
        ensures { self.new ≡ self.old ++ tenure_text level slot }
    {
        self.push(b"slot");
        self.push_decimal(u64::from(slot));
        self.push(b"_BR");
        self.push_decimal(u64::from(level));
    }

    /// Appends the address space and the address.
    fn push_address(&mut self, class: Class, modifier: u8, address: u32)
        requires { length self.old + 50 ≤ MOST }
        ensures { self.new ≡ self.old ++ address_text class modifier address }
    {
        self.push(space_text(modifier));
        self.push(block_text(class));
        self.push(b"_");
        self.push_hexadecimal(address_digits(modifier), address);
    }

    /// Appends the data of a write, if there are any.
    fn push_data(&mut self, lanes: Option<Lanes>)
        requires { length self.old + 9 ≤ MOST }
        ensures text { self.new ≡ self.old ++ data_text lanes }
        ensures length { length self.new ≤ length self.old + 9 }
    {
        if let Some(lanes) = lanes {
            self.push(b"_");
            self.push(&data_digits(lanes));
        }
    }

    /// Appends what is shown of an answered transfer.
    fn push_transfer(&mut self, direction: Direction, line: AnswerLine, lanes: Option<Lanes>)
        requires { length self.old + 50 ≤ MOST }
        ensures { self.new ≡ self.old ++ transfer_text direction line lanes }
    {
        self.push(direction_text(direction));
        self.push_data(lanes);
        self.push(answer_text(line));
    }

    /// Appends the rule of a break and its line.
    fn push_break(&mut self, rule: Rule, line: Line)
        requires { length self.old + 50 ≤ MOST }
        ensures { self.new ≡ self.old ++ break_text rule line }
    {
        self.push(rule.name().as_bytes());
        self.push(b"_");
        self.push(line.name().as_bytes());
    }

    /// Appends the break of a verdict, if it has one.
    fn push_outcome(&mut self, outcome: ListedVerdict)
        requires { length self.old + 50 ≤ MOST }
        ensures { self.new ≡ self.old ++ verdict_text outcome }
    {
        match outcome {
            ListedVerdict::Conforming | ListedVerdict::NeverIdle => {}
            ListedVerdict::Broken(rule, _, line) => self.push_break(rule, line),
            ListedVerdict::Unreadable(rule, _, line) => self.push_break(rule, line),
        }
    }
}

/// The text that is shown from the first instant of a row on.
pub(crate) fn shown_text(row: &Row) -> ShortText
    ensures { result ≡ shown_text row.now }
{
    let mut text = ShortText::new();
    match *row {
        Row::Start { .. } => {}
        Row::Reset { .. } => {}
        Row::OpenTenure { .. } => text.push(b"open"),
        Row::Tenure { level, slot, .. } => text.push_tenure(level, slot),
        Row::AddressedCycle {
            class,
            modifier,
            address,
            ..
        } => text.push_address(class, modifier, address),
        Row::FreeCycle { modifier, .. } => {
            text.push(b"AM");
            text.push_hexadecimal(2, u32::from(modifier));
        }
        Row::InterruptCycle { level, .. } => {
            text.push(b"IACK");
            text.push_decimal(u64::from(level));
        }
        Row::Transfer {
            direction,
            line,
            lanes,
            ..
        } => text.push_transfer(direction, line, lanes),
        Row::PendingTransfer { direction, .. } => {
            text.push(direction_text(direction));
            text.push(b"_pending");
        }
        Row::Verdict(outcome) => text.push_outcome(outcome),
    }
    text
}

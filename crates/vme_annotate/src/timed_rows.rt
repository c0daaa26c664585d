//! The lines of a listing with the times of its instants.

ghost use Rattle.std.specs.Prelude.{◌≡◌, ◌+◌, ◌≤◌, ◌++◌, [], length};
ghost use Rattle.vme_listing.specs.RowText.{data_text};
ghost use Rattle.vme_listing.specs.declared.row.Row.TheVariants.{AddressedCycle, Tenure, Transfer, Verdict};
ghost use Rattle.vme_annotate.specs.TimedRows.{timed, timed_break, timed_end_instant, timed_line, timed_row};

use crate::listed::TimedListing;
use crate::short_text::{MOST, ShortText};
use vme_listing::{
    AnswerLine, Direction, ListedVerdict, Row, address_digits, answer_text, class_text,
    data_digits, direction_text,
};
use vme_trace::{Class, Lanes, Line, Rule};

/// An instant and its time take at most 41 bytes, and the word before them at most 20.
impl ShortText {
    /// Appends `word`, then `instant` with its time.
    fn push_instant(&mut self, listing: &TimedListing, word: &[u8], instant: u32)
        requires room { length self.old + 61 ≤ MOST }
        requires short { length word.now ≤ 20 }
        ensures text { self.new ≡ self.old ++ word.now ++ timed listing.now.times instant }
        ensures length { length self.new ≤ length self.old + length word.now + 41 }
    {
        self.push(word);
        self.push_decimal(u64::from(instant));
        self.push(b"@");
        if instant == 0 {
            self.push(b"-");
        } else {
            self.push_decimal(listing.shown_time(instant));
        }
    }

    /// Appends `word`, then `instant` with its time, or a hyphen where there is no instant.
    fn push_end_instant(&mut self, listing: &TimedListing, word: &[u8], instant: Option<u32>)
        requires room { length self.old + 61 ≤ MOST }
        requires short { length word.now ≤ 20 }
        ensures text { self.new ≡ self.old ++ word.now ++ timed_end_instant listing.now.times instant }
        ensures length { length self.new ≤ length self.old + length word.now + 41 }
    {
        match instant {
            Some(instant) => self.push_instant(listing, word, instant),
            None => {
                self.push(word);
                self.push(b"-");
            }
        }
    }

    /// Appends the row of a tenure with its times.
    fn push_timed_tenure(
        &mut self,
        listing: &TimedListing,
        start: u32,
        level: u8,
        slot: u8,
        end: Option<u32>,
    )
        requires { self.old ≡ [] }
        ensures text { self.new ≡ timed_row listing.now.times (Tenure start level slot end) }
        ensures length { length self.new ≤ 240 }
    {
        self.push_instant(listing, b"tenure ", start);
        self.push(b" level ");
        self.push_decimal(u64::from(level));
        self.push(b" slot ");
        self.push_decimal(u64::from(slot));
        self.push_end_instant(listing, b" end ", end);
    }

    /// Appends the row of an addressed cycle with its times.
    fn push_timed_cycle(
        &mut self,
        listing: &TimedListing,
        start: u32,
        class: Class,
        modifier: u8,
        address: u32,
        end: Option<u32>,
    )
        requires { self.old ≡ [] }
        ensures text { self.new ≡ timed_row listing.now.times (AddressedCycle start class modifier address end) }
        ensures length { length self.new ≤ 240 }
    {
        self.push_instant(listing, b"cycle ", start);
        self.push(b" ");
        self.push(class_text(class));
        self.push(b" ");
        self.push_hexadecimal(2, u32::from(modifier));
        self.push(b" ");
        self.push_hexadecimal(address_digits(modifier), address);
        self.push_end_instant(listing, b" end ", end);
    }

    /// Appends the data of a write, if there are any.
    fn push_timed_data(&mut self, lanes: Option<Lanes>)
        requires { length self.old + 14 ≤ MOST }
        ensures text { self.new ≡ self.old ++ data_text lanes }
        ensures length { length self.new ≤ length self.old + 14 }
    {
        if let Some(lanes) = lanes {
            self.push(b" data ");
            self.push(&data_digits(lanes));
        }
    }

    /// Appends the row of an answered transfer with its times.
    fn push_timed_transfer(
        &mut self,
        listing: &TimedListing,
        start: u32,
        cycle: u32,
        direction: Direction,
        line: AnswerLine,
        answer: u32,
        close: Option<u32>,
        lanes: Option<Lanes>,
    )
        requires { self.old ≡ [] }
        ensures text { self.new ≡ timed_row listing.now.times (Transfer direction line start cycle answer close lanes) }
        ensures length { length self.new ≤ 240 }
    {
        self.push_instant(listing, b"transfer ", start);
        self.push_instant(listing, b" of ", cycle);
        self.push(b" ");
        self.push(direction_text(direction));
        self.push(b" ");
        self.push(answer_text(line));
        self.push_instant(listing, b" ", answer);
        self.push_end_instant(listing, b" close ", close);
        self.push_timed_data(lanes);
    }

    /// Appends the row of a break with its time.
    fn push_timed_break(
        &mut self,
        listing: &TimedListing,
        word: &[u8],
        rule: Rule,
        instant: u32,
        line: Line,
    )
        requires empty { self.old ≡ [] }
        requires short { length word.now ≤ 20 }
        ensures text { self.new ≡ word.now ++ timed_break listing.now.times rule instant line }
        ensures length { length self.new ≤ 240 }
    {
        self.push(word);
        self.push(rule.name().as_bytes());
        self.push_instant(listing, b" ", instant);
        self.push(b" ");
        self.push(line.name().as_bytes());
    }

    /// Appends the row of a verdict, with the time of its break if it has one.
    fn push_timed_verdict(&mut self, listing: &TimedListing, outcome: ListedVerdict)
        requires { self.old ≡ [] }
        ensures text { self.new ≡ timed_row listing.now.times (Verdict outcome) }
        ensures length { length self.new ≤ 240 }
    {
        match outcome {
            ListedVerdict::Conforming => self.push(b"verdict conforming"),
            ListedVerdict::NeverIdle => self.push(b"verdict never-idle"),
            ListedVerdict::Broken(rule, instant, line) => {
                self.push_timed_break(listing, b"verdict broken ", rule, instant, line);
            }
            ListedVerdict::Unreadable(rule, instant, line) => {
                self.push_timed_break(listing, b"verdict unreadable ", rule, instant, line);
            }
        }
    }

    /// Appends a row with its times.
    fn push_timed_row(&mut self, listing: &TimedListing, row: &Row)
        requires { self.old ≡ [] }
        ensures text { self.new ≡ timed_row listing.now.times row.now }
        ensures length { length self.new ≤ 240 }
    {
        match *row {
            Row::Start { instant } => self.push_instant(listing, b"start ", instant),
            Row::Reset { instant } => self.push_instant(listing, b"reset ", instant),
            Row::OpenTenure { start, end } => {
                self.push_instant(listing, b"tenure ", start);
                self.push_end_instant(listing, b" open end ", end);
            }
            Row::Tenure {
                start,
                level,
                slot,
                end,
            } => self.push_timed_tenure(listing, start, level, slot, end),
            Row::AddressedCycle {
                start,
                class,
                modifier,
                address,
                end,
            } => self.push_timed_cycle(listing, start, class, modifier, address, end),
            Row::FreeCycle {
                start,
                modifier,
                end,
            } => {
                self.push_instant(listing, b"cycle ", start);
                self.push(b" F ");
                self.push_hexadecimal(2, u32::from(modifier));
                self.push_end_instant(listing, b" end ", end);
            }
            Row::InterruptCycle { start, level, end } => {
                self.push_instant(listing, b"cycle ", start);
                self.push(b" I ");
                self.push_decimal(u64::from(level));
                self.push_end_instant(listing, b" end ", end);
            }
            Row::Transfer {
                start,
                cycle,
                direction,
                line,
                answer,
                close,
                lanes,
            } => self.push_timed_transfer(
                listing, start, cycle, direction, line, answer, close, lanes,
            ),
            Row::PendingTransfer { start, direction } => {
                self.push_instant(listing, b"transfer ", start);
                self.push(b" ");
                self.push(direction_text(direction));
                self.push(b" pending");
            }
            Row::Verdict(outcome) => self.push_timed_verdict(listing, outcome),
        }
    }
}

/// The line of a row of a listing, with the times of its instants.
pub(crate) fn timed_line(listing: &TimedListing, row: &Row) -> ShortText
    ensures { result ≡ timed_line listing.now.times row.now }
{
    let mut text = ShortText::new();
    text.push_timed_row(listing, row);
    text.push(b"\n");
    text
}

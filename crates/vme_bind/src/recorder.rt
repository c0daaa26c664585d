//! The levels of the lines while a dump is read, and the steps at which they change.

ghost use Rattle.std.specs.Prelude.{◌≡◌, ◌≢◌, ◌≤◌, ◌<◌, ℕ, false, IfOk, OnOk, map, length};
ghost use Rattle.std.specs.Prelude.{◌↔◌, ◌⊎◌, IfSome, IsTrue, [], true};
ghost use Rattle.std.specs.Option.{option_to_list};
ghost use Rattle.vcd_read.specs.DetachedPieces.{entered};
ghost use Rattle.vme_trace.specs.LineNumbers.{line_count};
ghost use Rattle.vme_trace.specs.Levels.{same_level, set_level};
ghost use Rattle.vme_trace.specs.Trace.{changed, levels_after};
ghost use Rattle.vcd_read.specs.Numbers.{extended};
ghost use Rattle.vme_bind.specs.Capture.{level_of, level_in};
ghost use Rattle.vme_bind.specs.NetLines.{line_bits_of};
ghost use Rattle.vme_bind.specs.Recording.{IsLine, shown_as, differs, DifferWithin, AreLines, line_change, valued};
ghost use Rattle.vme_bind.specs.Recording.{changes_between};
ghost use Rattle.vme_bind.specs.Recording.{end_of, ended_steps, step_between};

use crate::net_lines::{LineBit, NetLines};
use smallvec::SmallVec;
use std::alloc::{AllocError, Global};
use std::marker::Model;
use vcd_read::{Bit, Value, bit_at};
use vme_trace::{Change, Changes, Level, Line, Lines, Step};

/// `Recorder::first`, where no line got another level: the line of the greatest number.
const NONE_FIRST: Line = Line::SYSRESET;

/// `Recorder::last`, where no line got another level: the line of the least number.
const NONE_LAST: Line = Line::AS;

/// The levels of the lines while a dump is read.
#[derive(Drop)]
pub(crate) struct Recorder {
    /// The levels after the steps so far.
    shown: Lines,
    /// The levels after the values so far.
    now: Lines,
    /// No line of a lesser number got another level since the last step.
    first: Line,
    /// No line of a greater number got another level since the last step. It is before `first` where no line did.
    last: Line,
}

impl Model for Recorder {
    ghost use Rattle.vme_bind.specs.Recording.{RecorderLevels, DifferWithin};

    ghost Value = { RecorderLevels };

    ghost view = { λ r. record { shown = r.shown; now = r.now } };

    ghost invariant = { λ r. DifferWithin r.shown r.now r.first r.last };
}

/// The level of `line` for `bit`: z is high on a bused line, and unknown on a net of a daisy chain.
fn level_of(line: Line, bit: Bit) -> Level
    ensures { result ≡ level_of line bit }
{
    match bit {
        Bit::Zero => Level::Low,
        Bit::One => Level::High,
        Bit::X => Level::Unknown,
        Bit::Z => {
            if line.is_net() {
                Level::Unknown
            } else {
                Level::High
            }
        }
    }
}

/// The level of the line of `line_bit`, where its net has the value `bits`.
fn level_in(line_bit: LineBit, bits: &[Bit]) -> Level
    ensures { result ≡ level_in line_bit.line line_bit.place bits.now }
{
    level_of(
        line_bit.line,
        bits.get(line_bit.place).copied().unwrap_or(Bit::X),
    )
}

/// The level of the line of `line_bit`, where its net has `size` bits and its value the digits `digits`.
#[inline(always)]
pub(crate) fn level_by_digits(line_bit: LineBit, size: u32, digits: &[u8]) -> Level
    requires some { 0 < length digits.now }
    requires fits { length digits.now ≤ size }
    ensures { result ≡ level_in line_bit.line line_bit.place (extended size digits.now) }
{
    level_of(line_bit.line, bit_at(size, digits, line_bit.place))
}

/// Whether the two levels are equal. One comparison of their variants decides it.
#[tactic(auto, using(vme_trace::proofs::SameLevel::sameb_is_same_level))]
#[inline(always)]
fn is_same(first: Level, second: Level) -> bool
    ensures { result ≡ same_level first second }
{
    first == second
}

/// The one of two lines whose number is less.
#[inline(always)]
fn earlier(first: Line, second: Line) -> Line
    ensures least { (result ≤ first) × (result ≤ second) }
    ensures one { (result ≡ first) ⊎ (result ≡ second) }
{
    if first.number() < second.number() {
        first
    } else {
        second
    }
}

/// The one of two lines whose number is greater.
#[inline(always)]
fn later(first: Line, second: Line) -> Line
    ensures { (first ≤ result) × (second ≤ result) }
{
    if first.number() < second.number() {
        second
    } else {
        first
    }
}

/// The changes from the levels `shown` to the levels `now`, by ascending line number. The two differ at most on the
/// lines from `first` to `last`. Afterwards `shown` is `now`.
fn show(
    alloc: Global,
    first: Line,
    last: Line,
    now: &Lines,
    shown: &mut Lines,
) -> Result<SmallVec<Change, 8>, AllocError>
    requires { DifferWithin shown.old now.now first last }
    ensures changes { IfOk result (λ changes. changes.items ≡ changes_between shown.old now.now) }
    ensures shown { OnOk result (shown.new ≡ now.now) }
    ensures within { DifferWithin shown.new now.now first last }
{
    let begin = earlier(first, last).number();
    let end = last.number() + 1;
    let mut changes = SmallVec::with_capacity(alloc, (end - begin) as usize)?;
    for number in begin..end {
        if let Some(line) = Line::from_number(number) {
            if !now.is_same_on(shown, line) {
                let level = now.level(line);
                changes.push_reserved(Change { line, level });
                shown.set(line, level);
            }
        }
    }
    Ok(changes)
}

impl Recorder {
    /// The recorder with the levels `opening`, before any step.
    pub fn new(opening: Lines) -> Recorder
        requires { length opening.levels ≡ line_count }
        ensures { result ≡ shown_as opening }
    {
        Recorder {
            shown: opening,
            now: opening,
            first: NONE_FIRST,
            last: NONE_LAST,
        }
    }

    /// Gives a line a level.
    #[inline(always)]
    fn set_line(&mut self, line: Line, level: Level) -> Result<(), AllocError>
        requires { IsLine self.old.now.slots line }
        ensures slots { self.new.now.slots ≡ self.old.now.slots }
        ensures ok { OnOk result (self.new ≡ record self.old { now = set_level self.old.now line level }) }
    {
        if !is_same(self.shown.level(line), level) {
            self.first = earlier(self.first, line);
            self.last = later(self.last, line);
        }
        self.now.set(line, level);
        Ok(())
    }

    /// Sets the lines of a net to their levels in the value `bits`.
    fn set_lines(&mut self, line_bits: &[LineBit], bits: &[Bit]) -> Result<(), AllocError>
        requires { AreLines self.old.now.slots line_bits.now }
        ensures { OnOk result (self.new ≡ record self.old {
          now = changed self.old.now
              (map (line_change bits.now) line_bits.now);
        }) }
    {
        for line_bit in line_bits {
            self.set_line(line_bit.line, level_in(*line_bit, bits))?;
        }
        Ok(())
    }

    /// Sets the lines of a net of `size` bits to their levels in its value, which has the digits `digits`. Most nets
    /// have one line or none. It fails if memory runs out, and then only some of the lines may be set.
    #[inline(always)]
    pub fn set_by_digits(
        &mut self,
        line_bits: &[LineBit],
        size: u32,
        digits: &[u8],
    ) -> Result<(), AllocError>
        requires some { 0 < length digits.now }
        requires fits { length digits.now ≤ size }
        requires lines { AreLines self.old.now.slots line_bits.now }
        ensures slots { self.new.now.slots ≡ self.old.now.slots }
        ensures ok { OnOk result (self.new ≡ record self.old {
          now = changed self.old.now
              (map (line_change (extended size digits.now)) line_bits.now);
        }) }
    {
        match line_bits {
            [] => Ok(()),
            [line_bit] => self.set_line(line_bit.line, level_by_digits(*line_bit, size, digits)),
            _ => self.set_each_by_digits(line_bits, size, digits),
        }
    }

    /// Gives each of these lines the level of its bit, by the digits of a value of `size` bits. It fails if memory runs
    /// out.
    #[inline(never)]
    fn set_each_by_digits(
        &mut self,
        line_bits: &[LineBit],
        size: u32,
        digits: &[u8],
    ) -> Result<(), AllocError>
        requires some { 0 < length digits.now }
        requires fits { length digits.now ≤ size }
        requires lines { AreLines self.old.now.slots line_bits.now }
        ensures slots { self.new.now.slots ≡ self.old.now.slots }
        ensures ok { OnOk result (self.new ≡ record self.old {
          now = changed self.old.now
              (map (line_change (extended size digits.now)) line_bits.now);
        }) }
    {
        for line_bit in line_bits {
            self.set_line(line_bit.line, level_by_digits(*line_bit, size, digits))?;
        }
        Ok(())
    }

    /// Sets the lines to their levels in the values of an instant.
    fn set_values(&mut self, line_bits: &NetLines, values: &[Value]) -> Result<(), AllocError>
        requires { (net : ℕ) → AreLines self.old.now.slots (line_bits_of line_bits.now net) }
        ensures { OnOk result (self.new ≡ record self.old { now = valued line_bits.now values.now self.old.now }) }
    {
        for value in values {
            self.set_lines(line_bits.of(value.net), value.bits.as_slice())?;
        }
        Ok(())
    }

    /// Whether no line got another level since the last step. An instant that ends then makes no step.
    #[inline(always)]
    pub fn is_untouched(&self) -> bool
        ensures shown { result ≡ true → self.entry.now ≡ shown_as self.entry.now.now }
        ensures none { result ≡ true → (time : ℕ)
            → step_between time self.entry.now.shown self.entry.now.now ≡ [] }
    {
        self.last.number() < self.first.number()
    }

    /// Ends an instant, which is a step if some line has another level than before. It fails if memory runs out. The
    /// levels that are set stay in any case.
    #[inline(always)]
    pub fn end_instant(&mut self, alloc: Global, time: u64) -> Result<Option<Step>, AllocError>
        ensures now { self.new.now ≡ self.old.now }
        ensures shown { OnOk result (self.new ≡ record { shown = self.old.now; now = self.old.now }) }
        ensures step { IfOk result (λ step. option_to_list step ≡ step_between time self.old.shown self.old.now) }
    {
        if self.is_untouched() {
            return Ok(None);
        }
        match self.lone_line() {
            Some(line) => Ok(self.end_with_line(alloc, time, line)),
            None => self.end_with_lines(alloc, time),
        }
    }

    /// The line that alone may have another level than before, where there is one.
    #[inline(always)]
    pub fn lone_line(&self) -> Option<Line>
        ensures exists { IfSome result (λ line. IsLine self.entry.now.now.slots line) }
        ensures alone { IfSome result (λ line. (l : ℕ) → l ≢ line
            → differs self.entry.now.shown self.entry.now.now l ≡ false) }
    {
        if self.first.number() == self.last.number() {
            Some(self.first)
        } else {
            None
        }
    }

    /// Ends an instant at which no line but this one may have another level than before. The result is a step if the
    /// line has another level than before.
    #[inline(always)]
    pub fn end_with_line(&mut self, alloc: Global, time: u64, line: Line) -> Option<Step>
        requires exists { IsLine self.old.now.slots line }
        requires alone { (l : ℕ) → l ≢ line → differs self.old.shown self.old.now l ≡ false }
        ensures now { self.new.now ≡ self.old.now }
        ensures shown { self.new ≡ record { shown = self.old.now; now = self.old.now } }
        ensures step { option_to_list result ≡ step_between time self.old.shown self.old.now }
    {
        let level = self.now.level(line);
        let is_shown = is_same(self.shown.level(line), level);
        self.shown.set(line, level);
        self.first = NONE_FIRST;
        self.last = NONE_LAST;
        if is_shown {
            return None;
        }
        let mut changes = SmallVec::new(alloc);
        changes.push_reserved(Change { line, level });
        Some(Step {
            time,
            changes: Changes::new(changes),
        })
    }

    /// Ends an instant at which any lines may have another level than before. It fails if memory runs out. The levels
    /// that are set stay in any case.
    #[inline(never)]
    pub fn end_with_lines(&mut self, alloc: Global, time: u64) -> Result<Option<Step>, AllocError>
        ensures now { self.new.now ≡ self.old.now }
        ensures shown { OnOk result (self.new ≡ record { shown = self.old.now; now = self.old.now }) }
        ensures step { IfOk result (λ step. option_to_list step ≡ step_between time self.old.shown self.old.now) }
    {
        let changes = show(alloc, self.first, self.last, &self.now, &mut self.shown)?;
        self.first = NONE_FIRST;
        self.last = NONE_LAST;
        if changes.is_empty() {
            return Ok(None);
        }
        Ok(Some(Step {
            time,
            changes: Changes::new(changes),
        }))
    }

    /// Takes the values of an instant, and ends it. The result is its step, if it makes one. It fails if memory runs
    /// out, and then nothing is said of the recorder.
    pub fn record(
        &mut self,
        alloc: Global,
        line_bits: &NetLines,
        time: u64,
        values: &[Value],
    ) -> Result<Option<Step>, AllocError>
        requires { (net : ℕ) → AreLines self.old.now.slots (line_bits_of line_bits.now net) }
        ensures shown { OnOk result (self.new ≡ record {
          shown = valued line_bits.now values.now self.old.now;
          now = valued line_bits.now values.now self.old.now;
        }) }
        ensures step { IfOk result (λ step. option_to_list step
            ≡ step_between time self.old.shown (valued line_bits.now values.now self.old.now)) }
    {
        self.set_values(line_bits, values)?;
        self.end_instant(alloc, time)
    }

    /// The levels after the steps so far.
    pub fn shown(&self) -> &Lines
        ensures { result.now ≡ self.entry.now.shown }
    {
        &self.shown
    }

    /// The levels after the values so far.
    pub fn now(&self) -> &Lines
        ensures now { result.now ≡ self.entry.now.now }
        ensures all { length result.now.levels ≡ line_count }
    {
        &self.now
    }

    /// Ends the current instant at the time `ended`, if that is some. It makes a step if some line has another level
    /// than before. It fails if memory runs out, and then nothing is said of the recorder.
    pub fn end(&mut self, alloc: Global, ended: Option<u64>) -> Result<Option<Step>, AllocError>
        ensures ended { OnOk result (self.new ≡ entered end_of self.old ended) }
        ensures step { IfOk result (λ step. option_to_list step ≡ ended_steps self.old ended) }
        ensures leads { IfOk result (λ step. levels_after self.old.shown (option_to_list step) ≡ self.new.shown) }
    {
        let _ = &self.first;
        match ended {
            Some(time) => self.end_instant(alloc, time),
            None => Ok(None),
        }
    }

    /// Whether `shown` and `now` are both `levels`, once the current instant has ended, if `ended` is some time.
    pub fn begins_with(&self, ended: Option<u64>, levels: &Lines) -> bool
        ensures { IsTrue result ↔ (entered end_of self.entry.now ended ≡ shown_as levels.now) }
    {
        match ended {
            Some(_) => self.now == *levels,
            None => self.now == *levels && self.shown == *levels,
        }
    }
}

//! The body: times, changes and dump sections.

ghost use Rattle.std.specs.Prelude.{◌≡◌, ℕ, List, [], ◌<◌, ◌≤◌, length, option_map, Ok, OnOk, IfOk, true, false};
ghost use Rattle.std.specs.Option.{ForSome};
ghost use Rattle.vcd_read.specs.Numbers.{time_of};
ghost use Rattle.vcd_read.specs.Reading.{IsStart, left_at, line_of};
ghost use Rattle.vcd_read.specs.declared.body_piece.BodyPiece.{BodyPiece};
ghost use Rattle.vcd_read.specs.Body.{time_item, change, skipped, dump_section_open, dump_section_end, ready};
ghost use Rattle.vcd_read.specs.Body.{code_of_vector, code_of_foreign, in_comment};
ghost use Rattle.vcd_read.specs.BodyFold.{progress_of};
ghost use Rattle.vcd_read.specs.Bodies.{BodyContinuesTo, ContinuesOrStops, KeepsTaken, ahead, ahead_until_fault};
ghost use Rattle.vcd_read.specs.Bodies.{from_token, place_of};
ghost use Rattle.vcd_read.specs.declared.open_item.OpenItem.TheVariants.{Ready};

use crate::body_piece::Start;
use crate::body_state::BodyState;
use crate::change_visitor::ChangeVisitor;
use crate::codes::Codes;
use crate::fault::{FaultKind, VcdFault};
use crate::number::time_of;
use crate::open_item::{Digits, OpenItem};
use crate::shape::{Shape, is_end, shape_of};
use crate::stopped::Stopped;
use crate::timed_visitor::TimedVisitor;
use crate::token::{Reader, Token};
use std::alloc::Global;
use std::mem;

/// A piece of a body that is read.
#[derive(Drop)]
pub(crate) struct Body<'a, 'c, T: ChangeVisitor> {
    reader: Reader<'a>,
    codes: &'c Codes,
    timed: TimedVisitor<T>,
    /// Where the dump section that is open starts.
    dump_section: Option<Start>,
    place: OpenItem,
    ghost dump_section_within: { ForSome dump_section (λ start. IsStart reader.text start) },
}

impl<'a, 'c, T: ChangeVisitor> Body<'a, 'c, T> {
    ghost use Rattle.vcd_read.specs.BodyPieces.{ContinuesIn, StepsTo, rest_in};

    // Each of these reads one item, or begins it, and answers whether another may follow in the piece.

    /// Reads one item, if there is one left.
    fn one(&mut self, alloc: Global) -> Result<bool, VcdFault>
        requires { self.old.place ≡ Ready }
        ensures codes { self.new.codes ≡ self.old.codes }
        ensures text { self.new.reader.text ≡ self.old.reader.text }
        ensures moves { result ≡ Ok true → self.old.reader.at < self.new.reader.at }
        ensures between { result ≡ Ok true → self.new.place ≡ Ready }
        ensures end { result ≡ Ok false → left_at self.new.reader.text self.new.reader.at ≡ [] }
        ensures rest { ContinuesIn T.with_change T.with_instant T.taken
            (rest_in T.with_change T.with_instant T.taken self.old (place_of self.old.place) self.old.reader)
            self.new (place_of self.new.place) self.new.reader result }
    {
        if !self.reader.finds_token() {
            return Ok(false);
        }
        let at = self.reader.at;
        let bytes = self.reader.word();
        self.item(alloc, Token { at, bytes })
    }

    /// Reads short items, up to the first that isn't short: nearly all are. The place is that of a reader of its own,
    /// which stays in registers.
    #[inline(always)]
    fn short_items(&mut self, alloc: Global) -> Result<(), VcdFault>
        requires { self.old.place ≡ Ready }
        ensures codes { self.new.codes ≡ self.old.codes }
        ensures text { self.new.reader.text ≡ self.old.reader.text }
        ensures forward { OnOk result (self.old.reader.at ≤ self.new.reader.at) }
        ensures between { self.new.place ≡ Ready }
        ensures rest { ContinuesIn T.with_change T.with_instant T.taken
            (rest_in T.with_change T.with_instant T.taken self.old ready self.old.reader)
            self.new ready self.new.reader result }
    {
        let mut reader = self.reader.again();
        while self.short_item(alloc, &mut reader)? {}
        self.reader.at = reader.at;
        Ok(())
    }

    /// Reads the next item, if there is one and it is short: a time of at most 19 digits, a scalar change of a code of
    /// one byte that a space follows, or a change of a vector whose code is in the piece.
    #[inline(always)]
    fn short_item(&mut self, alloc: Global, reader: &mut Reader<'a>) -> Result<bool, VcdFault>
        requires { reader.old.text ≡ self.old.reader.text }
        ensures same { (self.new.reader ≡ self.old.reader) × (self.new.codes ≡ self.old.codes)
            × (self.new.place ≡ self.old.place) }
        ensures text { reader.new.text ≡ reader.old.text }
        ensures forward { IfOk result (λ _. reader.old.at ≤ reader.new.at) }
        ensures moves { result ≡ Ok true → reader.old.at < reader.new.at }
        ensures rest { ContinuesIn T.with_change T.with_instant T.taken
            (rest_in T.with_change T.with_instant T.taken self.old ready reader.old) self.new ready reader.new result }
    {
        if !reader.finds_token() {
            return Ok(false);
        }
        if reader.text.bytes[reader.at] == b'#' {
            return self.short_time(alloc, reader);
        }
        self.short_change(alloc, reader)
    }

    /// Reads the item that begins at `reader.at`, if it is a time of at most 19 digits.
    #[inline(always)]
    fn short_time(&mut self, alloc: Global, reader: &mut Reader<'a>) -> Result<bool, VcdFault>
        requires text { reader.old.text ≡ self.old.reader.text }
        requires within { reader.old.at < length reader.old.text.bytes.now }
        ensures same { (self.new.reader ≡ self.old.reader) × (self.new.codes ≡ self.old.codes)
            × (self.new.place ≡ self.old.place) }
        ensures text { reader.new.text ≡ reader.old.text }
        ensures forward { IfOk result (λ _. reader.old.at ≤ reader.new.at) }
        ensures moves { result ≡ Ok true → reader.old.at < reader.new.at }
        ensures rest { ContinuesIn T.with_change T.with_instant T.taken
            (rest_in T.with_change T.with_instant T.taken self.old ready reader.old) self.new ready reader.new result }
    {
        let at = reader.at;
        match reader.short_time() {
            Some(time) => self.go_to(alloc, Start::Here(at), time),
            None => Ok(false),
        }
    }

    /// Reads the item that begins at `reader.at`, if it is a scalar change of a code of one byte that a space follows,
    /// or a change of a vector whose code is in the piece: each of its bytes is looked at once.
    #[inline(always)]
    fn short_change(&mut self, alloc: Global, reader: &mut Reader<'a>) -> Result<bool, VcdFault>
        requires text { reader.old.text ≡ self.old.reader.text }
        requires within { reader.old.at < length reader.old.text.bytes.now }
        ensures same { (self.new.reader ≡ self.old.reader) × (self.new.codes ≡ self.old.codes)
            × (self.new.place ≡ self.old.place) }
        ensures text { reader.new.text ≡ reader.old.text }
        ensures forward { IfOk result (λ _. reader.old.at ≤ reader.new.at) }
        ensures moves { result ≡ Ok true → reader.old.at < reader.new.at }
        ensures rest { ContinuesIn T.with_change T.with_instant T.taken
            (rest_in T.with_change T.with_instant T.taken self.old ready reader.old) self.new ready reader.new result }
    {
        let at = reader.at;
        if let Some((digit, code)) = reader.short_change() {
            return self.change(alloc, Start::Here(at), digit, code);
        }
        if let Some(digits) = reader.vector_digits() {
            if let Some(code) = reader.next() {
                return self.change(alloc, Start::Here(at), digits, code.bytes);
            }
            reader.at = at;
        }
        Ok(false)
    }

    /// Reads the item that a token is or begins.
    fn item(&mut self, alloc: Global, token: Token<'a>) -> Result<bool, VcdFault>
        requires between { self.old.place ≡ Ready }
        requires within { token.at ≤ length self.old.reader.text.bytes.now }
        ensures codes { self.new.codes ≡ self.old.codes }
        ensures text { self.new.reader.text ≡ self.old.reader.text }
        ensures moves { self.old.reader.at ≤ self.new.reader.at }
        ensures between { result ≡ Ok true → self.new.place ≡ Ready }
        ensures end { result ≡ Ok false → left_at self.new.reader.text self.new.reader.at ≡ [] }
        ensures rest { ContinuesIn T.with_change T.with_instant T.taken
            (from_token T.with_change T.with_instant token.entry.at token.entry.bytes.now self.old.codes.now
            self.old.reader (progress_of T.taken self.old.timed) self.old.dump_section)
            self.new (place_of self.new.place) self.new.reader result }
    {
        let start = Start::Here(token.at);
        match shape_of(token.bytes) {
            Shape::Time(digits) => self.time(alloc, start, digits),
            Shape::Scalar(digit, code) => self.change(alloc, start, digit, code),
            Shape::Vector(digits) => self.vector(alloc, start, digits),
            Shape::Foreign => self.foreign(start),
            Shape::Comment => self.comment(start),
            Shape::Opens => self.open(start),
            Shape::Ends => self.close(start),
            Shape::Unknown => Err(self.reader.fault(start, FaultKind::BadToken)),
        }
    }

    /// Takes a time by its digits. Returns whether reading goes on.
    fn time(&mut self, alloc: Global, start: Start, digits: &[u8]) -> Result<bool, VcdFault>
        requires { IsStart self.old.reader.text start }
        ensures same { (self.new.reader ≡ self.old.reader) × (self.new.codes ≡ self.old.codes)
            × (self.new.place ≡ self.old.place) }
        ensures kept { KeepsTaken (progress_of T.taken self.old.timed) (progress_of T.taken self.new.timed) result }
        ensures goes_on { IfOk result (λ goes_on. goes_on ≡ true) }
        ensures step { StepsTo T.with_change T.with_instant T.taken self.old
            (time_item (line_of self.old.reader.text start) digits.now) self.new result }
    {
        match time_of(digits) {
            Ok(time) => self.go_to(alloc, start, time),
            Err(kind) => Err(self.reader.fault(start, kind)),
        }
    }

    /// Advances to `time`, which the token at `start` denotes.
    #[inline(always)]
    fn go_to(&mut self, alloc: Global, start: Start, time: u64) -> Result<bool, VcdFault>
        requires { IsStart self.old.reader.text start }
        ensures same { (self.new.reader ≡ self.old.reader) × (self.new.codes ≡ self.old.codes)
            × (self.new.place ≡ self.old.place) }
        ensures kept { KeepsTaken (progress_of T.taken self.old.timed) (progress_of T.taken self.new.timed) result }
        ensures goes_on { IfOk result (λ goes_on. goes_on ≡ true) }
        ensures step { (digits : List ℕ) → time_of digits ≡ Ok time
            → StepsTo T.with_change T.with_instant T.taken self.old
            (time_item (line_of self.old.reader.text start) digits) self.new result }
    {
        if time < self.timed.clock.time {
            return Err(self.reader.fault(start, FaultKind::TimeBackwards));
        }
        self.timed.advance(alloc, time)?;
        Ok(true)
    }

    /// Takes a change of the variables of a code. Returns whether reading goes on.
    #[inline(always)]
    fn change(
        &mut self,
        alloc: Global,
        start: Start,
        digits: &[u8],
        code: &[u8],
    ) -> Result<bool, VcdFault>
        requires start { IsStart self.old.reader.text start }
        requires digits { 0 < length digits.now }
        ensures same { (self.new.reader ≡ self.old.reader) × (self.new.codes ≡ self.old.codes)
            × (self.new.place ≡ self.old.place) }
        ensures kept { KeepsTaken (progress_of T.taken self.old.timed) (progress_of T.taken self.new.timed) result }
        ensures goes_on { IfOk result (λ goes_on. goes_on ≡ true) }
        ensures step { StepsTo T.with_change T.with_instant T.taken self.old
            (change (line_of self.old.reader.text start) digits.now code.now) self.new result }
    {
        let (net, size) = match self.codes.find(code) {
            Some(net) => net,
            None => return Err(self.reader.fault(start, FaultKind::UndeclaredCode)),
        };
        if digits.len() > size as usize {
            return Err(self.reader.fault(start, FaultKind::TooWide));
        }
        self.timed.change(alloc, net, size, digits)?;
        Ok(true)
    }

    /// Reads the code of a vector, and changes its net. The code may be in the next piece.
    fn vector(&mut self, alloc: Global, start: Start, digits: &[u8]) -> Result<bool, VcdFault>
        requires between { self.old.place ≡ Ready }
        requires start { IsStart self.old.reader.text start }
        requires digits { 0 < length digits.now }
        ensures codes { self.new.codes ≡ self.old.codes }
        ensures text { self.new.reader.text ≡ self.old.reader.text }
        ensures moves { self.old.reader.at ≤ self.new.reader.at }
        ensures between { result ≡ Ok true → self.new.place ≡ Ready }
        ensures end { result ≡ Ok false → left_at self.new.reader.text self.new.reader.at ≡ [] }
        ensures rest { ContinuesIn T.with_change T.with_instant T.taken
            (rest_in T.with_change T.with_instant T.taken self.old
            (code_of_vector (line_of self.old.reader.text start) digits.now) self.old.reader)
            self.new (place_of self.new.place) self.new.reader result }
    {
        match self.reader.next() {
            Some(code) => self.change(alloc, start, digits, code.bytes),
            None => {
                let line = self.reader.line(start);
                self.place = OpenItem::Vector(Digits::new(alloc, line, digits)?);
                Ok(false)
            }
        }
    }

    /// Reads the code of a real number or a string, and skips the change. The code may be in the next piece.
    fn foreign(&mut self, start: Start) -> Result<bool, VcdFault>
        requires between { self.old.place ≡ Ready }
        requires start { IsStart self.old.reader.text start }
        ensures codes { self.new.codes ≡ self.old.codes }
        ensures text { self.new.reader.text ≡ self.old.reader.text }
        ensures moves { self.old.reader.at ≤ self.new.reader.at }
        ensures between { result ≡ Ok true → self.new.place ≡ Ready }
        ensures end { result ≡ Ok false → left_at self.new.reader.text self.new.reader.at ≡ [] }
        ensures rest { ContinuesIn T.with_change T.with_instant T.taken
            (rest_in T.with_change T.with_instant T.taken self.old
            (code_of_foreign (line_of self.old.reader.text start)) self.old.reader)
            self.new (place_of self.new.place) self.new.reader result }
    {
        match self.reader.next() {
            Some(code) => self.skip(start, code.bytes),
            None => {
                self.place = OpenItem::Foreign(self.reader.line(start));
                Ok(false)
            }
        }
    }

    /// Takes a value of another kind for a code that is declared. Returns whether reading goes on.
    fn skip(&self, start: Start, code: &[u8]) -> Result<bool, VcdFault>
        requires { IsStart self.now.reader.text start }
        ensures goes_on { IfOk result (λ goes_on. goes_on ≡ true) }
        ensures step { StepsTo T.with_change T.with_instant T.taken self.entry.now
            (skipped (line_of self.entry.now.reader.text start) code.now) self.entry.now result }
    {
        match self.codes.net(code) {
            Some(_) => Ok(true),
            None => Err(self.reader.fault(start, FaultKind::UndeclaredCode)),
        }
    }

    /// Reads the words of a comment up to its end, which may be in a later piece.
    fn comment(&mut self, start: Start) -> Result<bool, VcdFault>
        requires between { self.old.place ≡ Ready }
        requires start { IsStart self.old.reader.text start }
        ensures codes { self.new.codes ≡ self.old.codes }
        ensures text { self.new.reader.text ≡ self.old.reader.text }
        ensures moves { self.old.reader.at ≤ self.new.reader.at }
        ensures between { result ≡ Ok true → self.new.place ≡ Ready }
        ensures end { result ≡ Ok false → left_at self.new.reader.text self.new.reader.at ≡ [] }
        ensures rest { ContinuesIn T.with_change T.with_instant T.taken
            (rest_in T.with_change T.with_instant T.taken self.old
            (in_comment (line_of self.old.reader.text start)) self.old.reader)
            self.new (place_of self.new.place) self.new.reader result }
    {
        while let Some(word) = self.reader.next() {
            if is_end(word.bytes) {
                return Ok(true);
            }
        }
        self.place = OpenItem::Comment(self.reader.line(start));
        Ok(false)
    }

    /// Opens a dump section. Returns whether reading goes on.
    fn open(&mut self, start: Start) -> Result<bool, VcdFault>
        requires { IsStart self.old.reader.text start }
        ensures same { (self.new.reader ≡ self.old.reader) × (self.new.codes ≡ self.old.codes)
            × (self.new.place ≡ self.old.place) }
        ensures kept { KeepsTaken (progress_of T.taken self.old.timed) (progress_of T.taken self.new.timed) result }
        ensures goes_on { IfOk result (λ goes_on. goes_on ≡ true) }
        ensures step { StepsTo T.with_change T.with_instant T.taken self.old
            (dump_section_open (line_of self.old.reader.text start)) self.new result }
    {
        if self.dump_section.is_some() {
            return Err(self.reader.fault(start, FaultKind::BadToken));
        }
        self.dump_section = Some(start);
        Ok(true)
    }

    /// Closes the dump section. Returns whether reading goes on.
    fn close(&mut self, start: Start) -> Result<bool, VcdFault>
        requires { IsStart self.old.reader.text start }
        ensures same { (self.new.reader ≡ self.old.reader) × (self.new.codes ≡ self.old.codes)
            × (self.new.place ≡ self.old.place) }
        ensures kept { KeepsTaken (progress_of T.taken self.old.timed) (progress_of T.taken self.new.timed) result }
        ensures goes_on { IfOk result (λ goes_on. goes_on ≡ true) }
        ensures step { StepsTo T.with_change T.with_instant T.taken self.old
            (dump_section_end (line_of self.old.reader.text start)) self.new result }
    {
        if self.dump_section.is_none() {
            return Err(self.reader.fault(start, FaultKind::BadToken));
        }
        self.dump_section = None;
        Ok(true)
    }

    /// Reads the rest of the item that the previous piece ends in, as far as it is in this piece.
    fn resume(&mut self, alloc: Global) -> Result<bool, VcdFault>
        ensures codes { self.new.codes ≡ self.old.codes }
        ensures text { self.new.reader.text ≡ self.old.reader.text }
        ensures between { result ≡ Ok true → self.new.place ≡ Ready }
        ensures end { result ≡ Ok false → left_at self.new.reader.text self.new.reader.at ≡ [] }
        ensures rest { ContinuesIn T.with_change T.with_instant T.taken
            (rest_in T.with_change T.with_instant T.taken self.old (place_of self.old.place) self.old.reader)
            self.new (place_of self.new.place) self.new.reader result }
    {
        match mem::replace(&mut self.place, OpenItem::Ready) {
            OpenItem::Ready => Ok(true),
            OpenItem::Vector(digits) => {
                self.vector(alloc, Start::Before(digits.line), digits.bytes.as_slice())
            }
            OpenItem::Foreign(line) => self.foreign(Start::Before(line)),
            OpenItem::Comment(line) => self.comment(Start::Before(line)),
        }
    }

    /// Reads all that is left of the piece.
    fn all(&mut self, alloc: Global) -> Result<(), VcdFault>
        ensures codes { self.new.codes ≡ self.old.codes }
        ensures text { self.new.reader.text ≡ self.old.reader.text }
        ensures end { OnOk result (left_at self.new.reader.text self.new.reader.at ≡ []) }
        ensures rest { ContinuesIn T.with_change T.with_instant T.taken
            (rest_in T.with_change T.with_instant T.taken self.old (place_of self.old.place) self.old.reader)
            self.new (place_of self.new.place) self.new.reader result }
    {
        if !self.resume(alloc)? {
            return Ok(());
        }
        while self.one(alloc)? {
            self.short_items(alloc)?;
        }
        Ok(())
    }

    /// `fault`, with the visitor and the last time before it.
    fn stopped(self, fault: VcdFault) -> Stopped<T>
        ensures fault { result.fault ≡ fault }
        ensures visitor { T.taken result.visitor ≡ T.taken self.entry.timed.visitor }
        ensures time { result.time ≡ self.entry.timed.clock.time }
    {
        Stopped {
            fault,
            visitor: self.timed.visitor,
            time: self.timed.clock.time,
        }
    }

    /// How far the body is read, after the piece.
    fn end(self) -> BodyState<T>
        ensures taken { T.taken result.timed.visitor ≡ T.taken self.entry.timed.visitor }
        ensures clock { result.timed.clock ≡ self.entry.timed.clock }
        ensures dump_section { result.dump_section ≡ option_map (line_of self.entry.reader.text)
            self.entry.dump_section }
        ensures place { result.place ≡ self.entry.place }
    {
        let dump_section = match self.dump_section {
            Some(start) => Some(self.reader.line(start)),
            None => None,
        };
        BodyState {
            timed: self.timed,
            dump_section,
            place: self.place,
        }
    }
}

/// The start of what began before the piece, on `line`. `None` if there is no `line`.
fn on_line(line: Option<u64>) -> Option<Start>
    ensures line { (text : BodyPiece) → option_map (line_of text) result ≡ line }
    ensures start { (text : BodyPiece) → ForSome result (λ start. IsStart text start) }
{
    match line {
        Some(line) => Some(Start::Before(line)),
        None => None,
    }
}

/// Reads what is left of a piece of a body, from `state` on. The first fault comes with the visitor that took all
/// before it.
pub(crate) fn read_until_fault<T: ChangeVisitor>(
    alloc: Global,
    reader: Reader<'_>,
    codes: &Codes,
    state: BodyState<T>,
) -> Result<BodyState<T>, Stopped<T>>
    ensures { ContinuesOrStops (λ u. ahead_until_fault T.with_change T.with_instant codes.now
        (progress_of T.taken u.timed) u.dump_section (place_of u.place) []) (λ t. T.taken t) result
        (ahead_until_fault T.with_change T.with_instant codes.now (progress_of T.taken state.timed)
        state.dump_section (place_of state.place) (left_at reader.entry.text reader.entry.at)) }
{
    let BodyState {
        timed,
        dump_section,
        place,
    } = state;
    let mut body = Body {
        reader,
        codes,
        timed,
        dump_section: on_line(dump_section),
        place,
    };
    match body.all(alloc) {
        Ok(()) => Ok(body.end()),
        Err(fault) => Err(body.stopped(fault)),
    }
}

/// Reads what is left of a piece of a body, from `state` on.
pub(crate) fn read_piece<T: ChangeVisitor>(
    alloc: Global,
    reader: Reader<'_>,
    codes: &Codes,
    state: BodyState<T>,
) -> Result<BodyState<T>, VcdFault>
    ensures { BodyContinuesTo (λ u. ahead T.with_change T.with_instant codes.now
        (progress_of T.taken u.timed) u.dump_section (place_of u.place) []) result
        (ahead T.with_change T.with_instant codes.now (progress_of T.taken state.timed)
        state.dump_section (place_of state.place) (left_at reader.entry.text reader.entry.at)) }
{
    match read_until_fault(alloc, reader, codes, state) {
        Ok(state) => Ok(state),
        Err(stopped) => Err(stopped.fault),
    }
}

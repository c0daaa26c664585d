//! The tokens of a text, from the left.

ghost use Rattle.std.specs.Prelude.{◌≡◌, ℕ, true, false, ◌+◌, ◌∷◌, [], ◌<◌, ◌≤◌, length, slice_index, take};
ghost use Rattle.std.specs.Prelude.{◌==◌, ◌||◌, ◌-◌, IfSome, IfNone, MatchOption, get_or};
ghost use Rattle.vcd_read.specs.Tokens.{is_space};
ghost use Rattle.vcd_read.specs.Body.{scalar, vector};
ghost use Rattle.vcd_read.specs.Reading.{EndsBetweenTokens, IsShapeAt, IsStart, IsTimeAt, left_at, line_of, token_at};
ghost use Rattle.vcd_read.specs.Reading.{tokens_after};

use crate::body_piece::{BodyPiece, Start};
use crate::fault::{FaultKind, VcdFault};
use crate::lines::line_feeds;
use crate::number::{Leading, SAFE_DIGITS, leading_number};
use crate::runs::{above_space_end, bits_end};
use crate::shape::is_bit;

/// A token, and where it is.
#[derive(Clone, Copy)]
pub(crate) struct Token<'a> {
    /// The number of bytes of the piece before it.
    pub at: usize,
    /// Its bytes.
    pub bytes: &'a [u8],
}

/// A piece of a text whose tokens are read.
#[derive(Drop)]
pub(crate) struct Reader<'a> {
    /// The piece.
    pub text: BodyPiece<'a>,
    /// The number of bytes of the piece that are read.
    pub at: usize,
    ghost within: { at ≤ length text.bytes.now },
}

/// Whether `b` is white space. Nearly all bytes are above the space (32), so one test decides most of them, and many
/// others are line feeds.
#[tactic(auto, using(crate::proofs::TokenLemmas::is_space_above_32))]
pub fn is_space(b: u8) -> bool
    ensures { result ≡ is_space b }
{
    if b > b' ' {
        return false;
    }
    if b'\t' <= b && b <= b'\n' {
        return true;
    }
    matches!(b, b' ' | b'\r')
}

/// Whether a token with this first byte is to be the digits of a vector.
fn begins_vector(b: u8) -> bool
    ensures { result ≡ (b == 98 || b == 66) }
{
    matches!(b, b'b' | b'B')
}

/// The length of the longest prefix of `text` that is empty or ends after a space, so that no token continues after it.
pub fn whole_tokens(text: &[u8]) -> usize
    ensures within { result ≤ length text.now }
    ensures space { 0 < result → is_space (get_or text.now (result - 1) 0) ≡ true }
    ensures apart { EndsBetweenTokens (take result text.now) }
{
    let mut end = text.len();
    while end > 0 {
        if is_space(text[end - 1]) {
            return end;
        }
        end -= 1;
    }
    0
}

/// Whether a word before `at` ends there: the byte at `at` is a space, or `at` is at the end.
#[inline(always)]
fn ends_word(text: &[u8], at: usize) -> bool
    ensures ends { result ≡ true → at < length text.now → is_space (slice_index text.now at) ≡ true }
    ensures goes_on { result ≡ false → (at < length text.now) × (is_space (slice_index text.now at) ≡ false) }
{
    match text.get(at) {
        Some(b) => is_space(*b),
        None => true,
    }
}

/// The place of the first space from `at` on, or the end.
#[inline(always)]
pub fn word_end(text: &[u8], at: usize) -> usize
    requires { at ≤ length text.now }
    ensures low { at ≤ result }
    ensures high { result ≤ length text.now }
    ensures word { (k : ℕ) → at ≤ k → k < result → is_space (slice_index text.now k) ≡ false }
    ensures end { result < length text.now → is_space (slice_index text.now result) ≡ true }
{
    let end = above_space_end(text, at);
    if ends_word(text, end) {
        return end;
    }
    word_end_past_controls(text, end)
}

/// As `word_end`, where bytes below the space may be within the word.
#[inline(never)]
fn word_end_past_controls(text: &[u8], at: usize) -> usize
    requires { at ≤ length text.now }
    ensures low { at ≤ result }
    ensures high { result ≤ length text.now }
    ensures word { (k : ℕ) → at ≤ k → k < result → is_space (slice_index text.now k) ≡ false }
    ensures end { result < length text.now → is_space (slice_index text.now result) ≡ true }
{
    let mut i = above_space_end(text, at);
    while i < text.len() && !is_space(text[i]) {
        i = above_space_end(text, i + 1);
    }
    i
}

/// The place after the space at `end` that ends a word, or the end.
#[tactic(auto, using(crate::proofs::TokenLemmas::tokens_after_space))]
#[inline(always)]
fn behind_word(text: &[u8], end: usize) -> usize
    requires within { end ≤ length text.now }
    requires space { end < length text.now → is_space (slice_index text.now end) ≡ true }
    ensures low { end ≤ result }
    ensures high { result ≤ length text.now }
    ensures left { (line : ℕ) → tokens_after line text.now result ≡ tokens_after line text.now end }
{
    if end < text.len() { end + 1 } else { end }
}

impl<'a> Reader<'a> {
    /// A reader at the beginning of a text.
    pub fn new(text: &'a [u8]) -> Reader<'a>
        ensures text { result.text.bytes.now ≡ text.now }
        ensures line { result.text.line ≡ 1 }
        ensures at { result.at ≡ 0 }
    {
        Reader {
            text: BodyPiece {
                bytes: text,
                line: 1,
            },
            at: 0,
        }
    }

    /// Another reader, at the same place.
    #[inline(always)]
    pub fn again(&self) -> Reader<'a>
        ensures text { result.text ≡ self.now.text }
        ensures at { result.at ≡ self.now.at }
    {
        Reader {
            text: self.text,
            at: self.at,
        }
    }

    /// Moves to the next token, and answers whether there is one.
    #[inline(always)]
    pub fn finds_token(&mut self) -> bool
        ensures text { self.new.text ≡ self.old.text }
        ensures left { left_at self.old.text self.new.at ≡ left_at self.old.text self.old.at }
        ensures forward { self.old.at ≤ self.new.at }
        ensures end { result ≡ false → left_at self.old.text self.old.at ≡ [] }
        ensures within { result ≡ true → self.new.at < length self.old.text.bytes.now }
        ensures word { result ≡ true → is_space (slice_index self.old.text.bytes.now self.new.at) ≡ false }
    {
        while self.at < self.text.bytes.len() {
            if !is_space(self.text.bytes[self.at]) {
                return true;
            }
            self.at += 1;
        }
        false
    }

    /// Reads the token that begins at `at`.
    #[inline(always)]
    pub fn word(&mut self) -> &'a [u8]
        requires within { self.old.at < length self.old.text.bytes.now }
        requires word { is_space (slice_index self.old.text.bytes.now self.old.at) ≡ false }
        ensures text { self.new.text ≡ self.old.text }
        ensures token { left_at self.old.text self.old.at ≡ token_at self.old.text self.old.at result.now
            ∷ left_at self.old.text self.new.at }
        ensures moves { self.old.at < self.new.at }
        ensures some { 0 < length result.now }
    {
        let start = self.at;
        let end = word_end(self.text.bytes, start + 1);
        self.at = behind_word(self.text.bytes, end);
        &self.text.bytes[start..end]
    }

    /// Reads the token that begins at `at`, if it is a time of at most 19 digits.
    #[inline(always)]
    pub fn short_time(&mut self) -> Option<u64>
        requires { self.old.at < length self.old.text.bytes.now }
        ensures text { self.new.text ≡ self.old.text }
        ensures none { IfNone result (self.new.at ≡ self.old.at) }
        ensures time { IfSome result (λ time. IsTimeAt self.old.text self.old.at self.new.at time) }
        ensures moves { IfSome result (λ time. self.old.at < self.new.at) }
    {
        if self.text.bytes[self.at] != b'#' {
            return None;
        }
        let start = self.at + 1;
        let Leading { number, count } = leading_number(self.text.bytes, start);
        let end = start + count;
        if count > SAFE_DIGITS {
            return None;
        }
        if count == 0 || !ends_word(self.text.bytes, end) {
            return None;
        }
        self.at = behind_word(self.text.bytes, end);
        Some(number)
    }

    /// Reads the token that begins at `at`, if it is a scalar change of a code of one byte above the space, and a space
    /// follows it. The answer is its digit and its code.
    #[inline(always)]
    pub fn short_change(&mut self) -> Option<(&'a [u8], &'a [u8])>
        requires { self.old.at < length self.old.text.bytes.now }
        ensures text { self.new.text ≡ self.old.text }
        ensures none { IfNone result (self.new.at ≡ self.old.at) }
        ensures shape { IfSome result
            (λ c. IsShapeAt self.old.text self.old.at self.new.at (scalar c.0.now c.1.now)) }
        ensures moves { IfSome result (λ c. self.old.at < self.new.at) }
        ensures some { IfSome result (λ c. 0 < length c.0.now) }
    {
        let start = self.at;
        if self.text.bytes.len() - start < 3 || !is_bit(self.text.bytes[start]) {
            return None;
        }
        let end = start + 2;
        if self.text.bytes[start + 1] <= b' ' || !is_space(self.text.bytes[end]) {
            return None;
        }
        self.at = end + 1;
        let digit = &self.text.bytes[start..start + 1];
        let code = &self.text.bytes[start + 1..end];
        Some((digit, code))
    }

    /// Reads the token that begins at `at`, if it is the digits of a vector.
    #[inline(always)]
    pub fn vector_digits(&mut self) -> Option<&'a [u8]>
        requires { self.old.at < length self.old.text.bytes.now }
        ensures text { self.new.text ≡ self.old.text }
        ensures none { IfNone result (self.new.at ≡ self.old.at) }
        ensures shape { IfSome result
            (λ digits. IsShapeAt self.old.text self.old.at self.new.at (vector digits.now)) }
        ensures moves { IfSome result (λ digits. self.old.at < self.new.at) }
        ensures some { IfSome result (λ digits. 0 < length digits.now) }
    {
        let start = self.at;
        if !begins_vector(self.text.bytes[start]) {
            return None;
        }
        let end = bits_end(self.text.bytes, start + 1);
        if end == start + 1 || !ends_word(self.text.bytes, end) {
            return None;
        }
        self.at = behind_word(self.text.bytes, end);
        Some(&self.text.bytes[start + 1..end])
    }

    /// Takes the next token, or returns `None` if there is none.
    #[inline(always)]
    pub fn next(&mut self) -> Option<Token<'a>>
        ensures text { self.new.text ≡ self.old.text }
        ensures token { MatchOption result (left_at self.old.text self.old.at ≡ [])
            (λ t. left_at self.old.text self.old.at
            ≡ token_at self.old.text t.at t.bytes.now ∷ left_at self.old.text self.new.at) }
        ensures end { IfNone result (left_at self.old.text self.new.at ≡ []) }
        ensures moves { IfSome result (λ t. self.old.at < self.new.at) }
        ensures forward { self.old.at ≤ self.new.at }
        ensures within { IfSome result (λ t. (t.at < length self.old.text.bytes.now) × (0 < length t.bytes.now)) }
    {
        if !self.finds_token() {
            return None;
        }
        let at = self.at;
        let bytes = self.word();
        Some(Token { at, bytes })
    }

    /// The line that something starts on.
    pub fn line(&self, start: Start) -> u64
        requires { IsStart self.now.text start }
        ensures { result ≡ line_of self.now.text start }
    {
        match start {
            Start::Here(at) => line_feeds(&self.text.bytes[..at]) + self.text.line,
            Start::Before(line) => line,
        }
    }

    /// The fault of this kind on the line that something starts on.
    #[cold]
    #[inline(never)]
    pub fn fault(&self, start: Start, kind: FaultKind) -> VcdFault
        requires { IsStart self.now.text start }
        ensures { result ≡ record { line = line_of self.now.text start; kind = kind } }
    {
        VcdFault {
            line: self.line(start),
            kind,
        }
    }
}

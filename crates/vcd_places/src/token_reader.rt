//! The tokens of a text, and where they are.

ghost use Rattle.std.specs.Prelude.{◌≡◌, ℕ, [], ◌<◌, ◌≤◌, true, false, IfNone, IfSome, length, slice_index};
ghost use Rattle.vcd_read.specs.Tokens.{is_space};
ghost use Rattle.vcd_read.specs.Reading.{tokens_after};
ghost use Rattle.vcd_places.specs.NextTokens.{IsNextToken, IsTokenAt, is_token_boundary};

use vcd_read::{is_space, word_end};

/// A token, and where it is.
#[derive(Clone, Copy)]
pub(crate) struct PlacedToken<'a> {
    /// The place of its first byte: the number of bytes before it.
    pub start: usize,
    /// Its bytes.
    pub bytes: &'a [u8],
}

/// A text whose tokens are taken in their order.
#[derive(Drop)]
pub(crate) struct TokenReader<'a> {
    /// The text.
    pub text: &'a [u8],
    /// The number of bytes up to which its tokens are taken.
    pub at: usize,
    ghost boundary: { is_token_boundary text.now at ≡ true },
}

/// The first place from `at` on whose byte is no white space, or the end.
fn word_start(text: &[u8], at: usize) -> usize
    requires { at ≤ length text.now }
    ensures low { at ≤ result }
    ensures high { result ≤ length text.now }
    ensures spaces { (k : ℕ) → at ≤ k → k < result → is_space (slice_index text.now k) ≡ true }
    ensures word { result < length text.now → is_space (slice_index text.now result) ≡ false }
{
    let mut i = at;
    while i < text.len() && is_space(text[i]) {
        i += 1;
    }
    i
}

impl<'a> TokenReader<'a> {
    /// A reader of the tokens of `text` from `at` on, a token boundary.
    pub fn new(text: &'a [u8], at: usize) -> TokenReader<'a>
        requires { is_token_boundary text.now at ≡ true }
        ensures text { result.text.now ≡ text.now }
        ensures at { result.at ≡ at }
    {
        TokenReader { text, at }
    }

    /// Takes the next token, if there is one.
    pub fn next(&mut self) -> Option<PlacedToken<'a>>
        ensures text { self.new.text.now ≡ self.old.text.now }
        ensures none { IfNone result (tokens_after 1 self.old.text.now self.old.at ≡ []) }
        ensures token { IfSome result (λ t. IsNextToken self.old.text.now self.old.at self.new.at t.bytes.now) }
        ensures place { IfSome result (λ t. IsTokenAt self.old.text.now self.old.at self.new.at t.start t.bytes.now) }
    {
        let start = word_start(self.text, self.at);
        if start == self.text.len() {
            return None;
        }
        let end = word_end(self.text, start);
        self.at = end;
        Some(PlacedToken {
            start,
            bytes: &self.text[start..end],
        })
    }
}

//! The words of a line.

ghost use Rattle.std.specs.Prelude.{◌≡◌, ◌<◌, ◌≤◌, ◌∷◌, [], length, MatchOption};
ghost use Rattle.vme_bind.specs.Text.{words};
ghost use Rattle.vme_bind.specs.Reading.{with_word};

use memchr::memchr2;

/// What is left of a line.
#[derive(Drop)]
pub(crate) struct LineWords<'a> {
    rest: &'a [u8],
}

/// What is before the first blank, and what after it.
fn cut_at_blank(line: &[u8]) -> (&[u8], &[u8])
    ensures words { words line.now ≡ with_word result.0.now (words result.1.now) }
    ensures shorter { 0 < length line.now → length result.1.now < length line.now }
{
    match memchr2(b' ', b'\t', line) {
        Some(blank) => (&line[..blank], &line[blank + 1..]),
        None => (line, &line[line.len()..]),
    }
}

impl<'a> LineWords<'a> {
    /// The words of a whole line.
    pub fn new(line: &'a [u8]) -> LineWords<'a>
        ensures { result.rest.now ≡ line.now }
    {
        LineWords { rest: line }
    }

    /// The next word, if there is one.
    pub fn next(&mut self) -> Option<&'a [u8]>
        ensures { MatchOption result (words self.old.rest.now ≡ [])
            (λ word. words self.old.rest.now ≡ word.now ∷ words self.new.rest.now) }
    {
        while !self.rest.is_empty() {
            let (word, rest) = cut_at_blank(self.rest);
            self.rest = rest;
            if !word.is_empty() {
                return Some(word);
            }
        }
        None
    }
}

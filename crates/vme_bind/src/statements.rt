//! The statements of a text: its lines that are neither blank nor comments.

ghost use Rattle.std.specs.Prelude.{◌≡◌, ◌<◌, ◌≤◌, ◌+◌, ◌^◌, ◌∷◌, ◌++◌, [], length, MatchOption, IfNone};
ghost use Rattle.vme_bind.specs.Text.{words, statement_on, without_return, statements_of, end_line};

use crate::words::LineWords;
use memchr::memchr;

/// A statement: a line that is neither blank nor a comment.
#[derive(Drop)]
pub(crate) struct Statement<'a> {
    /// The line's number, from 1.
    pub line: u64,
    /// The first word.
    pub first: &'a [u8],
    /// The words after the first.
    pub others: LineWords<'a>,
}

/// A text whose statements are taken in their order.
#[derive(Drop)]
pub(crate) struct Statements<'a> {
    /// The bytes of the text that are left.
    rest: &'a [u8],
    /// The number of the first line that is left, from 1.
    line: u64,
    ghost fits: { line + length rest.now < 2 ^ 64 },
}

/// A line without a carriage return at its end.
fn without_return(line: &[u8]) -> &[u8]
    ensures { result.now ≡ without_return line.now }
{
    match line {
        [front @ .., b'\r'] => front,
        _ => line,
    }
}

impl<'a> Statements<'a> {
    ghost use Rattle.vme_bind.specs.Reading.{rest_statements, last_line, as_text};

    /// The statements of a whole text, whose first line has the number 1.
    pub fn new(text: &'a [u8]) -> Statements<'a>
        ensures left { rest_statements result ≡ statements_of text.now }
        ensures last { last_line result ≡ end_line text.now }
    {
        Statements {
            rest: text,
            line: 1,
        }
    }

    /// The number of the line that comes next, or of the last one.
    pub fn line(&self) -> u64
        ensures { result ≡ self.now.line }
    {
        self.line
    }

    /// Takes the next line off the rest of the text.
    fn next_line(&mut self) -> &'a [u8]
        requires { 0 < length self.old.rest.now }
        ensures left { rest_statements self.old
            ≡ statement_on self.old.line (words result.now) ++ rest_statements self.new }
        ensures last { last_line self.new ≡ last_line self.old }
        ensures shorter { length self.new.rest.now < length self.old.rest.now }
    {
        let rest = self.rest;
        match memchr(b'\n', rest) {
            Some(feed) => {
                self.rest = &rest[feed + 1..];
                self.line += 1;
                without_return(&rest[..feed])
            }
            None => {
                self.rest = &rest[rest.len()..];
                rest
            }
        }
    }

    /// The next statement, if there is one.
    pub fn next(&mut self) -> Option<Statement<'a>>
        ensures left { MatchOption result (rest_statements self.old ≡ [])
            (λ s. rest_statements self.old ≡ as_text s ∷ rest_statements self.new) }
        ensures last { last_line self.new ≡ last_line self.old }
        ensures end { IfNone result (self.new.line ≡ last_line self.old) }
    {
        while !self.rest.is_empty() {
            let line = self.line;
            let mut others = LineWords::new(self.next_line());
            if let Some(first) = others.next() {
                if !matches!(first, [b'#', ..]) {
                    return Some(Statement {
                        line,
                        first,
                        others,
                    });
                }
            }
        }
        None
    }
}

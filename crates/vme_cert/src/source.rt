//! Where the rows of a listing come from, one by one: a listing, or a text.

ghost use Rattle.std.specs.Prelude.{◌≡◌, ◌∷◌, ◌++◌, [], ℕ, List, true, IfSome, MatchOption};
ghost use Rattle.vme_cert.specs.Vocabulary.{HasRead, IsFaultOfText, IsTextOfListing, Row, ends_listing, listed};

use vme_listing::{ListFault, Row, RowReader};

/// A source that gives rows, one by one.
pub trait RowSource: Drop {
    /// What the rows are read from, as a whole.
    ghost Whole: { Type 0 };

    /// `gave whole source rows`: of the whole, the source in this state has given these rows so far, from the first on.
    ghost gave: { Self.Whole → Self → List Row → Type 0 };

    /// No more rows are given.
    ghost is_over: { Self → Type 0 };

    /// The next row, if there is one.
    fn next(&mut self) -> Option<Row>
        ensures row { (whole : Self.Whole) (rows : List Row) → gave whole self.old rows
            → MatchOption result (gave whole self.new rows) (λ row. gave whole self.new (rows ++ row ∷ [])) }
        ensures over { result ≡ None → is_over self.new }
        ensures stays { is_over self.old → result ≡ None };
}

/// The rows of a list that are left.
#[derive(Drop)]
pub(crate) struct ListedRows<'a> {
    pub(crate) rest: &'a [Row],
}

impl RowSource for ListedRows<'_> {
    ghost use Rattle.std.specs.Prelude.{◌≡◌, ◌++◌, [], List};
    ghost use Rattle.vme_cert.specs.Vocabulary.{Row};

    ghost Whole = { List Row };

    ghost gave = { λ whole s rows. rows ++ s.rest.now ≡ whole };

    ghost is_over = { λ s. s.rest.now ≡ [] };

    fn next(&mut self) -> Option<Row> {
        let (first, rest) = self.rest.split_first()?;
        self.rest = rest;
        Some(*first)
    }
}

/// The rows of a text, up to its first fault.
#[derive(Drop)]
pub(crate) struct TextRows<'a> {
    pub(crate) reader: RowReader<'a>,
    pub(crate) fault: Option<ListFault>,
}

impl TextRows<'_> {
    /// The first fault of the text. What is left of the text is read for it.
    pub(crate) fn fault(mut self) -> Option<ListFault>
        ensures whole { (text : List ℕ) (rows : List Row) → HasRead text rows self.entry.reader → result ≡ None
            → (more : List Row) × IsTextOfListing text (listed self.entry.reader.version (rows ++ more))
            × (ends_listing self.entry.reader.last ≡ true → more ≡ []) }
        ensures fault { (text : List ℕ) (rows : List Row) → HasRead text rows self.entry.reader
            → IfSome self.entry.fault (IsFaultOfText text) → IfSome result (IsFaultOfText text) }
        ensures kept { result ≡ None → self.entry.fault ≡ None }
    {
        if self.fault.is_some() {
            return self.fault;
        }
        loop {
            match self.reader.next() {
                Ok(Some(_)) => {}
                Ok(None) => return None,
                Err(fault) => return Some(fault),
            }
        }
    }
}

impl RowSource for TextRows<'_> {
    ghost use Rattle.std.specs.Prelude.{◌≡◌, ◌⊎◌, ℕ, true, List, IfSome, IsSome};
    ghost use Rattle.vme_cert.specs.Vocabulary.{HasRead, IsFaultOfText, Version, ends_listing};

    ghost Whole = { List ℕ × Version };

    ghost gave = { λ whole s rows. HasRead whole.0 rows s.reader × (s.reader.version ≡ whole.1)
        × IfSome s.fault (IsFaultOfText whole.0) };

    ghost is_over = { λ s. IsSome s.fault ⊎ (ends_listing s.reader.last ≡ true) };

    fn next(&mut self) -> Option<Row> {
        if self.fault.is_some() {
            return None;
        }
        match self.reader.next() {
            Ok(row) => row,
            Err(fault) => {
                self.fault = Some(fault);
                None
            }
        }
    }
}

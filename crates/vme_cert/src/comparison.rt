//! The given rows, taken one by one as the expected ones start, and the least row that differs. The given rows are
//! those of the listing that is checked, and the expected ones those of the recording's own listing.

ghost use Rattle.std.specs.Prelude.{◌≡◌, ◌<◌, ◌^◌, true, false, List, length, Some, None};
ghost use Rattle.vme_cert.specs.Vocabulary.{Row};
ghost use Rattle.vme_cert.specs.WithEdge.{with_edge};

use crate::compare::Answer;
use crate::source::RowSource;
use vme_listing::{Row, Version};

/// An expected row that has started: its place, counted from 0, the given row at that place, if there is one, and the
/// expected row but for its last edge. A transfer's is that of a pending one until it is answered.
#[derive(Clone, Copy)]
pub(crate) struct OpenRow {
    pub(crate) place: usize,
    pub(crate) given: Option<Row>,
    pub(crate) expected: Row,
    ghost within: { place < 2 ^ 62 },
}

/// The given rows, and what comparing those that were taken has shown.
#[derive(Drop)]
pub(crate) struct Comparison<S: RowSource> {
    pub(crate) source: S,
    /// The version of the listing: it decides whether the row of a write has data.
    pub(crate) version: Version,
    /// How many expected rows have started, and so how many given ones were taken, if there were as many.
    pub(crate) taken: usize,
    /// The least row that was compared and differs, counted from 1.
    pub(crate) wrong: Option<usize>,
}

/// `row` with `edge` as its end or its close. A row of another kind stays as it is.
fn with_edge(row: Row, edge: Option<u32>) -> Row
    ensures { result ≡ with_edge row edge }
{
    let mut row = row;
    match &mut row {
        Row::OpenTenure { end, .. } => *end = edge,
        Row::Tenure { end, .. } => *end = edge,
        Row::AddressedCycle { end, .. } => *end = edge,
        Row::FreeCycle { end, .. } => *end = edge,
        Row::InterruptCycle { end, .. } => *end = edge,
        Row::Transfer { close, .. } => *close = edge,
        _ => {}
    }
    row
}

/// Whether two rows are equal.
fn is_same(given: &Row, row: &Row) -> bool
    ensures same { result ≡ true → given.now ≡ row.now }
    ensures other { result ≡ false → given.now ≡ row.now → ⊥ }
{
    *given == *row
}

/// Whether `given` is `row`.
fn is_given(given: Option<Row>, row: Row) -> bool
    ensures same { result ≡ true → given ≡ Some row }
    ensures other { result ≡ false → given ≡ Some row → ⊥ }
{
    match given {
        Some(given) => is_same(&given, &row),
        None => false,
    }
}

impl<S: RowSource> Comparison<S> {
    ghost use Rattle.vme_cert.specs.Comparing.{Decides, HasComparedRow, IsBegun, IsCompared, IsGiven};

    /// The next expected row starts, and the next given one is taken.
    pub(crate) fn begin(&mut self, expected: Row) -> OpenRow
        requires { self.old.taken < 2 ^ 62 }
        ensures { IsBegun S.gave S.is_over expected self.old self.new result }
    {
        let place = self.taken;
        self.taken += 1;
        OpenRow {
            place,
            given: self.source.next(),
            expected: expected.in_version(self.version),
        }
    }

    /// Compares `row`, if there is one, with `edge` as its last edge.
    pub(crate) fn compare_row(&mut self, row: Option<OpenRow>, edge: Option<u32>)
        ensures { HasComparedRow row edge self.old self.new }
    {
        let Some(row) = row else {
            return;
        };
        if is_given(row.given, with_edge(row.expected, edge)) {
            return;
        }
        self.wrong = match self.wrong {
            Some(wrong) if wrong <= row.place => Some(wrong),
            _ => Some(row.place + 1),
        };
    }

    /// The answer, where no expected row follows and none is open; and the source of the rows.
    pub(crate) fn finish(self) -> (Answer, S)
        requires { self.taken < 2 ^ 63 }
        ensures { (whole : S.Whole) (given expected_rows : List Row)
            → IsGiven S.gave S.is_over whole given self.source self.taken
            → IsCompared given expected_rows self.taken (λ n. false) self.wrong → self.taken ≡ length expected_rows
            → (more : List Row) × S.gave whole result.1 more × Decides S.is_over more expected_rows result.1 result.0 }
    {
        let Comparison {
            mut source,
            version: _,
            taken,
            wrong,
        } = self;
        if let Some(row) = wrong {
            return (Answer::No { row }, source);
        }
        match source.next() {
            Some(_) => (Answer::No { row: taken + 1 }, source),
            None => (Answer::Yes, source),
        }
    }
}

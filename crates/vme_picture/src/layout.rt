//! The positions of the columns and the rows of a picture, in units of a quarter of a millimetre.

use std::alloc::{AllocError, Global};
use vme_explain::{Excerpt, Subject, push_label, shown_time, time_name};
use vme_text::Text;

/// The width of a picture: 160 mm.
pub(crate) const WIDTH: u64 = 640;

/// The width of the margin around it.
pub(crate) const MARGIN: u64 = 12;

/// The width of a character. The font is 10 units high.
pub(crate) const CHARACTER: u64 = 6;

/// The height of a row of levels.
pub(crate) const ROW: u64 = 16;

/// The distance between lines of text.
pub(crate) const LINE: u64 = 13;

/// The width of an edge.
pub(crate) const SLOPE: u64 = 4;

/// The top of the first row.
pub(crate) const TOP: u64 = 84;

/// The greatest width of a column.
const WIDEST: u64 = 120;

/// The columns of a picture: each begins at an instant, with the edges there, and shows the levels after them.
#[derive(Clone, Copy)]
pub(crate) struct Layout {
    /// The first instant that is shown.
    pub first: u32,
    /// The number of instants of the excerpt before it.
    pub left_out: u32,
    /// The number of columns.
    pub columns: u32,
    /// The start of the first column.
    pub left: u64,
    /// The width of each column.
    pub column: u64,
    /// The number of rows.
    pub rows: u64,
}

impl Layout {
    /// The layout of an excerpt. `break_index` is the index of the break among its instants, if there is a break.
    pub(crate) fn of(
        alloc: Global,
        subject: &Subject<'_>,
        excerpt: &Excerpt,
        break_index: Option<u32>,
    ) -> Result<Layout, AllocError> {
        let time = digits_of(alloc, shown_time(subject.account, excerpt.last))?;
        let names = names_width(alloc, subject, excerpt)?;
        // a time is centred on the start of its column
        let left = MARGIN
            .saturating_add(names.saturating_mul(CHARACTER))
            .saturating_add(time.saturating_mul(CHARACTER / 2))
            .saturating_add(2 * CHARACTER);
        let room = WIDTH.saturating_sub(MARGIN).saturating_sub(left);
        let count = excerpt.last.saturating_sub(excerpt.first).saturating_add(1);
        let fitting = room / needed(time, excerpt).max(1);
        let most = fitting.min(u64::from(count)).max(1) as u32;
        let spare = count.saturating_sub(most);
        let left_out = match break_index {
            // the break is after two thirds of the columns, earlier at a recording's start, and later at its end
            Some(index) => spare.min(index.saturating_sub(most.saturating_mul(2) / 3)),
            None => spare,
        };
        let columns = count.saturating_sub(left_out).min(most).max(1);
        let rows = excerpt.lines.len().saturating_add(excerpt.values.len());
        Ok(Layout {
            first: excerpt.first.saturating_add(left_out),
            left_out,
            columns,
            left,
            column: (room / u64::from(columns).max(1)).min(WIDEST),
            rows: rows as u64,
        })
    }

    /// The start of a column.
    pub(crate) fn edge(&self, place: u64) -> u64 {
        self.left.saturating_add(self.column.saturating_mul(place))
    }

    /// The top of a row.
    pub(crate) fn row(&self, place: u64) -> u64 {
        TOP.saturating_add(ROW.saturating_mul(place))
    }

    /// The bottom of the last row.
    pub(crate) fn bottom(&self) -> u64 {
        self.row(self.rows)
    }

    /// The instant of a column.
    pub(crate) fn instant(&self, place: u32) -> u32 {
        self.first.saturating_add(place)
    }
}

/// The width that a column needs for the longest value, and for a time of `time` digits.
fn needed(time: u64, excerpt: &Excerpt) -> u64 {
    let mut longest = time.saturating_add(1);
    for row in &excerpt.values {
        longest = longest.max(row.width as u64);
    }
    longest.saturating_mul(CHARACTER).saturating_add(8)
}

/// The number of decimal digits of a number.
fn digits_of(alloc: Global, number: u64) -> Result<u64, AllocError> {
    let mut digits = Text::new(alloc);
    digits.push_decimal(alloc, number)?;
    Ok(digits.as_bytes().len() as u64)
}

/// The number of characters of the longest name of a row.
fn names_width(alloc: Global, subject: &Subject<'_>, excerpt: &Excerpt) -> Result<u64, AllocError> {
    let mut width = time_name(subject.time_scale).len();
    for line in &excerpt.lines {
        let mut label = Text::new(alloc);
        push_label(&mut label, alloc, *line)?;
        width = width.max(label.as_bytes().len());
    }
    for row in &excerpt.values {
        width = width.max(row.name.len());
    }
    Ok(width as u64)
}

//! Lines by their levels: High above, Low below, and a hatched box if the level is unknown.

use crate::drawing::{
    BoxFill, PathKind, Point, Rectangle, TextStyle, push_axis_line, push_box, push_path,
    push_point, push_text_at,
};
use crate::layout::{Layout, MARGIN, ROW, SLOPE};
use crate::markup::Markup;
use std::alloc::{AllocError, Global};
use vme_explain::{Excerpt, line_characters, push_label};
use vme_text::Text;
use vme_trace::Line;

/// The distance of a High line from the top of its row, and of a Low line from the bottom.
const INSET: u64 = 3;

/// The distance of a name's base line from the top of its row.
pub(crate) const BASE: u64 = 12;

/// The character of an unknown level.
const UNKNOWN: u8 = b'x';

/// Adds a row for each line of an excerpt that is shown by itself. The line of the break is in bold.
pub(crate) fn push_waves(
    markup: &mut Markup,
    alloc: Global,
    excerpt: &Excerpt,
    broken: Option<Line>,
    layout: &Layout,
) -> Result<(), AllocError> {
    for (row, line) in excerpt.lines.iter().enumerate() {
        let y = layout.row(row as u64);
        let is_broken = match broken {
            Some(broken) => broken == *line,
            None => false,
        };
        push_name(markup, alloc, *line, is_broken, y)?;
        let levels = line_characters(alloc, *line, excerpt.levels.as_slice())?;
        let shown = &levels.as_slice()[levels.len().min(layout.left_out as usize)..];
        let shown = &shown[..shown.len().min(layout.columns as usize)];
        push_unknown(markup, alloc, shown, y, layout)?;
        push_known(markup, alloc, shown, is_broken, y, layout)?;
    }
    Ok(())
}

/// Adds the name of a line, in bold if the break names it.
fn push_name(
    markup: &mut Markup,
    alloc: Global,
    line: Line,
    is_broken: bool,
    y: u64,
) -> Result<(), AllocError> {
    let mut label = Text::new(alloc);
    push_label(&mut label, alloc, line)?;
    let at = Point {
        x: MARGIN,
        y: y.saturating_add(BASE),
    };
    let style = if is_broken {
        TextStyle::Bold
    } else {
        TextStyle::Plain
    };
    push_text_at(markup, alloc, at, style, label.as_bytes())
}

/// The height of a line of this level in the row that begins at `y`, if the level is known.
fn height_of(level: u8, y: u64) -> Option<u64> {
    match level {
        b'1' => Some(y.saturating_add(INSET)),
        b'0' => Some(y.saturating_add(ROW - INSET)),
        _ => None,
    }
}

/// Adds the known levels, as one path.
fn push_known(
    markup: &mut Markup,
    alloc: Global,
    levels: &[u8],
    is_broken: bool,
    y: u64,
    layout: &Layout,
) -> Result<(), AllocError> {
    let mut points = Text::new(alloc);
    let mut before: Option<u64> = None;
    for (place, level) in levels.iter().enumerate() {
        let now = height_of(*level, y);
        if now != before {
            push_edge(&mut points, alloc, before, now, layout.edge(place as u64))?;
            before = now;
        }
    }
    if before.is_some() {
        push_axis_line(&mut points, alloc, b"H", layout.edge(levels.len() as u64))?;
    }
    let kind = if is_broken {
        PathKind::HighlightedWave
    } else {
        PathKind::Wave
    };
    push_path(markup, alloc, kind, points.as_bytes())
}

/// Appends the path's step at an edge: it ends there if the level before is known, and continues if the next one is.
fn push_edge(
    points: &mut Text,
    alloc: Global,
    before: Option<u64>,
    now: Option<u64>,
    x: u64,
) -> Result<(), AllocError> {
    if before.is_some() {
        push_axis_line(points, alloc, b"H", x)?;
    }
    match now {
        Some(y) if before.is_some() => {
            let to = Point {
                x: x.saturating_add(SLOPE),
                y,
            };
            push_point(points, alloc, b"L", to)
        }
        Some(y) => push_point(points, alloc, b"M", Point { x, y }),
        None => Ok(()),
    }
}

/// Whether the level at index `place` is unknown.
fn is_unknown(levels: &[u8], place: usize) -> bool {
    match levels.get(place) {
        Some(level) => *level == UNKNOWN,
        None => false,
    }
}

/// Adds a hatched box for each stretch of unknown levels.
fn push_unknown(
    markup: &mut Markup,
    alloc: Global,
    levels: &[u8],
    y: u64,
    layout: &Layout,
) -> Result<(), AllocError> {
    let mut begin: usize = 0;
    for (place, level) in levels.iter().enumerate() {
        let next = place.saturating_add(1);
        if *level != UNKNOWN {
            begin = next;
        } else if !is_unknown(levels, next) {
            let x = layout.edge(begin as u64);
            let area = Rectangle {
                corner: Point {
                    x,
                    y: y.saturating_add(INSET),
                },
                width: layout.edge(next as u64).saturating_sub(x),
                height: ROW - 2 * INSET,
            };
            push_box(markup, alloc, BoxFill::Hatched, area)?;
            begin = next;
        }
    }
    Ok(())
}

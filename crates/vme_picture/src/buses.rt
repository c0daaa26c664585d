//! Buses by their values, each in a frame from where the value begins to where it ends.

use crate::drawing::{
    BoxFill, PathKind, Point, Rectangle, TextStyle, push_axis_line, push_box, push_path,
    push_point, push_text_at,
};
use crate::layout::{CHARACTER, Layout, MARGIN, ROW, SLOPE};
use crate::markup::Markup;
use crate::waves::BASE;
use std::alloc::{AllocError, Global};
use vme_explain::{Excerpt, ValueRow};
use vme_text::Text;

/// The distance of a frame from the top and from the bottom of its row.
const INSET: u64 = 2;

/// Adds a row for each bus of an excerpt.
pub(crate) fn push_buses(
    markup: &mut Markup,
    alloc: Global,
    excerpt: &Excerpt,
    layout: &Layout,
) -> Result<(), AllocError> {
    for (place, row) in excerpt.values.iter().enumerate() {
        let y = layout.row(excerpt.lines.len().saturating_add(place) as u64);
        let at = Point {
            x: MARGIN,
            y: y.saturating_add(BASE),
        };
        push_text_at(markup, alloc, at, TextStyle::Plain, row.name.as_bytes())?;
        push_values(markup, alloc, row, y, layout)?;
    }
    Ok(())
}

/// The digits of a row in column `place`.
fn value_at<'a>(row: &'a ValueRow, layout: &Layout, place: u32) -> &'a [u8] {
    match row
        .values
        .get(layout.left_out.saturating_add(place) as usize)
    {
        Some(value) => &value[..row.width.min(value.len())],
        None => b"",
    }
}

/// Adds a frame for each stretch of one value.
fn push_values(
    markup: &mut Markup,
    alloc: Global,
    row: &ValueRow,
    y: u64,
    layout: &Layout,
) -> Result<(), AllocError> {
    let mut begin: u32 = 0;
    for place in 0..layout.columns {
        let next = place.saturating_add(1);
        let value = value_at(row, layout, place);
        if next >= layout.columns || value_at(row, layout, next) != value {
            push_frame(
                markup,
                alloc,
                value,
                layout.edge(u64::from(begin)),
                layout.edge(u64::from(next)),
                y,
            )?;
            begin = next;
        }
    }
    Ok(())
}

/// Adds a frame from one edge to another, with a value in its middle.
fn push_frame(
    markup: &mut Markup,
    alloc: Global,
    value: &[u8],
    from: u64,
    to: u64,
    y: u64,
) -> Result<(), AllocError> {
    let is_known = !value.contains(&b'x');
    let (high, low) = (y.saturating_add(INSET), y.saturating_add(ROW - INSET));
    let middle = y.saturating_add(ROW / 2);
    let begin = Point {
        x: from.saturating_add(SLOPE / 2),
        y: middle,
    };
    let end = Point {
        x: to.saturating_add(SLOPE / 2),
        y: middle,
    };
    let mut points = Text::new(alloc);
    push_point(&mut points, alloc, b"M", begin)?;
    push_point(&mut points, alloc, b"L", after_edge(from, high))?;
    push_axis_line(&mut points, alloc, b"H", to)?;
    push_point(&mut points, alloc, b"L", end)?;
    push_point(&mut points, alloc, b"L", Point { x: to, y: low })?;
    push_axis_line(&mut points, alloc, b"H", from.saturating_add(SLOPE))?;
    points.push(b"Z")?;
    let (kind, background) = if is_known {
        (PathKind::Value, BoxFill::White)
    } else {
        (PathKind::UnknownValue, BoxFill::Grey)
    };
    push_path(markup, alloc, kind, points.as_bytes())?;
    // the value is on a box of its own, so that the line of an event doesn't cross it
    let width = (value.len() as u64)
        .saturating_mul(CHARACTER)
        .saturating_add(4);
    let x = (from.saturating_add(to) / 2).saturating_add(SLOPE / 2);
    let area = Rectangle {
        corner: Point {
            x: x.saturating_sub(width / 2),
            y: high.saturating_add(1),
        },
        width,
        height: ROW - 2 * INSET - 2,
    };
    push_box(markup, alloc, background, area)?;
    let at = Point {
        x,
        y: y.saturating_add(BASE),
    };
    push_text_at(markup, alloc, at, TextStyle::Middle, value)
}

/// The point after the edge at `x`, at height `y`.
fn after_edge(x: u64, y: u64) -> Point {
    Point {
        x: x.saturating_add(SLOPE),
        y,
    }
}

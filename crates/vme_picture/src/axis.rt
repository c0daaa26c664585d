//! The instants of a picture with their times, the break, and the other events.

use crate::drawing::{
    BoxFill, PathKind, Point, Rectangle, TextStyle, push_axis_line, push_box, push_number,
    push_path, push_point, push_text_at,
};
use crate::layout::{CHARACTER, Layout, MARGIN, TOP};
use crate::markup::Markup;
use std::alloc::{AllocError, Global};
use vme_explain::{OtherEvent, Subject, shown_time, time_name};
use vme_text::Text;
use vme_trace::Break;

/// The vertical position of the names of events, in quarters of a millimetre.
const EVENT_NAMES: u64 = 45;

/// The vertical position of the instants.
const INSTANTS: u64 = 60;

/// The vertical position of the times.
const TIMES: u64 = 74;

/// The greatest number of letters of events at one instant.
const MOST_LETTERS: usize = 4;

/// Adds the instants and their times, and a vertical line for each.
pub(crate) fn push_axis(
    markup: &mut Markup,
    alloc: Global,
    subject: &Subject<'_>,
    layout: &Layout,
) -> Result<(), AllocError> {
    push_row_name(markup, alloc, INSTANTS, b"instant")?;
    push_row_name(
        markup,
        alloc,
        TIMES,
        time_name(subject.time_scale).as_bytes(),
    )?;
    let mut grid = Text::new(alloc);
    for place in 0..layout.columns {
        let x = layout.edge(u64::from(place));
        let instant = layout.instant(place);
        let time = shown_time(subject.account, instant);
        push_number(markup, alloc, Point { x, y: INSTANTS }, u64::from(instant))?;
        push_number(markup, alloc, Point { x, y: TIMES }, time)?;
        push_point(&mut grid, alloc, b"M", Point { x, y: TOP })?;
        push_axis_line(&mut grid, alloc, b"V", layout.bottom())?;
    }
    push_path(markup, alloc, PathKind::Grid, grid.as_bytes())
}

/// Adds the name of the row at height `y`.
fn push_row_name(
    markup: &mut Markup,
    alloc: Global,
    y: u64,
    name: &[u8],
) -> Result<(), AllocError> {
    push_text_at(
        markup,
        alloc,
        Point { x: MARGIN, y },
        TextStyle::Plain,
        name,
    )
}

/// The letter of an event, by its index in the text below the picture: `a` for 0, up to `z` for 25 and above.
pub(crate) fn letter(place: usize) -> u8 {
    b'a' + (place.min(25) as u8)
}

/// The letters of the events at an instant. Two points stand for those after the first `MOST_LETTERS`.
fn letters_at(alloc: Global, others: &[OtherEvent], instant: u32) -> Result<Text, AllocError> {
    let mut letters = Text::new(alloc);
    let mut count: usize = 0;
    for (place, other) in others.iter().enumerate() {
        if other.instant == Some(instant) {
            if count < MOST_LETTERS {
                letters.push(&[letter(place)])?;
            }
            count = count.saturating_add(1);
        }
    }
    if count > MOST_LETTERS {
        letters.push(b"..")?;
    }
    Ok(letters)
}

/// Adds the line of the break, with the name of its rule, and the lines of the other events, each with its letters.
pub(crate) fn push_events(
    markup: &mut Markup,
    alloc: Global,
    found: Option<&Break>,
    others: &[OtherEvent],
    layout: &Layout,
) -> Result<(), AllocError> {
    for place in 0..layout.columns {
        let x = layout.edge(u64::from(place));
        let instant = layout.instant(place);
        let letters = letters_at(alloc, others, instant)?;
        match found {
            Some(found) if found.instant == instant => {
                push_break(markup, alloc, found, letters.as_bytes(), layout, x)?;
            }
            _ if letters.as_bytes().is_empty() => {}
            _ => push_other(markup, alloc, letters.as_bytes(), layout, x)?,
        }
    }
    Ok(())
}

/// Adds the line of the break.
fn push_break(
    markup: &mut Markup,
    alloc: Global,
    found: &Break,
    letters: &[u8],
    layout: &Layout,
    x: u64,
) -> Result<(), AllocError> {
    let mut words = Text::new(alloc);
    words.push(found.rule.name().as_bytes())?;
    if !letters.is_empty() {
        words.push(b" ")?;
        words.push(letters)?;
    }
    push_event_line(markup, alloc, PathKind::BreakMarker, x, layout)?;
    let width = (words.as_bytes().len() as u64)
        .saturating_mul(CHARACTER)
        .saturating_add(6);
    let area = Rectangle {
        corner: Point {
            x: x.saturating_sub(width / 2),
            y: EVENT_NAMES - 10,
        },
        width,
        height: 13,
    };
    push_box(markup, alloc, BoxFill::Black, area)?;
    let at = Point { x, y: EVENT_NAMES };
    push_text_at(markup, alloc, at, TextStyle::Inverse, words.as_bytes())
}

/// Adds the line of other events.
fn push_other(
    markup: &mut Markup,
    alloc: Global,
    letters: &[u8],
    layout: &Layout,
    x: u64,
) -> Result<(), AllocError> {
    push_event_line(markup, alloc, PathKind::EventMarker, x, layout)?;
    let at = Point { x, y: EVENT_NAMES };
    push_text_at(markup, alloc, at, TextStyle::Middle, letters)
}

/// Adds a line from the name of an event down through all rows, interrupted at the instant and the time.
fn push_event_line(
    markup: &mut Markup,
    alloc: Global,
    kind: PathKind,
    x: u64,
    layout: &Layout,
) -> Result<(), AllocError> {
    let mut points = Text::new(alloc);
    push_point(
        &mut points,
        alloc,
        b"M",
        Point {
            x,
            y: EVENT_NAMES + 3,
        },
    )?;
    push_axis_line(&mut points, alloc, b"V", INSTANTS - 9)?;
    push_point(&mut points, alloc, b"M", Point { x, y: TOP - 2 })?;
    push_axis_line(&mut points, alloc, b"V", layout.bottom().saturating_add(2))?;
    push_path(markup, alloc, kind, points.as_bytes())
}

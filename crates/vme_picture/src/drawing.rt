//! The elements of pictures: texts, paths and boxes.

use crate::markup::{Attribute, Attributes, Markup, Tag};
use std::alloc::{AllocError, Global};
use vme_text::Text;

/// A point of a picture, in quarters of a millimetre from its upper left corner.
#[derive(Clone, Copy)]
pub(crate) struct Point {
    /// To the right.
    pub x: u64,
    /// Downwards.
    pub y: u64,
}

/// How a text is set.
#[derive(Clone, Copy)]
pub(crate) enum TextStyle {
    /// It begins at its point.
    Plain,
    /// It begins at its point, in bold.
    Bold,
    /// It is centred on its point.
    Middle,
    /// It is centred on its point, bold and white.
    Inverse,
}

/// What a path shows.
#[derive(Clone, Copy)]
pub(crate) enum PathKind {
    /// The lines at the starts of the columns.
    Grid,
    /// The marker of an event other than the break.
    EventMarker,
    /// The marker of the break.
    BreakMarker,
    /// The levels of a bus line.
    Wave,
    /// The levels of the bus line that the break names.
    HighlightedWave,
    /// The value of several bus lines.
    Value,
    /// The value of several bus lines, some of which are unknown.
    UnknownValue,
}

/// How a path is drawn.
#[derive(Clone, Copy)]
struct PathStyle {
    fill: &'static str,
    stroke: &'static str,
    width: &'static str,
    dashes: &'static str,
}

/// The style in which a path is drawn.
fn style_of(kind: PathKind) -> PathStyle {
    let (fill, stroke, width, dashes) = match kind {
        PathKind::Grid => ("none", "#bbb", "0.5", ""),
        PathKind::EventMarker => ("none", "#000", "0.8", "3 2"),
        PathKind::BreakMarker => ("none", "#000", "1.2", ""),
        PathKind::Wave => ("none", "#000", "1", ""),
        PathKind::HighlightedWave => ("none", "#000", "1.6", ""),
        PathKind::Value => ("none", "#000", "0.8", ""),
        PathKind::UnknownValue => ("#ddd", "#000", "0.8", ""),
    };
    PathStyle {
        fill,
        stroke,
        width,
        dashes,
    }
}

/// What a box is filled with.
#[derive(Clone, Copy)]
pub(crate) enum BoxFill {
    /// White.
    White,
    /// The grey of a value that is partly unknown.
    Grey,
    /// Black.
    Black,
    /// Hatched, with lines around it, for an unknown level.
    Hatched,
}

/// The id of the pattern with which boxes are hatched.
pub(crate) const HATCHING_ID: &str = "unknown";

/// A box, in quarters of a millimetre.
#[derive(Clone, Copy)]
pub(crate) struct Rectangle {
    /// Its upper left corner.
    pub corner: Point,
    /// Its width.
    pub width: u64,
    /// Its height.
    pub height: u64,
}

/// Adds an element and an end of line.
pub(crate) fn push_element_line(
    markup: &mut Markup,
    alloc: Global,
    tag: Tag,
    attributes: &Attributes,
    inner: &Markup,
) -> Result<(), AllocError> {
    markup.push_element(alloc, tag, attributes, inner)?;
    markup.push_end_of_line()
}

/// Adds a text at a point.
pub(crate) fn push_text_at(
    markup: &mut Markup,
    alloc: Global,
    at: Point,
    style: TextStyle,
    text: &[u8],
) -> Result<(), AllocError> {
    let mut attributes = Attributes::new(alloc);
    attributes.push_number(alloc, Attribute::X, at.x)?;
    attributes.push_number(alloc, Attribute::Y, at.y)?;
    match style {
        TextStyle::Plain => {}
        TextStyle::Bold => attributes.push(alloc, Attribute::FontWeight, b"bold")?,
        TextStyle::Middle => attributes.push(alloc, Attribute::TextAnchor, b"middle")?,
        TextStyle::Inverse => {
            attributes.push(alloc, Attribute::TextAnchor, b"middle")?;
            attributes.push(alloc, Attribute::FontWeight, b"bold")?;
            attributes.push(alloc, Attribute::Fill, b"#fff")?;
        }
    }
    let mut inner = Markup::new(alloc);
    inner.push_characters(alloc, text)?;
    push_element_line(markup, alloc, Tag::Text, &attributes, &inner)
}

/// Adds a number, centred on a point.
pub(crate) fn push_number(
    markup: &mut Markup,
    alloc: Global,
    at: Point,
    number: u64,
) -> Result<(), AllocError> {
    let mut digits = Text::new(alloc);
    digits.push_decimal(alloc, number)?;
    push_text_at(markup, alloc, at, TextStyle::Middle, digits.as_bytes())
}

/// Adds a path through these points, if there are any.
pub(crate) fn push_path(
    markup: &mut Markup,
    alloc: Global,
    kind: PathKind,
    points: &[u8],
) -> Result<(), AllocError> {
    if points.is_empty() {
        return Ok(());
    }
    let look = style_of(kind);
    let mut attributes = Attributes::new(alloc);
    attributes.push(alloc, Attribute::D, points)?;
    attributes.push(alloc, Attribute::Fill, look.fill.as_bytes())?;
    attributes.push(alloc, Attribute::Stroke, look.stroke.as_bytes())?;
    attributes.push(alloc, Attribute::StrokeWidth, look.width.as_bytes())?;
    if !look.dashes.is_empty() {
        attributes.push(alloc, Attribute::StrokeDasharray, look.dashes.as_bytes())?;
    }
    push_element_line(markup, alloc, Tag::Path, &attributes, &Markup::new(alloc))
}

/// Adds a box.
pub(crate) fn push_box(
    markup: &mut Markup,
    alloc: Global,
    kind: BoxFill,
    area: Rectangle,
) -> Result<(), AllocError> {
    let mut attributes = Attributes::new(alloc);
    attributes.push_number(alloc, Attribute::X, area.corner.x)?;
    attributes.push_number(alloc, Attribute::Y, area.corner.y)?;
    attributes.push_number(alloc, Attribute::Width, area.width)?;
    attributes.push_number(alloc, Attribute::Height, area.height)?;
    match kind {
        BoxFill::White => attributes.push(alloc, Attribute::Fill, b"#fff")?,
        BoxFill::Grey => attributes.push(alloc, Attribute::Fill, b"#ddd")?,
        BoxFill::Black => attributes.push(alloc, Attribute::Fill, b"#000")?,
        BoxFill::Hatched => {
            let mut fill = Text::new(alloc);
            fill.push(b"url(#")?;
            fill.push(HATCHING_ID.as_bytes())?;
            fill.push(b")")?;
            attributes.push(alloc, Attribute::Fill, fill.as_bytes())?;
            attributes.push(alloc, Attribute::Stroke, b"#000")?;
            attributes.push(alloc, Attribute::StrokeWidth, b"0.5")?;
        }
    }
    push_element_line(markup, alloc, Tag::Rect, &attributes, &Markup::new(alloc))
}

/// Appends a command of a path and its point: `M` moves to the point, and `L` draws a line to it.
pub(crate) fn push_point(
    points: &mut Text,
    alloc: Global,
    what: &[u8],
    to: Point,
) -> Result<(), AllocError> {
    points.push(what)?;
    points.push_decimal(alloc, to.x)?;
    points.push(b" ")?;
    points.push_decimal(alloc, to.y)
}

/// Appends a command of a path that draws a vertical line to height `to` (`V`), or a horizontal one to `to` (`H`).
pub(crate) fn push_axis_line(
    points: &mut Text,
    alloc: Global,
    what: &[u8],
    to: u64,
) -> Result<(), AllocError> {
    points.push(what)?;
    points.push_decimal(alloc, to)
}

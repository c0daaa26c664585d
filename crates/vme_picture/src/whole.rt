//! The whole picture: an SVG file. Its lengths are in quarters of a millimetre.

ghost use Rattle.std.specs.Prelude.{◌≡◌, IfOk, nat_eq};
ghost use Rattle.std.specs.List.{starts_with};
ghost use Rattle.vme_picture.specs.Pictures.{IsPicture, picture_first_line};
ghost use Rattle.vme_text.specs.Escaping.{IsVisible};

use crate::axis::{push_axis, push_events};
use crate::buses::push_buses;
use crate::drawing::{
    BoxFill, HATCHING_ID, Point, Rectangle, TextStyle, push_box, push_element_line, push_text_at,
};
use crate::layout::{LINE, Layout, MARGIN, WIDTH};
use crate::markup::{Attribute, Attributes, Markup, Tag, element_text};
use crate::paragraphs::{line_count, paragraphs, push_paragraphs};
use crate::waves::push_waves;
use std::alloc::{AllocError, Global};
use vme_explain::{Subject, break_of, excerpt_of, others_of};
use vme_text::Text;

/// The first line of a picture, a comment.
fn comment_line() -> &'static [u8]
    ensures { result.now ≡ picture_first_line }
{
    b"<!-- written by vmecheck explain -->\n"
}

/// Whether a file that begins with the bytes `begin` has the first line of a picture of this program.
pub fn is_picture(begin: &[u8]) -> bool
    ensures { result ≡ starts_with nat_eq begin.now picture_first_line }
{
    begin.starts_with(comment_line())
}

/// The picture of an explanation, as the text of an SVG file: the levels around the break, or at the end of the
/// recording if there is no break. Its title is the first line of `title`. It fails if memory runs out.
pub fn picture(alloc: Global, subject: &Subject<'_>, title: &[u8]) -> Result<Text, AllocError>
    ensures whole { IfOk result IsPicture }
    ensures visible { IfOk result (λ text. IsVisible text) }
{
    let parts = parts_of(alloc, subject, first_line(title))?;
    let whole = element_text(
        alloc,
        Tag::Svg,
        parts.attributes.as_bytes(),
        parts.inner.as_bytes(),
    )?;
    let mut text = Text::new(alloc);
    text.push(comment_line())?;
    text.push(whole.as_bytes())?;
    text.push(b"\n")?;
    Ok(text)
}

/// The first line of a text, without its line feed.
fn first_line(text: &[u8]) -> &[u8] {
    match text.iter().position(|byte| *byte == b'\n') {
        Some(end) => &text[..end],
        None => text,
    }
}

/// The attributes and the content of the element `svg` of a picture.
#[derive(Drop)]
struct Parts {
    attributes: Attributes,
    inner: Markup,
}

/// The element `svg` of a picture with the title `title`.
fn parts_of(alloc: Global, subject: &Subject<'_>, title: &[u8]) -> Result<Parts, AllocError> {
    let found = break_of(subject.verdict);
    let excerpt = excerpt_of(alloc, subject)?;
    let other_events = match found {
        Some(found) => others_of(alloc, subject, found)?,
        None => Vec::new(alloc),
    };
    let break_index = match found {
        Some(found) => Some(found.instant.saturating_sub(excerpt.first)),
        None => None,
    };
    let layout = Layout::of(alloc, subject, &excerpt, break_index)?;
    let text = paragraphs(alloc, subject, found, other_events.as_slice())?;
    let text_top = layout.bottom().saturating_add(8);
    let height = height_of(text_top, line_count(text.as_bytes()));
    let mut inner = Markup::new(alloc);
    inner.push_end_of_line()?;
    push_head(&mut inner, alloc, title, height)?;
    push_axis(&mut inner, alloc, subject, &layout)?;
    push_events(&mut inner, alloc, found, other_events.as_slice(), &layout)?;
    let broken_line = match found {
        Some(found) => Some(found.line),
        None => None,
    };
    push_waves(&mut inner, alloc, &excerpt, broken_line, &layout)?;
    push_buses(&mut inner, alloc, &excerpt, &layout)?;
    push_paragraphs(&mut inner, alloc, text.as_bytes(), text_top)?;
    Ok(Parts {
        attributes: svg_attributes(alloc, height)?,
        inner,
    })
}

/// The height of a picture whose text begins at the height `text_top`, counted from the top, and has `lines` lines. It
/// is rounded up to whole millimetres.
fn height_of(text_top: u64, lines: usize) -> u64 {
    let end = text_top
        .saturating_add(LINE.saturating_mul(lines as u64))
        .saturating_add(MARGIN);
    (end.saturating_add(3) / 4).saturating_mul(4)
}

/// The attributes of the element `svg` of a picture of the height `height`.
fn svg_attributes(alloc: Global, height: u64) -> Result<Attributes, AllocError> {
    let mut attributes = Attributes::new(alloc);
    attributes.push(alloc, Attribute::Xmlns, b"http://www.w3.org/2000/svg")?;
    attributes.push(
        alloc,
        Attribute::Width,
        millimetres(alloc, WIDTH)?.as_bytes(),
    )?;
    attributes.push(
        alloc,
        Attribute::Height,
        millimetres(alloc, height)?.as_bytes(),
    )?;
    let mut view = Text::new(alloc);
    view.push(b"0 0 ")?;
    view.push_decimal(alloc, WIDTH)?;
    view.push(b" ")?;
    view.push_decimal(alloc, height)?;
    attributes.push(alloc, Attribute::ViewBox, view.as_bytes())?;
    attributes.push(
        alloc,
        Attribute::FontFamily,
        b"'DejaVu Sans Mono', Menlo, Consolas, 'Courier New', monospace",
    )?;
    attributes.push(alloc, Attribute::FontSize, b"10")?;
    Ok(attributes)
}

/// The length of `units` quarters of a millimetre, a multiple of 4, as text in millimetres.
fn millimetres(alloc: Global, units: u64) -> Result<Text, AllocError> {
    let mut text = Text::new(alloc);
    text.push_decimal(alloc, units / 4)?;
    text.push(b"mm")?;
    Ok(text)
}

/// Adds the title as an element, the hatching pattern, the white background, and the title as a text.
fn push_head(
    markup: &mut Markup,
    alloc: Global,
    title: &[u8],
    height: u64,
) -> Result<(), AllocError> {
    let mut characters = Markup::new(alloc);
    characters.push_characters(alloc, title)?;
    push_element_line(
        markup,
        alloc,
        Tag::Title,
        &Attributes::new(alloc),
        &characters,
    )?;
    push_hatching(markup, alloc)?;
    let page = Rectangle {
        corner: Point { x: 0, y: 0 },
        width: WIDTH,
        height,
    };
    push_box(markup, alloc, BoxFill::White, page)?;
    let at = Point {
        x: MARGIN,
        y: MARGIN + 10,
    };
    push_text_at(markup, alloc, at, TextStyle::Bold, title)
}

/// Adds the pattern with which the boxes of unknown levels are hatched.
fn push_hatching(markup: &mut Markup, alloc: Global) -> Result<(), AllocError> {
    let mut stroke = Attributes::new(alloc);
    stroke.push(alloc, Attribute::D, b"M0 4L4 0")?;
    stroke.push(alloc, Attribute::Stroke, b"#000")?;
    stroke.push(alloc, Attribute::StrokeWidth, b"0.6")?;
    let mut strokes = Markup::new(alloc);
    strokes.push_element(alloc, Tag::Path, &stroke, &Markup::new(alloc))?;
    let mut attributes = Attributes::new(alloc);
    attributes.push(alloc, Attribute::Id, HATCHING_ID.as_bytes())?;
    attributes.push_number(alloc, Attribute::Width, 4)?;
    attributes.push_number(alloc, Attribute::Height, 4)?;
    attributes.push(alloc, Attribute::PatternUnits, b"userSpaceOnUse")?;
    let mut pattern = Markup::new(alloc);
    pattern.push_element(alloc, Tag::Pattern, &attributes, &strokes)?;
    push_element_line(markup, alloc, Tag::Defs, &Attributes::new(alloc), &pattern)
}

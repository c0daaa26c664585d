//! The text below a picture: the rule, what is open, the line, and the other events.

use crate::axis::letter;
use crate::drawing::{Point, TextStyle, push_text_at};
use crate::layout::{CHARACTER, LINE, MARGIN};
use crate::markup::Markup;
use std::alloc::{AllocError, Global};
use vme_explain::{OtherEvent, Subject, push_line_value, push_open, wrapped};
use vme_rules::Guide;
use vme_text::Text;
use vme_trace::Break;

/// The text below a picture, in lines that fit it.
pub(crate) fn paragraphs(
    alloc: Global,
    subject: &Subject<'_>,
    found: Option<&Break>,
    others: &[OtherEvent],
) -> Result<Text, AllocError> {
    let mut text = Text::new(alloc);
    if let Some(found) = found {
        text.push(found.rule.name().as_bytes())?;
        text.push(b": ")?;
        text.push(Guide::of(found.rule).sentence.as_bytes())?;
        text.push(b"\n")?;
    }
    push_open(&mut text, alloc, subject)?;
    if let Some(found) = found {
        push_line_value(&mut text, alloc, subject, found)?;
    }
    for (place, other) in others.iter().enumerate() {
        if other.instant.is_some() {
            text.push(&[letter(place)])?;
            text.push(b": ")?;
        }
        text.push(other.text.as_bytes())?;
        text.push(b"\n")?;
    }
    wrapped(alloc, text.as_bytes())
}

/// The number of lines of a text.
pub(crate) fn line_count(text: &[u8]) -> usize {
    text.iter().filter(|byte| **byte == b'\n').count()
}

/// Adds the lines of a text below height `from`.
pub(crate) fn push_paragraphs(
    markup: &mut Markup,
    alloc: Global,
    text: &[u8],
    from: u64,
) -> Result<(), AllocError> {
    let mut y = from;
    for line in text.split(|byte| *byte == b'\n') {
        y = y.saturating_add(LINE);
        if let Some(set_in) = line.iter().position(|byte| *byte != b' ') {
            let at = Point {
                x: MARGIN.saturating_add(CHARACTER.saturating_mul(set_in as u64)),
                y,
            };
            push_text_at(markup, alloc, at, TextStyle::Plain, &line[set_in..])?;
        }
    }
    Ok(())
}

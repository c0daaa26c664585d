//! Well-nested elements, attributes and characters.

ghost use Rattle.std.specs.Prelude.{◌≡◌, ◌++◌, ◌∷◌, [], IfOk, OnErr, OnOk, decimal};
ghost use Rattle.vme_picture.specs.Markup.{AreAttributes, IsMarkup, attribute_name, attribute_text, element_text};
ghost use Rattle.vme_picture.specs.Markup.{escaped, tag_name};

use crate::escaped::escaped;
use std::alloc::{AllocError, Global};
use std::marker::Model;
use vme_text::Text;

/// An element of a picture.
#[derive(Clone, Copy, Debug, PartialEq, Eq)]
pub enum Tag {
    /// The whole picture.
    Svg,
    /// The title of the picture.
    Title,
    /// Definitions that other elements refer to.
    Defs,
    /// A pattern with which an area is filled.
    Pattern,
    /// Lines, or an area within lines.
    Path,
    /// A box.
    Rect,
    /// A text.
    Text,
}

impl Tag {
    /// The name of the element.
    pub fn name(self) -> &'static str
        ensures { result.now ≡ tag_name self }
    {
        match self {
            Tag::Svg => "svg",
            Tag::Title => "title",
            Tag::Defs => "defs",
            Tag::Pattern => "pattern",
            Tag::Path => "path",
            Tag::Rect => "rect",
            Tag::Text => "text",
        }
    }
}

/// An attribute of an element.
#[derive(Clone, Copy, Debug, PartialEq, Eq)]
pub enum Attribute {
    /// The namespace of the element.
    Xmlns,
    /// The name by which other elements refer to the element.
    Id,
    /// The distance from the left.
    X,
    /// The distance from the top.
    Y,
    /// The width.
    Width,
    /// The height.
    Height,
    /// The units of a picture.
    ViewBox,
    /// The units of a pattern.
    PatternUnits,
    /// The fonts, of which the first available one is used.
    FontFamily,
    /// The height of the characters.
    FontSize,
    /// The thickness of the characters.
    FontWeight,
    /// The part of a text that is at its point: its start, or its middle.
    TextAnchor,
    /// The points of a path.
    D,
    /// What an area is filled with.
    Fill,
    /// The colour of a line.
    Stroke,
    /// The thickness of a line.
    StrokeWidth,
    /// The dashes of a line.
    StrokeDasharray,
}

impl Attribute {
    /// The name of the attribute.
    pub fn name(self) -> &'static str
        ensures { result.now ≡ attribute_name self }
    {
        match self {
            Attribute::Xmlns => "xmlns",
            Attribute::Id => "id",
            Attribute::X => "x",
            Attribute::Y => "y",
            Attribute::Width => "width",
            Attribute::Height => "height",
            Attribute::ViewBox => "viewBox",
            Attribute::PatternUnits => "patternUnits",
            Attribute::FontFamily => "font-family",
            Attribute::FontSize => "font-size",
            Attribute::FontWeight => "font-weight",
            Attribute::TextAnchor => "text-anchor",
            Attribute::D => "d",
            Attribute::Fill => "fill",
            Attribute::Stroke => "stroke",
            Attribute::StrokeWidth => "stroke-width",
            Attribute::StrokeDasharray => "stroke-dasharray",
        }
    }
}

/// Attributes of an element, as their text.
#[derive(Drop)]
pub struct Attributes {
    text: Text,
}

impl Model for Attributes {
    ghost use Rattle.std.specs.Prelude.{ℕ, List};
    ghost use Rattle.vme_picture.specs.Markup.{AreAttributes};

    ghost Value = { List ℕ };

    ghost view = { λ a. a.text };

    ghost invariant = { λ a. AreAttributes a.text };
}

impl Attributes {
    /// No attributes.
    #[tactic(auto, using(crate::proofs::MarkupLemmas::are_attributes_empty))]
    pub fn new(alloc: Global) -> Attributes
        ensures { result ≡ [] }
    {
        Attributes {
            text: Text::new(alloc),
        }
    }

    /// The text of the attributes.
    pub fn as_bytes(&self) -> &[u8]
        ensures bytes { result.now ≡ self.now }
        ensures written { AreAttributes self.now }
    {
        self.text.as_bytes()
    }

    /// Adds an attribute with this value, whose bytes are escaped. An error leaves the attributes as they were.
    pub fn push(&mut self, alloc: Global, name: Attribute, value: &[u8]) -> Result<(), AllocError>
        ensures ok { OnOk result (self.new ≡ self.old ++ attribute_text (name, value.now)) }
        ensures err { OnErr result (self.new ≡ self.old) }
    {
        let written = attribute_text(alloc, name, value)?;
        self.text.push(written.as_bytes())?;
        Ok(())
    }

    /// Adds an attribute whose value is a number. An error leaves the attributes as they were.
    pub fn push_number(
        &mut self,
        alloc: Global,
        name: Attribute,
        number: u64,
    ) -> Result<(), AllocError>
        ensures ok { OnOk result (self.new ≡ self.old ++ attribute_text (name, decimal number)) }
        ensures err { OnErr result (self.new ≡ self.old) }
    {
        let digits = number.to_string(alloc)?;
        self.push(alloc, name, digits.as_bytes())
    }
}

/// The text of an attribute.
fn attribute_text(alloc: Global, name: Attribute, value: &[u8]) -> Result<Text, AllocError>
    ensures { IfOk result (λ text. text ≡ attribute_text (name, value.now)) }
{
    let shown = escaped(alloc, value)?;
    let mut text = Text::new(alloc);
    text.push(b" ")?;
    text.push(name.name().as_bytes())?;
    text.push(b"=\"")?;
    text.push(shown.as_bytes())?;
    text.push(b"\"")?;
    Ok(text)
}

/// Well-nested elements, characters and ends of lines, one after the other.
#[derive(Drop)]
pub struct Markup {
    text: Text,
}

impl Model for Markup {
    ghost use Rattle.std.specs.Prelude.{ℕ, List};
    ghost use Rattle.vme_picture.specs.Markup.{IsMarkup};

    ghost Value = { List ℕ };

    ghost view = { λ m. m.text };

    ghost invariant = { λ m. IsMarkup m.text };
}

impl Markup {
    /// Empty markup.
    #[tactic(auto, using(crate::proofs::MarkupLemmas::is_markup_empty))]
    pub fn new(alloc: Global) -> Markup
        ensures { result ≡ [] }
    {
        Markup {
            text: Text::new(alloc),
        }
    }

    /// The text of the markup.
    pub fn as_bytes(&self) -> &[u8]
        ensures bytes { result.now ≡ self.now }
        ensures nested { IsMarkup self.now }
    {
        self.text.as_bytes()
    }

    /// Adds some bytes as characters, escaped. An error leaves the markup as it was.
    pub fn push_characters(&mut self, alloc: Global, bytes: &[u8]) -> Result<(), AllocError>
        ensures ok { OnOk result (self.new ≡ self.old ++ escaped bytes.now) }
        ensures err { OnErr result (self.new ≡ self.old) }
    {
        let characters = escaped(alloc, bytes)?;
        self.text.push(characters.as_bytes())?;
        Ok(())
    }

    /// Adds the end of a line. An error leaves the markup as it was.
    pub fn push_end_of_line(&mut self) -> Result<(), AllocError>
        ensures ok { OnOk result (self.new ≡ self.old ++ 10 ∷ []) }
        ensures err { OnErr result (self.new ≡ self.old) }
    {
        self.text.push(b"\n")?;
        Ok(())
    }

    /// Adds an element with these attributes and the content `inner`. An error leaves the markup as it was.
    pub fn push_element(
        &mut self,
        alloc: Global,
        tag: Tag,
        attributes: &Attributes,
        inner: &Markup,
    ) -> Result<(), AllocError>
        ensures ok { OnOk result (self.new ≡ self.old ++ element_text tag attributes.now inner.now) }
        ensures err { OnErr result (self.new ≡ self.old) }
    {
        let element = element_text(alloc, tag, attributes.as_bytes(), inner.as_bytes())?;
        self.text.push(element.as_bytes())?;
        Ok(())
    }
}

/// The text of an element: the opening tag with its attributes, the content, and the closing tag.
pub(crate) fn element_text(
    alloc: Global,
    tag: Tag,
    attributes: &[u8],
    inner: &[u8],
) -> Result<Text, AllocError>
    ensures { IfOk result (λ text. text ≡ element_text tag attributes.now inner.now) }
{
    let mut text = Text::new(alloc);
    text.push(b"<")?;
    text.push(tag.name().as_bytes())?;
    text.push(attributes)?;
    text.push(b">")?;
    text.push(inner)?;
    text.push(b"</")?;
    text.push(tag.name().as_bytes())?;
    text.push(b">")?;
    Ok(text)
}

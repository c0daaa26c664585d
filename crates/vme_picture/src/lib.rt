//! The picture of an explanation: the levels around a break as waveforms, in one SVG file that
//! needs no other file. A *break* is a violation of a rule.
//!
//! # Parts
//!
//! - `whole`: [`picture`], the whole file, and [`is_picture`], which recognizes one by its first
//!   line.
//! - `markup`, `escaped`: [`Markup`], well-nested elements and characters; bytes as characters of
//!   markup.
//! - `layout`: the positions of the columns and the rows.
//! - `axis`, `waves`, `buses`, `paragraphs`: the instants with the break and the other events; lines
//!   by their levels; buses by their values; the text below.
//! - `drawing`: texts, paths and boxes.
//!
//! # What is proved
//!
//! - A picture is a comment by which the program recognizes its own files, and after it one element
//!   (`IsPicture`). It has only elements that are closed as they were opened, attributes and
//!   characters.
//! - Every name in it is escaped, in the characters and in the values of attributes: `<`, `>`, `&` and
//!   `"` are entities (`escaped_byte`). The whole has only visible characters, spaces and line feeds
//!   (`visible`).
//! - [`is_picture`] recognizes what [`picture`] writes.
//!
//! # What isn't proved
//!
//! How the picture looks, and that its waves are those of the recording. It draws the values of
//! vme_explain, whose contracts cover the levels. `tests/texts` compares pictures with kept ones,
//! and reads all of them by an XML reader.
//!
//! # Limits
//!
//! A picture is 160 mm wide. It has as many of the instants of an excerpt as fit, at least one.
//! Start reading at `specs/Markup`.
#![tactic(auto)]

mod axis;
mod buses;
mod drawing;
mod escaped;
mod layout;
mod markup;
mod paragraphs;
mod waves;
mod whole;

pub use markup::{Attribute, Attributes, Markup, Tag};
pub use whole::{is_picture, picture};

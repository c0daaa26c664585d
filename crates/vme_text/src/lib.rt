//! Text for people, made piece by piece.
//!
//! # Parts
//!
//! - `text`: a [`Text`] grows by bytes, decimal numbers and spaces.
//! - `escaping`: [`push_escaped`], names as they are shown to people; [`escaped_text`], whole texts.
//!
//! # What is proved
//!
//! A text grows by exactly what was pushed (`ok`), and every call leaves it as it was where memory
//! ran out (`err`). Bytes that aren't printable characters of ASCII are escaped as `\xHH` (`ok`
//! of `push_escaped`, `items`). `escaped_text` keeps line feeds; its result has printable characters
//! and line feeds alone (`visible`).
//!
//! # What isn't proved
//!
//! That memory suffices. Callers decide what a text says. Start reading at [`Text::push`].
#![tactic(auto)]

mod escaping;
mod text;

pub use escaping::{escaped_text, push_escaped};
pub use text::Text;

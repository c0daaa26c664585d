//! Lines of a text that fit a page.

use std::alloc::{AllocError, Global};
use vme_text::Text;

/// The greatest length of a line of a text for people, in bytes.
pub(crate) const LONGEST: usize = 100;

/// The text with each line longer than `LONGEST` continued on further lines, which are indented. A longer word stays
/// whole. It fails if memory runs out.
pub fn wrapped(alloc: Global, bytes: &[u8]) -> Result<Text, AllocError> {
    let mut text = Text::new(alloc);
    let mut is_first = true;
    for line in bytes.split(|byte| *byte == b'\n') {
        if !is_first {
            text.push(b"\n")?;
        }
        is_first = false;
        push_wrapped(&mut text, line)?;
    }
    Ok(text)
}

/// Appends a line, broken between words where it is too long.
fn push_wrapped(text: &mut Text, line: &[u8]) -> Result<(), AllocError> {
    if line.len() <= LONGEST {
        return text.push(line);
    }
    let mut used: usize = 0;
    let mut is_first = true;
    for word in line.split(|byte| *byte == b' ') {
        if !is_first && used.saturating_add(word.len()) >= LONGEST {
            text.push(b"\n    ")?;
            used = 4;
        } else if !is_first {
            text.push(b" ")?;
            used = used.saturating_add(1);
        }
        is_first = false;
        text.push(word)?;
        used = used.saturating_add(word.len());
    }
    Ok(())
}

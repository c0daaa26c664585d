//! The tokens and the lines in some bytes of a dump.

use vcd_read::is_space;

/// The index of the first byte of the last token of `bytes`, if they have one.
pub(crate) fn last_token(bytes: &[u8]) -> Option<usize> {
    let end = bytes.iter().rposition(|byte| !is_space(*byte))?;
    match bytes.get(..end)?.iter().rposition(|byte| is_space(*byte)) {
        Some(before) => Some(before.saturating_add(1)),
        None => Some(0),
    }
}

/// The token that begins at the index `at`, if one does, as far as `bytes` have it.
pub(crate) fn token_at(bytes: &[u8], at: usize) -> Option<&[u8]> {
    if let Some(before) = at.checked_sub(1) {
        if !is_space(*bytes.get(before)?) {
            return None;
        }
    }
    let rest = bytes.get(at..)?;
    match rest.iter().position(|byte| is_space(*byte)) {
        Some(end) => rest.get(..end),
        None => Some(rest),
    }
}

/// The index of the first byte of the line on which the index `at` lies.
pub(crate) fn line_start(bytes: &[u8], at: usize) -> usize {
    match bytes
        .get(..at)
        .unwrap_or(b"")
        .iter()
        .rposition(|byte| *byte == b'\n')
    {
        Some(feed) => feed.saturating_add(1),
        None => 0,
    }
}

/// `bytes` up to the first line feed, and whether there is one.
pub(crate) fn up_to_line_feed(bytes: &[u8]) -> (&[u8], bool) {
    match bytes.iter().position(|byte| *byte == b'\n') {
        Some(feed) => (bytes.get(..feed).unwrap_or(b""), true),
        None => (bytes, false),
    }
}

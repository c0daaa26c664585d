//! What a command answers.

use crate::limited_sink::LimitedSink;

/// What a command is to write, to its output and to its error output, and its status.
pub type WantedAnswer<'a> = (&'a str, &'a str, u8);

/// Whether a command that wrote to `out` and `err`, and ended with `status`, answered `wanted`.
pub fn has_answered(
    out: &LimitedSink,
    err: &LimitedSink,
    status: u8,
    wanted: WantedAnswer<'_>,
) -> bool {
    let (text, message, wanted_status) = wanted;
    out.bytes.as_slice() == text.as_bytes()
        && err.bytes.as_slice() == message.as_bytes()
        && status == wanted_status
}

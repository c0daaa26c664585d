//! Why no part of a file is made.

use vme_stream::Refusal;

/// Why no part of a file is made.
#[derive(Clone, Copy, Debug)]
pub(crate) enum NoPart {
    /// An input is refused, or memory runs out.
    Refused(Refusal),
    /// The part would be out of the range of parts.
    OutOfRange,
}

//! Which board drives a net of a daisy chain.

ghost use Rattle.std.specs.Prelude.{◌≡◌};
ghost use Rattle.vme_explain.specs.Drivers.{driver_of};

use std::alloc::{AllocError, Global};
use vme_text::Text;
use vme_trace::Line;

/// Who drives a net of a daisy chain.
#[derive(Clone, Copy, Debug, PartialEq, Eq)]
pub enum Driver {
    /// The arbiter.
    Arbiter,
    /// The board in this slot.
    Slot(u8),
}

/// Who drives a line, if it is a net of a daisy chain. Net 0 of a grant chain is the arbiter's, net k of a chain slot
/// k's.
pub fn driver_of(line: Line) -> Option<Driver>
    ensures { result ≡ driver_of line }
{
    match line.grant_place() {
        Some((_, 0)) => Some(Driver::Arbiter),
        Some((_, place)) => Some(Driver::Slot(place)),
        None if line.is_acknowledge() => Some(Driver::Slot(
            line.number()
                .saturating_sub(Line::iack(1).number())
                .saturating_add(1),
        )),
        None => None,
    }
}

/// Appends the name of a line, and if it is a net, its driver. It fails if memory runs out, and then nothing is said of
/// the text.
pub fn push_label(text: &mut Text, alloc: Global, line: Line) -> Result<(), AllocError> {
    text.push(line.name().as_bytes())?;
    match driver_of(line) {
        Some(Driver::Arbiter) => text.push(b" arbiter"),
        Some(Driver::Slot(slot)) => {
            text.push(b" slot ")?;
            text.push_decimal(alloc, u64::from(slot))
        }
        None => Ok(()),
    }
}

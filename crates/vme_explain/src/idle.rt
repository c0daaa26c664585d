//! Which lines an idle bus depends on.

use vme_trace::{Line, Lines};

/// The line of number `number`, if it is a control line of the backplane.
pub(crate) fn control_line(lines: &Lines, number: u8) -> Option<Line> {
    let line = Line::from_number(number)?;
    if lines.is_control(line) {
        Some(line)
    } else {
        None
    }
}

//! Whether the levels before pieces can be assumed.

use std::cell::Cell;

/// Whether the levels before the last pieces were assumed wrongly. If so, a first pass over the next pieces reads what
/// they do to the lines. Only the time that reading takes depends on it, no answer.
#[derive(Drop)]
pub struct Speculation {
    wrong: Cell<bool>,
}

impl Speculation {
    /// No assumption was wrong so far.
    pub fn new() -> Speculation {
        Speculation {
            wrong: Cell::new(false),
        }
    }

    /// Whether the last assumption was wrong.
    pub(crate) fn is_wrong(&self) -> bool {
        self.wrong.get()
    }

    /// Notes whether an assumption was wrong.
    pub(crate) fn note(&self, wrong: bool) {
        self.wrong.set(wrong);
    }
}

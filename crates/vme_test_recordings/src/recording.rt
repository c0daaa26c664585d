//! Recordings from texts.

use crate::notation::{changes_of, push_steps};
use std::alloc::Global;
use vme_trace::{Capture, Lines};

/// A recording, or how one begins, in the notation of this crate.
#[derive(Clone, Copy)]
pub struct Recording {
    /// How many slots its backplane has.
    pub slots: u8,
    /// The levels at its opening.
    pub opening: &'static str,
    /// Its steps.
    pub steps: &'static str,
}

/// The levels at the opening `text` of a backplane with `slots` slots.
pub fn opening_of(alloc: Global, slots: u8, text: &str) -> Option<Lines> {
    let mut opening = Lines::new(slots)?;
    for change in changes_of(alloc, &opening, text)? {
        if opening.has(change.line) {
            opening.set(change.line, change.level);
        }
    }
    Some(opening)
}

/// The recording that begins as `recording`, and continues with the steps that `more` denotes.
pub fn capture_of(alloc: Global, recording: Recording, more: &str) -> Option<Capture> {
    let opening = opening_of(alloc, recording.slots, recording.opening)?;
    let mut steps = Vec::new(alloc);
    push_steps(alloc, &mut steps, &opening, recording.steps)?;
    push_steps(alloc, &mut steps, &opening, more)?;
    Capture::new(opening, steps).ok()
}

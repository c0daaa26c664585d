//! Where judging starts and ends, as the steps come.

use vme_monitor::mark::StepMarks;

/// The last tenure that a grant began.
#[derive(Clone, Copy, Debug, PartialEq, Eq)]
pub struct StartedTenure {
    /// Its start.
    pub start: u32,
    /// The level of the grant, 0 to 3.
    pub level: u8,
    /// The slot that took it, 1 to 21.
    pub slot: u8,
}

/// Where judging starts and ends, and the last tenure.
#[derive(Clone, Copy, Debug, PartialEq, Eq)]
pub(crate) struct Stretches {
    /// The instant at which judging starts first.
    pub first_start: Option<u32>,
    /// The instant of the last reset that ended judging.
    pub last_reset: Option<u32>,
    /// The last reset, unless judging started again after it.
    pub ended: Option<u32>,
    /// The last tenure, if there is one.
    pub tenure: Option<StartedTenure>,
}

impl Stretches {
    /// The state before the first step. `has_started` is whether judging starts at the opening.
    pub fn at_opening(has_started: bool) -> Stretches {
        Stretches {
            first_start: if has_started { Some(0) } else { None },
            last_reset: None,
            ended: None,
            tenure: None,
        }
    }

    /// Takes a step's marks of the stretch and of the tenure.
    pub fn note_stretch(&mut self, instant: u32, stretch: &StepMarks, tenure: &StepMarks) {
        if stretch.reset {
            self.last_reset = Some(instant);
            self.ended = Some(instant);
        }
        if stretch.start {
            self.ended = None;
            if self.first_start.is_none() {
                self.first_start = Some(instant);
            }
        }
        if let Some(grant) = tenure.tenure {
            self.tenure = Some(StartedTenure {
                start: instant,
                level: grant.level,
                slot: grant.slot,
            });
        }
    }
}

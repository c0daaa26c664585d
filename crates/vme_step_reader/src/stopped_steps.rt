//! Where the steps of a dump end early.

use vcd_read::VcdFault;
use vme_trace::Step;

/// Where the steps of a dump end early.
#[derive(Drop)]
pub struct StoppedSteps {
    /// The first fault of the body.
    pub fault: VcdFault,
    /// The last time before the fault, in the unit of the dump's `$timescale`, or 0 if there is none. If memory ran
    /// out, nothing is said of it.
    pub time: u64,
    /// The steps before the fault that weren't returned yet. If memory ran out, nothing is said of them.
    pub steps: Vec<Step>,
}

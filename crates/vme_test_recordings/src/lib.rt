//! Recordings that tests write as texts. Crates of tests use it, and no others.
//!
//! # The notation
//!
//! Steps are separated by semicolons, as in `BR3=0;BG3.0=0;BBSY=0 BR3=1`. The first is at time 0,
//! and the others follow ten units apart. A step is words with spaces between them. Each word says
//! which lines change to which level:
//!
//! - `BR3=0`: this line to Low; `BR3=1` to High, and `BR3=x` to Unknown.
//! - `high`: each line of the backplane to High.
//! - `high_but_A24_to_A31`: each line but A24 to A31 to High.
//! - `high_but_A24_to_A31_D00_to_D31`: each line but A24 to A31 and D00 to D31 to High.
//! - `high_but_A24_to_A31_D16_to_D31`: each line but A24 to A31 and D16 to D31 to High.
//! - `high_but_SYSRESET`: each line but SYSRESET to High.
//!
//! Where nothing stands between semicolons there is no step. An opening is such words too, of which
//! a later one may change a line again: at `high BBSY=0` each line is High, but BBSY is Low. A line
//! of which no word speaks is Unknown at the opening.
//!
//! # Parts
//!
//! - `bus`: [`BUS_BINDING`], a binding of six lines to variables; [`BUS_DEFINITIONS`], the
//!   definitions of a dump with these, and [`bus_dump`], the dump with these and a body;
//!   [`READ_DUMP`], such a dump, and [`READ_LISTING`], its listing.
//! - `notation`: [`step_of`], the step that words denote; [`push_steps`], the steps of a text.
//! - `recording`: [`Recording`], a recording as texts; [`opening_of`], the levels at an opening;
//!   [`capture_of`], the recording itself.
//! - `reset`: [`reset_binding`], [`reset_dump`], a dump of a read that a reset ends, and
//!   [`RESET_LISTING`], its listing.
//! - `skewed`: [`EARLY_ANSWER`], a dump's body in which a strobe is recorded after its answer, and
//!   its listings by skews, from [`BROKEN_LISTING`] with none to [`ONE_STEP_LISTING`].
//! - `starts`: how recordings of several crates of tests begin, as [`GRANTED`]; [`READ`], a read, and
//!   [`GRANTED_READ_LISTING`], the listing of both; and [`DUMPED_READ`], a read after [`DUMPED`].
//! - `written`: [`write_steps`], steps with their times, a line for each.
//!
//! # What is proved
//!
//! That each call returns, on any texts and steps.
//!
//! # What isn't proved
//!
//! Which steps and levels a text denotes: no call has a contract. The crates of tests know what
//! comes of their recordings, and a test of vme_summary_tests refuses each edit of `must-fail`.
//!
//! # Limits
//!
//! A call that reads a text answers `None` where that isn't in the notation, and where memory runs
//! out. Only [`capture_of`] looks at whether steps are well formed.
#![tactic(auto)]

mod bus;
mod notation;
mod recording;
mod reset;
mod skewed;
mod starts;
mod written;

pub use bus::{BUS_BINDING, BUS_DEFINITIONS, READ_DUMP, READ_LISTING, bus_dump};
pub use notation::{push_steps, step_of};
pub use recording::{Recording, capture_of, opening_of};
pub use reset::{RESET_LISTING, reset_binding, reset_dump};
pub use skewed::{BROKEN_LISTING, EARLY_ANSWER, LATE_LISTING, ONE_STEP_LISTING, SETTLED_LISTING};
pub use starts::{
    DUMPED, DUMPED_READ, GRANTED, GRANTED_FROM_IDLE, GRANTED_READ_LISTING, PASSED_ON, READ,
};
pub use written::write_steps;

//! What a listing says, in a viewer's waveform and with times: the dump with added variables, which
//! show the tenures, cycles and transfers, and the verdict; and the listing with the times of its
//! instants.
//!
//! # Parts
//!
//! - `annotating`: [`annotate`] writes a dump, annotated with the listing of its recording.
//! - `listing_times`: [`list_times`] writes that listing, with the times of its instants.
//! - `listed`, `step_times`: the listing of a recording, and the times of its steps.
//! - `shown`, `changes`: the texts that the variables show; when they change, by the rows.
//! - `added`: the codes and the scope of the variables, which the dump doesn't have.
//! - `inserting`: writes the dump with what is inserted into it.
//! - `timed_rows`, `short_text`, `output_buffer`: the lines of rows with times; texts that take no
//!   memory; a buffer of bytes before they are written.
//!
//! # What is proved
//!
//! - [`annotate`] writes exactly the dump with its declarations and changes, at the places of the
//!   times (`exact`, `IsAnnotated`), or the first fault as `list` has it.
//! - [`list_times`] writes exactly the rows of `list`, with their times (`exact`).
//!
//! # What isn't proved
//!
//! That memory suffices: the dump is kept, with eight bytes for each of its steps, the marks and
//! rows of its listing (a mark is an event of the bus with its instant), and sixteen to twenty-four
//! bytes for each change that is inserted. What a viewer shows of the variables.
//!
//! # In which order to read
//!
//! docs/FORMATS.md and vme_annotation; `specs/TimedRows`; then `annotating` and `inserting`.
#![tactic(auto)]

mod added;
mod annotating;
mod changes;
mod inserting;
mod listed;
mod listing_times;
mod output_buffer;
mod short_text;
mod shown;
mod step_times;
mod timed_rows;

pub use annotating::annotate;
pub use listing_times::list_times;

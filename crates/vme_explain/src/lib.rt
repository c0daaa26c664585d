//! Why a recording is judged as it is, as a text for people, and a save file for the waveform
//! viewer GTKWave.
//!
//! The recording itself isn't needed: its `Account`, of vme_account, has what is explained. A
//! *break* is a violation of a rule.
//!
//! # Parts
//!
//! - `page`: [`explanation`], the text after the line of a verdict.
//! - `broken`: the text on a break, and on the other events that its rule refers to.
//! - `summary`, `idle`: the text on a recording without a break; the lines that an idle bus needs.
//! - `window`, `shown`, `values`, `level_characters`: the excerpt around an instant, the lines that
//!   it shows, several lines as one value, and levels as characters.
//! - `driver`, `scale`: which board drives a net of a chain; the heading of a dump's times.
//! - `sources`, `wrapping`: what lines are bound to; lines that fit a page.
//! - `viewer`, `saving`: the save file, and whether it may replace a file.
//!
//! # What is proved
//!
//! [`line_characters`] gives the characters of levels. [`driver_of`] is the driver of a net.
//! [`save_refusal`] refuses to write over an input and over what this program didn't write, and
//! [`save_refusal_text`] is exactly the line that says so. [`is_save_file`] recognizes what
//! [`save_file`] writes. An [`explanation`] has only visible characters, spaces and line feeds,
//! whatever the names are. The counts, the open rows, the levels and the other events in it are those
//! of the account, and vme_account proves those.
//!
//! # What isn't proved
//!
//! How an explanation is arranged and what it says: `tests/texts` compares it with the kept text of
//! each example. What GTKWave makes of a save file.
//!
//! # Limits
//!
//! An excerpt shows 8 instants before a break and 3 after it, as many of them as fit. Start reading
//! at `page`.
#![tactic(auto)]

mod broken;
mod driver;
mod idle;
mod level_characters;
mod page;
mod saving;
mod scale;
mod shown;
mod sources;
mod summary;
mod values;
mod viewer;
mod window;
mod wrapping;

pub use broken::{OtherEvent, others_of};
pub use driver::{Driver, driver_of, push_label};
pub use level_characters::line_characters;
pub use page::{Subject, explanation, push_line_value, push_open, shown_time};
pub use saving::{FileId, PathEntry, SaveRefusal, is_one_file, save_refusal, save_refusal_text};
pub use scale::time_name;
pub use values::{MOST_DIGITS, ValueRow};
pub use viewer::{is_save_file, save_file};
pub use window::{Excerpt, break_of, excerpt_of};
pub use wrapping::wrapped;

//! What the program's commands do, over any sources and sinks: the program opens the files and
//! streams, and no more.
//!
//! # Parts
//!
//! - `check`, `list`: [`check::check`] judges a recording and [`list::list`] lists it, by
//!   [`Workers`]. A listing is compared with that of a recording by vme_confirm_command. The commands
//!   that write texts for people, as `explain`, are vme_text_commands'.
//! - `judged_recording`: the recording that both judge, as it is read: by `judged_dump` and
//!   `workers`, which say in which pieces and by how many; or by `judged_settled`, deskewed, in
//!   order ([`settled_visitor`] also ends the recording of `explain`). `settled`: a recording that
//!   is deskewed by 0 is itself ([`unsettled`]).
//! - `allowance`, `words`, `built_in`: which breaks the arguments of an audit allow; how a call
//!   without an order ends; what is used without arguments. The audit is vme_audit_command's.
//!
//! # What is proved
//!
//! - `check` and `list`: where the inputs are read whole, no write fails and memory suffices,
//!   exactly the defined line or text is written, with its status, or exactly the first fault
//!   (`exact`). The rows that `list` writes split the judged edges (`split`). In every case `answer`
//!   says what is written, and `unwritten` when the status is 5.
//! - No answer depends on the size of a piece or the number of workers, nor on the size of a block,
//!   except that a recording may fill too many.
//! - [`words_status`]: 3 for invalid arguments; help and version 0, or 5 where they weren't written.
//! - [`allowance_of`] reads each allowance from its text, and nothing else from any text.
//!
//! # What isn't proved
//!
//! That workers overlap; that memory suffices (status 4).
//!
//! # Limits
//!
//! Blocks of 1 to 65,536 steps, at most 4,096 of them; at most 268,435,456 steps and as many bytes
//! of an input; 1 to 64 workers. With a skew above 0 one worker deskews and judges.
//!
//! # In which order to read
//!
//! `check`, `settled`, `judged_recording`, `judged_dump`; then `list`.
#![tactic(auto)]

mod allowance;
mod built_in;
pub mod check;
mod judged_dump;
mod judged_recording;
mod judged_settled;
pub mod list;
mod settled;
mod words;
mod workers;

pub use allowance::{allowance_of, allowances_of};
pub use built_in::{BLOCK, BUILT_IN, READS_TERMINAL};
pub use judged_settled::settled_visitor;
pub use settled::unsettled;
pub use words::{unread_words, words_status};
pub use workers::Workers;

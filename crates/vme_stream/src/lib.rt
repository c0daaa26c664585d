//! What a command reads and what it answers: reading a source to its end, writing all of some
//! bytes, and lines of text that take no memory. A binding and a dump make a recording, or there is
//! a reason that there is none. The verdict on it has a line and an exit status, and its listing an
//! exit status by the last row.
//!
//! # Parts
//!
//! - `input`: [`read_all`] reads a source to its end.
//! - `byte_consumer`: [`read_by`] gives the bytes to a consumer as they come.
//! - `output`: [`write_all`] writes until all is taken or a write fails, and [`say`] ignores that.
//!   [`write_answer`] writes what a command answers, and [`tell_refusal`] why it has no answer.
//!   These two give the status.
//! - `io`: [`Io`] makes a source or a sink of std's readers and writers; [`Bytes`] is a source of a
//!   slice.
//! - `message`: a line of text that takes no memory.
//! - `count`: counts that only proofs read.
//! - `recording`: [`capture_from`] reads a binding and a dump and makes their recording; parts of
//!   it for callers that have one of the two.
//! - `refusal`: [`Refusal`] is the first reason that there is no recording, with its status.
//! - `verdict`: [`verdict_on`], and [`tell_verdict`], which writes the verdict's line.
//! - `listing`: [`listing_status`], the exit status of a listing.
//! - `text`: the lines.
//!
//! # What is proved
//!
//! - [`read_all`]: the bytes are those that the source gave (`bytes`). It answers that an input
//!   can't be read exactly where a read failed or too many reads gave bytes, and else that it is
//!   too long exactly where it is, or lack of memory (`IsReading`, `read`, `too_long`). The same
//!   holds of [`read_by`], and the consumer takes the bytes in order.
//! - [`write_all`] writes all of its `bytes`, or after a failure a prefix of them.
//! - [`Io`] exposes the bytes of its reader or writer, how many reads gave bytes and how many calls
//!   failed.
//! - [`capture_from`] gives exactly the recording that binding and dump make by the bytes of these
//!   inputs, or the first reason that there is none. [`verdict_on`] gives its verdict for every
//!   size of block from 1 to 65,536. The lines and statuses are exactly those of `specs/Texts`.
//!   [`tell_verdict`] writes just that line, or answers that it can't be written.
//! - [`listing_status`] is the exit status of a listing, that of its last row
//!   (`specs/ListingStatus`).
//!
//! # What isn't proved
//!
//! What a real file or pipe does: `./test` runs the program with full devices, closed outputs and
//! pipes that nobody reads. That memory suffices: lack of memory is a refusal of its own, with
//! status 4.
//!
//! # Limits
//!
//! An input has at most 268,435,456 bytes, and is read in fewer than 16,777,216 reads. A call that
//! a signal interrupts is tried at most 1,000,000 times. A message has at most 128 bytes. A
//! recording has the limits of vme_trace. Start reading at `specs/Inputs` and `specs/Outputs`;
//! `specs/Answers` says what is answered, and `specs/Ends` how a command ends.
#![tactic(auto)]

mod byte_consumer;
mod count;
mod input;
mod io;
mod listing;
mod message;
mod output;
mod recording;
mod refusal;
mod text;
mod verdict;

pub use byte_consumer::read_by;
pub use input::{InFault, read_all};
pub use io::{Bytes, Io};
pub use listing::listing_status;
pub use message::Message;
pub use output::{complain, say, tell_refusal, write_all, write_answer};
pub use recording::{binding_from, binding_in, capture_from, recorded_from, recorded_in};
pub use refusal::{Input, Refusal};
pub use text::{cannot_write_line, refusal_line, verdict_line, verdict_status};
pub use verdict::{tell_verdict, verdict_on};

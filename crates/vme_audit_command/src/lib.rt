//! The command `audit`: all breaks of dumps of any length, each reported as soon as it is complete,
//! the coverage, and the outcome of each dump's audit. A *break* is a violation of a rule.
//!
//! # Parts
//!
//! - `command`: [`audit`] reads a binding and audits dumps by it, one after the other.
//! - `dump_audit`: one dump: `definitions`, then `body`, then its last lines.
//! - `definitions`: reads up to the end of the definitions. It looks for the end only where they may
//!   have ended, so the time is proportional to the number of bytes.
//! - `body`: takes the steps that each piece completes, settles them if there is a skew (by
//!   vme_dump_input), audits them and reports their breaks (`written_lines`), before the next read.
//! - `dump_input`: the bytes that were read and not yet taken.
//! - `junit`: the same results as a JUnit file ([`TestSuite`], [`junit_file`]).
//!
//! # What is proved
//!
//! - [`audit`]: if the binding can't be read or is refused, its line and its status give the reason,
//!   and nothing is audited (`refused`).
//! - [`audit`] (`audited`, `specs/SeveralDumps`): standard output is exactly the texts that the
//!   definitions give for the dumps' bytes, whatever the sizes of the reads, one dump after the
//!   other: a line for each break with its category, the counts, the rules that are never asked, and
//!   the outcome (`specs/DumpAnswers`). With a skew the text is that of the settled recording, and
//!   before a fault that of the part that is settled by the last time before it
//!   (`specs/SettledReadings` of vme_dump_input). With `stop` the text is that of the recording as
//!   far as it is audited, and a later fault isn't reported. Standard error is exactly the lines with
//!   the reasons why dumps have no outcome, in the same order. The exit status is the first of 5, 4,
//!   3, 1, 2, 6 that occurred for any dump, or else 0. If a dump can't be read to its end, or memory
//!   runs out, a prefix of its text is written, and a line reports it. If a write fails, a prefix of
//!   all texts is written, and nothing is read of the dumps after.
//! - [`audit`]: a dump is reported as unreadable only if a read of it failed, or if 2^64 - 1 reads
//!   gave bytes. Unless memory runs out, it has an outcome, or is refused for a fault, only if no
//!   read failed (`specs/DumpReads`).
//! - No index is out of range, no sum wraps, and each call ends.
//!
//! # What isn't proved
//!
//! - Which breaks are reported before a read that fails. Tests try this, with reads of any length,
//!   and with readers and writers that fail anywhere.
//! - The JUnit file, which tests check. That memory suffices.
//!
//! # Limits
//!
//! A dump has at most 2^64 - 1 steps, and comes in at most as many reads. Memory grows only with the
//! definitions and with the longest token.
#![tactic(auto)]

mod body;
mod command;
mod definitions;
mod dump_audit;
mod dump_input;
mod junit;
mod written_lines;

pub use command::{AuditOptions, NamedDump, audit};
pub use junit::{TestSuite, junit_file};

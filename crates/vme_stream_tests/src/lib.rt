//! Tests of vme_stream: what is read and written, and what is answered.
//!
//! - `tests`: bytes that are read to their end and written whole, and readers and writers that
//!   fail. A text is read in pieces of several sizes, by a reader that is interrupted or fails after
//!   each byte, and written to sinks with room for each count of its bytes; what came and what went
//!   out are compared with the text.
//! - `answer_tests`: recordings whose verdicts are worked out by hand, and proved of the definitions
//!   as worked recordings of vme_eval. Each verdict is compared with the line that is given beside
//!   the dump, in blocks of several sizes and by each way to a recording. A verdict that can't be
//!   written, the exit statuses of the listings of these recordings, the first of several reasons,
//!   and the lines of refusals are tried too.
//!
//! Not tried here: real files and the command line, and inputs that are too long. These are tried
//! in vme_commands_tests and by `./test`.
#![tactic(auto)]

#[cfg(test)]
mod answer_tests;
#[cfg(test)]
mod tests;

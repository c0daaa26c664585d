//! What the refusals of inputs mean, for people: what each kind of them means, what was expected
//! there, what usually causes it, and the remedy; what kind of file is given in place of a dump or of
//! a binding; which paths of a dump are nearest to one that it lacks; and the lines of a dump that a
//! refusal may name.
//!
//! # Parts
//!
//! - `refusal_kind`: [`RefusalKind`], each kind of refusal, by the name that a refusal has.
//! - `page`: the page of each, [`Page::of`], the only source of these texts; and the pages as text.
//!   `vmecheck faults` and docs/RECORDING.md say what it says.
//! - `refusal`: [`RefusalKind::of`] says of which kind a refusal is.
//! - `file_kind`: [`FileKind::of`] says by its first bytes what kind of file some bytes are, and
//!   which program makes a plain dump of it.
//! - `nearness`: [`nearest`], the variables whose paths are nearest to one.
//! - `kept_lines`: [`KeptLines`], which takes the pieces of a dump, and keeps the line of a fault;
//!   `line_tokens`: the tokens and the lines in some bytes.
//!
//! # What is proved
//!
//! - The page of a kind is exactly that of `specs/Pages`, and exactly this page is written; each
//!   kind has one, and `faults_text` has all of them (`pages_of`).
//! - A kind has the name of `specs/RefusalKinds`, and a name finds the kind that has it (`found`).
//! - The kind of a refusal is exactly that of `specs/Refusals`.
//! - A kind of file is exactly that of `specs/Files`, by the bytes that the formats begin with.
//! - The nearest variables are exactly the first ones, where all are sorted by the distance of
//!   their paths from the one that is sought, and those at the same distance as they are declared.
//!
//! # What isn't proved
//!
//! That the texts are true and helpful: they are to be read beside docs/FORMATS.md, which says when
//! each fault comes. `tests/texts` compares docs/RECORDING.md with them. That the line that is kept is
//! that of the whole text: `tests/texts` compares what is shown of refused dumps, and
//! vme_faults_tests cuts dumps at each of their tokens.
//!
//! # Limits
//!
//! A kind of file is known by its first bytes alone: what comes after them isn't looked at. The
//! lines that are kept are the one that is read, the one of the last token, and those of a dump
//! section and of a comment that are open; a fault that is met later is never of another line.
//! Memory is in proportion to the longest line. Start reading at `page`.
#![tactic(auto)]

mod file_kind;
mod kept_lines;
mod line_tokens;
mod nearness;
mod page;
mod refusal;
mod refusal_kind;

pub use file_kind::FileKind;
pub use kept_lines::KeptLines;
pub use nearness::{VariableDistance, nearest};
pub use page::{Page, faults_text, push_page};
pub use refusal_kind::RefusalKind;

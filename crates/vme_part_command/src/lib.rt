//! The commands `part`, `join` and `tell`: they make the part of a file of a recording, join parts
//! into one, and report the verdict or the listing of the whole.
//!
//! # Parts of this crate
//!
//! - `part`: [`write_part_of`] judges a dump that is a file of a recording, and writes its part.
//!   `first_time` reads it up to its first time, `file_body` its body, piece by piece; `file_check`
//!   judges the steps of each piece. `backplane`: the sum of a recording's backplane.
//! - `inputs`: [`NamedPart`], and the part joined from the parts in the inputs.
//! - `join`: [`write_joined`] writes one part joined from several.
//! - `tell`: [`tell_whole`] writes the verdict of the whole recording, [`list_whole`] its listing.
//! - `lines`, `complaints`: the lines that are written.
//!
//! # What is proved
//!
//! What is written to standard output and to standard error, and the exit status, are exactly the
//! answer for the result, unless a write of it fails (`Ends` of vme_stream):
//!
//! - [`write_part_of`]: the encoding of a part of the recording that the binding makes of the dump.
//!   For a number over 0 the levels after the dump's first time are its opening. Or the first reason
//!   that there is no recording (`WritesPart`). No dump is refused for too many marks (`FindsPart`).
//! - [`write_joined`]: the encoding of one part joined from the parts in the inputs, or the first
//!   input that is no part, and why, or why the parts can't be joined (`WritesJoin`).
//! - [`tell_whole`] and [`list_whole`]: the verdict and the listing of the recording that the files
//!   of these parts make, or which file is missing or torn (`TellsRecording`, `ListsRecording`).
//!
//! # What isn't proved
//!
//! That memory suffices: the dump up to its second time is held in memory, and the longest token,
//! with what a piece of the dump takes. Where the binding can't be used on the dump, all of it is
//! held. That no dump is refused as out of the range of parts. That no parts with marks that were
//! made of dumps are refused for too many of them.
#![tactic(auto)]

mod backplane;
mod complaints;
mod file_body;
mod file_check;
mod first_time;
mod inputs;
mod join;
mod lines;
mod no_part;
mod part;
mod tell;

pub use inputs::NamedPart;
pub use join::write_joined;
pub use part::{PartOptions, write_part_of};
pub use tell::{list_whole, tell_whole};

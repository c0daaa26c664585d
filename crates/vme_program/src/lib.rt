//! What the program does with its arguments: it opens the files that they name, passes them to one
//! command, and returns that command's status.
//!
//! # Parts
//!
//! - `program`: [`run_words`], from the arguments of the command line to one command.
//! - `environment`: [`Environment`], the program's environment: files by their names, and
//!   standard input. Standard output and standard error are sinks that the caller brings.
//! - `opening`: the binding and the dump that an order names, or a message that one can't be opened.
//! - `check`, `list`, `confirm`, `annotate`, `explain`, `bind`, `variables`, `rules`, `faults`,
//!   `audit`: one command each, which takes its own variant of the order, i.e. the parsed arguments,
//!   over the files that this names. `parts`: the commands `part`, `join` and `tell`. `input`: a dump
//!   on standard input.
//! - `save`: the waveform viewer's file and the picture, which are written over no input and over
//!   nothing that the program didn't write.
//!
//! # What is proved
//!
//! - [`run_words`]: arguments select the command that `clap`'s meaning of them names (`some`); no
//!   arguments select a check of standard input by the built-in binding, in blocks of the usual
//!   size (`none`). What the command writes, and its status, are what vme_commands and the other
//!   crates of commands say of the files and numbers that the arguments name (`specs/Programs`).
//! - The binding is opened, then the dump, then the listing (`WithRecording`, `WithInput`). A message
//!   names the first that can't be opened, with status 3, and nothing else is written.
//! - With `--gtkw` or `--svg`, where one of these files may not be written, by what is there, exactly
//!   a line is written that says at which path, and why (`RefusesPlace`). Else the explanation is
//!   that without them, and where there is one, each file that is asked for is put at its path or
//!   the status says that it isn't (`ExplainsAndSaves`). What is put for `--svg` is a picture: well
//!   nested markup in which every name is escaped.
//! - In an audit the binding is opened, and then each dump in order; a message names the first that
//!   can't be, with status 3, and nothing is read. What is written of the dumps, with the binding
//!   and the other arguments, is what vme_audit_command says of these files. Test cases go into the
//!   file that an argument names, which is none of the inputs, and only after an audit
//!   (`AuditsFiles`).
//! - With `join` and `tell` each part is opened, in order, before one is read; a message names the
//!   first that can't be, with status 3. What is written of them is what vme_part_command says of
//!   these files by their names, of the number of files and of whether a listing is wanted
//!   (`JoinsFiles`, `TellsOfFiles`).
//! - `faults` writes exactly the page of the kind of refusal that the argument names, or without an
//!   argument the pages of all (`TellsFaults`). `rules` writes so the guide of the rule, or the guides
//!   of all (`TellsRules`). An argument that names no kind is invalid, and so is one of `rules` that
//!   names no rule; no other argument of theirs is (`refused`, `faulty`).
//! - Arguments are invalid only where `clap`'s rules find a fault in them, or where the command is
//!   `rules` or `faults` with such an argument, or an audit (`IsRefusedOrder`).
//! - With invalid arguments nothing is written on standard output and standard error (`out_stays`,
//!   `err_stays`): the caller says what is wrong.
//!
//! # What isn't proved
//!
//! That `--gtkw` writes a file for that dump's name, and what the picture of `--svg` shows: the
//! contracts of vme_text_commands don't say what these texts have; what the file of test cases has,
//! and that an audit reads standard input once. Tests try these.
//!
//! What an [`Environment`] answers is what its ghost members say, and no more: that a file of that
//! name has those bytes is a matter of who implements it.
//!
//! Start reading at `specs/Openings`, then `specs/Programs`.
#![tactic(auto)]

mod annotate;
mod audit;
mod bind;
mod check;
mod confirm;
mod environment;
mod explain;
mod faults;
mod input;
mod list;
mod opening;
mod parts;
mod program;
mod rules;
mod save;
mod variables;

pub use environment::{Environment, WriteResult};
pub use program::run_words;

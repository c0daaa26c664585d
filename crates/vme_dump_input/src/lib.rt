//! A dump that is read piece by piece: its bytes as they come, its definitions, its steps, settled by
//! a skew if there is one, and why it is refused. What is done with its steps is each command's own.
//!
//! # Parts
//!
//! - `buffered_input`: [`BufferedInput`], the bytes of an input that were read and not taken, up to
//!   a limit.
//! - `definitions`: [`read_definitions`] reads the definitions of a dump, up to its body, and takes
//!   none of their bytes. [`refused_for`] is the refusal for a fault of the dump.
//! - `definitions_end`: [`DefinitionsEnd`] looks for where the definitions of a dump may end, in
//!   time in proportion to the bytes.
//! - `body`: the refusal for a fault in the body.
//! - `settling`: [`settler_for`], [`settled_steps`] and [`last_steps`] settle the steps that come
//!   with each piece of a dump.
//!
//! # What is proved
//!
//! - The bytes that are held and those that were taken are what was read (`IsReadTo`). At the end
//!   they are all of the input (`IsAllOf`), and an input that can't be had, or is too long, is
//!   reported so (`FailsAs`).
//! - After the definitions the body continues with what is held (`BeginsDump`, `IsAtDefinitions`,
//!   `IsAtBody`), or the binding can't be used on the dump, all of which was read; or the dump is
//!   refused for its first reason (`IsDumpRefused`): one that can't be had has no fault.
//! - The steps that come out, piece by piece, are those that the recording settles to as far as it is
//!   complete by the last time that was read, and all of it at the end (`settled`, and the contract
//!   of [`last_steps`]). Without a skew they are the steps themselves.
//!
//! # What isn't proved
//!
//! When a byte is read, and that memory suffices: what the definitions and the longest token take.
//! Where a [`DefinitionsEnd`] says that definitions may end: its caller finds out for certain. If
//! the binding can't be used on the dump, all of the dump is held.
//!
//! # Limits
//!
//! A dump has at most 268,435,456 bytes.
//!
//! Start reading at `specs/BufferedInputs`, then `specs/DumpBeginnings`; for the steps at
//! `specs/SettledReadings`, then `specs/SettledSteps`.
#![tactic(auto)]

mod body;
mod buffered_input;
mod definitions;
mod definitions_end;
mod settling;

pub use body::{fault_of, opening_of, refused_in_body};
pub use buffered_input::BufferedInput;
pub use definitions::{DumpAfterDefinitions, dump_input, read_definitions, refused_for, unread};
pub use definitions_end::DefinitionsEnd;
pub use settling::{last_steps, settled_steps, settler_for};

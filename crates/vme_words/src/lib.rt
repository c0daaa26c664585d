//! The command line: its arguments, the *words*, are parsed into an *order*, a parsed command.
//!
//! # Parts
//!
//! - `command`: the command of the program, with a subcommand for each task, in `clap`'s terms.
//! - `words`: [`words::order`] reads the arguments by `clap`'s rules of that command.
//! - `order`: an [`Order`] has a variant for each *task*, i.e. subcommand. It holds the arguments of
//!   that subcommand and no more: its numbers, flags, and the names of files.
//! - `limits`: the greatest numbers that the arguments may have.
//! - `order_fault`: why arguments are no order.
//!
//! # What is proved
//!
//! [`words::order`]: an [`Order`] is what `clap`'s meaning of the command gives the arguments
//! (`ok`). There is one exactly where `clap`'s rules find no fault in the arguments, unless memory
//! runs out (`taken`, `faulty`). For invalid arguments the result is a kind of fault that those rules
//! give (`err`).
//!
//! # What isn't proved
//!
//! The texts of usage, help and faults. Its tests, in vme_words_tests, try them.
//!
//! # Limits
//!
//! Blocks of 1 to 65,536 steps, 1 to 64 workers, 1 to 21 slots, the number of a file below 2^32, and
//! a skew, a number of transfers, of breaks and of files below 2^64. The names of rules, lines and
//! kinds of refusals are texts: this crate doesn't know which there are. Start reading at `words`.
#![tactic(auto)]

mod command;
mod limits;
mod order;
mod order_fault;
pub mod words;

pub use command::{VERSION, vmecheck_command};
pub use order::{
    AnnotateOrder, AuditOrder, BindOrder, CheckOrder, ConfirmOrder, ExplainOrder, FaultsOrder,
    JoinOrder, JudgeOptions, ListOrder, Order, PartOrder, RecordingFiles, RulesOrder, Task,
    TellOrder, VariablesOrder,
};
pub use order_fault::OrderFault;
pub use words::{task_fault, usage_fault};

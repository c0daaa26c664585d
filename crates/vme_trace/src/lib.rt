//! Recordings of a VMEbus backplane (ANSI/IEEE Std 1014-1987): its lines, their levels over time,
//! and what it is to break one of its rules.
//!
//! All definitions up to the verdict are in the `specs/` of this crate. Each speaks of the
//! instants of a recording: instant 0 is its opening, instant i its i-th step. What the product
//! says of a recording is proved against them.
//!
//! # Parts
//!
//! - `line`, `level`, `lines`: a line and its name; Low, High or Unknown; the levels of all lines
//!   at one instant.
//! - `step`, `capture`, `block`: the changes of one instant; a recording of well-formed steps; a
//!   numbered part of one.
//! - `edges`, `cycle`, `class`, `data`: what a step does to a line, the strobes and the answers;
//!   the address space and the needed lines of a cycle; its class; the data lines that a transfer
//!   moves.
//! - `rule`, `verdict`: the rules in the order in which breaks of one instant are named; a break,
//!   and the verdict.
//! - `name`: the bytes of a name.
//! - `step_visitor`, `stream`: what takes a recording step by step; where bytes come from and where
//!   they go.
//!
//! # What is proved
//!
//! - `Block::check` names exactly the first step that is malformed. [`Capture`] holds well-formed
//!   steps alone (`sound`). `Capture::new` refuses others, and names the first step that a capture
//!   can't have.
//! - `Capture::cut` gives exactly the numbered blocks of a size (`blocks`), which join to the
//!   recording (`joined`), and refuses exactly the sizes and counts named below (`bad_size`,
//!   `too_many`).
//! - `Lines::is_idle`, [`am_class`], [`needed`], [`is_selected`], [`moved_data`] and the calls of
//!   `edges` give exactly what the definitions say (`is_idle`, `class_of`, `needs_of`,
//!   `is_selected_at`, `lanes_at`; `specs/Edges`).
//! - Each line and each rule is found by its name, and no other is (`named`, `found`).
//!
//! # What isn't proved
//!
//! That the definitions say what the standard says: they are to be read, beside docs/PROTOCOL.md,
//! which says the same in words and lists what is left out. The laws of vme_rules_eval and of the
//! crates below it compute what they say of worked recordings. No definition speaks of nanoseconds:
//! only the order of edges counts. Nor is it proved that memory suffices.
//!
//! # Limits
//!
//! There are 192 lines, and backplanes of 1 to 21 slots. A time is a number below 2^64, in the time
//! unit of the dump. A capture has at most 268,435,456 steps. A cut has blocks of 1 to 65,536
//! steps, at most 4,096 of them.
//!
//! # In which order to read
//!
//! In `specs/`: `Levels`, `Trace` and `WellFormed` (a recording); `Judged` (which instants are
//! judged); `Signals` (edges); `Transfers`, `Cycles`, `Data` and `Tenures`; `Rules`; `Verdict`.
//! Then `src/`, from `line` on.
#![tactic(auto)]

pub mod block;
pub mod capture;
pub mod class;
pub mod cycle;
pub mod data;
pub mod edges;
pub mod level;
pub mod line;
pub mod lines;
pub mod name;
pub mod rule;
pub mod step;
pub mod step_visitor;
pub mod stream;
pub mod verdict;

pub use block::{Block, Malformed};
pub use capture::{Capture, CutFault};
pub use class::Class;
pub use cycle::{LineSet, Space, am_class, am_code, is_block, needed};
pub use data::{Lanes, MovedBytes, is_selected, moved_data};
pub use level::Level;
pub use line::{CHAIN_NETS, LINE_COUNT, Line, MOST_SLOTS};
pub use lines::Lines;
pub use name::Name;
pub use rule::{RULE_COUNT, Rule};
pub use step::{Change, Changes, Step, Steps};
pub use step_visitor::StepVisitor;
pub use stream::{Failed, Sink, Source};
pub use verdict::{Break, Verdict};

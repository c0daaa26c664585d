//! What an explanation reports of a recording, kept as the steps of the recording come. Of the
//! recording itself only a few steps are kept.
//!
//! A *mark* is an event of the bus with its instant: judging starts or a reset ends it, or a
//! tenure, cycle or transfer begins or ends. A *break* is a violation of a rule.
//!
//! # Parts
//!
//! - `account_visitor`: [`AccountVisitor`] takes one step after the other, and returns the account.
//!   `account`: [`Account`] and its queries. `running_account`: the account of the steps so far.
//! - `followed_steps`, `step_notes`: the monitors of all rules, run from step to step up to the
//!   first break, and what is noted of the steps.
//! - `marked`, `unended_rows`, `row_counts`, `row_kind`: the rows of the listing, by the marks from
//!   which it is made: the last open row of each part, and the number of rows of each kind.
//! - `stretch_events`, `last_events`, `related_event`: the other events that a rule refers to, and
//!   when they last happened.
//! - `stored_steps`, `recent_steps`, `known_times`: the levels of the last instants, and the times
//!   of the instants that an explanation reports.
//! - `stretches`, `line_notes`: where judging starts and ends, and which lines move.
//!
//! # What is proved
//!
//! An account that [`AccountVisitor::finish`] returns is one of the recording whose steps came
//! (`IsAccountOf`). For each recording that it is an account of: [`Account::verdict`] is the
//! verdict. [`Account::count_of`] counts the rows of a kind in its listing, and
//! [`Account::open_row`] is the last row that is open. [`Account::moment_of`] is the instant of an
//! event by the definitions of vme_trace. [`Account::levels_from`] returns its levels, and
//! [`Account::time_at`] the time of an instant. [`Account::is_idle_level`] is whether a line is as
//! an idle bus has it after all steps, if no rule is broken. [`first_related_event`] and
//! [`second_related_event`] are the other events that a rule refers to.
//!
//! # What isn't proved
//!
//! Which instants are kept: the texts and the pictures of the examples show them, in tests. Where
//! judging starts first, the last reset, the last tenure, and which lines move.
//!
//! # Limits
//!
//! A recording has at most 67,108,864 steps, 4,096 blocks of 16,384.
//!
//! # In which order to read
//!
//! `specs/Accounts`, then `account` and `account_visitor`.
#![tactic(auto)]

mod account;
mod account_visitor;
mod followed_steps;
mod known_times;
mod last_events;
mod line_notes;
mod marked;
mod recent_steps;
mod related_event;
mod row_counts;
mod row_kind;
mod running_account;
mod step_notes;
mod stored_steps;
mod stretch_events;
mod stretches;
mod unended_rows;

pub use account::Account;
pub use account_visitor::{AccountVisitor, NoAccount};
pub use last_events::Moment;
pub use line_notes::rests_high;
pub use related_event::{
    Occurrence, RelatedEvent, StepEvent, first_related_event, second_related_event,
};
pub use row_kind::{Part, RowKind};
pub use stretches::StartedTenure;

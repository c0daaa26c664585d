//! All breaks of a recording, and its coverage, found as its steps come. No step is kept, however
//! many there are.
//!
//! A *break* is a violation of a rule. A *mark* is an event of the bus with its instant: judging
//! starts or a reset ends it, or a tenure, cycle or transfer begins or ends. The *parts* of a
//! recording are the recording itself and the rest after each break; each is judged anew, up to its
//! first break. A rule is *asked* where the event happens without which it can't be broken.
//!
//! # Parts
//!
//! - `auditor`: [`Auditor`] takes one step after the other, returns the break that a step makes,
//!   and reports at any time what was found so far.
//! - `audit`, `memories`: the state of an audit. [`Memories`] has the memory of each of the five
//!   monitors, i.e. the state of its automaton. At a break all of them start again from the levels
//!   after the step, so the work is proportional to the number of steps, however many of them
//!   break a rule.
//! - `tally`, `asked`: the counts, and which of the events happened without which a rule can't be
//!   broken.
//! - `audit_break`, `findings`: a break with numbers of 64 bits; the findings, and the [`outcome`]
//!   that follows from them.
//! - `laws`: how an audit agrees with a verdict and with a listing. The first break and the marks
//!   of each step are those of the definitions. `growth`: how the breaks of a recording grow as
//!   its steps come.
//!
//! # What is proved
//!
//! - [`Auditor::step`]: the breaks that are returned are exactly those of the recording so far,
//!   each with its own step (`told`).
//! - [`Auditor::audited`]: the findings are those of the definitions for the recording up to here
//!   (`AreFindingsOf`). The counts are those over the rows of all parts. The rules that are asked
//!   are those of the definitions. So are whether anything is judged after the last break, the
//!   instant of that break, and the transfer without an answer.
//! - [`outcome`] is the outcome by vme_audit of every recording with these findings and these
//!   numbers of breaks (`defined`).
//! - [`first_break_is_named`]: the first break is the one that the verdict names.
//! - [`unbroken_is_listed`]: there is no break exactly where the verdict names none. Then what is
//!   judged conforms, and the counts are those of the listing's rows.
//! - [`outcome_has_verdict`]: if a recording's outcome is that it conforms without an allowed
//!   break, its verdict is that it conforms. The outcome is "never idle" exactly where the verdict
//!   is.
//! - [`first_break_is_found`], [`marks_are_found`]: the first break and the marks of a recording are
//!   those that [`Memories::go_on`] shows, step by step.
//! - [`breaks_grow`]: each step breaks at most one rule, at its own instant, and the breaks before
//!   it stay.
//!
//! # What isn't proved
//!
//! How long an audit takes, and its memory, which is that of an [`Auditor`].
//!
//! # Limits
//!
//! A recording has at most 18,446,744,073,709,551,615 steps; the next one is refused
//! ([`TooManySteps`]).
//!
//! # In which order to read
//!
//! `specs/Parts`, `Counted` and `AskedRules` of vme_audit; `specs/Findings`; then `auditor`.
//! `specs/Audited` defines an audit as a fold over the steps.
#![tactic(auto)]

mod asked;
mod audit;
mod audit_break;
mod auditor;
mod findings;
mod growth;
mod laws;
mod memories;
mod tally;

pub use asked::AskedEvents;
pub use audit_break::AuditBreak;
pub use auditor::{Auditor, TooManySteps};
pub use findings::{AuditFindings, BreakCounts, outcome};
pub use growth::breaks_grow;
pub use laws::{
    first_break_is_found, first_break_is_named, marks_are_found, outcome_has_verdict,
    unbroken_is_listed,
};
pub use memories::{AllShown, Memories};

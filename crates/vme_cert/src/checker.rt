//! The stretches of a recording, step by step: from an idle instant to a reset, a lost line or a break (a violation of
//! a rule).

ghost use Rattle.std.specs.Prelude.{◌≡◌, ◌+◌, ◌*◌, ◌<◌, ◌≤◌, List, [], ◌∷◌, true, if◌then◌else◌};
ghost use Rattle.vme_cert.specs.Vocabulary.{Broken, Row, Trace, Unreadable, Version, is_unreadable, last_instant};
ghost use Rattle.vme_cert.specs.Vocabulary.{with_steps};

use crate::bus::Bus;
use crate::compare::Answer;
use crate::comparison::Comparison;
use crate::open_rows::OpenRows;
use crate::source::RowSource;
use crate::state::State;
use vme_listing::{ListedVerdict, Row, Version};
use vme_trace::{Change, Line, Lines, Rule, Step};

/// What is judged at an instant.
#[derive(Clone, Copy)]
enum CheckPhase {
    /// No stretch has started since the opening or the last reset.
    Waiting,
    /// A stretch, with its state so far.
    InStretch(State),
    /// Judging has ended: a rule was broken.
    Ended,
}

/// A check of the rows of a listing against a recording, whose steps are taken one by one. What it has done so far
/// is said by `HasFollowed` and `HasCompared`, in `specs/Checking.antt`.
#[derive(Drop)]
pub struct Checker<S: RowSource> {
    bus: Bus,
    rows: OpenRows<S>,
    phase: CheckPhase,
    /// The verdict so far.
    outcome: ListedVerdict,
}

impl<S: RowSource> Checker<S> {
    ghost use Rattle.vme_cert.specs.Instant.{LeadToInstant, IsBusOf};
    ghost use Rattle.vme_cert.specs.Checking.{Checks, HasCompared, HasDecided, HasFollowed, IsInStretch, IsWaiting};
    ghost use Rattle.vme_cert.specs.Checking.{MayGoOn};
    ghost use Rattle.vme_cert.specs.Checking.{at_opening};
    ghost use Rattle.vme_cert.specs.declared.checker.CheckPhase.TheVariants.{Ended, Waiting};

    /// The checker at the opening of a recording. No row of `source` was taken. The rows are expected in `version`.
    pub fn new(opening: &Lines, version: Version, source: S) -> Checker<S>
        ensures taken { HasFollowed (at_opening opening.now) result }
        ensures compared { (whole : S.Whole) → S.gave whole source []
            → HasCompared S.gave S.is_over whole version (at_opening opening.now) result }
    {
        let mut checker = Checker {
            bus: Bus::opening(opening),
            rows: OpenRows::new(version, source),
            phase: CheckPhase::Waiting,
            outcome: ListedVerdict::NeverIdle,
        };
        checker.begin_where_idle();
        checker
    }

    /// Begins a stretch, if the bus is idle.
    fn begin_where_idle(&mut self)
        requires waits { self.old.phase ≡ Waiting }
        requires few { self.old.rows.compared.taken ≤ 4 * self.old.bus.instant }
        ensures bus { self.new.bus ≡ self.old.bus }
        ensures few { self.new.rows.compared.taken ≤ 4 * self.old.bus.instant + 4 }
        ensures checks { (whole : S.Whole) (version : Version) (t : Trace) → IsBusOf t self.old.bus
            → self.old.bus.instant ≤ last_instant t
            → IsWaiting S.gave S.is_over whole version t self.old.bus.instant self.old.outcome self.old.rows
            → Checks S.gave S.is_over whole version t self.new }
    {
        if !self.bus.levels.is_idle() {
            return;
        }
        self.rows.start(&self.bus);
        self.phase = CheckPhase::InStretch(State::starting(&self.bus));
        self.outcome = ListedVerdict::Conforming;
    }

    /// Ends judging, as `rule` is broken on `line`. Open rows get no last edge.
    fn end(&mut self, rule: Rule, line: Line)
        ensures bus { self.new.bus ≡ self.old.bus }
        ensures rows { self.new.rows ≡ self.old.rows }
        ensures phase { self.new.phase ≡ Ended }
        ensures outcome { self.new.outcome ≡ (if is_unreadable rule
            then Unreadable rule self.old.bus.instant line else Broken rule self.old.bus.instant line) }
    {
        let instant = self.bus.instant;
        self.outcome = if rule.is_unreadable() {
            ListedVerdict::Unreadable(rule, instant, line)
        } else {
            ListedVerdict::Broken(rule, instant, line)
        };
        self.phase = CheckPhase::Ended;
    }

    /// Judges an instant of a stretch.
    fn judge(&mut self, state: &State, changes: &[Change])
        requires lead { LeadToInstant self.old.bus changes.now }
        requires few { self.old.rows.compared.taken ≤ 4 * self.old.bus.instant }
        ensures bus { self.new.bus ≡ self.old.bus }
        ensures few { self.new.rows.compared.taken ≤ 4 * self.old.bus.instant + 4 }
        ensures checks { (whole : S.Whole) (version : Version) (t : Trace) → IsBusOf t self.old.bus
            → self.old.bus.instant ≤ last_instant t
            → IsInStretch S.gave S.is_over whole version t self.old.bus.instant self.old.outcome self.old.rows state.now
            → Checks S.gave S.is_over whole version t self.new }
    {
        let instant = self.bus.instant;
        prove!(self.bus.before.slots() <= 21);
        if self.bus.levels.is_reset() {
            self.rows.close_before(Row::Reset { instant });
            self.phase = CheckPhase::Waiting;
            return;
        }
        if let Some(line) = self.bus.levels.lost_among(changes) {
            self.end(Rule::U1, line);
            return;
        }
        let state = state.opened(&self.bus);
        if let Some(found) = state.break_at(&self.bus, changes) {
            self.end(found.0, found.1);
            return;
        }
        self.rows.follow_instant(&self.bus, &state);
        self.phase = CheckPhase::InStretch(state.later(&self.bus));
    }

    /// Takes the next step of the recording.
    pub fn take(&mut self, step: &Step)
        requires { (recorded : Trace) × HasFollowed recorded self.old × MayGoOn recorded step.now }
        ensures taken { (recorded : Trace) → HasFollowed recorded self.old
            → HasFollowed (with_steps recorded (step.now ∷ [])) self.new }
        ensures compared { (whole : S.Whole) (version : Version) (recorded : Trace) → HasFollowed recorded self.old
            → HasCompared S.gave S.is_over whole version recorded self.old
            → HasCompared S.gave S.is_over whole version (with_steps recorded (step.now ∷ [])) self.new }
    {
        let changes = step.changes.as_slice();
        self.bus.advance(changes);
        match self.phase {
            CheckPhase::Waiting => self.begin_where_idle(),
            CheckPhase::InStretch(state) => self.judge(&state, changes),
            CheckPhase::Ended => {}
        }
    }

    /// The answer, once all steps of the recording were taken; and the source of the rows.
    pub fn finish(self) -> (Answer, S)
        requires { (recorded : Trace) × HasFollowed recorded self }
        ensures { (whole : S.Whole) (version : Version) (recorded : Trace) → HasFollowed recorded self
            → HasCompared S.gave S.is_over whole version recorded self
            → HasDecided S.gave S.is_over whole version recorded result.1 result.0 }
    {
        let mut rows = self.rows;
        rows.close_before(Row::Verdict(self.outcome));
        rows.compared.finish()
    }

    /// The source of the rows, where no answer is needed.
    pub fn into_source(self) -> S
        ensures { (whole : S.Whole) (version : Version) (recorded : Trace) → HasFollowed recorded self
            → HasCompared S.gave S.is_over whole version recorded self
            → (rows : List Row) × S.gave whole result rows }
    {
        self.rows.compared.source
    }
}

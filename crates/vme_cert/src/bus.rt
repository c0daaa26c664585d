//! The levels at an instant and at the one before.
// `shown` is one name for all that a line shows: to unfold it is to unfold `low`, `falls` and the like.
#![tactic(auto, unfolding(crate::proofs::Instant::shown))]

ghost use Rattle.std.specs.Prelude.{◌≡◌, ◌+◌, ◌-◌, ◌<◌, ◌≤◌, not, IsTrue, IfSome, unwrap_or};
ghost use Rattle.vme_cert.specs.Vocabulary.{BR, Trace, answer_falls, capture_limit, changed, falls, grant, grant_falls};
ghost use Rattle.vme_cert.specs.Vocabulary.{has_edge, has_line, high, is_granting, is_low, known, least, level_at};
ghost use Rattle.vme_cert.specs.Vocabulary.{levels_at, low, near, rises, strobe_falls, strobe_rises, strobes_high};
ghost use Rattle.vme_cert.specs.Vocabulary.{taken_grant, tenure_level, tenure_slot};

use crate::search::least;
use vme_trace::{Change, Line, Lines, edges};

/// The levels of a recording at an instant, and at the one before: `IsBusOf`, in `specs/Instant.antt`. At the opening
/// both are those of the opening.
#[derive(Clone, Copy)]
pub(crate) struct Bus {
    pub(crate) instant: u32,
    pub(crate) before: Lines,
    pub(crate) levels: Lines,
    ghost within: { instant ≤ capture_limit },
    ghost same_slots: { before.slots ≡ levels.slots },
}

impl Bus {
    ghost use Rattle.vme_cert.specs.Instant.{IsBusOf};

    /// The bus at the opening of a recording, whose levels are `lines`.
    #[tactic(auto, unfolding(vme_trace::specs::Trace::levels_at))]
    pub(crate) fn opening(lines: &Lines) -> Bus
        ensures at { (t : Trace) → t.opening ≡ lines.now → IsBusOf t result }
        ensures instant { result.instant ≡ 0 }
    {
        Bus {
            instant: 0,
            before: *lines,
            levels: *lines,
        }
    }

    /// Advances to the next instant.
    pub(crate) fn advance(&mut self, changes: &[Change])
        requires { self.old.instant < capture_limit }
        ensures instant { self.new.instant ≡ self.old.instant + 1 }
        ensures before { self.new.before ≡ self.old.levels }
        ensures levels { self.new.levels ≡ changed self.old.levels changes.now }
    {
        let mut levels = self.levels;
        levels.apply(changes);
        *self = Bus {
            instant: self.instant + 1,
            before: self.levels,
            levels,
        };
    }
}

/// What the lines show at the instant, by the definitions of the same names.
impl Bus {
    ghost use Rattle.vme_cert.specs.Instant.{IsBusOf, starts_transfer};

    /// Whether a line is low at the instant before.
    pub(crate) fn was_low(&self, line: Line) -> bool
        requires { IsTrue (has_line self.now.levels.slots line) }
        ensures { (t : Trace) → IsBusOf t self.now → result ≡ low t line (self.now.instant - 1) }
    {
        self.before.level(line).is_low()
    }

    /// Whether a line is low.
    pub(crate) fn low(&self, line: Line) -> bool
        requires { IsTrue (has_line self.now.levels.slots line) }
        ensures { (t : Trace) → IsBusOf t self.now → result ≡ low t line self.now.instant }
    {
        self.levels.level(line).is_low()
    }

    /// Whether a line is known, i.e. low or high.
    pub(crate) fn knows(&self, line: Line) -> bool
        requires { IsTrue (has_line self.now.levels.slots line) }
        ensures { (t : Trace) → IsBusOf t self.now → result ≡ known t line self.now.instant }
    {
        self.levels.level(line).is_known()
    }

    /// Whether a line falls: it is high at the instant before, and low.
    pub(crate) fn falls(&self, line: Line) -> bool
        requires { IsTrue (has_line self.now.levels.slots line) }
        ensures { (t : Trace) → IsBusOf t self.now → result ≡ falls t line self.now.instant }
    {
        edges::falls(&self.before, &self.levels, line)
    }

    /// Whether a line rises: it is low at the instant before, and high.
    pub(crate) fn rises(&self, line: Line) -> bool
        requires { IsTrue (has_line self.now.levels.slots line) }
        ensures { (t : Trace) → IsBusOf t self.now → result ≡ rises t line self.now.instant }
    {
        edges::rises(&self.before, &self.levels, line)
    }

    /// Whether the level of a line differs from that at the instant before.
    pub(crate) fn has_edge(&self, line: Line) -> bool
        requires { IsTrue (has_line self.now.levels.slots line) }
        ensures { (t : Trace) → IsBusOf t self.now → result ≡ has_edge t line self.now.instant }
    {
        !self.before.level(line).is_same(self.levels.level(line))
    }

    /// Whether a line is low at the instant before or at this one.
    pub(crate) fn low_near(&self, line: Line) -> bool
        requires { IsTrue (has_line self.now.levels.slots line) }
        ensures { (t : Trace) → IsBusOf t self.now → result ≡ near (low t line) self.now.instant }
    {
        self.was_low(line) | self.low(line)
    }

    /// Whether a line is high at the instant before or at this one.
    pub(crate) fn high_near(&self, line: Line) -> bool
        requires { IsTrue (has_line self.now.levels.slots line) }
        ensures { (t : Trace) → IsBusOf t self.now → result ≡ near (high t line) self.now.instant }
    {
        self.before.level(line).is_high() | self.levels.level(line).is_high()
    }

    /// Whether a data strobe rises.
    pub(crate) fn strobe_rises(&self) -> bool
        ensures { (t : Trace) → IsBusOf t self.now → result ≡ strobe_rises t self.now.instant }
    {
        edges::strobe_rises(&self.before, &self.levels)
    }

    /// Whether a data strobe falls.
    pub(crate) fn strobe_falls(&self) -> bool
        ensures { (t : Trace) → IsBusOf t self.now → result ≡ strobe_falls t self.now.instant }
    {
        edges::strobe_falls(&self.before, &self.levels)
    }

    /// Whether both data strobes are high.
    pub(crate) fn strobes_high(&self) -> bool
        ensures { (t : Trace) → IsBusOf t self.now → result ≡ strobes_high t self.now.instant }
    {
        edges::has_strobes_high(&self.levels)
    }

    /// Whether DTACK* or BERR* falls.
    pub(crate) fn answer_falls(&self) -> bool
        ensures { (t : Trace) → IsBusOf t self.now → result ≡ answer_falls t self.now.instant }
    {
        edges::answer_falls(&self.before, &self.levels)
    }

    /// Both strobes were high and one is low: at a judged instant a transfer starts.
    pub(crate) fn transfer_starts(&self) -> bool
        ensures { (t : Trace) → IsBusOf t self.now → result ≡ starts_transfer t self.now.instant }
    {
        edges::starts_transfer(&self.before, &self.levels)
    }

    /// Whether the bus is requested at a level, 0 to 3.
    pub(crate) fn requests(&self, level: u8) -> bool
        requires { level < 4 }
        ensures { (t : Trace) → IsBusOf t self.now → result ≡ low t (BR level) self.now.instant }
    {
        self.low(Line::bus_request(level))
    }

    /// Whether the arbiter grants the bus: its net of a level falls.
    #[tactic(auto, unfolding(vme_trace::specs::Instants::any, vme_trace::specs::Tenures::grant_falls))]
    pub(crate) fn grant_falls(&self) -> bool
        ensures { (t : Trace) → IsBusOf t self.now → result ≡ grant_falls t self.now.instant }
    {
        self.falls(Line::grant(0, 0))
            | self.falls(Line::grant(1, 0))
            | self.falls(Line::grant(2, 0))
            | self.falls(Line::grant(3, 0))
    }

    /// Whether the arbiter's net of a level is low.
    #[tactic(auto, unfolding(vme_trace::specs::Instants::any, vme_trace::specs::Tenures::is_granting))]
    fn is_granting(&self) -> bool
        ensures { (t : Trace) → IsBusOf t self.now → result ≡ is_granting t self.now.instant }
    {
        self.low(Line::grant(0, 0))
            | self.low(Line::grant(1, 0))
            | self.low(Line::grant(2, 0))
            | self.low(Line::grant(3, 0))
    }

    /// The levels with the grant that is taken by a tenure that starts here: those of the instant if the arbiter grants
    /// there, else those of the instant before.
    #[tactic(auto, using(crate::proofs::Instant::grants))]
    fn granted(&self) -> &Lines
        ensures { (t : Trace) → IsBusOf t self.now → result.now ≡ levels_at t (taken_grant t self.now.instant) }
    {
        if self.is_granting() {
            &self.levels
        } else {
            &self.before
        }
    }

    /// The level, 0 to 3, of the grant that is taken by a tenure that starts here. `None` if no level is granted.
    pub(crate) fn tenure_level(&self) -> Option<u8>
        ensures level { (t : Trace) → IsBusOf t self.now → result ≡ tenure_level t self.now.instant }
        ensures below { IfSome result (λ level. level < 4) }
    {
        granted_level(self.granted())
    }

    /// The slot, counted from 1, that takes the grant of a tenure that starts here: the chain is low up to that slot's
    /// input.
    pub(crate) fn tenure_slot(&self) -> Option<u8>
        ensures { (t : Trace) → IsBusOf t self.now → result ≡ tenure_slot t self.now.instant }
    {
        let level = self.tenure_level()?;
        Some(granted_slot(self.granted(), level))
    }
}

/// The least of the four request levels that the arbiter grants in `lines`.
fn granted_level(lines: &Lines) -> Option<u8>
    ensures level { result ≡ least (λ n. is_low (level_at lines.now (grant n 0))) 0 4 }
    ensures below { IfSome result (λ level. level < 4) }
{
    let level = least(
        0,
        4,
        |level| lines.level(Line::grant(level as u8, 0)).is_low(),
    )?;
    Some(level as u8)
}

/// The slot that drives the first net that isn't low in the grant chain of `level`. If all nets are low, the number
/// of slots plus 1.
fn granted_slot(lines: &Lines, level: u8) -> u8
    requires { level < 4 }
    ensures { result ≡ unwrap_or (least (λ k. not (is_low (level_at lines.now (grant level k)))) 0
        (lines.now.slots + 1)) (lines.now.slots + 1) }
{
    let past = u32::from(lines.slots()) + 1;
    let is_high = |place: u32| !lines.level(Line::grant(level, place as u8)).is_low();
    least(0, past, is_high).unwrap_or(past) as u8
}

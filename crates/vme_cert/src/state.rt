//! What has to be known at an instant of the earlier instants of its stretch, each field by its definition:
//! `specs/State.antt`.

ghost use Rattle.std.specs.Prelude.{◌≡◌, ℕ, ◌+◌, ◌<◌, IsTrue, get_or, false, true};
ghost use Rattle.vme_cert.specs.Vocabulary.{Stretch, Trace, answers_write, any, is_answer, is_answer_line, is_judged};
ghost use Rattle.vme_cert.specs.Vocabulary.{strobe_rises};
ghost use Rattle.vme_cert.specs.State.{DecidesCondition, is_data_held, is_unanswered, AreRequested, Holds, IsCycle};
ghost use Rattle.vme_cert.specs.State.{IsOpenTransfer, IsTransfer, IsStateOf, is_freed};
ghost use Rattle.vme_cert.specs.Instant.{IsBusOf};
ghost use Rattle.vme_cert.specs.declared.bus.Bus.{Bus};
ghost use Rattle.vme_cert.specs.declared.state.State.{State};

use crate::bus::Bus;
use vme_trace::{Class, Line, LineSet, am_class, needed};

/// The last cycle to start, if `has_started`.
#[derive(Clone, Copy)]
pub(crate) struct Cycle {
    pub(crate) has_started: bool,
    pub(crate) start: u32,
    pub(crate) class: Class,
    pub(crate) needs: LineSet,
    /// AS* hasn't risen since its start.
    pub(crate) runs: bool,
    /// It was answered.
    pub(crate) answered: bool,
    /// The first of its answers was that of a write.
    pub(crate) first_writes: bool,
    /// It was answered twice or more.
    pub(crate) answered_again: bool,
    /// One of its answers was by DTACK*.
    pub(crate) answered_by_dtack: bool,
}

/// The last transfer to start, if `is_open`: it hasn't closed.
#[derive(Clone, Copy)]
pub(crate) struct Transfer {
    pub(crate) is_open: bool,
    pub(crate) start: u32,
    pub(crate) is_write: bool,
    pub(crate) answered: bool,
    /// A strobe rose since its start.
    pub(crate) rose: bool,
}

/// What is known of a stretch.
#[derive(Clone, Copy)]
pub(crate) struct State {
    pub(crate) cycle: Cycle,
    pub(crate) transfer: Transfer,
    /// A strobe rose since DTACK* last fell, or since the start of the stretch.
    pub(crate) dtack_may_rise: bool,
    /// A strobe rose since BERR* last fell, or since the start of the stretch.
    pub(crate) berr_may_rise: bool,
    /// Of each level: it was requested since the last grant.
    pub(crate) requested: [bool; 4],
    /// A grant came since the bus became busy.
    pub(crate) granted: bool,
}

#[tactic(auto, using(crate::proofs::Fields::cycles))]
impl Cycle {
    /// The cycle that starts at the instant, or else this one.
    fn opened(self, bus: &Bus) -> Cycle
        ensures { (t : Trace) (stretch : Stretch) → IsBusOf t bus.now → is_judged stretch bus.now.instant ≡ true
            → IsCycle t stretch bus.now.instant bus.now.instant self
            → IsCycle t stretch (bus.now.instant + 1) bus.now.instant result }
    {
        if !bus.falls(Line::AS) {
            return self;
        }
        Cycle {
            has_started: true,
            start: bus.instant,
            class: am_class(&bus.levels),
            needs: needed(&bus.levels),
            runs: true,
            answered: false,
            first_writes: false,
            answered_again: false,
            answered_by_dtack: false,
        }
    }

    /// The cycle one instant later. `answers`: a transfer is answered at the instant; `writes`: it is a write, too.
    fn later(self, bus: &Bus, answers: bool, writes: bool) -> Cycle
        ensures { (t : Trace) (stretch : Stretch) (state : State) → IsStateOf t stretch bus.now state → self
            ≡ state.cycle
            → answers ≡ is_answer t stretch bus.now.instant → writes ≡ answers_write t stretch bus.now.instant
            → IsCycle t stretch (bus.now.instant + 1) (bus.now.instant + 1) result }
    {
        let rises = bus.rises(Line::AS);
        let dtack_falls = bus.falls(Line::DTACK);
        Cycle {
            runs: self.runs & !rises,
            answered: self.answered | answers,
            first_writes: self.first_writes | (answers & !self.answered & writes),
            answered_again: self.answered_again | (answers & self.answered),
            answered_by_dtack: self.answered_by_dtack | (answers & dtack_falls),
            ..self
        }
    }
}

#[tactic(auto, using(crate::proofs::Fields::transfers))]
impl Transfer {
    /// The transfer that starts at the instant, or else this one.
    fn opened(self, bus: &Bus) -> Transfer
        ensures { (t : Trace) (stretch : Stretch) → IsBusOf t bus.now → is_judged stretch bus.now.instant ≡ true
            → IsTransfer t stretch bus.now.instant bus.now.instant self
            → IsTransfer t stretch (bus.now.instant + 1) bus.now.instant result }
    {
        if !bus.transfer_starts() {
            return self;
        }
        Transfer {
            is_open: true,
            start: bus.instant,
            is_write: bus.low(Line::WRITE),
            answered: false,
            rose: false,
        }
    }

    /// The transfer one instant later.
    fn later(self, bus: &Bus) -> Transfer
        ensures { (t : Trace) (stretch : Stretch) → IsBusOf t bus.now → is_judged stretch bus.now.instant ≡ true
            → IsTransfer t stretch (bus.now.instant + 1) bus.now.instant self
            → IsTransfer t stretch (bus.now.instant + 1) (bus.now.instant + 1) result }
    {
        let is_high = bus.strobes_high();
        let falls = bus.answer_falls();
        let rose = self.rose_by(bus);
        Transfer {
            is_open: self.is_open & !((self.start < bus.instant) & is_high),
            answered: self.answered | falls,
            rose,
            ..self
        }
    }

    /// Whether a strobe rose after the transfer's start, up to the instant.
    pub(crate) fn rose_by(&self, bus: &Bus) -> bool
        ensures { (t : Trace) (stretch : Stretch) → IsBusOf t bus.now → is_judged stretch bus.now.instant ≡ true
            → IsOpenTransfer t stretch (bus.now.instant + 1) bus.now.instant self.now
            → result ≡ any (strobe_rises t) (self.now.start + 1) (bus.now.instant + 1) }
    {
        self.rose | ((self.start < bus.instant) & bus.strobe_rises())
    }
}

impl State {
    /// The state after the start of a stretch.
    pub(crate) fn starting(bus: &Bus) -> State
        ensures { (t : Trace) (stretch : Stretch) → IsBusOf t bus.now → bus.now.instant ≡ stretch.start
            → Holds t stretch (stretch.start + 1) (stretch.start + 1) result }
    {
        let rises = bus.strobe_rises();
        State {
            cycle: Cycle {
                has_started: false,
                start: bus.instant,
                class: am_class(&bus.levels),
                needs: needed(&bus.levels),
                runs: false,
                answered: false,
                first_writes: false,
                answered_again: false,
                answered_by_dtack: false,
            },
            transfer: Transfer {
                is_open: false,
                start: bus.instant,
                is_write: false,
                answered: false,
                rose: false,
            },
            dtack_may_rise: rises,
            berr_may_rise: rises,
            requested: [
                bus.requests(0),
                bus.requests(1),
                bus.requests(2),
                bus.requests(3),
            ],
            granted: false,
        }
    }

    /// The state with the cycle and the transfer that start at the instant.
    pub(crate) fn opened(&self, bus: &Bus) -> State
        ensures { (t : Trace) (stretch : Stretch) → IsBusOf t bus.now → is_judged stretch bus.now.instant ≡ true
            → Holds t stretch bus.now.instant bus.now.instant self.now
            → Holds t stretch (bus.now.instant + 1) bus.now.instant result }
    {
        State {
            cycle: self.cycle.opened(bus),
            transfer: self.transfer.opened(bus),
            ..*self
        }
    }

    /// Which levels were requested since the last grant, one instant later.
    fn requested_later(&self, bus: &Bus) -> [bool; 4]
        ensures { (t : Trace) (stretch : Stretch) → IsBusOf t bus.now → is_judged stretch bus.now.instant ≡ true
            → AreRequested t stretch bus.now.instant self.now.requested
            → AreRequested t stretch (bus.now.instant + 1) result }
    {
        let keeps = !bus.grant_falls();
        [
            (self.requested[0] & keeps) | bus.requests(0),
            (self.requested[1] & keeps) | bus.requests(1),
            (self.requested[2] & keeps) | bus.requests(2),
            (self.requested[3] & keeps) | bus.requests(3),
        ]
    }

    /// The state one instant later.
    pub(crate) fn later(&self, bus: &Bus) -> State
        ensures { (t : Trace) (stretch : Stretch) → IsStateOf t stretch bus.now self.now
            → Holds t stretch (bus.now.instant + 1) (bus.now.instant + 1) result }
    {
        let is_answer = self.is_answer(bus);
        let writes = self.answers_write(bus);
        let rises = bus.strobe_rises();
        let acknowledge_falls = bus.falls(Line::DTACK);
        let error_falls = bus.falls(Line::BERR);
        let grants = bus.grant_falls();
        let busy_falls = bus.falls(Line::BBSY);
        State {
            cycle: self.cycle.later(bus, is_answer, writes),
            transfer: self.transfer.later(bus),
            dtack_may_rise: (self.dtack_may_rise & !acknowledge_falls) | rises,
            berr_may_rise: (self.berr_may_rise & !error_falls) | rises,
            requested: self.requested_later(bus),
            granted: (self.granted | grants) & !busy_falls,
        }
    }
}

#[tactic(auto, using(crate::proofs::Fields::questions))]
impl State {
    /// Whether the transfer is answered at the instant.
    pub(crate) fn is_answer(&self, bus: &Bus) -> bool
        ensures { DecidesCondition bus.now self.now result is_answer }
    {
        self.transfer.is_open & (bus.answer_falls() & !self.transfer.answered)
    }

    /// Whether the transfer is answered at the instant, and is a write.
    pub(crate) fn answers_write(&self, bus: &Bus) -> bool
        ensures { DecidesCondition bus.now self.now result answers_write }
    {
        self.is_answer(bus) & self.transfer.is_write
    }

    /// Whether the transfer started before the instant, and isn't answered up to it.
    pub(crate) fn is_unanswered(&self, bus: &Bus) -> bool
        ensures { DecidesCondition bus.now self.now result is_unanswered }
    {
        let answered = self.transfer.answered | bus.answer_falls();
        self.transfer.is_open & ((self.transfer.start < bus.instant) & !answered)
    }

    /// Whether the transfer is a write that started before the instant, isn't answered up to it, and no strobe has
    /// risen in it.
    pub(crate) fn is_data_held(&self, bus: &Bus) -> bool
        ensures { DecidesCondition bus.now self.now result is_data_held }
    {
        let answered = self.transfer.answered | bus.answer_falls();
        let rose = self.transfer.rose_by(bus);
        let held = (self.transfer.start < bus.instant) & self.transfer.is_write & !answered & !rose;
        self.transfer.is_open & held
    }

    /// Whether a strobe rose since the answer line `line` last fell.
    pub(crate) fn is_freed(&self, line: Line) -> bool
        requires { IsTrue (is_answer_line line) }
        ensures { (t : Trace) (stretch : Stretch) (opened j : ℕ) → Holds t stretch opened j self.now
            → result ≡ is_freed t stretch line j }
    {
        if line == Line::DTACK {
            self.dtack_may_rise
        } else {
            self.berr_may_rise
        }
    }

    /// Whether a level was requested since the last grant.
    pub(crate) fn was_requested(&self, level: u8) -> bool
        requires { level < 4 }
        ensures { result ≡ get_or self.now.requested level false }
    {
        self.requested[usize::from(level)]
    }
}

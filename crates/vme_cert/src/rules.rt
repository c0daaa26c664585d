//! The rules, in the order of docs/PROTOCOL.md, and the first that is broken at an instant.

ghost use Rattle.std.specs.Prelude.{◌≡◌, ◌==◌, ℕ, ◌+◌, ◌<◌, ◌≤◌, ◌&&◌, ◌||◌, true, false, nat_le, not, IsTrue};
ghost use Rattle.std.specs.List.{list_any};
ghost use Rattle.vme_cert.specs.Vocabulary.{H1, Rule as BusRule, Stretch, Trace, U3, all_rules, any, break_at, breaks};
ghost use Rattle.vme_cert.specs.Vocabulary.{grant, grant_level, grant_place, has_line, input_of as input_net};
ghost use Rattle.vme_cert.specs.Vocabulary.{is_block_class, is_broken, is_changed, is_grant, is_interrupt};
ghost use Rattle.vme_cert.specs.Vocabulary.{is_option_equal, is_single, is_slot_grant, is_slot_iack, known, least};
ghost use Rattle.vme_cert.specs.Vocabulary.{line_count, low, rule_number, tenure_slot};
ghost use Rattle.vme_cert.specs.Instant.{LeadToInstant, named};
ghost use Rattle.vme_cert.specs.RulesByLine.{may_be_broken_on, rules_on};
ghost use Rattle.vme_cert.specs.State.{IsStateOf};

use crate::bus::Bus;
use crate::state::State;
use vme_trace::Rule::{
    self, B1, B2, B3, B4, C1, C2, G1, G2, G3, G4, G5, H1, H2, H3, H4, H5, H6, H7, H8, I1, I2, I3,
    I4, I5, S1, S2, S3, U1, U2, U3, U4,
};
use vme_trace::{Change, Class, LINE_COUNT, Line, RULE_COUNT, is_selected, needed};

/// The rules that may be broken on a line at a judged instant. U1 is broken at none.
#[inline(always)]
#[tactic(auto, unfolding(crate::specs::RulesByLine::rules_on))]
fn rules_on(line: Line) -> &'static [Rule]
    ensures rules { result.now ≡ rules_on line }
    ensures exists { line < line_count }
{
    match line.number() {
        0 => &[H7, B3], // AS*
        1..=2 => &[H2, H3], // DS0*, DS1*
        3..=4 => &[H1, H4, H5, H6, H8, C1, C2, I4, I5], // DTACK*, BERR*
        13 => &[U2, U3, S1, S2], // WRITE*
        5..=44 => &[U2, S1], // IACK*, the modifier, LWORD*, the address
        45 => &[B1, B2, B4], // BBSY*
        50..=137 => &[G1, G2, G3, G4, G5], // the chains of grants
        138..=158 => &[I1, I2, I3], // the chain of IACK*
        159..=190 => &[U4, S3], // the data
        _ => &[],
    }
}

/// Whether a rule with this number is among the rules.
fn is_listed(rules: &[Rule], number: u8) -> bool
    ensures { result ≡ list_any (λ rule. rule_number rule == number) rules.now }
{
    rules.iter().any(|rule| rule.number() == number)
}

/// Whether a rule may be broken on a line at a judged instant.
fn may_be_broken_on(rule: Rule, line: Line) -> bool
    ensures { result ≡ may_be_broken_on rule line }
{
    is_listed(rules_on(line), rule.number())
}

/// The line with this number.
fn nth_line(number: u8) -> Line
    requires { number < line_count }
    ensures { result ≡ number }
{
    Line::from_number(number).unwrap()
}

/// The net at the input of the slot that drives `line`.
fn input_of(line: Line) -> Line
    requires { IsTrue (is_slot_grant line || is_slot_iack line) }
    ensures { result ≡ input_net line }
{
    if line == Line::iack(1) {
        return Line::IACK;
    }
    nth_line(line.number() - 1)
}

/// The level of the grant chain that a net belongs to, 0 to 3.
fn level_of(line: Line) -> u8
    requires { IsTrue (is_grant line) }
    ensures level { result ≡ grant_level line }
    ensures below { result < 4 }
{
    line.grant_place().unwrap_or((0, 0)).0
}

/// Whether the arbiter drives a grant net.
fn is_first(line: Line) -> bool
    requires { IsTrue (is_grant line) }
    ensures { result ≡ (grant_place line == 0) }
{
    line.grant_place().unwrap_or((0, 0)).1 == 0
}

/// Whether a slot drives a grant net.
fn is_passed_on(line: Line) -> bool
    requires { IsTrue (is_grant line) }
    ensures { result ≡ is_slot_grant line }
{
    line.grant_place().unwrap_or((0, 0)).1 > 0
}

/// Whether cycles of this class are single.
fn is_single(class: Class) -> bool
    ensures { result ≡ is_single class }
{
    matches!(class, Class::S)
}

/// Whether cycles of this class are block transfers.
fn is_block(class: Class) -> bool
    ensures { result ≡ is_block_class class }
{
    matches!(class, Class::K)
}

/// Whether cycles of this class are interrupt acknowledges.
fn is_interrupt(class: Class) -> bool
    ensures { result ≡ is_interrupt class }
{
    matches!(class, Class::I)
}

impl Bus {
    ghost use Rattle.vme_cert.specs.Instant.{IsBusOf};

    /// Whether the arbiter grants `level`, by a net other than `line`.
    fn grants_besides(&self, level: u8, line: Line) -> bool
        requires { level < 4 }
        ensures { (t : Trace) → IsBusOf t self.now
            → result ≡ (not (grant level 0 == line) && low t (grant level 0) self.now.instant) }
    {
        let net = Line::grant(level, 0);
        (net.number() != line.number()) & self.low(net)
    }

    /// Whether the arbiter grants some level by a net other than `line`.
    #[tactic(auto, unfolding(vme_trace::specs::Instants::any))]
    fn grants_other(&self, line: Line) -> bool
        ensures { (t : Trace) → IsBusOf t self.now
            → result ≡ any (λ n. not (grant n 0 == line) && low t (grant n 0) self.now.instant) 0 4 }
    {
        self.grants_besides(0, line)
            | self.grants_besides(1, line)
            | self.grants_besides(2, line)
            | self.grants_besides(3, line)
    }

    /// Whether the grant that a tenure takes here went past the last slot, so that no slot took it.
    #[tactic(auto, using(vme_trace::proofs::StretchEnds::slots_at))]
    fn is_past_last(&self) -> bool
        ensures { (t : Trace) → IsBusOf t self.now
            → result ≡ is_option_equal (tenure_slot t self.now.instant) (t.opening.slots + 1) }
    {
        match self.tenure_slot() {
            Some(slot) => slot == self.levels.slots() + 1,
            None => false,
        }
    }
}

impl State {
    /// Whether a rule is broken on a line.
    #[inline(never)]
    #[tactic(auto, unfolding(vme_trace::specs::Rules::is_broken), using(crate::proofs::Fields::asked))]
    fn is_broken(&self, bus: &Bus, rule: Rule, line: Line) -> bool
        requires has { IsTrue (has_line bus.now.levels.slots line) }
        requires its_line { IsTrue (may_be_broken_on rule line) }
        ensures { (t : Trace) (stretch : Stretch) → IsStateOf t stretch bus.now self.now
            → result ≡ is_broken t stretch rule bus.now.instant line }
    {
        match rule {
            U1 => false,
            U2 => bus.falls(Line::AS) && (needed(&bus.levels).has(line) & !bus.knows(line)),
            U3 => bus.transfer_starts() & !bus.knows(line),
            U4 => {
                bus.strobe_falls()
                    && (is_selected(&bus.levels, line)
                        & !bus.knows(line)
                        & (self.transfer.is_open
                            & (self.transfer.is_write & !self.transfer.answered)))
            }
            H1 => bus.transfer_starts() & !bus.high_near(line),
            H2 => bus.rises(line) & self.is_unanswered(bus),
            H3 => {
                let answered = (self.transfer.start < bus.instant) & self.transfer.answered;
                bus.falls(line) & (self.transfer.is_open & answered)
            }
            H4 => bus.falls(line) & !self.transfer.is_open,
            H5 => {
                let by_both = bus.falls(Line::DTACK) & bus.falls(Line::BERR);
                bus.falls(line) & (self.transfer.is_open & (self.transfer.answered | by_both))
            }
            H6 => bus.rises(line) & !(self.is_freed(line) | bus.strobe_rises()),
            H7 => bus.rises(line) & self.is_unanswered(bus),
            H8 => bus.falls(line) & self.is_answer(bus) & !bus.low_near(Line::AS),
            S1 => {
                let is_held = self.cycle.has_started
                    & (self.cycle.start < bus.instant)
                    & (self.cycle.runs & !bus.rises(Line::AS))
                    & !self.cycle.answered
                    & !self.is_answer(bus)
                    & self.cycle.needs.has(line);
                bus.has_edge(line) & is_held
            }
            S2 => {
                let is_held = self.transfer.is_open
                    & (self.transfer.start < bus.instant)
                    & !self.transfer.rose_by(bus);
                bus.has_edge(line) & is_held
            }
            S3 => {
                self.is_data_held(bus) && (is_selected(&bus.before, line) & bus.has_edge(line))
            }
            C1 => {
                let writes = self.answers_write(bus);
                let differs = self.cycle.answered_again | self.cycle.first_writes | !writes;
                let breaks_read_modify_write = is_single(self.cycle.class)
                    & (self.cycle.answered & differs);
                bus.falls(line)
                    & self.is_answer(bus)
                    & (self.cycle.has_started & breaks_read_modify_write)
            }
            C2 => {
                let differs = self.cycle.first_writes != self.answers_write(bus);
                let changes_direction = is_block(self.cycle.class)
                    & (self.cycle.answered & differs);
                bus.falls(line) & self.is_answer(bus) & (self.cycle.has_started & changes_direction)
            }
            G1 => is_passed_on(line) && (bus.falls(line) & !bus.low_near(input_of(line))),
            G2 => is_passed_on(line) && (bus.rises(line) & !bus.high_near(input_of(line))),
            G3 => is_first(line) & bus.falls(line) & bus.grants_other(line),
            G4 => bus.falls(line) & !bus.high_near(Line::BBSY),
            G5 => {
                let level = level_of(line);
                let requested = self.was_requested(level) | bus.requests(level);
                is_first(line) & bus.falls(line) & !requested
            }
            B1 => bus.falls(line) & bus.tenure_level().is_none(),
            B2 => bus.falls(line) & !(self.granted | bus.grant_falls()),
            B3 => bus.falls(line) & !bus.low_near(Line::BBSY),
            B4 => bus.falls(line) & bus.is_past_last(),
            I1 => bus.falls(line) & !bus.low_near(input_of(line)),
            I2 => {
                let strobed = bus.low_near(Line::DS0) | bus.low_near(Line::DS1);
                bus.falls(line) & !(bus.low_near(Line::AS) & strobed)
            }
            I3 => {
                let answered_by_dtack = self.cycle.has_started & self.cycle.answered_by_dtack;
                bus.falls(line) & bus.was_low(Line::AS) & bus.low(Line::AS) & answered_by_dtack
            }
            I4 => {
                let acknowledges = self.cycle.has_started & is_interrupt(self.cycle.class);
                bus.falls(line) & self.answers_write(bus) & acknowledges
            }
            I5 => {
                let again = is_interrupt(self.cycle.class) & self.cycle.answered;
                bus.falls(line) & self.is_answer(bus) & (self.cycle.has_started & again)
            }
        }
    }

    /// Whether `rule` is broken on `line`. It isn't if the rule doesn't speak of the line, or the backplane lacks the
    /// line.
    #[tactic(auto, using(crate::proofs::Breaks::asked_breaks))]
    fn breaks(&self, bus: &Bus, rule: Rule, line: Line) -> bool
        ensures { (t : Trace) (stretch : Stretch) → IsStateOf t stretch bus.now self.now
            → result ≡ breaks t stretch rule bus.now.instant line }
    {
        if !bus.levels.has(line) {
            return false;
        }
        if !may_be_broken_on(rule, line) {
            return false;
        }
        self.is_broken(bus, rule, line)
    }

    /// The least line on which `rule` is broken, of the line numbers from `first` to `end - 1`.
    #[tactic(auto, using(crate::proofs::Ranges::steps))]
    fn least_line(&self, bus: &Bus, rule: Rule, first: u8, end: u8) -> Option<Line>
        requires { end ≤ line_count }
        ensures { (t : Trace) (stretch : Stretch) → IsStateOf t stretch bus.now self.now
            → result ≡ least (breaks t stretch rule bus.now.instant) first end }
    {
        for number in first..end {
            let line = nth_line(number);
            if self.breaks(bus, rule, line) {
                return Some(line);
            }
        }
        None
    }

    /// Whether some rule is broken on a line.
    fn is_line_broken(&self, bus: &Bus, line: Line) -> bool
        requires { IsTrue (has_line bus.now.levels.slots line) }
        ensures { (t : Trace) (stretch : Stretch) (rule : BusRule) → IsStateOf t stretch bus.now self.now → result
            ≡ false
            → may_be_broken_on rule line ≡ true → is_broken t stretch rule bus.now.instant line ≡ false }
    {
        for rule in rules_on(line) {
            if self.is_broken(bus, *rule, line) {
                return true;
            }
        }
        false
    }

    /// Whether some rule is broken on a line that changes.
    fn is_change_broken(&self, bus: &Bus, changes: &[Change]) -> bool
        requires { LeadToInstant bus.now changes.now }
        ensures { (t : Trace) (stretch : Stretch) (rule : BusRule) (l : ℕ) → IsStateOf t stretch bus.now self.now
            → result ≡ false → is_changed changes.now l ≡ true → may_be_broken_on rule l ≡ true
            → is_broken t stretch rule bus.now.instant l ≡ false }
    {
        for change in changes {
            if self.is_line_broken(bus, change.line) {
                return true;
            }
        }
        false
    }

    /// Whether a transfer starts with an unknown direction, or before both answers are high.
    #[tactic(auto, using(crate::proofs::Breaks::started))]
    fn is_transfer_start_broken(&self, bus: &Bus) -> bool
        ensures direction { (t : Trace) (stretch : Stretch) (l : ℕ) → IsStateOf t stretch bus.now self.now → result
            ≡ false
            → is_broken t stretch U3 bus.now.instant l ≡ false }
        ensures answers { (t : Trace) (stretch : Stretch) (l : ℕ) → IsStateOf t stretch bus.now self.now → result
            ≡ false
            → is_broken t stretch H1 bus.now.instant l ≡ false }
    {
        if !bus.transfer_starts() {
            return false;
        }
        let direction = self.is_broken(bus, U3, Line::WRITE);
        let acknowledge = self.is_broken(bus, H1, Line::DTACK);
        let error = self.is_broken(bus, H1, Line::BERR);
        direction | acknowledge | error
    }

    /// Whether `rule` is broken on one of the lines from `first` to `last`. False at once if `asked` is false, or if
    /// all these lines are known: the caller knows that the rule isn't broken there.
    #[tactic(auto, using(crate::proofs::Breaks::within))]
    fn is_broken_within(&self, bus: &Bus, asked: bool, rule: Rule, first: Line, last: Line) -> bool
        requires { first ≤ last }
        ensures { (t : Trace) (stretch : Stretch) (l : ℕ) → IsStateOf t stretch bus.now self.now → result ≡ false
            → (asked ≡ false → breaks t stretch rule bus.now.instant l ≡ false)
            → (known t l bus.now.instant ≡ true → breaks t stretch rule bus.now.instant l ≡ false)
            → ((nat_le first l && nat_le l last) ≡ false → breaks t stretch rule bus.now.instant l ≡ false)
            → breaks t stretch rule bus.now.instant l ≡ false }
    {
        if !asked {
            return false;
        }
        if bus.levels.are_known(first, last) {
            return false;
        }
        let end = last.number() + 1;
        self.least_line(bus, rule, first.number(), end).is_some()
    }

    /// The first rule that is broken at the instant to which `changes` lead, and the least line on which it is broken.
    /// All rules are asked in order only where one is broken.
    pub(crate) fn break_at(&self, bus: &Bus, changes: &[Change]) -> Option<(Rule, Line)>
        requires { LeadToInstant bus.now changes.now }
        ensures { (t : Trace) (stretch : Stretch) → IsStateOf t stretch bus.now self.now
            → result ≡ named (break_at t stretch all_rules bus.now.instant) }
    {
        let change = self.is_change_broken(bus, changes);
        let transfer = self.is_transfer_start_broken(bus);
        let starts = bus.falls(Line::AS);
        let cycle = self.is_broken_within(bus, starts, U2, Line::IACK, Line::address(31));
        let strobed = bus.strobe_falls();
        let data = self.is_broken_within(bus, strobed, U4, Line::data(0), Line::data(31));
        if !(change | transfer | cycle | data) {
            return None;
        }
        let rules: &[Rule] = &Rule::ALL;
        for place in 0..RULE_COUNT {
            let rule = rules[place];
            if let Some(line) = self.least_line(bus, rule, 0, LINE_COUNT) {
                return Some((rule, line));
            }
        }
        None
    }
}

//! The rows that start at an instant, and those that end.

ghost use Rattle.std.specs.Prelude.{◌≡◌, ◌+◌, ◌<◌, ◌≤◌, ◌^◌, ℕ, List, Option, None, Some, if◌then◌else◌};
ghost use Rattle.vme_cert.specs.Vocabulary.{Berr, DTACK, Dtack, Read, Row, Stretch, Trace, Version, Write, address_to};
ghost use Rattle.vme_cert.specs.Vocabulary.{class_of, cycle_row, data_of, falls, needs_of, transfer_row};
ghost use Rattle.vme_cert.specs.WithEdge.{with_edge};
ghost use Rattle.vme_cert.specs.Following.{CanClose, Follows, IsInStretch, WithAnswer, WithCycle, WithTenure, LeadsOn};
ghost use Rattle.vme_cert.specs.Following.{WithTransfer};
ghost use Rattle.vme_cert.specs.Instant.{IsBusOf};
ghost use Rattle.vme_cert.specs.State.{IsLastCycle, IsOpenTransfer, IsStateOf};

use crate::bus::Bus;
use crate::comparison::OpenRow;
use crate::open_rows::OpenRows;
use crate::source::RowSource;
use crate::state::{Cycle, State, Transfer};
use vme_listing::{AnswerLine, Direction, Row};
use vme_trace::{Class, Lanes, Line, LineSet, Lines, am_class, am_code, moved_data, needed};

/// The address on the address lines in `needs`, those of a cycle that starts with the levels `lines`. A high line is 1,
/// any other is 0.
fn address_on(lines: &Lines, needs: LineSet) -> u32
    requires { needs ≡ needs_of lines.now }
    ensures { result ≡ address_to lines.now (needs_of lines.now).highest }
{
    let mut address: u32 = 0;
    for bit in 0..31 {
        let line = Line::address(bit + 1);
        if !needs.has(line) {
            return address;
        }
        if lines.level(line).is_high() {
            address += 2 << bit;
        }
    }
    address
}

/// The row of a cycle that starts at instant `start` with the levels `lines`, but for its end.
fn cycle_row(start: u32, lines: &Lines) -> Row
    ensures { result ≡ cycle_row start lines.now None (class_of lines.now) }
{
    let class = am_class(lines);
    let modifier = am_code(lines);
    let address = address_on(lines, needed(lines));
    match class {
        Class::I => {
            let level = (address / 2) as u8;
            Row::InterruptCycle {
                start,
                level,
                end: None,
            }
        }
        Class::F => Row::FreeCycle {
            start,
            modifier,
            end: None,
        },
        class => Row::AddressedCycle {
            start,
            class,
            modifier,
            address,
            end: None,
        },
    }
}

/// The direction of a transfer, by whether it is a write.
fn direction(is_write: bool) -> Direction
    ensures { result ≡ (if is_write then Write else Read) }
{
    if is_write {
        Direction::Write
    } else {
        Direction::Read
    }
}

/// The answer line: DTACK* if it falls at the instant, else BERR*.
fn answer_line(bus: &Bus) -> AnswerLine
    ensures { (t : Trace) → IsBusOf t bus.now
        → result ≡ (if falls t DTACK bus.now.instant then Dtack else Berr) }
{
    if bus.falls(Line::DTACK) {
        AnswerLine::Dtack
    } else {
        AnswerLine::Berr
    }
}

/// The data of a write that is answered at the instant: by the levels of the instant before, or by those of the
/// instant if the transfer starts there. `None` for a read.
fn answer_data(bus: &Bus, transfer: &Transfer) -> Option<Lanes>
    ensures { (t : Trace) (stretch : Stretch) (end : ℕ) → IsBusOf t bus.now
        → IsOpenTransfer t stretch (bus.now.instant + 1) bus.now.instant transfer.now
        → result ≡ data_of t stretch end transfer.now.start bus.now.instant }
{
    if !transfer.is_write {
        return None;
    }
    if transfer.start == bus.instant {
        return Some(moved_data(&bus.levels));
    }
    Some(moved_data(&bus.before))
}

/// The row of a transfer that is answered at the instant, in a cycle, but for its close.
fn answered_row(bus: &Bus, transfer: &Transfer, cycle: &Cycle) -> Row
    ensures { (t : Trace) (stretch : Stretch) (end : ℕ) (edge : Option ℕ) → IsBusOf t bus.now
        → IsOpenTransfer t stretch (bus.now.instant + 1) bus.now.instant transfer.now
        → IsLastCycle t stretch (bus.now.instant + 1) bus.now.instant cycle.now
        → with_edge result edge ≡ with_edge (transfer_row t stretch end transfer.now.start (Some bus.now.instant))
        edge }
{
    Row::Transfer {
        direction: direction(transfer.is_write),
        line: answer_line(bus),
        start: transfer.start,
        cycle: cycle.start,
        answer: bus.instant,
        close: None,
        lanes: answer_data(bus, transfer),
    }
}

impl<S: RowSource> OpenRows<S> {
    /// Starts a stretch, and the tenure that is open there, if the bus is busy.
    pub(crate) fn start(&mut self, bus: &Bus)
        requires { self.old.compared.taken < 2 ^ 61 }
        ensures rows { (whole : S.Whole) (version : Version) (done : List Row) (t : Trace) (stretch : Stretch)
            → IsBusOf t bus.now → bus.now.instant ≡ stretch.start
            → CanClose S.gave S.is_over whole version done self.old
            → Follows S.gave S.is_over whole version done t stretch (stretch.start + 1) self.new }
        ensures taken { self.new.compared.taken ≤ self.old.compared.taken + 2 }
    {
        let start = bus.instant;
        self.close_before(Row::Start { instant: start });
        if !bus.low(Line::BBSY) {
            return;
        }
        self.tenure = Some(self.compared.begin(Row::OpenTenure { start, end: None }));
    }

    /// A tenure starts where the bus becomes busy by a grant, and ends where it is free.
    #[tactic(auto, using(crate::proofs::Following::ends))]
    fn follow_tenure(&mut self, bus: &Bus)
        requires { self.old.compared.taken < 2 ^ 62 }
        ensures rows { LeadsOn bus.now self.old self.new (Follows S.gave S.is_over) (WithTenure S.gave S.is_over) }
        ensures taken { self.new.compared.taken ≤ self.old.compared.taken + 1 }
    {
        if bus.rises(Line::BBSY) {
            self.compared.compare_row(self.tenure, Some(bus.instant));
            self.tenure = None;
            return;
        }
        if !bus.falls(Line::BBSY) {
            return;
        }
        let Some(level) = bus.tenure_level() else {
            return;
        };
        let Some(slot) = bus.tenure_slot() else {
            return;
        };
        self.tenure = Some(
            self.compared.begin(Row::Tenure {
                start: bus.instant,
                level,
                slot,
                end: None,
            }),
        );
    }

    /// A cycle starts where the address strobe falls, and ends where it rises.
    #[tactic(auto, using(crate::proofs::Following::ends))]
    fn follow_cycle(&mut self, bus: &Bus)
        requires { self.old.compared.taken < 2 ^ 62 }
        ensures rows { LeadsOn bus.now self.old self.new (WithTenure S.gave S.is_over) (WithCycle S.gave S.is_over) }
        ensures taken { self.new.compared.taken ≤ self.old.compared.taken + 1 }
    {
        if bus.rises(Line::AS) {
            self.compared.compare_row(self.cycle, Some(bus.instant));
            self.cycle = None;
            return;
        }
        if !bus.falls(Line::AS) {
            return;
        }
        let row = cycle_row(bus.instant, &bus.levels);
        self.cycle = Some(self.compared.begin(row));
    }

    /// Starts a transfer, not yet answered, if one starts at the instant.
    fn begin_transfer(&mut self, bus: &Bus)
        requires { self.old.compared.taken < 2 ^ 62 }
        ensures rows { LeadsOn bus.now self.old self.new (WithCycle S.gave S.is_over) (WithTransfer S.gave S.is_over) }
        ensures taken { self.new.compared.taken ≤ self.old.compared.taken + 1 }
    {
        if !bus.transfer_starts() {
            return;
        }
        self.transfer = Some(
            self.compared.begin(Row::PendingTransfer {
                start: bus.instant,
                direction: direction(bus.low(Line::WRITE)),
            }),
        );
    }

    /// Puts the answer in the row of the open transfer, if it is answered at the instant and a cycle has started.
    fn answer_transfer(&mut self, bus: &Bus, state: &State)
        ensures rows { (whole : S.Whole) (version : Version) (done : List Row) (t : Trace) (stretch : Stretch)
            → IsStateOf t stretch bus.now state.now
            → WithTransfer S.gave S.is_over whole version done t stretch bus.now.instant self.old
            → WithAnswer S.gave S.is_over whole version done t stretch bus.now.instant self.new }
        ensures taken { self.new.compared.taken ≡ self.old.compared.taken }
    {
        if !state.is_answer(bus) {
            return;
        }
        let Some(open) = self.transfer else {
            return;
        };
        let started = state.cycle.has_started;
        if !started {
            return;
        }
        let row = answered_row(bus, &state.transfer, &state.cycle);
        self.transfer = Some(OpenRow {
            place: open.place,
            given: open.given,
            expected: row.in_version(self.compared.version),
        });
    }

    /// Closes the open transfer, if both strobes are high.
    #[tactic(auto, using(crate::proofs::Following::ends))]
    fn close_transfer(&mut self, bus: &Bus)
        ensures rows { (whole : S.Whole) (version : Version) (done : List Row) (t : Trace) (stretch : Stretch)
            → IsInStretch t stretch bus.now
            → WithAnswer S.gave S.is_over whole version done t stretch bus.now.instant self.old
            → Follows S.gave S.is_over whole version done t stretch (bus.now.instant + 1) self.new }
        ensures taken { self.new.compared.taken ≡ self.old.compared.taken }
    {
        if !bus.strobes_high() {
            return;
        }
        self.compared.compare_row(self.transfer, Some(bus.instant));
        self.transfer = None;
    }

    /// Starts and ends the rows that do so at a judged instant without a break.
    pub(crate) fn follow_instant(&mut self, bus: &Bus, state: &State)
        requires { self.old.compared.taken < 2 ^ 61 }
        ensures rows { (whole : S.Whole) (version : Version) (done : List Row) (t : Trace) (stretch : Stretch)
            → IsStateOf t stretch bus.now state.now
            → Follows S.gave S.is_over whole version done t stretch bus.now.instant self.old
            → Follows S.gave S.is_over whole version done t stretch (bus.now.instant + 1) self.new }
        ensures taken { self.new.compared.taken ≤ self.old.compared.taken + 3 }
    {
        self.follow_tenure(bus);
        self.follow_cycle(bus);
        self.begin_transfer(bus);
        self.answer_transfer(bus, state);
        self.close_transfer(bus);
    }
}

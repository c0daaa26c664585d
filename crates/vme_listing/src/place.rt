//! Which rows there are, and which may follow which.
#![tactic(auto)]

ghost use Rattle.std.specs.Prelude.{◌≡◌, ◌==◌};
ghost use Rattle.vme_listing.specs.Places.{are_digits_from, has_class, is_address, is_allowed_data, is_allowed_digit};
ghost use Rattle.vme_listing.specs.Places.{is_allowed_outcome};
ghost use Rattle.vme_listing.specs.Places.{has_data, is_row, is_start, is_reset, is_verdict, is_never_idle, place_of};
ghost use Rattle.vme_listing.specs.Places.{may_follow, ascends};

use crate::row::{Direction, ListedVerdict, Row, Version};
use vme_trace::{Class, Lanes, MOST_SLOTS, Space, is_block};

/// Whether cycles of the class have an address, and may have this address modifier code.
fn has_class(modifier: u8, class: Class) -> bool
    ensures { result ≡ has_class modifier class }
{
    match class {
        Class::S => !is_block(modifier),
        Class::K => is_block(modifier),
        Class::I | Class::F => false,
    }
}

/// Whether the address is one of the space of the code: its bit 0 is 0, and it has no more digits than the space.
fn is_address(modifier: u8, address: u32) -> bool
    ensures { result ≡ is_address modifier address }
{
    let fits = match Space::of(modifier) {
        Some(Space::Extended) => true,
        Some(Space::Standard) => address < 0x100_0000,
        Some(Space::Short) => address < 0x1_0000,
        None => false,
    };
    fits && address % 2 == 0
}

impl ListedVerdict {
    /// Whether the verdict is one that its form allows.
    fn is_allowed_outcome(self) -> bool
        ensures { result ≡ is_allowed_outcome self }
    {
        match self {
            ListedVerdict::Conforming | ListedVerdict::NeverIdle => true,
            ListedVerdict::Broken(rule, _, _) => !rule.is_unreadable(),
            ListedVerdict::Unreadable(rule, _, _) => rule.is_unreadable(),
        }
    }
}

/// Whether a digit of the data of a write is one that its form allows, with its bit of the unknown digits.
fn is_allowed_digit(is_moved: bool, digit: u32, flag: u8) -> bool
    ensures { result ≡ is_allowed_digit is_moved digit flag }
{
    (is_moved || flag == 0) && ((is_moved && flag == 0) || digit == 0)
}

/// Whether the four lower digits of the data of a write are ones that their form allows.
fn are_low_digits(lanes: Lanes) -> bool
    ensures { result ≡ are_digits_from lanes 0 }
{
    let moved = lanes.moved;
    let value = lanes.value;
    let flags = lanes.unknown;
    is_allowed_digit(moved.has_digit(0), value % 16, flags % 2)
        && is_allowed_digit(moved.has_digit(1), value / 0x10 % 16, flags / 2 % 2)
        && is_allowed_digit(moved.has_digit(2), value / 0x100 % 16, flags / 4 % 2)
        && is_allowed_digit(moved.has_digit(3), value / 0x1000 % 16, flags / 8 % 2)
}

/// Whether the four higher digits of the data of a write are ones that their form allows.
fn are_high_digits(lanes: Lanes) -> bool
    ensures { result ≡ are_digits_from lanes 4 }
{
    let moved = lanes.moved;
    let value = lanes.value;
    let flags = lanes.unknown;
    is_allowed_digit(moved.has_digit(4), value / 0x1_0000 % 16, flags / 16 % 2)
        && is_allowed_digit(moved.has_digit(5), value / 0x10_0000 % 16, flags / 32 % 2)
        && is_allowed_digit(moved.has_digit(6), value / 0x100_0000 % 16, flags / 64 % 2)
        && is_allowed_digit(
            moved.has_digit(7),
            value / 0x1000_0000 % 16,
            flags / 128 % 2,
        )
}

/// Whether the data of a write is data that its form allows: the types bound its numbers.
#[tactic(auto, unfolding(crate::specs::Places::is_allowed_data))]
fn is_allowed_data(lanes: Lanes) -> bool
    ensures { result ≡ is_allowed_data lanes }
{
    are_low_digits(lanes) && are_high_digits(lanes)
}

/// Whether the row of an answered transfer of this direction may have this data, or none.
fn has_data(version: Version, direction: Direction, lanes: Option<Lanes>) -> bool
    ensures { result ≡ has_data version direction lanes }
{
    let needs_data = version.includes_data() && direction == Direction::Write;
    match lanes {
        Some(lanes) => needs_data && is_allowed_data(lanes),
        None => !needs_data,
    }
}

/// Whether the row is one that its form allows: the types bound its other numbers.
#[tactic(auto, unfolding(crate::specs::Places::is_row))]
fn is_allowed(version: Version, row: Row) -> bool
    ensures { result ≡ is_row version row }
{
    match row {
        Row::Start { .. } | Row::OpenTenure { .. } | Row::PendingTransfer { .. } => true,
        Row::Reset { .. } => version.includes_resets(),
        Row::Tenure { level, slot, .. } => level < 4 && 1 <= slot && slot <= MOST_SLOTS,
        Row::AddressedCycle {
            class,
            modifier,
            address,
            ..
        } => has_class(modifier, class) && is_address(modifier, address),
        Row::FreeCycle { modifier, .. } => modifier < 64 && Space::of(modifier).is_none(),
        Row::InterruptCycle { level, .. } => level < 8,
        Row::Transfer {
            direction,
            lanes,
            ..
        } => has_data(version, direction, lanes),
        Row::Verdict(outcome) => outcome.is_allowed_outcome(),
    }
}

impl Row {
    /// Whether the row is one that its form allows.
    pub(crate) fn is_row(&self, version: Version) -> bool
        ensures { result ≡ is_row version self.now }
    {
        is_allowed(version, *self)
    }

    /// Whether the row says that judging starts.
    fn is_start(&self) -> bool
        ensures { result ≡ is_start self.now }
    {
        matches!(self, Row::Start { .. })
    }

    /// Whether the row is of a reset.
    fn is_reset(&self) -> bool
        ensures { result ≡ is_reset self.now }
    {
        matches!(self, Row::Reset { .. })
    }

    /// Whether the row is a verdict.
    pub(crate) fn is_verdict(&self) -> bool
        ensures { result ≡ is_verdict self.now }
    {
        matches!(self, Row::Verdict(_))
    }

    /// Whether the row is the verdict that the bus is never idle.
    fn is_never_idle(&self) -> bool
        ensures { result ≡ is_never_idle self.now }
    {
        matches!(self, Row::Verdict(ListedVerdict::NeverIdle))
    }

    /// The place of a row: its first instant, and the number of its kind in the order of the kinds. A verdict has none.
    /// A start has one only where the version has resets.
    fn place(&self, version: Version) -> Option<(u32, u8)>
        ensures { result ≡ place_of version self.now }
    {
        match *self {
            Row::Reset { instant } => Some((instant, 0)),
            Row::Start { instant } => version.includes_resets().then_some((instant, 1)),
            Row::OpenTenure { start, .. } | Row::Tenure { start, .. } => Some((start, 2)),
            Row::AddressedCycle { start, .. }
            | Row::FreeCycle { start, .. }
            | Row::InterruptCycle { start, .. } => Some((start, 3)),
            Row::Transfer { start, .. } | Row::PendingTransfer { start, .. } => Some((start, 4)),
            Row::Verdict(_) => None,
        }
    }

    /// Whether by its form the row may follow the row `before`, or be the first.
    pub(crate) fn may_follow(&self, before: Option<Row>) -> bool
        ensures { result ≡ may_follow before self.now }
    {
        match before {
            None => self.is_start() || self.is_never_idle(),
            Some(row) if row.is_verdict() || self.is_never_idle() => false,
            Some(row) if row.is_reset() => self.is_start() || self.is_verdict(),
            Some(_) => !self.is_start(),
        }
    }

    /// Whether the place of the row is later than that of the row `before`; true where one of them has no place, and
    /// for the first row.
    pub(crate) fn ascends(&self, version: Version, before: Option<Row>) -> bool
        ensures { result ≡ ascends version before self.now }
    {
        let Some(row) = before else {
            return true;
        };
        match (row.place(version), self.place(version)) {
            (Some((first, earlier)), Some((second, later))) => {
                first < second || (first == second && earlier < later)
            }
            _ => true,
        }
    }
}

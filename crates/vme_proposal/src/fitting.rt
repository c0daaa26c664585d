//! The constants for the lines that weren't found, which fit those that were.

use vme_declarations::{FoundLines, Groups, VariableBit};
use vme_trace::{LINE_COUNT, Line, MOST_SLOTS};

/// Whether arbitration is judged, or why its lines are bound to constants.
#[derive(Clone, Copy, PartialEq, Eq)]
pub(crate) enum ArbitrationStatus {
    /// Arbitration is judged.
    Judged,
    /// The arbiter's net was found of no level, or wasn't found of a level that is used.
    NoGrants,
    /// BBSY wasn't found.
    NoBusy,
    /// Neither BBSY nor a grant moves.
    NeverMoves,
}

/// What was found, and what the other lines are bound to.
#[derive(Drop)]
pub(crate) struct Fitted {
    /// The bits of variables that lines were found to be.
    pub found: FoundLines,
    /// The lines that are bound to 0 unless they are found.
    low: [bool; LINE_COUNT as usize],
    /// Whether arbitration is judged, or why not.
    pub arbitration: ArbitrationStatus,
    /// Whether the acknowledge chain is judged.
    pub has_chain: bool,
    /// The code that the address modifier lines show where they weren't found.
    pub code: u8,
    /// The groups of which a line was found, bound or not.
    pub named: Groups,
}

impl Fitted {
    /// Makes constants that fit what was found.
    pub(crate) fn new(found: FoundLines) -> Fitted {
        let mut fitted = Fitted {
            arbitration: arbitration(&found),
            has_chain: found.bit_of_line(Line::IACK).is_some()
                && found.bit_of_line(Line::iack(1)).is_some(),
            code: code_for(&found),
            named: found.groups(),
            found,
            low: [false; LINE_COUNT as usize],
        };
        fitted.fit_arbitration();
        fitted.fit_acknowledges();
        fitted.fit_modifiers();
        fitted
    }

    /// Whether a line that isn't bound to a variable is bound to 0.
    pub(crate) fn is_low(&self, line: Line) -> bool {
        self.low
            .get(usize::from(line.number()))
            .copied()
            .unwrap_or(false)
    }

    /// Binds a line to 0 unless it is found.
    fn set_low(&mut self, line: Line) {
        if let Some(low) = self.low.get_mut(usize::from(line.number())) {
            *low = true;
        }
    }

    /// Where arbitration isn't judged, BBSY is constantly Low, and the requests and grants are constantly High. Where
    /// it is judged, the request of a level whose arbiter's net was found is constantly Low if it wasn't found itself.
    fn fit_arbitration(&mut self) {
        if self.arbitration != ArbitrationStatus::Judged {
            self.set_low(Line::BBSY);
            self.found.forget(Line::BBSY);
        }
        for level in 0..4 {
            if self.arbitration != ArbitrationStatus::Judged {
                self.found.forget(Line::bus_request(level));
                for place in 0..MOST_SLOTS + 1 {
                    self.found.forget(Line::grant(level, place));
                }
            } else if self.found.bit_of_line(Line::grant(level, 0)).is_some() {
                self.set_low(Line::bus_request(level));
                self.fill_grants(level);
            }
        }
    }

    /// Binds a net that is missing between two others to the net before it, as if its slot were empty.
    fn fill_grants(&mut self, level: u8) {
        if level >= 4 {
            return;
        }
        let mut last = 0;
        for place in 1..MOST_SLOTS + 1 {
            if self.found.bit_of_line(Line::grant(level, place)).is_some() {
                last = place;
            }
        }
        let mut before: Option<VariableBit> = None;
        for place in 0..MOST_SLOTS + 1 {
            let line = Line::grant(level, place);
            if self.found.bit_of_line(line).is_none() && place < last {
                self.found.set(line, before);
            }
            before = self.found.bit_of_line(line);
        }
    }

    /// Binds the nets of the acknowledge chain that are missing between two others to the net before them. Without the
    /// first net or IACK the chain isn't judged, and none of its nets is bound to a variable.
    fn fit_acknowledges(&mut self) {
        let mut last = 0;
        for place in 1..MOST_SLOTS + 1 {
            let line = Line::iack(place);
            if !self.has_chain {
                self.found.forget(line);
            } else if self.found.bit_of_line(line).is_some() {
                last = place;
            }
        }
        let mut before: Option<VariableBit> = None;
        for place in 1..MOST_SLOTS + 1 {
            let line = Line::iack(place);
            if self.found.bit_of_line(line).is_none() && place < last {
                self.found.set(line, before);
            }
            before = self.found.bit_of_line(line);
        }
    }

    /// Binds the address modifier lines that weren't found to the bits of `code`.
    fn fit_modifiers(&mut self) {
        for bit in 0..6 {
            if self.code >> bit & 1 == 0 {
                self.set_low(Line::address_modifier(bit));
            }
        }
    }
}

/// The address modifier code that fits the address lines that were found: an extended code where a line above A23 was
/// found, a standard one where one above A15 was, a short one where one below was. Where none was, it is a user-defined
/// code, which needs no address and says nothing of how many transfers a cycle has.
fn code_for(found: &FoundLines) -> u8 {
    if has_address(found, 24, 31) {
        0x0D
    } else if has_address(found, 16, 23) {
        0x3D
    } else if has_address(found, 1, 15) {
        0x2D
    } else {
        0x10
    }
}

/// Whether an address line from `first` to `last` was found.
fn has_address(found: &FoundLines, first: u8, last: u8) -> bool {
    for bit in 1..32 {
        if first <= bit && bit <= last && found.bit_of_line(Line::address(bit)).is_some() {
            return true;
        }
    }
    false
}

/// Whether the net of the level's grant chain that the arbiter drives was found.
fn is_granted(found: &FoundLines, level: u8) -> bool {
    level < 4 && found.bit_of_line(Line::grant(level, 0)).is_some()
}

/// Whether the level is used, i.e. its request or a net of its chain moves, and its grants can't be judged.
fn lacks_grants(found: &FoundLines, level: u8) -> bool {
    if level >= 4 || is_granted(found, level) {
        return false;
    }
    let has_net = (1..MOST_SLOTS + 1).any(|place| found.moves(Line::grant(level, place)));
    has_net || found.moves(Line::bus_request(level))
}

/// Whether arbitration is judged, or why not.
fn arbitration(found: &FoundLines) -> ArbitrationStatus {
    if found.bit_of_line(Line::BBSY).is_none() {
        return ArbitrationStatus::NoBusy;
    }
    if !(0..4).any(|level| is_granted(found, level))
        || (0..4).any(|level| lacks_grants(found, level))
    {
        return ArbitrationStatus::NoGrants;
    }
    let moves = (0..4).any(|level| found.moves(Line::grant(level, 0)));
    if moves || found.moves(Line::BBSY) {
        ArbitrationStatus::Judged
    } else {
        ArbitrationStatus::NeverMoves
    }
}

//! The text of a binding for what was found.

use crate::fitting::{ArbitrationStatus, Fitted};
use crate::paths::{Naming, Paths, selection_of};
use std::alloc::{AllocError, Global};
use vme_declarations::{FoundLines, VariableBit, group_of};
use vme_text::{Text, push_escaped};
use vme_trace::{LINE_COUNT, Line, MOST_SLOTS};

/// What to know of a line that wasn't found, by the beginning of its name.
const HINTS: [(&[u8], &str); 14] = [
    (
        b"AM",
        "the code fits the address lines that were found; bind the code that the masters use, bit by bit",
    ),
    (b"AS", "without AS there are no cycles to judge"),
    (
        b"A",
        "right for A24 to A31 of a bus on P1 alone; that a missing line changes isn't seen",
    ),
    (b"BBSY", "one master keeps the bus"),
    (
        b"BERR",
        "right where no slave and no bus timer answers by BERR; a transfer that BERR answered breaks H2 or H7 else",
    ),
    (
        b"BG",
        "right for a level that isn't used; a tenure by it breaks B1 else",
    ),
    (
        b"BR",
        "1 is right for a level that isn't used, and 0 for one that is granted: G5 is never broken then",
    ),
    (
        b"DS",
        "right for a strobe that isn't used; without both there are no transfers to judge",
    ),
    (
        b"DTACK",
        "a transfer that DTACK answered breaks H2 or H7 else",
    ),
    (
        b"IACK",
        "right where no interrupt is acknowledged; such a cycle is taken for an ordinary one else",
    ),
    (
        b"IA",
        "right where no interrupt is acknowledged; I1 to I3 are never broken else",
    ),
    (b"LWORD", "it is only asked to be known and held"),
    (b"WRITE", "each transfer then counts as a read"),
    (
        b"D",
        "right for D16 to D31 of a bus on P1 alone; that a missing line is unknown or changes isn't seen",
    ),
];

/// What is said where no data line was found.
const NO_DATA: &str = "# D wasn't found and is left out: the data of writes aren't judged\n";

/// What is said where the system reset wasn't found.
const NO_RESET: &str =
    "# SYSRESET wasn't found and is left out: a reset in the middle of a cycle is told as a break\n";

/// What is said of a name of which no line was found.
const NOT_FOUND: &str = " wasn't found: 1 is what it shows when nobody drives it";

/// What is said of the address modifier where no line of it was found.
const NO_CODE: &str = " wasn't found";

/// What is said of a group of which some lines weren't found, or can't be named.
const NOT_WHOLE: &str =
    " wasn't found whole, or its bits have no index: the lines that are missing are bound to constants";

/// What is said after a path that different variables of the dump have.
const AMBIGUOUS: &str =
    ", which no binding tells apart: the lines that are missing are bound to constants";

/// What is said where no line is bound, after where the lines were looked for.
const NOTHING_BOUND: &str = " was found for any line of the bus.\n\
# Each line below is a constant: a check by this binding judges nothing of the dump.\n";

/// What is said of BBSY, BR and the grants where BBSY wasn't found.
const NO_BUSY: &str =
    "# BBSY wasn't found: BBSY is 0, and BR and the grants are at rest, as if one master kept the bus\n";

/// What is said of BBSY, BR and the grants where grants of a level that is used weren't found.
const NO_GRANTS: &str =
    "# Not all grants of the levels that are used were found: BBSY is 0, and BR and the grants are at rest, as if one \
     master kept the bus\n";

/// What is said of BBSY, BR and the grants where neither BBSY nor a grant moves.
const NEVER_GRANTED: &str =
    "# Neither BBSY nor a grant moves: BBSY is 0, and BR and the grants are at rest, as if one master kept the bus\n";

/// What is said of the acknowledge chain where it isn't judged, though IACK moves.
const NO_CHAIN: &str =
    "# IA wasn't found whole: its nets are 1, and I1 to I3 say nothing, though IACK moves\n";

/// What is said of a group of which a board's output was found too, beside what is bound.
const DOUBLED: &str =
    " was found as an output of a board too: what is bound shows the level of the bus, look it over\n";

/// The text so far, and what it is made from.
#[derive(Drop)]
pub(crate) struct Proposal<'a> {
    alloc: Global,
    text: Text,
    paths: &'a Paths<'a>,
    fitted: &'a Fitted,
}

impl<'a> Proposal<'a> {
    /// Nothing is written yet.
    pub(crate) fn new(alloc: Global, paths: &'a Paths<'a>, fitted: &'a Fitted) -> Proposal<'a> {
        Proposal {
            alloc,
            text: Text::new(alloc),
            paths,
            fitted,
        }
    }

    /// Writes a binding of all lines of a backplane of `slots` slots.
    pub(crate) fn write(&mut self, slots: u8) -> Result<(), AllocError> {
        self.write_head(slots)?;
        for line in [
            Line::AS,
            Line::DS0,
            Line::DS1,
            Line::DTACK,
            Line::BERR,
            Line::IACK,
            Line::LWORD,
            Line::WRITE,
        ] {
            self.write_group(line.name().as_bytes(), line.number(), 1)?;
        }
        self.write_arbitration_status()?;
        self.write_group(b"BBSY", Line::BBSY.number(), 1)?;
        self.write_group(b"AM", Line::address_modifier(5).number(), 6)?;
        self.write_group(b"A", Line::address(31).number(), 31)?;
        self.write_data()?;
        self.write_reset()?;
        self.write_group(b"BR", Line::bus_request(3).number(), 4)?;
        self.write_chains(slots)
    }

    /// Says why arbitration isn't judged, if it isn't.
    fn write_arbitration_status(&mut self) -> Result<(), AllocError> {
        let said = match self.fitted.arbitration {
            ArbitrationStatus::Judged => return Ok(()),
            ArbitrationStatus::NoBusy => NO_BUSY,
            ArbitrationStatus::NoGrants => NO_GRANTS,
            ArbitrationStatus::NeverMoves => NEVER_GRANTED,
        };
        if self.is_any_named() {
            self.text.push(said.as_bytes())
        } else {
            Ok(())
        }
    }

    /// Whether nothing is said of `name`, which isn't bound, since a comment on several names says it.
    fn has_shared_comment(&self, name: &[u8]) -> bool {
        let is_unjudged = self.fitted.arbitration != ArbitrationStatus::Judged;
        (is_unjudged
            && (name == b"BBSY".as_slice() || name.starts_with(b"BR") || name.starts_with(b"BG")))
            || (name == b"IA".as_slice() && self.has_chain_comment())
    }

    /// Whether a comment says that the acknowledge chain isn't judged.
    fn has_chain_comment(&self) -> bool {
        !self.fitted.has_chain && self.fitted.found.moves(Line::IACK)
    }

    /// Writes the data lines, or why they are left out.
    fn write_data(&mut self) -> Result<(), AllocError> {
        let first = Line::data(31).number();
        if (0..32).all(|place| self.bit_of_line(first, place).is_none()) {
            return self.text.push(NO_DATA.as_bytes());
        }
        self.write_group(b"D", first, 32)
    }

    /// Writes the system reset, or why it is left out.
    fn write_reset(&mut self) -> Result<(), AllocError> {
        let reset = Line::SYSRESET;
        if self.fitted.found.bit_of_line(reset).is_none() {
            return self.text.push(NO_RESET.as_bytes());
        }
        self.write_group(reset.name().as_bytes(), reset.number(), 1)
    }

    /// Writes the nets of the daisy chains.
    fn write_chains(&mut self, slots: u8) -> Result<(), AllocError> {
        let slots = slots.clamp(1, MOST_SLOTS);
        let names: [&[u8]; 4] = [b"BG0", b"BG1", b"BG2", b"BG3"];
        for level in 0..4 {
            let name = names[usize::from(level)];
            self.write_group(name, Line::grant(level, slots).number(), slots + 1)?;
        }
        if self.has_chain_comment() {
            self.text.push(NO_CHAIN.as_bytes())?;
        }
        self.write_group(b"IA", Line::iack(slots).number(), slots)
    }

    /// Writes where the lines were found, and how many slots there are.
    fn write_head(&mut self, slots: u8) -> Result<(), AllocError> {
        let fitted = self.fitted;
        if self.is_any_named() {
            self.text.push(b"# Found by the names in the scope ")?;
            push_scope(&mut self.text, self.alloc, &fitted.found.scope)?;
            self.text.push(b": look each line over.\n")?;
        } else {
            self.text.push(b"# NOTHING IS BOUND: no variable ")?;
            push_searched(&mut self.text, self.alloc, &fitted.found)?;
            self.text.push(NOTHING_BOUND.as_bytes())?;
        }
        for scope in &fitted.found.others {
            self.text.push(b"# Names of lines stand also in ")?;
            push_scope(&mut self.text, self.alloc, scope)?;
            self.text.push(b".\n")?;
        }
        self.text.push(b"slots ")?;
        self.text.push_decimal(self.alloc, u64::from(slots))?;
        self.text.push(b"\n")
    }

    /// Writes the group `name`, which has `count` lines from the number `first` down: whole, where they are consecutive
    /// bits of one variable in this order, which the format can name, or else line by line.
    fn write_group(&mut self, name: &[u8], first: u8, count: u8) -> Result<(), AllocError> {
        if (0..count).all(|place| self.bit_of_line(first, place).is_none()) {
            return self.write_unfound(name, first, count);
        }
        self.write_doubled(name, first)?;
        if let Some(bit_of_line) = self.run(first, count) {
            if self.push_source(name, bit_of_line, u32::from(count))? {
                return Ok(());
            }
        }
        if let Some(variable) = self.ambiguous(first, count) {
            self.write_ambiguous(name, variable)?;
        } else if !(0..count).all(|place| self.is_named(first, place)) {
            self.write_hint(name, NOT_WHOLE)?;
        }
        for place in 0..count {
            self.write_line(first.saturating_sub(place))?;
        }
        Ok(())
    }

    /// Writes the group `name`, of which no line was found: whole, where its lines are bound to one constant, or else
    /// line by line.
    fn write_unfound(&mut self, name: &[u8], first: u8, count: u8) -> Result<(), AllocError> {
        let lows = self.count_low(first, count);
        let is_mixed = 0 < lows && lows < count;
        if !self.has_shared_comment(name) {
            self.write_hint(
                name,
                if is_mixed || lows > 0 {
                    NO_CODE
                } else {
                    NOT_FOUND
                },
            )?;
        }
        if !is_mixed {
            return self.write_constant(name, lows > 0);
        }
        for place in 0..count {
            self.write_line(first.saturating_sub(place))?;
        }
        Ok(())
    }

    /// The number of lines that are bound to 0, of the `count` lines from the number `first` down.
    fn count_low(&self, first: u8, count: u8) -> u8 {
        let mut lows: u8 = 0;
        for place in 0..count {
            if self.is_low(first.saturating_sub(place)) {
                lows = lows.saturating_add(1);
            }
        }
        lows
    }

    /// Says that a group was found as an output too.
    fn write_doubled(&mut self, name: &[u8], first: u8) -> Result<(), AllocError> {
        let Some(line) = Line::from_number(first) else {
            return Ok(());
        };
        if self.fitted.found.doubled & group_of(line) == 0 {
            return Ok(());
        }
        self.text.push(b"# ")?;
        self.text.push(name)?;
        self.text.push(DOUBLED.as_bytes())
    }

    /// Whether the line with this number is bound to 0 if it isn't bound to a variable.
    fn is_low(&self, number: u8) -> bool {
        match Line::from_number(number) {
            Some(line) => self.fitted.is_low(line),
            None => false,
        }
    }

    /// How the format can name the bit that was found for the line whose number is `first` minus `place`.
    fn line_naming(&self, first: u8, place: u8) -> Option<Naming> {
        let bit_of_line = self.bit_of_line(first, place)?;
        Some(
            self.paths
                .naming(bit_of_line.variable, bit_of_line.place, 1),
        )
    }

    /// Whether the format can name the bit that was found for the line whose number is `first` minus `place`.
    fn is_named(&self, first: u8, place: u8) -> bool {
        matches!(
            self.line_naming(first, place),
            Some(Naming::Whole | Naming::Selected)
        )
    }

    /// The number of lines that are bound to variables, of the `count` lines from the number `first` down: all, where
    /// they are bits of one variable that can be named together, or else those whose bit can be named.
    pub(crate) fn count_bound(&self, first: u8, count: u8) -> u8 {
        if let Some(bit_of_line) = self.run(first, count) {
            let naming = self
                .paths
                .naming(bit_of_line.variable, bit_of_line.place, u32::from(count));
            if matches!(naming, Naming::Whole | Naming::Selected) {
                return count;
            }
        }
        let mut bound: u8 = 0;
        for place in 0..count {
            if self.is_named(first, place) {
                bound = bound.saturating_add(1);
            }
        }
        bound
    }

    /// Whether the format can name a bit that was found for any line.
    fn is_any_named(&self) -> bool {
        (0..LINE_COUNT).any(|number| self.is_named(number, 0))
    }

    /// The first variable with an ambiguous path, of those that were found for the `count` lines from the number
    /// `first` down.
    fn ambiguous(&self, first: u8, count: u8) -> Option<usize> {
        for place in 0..count {
            if self.line_naming(first, place) == Some(Naming::Ambiguous) {
                return Some(self.bit_of_line(first, place)?.variable);
            }
        }
        None
    }

    /// Writes the line with this number alone.
    fn write_line(&mut self, number: u8) -> Result<(), AllocError> {
        let Some(line) = Line::from_number(number) else {
            return Ok(());
        };
        let name = line.name();
        if let Some(bit_of_line) = self.fitted.found.bit_of_line(line) {
            if self.push_source(name.as_bytes(), bit_of_line, 1)? {
                return Ok(());
            }
        }
        self.write_constant(name.as_bytes(), self.fitted.is_low(line))
    }

    /// The bit that was found for the line whose number is `first` minus `place`.
    fn bit_of_line(&self, first: u8, place: u8) -> Option<VariableBit> {
        let line = Line::from_number(first.checked_sub(place)?)?;
        self.fitted.found.bit_of_line(line)
    }

    /// The bit of the first line, if the `count` lines from the number `first` down are bits of one variable, from this
    /// bit on to the right.
    fn run(&self, first: u8, count: u8) -> Option<VariableBit> {
        let start = self.bit_of_line(first, 0)?;
        let follows = (0..count).all(|place| {
            self.bit_of_line(first, place)
                == Some(VariableBit {
                    variable: start.variable,
                    place: start.place.saturating_add(u32::from(place)),
                })
        });
        if follows { Some(start) } else { None }
    }

    /// Writes that `name` is bound to `count` bits of a variable, from `bit_of_line` on, if the format can name them.
    /// The result is whether it can.
    fn push_source(
        &mut self,
        name: &[u8],
        bit_of_line: VariableBit,
        count: u32,
    ) -> Result<bool, AllocError> {
        let paths = self.paths;
        let Some(variable) = paths.variable(bit_of_line.variable) else {
            return Ok(false);
        };
        let naming = paths.naming(bit_of_line.variable, bit_of_line.place, count);
        if !matches!(naming, Naming::Whole | Naming::Selected) {
            return Ok(false);
        }
        self.push_name(name)?;
        paths.push_path(&mut self.text, variable)?;
        if naming == Naming::Selected {
            self.push_selection(selection_of(variable, bit_of_line.place, count))?;
        }
        self.text.push(b"\n")?;
        Ok(true)
    }

    /// Writes the bits of a variable that are selected, from the left one to the right one.
    fn push_selection(&mut self, selection: (u32, u32)) -> Result<(), AllocError> {
        let (left, right) = selection;
        self.text.push(b"[")?;
        self.text.push_decimal(self.alloc, u64::from(left))?;
        if left != right {
            self.text.push(b":")?;
            self.text.push_decimal(self.alloc, u64::from(right))?;
        }
        self.text.push(b"]")
    }

    /// Writes the name of a line or a group, and an equals sign.
    fn push_name(&mut self, name: &[u8]) -> Result<(), AllocError> {
        self.text.push(name)?;
        self.text.push(b" = ")
    }

    /// Writes the binding of a line or a group to a constant.
    fn write_constant(&mut self, name: &[u8], is_low: bool) -> Result<(), AllocError> {
        self.push_name(name)?;
        self.text.push(if is_low { b"0\n" } else { b"1\n" })
    }

    /// Writes what is wrong with a name, and what to know of it.
    fn write_hint(&mut self, name: &[u8], wrong: &str) -> Result<(), AllocError> {
        self.text.push(b"# ")?;
        self.text.push(name)?;
        self.text.push(wrong.as_bytes())?;
        self.push_hint(name)
    }

    /// Writes that `name` isn't bound, or not whole, since another variable has the path of this one.
    fn write_ambiguous(&mut self, name: &[u8], variable: usize) -> Result<(), AllocError> {
        self.text.push(b"# ")?;
        self.text.push(name)?;
        self.text.push(b" was found, but the dump has different variables of the path ")?;
        let paths = self.paths;
        if let Some(variable) = paths.variable(variable) {
            let mut path = Text::new(self.alloc);
            paths.push_path(&mut path, variable)?;
            push_escaped(&mut self.text, self.alloc, path.as_bytes())?;
        }
        self.text.push(AMBIGUOUS.as_bytes())?;
        self.push_hint(name)
    }

    /// Appends what to know of a name that isn't bound, and ends the line.
    fn push_hint(&mut self, name: &[u8]) -> Result<(), AllocError> {
        for (beginning, hint) in HINTS {
            if name.starts_with(beginning) {
                self.text.push(b"; ")?;
                self.text.push(hint.as_bytes())?;
                break;
            }
        }
        self.text.push(b"\n")
    }

    /// What was found, and what the other lines are bound to.
    pub(crate) fn fitted(&self) -> &Fitted {
        self.fitted
    }

    /// The text.
    pub(crate) fn into_text(self) -> Text {
        self.text
    }
}

/// Appends the path of a scope, as it is shown to people.
fn push_scope(text: &mut Text, alloc: Global, scope: &[u8]) -> Result<(), AllocError> {
    if scope.is_empty() {
        text.push(b"(none)")
    } else {
        push_escaped(text, alloc, scope)
    }
}

/// Appends where lines were looked for: in the whole dump, or in the scope that was asked for.
pub(crate) fn push_searched(
    text: &mut Text,
    alloc: Global,
    found: &FoundLines,
) -> Result<(), AllocError> {
    if !found.is_asked {
        text.push(b"of the dump")
    } else if found.scope.is_empty() {
        text.push(b"outside of all scopes")
    } else {
        text.push(b"in scope ")?;
        push_escaped(text, alloc, &found.scope)
    }
}

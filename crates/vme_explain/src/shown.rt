//! Which lines an excerpt shows. `instants` are the levels of all lines at each instant of the excerpt.

use std::alloc::{AllocError, Global};
use vme_trace::{Break, Level, Line, Lines, MOST_SLOTS, Rule};

/// The lines that are shown, none of them twice.
#[derive(Drop)]
struct ShownLines {
    lines: Vec<Line>,
}

impl ShownLines {
    /// Adds a line, if it isn't there yet.
    fn add(&mut self, line: Line) -> Result<(), AllocError> {
        if !self.lines.contains(&line) {
            self.lines.push(line)?;
        }
        Ok(())
    }

    /// Adds lines.
    fn add_all(&mut self, lines: &[Line]) -> Result<(), AllocError> {
        for line in lines {
            self.add(*line)?;
        }
        Ok(())
    }

    /// Adds a net, if it is Low at one of the instants, or is the input of the board that drives the line
    /// `broken_line`.
    fn add_net(
        &mut self,
        net: Line,
        broken_line: Line,
        instants: &[Lines],
    ) -> Result<(), AllocError> {
        if is_low(instants, net) || is_input_of(net, broken_line) {
            self.add(net)?;
        }
        Ok(())
    }

    /// Adds the bus request line of a request level, and of the nets of its grant chain those that `add_net` adds. A
    /// request level over 3 counts as 3.
    fn add_request_level(
        &mut self,
        request_level: u8,
        broken_line: Line,
        slots: u8,
        instants: &[Lines],
    ) -> Result<(), AllocError> {
        let request_level = request_level.min(3);
        self.add(Line::bus_request(request_level))?;
        for place in 0..slots.min(MOST_SLOTS) + 1 {
            self.add_net(Line::grant(request_level, place), broken_line, instants)?;
        }
        Ok(())
    }

    /// Adds what `add_request_level` adds of each request level that is granted at one of the instants.
    fn add_granted_levels(
        &mut self,
        broken_line: Line,
        slots: u8,
        instants: &[Lines],
    ) -> Result<(), AllocError> {
        for request_level in 0..4 {
            if is_low(instants, Line::grant(request_level, 0)) {
                self.add_request_level(request_level, broken_line, slots, instants)?;
            }
        }
        Ok(())
    }

    /// Adds the line of a break, and the lines that its rule refers to.
    fn add_broken(
        &mut self,
        rule: Rule,
        line: Line,
        slots: u8,
        instants: &[Lines],
    ) -> Result<(), AllocError> {
        self.add(line)?;
        match rule {
            Rule::G1 | Rule::G2 | Rule::G3 | Rule::G5 => {
                if let Some(request_level) = request_level_of(line) {
                    self.add_request_level(request_level, line, slots, instants)?;
                }
                self.add_granted_levels(line, slots, instants)
            }
            Rule::G4 | Rule::B4 => {
                self.add(Line::BBSY)?;
                self.add_granted_levels(line, slots, instants)
            }
            Rule::B1 | Rule::B2 => {
                self.add_granted_levels(line, slots, instants)?;
                for request_level in 0..4 {
                    self.add(Line::grant(request_level, 0))?;
                }
                Ok(())
            }
            Rule::I1 => {
                self.add(Line::IACK)?;
                self.add_acknowledges(line, slots, instants)
            }
            Rule::I2 | Rule::I3 => {
                self.add_all(&[Line::AS, Line::DS0, Line::DS1, Line::DTACK, Line::IACK])?;
                self.add_acknowledges(line, slots, instants)
            }
            Rule::I4 | Rule::I5 => self.add_all(&[Line::WRITE, Line::IACK]),
            Rule::C1 | Rule::C2 => self.add_all(&[Line::WRITE, Line::AS]),
            Rule::B3 => self.add(Line::BBSY),
            _ => Ok(()),
        }
    }

    /// Adds of the nets of the acknowledge chain those that `add_net` adds.
    fn add_acknowledges(
        &mut self,
        broken_line: Line,
        slots: u8,
        instants: &[Lines],
    ) -> Result<(), AllocError> {
        for slot in 1..slots.min(MOST_SLOTS) + 1 {
            self.add_net(Line::iack(slot), broken_line, instants)?;
        }
        Ok(())
    }
}

/// Whether a line is Low at one of the instants.
fn is_low(instants: &[Lines], line: Line) -> bool {
    instants
        .iter()
        .any(|lines| lines.has(line) && lines.level(line) == Level::Low)
}

/// Whether a net is the input of the board that drives a line: the net before it in its chain.
fn is_input_of(net: Line, line: Line) -> bool {
    let is_before = line.number() == net.number().saturating_add(1);
    match line.grant_place() {
        Some((request_level, _)) => is_before && request_level_of(net) == Some(request_level),
        None => is_before && line.is_acknowledge() && net.is_acknowledge(),
    }
}

/// Whether the bus is reset at one of the instants.
fn is_reset(instants: &[Lines]) -> bool {
    instants.iter().any(|lines| lines.is_reset())
}

/// The request level of a net of a grant chain, `None` for any other line.
fn request_level_of(line: Line) -> Option<u8> {
    let (request_level, _place) = line.grant_place()?;
    Some(request_level)
}

/// The lines of an excerpt, each once: if there is a break, its line and those that its rule refers to; then AS, DS0,
/// DS1, DTACK, BERR, WRITE, IACK and BBSY; and SYSRESET if the bus is reset at one of the instants.
pub(crate) fn lines_shown(
    alloc: Global,
    found: Option<&Break>,
    slots: u8,
    instants: &[Lines],
) -> Result<Vec<Line>, AllocError> {
    let mut shown = ShownLines {
        lines: Vec::new(alloc),
    };
    if let Some(found) = found {
        shown.add_broken(found.rule, found.line, slots, instants)?;
    }
    shown.add_all(&[
        Line::AS,
        Line::DS0,
        Line::DS1,
        Line::DTACK,
        Line::BERR,
        Line::WRITE,
        Line::IACK,
        Line::BBSY,
    ])?;
    if is_reset(instants) {
        shown.add(Line::SYSRESET)?;
    }
    Ok(shown.lines)
}

//! The lines that a piece of a dump assigns a level to.

ghost use Rattle.std.specs.Prelude.{◌≡◌};
ghost use Rattle.vme_bind.specs.AssignedLines.{is_assigned, none_assigned, with_assigned};

use crate::net_lines::LineBit;
use std::marker::Model;
use vme_trace::{LINE_COUNT, Line};

/// The lines that a level was assigned to: a flag for each line number.
#[derive(Drop)]
pub(crate) struct AssignedLines {
    lines: [bool; LINE_COUNT as usize],
}

impl Model for AssignedLines {
    ghost use Rattle.std.specs.Prelude.{Bool, List};

    ghost Value = { List Bool };

    ghost view = { λ t. t.lines };
}

impl AssignedLines {
    /// No line was assigned a level.
    pub fn none() -> AssignedLines
        ensures { result ≡ none_assigned }
    {
        AssignedLines {
            lines: [false; LINE_COUNT as usize],
        }
    }

    /// Whether `line` was assigned a level.
    pub fn has(&self, line: Line) -> bool
        ensures { result ≡ is_assigned self.now line }
    {
        self.lines[line.number() as usize]
    }

    /// Sets the flags of the lines of `line_bits`. Most nets have one line or none.
    #[inline(always)]
    pub fn assign(&mut self, line_bits: &[LineBit])
        ensures { self.new ≡ with_assigned line_bits.now self.old }
    {
        match line_bits {
            [] => {}
            [line_bit] => self.lines[line_bit.line.number() as usize] = true,
            _ => self.assign_each(line_bits),
        }
    }

    /// Notes each of these lines.
    #[inline(never)]
    fn assign_each(&mut self, line_bits: &[LineBit])
        ensures { self.new ≡ with_assigned line_bits.now self.old }
    {
        for line_bit in line_bits {
            self.lines[line_bit.line.number() as usize] = true;
        }
    }
}

//! What a step does to a line, to the strobes and to the answers, by the levels before and after it.

ghost use Rattle.std.specs.Prelude.{◌≡◌, IsTrue};
ghost use Rattle.vme_trace.specs.Edges.{answer_between, falls_between, low_near, rises_between, starts_between};
ghost use Rattle.vme_trace.specs.Edges.{strobe_falls_between, strobe_low_in, strobe_rises_between, strobes_high_in};
ghost use Rattle.vme_trace.specs.LineNumbers.{has_line};

use crate::line::Line;
use crate::lines::Lines;

/// Whether a line that the backplane has falls.
#[inline(always)]
pub fn falls(before: &Lines, after: &Lines, line: Line) -> bool
    requires before { IsTrue (has_line before.now.slots line) }
    requires after { IsTrue (has_line after.now.slots line) }
    ensures { result ≡ falls_between before.now after.now line }
{
    before.level(line).is_high() && after.level(line).is_low()
}

/// Whether a line that the backplane has rises.
#[inline(always)]
pub fn rises(before: &Lines, after: &Lines, line: Line) -> bool
    requires before { IsTrue (has_line before.now.slots line) }
    requires after { IsTrue (has_line after.now.slots line) }
    ensures { result ≡ rises_between before.now after.now line }
{
    before.level(line).is_low() && after.level(line).is_high()
}

/// Whether a line that the backplane has is low on one side of the step.
#[inline(always)]
pub fn is_low_near(before: &Lines, after: &Lines, line: Line) -> bool
    requires before { IsTrue (has_line before.now.slots line) }
    requires after { IsTrue (has_line after.now.slots line) }
    ensures { result ≡ low_near before.now after.now line }
{
    before.level(line).is_low() || after.level(line).is_low()
}

/// Whether both data strobes are high.
#[inline(always)]
pub fn has_strobes_high(lines: &Lines) -> bool
    ensures { result ≡ strobes_high_in lines.now }
{
    lines.level(Line::DS0).is_high() && lines.level(Line::DS1).is_high()
}

/// Whether a data strobe is low.
#[inline(always)]
pub fn has_strobe_low(lines: &Lines) -> bool
    ensures { result ≡ strobe_low_in lines.now }
{
    lines.level(Line::DS0).is_low() || lines.level(Line::DS1).is_low()
}

/// Whether a data strobe rises.
#[inline(always)]
pub fn strobe_rises(before: &Lines, after: &Lines) -> bool
    ensures { result ≡ strobe_rises_between before.now after.now }
{
    rises(before, after, Line::DS0) || rises(before, after, Line::DS1)
}

/// Whether a data strobe falls.
#[inline(always)]
pub fn strobe_falls(before: &Lines, after: &Lines) -> bool
    ensures { result ≡ strobe_falls_between before.now after.now }
{
    falls(before, after, Line::DS0) || falls(before, after, Line::DS1)
}

/// Whether a transfer starts: both data strobes were high, and one is low.
#[inline(always)]
pub fn starts_transfer(before: &Lines, after: &Lines) -> bool
    ensures { result ≡ starts_between before.now after.now }
{
    has_strobes_high(before) && has_strobe_low(after)
}

/// Whether an answer line falls.
#[inline(always)]
pub fn answer_falls(before: &Lines, after: &Lines) -> bool
    ensures { result ≡ answer_between before.now after.now }
{
    falls(before, after, Line::DTACK) || falls(before, after, Line::BERR)
}

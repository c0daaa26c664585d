//! The sum of a backplane.

ghost use Rattle.std.specs.Prelude.{◌≡◌, ◌<◌, ◌++◌, IfOk, OnOk};
ghost use Rattle.vme_trace.specs.LineNumbers.{line_count};
ghost use Rattle.vme_part_format.specs.PartText.{level_code};
ghost use Rattle.vme_part_command.specs.Backplane.{backplane_of, line_code, line_codes};

use std::alloc::{AllocError, Global};
use vme_part_format::sum_of_bytes;
use vme_trace::{LINE_COUNT, Level, Line, Lines};

/// The code of a level: 0 for Low, 1 for High, 2 for Unknown.
fn code_of(level: Level) -> u8
    ensures { result ≡ level_code level }
{
    match level {
        Level::Low => 0,
        Level::High => 1,
        Level::Unknown => 2,
    }
}

/// The code of the level of the line with this number; a line that the backplane lacks is Unknown.
fn code_at(opening: &Lines, number: u8) -> u8
    requires { number < line_count }
    ensures { result ≡ line_code opening.now number }
{
    match Line::from_number(number) {
        Some(line) if opening.has(line) => code_of(opening.level(line)),
        _ => code_of(Level::Unknown),
    }
}

/// Adds the code of each line's level before any change.
fn put_codes(bytes: &mut Vec<u8>, opening: &Lines) -> Result<(), AllocError>
    ensures { OnOk result (bytes.new.items ≡ bytes.old.items ++ line_codes opening.now) }
{
    for number in 0..LINE_COUNT {
        bytes.push(code_at(opening, number))?;
    }
    Ok(())
}

/// The sum of a backplane: a checksum of the number of slots and of each line's level before any change. A line that
/// the binding makes a constant has this constant. A line to which it gives bits of a variable is Unknown.
#[tactic(auto, unfolding(crate::specs::Backplane::backplane_of))]
pub(crate) fn backplane_sum(alloc: Global, opening: &Lines) -> Result<u64, AllocError>
    ensures { IfOk result (λ sum. sum ≡ backplane_of opening.now) }
{
    let mut bytes = Vec::new(alloc);
    bytes.push(opening.slots())?;
    put_codes(&mut bytes, opening)?;
    Ok(sum_of_bytes(bytes.as_slice()))
}

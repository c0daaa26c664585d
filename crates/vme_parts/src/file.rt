//! A dump's recording as a file of a recording, with a number.

ghost use Rattle.std.specs.Prelude.{◌≡◌, ◌≤◌, None, length};
ghost use Rattle.vme_trace.specs.WellFormed.{malformed_step};
ghost use Rattle.vme_parts.specs.Opened.{opening_of, steps_of};

use vme_trace::{Lines, Step};

/// The steps of `steps_of_file`, with the same arguments.
fn steps_after_opening<'a>(
    number: u32,
    first_time: Option<u64>,
    opening: &mut Lines,
    steps: &'a [Step],
) -> &'a [Step]
    ensures opening { opening.new ≡ opening_of number first_time opening.old steps.now }
    ensures steps { result.now ≡ steps_of number first_time steps.now }
{
    if number == 0 {
        return steps;
    }
    match (first_time, steps) {
        (Some(time), [first, rest @ ..]) if first.time == time => {
            opening.apply(first.changes.as_slice());
            rest
        }
        _ => steps,
    }
}

/// The steps of the file `number`, where `opening` and `steps` are the recording of a dump. `first_time` is the dump's
/// first time, if it has one. For number 0 the file is the dump's recording. For a greater number the file's steps are
/// those after the first time, and `opening` becomes the levels after that time. A well-formed recording stays so.
pub fn steps_of_file<'a>(
    number: u32,
    first_time: Option<u64>,
    opening: &mut Lines,
    steps: &'a [Step],
) -> &'a [Step]
    ensures opening { opening.new ≡ opening_of number first_time opening.old steps.now }
    ensures steps { result.now ≡ steps_of number first_time steps.now }
    ensures formed { malformed_step (record { opening = opening.old; steps = steps.now }) ≡ None
        → malformed_step (record { opening = opening.new; steps = result.now }) ≡ None }
    ensures few { length result.now ≤ length steps.now }
{
    steps_after_opening(number, first_time, opening, steps)
}

//! Where the body of a dump stops.

ghost use Rattle.std.specs.Prelude.{◌≡◌, ◌≤◌};
ghost use Rattle.vme_trace.specs.Streams.{Reading};
ghost use Rattle.vme_stream.specs.Inputs.{longest_input};
ghost use Rattle.vme_dump_input.specs.DumpBeginnings.{IsDumpRefused};
ghost use Rattle.vme_dump_input.specs.BodyPieces.{FailsPiece};

use crate::buffered_input::BufferedInput;
use crate::definitions::refused_for;
use vcd_read::VcdFault;
use vme_step_reader::{StepReader, StoppedSteps};
use vme_stream::Refusal;
use vme_trace::{Lines, Source};

/// The fault at which a body stops.
pub fn fault_of(stopped: StoppedSteps) -> VcdFault
    ensures { result ≡ stopped.fault }
{
    let StoppedSteps {
        fault,
        time: _,
        steps: _,
    } = stopped;
    fault
}

/// The refusal where a body isn't read on: for `fault` of the dump, or, without one, for want of memory.
pub fn refused_in_body<D: Source>(
    dump: &mut D,
    input: &mut BufferedInput,
    fault: Option<VcdFault>,
) -> Refusal
    ensures { (old : Reading) → input.old.limit ≡ longest_input
        → FailsPiece old (D.reading dump.old) input.old fault → IsDumpRefused old (D.reading dump.new) result }
{
    match fault {
        Some(fault) => refused_for(dump, input, fault),
        None => Refusal::Memory,
    }
}

/// The levels that a body opens with, which are those of a backplane.
pub fn opening_of(reader: &StepReader) -> &Lines
    ensures is { result.now ≡ reader.now.given.opening }
    ensures few { reader.now.given.opening.slots ≤ 21 }
{
    prove!(reader.opening().slots() <= 21);
    reader.opening()
}

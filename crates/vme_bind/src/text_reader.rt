//! The reader that makes the recording of a dump's text, which comes in pieces.

ghost use Rattle.std.specs.Option.{ForSome};
ghost use Rattle.vme_bind.specs.TextCapture.{IsOfBinding};

use crate::capture_builder::CaptureBuilder;
use crate::fault::BindFault;
use vcd_read::BodyReader;
use vme_trace::StepVisitor;

/// Makes the recording of a dump by a binding, as far as the pieces of the dump's text were taken.
#[derive(Drop)]
pub struct TextReader<F: StepVisitor> {
    pub(crate) body_reader: BodyReader<CaptureBuilder<F>>,
    /// Why the binding makes no recording of the dump. It is reported at the end, if the dump has no fault.
    pub(crate) fault: Option<BindFault>,
    ghost own: { ForSome fault IsOfBinding },
}

//! Texts that a command writes, or why there are none.

ghost use Rattle.std.specs.Prelude.{[]};
ghost use Rattle.vme_stream.specs.Ends.{Ends};
ghost use Rattle.vme_text_commands.specs.TextAnswers.{text_answer_by};

use vme_stream::{Refusal, tell_refusal, write_answer};
use vme_text::Text;
use vme_trace::Sink;

/// Writes a text to `out`, and returns `status`; or writes to `err` why there is none, and returns the refusal's
/// status. Where the text can't be written, the status is 5.
pub fn tell_text<O: Sink, E: Sink>(
    made: &Result<Text, Refusal>,
    status: u8,
    out: &mut O,
    err: &mut E,
) -> u8
    ensures { Ends (text_answer_by status made.now)
        (O.writing out.old, O.writing out.new) (E.writing err.old, E.writing err.new) result }
{
    match made {
        Ok(text) => write_answer(text.as_bytes(), status, out, err),
        Err(refusal) => tell_refusal(refusal, err),
    }
}

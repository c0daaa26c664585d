//! What the refusals of inputs mean.

ghost use Rattle.std.specs.Prelude.{ℕ, List, Result};
ghost use Rattle.vme_stream.specs.Ends.{Ends};
ghost use Rattle.vme_text_commands.specs.TextAnswers.{ArePages, text_answer_by};
ghost use Rattle.vme_stream.specs.declared.refusal.Refusal.{Refusal};

use crate::telling::tell_text;
use std::alloc::Global;
use vme_faults::{RefusalKind, faults_text};
use vme_stream::Refusal;
use vme_text::Text;
use vme_trace::Sink;

/// Writes the page of a kind of refusal, or that of each: what it means, what was expected, what usually causes it and
/// the remedy. Returns the exit status: 0, 4 for want of memory, or 5 where the text can't be written.
pub fn tell_faults<O: Sink, E: Sink>(
    alloc: Global,
    only: Option<RefusalKind>,
    out: &mut O,
    err: &mut E,
) -> u8
    ensures { (made : Result (List ℕ) Refusal) × ArePages only made × Ends (text_answer_by 0 made)
        (O.writing out.old, O.writing out.new) (E.writing err.old, E.writing err.new) result }
{
    let made = text_of_faults(alloc, only);
    tell_text(&made, 0, out, err)
}

/// The text of the page of a kind of fault, or of all.
fn text_of_faults(alloc: Global, only: Option<RefusalKind>) -> Result<Text, Refusal>
    ensures { ArePages only result }
{
    match faults_text(alloc, only) {
        Ok(text) => Ok(text),
        Err(_) => Err(Refusal::Memory),
    }
}

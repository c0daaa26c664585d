//! The lines on standard error where there is no answer.

ghost use Rattle.std.specs.Prelude.{◌≡◌, IfOk};
ghost use Rattle.vme_stream.specs.Outputs.{TriesToWrite};
ghost use Rattle.vme_stream.specs.Answers.{refusal_answer};
ghost use Rattle.vme_stream.specs.Texts.{line_of};
ghost use Rattle.vme_stream.specs.declared.refusal.Refusal.TheVariants.{Memory};
ghost use Rattle.vme_part_command.specs.PartAnswers.{Complains, ComplainsUnlessMemory, refusing};
ghost use Rattle.vme_part_command.specs.Lines.{input_text};

use std::alloc::{AllocError, Global};
use vme_audit_lines::dump_head;
use vme_stream::{Message, Refusal, complain, say, tell_refusal};
use vme_text::Text;
use vme_trace::Sink;

/// Writes that memory ran out. The answer is the exit status.
pub(crate) fn no_memory<E: Sink>(err: &mut E) -> u8
    ensures { Complains (refusal_answer Memory) (E.writing err.old, E.writing err.new) result }
{
    tell_refusal(&Refusal::Memory, err)
}

/// Writes a line that refuses something. The answer is the exit status, 3.
pub(crate) fn refuse<E: Sink>(line: Message, err: &mut E) -> u8
    ensures told { TriesToWrite (E.writing err.old) (E.writing err.new) line }
    ensures status { result ≡ 3 }
{
    complain(err, line);
    3
}

/// The line that `what` is wrong with the input `name`, in which bytes that a line can't have are `?`.
fn input_line(alloc: Global, name: &[u8], what: &[u8]) -> Result<Text, AllocError>
    ensures { IfOk result (λ text. text ≡ line_of (input_text name.now what.now)) }
{
    let head = dump_head(alloc, name)?;
    let mut text = Text::new(alloc);
    text.push(b"vmecheck: ")?;
    text.push(head.as_bytes())?;
    text.push(what)?;
    text.push(b"\n")?;
    Ok(text)
}

/// Writes the line that `what` is wrong with the input `name`. The answer is the exit status.
pub(crate) fn tell_input<E: Sink>(alloc: Global, name: &[u8], what: &[u8], err: &mut E) -> u8
    ensures { ComplainsUnlessMemory (refusing (input_text name.now what.now))
        (E.writing err.old, E.writing err.new) result }
{
    match input_line(alloc, name, what) {
        Ok(line) => {
            say(err, line.as_bytes());
            3
        }
        Err(_) => no_memory(err),
    }
}

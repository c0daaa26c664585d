//! The variables of a dump.

ghost use Rattle.std.specs.Prelude.{ℕ, List, Option, Result};
ghost use Rattle.vcd_read.specs.Meaning.{dump_of};
ghost use Rattle.vme_stream.specs.Answers.{dump_read, or_bad_dump};
ghost use Rattle.vme_stream.specs.Ends.{Ends};
ghost use Rattle.vme_stream.specs.Inputs.{IsReading};
ghost use Rattle.vme_text_commands.specs.Refused.{HasRefusalPage};
ghost use Rattle.vme_text_commands.specs.TextAnswers.{IsTextOf, TellsVariables, text_answer_with};
ghost use Rattle.vme_stream.specs.declared.refusal.Refusal.{Refusal};

use crate::refused::{NamedInput, complain_with, show_dump};
use std::alloc::Global;
use vme_stream::{Input, Refusal, read_all, write_answer};
use vme_text::Text;
use vme_trace::{Sink, Source};
use vme_variables::variables_text;

/// Writes the variables of the dump to `out`. If it can't be read, writes to `err` why, as `check` does, and then what
/// the dump, named `name`, has there and what the refusal means. Returns the exit status: 0, 3 where the dump is
/// refused, 4 for want of memory, 5 where the text can't be written.
pub fn tell_variables<D: Source, O: Sink, E: Sink>(
    alloc: Global,
    dump: &mut D,
    name: &[u8],
    out: &mut O,
    err: &mut E,
) -> u8
    ensures { TellsVariables (D.reading dump.old, D.reading dump.new)
        (O.writing out.old, O.writing out.new) (E.writing err.old, E.writing err.new) result }
{
    let mut shown = Text::new(alloc);
    let made = variables_from(alloc, dump, name, &mut shown);
    tell_or_complain(alloc, &made, &shown, out, err)
}

/// Writes a text to `out`, or to `err` why there is none, with the excerpt `shown` of the input.
fn tell_or_complain<O: Sink, E: Sink>(
    alloc: Global,
    made: &Result<Text, Refusal>,
    shown: &Text,
    out: &mut O,
    err: &mut E,
) -> u8
    ensures { (more : List ℕ) × HasRefusalPage made.now more × Ends (text_answer_with more made.now)
        (O.writing out.old, O.writing out.new) (E.writing err.old, E.writing err.new) result }
{
    match made {
        Ok(text) => write_answer(text.as_bytes(), 0, out, err),
        Err(refusal) => {
            complain_with(alloc, err, refusal, shown);
            refusal.status()
        }
    }
}

/// The text of the variables of a dump that is read, or why there is none; `shown` is then the excerpt.
fn variables_from<D: Source>(
    alloc: Global,
    dump: &mut D,
    name: &[u8],
    shown: &mut Text,
) -> Result<Text, Refusal>
    ensures { (bytes : Option (List ℕ))
        × IsReading (D.reading dump.old) (D.reading dump.new) bytes
        × IsTextOf (dump_read bytes) result }
{
    match read_all(alloc, dump) {
        Ok(text) => variables_in(alloc, text.as_slice(), name, shown),
        Err(fault) => Err(Refusal::of_input(Input::Dump, fault)),
    }
}

/// The text of the variables of a dump, or why there is none; `shown` is then the excerpt.
fn variables_in(alloc: Global, dump: &[u8], name: &[u8], shown: &mut Text) -> Result<Text, Refusal>
    ensures { IsTextOf (or_bad_dump (dump_of dump.now)) result }
{
    match variables_text(alloc, dump) {
        Ok(text) => Ok(text),
        Err(fault) => {
            let refusal = Refusal::of_dump(fault);
            show_dump(shown, alloc, &refusal, NamedInput::new(name, dump));
            Err(refusal)
        }
    }
}

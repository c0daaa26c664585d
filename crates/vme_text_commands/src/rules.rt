//! What the rules require.

ghost use Rattle.std.specs.Prelude.{ℕ, List, Result};
ghost use Rattle.vme_stream.specs.Ends.{Ends};
ghost use Rattle.vme_text_commands.specs.TextAnswers.{AreGuides, text_answer_by};
ghost use Rattle.vme_stream.specs.declared.refusal.Refusal.{Refusal};

use crate::telling::tell_text;
use std::alloc::Global;
use vme_rules::rules_text;
use vme_stream::Refusal;
use vme_text::Text;
use vme_trace::{Rule, Sink};

/// Writes what a rule requires, or each of them, with the line that a break (a violation) names, the section of the
/// standard and the usual causes. Returns the exit status: 0, 4 for want of memory, or 5 where the text can't be
/// written.
pub fn tell_rules<O: Sink, E: Sink>(
    alloc: Global,
    only: Option<Rule>,
    out: &mut O,
    err: &mut E,
) -> u8
    ensures { (made : Result (List ℕ) Refusal) × AreGuides only made × Ends (text_answer_by 0 made)
        (O.writing out.old, O.writing out.new) (E.writing err.old, E.writing err.new) result }
{
    let made = text_of_rules(alloc, only);
    tell_text(&made, 0, out, err)
}

/// The text of the page of a rule, or of all.
fn text_of_rules(alloc: Global, only: Option<Rule>) -> Result<Text, Refusal>
    ensures { AreGuides only result }
{
    match rules_text(alloc, only) {
        Ok(text) => Ok(text),
        Err(_) => Err(Refusal::Memory),
    }
}

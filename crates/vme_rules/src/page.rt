//! The guides as text.

ghost use Rattle.std.specs.Prelude.{◌≡◌, ◌++◌, IfOk, OnOk, flat_map};
ghost use Rattle.vme_rules.specs.Guides.{guide_row, guide_rows, guide_text, guides_text};

use crate::guide::Guide;
use std::alloc::{AllocError, Global};
use vme_text::Text;
use vme_trace::Rule;

/// Appends the guide of a rule, four lines. Without memory the text ends somewhere in them.
pub fn push_rule(text: &mut Text, rule: Rule) -> Result<(), AllocError>
    ensures { OnOk result (text.new ≡ text.old ++ guide_text rule) }
{
    let guide = Guide::of(rule);
    let name = rule.name();
    push_rows(
        text,
        name.as_bytes(),
        guide.sentence.as_bytes(),
        guide.line.as_bytes(),
        guide.section.as_bytes(),
        guide.causes.as_bytes(),
    )
}

/// Appends the four lines of a guide.
fn push_rows(
    text: &mut Text,
    name: &[u8],
    sentence: &[u8],
    line: &[u8],
    section: &[u8],
    causes: &[u8],
) -> Result<(), AllocError>
    ensures { OnOk result (text.new ≡ text.old ++ guide_rows name.now sentence.now line.now section.now causes.now) }
{
    push_row(text, name, sentence)?;
    push_row(text, b"  line", line)?;
    push_row(text, b"  section", section)?;
    push_row(text, b"  usually", causes)
}

/// Appends one line: the name, a colon and the value.
fn push_row(text: &mut Text, name: &[u8], value: &[u8]) -> Result<(), AllocError>
    ensures { OnOk result (text.new ≡ text.old ++ guide_row name.now value.now) }
{
    text.push(name)?;
    text.push(b": ")?;
    text.push(value)?;
    text.push(b"\n")
}

/// Appends the guides of these rules.
fn push_rules(text: &mut Text, rules: &[Rule]) -> Result<(), AllocError>
    ensures { OnOk result (text.new ≡ text.old ++ flat_map guide_text rules.now) }
{
    for rule in rules {
        push_rule(text, *rule)?;
    }
    Ok(())
}

/// The guide of the rule `only`, or without it the guides of all rules, in their order. It fails if memory runs out.
pub fn rules_text(alloc: Global, only: Option<Rule>) -> Result<Text, AllocError>
    ensures { IfOk result (λ text. text ≡ guides_text only) }
{
    let mut text = Text::new(alloc);
    match only {
        Some(rule) => push_rule(&mut text, rule)?,
        None => push_rules(&mut text, &Rule::ALL)?,
    }
    Ok(text)
}

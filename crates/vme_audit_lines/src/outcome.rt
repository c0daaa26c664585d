//! The outcome of an audit, as a line and as an exit status.

ghost use Rattle.std.specs.Prelude.{◌≡◌, ◌++◌, IfOk, OnOk, codes, decimal};
ghost use Rattle.vme_stream.specs.Texts.{line_of};
ghost use Rattle.vme_audit_lines.specs.AuditLines.{conforming_text, gap_text, outcome_status as status_of};
ghost use Rattle.vme_audit_lines.specs.AuditLines.{outcome_text};

use std::alloc::{AllocError, Global};
use vme_audit::{CoverageGap, Outcome};
use vme_text::Text;

/// The line of an outcome, after `head`. It fails if memory runs out.
pub fn outcome_line(alloc: Global, head: &[u8], outcome: &Outcome) -> Result<Text, AllocError>
    ensures { IfOk result (λ text. text ≡ head.now ++ line_of (outcome_text outcome.now)) }
{
    let mut text = Text::new(alloc);
    text.push(head)?;
    push_outcome(alloc, &mut text, outcome)?;
    text.push(b"\n")?;
    Ok(text)
}

/// Appends an outcome. If memory runs out, only a part of it is appended.
fn push_outcome(alloc: Global, text: &mut Text, outcome: &Outcome) -> Result<(), AllocError>
    ensures { OnOk result (text.new ≡ text.old ++ outcome_text outcome.now) }
{
    match outcome {
        Outcome::Conforming { allowed } => push_conforming(alloc, text, *allowed),
        Outcome::NotCovered { gap } => push_gap(alloc, text, gap),
        Outcome::Broken => text.push(b"broken"),
        Outcome::Unreadable => text.push(b"unreadable"),
    }
}

/// Appends that nothing is broken except what is allowed. If memory runs out, only a part is appended.
fn push_conforming(alloc: Global, text: &mut Text, allowed: u64) -> Result<(), AllocError>
    ensures { OnOk result (text.new ≡ text.old ++ conforming_text allowed) }
{
    if allowed == 0 {
        text.push(b"conforming")
    } else {
        push_allowed(alloc, text, allowed)
    }
}

/// Appends that nothing is broken except `allowed` allowed breaks.
fn push_allowed(alloc: Global, text: &mut Text, allowed: u64) -> Result<(), AllocError>
    ensures { OnOk result (text.new ≡ text.old ++ codes "conforming with " ++ decimal allowed ++ codes " allowed") }
{
    text.push(b"conforming with ")?;
    text.push_decimal(alloc, allowed)?;
    text.push(b" allowed")
}

/// Appends why a recording isn't covered. If memory runs out, only a part is appended.
fn push_gap(alloc: Global, text: &mut Text, gap: &CoverageGap) -> Result<(), AllocError>
    ensures { OnOk result (text.new ≡ text.old ++ gap_text gap.now) }
{
    match gap {
        CoverageGap::NeverIdle => text.push(b"not covered: never idle"),
        CoverageGap::NeverIdleBehind { instant } => {
            text.push(b"not covered: never idle behind instant ")?;
            text.push_decimal(alloc, *instant)
        }
        CoverageGap::FewAnswers { answered, wanted } => {
            text.push(b"not covered: ")?;
            text.push_decimal(alloc, *answered)?;
            text.push(b" of ")?;
            text.push_decimal(alloc, *wanted)?;
            text.push(b" transfers answered")
        }
        CoverageGap::Hang { instant, time } => {
            text.push(b"not covered: transfer at instant ")?;
            text.push_decimal(alloc, *instant)?;
            text.push(b" time ")?;
            text.push_decimal(alloc, *time)?;
            text.push(b" without an answer")
        }
    }
}

/// The exit status of an outcome: 0 conforming, 1 broken, 2 unreadable, 6 not covered.
pub fn outcome_status(outcome: &Outcome) -> u8
    ensures { result ≡ status_of outcome.now }
{
    match outcome {
        Outcome::Conforming { .. } => 0,
        Outcome::Broken => 1,
        Outcome::Unreadable => 2,
        Outcome::NotCovered { .. } => 6,
    }
}

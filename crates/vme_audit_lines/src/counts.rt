//! The counts of a recording, as lines.

ghost use Rattle.std.specs.Prelude.{◌≡◌, ◌++◌, IfOk, OnOk, decimal};
ghost use Rattle.vme_stream.specs.Texts.{line_of};
ghost use Rattle.vme_audit_lines.specs.AuditLines.{break_counts_text, count_lines as lines_of, cycle_counts_text};
ghost use Rattle.vme_audit_lines.specs.AuditLines.{name_unless_asked, names_text, transfer_counts_text};
ghost use Rattle.vme_audit_lines.specs.AuditLines.{unasked, unasked_among, unasked_line};

use std::alloc::{AllocError, Global};
use vme_audit::Counts;
use vme_auditor::{AskedEvents, AuditFindings, BreakCounts};
use vme_text::Text;
use vme_trace::Rule;

/// The lines of counts, each after `head`: breaks by how they count; resets, tenures and cycles; transfers; and the
/// rules that are never asked, if there are any. It fails if memory runs out.
pub fn count_lines(
    alloc: Global,
    head: &[u8],
    breaks: BreakCounts,
    findings: &AuditFindings,
) -> Result<Text, AllocError>
    ensures { IfOk result (λ text. text ≡ lines_of head.now breaks findings.now) }
{
    let mut text = Text::new(alloc);
    push_breaks(alloc, &mut text, head, breaks)?;
    push_cycles(alloc, &mut text, head, &findings.counts)?;
    push_transfers(alloc, &mut text, head, &findings.counts)?;
    push_unasked(alloc, &mut text, head, &findings.events)?;
    Ok(text)
}

/// Appends a number, and `behind` after it. If memory runs out, here and in the functions below, only a part is
/// appended.
fn push_number(alloc: Global, text: &mut Text, number: u64, behind: &[u8]) -> Result<(), AllocError>
    ensures { OnOk result (text.new ≡ text.old ++ decimal number ++ behind.now) }
{
    text.push_decimal(alloc, number)?;
    text.push(behind)
}

/// Appends a sum, and `behind` after it.
fn push_sum(alloc: Global, text: &mut Text, sum: u128, behind: &[u8]) -> Result<(), AllocError>
    ensures { OnOk result (text.new ≡ text.old ++ decimal sum ++ behind.now) }
{
    let digits = sum.to_string(alloc)?;
    text.push(digits.as_bytes())?;
    text.push(behind)
}

/// Appends the numbers of breaks.
fn push_breaks(
    alloc: Global,
    text: &mut Text,
    head: &[u8],
    breaks: BreakCounts,
) -> Result<(), AllocError>
    ensures { OnOk result (text.new ≡ text.old ++ head.now ++ line_of (break_counts_text breaks)) }
{
    text.push(head)?;
    push_number(alloc, text, breaks.broken, b" broken, ")?;
    push_number(alloc, text, breaks.unreadable, b" unreadable, ")?;
    push_number(alloc, text, breaks.allowed, b" allowed\n")
}

/// Appends the numbers of resets, tenures and cycles.
fn push_cycles(
    alloc: Global,
    text: &mut Text,
    head: &[u8],
    counts: &Counts,
) -> Result<(), AllocError>
    ensures { OnOk result (text.new ≡ text.old ++ head.now ++ line_of (cycle_counts_text counts.now)) }
{
    let cycles = u128::from(counts.single)
        + u128::from(counts.block)
        + u128::from(counts.free)
        + u128::from(counts.acknowledge);
    text.push(head)?;
    push_number(alloc, text, counts.resets, b" resets, ")?;
    push_number(alloc, text, counts.tenures, b" tenures, ")?;
    push_sum(alloc, text, cycles, b" cycles (")?;
    push_number(alloc, text, counts.single, b" single, ")?;
    push_number(alloc, text, counts.block, b" block, ")?;
    push_number(alloc, text, counts.free, b" free, ")?;
    push_number(alloc, text, counts.acknowledge, b" acknowledge)\n")
}

/// Appends the numbers of transfers.
fn push_transfers(
    alloc: Global,
    text: &mut Text,
    head: &[u8],
    counts: &Counts,
) -> Result<(), AllocError>
    ensures { OnOk result (text.new ≡ text.old ++ head.now ++ line_of (transfer_counts_text counts.now)) }
{
    let transfers = u128::from(counts.reads) + u128::from(counts.writes);
    text.push(head)?;
    push_sum(alloc, text, transfers, b" transfers (")?;
    push_number(alloc, text, counts.reads, b" read, ")?;
    push_number(alloc, text, counts.writes, b" write; ")?;
    push_number(alloc, text, counts.by_dtack, b" by DTACK, ")?;
    push_number(alloc, text, counts.by_berr, b" by BERR, ")?;
    push_number(alloc, text, counts.pending, b" pending)\n")
}

/// Appends a space and the name of a rule, if the rule is never asked.
fn push_unless_asked(text: &mut Text, rule: Rule, events: &AskedEvents) -> Result<(), AllocError>
    ensures { OnOk result (text.new ≡ text.old ++ name_unless_asked events.now rule) }
{
    if events.ask(rule) {
        return Ok(());
    }
    let name = rule.name();
    text.push(b" ")?;
    text.push(name.as_bytes())
}

/// Appends the names of the rules among `rules` that are never asked, each after a space.
fn push_names(text: &mut Text, rules: &[Rule], events: &AskedEvents) -> Result<(), AllocError>
    ensures { OnOk result (text.new ≡ text.old ++ names_text (unasked_among events.now rules.now)) }
{
    for rule in rules {
        push_unless_asked(text, *rule, events)?;
    }
    Ok(())
}

/// Appends the line of the rules that are never asked, if there are any.
fn push_unasked(
    alloc: Global,
    text: &mut Text,
    head: &[u8],
    events: &AskedEvents,
) -> Result<(), AllocError>
    ensures { OnOk result (text.new ≡ text.old ++ unasked_line head.now (unasked events.now)) }
{
    let mut names = Text::new(alloc);
    push_names(&mut names, &Rule::ALL, events)?;
    if names.as_bytes().is_empty() {
        return Ok(());
    }
    text.push(head)?;
    text.push(b"never asked:")?;
    text.push(names.as_bytes())?;
    text.push(b"\n")
}

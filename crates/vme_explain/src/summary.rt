//! The text on a recording without a break.

use crate::idle::control_line;
use crate::page::{Subject, push_instant, push_open};
use crate::sources::bound_to;
use std::alloc::{AllocError, Global};
use vme_account::{Account, Part, RowKind, rests_high};
use vme_text::Text;
use vme_trace::{LINE_COUNT, Line, MOST_SLOTS};

/// Appends what was judged of a conforming recording, and what was pending at its end.
pub(crate) fn push_summary(
    text: &mut Text,
    alloc: Global,
    subject: &Subject<'_>,
) -> Result<(), AllocError> {
    let account = subject.account;
    let start = account.first_start().unwrap_or(0);
    text.push(b"\njudged: from instant ")?;
    push_instant(text, alloc, account, start)?;
    text.push(b" to instant ")?;
    push_instant(text, alloc, account, account.last_judged())?;
    text.push(b"\n")?;
    push_resets(text, alloc, subject)?;
    push_tenures(text, alloc, subject)?;
    push_counts(
        text,
        alloc,
        account,
        "cycles: ",
        &[
            (RowKind::SingleCycles, " single, "),
            (RowKind::BlockCycles, " block transfer, "),
            (RowKind::FreeCycles, " with a free code, "),
            (RowKind::InterruptCycles, " interrupt acknowledge\n"),
        ],
    )?;
    push_counts(
        text,
        alloc,
        account,
        "transfers: ",
        &[
            (RowKind::AnsweredReads, " read, "),
            (RowKind::AnsweredWrites, " write; "),
            (RowKind::AnsweredByDtack, " answered by DTACK, "),
            (RowKind::AnsweredByBerr, " by BERR, "),
            (RowKind::PendingTransfers, " not answered\n"),
        ],
    )?;
    push_pending(text, alloc, subject)?;
    push_unmoved(text, subject)
}

/// Appends how many resets ended judging, and the last one, if there is one.
fn push_resets(text: &mut Text, alloc: Global, subject: &Subject<'_>) -> Result<(), AllocError> {
    let account = subject.account;
    let Some(instant) = account.last_reset() else {
        return Ok(());
    };
    text.push(b"resets: ")?;
    text.push_decimal(alloc, account.count_of(RowKind::Resets))?;
    text.push(b", the last at instant ")?;
    push_instant(text, alloc, account, instant)?;
    text.push(b"\n")
}

/// Appends the counts of kinds of rows, each with the text after it.
fn push_counts(
    text: &mut Text,
    alloc: Global,
    account: &Account,
    name: &str,
    kinds: &[(RowKind, &str)],
) -> Result<(), AllocError> {
    text.push(name.as_bytes())?;
    for (kind, after) in kinds {
        text.push_decimal(alloc, account.count_of(*kind))?;
        text.push(after.as_bytes())?;
    }
    Ok(())
}

/// Appends the numbers of tenures, by level and slot.
fn push_tenures(text: &mut Text, alloc: Global, subject: &Subject<'_>) -> Result<(), AllocError> {
    let account = subject.account;
    text.push(b"tenures: ")?;
    text.push_decimal(alloc, account.count_of(RowKind::OpenTenures))?;
    text.push(b" open before judging starts")?;
    for level in 0..4 {
        for slot in 1..MOST_SLOTS + 1 {
            let count = account.count_of(RowKind::Tenures { level, slot });
            if count > 0 {
                text.push(b", ")?;
                text.push_decimal(alloc, count)?;
                text.push(b" by level ")?;
                text.push_decimal(alloc, u64::from(level))?;
                text.push(b" in slot ")?;
                text.push_decimal(alloc, u64::from(slot))?;
            }
        }
    }
    text.push(b"\n")
}

/// Appends what is open at the end.
fn push_pending(text: &mut Text, alloc: Global, subject: &Subject<'_>) -> Result<(), AllocError> {
    let is_any = [Part::Tenure, Part::Cycle, Part::Transfer]
        .iter()
        .any(|part| subject.account.open_row(*part).is_some());
    if !is_any {
        return text.push(b"pending at the end: nothing\n");
    }
    text.push(b"pending at the end:\n")?;
    push_open(text, alloc, subject)
}

/// Whether the binding binds a line. It may leave out SYSRESET, which then never moves.
fn is_bound(subject: &Subject<'_>, line: Line) -> bool {
    bound_to(subject.binding, line, subject.account.opening().slots()).is_some()
}

/// Appends the control lines that never moved since judging started first. SYSRESET counts only if it is bound.
fn push_unmoved(text: &mut Text, subject: &Subject<'_>) -> Result<(), AllocError> {
    let account = subject.account;
    text.push(b"control lines that never moved:")?;
    let mut is_any = false;
    for number in 0..LINE_COUNT {
        if let Some(line) = control_line(account.opening(), number) {
            if !account.has_moved(line) && (line != Line::SYSRESET || is_bound(subject, line)) {
                is_any = true;
                text.push(b" ")?;
                text.push(line.name().as_bytes())?;
            }
        }
    }
    if !is_any {
        text.push(b" none")?;
    }
    text.push(b"\n")
}

/// What an idle bus needs of a line, as the text if it isn't so.
fn wanted(line: Line) -> &'static str {
    if rests_high(line) {
        ": not High"
    } else {
        ": not known"
    }
}

/// Appends which lines kept the bus from being idle.
pub(crate) fn push_never_idle(
    text: &mut Text,
    alloc: Global,
    subject: &Subject<'_>,
) -> Result<(), AllocError> {
    text.push(
        b"\nJudging starts where every control line is known, and AS, the strobes, the answers, all nets and SYSRESET \
are High.\n",
    )?;
    let account = subject.account;
    let mut is_any = false;
    for number in 0..LINE_COUNT {
        if let Some(line) = control_line(account.opening(), number) {
            if !account.was_idle_level(line) {
                is_any = true;
                text.push(line.name().as_bytes())?;
                text.push(wanted(line).as_bytes())?;
                text.push(b" at any instant\n")?;
            }
        }
    }
    if is_any {
        return Ok(());
    }
    text.push(b"Each line is so at some instant, but not all at once; at the last instant, ")?;
    push_instant(text, alloc, account, account.end())?;
    text.push(b":\n")?;
    push_not_idle(text, account)
}

/// Appends the lines that aren't as an idle bus has them at the end.
fn push_not_idle(text: &mut Text, account: &Account) -> Result<(), AllocError> {
    for number in 0..LINE_COUNT {
        if let Some(line) = control_line(account.opening(), number) {
            if !account.is_idle_level(line) {
                text.push(line.name().as_bytes())?;
                text.push(wanted(line).as_bytes())?;
                text.push(b"\n")?;
            }
        }
    }
    Ok(())
}

//! The text on the other events of a break, those that make its edge a break.

use crate::driver::{Driver, driver_of};
use crate::page::{Subject, push_time};
use std::alloc::{AllocError, Global};
use vme_account::{
    Moment, Occurrence, RelatedEvent, StartedTenure, StepEvent, first_related_event,
    second_related_event,
};
use vme_text::Text;
use vme_trace::{Break, Level, Line, Lines, Rule};

/// The words on an event: before its instant, after its instant, and instead of both if it didn't happen.
#[derive(Clone, Copy)]
struct EventWords {
    before: &'static str,
    after: &'static str,
    none: &'static str,
}

/// The words on the first event that a rule refers to. If `before` is empty, the name of the event's line is first.
fn first_words(rule: Rule) -> EventWords {
    let (before, after, none) = match rule {
        Rule::H1 => ("", ", and is not High since", ""),
        Rule::H2 | Rule::H7 => ("the transfer started", ", and is not answered since", ""),
        Rule::H3 => ("the transfer was answered", "", ""),
        Rule::H4 => (
            "a strobe rose last",
            ", and no transfer started since",
            "no transfer started before",
        ),
        Rule::H5 => (
            "the transfer was answered",
            "",
            "both answer lines fall at this instant",
        ),
        Rule::H6 => ("", ", and no strobe rose since", ""),
        Rule::H8 => ("the cycle before ended", "", "no cycle ended before"),
        Rule::S1 => (
            "the cycle that needs the line started",
            ", and is not answered since",
            "",
        ),
        Rule::S2 => ("the transfer started", ", and no strobe rose since", ""),
        Rule::S3 => (
            "the write that moves the line started",
            ", and is not answered since",
            "",
        ),
        Rule::C1 | Rule::C2 | Rule::I5 => ("the first answer of the cycle came", "", ""),
        Rule::I3 => ("the transfer was answered by DTACK", "", ""),
        Rule::I4 => ("the interrupt acknowledge started", "", ""),
        Rule::G4 => (
            "",
            ", and is not High since",
            "BBSY is not High since judging starts",
        ),
        Rule::B2 => ("", "", "BBSY did not fall before"),
        Rule::B3 => (
            "",
            ", and is not Low since",
            "BBSY was not Low since judging starts",
        ),
        Rule::G5 => ("the last grant came", "", "no grant came before"),
        Rule::B1 => ("the last grant came", "", "no grant came before"),
        _ => ("", "", ""),
    };
    EventWords {
        before,
        after,
        none,
    }
}

/// The words on the second event that a rule refers to.
fn second_words(rule: Rule) -> EventWords {
    match rule {
        Rule::G5 => EventWords {
            before: "",
            after: ", the last request of the level",
            none: "no request of the level came since judging starts",
        },
        _ => EventWords {
            before: "the last grant came",
            after: "",
            none: "no grant came before",
        },
    }
}

/// An event besides the edge of a break.
#[derive(Drop)]
pub struct OtherEvent {
    /// Its instant, if it happened.
    pub instant: Option<u32>,
    /// The text on it, a line without its end.
    pub text: Text,
}

/// Appends the other events of a break, a line for each.
pub(crate) fn push_others(
    text: &mut Text,
    alloc: Global,
    subject: &Subject<'_>,
    found: &Break,
) -> Result<(), AllocError> {
    for other in &others_of(alloc, subject, found)? {
        text.push(b"other event: ")?;
        text.push(other.text.as_bytes())?;
        text.push(b"\n")?;
    }
    Ok(())
}

/// The other events that the rule of the break `found` refers to, in the order in which an explanation names them. It
/// fails if memory runs out.
pub fn others_of(
    alloc: Global,
    subject: &Subject<'_>,
    found: &Break,
) -> Result<Vec<OtherEvent>, AllocError> {
    let mut events = Vec::new(alloc);
    if let Some(other) = first_related_event(found.rule, found.line) {
        let words = first_words(found.rule);
        events.push(other_event(alloc, subject, &other, &words)?)?;
    }
    if let Some(other) = second_related_event(found.rule, found.line) {
        let words = second_words(found.rule);
        events.push(other_event(alloc, subject, &other, &words)?)?;
    }
    if found.rule == Rule::B4 {
        add_passed_on(&mut events, alloc, subject, found)?;
    }
    Ok(events)
}

/// An event that a rule refers to, with its text.
fn other_event(
    alloc: Global,
    subject: &Subject<'_>,
    other: &RelatedEvent,
    words: &EventWords,
) -> Result<OtherEvent, AllocError> {
    let mut text = Text::new(alloc);
    let Some(moment) = subject.account.moment_of(other) else {
        text.push(words.none.as_bytes())?;
        return Ok(OtherEvent {
            instant: None,
            text,
        });
    };
    text.push(words.before.as_bytes())?;
    push_line(
        &mut text,
        subject,
        &other.event,
        &moment,
        words.before.is_empty(),
    )?;
    text.push(b" at instant ")?;
    push_moment(&mut text, alloc, &moment)?;
    if let Some(tenure) = tenure_taken(subject, &other.event, moment.instant) {
        text.push(b", by level ")?;
        text.push_decimal(alloc, u64::from(tenure.level))?;
        text.push(b" in slot ")?;
        text.push_decimal(alloc, u64::from(tenure.slot))?;
    }
    text.push(words.after.as_bytes())?;
    Ok(OtherEvent {
        instant: Some(moment.instant),
        text,
    })
}

/// Appends an instant and its time.
fn push_moment(text: &mut Text, alloc: Global, moment: &Moment) -> Result<(), AllocError> {
    text.push_decimal(alloc, u64::from(moment.instant))?;
    push_time(text, alloc, moment.time)
}

/// The tenure that starts with an event.
fn tenure_taken(subject: &Subject<'_>, event: &StepEvent, instant: u32) -> Option<StartedTenure> {
    match (event, subject.account.last_tenure()) {
        (StepEvent::Falls(line), Some(tenure)) if *line == Line::BBSY && tenure.start == instant =>
            { Some(tenure) }
        _ => None,
    }
}

/// Appends the line of an event: first, as `DTACK fell`, or after other words, as ` by DTACK`.
fn push_line(
    text: &mut Text,
    subject: &Subject<'_>,
    event: &StepEvent,
    moment: &Moment,
    is_alone: bool,
) -> Result<(), AllocError> {
    match event {
        StepEvent::Falls(line) if is_alone => push_edge(text, *line, " fell"),
        StepEvent::Rises(line) if is_alone => push_edge(text, *line, " rose"),
        StepEvent::AnswerFalls => push_fallen(
            text,
            &[
                (Line::DTACK, moment.dtack_falls),
                (Line::BERR, moment.berr_falls),
            ],
        ),
        StepEvent::GrantFalls => {
            let mut grants = [(Line::grant(0, 0), false); 4];
            for (level, grant) in grants.iter_mut().enumerate() {
                let line = Line::grant((level as u8).min(3), 0);
                *grant = (line, fell_at(subject, line, moment.instant));
            }
            push_fallen(text, &grants)
        }
        _ => Ok(()),
    }
}

/// Whether the last fall of `line` before the break is at `instant`.
fn fell_at(subject: &Subject<'_>, line: Line, instant: u32) -> bool {
    let other = RelatedEvent {
        event: StepEvent::Falls(line),
        occurrence: Occurrence::Last,
    };
    match subject.account.moment_of(&other) {
        Some(moment) => moment.instant == instant,
        None => false,
    }
}

/// Appends the name of a line and what it does.
fn push_edge(text: &mut Text, line: Line, edge: &str) -> Result<(), AllocError> {
    text.push(line.name().as_bytes())?;
    text.push(edge.as_bytes())
}

/// Appends the lines that fall, of some lines.
fn push_fallen(text: &mut Text, lines: &[(Line, bool)]) -> Result<(), AllocError> {
    let mut is_first = true;
    for (line, falls) in lines {
        if *falls {
            text.push(if is_first { b" by " } else { b" and " })?;
            text.push(line.name().as_bytes())?;
            is_first = false;
        }
    }
    Ok(())
}

/// Whether a line is at a level.
fn shows(lines: &Lines, line: Line, level: Level) -> bool {
    lines.has(line) && lines.level(line) == level
}

/// Adds how the grant that a tenure takes is passed along its chain, an event for each net that fell.
fn add_passed_on(
    events: &mut Vec<OtherEvent>,
    alloc: Global,
    subject: &Subject<'_>,
    found: &Break,
) -> Result<(), AllocError> {
    let account = subject.account;
    let at = found.instant;
    let levels = account.levels_from(alloc, at.saturating_sub(1), at)?;
    let Some(level) = granted_level(levels.as_slice()) else {
        return Ok(());
    };
    for place in 0..account.opening().slots() + 1 {
        let line = Line::grant(level.min(3), place);
        let other = RelatedEvent {
            event: StepEvent::Falls(line),
            occurrence: Occurrence::LastOrNow,
        };
        if let Some(moment) = account.moment_of(&other) {
            let mut text = Text::new(alloc);
            push_edge(&mut text, line, " fell at instant ")?;
            push_moment(&mut text, alloc, &moment)?;
            push_driver(&mut text, alloc, line)?;
            events.push(OtherEvent {
                instant: Some(moment.instant),
                text,
            })?;
        }
    }
    Ok(())
}

/// The lowest level that is granted at the last of the instants, or else at the one before.
fn granted_level(levels: &[Lines]) -> Option<u8> {
    for lines in levels.iter().rev() {
        for level in 0..4u8 {
            if shows(lines, Line::grant(level, 0), Level::Low) {
                return Some(level);
            }
        }
    }
    None
}

/// Appends the driver of a net of a chain.
pub(crate) fn push_driver(text: &mut Text, alloc: Global, line: Line) -> Result<(), AllocError> {
    match driver_of(line) {
        Some(Driver::Arbiter) => text.push(b", driven by the arbiter"),
        Some(Driver::Slot(slot)) => {
            text.push(b", driven by slot ")?;
            text.push_decimal(alloc, u64::from(slot))
        }
        None => Ok(()),
    }
}

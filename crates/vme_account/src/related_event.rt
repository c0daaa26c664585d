//! What else a break refers to: the edges before it that make its own edge a break.

ghost use Rattle.std.specs.Prelude.{◌≡◌, None, Some};
ghost use Rattle.vme_account.specs.RelatedEvents.{first_related_event, second_related_event};

use vme_trace::{Line, Rule};

/// What happens at an instant.
#[derive(Clone, Copy, Debug, PartialEq, Eq)]
pub enum StepEvent {
    /// The line falls.
    Falls(Line),
    /// The line rises.
    Rises(Line),
    /// A strobe rises.
    StrobeRises,
    /// A transfer starts.
    TransferStarts,
    /// An answer line falls.
    AnswerFalls,
    /// A level is granted.
    GrantFalls,
}

/// Which of the instants before a break is meant, within the judged stretch.
#[derive(Clone, Copy, Debug, PartialEq, Eq)]
pub enum Occurrence {
    /// The last one.
    Last,
    /// The last one up to the break, that of the break included.
    LastOrNow,
    /// The first one since the last transfer started.
    FirstInTransfer,
    /// The first one since the last cycle started.
    FirstInCycle,
}

/// An event that a rule refers to, besides the edge that breaks the rule.
#[derive(Clone, Copy, Debug, PartialEq, Eq)]
pub struct RelatedEvent {
    /// What happens.
    pub event: StepEvent,
    /// Which of the instants at which it happens is meant.
    pub occurrence: Occurrence,
}

/// The last occurrence of an event.
fn last(event: StepEvent) -> Option<RelatedEvent>
    ensures { result ≡ Some (record { event = event; occurrence = Occurrence.Last }) }
{
    Some(RelatedEvent {
        event,
        occurrence: Occurrence::Last,
    })
}

/// The last occurrence of an event, or the one at the break.
fn last_or_now(event: StepEvent) -> Option<RelatedEvent>
    ensures { result ≡ Some (record { event = event; occurrence = Occurrence.LastOrNow }) }
{
    Some(RelatedEvent {
        event,
        occurrence: Occurrence::LastOrNow,
    })
}

/// The first answer in the transfer.
fn first_in_transfer() -> Option<RelatedEvent>
    ensures { result ≡ Some (record { event = StepEvent.AnswerFalls; occurrence = Occurrence.FirstInTransfer }) }
{
    Some(RelatedEvent {
        event: StepEvent::AnswerFalls,
        occurrence: Occurrence::FirstInTransfer,
    })
}

/// The first occurrence of an event in the cycle.
fn first_in_cycle(event: StepEvent) -> Option<RelatedEvent>
    ensures { result ≡ Some (record { event = event; occurrence = Occurrence.FirstInCycle }) }
{
    Some(RelatedEvent {
        event,
        occurrence: Occurrence::FirstInCycle,
    })
}

/// The event that `rule` refers to besides the edge on `line` that breaks it, if there is one.
pub fn first_related_event(rule: Rule, line: Line) -> Option<RelatedEvent>
    ensures { result ≡ first_related_event rule line }
{
    match rule {
        Rule::H1 | Rule::H6 => last(StepEvent::Falls(line)),
        Rule::H2 | Rule::H7 | Rule::S2 | Rule::S3 => last(StepEvent::TransferStarts),
        Rule::H3 | Rule::H5 => first_in_transfer(),
        Rule::H4 => last(StepEvent::StrobeRises),
        Rule::H8 => last(StepEvent::Rises(Line::AS)),
        Rule::S1 => last(StepEvent::Falls(Line::AS)),
        Rule::I4 => last_or_now(StepEvent::Falls(Line::AS)),
        Rule::C1 | Rule::C2 | Rule::I5 => first_in_cycle(StepEvent::AnswerFalls),
        Rule::I3 => first_in_cycle(StepEvent::Falls(Line::DTACK)),
        Rule::G4 | Rule::B2 => last(StepEvent::Falls(Line::BBSY)),
        Rule::G5 | Rule::B1 => last(StepEvent::GrantFalls),
        Rule::B3 => last(StepEvent::Rises(Line::BBSY)),
        _ => None,
    }
}

/// A second event that `rule` refers to, if there is one: for a grant the request, and for a tenure the last grant.
pub fn second_related_event(rule: Rule, line: Line) -> Option<RelatedEvent>
    ensures { result ≡ second_related_event rule line }
{
    match rule {
        Rule::G5 => match line.grant_place() {
            Some((level, _)) => last(StepEvent::Falls(Line::bus_request(level))),
            None => None,
        },
        Rule::B2 => last(StepEvent::GrantFalls),
        _ => None,
    }
}

use std::alloc::Global;
use std::test::Fail;
use vme_account::{
    Account, AccountVisitor, Occurrence, Part, RelatedEvent, RowKind, StepEvent,
    first_related_event, rests_high, second_related_event,
};
use vme_listing::{AnswerLine, Direction, Row};
use vme_test_recordings::{opening_of, step_of};
use vme_trace::{Break, Level, Line, Rule, StepVisitor, Verdict};

/// The account of a recording of one slot. Its opening is the one of the text `opening`, and its steps, which `steps`
/// denotes, are ten units apart: the first is at the time `start`.
pub(crate) fn account_of(alloc: Global, opening: &str, start: u64, steps: &str) -> Option<Account> {
    let opening = opening_of(alloc, 1, opening)?;
    let mut visitor = AccountVisitor::new(alloc, &opening);
    let mut time = start;
    for words in steps.split(';') {
        let step = step_of(alloc, &opening, time, words)?;
        visitor.step(alloc, step).ok()?;
        time = time.saturating_add(10);
    }
    visitor.finish().ok()
}

/// The account of a recording whose opening has all lines High, except BBSY, and whose first step is at the time 10.
fn busy_account(alloc: Global, steps: &str) -> Option<Account> {
    account_of(alloc, "high BBSY=0", 10, steps)
}

#[test]
fn rows_are_counted(rt: HostRuntime) -> Result<(), Fail> {
    let steps = "AS=0;DS0=0;DTACK=0;DS0=1;DTACK=1;AS=1";
    let account = busy_account(rt.alloc(), steps).ok_or("no account")?;
    assert!(rt; account.verdict() == Verdict::Conforming);
    for (kind, count) in [
        (RowKind::OpenTenures, 1),
        (RowKind::Tenures { level: 3, slot: 1 }, 0),
        (RowKind::BlockCycles, 1),
        (RowKind::SingleCycles, 0),
        (RowKind::AnsweredReads, 1),
        (RowKind::AnsweredWrites, 0),
        (RowKind::AnsweredByDtack, 1),
        (RowKind::AnsweredByBerr, 0),
        (RowKind::PendingTransfers, 0),
        (RowKind::Resets, 0),
    ] {
        assert_eq!(rt; account.count_of(kind), count);
    }
    assert!(rt; account.first_start() == Some(0) && account.last_reset().is_none());
    assert!(rt; account.last_judged() == 6 && account.last_tenure().is_none());
    assert!(rt; account.has_moved(Line::AS) && !account.has_moved(Line::BERR));
    Ok(())
}

#[test]
fn open_rows_are_found(rt: HostRuntime) -> Result<(), Fail> {
    let tenure = Row::OpenTenure {
        start: 0,
        end: None,
    };
    let account = busy_account(rt.alloc(), "AS=0;DS0=0;DTACK=0").ok_or("no account")?;
    assert!(rt; account.open_row(Part::Tenure) == Some(tenure));
    assert!(rt;
        matches!(
            account.open_row(Part::Cycle),
            Some(Row::AddressedCycle { start: 1, .. })
        )
    );
    let transfer = Row::Transfer {
        start: 2,
        cycle: 1,
        direction: Direction::Read,
        line: AnswerLine::Dtack,
        answer: 3,
        close: None,
        lanes: None,
    };
    assert!(rt; account.open_row(Part::Transfer) == Some(transfer));
    let account = busy_account(rt.alloc(), "AS=0;DS0=0").ok_or("no account")?;
    let pending = Row::PendingTransfer {
        start: 2,
        direction: Direction::Read,
    };
    assert!(rt; account.open_row(Part::Transfer) == Some(pending));
    assert_eq!(rt; account.count_of(RowKind::PendingTransfers), 1);
    Ok(())
}

#[test]
fn what_was_open_at_a_reset_is_over(rt: HostRuntime) -> Result<(), Fail> {
    let account = busy_account(rt.alloc(), "AS=0;DS0=0;SYSRESET=0;SYSRESET=1").ok_or("no account")?;
    for part in [Part::Tenure, Part::Cycle, Part::Transfer] {
        assert!(rt; account.open_row(part).is_none());
    }
    assert_eq!(rt; account.count_of(RowKind::Resets), 1);
    assert!(rt; account.last_reset() == Some(3) && account.last_judged() == 3);
    assert!(rt; account.time_at(3) == Some(30));
    Ok(())
}

#[test]
fn a_break_is_told_with_its_events(rt: HostRuntime) -> Result<(), Fail> {
    let steps = "AS=0;DS0=0;DTACK=0;DS0=1;DTACK=1;DS0=0;BERR=0;DS1=0;DS1=1";
    let account = busy_account(rt.alloc(), steps).ok_or("no account")?;
    let found = Break {
        instant: 8,
        time: 80,
        rule: Rule::H3,
        line: Line::DS1,
    };
    assert!(rt; account.verdict() == Verdict::Broken(found));
    let instant_of = |event, occurrence| {
        let moment = account.moment_of(&RelatedEvent { event, occurrence });
        moment.map(|moment| moment.instant)
    };
    // DS1 falls at 8. The transfer started at 6 and was answered at 7.
    assert!(rt; instant_of(StepEvent::AnswerFalls, Occurrence::FirstInTransfer) == Some(7));
    assert!(rt; instant_of(StepEvent::TransferStarts, Occurrence::Last) == Some(6));
    // the first answer of the cycle, and the first one by DTACK
    assert!(rt; instant_of(StepEvent::AnswerFalls, Occurrence::FirstInCycle) == Some(3));
    assert!(rt; instant_of(StepEvent::Falls(Line::DTACK), Occurrence::FirstInCycle) == Some(3));
    assert!(rt; instant_of(StepEvent::StrobeRises, Occurrence::Last) == Some(4));
    assert!(rt; instant_of(StepEvent::Falls(Line::DS1), Occurrence::Last).is_none());
    assert!(rt; instant_of(StepEvent::Falls(Line::DS1), Occurrence::LastOrNow) == Some(8));
    assert!(rt; instant_of(StepEvent::GrantFalls, Occurrence::Last).is_none());
    // the levels around the break
    assert!(rt; account.first() == 0 && account.end() == 9);
    let levels = account.levels_from(rt.alloc(), 7, 8)?;
    let strobes = levels.iter().map(|lines| lines.level(Line::DS1));
    assert!(rt; strobes.eq([Level::High, Level::Low].iter().copied()));
    assert!(rt; account.time_at(8) == Some(80) && account.time_at(0) == Some(0));
    Ok(())
}

#[test]
fn rules_speak_of_events(rt: HostRuntime) {
    let last = |event| {
        Some(RelatedEvent {
            event,
            occurrence: Occurrence::Last,
        })
    };
    assert!(rt; first_related_event(Rule::H2, Line::DS0) == last(StepEvent::TransferStarts));
    let request = last(StepEvent::Falls(Line::bus_request(2)));
    assert!(rt; second_related_event(Rule::G5, Line::grant(2, 0)) == request);
    assert!(rt; second_related_event(Rule::H1, Line::DTACK).is_none());
}

#[test]
fn some_lines_are_high_while_the_bus_is_idle(rt: HostRuntime) {
    assert!(rt; rests_high(Line::AS) && !rests_high(Line::BBSY));
}

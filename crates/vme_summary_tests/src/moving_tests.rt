//! Judged blocks in a list, in a table and through a thread, and spans that are consumed.
use crate::tests::judged;
use atomic_table::{Table, TableRule};
use std::alloc::Global;
use std::process::Abort;
use std::sync::Wait;
use std::thread;
use std::thread::Threads;
use vme_summary::judged::Judged;
use vme_summary::{Span, append};
use vme_test_recordings::{GRANTED, READ, capture_of};
use vme_trace::Verdict;

/// The rule of a table that asks nothing of its blocks.
struct AnyBlocks;

impl TableRule<Option<Judged>, (), ()> for AnyBlocks {
    ghost holds = { λ _ _. Unit {0} };

    ghost first = { λ _. tt };
}

/// Puts a block into a table, and takes it out again.
fn through_table(alloc: Global, judged: Judged) -> Option<Judged> {
    let mut slots = Vec::new(alloc);
    slots.push(Some(judged)).ok()?;
    let (table, _) = Table::<Option<Judged>, (), (), AnyBlocks, Global>::new(
        alloc,
        &[0],
        slots,
        &(),
    ).ok()?;
    let mut closed = table.close();
    let found = closed.take(0);
    closed.free();
    found
}

/// A thread reads the block `read`, and gives back the block `sent`, which was sent to it.
fn through_thread<R: Threads + Wait + Sync>(rt: &R, read: &Judged, sent: Judged) -> Option<Judged> {
    thread::scope(thread::scope_env(), rt, |scope| -> Option<Judged> {
        let Ok(handle) = scope.spawn(move || -> Judged {
            let _ = read.block().number;
            sent
        }) else {
            return None;
        };
        Some(handle.join(rt))
    })
}

/// The judged blocks of a read that is cut into blocks of five steps, in a list.
fn listed(alloc: Global) -> Option<Vec<Option<Judged>>> {
    let blocks = capture_of(alloc, GRANTED, READ)?.cut(alloc, 5).ok()?;
    let mut all = Vec::new(alloc);
    for block in blocks {
        all.push(Some(judged(alloc, block)?)).ok()?;
    }
    Some(all)
}

/// The span of two that are consumed. After a failed allocation they come back and are joined again.
fn appended(alloc: Global, first: Span, second: Span) -> Option<Span> {
    if first.steps() > 1000 || second.steps() > 1000 {
        return None;
    }
    match append(alloc, first, second) {
        Ok(span) => Some(span),
        Err((first, second, _)) => append(alloc, first, second).ok(),
    }
}

/// Block 2 of a read goes through a table, and block 1 through a thread.
fn moved<R: Threads + Wait + Sync>(
    rt: &R,
    alloc: Global,
    middle: Judged,
    last: Judged,
) -> Option<(Span, Span)> {
    let last = through_table(alloc, last)?;
    let middle = through_thread(rt, &last, middle)?;
    Some((middle.into_parts().1, last.into_parts().1))
}

/// The span of blocks 1 and 2, after they have been moved.
fn span_of_last_two<R: Threads + Wait + Sync>(
    rt: &R,
    alloc: Global,
    all: &mut Vec<Option<Judged>>,
) -> Option<Span> {
    let last = all.pop()??;
    let middle = all.pop()??;
    let (middle, last) = moved(rt, alloc, middle, last)?;
    appended(alloc, middle, last)
}

/// The span of block 0, and then that of blocks 1 and 2.
fn span_of_all<R: Threads + Wait + Sync>(
    rt: &R,
    alloc: Global,
    all: &mut Vec<Option<Judged>>,
) -> Option<Span> {
    let back = span_of_last_two(rt, alloc, all)?;
    let first = all.pop()??.into_parts().1;
    appended(alloc, first, back)
}

/// Whether a span is that of the read, which conforms.
fn is_span_of_read(whole: &Span) -> bool {
    if whole.first() != 0 {
        return false;
    }
    whole.last() == 2 && whole.steps() == 14 && whole.verdict() == Verdict::Conforming
}

#[test]
fn through_a_list_a_table_and_a_thread(rt: HostRuntime) {
    let Some(mut all) = listed(rt.alloc()) else {
        panic!(rt; "no list")
    };
    match span_of_all(&rt, rt.alloc(), &mut all) {
        Some(whole) => assert!(rt; is_span_of_read(&whole)),
        None => panic!(rt; "no span"),
    }
}

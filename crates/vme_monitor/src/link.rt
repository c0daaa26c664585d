//! The parts of a table: links and rows.

ghost use Rattle.std.specs.Prelude.{◌≡◌, ◌≤◌, ◌-◌, ◌^◌, [], ◌++◌, map, min, IfOk, OnOk, vec_len, vec_capacity};
ghost use Rattle.std.specs.List.{sum_by};
ghost use Rattle.std.specs.Option.{option_map, option_to_list};
ghost use Rattle.vme_monitor.specs.Meeting.{link_marks, row_marks};
ghost use Rattle.vme_monitor.specs.Outcome.{nothing_shown};
ghost use Rattle.vme_monitor.specs.Run.{extended, kinds_of, mark_at, outcome_at};
ghost use Rattle.vme_monitor.specs.Walk.{link_to_place, link_value, later_break as later_break_of, later_link_value};
ghost use Rattle.vme_monitor.specs.Walk.{later_mark};
ghost use Rattle.vme_monitor.specs.Walk.{later_outcome, outcome_of};

use crate::machine::Enumerable;
use crate::mark::{
    Mark, MarkKind, Next, StepMarks, answered_kind, break_of, cycle_kind, tenure_kind,
    transfer_kind, when,
};
use std::alloc::{AllocError, Global};
use vme_trace::Break;

/// What a run shows until it is merged with others, and where it continues.
#[derive(Debug, Drop)]
pub struct Link {
    /// The first break until then, if there is one.
    pub first_break: Option<Break>,
    /// The marks until then, in their order.
    pub marks: Vec<Mark>,
    /// The index of the link in the next layer at which the run continues, or of the row after the last layer.
    pub next: usize,
}

/// What a run has shown since its last link, and where it is.
#[derive(Debug, Drop)]
pub struct TableRow<P> {
    /// The memory (state of the automaton) that the run is in.
    pub memory: P,
    /// The first break since the last link, if there is one.
    pub first_break: Option<Break>,
    /// The marks since the last link, in their order.
    pub marks: Vec<Mark>,
}

impl Mark {
    /// Makes the instant later by `by`, at most `u32::MAX`.
    fn shift_instants(&mut self, by: u32)
        ensures { self.new ≡ later_mark by self.old }
    {
        self.instant = self.instant.saturating_add(by);
    }
}

/// Makes the instants of `marks` later by `by`, at most `u32::MAX`.
fn shift_marks(marks: &mut [Mark], by: u32)
    ensures { marks.new ≡ map (later_mark by) marks.old }
{
    for mark in marks.iter_mut() {
        mark.shift_instants(by);
    }
}

/// The break `found`, if there is one, with its instant later by `by`, but at most `u32::MAX`. Its time stays.
pub fn later_break(found: Option<Break>, by: u32) -> Option<Break>
    ensures { result ≡ option_map (later_break_of by) found }
{
    match found {
        Some(b) => Some(Break {
            instant: b.instant.saturating_add(by),
            time: b.time,
            rule: b.rule,
            line: b.line,
        }),
        None => None,
    }
}

/// A copy of `marks` with all instants later by `by`, but at most `u32::MAX`. It fails if memory runs out.
pub fn later_marks(alloc: Global, marks: &[Mark], by: u32) -> Result<Vec<Mark>, AllocError>
    ensures { IfOk result (λ v. v.items ≡ map (later_mark by) marks.now) }
{
    let mut all = Vec::from_slice(alloc, marks)?;
    shift_marks(all.as_mut_slice(), by);
    Ok(all)
}

/// A copy of `links` with all instants later by `by`, but at most `u32::MAX`. It fails if memory runs out.
pub fn later_links(alloc: Global, links: &[Link], by: u32) -> Result<Vec<Link>, AllocError>
    ensures { IfOk result (λ v. map link_value v.items ≡ map (later_link_value by) (map link_value links.now)) }
{
    let mut all = Vec::with_capacity(alloc, links.len())?;
    for link in links {
        let marks = later_marks(alloc, link.marks.as_slice(), by)?;
        all.push(Link {
            first_break: later_break(link.first_break, by),
            marks,
            next: link.next,
        })?;
    }
    Ok(all)
}

/// A copy of `rows` with all instants later by `by`, but at most `u32::MAX`. It fails if memory runs out.
pub fn later_rows<P: Copy>(
    alloc: Global,
    rows: &[TableRow<P>],
    by: u32,
) -> Result<Vec<TableRow<P>>, AllocError>
    ensures { IfOk result (λ v. map outcome_of v.items ≡ map (later_outcome by) (map outcome_of rows.now)) }
{
    let mut all = Vec::new(alloc);
    for row in rows {
        let marks = later_marks(alloc, row.marks.as_slice(), by)?;
        all.push(TableRow {
            memory: row.memory,
            first_break: later_break(row.first_break, by),
            marks,
        })?;
    }
    Ok(all)
}

/// A link from each row to the place, i.e. the number, of its memory, with all instants later by `by`, but at most
/// `u32::MAX`. It fails if memory runs out.
pub fn links_to_places<P: Enumerable>(
    alloc: Global,
    rows: &[TableRow<P>],
    by: u32,
) -> Result<Vec<Link>, AllocError>
    ensures { IfOk result (λ v. map link_value v.items
        ≡ map (link_to_place P.place_of) (map (later_outcome by) (map outcome_of rows.now))) }
{
    let mut all = Vec::new(alloc);
    for row in rows {
        let marks = later_marks(alloc, row.marks.as_slice(), by)?;
        all.push(Link {
            first_break: later_break(row.first_break, by),
            marks,
            next: row.memory.place(),
        })?;
    }
    Ok(all)
}

impl Link {
    /// Makes all instants later by `by`, at most `u32::MAX`.
    fn shift_instants(&mut self, by: u32)
        ensures { link_value self.new ≡ later_link_value by (link_value self.old) }
    {
        self.first_break = later_break(self.first_break, by);
        shift_marks(self.marks.as_mut_slice(), by);
    }
}

/// Makes the instants of `links` later by `by`, at most `u32::MAX`.
pub fn shift_links(links: &mut [Link], by: u32)
    ensures { map link_value links.new ≡ map (later_link_value by) (map link_value links.old) }
{
    for link in links.iter_mut() {
        link.shift_instants(by);
    }
}

impl<P: Copy> TableRow<P> {
    /// Makes all instants later by `by`, at most `u32::MAX`.
    fn shift_instants(&mut self, by: u32)
        ensures { outcome_of self.new ≡ later_outcome by (outcome_of self.old) }
    {
        self.first_break = later_break(self.first_break, by);
        shift_marks(self.marks.as_mut_slice(), by);
    }
}

/// Makes the instants of `rows` later by `by`, at most `u32::MAX`.
pub fn shift_rows<P: Copy>(rows: &mut [TableRow<P>], by: u32)
    ensures { map outcome_of rows.new ≡ map (later_outcome by) (map outcome_of rows.old) }
{
    for row in rows.iter_mut() {
        row.shift_instants(by);
    }
}

/// Turns each row into a link to the place, i.e. the number, of its memory. The links are put into `room`, whose
/// capacity suffices.
pub fn links_in<P: Enumerable>(room: Vec<Link>, rows: Vec<TableRow<P>>) -> Vec<Link>
    requires empty { room.items ≡ [] }
    requires fits { vec_len rows ≤ vec_capacity room }
    ensures { map link_value result.items ≡ map (link_to_place P.place_of) (map outcome_of rows.items) }
{
    let mut rows = rows;
    let mut links = room;
    while let Some(row) = rows.pop() {
        links.push_reserved(Link {
            first_break: row.first_break,
            marks: row.marks,
            next: row.memory.place(),
        });
    }
    links.reverse();
    links
}

/// A row for each memory, with nothing shown yet. It fails if memory runs out.
pub fn fresh_rows<P: Copy>(alloc: Global, memories: &[P]) -> Result<Vec<TableRow<P>>, AllocError>
    ensures { IfOk result (λ v. map outcome_of v.items ≡ map nothing_shown memories.now) }
{
    let mut rows = Vec::new(alloc);
    for memory in memories {
        rows.push(TableRow {
            memory: *memory,
            first_break: None,
            marks: Vec::new(alloc),
        })?;
    }
    Ok(rows)
}

/// How many marks `links` hold together, or the greatest `u64`.
pub fn marks_in_links(links: &[Link]) -> u64
    ensures { result ≡ min (sum_by link_marks (map link_value links.now)) (2 ^ 64 - 1) }
{
    let mut count = 0u64;
    for link in links {
        count = count.saturating_add(link.marks.len() as u64);
    }
    count
}

/// How many marks `rows` hold together, or the greatest `u64`.
pub fn marks_in_rows<P: Copy>(rows: &[TableRow<P>]) -> u64
    ensures { result ≡ min (sum_by row_marks (map outcome_of rows.now)) (2 ^ 64 - 1) }
{
    let mut count = 0u64;
    for row in rows {
        count = count.saturating_add(row.marks.len() as u64);
    }
    count
}

/// Appends a mark, if `kind` is there. The capacity grows fourfold: a long list then mostly moves into pages of its
/// own, which the system gets back when the list is dropped.
#[inline(always)]
fn show(marks: &mut Vec<Mark>, instant: u32, kind: Option<MarkKind>) -> Result<(), AllocError>
    ensures { OnOk result (marks.new.items ≡ marks.old.items ++ map (mark_at instant) (option_to_list kind)) }
{
    if let Some(kind) = kind {
        if marks.len() == marks.capacity() {
            marks.reserve(marks.len().saturating_mul(3).max(1))?;
        }
        marks.push_reserved(Mark { instant, kind });
    }
    Ok(())
}

/// Appends the marks of a step. Where this is inlined in a monitor, the kinds that the monitor never shows cost
/// nothing.
#[inline(always)]
fn show_all(marks: &mut Vec<Mark>, instant: u32, shown: StepMarks) -> Result<(), AllocError>
    ensures { OnOk result (marks.new.items ≡ marks.old.items ++ map (mark_at instant) (kinds_of shown)) }
{
    show(marks, instant, when(shown.reset, MarkKind::Reset))?;
    show(marks, instant, when(shown.start, MarkKind::Start))?;
    show(marks, instant, when(shown.opened, MarkKind::Open))?;
    show(marks, instant, tenure_kind(shown.tenure))?;
    show(marks, instant, when(shown.tenure_end, MarkKind::TenureEnd))?;
    show(marks, instant, cycle_kind(shown.cycle))?;
    show(marks, instant, when(shown.cycle_end, MarkKind::CycleEnd))?;
    show(marks, instant, transfer_kind(shown.transfer))?;
    show(marks, instant, answered_kind(shown.answer))?;
    show(marks, instant, when(shown.close, MarkKind::Close))
}

impl<P: Copy> TableRow<P> {
    /// Advances the row by the step at instant `instant` and time `time`, which gives `next`. It fails if memory runs
    /// out; the row then has its old memory, but may have the break and some marks of the step.
    #[inline(always)]
    pub fn extend(&mut self, next: Next<P>, instant: u32, time: u64) -> Result<(), AllocError>
        ensures { OnOk result (outcome_of self.new ≡ extended (outcome_of self.old) (outcome_at instant time next)) }
    {
        let Next {
            memory,
            fault,
            shown,
        } = next;
        if let Some(fault) = fault {
            if self.first_break.is_none() {
                self.first_break = Some(break_of(fault, instant, time));
            }
        }
        if !shown.is_nothing() {
            show_all(&mut self.marks, instant, shown)?;
        }
        self.memory = memory;
        Ok(())
    }
}

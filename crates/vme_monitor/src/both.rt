//! Two monitors at once: the least of their breaks (violations of rules), and their marks (events of the bus) merged.

ghost use Rattle.std.specs.Prelude.{◌≡◌, ◌≤◌, ◌∷◌, ◌++◌, [], IfOk, drop, false, length, slice_get, take};
ghost use Rattle.vme_monitor.specs.TwoMonitors.{FindsTogether, ShowsTogether};
ghost use Rattle.std.specs.Option.{option_map_or};
ghost use Rattle.vme_monitor.specs.BothMonitors.{breaks_before as fault_before, front, rest};
ghost use Rattle.vme_monitor.specs.BothMonitors.{kind_number as kind_place, least as least_of, mark_lt as mark_before};
ghost use Rattle.vme_monitor.specs.BothMonitors.{merged, sooner as sooner_than};

use crate::mark::{Mark, MarkKind};
use crate::monitor::Monitor;
use std::alloc::{AllocError, Global};
use std::marker::PhantomData;
use vme_trace::{Break, Lines, Step};

/// The place of a kind of mark in the order of kinds.
fn kind_number(kind: MarkKind) -> u8
    ensures { result ≡ kind_place kind }
{
    match kind {
        MarkKind::Reset => 0,
        MarkKind::Start => 1,
        MarkKind::Open => 2,
        MarkKind::Tenure { .. } => 3,
        MarkKind::TenureEnd => 4,
        MarkKind::Cycle { .. } => 5,
        MarkKind::CycleEnd => 6,
        MarkKind::Transfer { .. } => 7,
        MarkKind::Answer { .. } | MarkKind::WriteAnswer { .. } => 8,
        MarkKind::Close => 9,
    }
}

/// Whether `f` is before `g` by its rule, then its line.
fn breaks_before(f: &Break, g: &Break) -> bool
    ensures { result ≡ fault_before f.now g.now }
{
    let a = f.rule.number();
    let b = g.rule.number();
    a < b || (a == b && f.line.number() < g.line.number())
}

/// Whether `a` is before `b` by its instant, then its rule, then its line.
fn sooner(a: &Break, b: &Break) -> bool
    ensures { result ≡ sooner_than a.now b.now }
{
    let less = breaks_before(a, b);
    a.instant < b.instant || (a.instant == b.instant && less)
}

/// Whether `a` is before `b` by its instant, then its kind.
fn mark_lt(a: &Mark, b: &Mark) -> bool
    ensures { result ≡ mark_before a.now b.now }
{
    let i = kind_number(a.kind);
    let j = kind_number(b.kind);
    a.instant < b.instant || (a.instant == b.instant && i < j)
}

/// The least of two breaks by instant, then rule, then line, if there is one at all.
pub fn least(first: Option<Break>, second: Option<Break>) -> Option<Break>
    ensures { result ≡ least_of first second }
{
    match first {
        None => second,
        Some(a) => match second {
            None => Some(a),
            Some(b) => { if sooner(&b, &a) { Some(b) } else { Some(a) } }
        },
    }
}

/// Whether there is a mark at index `j`, and it comes before `a`.
fn is_before(marks: &[Mark], j: usize, a: Mark) -> bool
    ensures { result ≡ option_map_or (λ b. mark_before b a) (slice_get marks.now j) false }
{
    if j < marks.len() {
        mark_lt(&marks[j], &a)
    } else {
        false
    }
}

/// Merges the marks of two monitors by instant, then kind. If both are equal, that of `first` comes first.
fn merge_marks(alloc: Global, first: &[Mark], second: &[Mark]) -> Result<Vec<Mark>, AllocError>
    ensures { IfOk result (λ v. v.items ≡ merged first.now second.now) }
{
    let mut all = Vec::new(alloc);
    let mut i = 0;
    let mut j = 0;
    while i < first.len() {
        let a = first[i];
        let before = is_before(second, j, a);
        if before && j < second.len() {
            all.push(second[j])?;
            j += 1;
        } else {
            all.push(first[i])?;
            i += 1;
        }
    }
    let left = &second[j..];
    all.extend_from_slice(left)?;
    Ok(all)
}

/// How many marks at the front of `marks` come before `mark`.
fn count_before(marks: &[Mark], mark: Mark) -> usize
    ensures before { take result marks.now ≡ front mark marks.now }
    ensures after { drop result marks.now ≡ rest mark marks.now }
    ensures there { result ≤ length marks.now }
{
    for count in 0..marks.len() {
        if !mark_lt(&marks[count], &mark) {
            return count;
        }
    }
    marks.len()
}

/// How many marks at the front of `marks` there are before the first that `mark` comes before.
fn count_until(marks: &[Mark], mark: Mark) -> usize
    ensures placed { take result marks.now ++ mark ∷ drop result marks.now ≡ merged marks.now (mark ∷ []) }
    ensures there { result ≤ length marks.now }
{
    for count in 0..marks.len() {
        if mark_lt(&mark, &marks[count]) {
            return count;
        }
    }
    marks.len()
}

/// Merges the single mark of `alone` with `marks`. Where instant and kind are equal, it comes first.
fn put_among(alone: &[Mark], marks: Vec<Mark>) -> Result<Vec<Mark>, AllocError>
    requires { length alone.now ≡ 1 }
    ensures { IfOk result (λ v. v.items ≡ merged alone.now marks.items) }
{
    let mut all = marks;
    let count = count_before(all.as_slice(), alone[0]);
    all.insert(count, alone[0])?;
    Ok(all)
}

/// Merges `marks` with the single mark of `alone`. Where instant and kind are equal, it comes last.
fn put_behind(marks: Vec<Mark>, alone: &[Mark]) -> Result<Vec<Mark>, AllocError>
    requires { length alone.now ≡ 1 }
    ensures { IfOk result (λ v. v.items ≡ merged marks.items alone.now) }
{
    let mut all = marks;
    let count = count_until(all.as_slice(), alone[0]);
    all.insert(count, alone[0])?;
    Ok(all)
}

/// Merges the marks of two monitors, which are both consumed. If one list is empty, the result is the other. If one has
/// a single mark, e.g. the start of judging, it is inserted into the other. It fails if memory runs out.
pub fn marks_together(
    alloc: Global,
    first: Vec<Mark>,
    second: Vec<Mark>,
) -> Result<Vec<Mark>, AllocError>
    ensures { IfOk result (λ v. v.items ≡ merged first.items second.items) }
{
    if first.is_empty() {
        Ok(second)
    } else if second.is_empty() {
        Ok(first)
    } else if first.len() == 1 {
        put_among(first.as_slice(), second)
    } else if second.len() == 1 {
        put_behind(first, second.as_slice())
    } else {
        merge_marks(alloc, first.as_slice(), second.as_slice())
    }
}

/// Summaries of the same steps by two monitors.
#[derive(Drop)]
pub struct Pair<M: Monitor, N: Monitor> {
    pub(crate) first: M::Summary,
    pub(crate) second: N::Summary,
    ghost same: { M.count first ≡ N.count second },
}

/// The monitor that runs `M` and `N` over the same steps.
pub struct Both<M, N> {
    of: PhantomData<(M, N)>,
}

impl<M: Monitor, N: Monitor> Monitor for Both<M, N> {
    ghost use Rattle.std.specs.Prelude.{◌+◌, [], length};
    ghost use Rattle.vme_monitor.specs.BothMonitors.{both, both_nothing, both_runs, both_within, within_same};

    type Memory = (M::Memory, N::Memory);

    type Summary = Pair<M, N>;

    ghost run = { λ p o x. both (M.run p.0 o x) (N.run p.1 o x) };

    ghost begin = { λ o. (M.begin o, N.begin o) };

    ghost count = { λ s. M.count s.first };

    ghost outcome = { λ s p. both (M.outcome s.first p.0) (N.outcome s.second p.1) };

    ghost marks_kept = { λ s. M.marks_kept s.first + N.marks_kept s.second };

    ghost marks_shown = { λ o x. M.marks_shown o x + N.marks_shown o x };

    ghost nothing = { λ p o. both_nothing p.0 p.1 (M.run p.0 o []) (N.run p.1 o []) (M.nothing p.0 o)
        (N.nothing p.1 o) };

    ghost joined = { λ p o x y. both_runs M.run N.run p.0 p.1 o x y (M.joined p.0 o x y)
        (N.joined p.1 o x y) M.within N.within };

    ghost within = { λ p o x. both_within (length x) (M.run p.0 o x) (N.run p.1 o x) (M.within p.0 o x)
        (N.within p.1 o x) };

    ghost inside = { λ s p. both_within (M.count s.first) (M.outcome s.first p.0) (N.outcome s.second p.1)
        (M.inside s.first p.0) (within_same (M.count s.first) (N.count s.second) (N.outcome s.second p.1) s.same
        (N.inside s.second p.1)) };

    fn start(opening: &Lines) -> (M::Memory, N::Memory) {
        (M::start(opening), N::start(opening))
    }

    fn summarise(alloc: Global, opening: &Lines, steps: &[Step]) -> Result<Pair<M, N>, AllocError> {
        let first = M::summarise(alloc, opening, steps)?;
        let second = N::summarise(alloc, opening, steps)?;
        Ok(Pair { first, second })
    }

    fn compose(
        alloc: Global,
        first: &Pair<M, N>,
        second: &Pair<M, N>,
    ) -> Result<Pair<M, N>, AllocError> {
        let a = M::compose(alloc, &first.first, &second.first)?;
        let b = N::compose(alloc, &first.second, &second.second)?;
        Ok(Pair {
            first: a,
            second: b,
        })
    }

    fn unit(alloc: Global) -> Result<Pair<M, N>, AllocError> {
        let first = M::unit(alloc)?;
        let second = N::unit(alloc)?;
        Ok(Pair { first, second })
    }

    fn steps(summary: &Pair<M, N>) -> u32 {
        M::steps(&summary.first)
    }

    fn stored(summary: &Pair<M, N>) -> u64 {
        M::stored(&summary.first).saturating_add(N::stored(&summary.second))
    }

    fn leaving(summary: &Pair<M, N>, memory: (M::Memory, N::Memory)) -> (M::Memory, N::Memory) {
        (
            M::leaving(&summary.first, memory.0),
            N::leaving(&summary.second, memory.1),
        )
    }

    fn event(summary: &Pair<M, N>, memory: (M::Memory, N::Memory)) -> Option<Break> {
        least(
            M::event(&summary.first, memory.0),
            N::event(&summary.second, memory.1),
        )
    }

    fn marks(
        alloc: Global,
        summary: &Pair<M, N>,
        memory: (M::Memory, N::Memory),
    ) -> Result<Vec<Mark>, AllocError> {
        let first = M::marks(alloc, &summary.first, memory.0)?;
        let second = N::marks(alloc, &summary.second, memory.1)?;
        marks_together(alloc, first, second)
    }
}

/// Over a whole recording, the first break of `Both` is the least break of the rules of `M` and `N`, and its marks are
/// what both show.
pub fn both_over_recordings<M: Monitor, N: Monitor>()
    ensures first_break { FindsTogether M.run M.begin N.run N.begin
        ⟦<Both<M, N> as Monitor>⟧.run ⟦<Both<M, N> as Monitor>⟧.begin }
    ensures marks { ShowsTogether M.run M.begin N.run N.begin
        ⟦<Both<M, N> as Monitor>⟧.run ⟦<Both<M, N> as Monitor>⟧.begin }
{}

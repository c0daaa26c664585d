//! Calls that are made in parallel, by threads.

ghost use Rattle.std.specs.Prelude.{◌≡◌, ◌<◌, ℕ, All, length, IfOk, IfSome, vec_len};
ghost use Rattle.std.specs.Fork.{GivesEach};
ghost use Rattle.std.specs.Thread.{IsSync, IsSend};
ghost use Rattle.vme_text_workers.specs.Calls.{ArePairedResults, AreResultsByPlace};

use std::alloc::{AllocError, Global};
use std::sync::atomic::{AtomicUsize, Ordering};
use std::thread::{Threads, join_mut};

/// Calls `f` with `place`, and puts what it returns in `given`. It is a function of its own, so that `call_both` takes
/// no room for it.
#[inline(never)]
fn call_at<X: Drop, F: Fn(usize) -> Option<X>>(f: &F, place: usize, given: &mut Option<X>)
    requires { F.pre f.now place }
    ensures { F.post f.now place given.new }
{
    *given = f(place);
}

/// Calls `f` with `place`, the last one, in a thread of its own, where one can be made, and with each place before it.
#[cycle(apart)]
fn call_both<R: Threads + Sync, X: Send + Drop, F: Fn(usize) -> Option<X> + Sync>(
    rt: &R,
    f: &F,
    place: usize,
    last: &mut Option<X>,
    before: &mut [Option<X>],
)
    requires last { F.pre f.now place }
    requires before { (i : ℕ) → i < length before.old → F.pre f.now i }
    ensures last { F.post f.now place last.new }
    ensures len { length before.new ≡ length before.old }
    ensures each { GivesEach F.Fn f.now (length before.old) before.new }
{
    let mut apart = ||
        requires { IsSync F.row × IsSend X.row × F.pre f.now place }
        ensures { F.post f.entry.now place last.exit.now }
    { call_at(f, place, last) };
    let mut here = ||
        requires { IsSync R.row × IsSync F.row × IsSend X.row × ((i : ℕ) → i < length before.now → F.pre f.now i) }
        ensures len { length before.exit.now ≡ length before.entry.now }
        ensures each { GivesEach F.Fn f.entry.now (length before.entry.now) before.exit.now }
    { call_each(rt, f, before) };
    join_mut(rt, &mut apart, &mut here);
}

/// Calls `f` with each index of `all`, and puts what it returns there.
#[cycle(apart)]
fn call_each<R: Threads + Sync, X: Send + Drop, F: Fn(usize) -> Option<X> + Sync>(
    rt: &R,
    f: &F,
    all: &mut [Option<X>],
)
    requires { (i : ℕ) → i < length all.old → F.pre f.now i }
    ensures len { length all.new ≡ length all.old }
    ensures each { GivesEach F.Fn f.now (length all.old) all.new }
{
    let Some((last, before)) = all.split_last_mut() else {
        return;
    };
    let place = before.len();
    call_both(rt, f, place, last, before);
}

/// Calls `f` with each place below `count`, and returns the results in order. Each place has a thread of its own, where
/// one can be made. The calling thread starts all of them and waits, so that each finds a processor: the system is slow
/// to spread threads that start one another, or one of which works after it started the others. The room for the
/// results is made before a thread is started. The only error is want of memory.
fn map_threads<R: Threads + Sync, X: Send + Drop, F: Fn(usize) -> Option<X> + Sync>(
    rt: &R,
    alloc: Global,
    count: usize,
    f: &F,
) -> Result<Vec<Option<X>>, AllocError>
    requires { (i : ℕ) → i < count → F.pre f.now i }
    ensures len { IfOk result (λ all. vec_len all ≡ count) }
    ensures each { IfOk result (λ all. GivesEach F.Fn f.now count all.items) }
{
    let mut all = Vec::new(alloc);
    all.resize_with(count, || None)?;
    call_each(rt, f, all.as_mut_slice());
    Ok(all)
}

/// Calls `f` with `place`, and adds the place and the result, if there is one, to `taken`. For want of memory it isn't
/// kept.
fn take_place<X: Drop, F: Fn(usize) -> Option<X>>(f: &F, place: usize, taken: &mut Vec<(usize, X)>)
    requires place { F.pre f.now place }
    requires taken { ArePairedResults (F.post f.now) taken.old.items }
    ensures { ArePairedResults (F.post f.now) taken.new.items }
{
    let Some(given) = f(place) else {
        return;
    };
    let _ = taken.push((place, given));
}

/// Calls `f` with each place that the counter `next` gives, as long as these are below `count`, and returns the places
/// with the results.
fn take_places<X: Drop, F: Fn(usize) -> Option<X>>(
    alloc: Global,
    next: &AtomicUsize,
    count: usize,
    f: &F,
) -> Vec<(usize, X)>
    requires { (i : ℕ) → i < count → F.pre f.now i }
    ensures { ArePairedResults (F.post f.now) result.items }
{
    let mut taken = Vec::new(alloc);
    for _ in 0..count {
        let place = next.fetch_add(1, Ordering::SeqCst);
        if place >= count {
            break;
        }
        take_place(f, place, &mut taken);
    }
    taken
}

/// `count` empty places. The only error is want of memory.
fn empty_places<X: Drop>(alloc: Global, count: usize) -> Result<Vec<Option<X>>, AllocError>
    ensures { IfOk result (λ all. All (λ one. one ≡ None) all.items) }
{
    let mut all = Vec::with_capacity(alloc, count)?;
    for _ in 0..count {
        all.push(None)?;
    }
    Ok(all)
}

/// Puts `given`, which the call with `place` returned, at that place of `all`, if there is such a place.
fn put<X: Drop, F: Fn(usize) -> Option<X>>(_f: &F, all: &mut [Option<X>], place: usize, given: X)
    requires given { F.post _f.now place (Some given) }
    requires all { AreResultsByPlace (F.post _f.now) all.old }
    ensures { AreResultsByPlace (F.post _f.now) all.new }
{
    if place >= all.len() {
        return;
    }
    all[place] = Some(given);
}

/// Puts the results of a thread at their places.
fn put_taken<X: Drop, F: Fn(usize) -> Option<X>>(
    _f: &F,
    all: &mut [Option<X>],
    taken: Vec<(usize, X)>,
)
    requires taken { ArePairedResults (F.post _f.now) taken.items }
    requires all { AreResultsByPlace (F.post _f.now) all.old }
    ensures { AreResultsByPlace (F.post _f.now) all.new }
{
    let mut left = taken;
    while let Some((place, given)) = left.pop() {
        put(_f, all, place, given);
    }
}

/// As `put_taken`, if the thread has results.
fn put_if_taken<X: Drop, F: Fn(usize) -> Option<X>>(
    _f: &F,
    all: &mut [Option<X>],
    taken: Option<Vec<(usize, X)>>,
)
    requires taken { IfSome taken (λ ones. ArePairedResults (F.post _f.now) ones.items) }
    requires all { AreResultsByPlace (F.post _f.now) all.old }
    ensures { AreResultsByPlace (F.post _f.now) all.new }
{
    let Some(ones) = taken else {
        return;
    };
    put_taken(_f, all, ones);
}

/// Puts the results of several threads at their places.
fn put_each<X: Drop, F: Fn(usize) -> Option<X>>(
    _f: &F,
    all: &mut [Option<X>],
    takers: Vec<Option<Vec<(usize, X)>>>,
)
    requires takers { All (λ taken. IfSome taken (λ ones. ArePairedResults (F.post _f.now) ones.items)) takers.items }
    requires all { AreResultsByPlace (F.post _f.now) all.old }
    ensures { AreResultsByPlace (F.post _f.now) all.new }
{
    let mut left = takers;
    while let Some(taken) = left.pop() {
        put_if_taken(_f, all, taken);
    }
}

/// The results of several threads, each at its place of `count`. The only error is want of memory. It is a function of
/// its own, so that the threads are started where the stack has no room for it yet.
#[inline(never)]
fn in_places<X: Drop, F: Fn(usize) -> Option<X>>(
    alloc: Global,
    count: usize,
    _f: &F,
    takers: Vec<Option<Vec<(usize, X)>>>,
) -> Result<Vec<Option<X>>, AllocError>
    requires { All (λ taken. IfSome taken (λ ones. ArePairedResults (F.post _f.now) ones.items)) takers.items }
    ensures { IfOk result (λ all. AreResultsByPlace (F.post _f.now) all.items) }
{
    let mut all = empty_places(alloc, count)?;
    put_each(_f, all.as_mut_slice(), takers);
    Ok(all)
}

/// Calls `f` with the places below `count`, and returns the results, each at its place. `threads` threads, as far as
/// they can be made, take the places in order, each the next one as soon as it is done with one: a thread on a slower
/// processor takes fewer. For want of memory some places may stay empty. The only error is want of memory.
pub(crate) fn map_places<R: Threads + Sync, X: Send + Drop, F: Fn(usize) -> Option<X> + Sync>(
    rt: &R,
    alloc: Global,
    threads: usize,
    count: usize,
    f: &F,
) -> Result<Vec<Option<X>>, AllocError>
    requires { (i : ℕ) → i < count → F.pre f.now i }
    ensures { IfOk result (λ all. AreResultsByPlace (F.post f.now) all.items) }
{
    let next = AtomicUsize::new(0);
    let takers = map_threads(
        rt,
        alloc,
        threads.min(count),
        &|_: usize| -> Option<Vec<(usize, X)>>
            requires { (i : ℕ) → i < count → F.pre f.now i }
            ensures { IfSome result (λ taken. ArePairedResults (F.post f.entry.now) taken.items) }
        { Some(take_places(alloc, &next, count, f)) },
    )?;
    in_places(alloc, count, f, takers)
}

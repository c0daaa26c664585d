//! Gates that make workers wait, and one that records their calls.

use std::sync::atomic::{AtomicBool, AtomicU32, Ordering};
use std::sync::{Condvar, Mutex, Wait};
use vme_floor::Gate;

/// Holds one delivery until another is done, however long that takes.
#[derive(Drop)]
pub(super) struct Waits<R: Wait> {
    rt: R,
    held: u32,
    until: u32,
    done: Mutex<bool>,
    changed: Condvar,
}

impl<R: Wait> Waits<R> {
    pub(super) fn new(rt: R, held: u32, until: u32) -> Waits<R> {
        Waits {
            rt,
            held,
            until,
            done: Mutex::new(false),
            changed: Condvar::new(),
        }
    }
}

impl<R: Wait> Gate for Waits<R> {
    fn pass(&self, _worker: u32, delivery: u32) {
        if delivery == self.held {
            let _done = self
                .changed
                .wait_while(&self.rt, self.done.lock(&self.rt), |done| !*done);
        }
    }

    fn done(&self, _worker: u32, delivery: u32) {
        if delivery == self.until {
            *self.done.lock(&self.rt) = true;
            self.changed.notify_all();
        }
    }
}

/// Which workers came to a gate, and which deliveries were done. A worker is the bit of its number.
#[derive(Clone, Copy)]
struct Seen {
    came: u64,
    done: u64,
    /// How often other workers than the calling thread came.
    others: u32,
    /// How often the calling thread was done.
    own: u32,
}

/// Makes each other worker wait until the calling thread has done two deliveries, and the calling thread wait at its
/// second delivery until `others` calls of other workers have come: then all of them are at the gate at once.
#[derive(Drop)]
pub(super) struct Gathers<R: Wait> {
    rt: R,
    others: u32,
    seen: Mutex<Seen>,
    changed: Condvar,
}

impl<R: Wait> Gathers<R> {
    pub(super) fn new(rt: R, others: u32) -> Gathers<R> {
        let none = Seen {
            came: 0,
            done: 0,
            others: 0,
            own: 0,
        };
        Gathers {
            rt,
            others,
            seen: Mutex::new(none),
            changed: Condvar::new(),
        }
    }

    /// The workers that came, and those that were done.
    pub(super) fn workers(&self) -> (u64, u64) {
        let seen = self.seen.lock(&self.rt);
        (seen.came, seen.done)
    }
}

impl<R: Wait> Gate for Gathers<R> {
    fn pass(&self, worker: u32, _delivery: u32) {
        let mut seen = self.seen.lock(&self.rt);
        seen.came |= 1u64.wrapping_shl(worker);
        if worker == 0 {
            let _met = self.changed.wait_while(&self.rt, seen, |seen| {
                seen.own == 1 && seen.others < self.others
            });
            return;
        }
        seen.others = seen.others.saturating_add(1);
        self.changed.notify_all();
        let _met = self.changed.wait_while(&self.rt, seen, |seen| seen.own < 2);
    }

    fn done(&self, worker: u32, _delivery: u32) {
        let mut seen = self.seen.lock(&self.rt);
        seen.done |= 1u64.wrapping_shl(worker);
        if worker == 0 {
            seen.own = seen.own.saturating_add(1);
            self.changed.notify_all();
        }
    }
}

/// Counts the calls, and records whether each was the next in order: `pass` and `done` for each delivery, by worker 0.
#[derive(Drop)]
pub(super) struct Listens {
    calls: AtomicU32,
    out_of_order: AtomicBool,
}

impl Listens {
    pub(super) fn new() -> Listens {
        Listens {
            calls: AtomicU32::new(0),
            out_of_order: AtomicBool::new(false),
        }
    }

    /// Whether the calls were those of `deliveries` deliveries, in their order.
    pub(super) fn heard_in_order(&self, deliveries: u32) -> bool {
        !self.out_of_order.load(Ordering::SeqCst)
            && self.calls.load(Ordering::SeqCst) == deliveries.saturating_mul(2)
    }

    fn hear(&self, worker: u32, delivery: u32, later: u32) {
        let call = self.calls.fetch_add(1, Ordering::SeqCst);
        if worker != 0 || call % 2 != later || call / 2 != delivery {
            self.out_of_order.store(true, Ordering::SeqCst);
        }
    }
}

impl Gate for Listens {
    fn pass(&self, worker: u32, delivery: u32) {
        self.hear(worker, delivery, 0);
    }

    fn done(&self, worker: u32, delivery: u32) {
        self.hear(worker, delivery, 1);
    }
}

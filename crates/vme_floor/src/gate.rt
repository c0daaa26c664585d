//! Calls that each worker makes before and after it delivers.

/// The calls that the workers of a run make. Workers are numbered from 0, the calling thread, and deliveries from 0, in
/// their order. Both calls may wait; a run returns only if they return.
pub trait Gate {
    /// The worker has drawn the delivery, and hasn't delivered it yet.
    fn pass(&self, worker: u32, delivery: u32);

    /// The worker has the answer to the delivery.
    fn done(&self, worker: u32, delivery: u32);
}

/// A gate whose calls return at once.
#[derive(Clone, Copy, Debug, Default, PartialEq, Eq)]
pub struct Open;

impl Gate for Open {
    fn pass(&self, _worker: u32, _delivery: u32) {}

    fn done(&self, _worker: u32, _delivery: u32) {}
}

//! Counts that only proofs read.

ghost use Rattle.std.specs.Prelude.{◌≡◌, ◌≤◌, ◌<◌, ℕ, suc};
ghost use Rattle.std.specs.Borrow.{ftrue};

use std::marker::Model;

/// A natural number without a bound. Only clauses read it: in the program it is empty.
#[derive(Drop)]
pub struct GhostCount {
    pub ghost number: { ℕ },
}

impl Model for GhostCount {
    ghost also_owns = { λ _. ftrue };
}

impl GhostCount {
    /// The count 0.
    pub fn new() -> GhostCount
        ensures { result.number ≡ 0 }
    {
        GhostCount {}
    }

    /// The count plus 1.
    pub fn next(&self) -> GhostCount
        ensures { result.number ≡ suc self.now.number }
    {
        GhostCount {}
    }
}

/// Counts of the reads of a source.
#[derive(Drop)]
pub struct ReadCounts {
    /// How many reads gave bytes.
    pub reads: GhostCount,
    /// How many of these gave fewer bytes than they had room for.
    pub short_reads: GhostCount,
}

impl ReadCounts {
    /// The counts before any read.
    pub fn new() -> ReadCounts
        ensures reads { result.reads.number ≡ 0 }
        ensures short_reads { result.short_reads.number ≡ 0 }
    {
        ReadCounts {
            reads: GhostCount::new(),
            short_reads: GhostCount::new(),
        }
    }

    /// Counts a read that gave `count` bytes, and had room for `room`.
    pub fn add(&mut self, count: usize, room: usize)
        ensures none { count ≡ 0 → self.new.reads.number ≡ self.old.reads.number }
        ensures some { 0 < count → self.new.reads.number ≡ suc self.old.reads.number }
        ensures none_short { count ≡ 0 → self.new.short_reads.number ≡ self.old.short_reads.number }
        ensures short { 0 < count → count < room → self.new.short_reads.number ≡ suc self.old.short_reads.number }
        ensures full { room ≤ count → self.new.short_reads.number ≡ self.old.short_reads.number }
    {
        if count == 0 {
            return;
        }
        self.reads = self.reads.next();
        if count < room {
            self.short_reads = self.short_reads.next();
        }
    }
}

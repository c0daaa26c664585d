//! A consumer of the bytes of an input as they are read.

ghost use Rattle.std.specs.Prelude.{ℕ, List};

/// A consumer of the bytes of an input as they are read.
pub trait ByteConsumer: Drop + Sized {
    /// The outcomes that an input can have.
    ghost Outcome: { Type 0 };

    /// The outcome if these bytes follow those that were taken.
    ghost ahead: { Self → List ℕ → Self.Outcome };
}

//! A binding makes the same recording of a dump and of the annotated dump.

ghost use Rattle.vme_annotation.specs.Same.{SaysTheSame};

/// An annotated dump says what the dump says: each binding that makes a recording of the dump makes the same of the
/// annotated one. This is a law, and a call does nothing.
pub fn annotated_says_the_same()
    ensures { SaysTheSame }
{}

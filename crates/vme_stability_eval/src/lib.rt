//! What the definitions say of worked recordings of lines that are known and held, by computing
//! them.
//!
//! Each function is a law: its contract states it, and the prover computes it. The recordings are
//! in vme_eval, in the module of the law's name, with the verdict and the listing that each should
//! get.
//!
//! - [`held_lines`]: the address, its modifier and the direction (U2, U3, S1, S2).
//! - [`write_data`]: the data of a write (U4, S3), and what a listing says of it.
//!
//! Nothing is said of other recordings. Start reading at the law of interest.
#![tactic(auto)]

ghost use Rattle.std.specs.Prelude.{All};
ghost use Rattle.vme_eval.specs.Recording.{Agrees};
ghost use Rattle.vme_eval.specs.HeldLines.{held_lines};
ghost use Rattle.vme_eval.specs.WriteData.{write_data};

/// Lines that are known and held while a cycle or a transfer lasts.
pub fn held_lines()
    ensures { All Agrees held_lines }
{}

/// Data lines that a write moves: known as its strobes fall, and held until the answer.
pub fn write_data()
    ensures { All Agrees write_data }
{}

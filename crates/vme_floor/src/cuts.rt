//! The blocks of a recording's cut.

ghost use Rattle.std.specs.Prelude.{◌≡◌, ◌<◌, ◌≤◌, ℕ, None};
ghost use Rattle.vme_trace.specs.Blocks.{block_count, blocks_of};
ghost use Rattle.vme_trace.specs.Trace.{Trace};
ghost use Rattle.vme_trace.specs.WellFormed.{malformed_step};
ghost use Rattle.vme_floor.specs.Cuts.{IsCutOf};

/// The blocks of `size` steps each, as `Capture::cut` makes them from a well-formed recording, are a cut of it.
pub fn every_size_cuts()
    ensures { (t : Trace) (size : ℕ) → malformed_step t ≡ None → 0 < size → size ≤ 65536
        → IsCutOf t (block_count size t) (blocks_of size t) }
{}

//! The recording that a binding makes of a dump, settled, i.e. deskewed, by a skew.

ghost use Rattle.std.specs.Prelude.{◌≡◌, ℕ, List, Option};
ghost use Rattle.vme_stream.specs.Answers.{capture_read, judgement_of};
ghost use Rattle.vme_commands.specs.Listings.{recording_in_blocks};
ghost use Rattle.vme_commands.specs.Settled.{settled_judgement, settled_read, settled_recording};

/// Deskewed by 0, the recording that a binding makes of a dump is read, judged and listed as it is.
/// These are laws, and a call does nothing.
pub fn unsettled()
    ensures read { (b d : Option (List ℕ)) → settled_read 0 b d ≡ capture_read b d }
    ensures judgement { (b d : Option (List ℕ)) (block : ℕ) → settled_judgement 0 b d block ≡ judgement_of b d block }
    ensures recording { (b d : Option (List ℕ)) (block : ℕ) → settled_recording 0 b d block
        ≡ recording_in_blocks b d block }
{}

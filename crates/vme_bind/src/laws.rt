//! What holds of the recording of every text.

ghost use Rattle.std.specs.Prelude.{◌≡◌, List, []};
ghost use Rattle.vme_trace.specs.Levels.{Levels};
ghost use Rattle.vme_trace.specs.Trace.{Trace};
ghost use Rattle.vcd_read.specs.Tokens.{Token};
ghost use Rattle.vme_bind.specs.SpeculativeReading.{SpeculativeReached, with_recording};
ghost use Rattle.vme_bind.specs.TextReading.{following, reading_ahead};

/// The recording before a place of a text is a prefix of the recording of the text. The steps that follow, the fault
/// and the last time are the same after any recording: they are those after a recording without steps, whatever its
/// opening.
pub fn recorded_before_is_a_prefix()
    ensures { (w : SpeculativeReached) (t : Trace) (opening : Levels) (tokens more : List Token)
        → reading_ahead (with_recording t w) tokens more
        ≡ following t (reading_ahead (with_recording (record { opening = opening; steps = [] }) w) tokens more) }
{}

//! Recordings by probes that sample one moment of the bus at several times, and *settling* them by
//! a skew, i.e. deskewing them.
//!
//! A logic analyser samples each line a little earlier or later than another. What lies within the
//! *skew* is taken as one moment: the steps of a recording are taken in groups, and each group
//! makes one step, at the time of its first one, of the lines that have another level after the
//! group than before it. A group begins with the first step that is more than the skew later than
//! the beginning of the group before.
//!
//! # Parts
//!
//! - `specs/Settled`: the definition.
//! - `step_settler`, `group`: [`StepSettler`], which settles steps as they come and keeps none of
//!   them, and the current group; `specs/Settling` has its state.
//! - `settling_visitor`: [`SettlingVisitor`], which does so for another visitor; `specs/PassedOn`
//!   says what it has passed on. Its skew is a parameter of its type, [`GhostSkew`].
//! - The functions of this file: laws of the definition. Their contracts state them.
//!
//! # What is proved
//!
//! A skew of 0 leaves a recording as it is ([`settled_by_zero`]). A settled recording is a
//! recording, and has no more steps than before ([`settled_is_recording`]). The levels after each
//! group are those of the recording ([`levels_are_kept`]). [`worked_recordings`] computes
//! recordings at the bounds of groups.
//!
//! A group is complete once a time is read that is more than the skew later than its beginning
//! (`settled_until`). The complete groups make a prefix of the settled recording
//! ([`settled_until_is_prefix`]), which is a recording ([`settled_until_is_recording`]) and stays
//! so as more steps come ([`settled_until_grows`]). With a skew of 0 it is all that is earlier
//! ([`settled_until_by_zero`]). The steps that come out of a [`StepSettler`] are at any time
//! exactly the complete ones (`settled`), and all once it ends, for steps of a recording that come
//! no earlier than a time that is known. What a [`SettlingVisitor`] passes on is the whole settled
//! recording once it ends (`settled`), which is a recording (`formed`), whatever recording it
//! takes.
//!
//! # What isn't proved
//!
//! How much work a [`StepSettler`] takes, and a [`SettlingVisitor`]. Which skew fits a probe is for
//! its user to know: two edges of the bus that lie within the skew become one instant, and their
//! order is lost.
//!
//! # Limits
//!
//! A skew is a number below 2^64, in the time unit of the dump. Start reading at `specs/Settled`.
#![tactic(auto)]

ghost use Rattle.std.specs.Prelude.{◌≡◌, ◌≤◌, ◌<◌, ◌++◌, ℕ, All, List, length};
ghost use Rattle.vme_trace.specs.Followed.{with_steps};
ghost use Rattle.vme_trace.specs.Trace.{Trace, levels_after, levels_at};
ghost use Rattle.vme_trace.specs.declared.step.Step.{Step};
ghost use Rattle.vme_skew.specs.Settled.{AreFrom, IsPrefixOf, IsRecording, settled, settled_until, step_to};
ghost use Rattle.vme_skew.specs.Settled.{steps_before};
ghost use Rattle.vme_skew.specs.Worked.{HasComplete, Settles, worked, worked_times};

mod group;
mod settling_visitor;
mod step_settler;

pub use settling_visitor::{GhostSkew, SettlingVisitor};
pub use step_settler::StepSettler;

/// A recording settled by a skew of 0 is itself.
pub fn settled_by_zero()
    ensures { (t : Trace) → IsRecording t → settled 0 t ≡ t }
{}

/// A settled recording is a recording, and has no more steps than the one that is settled.
pub fn settled_is_recording()
    ensures recording { (skew : ℕ) (t : Trace) → IsRecording t → IsRecording (settled skew t) }
    ensures no_longer { (skew : ℕ) (t : Trace) → length (settled skew t).steps ≤ length t.steps }
{}

/// The steps that the groups up to instant `n` make, the instant's own group as far as `n`, lead to the levels of that
/// instant: so settling keeps the levels after each group.
pub fn levels_are_kept()
    ensures { (skew n : ℕ) (t : Trace) → IsRecording t
        → levels_after t.opening (steps_before skew t n ++ step_to skew t n) ≡ levels_at t n }
{}

/// What is complete once a time is read is a prefix of the settled recording.
pub fn settled_until_is_prefix()
    ensures { (skew time : ℕ) (t : Trace) → IsPrefixOf (settled_until skew time t) (settled skew t) }
{}

/// What is complete once a time is read is a recording.
pub fn settled_until_is_recording()
    ensures { (skew time : ℕ) (t : Trace) → IsRecording t → IsRecording (settled_until skew time t) }
{}

/// What is complete at `time` stays so, if steps follow that aren't earlier. It is a prefix of what is complete at a
/// later time, and of the whole settled recording.
pub fn settled_until_grows()
    ensures kept { (skew time : ℕ) (t : Trace) (more : List Step) → AreFrom time more
        → settled_until skew time (with_steps t more) ≡ settled_until skew time t }
    ensures later { (skew time later : ℕ) (t : Trace) (more : List Step) → time ≤ later → AreFrom time more
        → IsPrefixOf (settled_until skew time t) (settled_until skew later (with_steps t more)) }
    ensures whole { (skew time : ℕ) (t : Trace) (more : List Step) → AreFrom time more
        → IsPrefixOf (settled_until skew time t) (settled skew (with_steps t more)) }
{}

/// With a skew of 0 a recording is complete, and stays as it is, if all its steps are earlier than the time.
pub fn settled_until_by_zero()
    ensures { (time : ℕ) (t : Trace) → IsRecording t → All (λ (step : Step). step.time < time) t.steps
        → settled_until 0 time t ≡ t }
{}

/// Worked recordings at the bounds of groups, and times at which groups are complete.
pub fn worked_recordings()
    ensures settle { All Settles worked }
    ensures complete { All HasComplete worked_times }
{}

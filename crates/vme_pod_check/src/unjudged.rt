//! Why a recording is not judged by workers.

ghost use Rattle.std.specs.Prelude.{◌≡◌};
ghost use Rattle.vme_stream.specs.Texts.{line_of};
ghost use Rattle.vme_pod_check.specs.Judgements.{unjudged_status, unjudged_text};

use vme_stream::{Message, Refusal, refusal_line};

/// Why a recording is not judged by workers.
#[derive(Clone, Copy, Debug, PartialEq, Eq)]
pub enum Unjudged {
    /// A check would refuse it too, or memory ran out.
    Refused(Refusal),
    /// A thread couldn't be started.
    NoWorker,
    /// The benches of the workers don't account for what the board holds. This is never returned.
    Stray,
}

impl Unjudged {
    /// The line for standard error.
    pub fn line(&self) -> Message
        ensures { result ≡ line_of (unjudged_text self.now) }
    {
        match self {
            Unjudged::Refused(refusal) => refusal_line(refusal),
            Unjudged::NoWorker => Message::new()
                .with(b"vmecheck: cannot start a worker")
                .with_line_feed(),
            Unjudged::Stray => Message::new()
                .with(b"vmecheck: stray block")
                .with_line_feed(),
        }
    }

    /// The exit status: 4 for want of memory or of a worker, and for `Stray`, else 3.
    pub fn status(&self) -> u8
        ensures { result ≡ unjudged_status self.now }
    {
        match self {
            Unjudged::Refused(refusal) => refusal.status(),
            Unjudged::NoWorker | Unjudged::Stray => 4,
        }
    }
}

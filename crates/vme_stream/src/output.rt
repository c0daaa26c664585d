//! Writing to a sink.

ghost use Rattle.std.specs.Prelude.{◌≡◌, [], MatchResult};
ghost use Rattle.vme_stream.specs.Ends.{Ends};
ghost use Rattle.vme_stream.specs.Outputs.{Writes, FailsToWrite, TriesToWrite};
ghost use Rattle.vme_stream.specs.Texts.{line_of, refusal_status, refusal_text};

use crate::message::Message;
use crate::refusal::Refusal;
use crate::text::{cannot_write_line, refusal_line};
use vme_trace::{Failed, Sink};

/// Writes all of `bytes`. After a failure a prefix of them was written.
pub fn write_all<W: Sink>(sink: &mut W, bytes: &[u8]) -> Result<(), Failed>
    ensures { MatchResult result (λ _. Writes (W.writing sink.old) (W.writing sink.new) bytes.now)
        (λ _. FailsToWrite (W.writing sink.old) (W.writing sink.new) bytes.now) }
{
    let mut rest = bytes;
    while !rest.is_empty() {
        match sink.write(rest) {
            Ok(count) => rest = &rest[count..],
            Err(failed) => return Err(failed),
        }
    }
    Ok(())
}

/// Writes a text beside an answer, or in place of one. After a failure, which is ignored, a prefix of it was written.
pub fn say<W: Sink>(sink: &mut W, text: &[u8])
    ensures { TriesToWrite (W.writing sink.old) (W.writing sink.new) text.now }
{
    let _ = write_all(sink, text);
}

/// Writes why a command has no answer. Where that fails, nothing else is done.
pub fn complain<W: Sink>(sink: &mut W, line: Message)
    ensures { TriesToWrite (W.writing sink.old) (W.writing sink.new) line }
{
    say(sink, line.as_bytes());
}

/// Writes the answer `bytes` to `out`, and returns its status. If that fails, writes to `err` that it can't be written,
/// and returns 5.
pub fn write_answer<O: Sink, E: Sink>(bytes: &[u8], status: u8, out: &mut O, err: &mut E) -> u8
    ensures { Ends (record { out = bytes.now; error = []; status = status })
        (O.writing out.old, O.writing out.new) (E.writing err.old, E.writing err.new) result }
{
    match write_all(out, bytes) {
        Ok(()) => status,
        Err(_) => {
            complain(err, cannot_write_line());
            5
        }
    }
}

/// Writes why a command has no answer, and returns the refusal's status. Where the write fails, nothing else is done.
pub fn tell_refusal<E: Sink>(refusal: &Refusal, err: &mut E) -> u8
    ensures told { TriesToWrite (E.writing err.old) (E.writing err.new) (line_of (refusal_text refusal.now)) }
    ensures status { result ≡ refusal_status refusal.now }
{
    complain(err, refusal_line(refusal));
    refusal.status()
}

//! The recording of a dump whose pieces are read before the text that precedes them, and joined in
//! order.

ghost use Rattle.std.specs.Prelude.{◌≡◌, ◌↔◌, ℕ, List, [], IfOk};
ghost use Rattle.std.specs.Prelude.{IfSome, IsTrue, length};
ghost use Rattle.std.specs.Option.{option_to_list};
ghost use Rattle.vme_trace.specs.LineNumbers.{line_count};
ghost use Rattle.vme_trace.specs.Trace.{Trace};
ghost use Rattle.vme_bind.specs.TextPieces.{text_reached};
ghost use Rattle.vme_bind.specs.SpeculativeReading.{AreLevelsAfter, MayFollowLevels, IsJoined, IsReadSpeculatively};
ghost use Rattle.vme_bind.specs.SpeculativeReading.{with_recording};

use crate::assigned_lines::AssignedLines;
use crate::capture_builder::{CaptureBuilder, ChangeDiscarder, SpeculativeBuilder};
use crate::fault::BindFault;
use crate::net_lines::NetLines;
use crate::recorder::Recorder;
use crate::text_reader::TextReader;
use std::alloc::{AllocError, Global};
use std::marker::Model;
use vcd_read::{BodyReader, DetachedPiece};
use vme_trace::{LINE_COUNT, Line, Lines, Step, StepVisitor};

/// The recording of a dump after some pieces of its text, without the visitor: it has the levels of the lines, and no
/// steps.
#[derive(Drop)]
pub struct SpeculativeReader {
    body_reader: BodyReader<ChangeDiscarder>,
    fault: Option<BindFault>,
    line_bits: NetLines,
    recorder: Recorder,
}

impl Model for SpeculativeReader {
    ghost use Rattle.std.specs.Prelude.{ℕ};
    ghost use Rattle.std.specs.Option.{ForSome};
    ghost use Rattle.vcd_read.specs.DetachedPieces.{with_taken};
    ghost use Rattle.vcd_read.specs.Reached.{reached};
    ghost use Rattle.vme_bind.specs.Recording.{AreLines};
    ghost use Rattle.vme_bind.specs.NetLines.{line_bits_of};
    ghost use Rattle.vme_bind.specs.TextCapture.{IsOfBinding};
    ghost use Rattle.vme_bind.specs.SpeculativeReading.{SpeculativeReached};

    ghost Value = { SpeculativeReached };

    ghost view = { λ w. record {
      fault = w.fault;
      line_bits = w.line_bits;
      body = with_taken w.recorder (reached (λ p. tt {0}) w.body_reader);
    } };

    ghost invariant = { λ w. ForSome w.fault IsOfBinding
        × ((net : ℕ) → AreLines w.recorder.now.slots (line_bits_of w.line_bits net)) };
}

/// A piece of a dump that was read ahead of the text before it, from assumed levels.
#[derive(Drop)]
pub struct SpeculativeChunk {
    from: Lines,
    detached: DetachedPiece<ChangeDiscarder>,
    recorder: Recorder,
    assigned: AssignedLines,
}

impl Model for SpeculativeChunk {
    ghost use Rattle.std.specs.Prelude.{◌≡◌, ℕ, true};
    ghost use Rattle.vme_bind.specs.Recording.{IsLine};
    ghost use Rattle.vme_bind.specs.AssignedLines.{is_assigned};
    ghost use Rattle.vcd_read.specs.DetachedPieces.{detached_with, read_detached};
    ghost use Rattle.vme_bind.specs.SpeculativeReading.{ReadSpeculatively};

    ghost Value = { ReadSpeculatively };

    ghost view = { λ a. record {
      from = a.from;
      detached = detached_with a.recorder (read_detached (λ p. tt {0}) a.detached);
      assigned =
          a.assigned;
    } };

    ghost invariant = { λ a. (a.recorder.now.slots ≡ a.from.slots)
        × ((l : ℕ) → is_assigned a.assigned l ≡ true → IsLine a.from.slots l) };
}

impl<F: StepVisitor> TextReader<F> {
    /// Separates the visitor from the rest, so that pieces can be read ahead.
    pub fn into_speculative(self) -> (SpeculativeReader, F)
        ensures { with_recording (F.recorded result.1) result.0 ≡ text_reached self }
    {
        let TextReader { body_reader, fault } = self;
        let (body_reader, made) = body_reader.with_visitor(ChangeDiscarder);
        let (line_bits, recorder, visitor) = made.into_parts();
        let speculative = SpeculativeReader {
            body_reader,
            fault,
            line_bits,
            recorder,
        };
        (speculative, visitor)
    }
}

impl SpeculativeReader {
    /// Continues the recording with `visitor`.
    pub fn with_step_visitor<F: StepVisitor>(self, visitor: F) -> TextReader<F>
        ensures { text_reached result ≡ with_recording (F.recorded visitor) self }
    {
        let SpeculativeReader {
            body_reader,
            fault,
            line_bits,
            recorder,
        } = self;
        let (body_reader, _) = body_reader.with_visitor(CaptureBuilder::new(
            line_bits, recorder, visitor,
        ));
        TextReader { body_reader, fault }
    }

    /// The line that the next piece begins on, from 1.
    pub fn line(&self) -> u64
        ensures { result ≡ self.now.body.line }
    {
        self.body_reader.line()
    }

    /// The last time that was read, or 0.
    pub fn time(&self) -> u64
        ensures { result ≡ self.now.body.progress.time }
    {
        self.body_reader.time()
    }

    /// The levels after the steps so far.
    pub fn shown(&self) -> &Lines
        ensures { result.now ≡ self.now.body.progress.accumulator.shown }
    {
        self.recorder.shown()
    }

    /// The levels after the values so far.
    pub fn now(&self) -> &Lines
        ensures now { result.now ≡ self.now.body.progress.accumulator.now }
        ensures all { length result.now.levels ≡ line_count }
    {
        self.recorder.now()
    }

    /// Reads `piece`, which begins on `line` and ends after a space, or where the text does, ahead of the text before
    /// it: from the assumed levels `from`, of the same backplane. `visitor`, which has no step, takes the steps of the
    /// piece. The result is `None` for a piece that begins with no time, has a fault or ends within an item, for levels
    /// of another backplane, and where memory runs out.
    pub fn read_ahead<F: StepVisitor>(
        &self,
        alloc: Global,
        piece: &[u8],
        line: u64,
        from: &Lines,
        visitor: F,
    ) -> Option<(SpeculativeChunk, F)>
        requires levels { length from.now.levels ≡ line_count }
        requires none { (F.recorded visitor).steps ≡ [] }
        ensures line { IfSome result (λ made. made.0.detached.first_line ≡ line) }
        ensures from { IfSome result (λ made. made.0.from ≡ from.now) }
        ensures opening { IfSome result (λ made. (F.recorded made.1).opening ≡ (F.recorded visitor).opening) }
        ensures read { IfSome result (λ made.
            IsReadSpeculatively self.now.body.nets self.now.line_bits piece.now (F.recorded made.1) made.0) }
    {
        if from.slots() != self.recorder.now().slots() {
            return None;
        }
        let builder = SpeculativeBuilder::new(&self.line_bits, Recorder::new(*from), visitor);
        let detached = self.body_reader.detached(alloc, piece, line, builder)?;
        let (detached, builder) = detached.with_visitor(ChangeDiscarder);
        let (recorder, visitor, assigned) = builder.into_parts();
        let ahead = SpeculativeChunk {
            from: *from,
            detached,
            recorder,
            assigned,
        };
        Some((ahead, visitor))
    }

    /// Whether `ahead` may be joined: the text so far ends on the line that `ahead` begins on, between two items,
    /// outside of dump sections and at no later time, and leaves the levels that `ahead` was read from.
    pub fn may_join(&self, ahead: &SpeculativeChunk) -> bool
        ensures { IsTrue result ↔ MayFollowLevels self.now ahead.now }
    {
        if !self.body_reader.may_join(&ahead.detached) {
            return false;
        }
        let ended = self.body_reader.ended_by(&ahead.detached);
        self.recorder.begins_with(ended, &ahead.from)
    }

    /// Continues after the piece `ahead`. The step in the result, if there is one, ends the instant before the piece:
    /// the steps of the piece follow it. The only error is want of memory.
    pub fn join(
        self,
        alloc: Global,
        ahead: SpeculativeChunk,
    ) -> Result<(SpeculativeReader, Option<Step>), AllocError>
        requires { MayFollowLevels self ahead }
        ensures { IfOk result (λ joined. (bytes : List ℕ) (recorded : Trace)
            → IsReadSpeculatively self.body.nets self.line_bits bytes recorded ahead
            → IsJoined bytes recorded ahead.from self joined.0 (option_to_list joined.1)) }
    {
        let SpeculativeReader {
            body_reader,
            fault,
            line_bits,
            mut recorder,
        } = self;
        let SpeculativeChunk {
            from: _,
            detached,
            recorder: behind,
            assigned: _,
        } = ahead;
        let step = recorder.end(alloc, body_reader.ended_by(&detached))?;
        let (body_reader, _) = body_reader.join(detached);
        let speculative = SpeculativeReader {
            body_reader,
            fault,
            line_bits,
            recorder: behind,
        };
        Ok((speculative, step))
    }
}

impl SpeculativeChunk {
    /// The levels that the piece was read from.
    pub fn from(&self) -> &Lines
        ensures { result.now ≡ self.now.from }
    {
        &self.from
    }

    /// The levels after the piece, where `levels` is before it: the piece's own level on each line that it assigns one
    /// to, and that of `levels` on each other line.
    pub fn levels_at_end(&self, levels: &Lines) -> Lines
        requires slots { levels.now.slots ≡ self.now.from.slots }
        requires all { length levels.now.levels ≡ line_count }
        ensures { AreLevelsAfter self.now levels.now result }
    {
        let now = self.recorder.now();
        let mut behind = *levels;
        for number in 0..LINE_COUNT {
            let line = Line::from_number(number).unwrap();
            if self.assigned.has(line) {
                behind.set(line, now.level(line));
            }
        }
        behind
    }

    /// The levels after the piece, where it follows the levels that it was read from.
    pub fn levels(&self) -> &Lines
        ensures now { result.now ≡ self.now.detached.progress.accumulator.now }
        ensures all { length result.now.levels ≡ line_count }
    {
        self.recorder.now()
    }
}

//! Pieces of a body that are read by themselves, and joined in order.

ghost use Rattle.std.specs.Prelude.{◌≡◌, ◌↔◌, IsTrue, IfSome, None, Some};
ghost use Rattle.vcd_read.specs.DetachedPieces.{MayFollow, IsReadDetached, read_detached, time_first};
ghost use Rattle.vcd_read.specs.DetachedPieces.{detached_with, behind_piece, ended_at, with_taken};
ghost use Rattle.vcd_read.specs.Body.{body_from, ready};
ghost use Rattle.vcd_read.specs.Reached.{reached};
ghost use Rattle.vcd_read.specs.Reading.{left_at};

use crate::body::read_piece;
use crate::body_piece::{BodyPiece, Start};
use crate::body_state::BodyState;
use crate::change_visitor::ChangeVisitor;
use crate::number::time_of;
use crate::open_item::OpenItem;
use crate::pieces::BodyReader;
use crate::shape::{Shape, shape_of};
use crate::timed_visitor::{Clock, TimedVisitor};
use crate::token::Reader;
use std::alloc::Global;

/// A piece of a body that was read as if it were between two items, outside of dump sections, at the time that it
/// begins with.
#[derive(Drop)]
pub struct DetachedPiece<T: ChangeVisitor> {
    /// The time that it begins with.
    time: u64,
    /// The line that it begins on.
    first_line: u64,
    timed: TimedVisitor<T>,
    /// The line of the dump section that is open after it.
    dump_section: Option<u64>,
    /// The line that it ends on.
    line: u64,
}

/// The time that a piece begins with, where it begins with one.
fn first_time(text: BodyPiece<'_>) -> Option<u64>
    ensures { IfSome result (λ time. time_first (body_from ready (left_at text.entry 0)) ≡ Some time) }
{
    let mut reader = Reader { text, at: 0 };
    let token = reader.next()?;
    match shape_of(token.bytes) {
        Shape::Time(digits) => match time_of(digits) {
            Ok(time) => Some(time),
            Err(_) => None,
        },
        _ => None,
    }
}

impl<T: ChangeVisitor> DetachedPiece<T> {
    /// The same piece, with another visitor. The one before is handed back.
    pub fn with_visitor<N: ChangeVisitor>(self, visitor: N) -> (DetachedPiece<N>, T)
        ensures detached { read_detached N.taken result.0
            ≡ detached_with (N.taken visitor) (read_detached T.taken self) }
        ensures visitor { T.taken result.1 ≡ (read_detached T.taken self).progress.accumulator }
    {
        let DetachedPiece {
            time,
            first_line,
            timed,
            dump_section,
            line,
        } = self;
        let TimedVisitor {
            visitor: before,
            clock,
        } = timed;
        let timed = TimedVisitor { visitor, clock };
        let detached = DetachedPiece {
            time,
            first_line,
            timed,
            dump_section,
            line,
        };
        (detached, before)
    }
}

impl<T: ChangeVisitor> BodyReader<T> {
    /// Reads a piece that begins on `line` and ends after a space, or where the text does, and gives its changes to a
    /// visitor of its own. `None` if the piece doesn't begin with a time, has a fault or ends within an item, and if
    /// memory runs out or lines could no longer be counted.
    pub fn detached<N: ChangeVisitor>(
        &self,
        alloc: Global,
        piece: &[u8],
        line: u64,
        visitor: N,
    ) -> Option<DetachedPiece<N>>
        ensures line { IfSome result (λ detached. (read_detached N.taken detached).first_line ≡ line) }
        ensures read { IfSome result (λ detached. IsReadDetached N.with_change N.with_instant
            (reached T.taken self.now).nets piece.now (N.taken visitor) (read_detached N.taken detached)) }
    {
        if u64::MAX - line <= piece.len() as u64 {
            return None;
        }
        let text = BodyPiece { bytes: piece, line };
        let time = first_time(text)?;
        let reader = Reader { text, at: 0 };
        let behind = reader.line(Start::Here(piece.len()));
        let clock = Clock {
            time,
            has_instant: false,
        };
        let before = BodyState {
            timed: TimedVisitor { visitor, clock },
            dump_section: None,
            place: OpenItem::Ready,
        };
        let Ok(
            BodyState {
                timed,
                dump_section,
                place,
            },
        ) = read_piece(alloc, reader, &self.codes, before)
        else {
            return None;
        };
        match place {
            OpenItem::Ready => Some(DetachedPiece {
                time,
                first_line: line,
                timed,
                dump_section,
                line: behind,
            }),
            _ => None,
        }
    }

    /// Whether what is read so far ends between two items, and outside of dump sections. Elsewhere no piece that is
    /// read by itself may be joined.
    pub fn is_between_items(&self) -> bool
        ensures { IsTrue result ↔ ((reached T.taken self.now).place ≡ ready)
            × ((reached T.taken self.now).dump_section ≡ None) }
    {
        matches!(self.state.place, OpenItem::Ready) && self.state.dump_section.is_none()
    }

    /// Whether a piece that was read by itself may be joined: what is read so far ends on the line that it begins on,
    /// between two items, outside of dump sections and at no later time.
    pub fn may_join<N: ChangeVisitor>(&self, detached: &DetachedPiece<N>) -> bool
        ensures { IsTrue result ↔ MayFollow (reached T.taken self.now) (read_detached N.taken detached.now) }
    {
        self.is_between_items()
            && self.state.timed.clock.time <= detached.time
            && self.line == detached.first_line
    }

    /// The time of the current instant, if `detached` ends it, i.e. begins with another time.
    pub fn ended_by<N: ChangeVisitor>(&self, detached: &DetachedPiece<N>) -> Option<u64>
        ensures { result ≡ ended_at (reached T.taken self.now).progress (read_detached N.taken detached.now).time }
    {
        let clock = self.state.timed.clock;
        if clock.has_instant && detached.time != clock.time {
            Some(clock.time)
        } else {
            None
        }
    }

    /// Continues after a piece that was read by itself, with the visitor of that piece. The visitor of what is
    /// before the piece is handed back; it took nothing of the piece, nor the end of an instant that the piece ends.
    pub fn join<N: ChangeVisitor>(self, detached: DetachedPiece<N>) -> (BodyReader<N>, T)
        requires { MayFollow (reached T.taken self) (read_detached N.taken detached) }
        ensures behind { reached N.taken result.0
            ≡ behind_piece (reached T.taken self).nets (read_detached N.taken detached) }
        ensures visitor { T.taken result.1 ≡ (reached T.taken self).progress.accumulator }
    {
        let BodyReader {
            codes,
            state,
            line: _,
        } = self;
        let DetachedPiece {
            time: _,
            first_line: _,
            timed,
            dump_section,
            line,
        } = detached;
        let visitor = state.timed.visitor;
        let state = BodyState {
            timed,
            dump_section,
            place: OpenItem::Ready,
        };
        let joined = BodyReader { codes, state, line };
        (joined, visitor)
    }

    /// Continues with another visitor. The one before is handed back.
    pub fn with_visitor<N: ChangeVisitor>(self, visitor: N) -> (BodyReader<N>, T)
        ensures pieces { reached N.taken result.0 ≡ with_taken (N.taken visitor) (reached T.taken self) }
        ensures visitor { T.taken result.1 ≡ (reached T.taken self).progress.accumulator }
    {
        let BodyReader { codes, state, line } = self;
        let BodyState {
            timed,
            dump_section,
            place,
        } = state;
        let TimedVisitor {
            visitor: before,
            clock,
        } = timed;
        let state = BodyState {
            timed: TimedVisitor { visitor, clock },
            dump_section,
            place,
        };
        let pieces = BodyReader { codes, state, line };
        (pieces, before)
    }

    /// The visitor of the changes.
    pub fn visitor(&self) -> &T
        ensures { T.taken result.now ≡ (reached T.taken self.now).progress.accumulator }
    {
        &self.state.timed.visitor
    }

    /// The last time that was read, or 0.
    pub fn time(&self) -> u64
        ensures { result ≡ (reached T.taken self.now).progress.time }
    {
        self.state.timed.clock.time
    }

    /// The line that the next piece begins on, from 1.
    pub fn line(&self) -> u64
        ensures { result ≡ (reached T.taken self.now).line }
    {
        self.line
    }
}

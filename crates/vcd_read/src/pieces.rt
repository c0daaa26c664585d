//! A dump that is read piece by piece.

ghost use Rattle.std.specs.Prelude.{◌≡◌, ◌-◌, [], IfOk, IfSome, None, drop, false, length};
ghost use Rattle.vcd_read.specs.Header.{nothing_declared};
ghost use Rattle.vcd_read.specs.Tokens.{tokens_from};
ghost use Rattle.vcd_read.specs.Reading.{line_behind};
ghost use Rattle.vcd_read.specs.Body.{ready};
ghost use Rattle.vcd_read.specs.Bodies.{BodyContinuesTo, ContinuesOrStops, GivesOrStops};
ghost use Rattle.vcd_read.specs.Fronts.{HeaderContinuesAs};
ghost use Rattle.vcd_read.specs.Meaning.{ReadGives};
ghost use Rattle.vcd_read.specs.Reached.{outcome_of, reached, rest_of, rest_until_fault};

use crate::body::read_until_fault;
use crate::body_piece::{BodyPiece, Start};
use crate::body_state::BodyState;
use crate::change_visitor::ChangeVisitor;
use crate::codes::Codes;
use crate::declaration_visitor::DeclarationVisitor;
use crate::fault::{FaultKind, VcdFault};
use crate::header::{Definitions, read_header};
use crate::stopped::Stopped;
use crate::token::Reader;
use std::alloc::Global;
use std::marker::Model;

/// A prefix of a text. Its definitions are read, and nothing of the body.
#[derive(Drop)]
pub struct Front<'a> {
    codes: Codes,
    text: &'a [u8],
    /// Where the body begins in it.
    at: usize,
}

impl<'a> Model for Front<'a> {
    ghost use Rattle.std.specs.Prelude.{◌≤◌, drop, length};
    ghost use Rattle.vcd_read.specs.Fronts.{ReadFront};
    ghost use Rattle.vcd_read.specs.Reading.{line_behind, tokens_after};

    ghost Value = { ReadFront };

    ghost view = { λ f. record {
      head = record { nets = f.codes; body = tokens_after 1 f.text.now f.at };
      left = drop f.at f.text.now;
      line = line_behind 1 f.text.now;
    } };

    ghost invariant = { λ f. f.at ≤ length f.text.now };
}

/// A dump whose definitions are read, and of its body the pieces so far.
#[derive(Drop)]
pub struct BodyReader<T: ChangeVisitor> {
    pub(crate) codes: Codes,
    pub(crate) state: BodyState<T>,
    /// The line that the next piece begins on.
    pub(crate) line: u64,
}

/// Reads the definitions of a text from its prefix `front`, which ends after a space, and gives the scopes and
/// variables to `declarations`. `None` if the definitions don't end in `front`. A fault is that of every text that
/// begins so.
pub fn read_front<D: DeclarationVisitor>(
    alloc: Global,
    front: &[u8],
    declarations: D,
) -> Result<Option<(Front<'_>, D)>, VcdFault>
    requires { D.scopes declarations ≡ [] }
    ensures line { IfOk result (λ found. IfSome found (λ made. made.0.line ≡ line_behind 1 front.now)) }
    ensures left { IfOk result (λ found. IfSome found (λ made.
        made.0.left ≡ drop (length front.now - length made.0.left) front.now)) }
    ensures header { HeaderContinuesAs D.with_variable (nothing_declared (D.taken declarations)) front.now
        (λ made. made.0.head)
        (λ made. D.taken made.1) result }
{
    let mut reader = Reader::new(front);
    match read_header(alloc, &mut reader, declarations) {
        Ok(
            Definitions {
                codes,
                declarations,
            },
        ) => {
            let front = Front {
                codes,
                text: front,
                at: reader.at,
            };
            Ok(Some((front, declarations)))
        }
        Err(fault) => match fault.kind {
            FaultKind::NoEndDefinitions | FaultKind::UnfinishedSection => Ok(None),
            _ => Err(fault),
        },
    }
}

impl<'a> Front<'a> {
    /// Begins to read the body, of which nothing is read yet. The bytes are what the prefix has of it, the first piece:
    /// so a fault of the body is met in a piece.
    pub fn before_body<T: ChangeVisitor>(self, visitor: T) -> (BodyReader<T>, &'a [u8])
        ensures nets { (reached T.taken result.0).nets ≡ self.entry.head.nets }
        ensures progress { (reached T.taken result.0).progress
            ≡ record { accumulator = T.taken visitor; time = 0; has_instant = false } }
        ensures dump_section { (reached T.taken result.0).dump_section ≡ None }
        ensures place { (reached T.taken result.0).place ≡ ready }
        ensures body { tokens_from (reached T.taken result.0).line result.1.now ≡ self.entry.head.body }
        ensures left { result.1.now ≡ self.entry.left }
        ensures line { line_behind (reached T.taken result.0).line result.1.now ≡ self.entry.line }
    {
        let Front { codes, text, at } = self;
        let pieces = BodyReader {
            codes,
            state: BodyState::new(visitor),
            line: Reader::new(text).line(Start::Here(at)),
        };
        (pieces, &text[at..])
    }
}

impl<T: ChangeVisitor> BodyReader<T> {
    /// Reads the next piece of the body, which ends after a space, or where the text does. The first fault met is that
    /// of every text that continues so. It comes with the visitor that took all that is before it: the changes of each
    /// item, and the end of each instant that a later time follows. Where lines could no longer be counted, the fault
    /// is want of memory.
    pub fn read_until_fault(self, alloc: Global, piece: &[u8]) -> Result<BodyReader<T>, Stopped<T>>
        ensures nets { IfOk result (λ pieces. (reached T.taken pieces).nets ≡ (reached T.taken self).nets) }
        ensures line { IfOk result (λ pieces. (reached T.taken pieces).line
            ≡ line_behind (reached T.taken self).line piece.now) }
        ensures rest { ContinuesOrStops (λ pieces. rest_until_fault T.with_change T.with_instant
            (reached T.taken pieces) []) (λ t. T.taken t) result
            (rest_until_fault T.with_change T.with_instant (reached T.taken self)
            (tokens_from (reached T.taken self).line piece.now)) }
    {
        let BodyReader { codes, state, line } = self;
        if u64::MAX - line <= piece.len() as u64 {
            let time = state.timed.clock.time;
            return Err(Stopped::out_of_memory(state.timed.visitor, time));
        }
        let text = BodyPiece { bytes: piece, line };
        let reader = Reader { text, at: 0 };
        let line = reader.line(Start::Here(piece.len()));
        match read_until_fault(alloc, reader, &codes, state) {
            Ok(state) => Ok(BodyReader { codes, state, line }),
            Err(stopped) => Err(stopped),
        }
    }

    /// As `read_until_fault`, but an error has the fault alone.
    pub fn read(self, alloc: Global, piece: &[u8]) -> Result<BodyReader<T>, VcdFault>
        ensures nets { IfOk result (λ pieces. (reached T.taken pieces).nets ≡ (reached T.taken self).nets) }
        ensures line { IfOk result (λ pieces. (reached T.taken pieces).line
            ≡ line_behind (reached T.taken self).line piece.now) }
        ensures rest { BodyContinuesTo (λ pieces. rest_of T.with_change T.with_instant
            (reached T.taken pieces) []) result
            (rest_of T.with_change T.with_instant (reached T.taken self)
            (tokens_from (reached T.taken self).line piece.now)) }
    {
        match self.read_until_fault(alloc, piece) {
            Ok(pieces) => Ok(pieces),
            Err(stopped) => Err(stopped.fault),
        }
    }

    /// Ends the body and the current instant, and returns the visitor. An item that isn't whole and a dump section that
    /// is still open are faults here: then the current instant isn't ended, and the visitor comes with the fault.
    pub fn finish_or_stop(self, alloc: Global) -> Result<T, Stopped<T>>
        ensures { GivesOrStops (λ t. T.taken t) (reached T.taken self).progress result
            (outcome_of T.with_change T.with_instant (reached T.taken self)) }
    {
        self.state.finish_or_stop(alloc)
    }

    /// As `finish_or_stop`, but an error has the fault alone.
    pub fn finish(self, alloc: Global) -> Result<T, VcdFault>
        ensures { ReadGives (λ t. T.taken t) result
            (outcome_of T.with_change T.with_instant (reached T.taken self)) }
    {
        self.state.finish(alloc)
    }
}

//! Pieces that are read in order.

ghost use Rattle.std.specs.Prelude.{◌≡◌, [], IfOk};
ghost use Rattle.vme_bind.specs.TextPieces.{TextContinuesAs, outcome_ahead, text_reached};
ghost use Rattle.vme_text_workers.specs.Cuts.{line_after_pieces, tokens_of};

use crate::cut::DumpPiece;
use std::alloc::Global;
use vme_bind::{CaptureFault, TextReader};
use vme_trace::StepVisitor;

/// Takes the next pieces of the text, one after the other. It is a function of its own for the same reason as
/// `join_in_order`.
#[inline(never)]
pub(crate) fn read_in_order<F: StepVisitor>(
    alloc: Global,
    text: TextReader<F>,
    pieces: &[DumpPiece<'_>],
) -> Result<TextReader<F>, CaptureFault>
    ensures line { IfOk result (λ text'. (text_reached text').body.line
        ≡ line_after_pieces (text_reached text).body.line pieces.now) }
    ensures rest { TextContinuesAs (λ text'. outcome_ahead (text_reached text') []) result
        (outcome_ahead (text_reached text) (tokens_of (text_reached text).body.line pieces.now)) }
{
    let mut text = text;
    for piece in pieces {
        text = text.read(alloc, piece.bytes)?;
    }
    Ok(text)
}

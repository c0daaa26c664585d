//! The recording of joined blocks.

ghost use Rattle.std.specs.Prelude.{◌≡◌, ◌<◌, List, [], length, map, Some, vec_capacity};
ghost use Rattle.vme_trace.specs.declared.block.Block.{Block as Stored};
ghost use Rattle.vme_summary.specs.Joins.{joined_trace};
ghost use Rattle.vme_book.specs.BookState.{AreAtOwnNumbers, JoinWithin};

use vme_trace::{Block, Capture, Step};

/// The recording of blocks that join: the opening of the first, and the steps of all. The steps move into `room`, which
/// has the capacity for them.
pub(crate) fn recording(blocks: Vec<Option<Block>>, room: Vec<Step>) -> Capture
    requires some { 0 < length blocks.items }
    requires placed { AreAtOwnNumbers blocks.items }
    requires join { JoinWithin blocks.items (vec_capacity room) }
    requires empty { room.items ≡ [] }
    ensures { (bs : List Stored) → blocks.items ≡ map Some bs → joined_trace bs ≡ Some result }
{
    let opening = match &blocks[0] {
        Some(first) => first.opening,
        None => unreachable!(),
    };
    let mut steps = room;
    for place in blocks {
        let Some(block) = place else { unreachable!() };
        let mut own = block.steps.into_inner();
        let Ok(()) = steps.append(&mut own) else {
            unreachable!()
        };
    }
    match Capture::from_well_formed(opening, steps) {
        Some(capture) => capture,
        None => unreachable!(),
    }
}

//! Making a report from the work of all workers.

ghost use Rattle.std.specs.Prelude.{◌≡◌, ◌<◌, ◌≤◌, length, IfOk, IfErr};
ghost use Rattle.vme_trace.specs.Verdict.{rules_in_force, verdict_by};
ghost use Rattle.vme_core.specs.declared.view.View.{View};
ghost use Rattle.vme_floor.specs.Claims.{AreAnswered, IsLate, IsRecorded};
ghost use Rattle.vme_board.specs.Contents.{AreNumbered};
ghost use Rattle.vme_floor.specs.Accounts.{ShareNoNumber, IsAccount, IsOwnEarly, IsUnion};

use crate::answer::Reply;
use crate::answers::{Unanswered, answers_in_order};
use crate::collector::Collection;
use crate::report::{Report, RunFault};
use std::alloc::{AllocError, Global};
use vme_board::Closed;
use vme_book::{Book, CloseFault, InsertFault};
use vme_summary::Judged;
use vme_trace::Block;

/// The report from all replies, the blocks that were taken early (`collection`), and the contents of the closed board.
/// The board was closed with the one bench of all workers.
pub(crate) fn finish_run(
    alloc: Global,
    deliveries: &[Block],
    total: u32,
    replies: Vec<Reply>,
    collection: Collection,
    closed: Closed,
) -> Result<Report, RunFault>
    requires account { (v : View) × IsAccount total deliveries.now v replies.items collection closed }
    requires range { (0 < total) × (total ≤ 4096) × (length deliveries.now ≤ 65536) }
    ensures answers { AreAnswered total deliveries.now result }
    ensures recorded { IfOk result (λ r. IsRecorded total deliveries.now r.answers r.capture r.span) }
    ensures verdict { IfOk result (λ r. r.verdict ≡ verdict_by rules_in_force r.capture) }
    ensures within { IfOk result (λ r. r.early ≤ total) }
    ensures own { IfOk result (λ r. IsOwnEarly total deliveries.now replies.items collection closed r.early) }
    ensures refusals { IfErr result (λ fault. IsLate total deliveries.now fault) }
{
    let answers = match answers_in_order(alloc, replies.as_slice(), deliveries.len()) {
        Ok(answers) => answers,
        Err(Unanswered::Memory) => return Err(RunFault::Memory),
        Err(Unanswered::Undrawn) => unreachable!(),
    };
    let early = collection.count;
    let Ok(book) = insert_all(alloc, collection.book, closed.contents) else {
        return Err(RunFault::Memory);
    };
    match book.close(alloc) {
        Ok(whole) => Ok(Report {
            verdict: whole.span.verdict(),
            span: whole.span,
            capture: whole.capture,
            answers,
            early,
        }),
        Err((_, CloseFault::Missing(number))) => Err(RunFault::Missing { number, answers }),
        Err((_, CloseFault::Torn(number))) => Err(RunFault::Torn { number, answers }),
        Err((_, CloseFault::Memory)) => Err(RunFault::Memory),
    }
}

/// Inserts the blocks that were left on the board into the book.
fn insert_all(alloc: Global, book: Book, contents: Vec<Option<Judged>>) -> Result<Book, AllocError>
    requires long { length contents.items ≡ length book }
    requires numbered { AreNumbered contents.items }
    requires apart { ShareNoNumber book contents.items }
    ensures { IfOk result (λ all. IsUnion book contents.items all) }
{
    let mut book = book;
    for content in contents {
        let Some(judged) = content else { continue };
        if let Err((_, fault)) = book.insert(alloc, judged) {
            let InsertFault::Memory = fault else {
                unreachable!()
            };
            return Err(AllocError);
        }
    }
    Ok(book)
}

//! The answers, put in the order of the deliveries.

ghost use Rattle.std.specs.Prelude.{◌≡◌, ◌<◌, length, IfOk, IfErr};
ghost use Rattle.vme_floor.specs.Works.{Each};
ghost use Rattle.vme_floor.specs.Accounts.{AreReplies, IsTable, LacksReply};
ghost use Rattle.vme_floor.specs.declared.answers.Unanswered.TheVariants.{Undrawn};

use crate::answer::{Answer, Answers, Reply};
use std::alloc::{AllocError, Global};

/// Why there is no list of answers.
#[derive(Drop)]
pub(crate) enum Unanswered {
    /// Memory ran out.
    Memory,
    /// A delivery has no reply.
    Undrawn,
}

/// The answer to each of `count` deliveries, in their order.
pub(crate) fn answers_in_order(
    alloc: Global,
    replies: &[Reply],
    count: usize,
) -> Result<Answers, Unanswered>
    requires { Each (λ r. r.delivery < count) replies.now }
    ensures count { IfOk result (λ answers. length answers ≡ count) }
    ensures replies { IfOk result (λ answers. AreReplies replies.now answers) }
    ensures undrawn { IfErr result (λ why. why ≡ Undrawn → LacksReply replies.now count) }
{
    let Ok(mut answers) = Vec::with_capacity(alloc, count) else {
        return Err(Unanswered::Memory);
    };
    let Ok(table) = table_of(alloc, replies, count) else {
        return Err(Unanswered::Memory);
    };
    for i in 0..count {
        let Some(answer) = table[i] else {
            return Err(Unanswered::Undrawn);
        };
        answers.push_reserved(answer);
    }
    Ok(Answers::new(answers))
}

/// For each delivery, by its index, its answer, if it has one.
fn table_of(
    alloc: Global,
    replies: &[Reply],
    count: usize,
) -> Result<Vec<Option<Answer>>, AllocError>
    requires { Each (λ r. r.delivery < count) replies.now }
    ensures { IfOk result (λ table. IsTable replies.now count (length replies.now) table.items) }
{
    let mut table = Vec::from_elem(alloc, None, count)?;
    for i in 0..replies.len() {
        let place = replies[i].delivery as usize;
        table[place] = Some(replies[i].answer);
    }
    Ok(table)
}

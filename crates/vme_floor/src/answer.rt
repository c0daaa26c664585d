//! The answer to a delivery.

ghost use Rattle.std.specs.Prelude.{◌≡◌};

use std::marker::Model;

/// The answer to one delivery: filed, or why not. The refusals are those of a board, in the order in which they are
/// checked. A delivery is also doubled if its number is found claimed only when the board tries to claim it.
#[derive(Clone, Copy, Debug, PartialEq, Eq)]
pub enum Answer {
    /// The block is filed for its number.
    Filed,
    /// Its number isn't below the total.
    Stranger,
    /// It has more than 65,536 steps.
    TooLong,
    /// Its steps are malformed.
    Malformed {
        /// The index of the first malformed step, from 0.
        step: usize,
    },
    /// Another delivery of its number is filed.
    Doubled,
    /// There was no memory to copy or to judge it.
    Memory,
}

/// The answers to the deliveries of a run, in their order.
#[derive(Drop)]
pub struct Answers {
    answers: Vec<Answer>,
}

impl Model for Answers {
    ghost use Rattle.std.specs.Prelude.{List};
    ghost use Rattle.vme_floor.specs.declared.answer.Answer.{Answer};

    ghost Value = { List Answer };

    ghost view = { λ a. a.answers.items };
}

impl Answers {
    /// Wraps a vector of answers.
    pub fn new(answers: Vec<Answer>) -> Answers
        ensures { result ≡ answers.items }
    {
        Answers { answers }
    }

    /// The answers, in the order of the deliveries.
    pub fn as_slice(&self) -> &[Answer]
        ensures { result.now ≡ self.now }
    {
        self.answers.as_slice()
    }

    /// The vector of the answers.
    pub fn into_inner(self) -> Vec<Answer>
        ensures { result.items ≡ self }
    {
        let Answers { answers } = self;
        answers
    }
}

/// The answer to the delivery with the index `delivery`.
#[derive(Clone, Copy)]
pub(crate) struct Reply {
    pub(crate) delivery: u32,
    pub(crate) answer: Answer,
}

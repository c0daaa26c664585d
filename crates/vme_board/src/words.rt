//! The index of a number's word and bit in the words of a board.

ghost use Rattle.std.specs.Int.{bit_at};
ghost use Rattle.std.specs.Prelude.{◌≡◌, ◌+◌, ◌*◌, ◌/◌, ◌%◌, ◌<◌};
ghost use Rattle.vme_board.specs.Words.{mask_of};

// Word 4 g + k of a board has the bits, of row k, of the 64 numbers or draws from 64 g on.

/// The row of the numbers that are claimed.
pub(crate) const CLAIMED: usize = 0;

/// The row of the numbers that are filed.
pub(crate) const FILED: usize = 1;

/// The row of the numbers that are taken.
pub(crate) const TAKEN: usize = 2;

/// The row of the draws that are won.
pub(crate) const DRAWN: usize = 3;

/// The index of the word that has the bit of a number in a row.
pub(crate) fn word_of(number: u32, row: usize) -> usize
    requires { row < 4 }
    ensures { result ≡ 4 * (number / 64) + row }
{
    4 * (number / 64) as usize + row
}

/// The mask of a number's bit in its word.
pub(crate) fn mask_of(number: u32) -> u64
    ensures { result ≡ mask_of number }
{
    1 << (number % 64)
}

/// The bit of a number in its word.
pub(crate) fn bit(word: u64, number: u32) -> u64
    ensures { result ≡ bit_at word (number % 64) }
{
    word >> (number % 64) & 1
}

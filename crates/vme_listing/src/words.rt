//! The data of a write from the eight bytes of its text. Whether they are such a text isn't checked
//! here.
#![tactic(auto)]

ghost use Rattle.std.specs.Prelude.{◌≡◌, ◌+◌, ◌*◌, ◌%◌, ◌^◌, ◌<◌};
ghost use Rattle.vme_listing.specs.Lines.{lanes_of};
ghost use Rattle.vme_listing.specs.Words.{digit_of, number_of, flag_of, flags_of, is_shown, moved_of};

use vme_trace::{Lanes, MovedBytes};

/// A digit: 0 to 9, A to F. Any other byte counts as 0.
fn digit(byte: u8) -> u8
    ensures { result ≡ digit_of byte }
{
    match byte {
        b'0'..=b'9' => byte - b'0',
        b'A'..=b'F' => byte - b'A' + 10,
        _ => 0,
    }
}

/// The number that `word` is in base `base`, modulo 2^32. Every word gives some number.
fn number(base: u32, word: &[u8]) -> u32
    ensures { result ≡ number_of base word.now }
{
    let mut number: u32 = 0;
    for byte in word {
        number = number
            .wrapping_mul(base)
            .wrapping_add(u32::from(digit(*byte)));
    }
    number
}

/// 1 for an X, else 0.
fn flag(byte: u8) -> u8
    ensures flag { result ≡ flag_of byte }
    ensures most { result < 2 }
{
    u8::from(byte == b'X')
}

/// A bit for each byte of `word`, 1 for an X; bit 0 is that of the last byte. Only the last eight bytes count.
fn flags(word: &[u8]) -> u8
    ensures { result ≡ flags_of word.now }
{
    let mut flags: u8 = 0;
    for byte in word {
        flags = flags.wrapping_mul(2) + flag(*byte);
    }
    flags
}

/// Whether `word` has a byte at `place`, and it isn't a hyphen.
fn is_shown(word: &[u8], place: usize) -> bool
    ensures { result ≡ is_shown word.now place }
{
    match word.get(place) {
        Some(byte) => *byte != b'-',
        None => false,
    }
}

/// Which bytes of the data bus are moved, by where `word` has hyphens.
#[tactic(auto, unfolding(crate::specs::Words::moved_of))]
fn moved(word: &[u8]) -> MovedBytes
    ensures { result ≡ moved_of word.now }
{
    if is_shown(word, 0) {
        MovedBytes::LongWord
    } else if is_shown(word, 5) {
        if is_shown(word, 7) {
            MovedBytes::Word
        } else {
            MovedBytes::EvenByte
        }
    } else if is_shown(word, 7) {
        MovedBytes::OddByte
    } else {
        MovedBytes::Nothing
    }
}

/// The data whose text `word` is. A word that isn't the text of data gives some data, too.
pub(crate) fn lanes_word(word: &[u8]) -> Lanes
    ensures { result ≡ lanes_of word.now }
{
    Lanes {
        moved: moved(word),
        value: number(16, word),
        unknown: flags(word),
    }
}

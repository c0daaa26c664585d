//! Digits as the bits of a value.

ghost use Rattle.std.specs.Prelude.{◌≡◌, ◌<◌, ◌≤◌, length, get_or, IfOk};
ghost use Rattle.vcd_read.specs.declared.dump.Bit.TheVariants.{X};
ghost use Rattle.vcd_read.specs.Numbers.{bit_of, fill_of, extended};

use crate::dump::{Bit, Bits};
use smallvec::SmallVec;
use std::alloc::{AllocError, Global};

/// The `size` bits of the value that `digits` denote, extended on the left (IEEE Std 1364-2005, 18.2.2).
pub(crate) fn extended(alloc: Global, size: u32, digits: &[u8]) -> Result<Bits, AllocError>
    requires some { 0 < length digits.now }
    requires fits { length digits.now ≤ size }
    ensures { IfOk result (λ bits. bits ≡ extended size digits.now) }
{
    let width = size as usize;
    let fill = fill_of(bit_of(digits[0]));
    let missing = width - digits.len();
    let mut bits = SmallVec::with_capacity(alloc, width)?;
    for place in 0..width {
        if place < missing {
            bits.push_reserved(fill);
        } else {
            bits.push_reserved(bit_of(digits[place - missing]));
        }
    }
    Ok(Bits::from_small_vec(bits))
}

/// The bit at `place`, from the left, of the value of `size` bits that `digits` denote: x if it has no such bit.
#[tactic(auto, using(crate::proofs::Fill::bit_fill, crate::proofs::Fill::bit_digit, crate::proofs::Fill::bit_past))]
#[inline(always)]
pub fn bit_at(size: u32, digits: &[u8], place: usize) -> Bit
    requires some { 0 < length digits.now }
    requires fits { length digits.now ≤ size }
    ensures { result ≡ get_or (extended size digits.now) place X }
{
    let missing = size as usize - digits.len();
    if place < missing {
        return fill_of(bit_of(digits[0]));
    }
    match digits.get(place - missing) {
        Some(digit) => bit_of(*digit),
        None => Bit::X,
    }
}

/// The bit that a digit denotes. Most digits are 0 or 1, so these are tested first.
fn bit_of(digit: u8) -> Bit
    ensures { result ≡ bit_of digit }
{
    if b'0' <= digit && digit <= b'1' {
        return if digit == b'0' { Bit::Zero } else { Bit::One };
    }
    match digit {
        b'x' | b'X' => Bit::X,
        _ => Bit::Z,
    }
}

/// The bit that extends a value with too few digits on the left.
fn fill_of(bit: Bit) -> Bit
    ensures { result ≡ fill_of bit }
{
    match bit {
        Bit::Zero | Bit::One => Bit::Zero,
        Bit::X => Bit::X,
        Bit::Z => Bit::Z,
    }
}

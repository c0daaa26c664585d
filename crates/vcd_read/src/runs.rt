//! Where runs of bytes end, found sixteen or thirty-two bytes at a time.

ghost use Rattle.std.specs.Prelude.{◌≡◌, ◌==◌, if◌then◌else◌, ℕ, ◌+◌, ◌<◌, ◌≤◌, length, slice_index, true, false};
ghost use Rattle.std.specs.Int.{w64, trailing_zeros};
ghost use Rattle.vcd_read.specs.Numbers.{is_bit};

use crate::shape::is_bit;
use std::simd::prelude::*;

/// How many bytes are looked at at once for a space.
const LANES: usize = 16;

/// How many bytes are looked at one by one before that: most codes are short.
const FEW: usize = 3;

/// How many bytes are looked at at once for the end of digits: many vectors have this many bits.
const DIGIT_LANES: usize = 32;

/// How many of `count` lanes come before the first that is set.
#[inline(always)]
fn first_set(lanes: u64, count: usize) -> usize
    ensures { result ≡ (if lanes == 0 then count else trailing_zeros w64 lanes) }
{
    if lanes == 0 {
        count
    } else {
        lanes.trailing_zeros() as usize
    }
}

/// How many of the sixteen bytes from `at` on come before the first that isn't above the space.
#[inline(always)]
fn lanes_above_space(text: &[u8], at: usize) -> usize
    requires { at + 16 ≤ length text.now }
    ensures high { result ≤ 16 }
    ensures above { (k : ℕ) → at ≤ k → k < at + result → 32 < slice_index text.now k }
    ensures end { result < 16 → slice_index text.now (at + result) ≤ 32 }
{
    let bytes = u8x16::from_slice(&text[at..]);
    first_set(bytes.simd_le(u8x16::splat(b' ')).to_bitmask(), LANES)
}

/// The place of the first byte from `at` on that isn't above the space, or the end.
#[inline(always)]
pub(crate) fn above_space_end(text: &[u8], at: usize) -> usize
    requires { at ≤ length text.now }
    ensures low { at ≤ result }
    ensures high { result ≤ length text.now }
    ensures above { (k : ℕ) → at ≤ k → k < result → 32 < slice_index text.now k }
    ensures end { result < length text.now → slice_index text.now result ≤ 32 }
{
    let mut i = at;
    while i < text.len() && i - at < FEW {
        if text[i] <= b' ' {
            return i;
        }
        i += 1;
    }
    above_space_end_by_lanes(text, i)
}

/// As `above_space_end`, sixteen bytes at a time.
#[inline(never)]
fn above_space_end_by_lanes(text: &[u8], at: usize) -> usize
    requires { at ≤ length text.now }
    ensures low { at ≤ result }
    ensures high { result ≤ length text.now }
    ensures above { (k : ℕ) → at ≤ k → k < result → 32 < slice_index text.now k }
    ensures end { result < length text.now → slice_index text.now result ≤ 32 }
{
    let mut i = at;
    while text.len() - i >= LANES {
        let count = lanes_above_space(text, i);
        i += count;
        if count < LANES {
            return i;
        }
    }
    above_space_end_by_byte(text, i)
}

/// As `above_space_end`, a byte at a time.
fn above_space_end_by_byte(text: &[u8], at: usize) -> usize
    requires { at ≤ length text.now }
    ensures low { at ≤ result }
    ensures high { result ≤ length text.now }
    ensures above { (k : ℕ) → at ≤ k → k < result → 32 < slice_index text.now k }
    ensures end { result < length text.now → slice_index text.now result ≤ 32 }
{
    let mut i = at;
    while i < text.len() && text[i] > b' ' {
        i += 1;
    }
    i
}

/// How many of the thirty-two bytes from `at` on come before the first that is no digit of a vector.
#[inline(always)]
fn lanes_of_bits(text: &[u8], at: usize) -> usize
    requires { at + 32 ≤ length text.now }
    ensures high { result ≤ 32 }
    ensures bits { (k : ℕ) → at ≤ k → k < at + result → is_bit (slice_index text.now k) ≡ true }
    ensures end { result < 32 → is_bit (slice_index text.now (at + result)) ≡ false }
{
    let bytes = u8x32::from_slice(&text[at..]);
    // 0 and 1 differ in one bit alone, and so do the cases of a letter, and x and z.
    let digits = bytes & u8x32::splat(0xfe);
    let letters = bytes & u8x32::splat(0xdd);
    let others = digits.simd_ne(u8x32::splat(b'0')) & letters.simd_ne(u8x32::splat(b'X'));
    first_set(others.to_bitmask(), DIGIT_LANES)
}

/// The place of the first byte from `at` on that is no digit of a vector, or the end.
#[inline(always)]
pub(crate) fn bits_end(text: &[u8], at: usize) -> usize
    requires { at ≤ length text.now }
    ensures low { at ≤ result }
    ensures high { result ≤ length text.now }
    ensures bits { (k : ℕ) → at ≤ k → k < result → is_bit (slice_index text.now k) ≡ true }
    ensures end { result < length text.now → is_bit (slice_index text.now result) ≡ false }
{
    let mut i = at;
    while text.len() - i >= DIGIT_LANES {
        let count = lanes_of_bits(text, i);
        i += count;
        if count < DIGIT_LANES {
            return i;
        }
        if i < text.len() && !is_bit(text[i]) {
            return i;
        }
    }
    bits_end_by_byte(text, i)
}

/// As `bits_end`, a byte at a time.
fn bits_end_by_byte(text: &[u8], at: usize) -> usize
    requires { at ≤ length text.now }
    ensures low { at ≤ result }
    ensures high { result ≤ length text.now }
    ensures bits { (k : ℕ) → at ≤ k → k < result → is_bit (slice_index text.now k) ≡ true }
    ensures end { result < length text.now → is_bit (slice_index text.now result) ≡ false }
{
    let mut i = at;
    while i < text.len() && is_bit(text[i]) {
        i += 1;
    }
    i
}

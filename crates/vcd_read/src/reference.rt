//! The reference of a variable: its name, and its index.

ghost use Rattle.std.specs.Prelude.{◌≡◌, option_map};
ghost use Rattle.vcd_read.specs.Header.{index_number, index_between, index_of, bracketed, reference_of};

use crate::fault::FaultKind;
use crate::number::decimal;
use memchr::{memchr, memrchr};

/// The reference of a variable.
#[derive(Clone, Copy)]
pub(crate) struct Reference<'t> {
    /// The name.
    pub name: &'t [u8],
    /// The numbers of the leftmost and of the rightmost bit, if there is an index.
    pub index: Option<(u32, u32)>,
}

/// The number of an index: one to nine digits.
fn index_number(text: &[u8]) -> Option<u32>
    ensures { result ≡ index_number text.now }
{
    if text.len() > 9 {
        return None;
    }
    match decimal(text, 999_999_999, FaultKind::BadVar) {
        Ok(number) => Some(number as u32),
        Err(_) => None,
    }
}

/// The index between two brackets: a number, or two with a colon between them.
pub fn index_between(text: &[u8]) -> Option<(u32, u32)>
    ensures { result ≡ index_between text.now }
{
    match memchr(b':', text) {
        Some(colon) => {
            let first = index_number(&text[..colon])?;
            let last = index_number(&text[colon + 1..])?;
            Some((first, last))
        }
        None => {
            let number = index_number(text)?;
            Some((number, number))
        }
    }
}

/// The index between two brackets, if it has as many indices as its variable has bits, i.e. `size`.
fn index_of(text: &[u8], size: u32) -> Option<(u32, u32)>
    ensures { result ≡ index_of size text.now }
{
    let (first, last) = index_between(text)?;
    if u64::from(first.abs_diff(last)) + 1 == u64::from(size) {
        Some((first, last))
    } else {
        None
    }
}

/// What is before the last `[` of a text that ends with `]`, and what is between these two.
pub fn bracketed(text: &[u8]) -> Option<(&[u8], &[u8])>
    ensures { option_map (λ parts. (parts.0.now, parts.1.now)) result ≡ bracketed text.now }
{
    let [front @ .., b']'] = text else {
        return None;
    };
    let place = memrchr(b'[', front)?;
    Some((&front[..place], &front[place + 1..]))
}

/// The name and the index that the reference `text` of a variable of `size` bits has.
pub(crate) fn reference_of(text: &[u8], size: u32) -> Reference<'_>
    ensures { record { name = result.name.now; index = result.index } ≡ reference_of size text.now }
{
    if let Some((name, inner)) = bracketed(text) {
        if !name.is_empty() {
            if let Some(index) = index_of(inner, size) {
                return Reference {
                    name,
                    index: Some(index),
                };
            }
        }
    }
    Reference {
        name: text,
        index: None,
    }
}

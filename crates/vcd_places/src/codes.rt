//! Codes that no variable has.

ghost use Rattle.std.specs.Prelude.{◌≡◌, ◌<◌, true, false, All, IfOk, IfSome, length, map};
ghost use Rattle.std.specs.List.{list_any};
ghost use Rattle.std.specs.List.Sorted.{IsStrictlyIncreasing};
ghost use Rattle.vcd_read.specs.CodeNumbers.{code_number};
ghost use Rattle.vcd_read.specs.Header.{is_code};
ghost use Rattle.vcd_read.specs.Tokens.{tokens};
ghost use Rattle.vcd_places.specs.Codes.{IsUnused, is_token, vec_code_number};

use crate::token_reader::TokenReader;
use std::alloc::{AllocError, Global};
use vcd_read::is_end;

/// The number of `word`, if it is a code and its number is below `limit`.
fn number_below(word: &[u8], limit: usize) -> Option<usize>
    requires { 0 < limit }
    ensures { IfSome result (λ n. n < limit) }
{
    let mut number: usize = 0;
    for byte in word.iter().rev() {
        if !matches!(*byte, b'!'..=b'~') {
            return None;
        }
        let high = number.checked_mul(94)?;
        let next = high.checked_add(usize::from(*byte - 32))?;
        if next >= limit {
            return None;
        }
        number = next;
    }
    Some(number)
}

/// For each token of `text` that is a code with a number below `marks.len()`, sets the mark at that number.
fn mark_tokens(text: &[u8], marks: &mut [bool])
    requires { 0 < length marks.old }
{
    let mut reader = TokenReader::new(text, 0);
    while let Some(token) = reader.next() {
        if let Some(number) = number_below(token.bytes, marks.len()) {
            marks[number] = true;
        }
    }
}

/// `limit` marks. The mark at a number is set exactly if a token of `text` is the code of that number.
fn marks_of(alloc: Global, text: &[u8], limit: usize) -> Result<Vec<bool>, AllocError>
    requires { 0 < limit }
    ensures { IfOk result (λ marks. length marks.items ≡ limit) }
{
    let mut marks = Vec::new(alloc);
    marks.resize(limit, false)?;
    mark_tokens(text, &mut marks);
    Ok(marks)
}

/// Whether no token of `text` is `word`.
fn lacks_token(text: &[u8], word: &[u8]) -> bool
    ensures { result ≡ true → list_any (is_token word.now) (tokens text.now) ≡ false }
{
    let mut reader = TokenReader::new(text, 0);
    while let Some(token) = reader.next() {
        if token.bytes == word {
            return false;
        }
    }
    true
}

/// The code of a number.
fn code_of(alloc: Global, number: usize) -> Result<Vec<u8>, AllocError>
    requires { 0 < number }
    ensures number { IfOk result (λ code. code_number code.items ≡ number) }
    ensures is_one { IfOk result (λ code. is_code code.items ≡ true) }
    ensures some { IfOk result (λ code. 0 < length code.items) }
{
    let mut code = Vec::new(alloc);
    let mut rest = number;
    while rest > 0 {
        code.push(33 + ((rest - 1) % 94) as u8)?;
        rest = (rest - 1) / 94;
    }
    Ok(code)
}

/// The code of `number`, or `None` if it is a token of `text` or `$end`. A set mark says that it is a token.
fn unused_code(
    alloc: Global,
    text: &[u8],
    marks: &[bool],
    number: usize,
) -> Result<Option<Vec<u8>>, AllocError>
    requires some { 0 < number }
    requires within { number < length marks.now }
    ensures { IfOk result (λ found. IfSome found (λ code. IsUnused text.now number code.items)) }
{
    if marks[number] {
        return Ok(None);
    }
    let code = code_of(alloc, number)?;
    if is_end(&code) || !lacks_token(text, &code) {
        return Ok(None);
    }
    Ok(Some(code))
}

/// The first `count` codes, in the order of their numbers, that are neither tokens of `text` nor `$end`. The numbers
/// that are tried suffice for the tokens, `$end` and these codes. The only error is want of memory.
pub fn unused_codes(alloc: Global, text: &[u8], count: usize) -> Result<Vec<Vec<u8>>, AllocError>
    ensures each { IfOk result
        (λ found. All (λ code. IsUnused text.now (code_number code.items) code.items) found.items) }
    ensures ascend { IfOk result (λ found. IsStrictlyIncreasing (map vec_code_number found.items)) }
    ensures count { IfOk result (λ found. length found.items ≡ count) }
{
    let limit = (text.len() / 2).checked_add(count).ok_or(AllocError)?;
    let limit = limit.checked_add(3).ok_or(AllocError)?;
    let marks = marks_of(alloc, text, limit)?;
    let mut found = Vec::new(alloc);
    let mut number = 1;
    while found.len() < count && number < marks.len() {
        if let Some(code) = unused_code(alloc, text, &marks, number)? {
            found.push(code)?;
        }
        number += 1;
    }
    if found.len() == count {
        Ok(found)
    } else {
        Err(AllocError)
    }
}

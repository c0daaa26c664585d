//! Tests of vme_part_format: parts that are written and read again, and bytes that are no part.
//!
//! The known sums of FNV-1a are those of its authors' page. A part's first bytes are compared with
//! ones that were written out by hand from docs/PARTS.md. Bytes of two parts are changed: with the
//! old sum they are refused; with the right sum they are refused, or read as a part that is written
//! as the same bytes. Parts that are cut short are refused.
#![tactic(auto)]

#[cfg(test)]
mod tests;

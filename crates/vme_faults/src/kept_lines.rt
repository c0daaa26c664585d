//! What is kept of a dump that is read in pieces, for the text of a refusal.

use crate::line_tokens::{last_token, line_start, token_at, up_to_line_feed};
use memchr::memchr;
use std::alloc::{AllocError, Global};
use vcd_read::line_feeds;

/// A line of a dump. It has no bytes here before it is read to its end.
#[derive(Drop)]
struct KeptLine {
    number: u64,
    bytes: Vec<u8>,
}

/// The lines that a later fault may name, and the line of the fault.
#[derive(Drop)]
pub struct KeptLines {
    /// The number of the line on which the next piece begins, counted from 1.
    next: u64,
    /// What that line has before the next piece.
    current: Vec<u8>,
    /// The line of the last token.
    last: Option<KeptLine>,
    /// The line on which the open dump section begins.
    dump_section: Option<KeptLine>,
    /// The line on which the open comment begins.
    comment: Option<KeptLine>,
    /// The bytes of the line of the fault.
    fault_line: Vec<u8>,
    /// Whether the line of the fault is read to its end.
    is_ended: bool,
}

impl KeptLines {
    /// What is kept before the first byte of a dump.
    pub fn new(alloc: Global) -> KeptLines {
        KeptLines {
            next: 1,
            current: Vec::new(alloc),
            last: None,
            dump_section: None,
            comment: None,
            fault_line: Vec::new(alloc),
            is_ended: false,
        }
    }

    /// Takes a piece without a fault, which ends after a space. It fails if memory runs out, and then what is kept is
    /// of no use.
    pub fn pass(&mut self, alloc: Global, piece: &[u8]) -> Result<(), AllocError> {
        self.end_current(alloc, piece)?;
        self.pass_dump_sections(alloc, piece)?;
        if let Some(at) = last_token(piece) {
            self.last = Some(self.line_of(alloc, piece, at)?);
        }
        let last = line_start(piece, piece.len());
        if last > 0 {
            self.current.clear();
        }
        self.current
            .extend_from_slice(piece.get(last..).unwrap_or(b""))?;
        self.next = self.next.saturating_add(line_feeds(piece));
        Ok(())
    }

    /// Keeps the line `number`, counted from 1: that of a fault which is met in `bytes` or at their end. They follow
    /// the pieces that were passed. It fails if memory runs out; a part of the line may then be kept.
    pub fn record_fault(&mut self, number: u64, bytes: &[u8]) -> Result<(), AllocError> {
        self.fault_line.clear();
        match number.checked_sub(self.next) {
            Some(further) => self.record_fault_in(further, bytes),
            None => {
                self.is_ended = true;
                for kept in [&self.last, &self.dump_section, &self.comment] {
                    if let Some(line) = kept {
                        if line.number == number {
                            self.fault_line.clear();
                            self.fault_line.extend_from_slice(&line.bytes)?;
                        }
                    }
                }
                Ok(())
            }
        }
    }

    /// Keeps the line of a fault, which is `further` lines after the one that `bytes` begin on.
    fn record_fault_in(&mut self, further: u64, bytes: &[u8]) -> Result<(), AllocError> {
        let mut rest = bytes;
        for _ in 0..further {
            let (line, is_ended) = up_to_line_feed(rest);
            if !is_ended {
                self.is_ended = true;
                return Ok(());
            }
            rest = rest.get(line.len().saturating_add(1)..).unwrap_or(b"");
        }
        if further == 0 {
            self.fault_line.extend_from_slice(&self.current)?;
        }
        self.extend_fault(rest)
    }

    /// Adds the rest of the fault's line, as far as `bytes` have it. It fails if memory runs out, and then nothing is
    /// added.
    pub fn extend_fault(&mut self, bytes: &[u8]) -> Result<(), AllocError> {
        if self.is_ended {
            return Ok(());
        }
        let (line, is_ended) = up_to_line_feed(bytes);
        self.fault_line.extend_from_slice(line)?;
        self.is_ended = is_ended;
        Ok(())
    }

    /// The line of the fault, without its line feed and a carriage return before it. It is empty before `record_fault`,
    /// and where the line isn't among those that are kept.
    pub fn fault_line(&self) -> &[u8] {
        match self.fault_line.as_slice() {
            [front @ .., b'\r'] => front,
            line => line,
        }
    }

    /// The line that has the byte at the index `at` of `piece`. If the line doesn't end in `piece`, its bytes aren't
    /// kept.
    fn line_of(&self, alloc: Global, piece: &[u8], at: usize) -> Result<KeptLine, AllocError> {
        let start = line_start(piece, at);
        let (line, is_ended) = up_to_line_feed(piece.get(start..).unwrap_or(b""));
        let mut bytes = Vec::new(alloc);
        if is_ended {
            if start == 0 {
                bytes.extend_from_slice(&self.current)?;
            }
            bytes.extend_from_slice(line)?;
        }
        let feeds = line_feeds(piece.get(..start).unwrap_or(b""));
        Ok(KeptLine {
            number: self.next.saturating_add(feeds),
            bytes,
        })
    }

    /// If the current line ends in `piece`, keeps its bytes where it is the line of the last token, section or comment.
    fn end_current(&mut self, alloc: Global, piece: &[u8]) -> Result<(), AllocError> {
        let (_, is_ended) = up_to_line_feed(piece);
        if !is_ended {
            return Ok(());
        }
        if is_of(&self.last, self.next) {
            self.last = Some(self.line_of(alloc, piece, 0)?);
        }
        if is_of(&self.dump_section, self.next) {
            self.dump_section = Some(self.line_of(alloc, piece, 0)?);
        }
        if is_of(&self.comment, self.next) {
            self.comment = Some(self.line_of(alloc, piece, 0)?);
        }
        Ok(())
    }

    /// Keeps the lines of the dump section and of the comment that are open after a piece.
    fn pass_dump_sections(&mut self, alloc: Global, piece: &[u8]) -> Result<(), AllocError> {
        let mut from: usize = 0;
        for _ in 0..piece.len() {
            let Some(rest) = piece.get(from..) else {
                return Ok(());
            };
            let Some(found) = memchr(b'$', rest) else {
                return Ok(());
            };
            let at = from.saturating_add(found);
            if let Some(token) = token_at(piece, at) {
                self.pass_token(alloc, piece, at, token)?;
            }
            from = at.saturating_add(1);
        }
        Ok(())
    }

    /// Opens or closes a dump section or a comment, if `token`, at the index `at` of `piece`, does so.
    fn pass_token(
        &mut self,
        alloc: Global,
        piece: &[u8],
        at: usize,
        token: &[u8],
    ) -> Result<(), AllocError> {
        match token {
            b"$end" if self.comment.is_some() => self.comment = None,
            b"$end" => self.dump_section = None,
            b"$comment" if self.comment.is_none() => {
                self.comment = Some(self.line_of(alloc, piece, at)?);
            }
            b"$dumpvars" | b"$dumpall" | b"$dumpon" | b"$dumpoff" if self.comment.is_none() => {
                self.dump_section = Some(self.line_of(alloc, piece, at)?);
            }
            _ => {}
        }
        Ok(())
    }
}

/// Whether a line is kept, and has this number.
fn is_of(kept: &Option<KeptLine>, number: u64) -> bool {
    match kept {
        Some(line) => line.number == number,
        None => false,
    }
}

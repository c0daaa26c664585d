//! What is kept of a dump that is read piece by piece, to show where it is refused.

use std::alloc::{AllocError, Global};
use vcd_read::VcdFault;
use vme_faults::{FileKind, KeptLines};

/// What is kept of a dump to show its fault: the line, and the kind of file.
#[derive(Drop)]
pub(crate) struct FaultContext {
    lines: KeptLines,
    /// What kind of file it is, by the first bytes, once some were seen.
    kind: Option<Option<FileKind>>,
    has_fault: bool,
}

impl FaultContext {
    /// Before the first byte.
    pub fn new(alloc: Global) -> FaultContext {
        FaultContext {
            lines: KeptLines::new(alloc),
            kind: None,
            has_fault: false,
        }
    }

    /// Records that `bytes` were taken, with the first fault so far, if there is one. The only error is want of memory.
    pub fn pass(
        &mut self,
        alloc: Global,
        bytes: &[u8],
        fault: Option<VcdFault>,
    ) -> Result<(), AllocError> {
        if bytes.is_empty() {
            return Ok(());
        }
        match fault {
            Some(fault) => self.record_fault(fault, bytes),
            None => {
                self.detect_kind(bytes);
                self.lines.pass(alloc, bytes)
            }
        }
    }

    /// Records the first fault of the dump, which is in `bytes` or at their end. If a fault is recorded already, adds
    /// the rest of its line. The only error is want of memory.
    pub fn record_fault(&mut self, fault: VcdFault, bytes: &[u8]) -> Result<(), AllocError> {
        self.detect_kind(bytes);
        if self.has_fault {
            return self.lines.extend_fault(bytes);
        }
        self.has_fault = true;
        self.lines.record_fault(fault.line, bytes)
    }

    /// Determines the kind of file from the first bytes.
    fn detect_kind(&mut self, bytes: &[u8]) {
        if self.kind.is_none() {
            self.kind = Some(FileKind::of(bytes));
        }
    }

    /// The line of the fault.
    pub fn line(&self) -> &[u8] {
        self.lines.fault_line()
    }

    /// What kind of file the dump is, if its first bytes show it.
    pub fn kind(&self) -> Option<FileKind> {
        self.kind.unwrap_or(None)
    }
}

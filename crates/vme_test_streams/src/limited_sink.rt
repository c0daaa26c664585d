//! A sink with room for some bytes.

ghost use Rattle.std.specs.Prelude.{None};

use std::alloc::{AllocError, Global};
use vme_trace::{Failed, Sink};

/// A sink that keeps what is written. Once it has no room, or where memory runs out, writes fail.
#[derive(Drop)]
pub struct LimitedSink {
    /// What was written.
    pub bytes: Vec<u8>,
    /// How many bytes it takes at most.
    room: usize,
    /// How many writes failed.
    failures: u64,
}

impl LimitedSink {
    /// A sink with room for `room` bytes. It takes memory as it is written.
    pub fn new(alloc: Global, room: usize) -> LimitedSink {
        LimitedSink {
            bytes: Vec::new(alloc),
            room,
            failures: 0,
        }
    }

    /// A sink with room for `room` bytes, whose memory is taken before the first write.
    pub fn with_capacity(alloc: Global, room: usize) -> Result<LimitedSink, AllocError> {
        Ok(LimitedSink {
            bytes: Vec::with_capacity(alloc, room)?,
            room,
            failures: 0,
        })
    }
}

impl Sink for LimitedSink {
    // which bytes were taken is left open: a test looks at `bytes`
    ghost writing = { λ s. record { taken = None; failures = s.failures } };

    fn write(&mut self, bytes: &[u8]) -> Result<usize, Failed> {
        if self.bytes.len() < self.room {
            let count = bytes.len().min(self.room - self.bytes.len());
            if self.bytes.extend_from_slice(&bytes[..count]).is_ok() {
                return Ok(count);
            }
        }
        match self.failures.checked_add(1) {
            Some(failures) => {
                self.failures = failures;
                Err(Failed)
            }
            // no further failure can be counted
            None => Ok(bytes.len()),
        }
    }
}

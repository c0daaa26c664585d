//! Where the definitions of a dump may end.

use memchr::memmem;

/// What ends the definitions of a dump.
const END_OF_DEFINITIONS: &[u8] = b"$enddefinitions";

/// How often the definitions may seem to end where they don't, before the search waits for twice the bytes.
const MOST_TRIES: u32 = 64;

/// Looks for where the definitions of a dump may end, in bytes that grow at their end.
#[derive(Clone, Copy)]
pub struct DefinitionsEnd {
    /// No end is looked for before this place.
    searched: usize,
    /// How often there seemed to be an end.
    tries: u32,
    /// If there are fewer bytes, no end is looked for once there seemed to be one `MOST_TRIES` times: so all searches
    /// together take time in proportion to the bytes.
    least: usize,
}

impl DefinitionsEnd {
    /// The search before any bytes.
    pub fn new() -> DefinitionsEnd {
        DefinitionsEnd {
            searched: 0,
            tries: 0,
            least: 0,
        }
    }

    /// Whether the definitions may end in `bytes`, after the place where an earlier call said that they may.
    pub fn may_end(&mut self, bytes: &[u8]) -> bool {
        let from = self.searched.min(bytes.len());
        let Some(at) = memmem::find(&bytes[from..], END_OF_DEFINITIONS) else {
            self.searched = bytes.len().saturating_sub(END_OF_DEFINITIONS.len());
            return false;
        };
        let behind = from + at + END_OF_DEFINITIONS.len();
        let is_late = self.tries < MOST_TRIES || bytes.len() >= self.least;
        if !is_late || memmem::find(&bytes[behind..], b"$end").is_none() {
            return false;
        }
        self.searched = behind;
        self.tries = self.tries.saturating_add(1);
        self.least = bytes.len().saturating_mul(2);
        true
    }
}

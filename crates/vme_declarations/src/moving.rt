//! Whether a bit of a net moves.

ghost use Rattle.std.specs.Prelude.{◌≡◌};
ghost use Rattle.vme_declarations.specs.Levels.{moves};

use crate::levels_seen::{LevelsSeen, MOST_BITS};

impl LevelsSeen {
    /// Whether a bit of a net, by its place from the right, was seen Low and High.
    pub fn moves(&self, net: u32, place: u32) -> bool
        ensures { result ≡ moves self.now net place }
    {
        match self.nets.get(net as usize) {
            Some(levels) if place < MOST_BITS => {
                levels.low >> place & 1 == 1 && levels.high >> place & 1 == 1
            }
            _ => false,
        }
    }
}

//! Which bits of a dump's nets move.

ghost use Rattle.std.specs.Prelude.{◌≡◌, ◌≤◌};
ghost use Rattle.vcd_read.specs.Meaning.{ReadGives};
ghost use Rattle.vcd_read.specs.BodyFold.{fold_body};
ghost use Rattle.vme_declarations.specs.Surveys.{next_count, same_count};

use std::alloc::{AllocError, Global};
use vcd_read::{ChangeVisitor, Head, VcdFault};

/// The number of bits of a net, from the right, of which it is kept whether they move.
pub const MOST_BITS: u32 = 64;

/// The greatest number of instants of a dump. With more, the error is want of memory.
const MOST_INSTANTS: u32 = 268_435_456;

/// Which levels the rightmost 64 bits of a net have had. In both numbers bit k, from the right, is that of the net's
/// bit k.
#[derive(Clone, Copy)]
pub(crate) struct NetLevels {
    /// The bits that were Low.
    pub low: u64,
    /// The bits that were High or z.
    pub high: u64,
}

/// The levels of the nets so far, by the net's number up to the last net with a value, and the number of instants.
#[derive(Drop)]
pub struct LevelsSeen {
    pub(crate) nets: Vec<NetLevels>,
    instants: u32,
    ghost few: { instants ≤ 268435456 },
}

impl LevelsSeen {
    /// No level of a net was seen yet.
    pub(crate) fn none(alloc: Global) -> LevelsSeen
        ensures { result.instants ≡ 0 }
    {
        LevelsSeen {
            nets: Vec::new(alloc),
            instants: 0,
        }
    }
}

impl ChangeVisitor for LevelsSeen {
    ghost use Rattle.std.specs.Prelude.{ℕ};
    ghost use Rattle.vme_declarations.specs.Surveys.{next_count, same_count};

    ghost Taken = { ℕ };

    ghost taken = { λ l. l.instants };

    ghost with_change = { same_count };

    ghost with_instant = { next_count };

    fn change(
        &mut self,
        alloc: Global,
        net: u32,
        size: u32,
        digits: &[u8],
    ) -> Result<(), AllocError> {
        let _ = alloc;
        let place = net as usize;
        if place >= self.nets.len() {
            self.nets
                .resize(place.saturating_add(1), NetLevels { low: 0, high: 0 })?;
        }
        if let Some(levels) = self.nets.get_mut(place) {
            let (low, high) = levels_of(size, digits);
            levels.low |= low;
            levels.high |= high;
        }
        Ok(())
    }

    fn end_instant(&mut self, alloc: Global, time: u64) -> Result<(), AllocError> {
        let _ = (alloc, time);
        if self.instants >= MOST_INSTANTS {
            return Err(AllocError);
        }
        self.instants += 1;
        Ok(())
    }
}

/// The levels of the nets in the body after the definitions `head`.
pub(crate) fn levels_in(alloc: Global, head: &Head<'_>) -> Result<LevelsSeen, VcdFault>
    ensures { ReadGives (λ levels. levels.instants) result
        (fold_body same_count next_count head.now.nets 0 head.now.body) }
{
    head.read_body(alloc, LevelsSeen::none(alloc))
}

/// Which bits of a value are Low, and which are High or z, from the right.
fn levels_of(size: u32, digits: &[u8]) -> (u64, u64) {
    let mut low: u64 = 0;
    let mut high: u64 = 0;
    let mut bit: u64 = 1;
    for digit in digits.iter().rev().take(MOST_BITS as usize) {
        match *digit {
            b'0' => low |= bit,
            b'1' | b'z' | b'Z' => high |= bit,
            _ => {}
        }
        bit = bit.wrapping_mul(2);
    }
    if digits.len() < size as usize && bit != 0 {
        let above = bit.wrapping_sub(1) ^ u64::MAX;
        match digits.first() {
            Some(b'0' | b'1') => low |= above,
            Some(b'z' | b'Z') => high |= above,
            _ => {}
        }
    }
    (low, high)
}

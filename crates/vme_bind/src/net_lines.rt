//! The lines that take their levels from the bits of a net.

ghost use Rattle.std.specs.Prelude.{◌≡◌, ◌≤◌, ◌<◌, ◌^◌, ◌++◌, ◌∷◌, [], ℕ, IfOk, OnOk, ◌==◌, if◌then◌else◌, length};
ghost use Rattle.vme_trace.specs.LineNumbers.{line_count};
ghost use Rattle.vme_bind.specs.BoundGroups.{line_source};
ghost use Rattle.vme_bind.specs.NetLines.{line_bits_on};

use crate::bound_groups::{BoundGroup, LineSource, bound_group_source};
use std::alloc::{AllocError, Global};
use vme_trace::{LINE_COUNT, Line, Lines};

/// A line whose level comes from a bit of a net.
#[derive(Clone, Copy)]
pub(crate) struct LineBit {
    /// The line.
    pub line: Line,
    /// The place of the bit in the values of the net: the leftmost bit is at place 0.
    pub place: usize,
}

/// The lines of each net.
#[derive(Drop)]
pub(crate) struct NetLines {
    /// By the number of the net, up to the last net that has lines.
    nets: Vec<Vec<LineBit>>,
}

/// Where the level of a line comes from, if the backplane has it and it is in some bound group.
pub(crate) fn line_source(
    lines: &Lines,
    bound_groups: &[BoundGroup],
    line: Line,
) -> Option<LineSource>
    ensures { result ≡ line_source lines.now.slots bound_groups.now line }
{
    if lines.has(line) {
        bound_group_source(bound_groups, line)
    } else {
        None
    }
}

/// The lines of a net, if it has any.
#[inline(always)]
fn line_bits_on(nets: &[Vec<LineBit>], net: usize) -> &[LineBit]
    ensures { result.now ≡ line_bits_on nets.now net }
{
    match nets.get(net) {
        Some(line_bits) => line_bits.as_slice(),
        None => &[],
    }
}

impl NetLines {
    ghost use Rattle.vme_bind.specs.NetLines.{line_bits_of, line_bits_below};

    /// The lines of a net.
    #[inline(always)]
    pub fn of(&self, net: u32) -> &[LineBit]
        ensures { result.now ≡ line_bits_of self.now net }
    {
        line_bits_on(&self.nets, net as usize)
    }

    /// Makes room for the entry of `net`.
    fn grow(&mut self, alloc: Global, net: usize) -> Result<(), AllocError>
        ensures same { (k : ℕ) → line_bits_of self.new k ≡ line_bits_of self.old k }
        ensures room { OnOk result (net < length self.new.nets.items) }
    {
        while self.nets.len() <= net {
            self.nets.push(Vec::new(alloc))?;
        }
        Ok(())
    }

    /// Adds a line of a net, with the place of its bit. It fails if memory runs out.
    fn add(&mut self, alloc: Global, net: u32, line_bit: LineBit) -> Result<(), AllocError>
        ensures { OnOk result ((k : ℕ) → line_bits_of self.new k
            ≡ (if k == net then line_bits_of self.old net ++ line_bit ∷ [] else line_bits_of self.old k)) }
    {
        let place = net as usize;
        self.grow(alloc, place)?;
        self.nets[place].push(line_bit)?;
        Ok(())
    }

    /// The lines of each net, by ascending line number. It fails if memory runs out.
    pub fn of_bound_groups(
        alloc: Global,
        lines: &Lines,
        bound_groups: &[BoundGroup],
    ) -> Result<NetLines, AllocError>
        ensures { IfOk result (λ line_bits. (net : ℕ)
            → line_bits_of line_bits net ≡ line_bits_below lines.now.slots bound_groups.now net line_count) }
    {
        let mut line_bits = NetLines {
            nets: Vec::new(alloc),
        };
        for number in 0..LINE_COUNT {
            if let Some(line) = Line::from_number(number) {
                match line_source(lines, bound_groups, line) {
                    Some(LineSource::Bit(bit)) => {
                        let place = bit.place;
                        line_bits.add(alloc, bit.net, LineBit { line, place })?;
                    }
                    Some(LineSource::Always(_)) => {}
                    None => {}
                }
            }
        }
        Ok(line_bits)
    }
}

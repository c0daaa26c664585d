//! Recordings of a backplane in memory, and how they are cut into blocks.

ghost use Rattle.std.specs.Prelude.{◌≡◌, ◌≤◌, ◌<◌, ◌↔◌, ◌⊎◌, length, MatchResult, IfOk, SomeIff, Err, None, Some};
ghost use Rattle.vme_trace.specs.Blocks.{block_count, blocks_of, joined_steps};
ghost use Rattle.vme_trace.specs.WellFormed.{IsCapture, malformed_step, uncaptured_step, capture_limit};

use crate::block::{Block, Malformed, check_steps};
use crate::lines::Lines;
use crate::step::{Step, Steps};
use std::alloc::{AllocError, Global};
use std::marker::Model;

/// How many steps a capture has at most.
const LIMIT: usize = 268435456;

/// How many blocks a capture is cut into at most.
const MOST_BLOCKS: usize = 4096;

/// Why a capture isn't cut.
#[derive(Clone, Copy, Debug, PartialEq, Eq)]
pub enum CutFault {
    /// The size is 0 or over 65,536.
    BadSize,
    /// There would be over 4,096 blocks.
    TooManyBlocks,
    /// Memory ran out.
    Memory,
}

/// A recording of a backplane: the levels at its opening, and the steps that follow it.
#[derive(Drop)]
pub struct Capture {
    opening: Lines,
    steps: Steps,
}

impl Model for Capture {
    ghost use Rattle.vme_trace.specs.Trace.{Trace};
    ghost use Rattle.vme_trace.specs.WellFormed.{IsCapture};

    ghost Value = { Trace };

    ghost view = { λ a. record { opening = a.opening; steps = a.steps } };

    ghost invariant = { λ a. IsCapture (record { opening = a.opening; steps = a.steps }) };
}

impl Capture {
    /// A capture of the steps. Otherwise the steps again, and the first one that a capture can't have: one that
    /// doesn't follow those before it, or the first after 268,435,456.
    pub fn new(opening: Lines, steps: Vec<Step>) -> Result<Capture, (Vec<Step>, Malformed)>
        ensures ok { MatchResult result (λ capture. capture ≡ record { opening = opening; steps = steps.items })
            (λ e. e.0 ≡ steps) }
        ensures err { MatchResult result (λ capture. IsCapture capture)
            (λ e. uncaptured_step (record { opening = opening; steps = steps.items }) ≡ Some e.1.step) }
    {
        let checked = check_steps(&opening, steps.as_slice());
        match checked {
            Err(malformed) if malformed.step <= LIMIT => Err((steps, malformed)),
            Err(_) => Err((steps, Malformed { step: LIMIT })),
            Ok(()) if steps.len() > LIMIT => Err((steps, Malformed { step: LIMIT })),
            Ok(()) => Ok(Capture {
                opening,
                steps: Steps::new(steps),
            }),
        }
    }

    /// A capture of steps each of which is known to follow those before it: their times ascend, in the unit of the
    /// recording, and each changes the level of some lines that exist, named in their order. No step is looked at. Over
    /// 268,435,456 steps there is no capture, and the steps are dropped.
    pub fn from_well_formed(opening: Lines, steps: Vec<Step>) -> Option<Capture>
        requires { malformed_step (record { opening = opening; steps = steps.items }) ≡ None }
        ensures { SomeIff result (length steps.items ≤ capture_limit)
            (record { opening = opening; steps = steps.items }) }
    {
        if steps.len() > LIMIT {
            return None;
        }
        Some(Capture {
            opening,
            steps: Steps::new(steps),
        })
    }

    /// The levels before the first step.
    pub fn opening(&self) -> &Lines
        ensures opening { result.now ≡ self.now.opening }
        ensures sound { IsCapture self.now }
    {
        &self.opening
    }

    /// The steps.
    pub fn steps(&self) -> &[Step]
        ensures steps { result.now ≡ self.now.steps }
        ensures sound { IsCapture self.now }
    {
        self.steps.as_slice()
    }

    /// The capture as blocks of `size` steps, 1 to 65,536, numbered from 0; the last block may have fewer. A
    /// capture without steps gives one empty block. There may be 4,096 blocks at most.
    pub fn cut(&self, alloc: Global, size: u32) -> Result<Vec<Block>, CutFault>
        ensures bad_size { (result ≡ Err CutFault.BadSize) ↔ ((size ≡ 0) ⊎ (65536 < size)) }
        ensures too_many { (result ≡ Err CutFault.TooManyBlocks) ↔
            ((0 < size) × (size ≤ 65536) × (4096 < block_count size self.now)) }
        ensures blocks { IfOk result (λ blocks. blocks.items ≡ blocks_of size self.now) }
        ensures joined { IfOk result (λ blocks. joined_steps blocks.items ≡ self.now.steps) }
    {
        if size == 0 || size > 65536 {
            return Err(CutFault::BadSize);
        }
        let size = size as usize;
        let count = self.steps().len().div_ceil(size).max(1);
        if count > MOST_BLOCKS {
            return Err(CutFault::TooManyBlocks);
        }
        self.blocks(alloc, size, count)
            .map_err(|_| CutFault::Memory)
    }

    /// The blocks of `size` steps each, `count` of them; the last may have fewer steps.
    fn blocks(&self, alloc: Global, size: usize, count: usize) -> Result<Vec<Block>, AllocError>
        requires size { 0 < size }
        requires count { count ≡ block_count size self.now }
        requires few { count ≤ MOST_BLOCKS }
        ensures blocks { IfOk result (λ blocks. blocks.items ≡ blocks_of size self.now) }
        ensures joined { IfOk result (λ blocks. joined_steps blocks.items ≡ self.now.steps) }
    {
        let steps = self.steps();
        let mut lines = *self.opening();
        let mut blocks = Vec::with_capacity(alloc, count)?;
        for number in 0..count {
            let start = number * size;
            let end = steps.len().min(start + size);
            let block = Block::copied(alloc, number as u32, &mut lines, &steps[start..end])?;
            blocks.push(block)?;
        }
        Ok(blocks)
    }
}

//! The deliveries of the pods: the blocks of a recording, in some order, some of them twice.

ghost use Rattle.std.specs.Prelude.{◌≡◌, ◌*◌, ◌+◌, ◌<◌, ◌≤◌, IfOk, IsPermutation, length, None, OnOk};
ghost use Rattle.vme_pod_check.specs.Deliveries.{AreDeliveries, AreTakenFrom};

use std::alloc::{AllocError, Global};
use vme_trace::Block;

/// Pseudorandom numbers from a seed, by the generator SplitMix64.
#[derive(Drop)]
struct Draws {
    state: u64,
}

impl Draws {
    /// The next number below `bound`.
    fn below(&mut self, bound: usize) -> usize
        requires { 0 < bound }
        ensures { result < bound }
    {
        self.state = self.state.wrapping_add(0x9E37_79B9_7F4A_7C15);
        let high = (self.state ^ (self.state >> 30)).wrapping_mul(0xBF58_476D_1CE4_E5B9);
        let low = (high ^ (high >> 27)).wrapping_mul(0x94D0_49BB_1331_11EB);
        (low ^ (low >> 31)) as usize % bound
    }
}

/// The blocks, in the order of their numbers or, with a seed, in another order and about a third of them twice. The
/// index of each block has to be its number, as `Capture::cut` gives them. An error is lack of memory.
pub fn deliveries_of(
    alloc: Global,
    blocks: Vec<Block>,
    seed: Option<u64>,
) -> Result<Vec<Block>, AllocError>
    requires { AreTakenFrom blocks.items blocks.items }
    ensures delivered { IfOk result (λ deliveries. AreDeliveries blocks.items deliveries.items) }
    ensures in_order { IfOk result (λ deliveries. seed ≡ None → deliveries.items ≡ blocks.items) }
{
    let Some(seed) = seed else {
        return Ok(blocks);
    };
    let mut draws = Draws { state: seed };
    let mut deliveries = some_again(alloc, blocks, &mut draws)?;
    shuffle(deliveries.as_mut_slice(), &mut draws);
    Ok(deliveries)
}

/// The blocks, and after them about a third of them again.
fn some_again(
    alloc: Global,
    blocks: Vec<Block>,
    draws: &mut Draws,
) -> Result<Vec<Block>, AllocError>
    requires { AreTakenFrom blocks.items blocks.items }
    ensures { IfOk result (λ deliveries. AreDeliveries blocks.items deliveries.items) }
{
    let mut deliveries = blocks;
    for i in 0..deliveries.len() {
        if draws.below(3) == 0 {
            let again = deliveries[i].copy(alloc)?;
            deliveries.push(again)?;
        }
    }
    Ok(deliveries)
}

/// Puts the blocks in another order. Each order is equally likely.
fn shuffle(blocks: &mut [Block], draws: &mut Draws)
    ensures { IsPermutation blocks.old blocks.new }
{
    for i in 1..blocks.len() {
        let other = draws.below(i + 1);
        blocks.swap(i, other);
    }
}

//! How many value changes a dump has of each net.

ghost use Rattle.std.specs.Prelude.{◌≡◌, OnOk};
ghost use Rattle.vme_variables.specs.Counts.{count_change, with_last_instant};

use std::alloc::{AllocError, Global};
use std::marker::Model;
use vcd_read::ChangeVisitor;

/// How many value changes each net has so far, its first value included, and the time of the last instant.
#[derive(Drop)]
pub(crate) struct ChangeCounts {
    counts: Vec<u64>,
    last: u64,
}

impl Model for ChangeCounts {
    ghost use Rattle.vme_variables.specs.Counts.{Counts};

    ghost Value = { Counts };

    ghost view = { λ c. record { counts = c.counts.items; last = c.last } };
}

impl ChangeCounts {
    /// No change yet of any of `nets` nets.
    pub(crate) fn zeros(alloc: Global, nets: usize) -> Result<ChangeCounts, AllocError> {
        let mut counts = Vec::new(alloc);
        counts.resize(nets, 0)?;
        Ok(ChangeCounts { counts, last: 0 })
    }

    /// How many value changes a net has so far.
    pub(crate) fn count(&self, net: u32) -> u64 {
        self.counts.get(net as usize).copied().unwrap_or(0)
    }

    /// The time of the last instant, or 0 where there is none.
    pub(crate) fn last(&self) -> u64 {
        self.last
    }
}

impl ChangeVisitor for ChangeCounts {
    ghost use Rattle.vme_variables.specs.Counts.{Counts};

    ghost Taken = { Counts };

    ghost taken = { λ c. c };

    ghost with_change = { λ c net bits. count_change c net };

    ghost with_instant = { λ c time. with_last_instant c time };

    fn change(
        &mut self,
        alloc: Global,
        net: u32,
        size: u32,
        digits: &[u8],
    ) -> Result<(), AllocError> {
        let _ = (alloc, size, digits.len());
        if let Some(count) = self.counts.get_mut(net as usize) {
            *count = count.saturating_add(1);
        }
        Ok(())
    }

    fn end_instant(&mut self, alloc: Global, time: u64) -> Result<(), AllocError> {
        let _ = alloc;
        self.last = time;
        Ok(())
    }
}

//! The time of the first instant of a body.

ghost use Rattle.std.specs.Prelude.{◌≡◌};

use std::alloc::{AllocError, Global};
use vcd_read::ChangeVisitor;

/// A visitor that takes the time of the first instant that ends.
#[derive(Drop)]
pub(crate) struct FirstTimeVisitor {
    /// The time, in the unit of the dump's `$timescale`, or `None` if no instant has ended.
    pub time: Option<u64>,
}

impl FirstTimeVisitor {
    /// The time that was taken, if one was.
    pub fn into_time(self) -> Option<u64>
        ensures { result ≡ self.time }
    {
        self.time
    }
}

impl ChangeVisitor for FirstTimeVisitor {
    ghost use Rattle.std.specs.Prelude.{ℕ, Option};
    ghost use Rattle.vcd_start.specs.FirstTimeReading.{first_time_kept, first_time_or};

    ghost Taken = { Option ℕ };

    ghost taken = { λ v. v.time };

    ghost with_change = { first_time_kept };

    ghost with_instant = { first_time_or };

    fn change(
        &mut self,
        alloc: Global,
        net: u32,
        size: u32,
        digits: &[u8],
    ) -> Result<(), AllocError> {
        let _ = (alloc, net, size, digits.len());
        Ok(())
    }

    fn end_instant(&mut self, alloc: Global, time: u64) -> Result<(), AllocError> {
        let _ = alloc;
        self.time = self.time.or(Some(time));
        Ok(())
    }
}

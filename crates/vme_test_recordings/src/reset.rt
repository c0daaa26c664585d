//! A read that a reset ends, after which the bus is idle again.

use crate::bus::{BUS_BINDING, BUS_DEFINITIONS};
use std::alloc::{AllocError, Global};

const RESET_BODY: &str = "\
#0 1p 1q 1r 1s 1t 1u 1v
#10 0p
#20 0q
#25 0v
#30 1p 1q
#40 1v
";

/// `BUS_BINDING` with one more line, which binds the system reset.
pub fn reset_binding(alloc: Global) -> Result<String, AllocError> {
    let mut binding = String::from_str(alloc, BUS_BINDING)?;
    binding.push_str("SYSRESET = bus.SYSRESET\n")?;
    Ok(binding)
}

/// A dump, for that binding, of a read that a reset ends.
pub fn reset_dump(alloc: Global) -> Result<String, AllocError> {
    let declared = "$var wire 1 v SYSRESET $end\n$upscope";
    let mut dump = BUS_DEFINITIONS.replace(alloc, "$upscope", declared)?;
    dump.push_str(RESET_BODY)?;
    Ok(dump)
}

/// The listing of that dump by that binding.
pub const RESET_LISTING: &str = "\
vmecheck listing 3
start 1
tenure 1 open end -
cycle 2 S 3D FFFFFE end -
transfer 3 read pending
reset 4
start 6
tenure 6 open end -
verdict conforming
";

//! A binding of the lines of a bus, and a dump by it with its listing.

use std::alloc::{AllocError, Global};

/// A binding of six lines to variables, and of all others but D and SYSRESET to constant levels.
pub const BUS_BINDING: &str = "\
slots 1
AS = bus.AS
DS0 = bus.DS0
DS1 = bus.DS1
DTACK = bus.DTACK
BERR = bus.BERR
IACK = bus.IACK
AM0 = 1
AM1 = 0
AM2 = 1
AM3 = 1
AM4 = 1
AM5 = 1
LWORD = 1
WRITE = 1
A = 1
BBSY = 0
BR = 1
BG0 = 1
BG1 = 1
BG2 = 1
BG3 = 1
IA = 1
";

/// The definitions of a dump with the variables of [`BUS_BINDING`].
pub const BUS_DEFINITIONS: &str = "\
$timescale 1 ns $end
$scope module bus $end
$var wire 1 p AS $end
$var wire 1 q DS0 $end
$var wire 1 r DS1 $end
$var wire 1 s DTACK $end
$var wire 1 t BERR $end
$var wire 1 u IACK $end
$upscope $end
$enddefinitions $end
";

/// The dump with these definitions and the body `body`.
pub fn bus_dump(alloc: Global, body: &str) -> Result<String, AllocError> {
    let mut dump = String::from_str(alloc, BUS_DEFINITIONS)?;
    dump.push_str(body)?;
    Ok(dump)
}

/// A dump with these definitions, of a read that conforms.
pub const READ_DUMP: &str = "\
$timescale 1 ns $end
$scope module bus $end
$var wire 1 p AS $end
$var wire 1 q DS0 $end
$var wire 1 r DS1 $end
$var wire 1 s DTACK $end
$var wire 1 t BERR $end
$var wire 1 u IACK $end
$upscope $end
$enddefinitions $end
#0 1p 1q 1r 1s 1t 1u
#10 0p
#20 0q
#30 0s
#40 1p 1q
#50 1s
";

/// The listing of that dump by [`BUS_BINDING`].
pub const READ_LISTING: &str = "\
vmecheck listing 3
start 1
tenure 1 open end -
cycle 2 S 3D FFFFFE end 5
transfer 3 of 2 read DTACK 4 close 5
verdict conforming
";

//! What is used where no argument gives it.

/// The binding that is used where no argument names one.
pub const BUILT_IN: &[u8] = b"slots 1
AS = bus.AS
DS0 = bus.DS0
DS1 = bus.DS1
DTACK = bus.DTACK
BERR = bus.BERR
IACK = bus.IACK
AM0 = 1
AM1 = 0
AM2 = 1
AM3 = 1
AM4 = 1
AM5 = 1
LWORD = 1
WRITE = 1
A = 1
BBSY = 0
BR = 1
BG0 = 1
BG1 = 1
BG2 = 1
BG3 = 1
IA = 1
";

/// How many steps a block has where no argument gives it.
pub const BLOCK: u32 = 16_384;

/// The message of a call without arguments, if standard input is a terminal.
pub const READS_TERMINAL: &[u8] =
    b"vmecheck: reads a dump from standard input; vmecheck --help tells of the commands\n";

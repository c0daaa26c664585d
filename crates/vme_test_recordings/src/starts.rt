//! How recordings of several crates of tests begin, and a read.

use crate::recording::Recording;

/// Six lines are unknown, the modifier is 3D, the bus is busy, and all other lines are high.
pub const DUMPED: Recording = Recording {
    slots: 1,
    opening: "high AM1=0 BBSY=0 AS=x DS0=x DS1=x DTACK=x BERR=x IACK=x",
    steps: "",
};

/// After `DUMPED`: the six lines become high, and a read follows.
pub const DUMPED_READ: &str =
    "AS=1 DS0=1 DS1=1 DTACK=1 BERR=1 IACK=1;AS=0;DS0=0;DTACK=0;AS=1 DS0=1;DTACK=1";

/// The bus becomes idle, and a requester in slot 2 takes it by level 3.
pub const GRANTED: Recording = Recording {
    slots: 3,
    opening: "",
    steps: "high_but_A24_to_A31;BR3=0;BG3.0=0;BG3.1=0;BBSY=0 BR3=1;BG3.0=1;BG3.1=1",
};

/// The bus is idle from the opening on, and a requester in slot 2 takes it by level 3.
pub const GRANTED_FROM_IDLE: Recording = Recording {
    slots: 3,
    opening: "high_but_A24_to_A31",
    steps: "BR3=0;BG3.0=0;BG3.1=0;BBSY=0 BR3=1;BG3.0=1;BG3.1=1",
};

/// The bus becomes idle, and a grant is passed on to slot 3.
pub const PASSED_ON: Recording = Recording {
    slots: 3,
    opening: "",
    steps: "high_but_A24_to_A31;BR3=0;BG3.0=0;BG3.1=0;BG3.2=0",
};

/// A read by modifier 39, after which the bus is free: seven steps.
pub const READ: &str = "AM1=0 AM2=0 A05=0;AS=0;DS0=0 DS1=0;DTACK=0;AS=1 DS0=1 DS1=1;DTACK=1;BBSY=1";

/// The listing of `READ` after `GRANTED`.
pub const GRANTED_READ_LISTING: &str = "vmecheck listing 3
start 1
tenure 5 level 3 slot 2 end 14
cycle 9 S 39 FFFFDE end 12
transfer 10 of 9 read DTACK 11 close 12
verdict conforming
";

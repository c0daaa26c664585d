//! A read whose answer is recorded before its strobe, and its listings by skews.

/// The body of a dump, for `bus_dump`, of a read whose strobe is recorded 3 time units after its answer.
pub const EARLY_ANSWER: &str = "\
#0 1p 1q 1r 1s 1t 1u
#10 0p
#20 0s
#23 0q
#40 1p 1q
#50 1s
";

/// Its listing with a skew below 3, and that of a read whose strobe is missing.
pub const BROKEN_LISTING: &str = "\
vmecheck listing 3
start 1
tenure 1 open end -
cycle 2 S 3D FFFFFE end -
verdict broken H4 3 DTACK
";

/// Its listing with a skew of 3: the strobe and the answer fall at one instant.
pub const SETTLED_LISTING: &str = "\
vmecheck listing 3
start 1
tenure 1 open end -
cycle 2 S 3D FFFFFE end 4
transfer 3 of 2 read DTACK 3 close 4
verdict conforming
";

/// Its listing with a skew of 12: AS too falls at the first instant.
pub const LATE_LISTING: &str = "\
vmecheck listing 3
start 3
tenure 3 open end -
verdict conforming
";

/// Its listing with a skew that is longer than the recording: all steps settle to one.
pub const ONE_STEP_LISTING: &str = "\
vmecheck listing 3
start 1
tenure 1 open end -
verdict conforming
";

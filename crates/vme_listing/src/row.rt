//! The rows of a listing.

ghost use Rattle.std.specs.Prelude.{◌≡◌};

use vme_trace::{Class, Lanes, Line, Rule};

/// The version of a listing.
#[derive(Clone, Copy, Debug, PartialEq, Eq)]
pub enum Version {
    /// No row has data.
    One,
    /// The row of each answered write has its data.
    Two,
    /// Each reset that ends what is judged has a row, too, and the starts have their places among the other rows.
    Three,
}

impl Version {
    ghost use Rattle.vme_listing.specs.Listed.{includes_data, includes_resets};

    /// Whether the rows of answered writes have their data.
    pub fn includes_data(self) -> bool
        ensures { result ≡ includes_data self }
    {
        match self {
            Version::One => false,
            Version::Two | Version::Three => true,
        }
    }

    /// Whether resets have rows.
    pub fn includes_resets(self) -> bool
        ensures { result ≡ includes_resets self }
    {
        match self {
            Version::One | Version::Two => false,
            Version::Three => true,
        }
    }
}

/// The direction of a transfer.
#[derive(Clone, Copy, Debug, PartialEq, Eq)]
pub enum Direction {
    /// From the slave to the master.
    Read,
    /// From the master to the slave.
    Write,
}

/// The line that answers a transfer.
#[derive(Clone, Copy, Debug, PartialEq, Eq)]
pub enum AnswerLine {
    /// DTACK*: the transfer was done.
    Dtack,
    /// BERR*: it wasn't.
    Berr,
}

/// The verdict of a listing, in its last row.
#[derive(Clone, Copy, Debug, PartialEq, Eq)]
pub enum ListedVerdict {
    /// No rule is broken.
    Conforming,
    /// The bus is idle at no instant, so nothing was judged.
    NeverIdle,
    /// The rule is the first that is broken, at this instant and on this line.
    Broken(Rule, u32, Line),
    /// The recording can't be read on: the rule is broken at this instant and on this line.
    Unreadable(Rule, u32, Line),
}

/// A row of a listing. Instants are those of the recording: 0 is its opening, and instant i is its i-th step. An
/// end or a close is None where it is at no listed instant.
#[derive(Clone, Copy, Debug, PartialEq, Eq)]
pub enum Row {
    /// An idle instant from which on the recording is judged.
    Start {
        /// That instant.
        instant: u32,
    },
    /// A reset, which ends what is judged.
    Reset {
        /// Where SYSRESET* is low.
        instant: u32,
    },
    /// A tenure of the bus that is open at the start.
    OpenTenure {
        /// The instant of the start.
        start: u32,
        /// Where BBSY* rises.
        end: Option<u32>,
    },
    /// A tenure of the bus.
    Tenure {
        /// Where BBSY* falls.
        start: u32,
        /// The level by which the bus was granted, 0 to 3.
        level: u8,
        /// The slot that took the grant, 1 to 21.
        slot: u8,
        /// Where BBSY* rises.
        end: Option<u32>,
    },
    /// A cycle of single transfers or of a block transfer.
    AddressedCycle {
        /// Where AS* falls.
        start: u32,
        /// S or K.
        class: Class,
        /// The address modifier code.
        modifier: u8,
        /// The address, whose bit 0 is 0.
        address: u32,
        /// Where AS* rises.
        end: Option<u32>,
    },
    /// A cycle whose address modifier code is free.
    FreeCycle {
        /// Where AS* falls.
        start: u32,
        /// The address modifier code.
        modifier: u8,
        /// Where AS* rises.
        end: Option<u32>,
    },
    /// An interrupt acknowledge cycle.
    InterruptCycle {
        /// Where AS* falls.
        start: u32,
        /// The level that is acknowledged, on A03 to A01: 0 to 7.
        level: u8,
        /// Where AS* rises.
        end: Option<u32>,
    },
    /// A transfer that is answered.
    Transfer {
        /// Its direction.
        direction: Direction,
        /// The line that answers it.
        line: AnswerLine,
        /// Where the first strobe falls.
        start: u32,
        /// The start of the cycle to which it belongs.
        cycle: u32,
        /// Where that line falls.
        answer: u32,
        /// Where both strobes are high again.
        close: Option<u32>,
        /// The data of a write, where the version has them.
        lanes: Option<Lanes>,
    },
    /// A transfer that isn't answered at a listed instant.
    PendingTransfer {
        /// Where the first strobe falls.
        start: u32,
        /// Its direction.
        direction: Direction,
    },
    /// The verdict.
    Verdict(ListedVerdict),
}

impl Row {
    ghost use Rattle.vme_listing.specs.Recorded.{row_in, without_data};

    /// The row in a listing of the version: without its data, where the version doesn't have them.
    pub fn in_version(self, version: Version) -> Row
        ensures { result ≡ row_in version self }
    {
        if version.includes_data() {
            self
        } else {
            self.without_data()
        }
    }

    /// The row without the data of a write.
    fn without_data(self) -> Row
        ensures { result ≡ without_data self }
    {
        match self {
            Row::Transfer {
                start,
                cycle,
                direction,
                line,
                answer,
                close,
                lanes: _,
            } => Row::Transfer {
                start,
                cycle,
                direction,
                line,
                answer,
                close,
                lanes: None,
            },
            row => row,
        }
    }
}

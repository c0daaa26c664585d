//! The levels of a line.

ghost use Rattle.std.specs.Prelude.{◌≡◌};

/// What one signal shows at one instant. An active-low signal is asserted when it is low.
#[derive(Clone, Copy, Debug, Default, PartialEq, Eq)]
pub enum Level {
    /// Low.
    Low,
    /// High.
    High,
    /// Not known, or no level at all.
    #[default]
    Unknown,
}

impl Level {
    ghost use Rattle.vme_trace.specs.Levels.{is_low, is_high, is_known, same_level};

    /// Whether it is low.
    pub fn is_low(self) -> bool
        ensures { result ≡ is_low self }
    {
        matches!(self, Level::Low)
    }

    /// Whether it is high.
    pub fn is_high(self) -> bool
        ensures { result ≡ is_high self }
    {
        matches!(self, Level::High)
    }

    /// Whether it is low or high.
    pub fn is_known(self) -> bool
        ensures { result ≡ is_known self }
    {
        !matches!(self, Level::Unknown)
    }

    /// Whether the two levels are the same. Their variants are compared, in one comparison.
    #[tactic(auto, using(crate::proofs::SameLevel::sameb_is_same_level))]
    pub fn is_same(self, other: Level) -> bool
        ensures { result ≡ same_level self other }
    {
        self == other
    }
}

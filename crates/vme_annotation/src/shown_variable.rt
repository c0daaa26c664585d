//! The variables that are added to a dump.

ghost use Rattle.std.specs.Prelude.{◌≡◌, ◌≤◌};
ghost use Rattle.vme_annotation.specs.Annotated.{name_of, place_of};

/// A variable that is added to a dump.
#[derive(Clone, Copy, Debug, PartialEq, Eq)]
pub enum ShownVariable {
    /// The tenure of the bus.
    Tenure,
    /// The cycle.
    Cycle,
    /// The transfer, with its data.
    Transfer,
    /// The verdict, from the break on.
    Verdict,
}

impl ShownVariable {
    /// Its index among the variables.
    pub fn place(self) -> usize
        ensures place { result ≡ place_of self }
        ensures below { result ≤ 3 }
    {
        match self {
            ShownVariable::Tenure => 0,
            ShownVariable::Cycle => 1,
            ShownVariable::Transfer => 2,
            ShownVariable::Verdict => 3,
        }
    }

    /// Its name.
    pub fn name(self) -> &'static [u8]
        ensures { result.now ≡ name_of self }
    {
        match self {
            ShownVariable::Tenure => b"tenure",
            ShownVariable::Cycle => b"cycle",
            ShownVariable::Transfer => b"transfer",
            ShownVariable::Verdict => b"verdict",
        }
    }
}

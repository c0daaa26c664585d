//! What a dump says: its variables, and their values at its instants.

ghost use Rattle.std.specs.Prelude.{◌≡◌};
ghost use Rattle.vcd_read.specs.Contents.{TimesAscend};

use smallvec::SmallVec;
use std::marker::Model;

/// One of the four states of a bit (IEEE Std 1364-2005, 18.2.1).
#[derive(Clone, Copy, Debug, Default, PartialEq, Eq)]
pub enum Bit {
    /// Logic 0.
    Zero,
    /// Logic 1.
    One,
    /// Unknown, as every bit is before its first change.
    #[default]
    X,
    /// High impedance.
    Z,
}

/// The bits of a value, the most significant one first.
///
/// Up to 16 bits lie in the value itself and more in an allocation.
#[derive(Debug, Drop)]
pub struct Bits {
    bits: SmallVec<Bit, 16>,
}

impl Model for Bits {
    ghost use Rattle.std.specs.Prelude.{List};
    ghost use Rattle.vcd_read.specs.declared.dump.Bit.{Bit};

    ghost Value = { List Bit };

    ghost view = { λ b. b.bits.items };
}

impl Bits {
    /// These bits.
    pub fn from_small_vec(bits: SmallVec<Bit, 16>) -> Bits
        ensures { result ≡ bits.items }
    {
        Bits { bits }
    }

    /// The bits, the most significant one first.
    pub fn as_slice(&self) -> &[Bit]
        ensures { result.now ≡ self.now }
    {
        self.bits.as_slice()
    }

    /// Gives the bits back, and takes no memory.
    pub fn into_inner(self) -> SmallVec<Bit, 16>
        ensures { result.items ≡ self }
    {
        self.bits
    }
}

/// A net, and the bits that it has.
#[derive(Debug, Drop)]
pub struct Value {
    /// The number of the net, from 0 in the order of the codes' first declarations.
    pub net: u32,
    /// As many bits as the net's variables have.
    pub bits: Bits,
}

/// The values at one instant, one for each net that changed then, in the order of their nets.
#[derive(Debug, Drop)]
pub struct Values {
    values: Vec<Value>,
}

impl Model for Values {
    ghost use Rattle.std.specs.Prelude.{List};
    ghost use Rattle.vcd_read.specs.declared.dump.Value.{Value as NetValue};

    ghost Value = { List NetValue };

    ghost view = { λ v. v.values.items };
}

impl Values {
    /// These values.
    pub fn from_vec(values: Vec<Value>) -> Values
        ensures { result ≡ values.items }
    {
        Values { values }
    }

    /// The values, in the order of their nets.
    pub fn as_slice(&self) -> &[Value]
        ensures { result.now ≡ self.now }
    {
        &self.values
    }

    /// Gives the values back, and takes no memory.
    pub fn into_inner(self) -> Vec<Value>
        ensures { result.items ≡ self }
    {
        self.values
    }
}

/// The names of the scopes that a variable is in and its own name, joined by dots.
#[derive(Debug, Drop)]
pub struct Path {
    bytes: Vec<u8>,
}

impl Model for Path {
    ghost use Rattle.std.specs.Prelude.{List, ℕ};

    ghost Value = { List ℕ };

    ghost view = { λ p. p.bytes.items };
}

impl Path {
    /// The path that these bytes are.
    pub fn from_vec(bytes: Vec<u8>) -> Path
        ensures { result ≡ bytes.items }
    {
        Path { bytes }
    }

    /// The bytes of the path.
    pub fn as_bytes(&self) -> &[u8]
        ensures { result.now ≡ self.now }
    {
        &self.bytes
    }

    /// Gives the bytes back, and takes no memory.
    pub fn into_inner(self) -> Vec<u8>
        ensures { result.items ≡ self }
    {
        self.bytes
    }
}

/// A variable of the dump, as its `$var` section declares it.
#[derive(Debug, Drop)]
pub struct Variable {
    /// Its name with the scopes that it is in, without its index.
    pub path: Path,
    /// The indices of its leftmost and its rightmost bit; `[n]` is `[n:n]`.
    pub index: Option<(u32, u32)>,
    /// How many bits it has, from 0 to 65,536.
    pub size: u32,
    /// The net that it is a name of: variables with one code share their net.
    pub net: u32,
}

/// A time of the dump, and what changed at it.
#[derive(Debug, Drop)]
pub struct Instant {
    /// In the unit of the dump's `$timescale`.
    pub time: u64,
    /// The last value of each net that a change at this time names.
    pub values: Values,
}

/// A whole dump.
#[derive(Debug, Drop)]
pub struct Dump {
    variables: Vec<Variable>,
    instants: Vec<Instant>,
}

impl Model for Dump {
    ghost use Rattle.vcd_read.specs.Contents.{Contents, TimesAscend};

    ghost Value = { Contents };

    ghost view = { λ d. record { variables = d.variables.items; instants = d.instants.items } };

    ghost invariant = { λ d. TimesAscend d.instants.items };
}

impl Dump {
    /// The dump of these variables and these instants, whose times ascend.
    pub(crate) fn new(variables: Vec<Variable>, instants: Vec<Instant>) -> Dump
        requires { TimesAscend instants.items }
        ensures { result ≡ record { variables = variables.items; instants = instants.items } }
    {
        Dump {
            variables,
            instants,
        }
    }

    /// The variables, in the order of their declarations.
    pub fn variables(&self) -> &[Variable]
        ensures { result.now ≡ self.now.variables }
    {
        &self.variables
    }

    /// The instants, in the order of their times.
    pub fn instants(&self) -> &[Instant]
        ensures instants { result.now ≡ self.now.instants }
        ensures ascend { TimesAscend result.now }
    {
        &self.instants
    }
}

//! The memory of requests and grants, i.e. the state of the automaton of `Grant`.

ghost use Rattle.std.specs.Prelude.{◌≡◌};
ghost use Rattle.vme_chains.specs.GrantMemory.{arbitration_nth, arbitration_place, bit_of, is_in};
ghost use Rattle.vme_chains.specs.GrantMemory.{is_odd as is_odd_number, set_nth, set_place, union as union_of};

use vme_monitor::machine::{Enumerable, Small};

/// Some of the four levels of bus requests and grants.
#[derive(Clone, Copy, PartialEq, Eq, Debug)]
pub struct LevelSet {
    /// Whether level 0 is in the set.
    pub zero: bool,
    /// Whether level 1 is in the set.
    pub one: bool,
    /// Whether level 2 is in the set.
    pub two: bool,
    /// Whether level 3 is in the set.
    pub three: bool,
}

/// A truth value as a binary digit.
fn bit(flag: bool) -> usize
    ensures { result ≡ bit_of flag }
{
    if flag { 1 } else { 0 }
}

/// Whether the last binary digit of `k` is 1.
fn is_odd(k: usize) -> bool
    ensures { result ≡ is_odd_number k }
{
    k % 2 == 1
}

impl LevelSet {
    /// Whether a level is in the set.
    pub fn has(self, level: u8) -> bool
        ensures { result ≡ is_in self level }
    {
        match level {
            0 => self.zero,
            1 => self.one,
            2 => self.two,
            3 => self.three,
            _ => false,
        }
    }

    /// The levels of both sets.
    pub fn union(self, other: LevelSet) -> LevelSet
        ensures { result ≡ union_of self other }
    {
        LevelSet {
            zero: self.zero || other.zero,
            one: self.one || other.one,
            two: self.two || other.two,
            three: self.three || other.three,
        }
    }

    /// The number of the set: the truth values as the binary digits of a number below 16.
    fn place(self) -> usize
        ensures { result ≡ set_place self }
    {
        bit(self.zero) + 2 * (bit(self.one) + 2 * (bit(self.two) + 2 * bit(self.three)))
    }

    /// The set with the number `k`.
    fn nth(k: usize) -> LevelSet
        ensures { result ≡ set_nth k }
    {
        LevelSet {
            zero: is_odd(k),
            one: is_odd(k / 2),
            two: is_odd(k / 2 / 2),
            three: is_odd(k / 2 / 2 / 2),
        }
    }
}

/// The memory of requests and grants.
#[derive(Clone, Copy, PartialEq, Eq, Debug)]
pub struct Arbitration {
    /// The levels requested at some instant from the last grant on, its own instant included, or from the start.
    pub requests: LevelSet,
    /// Whether a grant came after the last fall of BBSY*, or after the start.
    pub granted: bool,
}

impl Enumerable for Arbitration {
    ghost use Rattle.vme_chains.specs.GrantMemory.{arbitration_found, arbitration_placed};

    ghost COUNT = { 32 };

    ghost place_of = { arbitration_place };

    ghost nth_of = { arbitration_nth };

    ghost placed = { arbitration_placed };

    ghost found = { arbitration_found };

    const COUNT: usize = 32;

    fn place(self) -> usize {
        bit(self.granted) + 2 * self.requests.place()
    }

    fn nth(k: usize) -> Arbitration {
        Arbitration {
            requests: LevelSet::nth(k / 2),
            granted: is_odd(k),
        }
    }
}

impl Small for Arbitration {
    ghost use Rattle.std.proofs.Common.{lit≤};

    ghost small = { lit≤ tt };
}

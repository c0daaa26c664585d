//! A visitor of the scopes and the variables of a header as they are declared.

use std::alloc::{AllocError, Global};

/// A variable as its section declares it, without the scopes that it is in.
#[derive(Clone, Copy)]
pub struct Declaration<'t> {
    /// Its own name, of at least one byte, without its index.
    pub name: &'t [u8],
    /// The indices of its leftmost and its rightmost bit; `[n]` is `[n:n]`.
    pub index: Option<(u32, u32)>,
    /// How many bits it has, from 0 to 65,536.
    pub size: u32,
    /// The net that it is a name of: variables with one code share their net.
    pub net: u32,
}

/// A visitor that takes the declarations of a header, in the order of the text. It knows which scopes are open, so that
/// a variable is given to it by its own name.
pub trait DeclarationVisitor: Drop {
    ghost use Rattle.std.specs.Prelude.{◌≡◌, ◌∷◌, ◌<◌, ℕ, [], List, length, MatchBool, OnOk};
    ghost use Rattle.vcd_read.specs.declared.dump.Variable.{Variable};
    ghost use Rattle.vcd_read.specs.Header.{variable_in};

    /// What a visitor can make of variables.
    ghost Taken: { Type 0 };

    /// What it made of those so far.
    ghost taken: { Self → Self.Taken };

    /// What it makes of one more variable.
    ghost with_variable: { Self.Taken → Variable → Self.Taken };

    /// The names of the open scopes, the innermost first.
    ghost scopes: { Self → List (List ℕ) };

    /// Opens a scope.
    fn open(&mut self, alloc: Global, name: &[u8]) -> Result<(), AllocError>
        ensures scopes { OnOk result (Self.scopes self.new ≡ name.now ∷ Self.scopes self.old) }
        ensures taken { OnOk result (Self.taken self.new ≡ Self.taken self.old) };

    /// Closes the innermost scope, if one is open.
    fn close(&mut self) -> bool
        ensures scopes { MatchBool result ((name : List ℕ) × (Self.scopes self.old ≡ name ∷ Self.scopes self.new))
            (Self.scopes self.old ≡ []) }
        ensures taken { Self.taken self.new ≡ Self.taken self.old };

    /// Takes a variable in the open scopes.
    fn declare(&mut self, alloc: Global, variable: Declaration<'_>) -> Result<(), AllocError>
        requires { 0 < length variable.name.now }
        ensures scopes { OnOk result (Self.scopes self.new ≡ Self.scopes self.old) }
        ensures taken { OnOk result (Self.taken self.new ≡ Self.with_variable (Self.taken self.old)
            (variable_in (Self.scopes self.old) variable.entry.net variable.entry.size
            (record { name = variable.entry.name.now; index = variable.entry.index }))) };
}

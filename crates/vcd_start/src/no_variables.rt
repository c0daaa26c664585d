//! A visitor of a header that takes no variable.

ghost use Rattle.std.specs.Prelude.{◌≡◌, []};

use std::alloc::{AllocError, Global};
use vcd_read::{Declaration, DeclarationVisitor, Scopes};

/// A visitor of a header that takes no variable, and keeps its open scopes alone.
#[derive(Drop)]
pub(crate) struct NoVariables {
    open: Scopes,
}

impl NoVariables {
    /// No open scope.
    pub fn new(alloc: Global) -> NoVariables
        ensures { ⟦<NoVariables as DeclarationVisitor>⟧.scopes result ≡ [] }
    {
        NoVariables {
            open: Scopes::new(alloc),
        }
    }
}

impl DeclarationVisitor for NoVariables {
    ghost Taken = { Unit {0} };

    ghost taken = { λ v. tt };

    ghost with_variable = { λ taken variable. taken };

    ghost scopes = { λ v. v.open };

    fn open(&mut self, alloc: Global, name: &[u8]) -> Result<(), AllocError> {
        self.open.open(alloc, name)
    }

    fn close(&mut self) -> bool {
        self.open.close()
    }

    fn declare(&mut self, alloc: Global, variable: Declaration<'_>) -> Result<(), AllocError> {
        let _ = (alloc, variable.size);
        Ok(())
    }
}

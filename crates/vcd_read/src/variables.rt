//! The variables of a header, each with its whole path.

ghost use Rattle.std.specs.Prelude.{◌≡◌, [], IfOk};

use crate::declaration_visitor::{Declaration, DeclarationVisitor};
use crate::dump::{Path, Variable};
use crate::scopes::Scopes;
use std::alloc::{AllocError, Global};

/// A visitor that takes all variables of a header, each with its whole path.
#[derive(Drop)]
pub struct Variables {
    scopes: Scopes,
    /// In the order of their sections.
    variables: Vec<Variable>,
}

impl Variables {
    /// No variable yet, and no open scope.
    pub fn new(alloc: Global) -> Variables
        ensures scopes { ⟦<Variables as DeclarationVisitor>⟧.scopes result ≡ [] }
        ensures taken { ⟦<Variables as DeclarationVisitor>⟧.taken result ≡ [] }
    {
        Variables {
            scopes: Scopes::new(alloc),
            variables: Vec::new(alloc),
        }
    }

    /// The variables, in the order of their sections.
    pub fn as_slice(&self) -> &[Variable]
        ensures { result.now ≡ ⟦<Variables as DeclarationVisitor>⟧.taken self.now }
    {
        self.variables.as_slice()
    }

    /// The variables, in the order of their sections, moved out.
    pub fn into_vec(self) -> Vec<Variable>
        ensures { result.items ≡ ⟦<Variables as DeclarationVisitor>⟧.taken self }
    {
        self.variables
    }
}

impl DeclarationVisitor for Variables {
    ghost use Rattle.std.specs.Prelude.{List};
    ghost use Rattle.vcd_read.specs.declared.dump.Variable.{Variable as Declared};
    ghost use Rattle.vcd_read.specs.Header.{appended};

    ghost Taken = { List Declared };

    ghost taken = { λ v. v.variables.items };

    ghost with_variable = { appended };

    ghost scopes = { λ v. v.scopes };

    fn open(&mut self, alloc: Global, name: &[u8]) -> Result<(), AllocError> {
        self.scopes.open(alloc, name)
    }

    fn close(&mut self) -> bool {
        self.scopes.close()
    }

    fn declare(&mut self, alloc: Global, variable: Declaration<'_>) -> Result<(), AllocError> {
        let path = self.scopes.path_of(alloc, variable.name)?;
        self.variables.push(Variable {
            path: Path::from_vec(path),
            index: variable.index,
            size: variable.size,
            net: variable.net,
        })?;
        Ok(())
    }
}

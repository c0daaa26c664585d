//! Whether a dump has a scope.

ghost use Rattle.std.specs.Prelude.{◌≡◌, ◌++◌, IfOk, nat_eq};
ghost use Rattle.std.specs.List.{starts_with};
ghost use Rattle.vme_declarations.specs.Scopes.{has_scope};

use crate::scope_paths::dotted_path;
use crate::survey::SurveyedDump;
use std::alloc::{AllocError, Global};
use vcd_read::{Declaration, DeclarationVisitor, Scopes, read_definitions};

/// A visitor that looks for a variable in a scope, or in a scope within it.
#[derive(Drop)]
struct ScopeSearch {
    /// The open scopes.
    open: Scopes,
    /// What the path of such a variable begins with.
    front: Vec<u8>,
    /// Whether such a variable was found.
    is_found: bool,
}

/// Whether `outer` followed by `inner` begins with `front`.
fn begin_with(outer: &[u8], inner: &[u8], front: &[u8]) -> bool
    ensures { result ≡ starts_with nat_eq (outer.now ++ inner.now) front.now }
{
    if front.len() <= outer.len() {
        outer.starts_with(front)
    } else {
        let (first, second) = front.split_at(outer.len());
        outer == first && inner.starts_with(second)
    }
}

impl DeclarationVisitor for ScopeSearch {
    ghost use Rattle.vme_declarations.specs.Scopes.{ScopeSought, sought_in};

    ghost Taken = { ScopeSought };

    ghost taken = { λ s. record { front = s.front.items; is_found = s.is_found } };

    ghost with_variable = { sought_in };

    ghost scopes = { λ s. s.open };

    fn open(&mut self, alloc: Global, name: &[u8]) -> Result<(), AllocError> {
        self.open.open(alloc, name)
    }

    fn close(&mut self) -> bool {
        self.open.close()
    }

    fn declare(&mut self, alloc: Global, variable: Declaration<'_>) -> Result<(), AllocError> {
        let _ = alloc;
        self.is_found = self.is_found || begin_with(self.open.path(), variable.name, &self.front);
        Ok(())
    }
}

/// Whether `dump` has a variable in the scope `path`, or in a scope within it. The only error is want of memory.
pub fn has_scope(alloc: Global, dump: &SurveyedDump, path: &[u8]) -> Result<bool, AllocError>
    ensures { IfOk result (λ has. has ≡ has_scope path.now dump.now.variables) }
{
    let search = ScopeSearch {
        open: Scopes::new(alloc),
        front: dotted_path(alloc, path)?,
        is_found: false,
    };
    match read_definitions(alloc, dump.front(), search) {
        Ok((_, search)) => Ok(search.is_found),
        Err(_) => Err(AllocError),
    }
}

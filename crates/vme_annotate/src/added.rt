//! The codes and the scope of the variables that are added to a dump.

ghost use Rattle.std.specs.Prelude.{◌≡◌, ◌==◌, ◌<◌, ℕ, [], List, IfOk, MatchOption, Ok, bytes_eq, get_or, length, map};
ghost use Rattle.std.specs.Prelude.{not};
ghost use Rattle.std.specs.List.{list_any, slice_split};
ghost use Rattle.vcd_read.specs.Header.{appended, nothing_declared};
ghost use Rattle.vcd_read.specs.Sections.{Defined, header_of};
ghost use Rattle.vcd_read.specs.Tokens.{tokens};
ghost use Rattle.vcd_read.specs.declared.dump.Variable.{Variable};
ghost use Rattle.vme_annotation.specs.Fresh.{IsFreeScope, has_part, scope_name};
ghost use Rattle.vme_annotate.specs.Added.{IsBeside, IsFreeIn};

use std::alloc::{AllocError, Global};
use std::marker::Model;
use vcd_places::{definitions_end, unused_codes};
use vcd_read::{Variable, Variables, read_definitions};
use vme_stream::Refusal;

/// The name of a scope of added variables, before its underscores.
const SCOPE: &[u8] = b"vmecheck";

/// How many variables are added.
const COUNT: usize = 4;

/// The codes and the scope of the variables that are added.
#[derive(Drop)]
pub(crate) struct AddedVariables {
    scope: Vec<u8>,
    codes: Vec<Vec<u8>>,
}

impl Model for AddedVariables {
    ghost use Rattle.std.specs.Prelude.{◌≡◌, length, map};
    ghost use Rattle.vme_annotate.specs.Added.{Added, bytes_of};

    ghost Value = { Added };

    ghost view = { λ a. record { scope = a.scope.items; own = map bytes_of a.codes.items } };

    ghost invariant = { λ a. length a.codes.items ≡ 4 };
}

impl AddedVariables {
    /// The name of the scope.
    pub fn scope(&self) -> &[u8]
        ensures { result.now ≡ self.now.scope }
    {
        &self.scope
    }

    /// The code of the variable at a place.
    pub fn code(&self, place: usize) -> &[u8]
        requires { place < 4 }
        ensures { result.now ≡ get_or self.now.own place [] }
    {
        self.codes[place].as_slice()
    }
}

/// The number of underscores in `name`, if it is `vmecheck` followed by underscores alone.
fn underscores_of(name: &[u8]) -> Option<usize> {
    let rest = name.strip_prefix(SCOPE)?;
    if rest.iter().all(|byte| *byte == b'_') {
        Some(rest.len())
    } else {
        None
    }
}

/// The greater of `least` and one more than the most underscores in a name in `path` that is `vmecheck` and underscores
/// alone.
fn underscores_above(least: usize, path: &[u8]) -> usize {
    let mut free = least;
    for name in path.split(|byte| *byte == b'.') {
        if let Some(count) = underscores_of(name) {
            free = free.max(count.saturating_add(1));
        }
    }
    free
}

/// One more than the most underscores in a name in a variable's path that is `vmecheck` and underscores alone, or 0 if
/// there is no such name.
fn free_underscores(variables: &[Variable]) -> usize {
    let mut free = 0;
    for variable in variables {
        free = underscores_above(free, variable.path.as_bytes());
    }
    free
}

/// Whether `name` is one of the names in `path`, which are joined by dots.
fn has_part(path: &[u8], name: &[u8]) -> bool
    ensures { result ≡ list_any (λ part. bytes_eq part name.now) (slice_split (λ b. b == 46) path.now) }
{
    path.split(|byte| *byte == b'.').any(|part| part == name)
}

/// Whether no variable has `name` in its path.
fn lack_part(variables: &[Variable], name: &[u8]) -> bool
    ensures { result ≡ not (list_any (has_part name.now) variables.now) }
{
    for variable in variables {
        if has_part(variable.path.as_bytes(), name) {
            return false;
        }
    }
    true
}

/// `vmecheck` followed by this many underscores.
fn scope_of(alloc: Global, underscores: usize) -> Result<Vec<u8>, AllocError>
    ensures { IfOk result (λ scope. scope.items ≡ scope_name underscores) }
{
    let mut scope = Vec::from_slice(alloc, SCOPE)?;
    let end = scope.len().checked_add(underscores).ok_or(AllocError)?;
    scope.resize(end, b'_')?;
    Ok(scope)
}

/// The scope and the codes to add to a dump whose definitions have no fault. The only refusal is want of memory.
pub(crate) fn added_to(alloc: Global, dump: &[u8]) -> Result<AddedVariables, Refusal>
    requires { (d : Defined (List Variable))
        × (header_of appended dump.now (nothing_declared []) (tokens dump.now) ≡ Ok d) }
    ensures { IsFreeIn dump.now result }
{
    let Ok((_, variables)) = read_definitions(alloc, dump, Variables::new(alloc)) else {
        return Err(Refusal::Memory);
    };
    match added_beside(alloc, dump, variables.as_slice()) {
        Ok(added) => Ok(added),
        Err(_) => Err(Refusal::Memory),
    }
}

/// The scope and the codes to add to `dump`, whose variables these are.
fn added_beside(
    alloc: Global,
    dump: &[u8],
    variables: &[Variable],
) -> Result<AddedVariables, AllocError>
    ensures { IfOk result (λ added. IsBeside dump.now variables.now added) }
{
    let Some((section, _)) = definitions_end(dump) else {
        return Err(AllocError);
    };
    Ok(AddedVariables {
        scope: free_scope(alloc, variables)?,
        codes: unused_codes(alloc, &dump[..section.start], COUNT)?,
    })
}

/// The name of a scope that no variable of a dump has in its path.
fn free_scope(alloc: Global, variables: &[Variable]) -> Result<Vec<u8>, AllocError>
    ensures { IfOk result (λ scope. (underscores : ℕ) × IsFreeScope variables.now underscores
        × (scope.items ≡ scope_name underscores)) }
{
    let scope = scope_of(alloc, free_underscores(variables))?;
    if lack_part(variables, &scope) {
        Ok(scope)
    } else {
        Err(AllocError)
    }
}

//! The scopes that a path leads through.

ghost use Rattle.std.specs.Prelude.{◌≡◌, IfOk};
ghost use Rattle.vcd_read.specs.Scopes.{with_dot};
ghost use Rattle.vme_declarations.specs.Paths.{offset_after_name, offset_after_scope, offsets_after_scopes};
ghost use Rattle.vme_declarations.specs.Paths.{scopes_have_path};

use crate::declared::{DeclaredNames, NOWHERE, Scope};
use std::alloc::{AllocError, Global};

/// What the paths of the variables in the scope `path` begin with: `path` and a dot, or nothing where `path` is empty.
/// It fails if memory runs out.
pub fn dotted_path(alloc: Global, path: &[u8]) -> Result<Vec<u8>, AllocError>
    ensures { IfOk result (λ front. front.items ≡ with_dot path.now) }
{
    let mut front = Vec::new(alloc);
    if !path.is_empty() {
        front.extend_from_slice(path)?;
        front.push(b'.')?;
    }
    Ok(front)
}

/// The offset in `path` after `name` and a dot, if these begin at the offset `start`; else `NOWHERE`.
fn offset_after_name(path: &[u8], start: usize, name: &[u8]) -> usize
    ensures { result ≡ offset_after_name path.now start name.now }
{
    let Some(rest) = path.get(start..) else {
        return NOWHERE;
    };
    match rest.get(name.len()) {
        Some(b'.') if rest.starts_with(name) => start + name.len() + 1,
        _ => NOWHERE,
    }
}

/// The offset in `path` after the path of `scope` and a dot, or `NOWHERE`. For the first scope it is 0. `offsets` has
/// the offsets of the scopes before it.
fn offset_after_scope(
    declared: &DeclaredNames,
    path: &[u8],
    offsets: &[usize],
    scope: &Scope,
) -> usize
    ensures { result ≡ offset_after_scope declared.now path.now offsets.now scope.now }
{
    if scope.parent == NOWHERE {
        return 0;
    }
    match offsets.get(scope.parent) {
        Some(start) => offset_after_name(path, *start, declared.scope_name(scope)),
        None => NOWHERE,
    }
}

/// For each scope, the offset in `path` after the scope's own path and a dot, if `path` begins with these; else
/// `NOWHERE`.
pub fn offsets_after_scopes(
    alloc: Global,
    declared: &DeclaredNames,
    path: &[u8],
) -> Result<Vec<usize>, AllocError>
    ensures { IfOk result (λ offsets. offsets.items ≡ offsets_after_scopes declared.now path.now) }
{
    let mut offsets: Vec<usize> = Vec::new(alloc);
    let scopes = declared.scopes();
    for scope in scopes {
        offsets.push(offset_after_scope(declared, path, &offsets, scope))?;
    }
    Ok(offsets)
}

/// For each scope, whether its path is `path`. It fails if memory runs out.
pub fn scopes_have_path(
    alloc: Global,
    declared: &DeclaredNames,
    path: &[u8],
) -> Result<Vec<bool>, AllocError>
    ensures { IfOk result (λ found. found.items ≡ scopes_have_path declared.now path.now) }
{
    let dotted = dotted_path(alloc, path)?;
    let offsets = offsets_after_scopes(alloc, declared, &dotted)?;
    let length = dotted.len();
    offsets.iter().map(|count| *count == length).collect(alloc)
}

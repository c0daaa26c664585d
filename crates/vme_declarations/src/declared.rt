//! The scopes and the variables of a dump, without whole paths: their memory is in proportion to the text.

ghost use Rattle.std.specs.Prelude.{◌≡◌, [], ◌++◌, IfOk, OnOk, length};
ghost use Rattle.vcd_read.specs.Scopes.{with_dot};
ghost use Rattle.vme_declarations.specs.Names.{name_at, name_of, number_of_bit, parent_of, part_of, path_of};
ghost use Rattle.vme_declarations.specs.Names.{places_around, scope_name, scopes, variables};

use crate::hash::{EMPTY_HASH, hash_of, hash_of_number};
use std::alloc::{AllocError, Global};
use vcd_read::{Declaration, DeclarationVisitor, Scopes};

/// A variable whose name has more bytes is left out.
const LONGEST_NAME: usize = 64;

/// No place.
pub const NOWHERE: usize = usize::MAX;

/// A scope. The first scope is around all others, and has no name.
#[derive(Clone, Copy)]
pub struct Scope {
    /// The place of the scope around this one, or `NOWHERE`.
    pub parent: usize,
    /// The number of scopes with a name from the outermost to this one, which counts too; 0 for the first scope.
    pub depth: usize,
    /// Where its name begins in `DeclaredNames::names`.
    start: usize,
    /// Where its name ends.
    end: usize,
    /// The place of its first variable, or `NOWHERE`.
    pub first: usize,
    /// The place of its last variable, or `NOWHERE`.
    last: usize,
    /// The next scope in the same bucket, or `NOWHERE`.
    next: usize,
}

/// A variable as it is declared.
#[derive(Clone, Copy)]
pub struct DeclaredVariable {
    /// The place of the scope that it is declared in.
    pub scope: usize,
    /// Where its name begins in `DeclaredNames::names`.
    start: usize,
    /// Where its name ends.
    end: usize,
    /// The indices of its leftmost and its rightmost bit.
    pub index: Option<(u32, u32)>,
    /// How many bits it has.
    pub size: u32,
    /// The net that it is a name of: one for all variables of one identifier code.
    pub net: u32,
    /// The next variable of the same scope, or `NOWHERE`.
    pub next: usize,
}

/// A visitor that takes the scopes and the variables of a header.
#[derive(Drop)]
pub(crate) struct NamesReader {
    open: Scopes,
    names: DeclaredNames,
}

/// The scopes and the variables so far. Scopes with the same name in the same scope are one scope.
#[derive(Drop)]
pub struct DeclaredNames {
    /// The places of the open scopes, from the outermost.
    places: Vec<usize>,
    names: Vec<u8>,
    scopes: Vec<Scope>,
    variables: Vec<DeclaredVariable>,
    /// A hash table of the scopes, by the scope around them and their name: the place of the scope that was added last
    /// to each bucket, or `NOWHERE`.
    buckets: Vec<usize>,
}

/// The hash of a name in a scope.
fn hash_in(parent: usize, name: &[u8]) -> u64 {
    hash_of(hash_of_number(EMPTY_HASH, parent as u64), name)
}

impl DeclaredVariable {
    /// The number that the variable gives its bit at this place from the left: by its indices, or where it has none, as
    /// if the rightmost bit were 0.
    pub fn number_of_bit(&self, place: u32) -> u32
        ensures { result ≡ number_of_bit self.now place }
    {
        match self.index {
            Some((left, right)) if left >= right => left.saturating_sub(place),
            Some((left, _)) => left.saturating_add(place),
            None => self.size.saturating_sub(place).saturating_sub(1),
        }
    }
}

impl DeclaredNames {
    /// The scope around all others, and no variable.
    fn new(alloc: Global) -> Result<DeclaredNames, AllocError> {
        let mut scopes = Vec::new(alloc);
        scopes.push(Scope {
            parent: NOWHERE,
            depth: 0,
            start: 0,
            end: 0,
            first: NOWHERE,
            last: NOWHERE,
            next: NOWHERE,
        })?;
        let mut buckets = Vec::new(alloc);
        buckets.resize(64, NOWHERE)?;
        Ok(DeclaredNames {
            places: Vec::new(alloc),
            names: Vec::new(alloc),
            scopes,
            variables: Vec::new(alloc),
            buckets,
        })
    }
}

impl DeclaredNames {
    /// The variables, in the order of their sections.
    pub fn variables(&self) -> &[DeclaredVariable]
        ensures { result.now ≡ variables self.now }
    {
        &self.variables
    }

    /// The scopes. Each scope is after the scope around it.
    pub fn scopes(&self) -> &[Scope]
        ensures { result.now ≡ scopes self.now }
    {
        &self.scopes
    }

    /// The name of a variable, without its index.
    pub fn name_of(&self, variable: &DeclaredVariable) -> &[u8]
        ensures { result.now ≡ name_of self.now variable.now }
    {
        part_of(&self.names, variable.start, variable.end)
    }

    /// The name of a scope.
    pub fn scope_name(&self, scope: &Scope) -> &[u8]
        ensures { result.now ≡ scope_name self.now scope.now }
    {
        part_of(&self.names, scope.start, scope.end)
    }

    /// The place of the scope around the scope at `place`, or `NOWHERE`.
    fn parent_of(&self, place: usize) -> usize
        ensures { result ≡ parent_of self.now place }
    {
        match self.scopes.get(place) {
            Some(scope) => scope.parent,
            None => NOWHERE,
        }
    }

    /// The name of the scope at a place, if there is one.
    fn name_at(&self, place: usize) -> &[u8]
        ensures { result.now ≡ name_at self.now place }
    {
        match self.scopes.get(place) {
            Some(scope) => self.scope_name(scope),
            None => b"",
        }
    }

    /// The places of the scope at `place` and of the scopes around it, except the outermost, from the innermost
    /// outward.
    fn places_around(&self, alloc: Global, place: usize) -> Result<Vec<usize>, AllocError>
        ensures { IfOk result (λ around. around.items ≡ places_around self.now (length (scopes self.now)) place) }
    {
        let mut around: Vec<usize> = Vec::new(alloc);
        let mut at = place;
        for passed in 0..self.scopes().len() {
            let _ = passed;
            let parent = self.parent_of(at);
            if parent == NOWHERE {
                return Ok(around);
            }
            around.push(at)?;
            at = parent;
        }
        Ok(around)
    }

    /// The names of a scope and of those around it, joined by dots. It fails if memory runs out.
    pub fn path_of(&self, alloc: Global, place: usize) -> Result<Vec<u8>, AllocError>
        ensures { IfOk result (λ path. path.items ≡ path_of self.now place) }
    {
        let mut around = self.places_around(alloc, place)?;
        around.reverse();
        let mut path = Vec::new(alloc);
        for at in &around {
            push_name(&mut path, self.name_at(*at))?;
        }
        Ok(path)
    }

    /// The bucket of a hash.
    fn bucket(&self, hash: u64) -> usize {
        match (self.buckets.len() as u64).checked_sub(1) {
            Some(mask) => (hash & mask) as usize,
            None => 0,
        }
    }

    /// The place of the scope `name` in the scope at `parent`, if it was met before.
    fn known(&self, parent: usize, name: &[u8]) -> Option<usize> {
        let bucket = self.bucket(hash_in(parent, name));
        let mut at = self.buckets.get(bucket).copied().unwrap_or(NOWHERE);
        for _ in 0..self.scopes.len() {
            let scope = self.scopes.get(at)?;
            if scope.parent == parent && self.scope_name(scope) == name {
                return Some(at);
            }
            at = scope.next;
        }
        None
    }

    /// Puts a scope into the bucket of its hash.
    fn link_scope(&mut self, place: usize) {
        let Some(scope) = self.scopes.get(place).copied() else {
            return;
        };
        let bucket = self.bucket(hash_in(scope.parent, self.scope_name(&scope)));
        if let Some(head) = self.buckets.get_mut(bucket) {
            let next = *head;
            *head = place;
            if let Some(scope) = self.scopes.get_mut(place) {
                scope.next = next;
            }
        }
    }

    /// Makes twice as many buckets.
    fn double_buckets(&mut self) -> Result<(), AllocError> {
        let count = self.buckets.len().saturating_mul(2);
        self.buckets.clear();
        self.buckets.resize(count, NOWHERE)?;
        for place in 1..self.scopes.len() {
            self.link_scope(place);
        }
        Ok(())
    }

    /// The place of the innermost open scope.
    fn innermost(&self) -> usize {
        self.places.last().copied().unwrap_or(0)
    }

    /// The place of the scope `name` in the innermost open scope, which is added if it isn't there. For an empty name
    /// it is the place of the innermost open scope itself.
    fn place_in(&mut self, name: &[u8]) -> Result<usize, AllocError> {
        let parent = self.innermost();
        if name.is_empty() {
            return Ok(parent);
        }
        if let Some(place) = self.known(parent, name) {
            return Ok(place);
        }
        let depth = self.scopes.get(parent).map_or(0, |scope| scope.depth);
        let start = self.names.len();
        self.names.extend_from_slice(name)?;
        let place = self.scopes.len();
        self.scopes.push(Scope {
            parent,
            depth: depth.saturating_add(1),
            start,
            end: self.names.len(),
            first: NOWHERE,
            last: NOWHERE,
            next: NOWHERE,
        })?;
        if place > self.buckets.len() {
            self.double_buckets()?;
        } else {
            self.link_scope(place);
        }
        Ok(place)
    }

    /// Opens a scope.
    fn open(&mut self, name: &[u8]) -> Result<(), AllocError> {
        let place = self.place_in(name)?;
        self.places.push(place)?;
        Ok(())
    }

    /// Closes the innermost scope, if one is open.
    fn close(&mut self) {
        let _ = self.places.pop();
    }

    /// Adds a variable after the others of its scope.
    fn keep(&mut self, variable: Declaration<'_>) -> Result<(), AllocError> {
        let scope = self.innermost();
        let start = self.names.len();
        self.names.extend_from_slice(variable.name)?;
        let place = self.variables.len();
        self.variables.push(DeclaredVariable {
            scope,
            start,
            end: self.names.len(),
            index: variable.index,
            size: variable.size,
            net: variable.net,
            next: NOWHERE,
        })?;
        let Some(around) = self.scopes.get_mut(scope) else {
            return Ok(());
        };
        let last = around.last;
        around.last = place;
        if around.first == NOWHERE {
            around.first = place;
        }
        if let Some(before) = self.variables.get_mut(last) {
            before.next = place;
        }
        Ok(())
    }
}

/// The part of `text` from `start` to `end`, or nothing where there is no such part.
fn part_of(text: &[u8], start: usize, end: usize) -> &[u8]
    ensures { result.now ≡ part_of text.now start end }
{
    if start <= end && end <= text.len() {
        &text[start..end]
    } else {
        b""
    }
}

/// Adds `name` to `path`, after a dot if `path` isn't empty.
fn push_name(path: &mut Vec<u8>, name: &[u8]) -> Result<(), AllocError>
    ensures { OnOk result (path.new.items ≡ with_dot path.old.items ++ name.now) }
{
    if !path.is_empty() {
        path.push(b'.')?;
    }
    path.extend_from_slice(name)
}

impl NamesReader {
    /// No scope is open, and no variable is declared.
    pub(crate) fn new(alloc: Global) -> Result<NamesReader, AllocError>
        ensures { IfOk result (λ reader. ⟦<NamesReader as DeclarationVisitor>⟧.scopes reader ≡ []) }
    {
        let names = DeclaredNames::new(alloc)?;
        Ok(NamesReader {
            open: Scopes::new(alloc),
            names,
        })
    }

    /// The scopes and the variables.
    pub(crate) fn into_names(self) -> DeclaredNames {
        self.names
    }
}

impl DeclarationVisitor for NamesReader {
    ghost Taken = { Unit {0} };

    ghost taken = { λ d. tt };

    ghost with_variable = { λ none variable. none };

    ghost scopes = { λ d. d.open };

    fn open(&mut self, alloc: Global, name: &[u8]) -> Result<(), AllocError> {
        self.names.open(name)?;
        self.open.open(alloc, name)
    }

    fn close(&mut self) -> bool {
        self.names.close();
        self.open.close()
    }

    fn declare(&mut self, alloc: Global, variable: Declaration<'_>) -> Result<(), AllocError> {
        let _ = alloc;
        if variable.name.len() <= LONGEST_NAME {
            self.names.keep(variable)?;
        }
        Ok(())
    }
}

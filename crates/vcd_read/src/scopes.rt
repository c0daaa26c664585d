//! The scopes that are open.

ghost use Rattle.std.specs.Prelude.{◌≡◌, ℕ, ◌<◌, List, [], ◌∷◌, length, OnOk, OnErr, IfOk, MatchBool};
ghost use Rattle.vcd_read.specs.Header.{path_of};
ghost use Rattle.vcd_read.specs.Scopes.{path_in, with_dot};

use std::alloc::{AllocError, Global};
use std::marker::Model;

/// The names of the open scopes, as one text that grows and shrinks at its end.
#[derive(Drop)]
pub struct Scopes {
    /// The names that aren't empty, from the outermost, each with a dot after it.
    path: Vec<u8>,
    /// For each open scope, the length of the path before it.
    starts: Vec<usize>,
}

impl Model for Scopes {
    ghost use Rattle.std.specs.Prelude.{List, ℕ, reverse};
    ghost use Rattle.vcd_read.specs.Scopes.{names_at, IsLaidOut};

    ghost Value = { List (List ℕ) };

    ghost view = { λ s. names_at s.path.items (reverse s.starts.items) };

    ghost invariant = { λ s. IsLaidOut s.path.items (reverse s.starts.items) };
}

impl Scopes {
    /// No open scope.
    pub fn new(alloc: Global) -> Scopes
        ensures { result ≡ [] }
    {
        Scopes {
            path: Vec::new(alloc),
            starts: Vec::new(alloc),
        }
    }

    /// Opens a scope of this name, which may be empty. Where memory runs out, the same scopes are open as before.
    pub fn open(&mut self, alloc: Global, name: &[u8]) -> Result<(), AllocError>
        ensures ok { OnOk result (self.new ≡ name.now ∷ self.old) }
        ensures err { OnErr result (self.new ≡ self.old) }
    {
        let part = with_dot(alloc, name)?;
        let start = self.path.len();
        self.starts.reserve(1)?;
        self.path.extend_from_slice(&part)?;
        self.starts.push_reserved(start);
        Ok(())
    }

    /// Closes the innermost scope, if one is open.
    pub fn close(&mut self) -> bool
        ensures { MatchBool result ((name : List ℕ) × (self.old ≡ name ∷ self.new))
            ((self.old ≡ []) × (self.new ≡ [])) }
    {
        match self.starts.pop() {
            Some(start) => {
                self.path.truncate(start);
                true
            }
            None => false,
        }
    }

    /// How many scopes are open.
    pub fn depth(&self) -> usize
        ensures { result ≡ length self.now }
    {
        self.starts.len()
    }

    /// What is before the name of a variable in its path: the names that aren't empty, from the outermost, each
    /// with a dot after it.
    pub fn path(&self) -> &[u8]
        ensures { result.now ≡ path_in self.now }
    {
        &self.path
    }

    /// The path of a name in the open scopes. It fails if memory runs out.
    pub fn path_of(&self, alloc: Global, name: &[u8]) -> Result<Vec<u8>, AllocError>
        requires { 0 < length name.now }
        ensures { IfOk result (λ path. path.items ≡ path_of self.now name.now) }
    {
        let mut path = Vec::with_capacity(alloc, self.path.len() + name.len())?;
        path.extend_from_slice(&self.path)?;
        path.extend_from_slice(name)?;
        Ok(path)
    }
}

/// The part that a scope of this name adds to the path: the name and a dot, or nothing if the name is empty.
fn with_dot(alloc: Global, name: &[u8]) -> Result<Vec<u8>, AllocError>
    ensures { IfOk result (λ part. part.items ≡ with_dot name.now) }
{
    let mut part = Vec::new(alloc);
    if !name.is_empty() {
        part.extend_from_slice(name)?;
        part.push(b'.')?;
    }
    Ok(part)
}

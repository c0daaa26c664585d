//! The search for the variables that a binding names, as the definitions of a dump are read. It has one `PathSearch`
//! for each assignment of the binding's text.

ghost use Rattle.std.specs.Prelude.{◌≡◌, ◌<◌, ◌+◌, ◌^◌, ℕ, [], List, IfOk, length, map};
ghost use Rattle.std.specs.List.{All};
ghost use Rattle.vcd_read.specs.Header.{variable_in};
ghost use Rattle.vme_bind.specs.Answers.{BindGives};
ghost use Rattle.vme_bind.specs.PathSearch.{HasOpened, closed, opened, found_in, none_found, with_candidate};
ghost use Rattle.vme_bind.specs.PathSearch.{bound_groups_of};

use crate::assignment::Assignment;
use crate::bound_groups::BoundGroup;
use crate::fault::BindFault;
use crate::path_search::{PathSearch, rest_of};
use std::alloc::{AllocError, Global};
use vcd_read::{Declaration, DeclarationVisitor, Scopes};

/// The variables that a binding names, as far as they are found. Nothing else of the dump's variables is kept.
#[derive(Drop)]
pub(crate) struct Search<'b> {
    /// One for each assignment, in the order of the binding's text.
    searches: Vec<PathSearch<'b>>,
    /// The scopes that are open.
    scopes: Scopes,
    ghost matched_scopes: { All (HasOpened scopes) searches.items },
}

/// Enters a scope in each search, with `depth` scopes open around it. `part` is what the scope adds to the path of the
/// scopes, from the offset `start` on.
fn open_all(searches: &mut [PathSearch<'_>], depth: usize, start: usize, part: &[u8])
    requires { depth + 1 < 2 ^ 64 }
    ensures { searches.new ≡ map (opened depth start part.now) searches.old }
{
    for s in searches.iter_mut() {
        s.open(depth, start, part);
    }
}

/// Closes the innermost scope in each search, which leaves `depth` scopes open.
fn close_all(searches: &mut [PathSearch<'_>], depth: usize)
    ensures { searches.new ≡ map (closed depth) searches.old }
{
    for s in searches.iter_mut() {
        s.close(depth);
    }
}

/// Shows each search a variable that is declared in `scopes`.
fn visit_all(searches: &mut [PathSearch<'_>], scopes: &Scopes, variable: Declaration<'_>)
    requires matched_scopes { All (HasOpened scopes.now) searches.old }
    requires name { 0 < length variable.name.now }
    ensures matched_scopes { All (HasOpened scopes.now) searches.new }
    ensures seen { map found_in searches.new ≡ map (with_candidate
        (variable_in scopes.now variable.entry.net variable.entry.size
        (record { name = variable.entry.name.now; index = variable.entry.index }))) (map found_in searches.old) }
{
    for s in searches.iter_mut() {
        s.visit(scopes, variable);
    }
}

impl<'b> Search<'b> {
    /// The search before the first definition. It fails if memory runs out.
    pub fn new(alloc: Global, assignments: &'b [Assignment]) -> Result<Search<'b>, AllocError>
        ensures scopes { IfOk result (λ s. s.scopes ≡ []) }
        ensures seen { IfOk result (λ s. map found_in s.searches.items ≡ map none_found assignments.now) }
    {
        let mut searches = Vec::with_capacity(alloc, assignments.len())?;
        for assignment in assignments {
            searches.push_reserved(PathSearch::new(assignment));
        }
        Ok(Search {
            searches,
            scopes: Scopes::new(alloc),
        })
    }

    /// The lines of each assignment with the bits or the constant that gives their levels. Else the first fault: the
    /// path of an assignment means no variable, several different ones, or not as many bits as it has lines; or memory
    /// ran out.
    pub fn bound_groups(&self, alloc: Global) -> Result<Vec<BoundGroup>, BindFault>
        ensures { BindGives (λ bound_groups. bound_groups.items) result
            (bound_groups_of (map found_in self.now.searches.items)) }
    {
        let mut bound_groups = Vec::with_capacity(alloc, self.searches.len())?;
        for path_search in &self.searches {
            match path_search.bound_group() {
                Ok(bound_group) => bound_groups.push_reserved(bound_group),
                // The fault is returned field by field: the prover doesn't follow it out of the loop as a whole.
                Err(BindFault { line, kind }) => return Err(BindFault { line, kind }),
            }
        }
        Ok(bound_groups)
    }
}

impl<'b> DeclarationVisitor for Search<'b> {
    ghost use Rattle.std.specs.Prelude.{List, map};
    ghost use Rattle.vme_bind.specs.PathSearch.{Searched, found_in, with_variable};

    ghost Taken = { List Searched };

    ghost taken = { λ s. map found_in s.searches.items };

    ghost with_variable = { with_variable };

    ghost scopes = { λ s. s.scopes };

    fn open(&mut self, alloc: Global, name: &[u8]) -> Result<(), AllocError> {
        let start = self.scopes.path().len();
        self.scopes.open(alloc, name)?;
        let depth = self.scopes.depth() - 1;
        let part = rest_of(self.scopes.path(), start);
        open_all(self.searches.as_mut_slice(), depth, start, part);
        Ok(())
    }

    fn close(&mut self) -> bool {
        if !self.scopes.close() {
            return false;
        }
        close_all(self.searches.as_mut_slice(), self.scopes.depth());
        true
    }

    fn declare(&mut self, alloc: Global, variable: Declaration<'_>) -> Result<(), AllocError> {
        let _ = alloc;
        visit_all(self.searches.as_mut_slice(), &self.scopes, variable);
        Ok(())
    }
}

//! How a binding can name bits of the variables that were found.

use std::alloc::{AllocError, Global};
use vme_declarations::{
    DeclaredNames, DeclaredVariable, FoundLines, NOWHERE, dotted_path, offsets_after_scopes,
};
use vme_text::Text;
use vme_trace::{LINE_COUNT, Line};

/// How a binding can name some bits of a variable, in the format of bindings (docs/FORMATS.md).
#[derive(Clone, Copy, PartialEq, Eq)]
pub(crate) enum Naming {
    /// By the path alone.
    Whole,
    /// By the path and their numbers: `[n]` or `[m:l]` after the path.
    Selected,
    /// Not at all, since the variable has no index.
    Unnumbered,
    /// Not at all, since other bits have the same name.
    Ambiguous,
}

/// The paths of the variables that were found in a scope, or in the scopes around it.
#[derive(Drop)]
pub(crate) struct Paths<'a> {
    declared: &'a DeclaredNames,
    /// The path of the scope, with a dot at its end.
    path: Vec<u8>,
    /// For each scope of the dump, the offset in `path` after the scope's own path and a dot, or `NOWHERE`.
    offsets: Vec<usize>,
    /// The places of each variable that was found and of a variable with the same path, itself among them.
    same_paths: Vec<(usize, usize)>,
}

impl<'a> Paths<'a> {
    /// The paths of the variables whose bits were found for the lines.
    pub(crate) fn new(
        alloc: Global,
        declared: &'a DeclaredNames,
        found: &FoundLines,
    ) -> Result<Paths<'a>, AllocError> {
        let dotted = dotted_path(alloc, &found.scope)?;
        let offsets = offsets_after_scopes(alloc, declared, &dotted)?;
        let mut paths = Paths {
            declared,
            path: dotted,
            offsets,
            same_paths: Vec::new(alloc),
        };
        for number in 0..LINE_COUNT {
            if let Some(line) = Line::from_number(number) {
                if let Some(bit_of_line) = found.bit_of_line(line) {
                    paths.note(alloc, bit_of_line.variable)?;
                }
            }
        }
        Ok(paths)
    }

    /// Notes which variables have the path of the variable at `place`, unless that was done. They may be in different
    /// scopes, since a name may have dots.
    fn note(&mut self, alloc: Global, place: usize) -> Result<(), AllocError> {
        if self.same_paths.iter().any(|pair| pair.0 == place) {
            return Ok(());
        }
        let declared = self.declared;
        let Some(variable) = declared.variables().get(place) else {
            return Ok(());
        };
        let mut path = Text::new(alloc);
        self.push_path(&mut path, variable)?;
        let path = path.as_bytes();
        let offsets = offsets_after_scopes(alloc, declared, path)?;
        for (other, variable) in declared.variables().iter().enumerate() {
            let start = offsets.get(variable.scope).copied().unwrap_or(NOWHERE);
            if path.get(start..) == Some(declared.name_of(variable)) {
                self.same_paths.push((place, other))?;
            }
        }
        Ok(())
    }

    /// The variable at a place among all that are declared.
    pub(crate) fn variable(&self, place: usize) -> Option<&DeclaredVariable> {
        self.declared.variables().get(place)
    }

    /// The path of the scope of a variable that was found, with a dot at its end.
    fn around(&self, variable: &DeclaredVariable) -> &[u8] {
        match self.offsets.get(variable.scope) {
            Some(count) => self.path.get(..*count).unwrap_or(b""),
            None => b"",
        }
    }

    /// Appends the path of a variable.
    pub(crate) fn push_path(
        &self,
        text: &mut Text,
        variable: &DeclaredVariable,
    ) -> Result<(), AllocError> {
        text.push(self.around(variable))?;
        text.push(self.declared.name_of(variable))
    }

    /// Whether the path of the variable at `place`, with the bit numbers `selection` or without, names no bits but
    /// those of `variable`, which is this variable.
    fn is_unique(
        &self,
        place: usize,
        variable: &DeclaredVariable,
        selection: Option<(u32, u32)>,
    ) -> bool {
        let bits = bits_meant(variable, selection);
        self.same_paths.iter().all(|pair| match self.variable(pair.1) {
            Some(other) if pair.0 == place => {
                let meant = bits_meant(other, selection);
                meant.is_none() || meant == bits
            }
            _ => true,
        })
    }

    /// How a binding can name `count` bits of the variable at `place`, from the bit at the place `from` (from the left)
    /// on. One bit of a variable with an index is never named without its number. A name that ends in a bracket isn't
    /// used alone, since the bracket would be taken for a selection.
    pub(crate) fn naming(&self, place: usize, from: u32, count: u32) -> Naming {
        let Some(variable) = self.variable(place) else {
            return Naming::Unnumbered;
        };
        let is_whole = variable.size == count;
        let is_numbered = variable.index.is_some();
        let ends_in_bracket = self.declared.name_of(variable).ends_with(b"]");
        let may_be_whole = is_whole && !(is_numbered && count == 1) && !ends_in_bracket;
        if may_be_whole && self.is_unique(place, variable, None) {
            return Naming::Whole;
        }
        let selection = selection_of(variable, from, count);
        if is_numbered && self.is_unique(place, variable, Some(selection)) {
            Naming::Selected
        } else if is_numbered || may_be_whole {
            Naming::Ambiguous
        } else {
            Naming::Unnumbered
        }
    }
}

/// The numbers of the first and the last of `count` bits of `variable`, from the bit at the place `from` on.
pub(crate) fn selection_of(variable: &DeclaredVariable, from: u32, count: u32) -> (u32, u32) {
    let last = from.saturating_add(count).saturating_sub(1);
    (variable.number_of_bit(from), variable.number_of_bit(last))
}

/// The bits of `variable` that `selection` selects: their net, the place of the first bit, and their count. Variables
/// that a dump declares with one identifier code are one net.
fn bits_meant(
    variable: &DeclaredVariable,
    selection: Option<(u32, u32)>,
) -> Option<(u32, u32, u32)> {
    let Some((first, last)) = selection else {
        return Some((variable.net, 0, variable.size));
    };
    let (left, right) = variable.index?;
    let is_inside = (first <= left && last <= first && right <= last)
        || (left <= first && first <= last && last <= right);
    if is_inside {
        let count = first.abs_diff(last).saturating_add(1);
        Some((variable.net, left.abs_diff(first), count))
    } else {
        None
    }
}

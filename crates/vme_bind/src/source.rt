//! What lines are bound to.

ghost use Rattle.std.specs.Prelude.{◌≡◌, IfOk};
ghost use Rattle.vcd_read.specs.Header.{bracketed};

use std::alloc::{AllocError, Global};
use vcd_read::{Path, bracketed, index_between};
use vme_trace::Level;

/// Variables of a dump, or some of their bits.
#[derive(Drop)]
pub(crate) struct VariableSelector {
    /// The path that they all have.
    pub path: Path,
    /// The indices of the leftmost and of the rightmost bit, where not all bits are meant.
    pub selection: Option<(u32, u32)>,
}

/// Where the levels of some lines come from.
#[derive(Drop)]
pub(crate) enum LevelSource {
    /// A constant level.
    Constant(Level),
    /// The bits of a variable.
    Variable(VariableSelector),
}

impl LevelSource {
    ghost use Rattle.vme_bind.specs.Sources.{source_of, path_and_selection};

    /// The source that `word` says. It fails if memory runs out.
    pub fn of(alloc: Global, word: &[u8]) -> Result<LevelSource, AllocError>
        ensures { IfOk result (λ source. source ≡ source_of word.now) }
    {
        if word == b"0".as_slice() {
            return Ok(LevelSource::Constant(Level::Low));
        }
        if word == b"1".as_slice() {
            return Ok(LevelSource::Constant(Level::High));
        }
        if word == b"x".as_slice() {
            return Ok(LevelSource::Constant(Level::Unknown));
        }
        let (path, selection) = LevelSource::path_and_selection(word);
        Ok(LevelSource::Variable(VariableSelector {
            path: Path::from_vec(Vec::from_slice(alloc, path)?),
            selection,
        }))
    }

    /// The path that `word` says, and the selection at its end, if there is one.
    fn path_and_selection(word: &[u8]) -> (&[u8], Option<(u32, u32)>)
        ensures { (result.0.now, result.1) ≡ path_and_selection word.now (bracketed word.now) }
    {
        if let Some((path, inner)) = bracketed(word) {
            if let Some(selection) = index_between(inner) {
                return (path, Some(selection));
            }
        }
        (word, None)
    }
}

//! What one statement of a binding's text binds.

use crate::group::Group;
use crate::source::LevelSource;

/// Lines of the backplane, and where their levels come from.
#[derive(Drop)]
pub(crate) struct Assignment {
    /// The number of the statement's line in the text, from 1; of the last line, for a group that the text leaves out.
    pub line: u64,
    /// The lines.
    pub group: Group,
    /// Where their levels come from.
    pub source: LevelSource,
}

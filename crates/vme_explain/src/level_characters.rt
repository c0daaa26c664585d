//! The levels of lines, as characters.

ghost use Rattle.std.specs.Prelude.{◌≡◌, IfOk, map};
ghost use Rattle.vme_explain.specs.LevelCharacters.{level_character, line_character};

use std::alloc::{AllocError, Global};
use vme_trace::{Level, Line, Lines};

/// The character of a level.
fn level_character(level: Level) -> u8
    ensures { result ≡ level_character level }
{
    match level {
        Level::Low => b'0',
        Level::High => b'1',
        Level::Unknown => b'x',
    }
}

/// The character of a line's level: 0 is Low, 1 High and x unknown. A line that the backplane lacks has a space.
fn line_character(line: Line, lines: &Lines) -> u8
    ensures { result ≡ line_character line lines.now }
{
    if lines.has(line) {
        level_character(lines.level(line))
    } else {
        b' '
    }
}

/// The characters of a line's levels, in their order: 0 is Low, 1 High and x unknown. A line that the backplane lacks
/// has spaces. It fails if memory runs out.
pub fn line_characters(alloc: Global, line: Line, levels: &[Lines]) -> Result<Vec<u8>, AllocError>
    ensures { IfOk result (λ text. text.items ≡ map (line_character line) levels.now) }
{
    levels
        .iter()
        .map(|lines| line_character(line, lines))
        .collect(alloc)
}

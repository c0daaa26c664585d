//! What a dump declares, and which of its bits move, from its whole text.

ghost use Rattle.vcd_read.specs.Meaning.{ReadGives};
ghost use Rattle.vme_declarations.specs.Surveys.{survey_of, variables_in};

use crate::declared::{DeclaredNames, NamesReader};
use crate::levels_seen::{LevelsSeen, levels_in};
use std::alloc::Global;
use vcd_read::{VcdFault, read_definitions};

/// The scopes and the variables of a dump, and which of its bits move. A fault is the first one of the dump; at line 0
/// it is want of memory.
pub(crate) fn read_declarations(
    alloc: Global,
    dump: &[u8],
) -> Result<(DeclaredNames, LevelsSeen), VcdFault>
    ensures { ReadGives (λ made. record { variables = variables_in dump.now; instants = made.1.instants }) result
        (survey_of dump.now) }
{
    let reader = NamesReader::new(alloc)?;
    match read_definitions(alloc, dump, reader) {
        Ok((head, reader)) => match levels_in(alloc, &head) {
            Ok(levels) => Ok((reader.into_names(), levels)),
            Err(fault) => Err(fault),
        },
        Err(fault) => Err(fault),
    }
}

//! The whole dump of a text.

ghost use Rattle.vcd_read.specs.Meaning.{ReadGives, dump_of};

use crate::dump::Dump;
use crate::fault::VcdFault;
use crate::head::read_definitions;
use crate::instant_collector::InstantCollector;
use crate::variables::Variables;
use std::alloc::Global;

/// Reads the text of a four-state value change dump.
///
/// The text is read from the left, and an error names the first fault met and its line; a dump section such as
/// `$dumpvars` that is never closed is met at the end of the text. Where memory runs out, that is the fault,
/// at line 0.
pub fn read_vcd(alloc: Global, text: &[u8]) -> Result<Dump, VcdFault>
    ensures { ReadGives (λ dump. dump) result (dump_of text.now) }
{
    let (head, variables) = read_definitions(alloc, text, Variables::new(alloc))?;
    let collector = InstantCollector::new(alloc, head.net_count())?;
    let collected = head.read_body(alloc, collector)?;
    Ok(Dump::new(variables.into_vec(), collected.into_instants()))
}

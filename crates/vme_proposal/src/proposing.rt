//! A binding for the lines that were found, and the report of it.

ghost use Rattle.std.specs.Prelude.{IfOk};
ghost use Rattle.vme_text.specs.Escaping.{IsVisible};

use crate::fitting::Fitted;
use crate::paths::Paths;
use crate::proposal::Proposal;
use crate::report::{is_bus, report};
use std::alloc::{AllocError, Global};
use vme_declarations::{DeclaredNames, FoundLines};
use vme_text::Text;

/// The text of a binding, and the report of it.
#[derive(Drop)]
pub struct ProposedBinding {
    /// The text of the binding.
    pub text: Text,
    /// A line for people: how many groups of lines are bound to variables, in which scope, and which aren't.
    pub report: Text,
    /// Whether a check by the binding judges cycles, transfers and answers.
    pub is_bus: bool,
}

/// A binding for the lines that were found among the variables of a dump. The backplane has `slots` slots, or else
/// those that the daisy chains show. A line that wasn't found is bound to a constant that fits the others, with a
/// comment.
pub fn propose_binding(
    alloc: Global,
    declared: &DeclaredNames,
    found: FoundLines,
    slots: Option<u8>,
) -> Result<ProposedBinding, AllocError>
    ensures visible { IfOk result (λ proposed. IsVisible proposed.report) }
{
    let paths = Paths::new(alloc, declared, &found)?;
    let slots = match slots {
        Some(slots) => slots,
        None => found.slots(),
    };
    let fitted = Fitted::new(found);
    let mut proposal = Proposal::new(alloc, &paths, &fitted);
    proposal.write(slots)?;
    let report = report(alloc, &proposal, slots)?;
    let is_bus = is_bus(&proposal);
    Ok(ProposedBinding {
        text: proposal.into_text(),
        report,
        is_bus,
    })
}

//! A binding for a dump.

ghost use Rattle.std.specs.Prelude.{◌≡◌, ℕ, List, IfErr, IfOk, IfSome, OnOk, None, Some, false, true};
ghost use Rattle.vme_declarations.specs.Dumps.{IsDump};
ghost use Rattle.vme_declarations.specs.Scopes.{has_scope};
ghost use Rattle.vme_declarations.specs.Surveys.{variables_in};
ghost use Rattle.vme_find.specs.Recordings.{AreSlots, HasSlots, IsFindFault, MakesRecording, MakesRecordings};
ghost use Rattle.vme_find.specs.Recordings.{finds_all};
ghost use Rattle.vme_find.specs.declared.writing.FindFault.TheVariants.{Memory};
ghost use Rattle.vme_text.specs.Escaping.{IsVisible};

use crate::constants::constant_text;
use std::alloc::{AllocError, Global};
use vme_bind::{BindFault, BindFaultKind, Binding, CaptureFault, StepCollector, read_binding};
use vme_declarations::{DeclaredNames, LevelsSeen, SurveyedDump, has_scope};
use vme_line_names::find_lines;
use vme_proposal::{constants_report, propose_binding};
use vme_text::Text;

/// A binding for a dump, and the report of it.
#[derive(Drop)]
pub struct FoundBinding {
    /// The text of the binding.
    pub text: Text,
    /// A line for people, from `vmecheck: ` to its end: how many of the 19 groups of lines are bound to variables, in
    /// which scope, which aren't, and why a check by the binding would judge no cycle, no transfer or no answer, if so.
    /// It has visible characters alone.
    pub report: Text,
    /// Whether AS, a strobe and DTACK are bound to variables, and AS moves in the dump: else a check by the binding
    /// would judge no cycle, no transfer or no answer.
    pub is_bus: bool,
    ghost visible: { IsVisible report },
}

/// Why there is no binding for a dump.
#[derive(Clone, Copy, Debug, PartialEq, Eq)]
pub enum FindFault {
    /// No variable of the dump is in the scope that is asked for, or in a scope within it.
    NoSuchScope,
    /// Memory ran out.
    Memory,
}

impl From<AllocError> for FindFault {
    ghost from_gives = { λ _ e. e ≡ Memory };

    fn from(_e: AllocError) -> FindFault {
        FindFault::Memory
    }
}

/// Finds a binding for a dump that was surveyed: the lines that are found by the names of its variables, and the others
/// as constants that fit these, with a comment. The backplane has `slots` slots, where that is given, or else those of
/// the daisy chains. The scope is `scope`, where that is given, or else the best by what is found in it; lines that it
/// lacks are taken from the scopes around it.
///
/// What it writes is a binding by the format, with `slots` slots where that is given, and it makes a recording of the
/// dump. So a dump that has the scope has a binding, unless memory runs out.
pub fn write_binding(
    alloc: Global,
    dump: &SurveyedDump,
    slots: Option<u8>,
    scope: Option<&[u8]>,
) -> Result<FoundBinding, FindFault>
    requires { AreSlots slots }
    ensures ok { IfOk result (λ found. MakesRecordings found.text dump.now) }
    ensures slots { IfOk result (λ found. IfSome slots (λ n. HasSlots n found.text)) }
    ensures scope { OnOk result (IfSome scope.entry (λ path. has_scope path.now dump.now.variables ≡ true)) }
    ensures err { IfErr result (IsFindFault dump.now scope.entry) }
{
    match scope {
        Some(path) => binding_in(alloc, dump, slots, path),
        None => Ok(found_binding(alloc, dump, slots, None)?),
    }
}

/// Finds a binding for a dump in the scope `path`.
fn binding_in(
    alloc: Global,
    dump: &SurveyedDump,
    slots: Option<u8>,
    path: &[u8],
) -> Result<FoundBinding, FindFault>
    requires { AreSlots slots }
    ensures ok { IfOk result (λ found. MakesRecordings found.text dump.now) }
    ensures slots { IfOk result (λ found. IfSome slots (λ n. HasSlots n found.text)) }
    ensures scope { OnOk result (has_scope path.now dump.now.variables ≡ true) }
    ensures err { IfErr result (IsFindFault dump.now (Some path.entry)) }
{
    if !has_scope(alloc, dump, path)? {
        return Err(FindFault::NoSuchScope);
    }
    Ok(found_binding(alloc, dump, slots, Some(path))?)
}

/// A binding for a dump, by the lines in the scope `scope`, where that is given. Where what is proposed doesn't fit,
/// all lines are bound to constants.
fn found_binding(
    alloc: Global,
    dump: &SurveyedDump,
    slots: Option<u8>,
    scope: Option<&[u8]>,
) -> Result<FoundBinding, AllocError>
    requires { AreSlots slots }
    ensures ok { IfOk result (λ found. MakesRecordings found.text dump.now) }
    ensures slots { IfOk result (λ found. IfSome slots (λ n. HasSlots n found.text)) }
{
    let found = proposal_by(alloc, dump.names(), dump.levels(), slots, scope)?;
    if fits(alloc, &found.text, dump, slots)? {
        return Ok(found);
    }
    constant_binding(alloc, slots)
}

/// The binding of all lines to constants, and the report of it.
fn constant_binding(alloc: Global, slots: Option<u8>) -> Result<FoundBinding, AllocError>
    requires { AreSlots slots }
    ensures ok { IfOk result (λ found. (dump : List ℕ) → IsDump dump → MakesRecording found.text dump) }
    ensures slots { IfOk result (λ found. IfSome slots (λ n. HasSlots n found.text)) }
{
    Ok(FoundBinding {
        text: constant_text(alloc, slots.unwrap_or(1))?,
        report: constants_report(alloc)?,
        is_bus: false,
    })
}

/// Whether `text` is a binding that makes a recording of the dump, and has `slots` slots, where that is given.
fn fits(
    alloc: Global,
    text: &Text,
    dump: &SurveyedDump,
    slots: Option<u8>,
) -> Result<bool, AllocError>
    ensures ok { IfOk result (λ fits. fits ≡ true → MakesRecordings text.now dump.now) }
    ensures slots { IfOk result (λ fits. fits ≡ true → IfSome slots (λ n. HasSlots n text.now)) }
{
    match read_binding(alloc, text.as_bytes()) {
        Ok(binding) => {
            let is_found = finds_all(alloc, &binding, dump.front())?;
            Ok(is_found && has_slots(&binding, slots))
        }
        Err(fault) => or_memory(fault.kind),
    }
}

/// Whether all that `binding` names is among the variables that `front`, a prefix of a dump, declares.
fn finds_all(alloc: Global, binding: &Binding, front: &[u8]) -> Result<bool, AllocError>
    ensures { IfOk result (λ finds. finds ≡ true → finds_all binding.now (variables_in front.now) ≡ true) }
{
    match binding.begin_before_body(alloc, front, StepCollector::new(alloc, binding.lines())) {
        Ok(Ok((text, _))) => Ok(has_none(text.binding_fault())),
        Ok(Err(_)) => Ok(false),
        Err(CaptureFault::Binding(fault)) => or_memory(fault.kind),
        Err(CaptureFault::Dump(_)) => Err(AllocError),
    }
}

/// Whether a binding has no fault.
fn has_none(fault: Option<BindFault>) -> bool
    ensures { result ≡ true → fault ≡ None }
{
    match fault {
        None => true,
        Some(_) => false,
    }
}

/// Whether `binding` has `slots` slots, where that is given.
fn has_slots(binding: &Binding, slots: Option<u8>) -> bool
    ensures { result ≡ true → IfSome slots (λ n. binding.now.slots ≡ n) }
{
    match slots {
        Some(slots) => binding.lines().slots() == slots,
        None => true,
    }
}

/// Where `kind` is want of memory, that is the error. With any other fault the binding doesn't fit.
fn or_memory(kind: BindFaultKind) -> Result<bool, AllocError>
    ensures { IfOk result (λ fits. fits ≡ false) }
{
    match kind {
        BindFaultKind::Memory => Err(AllocError),
        _ => Ok(false),
    }
}

/// The binding that is proposed by the names of the variables and by which of their bits move.
fn proposal_by(
    alloc: Global,
    declared: &DeclaredNames,
    levels: &LevelsSeen,
    slots: Option<u8>,
    scope: Option<&[u8]>,
) -> Result<FoundBinding, AllocError> {
    let found = find_lines(alloc, declared, levels, scope)?;
    let proposed = propose_binding(alloc, declared, found, slots)?;
    Ok(FoundBinding {
        text: proposed.text,
        report: proposed.report,
        is_bus: proposed.is_bus,
    })
}

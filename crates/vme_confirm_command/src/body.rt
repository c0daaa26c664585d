//! The body of a dump, whose steps are compared with rows as they become complete.

ghost use Rattle.std.specs.Prelude.{◌≡◌, ℕ, [], IfOk, Option, Ok};
ghost use Rattle.vme_trace.specs.Streams.{Reading};
ghost use Rattle.vme_trace.specs.Trace.{Trace};
ghost use Rattle.vme_bind.specs.Binding.{BoundLines};
ghost use Rattle.vme_listing.specs.declared.row.Version.{Version};
ghost use Rattle.vme_stream.specs.Inputs.{longest_input};
ghost use Rattle.vme_cert.specs.Checking.{HasCompared};
ghost use Rattle.vme_dump_input.specs.SettledReadings.{skew_of};
ghost use Rattle.vme_dump_input.specs.DumpBeginnings.{IsAtBody, IsBodyUnread};
ghost use Rattle.vme_confirm_command.specs.DumpChecks.{Compares, IsChecked};
ghost use Rattle.vme_dump_input.specs.DumpBeginnings.{BeginsDump, HoldsDefinitions, MayBeRead};
ghost use Rattle.vme_dump_input.specs.BodyPieces.{IsAtEnd, ReadsPiece};
ghost use Rattle.vme_confirm_command.specs.PieceChecks.{ChecksOn};
ghost use Rattle.vme_confirm_command.specs.StepChecks.{IsComparing};

use crate::step_check::StepCheck;
use std::alloc::Global;
use vcd_read::VcdFault;
use vme_bind::BindFault;
use vme_cert::{Answer, RowSource};
use vme_dump_input::{
    BufferedInput, DumpAfterDefinitions, fault_of, opening_of, refused_in_body, unread,
};
use vme_listing::Version;
use vme_step_reader::{StepReader, given_is_a_prefix, times_go_on};
use vme_stream::Refusal;
use vme_trace::Source;

/// Takes the whole tokens at the front of the held bytes, and gives their steps to `check`. It fails for a fault of the
/// dump, or, without one, for want of memory.
fn check_piece<S: RowSource>(
    alloc: Global,
    reader: StepReader,
    input: &mut BufferedInput,
    check: &mut StepCheck<S>,
) -> Result<StepReader, Option<VcdFault>>
    requires { (skew : Option ℕ) × (t : Trace) × IsChecked skew reader t check.old }
    ensures reads { (binding : BoundLines) (old now : Reading) → IsAtBody binding old now input.old reader
        → ReadsPiece binding old now input.new result }
    ensures checks { (skew : Option ℕ) (t : Trace) → IsChecked skew reader t check.old
        → IfOk result (ChecksOn S.gave S.is_over skew t check.old check.new) }
    ensures comparing { (whole : S.Whole) (version : Version)
        → IsComparing S.gave S.is_over whole version check.old.checker
        → IsComparing S.gave S.is_over whole version check.new.checker }
    ensures input { (input.new.limit ≡ input.old.limit) × (input.new.is_whole ≡ input.old.is_whole)
        × (input.new.reads ≡ input.old.reads) }
{
    given_is_a_prefix();
    times_go_on();
    match reader.take(alloc, input.bytes()) {
        Ok((reader, steps, count)) => {
            input.take_first(count);
            let time = reader.time();
            match check.take(alloc, steps, time) {
                Ok(()) => Ok(reader),
                Err(_) => Err(None),
            }
        }
        Err(stopped) => Err(Some(fault_of(stopped))),
    }
}

/// Takes the last bytes of the body. Returns what was found, and the source of the rows.
fn check_last<S: RowSource>(
    alloc: Global,
    reader: StepReader,
    bytes: &[u8],
    check: StepCheck<S>,
) -> (Result<Result<Answer, BindFault>, Refusal>, S)
    requires { (skew : Option ℕ) × (t : Trace) × IsChecked skew reader t check }
    ensures { (binding : BoundLines) (old now : Reading) (skew : ℕ) (t : Trace) (whole : S.Whole) (version : Version)
        → IsChecked (skew_of skew) reader t check
        → HasCompared S.gave S.is_over whole version t check.checker
        → IsAtEnd binding old now bytes.now reader
        → Compares S.gave S.is_over whole version binding skew old now result.0 result.1 }
{
    given_is_a_prefix();
    times_go_on();
    match reader.finish(alloc, bytes) {
        Ok(steps) => {
            let (found, rows) = check.finish(alloc, steps);
            match found {
                Ok(found) => (Ok(found), rows),
                Err(_) => (Err(Refusal::Memory), rows),
            }
        }
        Err(stopped) => (
            Err(Refusal::of_dump(fault_of(stopped))),
            check.into_source(),
        ),
    }
}

/// Reads a body to its end, and compares its steps. Returns what was found, and the source of the rows.
fn compare_body<D: Source, S: RowSource>(
    alloc: Global,
    dump: &mut D,
    input: &mut BufferedInput,
    reader: StepReader,
    check: StepCheck<S>,
) -> (Result<Result<Answer, BindFault>, Refusal>, S)
    requires { (skew : Option ℕ) × (t : Trace) × IsChecked skew reader t check }
    ensures { (binding : BoundLines) (old : Reading) (skew : ℕ) (t : Trace) (whole : S.Whole) (version : Version)
        → IsChecked (skew_of skew) reader t check
        → HasCompared S.gave S.is_over whole version t check.checker
        → IsAtBody binding old (D.reading dump.old) input.old reader → input.old.limit ≡ longest_input
        → Compares S.gave S.is_over whole version binding skew old (D.reading dump.new) result.0 result.1 }
{
    let mut reader = reader;
    let mut check = check;
    while !input.is_whole() {
        reader = match check_piece(alloc, reader, input, &mut check) {
            Ok(reader) => reader,
            Err(fault) => {
                let refusal = refused_in_body(dump, input, fault);
                return (Err(refusal), check.into_source());
            }
        };
        if let Err(fault) = input.read(dump) {
            return (Err(unread(fault)), check.into_source());
        }
    }
    check_last(alloc, reader, input.bytes(), check)
}

/// A check before the first step of a body.
fn first_check<S: RowSource>(
    alloc: Global,
    reader: &StepReader,
    skew: u64,
    version: Version,
    rows: S,
) -> StepCheck<S>
    requires { IsBodyUnread reader.now }
    ensures checked { IsChecked (skew_of skew) reader.now reader.now.given result }
    ensures compared { (whole : S.Whole) → S.gave whole rows []
        → HasCompared S.gave S.is_over whole version reader.now.given result.checker }
{
    StepCheck::new(alloc, opening_of(reader), skew, version, rows)
}

/// Compares rows with those of the recording that a binding makes of a dump whose definitions were read, deskewed by
/// `skew`. Returns what was found or why there is no recording, and the source of the rows.
pub(crate) fn compare_with_rows<D: Source, S: RowSource>(
    alloc: Global,
    dump: &mut D,
    input: &mut BufferedInput,
    begun: DumpAfterDefinitions,
    skew: u64,
    version: Version,
    rows: S,
) -> (Result<Result<Answer, BindFault>, Refusal>, S)
    requires begun { MayBeRead begun }
    requires held { HoldsDefinitions input.old begun }
    ensures { (binding : BoundLines) (old : Reading) (whole : S.Whole) → S.gave whole rows []
        → BeginsDump binding old (D.reading dump.old) input.old (Ok begun) → input.old.limit ≡ longest_input
        → Compares S.gave S.is_over whole version binding skew old (D.reading dump.new) result.0 result.1 }
{
    match begun {
        DumpAfterDefinitions::Body(reader, count) => {
            input.take_first(count);
            let check = first_check(alloc, &reader, skew, version, rows);
            compare_body(alloc, dump, input, reader, check)
        }
        DumpAfterDefinitions::Unusable(fault) => (Ok(Err(fault)), rows),
    }
}

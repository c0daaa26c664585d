//! The body of a dump that is a file of a recording, judged as it is read.

ghost use Rattle.std.specs.Prelude.{◌≡◌, ◌≤◌, ℕ, Bool, IfOk, Ok, Option, length};
ghost use Rattle.vme_trace.specs.Streams.{Reading};
ghost use Rattle.vme_bind.specs.Binding.{BoundLines};
ghost use Rattle.vme_stream.specs.Inputs.{longest_input};
ghost use Rattle.vme_dump_input.specs.DumpBeginnings.{BeginsDump, HoldsDefinitions, IsAtDefinitions, IsBodyUnread};
ghost use Rattle.vme_dump_input.specs.DumpBeginnings.{MayBeRead};
ghost use Rattle.vme_part_command.specs.Backplane.{backplane_of};
ghost use Rattle.vme_part_command.specs.FileChecks.{IsFileJudged};
ghost use Rattle.vme_part_command.specs.FileReadings.{IsAtFile, IsAtFileEnd, ReadsFile};
ghost use Rattle.vme_part_command.specs.Written.{FindsOfDump};
ghost use Rattle.vme_part_command.specs.declared.part.PartOptions.{PartOptions as Options};

use crate::backplane::backplane_sum;
use crate::file_check::FileCheck;
use crate::first_time::read_first_time;
use crate::no_part::NoPart;
use crate::part::PartOptions;
use std::alloc::Global;
use vcd_read::VcdFault;
use vme_dump_input::{
    BufferedInput, DumpAfterDefinitions, fault_of, opening_of, refused_in_body, unread,
};
use vme_part_format::Part;
use vme_step_reader::StepReader;
use vme_stream::Refusal;
use vme_trace::Source;

/// Takes the bytes held in `input` that are whole tokens, and judges their steps. The error is a fault of the dump, or
/// `None` if memory runs out.
fn judge_piece(
    alloc: Global,
    reader: StepReader,
    input: &mut BufferedInput,
    check: FileCheck,
) -> Result<(StepReader, FileCheck), Option<VcdFault>>
    requires { (number : ℕ) × (listing : Bool) × (first_time : Option ℕ)
        × IsFileJudged number listing first_time reader check }
    ensures reads { (binding : BoundLines) (number : ℕ) (first_time : Option ℕ) (old now : Reading)
        → IsAtFile binding number first_time old now input.old reader
        → ReadsFile binding number first_time old now input.new result }
    ensures judges { (number : ℕ) (listing : Bool) (first_time : Option ℕ)
        → IsFileJudged number listing first_time reader check
        → IfOk result (λ made. IsFileJudged number listing first_time made.0 made.1) }
    ensures opening { IfOk result (λ made. made.0.given.opening ≡ reader.given.opening) }
    ensures input { (input.new.limit ≡ input.old.limit) × (input.new.is_whole ≡ input.old.is_whole)
        × (input.new.reads ≡ input.old.reads) }
{
    match reader.take(alloc, input.bytes()) {
        Ok((reader, steps, count)) => {
            input.take_first(count);
            match check.take(alloc, steps) {
                Ok(check) => Ok((reader, check)),
                Err(_) => Err(None),
            }
        }
        Err(stopped) => Err(Some(fault_of(stopped))),
    }
}

/// Takes the last bytes of the body. The answer is the part of the file.
fn judge_last(
    alloc: Global,
    reader: StepReader,
    bytes: &[u8],
    check: FileCheck,
    backplane: u64,
) -> Result<Part, NoPart>
    requires { (number : ℕ) × (listing : Bool) × (first_time : Option ℕ)
        × IsFileJudged number listing first_time reader check }
    ensures { (binding : BoundLines) (options : Options) (first_time : Option ℕ) (old now : Reading)
        → IsFileJudged options.number options.listing first_time reader check
        → IsAtFileEnd binding options.number first_time old now bytes.now reader
        → backplane ≡ backplane_of reader.given.opening → FindsOfDump options binding old now result }
{
    match reader.finish(alloc, bytes) {
        Ok(steps) => check.finish(alloc, steps, backplane),
        Err(stopped) => Err(NoPart::Refused(Refusal::of_dump(fault_of(stopped)))),
    }
}

/// Reads a body to its end. The answer is the part of the file.
fn judge_body<D: Source>(
    alloc: Global,
    dump: &mut D,
    input: &mut BufferedInput,
    reader: StepReader,
    check: FileCheck,
    backplane: u64,
) -> Result<Part, NoPart>
    requires { (number : ℕ) × (listing : Bool) × (first_time : Option ℕ)
        × IsFileJudged number listing first_time reader check }
    ensures { (binding : BoundLines) (options : Options) (first_time : Option ℕ) (old : Reading)
        → IsFileJudged options.number options.listing first_time reader check
        → IsAtFile binding options.number first_time old (D.reading dump.old) input.old reader
        → input.old.limit ≡ longest_input → backplane ≡ backplane_of reader.given.opening
        → FindsOfDump options binding old (D.reading dump.new) result }
{
    let mut reader = reader;
    let mut check = check;
    while !input.is_whole() {
        let (next, judged) = match judge_piece(alloc, reader, input, check) {
            Ok(made) => made,
            Err(fault) => return Err(NoPart::Refused(refused_in_body(dump, input, fault))),
        };
        reader = next;
        check = judged;
        if let Err(fault) = input.read(dump) {
            return Err(NoPart::Refused(unread(fault)));
        }
    }
    judge_last(alloc, reader, input.bytes(), check, backplane)
}

/// Judges the body of a dump with the first time `first_time`, if it has one.
fn part_of_body<D: Source>(
    alloc: Global,
    options: PartOptions,
    dump: &mut D,
    input: &mut BufferedInput,
    reader: StepReader,
    first_time: Option<u64>,
) -> Result<Part, NoPart>
    requires { IsBodyUnread reader }
    ensures { (binding : BoundLines) (old : Reading)
        → IsAtFile binding options.number first_time old (D.reading dump.old) input.old reader
        → input.old.limit ≡ longest_input → FindsOfDump options binding old (D.reading dump.new) result }
{
    let opening = *opening_of(&reader);
    let Ok(backplane) = backplane_sum(alloc, &opening) else {
        return Err(NoPart::Refused(Refusal::Memory));
    };
    let check = FileCheck::new(alloc, options.number, options.listing, first_time, &opening);
    judge_body(alloc, dump, input, reader, check, backplane)
}

/// Judges the body after the definitions, which are held in `input` and have `count` bytes. First it reads the dump up
/// to its first time.
fn part_after_definitions<D: Source>(
    alloc: Global,
    options: PartOptions,
    dump: &mut D,
    input: &mut BufferedInput,
    reader: StepReader,
    count: usize,
) -> Result<Part, NoPart>
    requires unread { IsBodyUnread reader }
    requires held { count ≤ length input.old.held }
    ensures { (binding : BoundLines) (old : Reading)
        → IsAtDefinitions binding old (D.reading dump.old) input.old reader count
        → input.old.limit ≡ longest_input → FindsOfDump options binding old (D.reading dump.new) result }
{
    match read_first_time(alloc, dump, input, options.number) {
        Ok(first_time) => {
            input.take_first(count);
            part_of_body(alloc, options, dump, input, reader, first_time)
        }
        Err(refusal) => Err(NoPart::Refused(refusal)),
    }
}

/// The part of a dump whose definitions were read, or why there is none.
pub(crate) fn part_of_begun<D: Source>(
    alloc: Global,
    options: PartOptions,
    dump: &mut D,
    input: &mut BufferedInput,
    begun: DumpAfterDefinitions,
) -> Result<Part, NoPart>
    requires begun { MayBeRead begun }
    requires held { HoldsDefinitions input.old begun }
    ensures { (binding : BoundLines) (old : Reading) → BeginsDump binding old (D.reading dump.old) input.old (Ok begun)
        → input.old.limit ≡ longest_input → FindsOfDump options binding old (D.reading dump.new) result }
{
    match begun {
        DumpAfterDefinitions::Body(reader, count) => part_after_definitions(
            alloc, options, dump, input, reader, count,
        ),
        DumpAfterDefinitions::Unusable(fault) => Err(NoPart::Refused(Refusal::BadBinding(fault))),
    }
}

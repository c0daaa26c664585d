//! The audit of the files that an order names, all of which are opened before one is read, and the file of test cases.

ghost use Rattle.std.specs.Prelude.{◌≡◌, ◌≢◌, All, Contains, false, true, IfErr, IfOk, OnErr, MatchOption};
ghost use Rattle.std.specs.Prelude.{Err, None, Some, map, string_bytes};
ghost use Rattle.std.specs.List.{AllZip};
ghost use Rattle.clap.specs.declared.error.kind.ErrorKind.TheVariants.{InvalidSubcommand};
ghost use Rattle.vme_audit_command.specs.SeveralDumps.{NamedReading};
ghost use Rattle.vme_program.specs.Audits.{AreAllowed, AuditsAndSaves, AuditsFiles, AuditsNamed, AuditsOpened};
ghost use Rattle.vme_program.specs.Audits.{AuditsThenSaves, EndsCases, IsDumpOf, IsFileOf, IsFirstUnopened};
ghost use Rattle.vme_program.specs.Audits.{IsFoundIfFaulty, IsOfWordsIfFaulty, IsOther, LeadsToInput, LeadsToNoInput};
ghost use Rattle.vme_program.specs.Audits.{RefusesFile, SavesCases, dump_words, file_line, input_name};
ghost use Rattle.vme_program.specs.Openings.{WithInput};
ghost use Rattle.vme_program.specs.declared.audit.AllowancesError.TheVariants.{Memory};
ghost use Rattle.vme_program.specs.declared.opening.OpenFilesError.TheVariants.{Unopened};
ghost use Rattle.vme_words.specs.OrderFaults.{HasUsageKind, IsOfWords};

use crate::environment::{Environment, WriteResult};
use crate::opening::{OpenFilesError, refuse_input};
use std::alloc::{AllocError, Global};
use vme_audit::Allowance;
use vme_audit_command::{AuditOptions, NamedDump, TestSuite, audit, junit_file};
use vme_audit_lines::dump_head;
use vme_commands::allowances_of;
use vme_explain::FileId;
use vme_stream::{Input, Refusal, say, tell_refusal};
use vme_text::Text;
use vme_trace::Sink;
use vme_words::{AuditOrder, OrderFault, Task, task_fault};

/// The name by which standard input is a dump.
const STANDARD_INPUT: &str = "-";

/// Why the words, i.e. the arguments, don't say how to audit.
#[derive(Drop)]
enum AllowancesError {
    /// They are wrong.
    Faulty(OrderFault),
    /// Memory ran out.
    Memory,
}

impl From<AllocError> for AllowancesError {
    ghost from_gives = { λ _ none. none ≡ Memory };

    fn from(_: AllocError) -> AllowancesError {
        AllowancesError::Memory
    }
}

/// Audits the files that an order names, as it asks for it: the binding is opened, and then the dumps. The answer is
/// the exit status, or what is wrong with the words.
#[inline(never)]
pub fn audit_files<S: Environment, O: Sink, E: Sink>(
    alloc: Global,
    environment: &S,
    order: &AuditOrder,
    out: &mut O,
    err: &mut E,
) -> Result<u8, OrderFault>
    ensures audited { IfOk result (λ status. AuditsFiles S.Environment environment.now order.now
        (O.writing out.old, O.writing out.new) (E.writing err.old, E.writing err.new) status) }
    ensures of_words { IfErr result IsOfWords }
    ensures usage { IfErr result (HasUsageKind InvalidSubcommand) }
    ensures out_stays { OnErr result (O.writing out.new ≡ O.writing out.old) }
    ensures err_stays { OnErr result (E.writing err.new ≡ E.writing err.old) }
{
    match allowances_in(alloc, order) {
        Ok(allowances) => {
            let allowed = allowances.as_slice();
            Ok(audit_binding(alloc, environment, order, allowed, out, err))
        }
        Err(AllowancesError::Faulty(fault)) => Err(fault),
        Err(AllowancesError::Memory) => Ok(tell_refusal(&Refusal::Memory, err)),
    }
}

/// The allowances of an order, for breaks, i.e. violations of a rule; or what is wrong with the words. Standard input
/// may be one dump at most.
fn allowances_in(alloc: Global, order: &AuditOrder) -> Result<Vec<Allowance>, AllowancesError>
    ensures allowed { IfOk result (λ allowances. AreAllowed order.now allowances.items) }
    ensures of_words { IfErr result IsOfWordsIfFaulty }
    ensures usage { IfErr result IsFoundIfFaulty }
{
    let Some(allowances) = allowances_of(alloc, order.allowed.as_slice())? else {
        return Err(wrong_words(alloc, "--allow takes a rule, or a rule and a line"));
    };
    let inputs = dump_names(order)
        .iter()
        .filter(|name| name.as_str() == STANDARD_INPUT);
    if inputs.count() > 1 {
        return Err(wrong_words(alloc, "standard input is one dump at most"));
    }
    Ok(allowances)
}

/// The error of arguments that are wrong, which `message` says.
fn wrong_words(alloc: Global, message: &str) -> AllowancesError
    ensures of_words { IsOfWordsIfFaulty result }
    ensures usage { IsFoundIfFaulty result }
{
    AllowancesError::Faulty(task_fault(alloc, Task::Audit, message))
}

/// The names of the dumps.
fn dump_names(order: &AuditOrder) -> &[String]
    ensures { map string_bytes result.now ≡ dump_words order.now }
{
    order.dumps.as_slice()
}

/// Opens the binding and the dumps of an order, and audits the dumps.
#[inline(never)]
fn audit_binding<S: Environment, O: Sink, E: Sink>(
    alloc: Global,
    environment: &S,
    order: &AuditOrder,
    allowances: &[Allowance],
    out: &mut O,
    err: &mut E,
) -> u8
    ensures { WithInput (S.opens environment.now) (string_bytes order.now.binding) Input.Binding
        (AuditsNamed S.Environment environment.now order.now allowances.now)
        (O.writing out.old, O.writing out.new) (E.writing err.old, E.writing err.new) result }
{
    match environment.open_file(order.binding.as_str()) {
        Some(mut binding) => audit_named(
            alloc,
            environment,
            order,
            allowances,
            &mut binding,
            out,
            err,
        ),
        None => refuse_input(Input::Binding, err),
    }
}

/// Opens the dumps of an order, and audits them by a binding that is open.
#[inline(never)]
fn audit_named<S: Environment, O: Sink, E: Sink>(
    alloc: Global,
    environment: &S,
    order: &AuditOrder,
    allowances: &[Allowance],
    binding: &mut S::Reader,
    out: &mut O,
    err: &mut E,
) -> u8
    ensures { AuditsNamed S.Environment environment.now order.now allowances.now
        (S.Reader.reading binding.old, S.Reader.reading binding.new)
        (O.writing out.old, O.writing out.new) (E.writing err.old, E.writing err.new) result }
{
    match open_dumps(alloc, environment, dump_names(order)) {
        Ok(mut dumps) => audit_opened(
            alloc,
            environment,
            order,
            allowances,
            binding,
            dumps.as_mut_slice(),
            out,
            err,
        ),
        Err(OpenFilesError::Unopened(name)) => refuse_file(alloc, name, b"cannot open", 3, err),
        Err(OpenFilesError::Memory) => tell_refusal(&Refusal::Memory, err),
    }
}

/// Opens the dumps with these names, in this order.
fn open_dumps<'a, S: Environment>(
    alloc: Global,
    environment: &S,
    names: &'a [String],
) -> Result<Vec<NamedDump<'a, S::Reader>>, OpenFilesError<'a>>
    ensures opened { IfOk result (λ dumps. AllZip (IsDumpOf S.Environment environment.now)
        (map string_bytes names.now)
        (map (λ d. record { name = d.name.now; dump = S.Reader.reading d.dump }) dumps.items)) }
    ensures unopened { (name : _) → result ≡ Err (Unopened name)
        → IsFirstUnopened S.Environment environment.now (map string_bytes names.now) name.now }
{
    let mut dumps = Vec::new(alloc);
    for name in names {
        let name = name.as_str();
        match open_dump(environment, name) {
            Some(named) => dumps.push(named)?,
            None => return Err(OpenFilesError::Unopened(name)),
        }
    }
    Ok(dumps)
}

/// Opens the dump with this name: standard input, or a file.
fn open_dump<'a, S: Environment>(environment: &S, name: &'a str) -> Option<NamedDump<'a, S::Reader>>
    ensures { MatchOption result
        ((name.now ≢ input_name) × S.opens environment.now name.now None)
        (λ named. IsDumpOf S.Environment environment.now name.now
        (record { name = named.name.now; dump = S.Reader.reading named.dump })) }
{
    match open_reader(environment, name) {
        Some(dump) => Some(NamedDump {
            name: name.as_bytes(),
            dump,
        }),
        None => None,
    }
}

/// Opens the reader of the dump with this name.
fn open_reader<S: Environment>(environment: &S, name: &str) -> Option<S::Reader>
    ensures { MatchOption result
        ((name.now ≢ input_name) × S.opens environment.now name.now None)
        (λ dump. IsDumpOf S.Environment environment.now name.now
        (record { name = name.now; dump = S.Reader.reading dump })) }
{
    if name == STANDARD_INPUT {
        Some(environment.input())
    } else {
        environment.open_file(name)
    }
}

/// Audits inputs that were opened, and writes the file of test cases, if one is wanted. The answer is the exit status.
#[inline(never)]
fn audit_opened<S: Environment, O: Sink, E: Sink>(
    alloc: Global,
    environment: &S,
    order: &AuditOrder,
    allowances: &[Allowance],
    binding: &mut S::Reader,
    dumps: &mut [NamedDump<'_, S::Reader>],
    out: &mut O,
    err: &mut E,
) -> u8
    ensures { AuditsOpened S.Environment environment.now order.now allowances.now
        (S.Reader.reading binding.old, S.Reader.reading binding.new)
        (map (λ d. record { name = d.name.now; dump = S.Reader.reading d.dump }) dumps.old)
        (map (λ d. S.Reader.reading d.dump) dumps.new)
        (O.writing out.old, O.writing out.new) (E.writing err.old, E.writing err.new) result }
{
    match &order.junit {
        Some(path) => audit_and_save(
            alloc,
            environment,
            order,
            allowances,
            path.as_str(),
            binding,
            dumps,
            out,
            err,
        ),
        None => {
            let mut suite = TestSuite::new(alloc, false);
            let options = options_of(order, allowances);
            let (_, status) = audit(alloc, binding, dumps, options, &mut suite, out, err);
            status
        }
    }
}

/// How the dumps of an order are audited.
fn options_of<'a>(order: &AuditOrder, allowances: &'a [Allowance]) -> AuditOptions<'a>
    ensures allowances { result.allowances.now ≡ allowances.now }
    ensures transfers { result.transfers ≡ order.now.transfers }
    ensures stop { result.stop ≡ order.now.stop }
    ensures skew { result.skew ≡ order.now.skew }
    ensures is_quiet { result.is_quiet ≡ order.now.is_quiet }
{
    AuditOptions {
        allowances,
        transfers: order.transfers,
        stop: order.stop,
        skew: order.skew,
        is_quiet: order.is_quiet,
    }
}

/// Audits inputs that are open, and writes test cases at `path`. If `path` leads to an input, it only says so.
#[inline(never)]
fn audit_and_save<S: Environment, O: Sink, E: Sink>(
    alloc: Global,
    environment: &S,
    order: &AuditOrder,
    allowances: &[Allowance],
    path: &str,
    binding: &mut S::Reader,
    dumps: &mut [NamedDump<'_, S::Reader>],
    out: &mut O,
    err: &mut E,
) -> u8
    ensures { AuditsAndSaves S.Environment environment.now order.now allowances.now path.now
        (S.Reader.reading binding.old, S.Reader.reading binding.new)
        (map (λ d. record { name = d.name.now; dump = S.Reader.reading d.dump }) dumps.old)
        (map (λ d. S.Reader.reading d.dump) dumps.new)
        (O.writing out.old, O.writing out.new) (E.writing err.old, E.writing err.new) result }
{
    let Some(id) = environment.id_of(binding) else {
        return refuse_input(Input::Binding, err);
    };
    if leads_to_input(environment, path, id, dumps) {
        refuse_file(alloc, path, b"is an input", 3, err)
    } else {
        audit_then_save(
            alloc,
            environment,
            order,
            allowances,
            path,
            binding,
            dumps,
            out,
            err,
        )
    }
}

/// Whether `path` leads to the binding, which is the file `binding`, or to a dump.
fn leads_to_input<S: Environment>(
    environment: &S,
    path: &str,
    binding: FileId,
    dumps: &[NamedDump<'_, S::Reader>],
) -> bool
    ensures yes { result ≡ true → LeadsToInput S.Environment environment.now path.now binding
        (map (λ d. record { name = d.name.now; dump = S.Reader.reading d.dump }) dumps.now) }
    ensures no { result ≡ false → LeadsToNoInput S.Environment environment.now path.now binding
        (map (λ d. record { name = d.name.now; dump = S.Reader.reading d.dump }) dumps.now) }
{
    match environment.id_at(path) {
        Some(id) => id == binding || is_a_dump(environment, id, dumps),
        None => false,
    }
}

/// Whether one of the dumps is the file `id`.
fn is_a_dump<S: Environment>(
    environment: &S,
    id: FileId,
    dumps: &[NamedDump<'_, S::Reader>],
) -> bool
    ensures yes { result ≡ true → (named : NamedReading)
        × Contains (map (λ d. record { name = d.name.now; dump = S.Reader.reading d.dump }) dumps.now) named
        × IsFileOf S.Environment environment.now named (Some id) }
    ensures no { result ≡ false → All (IsOther S.Environment environment.now id)
        (map (λ d. record { name = d.name.now; dump = S.Reader.reading d.dump }) dumps.now) }
{
    for named in dumps {
        if id_of_dump(environment, named) == Some(id) {
            return true;
        }
    }
    false
}

/// Which file a dump is, if that can be determined.
fn id_of_dump<S: Environment>(environment: &S, named: &NamedDump<'_, S::Reader>) -> Option<FileId>
    ensures { IsFileOf S.Environment environment.now
        (record { name = named.now.name.now; dump = S.Reader.reading named.now.dump }) result }
{
    if named.name == STANDARD_INPUT.as_bytes() {
        environment.id_at("/dev/stdin")
    } else {
        environment.id_of(&named.dump)
    }
}

/// Audits inputs that are open, and then writes test cases at `path`.
#[inline(never)]
fn audit_then_save<S: Environment, O: Sink, E: Sink>(
    alloc: Global,
    environment: &S,
    order: &AuditOrder,
    allowances: &[Allowance],
    path: &str,
    binding: &mut S::Reader,
    dumps: &mut [NamedDump<'_, S::Reader>],
    out: &mut O,
    err: &mut E,
) -> u8
    ensures { AuditsThenSaves S.Environment environment.now order.now allowances.now path.now
        (S.Reader.reading binding.old, S.Reader.reading binding.new)
        (map (λ d. record { name = d.name.now; dump = S.Reader.reading d.dump }) dumps.old)
        (map (λ d. S.Reader.reading d.dump) dumps.new)
        (O.writing out.old, O.writing out.new) (E.writing err.old, E.writing err.new) result }
{
    let mut suite = TestSuite::new(alloc, true);
    let options = options_of(order, allowances);
    let (is_audited, status) = audit(alloc, binding, dumps, options, &mut suite, out, err);
    if is_audited {
        save_cases(alloc, environment, path, &suite, status, err)
    } else {
        status
    }
}

/// Writes the file of test cases. Returns `status`, or another exit status where the file isn't written.
#[inline(never)]
fn save_cases<S: Environment, E: Sink>(
    alloc: Global,
    environment: &S,
    path: &str,
    suite: &TestSuite,
    status: u8,
    err: &mut E,
) -> u8
    ensures { SavesCases S.Environment environment.now path.now status
        (E.writing err.old, E.writing err.new) result }
{
    match junit_file(alloc, suite) {
        Ok(text) => {
            let written = environment.write_file(path, text.as_bytes());
            end_cases(alloc, path, written, status, err)
        }
        Err(_) => {
            let memory = tell_refusal(&Refusal::Memory, err);
            if status == 5 { 5 } else { memory }
        }
    }
}

/// Reports it if test cases aren't written. Returns `status`, or another exit status where they aren't written.
fn end_cases<E: Sink>(
    alloc: Global,
    path: &str,
    written: WriteResult,
    status: u8,
    err: &mut E,
) -> u8
    ensures { EndsCases path.now written status (E.writing err.old, E.writing err.new) result }
{
    match written {
        WriteResult::Whole => status,
        _ => refuse_file(alloc, path, b"cannot write", 5, err),
    }
}

/// Reports what is wrong with a file. Returns `status`, or the exit status of want of memory.
pub(crate) fn refuse_file<E: Sink>(
    alloc: Global,
    name: &str,
    why: &[u8],
    status: u8,
    err: &mut E,
) -> u8
    ensures { RefusesFile name.now why.now status (E.writing err.old, E.writing err.new) result }
{
    match file_text(alloc, name, why) {
        Ok(text) => {
            say(err, text.as_bytes());
            status
        }
        Err(_) => tell_refusal(&Refusal::Memory, err),
    }
}

/// The line that says what is wrong with a file.
fn file_text(alloc: Global, name: &str, why: &[u8]) -> Result<Text, AllocError>
    ensures { IfOk result (λ text. text ≡ file_line name.now why.now) }
{
    let head = dump_head(alloc, name.as_bytes())?;
    let mut text = Text::new(alloc);
    text.push(b"vmecheck: ")?;
    text.push(head.as_bytes())?;
    text.push(why)?;
    text.push(b"\n")?;
    Ok(text)
}

//! Parsing of the words, i.e. the arguments of the command line.

ghost use Rattle.std.specs.Prelude.{◌≡◌, ◌≢◌, ◌≤◌, [], codes, IfErr, IfNone, IfOk, IfSome, Some, is_some, map};
ghost use Rattle.std.specs.Prelude.{option_map, string_bytes, true};
ghost use Rattle.clap.specs.Words.{fault_of, first_of, found_of, kind_of, rows_of, subcommand_of, subcommand_rows_of};
ghost use Rattle.vme_words.specs.Commands.{vmecheck_app};
ghost use Rattle.vme_words.specs.OrderFaults.{HasUsageKind, IsFaultOf, IsOfWords};
ghost use Rattle.vme_words.specs.declared.limits.TheConstants.{MOST_SLOTS};
ghost use Rattle.vme_words.specs.declared.order.Task.{Task};
ghost use Rattle.vme_words.specs.Orders.{HasAll, HasAudit, HasBind, HasConfirmation, HasName, HasNames, HasOptions};
ghost use Rattle.vme_words.specs.Orders.{HasOptionsAndNames, HasOrder, HasPart, HasSignedIn, HasSkewAndNames};
ghost use Rattle.vme_words.specs.Orders.{HasUnsignedFrom, IsOrder, MayHaveSignedIn, MayHaveUnsignedFrom, SaysFiles};
ghost use Rattle.vme_words.specs.Orders.{SaysOptions, has_flag, number_in, task_name, texts_in};

use crate::command::{
    annotate_command, audit_command, bind_command, check_command, confirm_command, explain_command,
    faults_command, join_command, list_command, part_command, rules_command, tell_command,
    variables_command, vmecheck_command,
};
use crate::limits::{MOST_SLOTS, MOST_STEPS, MOST_WORKERS};
use crate::order::{
    AnnotateOrder, AuditOrder, BindOrder, CheckOrder, ConfirmOrder, ExplainOrder, FaultsOrder,
    JoinOrder, JudgeOptions, ListOrder, Order, PartOrder, RecordingFiles, RulesOrder, Task,
    TellOrder, VariablesOrder,
};
use crate::order_fault::OrderFault;
use clap::error::ErrorKind;
use clap::{ArgMatches, Command};
use std::alloc::{AllocError, Global};

/// Reads the words of the command line, the program's name first.
///
/// An order is what clap's meaning of the program's command gives the words. There is one only where clap's rules find
/// no fault in them. Invalid words and a call for help are `Usage`, of a kind that those rules give the words. Want of
/// memory is `Memory`. So words without a fault are an order unless memory runs out.
pub fn order(alloc: Global, words: &[String]) -> Result<Order, OrderFault>
    ensures ok { IfOk result (λ order. IsOrder order (subcommand_of vmecheck_app (map string_bytes words.now))) }
    ensures err { IfErr result IsOfWords }
    ensures taken { IfOk result (λ _. fault_of vmecheck_app (map string_bytes words.now) ≡ []) }
    ensures faulty { IfErr result (IsFaultOf (map string_bytes words.now)) }
{
    let matches = vmecheck_command(alloc)?.try_get_matches_from(words)?;
    match order_in(alloc, &matches)? {
        Some(order) => Ok(order),
        None => Err(usage_fault(alloc, "no task")),
    }
}

/// The order that `matches` stand for, if they have all that it needs.
fn order_in(alloc: Global, matches: &ArgMatches<'_>) -> Result<Option<Order>, AllocError>
    ensures said { IfOk result (λ o. IfSome o (λ order. IsOrder order (subcommand_rows_of matches.now))) }
    ensures found { HasOrder (subcommand_rows_of matches.now) → IfOk result (λ o. is_some o ≡ true) }
{
    match matches.subcommand() {
        Some((name, found)) => match task_named(name) {
            Some(task) => order_to(alloc, task, found),
            None => Ok(None),
        },
        None => Ok(None),
    }
}

/// The task with this name.
fn task_named(name: &str) -> Option<Task>
    ensures named { IfSome result (λ task. name.now ≡ task_name task) }
    ensures found { (task : Task) → name.now ≡ task_name task → result ≡ Some task }
{
    find_task(name)
}

/// A task with this name, if one has it.
fn find_task(name: &str) -> Option<Task>
    ensures named { IfSome result (λ task. name.now ≡ task_name task) }
    ensures none { IfNone result ((task : Task) → name.now ≢ task_name task) }
{
    if name == "check" {
        Some(Task::Check)
    } else if name == "list" {
        Some(Task::List)
    } else if name == "confirm" {
        Some(Task::Confirm)
    } else if name == "rules" {
        Some(Task::Rules)
    } else if name == "faults" {
        Some(Task::Faults)
    } else if name == "variables" {
        Some(Task::Variables)
    } else if name == "bind" {
        Some(Task::Bind)
    } else if name == "explain" {
        Some(Task::Explain)
    } else if name == "audit" {
        Some(Task::Audit)
    } else if name == "annotate" {
        Some(Task::Annotate)
    } else if name == "part" {
        Some(Task::Part)
    } else if name == "join" {
        Some(Task::Join)
    } else if name == "tell" {
        Some(Task::Tell)
    } else {
        None
    }
}

/// The order to do `task` with its matches `found`, if they have all that it needs.
fn order_to(alloc: Global, task: Task, found: &ArgMatches<'_>) -> Result<Option<Order>, AllocError>
    ensures said { IfOk result (λ o. IfSome o (λ order. IsOrder order
        (Some (task_name task, rows_of (found_of found.now))))) }
    ensures found { HasAll task (rows_of (found_of found.now)) → IfOk result (λ o. is_some o ≡ true) }
{
    match task {
        Task::Check => check_order(alloc, found),
        Task::List => list_order(alloc, found),
        Task::Confirm => confirm_order(alloc, found),
        Task::Rules => rules_order(alloc, found),
        Task::Faults => faults_order(alloc, found),
        Task::Variables => variables_order(alloc, found),
        Task::Bind => bind_order(alloc, found),
        Task::Explain => explain_order(alloc, found),
        Task::Audit => audit_order(alloc, found),
        Task::Annotate => annotate_order(alloc, found),
        Task::Part => part_order(alloc, found),
        Task::Join => join_order(alloc, found),
        Task::Tell => tell_order(alloc, found),
    }
}

/// The order that the matches of `check` stand for, if they have all that it needs.
#[tactic(auto, using(crate::proofs::OrderLemmas::is_order_by_values))]
fn check_order(alloc: Global, found: &ArgMatches<'_>) -> Result<Option<Order>, AllocError>
    ensures said { IfOk result (λ o. IfSome o (λ order. IsOrder order
        (Some (codes "check", rows_of (found_of found.now))))) }
    ensures found { HasOptionsAndNames (rows_of (found_of found.now)) → IfOk result (λ o. is_some o ≡ true) }
{
    let Some(options) = judge_options(found) else {
        return Ok(None);
    };
    let Some(recording) = recording_files(alloc, found)? else {
        return Ok(None);
    };
    Ok(Some(Order::Check(CheckOrder { options, recording })))
}

/// The order that the matches of `list` stand for, if they have all that it needs.
#[tactic(auto, using(crate::proofs::OrderLemmas::is_order_by_values))]
fn list_order(alloc: Global, found: &ArgMatches<'_>) -> Result<Option<Order>, AllocError>
    ensures said { IfOk result (λ o. IfSome o (λ order. IsOrder order
        (Some (codes "list", rows_of (found_of found.now))))) }
    ensures found { HasOptionsAndNames (rows_of (found_of found.now)) → IfOk result (λ o. is_some o ≡ true) }
{
    let Some(options) = judge_options(found) else {
        return Ok(None);
    };
    let Some(recording) = recording_files(alloc, found)? else {
        return Ok(None);
    };
    Ok(Some(Order::List(ListOrder {
        options,
        has_times: has_flag(found, "times"),
        recording,
    })))
}

/// The order that the matches of `confirm` stand for, if they have all that it needs.
#[tactic(auto, using(crate::proofs::OrderLemmas::is_order_by_values))]
fn confirm_order(alloc: Global, found: &ArgMatches<'_>) -> Result<Option<Order>, AllocError>
    ensures said { IfOk result (λ o. IfSome o (λ order. IsOrder order
        (Some (codes "confirm", rows_of (found_of found.now))))) }
    ensures found { HasConfirmation (rows_of (found_of found.now)) → IfOk result (λ o. is_some o ≡ true) }
{
    let Some(skew) = unsigned(found, "skew", 0) else {
        return Ok(None);
    };
    let Some(recording) = recording_files(alloc, found)? else {
        return Ok(None);
    };
    let Some(listing) = value_of(alloc, found, "LISTING")? else {
        return Ok(None);
    };
    Ok(Some(Order::Confirm(ConfirmOrder {
        skew,
        recording,
        listing,
    })))
}

/// The order that the matches of `audit` stand for, if they have all that it needs.
#[tactic(auto, using(crate::proofs::OrderLemmas::is_order_by_values))]
fn audit_order(alloc: Global, found: &ArgMatches<'_>) -> Result<Option<Order>, AllocError>
    ensures said { IfOk result (λ o. IfSome o (λ order. IsOrder order
        (Some (codes "audit", rows_of (found_of found.now))))) }
    ensures found { HasAudit (rows_of (found_of found.now)) → IfOk result (λ o. is_some o ≡ true) }
{
    let Some(transfers) = unsigned(found, "transfers", 0) else {
        return Ok(None);
    };
    let Some(stop) = unsigned_if_given(found, "stop", 1) else {
        return Ok(None);
    };
    let Some(skew) = unsigned(found, "skew", 0) else {
        return Ok(None);
    };
    let Some(workers) = number(found, "workers", 1, MOST_WORKERS) else {
        return Ok(None);
    };
    let Some(files) = audited_files(alloc, found)? else {
        return Ok(None);
    };
    let (binding, dumps) = files;
    let (allowed, junit) = audit_texts(alloc, found)?;
    Ok(Some(Order::Audit(AuditOrder {
        transfers,
        allowed,
        stop,
        skew,
        workers,
        is_quiet: has_flag(found, "quiet"),
        junit,
        binding,
        dumps,
    })))
}

/// The names of the binding and of the dumps of an audit, if the binding is named.
fn audited_files(
    alloc: Global,
    found: &ArgMatches<'_>,
) -> Result<Option<(String, Vec<String>)>, AllocError>
    ensures binding { IfOk result (λ o. IfSome o (λ files. Some (string_bytes files.0)
        ≡ first_of (codes "BINDING") (rows_of (found_of found.now)))) }
    ensures dumps { IfOk result (λ o. IfSome o (λ files. map string_bytes files.1.items
        ≡ texts_in (codes "DUMP") (rows_of (found_of found.now)))) }
    ensures found { HasName (codes "BINDING") (rows_of (found_of found.now)) → IfOk result (λ o. is_some o ≡ true) }
{
    let Some(binding) = value_of(alloc, found, "BINDING")? else {
        return Ok(None);
    };
    let dumps = texts_of(alloc, found, "DUMP")?;
    Ok(Some((binding, dumps)))
}

/// The breaks that an audit allows, and the name of its JUnit file, if one is named.
fn audit_texts(
    alloc: Global,
    found: &ArgMatches<'_>,
) -> Result<(Vec<String>, Option<String>), AllocError>
    ensures allowed { IfOk result (λ texts. map string_bytes texts.0.items
        ≡ texts_in (codes "allow") (rows_of (found_of found.now))) }
    ensures junit { IfOk result (λ texts. option_map string_bytes texts.1
        ≡ first_of (codes "junit") (rows_of (found_of found.now))) }
{
    let allowed = texts_of(alloc, found, "allow")?;
    let junit = value_of(alloc, found, "junit")?;
    Ok((allowed, junit))
}

/// The order that the matches of `rules` stand for.
#[tactic(auto, using(crate::proofs::OrderLemmas::is_order_by_values))]
fn rules_order(alloc: Global, found: &ArgMatches<'_>) -> Result<Option<Order>, AllocError>
    ensures said { IfOk result (λ o. IfSome o (λ order. IsOrder order
        (Some (codes "rules", rows_of (found_of found.now))))) }
    ensures found { IfOk result (λ o. is_some o ≡ true) }
{
    let rule = value_of(alloc, found, "RULE")?;
    Ok(Some(Order::Rules(RulesOrder { rule })))
}

/// The order that the matches of `faults` stand for.
#[tactic(auto, using(crate::proofs::OrderLemmas::is_order_by_values))]
fn faults_order(alloc: Global, found: &ArgMatches<'_>) -> Result<Option<Order>, AllocError>
    ensures said { IfOk result (λ o. IfSome o (λ order. IsOrder order
        (Some (codes "faults", rows_of (found_of found.now))))) }
    ensures found { IfOk result (λ o. is_some o ≡ true) }
{
    let kind = value_of(alloc, found, "KIND")?;
    Ok(Some(Order::Faults(FaultsOrder { kind })))
}

/// The order that the matches of `variables` stand for, if they name the dump.
#[tactic(auto, using(crate::proofs::OrderLemmas::is_order_by_values))]
fn variables_order(alloc: Global, found: &ArgMatches<'_>) -> Result<Option<Order>, AllocError>
    ensures said { IfOk result (λ o. IfSome o (λ order. IsOrder order
        (Some (codes "variables", rows_of (found_of found.now))))) }
    ensures found { HasName (codes "DUMP") (rows_of (found_of found.now)) → IfOk result (λ o. is_some o ≡ true) }
{
    let Some(dump) = value_of(alloc, found, "DUMP")? else {
        return Ok(None);
    };
    Ok(Some(Order::Variables(VariablesOrder { dump })))
}

/// The order that the matches of `bind` stand for, if they have all that it needs.
#[tactic(auto, using(crate::proofs::OrderLemmas::is_order_by_values))]
fn bind_order(alloc: Global, found: &ArgMatches<'_>) -> Result<Option<Order>, AllocError>
    ensures said { IfOk result (λ o. IfSome o (λ order. IsOrder order
        (Some (codes "bind", rows_of (found_of found.now))))) }
    ensures found { HasBind (rows_of (found_of found.now)) → IfOk result (λ o. is_some o ≡ true) }
{
    let Some(slots) = slots_of(found) else {
        return Ok(None);
    };
    let Some(dump) = value_of(alloc, found, "DUMP")? else {
        return Ok(None);
    };
    let scope = value_of(alloc, found, "scope")?;
    Ok(Some(Order::Bind(BindOrder { slots, scope, dump })))
}

/// The order that the matches of `explain` stand for, if they have all that it needs.
#[tactic(auto, using(crate::proofs::OrderLemmas::is_order_by_values))]
fn explain_order(alloc: Global, found: &ArgMatches<'_>) -> Result<Option<Order>, AllocError>
    ensures said { IfOk result (λ o. IfSome o (λ order. IsOrder order
        (Some (codes "explain", rows_of (found_of found.now))))) }
    ensures found { HasSkewAndNames (rows_of (found_of found.now)) → IfOk result (λ o. is_some o ≡ true) }
{
    let Some(skew) = unsigned(found, "skew", 0) else {
        return Ok(None);
    };
    let Some(recording) = recording_files(alloc, found)? else {
        return Ok(None);
    };
    let viewer = value_of(alloc, found, "gtkw")?;
    let picture = value_of(alloc, found, "svg")?;
    Ok(Some(Order::Explain(ExplainOrder {
        viewer,
        picture,
        skew,
        recording,
    })))
}

/// The order that the matches of `annotate` stand for, if they have all that it needs.
#[tactic(auto, using(crate::proofs::OrderLemmas::is_order_by_values))]
fn annotate_order(alloc: Global, found: &ArgMatches<'_>) -> Result<Option<Order>, AllocError>
    ensures said { IfOk result (λ o. IfSome o (λ order. IsOrder order
        (Some (codes "annotate", rows_of (found_of found.now))))) }
    ensures found { HasSkewAndNames (rows_of (found_of found.now)) → IfOk result (λ o. is_some o ≡ true) }
{
    let Some(skew) = unsigned(found, "skew", 0) else {
        return Ok(None);
    };
    let Some(recording) = recording_files(alloc, found)? else {
        return Ok(None);
    };
    Ok(Some(Order::Annotate(AnnotateOrder { skew, recording })))
}

/// The order that the matches of `part` stand for, if they have all that it needs.
#[tactic(auto, using(crate::proofs::OrderLemmas::is_order_by_values))]
fn part_order(alloc: Global, found: &ArgMatches<'_>) -> Result<Option<Order>, AllocError>
    ensures said { IfOk result (λ o. IfSome o (λ order. IsOrder order
        (Some (codes "part", rows_of (found_of found.now))))) }
    ensures found { HasPart (rows_of (found_of found.now)) → IfOk result (λ o. is_some o ≡ true) }
{
    let Some(number) = number(found, "number", 0, u32::MAX) else {
        return Ok(None);
    };
    let Some(recording) = recording_files(alloc, found)? else {
        return Ok(None);
    };
    Ok(Some(Order::Part(PartOrder {
        number,
        listing: has_flag(found, "listing"),
        recording,
    })))
}

/// The order that the matches of `join` stand for.
#[tactic(auto, using(crate::proofs::OrderLemmas::is_order_by_values))]
fn join_order(alloc: Global, found: &ArgMatches<'_>) -> Result<Option<Order>, AllocError>
    ensures said { IfOk result (λ o. IfSome o (λ order. IsOrder order
        (Some (codes "join", rows_of (found_of found.now))))) }
    ensures found { IfOk result (λ o. is_some o ≡ true) }
{
    let parts = texts_of(alloc, found, "PART")?;
    Ok(Some(Order::Join(JoinOrder { parts })))
}

/// The order that the matches of `tell` stand for, if they have all that it needs.
#[tactic(auto, using(crate::proofs::OrderLemmas::is_order_by_values))]
fn tell_order(alloc: Global, found: &ArgMatches<'_>) -> Result<Option<Order>, AllocError>
    ensures said { IfOk result (λ o. IfSome o (λ order. IsOrder order
        (Some (codes "tell", rows_of (found_of found.now))))) }
    ensures found { MayHaveUnsignedFrom (codes "files") 1 (rows_of (found_of found.now))
        → IfOk result (λ o. is_some o ≡ true) }
{
    let Some(file_count) = unsigned_if_given(found, "files", 1) else {
        return Ok(None);
    };
    let parts = texts_of(alloc, found, "PART")?;
    Ok(Some(Order::Tell(TellOrder {
        listing: has_flag(found, "list"),
        file_count,
        parts,
    })))
}

/// The options `--block`, `--workers` and `--skew`, if each has a number within its bounds.
fn judge_options(found: &ArgMatches<'_>) -> Option<JudgeOptions>
    ensures said { IfSome result (λ options. SaysOptions options (rows_of (found_of found.now))) }
    ensures found { HasOptions (rows_of (found_of found.now)) → is_some result ≡ true }
{
    let Some(block) = number(found, "block", 1, MOST_STEPS) else {
        return None;
    };
    let Some(workers) = number(found, "workers", 1, MOST_WORKERS) else {
        return None;
    };
    let Some(skew) = unsigned(found, "skew", 0) else {
        return None;
    };
    Some(JudgeOptions {
        block,
        workers,
        skew,
    })
}

/// The names of the binding and the dump, if both are given.
fn recording_files(
    alloc: Global,
    found: &ArgMatches<'_>,
) -> Result<Option<RecordingFiles>, AllocError>
    ensures said { IfOk result (λ o. IfSome o (λ files. SaysFiles files (rows_of (found_of found.now)))) }
    ensures found { HasNames (rows_of (found_of found.now)) → IfOk result (λ o. is_some o ≡ true) }
{
    let Some(binding) = value_of(alloc, found, "BINDING")? else {
        return Ok(None);
    };
    let Some(dump) = value_of(alloc, found, "DUMP")? else {
        return Ok(None);
    };
    Ok(Some(RecordingFiles { binding, dump }))
}

/// The number of `--slots`: `Some(None)` if the option isn't given, `None` if it has no number from 1 to `MOST_SLOTS`.
fn slots_of(found: &ArgMatches<'_>) -> Option<Option<u8>>
    ensures value { IfSome result (λ slots. slots ≡ number_in (codes "slots") (rows_of (found_of found.now))) }
    ensures range { IfSome result (λ slots. IfSome slots (λ n. (1 ≤ n) × (n ≤ MOST_SLOTS))) }
    ensures found { MayHaveSignedIn (codes "slots") 1 MOST_SLOTS (rows_of (found_of found.now))
        → is_some result ≡ true }
{
    if found.get_str("slots").is_none() {
        return Some(None);
    }
    match number(found, "slots", 1, MOST_SLOTS) {
        Some(slots) => Some(Some(slots as u8)),
        None => None,
    }
}

/// Whether the flag `name` is given.
fn has_flag(found: &ArgMatches<'_>, name: &str) -> bool
    ensures { result ≡ has_flag name.now (rows_of (found_of found.now)) }
{
    match found.get_str(name) {
        Some(text) => text == "true",
        None => false,
    }
}

/// All values of the option or file argument `id`. There are none if it isn't given.
fn texts_of(alloc: Global, found: &ArgMatches<'_>, id: &str) -> Result<Vec<String>, AllocError>
    ensures { IfOk result (λ all. map string_bytes all.items ≡ texts_in id.now (rows_of (found_of found.now))) }
{
    match found.get_strs(id) {
        Some(texts) => owned_texts(alloc, texts),
        None => Ok(Vec::new(alloc)),
    }
}

/// Copies of these texts.
fn owned_texts(alloc: Global, texts: &[&str]) -> Result<Vec<String>, AllocError>
    ensures { IfOk result (λ all. map string_bytes all.items ≡ map (λ text. text.now) texts.now) }
{
    let mut all = Vec::new(alloc);
    for text in texts {
        all.push(String::from_str(alloc, text)?)?;
    }
    Ok(all)
}

/// The number of the option `name`, if it has one from `least` to `greatest`.
fn number(found: &ArgMatches<'_>, name: &str, least: u32, greatest: u32) -> Option<u32>
    ensures value { IfSome result (λ n. number_in name.now (rows_of (found_of found.now)) ≡ Some n) }
    ensures range { IfSome result (λ n. (least ≤ n) × (n ≤ greatest)) }
    ensures found { HasSignedIn name.now least greatest (rows_of (found_of found.now)) → is_some result ≡ true }
{
    match found.get_one::<u32>(name) {
        Some(number) if least <= number && number <= greatest => Some(number),
        _ => None,
    }
}

/// The number of the option `name`, if it has one from `least` on.
fn unsigned(found: &ArgMatches<'_>, name: &str, least: u64) -> Option<u64>
    ensures value { IfSome result (λ n. number_in name.now (rows_of (found_of found.now)) ≡ Some n) }
    ensures range { IfSome result (λ n. least ≤ n) }
    ensures found { HasUnsignedFrom name.now least (rows_of (found_of found.now)) → is_some result ≡ true }
{
    match found.get_one::<u64>(name) {
        Some(number) if least <= number => Some(number),
        _ => None,
    }
}

/// The number of the option `name`: `Some(None)` if it isn't given, `None` if it has no number from `least` on.
fn unsigned_if_given(found: &ArgMatches<'_>, name: &str, least: u64) -> Option<Option<u64>>
    ensures value { IfSome result (λ o. o ≡ number_in name.now (rows_of (found_of found.now))) }
    ensures range { IfSome result (λ o. IfSome o (λ n. least ≤ n)) }
    ensures found { MayHaveUnsignedFrom name.now least (rows_of (found_of found.now)) → is_some result ≡ true }
{
    if found.get_str(name).is_none() {
        return Some(None);
    }
    match unsigned(found, name, least) {
        Some(number) => Some(Some(number)),
        None => None,
    }
}

/// The first value of the option or file argument `name`, if it has one.
fn value_of(alloc: Global, found: &ArgMatches<'_>, name: &str) -> Result<Option<String>, AllocError>
    ensures { IfOk result (λ word. option_map string_bytes word ≡ first_of name.now (rows_of (found_of found.now))) }
{
    match found.get_str(name) {
        Some(word) => Ok(Some(String::from_str(alloc, word)?)),
        None => Ok(None),
    }
}

/// A fault of the words that the program finds itself, with the text `message`.
pub fn usage_fault(alloc: Global, message: &str) -> OrderFault
    ensures of_words { IsOfWords result }
    ensures kind { HasUsageKind ErrorKind.InvalidSubcommand result }
{
    fault_under(vmecheck_command(alloc), message)
}

/// A fault of the words after `task` that the program finds itself. The usage of that task is written with it.
pub fn task_fault(alloc: Global, task: Task, message: &str) -> OrderFault
    ensures of_words { IsOfWords result }
    ensures kind { HasUsageKind ErrorKind.InvalidSubcommand result }
{
    fault_under(task_command(alloc, task), message)
}

/// A fault of the words of `command`, with the text `message`.
fn fault_under(command: Result<Command<'_>, AllocError>, message: &str) -> OrderFault
    ensures of_words { IsOfWords result }
    ensures kind { HasUsageKind ErrorKind.InvalidSubcommand result }
{
    let Ok(mut command) = command else {
        return OrderFault::Memory;
    };
    match usage_error(&mut command, message) {
        Ok(error) => OrderFault::Usage(error),
        Err(_) => OrderFault::Memory,
    }
}

/// A usage error of `command`, with the text `message`. It fails if memory runs out.
fn usage_error(command: &mut Command<'_>, message: &str) -> Result<clap::Error, AllocError>
    ensures { IfOk result (λ error. kind_of error ≡ ErrorKind.InvalidSubcommand) }
{
    command.error(ErrorKind::InvalidSubcommand, message)
}

/// The command of `task`, which is called by the program's name and its own.
fn task_command<'a>(alloc: Global, task: Task) -> Result<Command<'a>, AllocError> {
    command_of(alloc, task)?.bin_name(words_of(task))
}

/// The command of a task.
fn command_of<'a>(alloc: Global, task: Task) -> Result<Command<'a>, AllocError> {
    match task {
        Task::Check => check_command(alloc),
        Task::List => list_command(alloc),
        Task::Confirm => confirm_command(alloc),
        Task::Rules => rules_command(alloc),
        Task::Faults => faults_command(alloc),
        Task::Variables => variables_command(alloc),
        Task::Bind => bind_command(alloc),
        Task::Explain => explain_command(alloc),
        Task::Audit => audit_command(alloc),
        Task::Annotate => annotate_command(alloc),
        Task::Part => part_command(alloc),
        Task::Join => join_command(alloc),
        Task::Tell => tell_command(alloc),
    }
}

/// The program's name and the task's, as in a call.
fn words_of(task: Task) -> &'static str {
    match task {
        Task::Check => "vmecheck check",
        Task::List => "vmecheck list",
        Task::Confirm => "vmecheck confirm",
        Task::Rules => "vmecheck rules",
        Task::Faults => "vmecheck faults",
        Task::Variables => "vmecheck variables",
        Task::Bind => "vmecheck bind",
        Task::Explain => "vmecheck explain",
        Task::Audit => "vmecheck audit",
        Task::Annotate => "vmecheck annotate",
        Task::Part => "vmecheck part",
        Task::Join => "vmecheck join",
        Task::Tell => "vmecheck tell",
    }
}

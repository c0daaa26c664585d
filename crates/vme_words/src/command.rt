//! The command line of the program.

ghost use Rattle.std.specs.Prelude.{◌≡◌, IfOk, Some, codes, false};
ghost use Rattle.clap.specs.Words.{App, Rule, app_of, new_app, rule_of, with_rule, with_subcommand};
ghost use Rattle.vme_words.specs.Commands.{Makes, allow_rule, annotate_app, app_through_audit};
ghost use Rattle.vme_words.specs.Commands.{app_through_variables, audit_app, bind_app, block_rule, confirm_app};
ghost use Rattle.vme_words.specs.Commands.{explain_app, faults_app, file_count_rule, file_number_rule};
ghost use Rattle.vme_words.specs.Commands.{file_rule, files_rule, flag_rule, join_app, list_app, part_app};
ghost use Rattle.vme_words.specs.Commands.{recording_app, rules_app, skew_rule, slots_rule, stop_rule};
ghost use Rattle.vme_words.specs.Commands.{tell_app, transfers_rule, variables_app, vmecheck_app, word_rule};
ghost use Rattle.vme_words.specs.Commands.{workers_rule};

use crate::limits::{MOST_SLOTS, MOST_STEPS, MOST_WORKERS};
use clap::{Arg, ArgAction, Command, value_parser};
use std::alloc::{AllocError, Global};

/// The version of the program, and the commit that it was built from. `release` writes the commit in place of the forty
/// characters in the parentheses.
pub const VERSION: &str = "0.1.0, commit (built from a working tree, not a release)";

/// The text at the top of the program's help.
const ABOUT: &str = "\
Judges the recording of a VMEbus backplane, a four-state value change dump, and names the first edge
at which a board broke the protocol. Without arguments it judges the dump on standard input, with a
built-in binding.";

/// The text at the end of the program's help.
const EXAMPLES: &str = "\
Examples:
  vmecheck bind bus.vcd > bus.bind      a binding for a dump, for you to check
  vmecheck check bus.bind bus.vcd       the verdict
  vmecheck explain bus.bind bus.vcd     why and where
  vmecheck annotate bus.bind bus.vcd    the dump with its cycles and transfers, for a viewer
  vmecheck audit bus.bind 1.vcd 2.vcd   each break, and what was covered
  vmecheck rules H4                     what a rule asks
  vmecheck faults NoSuchPath            what a refusal means
  vmecheck part --number 1 bus.bind tuesday.vcd > 1.part
                                        the part of one of several files
  vmecheck tell 0.part 1.part           the verdict of all of them
  zcat bus.vcd.gz | vmecheck check bus.bind /dev/stdin
                                        the verdict on a dump that comes by a pipe

Exit status:
  0  conforming or confirmed, or the text was written
  1  broken, or not confirmed
  2  unreadable, or never idle, where an audit has 6
  3  an input is refused, or the command line is wrong
  4  want of memory
  5  standard output or a file can't be written
  6  nothing is broken or unreadable in an audit, but not enough is covered; so never idle too
  7  the binding that was written has no bus to judge";

/// The program, with a subcommand for each task. It fails if memory runs out.
pub fn vmecheck_command<'a>(alloc: Global) -> Result<Command<'a>, AllocError>
    ensures { IfOk result (λ command. app_of command ≡ vmecheck_app) }
{
    let command = with_task(commands_through_variables(alloc), bind_command(alloc));
    let command = with_task(command, explain_command(alloc));
    let command = with_task(command, annotate_command(alloc));
    let command = with_task(command, part_command(alloc));
    let command = with_task(command, join_command(alloc));
    let command = with_task(command, tell_command(alloc))?;
    let command = command.about(ABOUT).after_help(EXAMPLES);
    Ok(command.subcommand_required(true).version(VERSION))
}

/// The program, with its subcommands from `check` to `variables`.
fn commands_through_variables<'a>(alloc: Global) -> Result<Command<'a>, AllocError>
    ensures { Makes app_through_variables result }
{
    let command = with_task(commands_through_audit(alloc), rules_command(alloc));
    let command = with_task(command, faults_command(alloc));
    with_task(command, variables_command(alloc))
}

/// The program, with its subcommands from `check` to `audit`.
fn commands_through_audit<'a>(alloc: Global) -> Result<Command<'a>, AllocError>
    ensures { Makes app_through_audit result }
{
    let command = Ok(Command::new(alloc, "vmecheck"));
    let command = with_task(command, check_command(alloc));
    let command = with_task(command, list_command(alloc));
    let command = with_task(command, confirm_command(alloc));
    with_task(command, audit_command(alloc))
}

/// A command with the name `name` and the description `about`.
fn new_command<'a>(alloc: Global, name: &'a str, about: &'a str) -> Result<Command<'a>, AllocError>
    ensures { Makes (new_app name.entry.now) result }
{
    Ok(Command::new(alloc, name).about(about))
}

/// `command` with one more subcommand, `task`.
fn with_task<'a>(
    command: Result<Command<'a>, AllocError>,
    task: Result<Command<'a>, AllocError>,
) -> Result<Command<'a>, AllocError>
    ensures { (app part : App) → Makes app command.entry → Makes part task.entry
        → Makes (with_subcommand app part.top) result }
{
    command?.subcommand(task?)
}

/// `command` with one more option or file argument, `arg`.
fn with_arg<'a>(
    command: Result<Command<'a>, AllocError>,
    arg: Arg<'a>,
) -> Result<Command<'a>, AllocError>
    ensures { (app : App) (rule : Rule) → Makes app command.entry → rule_of arg.entry ≡ rule
        → arg.entry.global ≡ false → Makes (with_rule app rule) result }
{
    command?.arg(arg)
}

/// The command that judges a recording.
pub(crate) fn check_command<'a>(alloc: Global) -> Result<Command<'a>, AllocError>
    ensures { Makes (recording_app (codes "check")) result }
{
    recording_command(alloc, "check", "Judges a recording, and writes the verdict")
}

/// The command that lists the tenures, cycles and transfers of a recording, and its verdict.
pub(crate) fn list_command<'a>(alloc: Global) -> Result<Command<'a>, AllocError>
    ensures { Makes list_app result }
{
    let command = recording_command(
        alloc,
        "list",
        "Lists the tenures, cycles and transfers of a recording, and its verdict",
    );
    with_arg(
        command,
        flag(
            alloc,
            "times",
            "Writes the time of each instant, too; confirm doesn't take such a listing",
        ),
    )
}

/// A command with the options of judging, a binding and a dump.
fn recording_command<'a>(
    alloc: Global,
    name: &'a str,
    about: &'a str,
) -> Result<Command<'a>, AllocError>
    ensures { Makes (recording_app name.entry.now) result }
{
    let command = new_command(alloc, name, about);
    let command = with_arg(command, block_option(alloc));
    let command = with_arg(command, workers_option(alloc));
    let command = with_arg(command, skew_option(alloc));
    let command = with_arg(command, binding_file(alloc));
    with_arg(command, dump_file(alloc))
}

/// The command that says whether a listing is that of a recording.
pub(crate) fn confirm_command<'a>(alloc: Global) -> Result<Command<'a>, AllocError>
    ensures { Makes confirm_app result }
{
    let command = new_command(
        alloc,
        "confirm",
        "Says whether a listing is that of a recording",
    );
    let command = with_arg(command, skew_option(alloc));
    let command = with_arg(command, binding_file(alloc));
    let command = with_arg(command, dump_file(alloc));
    with_arg(command, file(alloc, "LISTING", "The file of the listing"))
}

/// The command that reports each break of recordings, and what they cover.
pub(crate) fn audit_command<'a>(alloc: Global) -> Result<Command<'a>, AllocError>
    ensures { Makes audit_app result }
{
    let command = new_command(
        alloc,
        "audit",
        "Tells each break of recordings as they are read, and what they cover",
    );
    let command = with_arg(command, transfers_option(alloc));
    let command = with_arg(command, allow_option(alloc));
    let command = with_arg(command, stop_option(alloc));
    let command = with_arg(command, skew_option(alloc));
    let command = with_arg(command, workers_option(alloc));
    let command = with_arg(
        command,
        flag(
            alloc,
            "quiet",
            "Writes the breaks and the outcome, without counts",
        ),
    );
    let command = with_arg(
        command,
        word_option(
            alloc,
            "junit",
            "A JUnit file to write at the end, with one test case for each dump",
        ),
    );
    let command = with_arg(command, binding_file(alloc));
    with_arg(command, dump_files(alloc))
}

/// The command that says what the rules require.
pub(crate) fn rules_command<'a>(alloc: Global) -> Result<Command<'a>, AllocError>
    ensures { Makes rules_app result }
{
    let rule = Arg::new(alloc, "RULE").help(
        "One rule by its name, as H4; all of them, where none is named",
    );
    Command::new(alloc, "rules")
        .about("Says what each rule asks, and what is usually wrong where it is broken")
        .arg(rule)
}

/// The command that says what the refusals of inputs mean.
pub(crate) fn faults_command<'a>(alloc: Global) -> Result<Command<'a>, AllocError>
    ensures { Makes faults_app result }
{
    let kind = Arg::new(alloc, "KIND").help(
        "One kind by its name, as NoSuchPath or 'cannot open'; all of them, where none is named",
    );
    Command::new(alloc, "faults")
        .about("Says what each refusal of an input means, and what to do")
        .arg(kind)
}

/// The command that lists the variables of a dump, and how many value changes the dump has of each.
pub(crate) fn variables_command<'a>(alloc: Global) -> Result<Command<'a>, AllocError>
    ensures { Makes variables_app result }
{
    Command::new(alloc, "variables")
        .about("Lists the variables of a dump, and how many value changes it has of each")
        .arg(dump_file(alloc))
}

/// The command that writes a binding for a dump.
pub(crate) fn bind_command<'a>(alloc: Global) -> Result<Command<'a>, AllocError>
    ensures { Makes bind_app result }
{
    let command = new_command(
        alloc,
        "bind",
        "Writes a binding for a dump, by the names of its variables",
    );
    let command = with_arg(command, slots_option(alloc));
    let command = with_arg(
        command,
        word_option(
            alloc,
            "scope",
            "The scope whose lines are bound, by its path; else the one that holds most of them",
        ),
    );
    with_arg(command, dump_file(alloc))
}

/// The command that judges a recording, and says why and where.
pub(crate) fn explain_command<'a>(alloc: Global) -> Result<Command<'a>, AllocError>
    ensures { Makes explain_app result }
{
    let command = new_command(
        alloc,
        "explain",
        "Judges a recording, and says why and where",
    );
    let command = with_arg(
        command,
        word_option(
            alloc,
            "gtkw",
            "A file to write for the waveform viewer, with a marker at the break",
        ),
    );
    let command = with_arg(
        command,
        word_option(
            alloc,
            "svg",
            "An SVG file to write, with a picture of the lines around the break",
        ),
    );
    let command = with_arg(command, skew_option(alloc));
    let command = with_arg(command, binding_file(alloc));
    with_arg(command, dump_file(alloc))
}

/// The command that writes a dump again, annotated with the listing of its recording.
pub(crate) fn annotate_command<'a>(alloc: Global) -> Result<Command<'a>, AllocError>
    ensures { Makes annotate_app result }
{
    let command = new_command(
        alloc,
        "annotate",
        "Writes a dump again, with variables that show its tenures, cycles and transfers",
    );
    let command = with_arg(command, skew_option(alloc));
    let command = with_arg(command, binding_file(alloc));
    with_arg(command, dump_file(alloc))
}

/// The command that judges one file of a recording, and writes its part.
pub(crate) fn part_command<'a>(alloc: Global) -> Result<Command<'a>, AllocError>
    ensures { Makes part_app result }
{
    let command = new_command(
        alloc,
        "part",
        "Judges a file of a recording, whatever stood before it, and writes its part",
    );
    let command = with_arg(command, number_option(alloc));
    let command = with_arg(
        command,
        flag(
            alloc,
            "listing",
            "Keeps the marks that a listing is made of",
        ),
    );
    let command = with_arg(command, binding_file(alloc));
    with_arg(command, dump_file(alloc))
}

/// The command that joins several parts into one.
pub(crate) fn join_command<'a>(alloc: Global) -> Result<Command<'a>, AllocError>
    ensures { Makes join_app result }
{
    let command = new_command(alloc, "join", "Writes one part of several, in any order");
    with_arg(command, part_files(alloc))
}

/// The command that reports the verdict of a whole recording from its parts, or writes its listing.
pub(crate) fn tell_command<'a>(alloc: Global) -> Result<Command<'a>, AllocError>
    ensures { Makes tell_app result }
{
    let command = new_command(
        alloc,
        "tell",
        "Tells the verdict of a whole recording by its parts, or writes its listing",
    );
    let command = with_arg(
        command,
        flag(alloc, "list", "Writes the listing in place of the verdict"),
    );
    let command = with_arg(command, files_option(alloc));
    with_arg(command, part_files(alloc))
}

fn number_option<'a>(alloc: Global) -> Arg<'a>
    ensures rule { rule_of result ≡ file_number_rule }
    ensures local { result.global ≡ false }
{
    Arg::new(alloc, "number")
        .long("number")
        .value_parser(value_parser!(u32))
        .default_value("0")
        .help("Which file of the recording the dump is, 0 to 4294967295")
}

fn files_option<'a>(alloc: Global) -> Arg<'a>
    ensures rule { rule_of result ≡ file_count_rule }
    ensures local { result.global ≡ false }
{
    Arg::new(alloc, "files")
        .long("files")
        .value_parser(value_parser!(u64).range(1..))
        .help("How many files the recording has; else it ends with the last file that has a part")
}

fn part_files<'a>(alloc: Global) -> Arg<'a>
    ensures rule { rule_of result ≡ files_rule (codes "PART") }
    ensures local { result.global ≡ false }
{
    file(alloc, "PART", "The files of the parts").num_args(1..)
}

fn slots_option<'a>(alloc: Global) -> Arg<'a>
    ensures rule { rule_of result ≡ slots_rule }
    ensures local { result.global ≡ false }
{
    Arg::new(alloc, "slots")
        .long("slots")
        .value_parser(value_parser!(u32).range(1..=MOST_SLOTS as i64))
        .help("How many slots the backplane has, 1 to 21; else the daisy chains show it")
}

fn binding_file<'a>(alloc: Global) -> Arg<'a>
    ensures rule { rule_of result ≡ file_rule (codes "BINDING") }
    ensures local { result.global ≡ false }
{
    file(
        alloc,
        "BINDING",
        "The file that binds the lines of the backplane",
    )
}

fn dump_file<'a>(alloc: Global) -> Arg<'a>
    ensures rule { rule_of result ≡ file_rule (codes "DUMP") }
    ensures local { result.global ≡ false }
{
    file(
        alloc,
        "DUMP",
        "The file of the recording, a value change dump",
    )
}

fn block_option<'a>(alloc: Global) -> Arg<'a>
    ensures rule { rule_of result ≡ block_rule }
    ensures local { result.global ≡ false }
{
    Arg::new(alloc, "block")
        .long("block")
        .value_parser(value_parser!(u32).range(1..=MOST_STEPS as i64))
        .default_value("16384")
        .help("How many steps a block has, 1 to 65536")
}

fn workers_option<'a>(alloc: Global) -> Arg<'a>
    ensures rule { rule_of result ≡ workers_rule }
    ensures local { result.global ≡ false }
{
    Arg::new(alloc, "workers")
        .long("workers")
        .value_parser(value_parser!(u32).range(1..=MOST_WORKERS as i64))
        .default_value("4")
        .help("How many workers read and judge, 1 to 64; the answer doesn't depend on it")
}

fn skew_option<'a>(alloc: Global) -> Arg<'a>
    ensures rule { rule_of result ≡ skew_rule }
    ensures local { result.global ≡ false }
{
    Arg::new(alloc, "skew")
        .long("skew")
        .value_parser(value_parser!(u64))
        .default_value("0")
        .help(
            "How far apart probes may show one moment of the bus, 0 to 18446744073709551615 time units of the dump",
        )
}

fn transfers_option<'a>(alloc: Global) -> Arg<'a>
    ensures rule { rule_of result ≡ transfers_rule }
    ensures local { result.global ≡ false }
{
    Arg::new(alloc, "transfers")
        .long("transfers")
        .value_parser(value_parser!(u64))
        .default_value("1")
        .help("How many transfers must be answered for a recording to count as covered")
}

fn allow_option<'a>(alloc: Global) -> Arg<'a>
    ensures rule { rule_of result ≡ allow_rule }
    ensures local { result.global ≡ false }
{
    Arg::new(alloc, "allow")
        .long("allow")
        .action(ArgAction::Append)
        .help(
            "A known deviation: RULE or RULE=LINE, as H4 or H4=DTACK; may be given more than once",
        )
}

fn stop_option<'a>(alloc: Global) -> Arg<'a>
    ensures rule { rule_of result ≡ stop_rule }
    ensures local { result.global ≡ false }
{
    Arg::new(alloc, "stop")
        .long("stop")
        .value_parser(value_parser!(u64).range(1..))
        .help(
            "Stop reading a dump after this many breaks that aren't allowed; else all of it is read",
        )
}

fn dump_files<'a>(alloc: Global) -> Arg<'a>
    ensures rule { rule_of result ≡ files_rule (codes "DUMP") }
    ensures local { result.global ≡ false }
{
    file(
        alloc,
        "DUMP",
        "The files of the recordings, value change dumps; - is standard input",
    )
    .num_args(1..)
}

/// A flag: an option without a value, which may be left out.
fn flag<'a>(alloc: Global, name: &'a str, help: &'a str) -> Arg<'a>
    ensures rule { rule_of result ≡ flag_rule name.entry.now }
    ensures local { result.global ≡ false }
    ensures help { result.help ≡ Some help.entry }
{
    Arg::new(alloc, name)
        .long(name)
        .action(ArgAction::SetTrue)
        .help(help)
}

/// An option with any text as its value, which may be left out.
fn word_option<'a>(alloc: Global, name: &'a str, help: &'a str) -> Arg<'a>
    ensures rule { rule_of result ≡ word_rule name.entry.now }
    ensures local { result.global ≡ false }
    ensures help { result.help ≡ Some help.entry }
{
    Arg::new(alloc, name).long(name).help(help)
}

/// A file argument, which has to be given.
fn file<'a>(alloc: Global, name: &'a str, help: &'a str) -> Arg<'a>
    ensures rule { rule_of result ≡ file_rule name.entry.now }
    ensures local { result.global ≡ false }
    ensures help { result.help ≡ Some help.entry }
{
    Arg::new(alloc, name).required(true).help(help)
}

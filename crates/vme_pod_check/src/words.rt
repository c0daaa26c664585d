//! The arguments of the command line.

ghost use Rattle.std.specs.Prelude.{◌≤◌, IfOk, IfSome};

use crate::judge::Plan;
use clap::error::ErrorKind;
use clap::{Arg, ArgMatches, Command, value_parser};
use std::alloc::{AllocError, Global};

/// The parsed command line: the files, and how their recording is delivered.
#[derive(Debug, Drop)]
pub struct PodsOrder {
    /// The file of the binding.
    pub binding: String,
    /// The file of the dump.
    pub dump: String,
    /// How the recording is delivered.
    pub plan: Plan,
}

/// Parses the arguments `words`, the program's name first. None is a fault of clap itself. The kind of an error says
/// whether it is a fault of the arguments, the help that they ask for, or lack of memory.
pub fn order_of(alloc: Global, words: &[String]) -> Result<Option<PodsOrder>, clap::Error>
    ensures block { IfOk result (λ o. IfSome o (λ order. (1 ≤ order.plan.block) × (order.plan.block ≤ 65536))) }
    ensures workers { IfOk result (λ o. IfSome o (λ order. (1 ≤ order.plan.workers) × (order.plan.workers ≤ 64))) }
{
    let matches = command(alloc)?.try_get_matches_from(words)?;
    let (Some(binding), Some(dump)) = (matches.get_str("BINDING"), matches.get_str("DUMP")) else {
        return Ok(None);
    };
    let (Some(block), Some(workers)) = (
        number(&matches, "block", 65536),
        number(&matches, "workers", 64),
    ) else {
        return Ok(None);
    };
    let seed = matches.get_one::<u64>("seed");
    Ok(Some(PodsOrder {
        binding: String::from_str(alloc, binding)?,
        dump: String::from_str(alloc, dump)?,
        plan: Plan {
            block,
            workers,
            seed,
        },
    }))
}

/// The number of the option `name`, if it is from 1 to `greatest`.
fn number(matches: &ArgMatches<'_>, name: &str, greatest: u32) -> Option<u32>
    ensures { IfSome result (λ n. (1 ≤ n) × (n ≤ greatest)) }
{
    match matches.get_one::<u32>(name) {
        Some(number) if 1 <= number && number <= greatest => Some(number),
        _ => None,
    }
}

/// The error for arguments that aren't text. An error of this function is lack of memory.
pub fn no_text(alloc: Global) -> Result<clap::Error, AllocError> {
    let mut command = command(alloc)?;
    command.error(ErrorKind::InvalidValue, "a word is no text")
}

fn command<'a>(alloc: Global) -> Result<Command<'a>, AllocError> {
    let command = Command::new(alloc, "vme_pods")
        .arg(
            Arg::new(alloc, "block")
                .long("block")
                .value_parser(value_parser!(u32).range(1..=65536))
                .default_value("16384")
                .help("How many steps a block has, 1 to 65536"),
        )?
        .arg(
            Arg::new(alloc, "workers")
                .long("workers")
                .value_parser(value_parser!(u32).range(1..=64))
                .default_value("4")
                .help("How many workers deliver, 1 to 64"),
        )?
        .arg(
            Arg::new(alloc, "seed")
                .long("seed")
                .value_parser(value_parser!(u64))
                .help("Shuffles the deliveries, and repeats some; without it they are in order"),
        )?
        .arg(
            Arg::new(alloc, "BINDING")
                .required(true)
                .help("The file that binds the lines of the backplane"),
        )?
        .arg(
            Arg::new(alloc, "DUMP")
                .required(true)
                .help("The file of the recording, a value change dump"),
        )?;
    Ok(command)
}

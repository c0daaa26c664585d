//! A conformance checker for recordings of a VMEbus backplane (ANSI/IEEE Std 1014-1987).
//!
//! The program reads its arguments, opens files and streams, and no more: vme_program does the
//! rest. README.md says how it is used.
//!
//! # Parts
//!
//! - this file: the arguments of the command line, standard output and standard error, and the
//!   messages about invalid arguments.
//! - `host`: the files and standard input, as vme_program asks for them.
//! - `save`: how a file is written beside another, and takes its place.
//!
//! # Exit statuses
//!
//! - 0: conforming, confirmed, or written.
//! - 1: a rule is broken, or a listing isn't the recording's.
//! - 2: the recording can't be read further (rules U1 to U4), or the bus is never idle, where an
//!   audit has 6.
//! - 3: an input, the arguments, or the place of a file to write are refused.
//! - 4: memory ran out.
//! - 5: the answer can't be written.
//! - 6: nothing is broken or unreadable in an audit, but not enough is covered; so never idle too.
//! - 7: `bind` found no bus that a check judges.
//!
//! # What is proved
//!
//! Invalid arguments have status 3, and help and version 0 or 5 (`explain_words`); also those that
//! vme_program refuses, as the name of a rule that doesn't exist (`refuse_words`). Which file is
//! opened for each argument and passed to which command is proved of vme_program; what is written
//! for the bytes of the inputs is proved of the crates of the commands.
//!
//! # What isn't proved
//!
//! That `main` passes on the arguments, the files by their names, and the standard streams:
//! `./test` runs the program.
#![tactic(auto)]

ghost use Rattle.std.specs.Prelude.{◌≡◌, ◌≢◌, ◌⊎◌, IfErr};
ghost use Rattle.clap.specs.Words.{kind_of};
ghost use Rattle.clap.specs.declared.error.kind.ErrorKind.TheVariants.{DisplayHelp, DisplayVersion};
ghost use Rattle.clap.specs.declared.error.kind.ErrorKind.TheVariants.{InvalidSubcommand};
ghost use Rattle.vme_words.specs.OrderFaults.{HasUsageKind, IsOfWords};
ghost use Rattle.vme_words.specs.declared.order_fault.OrderFault.TheVariants.{Memory};

mod host;
mod save;

use crate::host::Host;
use std::env;
use std::io::ErrorKind;
use std::process::ExitCode;
use std::thread::Threads;
use vme_commands::{unread_words, words_status};
use vme_program::run_words;
use vme_stream::{Io, Refusal, cannot_write_line, complain, refusal_line};
use vme_words::OrderFault;

fn main(rt: HostRuntime) -> ExitCode {
    ExitCode::from(run(&rt, &rt))
}

/// Does what the words, i.e. the arguments, ask for. Returns the exit status.
fn run<R: Threads + Sync>(rt: &HostRuntime, threads: &R) -> u8 {
    match answer(rt, threads) {
        Ok(status) => status,
        Err(fault) => refuse_words(rt, &fault),
    }
}

/// Does what the words ask for. Returns the exit status, or what is wrong with the words.
fn answer<R: Threads + Sync>(rt: &HostRuntime, threads: &R) -> Result<u8, OrderFault>
    ensures { IfErr result IsOfWords }
{
    let words = words_of(rt)?;
    let (mut out, mut err) = (Io::new(rt.stdout()), Io::new(rt.stderr()));
    let host = Host::new(rt);
    run_words(
        threads,
        rt.alloc(),
        &host,
        words.as_slice(),
        &mut out,
        &mut err,
    )
}

/// The words of the command line, the program's name first.
fn words_of(rt: &HostRuntime) -> Result<Vec<String>, OrderFault>
    ensures { IfErr result IsOfWords }
{
    match env::args(rt) {
        Ok(args) => Ok(args.collect(rt.alloc())?),
        Err(error) => {
            let is_no_memory = error.kind() == ErrorKind::OutOfMemory;
            Err(unread_words(rt.alloc(), is_no_memory))
        }
    }
}

/// Says why the words are no order, i.e. no command. Returns the exit status.
fn refuse_words(rt: &HostRuntime, fault: &OrderFault) -> u8
    ensures memory { fault.now ≡ Memory → result ≡ 4 }
    ensures wrong { fault.now ≢ Memory → HasUsageKind InvalidSubcommand fault.now → result ≡ 3 }
{
    match fault {
        OrderFault::Memory => {
            complain(&mut Io::new(rt.stderr()), refusal_line(&Refusal::Memory));
            Refusal::Memory.status()
        }
        OrderFault::Usage(error) => explain_words(rt, error),
    }
}

/// Prints what is wrong with the words, or the help or the version that they ask for. The status is 3 for invalid
/// words; else it is 0, or 5 where the text can't be written.
fn explain_words(rt: &HostRuntime, error: &clap::Error) -> u8
    ensures wrong { (kind_of error.now ≢ DisplayHelp) → (kind_of error.now ≢ DisplayVersion) → result ≡ 3 }
    ensures help { kind_of error.now ≡ DisplayHelp → (result ≡ 0) ⊎ (result ≡ 5) }
    ensures version { kind_of error.now ≡ DisplayVersion → (result ≡ 0) ⊎ (result ≡ 5) }
{
    match error.print(rt) {
        Ok(()) => words_status(error.kind(), true),
        Err(_) => {
            if !error.use_stderr() {
                complain(&mut Io::new(rt.stderr()), cannot_write_line());
            }
            words_status(error.kind(), false)
        }
    }
}

//! Judges a recording as the pods of a logic analyser would deliver it: cut into blocks, which
//! workers deliver in any order, some of them twice.
//!
//! `vme_pods [--block N] [--workers N] [--seed S] BINDING DUMP` writes the line that
//! `vmecheck check` writes, with its status. It is an example for those who embed the library, and
//! shows that `run` of vme_floor judges real recordings. It reads its arguments and opens two files.
//! vme_pod_check does the rest.
//!
//! # What is proved
//!
//! What is written and the status: see vme_pod_check (`check_by_pods`). Here: a file that can't be
//! opened is refused as the input that it is (`open`), with the status of that refusal (`refuse`).
//!
//! # What isn't proved
//!
//! That `main` passes on the arguments, the files by their names and the standard streams: `./test`
//! runs the program.
#![tactic(auto)]

ghost use Rattle.std.specs.Prelude.{◌≡◌, ◌≤◌, IfErr, IfOk, IfSome};
ghost use Rattle.vme_stream.specs.Texts.{refusal_status};
ghost use Rattle.vme_stream.specs.declared.refusal.Refusal.TheVariants.{CannotOpen};

use clap::error::ErrorKind;
use std::fs::{self, File};
use std::process::ExitCode;
use std::sync::Wait;
use std::thread::Threads;
use std::{env, io};
use vme_pod_check::{PodsOrder, check_by_pods, no_text, order_of};
use vme_stream::{Input, Io, Refusal, tell_refusal};

fn main(rt: HostRuntime) -> ExitCode {
    ExitCode::from(work(&rt, &rt))
}

/// Parses the command line and does what it asks for, by threads of `threads`. The answer is the exit status.
fn work<R: Threads + Wait + Sync>(rt: &HostRuntime, threads: &R) -> u8 {
    match ordered(rt) {
        Ok(Some(order)) => check_order(rt, threads, &order),
        Ok(None) => refuse(rt, &Refusal::Memory),
        Err(error) if error.kind() == ErrorKind::OutOfMemory => refuse(rt, &Refusal::Memory),
        Err(error) => {
            let printed = error.print(rt);
            match error.use_stderr() {
                true => 3,
                false if printed.is_ok() => 0,
                false => 5,
            }
        }
    }
}

/// The order, i.e. the parsed command line.
fn ordered(rt: &HostRuntime) -> Result<Option<PodsOrder>, clap::Error>
    ensures block { IfOk result (λ o. IfSome o (λ order. (1 ≤ order.plan.block) × (order.plan.block ≤ 65536))) }
    ensures workers { IfOk result (λ o. IfSome o (λ order. (1 ≤ order.plan.workers) × (order.plan.workers ≤ 64))) }
{
    let words: Vec<String> = match env::args(rt) {
        Ok(args) => args.collect(rt.alloc())?,
        Err(error) if error.kind() == io::ErrorKind::OutOfMemory => return Ok(None),
        Err(_) => return Err(no_text(rt.alloc())?),
    };
    order_of(rt.alloc(), words.as_slice())
}

/// Checks the recording of the files in `order`. Both are opened before one is read.
fn check_order<R: Threads + Wait + Sync>(rt: &HostRuntime, threads: &R, order: &PodsOrder) -> u8
    requires block { (1 ≤ order.now.plan.block) × (order.now.plan.block ≤ 65536) }
    requires workers { (1 ≤ order.now.plan.workers) × (order.now.plan.workers ≤ 64) }
{
    match open_both(rt, order) {
        Ok((mut binding, mut dump)) => check_by_pods(
            threads,
            rt.alloc(),
            &mut binding,
            &mut dump,
            order.plan,
            &mut Io::new(rt.stdout()),
            &mut Io::new(rt.stderr()),
        ),
        Err(refusal) => refuse(rt, &refusal),
    }
}

/// Opens the binding and the dump of an order.
fn open_both(rt: &HostRuntime, order: &PodsOrder) -> Result<(Io<File>, Io<File>), Refusal> {
    let binding = open(rt, order.binding.as_str(), Input::Binding)?;
    let dump = open(rt, order.dump.as_str(), Input::Dump)?;
    Ok((binding, dump))
}

fn open(rt: &HostRuntime, name: &str, input: Input) -> Result<Io<File>, Refusal>
    ensures { IfErr result (λ refusal. refusal ≡ CannotOpen input) }
{
    match fs::open(rt, name) {
        Ok(file) => Ok(Io::new(file)),
        Err(_) => Err(Refusal::CannotOpen(input)),
    }
}

/// Writes why there is no verdict. The answer is the refusal's status.
fn refuse(rt: &HostRuntime, refusal: &Refusal) -> u8
    ensures { result ≡ refusal_status refusal.now }
{
    tell_refusal(refusal, &mut Io::new(rt.stderr()))
}

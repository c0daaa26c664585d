//! From the words of the command line to one command.

ghost use Rattle.std.specs.Prelude.{◌≡◌, ◌<◌, ◌≤◌, ◌⊎◌, IfErr, IfOk, OnErr, length, map, string_bytes};
ghost use Rattle.clap.specs.Words.{subcommand_of};
ghost use Rattle.clap.specs.declared.error.kind.ErrorKind.TheVariants.{InvalidSubcommand};
ghost use Rattle.vme_program.specs.Inputs.{ChecksInput};
ghost use Rattle.vme_program.specs.Programs.{DoesOrder, IsRefusedOrder};
ghost use Rattle.vme_words.specs.Commands.{vmecheck_app};
ghost use Rattle.vme_words.specs.OrderFaults.{HasUsageKind, IsFaultOf, IsOfWords};
ghost use Rattle.vme_words.specs.Orders.{IsOrder};
ghost use Rattle.vme_words.specs.declared.order.Order.{Order as OrderIs};

use crate::annotate::annotate_files;
use crate::audit::audit_files;
use crate::bind::bind_file;
use crate::check::check_files;
use crate::confirm::confirm_files;
use crate::environment::Environment;
use crate::explain::explain_files;
use crate::faults::faults_named;
use crate::input::check_input;
use crate::list::list_files;
use crate::parts::{join_files, part_file, tell_files};
use crate::rules::rules_named;
use crate::variables::variables_file;
use std::alloc::Global;
use std::thread::Threads;
use vme_trace::Sink;
use vme_words::words::order;
use vme_words::{Order, OrderFault};

/// Does what the words of the command line ask for, the program's name first. Without words it checks the dump on
/// standard input. The answer is the exit status, or what is wrong with the words: then nothing is opened or written.
pub fn run_words<R: Threads + Sync, S: Environment, O: Sink, E: Sink>(
    rt: &R,
    alloc: Global,
    environment: &S,
    words: &[String],
    out: &mut O,
    err: &mut E,
) -> Result<u8, OrderFault>
    ensures none { length words.now ≤ 1 → IfOk result (λ status. ChecksInput
        (S.gives_input environment.now) (S.on_terminal environment.now)
        (O.writing out.old, O.writing out.new) (E.writing err.old, E.writing err.new) status) }
    ensures some { 1 < length words.now → IfOk result (λ status. (asked : OrderIs)
        × IsOrder asked (subcommand_of vmecheck_app (map string_bytes words.now))
        × DoesOrder S.Environment environment.now asked
        (O.writing out.old, O.writing out.new) (E.writing err.old, E.writing err.new) status) }
    ensures of_words { IfErr result IsOfWords }
    ensures faulty { IfErr result (λ fault. IsFaultOf (map string_bytes words.now) fault ⊎ ((asked : OrderIs)
        × IsOrder asked (subcommand_of vmecheck_app (map string_bytes words.now))
        × IsRefusedOrder asked × HasUsageKind InvalidSubcommand fault)) }
    ensures out_stays { OnErr result (O.writing out.new ≡ O.writing out.old) }
    ensures err_stays { OnErr result (E.writing err.new ≡ E.writing err.old) }
{
    if words.len() <= 1 {
        return Ok(check_input(rt, alloc, environment, out, err));
    }
    match order(alloc, words) {
        Ok(asked) => run_order(rt, alloc, environment, &asked, out, err),
        Err(fault) => Err(fault),
    }
}

/// Does what an order asks for. The answer is the exit status, or what is wrong with the words.
fn run_order<R: Threads + Sync, S: Environment, O: Sink, E: Sink>(
    rt: &R,
    alloc: Global,
    environment: &S,
    order: &Order,
    out: &mut O,
    err: &mut E,
) -> Result<u8, OrderFault>
    ensures done { IfOk result (λ status. DoesOrder S.Environment environment.now order.now
        (O.writing out.old, O.writing out.new) (E.writing err.old, E.writing err.new) status) }
    ensures refused { OnErr result (IsRefusedOrder order.now) }
    ensures of_words { IfErr result IsOfWords }
    ensures usage { IfErr result (HasUsageKind InvalidSubcommand) }
    ensures out_stays { OnErr result (O.writing out.new ≡ O.writing out.old) }
    ensures err_stays { OnErr result (E.writing err.new ≡ E.writing err.old) }
{
    match order {
        Order::Check(order) => Ok(check_files(rt, alloc, environment, order, out, err)),
        Order::List(order) => Ok(list_files(rt, alloc, environment, order, out, err)),
        Order::Confirm(order) => Ok(confirm_files(alloc, environment, order, out, err)),
        Order::Audit(order) => audit_files(alloc, environment, order, out, err),
        Order::Explain(order) => Ok(explain_files(alloc, environment, order, out, err)),
        Order::Bind(order) => Ok(bind_file(alloc, environment, order, out, err)),
        Order::Variables(order) => Ok(variables_file(alloc, environment, order, out, err)),
        Order::Rules(order) => rules_named(alloc, order, out, err),
        Order::Faults(order) => faults_named(alloc, order, out, err),
        Order::Annotate(order) => Ok(annotate_files(alloc, environment, order, out, err)),
        Order::Part(order) => Ok(part_file(alloc, environment, order, out, err)),
        Order::Join(order) => Ok(join_files(alloc, environment, order, out, err)),
        Order::Tell(order) => Ok(tell_files(alloc, environment, order, out, err)),
    }
}

//! The rule that an order names, or each of them.

ghost use Rattle.std.specs.Prelude.{◌≡◌, IfErr, IfOk, IsErr, OnErr};
ghost use Rattle.clap.specs.declared.error.kind.ErrorKind.TheVariants.{InvalidSubcommand};
ghost use Rattle.vme_program.specs.Texts.{IsRuleOf, NamesNoRule, TellsRules};
ghost use Rattle.vme_words.specs.OrderFaults.{HasUsageKind, IsOfWords};

use std::alloc::Global;
use vme_text_commands::tell_rules;
use vme_trace::{Rule, Sink};
use vme_words::{OrderFault, RulesOrder, Task, task_fault};

/// Says what the rule that an order names requires, or each rule, if it names none. Returns the exit status, or that
/// there is no such rule.
#[inline(never)]
pub fn rules_named<O: Sink, E: Sink>(
    alloc: Global,
    order: &RulesOrder,
    out: &mut O,
    err: &mut E,
) -> Result<u8, OrderFault>
    ensures told { IfOk result (λ status. TellsRules order.now
        (O.writing out.old, O.writing out.new) (E.writing err.old, E.writing err.new) status) }
    ensures faulty { OnErr result (NamesNoRule order.now) }
    ensures refused { NamesNoRule order.now → IsErr result }
    ensures of_words { IfErr result IsOfWords }
    ensures usage { IfErr result (HasUsageKind InvalidSubcommand) }
    ensures out_stays { OnErr result (O.writing out.new ≡ O.writing out.old) }
    ensures err_stays { OnErr result (E.writing err.new ≡ E.writing err.old) }
{
    match rule_of(alloc, order) {
        Ok(only) => Ok(tell_rules(alloc, only, out, err)),
        Err(fault) => Err(fault),
    }
}

/// The rule that an order names, if it names one.
fn rule_of(alloc: Global, order: &RulesOrder) -> Result<Option<Rule>, OrderFault>
    ensures rule { IfOk result (IsRuleOf order.now) }
    ensures faulty { OnErr result (NamesNoRule order.now) }
    ensures of_words { IfErr result IsOfWords }
    ensures usage { IfErr result (HasUsageKind InvalidSubcommand) }
{
    let Some(name) = &order.rule else {
        return Ok(None);
    };
    match Rule::from_name(name.as_bytes()) {
        Some(rule) => Ok(Some(rule)),
        None => Err(task_fault(alloc, Task::Rules, "there is no such rule")),
    }
}

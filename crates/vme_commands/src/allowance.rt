//! Breaks, i.e. violations of a rule, that are allowed, read from arguments of the command line.

ghost use Rattle.std.specs.Prelude.{◌≡◌, ◌<◌, IfOk, IfSome, Some, map, string_bytes};
ghost use Rattle.vme_audit.specs.declared.allowance.Allowance.{Allowance};
ghost use Rattle.vme_trace.specs.LineNumbers.{line_count};
ghost use Rattle.vme_commands.specs.AllowanceTexts.{allowance_text};

use memchr::memchr;
use std::alloc::{AllocError, Global};
use vme_audit::Allowance;
use vme_trace::{Line, Rule};

/// The allowance that a text stands for, if it is one: a rule, or a rule, `=` and a line, each by its name. Different
/// allowances have different texts.
pub fn allowance_of(text: &[u8]) -> Option<Allowance>
    ensures named { IfSome result (λ allowance. allowance_text allowance ≡ text.now) }
    ensures found { (allowance : Allowance) → IfSome allowance.line (λ line. line < line_count)
        → allowance_text allowance ≡ text.now → result ≡ Some allowance }
{
    match memchr(b'=', text) {
        Some(end) => {
            let rule = Rule::from_name(&text[..end])?;
            let line = Line::from_name(&text[end + 1..])?;
            Some(Allowance {
                rule,
                line: Some(line),
            })
        }
        None => {
            let rule = Rule::from_name(text)?;
            Some(Allowance { rule, line: None })
        }
    }
}

/// The allowances of some texts, in their order, if each has one. It fails if memory runs out.
pub fn allowances_of(alloc: Global, texts: &[String]) -> Result<Option<Vec<Allowance>>, AllocError>
    ensures named { IfOk result (λ read. IfSome read (λ all.
        map allowance_text all.items ≡ map string_bytes texts.now)) }
{
    let mut all = Vec::new(alloc);
    for text in texts {
        match allowance_of(text.as_bytes()) {
            Some(Allowance { rule, line }) => all.push(Allowance { rule, line })?,
            None => return Ok(None),
        }
    }
    Ok(Some(all))
}

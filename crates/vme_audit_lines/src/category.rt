//! How a break counts.

ghost use Rattle.std.specs.Prelude.{◌≡◌};
ghost use Rattle.vme_audit.specs.Allowances.{allows as allows_break, is_allowed as is_allowed_by};
ghost use Rattle.vme_auditor.specs.Breaks.{as_break};
ghost use Rattle.vme_audit_lines.specs.AuditLines.{category_of};

use vme_audit::Allowance;
use vme_auditor::AuditBreak;

/// How a break counts.
#[derive(Clone, Copy, Debug, PartialEq, Eq)]
pub enum BreakCategory {
    /// The recording is wrong.
    Broken,
    /// The recording can't be read there: a line is unknown whose level must be known.
    Unreadable,
    /// The break is a known deviation, and is allowed.
    Allowed,
}

/// Whether an allowance is for the rule of break `found`, and for its line or for any line.
fn allows(found: &AuditBreak, allowance: &Allowance) -> bool
    ensures { result ≡ allows_break (as_break found.now) allowance.now }
{
    allowance.rule.number() == found.rule.number()
        && match allowance.line {
            Some(line) => line == found.line,
            None => true,
        }
}

/// Whether one of some allowances allows a break.
pub fn is_allowed(allowances: &[Allowance], found: &AuditBreak) -> bool
    ensures { result ≡ is_allowed_by allowances.now (as_break found.now) }
{
    allowances.iter().any(|allowance| allows(found, allowance))
}

impl BreakCategory {
    /// How a break counts with these allowances.
    pub fn of(allowances: &[Allowance], found: &AuditBreak) -> BreakCategory
        ensures { result ≡ category_of allowances.now (as_break found.now) }
    {
        if is_allowed(allowances, found) {
            BreakCategory::Allowed
        } else if found.rule.is_unreadable() {
            BreakCategory::Unreadable
        } else {
            BreakCategory::Broken
        }
    }
}

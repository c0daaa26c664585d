//! A break with its category, and the counts of breaks by category.

ghost use Rattle.std.specs.Prelude.{◌≡◌, ◌-◌, ◌^◌, ◌<◌};
ghost use Rattle.vme_step_auditor.specs.Counting.{all_counted, with_category};

use vme_audit_lines::BreakCategory;
use vme_auditor::{AuditBreak, BreakCounts};

/// A break, and how it counts.
#[derive(Clone, Copy, Debug, PartialEq, Eq)]
pub struct CategorizedBreak {
    /// Whether it is allowed, and else whether the recording is wrong or unreadable there.
    pub category: BreakCategory,
    /// The break.
    pub found: AuditBreak,
}

/// Counts one more break, by its category.
pub(crate) fn count(counts: &mut BreakCounts, category: BreakCategory)
    requires { all_counted counts.old < 2 ^ 64 - 1 }
    ensures { counts.new ≡ with_category counts.old category }
{
    match category {
        BreakCategory::Broken => counts.broken += 1,
        BreakCategory::Unreadable => counts.unreadable += 1,
        BreakCategory::Allowed => counts.allowed += 1,
    }
}

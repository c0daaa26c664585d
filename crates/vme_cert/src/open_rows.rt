//! The rows that are open: at most one of each kind.

ghost use Rattle.std.specs.Prelude.{◌≡◌, ◌+◌, ◌<◌, ◌^◌, ◌∷◌, ◌++◌, [], List, None};
ghost use Rattle.vme_cert.specs.Vocabulary.{Row, Version};

use crate::comparison::{Comparison, OpenRow};
use crate::source::RowSource;
use vme_listing::{Row, Version};

/// The comparison of all rows so far, and the rows that are open: their last edge is to come.
#[derive(Drop)]
pub(crate) struct OpenRows<S: RowSource> {
    pub(crate) compared: Comparison<S>,
    pub(crate) tenure: Option<OpenRow>,
    pub(crate) cycle: Option<OpenRow>,
    pub(crate) transfer: Option<OpenRow>,
}

impl<S: RowSource> OpenRows<S> {
    ghost use Rattle.vme_cert.specs.WithEdge.{with_edge};
    ghost use Rattle.vme_cert.specs.Following.{CanClose, NoneIsOpen};

    /// The rows before any has started.
    pub(crate) fn new(version: Version, source: S) -> OpenRows<S>
        ensures rows { (whole : S.Whole) → S.gave whole source []
            → CanClose S.gave S.is_over whole version [] result }
        ensures taken { result.compared.taken ≡ 0 }
    {
        OpenRows {
            compared: Comparison {
                source,
                version,
                taken: 0,
                wrong: None,
            },
            tenure: None,
            cycle: None,
            transfer: None,
        }
    }

    /// Compares the open rows, without a last edge, and then `row`, the next expected row, which has no edge: the start
    /// of a stretch, a reset, or the verdict.
    pub(crate) fn close_before(&mut self, row: Row)
        requires { self.old.compared.taken < 2 ^ 62 }
        ensures rows { (whole : S.Whole) (version : Version) (expected_rows : List Row) → with_edge row None ≡ row
            → CanClose S.gave S.is_over whole version expected_rows self.old
            → CanClose S.gave S.is_over whole version (expected_rows ++ row ∷ []) self.new }
        ensures closed { NoneIsOpen self.new }
        ensures taken { self.new.compared.taken ≡ self.old.compared.taken + 1 }
    {
        self.compared.compare_row(self.tenure, None);
        self.compared.compare_row(self.cycle, None);
        self.compared.compare_row(self.transfer, None);
        self.tenure = None;
        self.cycle = None;
        self.transfer = None;
        let row = self.compared.begin(row);
        self.compared.compare_row(Some(row), None);
    }
}

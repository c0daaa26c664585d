//! When the variables of an annotated dump change.

ghost use Rattle.std.specs.Prelude.{◌≡◌, ◌∷◌, ◌++◌, List, [], Some, IfOk, OnOk, map, slice_get};
ghost use Rattle.vme_annotate.specs.Planned.{ArePlanned, planned, text_in};
ghost use Rattle.vme_annotation.specs.Shown.{all_changes, all_idle, break_changes, row_changes, shows_until};
ghost use Rattle.vme_annotation.specs.Shown.{verdict_changes};
ghost use Rattle.vme_listing.specs.declared.row.Row.{Row};

use std::alloc::{AllocError, Global};
use std::marker::Model;
use vme_annotation::ShownVariable;
use vme_listing::{ListedVerdict, Row};

/// A change of a variable.
#[derive(Clone, Copy)]
pub(crate) struct PlannedChange {
    /// From which instant on.
    pub instant: u32,
    /// The variable.
    pub variable: ShownVariable,
    /// The index of the row that the variable shows from then on. Without one it shows that nothing
    /// is in progress.
    pub row: Option<usize>,
}

/// The changes of rows, in the order of the rows.
#[derive(Drop)]
struct RowChanges {
    changes: Vec<PlannedChange>,
}

impl Model for RowChanges {
    ghost use Rattle.std.specs.Prelude.{List};
    ghost use Rattle.vme_annotate.specs.declared.changes.PlannedChange.{PlannedChange as Planned};

    ghost Value = { List Planned };

    ghost view = { λ c. c.changes.items };
}

impl RowChanges {
    /// From `instant` on `variable` shows the row with the index `row`, or nothing.
    fn push(
        &mut self,
        instant: u32,
        variable: ShownVariable,
        row: Option<usize>,
    ) -> Result<(), AllocError>
        ensures { OnOk result (self.new
            ≡ self.old ++ record { instant = instant; variable = variable; row = row } ∷ []) }
    {
        self.changes.push(PlannedChange {
            instant,
            variable,
            row,
        })?;
        Ok(())
    }

    /// From `start` on `variable` shows the row with the index `row`, and nothing from `end` on, if
    /// there is an end.
    fn push_part(
        &mut self,
        variable: ShownVariable,
        start: u32,
        row: usize,
        end: Option<u32>,
    ) -> Result<(), AllocError>
        ensures { (rows : List Row) → OnOk result (map (planned rows) self.new
            ≡ map (planned rows) self.old ++ shows_until variable start (text_in rows (Some row)) end) }
    {
        self.push(start, variable, Some(row))?;
        match end {
            Some(end) => self.push(end, variable, None),
            None => Ok(()),
        }
    }

    /// From `instant` on tenure, cycle and transfer show nothing: they end at the opening, a reset
    /// and a break.
    fn push_ends(&mut self, instant: u32) -> Result<(), AllocError>
        ensures { (rows : List Row) → OnOk result (map (planned rows) self.new
            ≡ map (planned rows) self.old ++ all_idle instant) }
    {
        self.push(instant, ShownVariable::Tenure, None)?;
        self.push(instant, ShownVariable::Cycle, None)?;
        self.push(instant, ShownVariable::Transfer, None)
    }

    /// A break at `instant`: tenure, cycle and transfer end, and the verdict shows the row with the
    /// index `row`.
    fn push_break(&mut self, instant: u32, row: usize) -> Result<(), AllocError>
        ensures { (rows : List Row) → OnOk result (map (planned rows) self.new
            ≡ map (planned rows) self.old ++ break_changes (text_in rows (Some row)) instant) }
    {
        self.push_ends(instant)?;
        self.push(instant, ShownVariable::Verdict, Some(row))
    }

    /// The changes of `row`, which has the index `place`.
    fn push_row(&mut self, place: usize, row: &Row) -> Result<(), AllocError>
        ensures { (rows : List Row) → slice_get rows place ≡ Some row.now → OnOk result (map (planned rows) self.new
            ≡ map (planned rows) self.old ++ row_changes row.now) }
    {
        match *row {
            Row::Start { .. } => Ok(()),
            Row::Reset { instant } => self.push_ends(instant),
            Row::OpenTenure { start, end } => self.push_part(
                ShownVariable::Tenure,
                start,
                place,
                end,
            ),
            Row::Tenure { start, end, .. } => self.push_part(
                ShownVariable::Tenure,
                start,
                place,
                end,
            ),
            Row::AddressedCycle { start, end, .. } => {
                self.push_part(ShownVariable::Cycle, start, place, end)
            }
            Row::FreeCycle { start, end, .. } => self.push_part(
                ShownVariable::Cycle,
                start,
                place,
                end,
            ),
            Row::InterruptCycle { start, end, .. } => {
                self.push_part(ShownVariable::Cycle, start, place, end)
            }
            Row::Transfer { start, close, .. } => {
                self.push_part(ShownVariable::Transfer, start, place, close)
            }
            Row::PendingTransfer { start, .. } => {
                self.push_part(ShownVariable::Transfer, start, place, None)
            }
            Row::Verdict(outcome) => self.push_outcome(outcome, place),
        }
    }

    /// The changes of the verdict `outcome`, whose row has the index `row`.
    fn push_outcome(&mut self, outcome: ListedVerdict, row: usize) -> Result<(), AllocError>
        ensures { (rows : List Row) → OnOk result (map (planned rows) self.new
            ≡ map (planned rows) self.old ++ verdict_changes (text_in rows (Some row)) outcome) }
    {
        match outcome {
            ListedVerdict::Conforming | ListedVerdict::NeverIdle => Ok(()),
            ListedVerdict::Broken(_, instant, _) => self.push_break(instant, row),
            ListedVerdict::Unreadable(_, instant, _) => self.push_break(instant, row),
        }
    }
}

/// All changes of the rows of a listing, in the order of the rows. First, at the opening, each
/// variable shows nothing.
fn changes_by_row(alloc: Global, rows: &[Row]) -> Result<Vec<PlannedChange>, AllocError>
    ensures { IfOk result (λ changes. map (planned rows.now) changes.items ≡ all_changes rows.now) }
{
    let mut made = RowChanges {
        changes: Vec::new(alloc),
    };
    made.push_ends(0)?;
    made.push(0, ShownVariable::Verdict, None)?;
    for place in 0..rows.len() {
        made.push_row(place, &rows[place])?;
    }
    let RowChanges { changes } = made;
    Ok(changes)
}

/// All changes of the rows of a listing, in the order of their instants, and at one instant in that
/// of the rows.
pub(crate) fn changes_of(alloc: Global, rows: &[Row]) -> Result<Vec<PlannedChange>, AllocError>
    ensures { IfOk result (λ changes. ArePlanned rows.now changes.items) }
{
    let mut changes = changes_by_row(alloc, rows)?;
    changes.sort_by_key(|change: &PlannedChange| change.instant)?;
    Ok(changes)
}

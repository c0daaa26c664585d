//! A table with one outcome for each entering memory (state of the monitor's automaton). Runs that reach the same
//! memory at the same instant share what follows.

ghost use Rattle.std.specs.Prelude.{◌≡◌, ℕ, ◌+◌, ◌-◌, ◌^◌, ◌≤◌, List, [], ◌++◌, All, length, map, min, IfOk, OnOk};
ghost use Rattle.std.specs.Prelude.{IsTrue};
ghost use Rattle.std.specs.Option.{is_some};
ghost use Rattle.vme_trace.specs.Levels.{Levels};
ghost use Rattle.vme_trace.specs.declared.step.Step.{Step};
ghost use Rattle.vme_monitor.specs.Meeting.{AreAmong, AreDistinct, marks_of, memories_in};
ghost use Rattle.vme_monitor.specs.Outcome.{IsWithin, inside-prop, StandsFor, nothing_shown};
ghost use Rattle.vme_monitor.specs.Run.{machine_step, run_of};
ghost use Rattle.vme_monitor.specs.Walk.{link_values, later_link_value, outcome_of, reach};
ghost use Rattle.vme_monitor.specs.Tables.{outcome};
ghost use Rattle.vme_monitor.specs.StepRuns.{seen_in};

use crate::link::{
    Link, TableRow, fresh_rows, later_links, later_rows, links_in, links_to_places, marks_in_links,
    marks_in_rows, shift_links, shift_rows,
};
use crate::machine::{Enumerable, Machine};
use crate::mark::Mark;
use crate::merge::{advance, are_apart, have_merged, memories, merge, most_sensitive};
use crate::view::StepView;
use std::alloc::{AllocError, Global};
use vme_trace::{Break, Step};

/// The outcomes of steps for all entering memories. A run starts at the place of its memory in the first layer. Runs
/// that have met, i.e. are in the same memory, continue in one row: `next` of a link is the index of the link in the
/// next layer, or after the last layer of the row, in which its runs continue.
#[derive(Debug, Drop)]
pub struct Table<P: Enumerable> {
    steps: u32,
    layers: Vec<Vec<Link>>,
    rows: Vec<TableRow<P>>,
    ghost full: { (p : P)
        → IsTrue (is_some (reach (link_values layers.items) (map outcome_of rows.items) (P.place_of p))) },
    ghost inside: { (p : P) → IsWithin steps (outcome layers.items rows.items p
        (P.place_of p)) } by { inside-prop steps (λ (p : P). outcome layers.items rows.items p (P.place_of p)) },
}

/// Merges rows that are in the same memory, and adds the links from the old rows to the merged ones as a layer. `most`
/// is at least the sensitivity of each row, and so is the result. It is computed anew only if rows are merged or `most`
/// is above 1.
fn merge_rows<M: Machine>(
    alloc: Global,
    layers: &mut Vec<Vec<Link>>,
    rows: &mut Vec<TableRow<M::Memory>>,
    last_seen: &mut [u32],
    stamp: u32,
    most: u8,
) -> Result<u8, AllocError>
    ensures reached { OnOk result
        ((k : ℕ) → reach (link_values layers.new.items) (map outcome_of rows.new.items) k
        ≡ reach (link_values layers.old.items) (map outcome_of rows.old.items) k) }
    ensures bounded { IfOk result
        (λ highest. All (λ row. M.sensitivity_of row.memory ≤ most) rows.old.items
        → All (λ row. M.sensitivity_of row.memory ≤ highest) rows.new.items) }
    ensures apart { OnOk result (AreDistinct M.Memory.place_of (memories_in (map outcome_of rows.new.items))) }
    ensures among { OnOk result
        (AreAmong (memories_in (map outcome_of rows.new.items)) (memories_in (map outcome_of rows.old.items))) }
    ensures marks { OnOk result
        (marks_of (link_values layers.new.items) (map outcome_of rows.new.items)
        ≡ marks_of (link_values layers.old.items) (map outcome_of rows.old.items)) }
{
    if have_merged(rows.as_slice(), last_seen, stamp) {
        let links = merge(alloc, rows)?;
        layers.push(links)?;
        Ok(most_sensitive::<M>(rows.as_slice()))
    } else if most > 1 {
        Ok(most_sensitive::<M>(rows.as_slice()))
    } else {
        Ok(most)
    }
}

/// A table of the steps so far.
#[derive(Drop)]
pub struct Unfinished<M: Machine> {
    layers: Vec<Vec<Link>>,
    rows: Vec<TableRow<M::Memory>>,
    /// For each place, the instant at which `have_merged` last found a row in the memory of that place.
    last_seen: Vec<u32>,
    /// No row is more sensitive than this.
    most: u8,
}

impl<M: Machine> Unfinished<M> {
    ghost use Rattle.vme_monitor.specs.UnfinishedTables.{HasRowsApart, HasRowsApartNext, HasRuns, HasRunsNext};
    ghost use Rattle.vme_monitor.specs.UnfinishedTables.{unfinished_marks};
    ghost use Rattle.vme_monitor.specs.WholeTables.{table_marks, table_outcome, table_steps};

    /// The table of no steps. It fails if memory runs out.
    pub fn new(alloc: Global) -> Result<Unfinished<M>, AllocError>
        ensures runs { IfOk result (λ t. (o : Levels)
            → HasRuns M.observation M.next M.Memory.place_of M.sensitivity_of t o []) }
        ensures apart { IfOk result (λ t. (o : Levels)
            → HasRowsApart M.observation M.next M.Memory.place_of M.Memory.COUNT M.Memory.nth_of t o []) }
    {
        let all = memories::<M::Memory>(alloc)?;
        let mut rows = fresh_rows(alloc, all.as_slice())?;
        let mut last_seen = vec![in alloc; u32::MAX; rows.len()]?;
        let mut layers = Vec::new(alloc);
        let most = most_sensitive::<M>(rows.as_slice());
        let most = merge_rows::<M>(
            alloc,
            &mut layers,
            &mut rows,
            last_seen.as_mut_slice(),
            0,
            most,
        )?;
        Ok(Unfinished {
            layers,
            rows,
            last_seen,
            most,
        })
    }

    /// Adds a step whose threshold is 0: all rows react to it, and some may become more sensitive.
    fn extend_all(
        &mut self,
        alloc: Global,
        view: &StepView,
        step: &Step,
        instant: u32,
        seen: &M::Observation,
    ) -> Result<(), AllocError>
        requires view { view.now ≡ seen_in view.now.before step.now.changes }
        requires seen { M.observation view.now.before view.now.after step.now.changes ≡ Some seen.now }
        ensures runs { OnOk result (HasRunsNext M.observation M.next M.Memory.place_of M.sensitivity_of
            self.old self.new view.now.before step.now instant) }
        ensures apart { OnOk result (HasRowsApartNext M.observation M.next M.Memory.place_of M.sensitivity_of
            M.Memory.COUNT M.Memory.nth_of self.old self.new view.now.before step.now instant) }
    {
        let rows = self.rows.as_mut_slice();
        advance::<M>(rows, &view.before, &view.after, seen, step, instant)?;
        let most = most_sensitive::<M>(self.rows.as_slice());
        self.most = merge_rows::<M>(
            alloc,
            &mut self.layers,
            &mut self.rows,
            self.last_seen.as_mut_slice(),
            instant,
            most,
        )?;
        Ok(())
    }

    /// Adds a step at its instant after the opening. It fails if memory runs out, and then nothing is said of the
    /// table.
    #[inline(always)]
    pub fn extend(
        &mut self,
        alloc: Global,
        view: &StepView,
        step: &Step,
        instant: u32,
    ) -> Result<(), AllocError>
        requires { view.now ≡ seen_in view.now.before step.now.changes }
        ensures runs { OnOk result (HasRunsNext M.observation M.next M.Memory.place_of M.sensitivity_of
            self.old self.new view.now.before step.now instant) }
        ensures apart { OnOk result (HasRowsApartNext M.observation M.next M.Memory.place_of M.sensitivity_of
            M.Memory.COUNT M.Memory.nth_of self.old self.new view.now.before step.now instant) }
    {
        let Some(seen) = M::observe_step(view, step.changes.as_slice()) else {
            return Ok(());
        };
        let threshold = M::threshold(&seen);
        if threshold == 0 {
            return self.extend_all(alloc, view, step, instant, &seen);
        }
        if self.most < threshold {
            return Ok(());
        }
        let rows = self.rows.as_mut_slice();
        advance::<M>(rows, &view.before, &view.after, &seen, step, instant)?;
        // rows that are apart need no merge, and a `most` of at most 1 isn't computed anew
        if self.most <= 1 && are_apart::<M>(self.rows.as_slice()) {
            return Ok(());
        }
        self.most = merge_rows::<M>(
            alloc,
            &mut self.layers,
            &mut self.rows,
            self.last_seen.as_mut_slice(),
            instant,
            self.most,
        )?;
        Ok(())
    }

    /// The table of the steps so far; `steps` is their number.
    pub fn finish(self, steps: u32) -> Table<M::Memory>
        requires { (o : Levels) × (x : List Step) × (steps ≡ length x)
            × HasRuns M.observation M.next M.Memory.place_of M.sensitivity_of self o x }
        ensures stands { (o : Levels) (x : List Step) → steps ≡ length x
            → HasRuns M.observation M.next M.Memory.place_of M.sensitivity_of self o x
            → StandsFor (run_of (machine_step M.observation M.next)) (table_outcome result) (table_steps result) o x }
        ensures marks { table_marks result ≡ unfinished_marks self }
    {
        let Unfinished {
            layers,
            rows,
            last_seen: _,
            most: _,
        } = self;
        Table {
            steps,
            layers,
            rows,
        }
    }
}

/// Appends `layers` to `all`, with each instant later by `by`.
fn later_layers(
    alloc: Global,
    all: &mut Vec<Vec<Link>>,
    layers: &[Vec<Link>],
    by: u32,
) -> Result<(), AllocError>
    ensures { OnOk result (link_values all.new.items ≡ link_values all.old.items ++ map (map (later_link_value by))
        (link_values layers.now)) }
{
    for layer in layers {
        let links = later_links(alloc, layer.as_slice(), by)?;
        all.push(links)?;
    }
    Ok(())
}

/// Makes each instant of `layers` later by `by`.
fn shift_layers(layers: &mut [Vec<Link>], by: u32)
    ensures { link_values layers.new ≡ map (map (later_link_value by)) (link_values layers.old) }
{
    for layer in layers.iter_mut() {
        shift_links(layer.as_mut_slice(), by);
    }
}

impl<P: Enumerable> Table<P> {
    ghost use Rattle.vme_monitor.specs.WholeTables.{HasRoomFor, outcome_of_both, table_layers, table_marks};
    ghost use Rattle.vme_monitor.specs.WholeTables.{table_outcome, table_rows, table_steps};

    /// The table of no steps. It fails if memory runs out.
    pub fn unit(alloc: Global) -> Result<Table<P>, AllocError>
        ensures outcomes { IfOk result (λ t. (p : P) → table_outcome t p ≡ nothing_shown p) }
        ensures counted { IfOk result (λ t. table_steps t ≡ 0) }
        ensures marks { IfOk result (λ t. table_marks t ≡ 0) }
    {
        let all = memories::<P>(alloc)?;
        let rows = fresh_rows(alloc, all.as_slice())?;
        Ok(Table {
            steps: 0,
            layers: Vec::new(alloc),
            rows,
        })
    }

    /// The table of the steps of `first` and then those of `second`. It fails if memory runs out.
    pub fn compose(
        alloc: Global,
        first: &Table<P>,
        second: &Table<P>,
    ) -> Result<Table<P>, AllocError>
        requires { table_steps first.now + table_steps second.now ≤ 268435456 }
        ensures outcomes { IfOk result (λ t. (p : P) → table_outcome t p ≡ outcome_of_both first.now second.now p) }
        ensures counted { IfOk result (λ t. table_steps t ≡ table_steps first.now + table_steps second.now) }
        ensures marks { IfOk result (λ t. table_marks t ≤ table_marks first.now + table_marks second.now) }
    {
        let mut layers = Vec::new(alloc);
        later_layers(alloc, &mut layers, first.layers.as_slice(), 0)?;
        let links = links_to_places(alloc, first.rows.as_slice(), 0)?;
        layers.push(links)?;
        later_layers(alloc, &mut layers, second.layers.as_slice(), first.steps)?;
        let rows = later_rows(alloc, second.rows.as_slice(), first.steps)?;
        Ok(Table {
            steps: first.steps + second.steps,
            layers,
            rows,
        })
    }

    /// Allocates all that `append_in` needs: room for the layers of `second` and one more, and a vector for one link
    /// from each row, which is the result. The table's steps, layers and rows stay as they are, after an error too.
    pub fn make_room(&mut self, alloc: Global, second: &Table<P>) -> Result<Vec<Link>, AllocError>
        ensures steps { table_steps self.new ≡ table_steps self.old }
        ensures layers { table_layers self.new ≡ table_layers self.old }
        ensures rows { table_rows self.new ≡ table_rows self.old }
        ensures room { IfOk result (λ room. HasRoomFor room self.new second.now) }
    {
        let more = second.layers.len() + 1;
        self.layers.reserve(more)?;
        Vec::with_capacity(alloc, self.rows.len())
    }

    /// The table of the steps of `self` and then those of `second`, which are both consumed: their links and rows are
    /// moved, not copied. `room` is made by `make_room`. Allocates nothing.
    pub fn append_in(self, room: Vec<Link>, second: Table<P>) -> Table<P>
        requires few { table_steps self + table_steps second ≤ 268435456 }
        requires room { HasRoomFor room self second }
        ensures outcomes { (p : P) → table_outcome result p ≡ outcome_of_both self second p }
        ensures counted { table_steps result ≡ table_steps self + table_steps second }
        ensures marks { table_marks result ≡ table_marks self + table_marks second }
    {
        let Table {
            steps,
            mut layers,
            rows,
        } = self;
        let Table {
            steps: more,
            layers: mut later,
            rows: mut ends,
        } = second;
        let links = links_in(room, rows);
        layers.push_reserved(links);
        shift_layers(later.as_mut_slice(), steps);
        let Ok(()) = layers.append(&mut later) else {
            unreachable!()
        };
        shift_rows(ends.as_mut_slice(), steps);
        Table {
            steps: steps + more,
            layers,
            rows: ends,
        }
    }

    /// How many marks the table's lists hold together, or the greatest `u64`.
    pub fn stored(&self) -> u64
        ensures { result ≡ min (table_marks self.now) (2 ^ 64 - 1) }
    {
        let mut count = 0u64;
        for layer in &self.layers {
            count = count.saturating_add(marks_in_links(layer.as_slice()));
        }
        count.saturating_add(marks_in_rows(self.rows.as_slice()))
    }

    /// How many steps the table covers.
    pub fn steps(&self) -> u32
        ensures { result ≡ table_steps self.now }
    {
        self.steps
    }

    /// The leaving memory, if `memory` enters.
    pub fn leaving(&self, memory: P) -> P
        ensures { result ≡ (table_outcome self.now memory).leaving }
    {
        let mut k = memory.place();
        for layer in &self.layers {
            if k >= layer.len() {
                return memory;
            }
            k = layer[k].next;
        }
        if k < self.rows.len() {
            self.rows[k].memory
        } else {
            memory
        }
    }

    /// The first break, if `memory` enters.
    pub fn first_break(&self, memory: P) -> Option<Break>
        ensures { result ≡ (table_outcome self.now memory).first_break }
    {
        let mut k = memory.place();
        for layer in &self.layers {
            if k >= layer.len() {
                return None;
            }
            let link = &layer[k];
            if let Some(found) = link.first_break {
                return Some(found);
            }
            k = link.next;
        }
        if k < self.rows.len() {
            self.rows[k].first_break
        } else {
            None
        }
    }

    /// How many marks there are to collect if `memory` enters, or the greatest `usize`.
    fn count_marks(&self, memory: P) -> usize {
        let mut count = 0usize;
        let mut k = memory.place();
        for layer in &self.layers {
            if k >= layer.len() {
                return count;
            }
            let link = &layer[k];
            count = count.saturating_add(link.marks.len());
            k = link.next;
        }
        if k < self.rows.len() {
            count = count.saturating_add(self.rows[k].marks.len());
        }
        count
    }

    /// The marks, if `memory` enters.
    pub fn marks(&self, alloc: Global, memory: P) -> Result<Vec<Mark>, AllocError>
        ensures { IfOk result (λ v. v.items ≡ (table_outcome self.now memory).marks) }
    {
        let mut all = Vec::with_capacity(alloc, self.count_marks(memory))?;
        let mut k = memory.place();
        for layer in &self.layers {
            if k >= layer.len() {
                return Ok(all);
            }
            let link = &layer[k];
            all.extend_from_slice(link.marks.as_slice())?;
            k = link.next;
        }
        if k < self.rows.len() {
            all.extend_from_slice(self.rows[k].marks.as_slice())?;
        }
        Ok(all)
    }
}

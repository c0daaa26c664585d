//! How far a body is read, between two pieces of it.

ghost use Rattle.std.specs.Prelude.{◌≡◌, false, List, None};
ghost use Rattle.vcd_read.specs.Header.{Net};
ghost use Rattle.vcd_read.specs.Bodies.{GivesOrStops, finished, place_of, unfinished};
ghost use Rattle.vcd_read.specs.BodyFold.{progress_of};
ghost use Rattle.vcd_read.specs.Meaning.{ReadGives};
ghost use Rattle.vcd_read.specs.declared.open_item.OpenItem.TheVariants.{Ready};

use crate::change_visitor::ChangeVisitor;
use crate::fault::{FaultKind, VcdFault};
use crate::open_item::OpenItem;
use crate::stopped::Stopped;
use crate::timed_visitor::{Clock, TimedVisitor};
use std::alloc::Global;

/// How far a body is read.
#[derive(Drop)]
pub(crate) struct BodyState<T: ChangeVisitor> {
    /// The current time, and the visitor of the changes.
    pub timed: TimedVisitor<T>,
    /// The line of the dump section that is open, if one is.
    pub dump_section: Option<u64>,
    /// Where the text so far ends.
    pub place: OpenItem,
}

impl<T: ChangeVisitor> BodyState<T> {
    /// Before any item.
    pub fn new(visitor: T) -> BodyState<T>
        ensures visitor { T.taken result.timed.visitor ≡ T.taken visitor }
        ensures clock { result.timed.clock ≡ record { time = 0; has_instant = false } }
        ensures dump_section { result.dump_section ≡ None }
        ensures place { result.place ≡ Ready }
    {
        BodyState {
            timed: TimedVisitor::new(visitor),
            dump_section: None,
            place: OpenItem::Ready,
        }
    }

    /// Ends the body and the current instant, and returns the visitor. An item that isn't whole and a dump section that
    /// is still open are faults here: then the current instant isn't ended, and the visitor comes with the fault.
    pub fn finish_or_stop(self, alloc: Global) -> Result<T, Stopped<T>>
        ensures { (nets : List Net) → GivesOrStops (λ t. T.taken t) (progress_of T.taken self.timed) result
            (finished T.with_change T.with_instant nets (progress_of T.taken self.timed) self.dump_section
            (place_of self.place)) }
    {
        if let Some(line) = self.unfinished() {
            return Err(Stopped {
                fault: VcdFault {
                    line,
                    kind: FaultKind::UnfinishedSection,
                },
                time: self.timed.clock.time,
                visitor: self.timed.visitor,
            });
        }
        self.timed.finish(alloc)
    }

    /// As `finish_or_stop`, but an error has the fault alone.
    pub fn finish(self, alloc: Global) -> Result<T, VcdFault>
        ensures { (nets : List Net) → ReadGives (λ t. T.taken t) result
            (finished T.with_change T.with_instant nets (progress_of T.taken self.timed) self.dump_section
            (place_of self.place)) }
    {
        match self.finish_or_stop(alloc) {
            Ok(visitor) => Ok(visitor),
            Err(stopped) => Err(stopped.fault),
        }
    }

    /// The line of what isn't ended: an item, or else a dump section.
    fn unfinished(&self) -> Option<u64>
        ensures { result ≡ unfinished self.now.place self.now.dump_section }
    {
        match &self.place {
            OpenItem::Ready => self.dump_section,
            OpenItem::Vector(digits) => Some(digits.line),
            OpenItem::Foreign(line) => Some(*line),
            OpenItem::Comment(line) => Some(*line),
        }
    }
}

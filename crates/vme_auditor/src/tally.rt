//! What happens in a recording, counted as its steps come.

ghost use Rattle.std.specs.Prelude.{◌≡◌, if◌then◌else◌};
ghost use Rattle.std.specs.Option.{option_map_or};
ghost use Rattle.vme_auditor.specs.Tallied.{at_answer, at_break, at_cycle, at_reset, at_tenure, at_transfer, counted};
ghost use Rattle.vme_auditor.specs.Tallied.{counts_so_far, hang_so_far, no_counts, tallied, to_pending};

use vme_audit::Counts;
use vme_monitor::mark::{BusGrant, CycleStart, StepMarks, TransferAnswer};
use vme_trace::{Class, Line};

/// The instant and the time, in the unit of the recording, at which a transfer starts.
#[derive(Clone, Copy, Debug, PartialEq, Eq)]
pub(crate) struct StartedTransfer {
    pub instant: u64,
    pub time: u64,
}

/// The counts so far, and what the rest of the current part may still change. A part ends at a break.
#[derive(Clone, Copy, Debug, PartialEq, Eq)]
pub(crate) struct Tally {
    /// The counts without the waiting transfer.
    counts: Counts,
    /// Whether a cycle has started since the part began and since the last reset.
    has_cycle: bool,
    /// The transfer that was started last, if it waits for its answer.
    waiting: Option<StartedTransfer>,
    /// The first transfer since the part began and since the last reset that stays without an answer.
    unanswered: Option<StartedTransfer>,
}

/// `count` and one more. No count exceeds the number of steps, so the sum never saturates.
#[inline(always)]
fn one_more(count: u64) -> u64
    ensures { result ≡ counted count }
{
    count.saturating_add(1)
}

impl Tally {
    /// The tally before any step.
    pub fn new() -> Tally
        ensures { result ≡ no_counts }
    {
        Tally {
            counts: Counts {
                resets: 0,
                tenures: 0,
                single: 0,
                block: 0,
                free: 0,
                acknowledge: 0,
                reads: 0,
                writes: 0,
                by_dtack: 0,
                by_berr: 0,
                pending: 0,
            },
            has_cycle: false,
            waiting: None,
            unanswered: None,
        }
    }

    /// Counts what happens at a step that breaks no rule: to the stretch, to the tenure, to the cycle and to the
    /// transfer, in this order.
    pub fn take(
        &mut self,
        instant: u64,
        time: u64,
        stretch: &StepMarks,
        tenure: &StepMarks,
        transfer: &StepMarks,
    )
        ensures { self.new ≡ tallied counted self.old instant time stretch.now tenure.now transfer.now }
    {
        self.take_reset(stretch.reset);
        self.take_tenure(tenure.tenure);
        self.take_cycle(transfer.cycle);
        self.take_transfer(StartedTransfer { instant, time }, transfer.transfer);
        self.take_answer(transfer.answer);
    }

    /// The part ends with a break, and another begins.
    pub fn end_at_break(&mut self)
        ensures { self.new ≡ at_break counted self.old }
    {
        self.leave_waiting();
        self.has_cycle = false;
        self.unanswered = None;
    }

    /// Counts a reset that ends a stretch, if there is one.
    fn take_reset(&mut self, resets: bool)
        ensures { self.new ≡ if resets then at_reset counted self.old else self.old }
    {
        if resets {
            self.end_at_break();
            self.counts.resets = one_more(self.counts.resets);
        }
    }

    /// Counts a tenure that starts, if one does.
    fn take_tenure(&mut self, tenure: Option<BusGrant>)
        ensures { self.new ≡ option_map_or (at_tenure counted self.old) tenure self.old }
    {
        if tenure.is_some() {
            self.counts.tenures = one_more(self.counts.tenures);
        }
    }

    /// Counts a cycle that starts, if one does.
    fn take_cycle(&mut self, start: Option<CycleStart>)
        ensures { self.new ≡ option_map_or (at_cycle counted self.old) start self.old }
    {
        if let Some(start) = start {
            self.has_cycle = true;
            match start.class {
                Class::S => self.counts.single = one_more(self.counts.single),
                Class::K => self.counts.block = one_more(self.counts.block),
                Class::F => self.counts.free = one_more(self.counts.free),
                Class::I => self.counts.acknowledge = one_more(self.counts.acknowledge),
            }
        }
    }

    /// Counts a transfer by its direction, if one starts.
    fn take_transfer(&mut self, started: StartedTransfer, write: Option<bool>)
        ensures { self.new ≡ option_map_or (at_transfer counted self.old started) write self.old }
    {
        if let Some(write) = write {
            self.begin_transfer(started, write);
        }
    }

    /// Counts a transfer that starts; it waits for its answer.
    fn begin_transfer(&mut self, started: StartedTransfer, write: bool)
        ensures { self.new ≡ at_transfer counted self.old started write }
    {
        self.leave_waiting();
        self.waiting = Some(started);
        if write {
            self.counts.writes = one_more(self.counts.writes);
        } else {
            self.counts.reads = one_more(self.counts.reads);
        }
    }

    /// Counts an answer, if there is one.
    fn take_answer(&mut self, answer: Option<TransferAnswer>)
        ensures { self.new ≡ option_map_or (at_answer counted self.old) answer self.old }
    {
        if let Some(answer) = answer {
            self.answer(answer);
        }
    }

    /// The waiting transfer is answered. If no cycle has started, it stays without an answer instead.
    fn answer(&mut self, answer: TransferAnswer)
        ensures { self.new ≡ at_answer counted self.old answer }
    {
        if !self.has_cycle {
            self.leave_waiting();
        } else if self.waiting.is_some() {
            self.waiting = None;
            if answer.line == Line::DTACK {
                self.counts.by_dtack = one_more(self.counts.by_dtack);
            } else {
                self.counts.by_berr = one_more(self.counts.by_berr);
            }
        }
    }

    /// The waiting transfer stays without an answer.
    fn leave_waiting(&mut self)
        ensures { self.new ≡ to_pending counted self.old }
    {
        if let Some(started) = self.waiting {
            self.counts.pending = one_more(self.counts.pending);
            self.waiting = None;
            if self.unanswered.is_none() {
                self.unanswered = Some(started);
            }
        }
    }

    /// The counts, if the recording ends here.
    pub fn counts(&self) -> Counts
        ensures { result ≡ counts_so_far counted self.now }
    {
        let mut ended = *self;
        ended.leave_waiting();
        ended.counts
    }

    /// The first transfer without an answer that no reset follows, if the recording ends here.
    pub fn hang(&self) -> Option<StartedTransfer>
        ensures { result ≡ hang_so_far self.now }
    {
        match self.unanswered {
            Some(started) => Some(started),
            None => self.waiting,
        }
    }
}

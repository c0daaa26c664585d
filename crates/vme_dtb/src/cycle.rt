//! Which answers the cycle that started last still admits.

ghost use Rattle.std.specs.Prelude.{◌≡◌, ◌<◌};
ghost use Rattle.vme_dtb.specs.CycleState.{after_answer, cycle_entered, is_interrupt_acknowledge};
ghost use Rattle.vme_dtb.specs.CycleState.{is_answered_interrupt_acknowledge};
ghost use Rattle.vme_dtb.specs.CycleState.{is_read_modify_write_broken, is_direction_changed, unanswered_of};
ghost use Rattle.vme_dtb.specs.MemoryNumbers.{cycle_nth, cycle_place};

use vme_monitor::mark::CycleStart;
use vme_trace::Class;

/// The cycle that started last, as far as its class and the answers so far say which answers may follow.
#[derive(Clone, Copy, PartialEq, Eq, Debug)]
pub enum CyclePhase {
    /// None has started, or one of a free code: any transfers may be in it.
    Free,
    /// A single cycle without an answer.
    Single,
    /// A single cycle with one answer, of a read: that of a write may follow.
    SingleRead,
    /// A single cycle with all the answers that it may have.
    SingleDone,
    /// A block transfer without an answer.
    Block,
    /// A block transfer that reads.
    BlockReading,
    /// A block transfer that writes.
    BlockWriting,
    /// An interrupt acknowledge without an answer.
    Interrupt,
    /// An interrupt acknowledge with the one answer that it may have.
    InterruptDone,
}

impl CyclePhase {
    /// A cycle of the class, without an answer.
    pub(crate) fn of_class(class: Class) -> CyclePhase
        ensures { result ≡ unanswered_of class }
    {
        match class {
            Class::S => CyclePhase::Single,
            Class::K => CyclePhase::Block,
            Class::I => CyclePhase::Interrupt,
            Class::F => CyclePhase::Free,
        }
    }

    /// The cycle in which an instant is: this one, unless another starts there.
    pub(crate) fn entered(self, cycle_start: Option<CycleStart>) -> CyclePhase
        ensures { result ≡ cycle_entered self cycle_start }
    {
        match cycle_start {
            Some(cycle_start) => CyclePhase::of_class(cycle_start.class),
            None => self,
        }
    }

    /// The cycle after one more answer, of a write or of a read.
    pub(crate) fn answered(self, write: bool) -> CyclePhase
        ensures { result ≡ after_answer self write }
    {
        match self {
            CyclePhase::Free => CyclePhase::Free,
            CyclePhase::Single if !write => CyclePhase::SingleRead,
            CyclePhase::Single | CyclePhase::SingleRead | CyclePhase::SingleDone =>
                CyclePhase::SingleDone,
            CyclePhase::Block if write => CyclePhase::BlockWriting,
            CyclePhase::Block | CyclePhase::BlockReading => CyclePhase::BlockReading,
            CyclePhase::BlockWriting => CyclePhase::BlockWriting,
            CyclePhase::Interrupt | CyclePhase::InterruptDone => CyclePhase::InterruptDone,
        }
    }

    /// Whether one more answer makes a single cycle other than a read and then a write.
    pub(crate) fn is_read_modify_write_broken(self, write: bool) -> bool
        ensures { result ≡ is_read_modify_write_broken self write }
    {
        match self {
            CyclePhase::SingleRead => !write,
            CyclePhase::SingleDone => true,
            _ => false,
        }
    }

    /// Whether one more answer changes the direction of a block transfer.
    pub(crate) fn is_direction_changed(self, write: bool) -> bool
        ensures { result ≡ is_direction_changed self write }
    {
        match self {
            CyclePhase::BlockReading => write,
            CyclePhase::BlockWriting => !write,
            _ => false,
        }
    }

    /// Whether it is an interrupt acknowledge.
    pub(crate) fn is_interrupt_acknowledge(self) -> bool
        ensures { result ≡ is_interrupt_acknowledge self }
    {
        matches!(self, CyclePhase::Interrupt | CyclePhase::InterruptDone)
    }

    /// Whether it is an interrupt acknowledge that was answered.
    pub(crate) fn is_answered_interrupt_acknowledge(self) -> bool
        ensures { result ≡ is_answered_interrupt_acknowledge self }
    {
        matches!(self, CyclePhase::InterruptDone)
    }

    /// The number of the phase among all nine, from 0.
    pub(crate) fn place(self) -> usize
        ensures place { result ≡ cycle_place self }
        ensures below { result < 9 }
    {
        match self {
            CyclePhase::Free => 0,
            CyclePhase::Single => 1,
            CyclePhase::SingleRead => 2,
            CyclePhase::SingleDone => 3,
            CyclePhase::Block => 4,
            CyclePhase::BlockReading => 5,
            CyclePhase::BlockWriting => 6,
            CyclePhase::Interrupt => 7,
            CyclePhase::InterruptDone => 8,
        }
    }

    /// The phase with this number, and the last one for numbers past them.
    pub(crate) fn nth(place: usize) -> CyclePhase
        ensures { result ≡ cycle_nth place }
    {
        match place {
            0 => CyclePhase::Free,
            1 => CyclePhase::Single,
            2 => CyclePhase::SingleRead,
            3 => CyclePhase::SingleDone,
            4 => CyclePhase::Block,
            5 => CyclePhase::BlockReading,
            6 => CyclePhase::BlockWriting,
            7 => CyclePhase::Interrupt,
            _ => CyclePhase::InterruptDone,
        }
    }
}

//! A fault of a dump that isn't want of memory.

ghost use Rattle.std.specs.Prelude.{◌≡◌, false};
ghost use Rattle.vcd_read.specs.Meaning.{is_want_of_memory};

use vcd_read::VcdFault;

/// The first fault of a dump. It isn't want of memory.
#[derive(Drop)]
pub(crate) struct NonMemoryFault {
    pub fault: VcdFault,
    ghost not_want: { is_want_of_memory fault.kind ≡ false },
}

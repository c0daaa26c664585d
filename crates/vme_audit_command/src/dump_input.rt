//! The bytes of a dump, as they come.

ghost use Rattle.std.specs.Prelude.{◌≡◌, ◌++◌, ◌≤◌, suc, false, true, ℕ, List, [], length, drop, Ok, Err, IfOk, OnOk};
ghost use Rattle.std.specs.Io.KnownBytes.{Consumes, IsAtEnd};
ghost use Rattle.vme_audit_command.specs.declared.dump_input.ReadFault.TheVariants.{Failed as NotRead};
ghost use Rattle.vme_audit_command.specs.declared.dump_input.ReadFault.TheVariants.{Memory as NoMemory};

use std::alloc::{AllocError, Global};
use std::marker::Model;
use vme_trace::Source;

/// The greatest number of bytes of one read.
const ROOM: usize = 65_536;

/// The bytes of a dump that were read and not yet taken.
#[derive(Drop)]
pub(crate) struct DumpInput {
    held: Vec<u8>,
    /// The buffer into which the next bytes are read.
    room: Vec<u8>,
}

impl Model for DumpInput {
    ghost use Rattle.std.specs.Prelude.{ℕ, List, ◌<◌, vec_len};

    ghost Value = { List ℕ };

    ghost view = { λ d. d.held.items };

    ghost invariant = { λ d. 0 < vec_len d.room };
}

/// Why nothing more is read.
#[derive(Clone, Copy, Debug)]
pub(crate) enum ReadFault {
    /// Reading the dump fails.
    Failed,
    /// Memory runs out.
    Memory,
}

impl From<AllocError> for ReadFault {
    ghost use Rattle.vme_audit_command.specs.declared.dump_input.ReadFault.TheVariants.{Memory};

    ghost from_gives = { λ _ e. e ≡ Memory };

    fn from(_e: AllocError) -> ReadFault {
        ReadFault::Memory
    }
}

impl DumpInput {
    /// The state before the first read. It fails if memory runs out.
    pub fn new(alloc: Global) -> Result<DumpInput, AllocError>
        ensures { IfOk result (λ input. input ≡ []) }
    {
        let room = Vec::from_elem(alloc, 0, ROOM)?;
        Ok(DumpInput {
            held: Vec::new(alloc),
            room,
        })
    }

    /// The bytes that were read and not yet taken.
    pub fn bytes(&self) -> &[u8]
        ensures { result.now ≡ self.now }
    {
        &self.held
    }

    /// Waits for more bytes, and returns whether any came. It fails if a read fails or memory runs out, and then
    /// nothing is said of the bytes that are held.
    pub fn read<D: Source>(&mut self, dump: &mut D) -> Result<bool, ReadFault>
        ensures more { IfOk result (λ _. (more : List ℕ)
            × Consumes (D.reading dump.old).left (D.reading dump.new).left more × (self.new ≡ self.old ++ more)) }
        ensures end { result ≡ Ok false → IsAtEnd (D.reading dump.new).left }
        ensures ok { OnOk result ((D.reading dump.new).failures ≡ (D.reading dump.old).failures) }
        ensures failed { result ≡ Err NotRead → (D.reading dump.new).failures ≡ suc (D.reading dump.old).failures }
        ensures memory { result ≡ Err NoMemory → (D.reading dump.new).failures ≡ (D.reading dump.old).failures }
        ensures came { result ≡ Ok true → (D.reading dump.new).reads ≡ suc (D.reading dump.old).reads }
        ensures counted { (D.reading dump.old).reads ≤ (D.reading dump.new).reads }
    {
        match dump.read(self.room.as_mut_slice()) {
            Ok(count) => {
                self.held.extend_from_slice(&self.room[..count])?;
                Ok(count > 0)
            }
            Err(_) => Err(ReadFault::Failed),
        }
    }

    /// Drops the first bytes, which were taken.
    pub fn drop_first(&mut self, count: usize)
        requires { count ≤ length self.old }
        ensures { self.new ≡ drop count self.old }
    {
        if count == 0 {
            // the copy would take as long as what is held
            return;
        }
        let len = self.held.len();
        self.held.as_mut_slice().copy_within(count..len, 0);
        self.held.truncate(len - count);
    }
}

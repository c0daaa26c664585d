//! The operating system, as far as the program uses it.

ghost use Rattle.std.specs.Prelude.{ℕ, Bool, List, Option, option_map};
ghost use Rattle.vme_trace.specs.Streams.{Reading};
ghost use Rattle.vme_explain.specs.declared.saving.FileId.{FileId};
ghost use Rattle.vme_explain.specs.declared.saving.PathEntry.{PathEntry};
ghost use Rattle.vme_program.specs.declared.environment.WriteResult.{WriteResult};

use std::alloc::Global;
use vme_explain::{FileId, PathEntry};
use vme_trace::Source;

/// How the writing of a file ended.
#[derive(Clone, Copy, Debug, PartialEq, Eq)]
pub enum WriteResult {
    /// All of its bytes are there.
    Whole,
    /// It can't be written.
    Failed,
    /// Memory ran out.
    Memory,
}

/// The operating system, as far as the program uses it: files by their names, and standard input.
///
/// Each ghost member relates the arguments of a call to its result. A `Reading` is the state of a reader: the bytes
/// that it still gives, and how its reads end.
pub trait Environment {
    /// The reader of a file, or of standard input.
    type Reader: Source + Drop;

    /// Opening the file of this name gave a reader in this state, or failed.
    ghost opens: { Self → List ℕ → Option Reading → Type 0 };

    /// Standard input is a reader in this state.
    ghost gives_input: { Self → Reading → Type 0 };

    /// Standard input is a terminal, or isn't.
    ghost on_terminal: { Self → Bool → Type 0 };

    /// A reader in this state reads the file of this identity; None where that can't be determined.
    ghost reads_file: { Self → Reading → Option FileId → Type 0 };

    /// The file at this path has this identity; None where there is none.
    ghost is_at_path: { Self → List ℕ → Option FileId → Type 0 };

    /// This is what is at the path.
    ghost has_entry: { Self → List ℕ → PathEntry → Type 0 };

    /// A file of these bytes has replaced what was at this path, or the writing ended otherwise.
    ghost replaces: { Self → List ℕ → List ℕ → WriteResult → Type 0 };

    /// These bytes were written into the file at this path, or the writing ended otherwise.
    ghost writes: { Self → List ℕ → List ℕ → WriteResult → Type 0 };

    /// Opens a file to be read.
    fn open_file(&self, name: &str) -> Option<Self::Reader>
        ensures { opens self.now name.now (option_map Self.Reader.reading result) };

    /// The reader of standard input.
    fn input(&self) -> Self::Reader
        ensures { gives_input self.now (Self.Reader.reading result) };

    /// Whether standard input is a terminal.
    fn is_terminal(&self) -> bool
        ensures { on_terminal self.now result };

    /// Which file a reader reads.
    fn id_of(&self, reader: &Self::Reader) -> Option<FileId>
        ensures { reads_file self.now (Self.Reader.reading reader.now) result };

    /// Which file is at a path.
    fn id_at(&self, path: &str) -> Option<FileId>
        ensures { is_at_path self.now path.now result };

    /// What is at a path, once links are followed.
    fn entry_at(&self, path: &str) -> PathEntry
        ensures { has_entry self.now path.now result };

    /// Writes a file beside what is at a path, and renames it onto the path. Where that fails, the old file stays.
    fn replace_file(&self, alloc: Global, path: &str, bytes: &[u8]) -> WriteResult
        ensures { replaces self.now path.now bytes.now result };

    /// Writes a file at a path, over the one that is there.
    fn write_file(&self, path: &str, bytes: &[u8]) -> WriteResult
        ensures { writes self.now path.now bytes.now result };
}

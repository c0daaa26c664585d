//! The files of the system and standard input, as the program asks for them.

use crate::save::put;
use std::alloc::Global;
use std::fs::{self, File, Metadata};
use std::io::{self, ErrorKind, IsTerminal, Read, Stdin, Write};
use std::os::unix::fs::MetadataExt;
use vme_explain::{FileId, PathEntry, is_save_file};
use vme_picture::is_picture;
use vme_program::{Environment, WriteResult};
use vme_stream::Io;

/// How many bytes of a file are looked at to see whether the program wrote it.
const BEGIN: usize = 64;

/// The source of bytes.
#[derive(Drop)]
pub(crate) enum Stream {
    /// A file.
    File(File),
    /// Standard input.
    Input(Stdin),
}

impl Read for Stream {
    fn read(&mut self, buffer: &mut [u8]) -> io::Result<usize> {
        match self {
            Stream::File(file) => file.read(buffer),
            Stream::Input(input) => input.read(buffer),
        }
    }
}

/// The files of the system and standard input.
#[derive(Drop)]
pub(crate) struct Host<'a> {
    rt: &'a HostRuntime,
}

impl<'a> Host<'a> {
    /// The files and the standard input that `rt` gives.
    pub(crate) fn new(rt: &'a HostRuntime) -> Host<'a> {
        Host { rt }
    }
}

// No contract can say what a file, standard input or a path gives.
impl Environment for Host<'_> {
    type Reader = Io<Stream>;

    ghost opens = { λ _ _ _. Unit {0} };

    ghost gives_input = { λ _ _. Unit {0} };

    ghost on_terminal = { λ _ _. Unit {0} };

    ghost reads_file = { λ _ _ _. Unit {0} };

    ghost is_at_path = { λ _ _ _. Unit {0} };

    ghost has_entry = { λ _ _ _. Unit {0} };

    ghost replaces = { λ _ _ _ _. Unit {0} };

    ghost writes = { λ _ _ _ _. Unit {0} };

    fn open_file(&self, name: &str) -> Option<Io<Stream>> {
        match fs::open(self.rt, name) {
            Ok(file) => Some(Io::new(Stream::File(file))),
            Err(_) => None,
        }
    }

    fn input(&self) -> Io<Stream> {
        Io::new(Stream::Input(self.rt.stdin()))
    }

    fn is_terminal(&self) -> bool {
        self.rt.stdin().is_terminal()
    }

    fn id_of(&self, source: &Io<Stream>) -> Option<FileId> {
        match source.reader() {
            Stream::File(file) => id_of(file.metadata()),
            Stream::Input(_) => None,
        }
    }

    fn id_at(&self, path: &str) -> Option<FileId> {
        id_of(fs::metadata(self.rt, path))
    }

    fn entry_at(&self, path: &str) -> PathEntry {
        if let Err(error) = fs::symlink_metadata(self.rt, path) {
            return match error.kind() {
                ErrorKind::NotFound => PathEntry::Nothing,
                _ => PathEntry::Other,
            };
        }
        match fs::metadata(self.rt, path) {
            Ok(found) if found.is_file() => PathEntry::File {
                id: FileId {
                    device: found.dev(),
                    number: found.ino(),
                },
                is_ours: is_ours(self.rt, path),
            },
            _ => PathEntry::Other,
        }
    }

    fn replace_file(&self, alloc: Global, path: &str, bytes: &[u8]) -> WriteResult {
        put(self.rt, alloc, path, bytes)
    }

    fn write_file(&self, path: &str, bytes: &[u8]) -> WriteResult {
        match fs::create(self.rt, path) {
            Ok(mut file) => match file.write_all(bytes) {
                Ok(()) => WriteResult::Whole,
                Err(_) => WriteResult::Failed,
            },
            Err(_) => WriteResult::Failed,
        }
    }
}

/// The identity of the file with this metadata.
fn id_of(found: io::Result<Metadata>) -> Option<FileId> {
    let found = found.ok()?;
    Some(FileId {
        device: found.dev(),
        number: found.ino(),
    })
}

/// Whether a file begins as one that the program writes.
fn is_ours(rt: &HostRuntime, path: &str) -> bool {
    let Ok(mut file) = fs::open(rt, path) else {
        return false;
    };
    let mut begin = [0; BEGIN];
    match file.read(&mut begin) {
        Ok(count) => is_save_file(&begin[..count]) || is_picture(&begin[..count]),
        Err(_) => false,
    }
}

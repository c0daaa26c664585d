//! Whether a file may be written over what is at its path, and the text if it may not.

ghost use Rattle.std.specs.Prelude.{◌≡◌, IfOk};
ghost use Rattle.vme_explain.specs.Saving.{is_one_file, is_same, is_this_file, refusal_reason, save_refusal};
ghost use Rattle.vme_explain.specs.Saving.{save_refusal_text};

use std::alloc::{AllocError, Global};
use vme_text::{Text, push_escaped};

/// The identity of a file, whatever path or link leads to it: its device, and its number there.
#[derive(Clone, Copy, Debug, PartialEq, Eq)]
pub struct FileId {
    /// The device.
    pub device: u64,
    /// The number of the file on it.
    pub number: u64,
}

/// What is at a path where a file is to be written.
#[derive(Clone, Copy, Debug, PartialEq, Eq)]
pub enum PathEntry {
    /// Nothing.
    Nothing,
    /// A file.
    File {
        /// Its identity.
        id: FileId,
        /// Whether it begins like a file that this program writes.
        is_ours: bool,
    },
    /// A folder, a device, a pipe, a link that leads nowhere, or what can't be looked at.
    Other,
}

/// Why a file isn't written.
#[derive(Clone, Copy, Debug, PartialEq, Eq)]
pub enum SaveRefusal {
    /// It is the binding.
    Binding,
    /// It is the dump.
    Dump,
    /// A file exists there that this program didn't write.
    Foreign,
    /// Another file is to be written there too.
    Shared,
}

/// Whether two files are the same.
fn is_same(one: FileId, other: FileId) -> bool
    ensures { result ≡ is_same one other }
{
    one.device == other.device && one.number == other.number
}

/// Whether file `id` is at the path of `entry`.
fn is_this_file(entry: &PathEntry, id: FileId) -> bool
    ensures { result ≡ is_this_file entry.now id }
{
    match entry {
        PathEntry::File { id: other, .. } => is_same(*other, id),
        _ => false,
    }
}

/// Whether the same file is at two paths, by whatever links.
pub fn is_one_file(one: &PathEntry, other: &PathEntry) -> bool
    ensures { result ≡ is_one_file one.now other.now }
{
    match one {
        PathEntry::File { id, .. } => is_this_file(other, *id),
        _ => false,
    }
}

/// Why a file isn't written over `entry`, by the files of the binding and of the dump: the entry is one of these
/// inputs, or this program didn't write it. A file is written where nothing is, and over a file of this program.
pub fn save_refusal(entry: &PathEntry, binding: FileId, dump: FileId) -> Option<SaveRefusal>
    ensures { result ≡ save_refusal entry.now binding dump }
{
    match entry {
        PathEntry::Nothing => None,
        PathEntry::File { id, .. } if is_same(*id, binding) => Some(SaveRefusal::Binding),
        PathEntry::File { id, .. } if is_same(*id, dump) => Some(SaveRefusal::Dump),
        PathEntry::File { is_ours, .. } if *is_ours => None,
        _ => Some(SaveRefusal::Foreign),
    }
}

/// Why a file isn't written, as the end of a line.
fn refusal_reason(refusal: SaveRefusal) -> &'static [u8]
    ensures { result.now ≡ refusal_reason refusal }
{
    match refusal {
        SaveRefusal::Binding => b": it is the binding\n",
        SaveRefusal::Dump => b": it is the dump\n",
        SaveRefusal::Foreign => b": it is there, and vmecheck didn't write it\n",
        SaveRefusal::Shared => b": two files are wanted there\n",
    }
}

/// The message that the file of this path isn't written. The only error is want of memory.
pub fn save_refusal_text(
    alloc: Global,
    path: &str,
    refusal: SaveRefusal,
) -> Result<Text, AllocError>
    ensures { IfOk result (λ text. text ≡ save_refusal_text path.now refusal) }
{
    let mut text = Text::new(alloc);
    text.push(b"vmecheck: nothing is written over ")?;
    push_escaped(&mut text, alloc, path.as_bytes())?;
    text.push(refusal_reason(refusal))?;
    Ok(text)
}
